// The steps of a script, with their names resolved.
ghost use Rattle.std.specs.Prelude.{◌≡◌, ◌∷◌, ◌++◌, [], OnOk};

use crate::lists::{Entries, put};
use qc_base::{Amount, Name, NoMemory, Text};

/// The key of a row: what the call was given for a `text` parameter, by its place from 0, or a constant.
#[derive(Clone, Copy, Debug, PartialEq, Eq)]
pub enum Key {
    Param(usize),
    Constant(Text),
}

/// A row as a step names it: `T[K]` or `R[K]`. The step tells whether the name is that of a table or of a resource.
#[derive(Clone, Copy, Debug, PartialEq, Eq)]
pub struct Cell {
    pub name: Name,
    pub key: Key,
}

/// A number, what the call was given for a `whole` parameter, by its place from 0, or the amount of a row of a table.
#[derive(Clone, Copy, Debug)]
pub enum Term {
    Number(Amount),
    Param(usize),
    Row(Name, Key),
}

/// A term with the sign before it. The first term of an expression has none, and counts as added.
#[derive(Clone, Copy, Debug)]
pub struct SignedTerm {
    pub minus: bool,
    pub term: Term,
}

/// 1 to 4 terms, worked out from the left. Contracts see the list of terms.
pub type Expression = Entries<SignedTerm>;

/// How a comparison compares its left side with its right side.
#[derive(Clone, Copy, Debug, PartialEq, Eq)]
pub enum Compare {
    Less,
    AtMost,
    Equal,
    NotEqual,
    AtLeast,
    More,
}

/// `E OP E`
#[derive(Debug, Drop)]
pub struct Comparison {
    pub left: Expression,
    pub compare: Compare,
    pub right: Expression,
}

/// A step of a script (docs/FORMATS.md, "Scripts").
#[derive(Debug, Drop)]
pub enum Step {
    /// `need E OP E` fails where the comparison is false.
    Need(Comparison),
    /// `when E OP E` has the next step skipped where the comparison is false.
    When(Comparison),
    /// `add T[K] E`: the row's amount grows.
    Add(Cell, Expression),
    /// `sub T[K] E`: the row's amount falls.
    Sub(Cell, Expression),
    /// `set T[K] E`: the row's amount becomes this.
    Set(Cell, Expression),
    /// `move T[K] U[K] E`: the first row's amount falls, then the second one's grows by the same.
    Move(Cell, Cell, Expression),
    /// `out R[K] += E`: an outside row's amount grows.
    Grow(Cell, Expression),
    /// `out R[K] -= E`: an outside row's amount falls.
    Shrink(Cell, Expression),
    /// `retract R` takes back the last change of a resource that the attempt made.
    Retract(Name),
    /// `fail` fails.
    Fail,
    /// `abort` marks the attempt as one that is to fail at its end.
    Abort,
}

/// What a line of a script is.
#[derive(Debug, Drop)]
pub enum Line {
    /// A blank line, or a comment.
    Blank,
    Step(Step),
    /// None of these.
    Bad,
}

/// A term more, behind the others. Its kinds are told apart since the checker proves no `SignedTerm` of a whole term.
pub fn put_term(terms: &mut Vec<SignedTerm>, minus: bool, term: Term) -> Result<(), NoMemory>
    ensures { OnOk result (terms.new.items ≡ terms.old.items ++ record { minus = minus; term = term } ∷ []) }
{
    match term {
        Term::Number(number) => {
            let term = Term::Number(number);
            put(terms, SignedTerm { minus, term })
        }
        Term::Param(place) => {
            let term = Term::Param(place);
            put(terms, SignedTerm { minus, term })
        }
        Term::Row(table, key) => {
            let term = Term::Row(table, key);
            put(terms, SignedTerm { minus, term })
        }
    }
}
