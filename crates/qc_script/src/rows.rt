// The rows that a script names.
ghost use Rattle.std.specs.Prelude.{◌≡◌, ◌++◌, slice_get, flat_map, OnOk, OnErr};
ghost use Rattle.std.specs.List.{list_any};
ghost use Rattle.std.specs.Option.{option_to_list};
ghost use Rattle.qc_base.specs.Rows.{space_eq, row_eq};
ghost use Rattle.qc_base.specs.declared.recording.Space.TheVariants.{Inside as inside};
ghost use Rattle.qc_script.specs.Naming.{text_of, key_text, row_at, row_of, rows_of_term, rows_of_terms, rows_of_step};
ghost use Rattle.qc_script.specs.Naming.{rows_with, rows_of};

use crate::script::Script;
use crate::step::{Cell, Comparison, Expression, Key, SignedTerm, Step, Term};
use qc_base::{Arg, Name, NoMemory, Row, Space, Text};
use std::alloc::Global;

fn text_of(args: &[Arg], place: usize) -> Option<Text>
    ensures { result ≡ text_of (slice_get args.now place) }
{
    match args.get(place) {
        Some(Arg::Text(text)) => Some(*text),
        Some(Arg::Whole(_)) => None,
        None => None,
    }
}

fn key_text(args: &[Arg], key: &Key) -> Option<Text>
    ensures { result ≡ key_text args.now key.now }
{
    match key {
        Key::Param(place) => text_of(args, *place),
        Key::Constant(text) => Some(*text),
    }
}

/// The row that a name and a key mean with these arguments. None where the key's parameter is given no text.
pub fn row_at(space: Space, args: &[Arg], name: &Name, key: &Key) -> Option<Row>
    ensures { result ≡ row_at space args.now name.now key.now }
{
    let key = key_text(args, key)?;
    Some(Row {
        space,
        name: *name,
        key,
    })
}

/// The row that a step names with these arguments. None where the key's parameter is given no text.
pub fn row_of(space: Space, args: &[Arg], cell: &Cell) -> Option<Row>
    ensures { result ≡ row_of space args.now cell.now }
{
    row_at(space, args, &cell.name, &cell.key)
}

fn same_space(a: Space, b: Space) -> bool
    ensures { result ≡ space_eq a b }
{
    match (a, b) {
        (Space::Inside, Space::Inside) => true,
        (Space::Outside, Space::Outside) => true,
        (Space::Inside, Space::Outside) => false,
        (Space::Outside, Space::Inside) => false,
    }
}

/// Whether two rows are the same.
pub fn same_row(a: &Row, b: &Row) -> bool
    ensures { result ≡ row_eq a.now b.now }
{
    same_space(a.space, b.space)
        && a.name.as_bytes() == b.name.as_bytes()
        && a.key.as_bytes() == b.key.as_bytes()
}

fn has_row(rows: &[Row], row: &Row) -> bool
    ensures { result ≡ list_any (row_eq row.now) rows.now }
{
    for other in rows {
        if same_row(row, other) {
            return true;
        }
    }
    false
}

// A row more, where there is one and it isn't among them.
fn put_row(rows: &mut Vec<Row>, row: Option<Row>) -> Result<(), NoMemory>
    ensures { OnOk result (rows.new.items ≡ rows_with rows.old.items (option_to_list row)) }
{
    let Some(row) = row else {
        return Ok(());
    };
    if has_row(rows.as_slice(), &row) {
        return Ok(());
    }
    match rows.push(row) {
        Ok(()) => Ok(()),
        Err(_) => Err(NoMemory),
    }
}

fn row_of_term(args: &[Arg], term: &Term) -> Option<Row>
    ensures { option_to_list result ≡ rows_of_term args.now term.now }
{
    match term {
        Term::Number(_) => None,
        Term::Param(_) => None,
        Term::Row(table, key) => row_at(Space::Inside, args, table, key),
    }
}

#[tactic(auto, using(crate::proofs::RowsWith::both_with))]
fn put_terms(rows: &mut Vec<Row>, args: &[Arg], terms: &[SignedTerm]) -> Result<(), NoMemory>
    ensures { OnOk result (rows.new.items ≡ rows_with rows.old.items (rows_of_terms args.now terms.now)) }
{
    for term in terms {
        put_row(rows, row_of_term(args, &term.term))?;
    }
    Ok(())
}

#[tactic(auto, using(crate::proofs::RowsWith::both_with))]
fn put_test(rows: &mut Vec<Row>, args: &[Arg], test: &Comparison) -> Result<(), NoMemory>
    ensures { OnOk result (rows.new.items ≡ rows_with rows.old.items
        (rows_of_terms args.now test.now.left ++ rows_of_terms args.now test.now.right)) }
{
    put_terms(rows, args, test.left.as_slice())?;
    put_terms(rows, args, test.right.as_slice())
}

#[tactic(auto, using(crate::proofs::RowsWith::both_with))]
fn put_change(
    rows: &mut Vec<Row>,
    args: &[Arg],
    row: Option<Row>,
    sum: &Expression,
) -> Result<(), NoMemory>
    ensures { OnOk result (rows.new.items ≡ rows_with rows.old.items
        (option_to_list row ++ rows_of_terms args.now sum.now)) }
{
    put_row(rows, row)?;
    put_terms(rows, args, sum.as_slice())
}

#[tactic(auto, using(crate::proofs::RowsWith::both_with))]
fn put_move(
    rows: &mut Vec<Row>,
    args: &[Arg],
    from: &Cell,
    to: &Cell,
    sum: &Expression,
) -> Result<(), NoMemory>
    ensures { OnOk result (rows.new.items ≡ rows_with rows.old.items
        (option_to_list (row_of inside args.now from.now)
        ++ (option_to_list (row_of inside args.now to.now) ++ rows_of_terms args.now sum.now))) }
{
    put_row(rows, row_of(Space::Inside, args, from))?;
    put_change(rows, args, row_of(Space::Inside, args, to), sum)
}

fn put_step(rows: &mut Vec<Row>, args: &[Arg], step: &Step) -> Result<(), NoMemory>
    ensures { OnOk result (rows.new.items ≡ rows_with rows.old.items (rows_of_step args.now step.now)) }
{
    match step {
        Step::Need(test) => put_test(rows, args, test),
        Step::When(test) => put_test(rows, args, test),
        Step::Add(cell, sum) => put_change(rows, args, row_of(Space::Inside, args, cell), sum),
        Step::Sub(cell, sum) => put_change(rows, args, row_of(Space::Inside, args, cell), sum),
        Step::Set(cell, sum) => put_change(rows, args, row_of(Space::Inside, args, cell), sum),
        Step::Move(from, to, sum) => put_move(rows, args, from, to, sum),
        Step::Grow(cell, sum) => put_change(rows, args, row_of(Space::Outside, args, cell), sum),
        Step::Shrink(cell, sum) => put_change(rows, args, row_of(Space::Outside, args, cell), sum),
        Step::Retract(_) => Ok(()),
        Step::Fail => Ok(()),
        Step::Abort => Ok(()),
    }
}

#[tactic(auto, using(crate::proofs::RowsWith::both_with))]
fn put_steps(rows: &mut Vec<Row>, args: &[Arg], steps: &[Step]) -> Result<(), NoMemory>
    ensures { OnOk result (rows.new.items ≡ rows_with rows.old.items (flat_map (rows_of_step args.now) steps.now)) }
{
    for step in steps {
        put_step(rows, args, step)?;
    }
    Ok(())
}

/// Appends the rows that the script names with these arguments and that aren't among them yet, in the order first named
/// (docs/FORMATS.md, "Scripts"). Rows of steps that would be skipped count too. On want of memory `rows` is unchanged.
pub fn rows_of(
    alloc: Global,
    script: &Script,
    args: &[Arg],
    rows: &mut Vec<Row>,
) -> Result<(), NoMemory>
    ensures rows { OnOk result (rows.new.items ≡ rows_of script.now args.now rows.old.items) }
    ensures kept { OnErr result (rows.new.items ≡ rows.old.items) }
{
    let Ok(mut all) = Vec::from_slice(alloc, rows.as_slice()) else {
        return Err(NoMemory);
    };
    match put_steps(&mut all, args, script.steps()) {
        Ok(()) => {
            *rows = all;
            Ok(())
        }
        Err(_) => Err(NoMemory),
    }
}
