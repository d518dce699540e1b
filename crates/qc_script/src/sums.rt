// Expressions and comparisons, read from the front of words.
ghost use Rattle.std.specs.Prelude.{◌≡◌, MatchOption, Some, None};
ghost use Rattle.qc_script.specs.Words.{Takes, Tells, by_word};
ghost use Rattle.qc_script.specs.Terms.{cell_of, term_of, compare_of, change_of, known};
ghost use Rattle.qc_script.specs.Sums.{sign_front, sum_front, comparison_front, TellsTerm};

use crate::found::Found;
use crate::lists::Entries;
use crate::names::Param;
use crate::step::{Cell, Compare, Comparison, Expression, SignedTerm, Term, put_term};
use crate::terms::{cell_of, change_of, compare_of, known, sign_of, term_of};
use crate::words::Words;
use qc_base::{Name, NoMemory};
use std::alloc::Global;

/// A row of one of these tables or resources.
pub fn read_cell(names: &[Name], params: &[Param], words: &mut Words) -> Option<Cell>
    ensures { Takes (by_word (cell_of names.now params.now) words.old) words.new result }
{
    let Some(word) = words.next() else {
        return None;
    };
    cell_of(names, params, word)
}

/// One of these names.
pub fn read_name(names: &[Name], words: &mut Words) -> Option<Name>
    ensures { Takes (by_word (known names.now) words.old) words.new result }
{
    let Some(word) = words.next() else {
        return None;
    };
    known(names, word)
}

fn read_term(tables: &[Name], params: &[Param], words: &mut Words) -> Option<Term>
    ensures { Takes (by_word (term_of tables.now params.now) words.old) words.new result }
{
    let Some(word) = words.next() else {
        return None;
    };
    term_of(tables, params, word)
}

fn read_compare(words: &mut Words) -> Option<Compare>
    ensures { Takes (by_word compare_of words.old) words.new result }
{
    let Some(word) = words.next() else {
        return None;
    };
    compare_of(word)
}

/// Whether an outside change takes away.
pub fn read_change(words: &mut Words) -> Option<bool>
    ensures { Takes (by_word change_of words.old) words.new result }
{
    let Some(word) = words.next() else {
        return None;
    };
    change_of(word)
}

// Whether the next word is a sign that takes away. A word that is no sign is left.
fn next_sign(words: &mut Words) -> Option<bool>
    ensures { MatchOption result ((sign_front words.old ≡ None) × (words.new ≡ words.old))
        (λ sign. sign_front words.old ≡ Some (sign, words.new)) }
{
    let mut ahead = words.ahead();
    let sign = sign_of(ahead.next()?)?;
    *words = ahead;
    Some(sign)
}

// A term more, and the sign behind it where one stands there.
fn read_signed(
    tables: &[Name],
    params: &[Param],
    terms: &mut Vec<SignedTerm>,
    minus: bool,
    words: &mut Words,
) -> Result<Found, NoMemory>
    ensures { TellsTerm tables.now params.now minus words.old terms.old.items words.new terms.new.items result }
{
    let Some(term) = read_term(tables, params, words) else {
        return Ok(Found::Nothing);
    };
    let Ok(()) = put_term(terms, minus, term) else {
        return Err(NoMemory);
    };
    match next_sign(words) {
        Some(sign) => Ok(Found::Signed(sign)),
        None => Ok(Found::Last),
    }
}

/// 1 to 4 terms.
pub fn read_sum(
    alloc: Global,
    tables: &[Name],
    params: &[Param],
    words: &mut Words,
) -> Result<Option<Expression>, NoMemory>
    ensures { Tells (sum_front tables.now params.now words.old) words.new result }
{
    let mut terms = Vec::new(alloc);
    let mut minus = false;
    loop {
        match read_signed(tables, params, &mut terms, minus, words) {
            Ok(Found::Signed(sign)) => minus = sign,
            Ok(Found::Last) => break,
            Ok(Found::Nothing) => return Ok(None),
            Err(_) => return Err(NoMemory),
        }
    }
    if terms.len() > 4 {
        return Ok(None);
    }
    Ok(Some(Entries::over(terms)))
}

/// `E OP E`
pub fn read_comparison(
    alloc: Global,
    tables: &[Name],
    params: &[Param],
    words: &mut Words,
) -> Result<Option<Comparison>, NoMemory>
    ensures { Tells (comparison_front tables.now params.now words.old) words.new result }
{
    let left = match read_sum(alloc, tables, params, words) {
        Ok(Some(left)) => left,
        Ok(None) => return Ok(None),
        Err(_) => return Err(NoMemory),
    };
    let Some(compare) = read_compare(words) else {
        return Ok(None);
    };
    match read_sum(alloc, tables, params, words) {
        Ok(Some(right)) => Ok(Some(Comparison {
            left,
            compare,
            right,
        })),
        Ok(None) => Ok(None),
        Err(_) => Err(NoMemory),
    }
}
