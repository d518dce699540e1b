// The step of a line.
ghost use Rattle.std.specs.Prelude.{◌≡◌, IfOk};
ghost use Rattle.qc_script.specs.Words.{Takes, Tells, by_word, made};
ghost use Rattle.qc_script.specs.Terms.{known};
ghost use Rattle.qc_script.specs.Sums.{comparison_front};
ghost use Rattle.qc_script.specs.Lines.{out_front, move_front, step_front, step_of, line_of, is_comment};
ghost use Rattle.qc_script.specs.Lines.{change_front, change_by};
ghost use Rattle.qc_script.specs.declared.step.Step.TheVariants.{Need as need, When as when, Retract as retract};
ghost use Rattle.qc_script.specs.declared.step.Step.TheVariants.{Add as add, Sub as sub, Set as set};

use crate::names::{Names, Param};
use crate::step::{Cell, Expression, Line, Step};
use crate::sums::{read_cell, read_change, read_comparison, read_name, read_sum};
use crate::verb::{Verb, verb_of};
use crate::words::Words;
use qc_base::{Name, NoMemory};
use std::alloc::Global;

// `T[K] E`
fn read_change_of(
    alloc: Global,
    tables: &[Name],
    params: &[Param],
    words: &mut Words,
) -> Result<Option<(Cell, Expression)>, NoMemory>
    ensures { Tells (change_front tables.now params.now words.old) words.new result }
{
    let Some(cell) = read_cell(tables, params, words) else {
        return Ok(None);
    };
    match read_sum(alloc, tables, params, words) {
        Ok(Some(sum)) => Ok(Some((cell, sum))),
        Ok(None) => Ok(None),
        Err(_) => Err(NoMemory),
    }
}

// `T[K] U[K] E`
fn read_move(
    alloc: Global,
    tables: &[Name],
    params: &[Param],
    words: &mut Words,
) -> Result<Option<Step>, NoMemory>
    ensures { Tells (move_front tables.now params.now words.old) words.new result }
{
    let Some(from) = read_cell(tables, params, words) else {
        return Ok(None);
    };
    let Some(to) = read_cell(tables, params, words) else {
        return Ok(None);
    };
    match read_sum(alloc, tables, params, words) {
        Ok(Some(sum)) => Ok(Some(Step::Move(from, to, sum))),
        Ok(None) => Ok(None),
        Err(_) => Err(NoMemory),
    }
}

fn change_by(minus: bool, cell: Cell, sum: Expression) -> Step
    ensures { result ≡ change_by minus cell sum }
{
    if minus {
        Step::Shrink(cell, sum)
    } else {
        Step::Grow(cell, sum)
    }
}

// `R[K] += E` or `R[K] -= E`
fn read_out(
    alloc: Global,
    tables: &[Name],
    resources: &[Name],
    params: &[Param],
    words: &mut Words,
) -> Result<Option<Step>, NoMemory>
    ensures { Tells (out_front tables.now resources.now params.now words.old) words.new result }
{
    let Some(cell) = read_cell(resources, params, words) else {
        return Ok(None);
    };
    let Some(minus) = read_change(words) else {
        return Ok(None);
    };
    match read_sum(alloc, tables, params, words) {
        Ok(Some(sum)) => Ok(Some(change_by(minus, cell, sum))),
        Ok(None) => Ok(None),
        Err(_) => Err(NoMemory),
    }
}

fn read_need(
    alloc: Global,
    tables: &[Name],
    params: &[Param],
    words: &mut Words,
) -> Result<Option<Step>, NoMemory>
    ensures { Tells (made (λ c. need c) (comparison_front tables.now params.now words.old)) words.new result }
{
    match read_comparison(alloc, tables, params, words) {
        Ok(Some(test)) => Ok(Some(Step::Need(test))),
        Ok(None) => Ok(None),
        Err(_) => Err(NoMemory),
    }
}

fn read_when(
    alloc: Global,
    tables: &[Name],
    params: &[Param],
    words: &mut Words,
) -> Result<Option<Step>, NoMemory>
    ensures { Tells (made (λ c. when c) (comparison_front tables.now params.now words.old)) words.new result }
{
    match read_comparison(alloc, tables, params, words) {
        Ok(Some(test)) => Ok(Some(Step::When(test))),
        Ok(None) => Ok(None),
        Err(_) => Err(NoMemory),
    }
}

fn read_add(
    alloc: Global,
    tables: &[Name],
    params: &[Param],
    words: &mut Words,
) -> Result<Option<Step>, NoMemory>
    ensures { Tells (made (λ p. add p.0 p.1) (change_front tables.now params.now words.old)) words.new result }
{
    match read_change_of(alloc, tables, params, words) {
        Ok(Some((cell, sum))) => Ok(Some(Step::Add(cell, sum))),
        Ok(None) => Ok(None),
        Err(_) => Err(NoMemory),
    }
}

fn read_sub(
    alloc: Global,
    tables: &[Name],
    params: &[Param],
    words: &mut Words,
) -> Result<Option<Step>, NoMemory>
    ensures { Tells (made (λ p. sub p.0 p.1) (change_front tables.now params.now words.old)) words.new result }
{
    match read_change_of(alloc, tables, params, words) {
        Ok(Some((cell, sum))) => Ok(Some(Step::Sub(cell, sum))),
        Ok(None) => Ok(None),
        Err(_) => Err(NoMemory),
    }
}

fn read_set(
    alloc: Global,
    tables: &[Name],
    params: &[Param],
    words: &mut Words,
) -> Result<Option<Step>, NoMemory>
    ensures { Tells (made (λ p. set p.0 p.1) (change_front tables.now params.now words.old)) words.new result }
{
    match read_change_of(alloc, tables, params, words) {
        Ok(Some((cell, sum))) => Ok(Some(Step::Set(cell, sum))),
        Ok(None) => Ok(None),
        Err(_) => Err(NoMemory),
    }
}

fn read_retract(resources: &[Name], words: &mut Words) -> Option<Step>
    ensures { Takes (made (λ r. retract r) (by_word (known resources.now) words.old)) words.new result }
{
    let Some(name) = read_name(resources, words) else {
        return None;
    };
    Some(Step::Retract(name))
}

fn read_step(
    alloc: Global,
    tables: &[Name],
    resources: &[Name],
    params: &[Param],
    verb: Verb,
    words: &mut Words,
) -> Result<Option<Step>, NoMemory>
    ensures { Tells (step_front tables.now resources.now params.now verb words.old) words.new result }
{
    match verb {
        Verb::Need => read_need(alloc, tables, params, words),
        Verb::When => read_when(alloc, tables, params, words),
        Verb::Add => read_add(alloc, tables, params, words),
        Verb::Sub => read_sub(alloc, tables, params, words),
        Verb::Set => read_set(alloc, tables, params, words),
        Verb::Move => read_move(alloc, tables, params, words),
        Verb::Out => read_out(alloc, tables, resources, params, words),
        Verb::Retract => Ok(read_retract(resources, words)),
        Verb::Fail => Ok(Some(Step::Fail)),
        Verb::Abort => Ok(Some(Step::Abort)),
    }
}

// The step that all words are.
fn read_whole(
    alloc: Global,
    tables: &[Name],
    resources: &[Name],
    params: &[Param],
    words: &mut Words,
) -> Result<Option<Step>, NoMemory>
    ensures { IfOk result (λ found. found ≡ step_of tables.now resources.now params.now words.old) }
{
    let Some(word) = words.next() else {
        return Ok(None);
    };
    let Some(verb) = verb_of(word) else {
        return Ok(None);
    };
    let step = match read_step(alloc, tables, resources, params, verb, words) {
        Ok(Some(step)) => step,
        Ok(None) => return Ok(None),
        Err(_) => return Err(NoMemory),
    };
    match words.next() {
        Some(_) => Ok(None),
        None => Ok(Some(step)),
    }
}

fn is_comment(word: &[u8]) -> bool
    ensures { result ≡ is_comment word.now }
{
    match word {
        [first, ..] => *first == b'#',
        [] => false,
    }
}

/// What a line is.
pub fn read_line(
    alloc: Global,
    names: &Names,
    params: &[Param],
    line: &[u8],
) -> Result<Line, NoMemory>
    ensures { IfOk result (λ found. found ≡ line_of names.now params.now line.now) }
{
    let mut words = Words::over(line);
    let Some(first) = words.ahead().next() else {
        return Ok(Line::Blank);
    };
    if is_comment(first) {
        return Ok(Line::Blank);
    }
    let tables = names.tables.as_slice();
    let resources = names.resources.as_slice();
    match read_whole(alloc, tables, resources, params, &mut words) {
        Ok(Some(step)) => Ok(Line::Step(step)),
        Ok(None) => Ok(Line::Bad),
        Err(_) => Err(NoMemory),
    }
}
