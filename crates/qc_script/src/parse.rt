// The script of a text.
ghost use Rattle.std.specs.Prelude.{◌≡◌, ◌+◌, ◌<◌, ◌≤◌, ◌∷◌, ◌++◌, length, IfOk, IfErr, OnOk, Ok, Err, ℕ, List, map};
ghost use Rattle.std.specs.Prelude.{[], true};
ghost use Rattle.std.specs.Result.{result_map_both};
ghost use Rattle.std.specs.List.{slice_split};
ghost use Rattle.qc_script.specs.declared.step.Line.{Line as LineKind};
ghost use Rattle.qc_script.specs.declared.step.Line.TheVariants.{Step as step};
ghost use Rattle.qc_script.specs.Reading.{Adds, HasRead, line_length, split_rest, rest_size};
ghost use Rattle.qc_script.specs.Scripts.{script_of, is_when, is_newline, lines, steps_in};
ghost use Rattle.qc_script.specs.declared.script.ScriptError.TheVariants.{BadLine as bad_line};

use crate::line::read_line;
use crate::names::{Names, Param};
use crate::script::{Script, ScriptError};
use crate::step::{Line, Step};
use std::alloc::Global;

// A script that is being read.
#[derive(Drop)]
struct Reading {
    steps: Vec<Step>,
    // The line of the last step, where that is a `when`.
    when: Option<u32>,
}

fn is_when(step: &Step) -> bool
    ensures { result ≡ is_when step.now }
{
    match step {
        Step::When(_) => true,
        Step::Need(_) => false,
        Step::Add(_, _) => false,
        Step::Sub(_, _) => false,
        Step::Set(_, _) => false,
        Step::Move(_, _, _) => false,
        Step::Grow(_, _) => false,
        Step::Shrink(_, _) => false,
        Step::Retract(_) => false,
        Step::Fail => false,
        Step::Abort => false,
    }
}

impl Reading {
    // The step of the line with this number.
    fn add(&mut self, number: u32, new: Step) -> Result<(), ScriptError>
        requires { length self.old.steps.items ≤ 32 }
        ensures told { (ls : List LineKind)
            → Adds number (step new) self.old.steps.items self.old.when self.new.steps.items self.new.when ls result }
        ensures steps { OnOk result (self.new.steps.items ≡ self.old.steps.items ++ new ∷ []) }
        ensures few { length self.new.steps.items ≤ 32 }
    {
        let new_when = is_when(&new);
        if let Some(line) = self.when
            && new_when
        {
            return Err(ScriptError::BadLine(line));
        }
        if self.steps.len() == 32 {
            return Err(ScriptError::BadLine(number));
        }
        let Ok(()) = self.steps.push(new) else {
            return Err(ScriptError::NoMemory);
        };
        self.when = if new_when { Some(number) } else { None };
        Ok(())
    }

    // The line with this number.
    fn add_line(&mut self, number: u32, line: Line) -> Result<(), ScriptError>
        requires { length self.old.steps.items ≤ 32 }
        ensures told { (ls : List LineKind)
            → Adds number line self.old.steps.items self.old.when self.new.steps.items self.new.when ls result }
        ensures steps { (ls : List LineKind)
            → OnOk result (self.old.steps.items ++ steps_in (line ∷ ls) ≡ self.new.steps.items ++ steps_in ls) }
        ensures few { length self.new.steps.items ≤ 32 }
    {
        match line {
            Line::Step(step) => self.add(number, step),
            Line::Blank => Ok(()),
            Line::Bad => Err(ScriptError::BadLine(number)),
        }
    }
}

fn line_end(text: &[u8]) -> usize
    ensures value { result ≡ line_length text.now }
    ensures bound { result ≤ length text.now }
{
    for (index, byte) in text.iter().enumerate() {
        if *byte == b'\n' {
            return index;
        }
    }
    text.len()
}

// The first line, and what stands behind its newline.
fn first_line(text: &[u8]) -> (&[u8], Option<&[u8]>)
    ensures lines { slice_split is_newline text.now ≡ result.0.now ∷ split_rest result.1 }
    ensures less { rest_size result.1 < length text.now + 1 }
{
    let end = line_end(text);
    if end == text.len() {
        return (text, None);
    }
    (&text[..end], Some(&text[end + 1..]))
}

fn read_steps(
    alloc: Global,
    text: &[u8],
    params: &[Param],
    names: &Names,
) -> Result<Vec<Step>, ScriptError>
    requires { length text.now ≤ 4096 }
    ensures read { HasRead (lines names.now params.now text.now) (result_map_both (λ v. v.items) (λ e. e) result) }
    ensures few { IfOk result (λ v. length v.items ≤ 32) }
{
    let mut reading = Reading {
        steps: Vec::new(alloc),
        when: None,
    };
    let mut number: u32 = 1;
    let mut left = Some(text);
    while let Some(rest) = left {
        let (line, behind) = first_line(rest);
        let Ok(line) = read_line(alloc, names, params, line) else {
            return Err(ScriptError::NoMemory);
        };
        match reading.add_line(number, line) {
            Ok(()) => {}
            Err(error) => return Err(error),
        }
        number += 1;
        left = behind;
    }
    match reading.when {
        Some(line) => Err(ScriptError::BadLine(line)),
        None => Ok(reading.steps),
    }
}

/// The script of a text, which may use these parameters and names (docs/FORMATS.md, "Scripts"). `BadLine` comes only
/// where the text is no script, and tells the first line at fault. Want of memory may be told of any text.
pub fn parse_script(
    alloc: Global,
    text: &[u8],
    params: &[Param],
    names: &Names,
) -> Result<Script, ScriptError>
    ensures script { IfOk result (λ s. script_of text.now params.now names.now ≡ Ok s) }
    ensures refused { IfErr result (λ e. (line : ℕ)
        → e ≡ bad_line line → script_of text.now params.now names.now ≡ Err line) }
{
    if text.len() > 4096 {
        return Err(ScriptError::BadLine(1));
    }
    match read_steps(alloc, text, params, names) {
        Ok(steps) => match Script::over(alloc, steps) {
            Ok(script) => Ok(script),
            Err(_) => Err(ScriptError::NoMemory),
        },
        Err(error) => Err(error),
    }
}
