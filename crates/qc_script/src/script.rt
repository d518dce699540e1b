// A script, with what callers ask of it.
ghost use Rattle.std.specs.Prelude.{◌≡◌, ◌≤◌, ◌∷◌, [], length, OnOk, IfOk, if◌then◌else◌};
ghost use Rattle.std.specs.List.{list_any};
ghost use Rattle.std.specs.Option.{option_to_list};
ghost use Rattle.std.specs.Str.{bytes_eq};
ghost use Rattle.qc_script.specs.Naming.{outs, effects, out_of, effect_of, names_with, resources_of};

use crate::step::Step;
use qc_base::{Name, NoMemory};
use std::alloc::Global;
use std::marker::Model;

/// Why a text is no script.
#[derive(Clone, Copy, Debug, PartialEq, Eq)]
pub enum ScriptError {
    /// The line at fault, counted from 1.
    BadLine(u32),
    /// There was no memory.
    NoMemory,
}

/// A script: at most 32 steps, numbered from 1 (docs/FORMATS.md, "Scripts"). Contracts see the list of its steps.
#[derive(Debug, Drop)]
pub struct Script {
    steps: Vec<Step>,
    // Different, in the order first named.
    resources: Vec<Name>,
}

impl Model for Script {
    ghost use Rattle.std.specs.Prelude.{List, length, ◌≡◌, ◌≤◌};
    ghost use Rattle.qc_script.specs.Naming.{resources_of};
    ghost use Rattle.qc_script.specs.declared.step.Step.{Step};

    ghost Value = { List Step };

    ghost view = { λ s. s.steps.items };

    ghost invariant = { λ s. (length s.steps.items ≤ 32) × (s.resources.items ≡ resources_of s.steps.items) };
}

impl Script {
    /// The script of these steps.
    pub(crate) fn over(alloc: Global, steps: Vec<Step>) -> Result<Script, NoMemory>
        requires { length steps.items ≤ 32 }
        ensures { IfOk result (λ s. s ≡ steps.items) }
    {
        let resources = resources_of(alloc, steps.as_slice())?;
        Ok(Script { steps, resources })
    }

    /// The steps, in order.
    pub fn steps(&self) -> &[Step]
        ensures steps { result.now ≡ self.now }
        ensures few { length self.now ≤ 32 }
    {
        self.steps.as_slice()
    }

    /// How many steps change something outside: `out` steps.
    pub fn outs(&self) -> u8
        ensures { result ≡ outs self.now }
    {
        outs_of(self.steps.as_slice())
    }

    /// How many steps have an effect: `out` and `retract` steps.
    pub fn effects(&self) -> u8
        ensures { result ≡ effects self.now }
    {
        effects_of(self.steps.as_slice())
    }

    /// The different resources that its steps name, in the order first named.
    pub fn resources(&self) -> &[Name]
        ensures { result.now ≡ resources_of self.now }
    {
        self.resources.as_slice()
    }
}

fn is_out(step: &Step) -> bool
    ensures { (if result then 1 else 0) ≡ length (out_of step.now) }
{
    match step {
        Step::Grow(_, _) => true,
        Step::Shrink(_, _) => true,
        Step::Need(_) => false,
        Step::When(_) => false,
        Step::Add(_, _) => false,
        Step::Sub(_, _) => false,
        Step::Set(_, _) => false,
        Step::Move(_, _, _) => false,
        Step::Retract(_) => false,
        Step::Fail => false,
        Step::Abort => false,
    }
}

fn outs_of(steps: &[Step]) -> u8
    requires { length steps.now ≤ 32 }
    ensures { result ≡ outs steps.now }
{
    let mut count = 0;
    for step in steps {
        if is_out(step) {
            count += 1;
        }
    }
    count
}

fn effects_of(steps: &[Step]) -> u8
    requires { length steps.now ≤ 32 }
    ensures { result ≡ effects steps.now }
{
    let mut count = 0;
    for step in steps {
        if resource_of(step).is_some() {
            count += 1;
        }
    }
    count
}

fn resource_of(step: &Step) -> Option<Name>
    ensures { option_to_list result ≡ effect_of step.now }
{
    match step {
        Step::Grow(cell, _) => Some(cell.name),
        Step::Shrink(cell, _) => Some(cell.name),
        Step::Retract(name) => Some(*name),
        Step::Need(_) => None,
        Step::When(_) => None,
        Step::Add(_, _) => None,
        Step::Sub(_, _) => None,
        Step::Set(_, _) => None,
        Step::Move(_, _, _) => None,
        Step::Fail => None,
        Step::Abort => None,
    }
}

fn has_name(names: &[Name], name: &Name) -> bool
    ensures { result ≡ list_any (bytes_eq name.now) names.now }
{
    for other in names {
        if name.as_bytes() == other.as_bytes() {
            return true;
        }
    }
    false
}

// A name more, where it isn't among them.
fn add_name(names: &mut Vec<Name>, name: Name) -> Result<(), NoMemory>
    ensures { OnOk result (names.new.items ≡ names_with names.old.items (name ∷ [])) }
{
    if has_name(names.as_slice(), &name) {
        return Ok(());
    }
    match names.push(name) {
        Ok(()) => Ok(()),
        Err(_) => Err(NoMemory),
    }
}

fn resources_of(alloc: Global, steps: &[Step]) -> Result<Vec<Name>, NoMemory>
    ensures { IfOk result (λ names. names.items ≡ resources_of steps.now) }
{
    let mut names = Vec::new(alloc);
    for step in steps {
        if let Some(name) = resource_of(step) {
            add_name(&mut names, name)?;
        }
    }
    Ok(names)
}
