// An attempt on a message, call by call.
ghost use Rattle.std.specs.Prelude.{◌≡◌, ◌+◌, ◌-◌, ◌≤◌, ◌<◌, ◌⊎◌, length, true, IfOk, slice_get};
ghost use Rattle.qc_base.specs.declared.log_line.Stage.TheVariants.{Calls as calls_stage, Ready as ready_stage, Failing as failing_stage};
ghost use Rattle.qc_play.specs.Play.{rows_in};
ghost use Rattle.qc_txn.specs.Attempt.{IsAttempt, PlaysBy, RunsNext, begun, count_of, decided, effects_in, result_by, stage_after, stage_by, voted, why_at_end};
ghost use Rattle.qc_txn.specs.Parts.{is_playable, parts_of};

use crate::parts::{count_of, part_at};
use qc_base::{Kind, Name, NoMemory, Recording, Row, Stage, Why};
use qc_catalogue::Catalogue;
use qc_play::{CallState, run_call};
use std::alloc::Global;
use std::marker::Model;

/// An attempt on a message (docs/RULES.md, "What an attempt plays", "Work" and "Outcome"). Contracts see what it is on,
/// its play state, how many calls it plays and how many of them ran, its stage, the first resource that told that it
/// isn't ready, and why it fails.
#[derive(Debug, Drop)]
pub struct Attempt {
    id: u64,
    recording: Recording,
    number: u64,
    kind: Kind,
    state: CallState,
    count: u8,
    calls: u8,
    stage: Stage,
    refuser: Option<Name>,
    why: Option<Why>,
}

impl Model for Attempt {
    ghost use Rattle.qc_txn.specs.Attempt.{AttemptView, IsAttempt};

    ghost Value = { AttemptView };

    ghost view = { λ a. record { id = a.id; recording = a.recording; number = a.number; kind = a.kind; play = a.state.play; room = a.state.room; count = a.count; calls = a.calls; stage = a.stage; refuser = a.refuser; why = a.why } };

    ghost invariant = { λ a. IsAttempt a.recording a.kind a.count a.calls a.stage a.why };
}

fn stage_after(calls: u8, count: u8) -> Stage
    ensures { result ≡ stage_after calls count }
{
    if calls == count {
        Stage::Ready
    } else {
        Stage::Calls
    }
}

fn stage_by(why: &Option<Why>) -> Stage
    ensures { result ≡ stage_by why.now }
{
    match why {
        Some(_) => Stage::Abort,
        None => Stage::Commit,
    }
}

fn result_by(why: &Option<Why>) -> Result<(), Why>
    ensures { result ≡ result_by why.now }
{
    match why {
        Some(why) => Err(*why),
        None => Ok(()),
    }
}

impl Attempt {
    /// An attempt on the message with this id and recording, before its first call, which is the attempt with this
    /// number. The state is that of the message's rows before the first call, with room for the effects of all calls.
    /// The error is want of memory.
    pub fn begin(
        alloc: Global,
        catalogue: &Catalogue,
        id: u64,
        number: u64,
        kind: Kind,
        recording: &Recording,
        state: CallState,
    ) -> Result<Attempt, NoMemory>
        requires few { length recording.now.calls ≤ 64 }
        requires playable { is_playable catalogue.now recording.now kind ≡ true }
        requires room { effects_in (parts_of catalogue.now recording.now kind) ≤ state.room }
        ensures begun { IfOk result (λ a. a ≡ begun id number kind recording.now state) }
        ensures plays { IfOk result (λ a. PlaysBy catalogue.now a) }
    {
        let _playable = catalogue;
        let recording = recording.copy(alloc)?;
        let count = count_of(&recording, kind);
        Ok(Attempt {
            id,
            recording,
            number,
            kind,
            state,
            count,
            calls: 0,
            stage: stage_after(0, count),
            refuser: None,
            why: None,
        })
    }

    /// The id of its message.
    pub fn id(&self) -> u64
        ensures { result ≡ self.now.id }
    {
        self.id
    }

    /// Its number among all attempts.
    pub fn number(&self) -> u64
        ensures { result ≡ self.now.number }
    {
        self.number
    }

    /// Whether it is a normal attempt or a final one.
    pub fn kind(&self) -> Kind
        ensures { result ≡ self.now.kind }
    {
        self.kind
    }

    /// Why it fails, as far as that is known.
    pub fn why(&self) -> Option<Why>
        ensures { result ≡ self.now.why }
    {
        self.why
    }

    /// How far it has come.
    pub fn stage(&self) -> Stage
        ensures stage { result ≡ self.now.stage }
        ensures known { IsAttempt self.now.recording self.now.kind self.now.count self.now.calls self.now.stage self.now.why }
    {
        self.stage
    }

    /// How many calls haven't run yet.
    pub fn left(&self) -> u8
        ensures { self.now.calls + result ≡ self.now.count }
    {
        self.count - self.calls
    }

    /// What it sees of its rows, and what it did so far.
    pub fn state(&self) -> &CallState
        ensures play { result.now.play ≡ self.now.play }
        ensures room { result.now.room ≡ self.now.room }
    {
        &self.state
    }

    /// The rows that it sees. The error is want of memory.
    pub fn rows(&self, alloc: Global) -> Result<Vec<Row>, NoMemory>
        ensures { IfOk result (λ rows. rows.items ≡ rows_in self.now.play.view) }
    {
        let mut rows = Vec::new(alloc);
        for seen in self.state.view() {
            rows.push(seen.0).map_err(|_| NoMemory)?;
        }
        Ok(rows)
    }

    /// Runs the next call by the catalogue that it plays by, and tells its number; or, where a step fails, that step. A
    /// call that fails changes nothing but the stage and why the attempt fails. This takes no memory.
    pub fn run_next(&mut self, catalogue: &Catalogue) -> Result<u8, u8>
        requires stage { self.old.stage ≡ calls_stage }
        requires plays { PlaysBy catalogue.now self.old }
        ensures ran { RunsNext (slice_get (parts_of catalogue.now self.old.recording self.old.kind) self.old.calls) self.old self.new result }
        ensures plays { PlaysBy catalogue.now self.new }
    {
        let Some(part) = part_at(catalogue, &self.recording, self.kind, self.calls) else {
            return Err(0);
        };
        let number = part.number;
        match run_call(part.script, part.args, &mut self.state) {
            Ok(()) => {
                self.calls += 1;
                self.stage = stage_after(self.calls, self.count);
                Ok(number)
            }
            Err(step) => {
                self.stage = Stage::Failing;
                self.why = Some(Why::Step(number, step));
                Err(step)
            }
        }
    }

    /// A resource tells whether it is ready. The first that isn't counts.
    pub fn vote(&mut self, resource: &Name, ready: bool)
        ensures { self.new ≡ record self.old { refuser = voted resource.now ready self.old.refuser } }
    {
        if self.refuser.is_none() && !ready {
            self.refuser = Some(*resource);
        }
    }

    /// How it ends, after all votes: it is committed, or why it fails.
    pub fn decide(&mut self) -> Result<(), Why>
        requires { (self.old.stage ≡ ready_stage) ⊎ (self.old.stage ≡ failing_stage) }
        ensures told { result ≡ result_by (why_at_end self.old) }
        ensures decided { self.new ≡ decided self.old }
    {
        let why = self.why_at_end();
        self.stage = stage_by(&why);
        self.why = why;
        result_by(&why)
    }

    fn why_at_end(&self) -> Option<Why>
        ensures { result ≡ why_at_end self.now }
    {
        if self.why.is_some() {
            return self.why;
        }
        if self.state.forced() {
            return Some(Why::Forced);
        }
        match self.refuser {
            Some(resource) => Some(Why::NotReady(resource)),
            None => None,
        }
    }
}
