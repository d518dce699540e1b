// What is done with the attempt in a slot.
ghost use Rattle.std.specs.Prelude.{◌≡◌, ◌-◌, max, false};
ghost use Rattle.std.specs.Option.{option_map_or};
ghost use Rattle.qc_base.specs.declared.log_line.Stage.TheVariants.{Calls as calls_stage};
ghost use Rattle.qc_txn.specs.Attempt.{AttemptView};
ghost use Rattle.qc_machine.specs.Attempts.{has_no_fact};
ghost use Rattle.qc_machine.specs.Playing.{work_reply};
ghost use Rattle.qc_players.specs.Orders.{WorksOn};
ghost use Rattle.qc_players.specs.Players.{IsPlayedBy};

use qc_base::{Stage, Why};
use qc_catalogue::Catalogue;
use qc_protocol::Reply;
use qc_txn::Attempt;

// Whether no fact tells of its end yet.
fn has_no_fact(stage: Stage) -> bool
    ensures { result ≡ has_no_fact stage }
{
    matches!(stage, Stage::Calls | Stage::Ready | Stage::Failing)
}

// Whether the slot holds one of which no fact tells yet.
pub(crate) fn is_without_fact(slot: &Option<Attempt>) -> bool
    ensures { result ≡ option_map_or (λ (a : AttemptView). has_no_fact a.stage) slot.now false }
{
    match slot {
        Some(attempt) => has_no_fact(attempt.stage()),
        None => false,
    }
}

// The number of the attempt in the slot, or 0.
pub(crate) fn number_in(slot: &Option<Attempt>) -> u64
    ensures { result ≡ option_map_or (λ (a : AttemptView). a.number) slot.now 0 }
{
    match slot {
        Some(attempt) => attempt.number(),
        None => 0,
    }
}

pub(crate) fn greater(a: u64, b: u64) -> u64
    ensures { result ≡ max a b }
{
    if a < b { b } else { a }
}

// Runs its next call, and tells of it.
pub(crate) fn work_on(attempt: &mut Attempt, catalogue: &Catalogue) -> Reply
    requires stage { attempt.old.stage ≡ calls_stage }
    requires played { IsPlayedBy catalogue.now attempt.old }
    ensures { WorksOn catalogue.now attempt.old attempt.new result }
{
    match attempt.run_next(catalogue) {
        Ok(number) => told(attempt, number),
        Err(_) => told(attempt, 0),
    }
}

// What is told behind a call with this number.
fn told(attempt: &Attempt, number: u8) -> Reply
    ensures { result ≡ work_reply attempt.now.why number (attempt.now.count - attempt.now.calls) }
{
    match attempt.why() {
        Some(Why::Step(call, step)) => Reply::StepFailed(call, step),
        _ => Reply::Worked(number, u64::from(attempt.left())),
    }
}
