//! The keeper in memory and the keeper in SQLite, driven through the same calls, answer the same.
//!
//! The calls are drawn from a seed, so that a difference can be seen again.
#![tactic(auto)]

ghost use Rattle.std.specs.Prelude.{◌≤◌};

mod calls;
#[cfg(test)]
mod tests;

pub use calls::{Draw, RowAction, RowAnswer, RowCall};
use qc_site::Keeper;

/// Makes the next calls of the draw on both keepers, and says whether each was answered the same by both.
pub fn agree<A: Keeper, B: Keeper>(
    first: &mut A,
    second: &mut B,
    draw: &mut Draw,
    count: u32,
) -> bool
    ensures first_counts { A.faults first.old ≤ A.faults first.new }
    ensures second_counts { B.faults second.old ≤ B.faults second.new }
{
    for _ in 0..count {
        let call = draw.next();
        if call.on(first) != call.on(second) {
            return false;
        }
    }
    true
}
