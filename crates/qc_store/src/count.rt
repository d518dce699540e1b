// Counts of consumed messages, an entry for each application that ever sent one.
ghost use Rattle.std.specs.Prelude.{◌≡◌, ℕ, ◌+◌, ◌-◌, ◌<◌, ◌≤◌, ◌^◌, List};
ghost use Rattle.std.specs.Vec.{vec_len, vec_capacity};
ghost use Rattle.qc_store.specs.Tallies.{is_tallied, tally_of, with_app, with_one, after_played};

use crate::tally::Tally;
use qc_base::{Message, Name};

/// An application more is counted, unless it is already. This takes no memory.
pub(crate) fn begin(tallies: &mut Vec<Tally>, app: Name)
    requires { vec_len tallies.old < vec_capacity tallies.old }
    ensures items { tallies.new.items ≡ with_app app tallies.old.items }
    ensures room { vec_capacity tallies.old - vec_len tallies.old ≤ vec_capacity tallies.new - vec_len tallies.new + 1 }
{
    if !is_tallied(tallies.as_slice(), app.as_bytes()) {
        let begun = tallies.push(Tally { app, consumed: 0 }).is_ok();
        prove!(begun);
    }
}

/// Whether the application is counted.
fn is_tallied(tallies: &[Tally], app: &[u8]) -> bool
    ensures { result ≡ is_tallied app.now tallies.now }
{
    for tally in tallies {
        if tally.app.as_bytes() == app {
            return true;
        }
    }
    false
}

/// How many of its messages are consumed.
pub(crate) fn tally_of(tallies: &[Tally], app: &[u8]) -> u64
    ensures { result ≡ tally_of app.now tallies.now }
{
    for tally in tallies {
        if tally.app.as_bytes() == app {
            return tally.consumed;
        }
    }
    0
}

/// One message more of the application is consumed.
fn add_one(tallies: &mut [Tally], app: &[u8])
    requires { tally_of app.now tallies.old < 2 ^ 63 }
    ensures { tallies.new ≡ with_one app.now tallies.old }
{
    for tally in tallies.iter_mut() {
        if tally.app.as_bytes() == app {
            tally.consumed += 1;
            return;
        }
    }
}

/// The message of the id is consumed: one more of its application.
pub(crate) fn add_played(tallies: &mut [Tally], messages: &[Message], id: u64)
    requires { (app : List ℕ) → tally_of app tallies.old < 2 ^ 63 }
    ensures { tallies.new ≡ after_played id messages.now tallies.old }
{
    for message in messages {
        if message.id == id {
            add_one(tallies, message.recording.app.as_bytes());
            return;
        }
    }
}
