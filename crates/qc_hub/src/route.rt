// The names of queues, and where a move leads.
ghost use Rattle.std.specs.Prelude.{◌≡◌, ◌≤◌, ◌++◌, ℕ, List, option_map};
ghost use Rattle.std.specs.Str.{bytes_eq};
ghost use Rattle.qc_protocol.specs.Texts.{queue_name};
ghost use Rattle.qc_machine.specs.Moving.{queue_named, queue_number, route};
ghost use Rattle.qc_hub.specs.Moving.{as_queue, told_route};

use qc_base::Name;
use qc_catalogue::{App, Catalogue};
use qc_protocol::{Refusal, Side};

/// Where a move leads: from a queue of an application to another of the same one. 6 is the dead queue.
#[derive(Clone, Copy, Debug, PartialEq, Eq)]
pub(crate) struct Route {
    pub app: Name,
    pub queue: u8,
    pub to: u8,
}

const QUEUES: [u8; 7] = [0, 1, 2, 3, 4, 5, 6];

// Whether the name is that of this queue of an application.
fn is_queue(app: &[u8], queue: u8, name: &[u8]) -> bool
    requires { queue ≤ 6 }
    ensures { result ≡ bytes_eq (queue_name app.now queue) name.now }
{
    let Some((front, ending)) = name.split_at_checked(app.len()) else {
        return false;
    };
    app == front && ending_of(queue).as_bytes() == ending
}

// How the name of this queue ends, behind its application's.
fn ending_of(queue: u8) -> &'static str
    requires { queue ≤ 6 }
    ensures { (app : List ℕ) → app ++ result.now ≡ queue_name app queue }
{
    match queue {
        0 => "",
        1 => "_0",
        2 => "_1",
        3 => "_2",
        4 => "_3",
        5 => "_4",
        _ => "_DeadQueue",
    }
}

// The number of an application's queue of this name.
fn queue_number(app: &[u8], name: &[u8]) -> Option<u8>
    ensures { result ≡ queue_number app.now name.now }
{
    for queue in QUEUES {
        if is_queue(app, queue, name) {
            return Some(queue);
        }
    }
    None
}

// The queue of this name, by its application and its number.
fn queue_named(apps: &[App], name: &[u8]) -> Option<(Name, u8)>
    ensures { option_map as_queue result ≡ queue_named name.now apps.now }
{
    for app in apps {
        if let Some(queue) = queue_number(app.name.as_bytes(), name) {
            return Some((app.name, queue));
        }
    }
    None
}

/// Where a move leads by the names of its queues, or which of them is none.
pub(crate) fn find_route(catalogue: &Catalogue, from: &[u8], to: &[u8]) -> Result<Route, Refusal>
    ensures { told_route result ≡ route catalogue.now from.now to.now }
{
    let Some((app, queue)) = queue_named(catalogue.apps(), from) else {
        return Err(Refusal::UnknownQueue(Side::From));
    };
    let Some(to) = queue_number(app.as_bytes(), to) else {
        return Err(Refusal::UnknownQueue(Side::To));
    };
    Ok(Route { app, queue, to })
}
