// Where a message stands, and what it says of a listing.
ghost use Rattle.std.specs.Prelude.{◌≡◌, ◌≤◌, ◌+◌};
ghost use Rattle.std.specs.Str.{bytes_eq};
ghost use Rattle.qc_base.specs.Messages.{in_queue, is_consumed, waiting_as, delay, next_place, moved_place};
ghost use Rattle.qc_base.specs.Moments.{due_at};

use qc_base::{Message, Moment, Place, Waiting};

pub(crate) const DEAD_QUEUE: u8 = 6;

// How many seconds a message waits that comes to a queue by a failure.
const DELAYS: [u64; 6] = [0, 60, 120, 240, 480, 960];

/// Whether it is a message of the application.
pub(crate) fn is_own(message: &Message, app: &[u8]) -> bool
    ensures { result ≡ bytes_eq message.now.recording.app app.now }
{
    message.recording.app.as_bytes() == app
}

/// Whether it is in the queue. Queue 6 is the dead queue.
pub(crate) fn is_in_queue(place: Place, queue: u8) -> bool
    ensures { result ≡ in_queue queue place }
{
    match place {
        Place::Queue(stands_in, _, _) => stands_in == queue,
        Place::Dead => queue == DEAD_QUEUE,
        Place::Consumed(_) => false,
    }
}

pub(crate) fn is_consumed(place: Place) -> bool
    ensures { result ≡ is_consumed place }
{
    matches!(place, Place::Consumed(_))
}

/// The message as a listing shows it. What isn't in one of the queues 0 to 5 has no tries, and is
/// due at 0.
pub(crate) fn waiting(message: &Message) -> Waiting
    ensures { result ≡ waiting_as message.now.id message.now.place }
{
    let (tries, due) = match message.place {
        Place::Queue(_, tries, due) => (tries, due),
        Place::Dead | Place::Consumed(_) => (0, Moment::clamp(0)),
    };
    Waiting {
        id: message.id,
        tries,
        due,
    }
}

/// Where a message goes from its place in a queue when an attempt on it fails at the moment: to the
/// same queue again, to the next one, to its final attempt or to the dead queue (docs/RULES.md, "Retry
/// rule"). `final_class` tells whether its component names an exception class. What isn't in a queue
/// stays.
pub fn next_place(place: Place, final_class: bool, at: Moment) -> Place
    ensures { result ≡ next_place place final_class at }
{
    let Place::Queue(queue, tries, _) = place else {
        return place;
    };
    if tries < 2 {
        return Place::Queue(queue, tries + 1, due_in(queue, at));
    }
    if tries > 2 {
        return Place::Dead;
    }
    if queue < 5 {
        Place::Queue(queue + 1, 0, due_in(queue + 1, at))
    } else if final_class {
        Place::Queue(5, 3, at)
    } else {
        Place::Dead
    }
}

/// When a message is due that comes to a queue at the moment by a failure.
fn due_in(queue: u8, at: Moment) -> Moment
    ensures { result ≡ due_at (at + delay queue) }
{
    Moment::clamp(at.get() + delay(queue))
}

fn delay(queue: u8) -> u64
    ensures value { result ≡ delay queue }
    ensures bound { result ≤ 960 }
{
    match DELAYS.get(queue as usize) {
        Some(seconds) => *seconds,
        None => 0,
    }
}

/// Where a message stands that is moved to a queue at the moment. Queue 6 is the dead queue.
pub(crate) fn moved_place(queue: u8, at: Moment) -> Place
    ensures { result ≡ moved_place queue at }
{
    if queue == DEAD_QUEUE {
        Place::Dead
    } else {
        Place::Queue(queue, 0, at)
    }
}
