// Which message of an application is due first.
ghost use Rattle.std.specs.Prelude.{◌≡◌, option_map};
ghost use Rattle.qc_base.specs.Messages.{comes_before};
ghost use Rattle.qc_store.specs.Due.{is_queued, is_behind, queued_as, may_be_next, sooner, next_due};

use crate::place::{is_own, waiting};
use crate::store::Store;
use qc_base::{Message, Moment, Place, Waiting};

impl Store {
    /// The message of an application in the queues 0 to 5 that is due first, and of several that are due
    /// together the one sent first: its id, queue, tries and due moment. Where a due moment and an id
    /// are given, only what comes behind them counts, so that the next can be asked for.
    pub fn next_due(
        &self,
        app: &[u8],
        after: Option<(Moment, u64)>,
    ) -> Option<(u64, u8, u8, Moment)>
        ensures { result ≡ next_due app.now after self.now.messages }
    {
        let mut first: Option<&Message> = None;
        for message in self.all() {
            if may_be_next(message, app, &after) {
                first = Some(sooner(first, message));
            }
        }
        let message = first?;
        queued(message)
    }
}

/// Whether it is a message of the application in the queues 0 to 5, behind a due moment and an id.
fn may_be_next(message: &Message, app: &[u8], after: &Option<(Moment, u64)>) -> bool
    ensures { result ≡ may_be_next app.now after.now message.now }
{
    is_own(message, app) && is_queued(message.place) && is_behind(message, after)
}

fn is_queued(place: Place) -> bool
    ensures { result ≡ is_queued place }
{
    matches!(place, Place::Queue(_, _, _))
}

fn is_behind(message: &Message, after: &Option<(Moment, u64)>) -> bool
    ensures { result ≡ is_behind after.now message.now }
{
    match after {
        Some((due, id)) => {
            let behind = Waiting {
                id: *id,
                tries: 0,
                due: *due,
            };
            comes_before(&behind, &waiting(message))
        }
        None => true,
    }
}

/// Whether a listing shows a in front of b.
fn comes_before(a: &Waiting, b: &Waiting) -> bool
    ensures { result ≡ comes_before a.now b.now }
{
    let (due, other) = (a.due.get(), b.due.get());
    due < other || (due == other && a.id < b.id)
}

/// The one of two that is due sooner.
fn sooner<'a>(first: Option<&'a Message>, message: &'a Message) -> &'a Message
    ensures { result.now ≡ sooner (option_map (λ r. r.now) first.entry) message.now }
{
    match first {
        Some(other) if !comes_before(&waiting(message), &waiting(other)) => other,
        _ => message,
    }
}

/// Id, queue, tries and due moment of a message in a queue.
fn queued(message: &Message) -> Option<(u64, u8, u8, Moment)>
    ensures { result ≡ queued_as message.now.id message.now.place }
{
    match message.place {
        Place::Queue(queue, tries, due) => Some((message.id, queue, tries, due)),
        Place::Dead | Place::Consumed(_) => None,
    }
}
