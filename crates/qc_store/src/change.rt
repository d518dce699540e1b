// What facts do to messages.
ghost use Rattle.std.specs.Prelude.{◌≡◌};
ghost use Rattle.qc_base.specs.Messages.{after_failed, after_consumed, after_moved};

use crate::place::{moved_place, next_place};
use qc_base::{Message, Moment, Place};

/// The message of the id goes on by the retry rule.
pub(crate) fn fail(messages: &mut [Message], id: u64, at: Moment)
    ensures { messages.new ≡ after_failed id at messages.old }
{
    for message in messages.iter_mut() {
        if message.id == id {
            message.place = next_place(message.place, message.final_class, at);
        }
    }
}

/// The message of the id was played by the attempt.
pub(crate) fn consume(messages: &mut [Message], id: u64, attempt: u64)
    ensures { messages.new ≡ after_consumed id attempt messages.old }
{
    for message in messages.iter_mut() {
        if message.id == id {
            message.place = Place::Consumed(attempt);
        }
    }
}

/// The messages of the ids stand in the queue.
pub(crate) fn move_to(messages: &mut [Message], ids: &[u64], queue: u8, at: Moment)
    ensures { messages.new ≡ after_moved ids.now queue at messages.old }
{
    for message in messages.iter_mut() {
        if ids.contains(&message.id) {
            message.place = moved_place(queue, at);
        }
    }
}
