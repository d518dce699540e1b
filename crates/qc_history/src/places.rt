// What the place of a message says of attempts on it.
ghost use Rattle.std.specs.Prelude.{◌≡◌};
ghost use Rattle.qc_listener.specs.Choice.{is_due, kind_at};
ghost use Rattle.qc_machine.specs.History.{kind_eq};
ghost use Rattle.qc_store.specs.Due.{is_queued};

use qc_base::{Kind, Moment, Place};

/// Whether it is one of the queues 0 to 5.
pub(crate) fn is_queued(place: &Place) -> bool
    ensures { result ≡ is_queued place.now }
{
    matches!(place, Place::Queue(_, _, _))
}

/// Whether the message is due at the moment.
pub(crate) fn is_due(at: Moment, place: Place) -> bool
    ensures { result ≡ is_due at place }
{
    match place {
        Place::Queue(_, _, due) => due.get() <= at.get(),
        Place::Dead | Place::Consumed(_) => false,
    }
}

/// The kind of an attempt on the message: the final one is that on a message with three tries.
pub(crate) fn kind_at(place: Place) -> Kind
    ensures { result ≡ kind_at place }
{
    match place {
        Place::Queue(_, 3, _) => Kind::Final,
        _ => Kind::Normal,
    }
}

pub(crate) fn is_same(a: Kind, b: Kind) -> bool
    ensures { result ≡ kind_eq a b }
{
    match (a, b) {
        (Kind::Normal, Kind::Normal) => true,
        (Kind::Final, Kind::Final) => true,
        (Kind::Normal, Kind::Final) => false,
        (Kind::Final, Kind::Normal) => false,
    }
}
