// The choice.
ghost use Rattle.std.specs.Prelude.{◌≡◌, ◌==◌, false, if◌then◌else◌};
ghost use Rattle.std.specs.Option.{option_map_or};
ghost use Rattle.qc_base.specs.declared.fact.Kind.TheVariants.{Normal, Final};
ghost use Rattle.qc_catalogue.specs.declared.catalogue.Catalogue.{Catalogue};
ghost use Rattle.qc_listener.specs.Choice.{AreKept, chosen};
ghost use Rattle.qc_listener.specs.Index.{rows_kept};
ghost use Rattle.qc_rows.specs.Holdings.{are_free};

use crate::chosen::Chosen;
use crate::index::RowIndex;
use qc_base::{Kind, Moment, Name};
use qc_rows::Held;
use qc_store::Store;

/// The message of an application that is taken at a moment: of those in the queues 0 to 5 that are due, that no attempt
/// holds and whose rows no attempt holds, the first by due moment and then by id (docs/RULES.md, "Take"). The index has
/// to keep each message of the application in these queues, by that message's own recording. This takes no memory.
pub fn choose(store: &Store, rows: &RowIndex, held: &Held, app: &Name, now: Moment) -> Chosen
    ensures { (c : Catalogue) → AreKept c rows.now app.now store.now.messages
        → result ≡ chosen c held.now now app.now store.now.messages }
{
    let mut blocked = 0;
    let mut after = None;
    for _ in 0..store.len() {
        let Some(next) = store.next_due(app.as_bytes(), after) else {
            return Chosen::NothingDue(None, blocked);
        };
        // a message's id, queue, tries and due moment
        let (id, tries) = (next.0, next.2);
        let due = next.3;
        if due.get() > now.get() {
            return Chosen::NothingDue(Some(due), blocked);
        }
        if !held.has(id) {
            if has_free_rows(rows, held, id, kind_of(tries)) {
                return Chosen::Take(id);
            }
            blocked += 1;
        }
        after = Some((due, id));
    }
    Chosen::NothingDue(None, blocked)
}

// The kind of the attempt on a message with so many tries.
fn kind_of(tries: u8) -> Kind
    ensures { result ≡ (if tries == 3 then Final else Normal) }
{
    if tries == 3 {
        Kind::Final
    } else {
        Kind::Normal
    }
}

// Whether no attempt holds any of the rows that the attempt would have.
fn has_free_rows(rows: &RowIndex, held: &Held, id: u64, kind: Kind) -> bool
    ensures { result ≡ option_map_or (are_free held.now) (rows_kept id kind rows.now) false }
{
    match rows.rows(id, kind) {
        Some(wanted) => held.is_free(wanted),
        None => false,
    }
}
