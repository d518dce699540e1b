ghost use Rattle.std.specs.Prelude.{◌≡◌, true, IfOk};
ghost use Rattle.qc_base.specs.Spelling.{is_fact};

use crate::History;
use qc_base::{Fact, Name, NoMemory, Space, Text};
use qc_catalogue::sample;
use qc_journal::read_fact;
use std::alloc::Global;
use std::test::Fail;

fn name(bytes: &str) -> Result<Name, NoMemory> {
    Name::read(bytes.as_bytes()).ok_or(NoMemory)
}

fn text(bytes: &str) -> Result<Text, NoMemory> {
    Text::read(bytes.as_bytes()).ok_or(NoMemory)
}

fn put(bytes: &mut Vec<u8>, more: &[u8]) -> Result<(), NoMemory> {
    bytes.extend_from_slice(more).map_err(|_| NoMemory)
}

fn fact_in(alloc: Global, bytes: &[u8]) -> Result<Fact, Fail>
    ensures { IfOk result (λ fact. is_fact fact ≡ true) }
{
    match read_fact(alloc, bytes)? {
        Some((fact, _)) => Ok(fact),
        None => Err(Fail::from("no fact")),
    }
}

// The catalogue of this text is in force.
fn in_force(alloc: Global, catalogue: &[u8]) -> Result<Vec<u8>, NoMemory> {
    let length = u32::try_from(catalogue.len()).map_err(|_| NoMemory)?;
    let mut bytes = Vec::new(alloc);
    put(&mut bytes, &[1])?;
    put(&mut bytes, &length.to_be_bytes())?;
    put(&mut bytes, catalogue)?;
    Ok(bytes)
}

// The spelling of recordings with one call, up to its last argument, a number.
const TAKE: &str = "\u{6}Orders\u{5}Plain\u{1}\u{4}Take\u{2}\u{1}\u{4}bolt\u{2}";

const PLACE_BOLTS: &str = "\u{6}Orders\u{5}Order\u{1}\u{5}Place\u{2}\u{1}\u{4}bolt\u{2}";

const PLACE_NUTS: &str = "\u{6}Orders\u{5}Order\u{1}\u{5}Place\u{2}\u{1}\u{3}nut\u{2}";

const UNDO: &str = "\u{6}Orders\u{5}Plain\u{1}\u{4}Undo\u{1}\u{2}";

// A message was sent with such a recording.
fn sent(alloc: Global, id: u64, call: &[u8], number: u64, at: u64) -> Result<Vec<u8>, NoMemory> {
    let length = u16::try_from(call.len().saturating_add(8)).map_err(|_| NoMemory)?;
    let mut bytes = Vec::new(alloc);
    put(&mut bytes, &[2])?;
    put(&mut bytes, &id.to_be_bytes())?;
    put(&mut bytes, &at.to_be_bytes())?;
    put(&mut bytes, &length.to_be_bytes())?;
    put(&mut bytes, call)?;
    put(&mut bytes, &number.to_be_bytes())?;
    Ok(bytes)
}

// An attempt was committed that is of the kind with this byte, or one failed.
fn ended(
    alloc: Global,
    committed: Option<u8>,
    id: u64,
    number: u64,
    at: u64,
) -> Result<Vec<u8>, NoMemory> {
    let mut bytes = Vec::new(alloc);
    let tag: u8 = if committed.is_some() { 3 } else { 4 };
    put(&mut bytes, &[tag])?;
    put(&mut bytes, &id.to_be_bytes())?;
    put(&mut bytes, &number.to_be_bytes())?;
    if let Some(kind) = committed {
        put(&mut bytes, &[kind])?;
    }
    put(&mut bytes, &at.to_be_bytes())?;
    Ok(bytes)
}

// Messages were moved to a queue of an application, whose name has its length in front.
fn moved(alloc: Global, app: &[u8], queue: u8, ids: &[u64], at: u64) -> Result<Vec<u8>, NoMemory> {
    let count = u16::try_from(ids.len()).map_err(|_| NoMemory)?;
    let mut bytes = Vec::new(alloc);
    put(&mut bytes, &[5])?;
    put(&mut bytes, app)?;
    put(&mut bytes, &[queue])?;
    put(&mut bytes, &at.to_be_bytes())?;
    put(&mut bytes, &count.to_be_bytes())?;
    for id in ids {
        put(&mut bytes, &id.to_be_bytes())?;
    }
    Ok(bytes)
}

// An application was switched off, whose name has its length in front.
fn switched_off(alloc: Global, app: &[u8], at: u64) -> Result<Vec<u8>, NoMemory> {
    let mut bytes = Vec::new(alloc);
    put(&mut bytes, &[6])?;
    put(&mut bytes, app)?;
    put(&mut bytes, &[0])?;
    put(&mut bytes, &at.to_be_bytes())?;
    Ok(bytes)
}

// Whether the fact with this spelling is taken.
fn takes(
    alloc: Global,
    history: &mut History,
    numbers: &mut Vec<u64>,
    bytes: &[u8],
) -> Result<bool, Fail> {
    let fact = fact_in(alloc, bytes)?;
    if history.facts() > 1000 {
        return Err(Fail::from("many facts"));
    }
    match history.take(alloc, fact, numbers) {
        Ok(taken) => Ok(taken),
        Err(_) => Err(Fail::from("no memory")),
    }
}

// A fact as a row of the tables below tells it: with id, bolts and moment, or with id, call, its number and moment;
// with id, number and moment, where a committed attempt may be a final one; or with the application's name behind its
// length, and the moment, where messages are moved with the queue and their ids between.
#[derive(Clone, Copy)]
enum Told {
    InForce,
    Sent(u64, u64, u64),
    Called(u64, &'static str, u64, u64),
    Committed(u64, u64, u64),
    Final(u64, u64, u64),
    Failed(u64, u64, u64),
    Moved(&'static str, u8, &'static [u64], u64),
    Off(&'static str, u64),
}

fn spelled(alloc: Global, catalogue: &str, told: Told) -> Result<Vec<u8>, NoMemory> {
    match told {
        Told::InForce => in_force(alloc, catalogue.as_bytes()),
        Told::Sent(id, bolts, at) => sent(alloc, id, TAKE.as_bytes(), bolts, at),
        Told::Called(id, call, number, at) => sent(alloc, id, call.as_bytes(), number, at),
        Told::Committed(id, number, at) => ended(alloc, Some(1), id, number, at),
        Told::Final(id, number, at) => ended(alloc, Some(2), id, number, at),
        Told::Failed(id, number, at) => ended(alloc, None, id, number, at),
        Told::Moved(app, queue, ids, at) => moved(alloc, app.as_bytes(), queue, ids, at),
        Told::Off(app, at) => switched_off(alloc, app.as_bytes(), at),
    }
}

const FACTS: &[(Told, bool)] = &[
    (Told::Sent(1, 4, 0), false),
    (Told::InForce, true),
    (Told::InForce, false),
    (Told::Sent(1, 4, 0), true),
    (Told::Sent(1, 4, 0), false),
    (Told::Committed(2, 1, 0), false),
    (Told::Failed(1, 1, 0), false),
    (Told::Committed(1, 1, 0), true),
    (Told::Committed(1, 2, 0), false),
    (Told::Sent(2, 7, 10), true),
    (Told::Committed(2, 2, 10), false),
    (Told::Failed(2, 1, 10), false),
    (Told::Failed(2, 2, 9), false),
    (Told::Failed(2, 2, 10), true),
    (Told::Failed(2, 3, 10), true),
    (Told::Failed(2, 4, 10), true),
    (Told::Failed(2, 5, 69), false),
    (Told::Failed(2, 5, 70), true),
    (Told::Moved("\u{6}Nobody", 6, &[2], 70), false),
    (Told::Moved("\u{6}Orders", 6, &[1], 70), false),
    (Told::Moved("\u{6}Orders", 6, &[2, 3], 70), false),
    (Told::Moved("\u{6}Orders", 6, &[2, 2], 70), false),
    (Told::Moved("\u{6}Orders", 6, &[2], 69), false),
    (Told::Moved("\u{6}Orders", 6, &[2], 70), true),
    (Told::Failed(2, 6, 200), false),
    (Told::Moved("\u{6}Orders", 0, &[2], 80), true),
    (Told::Failed(2, 6, 80), true),
    (Told::Failed(2, 7, 80), true),
    (Told::Failed(2, 8, 80), true),
    (Told::Failed(2, 9, 139), false),
    (Told::Failed(2, 9, 140), true),
    (Told::Sent(3, 1, 140), true),
    (Told::Moved("\u{6}Orders", 4, &[3, 2], 150), true),
    (Told::Committed(3, 10, 149), false),
    (Told::Committed(3, 10, 150), true),
    (Told::Moved("\u{6}Orders", 4, &[2, 3], 150), false),
    (Told::Off("\u{6}Nobody", 150), false),
    (Told::Off("\u{6}Orders", 150), true),
];

// The catalogue of the last attempt below: Plain names an exception class, and nothing is changed outside.
const LAST: &str = "[table.stock]\n\
bolt = 10\n\
[table.lost]\n\
[table.finals]\n\
[application.Orders]\n\
id = \"6f1c2f9e-0b7e-4c52-9d0a-1f2e3d4c5b01\"\n\
[application.Orders.exception.PlainLast]\n\
class = \"6f1c2f9e-0b7e-4c52-9d0a-1f2e3d4c5b02\"\n\
final = 'add finals[\"count\"] 1'\n\
[application.Orders.exception.PlainLast.method.Take]\n\
params = [\"in item text\", \"in qty whole\"]\n\
script = \"add lost[item] qty\"\n\
[application.Orders.component.Plain]\n\
class = \"6f1c2f9e-0b7e-4c52-9d0a-1f2e3d4c5b03\"\n\
exception = \"PlainLast\"\n\
[application.Orders.component.Plain.method.Take]\n\
params = [\"in item text\", \"in qty whole\"]\n\
script = '''\n\
need stock[item] >= qty\n\
sub stock[item] qty\n\
'''\n";

// There is a bolt too few. Before the last attempt there are eighteen others.
const LAST_FACTS: &[(Told, bool)] = &[
    (Told::InForce, true),
    (Told::Sent(1, 11, 0), true),
    (Told::Final(1, 1, 0), false),
    (Told::Failed(1, 1, 0), true),
    (Told::Failed(1, 2, 0), true),
    (Told::Failed(1, 3, 0), true),
    (Told::Failed(1, 4, 60), true),
    (Told::Failed(1, 5, 120), true),
    (Told::Failed(1, 6, 180), true),
    (Told::Failed(1, 7, 300), true),
    (Told::Failed(1, 8, 420), true),
    (Told::Failed(1, 9, 540), true),
    (Told::Failed(1, 10, 780), true),
    (Told::Failed(1, 11, 1020), true),
    (Told::Failed(1, 12, 1260), true),
    (Told::Failed(1, 13, 1740), true),
    (Told::Failed(1, 14, 2220), true),
    (Told::Failed(1, 15, 2700), true),
    (Told::Failed(1, 16, 3660), true),
    (Told::Failed(1, 17, 4620), true),
    (Told::Failed(1, 18, 5580), true),
    (Told::Failed(1, 19, 5580), false),
    (Told::Committed(1, 19, 5580), false),
    (Told::Final(1, 18, 5580), false),
    (Told::Final(1, 19, 5579), false),
    (Told::Final(1, 19, 5580), true),
    (Told::Moved("\u{6}Orders", 0, &[1], 5580), false),
];

const LAST_AMOUNTS: &[Wanted] = &[
    (Space::Inside, "stock", "bolt", Some(10)),
    (Space::Inside, "lost", "bolt", Some(11)),
    (Space::Inside, "finals", "count", Some(1)),
];

// Attempts that change the drawer, which has 100 at first and at most 110. The orders are for nuts, of which there are
// 3, and bolts, of which there are 10. The undo passes the bound by a change that it takes back, and adds 1.
const OUTSIDE_FACTS: &[(Told, bool)] = &[
    (Told::InForce, true),
    (Told::Called(1, PLACE_NUTS, 3, 0), true),
    (Told::Failed(1, 1, 0), false),
    (Told::Committed(1, 1, 0), true),
    (Told::Called(2, PLACE_BOLTS, 8, 0), true),
    (Told::Committed(2, 2, 0), false),
    (Told::Failed(2, 2, 0), true),
    (Told::Called(3, UNDO, 20, 0), true),
    (Told::Failed(3, 3, 0), false),
    (Told::Committed(3, 3, 0), true),
    (Told::Called(4, PLACE_BOLTS, 6, 0), true),
    (Told::Failed(4, 4, 0), false),
    (Told::Committed(4, 4, 0), true),
    (Told::Called(5, UNDO, 0, 0), true),
    (Told::Committed(5, 5, 0), false),
    (Told::Failed(5, 5, 0), true),
    (Told::Sent(6, 1, 0), true),
];

const OUTSIDE_AMOUNTS: &[Wanted] = &[
    (Space::Outside, "till", "drawer", Some(110)),
    (Space::Outside, "post", "letters", Some(0)),
    (Space::Outside, "till", "letters", None),
    (Space::Inside, "stock", "bolt", Some(4)),
    (Space::Inside, "sold", "nut", Some(3)),
    (Space::Inside, "till", "drawer", Some(0)),
];

// The first row that isn't taken as it tells, or the number of rows.
fn taken_as_told(
    alloc: Global,
    history: &mut History,
    catalogue: &str,
    facts: &[(Told, bool)],
) -> Result<usize, Fail> {
    let mut numbers = Vec::new(alloc);
    for index in 0..facts.len() {
        let (told, taken) = facts[index];
        let bytes = spelled(alloc, catalogue, told)?;
        if takes(alloc, history, &mut numbers, bytes.as_slice())? != taken {
            return Ok(index);
        }
    }
    Ok(facts.len())
}

// A row with the amount that it is to have, where it is to be there. An inside row is there always.
type Wanted = (Space, &'static str, &'static str, Option<u64>);

fn settled(history: &History, row: &Wanted) -> Result<Option<u64>, NoMemory> {
    let table = name(row.1)?;
    let key = text(row.2)?;
    match row.0 {
        Space::Inside => Ok(Some(history.tables().amount(&table, &key))),
        Space::Outside => match history.outside().amount(&table, &key) {
            Some(amount) => Ok(Some(amount.get())),
            None => Ok(None),
        },
    }
}

// The first row that hasn't the wanted amount, or the number of rows.
fn settled_as_wanted(history: &History, rows: &[Wanted]) -> Result<usize, NoMemory> {
    for index in 0..rows.len() {
        if settled(history, &rows[index])? != rows[index].3 {
            return Ok(index);
        }
    }
    Ok(rows.len())
}

// Each message with whether an attempt on it can be played, and whether that one changes nothing outside.
const ATTEMPTS: &[(u64, bool, bool)] = &[
    (1, false, false),
    (2, true, false),
    (6, true, true),
    (7, false, false),
];

// The first row that doesn't tell what the history does, or the number of rows.
fn attempts_as_told(history: &History, rows: &[(u64, bool, bool)]) -> usize {
    for index in 0..rows.len() {
        let (id, playable, inside) = rows[index];
        if history.kind_of_attempt(id).is_some() != playable {
            return index;
        }
        if history.plays_inside(id) != inside {
            return index;
        }
    }
    rows.len()
}

#[test]
fn facts_are_taken_where_they_may_follow(rt: HostRuntime) -> Result<(), Fail> {
    let alloc = rt.alloc();
    let mut history = History::make(alloc)?;
    assert_eq!(rt;
        taken_as_told(alloc, &mut history, sample(), FACTS)?,
        FACTS.len()
    );
    assert_eq!(rt;
        settled_as_wanted(&history, &[(Space::Inside, "stock", "bolt", Some(5))])?,
        1
    );
    Ok(())
}

#[test]
fn a_last_attempt_is_taken_after_eighteen_failures(rt: HostRuntime) -> Result<(), Fail> {
    let alloc = rt.alloc();
    let mut history = History::make(alloc)?;
    assert_eq!(rt;
        taken_as_told(alloc, &mut history, LAST, LAST_FACTS)?,
        LAST_FACTS.len()
    );
    assert_eq!(rt;
        settled_as_wanted(&history, LAST_AMOUNTS)?,
        LAST_AMOUNTS.len()
    );
    Ok(())
}

#[test]
fn outside_rows_are_settled_where_their_resources_are_ready(rt: HostRuntime) -> Result<(), Fail> {
    let alloc = rt.alloc();
    let mut history = History::make(alloc)?;
    assert_eq!(rt;
        taken_as_told(alloc, &mut history, sample(), OUTSIDE_FACTS)?,
        OUTSIDE_FACTS.len()
    );
    assert_eq!(rt;
        settled_as_wanted(&history, OUTSIDE_AMOUNTS)?,
        OUTSIDE_AMOUNTS.len()
    );
    assert_eq!(rt; attempts_as_told(&history, ATTEMPTS), ATTEMPTS.len());
    Ok(())
}
