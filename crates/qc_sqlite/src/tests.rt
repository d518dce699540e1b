// Each public call, rows at the edges of what they may be, and files that can't be opened or hold no such table.
use crate::SqliteKeeper;
use qc_site::{Failed, Keeper};
use sqlite::{Alter, Connection, Error};
use std::alloc::Global;
use std::fs;
use std::test::Fail;

const MOST: u64 = 1_000_000_000_000_000;

// A call of a keeper on a row of `till`, and what it is to answer.
#[derive(Clone, Copy)]
enum Step {
    Make(&'static str, u64),
    Get(&'static str, Option<u64>),
    Put(&'static str, u64, bool),
    MakeFails(&'static str, u64),
    GetFails(&'static str),
    PutFails(&'static str, u64),
}

// Makes the call, and says whether the answer is the one that was told.
fn is_right<S: Alter>(keeper: &mut SqliteKeeper<S>, step: Step) -> bool {
    match step {
        Step::Make(key, amount) => make(keeper, key, amount) == Ok(()),
        Step::Get(key, found) => keeper.get(b"till", key.as_bytes()) == Ok(found),
        Step::Put(key, amount, there) => put(keeper, key, amount) == Ok(there),
        Step::MakeFails(key, amount) => make(keeper, key, amount) == Err(Failed),
        Step::GetFails(key) => keeper.get(b"till", key.as_bytes()) == Err(Failed),
        Step::PutFails(key, amount) => put(keeper, key, amount) == Err(Failed),
    }
}

fn make<S: Alter>(keeper: &mut SqliteKeeper<S>, key: &str, amount: u64) -> Result<(), Failed> {
    keeper.make(b"till", key.as_bytes(), amount.min(MOST))
}

fn put<S: Alter>(keeper: &mut SqliteKeeper<S>, key: &str, amount: u64) -> Result<bool, Failed> {
    keeper.put(b"till", key.as_bytes(), amount.min(MOST))
}

// The place of the first step that is answered otherwise than was told, or else the count of faults.
fn play<S: Alter>(keeper: &mut SqliteKeeper<S>, steps: &[Step]) -> Result<u64, usize> {
    for (at, step) in steps.iter().enumerate() {
        if !is_right(keeper, *step) {
            return Err(at);
        }
    }
    Ok(keeper.faults())
}

// A keeper is let go in functions over any store alone: a proof of a drop over a file is a long one.
fn play_once<S: Alter + Drop>(
    opened: Result<SqliteKeeper<S>, Failed>,
    steps: &[Step],
) -> Result<Result<u64, usize>, Failed> {
    let mut keeper = opened?;
    Ok(play(&mut keeper, steps))
}

fn play_in_memory(alloc: Global, steps: &[Step]) -> Result<Result<u64, usize>, Failed> {
    play_once(SqliteKeeper::in_memory(alloc), steps)
}

// Over the file, which is opened and let go.
fn play_in_file(
    rt: &HostRuntime,
    path: &str,
    steps: &[Step],
) -> Result<Result<u64, usize>, Failed> {
    play_once(SqliteKeeper::open(rt, rt.alloc(), path), steps)
}

// Removes what an earlier run may have left at this path: a database and its log.
fn clear(rt: &HostRuntime, path: &str) -> Result<(), Fail> {
    let _ = fs::remove_file(rt, path);
    let log = format!(in rt.alloc(); "{path}-wal")?;
    let _ = fs::remove_file(rt, log.as_str());
    Ok(())
}

fn is_open<S: Alter + Drop>(opened: Result<SqliteKeeper<S>, Failed>) -> bool {
    opened.is_ok()
}

fn opens(rt: &HostRuntime, path: &str) -> bool {
    is_open(SqliteKeeper::open(rt, rt.alloc(), path))
}

// Whether the file is opened a second time while it is open.
fn opens_beside<S: Alter + Drop>(
    rt: &HostRuntime,
    path: &str,
    opened: Result<SqliteKeeper<S>, Failed>,
) -> Result<bool, Failed> {
    let _keeper = opened?;
    Ok(opens(rt, path))
}

fn run_once<S: Alter + Drop>(opened: Result<Connection<S>, Error>, sql: &str) -> Result<(), Error> {
    let mut connection = opened?;
    connection.execute(sql, &[])?;
    Ok(())
}

// Runs one text of SQL on the database, as another program would.
fn run_by_hand(rt: &HostRuntime, path: &str, sql: &str) -> Result<(), Error> {
    run_once(Connection::open(rt, path), sql)
}

#[test]
fn a_row_is_made_read_and_put(rt: HostRuntime) -> Result<(), Fail> {
    let path = "row.db";
    clear(&rt, path)?;
    let steps = [
        Step::Make("drawer", 100),
        Step::Get("drawer", Some(100)),
        Step::Put("drawer", 104, true),
        Step::Get("drawer", Some(104)),
        Step::Put("box", 1, false),
        Step::Get("box", None),
        Step::Make("drawer", 3),
        Step::Get("drawer", Some(3)),
    ];
    assert_eq!(rt; play_in_memory(rt.alloc(), &steps)?, Ok(0));
    assert_eq!(rt; play_in_file(&rt, path, &steps)?, Ok(0));
    Ok(())
}

#[test]
fn amounts_reach_from_nothing_to_the_most(rt: HostRuntime) -> Result<(), Fail> {
    let steps = [
        Step::Make("drawer", 0),
        Step::Get("drawer", Some(0)),
        Step::Put("drawer", MOST, true),
        Step::Get("drawer", Some(MOST)),
        Step::Make("box", MOST),
        Step::Get("box", Some(MOST)),
        Step::Put("box", 0, true),
        Step::Get("box", Some(0)),
    ];
    assert_eq!(rt; play_in_memory(rt.alloc(), &steps)?, Ok(0));
    Ok(())
}

#[test]
fn a_reopened_file_has_its_rows(rt: HostRuntime) -> Result<(), Fail> {
    let path = "again.db";
    clear(&rt, path)?;
    let made = [Step::Make("drawer", 5), Step::Make("box", 6)];
    assert_eq!(rt; play_in_file(&rt, path, &made)?, Ok(0));
    let put = [Step::Get("drawer", Some(5)), Step::Put("drawer", 7, true)];
    assert_eq!(rt; play_in_file(&rt, path, &put)?, Ok(0));
    let kept = [Step::Get("drawer", Some(7)), Step::Get("box", Some(6))];
    assert_eq!(rt; play_in_file(&rt, path, &kept)?, Ok(0));
    Ok(())
}

// Names as the service has them, of the kinds that a table might take for one another.
const NAMES: [(&str, &str); 16] = [
    ("till", "drawer"),
    ("drawer", "till"),
    ("tilld", "rawer"),
    ("Till", "drawer"),
    ("till", "DRAWER"),
    ("till", "drawer "),
    ("till", "1"),
    ("till", "01"),
    ("till", "1.0"),
    ("till", "it's"),
    ("till", "\"; DROP TABLE outside; --"),
    ("till", "%_?1\\"),
    ("till", "é"),
    ("till", "e\u{301}"),
    ("till", "😀"),
    (
        "A23456789_123456789_123456789_12",
        "0123456789 123456789 123456789 123456789 123456789 123456789 123",
    ),
];

// Makes each row, with an amount of its own.
fn make_each<S: Alter>(keeper: &mut SqliteKeeper<S>) -> Result<(), Failed> {
    let mut amount: u16 = 0;
    for (resource, name) in NAMES {
        keeper.make(resource.as_bytes(), name.as_bytes(), u64::from(amount))?;
        amount = amount.wrapping_add(7);
    }
    Ok(())
}

// Says whether each row has the amount that it was made with.
fn has_each<S: Alter>(keeper: &mut SqliteKeeper<S>) -> Result<bool, Failed> {
    let mut amount: u16 = 0;
    for (resource, name) in NAMES {
        if keeper.get(resource.as_bytes(), name.as_bytes())? != Some(u64::from(amount)) {
            return Ok(false);
        }
        amount = amount.wrapping_add(7);
    }
    Ok(true)
}

fn keeps_names<S: Alter + Drop>(opened: Result<SqliteKeeper<S>, Failed>) -> Result<bool, Failed> {
    let mut keeper = opened?;
    make_each(&mut keeper)?;
    has_each(&mut keeper)
}

// Bytes that are no text, and one that ends a text elsewhere.
fn keeps_bytes<S: Alter + Drop>(opened: Result<SqliteKeeper<S>, Failed>) -> Result<bool, Failed> {
    let mut keeper = opened?;
    keeper.make(b"\xff", b"a\x00b", 5)?;
    let other = keeper.get(b"\xff", b"a\x00c")?;
    let same = keeper.get(b"\xff", b"a\x00b")?;
    Ok(other.is_none() && same == Some(5))
}

#[test]
fn names_are_taken_byte_by_byte(rt: HostRuntime) -> Result<(), Fail> {
    assert!(rt; keeps_names(SqliteKeeper::in_memory(rt.alloc()))?);
    assert!(rt; keeps_bytes(SqliteKeeper::in_memory(rt.alloc()))?);
    Ok(())
}

#[test]
fn a_file_that_is_open_is_not_opened_again(rt: HostRuntime) -> Result<(), Fail> {
    let path = "open.db";
    clear(&rt, path)?;
    let opened = SqliteKeeper::open(&rt, rt.alloc(), path);
    assert!(rt; !opens_beside(&rt, path, opened)?);
    assert!(rt; opens(&rt, path));
    Ok(())
}

#[test]
fn what_is_no_database_is_not_opened(rt: HostRuntime) -> Result<(), Fail> {
    let path = "text.db";
    clear(&rt, path)?;
    assert!(rt; !opens(&rt, "nowhere/outside.db"));
    assert!(rt; !opens(&rt, "."));
    let text = "These are the accounts of an office, and no database.";
    fs::write(&rt, path, text)?;
    assert!(rt; !opens(&rt, path));
    assert_eq!(rt; fs::read_to_string(&rt, path)?.as_str(), text);
    Ok(())
}

#[test]
fn a_value_that_is_no_amount_is_a_fault(rt: HostRuntime) -> Result<(), Fail> {
    let path = "amounts.db";
    clear(&rt, path)?;
    let made = [Step::Make("drawer", 5), Step::Make("box", 6)];
    assert_eq!(rt; play_in_file(&rt, path, &made)?, Ok(0));
    run_by_hand(
        &rt,
        path,
        "UPDATE outside SET amount = CASE name WHEN 'box' THEN -1 ELSE 1000000000000001 END",
    )?;
    let steps = [
        Step::GetFails("drawer"),
        Step::GetFails("box"),
        Step::Put("box", 7, true),
        Step::Get("box", Some(7)),
    ];
    assert_eq!(rt; play_in_file(&rt, path, &steps)?, Ok(2));
    Ok(())
}

#[test]
fn what_the_database_refuses_is_a_fault(rt: HostRuntime) -> Result<(), Fail> {
    let path = "refused.db";
    clear(&rt, path)?;
    run_by_hand(
        &rt,
        path,
        "CREATE TABLE outside (resource TEXT, name TEXT, amount INTEGER CHECK (amount < 5), \
            PRIMARY KEY (resource, name))",
    )?;
    let steps = [
        Step::Make("drawer", 4),
        Step::MakeFails("box", 7),
        Step::PutFails("drawer", 9),
        Step::Get("drawer", Some(4)),
        Step::Get("box", None),
    ];
    assert_eq!(rt; play_in_file(&rt, path, &steps)?, Ok(2));
    Ok(())
}

#[test]
fn a_table_of_another_shape_is_not_opened(rt: HostRuntime) -> Result<(), Fail> {
    let path = "shape.db";
    clear(&rt, path)?;
    run_by_hand(&rt, path, "CREATE TABLE outside (name TEXT)")?;
    assert!(rt; !opens(&rt, path));
    Ok(())
}
