// The program over folders, with streams in memory. Each test works in a folder of its own.
use crate::program::run_words;
use crate::real::Real;
use qc_catalogue::sample;
use qc_memsite::{MemSink, MemSource};
use qc_protocol::Status;
use qc_realsite::Folder;
use qc_site::Keeper;
use qc_sqlite::SqliteKeeper;
use std::fs;
use std::test::Fail;

const SEND: &str = "{\"at\":0,\"do\":\"send\",\"app\":\"Orders\",\"component\":\"Order\",\
    \"calls\":[[\"Place\",\"bolt\",4]]}\n";

const LIST: &str = "{\"at\":0,\"do\":\"queues\",\"app\":\"Orders\"}\n";

const TILL: &str = "{\"at\":0,\"do\":\"outside\",\"resource\":\"till\"}\n";

const SENT: &str = "sent 1\n";

const LISTED: &str = "queues Orders 1/0/0; Orders_0; Orders_1; Orders_2; Orders_3; Orders_4; \
    Orders_DeadQueue; consumed 0\n";

const TILL_SHOWN: &str = "outside till \"drawer\" 100; total 100\n";

// Carries out the words, which blanks part, and gives the status and what was written.
fn run(rt: &HostRuntime, line: &str, input: &str) -> Result<(Status, MemSink), Fail> {
    let alloc = rt.alloc();
    let mut words = Vec::new(alloc);
    for word in line.split(' ') {
        words.push(String::from_str(alloc, word)?)?;
    }
    let bytes = Vec::from_slice(alloc, input.as_bytes())?;
    let mut source = MemSource::over(bytes, Vec::new(alloc));
    let mut sink = MemSink::make(alloc, Vec::new(alloc))?;
    let status = run_words(alloc, words, &mut Real::over(rt), &mut source, &mut sink);
    Ok((status, sink))
}

#[test]
fn a_site_in_a_folder_is_there_for_the_next_run(rt: HostRuntime) -> Result<(), Fail> {
    let _ = fs::remove_dir_all(&rt, "kept");
    fs::create_dir(&rt, "kept")?;
    let table = [
        ("kept drill", LIST, Status::NotMade, ""),
        (
            "kept init",
            "",
            Status::BadCatalogue,
            "bad catalogue: BadField application\n",
        ),
        ("kept init", sample(), Status::Done, ""),
        ("kept init", sample(), Status::AlreadyMade, ""),
        ("kept drill", SEND, Status::Done, SENT),
        ("kept drill", LIST, Status::Done, LISTED),
        ("kept drill", TILL, Status::Done, TILL_SHOWN),
    ];
    for (line, input, status, said) in table {
        let (ended, sink) = run(&rt, line, input)?;
        assert_eq!(rt; ended, status);
        assert_eq!(rt; sink.contents(), said.as_bytes());
    }
    let mut keeper = SqliteKeeper::open(&rt, rt.alloc(), "kept/outside.db")?;
    assert_eq!(rt; keeper.get(b"till", b"drawer"), Ok(Some(100)));
    Ok(())
}

#[test]
fn a_folder_that_is_away_or_taken_is_a_site_fault(rt: HostRuntime) -> Result<(), Fail> {
    let _ = fs::remove_dir_all(&rt, "taken");
    fs::create_dir(&rt, "taken")?;
    let (away, _) = run(&rt, "away init", sample())?;
    assert_eq!(rt; away, Status::SiteFault);
    let folder = Folder::lock(&rt, "taken")?;
    let (taken, _) = run(&rt, "taken init", sample())?;
    assert_eq!(rt; taken, Status::SiteFault);
    drop(folder);
    // Nothing was made in it.
    fs::remove_dir(&rt, "taken")?;
    fs::create_dir(&rt, "taken")?;
    let (free, _) = run(&rt, "taken init", sample())?;
    assert_eq!(rt; free, Status::Done);
    Ok(())
}

#[test]
fn what_cannot_be_opened_in_a_folder_is_a_site_fault(rt: HostRuntime) -> Result<(), Fail> {
    let _ = fs::remove_dir_all(&rt, "odd");
    fs::create_dir(&rt, "odd")?;
    let text = "These are the accounts of an office, and no database.";
    fs::write(&rt, "odd/outside.db", text)?;
    let (database, _) = run(&rt, "odd init", sample())?;
    assert_eq!(rt; database, Status::SiteFault);
    // A file is no folder.
    let (file, _) = run(&rt, "odd/outside.db init", sample())?;
    assert_eq!(rt; file, Status::SiteFault);
    assert_eq!(rt; fs::read_to_string(&rt, "odd/outside.db")?.as_str(), text);
    fs::remove_file(&rt, "odd/outside.db")?;
    fs::create_dir(&rt, "odd/journal")?;
    let (journal, _) = run(&rt, "odd init", sample())?;
    assert_eq!(rt; journal, Status::SiteFault);
    Ok(())
}

#[test]
fn other_words_are_bad_and_touch_nothing(rt: HostRuntime) -> Result<(), Fail> {
    let _ = fs::remove_dir_all(&rt, "other");
    fs::create_dir(&rt, "other")?;
    for line in [
        "",
        "show",
        "other",
        "other show",
        "drill other",
        "other drill drill",
    ] {
        let (status, sink) = run(&rt, line, LIST)?;
        assert_eq!(rt; status, Status::BadWords);
        assert!(rt; sink.contents().is_empty());
    }
    assert!(rt; fs::remove_dir(&rt, "other").is_ok());
    let (memory, sink) = run(&rt, "drill", LIST)?;
    assert_eq!(rt; memory, Status::Done);
    assert!(rt; !sink.contents().is_empty());
    Ok(())
}
