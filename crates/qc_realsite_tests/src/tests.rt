// Each test works in a folder of its own, which it makes first, and leaves behind.
use crate::*;
use qc_catalogue::sample;
use qc_drill::run;
use qc_memsite::{MemKeeper, MemSink, MemSite, MemSource};
use qc_protocol::Status;
use qc_realsite::{FileSite, Folder, OpenError, OsFile, RealClock, RealSink, RealSite, RealSource};
use qc_site::{Clock, Failed, Keeper, Sink, Site, SiteFile, Source};
use qc_sqlite::SqliteKeeper;
use std::io::{ErrorKind, Read, Write};
use std::test::Fail;
use std::time::Duration;
use std::{fs, io, time};

const FILES: [SiteFile; 3] = [SiteFile::Journal, SiteFile::CrmLog, SiteFile::Snap];

fn empty_folder(rt: &HostRuntime, path: &str) -> Result<(), Fail> {
    let _ = fs::remove_dir_all(rt, path);
    fs::create_dir(rt, path)?;
    Ok(())
}

fn keeper(rt: &HostRuntime) -> Result<MemKeeper, Fail> {
    Ok(MemKeeper::make(rt.alloc(), Vec::new(rt.alloc()))?)
}

fn real_site(rt: &HostRuntime, path: &str) -> Result<RealSite<MemKeeper>, Fail> {
    let folder = Folder::lock(rt, path)?;
    let keeper = keeper(rt)?;
    Ok(RealSite::open(rt, folder, keeper)?)
}

type PlannedSite = FileSite<Planned<OsFile>, MemKeeper>;

// A site in the folder whose journal has this plan.
fn planned_site(rt: &HostRuntime, path: &str, trips: &[Trip]) -> Result<PlannedSite, Fail> {
    let folder = Folder::lock(rt, path)?;
    let plan = Vec::from_slice(rt.alloc(), trips)?;
    let journal = Planned::over(folder.open(rt, SiteFile::Journal)?, plan);
    let crm_log = Planned::over(folder.open(rt, SiteFile::CrmLog)?, Vec::new(rt.alloc()));
    let snap = Planned::over(folder.open(rt, SiteFile::Snap)?, Vec::new(rt.alloc()));
    Ok(FileSite::over(journal, crm_log, snap, keeper(rt)?))
}

fn bytes_on_disk(rt: &HostRuntime, folder: &str, file: SiteFile) -> Result<Vec<u8>, Fail> {
    let path = format!(in rt.alloc(); "{folder}/{}", file.name())?;
    Ok(fs::read(rt, path.as_str())?)
}

fn have_same_bytes(rt: &HostRuntime, folder: &str, model: &mut MemSite) -> Result<bool, Fail> {
    for file in FILES {
        let bytes = all_bytes(rt.alloc(), model, file)?;
        if bytes_on_disk(rt, folder, file)?.as_slice() != bytes.as_slice() {
            return Ok(false);
        }
    }
    Ok(true)
}

// Plays so many calls of both, and compares the files of the folder after each sync. It gives the number of syncs.
fn play<S: Site>(
    rt: &HostRuntime,
    folder: &str,
    real: &mut S,
    seed: u64,
    calls: u64,
) -> Result<Option<u64>, Fail> {
    let mut model = MemSite::make(rt.alloc())?;
    let mut dice = Dice::new(seed);
    let mut syncs = 0u64;
    for _ in 0..calls {
        if play_one(rt.alloc(), real, &mut model, &mut dice)?.is_some() {
            syncs = syncs.saturating_add(1);
            if !have_same_bytes(rt, folder, &mut model)? {
                return Ok(None);
            }
        }
    }
    Ok(Some(syncs))
}

#[test]
fn a_folder_answers_as_the_memory_does(rt: HostRuntime) -> Result<(), Fail> {
    for seed in 1..4 {
        empty_folder(&rt, "as_memory")?;
        let mut real = real_site(&rt, "as_memory")?;
        let syncs = play(&rt, "as_memory", &mut real, seed, 2000)?;
        assert!(rt; syncs > Some(100));
    }
    Ok(())
}

// Over any keeper of rows, which is let go here: a proof of a drop over a database is a long one.
fn play_over<K: Keeper + Drop>(
    rt: &HostRuntime,
    path: &str,
    keeper: Result<K, Failed>,
) -> Result<Option<u64>, Fail> {
    let folder = Folder::lock(rt, path)?;
    let mut real = RealSite::open(rt, folder, keeper?)?;
    play(rt, path, &mut real, 11, 1000)
}

#[test]
fn a_folder_with_its_database_answers_as_the_memory_does(rt: HostRuntime) -> Result<(), Fail> {
    empty_folder(&rt, "database")?;
    let keeper = SqliteKeeper::open(&rt, rt.alloc(), "database/outside.db");
    let syncs = play_over(&rt, "database", keeper)?;
    assert!(rt; syncs > Some(50));
    Ok(())
}

#[test]
fn what_was_synced_is_there_when_it_is_opened_again(rt: HostRuntime) -> Result<(), Fail> {
    empty_folder(&rt, "again")?;
    let mut first = real_site(&rt, "again")?;
    first.write_at(SiteFile::CrmLog, 0, b"abcdef")?;
    first.cut(SiteFile::CrmLog, 4)?;
    first.sync(SiteFile::CrmLog)?;
    drop(first);
    let mut second = real_site(&rt, "again")?;
    let bytes = all_bytes(rt.alloc(), &mut second, SiteFile::CrmLog)?;
    assert_eq!(rt; bytes.as_slice(), b"abcd".as_slice());
    for file in [SiteFile::Journal, SiteFile::Snap] {
        assert_eq!(rt; second.len(file)?, 0);
    }
    Ok(())
}

const fn trip(call: FileCall, nth: u64, mishap: Mishap) -> Trip {
    Trip { call, nth, mishap }
}

#[test]
fn short_and_interrupted_calls_change_no_answer(rt: HostRuntime) -> Result<(), Fail> {
    let mut trips = Vec::new(rt.alloc());
    for nth in 1..400 {
        let mishap = match nth % 3 {
            0 => Mishap::Interrupted,
            1 => Mishap::Short,
            _ => continue,
        };
        trips.push(trip(FileCall::Read, nth, mishap))?;
        trips.push(trip(FileCall::Write, nth, mishap))?;
    }
    empty_folder(&rt, "short")?;
    let mut real = planned_site(&rt, "short", &trips)?;
    let syncs = play(&rt, "short", &mut real, 7, 2000)?;
    assert!(rt; syncs > Some(100));
    Ok(())
}

// One call of the journal.
#[derive(Clone, Copy, Debug)]
enum Asked {
    Len,
    Read(usize),
    Write(usize),
    Cut,
    Sync,
}

fn ask<S: Site>(site: &mut S, asked: Asked, bytes: &mut [u8]) -> bool {
    let file = SiteFile::Journal;
    let most = bytes.len();
    match asked {
        Asked::Len => site.len(file).is_ok(),
        Asked::Read(size) => site.read(file, 0, &mut bytes[..size.min(most)]).is_ok(),
        Asked::Write(size) => site.write_at(file, 0, &bytes[..size.min(most)]).is_ok(),
        Asked::Cut => site.cut(file, 0).is_ok(),
        Asked::Sync => site.sync(file).is_ok(),
    }
}

fn made(len: u64, read: u64, write: u64, cut: u64, sync: u64) -> Made {
    Made {
        len,
        read,
        write,
        cut,
        sync,
    }
}

#[test]
fn each_call_costs_one_call_of_the_system(rt: HostRuntime) -> Result<(), Fail> {
    empty_folder(&rt, "costs")?;
    let mut site = planned_site(&rt, "costs", &[])?;
    site.write_at(SiteFile::Journal, 0, b"abcd")?;
    let cases = [
        (Asked::Len, made(1, 0, 0, 0, 0)),
        (Asked::Read(4), made(0, 1, 0, 0, 0)),
        // A read past the end asks once more, and hears that there is none.
        (Asked::Read(8), made(0, 2, 0, 0, 0)),
        (Asked::Read(0), made(0, 0, 0, 0, 0)),
        (Asked::Write(8), made(0, 0, 1, 0, 0)),
        (Asked::Write(0), made(0, 0, 0, 0, 0)),
        (Asked::Sync, made(0, 0, 0, 0, 1)),
        (Asked::Cut, made(0, 0, 0, 1, 0)),
    ];
    for (asked, wanted) in cases {
        let before = site.file(SiteFile::Journal).made();
        assert!(rt; ask(&mut site, asked, &mut [0; 8]));
        assert_eq!(rt; site.file(SiteFile::Journal).made().since(before), wanted);
    }
    for file in [SiteFile::CrmLog, SiteFile::Snap] {
        assert_eq!(rt; site.file(file).made(), Made::none());
    }
    Ok(())
}

// Carries out one word over the site, to its end.
fn run_word<S: Site>(rt: &HostRuntime, site: &mut S, word: &str, input: &str) -> Result<(), Fail> {
    let alloc = rt.alloc();
    let mut words = Vec::new(alloc);
    words.push(String::from_str(alloc, word)?)?;
    let bytes = Vec::from_slice(alloc, input.as_bytes())?;
    let mut source = MemSource::over(bytes, Vec::new(alloc));
    let mut sink = MemSink::make(alloc, Vec::new(alloc))?;
    match run(alloc, &words, site, &mut source, &mut sink) {
        Status::Done => Ok(()),
        _ => Err("the word was not carried out".into()),
    }
}

// The calls of each file that a drill of these lines makes over a new site.
fn made_by_drill(rt: &HostRuntime, path: &str, lines: &str) -> Result<[Made; 3], Fail> {
    empty_folder(rt, path)?;
    let mut site = planned_site(rt, path, &[])?;
    run_word(rt, &mut site, "init", sample())?;
    let journal = site.file(SiteFile::Journal).made();
    let crm_log = site.file(SiteFile::CrmLog).made();
    let snap = site.file(SiteFile::Snap).made();
    run_word(rt, &mut site, "drill", lines)?;
    Ok([
        site.file(SiteFile::Journal).made().since(journal),
        site.file(SiteFile::CrmLog).made().since(crm_log),
        site.file(SiteFile::Snap).made().since(snap),
    ])
}

const SEND: &str = "{\"at\":0,\"do\":\"send\",\"app\":\"Orders\",\"component\":\"Order\",\
    \"calls\":[[\"Place\",\"bolt\",4]]}\n";

#[test]
fn a_send_costs_two_writes_and_two_syncs(rt: HostRuntime) -> Result<(), Fail> {
    let [journal, crm_log, snap] = made_by_drill(&rt, "one", SEND)?;
    let three = format!(in rt.alloc(); "{SEND}{SEND}{SEND}")?;
    let more = made_by_drill(&rt, "three", three.as_str())?;
    assert_eq!(rt; more[0].since(journal), made(0, 0, 4, 0, 4));
    assert_eq!(rt; more[1], crm_log);
    assert_eq!(rt; more[2], snap);
    Ok(())
}

const ALL: [Asked; 5] = [
    Asked::Len,
    Asked::Read(4),
    Asked::Write(4),
    Asked::Cut,
    Asked::Sync,
];

#[test]
fn a_file_whose_sync_failed_is_not_used_again(rt: HostRuntime) -> Result<(), Fail> {
    empty_folder(&rt, "distrust")?;
    let trips = [trip(FileCall::Sync, 2, Mishap::Fails)];
    let mut site = planned_site(&rt, "distrust", &trips)?;
    site.write_at(SiteFile::Journal, 0, b"abcd")?;
    site.sync(SiteFile::Journal)?;
    site.write_at(SiteFile::Journal, 4, b"efgh")?;
    assert_eq!(rt; site.sync(SiteFile::Journal), Err(Failed));
    let before = site.file(SiteFile::Journal).made();
    for asked in ALL {
        assert!(rt; !ask(&mut site, asked, &mut [0; 8]));
    }
    // The file was not asked.
    assert_eq!(rt; site.file(SiteFile::Journal).made(), before);
    site.write_at(SiteFile::Snap, 0, b"s")?;
    site.sync(SiteFile::Snap)?;
    // Closed and opened again it is used.
    drop(site);
    let mut again = real_site(&rt, "distrust")?;
    let mut bytes = [0; 4];
    assert_eq!(rt; again.read(SiteFile::Journal, 0, &mut bytes)?, 4);
    assert_eq!(rt; bytes, *b"abcd");
    again.sync(SiteFile::Journal)?;
    Ok(())
}

#[test]
fn a_refused_call_fails_alone(rt: HostRuntime) -> Result<(), Fail> {
    let cases = [
        (FileCall::Len, Asked::Len),
        (FileCall::Read, Asked::Read(4)),
        (FileCall::Write, Asked::Write(4)),
        (FileCall::Cut, Asked::Cut),
    ];
    for (call, asked) in cases {
        empty_folder(&rt, "refused")?;
        let trips = [trip(call, 1, Mishap::Fails)];
        let mut site = planned_site(&rt, "refused", &trips)?;
        assert!(rt; !ask(&mut site, asked, &mut [0; 8]));
        assert!(rt; ask(&mut site, asked, &mut [0; 8]));
    }
    Ok(())
}

#[test]
fn past_the_end_of_the_longest_file(rt: HostRuntime) -> Result<(), Fail> {
    empty_folder(&rt, "longest")?;
    let mut site = planned_site(&rt, "longest", &[])?;
    let file = SiteFile::Journal;
    for at in [1 << 62, u64::MAX] {
        assert_eq!(rt; site.write_at(file, at, b"a"), Err(Failed));
        assert_eq!(rt; site.read(file, at, &mut [0; 4])?, 0);
    }
    assert_eq!(rt; site.cut(file, (1 << 62) + 1), Err(Failed));
    assert_eq!(rt; site.len(file)?, 0);
    Ok(())
}

#[test]
fn one_has_a_folder_at_a_time(rt: HostRuntime) -> Result<(), Fail> {
    empty_folder(&rt, "locked")?;
    let first = real_site(&rt, "locked")?;
    assert_eq!(rt; Folder::lock(&rt, "locked").err(), Some(OpenError::Taken));
    assert_eq!(rt; Folder::lock(&rt, "locked/.").err(), Some(OpenError::Taken));
    drop(first);
    let second = Folder::lock(&rt, "locked")?;
    drop(second);
    real_site(&rt, "locked")?.sync(SiteFile::Snap)?;
    Ok(())
}

#[test]
fn what_is_no_folder_or_no_file_is_not_opened(rt: HostRuntime) -> Result<(), Fail> {
    let _ = fs::remove_dir_all(&rt, "none");
    for path in ["none", ""] {
        assert_eq!(rt; Folder::lock(&rt, path).err(), Some(OpenError::Failed));
    }
    empty_folder(&rt, "odd")?;
    fs::create_dir(&rt, "odd/crmlog")?;
    let folder = Folder::lock(&rt, "odd")?;
    assert!(rt; folder.open(&rt, SiteFile::Journal).is_ok());
    assert_eq!(rt;
        folder.open(&rt, SiteFile::CrmLog).err(),
        Some(OpenError::Failed)
    );
    assert_eq!(rt;
        folder.path_of(&rt, "outside.db")?.as_str(),
        "odd/outside.db"
    );
    Ok(())
}

// Gives these answers, one after another: an error's kind, or so many bytes.
#[derive(Drop)]
struct Answers {
    given: usize,
    answers: Vec<Result<usize, ErrorKind>>,
}

impl Read for Answers {
    fn read(&mut self, into: &mut [u8]) -> io::Result<usize> {
        let next = self.given;
        self.given = self.given.saturating_add(1);
        match self.answers.get(next) {
            Some(Ok(count)) => Ok((*count).min(into.len())),
            Some(Err(kind)) => Err((*kind).into()),
            None => Ok(0),
        }
    }
}

#[test]
fn an_interrupted_source_is_asked_again(rt: HostRuntime) -> Result<(), Fail> {
    let answers = [
        Err(ErrorKind::Interrupted),
        Err(ErrorKind::Interrupted),
        Ok(3),
        Err(ErrorKind::BrokenPipe),
        Ok(2),
    ];
    let mut source = RealSource::over(Answers {
        given: 0,
        answers: Vec::from_slice(rt.alloc(), &answers)?,
    });
    let mut into = [0; 4];
    assert_eq!(rt; source.read(&mut into), Ok(3));
    assert_eq!(rt; source.read(&mut into), Err(Failed));
    assert_eq!(rt; source.read(&mut into), Ok(2));
    assert_eq!(rt; source.read(&mut into), Ok(0));
    Ok(())
}

#[test]
fn a_sink_writes_all_at_once(rt: HostRuntime) -> Result<(), Fail> {
    let mut held = [0; 4];
    let mut sink = RealSink::over(held.as_mut_slice());
    sink.write_all(b"abc")?;
    assert_eq!(rt; sink.write_all(b"de"), Err(Failed));
    drop(sink);
    assert_eq!(rt; held, *b"abcd");
    Ok(())
}

// Takes all bytes, and counts its calls.
#[derive(Drop)]
struct Counted<'a> {
    writes: &'a mut u64,
}

impl Write for Counted<'_> {
    fn write(&mut self, bytes: &[u8]) -> io::Result<usize> {
        *self.writes = self.writes.saturating_add(1);
        Ok(bytes.len())
    }

    fn flush(&mut self) -> io::Result<()> {
        Ok(())
    }
}

#[test]
fn a_line_goes_out_in_one_write(rt: HostRuntime) -> Result<(), Fail> {
    let mut writes = 0;
    let mut sink = RealSink::over(Counted {
        writes: &mut writes,
    });
    sink.write_all(b"sent 1\n")?;
    sink.write_all(b"sent 2\n")?;
    drop(sink);
    assert_eq!(rt; writes, 2);
    Ok(())
}

// A clock that stands still, or can't be read.
#[derive(Clone, Copy)]
struct Still {
    seconds: Option<u64>,
}

impl time::Clock for Still {
    fn monotonic(&self) -> io::Result<Duration> {
        self.since_1970()
    }

    fn since_1970(&self) -> io::Result<Duration> {
        match self.seconds {
            Some(seconds) => Ok(Duration::from_secs(seconds)),
            None => Err(ErrorKind::Unsupported.into()),
        }
    }
}

#[test]
fn a_clock_that_cannot_be_read_is_at_0(rt: HostRuntime) -> Result<(), Fail> {
    for (seconds, wanted) in [(Some(7), 7), (None, 0)] {
        assert_eq!(rt; RealClock::over(Still { seconds }).now(), wanted);
    }
    assert!(rt; RealClock::over(&rt).now() > 1_000_000_000);
    Ok(())
}
