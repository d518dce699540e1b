// The smaller fakes, each call once, and plans that fail calls by their numbers.
use crate::*;
use qc_site::{Clock, Door, Failed, Job, Keeper, Next, Sink, Source, Spawner};
use std::alloc::Global;
use std::sync::Arc;
use std::sync::atomic::{AtomicU64, Ordering};
use std::test::Fail;

#[test]
fn a_source_gives_its_bytes_to_the_end(rt: HostRuntime) -> Result<(), Fail> {
    let alloc = rt.alloc();
    let bytes = Vec::from_slice(alloc, b"abcde")?;
    let mut source = MemSource::over(bytes, Vec::from_slice(alloc, &[2])?);
    let mut into = [0; 3];
    assert_eq!(rt; source.read(&mut into)?, 3);
    assert_eq!(rt; into.as_slice(), b"abc".as_slice());
    assert_eq!(rt; source.read(&mut into), Err(Failed));
    assert_eq!(rt; source.read(&mut into)?, 2);
    assert_eq!(rt; into.as_slice(), b"dec".as_slice());
    assert_eq!(rt; source.read(&mut into)?, 0);
    assert_eq!(rt; source.starved(), 0);
    Ok(())
}

#[test]
fn a_sink_holds_what_was_written(rt: HostRuntime) -> Result<(), Fail> {
    let alloc = rt.alloc();
    let mut sink = MemSink::make(alloc, Vec::from_slice(alloc, &[2])?)?;
    sink.write_all(b"ab")?;
    assert_eq!(rt; sink.write_all(b"cd"), Err(Failed));
    sink.write_all(b"ef")?;
    assert_eq!(rt; sink.contents(), b"abef".as_slice());
    assert_eq!(rt; sink.starved(), 0);
    Ok(())
}

fn link(alloc: Global, bytes: &[u8]) -> Result<MemLink, Fail> {
    let bytes = Vec::from_slice(alloc, bytes)?;
    Ok(MemLink::over(bytes, Vec::from_slice(alloc, &[2, 4])?))
}

#[test]
fn a_link_counts_reads_and_writes_together(rt: HostRuntime) -> Result<(), Fail> {
    let mut link = link(rt.alloc(), b"abc")?;
    let mut into = [0; 2];
    assert_eq!(rt; link.read(&mut into)?, 2);
    assert_eq!(rt; link.write_all(b"xy"), Err(Failed));
    link.write_all(b"z")?;
    assert_eq!(rt; link.read(&mut into), Err(Failed));
    assert_eq!(rt; link.read(&mut into)?, 1);
    assert_eq!(rt; into.as_slice(), b"cb".as_slice());
    assert_eq!(rt; link.contents(), b"z".as_slice());
    assert_eq!(rt; link.starved(), 0);
    Ok(())
}

// What a read of the next link gives first, or 0 where the door is closed.
fn next_byte(door: &mut MemDoor) -> Result<u8, Fail> {
    let mut into = [0; 1];
    match door.next()? {
        Next::Link(mut link) => {
            link.read(&mut into)?;
        }
        Next::Closed => {}
    }
    Ok(into[0])
}

#[test]
fn a_door_gives_its_links_in_order(rt: HostRuntime) -> Result<(), Fail> {
    let alloc = rt.alloc();
    let mut links = Vec::new(alloc);
    links.push(link(alloc, b"a")?)?;
    links.push(link(alloc, b"b")?)?;
    let mut door = MemDoor::over(links);
    for expected in [b'a', b'b', 0, 0] {
        assert_eq!(rt; next_byte(&mut door)?, expected);
    }
    assert_eq!(rt; door.starved(), 0);
    Ok(())
}

#[test]
fn a_keeper_sets_the_rows_that_are_there(rt: HostRuntime) -> Result<(), Fail> {
    let alloc = rt.alloc();
    let mut keeper = MemKeeper::make(alloc, Vec::from_slice(alloc, &[6])?)?;
    keeper.make(b"till", b"drawer", 100)?;
    assert_eq!(rt; keeper.get(b"till", b"drawer")?, Some(100));
    assert!(rt; keeper.put(b"till", b"drawer", 104)?);
    assert_eq!(rt; keeper.get(b"till", b"drawer")?, Some(104));
    assert!(rt; !keeper.put(b"till", b"box", 1)?);
    assert_eq!(rt; keeper.get(b"till", b"drawer"), Err(Failed));
    assert_eq!(rt; keeper.get(b"till", b"box")?, None);
    assert_eq!(rt; keeper.starved(), 0);
    Ok(())
}

// Counts that it ran.
#[derive(Drop)]
struct Tick {
    ticks: Arc<AtomicU64, Global>,
}

impl Job for Tick {
    fn go(self) {
        self.ticks.fetch_add(1, Ordering::SeqCst);
    }
}

#[test]
fn a_job_runs_where_it_was_started(rt: HostRuntime) -> Result<(), Fail> {
    let alloc = rt.alloc();
    let ticks = Arc::new(alloc, AtomicU64::new(0))?;
    let mut spawner = MemSpawner::over(Vec::from_slice(alloc, &[2])?);
    for fails in [false, true, false] {
        let ticks = Arc::try_clone(&ticks)?;
        assert_eq!(rt; spawner.start(Tick { ticks }).is_err(), fails);
    }
    assert_eq!(rt; ticks.load(Ordering::SeqCst), 2);
    assert_eq!(rt; FixedClock { seconds: 7 }.now(), 7);
    Ok(())
}
