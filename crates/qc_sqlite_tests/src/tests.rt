// The same calls on the keeper in memory and on the keeper in SQLite, in memory and in a file.
use crate::{Draw, agree};
use qc_memsite::MemKeeper;
use qc_site::Failed;
use qc_sqlite::SqliteKeeper;
use sqlite::Alter;
use std::alloc::Global;
use std::test::Fail;

// Over a table that is let go at the end.
fn agree_once<S: Alter + Drop>(
    list: &mut MemKeeper,
    opened: Result<SqliteKeeper<S>, Failed>,
    draw: &mut Draw,
    count: u32,
) -> Result<bool, Failed> {
    let mut table = opened?;
    Ok(agree(list, &mut table, draw, count))
}

fn agree_in_memory(alloc: Global, seed: u64) -> Result<bool, Fail> {
    let mut list = MemKeeper::make(alloc, Vec::new(alloc))?;
    let table = SqliteKeeper::in_memory(alloc);
    Ok(agree_once(&mut list, table, &mut Draw::of(seed), 1_000)?)
}

#[test]
fn a_table_in_memory_answers_as_the_list_of_rows(rt: HostRuntime) -> Result<(), Fail> {
    for seed in 0..4 {
        assert!(rt; agree_in_memory(rt.alloc(), seed)?);
    }
    Ok(())
}

#[test]
fn a_file_answers_as_the_list_of_rows_also_when_reopened(rt: HostRuntime) -> Result<(), Fail> {
    let mut list = MemKeeper::make(rt.alloc(), Vec::new(rt.alloc()))?;
    let mut draw = Draw::of(7);
    for _ in 0..8 {
        let file = SqliteKeeper::open(&rt, rt.alloc(), "outside.db");
        assert!(rt; agree_once(&mut list, file, &mut draw, 40)?);
    }
    Ok(())
}
