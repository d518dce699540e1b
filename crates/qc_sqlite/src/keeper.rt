// A keeper of rows in a table of SQLite, which counts its faults and tells nothing of its rows.
ghost use Rattle.std.specs.Prelude.{◌≡◌, ◌≤◌, None, IfOk, OnOk, IfSome, IsErr};
ghost use Rattle.qc_site.specs.Causes.{HasCause, Rose};

use crate::table::Table;
use qc_site::{Failed, Keeper};
use sqlite::{Alter, Connection, FileFrom, FileStore, MemStore, Wary};
use std::alloc::Global;

/// Where the rows of a folder stand: a database file and its log beside it.
///
/// `Wary` asks no more of a disk than docs/RULES.md, "Disk rules": until a sync, a write that was cut short may have
/// left any bytes in its range. So each commit syncs twice.
pub type OutsideFile = FileStore<FileFrom<Wary>>;

// How often a keeper has failed. The count stops at the end of its type.
#[derive(Drop)]
struct Faults {
    count: u64,
}

impl Faults {
    fn one_more(&mut self) -> Failed
        ensures no_fewer { self.old.count ≤ self.new.count }
        ensures rose { Rose self.old.count self.new.count }
    {
        self.count = self.count.saturating_add(1);
        Failed
    }
}

/// A keeper of rows in the table `outside` of a database of SQLite, in a file or in memory.
///
/// What was Ok is committed, and over a file it is synced. A fault is anything that SQLite refused, and a value that is
/// no amount; after a fault of the disk every later call is one (docs/RULES.md, "The outside rows in SQLite").
#[derive(Drop)]
pub struct SqliteKeeper<S: Alter = OutsideFile> {
    table: Table<S>,
    faults: Faults,
}

impl SqliteKeeper {
    /// The keeper of the database file at this path. The file and the table are made where they aren't there; its
    /// folder has to be. It is Failed where SQLite refuses a call: also while another process has the file open, and
    /// where it is no database. Memory is taken of the runtime.
    pub fn open(rt: &HostRuntime, _: Global, path: &str) -> Result<SqliteKeeper, Failed>
        ensures unfailed { IfOk result (λ k. k.faults.count ≡ 0) }
    {
        match Connection::open_from(rt, path, false, Wary) {
            Ok(connection) => SqliteKeeper::over(connection),
            Err(_) => Err(Failed),
        }
    }
}

impl SqliteKeeper<MemStore> {
    /// A keeper in memory, without rows. It is Failed where SQLite refuses a call, which it does for want of memory.
    pub fn in_memory(alloc: Global) -> Result<SqliteKeeper<MemStore>, Failed>
        ensures unfailed { IfOk result (λ k. k.faults.count ≡ 0) }
    {
        match Connection::open_in_memory(alloc) {
            Ok(connection) => SqliteKeeper::over(connection),
            Err(_) => Err(Failed),
        }
    }
}

impl<S: Alter + Drop> SqliteKeeper<S> {
    fn over(connection: Connection<S>) -> Result<SqliteKeeper<S>, Failed>
        ensures unfailed { IfOk result (λ k. k.faults.count ≡ 0) }
    {
        match Table::over(connection) {
            Ok(table) => Ok(SqliteKeeper {
                table,
                faults: Faults { count: 0 },
            }),
            Err(_) => Err(Failed),
        }
    }
}

impl<S: Alter> SqliteKeeper<S> {
    /// How often it has failed.
    pub fn faults(&self) -> u64
        ensures { result ≡ self.now.faults.count }
    {
        self.faults.count
    }
}

impl<S: Alter> Keeper for SqliteKeeper<S> {
    ghost rows = { λ k. None };

    ghost faults = { λ k. k.faults.count };

    fn make(&mut self, resource: &[u8], key: &[u8], amount: u64) -> Result<(), Failed>
        requires { amount ≤ 1000000000000000 }
        ensures cause { HasCause self.old.faults.count self.new.faults.count (IsErr result) }
        ensures steady { OnOk result (self.new.faults.count ≡ self.old.faults.count) }
    {
        match self.table.make(resource, key, amount) {
            Ok(()) => Ok(()),
            Err(_) => Err(self.faults.one_more()),
        }
    }

    fn get(&mut self, resource: &[u8], key: &[u8]) -> Result<Option<u64>, Failed>
        ensures bound { IfOk result (λ found. IfSome found (λ n. n ≤ 1000000000000000)) }
        ensures cause { HasCause self.old.faults.count self.new.faults.count (IsErr result) }
        ensures steady { OnOk result (self.new.faults.count ≡ self.old.faults.count) }
    {
        match self.table.get(resource, key) {
            Ok(amount) => Ok(amount),
            Err(_) => Err(self.faults.one_more()),
        }
    }

    fn put(&mut self, resource: &[u8], key: &[u8], amount: u64) -> Result<bool, Failed>
        requires { amount ≤ 1000000000000000 }
        ensures cause { HasCause self.old.faults.count self.new.faults.count (IsErr result) }
        ensures steady { OnOk result (self.new.faults.count ≡ self.old.faults.count) }
    {
        match self.table.put(resource, key, amount) {
            Ok(there) => Ok(there),
            Err(_) => Err(self.faults.one_more()),
        }
    }
}
