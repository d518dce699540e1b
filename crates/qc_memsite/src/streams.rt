// A source and a sink in memory.
ghost use Rattle.std.specs.Prelude.{◌≡◌, ◌⊎◌, ◌+◌, ◌≤◌, ◌<◌, ◌↔◌, ◌++◌, ℕ, List, [], length, take, drop, min, true, false, Some, is_err, IfOk, OnOk, OnErr, IfSome, IsErr};
ghost use Rattle.qc_site.specs.Causes.{HasCause};
ghost use Rattle.qc_site.specs.Streams.{Takes, Appends, AppendsPart};
ghost use Rattle.qc_memsite.specs.Failures.{FailedBy};
ghost use Rattle.qc_memsite.specs.Numbers.{is_named, Counted};

use crate::account::Account;
use crate::numbers::Numbers;
use qc_base::NoMemory;
use qc_site::{Failed, Sink, Source};
use std::alloc::Global;

// Bytes of which a front was taken.
#[derive(Drop)]
pub(crate) struct Unread {
    pub(crate) bytes: Vec<u8>,
    pub(crate) taken: usize,
}

impl Unread {
    ghost use Rattle.qc_memsite.specs.Streams.{rest_of};

    pub(crate) fn over(bytes: Vec<u8>) -> Unread
        ensures { rest_of result ≡ bytes.items }
    {
        Unread { bytes, taken: 0 }
    }

    // Takes from the front as many as fit and are there.
    pub(crate) fn take(&mut self, into: &mut [u8]) -> usize
        ensures count { result ≡ min (length into.old) (length (rest_of self.old)) }
        ensures given { take result into.new ≡ take result (rest_of self.old) }
        ensures rest { rest_of self.new ≡ drop result (rest_of self.old) }
    {
        let start = self.taken.min(self.bytes.len());
        let count = into.len().min(self.bytes.len() - start);
        into[..count].copy_from_slice(&self.bytes[start..start + count]);
        self.taken = start + count;
        count
    }
}

/// A source in memory: bytes, and a plan of the calls that fail. It always tells what is left.
#[derive(Drop)]
pub struct MemSource {
    unread: Unread,
    numbers: Numbers,
    account: Account,
}

impl MemSource {
    ghost use Rattle.qc_memsite.specs.Streams.{rest_of};

    /// A source of these bytes. The plan has the numbers of the calls that fail, from 1.
    pub fn over(bytes: Vec<u8>, plan: Vec<u32>) -> MemSource
        ensures left { rest_of result.unread ≡ bytes.items }
        ensures tells { ⟦<MemSource as Source>⟧.left result ≡ Some bytes.items }
        ensures plan { result.numbers.plan ≡ plan }
        ensures made { result.numbers.made ≡ 0 }
        ensures faults { (result.account.faults ≡ 0) × (result.account.starved ≡ 0) }
    {
        MemSource {
            unread: Unread::over(bytes),
            numbers: Numbers::over(plan),
            account: Account::empty(),
        }
    }

    /// How many calls found no memory of their own. A source takes none, so this stays as it is.
    pub fn starved(&self) -> u64
        ensures { result ≡ self.now.account.starved }
    {
        self.account.starved
    }
}

impl Source for MemSource {
    ghost use Rattle.qc_memsite.specs.Streams.{rest_of};

    ghost left = { λ s. Some (rest_of s.unread) };

    ghost faults = { λ s. s.account.faults };

    ghost read_keeps = { λ s t. Unit {0} };

    fn read(&mut self, into: &mut [u8]) -> Result<usize, Failed>
        requires { 0 < length into.old }
        ensures count { IfOk result (λ n. n ≤ length into.old) }
        ensures taken { IfOk result (λ n. Takes n into.new (Some (rest_of self.new.unread)) (rest_of self.old.unread)) }
        ensures end { IfOk result (λ n. (n ≡ 0) ↔ (rest_of self.old.unread ≡ [])) }
        ensures failed { OnErr result (Some (rest_of self.new.unread) ≡ Some (rest_of self.old.unread)) }
        ensures cause { HasCause self.old.account.faults self.new.account.faults (IsErr result) }
        // It fails exactly by the plan.
        ensures by_plan { is_err result ≡ is_named self.old.numbers }
        ensures counted { Counted self.old.numbers self.new.numbers }
        ensures fed { self.new.account.starved ≡ self.old.account.starved }
        // It gives as many bytes as fit and are there.
        ensures all { IfOk result (λ n. n ≡ min (length into.old) (length (rest_of self.old.unread))) }
        // It still tells what is left.
        ensures tells { ⟦<MemSource as Source>⟧.left self.new ≡ Some (rest_of self.new.unread) }
    {
        if self.numbers.names_next() {
            return Err(self.account.fault());
        }
        Ok(self.unread.take(into))
    }
}

/// A sink in memory, with a plan of the calls that fail. It always tells what it holds.
#[derive(Drop)]
pub struct MemSink {
    bytes: Vec<u8>,
    numbers: Numbers,
    account: Account,
}

impl MemSink {
    /// An empty sink. The plan has the numbers of the calls that fail, from 1.
    pub fn make(alloc: Global, plan: Vec<u32>) -> Result<MemSink, NoMemory>
        ensures empty { IfOk result (λ s. s.bytes.items ≡ []) }
        ensures tells { IfOk result (λ s. ⟦<MemSink as Sink>⟧.contents s ≡ Some []) }
        ensures plan { IfOk result (λ s. s.numbers.plan ≡ plan) }
        ensures made { IfOk result (λ s. s.numbers.made ≡ 0) }
        ensures faults { IfOk result (λ s. (s.account.faults ≡ 0) × (s.account.starved ≡ 0)) }
    {
        Ok(MemSink {
            bytes: Vec::new(alloc),
            numbers: Numbers::over(plan),
            account: Account::empty(),
        })
    }

    /// What was written.
    pub fn contents(&self) -> &[u8]
        ensures { result.now ≡ self.now.bytes.items }
    {
        &self.bytes
    }

    /// How many calls found no memory of their own.
    pub fn starved(&self) -> u64
        ensures { result ≡ self.now.account.starved }
    {
        self.account.starved
    }
}

impl Sink for MemSink {
    ghost contents = { λ s. Some s.bytes.items };

    ghost faults = { λ s. s.account.faults };

    ghost write_keeps = { λ s t. Unit {0} };

    fn write_all(&mut self, bytes: &[u8]) -> Result<(), Failed>
        ensures written { OnOk result (Appends bytes.now (Some self.new.bytes.items) self.old.bytes.items) }
        ensures failed { OnErr result (AppendsPart bytes.now (Some self.new.bytes.items) self.old.bytes.items) }
        ensures cause { HasCause self.old.account.faults self.new.account.faults (IsErr result) }
        // It fails exactly by the plan or for want of memory, and then writes nothing.
        ensures by_plan { OnErr result (FailedBy (is_named self.old.numbers) self.old.account.starved self.new.account.starved) }
        ensures nothing { OnErr result (self.new.bytes.items ≡ self.old.bytes.items) }
        ensures passed { OnOk result ((is_named self.old.numbers ≡ false) × (self.new.account.starved ≡ self.old.account.starved)) }
        ensures counted { Counted self.old.numbers self.new.numbers }
        // It still tells what it holds.
        ensures tells { ⟦<MemSink as Sink>⟧.contents self.new ≡ Some self.new.bytes.items }
    {
        if self.numbers.names_next() {
            return Err(self.account.fault());
        }
        match self.bytes.extend_from_slice(bytes) {
            Ok(()) => Ok(()),
            Err(_) => Err(self.account.starve()),
        }
    }
}
