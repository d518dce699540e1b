// Connections in memory, and a door for them.
ghost use Rattle.std.specs.Prelude.{◌≡◌, ◌⊎◌, ◌+◌, ◌≤◌, ◌<◌, ◌↔◌, ◌++◌, ℕ, List, [], length, take, drop, min, true, false, Some, is_err, IfOk, OnOk, OnErr, IfSome, IsErr, IsOk};
ghost use Rattle.qc_site.specs.Causes.{HasCause};
ghost use Rattle.qc_site.specs.Doors.{Comes};
ghost use Rattle.qc_site.specs.Streams.{Takes, Appends, AppendsPart};
ghost use Rattle.qc_memsite.specs.Doors.{links_of, Gives};
ghost use Rattle.qc_memsite.specs.Failures.{FailedBy};
ghost use Rattle.qc_memsite.specs.Numbers.{is_named, Counted};
ghost use Rattle.qc_memsite.specs.Streams.{rest_of};

use crate::account::Account;
use crate::numbers::Numbers;
use crate::streams::Unread;
use qc_site::{Door, Failed, Link, Next, Sink, Source};

/// A connection in memory: bytes to be read, what was written, and a plan of the calls that fail, reads and writes
/// counted together. It always tells both.
#[derive(Drop)]
pub struct MemLink {
    unread: Unread,
    written: Vec<u8>,
    numbers: Numbers,
    account: Account,
}

impl MemLink {
    /// A connection from which these bytes are read. The plan has the numbers of the calls that fail, from 1.
    pub fn over(bytes: Vec<u8>, plan: Vec<u32>) -> MemLink
        ensures left { rest_of result.unread ≡ bytes.items }
        ensures empty { result.written.items ≡ [] }
        ensures tells { (⟦<MemLink as Source>⟧.left result ≡ Some bytes.items) × (⟦<MemLink as Sink>⟧.contents result ≡ Some []) }
        ensures plan { result.numbers.plan ≡ plan }
        ensures made { result.numbers.made ≡ 0 }
        ensures faults { (result.account.faults ≡ 0) × (result.account.starved ≡ 0) }
    {
        let written = Vec::new(*bytes.allocator());
        MemLink {
            unread: Unread::over(bytes),
            written,
            numbers: Numbers::over(plan),
            account: Account::empty(),
        }
    }

    /// What was written.
    pub fn contents(&self) -> &[u8]
        ensures { result.now ≡ self.now.written.items }
    {
        &self.written
    }

    /// How many calls found no memory of their own.
    pub fn starved(&self) -> u64
        ensures { result ≡ self.now.account.starved }
    {
        self.account.starved
    }
}

impl Source for MemLink {
    ghost left = { λ s. Some (rest_of s.unread) };

    ghost faults = { λ s. s.account.faults };

    ghost read_keeps = { λ s t. (t.written.items ≡ s.written.items) × (s.account.faults ≤ t.account.faults) };

    fn read(&mut self, into: &mut [u8]) -> Result<usize, Failed>
        requires { 0 < length into.old }
        ensures count { IfOk result (λ n. n ≤ length into.old) }
        ensures taken { IfOk result (λ n. Takes n into.new (Some (rest_of self.new.unread)) (rest_of self.old.unread)) }
        ensures end { IfOk result (λ n. (n ≡ 0) ↔ (rest_of self.old.unread ≡ [])) }
        ensures failed { OnErr result (Some (rest_of self.new.unread) ≡ Some (rest_of self.old.unread)) }
        ensures keeps { (self.new.written.items ≡ self.old.written.items) × (self.old.account.faults ≤ self.new.account.faults) }
        ensures cause { HasCause self.old.account.faults self.new.account.faults (IsErr result) }
        // It fails exactly by the plan.
        ensures by_plan { is_err result ≡ is_named self.old.numbers }
        ensures counted { Counted self.old.numbers self.new.numbers }
        ensures fed { self.new.account.starved ≡ self.old.account.starved }
        // It gives as many bytes as fit and are there.
        ensures all { IfOk result (λ n. n ≡ min (length into.old) (length (rest_of self.old.unread))) }
        // It still tells what is left.
        ensures tells { ⟦<MemLink as Source>⟧.left self.new ≡ Some (rest_of self.new.unread) }
    {
        if self.numbers.names_next() {
            return Err(self.account.fault());
        }
        Ok(self.unread.take(into))
    }
}

impl Sink for MemLink {
    ghost contents = { λ s. Some s.written.items };

    ghost faults = { λ s. s.account.faults };

    ghost write_keeps = { λ s t. (rest_of t.unread ≡ rest_of s.unread) × (s.account.faults ≤ t.account.faults) };

    fn write_all(&mut self, bytes: &[u8]) -> Result<(), Failed>
        ensures written { OnOk result (Appends bytes.now (Some self.new.written.items) self.old.written.items) }
        ensures failed { OnErr result (AppendsPart bytes.now (Some self.new.written.items) self.old.written.items) }
        ensures keeps { (rest_of self.new.unread ≡ rest_of self.old.unread) × (self.old.account.faults ≤ self.new.account.faults) }
        ensures cause { HasCause self.old.account.faults self.new.account.faults (IsErr result) }
        // It fails exactly by the plan or for want of memory, and then writes nothing.
        ensures by_plan { OnErr result (FailedBy (is_named self.old.numbers) self.old.account.starved self.new.account.starved) }
        ensures nothing { OnErr result (self.new.written.items ≡ self.old.written.items) }
        ensures passed { OnOk result ((is_named self.old.numbers ≡ false) × (self.new.account.starved ≡ self.old.account.starved)) }
        ensures counted { Counted self.old.numbers self.new.numbers }
        // It still tells what was written.
        ensures tells { ⟦<MemLink as Sink>⟧.contents self.new ≡ Some self.new.written.items }
    {
        if self.numbers.names_next() {
            return Err(self.account.fault());
        }
        match self.written.extend_from_slice(bytes) {
            Ok(()) => Ok(()),
            Err(_) => Err(self.account.starve()),
        }
    }
}

impl Link for MemLink {
    ghost use Rattle.std.proofs.Common.{ap};

    ghost read_keeps_sink = { λ s t kept. (ap (λ (l : List ℕ). Some l) kept.0, kept.1) };

    ghost write_keeps_source = { λ s t kept. (ap (λ (l : List ℕ). Some l) kept.0, kept.1) };
}

/// A door in memory: a list of connections. It never fails, and always tells how many are left.
#[derive(Drop)]
pub struct MemDoor {
    // the next one last
    links: Vec<MemLink>,
    account: Account,
}

impl MemDoor {
    /// A door that gives these connections in order.
    pub fn over(mut links: Vec<MemLink>) -> MemDoor
        ensures links { links_of result ≡ links.items }
        ensures tells { ⟦<MemDoor as Door>⟧.left result ≡ Some (length links.items) }
        ensures faults { (result.account.faults ≡ 0) × (result.account.starved ≡ 0) }
    {
        links.reverse();
        MemDoor {
            links,
            account: Account::empty(),
        }
    }

    /// How many calls found no memory of their own. A door takes none, so this stays as it is.
    pub fn starved(&self) -> u64
        ensures { result ≡ self.now.account.starved }
    {
        self.account.starved
    }
}

impl Door for MemDoor {
    type Link = MemLink;

    ghost left = { λ d. Some (length d.links.items) };

    ghost faults = { λ d. d.account.faults };

    fn next(&mut self) -> Result<Next<MemLink>, Failed>
        ensures given { IfOk result (λ next. Comes next (Some (length self.new.links.items)) (length self.old.links.items)) }
        ensures failed { OnErr result (Some (length self.new.links.items) ≡ Some (length self.old.links.items)) }
        ensures cause { HasCause self.old.account.faults self.new.account.faults (IsErr result) }
        // It never fails, and gives the links in order.
        ensures never { IsOk result }
        ensures in_order { IfOk result (λ next. Gives next (links_of self.old) (links_of self.new)) }
        ensures fed { self.new.account.starved ≡ self.old.account.starved }
        // It still tells how many are left.
        ensures tells { ⟦<MemDoor as Door>⟧.left self.new ≡ Some (length (links_of self.new)) }
    {
        Ok(match self.links.pop() {
            Some(link) => Next::Link(link),
            None => Next::Closed,
        })
    }
}
