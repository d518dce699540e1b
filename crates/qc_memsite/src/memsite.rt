// A site in memory. It keeps each call that no sync has settled, so that one image of each choice can be made.
ghost use Rattle.std.specs.Prelude.{◌≡◌, ◌⊎◌, ◌+◌, ◌≤◌, ◌<◌, ◌++◌, ℕ, List, [], ◌∷◌, length, take, drop, replicate, min, true, false, Some, None, IfOk, OnOk, OnErr, IsErr, IsErrOf};
ghost use Rattle.qc_site.specs.Image.{Image, bytes_of, with_bytes, with_row};
ghost use Rattle.qc_site.specs.Causes.{HasCause, Rose};
ghost use Rattle.qc_site.specs.Disk.{written, Torn, OneStep, Cut, FileStep, RowStep, PutStep, Images, Follows, NoMore, Certain, Elapses};
ghost use Rattle.qc_memsite.specs.Call.{Wrote, CutTo, Synced, Put};
ghost use Rattle.qc_memsite.specs.Failures.{FailedBy};
ghost use Rattle.qc_memsite.specs.Shown.{first_by, calls_by, shown_by, images_by, moment_by, since_by, reads_of, noted, Unchanged};
ghost use Rattle.qc_memsite.specs.ChosenFile.{chosen};
ghost use Rattle.qc_memsite.specs.Plan.{fails, AfterCall};

use crate::account::Account;
use crate::image::Choice;
use crate::kept::Kept;
use crate::plan::{CallKind, Plan, Trip};
use qc_base::NoMemory;
use qc_site::{Failed, RowFault, Site, SiteFile};
use std::alloc::{AllocError, Global};

const MAX_LENGTH: u64 = 1 << 62;

// Place and count of each read that was Ok, in order.
#[derive(Drop)]
pub(crate) struct Reads {
    journal: Vec<(u64, u64)>,
    crm_log: Vec<(u64, u64)>,
    snap: Vec<(u64, u64)>,
}

impl Reads {
    fn note(&mut self, file: SiteFile, at: u64, count: u64) -> Result<(), AllocError>
        ensures ok { OnOk result ((f : SiteFile) → reads_of f self.new ≡ noted f file at count (reads_of f self.old)) }
        ensures err { OnErr result ((f : SiteFile) → reads_of f self.new ≡ reads_of f self.old) }
    {
        match file {
            SiteFile::Journal => self.journal.push((at, count))?,
            SiteFile::CrmLog => self.crm_log.push((at, count))?,
            SiteFile::Snap => self.snap.push((at, count))?,
        }
        Ok(())
    }

    fn of(&self, file: SiteFile) -> &[(u64, u64)]
        ensures { result.now ≡ reads_of file self.now }
    {
        match file {
            SiteFile::Journal => &self.journal,
            SiteFile::CrmLog => &self.crm_log,
            SiteFile::Snap => &self.snap,
        }
    }
}

#[derive(Drop)]
pub struct MemSite {
    kept: Kept,
    plan: Plan,
    account: Account,
    reads: Reads,
}

impl MemSite {
    /// An empty site with no faults.
    pub fn make(alloc: Global) -> Result<MemSite, NoMemory>
        ensures empty { IfOk result (λ m. (file : SiteFile) → bytes_of file (shown_by m.kept) ≡ []) }
        ensures reads { IfOk result (λ m. (file : SiteFile) → reads_of file m.reads ≡ []) }
        ensures no_rows { IfOk result (λ m. (r k : List ℕ) → (shown_by m.kept).rows r k ≡ None) }
        ensures alone { IfOk result (λ m. (c : Image) → images_by m.kept c → c ≡ shown_by m.kept) }
        ensures faults { IfOk result (λ m. (m.account.faults ≡ 0) × (m.account.starved ≡ 0)) }
        ensures no_plan { IfOk result (λ m. (kind : CallKind) → fails kind m.plan ≡ false) }
        // It tells its content, as each site in memory does.
        ensures told { ⟦<MemSite as Site>⟧.told }
    {
        Ok(MemSite::over(alloc, Kept::make(alloc)))
    }

    /// From now on the calls that this plan names fail.
    pub fn set_plan(&mut self, plan: Vec<Trip>)
        ensures trips { self.new.plan.trips ≡ plan }
        ensures made { self.new.plan.made ≡ replicate 18 0 }
        ensures stopped { self.new.plan.stopped ≡ false }
        ensures kept { self.new.kept ≡ self.old.kept }
        ensures account { self.new.account ≡ self.old.account }
        ensures reads { self.new.reads ≡ self.old.reads }
    {
        self.plan = Plan::over(plan);
    }

    /// How many calls found no memory of their own.
    pub fn starved(&self) -> u64
        ensures { result ≡ self.now.account.starved }
    {
        self.account.starved
    }

    /// One of the images that a crash may leave now, as a site of its own that has that content alone, no plan and
    /// no faults.
    pub fn crash_image(&self, alloc: Global, choice: Choice) -> Result<MemSite, NoMemory>
        ensures image { IfOk result (λ m. images_by self.now.kept (shown_by m.kept)) }
        ensures reads { IfOk result (λ m. (file : SiteFile) → reads_of file m.reads ≡ []) }
        ensures alone { IfOk result (λ m. (c : Image) → images_by m.kept c → c ≡ shown_by m.kept) }
        ensures chosen { IfOk result (λ m. (file : SiteFile) → bytes_of file (shown_by m.kept) ≡ chosen choice file self.now.kept) }
        ensures rows { IfOk result (λ m. (r k : List ℕ) → (shown_by m.kept).rows r k ≡ (shown_by self.now.kept).rows r k) }
        ensures faults { IfOk result (λ m. (m.account.faults ≡ 0) × (m.account.starved ≡ 0)) }
        ensures no_plan { IfOk result (λ m. (kind : CallKind) → fails kind m.plan ≡ false) }
    {
        match choice.image_kept(alloc, &self.kept) {
            Ok(kept) => Ok(MemSite::over(alloc, kept)),
            Err(_) => Err(NoMemory),
        }
    }

    fn over(alloc: Global, kept: Kept) -> MemSite
        ensures kept { result.kept ≡ kept }
        ensures reads { (file : SiteFile) → reads_of file result.reads ≡ [] }
        ensures faults { (result.account.faults ≡ 0) × (result.account.starved ≡ 0) }
        ensures no_plan { (kind : CallKind) → fails kind result.plan ≡ false }
    {
        MemSite {
            kept,
            plan: Plan::none(alloc),
            account: Account::empty(),
            reads: Reads {
                journal: Vec::new(alloc),
                crm_log: Vec::new(alloc),
                snap: Vec::new(alloc),
            },
        }
    }

    /// Place and count of each read that was Ok, in order.
    pub fn reads(&self, file: SiteFile) -> &[(u64, u64)]
        ensures { result.now ≡ reads_of file self.now.reads }
    {
        self.reads.of(file)
    }
}

impl Site for MemSite {
    ghost use Rattle.qc_memsite.specs.Bounds.{short_image};
    ghost use Rattle.qc_memsite.specs.Laws.{shows_image, counts_now, only_now};

    ghost told = { Unit {0} };

    ghost shown = { λ m. shown_by m.kept };

    ghost may_leave = { λ m c. images_by m.kept c };

    ghost moment = { λ m. moment_by m.kept };

    ghost left_since = { λ m t c. since_by m.kept t c };

    ghost faults = { λ m. m.account.faults };

    ghost shows_image = { λ m told. shows_image (first_by m.kept) (calls_by m.kept) };

    ghost counts_now = { λ m t c told le now. counts_now (first_by m.kept) (calls_by m.kept) t c le now };

    ghost short_images = { λ m c told image. short_image (first_by m.kept) (calls_by m.kept) m.kept.first_short m.kept.ends c image };

    ghost only_now = { λ m c told since. only_now (first_by m.kept) (calls_by m.kept) c since };

    fn len(&mut self, file: SiteFile) -> Result<u64, Failed>
        ensures size { IfOk result (λ n. n ≡ length (bytes_of file (shown_by self.old.kept))) }
        ensures bound { IfOk result (λ n. n ≤ 4611686018427387904) }
        ensures same { shown_by self.new.kept ≡ shown_by self.old.kept }
        ensures crash { NoMore (images_by self.old.kept) (images_by self.new.kept) }
        ensures time { Elapses (moment_by self.old.kept) (moment_by self.new.kept) (since_by self.old.kept) (since_by self.new.kept) (images_by self.new.kept) }
        ensures cause { HasCause self.old.account.faults self.new.account.faults (IsErr result) }
        // It fails exactly by the plan, and then changes nothing.
        ensures failed { OnErr result ((fails (CallKind.Len file) self.old.plan ≡ true) × (self.new.account.starved ≡ self.old.account.starved)) × (self.new.account.starved ≡ self.old.account.starved) }
        ensures nothing { OnErr result (Unchanged self.old.kept self.new.kept) }
        ensures passed { OnOk result ((fails (CallKind.Len file) self.old.plan ≡ false) × (self.new.account.starved ≡ self.old.account.starved)) }
        ensures plan { AfterCall (CallKind.Len file) self.old.plan self.new.plan }
        ensures reads { self.new.reads ≡ self.old.reads }
    {
        if self.plan.trips(CallKind::Len(file)) {
            return Err(self.account.fault());
        }
        Ok(self.kept.bytes(file).len() as u64)
    }

    fn read(&mut self, file: SiteFile, at: u64, into: &mut [u8]) -> Result<usize, Failed>
        ensures count { IfOk result (λ n. n ≤ length into.old) }
        ensures bytes { IfOk result (λ n. take n into.new ≡ take (length into.old) (drop at (bytes_of file (shown_by self.old.kept)))) }
        ensures size { IfOk result (λ n. n ≡ min (length into.old) (length (drop at (bytes_of file (shown_by self.old.kept))))) }
        ensures same { shown_by self.new.kept ≡ shown_by self.old.kept }
        ensures crash { NoMore (images_by self.old.kept) (images_by self.new.kept) }
        ensures time { Elapses (moment_by self.old.kept) (moment_by self.new.kept) (since_by self.old.kept) (since_by self.new.kept) (images_by self.new.kept) }
        ensures cause { HasCause self.old.account.faults self.new.account.faults (IsErr result) }
        // It fails exactly by the plan or for want of memory, and then changes nothing.
        ensures failed { OnErr result (FailedBy (fails (CallKind.Read file) self.old.plan) self.old.account.starved self.new.account.starved) }
        ensures nothing { OnErr result (Unchanged self.old.kept self.new.kept) }
        ensures passed { OnOk result ((fails (CallKind.Read file) self.old.plan ≡ false) × (self.new.account.starved ≡ self.old.account.starved)) }
        ensures noted { IfOk result (λ n. (f : SiteFile) → reads_of f self.new.reads ≡ noted f file at n (reads_of f self.old.reads)) }
        ensures not_noted { OnErr result ((f : SiteFile) → reads_of f self.new.reads ≡ reads_of f self.old.reads) }
        ensures plan { AfterCall (CallKind.Read file) self.old.plan self.new.plan }
    {
        if self.plan.trips(CallKind::Read(file)) {
            return Err(self.account.fault());
        }
        let bytes = self.kept.bytes(file);
        let start = (at as usize).min(bytes.len());
        let count = into.len().min(bytes.len() - start);
        if let Err(_) = self.reads.note(file, at, count as u64) {
            return Err(self.account.starve());
        }
        into[..count].copy_from_slice(&bytes[start..start + count]);
        Ok(count)
    }

    fn write_at(&mut self, file: SiteFile, at: u64, bytes: &[u8]) -> Result<(), Failed>
        requires { at ≤ length (bytes_of file (shown_by self.old.kept)) }
        ensures written { OnOk result (shown_by self.new.kept ≡ with_bytes file (written (bytes_of file (shown_by self.old.kept)) at bytes.now) (shown_by self.old.kept)) }
        ensures bound { OnOk result (at + length bytes.now ≤ 4611686018427387904) }
        ensures crash { Follows (FileStep file (Torn at (length bytes.now))) (images_by self.old.kept) (images_by self.new.kept) }
        ensures one_step { length bytes.now ≡ 1 → at < length (bytes_of file (shown_by self.old.kept)) → Follows (FileStep file (OneStep at bytes.now)) (images_by self.old.kept) (images_by self.new.kept) }
        ensures time { Elapses (moment_by self.old.kept) (moment_by self.new.kept) (since_by self.old.kept) (since_by self.new.kept) (images_by self.new.kept) }
        ensures cause { HasCause self.old.account.faults self.new.account.faults (IsErr result) }
        // The call is noted once, so its images are all that the rules allow.
        ensures noted { OnOk result (calls_by self.new.kept ≡ calls_by self.old.kept ++ Wrote file at bytes.now ∷ []) }
        ensures first { self.new.kept.history.first ≡ self.old.kept.history.first }
        // It fails exactly by the plan, past the bound on lengths or for want of memory, and then changes nothing.
        ensures failed { OnErr result (((4611686018427387904 < at + length bytes.now) × (self.new.account.starved ≡ self.old.account.starved)) ⊎ FailedBy (fails (CallKind.Write file) self.old.plan) self.old.account.starved self.new.account.starved) }
        ensures nothing { OnErr result (Unchanged self.old.kept self.new.kept) }
        ensures passed { OnOk result ((fails (CallKind.Write file) self.old.plan ≡ false) × (self.new.account.starved ≡ self.old.account.starved)) }
        ensures plan { AfterCall (CallKind.Write file) self.old.plan self.new.plan }
        ensures reads { self.new.reads ≡ self.old.reads }
    {
        if self.plan.trips(CallKind::Write(file)) {
            return Err(self.account.fault());
        }
        if at > MAX_LENGTH {
            return Err(self.account.fault());
        }
        if bytes.len() as u64 > MAX_LENGTH - at {
            return Err(self.account.fault());
        }
        let Ok(()) = self.kept.overwrite(file, at, bytes) else {
            return Err(self.account.starve());
        };
        Ok(())
    }

    fn cut(&mut self, file: SiteFile, len: u64) -> Result<(), Failed>
        requires { len ≤ length (bytes_of file (shown_by self.old.kept)) }
        ensures cut { OnOk result (shown_by self.new.kept ≡ with_bytes file (take len (bytes_of file (shown_by self.old.kept))) (shown_by self.old.kept)) }
        ensures crash { Follows (FileStep file (Cut len)) (images_by self.old.kept) (images_by self.new.kept) }
        ensures time { Elapses (moment_by self.old.kept) (moment_by self.new.kept) (since_by self.old.kept) (since_by self.new.kept) (images_by self.new.kept) }
        ensures cause { HasCause self.old.account.faults self.new.account.faults (IsErr result) }
        // The call is noted once, so its images are all that the rules allow.
        ensures noted { OnOk result (calls_by self.new.kept ≡ calls_by self.old.kept ++ CutTo file len ∷ []) }
        ensures first { self.new.kept.history.first ≡ self.old.kept.history.first }
        // It fails exactly by the plan or for want of memory, and then changes nothing.
        ensures failed { OnErr result (FailedBy (fails (CallKind.Cut file) self.old.plan) self.old.account.starved self.new.account.starved) }
        ensures nothing { OnErr result (Unchanged self.old.kept self.new.kept) }
        ensures passed { OnOk result ((fails (CallKind.Cut file) self.old.plan ≡ false) × (self.new.account.starved ≡ self.old.account.starved)) }
        ensures plan { AfterCall (CallKind.Cut file) self.old.plan self.new.plan }
        ensures reads { self.new.reads ≡ self.old.reads }
    {
        if self.plan.trips(CallKind::Cut(file)) {
            return Err(self.account.fault());
        }
        let Ok(()) = self.kept.shorten(file, len) else {
            return Err(self.account.starve());
        };
        Ok(())
    }

    fn sync(&mut self, file: SiteFile) -> Result<(), Failed>
        ensures certain { OnOk result (Certain file (bytes_of file (shown_by self.old.kept)) (images_by self.new.kept)) }
        ensures same { OnOk result (shown_by self.new.kept ≡ shown_by self.old.kept) }
        ensures crash { NoMore (images_by self.old.kept) (images_by self.new.kept) }
        ensures time { Elapses (moment_by self.old.kept) (moment_by self.new.kept) (since_by self.old.kept) (since_by self.new.kept) (images_by self.new.kept) }
        ensures cause { HasCause self.old.account.faults self.new.account.faults (IsErr result) }
        // The call is noted once, so its images are all that the rules allow.
        ensures noted { OnOk result (calls_by self.new.kept ≡ calls_by self.old.kept ++ Synced file ∷ []) }
        ensures first { self.new.kept.history.first ≡ self.old.kept.history.first }
        // It fails exactly by the plan or for want of memory, and then changes nothing.
        ensures failed { OnErr result ((fails (CallKind.Sync file) self.old.plan ≡ true) × (self.new.account.starved ≡ self.old.account.starved)) }
        ensures nothing { OnErr result (Unchanged self.old.kept self.new.kept) }
        ensures passed { OnOk result ((fails (CallKind.Sync file) self.old.plan ≡ false) × (self.new.account.starved ≡ self.old.account.starved)) }
        ensures plan { AfterCall (CallKind.Sync file) self.old.plan self.new.plan }
        ensures reads { self.new.reads ≡ self.old.reads }
    {
        if self.plan.trips(CallKind::Sync(file)) {
            return Err(self.account.fault());
        }
        self.kept.sync(file);
        Ok(())
    }

    fn row_make(&mut self, resource: &[u8], key: &[u8], amount: u64) -> Result<(), Failed>
        requires { amount ≤ 1000000000000000 }
        ensures made { OnOk result (shown_by self.new.kept ≡ with_row resource.now key.now amount (shown_by self.old.kept)) }
        ensures crash { Follows (RowStep resource.now key.now amount) (images_by self.old.kept) (images_by self.new.kept) }
        ensures certain { OnOk result (Follows (λ d c. c ≡ with_row resource.now key.now amount d) (images_by self.old.kept) (images_by self.new.kept)) }
        ensures time { Elapses (moment_by self.old.kept) (moment_by self.new.kept) (since_by self.old.kept) (since_by self.new.kept) (images_by self.new.kept) }
        ensures cause { HasCause self.old.account.faults self.new.account.faults (IsErr result) }
        // The call is noted once, so its images are all that the rules allow.
        ensures noted { OnOk result (calls_by self.new.kept ≡ calls_by self.old.kept ++ Put resource.now key.now amount ∷ []) }
        ensures first { self.new.kept.history.first ≡ self.old.kept.history.first }
        // It fails exactly by the plan or for want of memory, and then changes nothing.
        ensures failed { OnErr result (FailedBy (fails (CallKind.RowMake) self.old.plan) self.old.account.starved self.new.account.starved) }
        ensures nothing { OnErr result (Unchanged self.old.kept self.new.kept) }
        ensures passed { OnOk result ((fails (CallKind.RowMake) self.old.plan ≡ false) × (self.new.account.starved ≡ self.old.account.starved)) }
        ensures plan { AfterCall (CallKind.RowMake) self.old.plan self.new.plan }
        ensures reads { self.new.reads ≡ self.old.reads }
    {
        if self.plan.trips(CallKind::RowMake) {
            return Err(self.account.fault());
        }
        let Ok(()) = self.kept.put(resource, key, amount) else {
            return Err(self.account.starve());
        };
        Ok(())
    }

    fn row_get(&mut self, resource: &[u8], key: &[u8]) -> Result<u64, RowFault>
        ensures amount { IfOk result (λ n. (shown_by self.old.kept).rows resource.now key.now ≡ Some n) }
        ensures bound { IfOk result (λ n. n ≤ 1000000000000000) }
        ensures no_row { IsErrOf result RowFault.NoRow → (shown_by self.old.kept).rows resource.now key.now ≡ None }
        ensures same { shown_by self.new.kept ≡ shown_by self.old.kept }
        ensures crash { NoMore (images_by self.old.kept) (images_by self.new.kept) }
        ensures time { Elapses (moment_by self.old.kept) (moment_by self.new.kept) (since_by self.old.kept) (since_by self.new.kept) (images_by self.new.kept) }
        ensures cause { HasCause self.old.account.faults self.new.account.faults (IsErrOf result RowFault.Failed) }
        // It fails exactly by the plan, and then changes nothing.
        ensures failed { IsErrOf result RowFault.Failed → (fails (CallKind.RowGet) self.old.plan ≡ true) × (self.new.account.starved ≡ self.old.account.starved) }
        ensures nothing { OnErr result (Unchanged self.old.kept self.new.kept) }
        ensures passed { OnOk result ((fails (CallKind.RowGet) self.old.plan ≡ false) × (self.new.account.starved ≡ self.old.account.starved)) }
        ensures passed_no_row { IsErrOf result RowFault.NoRow → (fails (CallKind.RowGet) self.old.plan ≡ false) × (self.new.account.starved ≡ self.old.account.starved) }
        ensures plan { AfterCall (CallKind.RowGet) self.old.plan self.new.plan }
        ensures reads { self.new.reads ≡ self.old.reads }
    {
        if self.plan.trips(CallKind::RowGet) {
            let _ = self.account.fault();
            return Err(RowFault::Failed);
        }
        match self.kept.amount(resource, key) {
            Some(amount) => Ok(amount),
            None => Err(RowFault::NoRow),
        }
    }

    fn row_put(&mut self, resource: &[u8], key: &[u8], amount: u64) -> Result<(), RowFault>
        requires { amount ≤ 1000000000000000 }
        ensures put { OnOk result (shown_by self.new.kept ≡ with_row resource.now key.now amount (shown_by self.old.kept)) }
        ensures was { OnOk result ((n : ℕ) × ((shown_by self.old.kept).rows resource.now key.now ≡ Some n)) }
        ensures no_row { IsErrOf result RowFault.NoRow → (shown_by self.old.kept).rows resource.now key.now ≡ None }
        ensures unchanged { IsErrOf result RowFault.NoRow → (shown_by self.new.kept ≡ shown_by self.old.kept) × NoMore (images_by self.old.kept) (images_by self.new.kept) }
        ensures crash { Follows (PutStep resource.now key.now amount) (images_by self.old.kept) (images_by self.new.kept) }
        ensures certain { OnOk result (Follows (λ d c. c ≡ with_row resource.now key.now amount d) (images_by self.old.kept) (images_by self.new.kept)) }
        ensures time { Elapses (moment_by self.old.kept) (moment_by self.new.kept) (since_by self.old.kept) (since_by self.new.kept) (images_by self.new.kept) }
        ensures cause { HasCause self.old.account.faults self.new.account.faults (IsErrOf result RowFault.Failed) }
        // The call is noted once, so its images are all that the rules allow.
        ensures noted { OnOk result (calls_by self.new.kept ≡ calls_by self.old.kept ++ Put resource.now key.now amount ∷ []) }
        ensures first { self.new.kept.history.first ≡ self.old.kept.history.first }
        // It fails exactly by the plan or for want of memory, and then changes nothing.
        ensures failed { IsErrOf result RowFault.Failed → FailedBy (fails (CallKind.RowPut) self.old.plan) self.old.account.starved self.new.account.starved }
        ensures nothing { OnErr result (Unchanged self.old.kept self.new.kept) }
        ensures passed { OnOk result ((fails (CallKind.RowPut) self.old.plan ≡ false) × (self.new.account.starved ≡ self.old.account.starved)) }
        ensures passed_no_row { IsErrOf result RowFault.NoRow → (fails (CallKind.RowPut) self.old.plan ≡ false) × (self.new.account.starved ≡ self.old.account.starved) }
        ensures plan { AfterCall (CallKind.RowPut) self.old.plan self.new.plan }
        ensures reads { self.new.reads ≡ self.old.reads }
    {
        if self.plan.trips(CallKind::RowPut) {
            let _ = self.account.fault();
            return Err(RowFault::Failed);
        }
        if self.kept.amount(resource, key).is_none() {
            return Err(RowFault::NoRow);
        }
        let Ok(()) = self.kept.put(resource, key, amount) else {
            let _ = self.account.starve();
            return Err(RowFault::Failed);
        };
        Ok(())
    }
}
