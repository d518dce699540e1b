// A site over another one that tells nothing of its content.
ghost use Rattle.std.specs.Prelude.{◌≡◌, ◌≤◌, [], None};
ghost use Rattle.qc_site.specs.Causes.{Rose};

use qc_site::{Failed, RowFault, Site, SiteFile};

// How often a call has failed. The count stops at the end of its type.
#[derive(Drop)]
struct Faults {
    count: u64,
}

impl Faults {
    fn one_more(&mut self) -> Failed
        ensures no_fewer { self.old.count ≤ self.new.count }
        ensures rose { Rose self.old.count self.new.count }
    {
        self.count = self.count.saturating_add(1);
        Failed
    }

    // A row that isn't there is no fault.
    fn of_row(&mut self, fault: RowFault) -> RowFault
        ensures same { result ≡ fault }
        ensures no_fewer { self.old.count ≤ self.new.count }
        ensures rose { fault ≡ RowFault.Failed → Rose self.old.count self.new.count }
    {
        match fault {
            RowFault::NoRow => RowFault::NoRow,
            RowFault::Failed => {
                let Failed = self.one_more();
                RowFault::Failed
            }
        }
    }
}

/// A site that hands each call on and tells nothing of what comes of it, as one over real files would.
///
/// It counts each call that failed. A place or a length past the end of its file is a failure, since the caller of such
/// a site knows no length, and the site below must not be asked for it.
#[derive(Drop)]
pub struct Untold<S> {
    inner: S,
    faults: Faults,
    // How many of a gate's five bytes a read gives.
    of_gate: usize,
}

impl<S> Untold<S> {
    /// Over this site, with no faults yet.
    pub fn over(inner: S) -> Untold<S>
        ensures inner { result.inner ≡ inner }
        ensures faults { result.faults.count ≡ 0 }
    {
        Untold::short(inner, 5)
    }

    /// Over this site, and of five bytes that are read it gives at most so many.
    pub fn short(inner: S, of_gate: usize) -> Untold<S>
        ensures inner { result.inner ≡ inner }
        ensures faults { result.faults.count ≡ 0 }
    {
        Untold {
            inner,
            faults: Faults { count: 0 },
            of_gate,
        }
    }

    /// How often it has failed.
    pub fn faults(&self) -> u64
        ensures { result ≡ self.now.faults.count }
    {
        self.faults.count
    }
}

impl<S: Site> Site for Untold<S> {
    ghost told = { ⊥ };

    ghost shown = { λ s. record { journal = []; crm_log = []; snap = []; rows = λ r k. None } };

    ghost may_leave = { λ s c. ⊥ };

    ghost moment = { λ s. 0 };

    ghost left_since = { λ s t c. ⊥ };

    ghost faults = { λ s. s.faults.count };

    ghost shows_image = { λ s told. absurd told };

    ghost counts_now = { λ s t c told le now. absurd told };

    ghost short_images = { λ s c told image. absurd told };

    ghost only_now = { λ s c told since. absurd told };

    fn len(&mut self, file: SiteFile) -> Result<u64, Failed> {
        match self.inner.len(file) {
            Ok(length) => Ok(length),
            Err(Failed) => Err(self.faults.one_more()),
        }
    }

    fn read(&mut self, file: SiteFile, at: u64, into: &mut [u8]) -> Result<usize, Failed> {
        match self.inner.read(file, at, into) {
            Ok(count) if into.len() == 5 => Ok(count.min(self.of_gate)),
            Ok(count) => Ok(count),
            Err(Failed) => Err(self.faults.one_more()),
        }
    }

    fn write_at(&mut self, file: SiteFile, at: u64, bytes: &[u8]) -> Result<(), Failed> {
        let Ok(length) = self.inner.len(file) else {
            return Err(self.faults.one_more());
        };
        if at > length {
            return Err(self.faults.one_more());
        }
        match self.inner.write_at(file, at, bytes) {
            Ok(()) => Ok(()),
            Err(Failed) => Err(self.faults.one_more()),
        }
    }

    fn cut(&mut self, file: SiteFile, len: u64) -> Result<(), Failed> {
        let Ok(length) = self.inner.len(file) else {
            return Err(self.faults.one_more());
        };
        if len > length {
            return Err(self.faults.one_more());
        }
        match self.inner.cut(file, len) {
            Ok(()) => Ok(()),
            Err(Failed) => Err(self.faults.one_more()),
        }
    }

    fn sync(&mut self, file: SiteFile) -> Result<(), Failed> {
        match self.inner.sync(file) {
            Ok(()) => Ok(()),
            Err(Failed) => Err(self.faults.one_more()),
        }
    }

    fn row_make(&mut self, resource: &[u8], key: &[u8], amount: u64) -> Result<(), Failed> {
        match self.inner.row_make(resource, key, amount) {
            Ok(()) => Ok(()),
            Err(Failed) => Err(self.faults.one_more()),
        }
    }

    fn row_get(&mut self, resource: &[u8], key: &[u8]) -> Result<u64, RowFault> {
        match self.inner.row_get(resource, key) {
            Ok(amount) => Ok(amount),
            Err(fault) => Err(self.faults.of_row(fault)),
        }
    }

    fn row_put(&mut self, resource: &[u8], key: &[u8], amount: u64) -> Result<(), RowFault> {
        match self.inner.row_put(resource, key, amount) {
            Ok(()) => Ok(()),
            Err(fault) => Err(self.faults.of_row(fault)),
        }
    }
}
