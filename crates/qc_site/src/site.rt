// Three files and the rows outside them: what a read gives, and what a crash may leave.
ghost use Rattle.std.specs.Prelude.{◌≡◌, ◌≤◌, ◌+◌, ◌^◌, ◌<◌, List, ℕ, [], ◌∷◌, length, take, drop, min, Some, None, IfOk, OnOk, OnErr, IsErr, IsErrOf};
ghost use Rattle.qc_site.specs.Files.{file_name};
ghost use Rattle.qc_site.specs.Image.{Image, IsShort, bytes_of, with_bytes, with_row};
ghost use Rattle.qc_site.specs.Causes.{HasCause};
ghost use Rattle.qc_site.specs.Disk.{written, Torn, OneStep, Cut, FileStep, RowStep, PutStep, Images, Follows, NoMore, Certain, Elapses};

/// The object that was asked has failed, and counted that.
#[derive(Clone, Copy, Debug, PartialEq, Eq)]
pub struct Failed;

impl Failed {
    /// The same again.
    pub fn copy(&self) -> Failed
        ensures { result ≡ self.now }
    {
        *self
    }
}

/// Why a row wasn't read or set.
#[derive(Clone, Copy, Debug, PartialEq, Eq)]
pub enum RowFault {
    /// The row isn't there. This is no fault of the site, and isn't counted.
    NoRow,
    /// The site has failed, and counted that.
    Failed,
}

impl RowFault {
    /// The same again.
    pub fn copy(&self) -> RowFault
        ensures { result ≡ self.now }
    {
        *self
    }
}

/// The files of a site.
#[derive(Clone, Copy, Debug, PartialEq, Eq)]
pub enum SiteFile {
    /// The facts.
    Journal,
    /// The log lines of attempts.
    CrmLog,
    /// The snapshot.
    Snap,
}

impl SiteFile {
    /// The same again.
    pub fn copy(&self) -> SiteFile
        ensures { result ≡ self.now }
    {
        *self
    }

    /// The name of the file in its folder, and in the line on damage.
    pub fn name(self) -> &'static str
        ensures { result.now ≡ file_name self }
    {
        match self {
            SiteFile::Journal => "journal",
            SiteFile::CrmLog => "crmlog",
            SiteFile::Snap => "snap",
        }
    }
}

/// Three files and the rows outside them, with one clock of moments for all four (docs/RULES.md, "Disk rules").
///
/// Lengths and places are bytes, and a file has at most 2^62 of them. Amounts are whole numbers from 0 to 10^15. A
/// row is named by its resource and its key. An image is a whole site that a crash may leave: `specs/Image.antt`.
pub trait Site {
    /// The site is honest and tells its content. Each clause on content has it for a premise.
    ghost told: { Type 0 };

    /// What a read gives.
    ghost shown: { Self → Image };

    /// What a crash at this moment may leave.
    ghost may_leave: { Self → Image → Type 0 };

    /// The moment, as a number that doesn't fall.
    ghost moment: { Self → ℕ };

    /// What a crash at some moment from that one on might have left, during a call or between two.
    ghost left_since: { Self → ℕ → Image → Type 0 };

    /// How often the site has failed.
    ghost faults: { Self → ℕ };

    /// The length of the file, at most 2^62.
    fn len(&mut self, file: SiteFile) -> Result<u64, Failed>
        ensures size { told → IfOk result (λ n. n ≡ length (bytes_of file (shown self.old))) }
        ensures bound { IfOk result (λ n. n ≤ 4611686018427387904) }
        ensures same { told → OnOk result (shown self.new ≡ shown self.old) }
        ensures crash { told → NoMore (may_leave self.old) (may_leave self.new) }
        ensures time { told → Elapses (moment self.old) (moment self.new) (left_since self.old) (left_since self.new) (may_leave self.new) }
        ensures cause { HasCause (faults self.old) (faults self.new) (IsErr result) };

    /// The bytes from `at` on, as many as fit and are there, and their number: 0 at and past the end. What `into` holds
    /// behind them is open, and so is all of it after a failure.
    fn read(&mut self, file: SiteFile, at: u64, into: &mut [u8]) -> Result<usize, Failed>
        ensures count { IfOk result (λ n. n ≤ length into.old) }
        ensures bytes { told → IfOk result (λ n. take n into.new ≡ take (length into.old) (drop at (bytes_of file (shown self.old)))) }
        ensures size { told → IfOk result (λ n. n ≡ min (length into.old) (length (drop at (bytes_of file (shown self.old))))) }
        ensures same { told → OnOk result (shown self.new ≡ shown self.old) }
        ensures crash { told → NoMore (may_leave self.old) (may_leave self.new) }
        ensures time { told → Elapses (moment self.old) (moment self.new) (left_since self.old) (left_since self.new) (may_leave self.new) }
        ensures cause { HasCause (faults self.old) (faults self.new) (IsErr result) };

    /// Writes over what is there, and past the end. Until a sync, a crash may leave any bytes in the range; a single
    /// byte inside the file is one step. A write past 2^62 bytes is a failure. After a failure a part may be written.
    fn write_at(&mut self, file: SiteFile, at: u64, bytes: &[u8]) -> Result<(), Failed>
        requires { told → at ≤ length (bytes_of file (shown self.old)) }
        ensures written { told → OnOk result (shown self.new ≡ with_bytes file (written (bytes_of file (shown self.old)) at bytes.now) (shown self.old)) }
        ensures bound { OnOk result (at + length bytes.now ≤ 4611686018427387904) }
        ensures crash { told → Follows (FileStep file (Torn at (length bytes.now))) (may_leave self.old) (may_leave self.new) }
        ensures one_step { told → length bytes.now ≡ 1 → at < length (bytes_of file (shown self.old)) → Follows (FileStep file (OneStep at bytes.now)) (may_leave self.old) (may_leave self.new) }
        ensures time { told → Elapses (moment self.old) (moment self.new) (left_since self.old) (left_since self.new) (may_leave self.new) }
        ensures cause { HasCause (faults self.old) (faults self.new) (IsErr result) };

    /// Cuts the file to a length. Until a sync, a crash may leave a longer front of the old bytes.
    fn cut(&mut self, file: SiteFile, len: u64) -> Result<(), Failed>
        requires { told → len ≤ length (bytes_of file (shown self.old)) }
        ensures cut { told → OnOk result (shown self.new ≡ with_bytes file (take len (bytes_of file (shown self.old))) (shown self.old)) }
        ensures crash { told → Follows (FileStep file (Cut len)) (may_leave self.old) (may_leave self.new) }
        ensures time { told → Elapses (moment self.old) (moment self.new) (left_since self.old) (left_since self.new) (may_leave self.new) }
        ensures cause { HasCause (faults self.old) (faults self.new) (IsErr result) };

    /// After it, each image has what a read of the file gives. After a failure nothing is said of what is shown but
    /// that it is one of the images.
    fn sync(&mut self, file: SiteFile) -> Result<(), Failed>
        ensures certain { told → OnOk result (Certain file (bytes_of file (shown self.old)) (may_leave self.new)) }
        ensures same { told → OnOk result (shown self.new ≡ shown self.old) }
        ensures crash { told → NoMore (may_leave self.old) (may_leave self.new) }
        ensures time { told → Elapses (moment self.old) (moment self.new) (left_since self.old) (left_since self.new) (may_leave self.new) }
        ensures cause { HasCause (faults self.old) (faults self.new) (IsErr result) };

    /// Makes the row, or sets it: one step, and certain once it was Ok.
    fn row_make(&mut self, resource: &[u8], key: &[u8], amount: u64) -> Result<(), Failed>
        requires { amount ≤ 1000000000000000 }
        ensures made { told → OnOk result (shown self.new ≡ with_row resource.now key.now amount (shown self.old)) }
        ensures crash { told → Follows (RowStep resource.now key.now amount) (may_leave self.old) (may_leave self.new) }
        ensures certain { told → OnOk result (Follows (λ d c. c ≡ with_row resource.now key.now amount d) (may_leave self.old) (may_leave self.new)) }
        ensures time { told → Elapses (moment self.old) (moment self.new) (left_since self.old) (left_since self.new) (may_leave self.new) }
        ensures cause { HasCause (faults self.old) (faults self.new) (IsErr result) };

    /// The amount of the row. `NoRow` comes exactly where it isn't there. A value that is no amount is a failure.
    fn row_get(&mut self, resource: &[u8], key: &[u8]) -> Result<u64, RowFault>
        ensures amount { told → IfOk result (λ n. (shown self.old).rows resource.now key.now ≡ Some n) }
        ensures bound { IfOk result (λ n. n ≤ 1000000000000000) }
        ensures no_row { told → IsErrOf result RowFault.NoRow → (shown self.old).rows resource.now key.now ≡ None }
        ensures same { told → ¬ IsErrOf result RowFault.Failed → shown self.new ≡ shown self.old }
        ensures crash { told → NoMore (may_leave self.old) (may_leave self.new) }
        ensures time { told → Elapses (moment self.old) (moment self.new) (left_since self.old) (left_since self.new) (may_leave self.new) }
        ensures cause { HasCause (faults self.old) (faults self.new) (IsErrOf result RowFault.Failed) };

    /// Sets a row that is there: one step, and certain once it was Ok. `NoRow` comes exactly where it isn't there, and
    /// then nothing changes.
    fn row_put(&mut self, resource: &[u8], key: &[u8], amount: u64) -> Result<(), RowFault>
        requires { amount ≤ 1000000000000000 }
        ensures put { told → OnOk result (shown self.new ≡ with_row resource.now key.now amount (shown self.old)) }
        ensures was { told → OnOk result ((n : ℕ) × ((shown self.old).rows resource.now key.now ≡ Some n)) }
        ensures no_row { told → IsErrOf result RowFault.NoRow → (shown self.old).rows resource.now key.now ≡ None }
        ensures unchanged { told → IsErrOf result RowFault.NoRow → (shown self.new ≡ shown self.old) × NoMore (may_leave self.old) (may_leave self.new) }
        ensures crash { told → Follows (PutStep resource.now key.now amount) (may_leave self.old) (may_leave self.new) }
        ensures certain { told → OnOk result (Follows (λ d c. c ≡ with_row resource.now key.now amount d) (may_leave self.old) (may_leave self.new)) }
        ensures time { told → Elapses (moment self.old) (moment self.new) (left_since self.old) (left_since self.new) (may_leave self.new) }
        ensures cause { HasCause (faults self.old) (faults self.new) (IsErrOf result RowFault.Failed) };

    /// What is shown is one of the images, also after a call that failed.
    ghost shows_image: { (site : Self) → told → may_leave site (shown site) };

    /// This moment is one of those since an earlier one.
    ghost counts_now: { (site : Self) (t : ℕ) (c : Image) → told → t ≤ moment site → may_leave site c → left_since site t c };

    /// No image has a file of more than 2^62 bytes.
    ghost short_images: { (site : Self) (c : Image) → told → may_leave site c → IsShort c };

    /// Since this moment there is no other.
    ghost only_now: { (site : Self) (c : Image) → told → left_since site (moment site) c → may_leave site c };
}
