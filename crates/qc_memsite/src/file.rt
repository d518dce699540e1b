// A file in memory: what it shows, and the calls to it that no sync has settled.
ghost use Rattle.std.specs.Prelude.{◌≡◌, ◌≤◌, ◌+◌, ℕ, List, [], length, take, drop, true, Bool, if◌then◌else◌, IfOk, OnOk, OnErr};
ghost use Rattle.qc_site.specs.Disk.{written};
ghost use Rattle.qc_memsite.specs.Chosen.{flipped, write_left};
ghost use Rattle.qc_memsite.specs.Edits.{edited, edit_turned, undone_by, undone, done_again, turned_by};

use crate::step::{Edit, Step};
use std::alloc::{AllocError, Global};

#[derive(Drop)]
pub(crate) struct MemFile {
    pub(crate) bytes: Vec<u8>,
    pub(crate) steps: Vec<Step>,
    ghost again: { done_again steps.items (undone steps.items bytes.items) ≡ bytes.items },
}

// A file while its steps are done again.
#[derive(Drop)]
struct Replay {
    shown: Vec<u8>,
    image: Vec<u8>,
}

fn overwrite_inside(file: &mut [u8], at: usize, bytes: &[u8])
    requires { at + length bytes.now ≤ length file.old }
    ensures { file.new ≡ written file.old at bytes.now }
{
    file[at..at + bytes.len()].copy_from_slice(bytes);
}

// Writes over what is there, and past the end.
fn overwrite(file: &mut Vec<u8>, at: u64, bytes: &[u8]) -> Result<(), AllocError>
    ensures ok { OnOk result (file.new.items ≡ written file.old.items at bytes.now) }
    ensures err { OnErr result (file.new.items ≡ file.old.items) }
{
    if at >= file.len() as u64 {
        return file.extend_from_slice(bytes);
    }
    let at = at as usize;
    let (inside, beyond) = bytes.split_at(bytes.len().min(file.len() - at));
    file.extend_from_slice(beyond)?;
    overwrite_inside(file, at, inside);
    Ok(())
}

fn turned_round(alloc: Global, bytes: &[u8]) -> Result<Vec<u8>, AllocError>
    ensures { IfOk result (λ v. v.items ≡ flipped bytes.now) }
{
    let mut turned = Vec::with_capacity(alloc, bytes.len())?;
    for byte in bytes {
        turned.push(255 - *byte)?;
    }
    Ok(turned)
}

// A write with its bytes turned round. A single byte inside the file stays.
fn write_turned(
    alloc: Global,
    shown: &[u8],
    image: &mut Vec<u8>,
    at: u64,
    bytes: &[u8],
) -> Result<(), AllocError>
    ensures { OnOk result (image.new.items ≡ write_left true shown.now image.old.items at bytes.now) }
{
    if bytes.len() == 1 && at < shown.len() as u64 {
        return Ok(());
    }
    if at > image.len() as u64 {
        return Ok(());
    }
    let turned = turned_round(alloc, bytes)?;
    overwrite(image, at, &turned)
}

impl Replay {
    fn go_on(&mut self, alloc: Global, edit: &Edit) -> Result<(), AllocError>
        ensures shown { OnOk result (self.new.shown.items ≡ edited edit.now self.old.shown.items) }
        ensures image { OnOk result (self.new.image.items ≡ edit_turned edit.now self.old.shown.items self.old.image.items) }
    {
        match edit {
            Edit::Write(at, bytes) => {
                write_turned(alloc, &self.shown, &mut self.image, *at, bytes)?;
                overwrite(&mut self.shown, *at, bytes)?;
                Ok(())
            }
            Edit::Cut(len) => {
                self.image.truncate(*len as usize);
                self.shown.truncate(*len as usize);
                Ok(())
            }
        }
    }
}

fn undo(file: &mut Vec<u8>, step: &Step) -> Result<(), AllocError>
    ensures { OnOk result (file.new.items ≡ undone_by step.now file.old.items) }
{
    overwrite(file, step.at, &step.was)?;
    file.truncate(step.len as usize);
    Ok(())
}

impl MemFile {
    ghost use Rattle.qc_memsite.specs.Left.{settled, left_in, SameFile};

    pub(crate) fn over(alloc: Global, bytes: Vec<u8>) -> MemFile
        ensures bytes { result.bytes.items ≡ bytes.items }
        ensures left { (flips : Bool) → left_in flips result ≡ bytes.items }
    {
        MemFile {
            bytes,
            steps: Vec::new(alloc),
        }
    }

    pub(crate) fn overwrite(
        &mut self,
        alloc: Global,
        at: u64,
        bytes: &[u8],
    ) -> Result<(), AllocError>
        requires { at ≤ length self.old.bytes.items }
        ensures ok { OnOk result ((self.new.bytes.items ≡ written self.old.bytes.items at bytes.now) × ((flips : Bool) → left_in flips self.new ≡ write_left flips self.old.bytes.items (left_in flips self.old) at bytes.now)) }
        ensures err { OnErr result (SameFile self.old self.new) }
    {
        let step = Step::write(alloc, &self.bytes, at, bytes)?;
        self.steps.reserve(1)?;
        overwrite(&mut self.bytes, at, bytes)?;
        self.steps.push_reserved(step);
        Ok(())
    }

    pub(crate) fn shorten(&mut self, alloc: Global, len: u64) -> Result<(), AllocError>
        requires { len ≤ length self.old.bytes.items }
        ensures ok { OnOk result ((self.new.bytes.items ≡ take len self.old.bytes.items) × ((flips : Bool) → left_in flips self.new ≡ (if flips then take len (left_in flips self.old) else left_in flips self.old))) }
        ensures err { OnErr result (SameFile self.old self.new) }
    {
        let step = Step::cut(alloc, &self.bytes, len)?;
        self.steps.push(step)?;
        self.bytes.truncate(len as usize);
        Ok(())
    }

    // What a sync has settled is forgotten.
    pub(crate) fn settle(&mut self)
        ensures bytes { self.new.bytes.items ≡ self.old.bytes.items }
        ensures left { (flips : Bool) → left_in flips self.new ≡ self.old.bytes.items }
    {
        self.steps.clear();
    }

    // The bytes at the last sync.
    pub(crate) fn settled(&self, alloc: Global) -> Result<Vec<u8>, AllocError>
        ensures { IfOk result (λ v. v.items ≡ settled self.now) }
    {
        let mut file = self.bytes.to_vec(alloc)?;
        let count = self.steps.len();
        for index in 0..count {
            undo(&mut file, &self.steps[count - 1 - index])?;
        }
        Ok(file)
    }

    // All that was written since the last sync is turned round.
    pub(crate) fn turned(&self, alloc: Global) -> Result<Vec<u8>, AllocError>
        ensures { IfOk result (λ v. v.items ≡ left_in true self.now) }
    {
        let shown = self.settled(alloc)?;
        let image = shown.to_vec(alloc)?;
        let mut replay = Replay { shown, image };
        for step in &self.steps {
            replay.go_on(alloc, &step.edit)?;
        }
        Ok(replay.image)
    }
}
