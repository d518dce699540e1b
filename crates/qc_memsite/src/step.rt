// A call to a file that no sync has settled, and what undoes it.
ghost use Rattle.std.specs.Prelude.{◌≡◌, ◌≤◌, ℕ, List, length, take, true, IfOk};
ghost use Rattle.qc_site.specs.Disk.{written};
ghost use Rattle.qc_memsite.specs.Chosen.{write_left};

use std::alloc::{AllocError, Global};

// What a call made of the file.
#[derive(Drop)]
pub(crate) enum Edit {
    // These bytes at this place.
    Write(u64, Vec<u8>),
    // To this length.
    Cut(u64),
}

// Undone by the bytes that were there, at their place, and then the length that it had.
#[derive(Drop)]
pub(crate) struct Step {
    pub(crate) edit: Edit,
    pub(crate) at: u64,
    pub(crate) was: Vec<u8>,
    pub(crate) len: u64,
}

impl Step {
    ghost use Rattle.qc_memsite.specs.Edits.{edited, edit_turned, undone_by};

    // A write to a file that has these bytes before it.
    pub(crate) fn write(
        alloc: Global,
        file: &[u8],
        at: u64,
        bytes: &[u8],
    ) -> Result<Step, AllocError>
        requires { at ≤ length file.now }
        ensures edit { IfOk result (λ x. (s i : List ℕ) → (edited x.edit s ≡ written s at bytes.now) × (edit_turned x.edit s i ≡ write_left true s i at bytes.now)) }
        ensures undone { IfOk result (λ x. undone_by x (written file.now at bytes.now) ≡ file.now) }
    {
        let start = at as usize;
        let count = bytes.len().min(file.len() - start);
        let copy = bytes.to_vec(alloc)?;
        let was = file[start..start + count].to_vec(alloc)?;
        Ok(Step {
            edit: Edit::Write(at, copy),
            at,
            was,
            len: file.len() as u64,
        })
    }

    // A cut of a file that has these bytes before it.
    pub(crate) fn cut(alloc: Global, file: &[u8], len: u64) -> Result<Step, AllocError>
        requires { len ≤ length file.now }
        ensures edit { IfOk result (λ x. (s i : List ℕ) → (edited x.edit s ≡ take len s) × (edit_turned x.edit s i ≡ take len i)) }
        ensures undone { IfOk result (λ x. undone_by x (take len file.now) ≡ file.now) }
    {
        let was = file[len as usize..].to_vec(alloc)?;
        Ok(Step {
            edit: Edit::Cut(len),
            at: len,
            was,
            len: file.len() as u64,
        })
    }
}
