// The same calls of two sites.
ghost use Rattle.std.specs.Prelude.{◌≡◌, ◌≤◌};

use crate::Dice;
use qc_site::{Failed, RowFault, Site, SiteFile};
use std::alloc::{AllocError, Global};

/// Where two sites differ, or why it couldn't be told.
#[derive(Clone, Copy, Debug, PartialEq, Eq)]
pub enum Difference {
    Length,
    Read,
    Write,
    Cut,
    Sync,
    Row,
    /// A site failed where it was to give all its bytes.
    Fault,
    NoMemory,
}

impl From<Failed> for Difference {
    fn from(_failed: Failed) -> Difference {
        Difference::Fault
    }
}

impl From<AllocError> for Difference {
    fn from(_error: AllocError) -> Difference {
        Difference::NoMemory
    }
}

// A place past the end is no place for a write.
fn write<S: Site>(site: &mut S, file: SiteFile, at: u64, bytes: &[u8]) -> Result<(), Failed> {
    if site.len(file)? < at {
        return Err(Failed);
    }
    site.write_at(file, at, bytes)
}

fn cut<S: Site>(site: &mut S, file: SiteFile, len: u64) -> Result<(), Failed> {
    if site.len(file)? < len {
        return Err(Failed);
    }
    site.cut(file, len)
}

/// All bytes of a file.
pub fn all_bytes<S: Site>(
    alloc: Global,
    site: &mut S,
    file: SiteFile,
) -> Result<Vec<u8>, Difference> {
    let Ok(length) = usize::try_from(site.len(file)?) else {
        return Err(Difference::NoMemory);
    };
    let mut bytes = vec![in alloc; 0u8; length]?;
    let count = site.read(file, 0, &mut bytes)?;
    bytes.truncate(count);
    Ok(bytes)
}

const ROWS: [(&str, &str); 4] = [
    ("till", "drawer"),
    ("till", "box"),
    ("post", "letters"),
    ("", "a\u{e9}'b"),
];

const MOST: u64 = 1_000_000_000_000_000;

fn play_row<R: Site, M: Site>(real: &mut R, model: &mut M, dice: &mut Dice) -> bool {
    let (resource, key) = match dice.up_to(3) {
        0 => ROWS[0],
        1 => ROWS[1],
        2 => ROWS[2],
        _ => ROWS[3],
    };
    let (resource, key) = (resource.as_bytes(), key.as_bytes());
    let amount = dice.up_to(MOST);
    match dice.up_to(3) {
        0 => real.row_make(resource, key, amount) == model.row_make(resource, key, amount),
        1 => real.row_put(resource, key, amount) == model.row_put(resource, key, amount),
        _ => real.row_get(resource, key) == model.row_get(resource, key),
    }
}

fn play_read<R: Site, M: Site>(
    real: &mut R,
    model: &mut M,
    file: SiteFile,
    dice: &mut Dice,
    length: u64,
) -> bool {
    let at = match dice.up_to(9) {
        0 => dice.up_to(u64::MAX),
        _ => dice.up_to(length.saturating_add(20)),
    };
    let mut here = [0; 64];
    let mut there = [0; 64];
    let size = dice.up_to(64) as usize;
    let given = real.read(file, at, &mut here[..size]);
    if given != model.read(file, at, &mut there[..size]) {
        return false;
    }
    match given {
        Ok(count) => here[..count.min(64)] == there[..count.min(64)],
        Err(Failed) => true,
    }
}

fn play_write<R: Site, M: Site>(
    real: &mut R,
    model: &mut M,
    file: SiteFile,
    dice: &mut Dice,
    length: u64,
) -> bool {
    let at = match dice.up_to(2) {
        0 => length,
        _ => dice.up_to(length),
    };
    let mut bytes = [0; 48];
    let size = dice.up_to(48) as usize;
    dice.fill(&mut bytes[..size]);
    write(real, file, at, &bytes[..size]) == write(model, file, at, &bytes[..size])
}

fn play_cut<R: Site, M: Site>(
    real: &mut R,
    model: &mut M,
    file: SiteFile,
    dice: &mut Dice,
    length: u64,
) -> bool {
    // Seldom by much, so that the files grow.
    let by = match dice.up_to(9) {
        0 => dice.up_to(length),
        _ => dice.up_to(length.min(8)),
    };
    let len = length.saturating_sub(by);
    cut(real, file, len) == cut(model, file, len)
}

/// Makes one call of both sites, and compares the answers, and all bytes of the file after a sync. It gives the file
/// that was synced.
pub fn play_one<R: Site, M: Site>(
    alloc: Global,
    real: &mut R,
    model: &mut M,
    dice: &mut Dice,
) -> Result<Option<SiteFile>, Difference> {
    let file = dice.file();
    let length = real.len(file)?;
    if model.len(file)? != length {
        return Err(Difference::Length);
    }
    match dice.up_to(9) {
        0..=3 if !play_write(real, model, file, dice, length) => Err(Difference::Write),
        4 if !play_cut(real, model, file, dice, length) => Err(Difference::Cut),
        5..=6 if !play_read(real, model, file, dice, length) => Err(Difference::Read),
        7..=8 if !play_row(real, model, dice) => Err(Difference::Row),
        9 => {
            real.sync(file)?;
            model.sync(file)?;
            let bytes = all_bytes(alloc, real, file)?;
            if bytes.as_slice() != all_bytes(alloc, model, file)?.as_slice() {
                return Err(Difference::Sync);
            }
            Ok(Some(file))
        }
        _ => Ok(None),
    }
}
