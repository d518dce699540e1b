// What stands at a gate.
ghost use Rattle.std.specs.Prelude.{◌≡◌, ◌+◌, ◌-◌, ◌++◌, ◌<◌, ◌≤◌, ℕ, List, length, take, drop, replicate, IfOk, OnOk, IsErr};
ghost use Rattle.qc_site.specs.Image.{bytes_of};
ghost use Rattle.qc_site.specs.Disk.{NoMore, Elapses};
ghost use Rattle.qc_site.specs.Causes.{HasCause};
ghost use Rattle.qc_frame.specs.Found.{Finds};

use crate::entries::number;
use qc_site::{Failed, Site, SiteFile};

/// What a gate is: open before so many bytes, closed by a 0, or closed and no 0, or not there.
#[derive(Clone, Copy)]
pub(crate) enum Gate {
    Open(u32),
    Zero,
    NotZero,
}

const MAX_PAYLOAD: u32 = 33_554_432;

// The five bytes of a gate: those that a read gave, and 0 for each that it didn't give.
fn gate_bytes(head: &[u8; 5], count: usize) -> [u8; 5]
    requires { count ≤ 5 }
    ensures { result ≡ take count head.now ++ replicate (5 - count) 0 }
{
    let mut bytes = *head;
    bytes[count..].fill(0);
    bytes
}

// The gate with these five bytes, where the file has so many bytes left from its place on.
fn gate_of(head: &[u8; 5], left: u64) -> Gate
    ensures inside { (size : ℕ) → result ≡ Gate.Open size → size + 5 < left }
    ensures finds { (rest : List ℕ) → length rest ≡ left → take 5 rest ≡ take left head.now → Finds rest result }
{
    if left == 0 {
        return Gate::NotZero;
    }
    if head[0] == 0 {
        return Gate::Zero;
    }
    if head[0] != 1 {
        return Gate::NotZero;
    }
    let size = number(&head[1..]);
    if size == 0 {
        return Gate::NotZero;
    }
    if size > MAX_PAYLOAD {
        return Gate::NotZero;
    }
    if left <= 5 + u64::from(size) {
        return Gate::NotZero;
    }
    Gate::Open(size)
}

/// Reads the gate at this place of a file of this length. A byte that lies inside the file and isn't given counts as 0.
pub(crate) fn read_gate<S: Site>(
    site: &mut S,
    file: SiteFile,
    place: u64,
    file_len: u64,
) -> Result<Gate, Failed>
    requires room { place ≤ 4611686018427387904 }
    ensures gate { S.told → file_len ≡ length (bytes_of file (S.shown site.old)) → place ≤ file_len → IfOk result (Finds (drop place (bytes_of file (S.shown site.old)))) }
    ensures inside { IfOk result (λ gate. (size : ℕ) → gate ≡ Gate.Open size → place + 5 + size < file_len) }
    ensures same { S.told → OnOk result (S.shown site.new ≡ S.shown site.old) }
    ensures crash { S.told → NoMore (S.may_leave site.old) (S.may_leave site.new) }
    ensures time { S.told → Elapses (S.moment site.old) (S.moment site.new) (S.left_since site.old) (S.left_since site.new) (S.may_leave site.new) }
    ensures cause { HasCause (S.faults site.old) (S.faults site.new) (IsErr result) }
{
    let mut head = [0u8; 5];
    let count = site.read(file, place, &mut head)?;
    Ok(gate_of(&gate_bytes(&head, count), file_len.saturating_sub(place)))
}
