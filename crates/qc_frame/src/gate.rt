// A group is written behind the closed gate, and then the gate is opened.
ghost use Rattle.std.specs.Prelude.{◌≡◌, ◌+◌, ◌<◌, ◌≤◌, zero, [], ◌∷◌, length, drop, OnOk, IsErr};
ghost use Rattle.qc_site.specs.Image.{bytes_of, with_bytes};
ghost use Rattle.qc_site.specs.Disk.{Certain, LeavesOnly, written};
ghost use Rattle.qc_site.specs.Causes.{HasCause};
ghost use Rattle.qc_frame.specs.Frame.{groups_past};
ghost use Rattle.qc_frame.specs.Gate.{opened, ClosedOrWhole, ShutAt, After};

use qc_site::{Failed, Site, SiteFile};

/// Writes the bytes behind a gate, syncs, opens the gate and syncs.
pub(crate) fn write_group<S: Site>(
    site: &mut S,
    file: SiteFile,
    place: u64,
    behind: &[u8],
) -> Result<(), Failed>
    requires room { place ≤ 4611686018427387904 }
    requires inside { S.told → place < length (bytes_of file (S.shown site.old)) }
    requires certain { S.told → Certain file (bytes_of file (S.shown site.old)) (S.may_leave site.old) }
    ensures written { S.told → OnOk result (S.shown site.new ≡ with_bytes file (opened (bytes_of file (S.shown site.old)) place behind.now) (S.shown site.old)) }
    ensures certain { S.told → OnOk result (Certain file (opened (bytes_of file (S.shown site.old)) place behind.now) (S.may_leave site.new)) }
    ensures any_moment { S.told → LeavesOnly S.moment S.left_since site.old site.new
        (After file (ClosedOrWhole place behind.now) (S.may_leave site.old)) }
    ensures bound { OnOk result (place + 1 + length behind.now ≤ 4611686018427387904) }
    ensures cause { HasCause (S.faults site.old) (S.faults site.new) (IsErr result) }
{
    site.write_at(file, place + 1, behind)?;
    site.sync(file)?;
    site.write_at(file, place, &[1])?;
    site.sync(file)?;
    Ok(())
}

/// Writes a closed gate where none that is open stands, and syncs.
pub(crate) fn close_gate<S: Site>(site: &mut S, file: SiteFile, place: u64) -> Result<(), Failed>
    requires inside { S.told → place ≤ length (bytes_of file (S.shown site.old)) }
    requires shut { S.told → groups_past zero (drop place (bytes_of file (S.shown site.old))) ≡ [] }
    requires certain { S.told → Certain file (bytes_of file (S.shown site.old)) (S.may_leave site.old) }
    ensures written { S.told → OnOk result (S.shown site.new ≡ with_bytes file (written (bytes_of file (S.shown site.old)) place (0 ∷ [])) (S.shown site.old)) }
    ensures certain { S.told → OnOk result (Certain file (written (bytes_of file (S.shown site.old)) place (0 ∷ [])) (S.may_leave site.new)) }
    ensures any_moment { S.told → LeavesOnly S.moment S.left_since site.old site.new (After file (ShutAt place) (S.may_leave site.old)) }
    ensures bound { OnOk result (place + 1 ≤ 4611686018427387904) }
    ensures cause { HasCause (S.faults site.old) (S.faults site.new) (IsErr result) }
{
    site.write_at(file, place, &[0])?;
    site.sync(file)?;
    Ok(())
}
