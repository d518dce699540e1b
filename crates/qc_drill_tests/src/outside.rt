// What is listed of a resource is what the site holds.
use super::*;
use crate::texts::*;
use qc_site::Site;
use std::test::Fail;

// Writes a file of one site into another, whose file is empty.
fn copy_file(from: &mut MemSite, to: &mut MemSite, file: SiteFile) -> Result<(), Fail> {
    let mut bytes = [0u8; 4096];
    let length = from.read(file, 0, &mut bytes)?;
    to.write_at(file, 0, bytes.get(..length).unwrap_or(&[]))?;
    Ok(())
}

// A site with the files of a new one, and without rows.
fn site_without_rows(alloc: Global) -> Result<MemSite, Fail> {
    let mut made = new_site(alloc)?;
    let mut site = MemSite::make(alloc)?;
    copy_file(&mut made, &mut site, FILE)?;
    copy_file(&mut made, &mut site, LOG)?;
    Ok(site)
}

#[test]
fn a_row_is_missing_until_the_site_has_it(rt: HostRuntime) -> Result<(), Fail> {
    let alloc = rt.alloc();
    let mut site = site_without_rows(alloc)?;
    let (status, sink) = drill(alloc, &mut site, &[TILL])?;
    assert_eq!(rt; status, Status::Done);
    assert_eq!(rt; sink.contents(), TILL_MISSING);
    site.row_make(b"till", b"drawer", 104)?;
    let (status, sink) = drill(alloc, &mut site, &[TILL])?;
    assert_eq!(rt; status, Status::Done);
    assert_eq!(rt; sink.contents(), TILL_OF_104);
    Ok(())
}

// Each of the two listings reads one row.
#[test]
fn a_row_that_cannot_be_read_ends_the_drill(rt: HostRuntime) -> Result<(), Fail> {
    let alloc = rt.alloc();
    let table: [(u32, Status, &[&[u8]]); 3] = [
        (1, Status::SiteFault, &[]),
        (2, Status::SiteFault, &[TILL_SHOWN, SENT_1]),
        (3, Status::Done, &[TILL_SHOWN, SENT_1, POST_SHOWN]),
    ];
    for (nth, ended, replies) in table {
        let mut site = new_site(alloc)?;
        site.set_plan(trip(alloc, CallKind::RowGet, nth, false)?);
        let (status, sink) = drill(alloc, &mut site, &[TILL, SEND, POST])?;
        assert_eq!(rt; status, ended);
        assert_eq!(rt; sink.contents(), joined(alloc, replies)?.as_slice());
    }
    Ok(())
}
