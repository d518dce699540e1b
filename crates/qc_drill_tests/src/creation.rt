// Sites that are made, and the making of one that is stopped.
use super::*;
use crate::texts::*;
use qc_hub::is_made;
use qc_memsite::Choice;
use std::test::Fail;

#[test]
fn a_site_is_made_once(rt: HostRuntime) -> Result<(), Fail> {
    let alloc = rt.alloc();
    let mut site = MemSite::make(alloc)?;
    let table = [
        (&b""[..], Status::BadCatalogue, false),
        (sample().as_bytes(), Status::Done, true),
        (sample().as_bytes(), Status::AlreadyMade, true),
    ];
    for (text, ended, made) in table {
        assert_eq!(rt; created(alloc, &mut site, text), ended);
        assert_eq!(rt; is_made(&mut site)?, made);
    }
    Ok(())
}

// How the making of a site from this text ends.
fn created(alloc: Global, site: &mut MemSite, text: &[u8]) -> Status {
    match Hub::create(alloc, site, text) {
        Ok(()) => Status::Done,
        Err(error) => status_of(&error),
    }
}

// Whether the image can be made, or is made, and a drill behind it lists no message.
fn can_be_made(alloc: Global, site: &MemSite, choice: Choice) -> Result<bool, Fail> {
    let mut image = site.crash_image(alloc, choice)?;
    let status = created(alloc, &mut image, sample().as_bytes());
    let (ended, sink) = drill(alloc, &mut image, &[LIST])?;
    let made = status == Status::Done || status == Status::AlreadyMade;
    Ok(made && ended == Status::Done && sink.contents() == LISTED_NONE)
}

// How the making of a site ends that stops at this call, and whether each image can be made then.
fn creation_stopped(alloc: Global, kind: CallKind, nth: u32) -> Result<(Status, [bool; 3]), Fail> {
    let mut site = MemSite::make(alloc)?;
    site.set_plan(trip(alloc, kind, nth, true)?);
    let status = created(alloc, &mut site, sample().as_bytes());
    let images = [
        can_be_made(alloc, &site, Choice::Old)?,
        can_be_made(alloc, &site, Choice::New)?,
        can_be_made(alloc, &site, Choice::Flip)?,
    ];
    Ok((status, images))
}

// The calls of each kind that the making of a site takes. One more is never made.
#[test]
fn a_site_that_is_stopped_in_the_making_is_made_again(rt: HostRuntime) -> Result<(), Fail> {
    let alloc = rt.alloc();
    let table = [
        (CallKind::Sync(FILE), 7),
        (CallKind::Cut(FILE), 1),
        (CallKind::Write(FILE), 4),
        (CallKind::Sync(LOG), 3),
        (CallKind::Cut(LOG), 1),
        (CallKind::Write(LOG), 2),
        (CallKind::RowMake, 2),
    ];
    for (kind, calls) in table {
        for nth in 1..=calls {
            assert_eq!(rt;
                creation_stopped(alloc, kind, nth)?,
                (Status::SiteFault, [true; 3]),
                "{kind:?} {nth}"
            );
        }
        assert_eq!(rt;
            creation_stopped(alloc, kind, calls + 1)?,
            (Status::Done, [true; 3]),
            "{kind:?}"
        );
    }
    Ok(())
}
