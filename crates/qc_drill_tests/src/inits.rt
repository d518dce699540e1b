// The making of a site by its word.
use super::*;
use crate::texts::*;
use std::test::Fail;

// The sample, in which the first of these texts behind the mark is another one.
fn changed(alloc: Global, mark: &str, old: &str, new: &str) -> Result<Vec<u8>, Fail> {
    let (before, marked) = sample().split_once(mark).unwrap_or(("", ""));
    let (between, after) = marked.split_once(old).unwrap_or(("", ""));
    let mut text = Vec::from_slice(alloc, before.as_bytes())?;
    text.extend_from_slice(mark.as_bytes())?;
    text.extend_from_slice(between.as_bytes())?;
    text.extend_from_slice(new.as_bytes())?;
    text.extend_from_slice(after.as_bytes())?;
    Ok(text)
}

#[test]
fn a_text_makes_a_site_or_is_told_its_first_fault(rt: HostRuntime) -> Result<(), Fail> {
    let alloc = rt.alloc();
    let not_queueable = changed(
        alloc,
        "[application.Orders.component.Order.method.Place]",
        "in qty whole",
        "out qty whole",
    )?;
    let phase_missing = changed(alloc, "[resource.till]", "phases = 7", "phases = 3")?;
    let bad_script = changed(
        alloc,
        "[application.Orders.component.Order.method.Place]",
        "sub stock[item] qty",
        "sub stock[item]",
    )?;
    let table: [(Vec<u8>, Status, &[u8]); 8] = [
        (not_queueable, Status::BadCatalogue, NOT_QUEUEABLE),
        (phase_missing, Status::BadCatalogue, PHASE_MISSING),
        (bad_script, Status::BadCatalogue, BAD_SCRIPT),
        (Vec::new(alloc), Status::BadCatalogue, BAD_APPLICATION),
        (
            vec![in alloc; b'#'; 1_048_577]?,
            Status::BadCatalogue,
            TEXT_TOO_LONG,
        ),
        (
            joined(alloc, &[b"nonsense"])?,
            Status::BadCatalogue,
            NOT_TOML,
        ),
        (joined(alloc, &[sample().as_bytes()])?, Status::Done, b""),
        (
            joined(alloc, &[sample().as_bytes()])?,
            Status::AlreadyMade,
            b"",
        ),
    ];
    let mut site = MemSite::make(alloc)?;
    for (text, status, said) in table {
        let (ended, sink) = run_words(alloc, &mut site, &["init"], text, NOTHING)?;
        assert_eq!(rt; ended, status);
        assert_eq!(rt; sink.contents(), said);
    }
    let (status, sink) = drill(alloc, &mut site, &[SEND, EMPTY_ORDER, TILL, LIST])?;
    assert_eq!(rt; status, Status::Done);
    assert_eq!(rt;
        sink.contents(),
        joined(alloc, &[SENT_1, NO_MOMENT, TILL_SHOWN, LISTED_1])?.as_slice()
    );
    Ok(())
}

#[test]
fn a_making_whose_streams_fail_leaves_the_site(rt: HostRuntime) -> Result<(), Fail> {
    let alloc = rt.alloc();
    let table = [
        (
            sample().as_bytes(),
            Failing { read: 1, write: 0 },
            Status::SourceFault,
            Status::Done,
        ),
        (
            &b""[..],
            Failing { read: 0, write: 1 },
            Status::SinkFault,
            Status::Done,
        ),
        (
            sample().as_bytes(),
            NOTHING,
            Status::Done,
            Status::AlreadyMade,
        ),
    ];
    for (text, failing, status, again) in table {
        let mut site = MemSite::make(alloc)?;
        let input = joined(alloc, &[text])?;
        let (ended, _) = run_words(alloc, &mut site, &["init"], input, failing)?;
        assert_eq!(rt; ended, status);
        let input = joined(alloc, &[sample().as_bytes()])?;
        let (ended, sink) = run_words(alloc, &mut site, &["init"], input, NOTHING)?;
        assert_eq!(rt; (ended, sink.contents().len()), (again, 0));
    }
    Ok(())
}
