// Calls are written as lines here: the method, and for each argument `t` and a text, `w` and a number, or `o`.
use crate::{RecordError, Recorder, fits, record_calls, unpack};
use qc_base::{Arg, NoMemory, Recording, Word};
use qc_catalogue::{Catalogue, sample};
use qc_protocol::{RawArg, RawArgs, RawCall, Refusal};
use std::alloc::Global;
use std::test::Fail;

/// A method of the sample's component `Plain` with sixteen texts.
const SIXTEEN_TEXTS: &str = "\n[application.Orders.component.Plain.method.M]\n\
params = [\"in a text\", \"in b text\", \"in c text\", \"in d text\", \"in e text\", \"in f text\", \"in g text\", \
\"in h text\", \"in i text\", \"in j text\", \"in k text\", \"in l text\", \"in m text\", \"in n text\", \"in o text\", \
\"in p text\"]\nscript = \"\"\n";

/// The recording of `Orders`, `Order`, Place("bolt", 4).
const SAMPLE: [u8; 36] = *b"\x06Orders\x05Order\x01\x05Place\x02\x01\x04bolt\x02\0\0\0\0\0\0\0\x04";

/// Calls that `Orders`, `Order` doesn't take, each behind the place of its argument at fault, or 0 where the method is
/// unknown.
const UNFIT: &str = "0 Nil\n\
0 Undo w1\n\
0 \n\
1 Place\n\
1 Place t w4\n\
1 Place w4\n\
1 Place o o o\n\
2 Place tbolt\n\
2 Place tbolt w1000000000000001\n\
2 Place tbolt t4\n\
3 Place tbolt w4 o\n\
2 Notify w4 tbolt\n";

fn read_catalogue(alloc: Global, more: &str) -> Result<Catalogue, NoMemory> {
    let mut text = Vec::from_slice(alloc, sample().as_bytes()).map_err(|_| NoMemory)?;
    text.extend_from_slice(more.as_bytes())
        .map_err(|_| NoMemory)?;
    Catalogue::read(alloc, text.as_slice()).map_err(|_| NoMemory)
}

fn word(alloc: Global, text: &str) -> Result<Word, NoMemory> {
    let bytes = Vec::from_slice(alloc, text.as_bytes()).map_err(|_| NoMemory)?;
    Ok(Word::over(bytes))
}

fn raw_arg(alloc: Global, given: &str) -> Result<RawArg, NoMemory> {
    if let Some(text) = given.strip_prefix("t") {
        return Ok(RawArg::Text(word(alloc, text)?));
    }
    let digits = given.strip_prefix("w").unwrap_or("");
    match digits.parse::<u64>() {
        Ok(number) => Ok(RawArg::Whole(number)),
        Err(_) => Ok(RawArg::Other),
    }
}

fn raw_call(alloc: Global, line: &str) -> Result<RawCall, NoMemory> {
    let mut words = line.split(' ');
    let method = word(alloc, words.next().unwrap_or(""))?;
    let mut args = Vec::new(alloc);
    for given in words {
        let arg = raw_arg(alloc, given)?;
        args.push(arg).map_err(|_| NoMemory)?;
    }
    Ok(RawCall {
        method,
        args: RawArgs::over(args),
    })
}

/// A call of `M` with sixteen texts of 64 bytes.
fn call_of_texts(alloc: Global) -> Result<RawCall, NoMemory> {
    let method = word(alloc, "M")?;
    let mut args = Vec::new(alloc);
    for _ in 0..16 {
        let text = "abcdefghijklmnopabcdefghijklmnopabcdefghijklmnopabcdefghijklmnop";
        args.push(RawArg::Text(word(alloc, text)?))
            .map_err(|_| NoMemory)?;
    }
    Ok(RawCall {
        method,
        args: RawArgs::over(args),
    })
}

/// The refusal that an error is.
fn refusal(error: Option<RecordError>) -> Option<Refusal> {
    match error {
        Some(RecordError::Refused(refusal)) => Some(refusal),
        _ => None,
    }
}

/// Why a recorder isn't begun.
fn unbegun(alloc: Global, catalogue: &Catalogue, app: &str, component: &str) -> Option<Refusal> {
    let begun = Recorder::begin(alloc, catalogue, app.as_bytes(), component.as_bytes());
    refusal(begun.err())
}

#[test]
fn an_application_or_component_that_is_not_there_is_refused(rt: HostRuntime) -> Result<(), Fail> {
    let alloc = rt.alloc();
    let catalogue = read_catalogue(alloc, "")?;
    assert_eq!(rt;
        unbegun(alloc, &catalogue, "Order", "Order"),
        Some(Refusal::UnknownApp)
    );
    assert_eq!(rt;
        unbegun(alloc, &catalogue, "Order", "None"),
        Some(Refusal::UnknownApp)
    );
    assert_eq!(rt;
        unbegun(alloc, &catalogue, "Orders", "None"),
        Some(Refusal::UnknownComponent)
    );
    assert_eq!(rt;
        unbegun(alloc, &catalogue, "Orders", ""),
        Some(Refusal::UnknownComponent)
    );
    assert_eq!(rt; unbegun(alloc, &catalogue, "Orders", "Order"), None);
    Ok(())
}

/// A recorder without calls.
fn begun(alloc: Global, catalogue: &Catalogue, component: &str) -> Option<Recorder> {
    Recorder::begin(alloc, catalogue, b"Orders", component.as_bytes()).ok()
}

/// Whether a call is refused for the argument at a place, or for its method where that is 0, and isn't held.
fn is_refused(alloc: Global, catalogue: &Catalogue, place: &str, call: &str) -> Option<bool> {
    let mut recorder = begun(alloc, catalogue, "Order")?;
    let call = raw_call(alloc, call).ok()?;
    let found = refusal(recorder.add(alloc, catalogue, &call).err());
    let expected = match place.parse::<u64>() {
        Ok(place) if place > 0 => Refusal::BadArguments(1, place),
        _ => Refusal::UnknownMethod(1),
    };
    Some(found == Some(expected) && recorder.count() == 0)
}

#[test]
fn a_call_that_does_not_fit_is_refused_by_place(rt: HostRuntime) -> Result<(), Fail> {
    let alloc = rt.alloc();
    let catalogue = read_catalogue(alloc, "")?;
    for line in UNFIT.lines() {
        let (place, call) = line.split_once(' ').unwrap_or(("", ""));
        let refused = is_refused(alloc, &catalogue, place, call).ok_or("no memory")?;
        assert!(rt; refused, "at {line}");
    }
    Ok(())
}

/// How often a call can be recorded, and the refusal after it.
fn filled(
    alloc: Global,
    catalogue: &Catalogue,
    recorder: &mut Recorder,
    call: &RawCall,
) -> Option<Refusal> {
    for _ in 0..70 {
        match recorder.add(alloc, catalogue, call) {
            Ok(_) => {}
            Err(error) => return refusal(Some(error)),
        }
    }
    None
}

#[test]
fn a_recorder_holds_64_calls(rt: HostRuntime) -> Result<(), Fail> {
    let alloc = rt.alloc();
    let catalogue = read_catalogue(alloc, "")?;
    let mut recorder = begun(alloc, &catalogue, "Order").ok_or("not begun")?;
    let call = raw_call(alloc, "Notify w1")?;
    let full = filled(alloc, &catalogue, &mut recorder, &call);
    assert_eq!(rt; full, Some(Refusal::TooManyCalls));
    let unknown = raw_call(alloc, "Nil")?;
    let found = filled(alloc, &catalogue, &mut recorder, &unknown);
    assert_eq!(rt; found, Some(Refusal::UnknownMethod(65)));
    assert_eq!(rt; recorder.count(), 64);
    assert_eq!(rt; recorder.size(), 14 + 64 * 17);
    assert!(rt; fits(&catalogue, recorder.recording()));
    Ok(())
}

#[test]
fn the_sixteenth_call_of_sixteen_texts_is_too_long(rt: HostRuntime) -> Result<(), Fail> {
    let alloc = rt.alloc();
    let catalogue = read_catalogue(alloc, SIXTEEN_TEXTS)?;
    let mut recorder = begun(alloc, &catalogue, "Plain").ok_or("not begun")?;
    let call = call_of_texts(alloc)?;
    let full = filled(alloc, &catalogue, &mut recorder, &call);
    assert_eq!(rt; full, Some(Refusal::TooLong(16958)));
    assert_eq!(rt; recorder.count(), 15);
    assert_eq!(rt; recorder.size(), 15899);
    Ok(())
}

/// Whether the recording is that of `Orders`, `Order`, Place("bolt", 4).
fn is_sample(recording: &Recording) -> bool {
    let [call] = recording.calls.as_slice() else {
        return false;
    };
    let [Arg::Text(text), Arg::Whole(amount)] = call.args.as_slice() else {
        return false;
    };
    recording.app.as_bytes() == b"Orders".as_slice()
        && recording.component.as_bytes() == b"Order".as_slice()
        && call.method.as_bytes() == b"Place".as_slice()
        && text.as_bytes() == b"bolt".as_slice()
        && amount.get() == 4
}

/// The recorder of a list of calls, one a line, on `Orders`, `Order`.
fn recorded(alloc: Global, catalogue: &Catalogue, lines: &str) -> Result<Recorder, RecordError> {
    let mut calls = Vec::new(alloc);
    for line in lines.lines() {
        let call = raw_call(alloc, line)?;
        calls.push(call).map_err(|_| NoMemory)?;
    }
    record_calls(alloc, catalogue, b"Orders", b"Order", calls.as_slice())
}

/// The same, where no call is refused.
fn held(alloc: Global, catalogue: &Catalogue, lines: &str) -> Option<Recorder> {
    recorded(alloc, catalogue, lines).ok()
}

/// The refusal of such a list.
fn refused(alloc: Global, catalogue: &Catalogue, lines: &str) -> Option<Refusal> {
    refusal(recorded(alloc, catalogue, lines).err())
}

/// The recording and its spelling, where a call is held.
fn packed(alloc: Global, recorder: Recorder) -> Option<(Recording, Vec<u8>)> {
    if recorder.count() == 0 {
        return None;
    }
    recorder.pack(alloc).ok()
}

#[test]
fn a_list_of_calls_is_recorded_and_packed(rt: HostRuntime) -> Result<(), Fail> {
    let alloc = rt.alloc();
    let catalogue = read_catalogue(alloc, "")?;
    let recorder = held(alloc, &catalogue, "Place tbolt w4").ok_or("refused")?;
    assert_eq!(rt; recorder.count(), 1);
    assert_eq!(rt; recorder.size(), 36);
    let (recording, bytes) = packed(alloc, recorder).ok_or("not packed")?;
    assert_eq!(rt; bytes.as_slice(), &SAMPLE[..]);
    assert!(rt; is_sample(&recording));
    let none = held(alloc, &catalogue, "").ok_or("refused")?;
    let none = none.into_recording();
    assert_eq!(rt; none.calls.as_slice().len(), 0);
    let found = refused(alloc, &catalogue, "Notify w1\nPlace tbolt\nNil");
    assert_eq!(rt; found, Some(Refusal::BadArguments(2, 2)));
    Ok(())
}

#[test]
fn only_a_whole_spelling_is_unpacked(rt: HostRuntime) -> Result<(), Fail> {
    let alloc = rt.alloc();
    let read = unpack(alloc, &SAMPLE)?.ok_or("no recording")?;
    assert!(rt; is_sample(&read));
    assert!(rt; unpack(alloc, &SAMPLE[..35])?.is_none());
    let mut longer = Vec::from_slice(alloc, &SAMPLE)?;
    longer.push(255)?;
    assert!(rt; unpack(alloc, longer.as_slice())?.is_none());
    Ok(())
}

/// Whether the bytes spell a recording that fits.
fn spelled_fits(alloc: Global, catalogue: &Catalogue, bytes: &[u8]) -> Result<bool, NoMemory> {
    match unpack(alloc, bytes)? {
        Some(recording) => Ok(fits(catalogue, &recording)),
        None => Err(NoMemory),
    }
}

#[test]
fn recordings_fit_the_catalogue_that_has_their_calls(rt: HostRuntime) -> Result<(), Fail> {
    let alloc = rt.alloc();
    let catalogue = read_catalogue(alloc, "")?;
    let table: [(&[u8], bool); 8] = [
        (&SAMPLE, true),
        (
            b"\x06Orders\x05Order\x01\x06Notify\x01\x02\0\0\0\0\0\0\0\x04",
            true,
        ),
        (
            b"\x05Order\x05Order\x01\x06Notify\x01\x02\0\0\0\0\0\0\0\x04",
            false,
        ),
        (
            b"\x06Orders\x05Plain\x01\x06Notify\x01\x02\0\0\0\0\0\0\0\x04",
            false,
        ),
        (
            b"\x06Orders\x01P\x01\x06Notify\x01\x02\0\0\0\0\0\0\0\x04",
            false,
        ),
        (b"\x06Orders\x05Order\x01\x06Notify\x01\x01\x01a", false),
        (b"\x06Orders\x05Order\x01\x06Notify\0", false),
        (
            b"\x06Orders\x05Order\x02\x06Notify\x01\x02\0\0\0\0\0\0\0\x04\x06Notify\x02\x02\0\0\0\0\0\0\0\x04\x01\x01a",
            false,
        ),
    ];
    for (bytes, expected) in table {
        let found = spelled_fits(alloc, &catalogue, bytes)?;
        assert_eq!(rt; found, expected, "at {bytes:?}");
    }
    Ok(())
}
