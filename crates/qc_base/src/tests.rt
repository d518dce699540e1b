use crate::{
    Amount, Arg, Fact, Ids, Moment, Name, Reader, Recording, Text, put_text, put_u16, put_u32,
    put_u64, read_recording, write_recording,
};
use std::alloc::Global;
use std::test::Fail;

/// The recording of `Orders`, `Order`, Place("bolt", 4).
const SAMPLE: [u8; 36] = *b"\x06Orders\x05Order\x01\x05Place\x02\x01\x04bolt\x02\0\0\0\0\0\0\0\x04";

#[test]
fn names_have_a_letter_and_then_letters_digits_and_underscores(
    rt: HostRuntime,
) -> Result<(), Fail> {
    let table: [(&[u8], bool); 9] = [
        (b"Orders_4", true),
        (b"z", true),
        (b"abcdefghijklmnopqrstuvwxyz_ABCDE", true),
        (b"abcdefghijklmnopqrstuvwxyz_ABCDEF", false),
        (b"", false),
        (b"_a", false),
        (b"4a", false),
        (b"a-b", false),
        (b"a\xc3\xa9", false),
    ];
    for (bytes, expected) in table {
        assert_eq!(rt; Name::read(bytes).is_some(), expected, "at {bytes:?}");
    }
    let name = Name::read(b"till").ok_or("no name")?;
    assert_eq!(rt; name.as_bytes(), b"till".as_slice());
    Ok(())
}

#[test]
fn texts_are_utf8_without_control_characters(rt: HostRuntime) -> Result<(), Fail> {
    let table: [(&[u8], bool); 9] = [
        (b"b\"o l\\t~", true),
        (b"\xc3\xa9\xe2\x82\xac", true),
        (&[b'a'; 64], true),
        (&[b'a'; 65], false),
        (b"", false),
        (b"a\x1fb", false),
        (b"a\x7fb", false),
        (b"a\xc3", false),
        (b"\xff", false),
    ];
    for (bytes, expected) in table {
        assert_eq!(rt; Text::read(bytes).is_some(), expected, "at {bytes:?}");
    }
    let text = Text::read(b"drawer").ok_or("no text")?;
    assert_eq!(rt; text.as_bytes(), b"drawer".as_slice());
    Ok(())
}

/// Whether the bytes begin with the spelling of a recording of so many bytes.
fn begins_with(alloc: Global, bytes: &[u8], size: usize) -> Result<bool, Fail> {
    let found = read_recording(alloc, bytes)?;
    Ok(found.is_some_and(|(_, read)| read == size))
}

fn is_sample(recording: &Recording) -> bool {
    let [call] = recording.calls.as_slice() else {
        return false;
    };
    let [Arg::Text(text), Arg::Whole(amount)] = call.args.as_slice() else {
        return false;
    };
    recording.app.as_bytes() == b"Orders".as_slice()
        && recording.component.as_bytes() == b"Order".as_slice()
        && call.method.as_bytes() == b"Place".as_slice()
        && text.as_bytes() == b"bolt".as_slice()
        && amount.get() == 4
}

#[test]
fn the_recording_of_one_call_has_36_bytes(rt: HostRuntime) -> Result<(), Fail> {
    let alloc = rt.alloc();
    let (recording, size) = read_recording(alloc, &SAMPLE)?.ok_or("no recording")?;
    assert_eq!(rt; size, 36);
    assert!(rt; is_sample(&recording));
    let bytes = write_recording(alloc, &recording)?;
    assert_eq!(rt; bytes.as_slice(), &SAMPLE[..]);
    let bytes = [&SAMPLE[..], b"\xff"].concat(alloc)?;
    assert!(rt; begins_with(alloc, &bytes, 36)?);
    assert!(rt; read_recording(alloc, &SAMPLE[..35])?.is_none());
    Ok(())
}

#[test]
fn bad_bytes_begin_with_no_recording(rt: HostRuntime) -> Result<(), Fail> {
    let alloc = rt.alloc();
    let table: [(&str, &[u8]); 10] = [
        ("nothing", b""),
        ("cut short in a name", b"\x01A\x03Or"),
        (
            "cut short in an amount",
            b"\x01A\x01C\x01\x01m\x01\x02\0\0\0\0\0\0\0",
        ),
        ("an application that is no name", b"\x02A-\x01C\x01\x01m\0"),
        (
            "a text that isn't UTF-8",
            b"\x01A\x01C\x01\x01m\x01\x01\x01\xff",
        ),
        (
            "a text with a control character",
            b"\x01A\x01C\x01\x01m\x01\x01\x01\n",
        ),
        (
            "an amount past 10^15",
            b"\x01A\x01C\x01\x01m\x01\x02\0\x03\x8d\x7e\xa4\xc6\x80\x01",
        ),
        ("no calls", b"\x01A\x01C\0\x01m\0"),
        (
            "an argument of no kind",
            b"\x01A\x01C\x01\x01m\x01\x03\x01a",
        ),
        ("a call without a name", b"\x01A\x01C\x01\0\0"),
    ];
    for (fault, bytes) in table {
        assert!(rt; read_recording(alloc, bytes)?.is_none(), "at {fault}");
    }
    assert!(rt;
        begins_with(
            alloc,
            b"\x01A\x01C\x01\x01m\x01\x02\0\x03\x8d\x7e\xa4\xc6\x80\0",
            17
        )?
    );
    Ok(())
}

/// A recording of so many calls with so many arguments each, every one the number 0.
fn zeros(alloc: Global, calls: u8, args: u8) -> Result<Vec<u8>, Fail> {
    let mut bytes = Vec::from_slice(alloc, b"\x01A\x01C")?;
    bytes.push(calls)?;
    for _ in 0..calls {
        bytes.extend_from_slice(b"\x01m")?;
        bytes.push(args)?;
        for _ in 0..args {
            bytes.extend_from_slice(b"\x02\0\0\0\0\0\0\0\0")?;
        }
    }
    Ok(bytes)
}

/// A recording of 62 calls whose spelling has 16,363 bytes more than its last text, of so many bytes.
fn long(alloc: Global, last: u8) -> Result<Vec<u8>, Fail> {
    let mut bytes = Vec::from_slice(alloc, b"\x01A\x01C\x3e")?;
    for _ in 0..61 {
        bytes.extend_from_slice(b"\x01m\x04")?;
        for _ in 0..4 {
            bytes.extend_from_slice(b"\x01\x40")?;
            bytes.extend_from_slice(&[b'a'; 64])?;
        }
    }
    bytes.extend_from_slice(b"\x01m\x02\x01\x40")?;
    bytes.extend_from_slice(&[b'a'; 64])?;
    bytes.push(1)?;
    bytes.push(last)?;
    for _ in 0..last {
        bytes.push(b'a')?;
    }
    Ok(bytes)
}

#[test]
fn a_recording_has_limits(rt: HostRuntime) -> Result<(), Fail> {
    let alloc = rt.alloc();
    assert!(rt; begins_with(alloc, &zeros(alloc, 64, 1)?, 773)?);
    assert!(rt; begins_with(alloc, &zeros(alloc, 1, 16)?, 152)?);
    assert!(rt; read_recording(alloc, &zeros(alloc, 65, 1)?)?.is_none());
    assert!(rt; read_recording(alloc, &zeros(alloc, 1, 17)?)?.is_none());
    assert!(rt; begins_with(alloc, &long(alloc, 21)?, 16384)?);
    assert!(rt; read_recording(alloc, &long(alloc, 22)?)?.is_none());
    Ok(())
}

#[test]
fn numbers_have_their_highest_byte_first(rt: HostRuntime) -> Result<(), Fail> {
    let alloc = rt.alloc();
    let mut bytes = Vec::with_capacity(alloc, 17)?;
    put_u16(&mut bytes, 36);
    put_u32(&mut bytes, 65_536);
    put_u64(&mut bytes, 1_000_000_000_000);
    put_text(&mut bytes, &Text::read(b"nu").ok_or("no text")?);
    let expected = b"\0\x24\0\x01\0\0\0\0\0\xe8\xd4\xa5\x10\0\x02nu";
    assert_eq!(rt; bytes.as_slice(), expected.as_slice());
    let mut reader = Reader::over(&bytes);
    assert_eq!(rt; reader.read_u16(), Some(36));
    assert_eq!(rt; reader.read_u32(), Some(65_536));
    assert_eq!(rt; reader.read_moment(), Moment::new(1_000_000_000_000));
    assert_eq!(rt; reader.read_text(), Text::read(b"nu"));
    assert_eq!(rt; reader.len(), 0);
    assert_eq!(rt; reader.read_byte(), None);
    Ok(())
}

fn copies_a_fact(alloc: Global) -> Result<bool, Fail> {
    let app = Name::read(b"Orders").ok_or("no name")?;
    let ids = Ids::over(vec![in alloc; 3, 1]?);
    let fact = Fact::Moved(app, 6, Moment::clamp(9), ids);
    Ok(match fact.copy(alloc)? {
        Fact::Moved(_, queue, _, ids) => queue == 6 && ids.as_slice() == [3, 1].as_slice(),
        _ => false,
    })
}

#[test]
fn what_owns_memory_is_copied(rt: HostRuntime) -> Result<(), Fail> {
    let alloc = rt.alloc();
    assert!(rt; copies_a_fact(alloc)?);
    Ok(())
}

#[test]
fn numbers_have_a_range(rt: HostRuntime) {
    assert!(rt; Amount::new(1_000_000_000_000_000).is_some());
    assert!(rt; Amount::new(1_000_000_000_000_001).is_none());
    assert!(rt; Moment::new(1_000_000_000_001).is_none());
    assert_eq!(rt; Moment::clamp(u64::MAX).get(), 1_000_000_000_000);
}
