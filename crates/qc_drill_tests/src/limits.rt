// Lines and orders at their limits.
use super::*;
use crate::texts::*;
use std::test::Fail;

// A line of this byte alone.
fn line_of(alloc: Global, byte: u8, count: usize) -> Result<Vec<u8>, Fail> {
    let mut line = vec![in alloc; byte; count]?;
    line.push(b'\n')?;
    Ok(line)
}

// A line with spaces behind it, so many bytes in all.
fn padded(alloc: Global, line: &[u8], count: usize) -> Result<Vec<u8>, Fail> {
    let mut all = line.to_vec(alloc)?;
    for _ in line.len()..count {
        all.push(b' ')?;
    }
    all.push(b'\n')?;
    Ok(all)
}

// A send of so many calls without arguments.
fn line_of_calls(alloc: Global, count: usize) -> Result<Vec<u8>, Fail> {
    let mut line = Vec::new(alloc);
    line.extend_from_slice(
        b"{\"at\":0,\"do\":\"send\",\"app\":\"Orders\",\"component\":\"Plain\",\"calls\":[[\"Doom\"]",
    )?;
    for _ in 1..count {
        line.extend_from_slice(b",[\"Doom\"]")?;
    }
    line.extend_from_slice(b"]}\n")?;
    Ok(line)
}

#[test]
fn lines_and_orders_have_limits(rt: HostRuntime) -> Result<(), Fail> {
    let alloc = rt.alloc();
    let table: [(Vec<u8>, &[u8]); 7] = [
        (line_of(alloc, b'x', 65_536)?, NO_LINE),
        (line_of(alloc, b'x', 65_537)?, LINE_TOO_LONG),
        (line_of(alloc, b' ', 65_537)?, b""),
        (padded(alloc, LIST_UNENDED, 65_536)?, LISTED_NONE),
        (padded(alloc, LIST_UNENDED, 65_537)?, LINE_TOO_LONG),
        (line_of_calls(alloc, 64)?, SENT_1),
        (line_of_calls(alloc, 65)?, TOO_MANY_CALLS),
    ];
    for (line, reply) in table {
        let mut site = new_site(alloc)?;
        let (status, sink) = drill(alloc, &mut site, &[&line])?;
        assert_eq!(rt; status, Status::Done);
        assert_eq!(rt; sink.contents(), reply);
    }
    Ok(())
}
