use crate::{Entries, Names, Param, ParamKind, Params, Script, ScriptError, parse_script, rows_of};
use qc_base::{Amount, Arg, Name, NoMemory, Row, Space, Text};
use std::alloc::Global;
use std::test::Fail;

/// The line at fault, or 0, and a script in which `|` stands for the end of a line.
const CASES: &str = "\
0 \n\
0 |\n\
0 fail\n\
0 fail|\n\
0 need stock[item] >= qty\n\
0 need 1 < 2|need 1 <= 2|need 1 = 1|need 1 != 2|need 2 >= 1|need 2 > 1\n\
0 when stock[\"a b\"] = 0|fail\n\
0 add stock[item] 1 + qty - 3 + stock[\"x\"]\n\
0 sub stock[item] qty|set sold[\"two  spaces\"] 0|move stock[item] sold[item] qty\n\
0 out till[\"drawer\"] += qty|out post[item] -= stock[item]|retract till|abort\n\
0    add   stock[item]    1   -   qty  |  |   fail\n\
0 # anything [\"|   # more | fail\n\
0 need 0 + 1000000000000000 = 1000000000000000\n\
0 add stock[\"#\"] 1\n\
0 when 1 = 1||# between|fail\n\
0 add both[item] 1|out both[item] += 1\n\
1 frob\n\
1 Fail\n\
2 # x|frob\n\
3 ||frob\n\
1 fail now\n\
1 need\n\
1 need 1\n\
1 need 1 =\n\
1 need = 1\n\
1 need 1 == 1\n\
1 need 1 = 1 = 1\n\
1 need 1=1\n\
1 need 1 + 1 + 1 + 1 + 1 = 5\n\
1 add stock[item]\n\
1 add stock[item] 1 2\n\
1 add stock[item] 1 +\n\
1 add stock[item] - 1\n\
1 add stock[item] 1 + - 1\n\
1 add stock[item] 1 +qty\n\
1 add stock[item] 1000000000000001\n\
1 add stock[item] 18446744073709551617\n\
1 add stock[item] 01\n\
1 add stock[item] 00\n\
1 add stock[item] -1\n\
1 add stock[item] 1x\n\
1 add stock[item] item\n\
1 add stock[qty] 1\n\
1 add stock[it] 1\n\
1 add shelf[item] 1\n\
1 add till[item] 1\n\
1 add stock [item] 1\n\
1 add stock[ item] 1\n\
1 add stock[item ] 1\n\
1 add stock[item]x 1\n\
1 add stock[] 1\n\
1 add stock[\"\"] 1\n\
1 add stock[\"a] 1\n\
1 add stock[a\"] 1\n\
1 add stock[\"a\"b\"] 1\n\
1 add stock[\"a\\b\"] 1\n\
1 add stock 1\n\
1 add\tstock[item] 1\n\
1 \tfail\n\
1 \t\n\
1 fail\r|fail\n\
0 add item[item] 1\n\
1 need till[\"drawer\"] = 1\n\
1 out stock[item] += 1\n\
1 out till[item] + 1\n\
1 out till[item] 1\n\
1 move stock[item] 1\n\
1 move stock[item] till[item] 1\n\
1 retract stock\n\
1 retract till post\n\
1 retract till[item]\n\
1 when 1 = 1\n\
1 when 1 = 1|| # \n\
1 when 1 = 1|when 1 = 1|fail\n\
2 when 1 = 1|frob\n\
2 fail|when 1 = 1|# end\n\
2 fail|when 1 = 1|when 1 = 1|frob\n\
3 when 1 = 1|fail|when 1 = 1";

/// The rows that a script names with the arguments bolt and 4, behind a row that is there before, and the script, in
/// which `|` stands for the end of a line. An outside row has a `!`.
const ROWS: &str = "\
stock[nut] ;\n\
stock[nut] ;fail|abort|retract till\n\
stock[nut] stock[bolt] ;need stock[item] >= qty|add stock[item] 1\n\
stock[nut] sold[bolt] stock[bolt] ;need 1 = sold[item] + stock[\"bolt\"]\n\
stock[nut] sold[x] sold[y] sold[z] ;move sold[\"x\"] sold[\"y\"] sold[\"z\"]\n\
stock[nut] till[drawer]! sold[bolt] ;out till[\"drawer\"] += sold[item]|retract till\n\
stock[nut] sold[a b] stock[c] ;when 1 = 2|set sold[\"a b\"] 1|sub stock[\"c\"] 1\n\
stock[nut] sold[d] stock[e] ;when sold[\"d\"] = stock[\"e\"]|fail\n\
stock[nut] both[bolt] both[bolt]! ;add both[item] 1|out both[item] -= 1|add stock[\"nut\"] 1";

fn name(bytes: &[u8]) -> Result<Name, Fail> {
    Ok(Name::read(bytes).ok_or("no name")?)
}

fn names(alloc: Global) -> Result<Names, Fail> {
    let tables = vec![in alloc;
        name(b"stock")?,
        name(b"sold")?,
        name(b"both")?,
        name(b"item")?,
    ]?;
    let resources = vec![in alloc; name(b"till")?, name(b"post")?, name(b"both")?]?;
    Ok(Names {
        tables: Entries::over(tables),
        resources: Entries::over(resources),
    })
}

fn read(alloc: Global, text: &[u8]) -> Result<Result<Script, ScriptError>, Fail> {
    let params = [
        Param {
            name: name(b"item")?,
            kind: ParamKind::Text,
        },
        Param {
            name: name(b"qty")?,
            kind: ParamKind::Whole,
        },
    ];
    let names = names(alloc)?;
    Ok(parse_script(alloc, text, &params, &names))
}

/// The line at fault, or 0 for a script.
fn fault(alloc: Global, text: &[u8]) -> Result<u32, Fail> {
    match read(alloc, text)? {
        Ok(_) => Ok(0),
        Err(ScriptError::BadLine(line)) => Ok(line),
        Err(ScriptError::NoMemory) => Ok(4_294_967_295),
    }
}

fn with_lines(alloc: Global, case: &[u8]) -> Result<Vec<u8>, Fail> {
    let mut text = Vec::new(alloc);
    for byte in case {
        text.push(if *byte == b'|' { b'\n' } else { *byte })?;
    }
    Ok(text)
}

#[test]
fn the_first_line_at_fault_is_told(rt: HostRuntime) -> Result<(), Fail> {
    let alloc = rt.alloc();
    for case in CASES.lines() {
        let (line, script) = case.split_once(' ').ok_or("no case")?;
        let text = with_lines(alloc, script.as_bytes())?;
        assert_eq!(rt;
            fault(alloc, text.as_slice())?,
            line.parse::<u32>()?,
            "at {case}"
        );
    }
    Ok(())
}

fn repeated(alloc: Global, line: &[u8], times: usize) -> Result<Vec<u8>, Fail> {
    let mut text = Vec::new(alloc);
    for _ in 0..times {
        text.extend_from_slice(line)?;
    }
    Ok(text)
}

#[test]
fn a_script_has_32_steps_and_4096_bytes(rt: HostRuntime) -> Result<(), Fail> {
    let alloc = rt.alloc();
    let table: [(&[u8], usize, u32); 6] = [
        (b"fail\n", 32, 0),
        (b"fail\n", 33, 33),
        (b"\n#\nfail\n", 33, 99),
        (b"#\n", 2048, 0),
        (b"#", 4096, 0),
        (b"#", 4097, 1),
    ];
    for (line, times, expected) in table {
        let text = repeated(alloc, line, times)?;
        assert_eq!(rt;
            fault(alloc, text.as_slice())?,
            expected,
            "at {line:?} {times}"
        );
    }
    Ok(())
}

#[test]
fn a_when_in_the_32nd_step_has_none_to_skip(rt: HostRuntime) -> Result<(), Fail> {
    let alloc = rt.alloc();
    let table: [(usize, u32); 2] = [(30, 0), (31, 33)];
    for (steps, expected) in table {
        let front = repeated(alloc, b"fail\n", steps)?;
        let text = [front.as_slice(), b"when 1 = 1\nfail".as_slice()].concat(alloc)?;
        assert_eq!(rt; fault(alloc, text.as_slice())?, expected, "at {steps}");
    }
    Ok(())
}

#[test]
fn a_constant_is_utf8(rt: HostRuntime) -> Result<(), Fail> {
    let alloc = rt.alloc();
    assert_eq!(rt; fault(alloc, b"set stock[\"\xc3\xa9\"] 0")?, 0);
    assert_eq!(rt; fault(alloc, b"set stock[\"\xc3\"] 0")?, 1);
    Ok(())
}

#[test]
fn a_constant_has_64_bytes(rt: HostRuntime) -> Result<(), Fail> {
    let alloc = rt.alloc();
    let table: [(usize, u32); 2] = [(64, 0), (65, 1)];
    for (bytes, expected) in table {
        let key = repeated(alloc, b"k", bytes)?;
        let text = [b"set stock[\"".as_slice(), key.as_slice(), b"\"] 0"].concat(alloc)?;
        assert_eq!(rt; fault(alloc, text.as_slice())?, expected, "at {bytes}");
    }
    Ok(())
}

#[test]
fn a_script_tells_its_outside_steps(rt: HostRuntime) -> Result<(), Fail> {
    let alloc = rt.alloc();
    let text =
        b"retract post\nout till[item] += 1\nwhen 1 = 2\nout post[item] -= 1\nretract till\n";
    let Ok(script) = read(alloc, text)? else {
        return Err(Fail::from("no script"));
    };
    assert_eq!(rt; script.steps().len(), 5);
    assert_eq!(rt; script.outs(), 2);
    assert_eq!(rt; script.effects(), 4);
    let resources = script.resources();
    assert_eq!(rt; resources.len(), 2);
    assert_eq!(rt; resources[0].as_bytes(), b"post".as_slice());
    assert_eq!(rt; resources[1].as_bytes(), b"till".as_slice());
    Ok(())
}

fn put_row(text: &mut Vec<u8>, row: &Row) -> Result<(), NoMemory> {
    let Ok(()) = text.extend_from_slice(row.name.as_bytes()) else {
        return Err(NoMemory);
    };
    let Ok(()) = text.push(b'[') else {
        return Err(NoMemory);
    };
    let Ok(()) = text.extend_from_slice(row.key.as_bytes()) else {
        return Err(NoMemory);
    };
    let end = match row.space {
        Space::Inside => b"] ".as_slice(),
        Space::Outside => b"]! ".as_slice(),
    };
    match text.extend_from_slice(end) {
        Ok(()) => Ok(()),
        Err(_) => Err(NoMemory),
    }
}

fn spelled(alloc: Global, rows: &[Row]) -> Result<Vec<u8>, NoMemory> {
    let mut text = Vec::new(alloc);
    for row in rows {
        put_row(&mut text, row)?;
    }
    Ok(text)
}

fn text(bytes: &[u8]) -> Result<Text, Fail> {
    Ok(Text::read(bytes).ok_or("no text")?)
}

fn named(alloc: Global, script: &Script) -> Result<Vec<Row>, Fail> {
    let args = [
        Arg::Text(text(b"bolt")?),
        Arg::Whole(Amount::new(4).ok_or("no amount")?),
    ];
    let nut = Row {
        space: Space::Inside,
        name: name(b"stock")?,
        key: text(b"nut")?,
    };
    let mut rows = vec![in alloc; nut]?;
    rows_of(alloc, script, &args, &mut rows)?;
    Ok(rows)
}

#[test]
fn rows_are_named_in_the_order_first_met(rt: HostRuntime) -> Result<(), Fail> {
    let alloc = rt.alloc();
    for case in ROWS.lines() {
        let (expected, script) = case.split_once(';').ok_or("no case")?;
        let text = with_lines(alloc, script.as_bytes())?;
        let Ok(script) = read(alloc, text.as_slice())? else {
            return Err(Fail::from("no script"));
        };
        let rows = named(alloc, &script)?;
        let found = spelled(alloc, rows.as_slice())?;
        assert_eq!(rt; found.as_slice(), expected.as_bytes(), "at {case}");
    }
    Ok(())
}

#[test]
fn parameters_are_copied(rt: HostRuntime) -> Result<(), Fail> {
    let alloc = rt.alloc();
    let item = Param {
        name: name(b"item")?,
        kind: ParamKind::Text,
    };
    let params = Params::over(vec![in alloc; item]?);
    let copy = params.copy(alloc)?;
    assert_eq!(rt; copy.as_slice().len(), 1);
    assert!(rt;
        matches!(
            copy.as_slice(),
            [Param {
                kind: ParamKind::Text,
                ..
            }]
        )
    );
    assert_eq!(rt; copy.as_slice()[0].name.as_bytes(), b"item".as_slice());
    Ok(())
}
