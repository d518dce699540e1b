use crate::{CallState, Effect, PlayRecord, run_call};
use qc_base::{Amount, Arg, Name, Row, Space, Text};
use qc_script::{Entries, Names, Param, ParamKind, Script, parse_script};
use std::alloc::Global;
use std::test::Fail;

/// The failing step or 0; then, after the call, the amounts of bolt and nut in stock, of bolt sold, and in the drawer,
/// and the effects; and a script, in which `|` stands for the end of a line. Before the call the amounts are 10, 3, 0
/// and 100. The arguments are \"bolt\" and 4.
const CASES: &str = "\
0 10 3 0 100 0|need stock[item] >= qty\n\
1 10 3 0 100 0|need stock[item] < qty\n\
0 10 3 0 100 0|need 1 < 2|need 2 <= 2|need 2 = 2|need 1 != 2|need 2 >= 2|need 3 > 2\n\
1 10 3 0 100 0|need 2 < 2\n\
1 10 3 0 100 0|need 3 <= 2\n\
1 10 3 0 100 0|need 1 = 2\n\
1 10 3 0 100 0|need 2 != 2\n\
1 10 3 0 100 0|need 1 >= 2\n\
1 10 3 0 100 0|need 2 > 2\n\
0 14 3 0 100 0|add stock[item] qty\n\
0 1000000000000000 3 0 100 0|add stock[item] 999999999999990\n\
1 10 3 0 100 0|add stock[item] 999999999999991\n\
0 0 3 0 100 0|sub stock[item] 10\n\
1 10 3 0 100 0|sub stock[item] 11\n\
0 7 3 0 100 0|set stock[item] 7\n\
1 10 3 0 100 0|set stock[item] 1 - 2\n\
1 10 3 0 100 0|set stock[item] 1000000000000000 + 1\n\
0 1000000000000000 3 0 100 0|set stock[item] 1000000000000000 + 1000000000000000 - 1000000000000000\n\
1 10 3 0 100 0|add stock[item] 1000000000000000 + 1000000000000000 + 1000000000000000 + 1000000000000000\n\
0 3 3 0 100 0|set stock[item] 10 - 4 - 3\n\
0 9 3 0 100 0|set stock[item] 0 - 1 + stock[item]\n\
0 0 3 10 100 0|move stock[item] sold[item] 10\n\
1 10 3 0 100 0|move stock[item] sold[item] 11\n\
2 10 3 0 100 0|set sold[item] 1000000000000000|move stock[item] sold[item] 1\n\
0 6 3 4 100 0|move stock[item] sold[item] stock[item] - 6\n\
1 10 3 0 100 0|move stock[item] stock[item] 11\n\
0 10 3 0 100 0|move stock[item] stock[item] 10\n\
0 0 3 10 100 0|when 1 = 2|fail|move stock[\"bolt\"] sold[\"bolt\"] 10\n\
3 10 3 0 100 0|when 1 = 2|fail|move stock[\"bolt\"] sold[\"bolt\"] 11\n\
0 9 3 0 100 0|when 1 = 1|sub stock[item] 1\n\
0 9 3 0 100 0|when 1 = 2|fail|sub stock[item] 1\n\
3 10 3 0 100 0|sub stock[item] 1|abort|fail\n\
0 10 3 0 104 1|out till[\"drawer\"] += qty\n\
0 10 3 0 96 1|out till[\"drawer\"] -= qty\n\
1 10 3 0 100 0|out till[\"drawer\"] -= 101\n\
0 10 3 0 100 1|out till[\"drawer\"] += 0\n\
1 10 3 0 100 0|out post[\"letters\"] += 1\n\
0 10 3 0 100 2|out till[\"drawer\"] += 4|retract till\n\
3 10 3 0 100 0|out till[\"drawer\"] += 4|retract till|retract till\n\
1 10 3 0 100 0|retract till\n\
0 10 3 0 101 3|out till[\"drawer\"] += 1|out till[\"drawer\"] += 2|retract till\n\
4 10 3 0 100 0|out till[\"drawer\"] += 1|sub stock[item] 1|retract till|fail\n\
0 10 3 0 100 0|abort\n\
0 10 3 0 100 0|";

fn name(bytes: &[u8]) -> Result<Name, Fail> {
    Ok(Name::read(bytes).ok_or("no name")?)
}

fn text(bytes: &[u8]) -> Result<Text, Fail> {
    Ok(Text::read(bytes).ok_or("no text")?)
}

fn amount(number: u64) -> Result<Amount, Fail> {
    Ok(Amount::new(number).ok_or("no amount")?)
}

fn script(alloc: Global, text: &[u8]) -> Result<Script, Fail> {
    let tables = vec![in alloc; name(b"stock")?, name(b"sold")?]?;
    let resources = vec![in alloc; name(b"till")?, name(b"post")?]?;
    let names = Names {
        tables: Entries::over(tables),
        resources: Entries::over(resources),
    };
    let params = [
        Param {
            name: name(b"item")?,
            kind: ParamKind::Text,
        },
        Param {
            name: name(b"qty")?,
            kind: ParamKind::Whole,
        },
    ];
    match parse_script(alloc, text, &params, &names) {
        Ok(script) => Ok(script),
        Err(_) => Err(Fail::from("no script")),
    }
}

fn row(space: Space, table: &[u8], key: &[u8]) -> Result<Row, Fail> {
    Ok(Row {
        space,
        name: name(table)?,
        key: text(key)?,
    })
}

fn state(alloc: Global) -> Result<CallState, Fail> {
    let rows = [
        (row(Space::Inside, b"stock", b"bolt")?, Some(amount(10)?)),
        (row(Space::Inside, b"stock", b"nut")?, Some(amount(3)?)),
        (row(Space::Inside, b"sold", b"bolt")?, Some(amount(0)?)),
        (row(Space::Outside, b"till", b"drawer")?, Some(amount(100)?)),
        (row(Space::Outside, b"post", b"letters")?, None),
    ];
    Ok(CallState::make(alloc, &rows, 64)?)
}

fn with_lines(alloc: Global, case: &[u8]) -> Result<Vec<u8>, Fail> {
    let mut text = Vec::new(alloc);
    for byte in case {
        text.push(if *byte == b'|' { b'\n' } else { *byte })?;
    }
    Ok(text)
}

fn amount_in(state: &CallState, place: usize) -> u64 {
    match state.view().get(place) {
        Some((_, Some(amount))) => amount.get(),
        _ => 0,
    }
}

fn played(alloc: Global, text: &[u8], state: &mut CallState) -> Result<u8, Fail> {
    let script = script(alloc, text)?;
    let args = [
        Arg::Text(Text::read(b"bolt").ok_or("no text")?),
        Arg::Whole(amount(4)?),
    ];
    if usize::from(script.effects()) > state.room() {
        return Err(Fail::from("no room"));
    }
    Ok(run_call(&script, &args, state).err().unwrap_or(0))
}

fn told(alloc: Global, step: u8, state: &CallState) -> Result<String, Fail> {
    let bolt = amount_in(state, 0);
    let nut = amount_in(state, 1);
    let sold = amount_in(state, 2);
    let drawer = amount_in(state, 3);
    let effects = state.effects().len();
    Ok(format!(in alloc; "{step} {bolt} {nut} {sold} {drawer} {effects}")?)
}

#[test]
fn each_step_changes_what_it_says_or_fails(rt: HostRuntime) -> Result<(), Fail> {
    let alloc = rt.alloc();
    for case in CASES.lines() {
        let (expected, script) = case.split_once('|').ok_or("no case")?;
        let text = with_lines(alloc, script.as_bytes())?;
        let mut state = state(alloc)?;
        let step = played(alloc, text.as_slice(), &mut state)?;
        let told = told(alloc, step, &state)?;
        assert_eq!(rt; told.as_str(), expected, "at {case}");
    }
    Ok(())
}

#[test]
fn effects_are_those_of_the_last_call_that_succeeded(rt: HostRuntime) -> Result<(), Fail> {
    let alloc = rt.alloc();
    let mut state = state(alloc)?;
    let step = played(alloc, b"out till[\"drawer\"] += 5\nabort\n", &mut state)?;
    assert_eq!(rt; step, 0);
    assert!(rt; state.forced());
    let step = played(alloc, b"out till[\"drawer\"] -= 5\nfail\n", &mut state)?;
    assert_eq!(rt; step, 2);
    assert!(rt; matches!(state.effects(), [Effect::Change { .. }]));
    assert_eq!(rt; state.records().len(), 1);
    let step = played(alloc, b"retract till\n", &mut state)?;
    assert_eq!(rt; step, 0);
    assert!(rt; matches!(state.effects(), [Effect::Retract { .. }]));
    assert_eq!(rt; amount_in(&state, 3), 100);
    let step = played(alloc, b"retract till\n", &mut state)?;
    assert_eq!(rt; step, 1);
    assert!(rt; state.forced());
    Ok(())
}

#[test]
fn a_call_that_fails_leaves_records_and_mark(rt: HostRuntime) -> Result<(), Fail> {
    let alloc = rt.alloc();
    let mut state = state(alloc)?;
    let step = played(
        alloc,
        b"out till[\"drawer\"] += 1\nabort\nfail\n",
        &mut state,
    )?;
    assert_eq!(rt; step, 3);
    assert!(rt; state.records().is_empty());
    assert!(rt; !state.forced());
    let step = played(alloc, b"out till[\"drawer\"] += 5\n", &mut state)?;
    assert_eq!(rt; step, 0);
    let step = played(alloc, b"retract till\nabort\nfail\n", &mut state)?;
    assert_eq!(rt; step, 3);
    assert!(rt;
        matches!(
            state.records(),
            [PlayRecord {
                forgotten: false,
                ..
            }]
        )
    );
    assert!(rt; !state.forced());
    assert_eq!(rt; amount_in(&state, 3), 105);
    Ok(())
}
