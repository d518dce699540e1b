use crate::OutsideAmounts;
use qc_base::{Amount, Name, NoMemory, Row, Space, Text};
use qc_catalogue::{Catalogue, sample};
use std::alloc::Global;
use std::test::Fail;

// The amounts of a text, where it is a catalogue and there is memory.
fn amounts_of(alloc: Global, text: &[u8]) -> Option<OutsideAmounts> {
    let Ok(catalogue) = Catalogue::read(alloc, text) else {
        return None;
    };
    OutsideAmounts::make(alloc, &catalogue).ok()
}

fn row(space: Space, resource: &str, key: &str) -> Result<Row, NoMemory> {
    Ok(Row {
        space,
        name: Name::read(resource.as_bytes()).ok_or(NoMemory)?,
        key: Text::read(key.as_bytes()).ok_or(NoMemory)?,
    })
}

// A row of a resource, with the amount that it is to have, where it is to be there.
type Wanted = (&'static str, &'static str, Option<u64>);

const OPENED: &[Wanted] = &[
    ("till", "drawer", Some(100)),
    ("post", "letters", Some(0)),
    ("till", "letters", None),
    ("stock", "bolt", None),
    ("none", "drawer", None),
];

const SETTLED: &[Wanted] = &[
    ("till", "drawer", Some(7)),
    ("post", "letters", Some(0)),
    ("till", "letters", None),
    ("none", "drawer", None),
];

// The first row whose amount isn't the wanted one, or the number of rows.
fn amounts_stand(amounts: &OutsideAmounts, rows: &[Wanted]) -> Result<usize, NoMemory> {
    for index in 0..rows.len() {
        let (resource, key, wanted) = rows[index];
        let row = row(Space::Outside, resource, key)?;
        if amounts
            .amount(&row.name, &row.key)
            .map(|amount| amount.get())
            != wanted
        {
            return Ok(index);
        }
    }
    Ok(rows.len())
}

#[test]
fn resources_open_with_the_rows_that_are_named(rt: HostRuntime) -> Result<(), Fail> {
    let alloc = rt.alloc();
    let amounts = amounts_of(alloc, sample().as_bytes()).ok_or("no amounts")?;
    assert_eq!(rt; amounts_stand(&amounts, OPENED)?, OPENED.len());
    let none = OutsideAmounts::none(alloc);
    assert_eq!(rt; amounts_stand(&none, &[("till", "drawer", None)])?, 1);
    Ok(())
}

#[test]
fn a_view_settles_its_outside_rows(rt: HostRuntime) -> Result<(), Fail> {
    let alloc = rt.alloc();
    let mut amounts = amounts_of(alloc, sample().as_bytes()).ok_or("no amounts")?;
    let drawer = row(Space::Outside, "till", "drawer")?;
    let letters = row(Space::Outside, "post", "letters")?;
    let unnamed = row(Space::Outside, "till", "letters")?;
    let elsewhere = row(Space::Outside, "none", "drawer")?;
    let inside = row(Space::Inside, "till", "drawer")?;
    let seven = Amount::new(7);
    let nine = Amount::new(9);
    amounts.apply_view(&[
        (drawer, seven),
        (inside, nine),
        (unnamed, nine),
        (elsewhere, nine),
        (letters, None),
    ]);
    assert_eq!(rt; amounts_stand(&amounts, SETTLED)?, SETTLED.len());
    Ok(())
}
