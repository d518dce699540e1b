use crate::Tables;
use qc_base::{Amount, Name, NoMemory, Row, Space, Text};
use qc_catalogue::{Catalogue, lists_stand_in_order, sample};
use std::alloc::Global;
use std::test::Fail;

fn name(bytes: &str) -> Result<Name, NoMemory> {
    Name::read(bytes.as_bytes()).ok_or(NoMemory)
}

fn text(bytes: &str) -> Result<Text, NoMemory> {
    Text::read(bytes.as_bytes()).ok_or(NoMemory)
}

fn row(space: Space, table: &str, key: &str) -> Result<Row, NoMemory> {
    Ok(Row {
        space,
        name: name(table)?,
        key: text(key)?,
    })
}

// The tables of a text, where it is a catalogue and there is memory.
fn tables_of(alloc: Global, text: &[u8]) -> Option<Tables> {
    let Ok(catalogue) = Catalogue::read(alloc, text) else {
        return None;
    };
    lists_stand_in_order();
    Tables::make(alloc, &catalogue).ok()
}

// Rows that amounts of 0 stand among, the greatest amounts, and keys that a text doesn't have in their order.
const MANY: &str = "[table.a]\n\
b = 1000000000000000\n\
\"a b\" = 0\n\
a = 1000000000000000\n\
ab = 1\n\
[table.b]\n\
a = 0\n\
[application.A]\nid = \"6f1c2f9e-0b7e-4c52-9d0a-1f2e3d4c5b01\"\n\
[application.A.component.C]\nclass = \"6f1c2f9e-0b7e-4c52-9d0a-1f2e3d4c5b02\"\n\
[application.A.component.C.method.M]\nparams = []\nscript = \"\"\n";

// Whether a table's listing is these rows, in this order.
fn lists(
    alloc: Global,
    tables: &Tables,
    table: &str,
    rows: &[(&str, u64)],
) -> Result<bool, NoMemory> {
    let listed: Vec<(Text, Amount)> = tables.list(alloc, &name(table)?)?;
    if listed.len() != rows.len() {
        return Ok(false);
    }
    for (row, wanted) in listed.iter().zip(rows) {
        if row.0.as_bytes() != wanted.0.as_bytes() || row.1.get() != wanted.1 {
            return Ok(false);
        }
    }
    Ok(true)
}

// Sets places aside for two rows, and settles them.
fn settle(
    alloc: Global,
    tables: &mut Tables,
    first: &(Row, Option<Amount>),
    second: &(Row, Option<Amount>),
) -> Result<(), NoMemory> {
    tables.reserve(alloc, &[first.0, second.0])?;
    tables.apply_view(&[*first, *second]);
    Ok(())
}

#[test]
fn tables_open_as_the_catalogue_says(rt: HostRuntime) -> Result<(), Fail> {
    let alloc = rt.alloc();
    let tables = tables_of(alloc, sample().as_bytes()).ok_or("no tables")?;
    assert!(rt; lists(alloc, &tables, "stock", &[("bolt", 10), ("nut", 3)])?);
    assert!(rt; lists(alloc, &tables, "sold", &[])?);
    assert!(rt; lists(alloc, &tables, "none", &[])?);
    assert_eq!(rt; tables.total(&name("stock")?), 13);
    assert_eq!(rt; tables.total(&name("sold")?), 0);
    assert_eq!(rt; tables.total(&name("none")?), 0);
    Ok(())
}

#[test]
fn rows_stand_in_byte_order_of_their_keys(rt: HostRuntime) -> Result<(), Fail> {
    let alloc = rt.alloc();
    let tables = tables_of(alloc, MANY.as_bytes()).ok_or("no tables")?;
    let most = 1_000_000_000_000_000;
    assert!(rt; lists(alloc, &tables, "a", &[("a", most), ("ab", 1), ("b", most)])?);
    assert!(rt; lists(alloc, &tables, "b", &[])?);
    assert_eq!(rt; tables.total(&name("a")?), 2_000_000_000_000_001);
    Ok(())
}

#[test]
fn a_row_that_was_never_set_is_0(rt: HostRuntime) -> Result<(), Fail> {
    let alloc = rt.alloc();
    let tables = tables_of(alloc, sample().as_bytes()).ok_or("no tables")?;
    assert_eq!(rt; tables.amount(&name("stock")?, &text("nut")?), 3);
    assert_eq!(rt; tables.amount(&name("stock")?, &text("screw")?), 0);
    assert_eq!(rt; tables.amount(&name("sold")?, &text("nut")?), 0);
    assert_eq!(rt; tables.amount(&name("none")?, &text("nut")?), 0);
    let none = Tables::none(alloc);
    assert_eq!(rt; none.amount(&name("stock")?, &text("nut")?), 0);
    Ok(())
}

#[test]
fn a_view_settles_its_inside_rows(rt: HostRuntime) -> Result<(), Fail> {
    let alloc = rt.alloc();
    let mut tables = tables_of(alloc, sample().as_bytes()).ok_or("no tables")?;
    let bolt = row(Space::Inside, "stock", "bolt")?;
    let axle = row(Space::Inside, "stock", "axle")?;
    let sold = row(Space::Inside, "sold", "bolt")?;
    let outside = row(Space::Outside, "stock", "nut")?;
    let none = Amount::new(0);
    let three = Amount::new(3);
    let seven = Amount::new(7);
    settle(alloc, &mut tables, &(bolt, none), &(axle, seven))?;
    assert!(rt; lists(alloc, &tables, "stock", &[("axle", 7), ("nut", 3)])?);
    settle(alloc, &mut tables, &(outside, seven), &(sold, three))?;
    settle(alloc, &mut tables, &(axle, None), &(bolt, three))?;
    assert!(rt;
        lists(
            alloc,
            &tables,
            "stock",
            &[("axle", 7), ("bolt", 3), ("nut", 3)]
        )?
    );
    assert!(rt; lists(alloc, &tables, "sold", &[("bolt", 3)])?);
    assert_eq!(rt; tables.total(&name("stock")?), 13);
    let copied = tables.copy_rows(alloc, &[axle, sold])?;
    assert!(rt; copied.len() == 2 && copied[0].get() == 7 && copied[1].get() == 3);
    Ok(())
}
