use crate::Held;
use qc_base::{Name, NoMemory, Row, Space, Text};
use std::test::Fail;

fn row(space: Space, name: &str, key: &str) -> Result<Row, NoMemory> {
    let name = Name::read(name.as_bytes()).ok_or(NoMemory)?;
    let key = Text::read(key.as_bytes()).ok_or(NoMemory)?;
    Ok(Row { space, name, key })
}

#[test]
fn rows_and_messages_are_held_until_they_are_released(rt: HostRuntime) -> Result<(), Fail> {
    let alloc = rt.alloc();
    let bolt = row(Space::Inside, "stock", "bolt")?;
    let nut = row(Space::Inside, "stock", "nut")?;
    let outside = row(Space::Outside, "stock", "bolt")?;
    let sold = row(Space::Inside, "sold", "bolt")?;
    let mut held = Held::make(alloc)?;
    assert!(rt; held.is_free(&[bolt, nut]));
    if held.is_free(&[bolt, sold]) {
        held.hold(alloc, 4, 7, &[bolt, sold])?;
    }
    if held.is_free(&[]) {
        held.hold(alloc, 5, 8, &[])?;
    }
    assert!(rt; held.has(7) && held.has(8) && !held.has(4));
    assert!(rt; !held.is_free(&[nut, bolt]));
    assert!(rt; !held.is_free(&[sold]));
    assert!(rt; held.is_free(&[nut, outside]));
    assert!(rt; held.is_free(&[]));
    held.release(7);
    assert!(rt; held.has(7) && !held.is_free(&[bolt]));
    held.release(4);
    assert!(rt; !held.has(7) && held.has(8) && held.is_free(&[bolt, sold]));
    Ok(())
}
