// Texts with the first rule that each of them breaks, or with none where it is a catalogue.
mod applications;
mod limits;
mod order;
mod pieces;
mod tables;

use crate::{Catalogue, print_error, sample};
use applications::APPLICATIONS;
use limits::LIMITS;
use order::ORDER;
use pieces::put_line;
use qc_base::{NoMemory, Word};
use std::alloc::Global;
use std::test::Fail;
use tables::TABLES;

// Whether a text is answered so: by a refusal's line, or by a catalogue.
fn is_answered(alloc: Global, text: &[u8], expected: &str) -> Result<bool, NoMemory> {
    match Catalogue::read(alloc, text) {
        Ok(_) => Ok(expected == "a catalogue"),
        Err(error) => {
            let line: Word = print_error(alloc, &error)?;
            Ok(line.as_slice() == expected.as_bytes())
        }
    }
}

// What is expected of the first case that isn't answered so, or nothing.
fn first_other(alloc: Global, cases: &'static str) -> Result<&'static str, NoMemory> {
    let mut text = Vec::new(alloc);
    for line in cases.lines() {
        if let Some(expected) = line.strip_prefix("=> ") {
            if !is_answered(alloc, text.as_slice(), expected)? {
                return Ok(expected);
            }
            text.clear();
        } else {
            put_line(&mut text, line)?;
        }
    }
    Ok("")
}

#[test]
fn each_rule_of_tables_and_resources_has_its_refusal(rt: HostRuntime) -> Result<(), Fail> {
    let other = first_other(rt.alloc(), TABLES).map_err(|_| "memory")?;
    assert_eq!(rt; other, "");
    Ok(())
}

#[test]
fn each_rule_of_applications_has_its_refusal(rt: HostRuntime) -> Result<(), Fail> {
    let other = first_other(rt.alloc(), APPLICATIONS).map_err(|_| "memory")?;
    assert_eq!(rt; other, "");
    Ok(())
}

#[test]
fn of_two_broken_rules_the_first_is_told(rt: HostRuntime) -> Result<(), Fail> {
    let other = first_other(rt.alloc(), ORDER).map_err(|_| "memory")?;
    assert_eq!(rt; other, "");
    Ok(())
}

#[test]
fn limits_hold_at_their_edge(rt: HostRuntime) -> Result<(), Fail> {
    let other = first_other(rt.alloc(), LIMITS).map_err(|_| "memory")?;
    assert_eq!(rt; other, "");
    Ok(())
}

#[test]
fn bytes_that_are_no_utf8_are_no_toml(rt: HostRuntime) -> Result<(), Fail> {
    let refused = is_answered(rt.alloc(), &[0x61, 0xFF], "NotToml").map_err(|_| "memory")?;
    assert!(rt; refused);
    Ok(())
}

fn has_method(catalogue: &Catalogue, component: &str, method: &str) -> bool {
    match catalogue.app("Orders".as_bytes()) {
        Some(app) => match app.component(component.as_bytes()) {
            Some(component) => component.method(method.as_bytes()).is_some(),
            None => false,
        },
        None => false,
    }
}

fn class_has_method(catalogue: &Catalogue, class: &str, method: &str) -> bool {
    match catalogue.app("Orders".as_bytes()) {
        Some(app) => match app.exception(class.as_bytes()) {
            Some(class) => class.method(method.as_bytes()).is_some(),
            None => false,
        },
        None => false,
    }
}

#[test]
fn the_sample_is_looked_up(rt: HostRuntime) -> Result<(), Fail> {
    let catalogue = Catalogue::read(rt.alloc(), sample().as_bytes()).map_err(|_| "refused")?;
    assert!(rt; has_method(&catalogue, "Order", "Place"));
    assert!(rt; !has_method(&catalogue, "Order", "Undo"));
    assert!(rt; class_has_method(&catalogue, "OrderLast", "Notify"));
    assert!(rt; !class_has_method(&catalogue, "Order", "Notify"));
    assert!(rt; catalogue.table("stock".as_bytes()).is_some());
    assert!(rt; catalogue.table("till".as_bytes()).is_none());
    assert!(rt; catalogue.resource("till".as_bytes()).is_some());
    assert_eq!(rt; catalogue.apps().len(), 1);
    assert_eq!(rt; catalogue.resources().len(), 2);
    assert_eq!(rt; catalogue.tables().len(), 4);
    Ok(())
}

// Whether the parts with a memory of their own can be copied.
fn are_copied(alloc: Global, catalogue: &Catalogue) -> Result<bool, NoMemory> {
    let Some(table) = catalogue.table("stock".as_bytes()) else {
        return Ok(false);
    };
    let rows = table.rows.copy(alloc)?;
    let Some(app) = catalogue.app("Orders".as_bytes()) else {
        return Ok(false);
    };
    let Some(component) = app.component("Order".as_bytes()) else {
        return Ok(false);
    };
    let Some(method) = component.method("Place".as_bytes()) else {
        return Ok(false);
    };
    let params = method.params.copy(alloc)?;
    Ok(rows.as_slice().len() == 2 && params.as_slice().len() == 2)
}

#[test]
fn parts_are_copied(rt: HostRuntime) -> Result<(), Fail> {
    let catalogue = Catalogue::read(rt.alloc(), sample().as_bytes()).map_err(|_| "refused")?;
    let copied = are_copied(rt.alloc(), &catalogue).map_err(|_| "memory")?;
    assert!(rt; copied);
    Ok(())
}
