// Whether an exception class takes the calls of a component.
ghost use Rattle.std.specs.Prelude.{◌≡◌, IfErr, OnOk, [], option_map};
ghost use Rattle.qc_catalogue.specs.Findings.{IsRefusalOf, field_path};
ghost use Rattle.qc_catalogue.specs.Applications.{same_kind, same_kinds, takes, taken_by, taken_by_class};
ghost use Rattle.qc_catalogue.specs.declared.field.Field.TheVariants.{Exception as ExceptionField};

use crate::catalogue::{Exception, Method};
use crate::error::CatalogueError;
use crate::field::Field;
use crate::lookup::find_named;
use crate::paths::{bad_key, field_path, under};
use qc_script::{Param, ParamKind};
use std::alloc::Global;

fn same_kind(a: ParamKind, b: ParamKind) -> bool
    ensures { result ≡ same_kind a b }
{
    match (a, b) {
        (ParamKind::Text, ParamKind::Text) => true,
        (ParamKind::Whole, ParamKind::Whole) => true,
        (ParamKind::Text, ParamKind::Whole) => false,
        (ParamKind::Whole, ParamKind::Text) => false,
    }
}

fn same_kinds(params: &[Param], others: &[Param]) -> bool
    ensures { result ≡ same_kinds params.now others.now }
{
    if params.len() != others.len() {
        return false;
    }
    for index in 0..params.len() {
        if !same_kind(params[index].kind, others[index].kind) {
            return false;
        }
    }
    true
}

fn takes(methods: &[Method], method: &Method) -> bool
    ensures { result ≡ takes methods.now method.now }
{
    match find_named(methods, method.name.as_bytes()) {
        Some(own) => same_kinds(own.params.as_slice(), method.params.as_slice()),
        None => false,
    }
}

// The path is that of the class's methods.
fn check_taken(
    alloc: Global,
    own: &[Method],
    path: &[u8],
    methods: &[Method],
) -> Result<(), CatalogueError>
    ensures clean { OnOk result (taken_by own.now path.now methods.now ≡ []) }
    ensures refused { IfErr result (IsRefusalOf (taken_by own.now path.now methods.now)) }
{
    for method in methods {
        if !takes(own, method) {
            return Err(bad_key(alloc, path, method.name.as_bytes()));
        }
    }
    Ok(())
}

/// Refuses the first of a component's methods that its exception class doesn't take. The path is that of the
/// application.
pub fn check_class(
    alloc: Global,
    app: &[u8],
    methods: &[Method],
    class: Option<&Exception>,
) -> Result<(), CatalogueError>
    ensures clean { OnOk result (taken_by_class (field_path app.now ExceptionField) methods.now (option_map (λ x. x.now) class.entry) ≡ []) }
    ensures refused { IfErr result (IsRefusalOf (taken_by_class (field_path app.now ExceptionField) methods.now (option_map (λ x. x.now) class.entry))) }
{
    let Some(class) = class else {
        return Ok(());
    };
    let classes = field_path(alloc, app, Field::Exception)?;
    let path = under(alloc, classes.as_slice(), class.name.as_bytes())?;
    let path = field_path(alloc, path.as_slice(), Field::Method)?;
    check_taken(alloc, class.methods.as_slice(), path.as_slice(), methods)
}
