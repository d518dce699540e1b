// The compensators of an attempt's resources, made beforehand.
ghost use Rattle.std.specs.Prelude.{◌≡◌, ◌+◌, ◌-◌, ◌*◌, ◌≤◌, ◌++◌, [], length, drop, vec_len, vec_capacity, IfOk};
ghost use Rattle.qc_base.specs.LogLines.{notices_to};
ghost use Rattle.qc_underway.specs.Compensators.{IsMadeBy, TellsMore, forget_room, kept_for, kept_in, kept_of, new_kept, place_from};

use crm_driver::RowCompensator;
use qc_base::{Heard, Name, NoMemory, Notice};
use qc_catalogue::{Catalogue, Resource};
use std::alloc::Global;

// A resource's compensator.
#[derive(Debug, Drop)]
pub(crate) struct Named {
    pub(crate) name: Name,
    pub(crate) compensator: RowCompensator,
}

/// The compensators of the resources that an attempt may register, each found by its resource's name. What they have
/// room for was set aside when they were made.
#[derive(Debug, Drop)]
pub struct Compensators {
    pub(crate) each: Vec<Named>,
    // The numbers of the records that a resource which is asked answers are to be forgotten.
    pub(crate) forget: Vec<u32>,
}

// The calls of two phases over so many records.
fn calls_over(records: usize) -> Result<usize, NoMemory>
    ensures { IfOk result (λ calls. calls ≡ 2 * (records + 2)) }
{
    let Some(one) = records.checked_add(2) else {
        return Err(NoMemory);
    };
    let Some(both) = one.checked_add(one) else {
        return Err(NoMemory);
    };
    Ok(both)
}

// A resource's new compensator, with room for so many calls.
fn named_of(alloc: Global, resource: &Resource, calls: usize) -> Result<Named, NoMemory>
    ensures { IfOk result (λ named. kept_of named ≡ new_kept calls resource.now) }
{
    let compensator = RowCompensator::over(alloc, resource, calls)?;
    Ok(Named {
        name: resource.name,
        compensator,
    })
}

impl Compensators {
    /// A compensator for each of these names that is a resource's of the catalogue. Each has room for all calls of a
    /// prepare phase and of a commit phase or an abort phase over so many records. The error is want of memory.
    pub fn make(
        alloc: Global,
        catalogue: &Catalogue,
        names: &[Name],
        records: usize,
    ) -> Result<Compensators, NoMemory>
        ensures kept { IfOk result (λ told. kept_in told ≡ kept_for catalogue.now names.now records) }
        ensures forget { IfOk result (λ told. records ≤ forget_room told) }
        ensures made { IfOk result (λ told. IsMadeBy catalogue.now told) }
    {
        let calls = calls_over(records)?;
        let forget = Vec::with_capacity(alloc, records).map_err(|_| NoMemory)?;
        let mut each = Vec::new(alloc);
        for name in names {
            if let Some(resource) = catalogue.resource(name.as_bytes()) {
                let named = named_of(alloc, resource, calls)?;
                let Ok(()) = each.push(named) else {
                    return Err(NoMemory);
                };
            }
        }
        Ok(Compensators { each, forget })
    }
}

// Where the first compensator of a resource stands.
pub(crate) fn place_of(each: &[Named], resource: &Name) -> Option<usize>
    ensures { result ≡ place_from 0 resource.now each.now }
{
    for (index, named) in each.iter().enumerate() {
        if named.name.as_bytes() == resource.as_bytes() {
            return Some(index);
        }
    }
    None
}

/// An empty list with room for all notices of a prepare phase and of a commit phase or an abort phase of so many
/// resources, over so many records together. The error is want of memory.
pub fn room_for_notices(
    alloc: Global,
    resources: usize,
    records: usize,
) -> Result<Vec<Notice>, NoMemory>
    ensures { IfOk result (λ notices. (notices.items ≡ []) × (2 * (records + 2 * resources) ≤ vec_capacity notices)) }
{
    let Some(ends) = resources.checked_add(resources) else {
        return Err(NoMemory);
    };
    let Some(one) = records.checked_add(ends) else {
        return Err(NoMemory);
    };
    let Some(both) = one.checked_add(one) else {
        return Err(NoMemory);
    };
    Vec::with_capacity(alloc, both).map_err(|_| NoMemory)
}

// What a resource's compensator heard goes to the end of the notices, which have room for it.
fn tell_all(resource: &Name, heard: &[Heard], notices: &mut Vec<Notice>)
    requires room { vec_len notices.old + length heard.now ≤ vec_capacity notices.old }
    ensures items { notices.new.items ≡ notices.old.items ++ notices_to resource.now heard.now }
    ensures len { vec_len notices.new ≡ vec_len notices.old + length heard.now }
    ensures capacity { vec_capacity notices.new ≡ vec_capacity notices.old }
{
    for entry in heard {
        notices.push_reserved(Notice {
            resource: *resource,
            heard: *entry,
        });
    }
}

// What it heard behind so many entries.
pub(crate) fn tell(named: &Named, before: usize, notices: &mut Vec<Notice>)
    requires before { before ≤ length named.now.compensator.heard }
    requires room { vec_len notices.old + (length named.now.compensator.heard - before) ≤ vec_capacity notices.old }
    ensures { TellsMore (notices_to named.now.name (drop before named.now.compensator.heard)) notices.old notices.new }
{
    tell_all(&named.name, &named.compensator.heard()[before..], notices);
}
