// The object of an order, and what its members hold.
ghost use Rattle.std.specs.Prelude.{◌≡◌, List, ◌++◌, Ok, Err, option_map, option_and_then, string_bytes};
ghost use Rattle.std.specs.Result.{result_map_both};
ghost use Rattle.std.specs.BTreeMap.{keys};
ghost use Rattle.std.specs.List.{list_all};
ghost use Rattle.serde_json.specs.Find.{get, as_str, as_bool, as_array};
ghost use Rattle.serde_json.specs.View.{view, items_view};
ghost use Rattle.qc_protocol.specs.Refusals.{member_text};
ghost use Rattle.qc_orders.specs.Orders.{at_member, whole_in, args_in, calls_in, moment_of, moment_in, moment_in_range, is_among, has_only, no_other, heading, Tells};

use crate::calls::{copied, read_args, read_calls};
use crate::error::OrderError;
use crate::members::member_name;
use qc_base::{Moment, Word};
use qc_protocol::{Member, RawArgs, RawCalls};
use serde_json::{Map, Value};
use std::alloc::Global;

/// The object that a text is, read member by member. Each method that reads a member answers the member where it is
/// missing or not of its kind (docs/FORMATS.md, "Order lines").
#[derive(Clone, Copy)]
pub struct Object<'a> {
    pub value: &'a Value,
    /// The moment of the order where it is handed in. The object has no `at` then.
    pub moment: Option<Moment>,
}

fn moment_in(value: &Value) -> Option<Moment>
    ensures { result ≡ moment_in (view value.now) }
{
    value.as_u64().and_then(Moment::new)
}

fn is_among(members: &[Member], name: &str) -> bool
    ensures { result ≡ is_among members.now name.now }
{
    members.iter().any(|m| member_name(*m) == name)
}

impl Object<'_> {
    fn value(&self, member: Member) -> Option<&Value>
        ensures { option_map (λ v. view v.now) result ≡ get (member_text member) (view self.now.value.now) }
    {
        self.value.get(member_name(member))
    }

    /// A whole number.
    pub fn whole(&self, member: Member) -> Result<u64, Member>
        ensures { result ≡ at_member member whole_in (view self.now.value.now) }
    {
        self.value(member).and_then(Value::as_u64).ok_or(member)
    }

    /// `true` or `false`.
    pub fn flag(&self, member: Member) -> Result<bool, Member>
        ensures { result ≡ at_member member as_bool (view self.now.value.now) }
    {
        self.value(member).and_then(Value::as_bool).ok_or(member)
    }

    /// A string, where it stands.
    pub fn string(&self, member: Member) -> Result<&str, Member>
        ensures { result_map_both (λ s. s.now) (λ m. m) result ≡ at_member member as_str (view self.now.value.now) }
    {
        self.value(member).and_then(Value::as_str).ok_or(member)
    }

    /// The moment of the order: the one that is handed in, or the member `at`.
    pub fn moment(&self) -> Result<Moment, Member>
        ensures { result ≡ moment_of self.now.moment (view self.now.value.now) }
    {
        match self.moment {
            Some(now) => Ok(now),
            None => self.value(Member::At).and_then(moment_in).ok_or(Member::At),
        }
    }

    /// A string, copied.
    pub fn text(&self, alloc: Global, member: Member) -> Result<Word, OrderError>
        ensures { Tells result (at_member member as_str (view self.now.value.now)) }
    {
        let text = self.string(member)?;
        Ok(copied(alloc, text)?)
    }

    /// A list of arguments.
    pub fn args(&self, alloc: Global, member: Member) -> Result<RawArgs, OrderError>
        ensures { Tells result (at_member member args_in (view self.now.value.now)) }
    {
        let Some(value) = self.value(member) else {
            return Err(OrderError::Malformed(member));
        };
        read_args(alloc, value)?.ok_or(OrderError::Malformed(member))
    }

    /// A list of calls.
    pub fn calls(&self, alloc: Global, member: Member) -> Result<RawCalls, OrderError>
        ensures { Tells result (at_member member calls_in (view self.now.value.now)) }
    {
        let Some(value) = self.value(member) else {
            return Err(OrderError::Malformed(member));
        };
        read_calls(alloc, value)?.ok_or(OrderError::Malformed(member))
    }

    /// The members that every order has.
    fn heading(&self) -> &'static [Member]
        ensures { result.now ≡ heading self.now.moment }
    {
        match self.moment {
            Some(_) => &[Member::Do],
            None => &[Member::At, Member::Do],
        }
    }

    fn is_own(&self, members: &[Member], name: &str) -> bool
        ensures { result ≡ is_among (heading self.now.moment ++ members.now) name.now }
    {
        is_among(self.heading(), name) || is_among(members, name)
    }

    fn all_own(&self, members: &[Member], map: &Map<String, Value>) -> bool
        ensures { result
            ≡ list_all (λ name. is_among (heading self.now.moment ++ members.now) (string_bytes name)) (keys map.now) }
    {
        map.keys().all(|name| self.is_own(members, name.as_str()))
    }

    fn has_only(&self, members: &[Member]) -> bool
        ensures { result ≡ has_only (heading self.now.moment ++ members.now) (view self.now.value.now) }
    {
        match self.value.as_object() {
            Some(map) => self.all_own(members, map),
            None => false,
        }
    }

    /// `Unknown` where there is another member than these and those of every order.
    pub fn only(&self, members: &[Member]) -> Result<(), Member>
        ensures { result ≡ no_other (heading self.now.moment ++ members.now) (view self.now.value.now) }
    {
        if self.has_only(members) {
            Ok(())
        } else {
            Err(Member::Unknown)
        }
    }
}
