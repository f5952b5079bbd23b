//! Which numbers of JSON are numbers of values.
ghost use Rattle.std.specs.Prelude.{◌≡◌, None, Some, IfOk, IfErr, IfNone, OnOk};
ghost use Rattle.serde_json.specs.View.{view, number_view, items_view, members_view};
ghost use Rattle.do_wire.specs.Numbers.{numbers, item_numbers, member_numbers, fault_of, first_fault};
ghost use Rattle.do_wire.specs.Reading.{whole_of, tree_in, trees_in_items, pairs_in_members};
ghost use Rattle.do_wire.specs.Json.{json_of, items_of, members_of};
ghost use Rattle.serde_json.specs.Find.{of_integer};

use crate::fault::WireFault;
use do_value::Num;
use serde_json::{Map, Number, Value as Json};

/// The number as a value keeps it.
pub(crate) fn whole_number(number: &Number) -> Result<Num, WireFault>
    ensures good { OnOk result (fault_of (number_view number.now) ≡ None) }
    ensures value { IfOk result (λ n. n ≡ whole_of (number_view number.now)) }
    ensures fault { IfErr result (λ e. fault_of (number_view number.now) ≡ Some e) }
    ensures same { IfOk result (λ n. of_integer n ≡ number_view number.now) }
{
    match number.as_i64() {
        Some(n) => Num::new(n).map_err(|_| WireFault::RangeNum),
        None if number.is_f64() => Err(WireFault::Float),
        None => Err(WireFault::RangeNum),
    }
}

/// What the first refused number is refused for. It takes no memory.
#[cycle(faults)]
pub(crate) fn first_fault_in(json: &Json) -> Option<WireFault>
    ensures fault { result ≡ first_fault (numbers (view json.now)) }
    ensures same { IfNone result (json_of (tree_in (view json.now)) ≡ view json.now) }
{
    match json {
        Json::Number(number) => whole_number(number).err(),
        Json::Array(items) => fault_in_items(items),
        Json::Object(members) => fault_in_members(members),
        _ => None,
    }
}

#[cycle(faults)]
fn fault_in_items(items: &Vec<Json>) -> Option<WireFault>
    ensures fault { result ≡ first_fault (item_numbers (items_view items.now.items)) }
    ensures same { IfNone result
        (items_of (trees_in_items (items_view items.now.items)) ≡ items_view items.now.items) }
{
    for item in items {
        let fault = first_fault_in(item);
        if fault.is_some() {
            return fault;
        }
    }
    None
}

#[cycle(faults)]
fn fault_in_members(members: &Map<String, Json>) -> Option<WireFault>
    ensures fault { result ≡ first_fault (member_numbers (members_view members.now.entries)) }
    ensures same { IfNone result (members_of (pairs_in_members (members_view members.now.entries))
        ≡ members_view members.now.entries) }
{
    for (_, part) in members.iter() {
        let fault = first_fault_in(part);
        if fault.is_some() {
            return fault;
        }
    }
    None
}
