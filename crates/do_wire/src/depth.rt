//! How deep JSON nests.
ghost use Rattle.std.specs.Prelude.{◌↔◌, ◌≤◌, IsTrue};
ghost use Rattle.serde_json.specs.View.{view, items_view, members_view};
ghost use Rattle.do_value.specs.Tree.{depth_of, greatest_depth, greatest_pair_depth};
ghost use Rattle.do_wire.specs.Reading.{tree_in, trees_in_items, pairs_in_members};

use serde_json::{Map, Value as Json};

/// Whether lists and records nest at most so many levels deep. It looks no deeper and takes no memory.
#[cycle(depth)]
pub(crate) fn nests_within(levels: u32, json: &Json) -> bool
    ensures { IsTrue result ↔ (depth_of (tree_in (view json.now)) ≤ levels) }
{
    match json {
        Json::Array(items) => levels > 0 && items_nest_within(levels - 1, items),
        Json::Object(members) => levels > 0 && members_nest_within(levels - 1, members),
        _ => true,
    }
}

#[cycle(depth)]
fn items_nest_within(levels: u32, items: &Vec<Json>) -> bool
    ensures { IsTrue result ↔ (greatest_depth (trees_in_items (items_view items.now.items)) ≤ levels) }
{
    for item in items {
        if !nests_within(levels, item) {
            return false;
        }
    }
    true
}

#[cycle(depth)]
fn members_nest_within(levels: u32, members: &Map<String, Json>) -> bool
    ensures { IsTrue result
        ↔ (greatest_pair_depth (pairs_in_members (members_view members.now.entries)) ≤ levels) }
{
    for (_, part) in members.iter() {
        if !nests_within(levels, part) {
            return false;
        }
    }
    true
}
