//! Limits of how many characters a text or how many elements a list has.

ghost use Rattle.std.specs.Prelude.{◌≡◌, ◌≤◌, pos, ◌↔◌, IsTrue};
ghost use Rattle.std.specs.Option.{option_map};
ghost use Rattle.wot_json.specs.Tree.{integer, members_of};
ghost use Rattle.wot_json.specs.Lookup.{value_under};
ghost use Rattle.wot_schema.specs.Faults.{IsMet, count as count_judge};
ghost use Rattle.wot_schema.specs.Counts.{IsCountWithin};

use wot_json::{Members, Tree};

/// The least and the most of a count.
#[derive(Debug, Drop)]
pub(crate) struct CountRange {
    pub(crate) least: Option<u64>,
    pub(crate) most: Option<u64>,
}

impl CountRange {
    /// The range that the members of these two names give.
    pub(crate) fn read(members: &Members, least: &str, most: &str) -> CountRange
        requires least { IsMet (members_of members.now) (least.now, count_judge) }
        requires most { IsMet (members_of members.now) (most.now, count_judge) }
        ensures least { value_under least.now (members_of members.now) ≡ option_map (λ n. integer (pos n)) result.least }
        ensures most { value_under most.now (members_of members.now) ≡ option_map (λ n. integer (pos n)) result.most }
    {
        CountRange {
            least: read_count(members, least),
            most: read_count(members, most),
        }
    }

    /// The count is in the range.
    pub(crate) fn has(&self, count: usize) -> bool
        ensures { IsTrue result ↔ IsCountWithin self.now count }
    {
        let count = count as u64;
        self.least.is_none_or(|least| least <= count) && self.most.is_none_or(|most| count <= most)
    }
}

/// The integer from 0 on that the member of this name is.
fn read_count(members: &Members, name: &str) -> Option<u64>
    requires { IsMet (members_of members.now) (name.now, count_judge) }
    ensures { value_under name.now (members_of members.now) ≡ option_map (λ n. integer (pos n)) result }
{
    match members.value_under(name)? {
        Tree::Int(number) if *number >= 0 => Some(*number as u64),
        _ => None,
    }
}
