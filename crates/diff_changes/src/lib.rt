// What has changed at one position, from the row before to the row after.
#![tactic(auto)]

ghost use Rattle.std.specs.Prelude.{◌≡◌, ◌≤◌, length};
ghost use Rattle.rules.specs.House.{max_lines_each};
ghost use Rattle.rules_diff.specs.Differences.{lines_at};
ghost use Rattle.wire_pairs.specs.View.{pairs_of};
ghost use Rattle.diff_rows.specs.Gathering.{seen_in};
ghost use Rattle.diff_changes.specs.Changes.{number_of, told, head_kind, seen_pairs, seen_address, gone_in, new_in};

use row_node::NodeRow;
use wire_address::LogicalNodeAddress;
use wire_pairs::Pairs;

// The numbers of the kinds of lines.
pub const POSITION_GONE: u8 = 1;

pub const POSITION_NEW: u8 = 2;

pub const ADDRESS_CHANGED: u8 = 3;

pub const PAIR_GONE: u8 = 4;

pub const PAIR_NEW: u8 = 5;

// What a line tells. The first three are of the position itself; a position whose address stays has none of them.
#[derive(Clone, Copy, PartialEq, Eq)]
pub enum LineKind {
    PositionGone,
    PositionNew,
    AddressChanged,
    PairGone,
    PairNew,
}

impl LineKind {
    // The number that a line begins with, by the name that papers and rules have for it.
    pub fn number(self) -> u8
        ensures { result ≡ number_of self }
    {
        match self {
            LineKind::PositionGone => POSITION_GONE,
            LineKind::PositionNew => POSITION_NEW,
            LineKind::AddressChanged => ADDRESS_CHANGED,
            LineKind::PairGone => PAIR_GONE,
            LineKind::PairNew => PAIR_NEW,
        }
    }
}

// The pairs in a seat: none where there is no row.
#[tactic(auto, unfolding(diff_rows::specs::Gathering::seen_in, crate::specs::Changes::seen_pairs))]
fn seen_pairs(seat: Option<NodeRow>) -> Pairs
    ensures { pairs_of result ≡ seen_pairs (seen_in seat) }
{
    match seat {
        Some(row) => row.pairs(),
        None => Pairs::none(),
    }
}

// The address in a seat; 0 where there is no row, as the contract's `seen_address` has it.
#[tactic(auto, unfolding(diff_rows::specs::Gathering::seen_in, crate::specs::Changes::seen_address))]
pub fn seen_address(seat: Option<NodeRow>) -> LogicalNodeAddress
    ensures { result.0 ≡ seen_address (seen_in seat) }
{
    match seat {
        Some(row) => row.entry.address,
        None => LogicalNodeAddress(0),
    }
}

// What is told of the position itself: the kind of its line, if it has one.
#[tactic(auto, unfolding(diff_rows::specs::Gathering::seen_in, crate::specs::Changes::head_kind))]
pub fn head_kind(before: Option<NodeRow>, after: Option<NodeRow>) -> Option<LineKind>
    ensures { told result ≡ head_kind (seen_in before) (seen_in after) }
{
    match (before, after) {
        (Some(stood), Some(stands)) if stood.entry.address == stands.entry.address => None,
        (Some(_), Some(_)) => Some(LineKind::AddressChanged),
        (Some(_), None) => Some(LineKind::PositionGone),
        (None, Some(_)) => Some(LineKind::PositionNew),
        (None, None) => None,
    }
}

// The pairs that are told as gone: none of a position that is gone itself.
#[tactic(auto, unfolding(diff_rows::specs::Gathering::seen_in, crate::specs::Changes::gone_in))]
pub fn gone(before: Option<NodeRow>, after: Option<NodeRow>) -> Pairs
    ensures { pairs_of result ≡ gone_in (seen_in before) (seen_in after) }
{
    match after {
        Some(row) => seen_pairs(before).missing(&row.pairs()),
        None => Pairs::none(),
    }
}

// The pairs that are told as new.
#[tactic(auto, unfolding(crate::specs::Changes::new_in))]
pub fn new(before: Option<NodeRow>, after: Option<NodeRow>) -> Pairs
    ensures { pairs_of result ≡ new_in (seen_in before) (seen_in after) }
{
    seen_pairs(after).missing(&seen_pairs(before))
}

// How many lines the position has. Most positions of a short list have no row on either side.
#[tactic(auto, unfolding(diff_rows::specs::Gathering::seen_in, rules_diff::specs::Differences::lines_at))]
pub fn count(before: Option<NodeRow>, after: Option<NodeRow>) -> usize
    ensures { (result ≡ length (lines_at 0 (seen_in before) (seen_in after))) × (result ≤ max_lines_each) }
{
    if let (None, None) = (before, after) {
        return 0;
    }
    let own = usize::from(head_kind(before, after).is_some());
    own + gone(before, after).len() + new(before, after).len()
}
