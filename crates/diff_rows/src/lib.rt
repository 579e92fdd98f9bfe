// Rows of a listing gathered one at a time: what stands at each position, and what is wrong so far.
#![tactic(auto)]

ghost use Rattle.std.specs.Prelude.{◌≡◌, false, ◌≤◌, ◌&&◌, leb};
ghost use Rattle.rules.specs.House.{max_units, max_pairs};
ghost use Rattle.rules_diff.specs.Differences.{twice, is_bad};
ghost use Rattle.wire_pairs.specs.View.{pairs_of};
ghost use Rattle.row_node.specs.View.{node_row_of};
ghost use Rattle.diff_rows.specs.Gathering.{gathering_of, nothing_seen, gathered};

use row_node::NodeRow;
use sizes::{MAX_PAIRS, MAX_UNITS};
use wire_address::NodePosition;
use wire_pairs::Pairs;

// What a list of rows has at each position: position p has seats[p - 1]. A bad row came; the positions did not rise; the last position that
// a row was seated at, 0 before the first, as `nothing_seen` has it.
#[derive(Clone, Copy)]
pub struct Rows {
    pub seats: [Option<NodeRow>; MAX_UNITS],
    pub last: u8,
    pub bad: bool,
    pub falling: bool,
}

// A pair stands twice.
fn twice(pairs: &Pairs) -> bool
    ensures { result ≡ twice (pairs_of pairs.now) }
{
    for i in 0..pairs.len() {
        if pairs.holds_from(i + 1, pairs.at(i)) {
            return true;
        }
    }
    false
}

// A row has a position from 1 to 63, and no more than 24 pairs.
fn fits(position: NodePosition, count: u8) -> bool
    ensures { result ≡ leb 1 position.0 && leb position.0 max_units && leb count max_pairs }
{
    1 <= position.0 && position.0 as usize <= MAX_UNITS && count as usize <= MAX_PAIRS
}

// The row is one that no listing has: it does not fit, or has a pair twice. By value: behind a reference the proof does not know how long
// its arrays are.
fn is_bad(row: NodeRow) -> bool
    ensures { (result ≡ is_bad (node_row_of row))
        × (result ≡ false → (1 ≤ row.position.0) × (row.position.0 ≤ max_units) × (row.entry.count ≤ max_pairs)) }
{
    !fits(row.position, row.entry.count) || twice(&row.pairs())
}

impl Rows {
    // No row yet.
    #[tactic(auto, unfolding(crate::specs::Gathering::gathering_of, crate::specs::Gathering::nothing_seen, crate::specs::Gathering::seen_in))]
    pub fn none() -> Self
        ensures { gathering_of result ≡ nothing_seen }
    {
        Rows {
            seats: [None; MAX_UNITS],
            last: 0,
            bad: false,
            falling: false,
        }
    }

    // One row more.
    pub fn push(&mut self, row: NodeRow)
        ensures { gathering_of self.new ≡ gathered (gathering_of self.old) (node_row_of row) }
    {
        let position = row.position.0;
        if is_bad(row) {
            self.bad = true;
        } else if position <= self.last {
            self.falling = true;
        } else {
            self.last = position;
            self.seats[position as usize - 1] = Some(row);
        }
    }
}
