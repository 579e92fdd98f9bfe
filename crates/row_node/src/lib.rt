// A node row: an entry with the position that it stands for.
#![tactic(auto)]

ghost use Rattle.std.specs.Prelude.{◌≡◌};
ghost use Rattle.wire_pairs.specs.View.{pairs_of};
ghost use Rattle.row_node.specs.View.{held_pairs, node_row_of, node_row, held_row, no_node_row};

use row_entry::{NodeEntry, NodeStatus, WAITING};
use sizes::MAX_PAIRS;
use wire_address::{LogicalNodeAddress, NodePosition};
use wire_pairs::Pairs;

// A row of a listing: where the unit sits, and the paper's row for it.
// C interface: the position, then the entry.
#[repr(C)]
#[derive(Clone, Copy)]
pub struct NodeRow {
    pub position: NodePosition,
    pub entry: NodeEntry,
}

impl NodeRow {
    // What stands where there is no row: zeros.
    pub fn none() -> Self
        ensures { result ≡ no_node_row }
    {
        NodeRow {
            position: NodePosition(0),
            entry: NodeEntry {
                address: LogicalNodeAddress(0),
                status: NodeStatus(WAITING),
                bad: 0,
                silences: 0,
                place: 0,
                tries: 0,
                count: 0,
                blocks: [0u8; MAX_PAIRS],
                numbers: [0u8; MAX_PAIRS],
            },
        }
    }

    // The row of an entry at a position; it counts no more pairs than the entry has places for.
    pub fn of(position: NodePosition, entry: NodeEntry) -> Self
        ensures { (result ≡ node_row position.0 entry) × (node_row_of result ≡ held_row position.0 entry) }
    {
        NodeRow {
            position,
            entry: NodeEntry {
                count: entry.count.min(MAX_PAIRS as u8),
                ..entry
            },
        }
    }

    // The pairs of the row, whatever its marks are.
    pub fn pairs(&self) -> Pairs
        ensures { pairs_of result ≡ held_pairs self.now.entry }
    {
        Pairs {
            count: usize::from(self.entry.count),
            blocks: self.entry.blocks,
            numbers: self.entry.numbers,
        }
    }
}
