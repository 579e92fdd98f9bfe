// The listed rows of a ring picture, by position.
#![tactic(auto)]

ghost use Rattle.std.specs.Prelude.{◌≡◌, ◌<◌, ◌+◌, List, [], ◌∷◌, ◌++◌, map, take};
ghost use Rattle.rules.specs.House.{max_units};
ghost use Rattle.rules_diff.specs.Differences.{listed_rows_from};
ghost use Rattle.row_entry.specs.View.{row_of};
ghost use Rattle.row_node.specs.declared.NodeRow as code;
ghost use Rattle.ring_rows.specs.View.{listed_entries, filled_rows, node_rows_in};

use row_entry::NodeEntry;
use row_node::NodeRow;
use sizes::MAX_UNITS;
use wire_address::NodePosition;

// The first `count` places hold rows. The places behind them hold none: zeros.
// C interface: a count and an array, in this order.
#[repr(C)]
#[derive(Clone, Copy)]
pub struct ListedRows {
    pub count: usize,
    pub rows: [NodeRow; MAX_UNITS],
}

impl ListedRows {
    // No rows.
    fn none() -> Self
        ensures { result ≡ filled_rows [] }
    {
        ListedRows {
            count: 0,
            rows: [NodeRow::none(); MAX_UNITS],
        }
    }

    // Another row, behind these.
    fn push(&mut self, row: NodeRow)
        requires { self.old.count < max_units }
        ensures count { self.new.count ≡ self.old.count + 1 }
        ensures rows { (rs : List code.NodeRow) → self.old ≡ filled_rows rs → self.new ≡ filled_rows (rs ++ row ∷ []) }
    {
        self.rows[self.count] = row;
        self.count += 1;
    }
}

// The rows of the LISTED and SETTING entries; the first entry has position 1. The entries behind the 63 that a ring can have give none.
pub fn rows_of(entries: &[NodeEntry]) -> ListedRows
    ensures { (result ≡ filled_rows (listed_entries 1 (take max_units entries.now)))
        × (node_rows_in result ≡ listed_rows_from 1 (map row_of (take max_units entries.now))) }
{
    let ring = &entries[..row_entry::clamp(entries.len())];
    let mut listed = ListedRows::none();
    for (i, entry) in ring.iter().enumerate() {
        if entry.is_listed() {
            listed.push(NodeRow::of(NodePosition(i as u8 + 1), *entry));
        }
    }
    listed
}
