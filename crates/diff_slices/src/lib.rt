// A lent list of node rows gathered.
#![tactic(auto)]

ghost use Rattle.std.specs.Prelude.{◌≡◌, map};
ghost use Rattle.row_node.specs.View.{node_row_of};
ghost use Rattle.diff_rows.specs.Gathering.{gathering_of, nothing_seen, gathered_all};

use diff_rows::Rows;
use row_node::NodeRow;

// All rows of the slice, one after the other.
pub fn gathered(rows: &[NodeRow]) -> Rows
    ensures { gathering_of result ≡ gathered_all nothing_seen (map node_row_of rows.now) }
{
    let mut all = Rows::none();
    for row in rows {
        all.push(*row);
    }
    all
}
