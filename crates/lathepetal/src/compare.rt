// The listed rows of a picture, and two lists of rows compared.
ghost use Rattle.std.specs.Prelude.{◌≡◌, map, length};
ghost use Rattle.laws.specs.Views.{firsts};
ghost use Rattle.rules_diff.specs.Differences.{listed_rows, compare};
ghost use Rattle.row_entry.specs.declared.NodeEntry as code;
ghost use Rattle.row_node.specs.View.{node_row_of};
ghost use Rattle.ring_rows.specs.View.{listed_entries, filled_rows, node_rows_in};
ghost use Rattle.registry.specs.View.{view_of};
ghost use Rattle.diff_lines.specs.Comparing.{Compares};

use diff_lines::{CompareOutcome, differences};
use diff_slices::gathered;
use registry::image::RegistryImage;
use ring_rows::ListedRows;
use row_node::NodeRow;

// The rows that are LISTED or SETTING, by position.
#[unsafe(no_mangle)]
pub extern "C" fn lathepetal_listed_rows(picture: RegistryImage) -> ListedRows
    ensures { (result ≡ filled_rows (listed_entries 1 (firsts (λ (e : code.NodeEntry). e) picture.units picture.entries)))
        × (node_rows_in result ≡ listed_rows (view_of picture)) }
{
    picture.listed_rows()
}

// The differences from the first list of rows to the second, a line each, from the start of `out`; or 2, 20 or 21, and nothing is written.
#[unsafe(no_mangle)]
pub extern "C" fn lathepetal_compare(
    first: &[NodeRow],
    second: &[NodeRow],
    out: &mut [u8],
) -> CompareOutcome
    ensures { Compares (compare (map node_row_of first.now) (map node_row_of second.now) (length out.old))
        out.old result out.new }
{
    let before = gathered(first);
    let after = gathered(second);
    differences(out, &before, &after)
}
