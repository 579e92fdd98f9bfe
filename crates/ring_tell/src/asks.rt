// The ASKs for the entries of a ring, by position.
ghost use Rattle.std.specs.Prelude.{◌≡◌, [], ◌∷◌, ◌+◌, ◌≤◌, map, length};
ghost use Rattle.laws.specs.Buffers.{Wrote};
ghost use Rattle.rules.specs.House.{max_units};
ghost use Rattle.rules.specs.Order.{encode_all};
ghost use Rattle.rules.specs.Step.{asks};
ghost use Rattle.row_entry.specs.View.{row_of};
ghost use Rattle.ring_tell.specs.View.{which_of};

use row_entry::NodeEntry;
use wire_address::NodePosition;
use wire_orders::write_ask;

// The entries that are asked: those whose question is open, or the SILENT ones. A name, and no closure: the clauses say by it which rows
// are asked, where a closure would need the rules' test beside it.
#[derive(Clone, Copy)]
pub enum Which {
    Open,
    Silent,
}

// The entry is one that is asked.
fn is_asked(which: Which, entry: &NodeEntry) -> bool
    ensures { result ≡ which_of which (row_of entry.now) }
{
    match which {
        Which::Open => entry.is_open(),
        Which::Silent => entry.is_silent(),
    }
}

// The ASK for one entry, if it is asked.
fn write_ask_if(
    out: &mut [u8],
    at: usize,
    pass: u32,
    which: Which,
    position: NodePosition,
    entry: &NodeEntry,
) -> usize
    requires { at + length (encode_all pass (asks (which_of which) position.0 (row_of entry.now ∷ []))) ≤ length out.old }
    ensures { Wrote out.old at (encode_all pass (asks (which_of which) position.0 (row_of entry.now ∷ []))) result out.new }
{
    if is_asked(which, entry) {
        write_ask(out, at, pass, position)
    } else {
        at
    }
}

// The ASKs for the entries, as far as they are asked, ascending.
pub fn write_asks(
    out: &mut [u8],
    at: usize,
    pass: u32,
    entries: &[NodeEntry],
    which: Which,
) -> usize
    requires { (length entries.now ≤ max_units) × (at + length (encode_all pass (asks (which_of which) 1 (map row_of entries.now))) ≤ length out.old) }
    ensures { Wrote out.old at (encode_all pass (asks (which_of which) 1 (map row_of entries.now))) result out.new }
{
    let mut end = at;
    for (i, entry) in entries.iter().enumerate() {
        end = write_ask_if(out, end, pass, which, NodePosition(i as u8 + 1), entry);
    }
    end
}
