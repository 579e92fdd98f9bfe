// The whole listing, flat: by position and announced order.
#![tactic(auto)]

ghost use Rattle.std.specs.Prelude.{◌≡◌, ◌+◌, ◌<◌, ◌≤◌, List, [], ◌∷◌, ◌++◌, map, length, take};
ghost use Rattle.rules.specs.House.{max_entries, max_pairs, max_units};
ghost use Rattle.rules.specs.Picture.{kept_in};
ghost use Rattle.rules.specs.Listing.{Entry, entry, entries_of, entries_from};
ghost use Rattle.wire_pairs.specs.View.{pair_in};
ghost use Rattle.row_entry.specs.View.{row_of};
ghost use Rattle.ring_listing.specs.View.{flat_of};

use row_entry::NodeEntry;
use sizes::MAX_LISTED;
use wire_address::NodePosition;

// The first `count` places hold entries: a position, an address, a block and a number each. The places behind them hold zeros.
// C interface: a count and four arrays side by side, in this order.
#[repr(C)]
#[derive(Clone, Copy)]
pub struct Listing {
    pub count: usize,
    pub positions: [u8; MAX_LISTED],
    pub addresses: [u16; MAX_LISTED],
    pub blocks: [u8; MAX_LISTED],
    pub numbers: [u8; MAX_LISTED],
}

impl Listing {
    // No entries.
    #[tactic(auto, unfolding(crate::specs::View::flat_of, crate::specs::View::filled))]
    fn none() -> Self
        ensures { result ≡ flat_of [] }
    {
        Listing {
            count: 0,
            positions: [0; MAX_LISTED],
            addresses: [0; MAX_LISTED],
            blocks: [0; MAX_LISTED],
            numbers: [0; MAX_LISTED],
        }
    }

    // The pairs that a node keeps, behind these. The count is told once, behind them all: a place that went on in the lent listing would
    // be read again for each of its four bytes.
    fn list(&mut self, position: NodePosition, node: &NodeEntry)
        requires { self.old.count + max_pairs ≤ max_entries }
        ensures count { self.new.count ≤ self.old.count + max_pairs }
        ensures entries { (es : List Entry) → self.old ≡ flat_of es → self.new ≡ flat_of (es ++ entries_of position.0 (kept_in (row_of node.now))) }
    {
        let pairs = node.pairs();
        let address = node.address;
        let at = self.count;
        for i in 0..pairs.len() {
            let pair = pairs.at(i);
            self.positions[at + i] = position.0;
            self.addresses[at + i] = address.0;
            self.blocks[at + i] = pair.block;
            self.numbers[at + i] = pair.number;
        }
        self.count = at + pairs.len();
    }
}

// The listing of the nodes; the first one has position 1. The nodes behind the 63 units that a ring can have are not listed.
pub fn listing_of(nodes: &[NodeEntry]) -> Listing
    ensures { (result ≡ flat_of (entries_from 1 (map row_of (take max_units nodes.now))))
        × (length (entries_from 1 (map row_of (take max_units nodes.now))) ≤ max_entries) }
{
    let ring = &nodes[..row_entry::clamp(nodes.len())];
    let mut listing = Listing::none();
    for (i, node) in ring.iter().enumerate() {
        listing.list(NodePosition(i as u8 + 1), node);
    }
    listing
}
