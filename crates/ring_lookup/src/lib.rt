// Where a pair is listed.
#![tactic(auto)]

ghost use Rattle.std.specs.Prelude.{◌≡◌, map, take};
ghost use Rattle.rules.specs.House.{max_units};
ghost use Rattle.rules.specs.Listing.{first_of, entries_from, lookup_number, lookup_position, lookup_address};
ghost use Rattle.wire_pairs.specs.View.{pair_in};
ghost use Rattle.row_entry.specs.View.{row_of};
ghost use Rattle.ring_lookup.specs.View.{lookup_of};

use numbers::{DONE, Refusal};
use row_entry::NodeEntry;
use wire_address::{LogicalNodeAddress, NodePosition};
use wire_pairs::Pair;

// Where a pair is listed.
#[derive(Clone, Copy)]
pub struct Place {
    pub position: NodePosition,
    pub address: LogicalNodeAddress,
}

// The number given back, 0 where the pair is listed, and the place, zeros beside a refusal.
// C interface: a number beside the place, as LookupOutcome has them.
#[tactic(auto, unfolding(rules::specs::Listing::lookup_number, rules::specs::Listing::lookup_position, rules::specs::Listing::lookup_address))]
pub fn number_and_place(answer: Result<Place, Refusal>) -> (u8, Place)
    ensures { (result.0 ≡ lookup_number (lookup_of answer)) × (result.1.position.0 ≡ lookup_position (lookup_of answer))
        × (result.1.address.0 ≡ lookup_address (lookup_of answer)) }
{
    match answer {
        Ok(place) => (DONE, place),
        Err(refusal) => (
            refusal.number(),
            Place {
                position: NodePosition(0),
                address: LogicalNodeAddress(0),
            },
        ),
    }
}

// The first of the entries that keeps the pair, or 17. The entries behind the 63 that a ring can have are not looked at.
pub fn find(entries: &[NodeEntry], pair: Pair) -> Result<Place, Refusal>
    ensures { lookup_of result ≡ first_of (pair_in pair) (entries_from 1 (map row_of (take max_units entries.now))) }
{
    let ring = &entries[..row_entry::clamp(entries.len())];
    for (i, entry) in ring.iter().enumerate() {
        if entry.pairs().holds(pair) {
            return Ok(Place {
                position: NodePosition(i as u8 + 1),
                address: entry.address,
            });
        }
    }
    Err(Refusal::NotListed)
}
