// One walk over the ring beside a node: who claims its address, and which of its pairs are held.
ghost use Rattle.std.specs.Prelude.{◌≡◌, map, cond, eqb};
ghost use Rattle.rules.specs.Picture.{no_row};
ghost use Rattle.wire_pairs.specs.View.{pairs_of};
ghost use Rattle.row_entry.specs.View.{row_of};
ghost use Rattle.ring_answer.specs.Beside.{beside, Surveys};

use ring_entries::claims::Claims;
use row_entry::NodeEntry;
use row_judge::held;
use sizes::MAX_PAIRS;
use wire_address::LogicalNodeAddress;
use wire_pairs::Pairs;

// The claims of the other entries on an address, and a mark for each announced pair that one of them keeps.
#[derive(Clone, Copy)]
pub struct Survey {
    pub claims: Claims,
    pub held: [bool; MAX_PAIRS],
}

// The entry at place i, or what stands for no position in the seat.
fn seen_at(entry: &NodeEntry, i: usize, seat: usize) -> NodeEntry
    ensures { row_of result ≡ cond (eqb i seat) no_row (row_of entry.now) }
{
    if i == seat {
        NodeEntry::absent()
    } else {
        *entry
    }
}

// What the entries but the one in the seat say of an announcement.
pub fn survey_of(
    entries: &[NodeEntry],
    seat: usize,
    address: LogicalNodeAddress,
    announced: &Pairs,
) -> Survey
    ensures { Surveys (beside seat (map row_of entries.now)) address.0 (pairs_of announced.now) result }
{
    let mut claims = Claims {
        barred: false,
        kept: false,
    };
    let mut held = [false; MAX_PAIRS];
    for (i, entry) in entries.iter().enumerate() {
        let other = seen_at(entry, i, seat);
        claims = claims.with(&other, address);
        held::mark_held(&mut held, &other.pairs(), announced);
    }
    Survey { claims, held }
}
