// What an announcement comes to: a conflict of addresses, or another entry for the node and what is renumbered.
ghost use Rattle.std.specs.Prelude.{◌≡◌, map, suc, ◌<◌, ◌≤◌, length, take};
ghost use Rattle.rules.specs.House.{max_units};
ghost use Rattle.rules.specs.Picture.{Row, seat_at};
ghost use Rattle.rules.specs.Renumber.{finished};
ghost use Rattle.rules.specs.Step.{status_after};
ghost use Rattle.wire_pairs.specs.View.{pairs_of};
ghost use Rattle.laws.specs.Alls.{All};
ghost use Rattle.row_entry.specs.View.{row_of};
ghost use Rattle.row_entry.specs.Marks.{Marked};
ghost use Rattle.row_renumber.specs.Marks.{renumbering_of};
ghost use Rattle.ring_answer.specs.Beside.{beside};
ghost use Rattle.ring_answer.specs.Hearing.{Hears};

use super::survey;
use ring_entries::verdict::Verdict;
use row_entry::NodeEntry;
use row_judge::judge;
use row_renumber::renumber;
use row_renumber::renumber::Offer;
use sizes::MAX_UNITS;
use wire_address::LogicalNodeAddress;
use wire_pairs::Pairs;

// The verdict on the address; the node's entry afterwards, which a conflict leaves as it is; and what is renumbered.
#[derive(Clone, Copy)]
pub struct Heard {
    pub verdict: Verdict,
    pub next: NodeEntry,
    pub step: Option<Offer>,
}

// Nothing is renumbered.
fn unrenumbered(verdict: Verdict, next: NodeEntry) -> Heard
    ensures { (result.verdict ≡ verdict) × (result.next ≡ next) × (renumbering_of result.step ≡ finished) }
{
    Heard {
        verdict,
        next,
        step: None,
    }
}

// The entry of a node whose address is kept: LISTED, or SETTING with its renumbering.
#[tactic(auto, unfolding(rules::specs::Step::status_after))]
fn registered(address: LogicalNodeAddress, kept: &Pairs, step: Option<Offer>, bad: u8) -> NodeEntry
    ensures { (◌≡◌ {A = Row} (row_of result) (record { status = status_after address.0 (pairs_of kept.now) (renumbering_of step); bad = bad; silences = 0 }))
        × Marked result }
{
    match step {
        None => NodeEntry::listed(address, kept, bad),
        Some(offer) => NodeEntry::setting(address, kept, offer.place, offer.tries, bad),
    }
}

// The entries with none in the seat.
fn beside(entries: &[NodeEntry], seat: usize) -> [NodeEntry; MAX_UNITS]
    requires { (length entries.now ≤ max_units) × (seat < length entries.now) }
    ensures { map row_of (take (length entries.now) result) ≡ beside seat (map row_of entries.now) }
{
    let mut others = [NodeEntry::absent(); MAX_UNITS];
    others[..entries.len()].copy_from_slice(entries);
    others[seat] = NodeEntry::absent();
    others
}

// What an announcement of the node in the seat comes to, by the verdict on its address.
pub fn hear(
    entries: &[NodeEntry],
    seat: usize,
    address: LogicalNodeAddress,
    announced: &Pairs,
) -> Heard
    requires { (length entries.now ≤ max_units) × (seat < length entries.now) }
    ensures { Hears (seat_at (map row_of entries.now) (suc seat)) address.0 (pairs_of announced.now) result × (All Marked entries.now → Marked result.next) }
{
    let entry = entries[seat];
    let seen = survey::survey_of(entries, seat, address, announced);
    let verdict = seen.claims.verdict(&entry, address);
    match verdict {
        Verdict::Barred => unrenumbered(verdict, entry.ignored(address)),
        Verdict::Outside | Verdict::Duplicate | Verdict::Changed => unrenumbered(verdict, entry),
        Verdict::Fine => {
            let good = judge::judge(&seen.held, announced);
            let kept = judge::good_pairs(announced, &good);
            let step = if kept.len() == announced.len() {
                None
            } else {
                let ring = beside(entries, seat);
                let others = &ring[..entries.len()];
                renumber::renumber_from(others, announced, &good, entry.place(), entry.tries())
            };
            Heard {
                verdict,
                next: registered(address, &kept, step, entry.bad),
                step,
            }
        }
    }
}
