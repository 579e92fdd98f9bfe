// Who reaches the limit of bad announcements.
ghost use Rattle.std.specs.Prelude.{◌≡◌, map, suc, ◌<◌, length};
ghost use Rattle.rules.specs.Picture.{seat_at};
ghost use Rattle.row_entry.specs.View.{row_of};
ghost use Rattle.ring_entries.specs.Verdicts.{verdict_of, counts_at_limit, limit_reached};

use super::verdict::Verdict;
use row_entry::NodeEntry;
use wire_address::LogicalNodeAddress;

// The announcement is counted for this entry too, which then stands at the limit.
#[tactic(auto, unfolding(crate::specs::Verdicts::counts_at_limit))]
fn counts_at_limit(entry: &NodeEntry, verdict: Verdict, address: LogicalNodeAddress) -> bool
    ensures { result ≡ counts_at_limit (verdict_of verdict) address.0 (row_of entry.now) }
{
    verdict.counts_for(entry, address) && entry.counted().at_limit()
}

// A bad announcement of the node in the seat brings one of those that it is counted for to the limit.
pub fn reaches_limit(
    entries: &[NodeEntry],
    seat: usize,
    verdict: Verdict,
    address: LogicalNodeAddress,
) -> bool
    requires { seat < length entries.now }
    ensures { result ≡ limit_reached (verdict_of verdict) address.0 (seat_at (map row_of entries.now) (suc seat)) }
{
    entries[seat].counted().at_limit()
        || entries
            .iter()
            .any(|entry| counts_at_limit(entry, verdict, address))
}
