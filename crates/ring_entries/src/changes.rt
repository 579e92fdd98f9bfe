// What becomes of every entry: asked, emptied, or counted as bad.
ghost use Rattle.std.specs.Prelude.{◌≡◌, map, suc, ◌<◌, length};
ghost use Rattle.rules.specs.Picture.{seat_at};
ghost use Rattle.rules.specs.Step.{asked, emptied, on_counted};
ghost use Rattle.laws.specs.Alls.{All, Each};
ghost use Rattle.row_entry.specs.View.{row_of};
ghost use Rattle.row_entry.specs.Marks.{Marked};
ghost use Rattle.ring_entries.specs.Verdicts.{verdict_of, counts_for, struck, struck_if};

use super::verdict::Verdict;
use row_entry::NodeEntry;
use wire_address::LogicalNodeAddress;

// Every entry becomes what `step` makes of it.
fn all_changed<F: Fn(NodeEntry) -> NodeEntry>(entries: &mut [NodeEntry], step: F)
    requires { F.IsAlwaysCallable step }
    ensures { Each (λ e n. F.post step e n) entries.old entries.new }
{
    for entry in entries.iter_mut() {
        *entry = step(*entry);
    }
}

// DELAY: every SILENT entry is asked.
pub fn all_asked(entries: &mut [NodeEntry])
    ensures { (map row_of entries.new ≡ map asked (map row_of entries.old)) × (All Marked entries.old → All Marked entries.new) }
{
    all_changed(entries, |entry| entry.asked());
}

// A restart: every entry that is not IGNORED is emptied and asked.
pub fn all_emptied(entries: &mut [NodeEntry])
    ensures { (map row_of entries.new ≡ map emptied (map row_of entries.old)) × (All Marked entries.old → All Marked entries.new) }
{
    all_changed(entries, |entry| entry.emptied());
}

// A bad announcement is counted for the entry; at the limit it is IGNORED for the announced address.
#[tactic(auto, unfolding(crate::specs::Verdicts::struck))]
fn strike(entry: NodeEntry, limit: bool, address: LogicalNodeAddress) -> NodeEntry
    ensures { (row_of result ≡ struck limit address.0 (row_of entry)) × (Marked entry → Marked result) }
{
    let counted = entry.counted();
    if limit {
        counted.ignored(address)
    } else {
        counted
    }
}

// A bad announcement is counted for every entry that it counts for; at the limit all these are IGNORED for the announced address.
pub fn all_struck(
    entries: &mut [NodeEntry],
    verdict: Verdict,
    limit: bool,
    address: LogicalNodeAddress,
)
    ensures { (map row_of entries.new ≡ map (struck_if (verdict_of verdict) limit address.0) (map row_of entries.old))
        × (All Marked entries.old → All Marked entries.new) }
{
    all_changed(entries, |entry| {
        if verdict.counts_for(&entry, address) {
            strike(entry, limit, address)
        } else {
            entry
        }
    });
}

// A bad announcement of the node in the seat is counted for it and for those that it counts for beside it; at the limit all these are
// IGNORED for the announced address.
pub fn all_counted(
    entries: &mut [NodeEntry],
    seat: usize,
    verdict: Verdict,
    limit: bool,
    address: LogicalNodeAddress,
)
    requires { seat < length entries.old }
    ensures { (map row_of entries.new ≡ on_counted (counts_for (verdict_of verdict) address.0) (struck limit address.0)
        (seat_at (map row_of entries.old) (suc seat))) × (All Marked entries.old → All Marked entries.new) }
{
    let own = strike(entries[seat], limit, address);
    all_struck(entries, verdict, limit, address);
    entries[seat] = own;
}
