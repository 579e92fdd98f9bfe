// INVALID and NEW for entries that have changed, by position.
ghost use Rattle.std.specs.Prelude.{◌≡◌, ◌+◌, ◌≤◌, map, length};
ghost use Rattle.laws.specs.Buffers.{Wrote};
ghost use Rattle.rules.specs.Order.{encode_all};
ghost use Rattle.rules.specs.Ending.{tell, tell_rows};
ghost use Rattle.wire_pairs.specs.View.{pairs_of};
ghost use Rattle.row_entry.specs.View.{row_of};
ghost use Rattle.wire_orders.specs.View.{delta_of};
ghost use Rattle.ring_tell.specs.View.{changes_of};

use row_entry::NodeEntry;
use wire_orders::{Delta, write_delta};
use wire_pairs::Pairs;

// The pairs that an entry newly keeps, or no longer keeps. No closure: the order is written with its kind.
#[tactic(auto, unfolding(rules::specs::Ending::gained, rules::specs::Ending::lost))]
fn changes(delta: Delta, before: &NodeEntry, after: &NodeEntry) -> Pairs
    ensures { pairs_of result ≡ changes_of delta (row_of before.now) (row_of after.now) }
{
    let old = before.pairs();
    let new = after.pairs();
    match delta {
        Delta::New => new.missing(&old),
        Delta::Invalid => old.missing(&new),
    }
}

// INVALID or NEW for one entry.
pub(crate) fn write_change(
    out: &mut [u8],
    at: usize,
    pass: u32,
    delta: Delta,
    size: u8,
    before: &NodeEntry,
    after: &NodeEntry,
) -> usize
    requires { (3 ≤ size)
        × (at + length (encode_all pass (tell (delta_of delta) size (changes_of delta (row_of before.now) (row_of after.now)))) ≤ length out.old) }
    ensures { Wrote out.old at (encode_all pass (tell (delta_of delta) size (changes_of delta (row_of before.now) (row_of after.now))))
        result out.new }
{
    let pairs = changes(delta, before, after);
    write_delta(out, at, pass, delta, size, &pairs)
}

// INVALID or NEW for the entries: the pairs that an entry no longer keeps, or newly keeps, entries separately.
pub(crate) fn write_changes(
    out: &mut [u8],
    at: usize,
    pass: u32,
    delta: Delta,
    size: u8,
    before: &[NodeEntry],
    after: &[NodeEntry],
) -> usize
    requires { (3 ≤ size)
        × (at + length (encode_all pass (tell_rows (delta_of delta) (changes_of delta) size (map row_of before.now) (map row_of after.now))) ≤ length out.old) }
    ensures { Wrote out.old at (encode_all pass (tell_rows (delta_of delta) (changes_of delta) size (map row_of before.now) (map row_of after.now)))
        result out.new }
{
    let mut end = at;
    for (old, new) in before.iter().zip(after) {
        end = write_change(out, end, pass, delta, size, old, new);
    }
    end
}
