// What is told of entries that have changed, and the SET of a renumbering.
ghost use Rattle.std.specs.Prelude.{◌+◌, ◌≤◌, map, length};
ghost use Rattle.laws.specs.Buffers.{Wrote};
ghost use Rattle.rules.specs.House.{max_units};
ghost use Rattle.rules.specs.Order.{encode_all};
ghost use Rattle.rules.specs.Step.{set_order};
ghost use Rattle.row_entry.specs.View.{row_of};
ghost use Rattle.row_renumber.specs.Marks.{renumbering_of};
ghost use Rattle.ring_state.specs.State.{state_of};
ghost use Rattle.wire_pairs.specs.View.{zip_pairs};
ghost use Rattle.ring_tell.specs.Told.{row_told, rows_told, change_told, reply_told};

use super::asks::Which;
use super::{asks, changes};
use ring_state::RegistryState;
use row_entry::NodeEntry;
use row_renumber::renumber::Offer;
use wire_address::{LogicalNodeAddress, NodePosition};
use wire_orders::Delta;

// INVALID and NEW for one entry, where the state is OK.
fn tell_entry(
    out: &mut [u8],
    pass: u32,
    state: RegistryState,
    size: u8,
    before: &NodeEntry,
    after: &NodeEntry,
) -> usize
    requires { (3 ≤ size) × (length (encode_all pass (row_told (state_of state.0) size (row_of before.now) (row_of after.now))) ≤ length out.old) }
    ensures { Wrote out.old 0 (encode_all pass (row_told (state_of state.0) size (row_of before.now) (row_of after.now))) result out.new }
{
    if !state.is_ok() {
        return 0;
    }
    let at = changes::write_change(out, 0, pass, Delta::Invalid, size, before, after);
    changes::write_change(out, at, pass, Delta::New, size, before, after)
}

// INVALID and NEW for the entries, where the state is OK.
pub fn tell_entries(
    out: &mut [u8],
    pass: u32,
    state: RegistryState,
    size: u8,
    before: &[NodeEntry],
    after: &[NodeEntry],
) -> usize
    requires { (3 ≤ size)
        × (length (encode_all pass (rows_told (state_of state.0) size (map row_of before.now) (map row_of after.now))) ≤ length out.old) }
    ensures { Wrote out.old 0 (encode_all pass (rows_told (state_of state.0) size (map row_of before.now) (map row_of after.now)))
        result out.new }
{
    if !state.is_ok() {
        return 0;
    }
    let at = changes::write_changes(out, 0, pass, Delta::Invalid, size, before, after);
    changes::write_changes(out, at, pass, Delta::New, size, before, after)
}

// What a ring change in OK asks and tells: the ASKs for the entries, and INVALID for the pairs listed so far, which stand in two
// slices, as C's Listing holds them.
pub fn tell_ring_change(
    out: &mut [u8],
    pass: u32,
    size: u8,
    entries: &[NodeEntry],
    blocks: &[u8],
    numbers: &[u8],
) -> usize
    requires { (3 ≤ size) × (length entries.now ≤ max_units)
        × (length (encode_all pass (change_told size (map row_of entries.now) (zip_pairs blocks.now numbers.now))) ≤ length out.old) }
    ensures { Wrote out.old 0
        (encode_all pass (change_told size (map row_of entries.now) (zip_pairs blocks.now numbers.now)))
        result out.new }
{
    let asked = asks::write_asks(out, 0, pass, entries, Which::Open);
    wire_orders::write_deltas(out, asked, pass, Delta::Invalid, size, blocks, numbers)
}

// The SET of a renumbering, to the address that is kept.
fn write_renumbering(
    out: &mut [u8],
    at: usize,
    pass: u32,
    position: NodePosition,
    address: LogicalNodeAddress,
    step: Option<Offer>,
) -> usize
    requires { at + length (encode_all pass (set_order position.0 address.0 (renumbering_of step))) ≤ length out.old }
    ensures { Wrote out.old at (encode_all pass (set_order position.0 address.0 (renumbering_of step))) result out.new }
{
    match step {
        None => at,
        Some(offer) => wire_orders::write_set(
            out,
            at,
            pass,
            position,
            address,
            offer.pair.block,
            offer.pair.number,
            offer.new,
        ),
    }
}

// What is told where one entry becomes another: INVALID and NEW, and the SET of a renumbering to the address that is kept.
pub fn tell_reply(
    out: &mut [u8],
    pass: u32,
    state: RegistryState,
    size: u8,
    before: &NodeEntry,
    after: &NodeEntry,
    position: NodePosition,
    address: LogicalNodeAddress,
    step: Option<Offer>,
) -> usize
    requires { (3 ≤ size)
        × (length (encode_all pass (reply_told (state_of state.0) size (row_of before.now) (row_of after.now)
        position.0 address.0 (renumbering_of step))) ≤ length out.old) }
    ensures { Wrote out.old 0
        (encode_all pass (reply_told (state_of state.0) size (row_of before.now) (row_of after.now) position.0 address.0 (renumbering_of step)))
        result out.new }
{
    let told = tell_entry(out, pass, state, size, before, after);
    write_renumbering(out, told, pass, position, address, step)
}
