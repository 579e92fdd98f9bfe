// The ending of an event: OK, and the wait for silent nodes.
#![tactic(auto)]

ghost use Rattle.std.specs.Prelude.{◌≡◌, cond, not, ◌&&◌, ◌||◌, [], ◌∷◌, ◌+◌, ◌≤◌, length};
ghost use Rattle.laws.specs.Buffers.{Wrote};
ghost use Rattle.rules.specs.Picture.{Ok, is_not_ok, is_ok};
ghost use Rattle.rules.specs.Order as order;
ghost use Rattle.rules.specs.Order.{WAIT_SHORT, WAIT_LONG, encode_all};
ghost use Rattle.wire_orders.specs.View.{notice_of};
ghost use Rattle.ring_state.specs.State.{state_of, runs, last_state, last_delay};
ghost use Rattle.ring_ending.specs.Closing.{closing_orders, Closes};

use ring_entries::outlook::Outlook;
use ring_state::{CfgDelay, NOTOK, OK, RUNNING, RegistryState, STOPPED};
use wire_orders::Notice;

// What an ending makes of the registry's marks, and where its orders end.
#[derive(Clone, Copy)]
pub struct Closed {
    pub state: RegistryState,
    pub delay: CfgDelay,
    pub end: usize,
}

// A scan is over: it runs, and no question is open.
#[tactic(auto, unfolding(rules::specs::Picture::is_not_ok, ring_state::specs::State::state_of))]
fn becomes_ok(state: RegistryState, seen: Outlook) -> bool
    ensures { result ≡ is_not_ok (state_of state.0) && not seen.open }
{
    state.0 == NOTOK && !seen.open
}

// The state, OK where the scan is over.
#[tactic(auto, unfolding(ring_state::specs::State::state_of))]
fn settled(state: RegistryState, ok: bool) -> RegistryState
    ensures { (state_of result.0 ≡ cond ok Ok (state_of state.0)) × (state.0 ≤ last_state → result.0 ≤ last_state) }
{
    if ok { RegistryState(OK) } else { state }
}

// A delay starts: the state is OK, no question is open, a node is SILENT and no delay runs.
#[tactic(auto, unfolding(ring_state::specs::State::runs))]
fn starts_delay(state: RegistryState, delay: CfgDelay, seen: Outlook) -> bool
    ensures { result ≡ is_ok (state_of state.0) && not seen.open && seen.silent && not (runs delay.0) }
{
    state.is_ok() && !seen.open && seen.silent && delay.0 == STOPPED
}

// The delay, running where one starts.
#[tactic(auto, unfolding(ring_state::specs::State::runs))]
fn delayed(delay: CfgDelay, starts: bool) -> CfgDelay
    ensures { (runs result.0 ≡ runs delay.0 || starts) × (delay.0 ≤ last_delay → result.0 ≤ last_delay) }
{
    if starts { CfgDelay(RUNNING) } else { delay }
}

// The order OK, where the scan is over.
fn write_ok(out: &mut [u8], at: usize, pass: u32, ok: bool) -> usize
    requires { at + length (encode_all pass (cond ok (order.OK ∷ []) [])) ≤ length out.old }
    ensures { Wrote out.old at (encode_all pass (cond ok (order.OK ∷ []) [])) result out.new }
{
    if ok {
        wire_orders::write_notice(out, at, pass, Notice::Ok)
    } else {
        at
    }
}

// The wait of a delay: a short one, or a long one.
fn wait_of(short: bool) -> Notice
    ensures { notice_of result ≡ cond short WAIT_SHORT WAIT_LONG }
{
    if short {
        Notice::WaitShort
    } else {
        Notice::WaitLong
    }
}

// The wait that starts a delay.
fn write_wait(out: &mut [u8], at: usize, pass: u32, starts: bool, short: bool) -> usize
    requires { at + length (encode_all pass (cond starts (cond short WAIT_SHORT WAIT_LONG ∷ []) [])) ≤ length out.old }
    ensures { Wrote out.old at (encode_all pass (cond starts (cond short WAIT_SHORT WAIT_LONG ∷ []) [])) result out.new }
{
    if starts {
        wire_orders::write_notice(out, at, pass, wait_of(short))
    } else {
        at
    }
}

// The ending of an event that left these marks and this outlook, behind the orders written up to `at`: OK where the scan is over, and a
// wait where a delay starts.
pub fn close(
    out: &mut [u8],
    at: usize,
    pass: u32,
    state: RegistryState,
    delay: CfgDelay,
    seen: Outlook,
) -> Closed
    requires { at + length (encode_all pass (closing_orders (state_of state.0) (runs delay.0) seen.open seen.silent seen.short)) ≤ length out.old }
    ensures { Closes (state_of state.0) (runs delay.0) seen.open seen.silent seen.short pass out.old at result out.new
        × (state.0 ≤ last_state → result.state.0 ≤ last_state) × (delay.0 ≤ last_delay → result.delay.0 ≤ last_delay) }
{
    let ok = becomes_ok(state, seen);
    let next = settled(state, ok);
    let starts = starts_delay(next, delay, seen);
    let told = write_ok(out, at, pass, ok);
    let end = write_wait(out, told, pass, starts, seen.short);
    Closed {
        state: next,
        delay: delayed(delay, starts),
        end,
    }
}
