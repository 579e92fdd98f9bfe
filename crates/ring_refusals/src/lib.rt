// Why a record is refused, 2 to 8, from what was read of it and what the picture says of it.
#![tactic(auto)]

ghost use Rattle.std.specs.Prelude.{◌≡◌, map, ◌≤◌, ◌<◌, length, get_or, IfOk};
ghost use Rattle.std.proofs.Math.Option.{some};
ghost use Rattle.rules.specs.House.{max_units};
ghost use Rattle.rules.specs.Picture.{no_row};
ghost use Rattle.numbers.specs.Numbers.{number_in};
ghost use Rattle.row_entry.specs.View.{row_of};
ghost use Rattle.wire_events.specs.View.{event_of, event_in};
ghost use Rattle.ring_state.specs.State.{state_of, state_row};
ghost use Rattle.ring_refusals.specs.Numbers.{refusal_of, kind_in, number_or_none, place_in, seat_in, seat_refusal, unasked_number, unexpected_number, reply_refusal};

use numbers::Refusal;
use ring_state::{NOTOK, OFF, RegistryState};
use row_entry::NodeEntry;
use sizes::MAX_UNITS;
use wire_address::NodePosition;
use wire_events::Event;

// What the table says: taken, the ring does not run, it runs already.
const TAKEN: Option<Refusal> = None;

const IDLE: Option<Refusal> = Some(Refusal::NotRunning);

const RUNS: Option<Refusal> = Some(Refusal::AlreadyRunning);

// The refusals by state and kind: a row for each of OFF, NOTOK and OK, and in it START, NCE, SHUTDOWN, ANSWER, NONE and DELAY.
const REFUSALS: [[Option<Refusal>; 6]; 3] = [
    [TAKEN, IDLE, IDLE, IDLE, IDLE, IDLE],
    [RUNS, TAKEN, TAKEN, TAKEN, TAKEN, TAKEN],
    [RUNS, TAKEN, TAKEN, TAKEN, TAKEN, TAKEN],
];

// The table's row for a state.
#[tactic(auto, unfolding(ring_state::specs::State::state_row))]
fn row_of(state: RegistryState) -> usize
    ensures { (result ≡ state_row state.0) × (result < 3) }
{
    match state.0 {
        OFF => 0,
        NOTOK => 1,
        _ => 2,
    }
}

// The table's column for an event.
#[tactic(auto, unfolding(crate::specs::Numbers::kind_in))]
fn kind_of(event: &Event) -> usize
    ensures { (result ≡ kind_in (event_of event.now)) × (result < 6) }
{
    match event {
        Event::Start(_) => 0,
        Event::NetworkChange(_) => 1,
        Event::Shutdown => 2,
        Event::Answer { .. } => 3,
        Event::NoAnswer { .. } => 4,
        Event::DelayExpired { .. } => 5,
    }
}

// What the table has for an event: 3, 4, or none where it takes it.
fn listed(state: RegistryState, event: &Event) -> Option<Refusal>
    ensures { number_or_none result ≡ refusal_of (state_of state.0) (some (event_of event.now)) }
{
    REFUSALS[row_of(state)][kind_of(event)]
}

// 2 for bytes that are no event; 3 or 4 by the table.
#[tactic(auto, unfolding(crate::specs::Numbers::refusal_of))]
pub fn refusal(state: RegistryState, read: &Option<Event>) -> Result<(), Refusal>
    ensures { number_in result ≡ refusal_of (state_of state.0) (event_in read.now) }
{
    let Some(event) = read else {
        return Err(Refusal::RecordMalformed);
    };
    match listed(state, event) {
        None => Ok(()),
        Some(refusal) => Err(refusal),
    }
}

// The entry of a position that answers in the pass; 5 for another pass, 6 where the ring has no such position, 7 where it is IGNORED.
#[tactic(auto, unfolding(crate::specs::Numbers::seat_refusal, crate::specs::Numbers::place_in))]
fn answering(
    current: u32,
    entries: &[NodeEntry],
    pass: u32,
    position: NodePosition,
) -> Result<NodeEntry, Refusal>
    ensures number { number_in result
        ≡ seat_refusal current (length entries.now) (get_or (map row_of entries.now) (place_in position.0) no_row) pass position.0 }
    ensures entry { IfOk result (λ e. row_of e ≡ get_or (map row_of entries.now) (place_in position.0) no_row) }
{
    if pass != current {
        return Err(Refusal::WrongPass);
    }
    let x = position.0 as usize;
    if x == 0 || entries.len().min(MAX_UNITS) < x {
        return Err(Refusal::NoSuchPosition);
    }
    let entry = entries[x - 1];
    if entry.is_ignored() {
        return Err(Refusal::PositionIgnored);
    }
    Ok(entry)
}

// 8 for an ANSWER in NOTOK whose question is not open.
#[tactic(auto, unfolding(rules::specs::Picture::is_not_ok, ring_state::specs::State::state_of))]
fn unasked(state: RegistryState, entry: &NodeEntry) -> Result<(), Refusal>
    ensures { number_in result ≡ unasked_number (state_of state.0) (row_of entry.now) }
{
    if state.0 == NOTOK && !entry.is_open() {
        return Err(Refusal::NotAsked);
    }
    Ok(())
}

// 8 for a NONE whose question is not open.
fn unexpected(entry: &NodeEntry) -> Result<(), Refusal>
    ensures { number_in result ≡ unexpected_number (row_of entry.now) }
{
    if !entry.is_open() {
        return Err(Refusal::NotAsked);
    }
    Ok(())
}

// 5 to 8 for an ANSWER or a NONE.
#[tactic(auto, using(crate::proofs::Firsts::or_refused), unfolding(crate::specs::Numbers::reply_refusal, crate::specs::Numbers::seat_in, crate::specs::Numbers::or_else))]
pub fn reply_refusal(
    state: RegistryState,
    current: u32,
    entries: &[NodeEntry],
    read: &Option<Event>,
) -> Result<(), Refusal>
    ensures { number_in result ≡ reply_refusal (state_of state.0) current (length entries.now)
        (get_or (map row_of entries.now) (seat_in (event_in read.now)) no_row) (event_in read.now) }
{
    match *read {
        Some(Event::Answer { pass, position, .. }) => {
            let entry = answering(current, entries, pass, position)?;
            unasked(state, &entry)
        }
        Some(Event::NoAnswer { pass, position }) => {
            let entry = answering(current, entries, pass, position)?;
            unexpected(&entry)
        }
        _ => Ok(()),
    }
}
