// Event records: what their bytes say.
#![tactic(auto)]

ghost use Rattle.std.specs.Prelude.{◌≡◌, ◌&&◌, ◌+◌, ◌*◌, ◌/◌, min, eqb, length, take};
ghost use Rattle.laws.specs.Lists.{any};
ghost use Rattle.rules.specs.House.{max_pairs};
ghost use Rattle.rules.specs.Event.{read_pairs, bad_block, good_nodes, decode_plain, decode_answer, decode};
ghost use Rattle.wire_pairs.specs.View.{pair_in, pairs_of};
ghost use Rattle.wire_events.specs.View.{event_in};

use sizes::{MAX_NODES, MAX_PAIRS};
use wire_address::{LogicalNodeAddress, NodePosition};
use wire_pairs::{PAIR, Pair, Pairs};

// The mark that an event begins with.
pub const MARK_FIRST: u8 = 0x4D;

pub const MARK_SECOND: u8 = 0x45;

// Mark, kind, pass and x.
const HEAD: usize = 8;

// The head of an ANSWER, its address and its count.
pub const ANSWER_HEAD: usize = 11;

// Where the fields of an event stand.
pub const KIND: usize = 2;

pub const PASS: usize = 3;

pub const X: usize = 7;

pub const ADDRESS: usize = 8;

pub const COUNT: usize = 10;

// The kinds of events.
pub const START: u8 = 1;

pub const NCE: u8 = 2;

pub const SHUTDOWN: u8 = 3;

pub const ANSWER: u8 = 4;

pub const NONE: u8 = 5;

pub const DELAY: u8 = 6;

// The blocks that a node may announce.
const BLOCK_MIN: u8 = 0x02;

const BLOCK_MAX: u8 = 0xFE;

// An event.
#[derive(Clone, Copy)]
pub enum Event {
    Start(u8),
    NetworkChange(u8),
    Shutdown,
    Answer {
        pass: u32,
        position: NodePosition,
        address: LogicalNodeAddress,
        pairs: Pairs,
    },
    NoAnswer {
        pass: u32,
        position: NodePosition,
    },
    DelayExpired {
        pass: u32,
    },
}

// The number of nodes is 1 to 64.
fn legal_nodes(n: u8) -> bool
    ensures { result ≡ good_nodes n }
{
    1 <= n && n <= MAX_NODES
}

// The pass is 0, and x is a number of nodes.
fn scan_fields_fit(pass: u32, x: u8) -> bool
    ensures { result ≡ eqb pass 0 && good_nodes x }
{
    pass == 0 && legal_nodes(x)
}

// Neither the pass nor x is used.
fn are_unused(pass: u32, x: u8) -> bool
    ensures { result ≡ eqb pass 0 && eqb x 0 }
{
    pass == 0 && x == 0
}

// An event of eight bytes, by its kind, its pass and its x. A kind is matched as the byte that it is: an enum of kinds beside `Event` would
// name each event twice.
fn decode_plain(kind: u8, pass: u32, x: u8) -> Option<Event>
    ensures { event_in result ≡ decode_plain kind pass x }
{
    match kind {
        START => scan_fields_fit(pass, x).then_some(Event::Start(x)),
        NCE => scan_fields_fit(pass, x).then_some(Event::NetworkChange(x)),
        SHUTDOWN => are_unused(pass, x).then_some(Event::Shutdown),
        NONE => Some(Event::NoAnswer {
            pass,
            position: NodePosition(x),
        }),
        DELAY => (x == 0).then_some(Event::DelayExpired { pass }),
        _ => None,
    }
}

// The pairs that stand in the bytes, the first of them where there are more than a node has.
pub fn read_pairs(bytes: &[u8]) -> Pairs
    ensures { (pairs_of result ≡ take max_pairs (read_pairs bytes.now)) × (result.count ≡ min max_pairs (length bytes.now / 2)) }
{
    let mut pairs = Pairs::none();
    for i in 0..MAX_PAIRS.min(bytes.len() / PAIR) {
        pairs.push(Pair {
            block: bytes[PAIR * i],
            number: bytes[PAIR * i + 1],
        });
    }
    pairs
}

// The block is one that no node may announce.
fn is_bad_block(pair: Pair) -> bool
    ensures { result ≡ bad_block (pair_in pair) }
{
    pair.block < BLOCK_MIN || BLOCK_MAX < pair.block
}

// Some pair has a block that no node may announce.
fn has_bad_block(pairs: &Pairs) -> bool
    ensures { result ≡ any bad_block (pairs_of pairs.now) }
{
    for i in 0..pairs.len() {
        if is_bad_block(pairs.at(i)) {
            return true;
        }
    }
    false
}

// ANSWER: pass, position, address and pairs.
fn decode_answer(bytes: &[u8]) -> Option<Event>
    ensures { event_in result ≡ decode_answer bytes.now }
{
    if bytes.len() < ANSWER_HEAD {
        return None;
    }
    let count = bytes[COUNT] as usize;
    if MAX_PAIRS < count || bytes.len() != ANSWER_HEAD + PAIR * count {
        return None;
    }
    let pairs = read_pairs(&bytes[ANSWER_HEAD..]);
    if has_bad_block(&pairs) {
        return None;
    }
    Some(Event::Answer {
        pass: wire_octets::read4(bytes, PASS),
        position: NodePosition(bytes[X]),
        address: LogicalNodeAddress(wire_octets::word(bytes[ADDRESS], bytes[ADDRESS + 1]) as u16),
        pairs,
    })
}

// What a record's bytes say, if they are an event.
pub fn decode(bytes: &[u8]) -> Option<Event>
    ensures { event_in result ≡ decode bytes.now }
{
    if bytes.len() < HEAD {
        return None;
    }
    if bytes[0] != MARK_FIRST || bytes[1] != MARK_SECOND {
        return None;
    }
    let kind = bytes[KIND];
    if kind == ANSWER {
        return decode_answer(bytes);
    }
    if bytes.len() != HEAD {
        return None;
    }
    decode_plain(kind, wire_octets::read4(bytes, PASS), bytes[X])
}
