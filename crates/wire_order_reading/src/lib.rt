// Order records: what their bytes say.
#![tactic(auto)]

ghost use Rattle.std.specs.Prelude.{◌≡◌, get_or};
ghost use Rattle.rules_unit.specs.Reading.{length_by, order_length, order_by, decode_order};
ghost use Rattle.wire_order_reading.specs.View.{order_of, order_in, set_in, record_in};

use wire_address::{LogicalNodeAddress, NodePosition};
use wire_octets::octet;
use wire_orders::{
    ASK, ASK_BODY, COUNT, HEAD, INVALID, KIND, MARK_FIRST, MARK_SECOND, NEW, NOTOK, OK, PASS, SET,
    SET_ADDRESS, SET_BLOCK, SET_BODY, SET_NEW, SET_OLD, WAIT_LONG, WAIT_SHORT,
};
use wire_pairs::PAIR;

// Where the pairs of a NEW or an INVALID begin.
pub const PAIRS: usize = HEAD + COUNT;

// An order. The pairs of a NEW and of an INVALID stay in the bytes, from `PAIRS` on.
#[derive(Clone, Copy)]
pub enum Order {
    Ask(NodePosition),
    Set {
        position: NodePosition,
        address: LogicalNodeAddress,
        block: u8,
        old: u8,
        new: u8,
    },
    Ok,
    NotOk,
    New,
    Invalid,
    WaitShort,
    WaitLong,
}

// An order, and the pass that it carries.
#[derive(Clone, Copy)]
pub struct OrderRecord {
    pub pass: u32,
    pub order: Order,
}

// How long an order is, by its kind and by the count behind its pass. A kind is matched as the byte that it is: an enum of kinds beside
// `Order` would name each order twice.
fn length_by(kind: u8, count: u8) -> usize
    ensures { result ≡ length_by kind count }
{
    match kind {
        ASK => HEAD + ASK_BODY,
        SET => HEAD + SET_BODY,
        NEW | INVALID => PAIRS + PAIR * usize::from(count),
        _ => HEAD,
    }
}

// How many bytes an order has that begins with these.
pub fn order_length(bytes: &[u8]) -> usize
    ensures { result ≡ order_length bytes.now }
{
    length_by(octet(bytes, KIND), octet(bytes, HEAD))
}

// A SET: where the unit sits, its address, and what it is to renumber.
fn set_in(bytes: &[u8]) -> Order
    ensures { order_of result bytes.now ≡ set_in bytes.now }
{
    let address = HEAD + SET_ADDRESS;
    let high = octet(bytes, address);
    let low = octet(bytes, address + 1);
    Order::Set {
        position: NodePosition(octet(bytes, HEAD)),
        address: LogicalNodeAddress(wire_octets::word(high, low) as u16),
        block: octet(bytes, HEAD + SET_BLOCK),
        old: octet(bytes, HEAD + SET_OLD),
        new: octet(bytes, HEAD + SET_NEW),
    }
}

// What an order of this kind says.
fn order_by(kind: u8, bytes: &[u8]) -> Option<Order>
    ensures { order_in result bytes.now ≡ order_by kind bytes.now }
{
    match kind {
        ASK => Some(Order::Ask(NodePosition(octet(bytes, HEAD)))),
        SET => Some(set_in(bytes)),
        OK => Some(Order::Ok),
        NOTOK => Some(Order::NotOk),
        NEW => Some(Order::New),
        INVALID => Some(Order::Invalid),
        WAIT_SHORT => Some(Order::WaitShort),
        WAIT_LONG => Some(Order::WaitLong),
        _ => None,
    }
}

// What an order's bytes say, if they are an order.
pub fn decode_order(bytes: &[u8]) -> Option<OrderRecord>
    ensures { record_in result bytes.now ≡ decode_order bytes.now }
{
    if bytes.len() != order_length(bytes) {
        return None;
    }
    if bytes[0] != MARK_FIRST || bytes[1] != MARK_SECOND {
        return None;
    }
    let order = order_by(bytes[KIND], bytes)?;
    Some(OrderRecord {
        pass: wire_octets::read4(bytes, PASS),
        order,
    })
}
