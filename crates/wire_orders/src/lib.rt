// Orders: each written into a lent buffer from a place on. The place behind it is handed back, since the next order is written
// there and `Wrote` speaks of it.
#![tactic(auto)]

ghost use Rattle.std.specs.Prelude.{◌≡◌, ◌+◌, ◌*◌, ◌≤◌, ◌<◌, min, [], length};
ghost use Rattle.laws.specs.Buffers.{Wrote};
ghost use Rattle.laws.specs.Lists.{collect};
ghost use Rattle.rules.specs.Event.{pair_bytes};
ghost use Rattle.rules.specs.Order as order;
ghost use Rattle.rules.specs.Order.{kind_of, encode, encode_all};
ghost use Rattle.rules.specs.Ending.{tell};
ghost use Rattle.wire_pairs.specs.View.{zip_pairs, pairs_of};
ghost use Rattle.wire_orders.specs.View.{notice_of, delta_of, head_bytes, head_size, pair_size, list_size};

use wire_address::{LogicalNodeAddress, NodePosition};
use wire_pairs::{PAIR, Pairs};

// The mark that an order begins with.
pub const MARK_FIRST: u8 = 0x4D;

pub const MARK_SECOND: u8 = 0x4F;

// Mark, kind and pass.
pub const HEAD: usize = 7;

// Where kind and pass stand in an order.
pub const KIND: usize = 2;

pub const PASS: usize = 3;

// What stands behind the head of an ASK: the position.
pub const ASK_BODY: usize = 1;

// What stands behind the head of a SET, the position first, and where the other fields stand in it.
pub const SET_BODY: usize = 6;

pub const SET_ADDRESS: usize = 1;

pub const SET_BLOCK: usize = 3;

pub const SET_OLD: usize = 4;

pub const SET_NEW: usize = 5;

// The count that stands before pairs.
pub const COUNT: usize = 1;

// The kinds of orders.
pub const ASK: u8 = 1;

pub const SET: u8 = 2;

pub const OK: u8 = 3;

pub const NOTOK: u8 = 4;

pub const NEW: u8 = 5;

pub const INVALID: u8 = 6;

pub const WAIT_SHORT: u8 = 7;

pub const WAIT_LONG: u8 = 8;

// An order that says nothing but its kind.
#[derive(Clone, Copy)]
pub enum Notice {
    Ok,
    NotOk,
    WaitShort,
    WaitLong,
}

// An order that lists pairs: those newly kept, or those no longer kept.
#[derive(Clone, Copy)]
pub enum Delta {
    New,
    Invalid,
}

// Mark, kind and pass.
fn write_head(out: &mut [u8], at: usize, kind: u8, pass: u32) -> usize
    requires { at + head_size ≤ length out.old }
    ensures { Wrote out.old at (head_bytes kind pass) result out.new }
{
    out[at] = MARK_FIRST;
    out[at + 1] = MARK_SECOND;
    out[at + KIND] = kind;
    wire_octets::write4(out, at + PASS, pass);
    at + HEAD
}

// The kind of a notice.
impl From<Notice> for u8 {
    ghost from_gives = { λ notice k. k ≡ kind_of (notice_of notice) };

    fn from(notice: Notice) -> u8 {
        match notice {
            Notice::Ok => OK,
            Notice::NotOk => NOTOK,
            Notice::WaitShort => WAIT_SHORT,
            Notice::WaitLong => WAIT_LONG,
        }
    }
}

// OK, NOTOK, WAIT SHORT or WAIT LONG.
pub fn write_notice(out: &mut [u8], at: usize, pass: u32, notice: Notice) -> usize
    requires { at + length (encode pass (notice_of notice)) ≤ length out.old }
    ensures { Wrote out.old at (encode pass (notice_of notice)) result out.new }
{
    write_head(out, at, u8::from(notice), pass)
}

// ASK: a question goes by position.
pub fn write_ask(out: &mut [u8], at: usize, pass: u32, position: NodePosition) -> usize
    requires { at + length (encode pass (order.ASK position.0)) ≤ length out.old }
    ensures { Wrote out.old at (encode pass (order.ASK position.0)) result out.new }
{
    let body = write_head(out, at, ASK, pass);
    out[body] = position.0;
    body + ASK_BODY
}

// SET: a renumbering goes by address; the position says where the unit sits. Its fields come one by one, as the rules' SET has them, and
// position and address as two types, which paper 01 keeps apart.
pub fn write_set(
    out: &mut [u8],
    at: usize,
    pass: u32,
    position: NodePosition,
    address: LogicalNodeAddress,
    block: u8,
    old: u8,
    new: u8,
) -> usize
    requires { at + length (encode pass (order.SET position.0 address.0 block old new)) ≤ length out.old }
    ensures { Wrote out.old at (encode pass (order.SET position.0 address.0 block old new)) result out.new }
{
    let body = write_head(out, at, SET, pass);
    out[body] = position.0;
    wire_octets::write2(out, body + SET_ADDRESS, address.0 as u32);
    out[body + SET_BLOCK] = block;
    out[body + SET_OLD] = old;
    out[body + SET_NEW] = new;
    body + SET_BODY
}

// The kind of an order that lists pairs.
impl From<Delta> for u8 {
    ghost from_gives = { λ delta k. k ≡ kind_of (delta_of delta []) };

    fn from(delta: Delta) -> u8 {
        match delta {
            Delta::New => NEW,
            Delta::Invalid => INVALID,
        }
    }
}

// The bytes of the pairs of two slices: C's Listing and Pairs hold blocks and numbers so.
pub fn write_pairs(out: &mut [u8], at: usize, blocks: &[u8], numbers: &[u8]) -> usize
    requires { at + pair_size * min (length blocks.now) (length numbers.now) ≤ length out.old }
    ensures { Wrote out.old at (collect pair_bytes (zip_pairs blocks.now numbers.now)) result out.new }
{
    let mut end = at;
    for (block, number) in blocks.iter().zip(numbers) {
        out[end] = *block;
        out[end + 1] = *number;
        end += PAIR;
    }
    end
}

// One order NEW or INVALID, with the pairs of two slices.
fn write_part(
    out: &mut [u8],
    at: usize,
    pass: u32,
    delta: Delta,
    blocks: &[u8],
    numbers: &[u8],
) -> usize
    requires { (min (length blocks.now) (length numbers.now) < 256) × (at + list_size (min (length blocks.now) (length numbers.now)) ≤ length out.old) }
    ensures { Wrote out.old at (encode pass (delta_of delta (zip_pairs blocks.now numbers.now))) result out.new }
{
    let body = write_head(out, at, u8::from(delta), pass);
    out[body] = blocks.len().min(numbers.len()) as u8;
    write_pairs(out, body + COUNT, blocks, numbers)
}

// NEW or INVALID: the pairs of two slices, in their order, as many orders as L asks for; none for no pairs.
pub fn write_deltas(
    out: &mut [u8],
    at: usize,
    pass: u32,
    delta: Delta,
    size: u8,
    blocks: &[u8],
    numbers: &[u8],
) -> usize
    requires { (3 ≤ size)
        × (at + length (encode_all pass (tell (delta_of delta) size (zip_pairs blocks.now numbers.now))) ≤ length out.old) }
    ensures { Wrote out.old at
        (encode_all pass (tell (delta_of delta) size (zip_pairs blocks.now numbers.now))) result out.new }
{
    let most = (size as usize - COUNT) / PAIR;
    let mut end = at;
    for (blocks, numbers) in blocks.chunks(most).zip(numbers.chunks(most)) {
        end = write_part(out, end, pass, delta, blocks, numbers);
    }
    end
}

// NEW or INVALID for the pairs of a node.
pub fn write_delta(
    out: &mut [u8],
    at: usize,
    pass: u32,
    delta: Delta,
    size: u8,
    pairs: &Pairs,
) -> usize
    requires { (3 ≤ size) × (at + length (encode_all pass (tell (delta_of delta) size (pairs_of pairs.now))) ≤ length out.old) }
    ensures { Wrote out.old at (encode_all pass (tell (delta_of delta) size (pairs_of pairs.now))) result out.new }
{
    let n = pairs.len();
    write_deltas(
        out,
        at,
        pass,
        delta,
        size,
        &pairs.blocks[..n],
        &pairs.numbers[..n],
    )
}
