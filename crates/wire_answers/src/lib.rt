// The ANSWER record of a unit, written into a lent buffer.
#![tactic(auto)]

ghost use Rattle.std.specs.Prelude.{◌≤◌, [], ◌∷◌, ◌++◌, length};
ghost use Rattle.laws.specs.Buffers.{Wrote};
ghost use Rattle.rules.specs.Event as event;
ghost use Rattle.rules.specs.Event.{two, header, encode_event};
ghost use Rattle.wire_pairs.specs.View.{pairs_of};

use wire_address::{LogicalNodeAddress, NodePosition};
use wire_events::{ADDRESS, ANSWER, ANSWER_HEAD, COUNT, KIND, MARK_FIRST, MARK_SECOND, PASS, X};
use wire_pairs::Pairs;

// What stands before the pairs.
fn write_head(
    out: &mut [u8],
    pass: u32,
    position: NodePosition,
    address: LogicalNodeAddress,
    count: u8,
) -> usize
    requires { 11 ≤ length out.old }
    ensures { Wrote out.old 0 (header 4 pass position.0 ++ two address.0 ++ count ∷ []) result out.new }
{
    out[0] = MARK_FIRST;
    out[1] = MARK_SECOND;
    out[KIND] = ANSWER;
    wire_octets::write4(out, PASS, pass);
    out[X] = position.0;
    wire_octets::write2(out, ADDRESS, address.0 as u32);
    out[COUNT] = count;
    ANSWER_HEAD
}

// ANSWER: pass, position, address and pairs, from the start of the buffer; how many bytes they are is handed back.
pub fn write_answer(
    out: &mut [u8],
    pass: u32,
    position: NodePosition,
    address: LogicalNodeAddress,
    pairs: &Pairs,
) -> usize
    requires { length (encode_event (event.ANSWER pass position.0 address.0 (pairs_of pairs.now))) ≤ length out.old }
    ensures { Wrote out.old 0 (encode_event (event.ANSWER pass position.0 address.0 (pairs_of pairs.now))) result out.new }
{
    let count = pairs.len();
    let body = write_head(out, pass, position, address, count as u8);
    wire_orders::write_pairs(out, body, &pairs.blocks[..count], &pairs.numbers[..count])
}
