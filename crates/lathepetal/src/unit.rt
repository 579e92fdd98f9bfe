// The unit's side: a unit is made, reads an order, learns the answer of a look-up. C interface: a unit goes in and comes back.
ghost use Rattle.std.specs.Prelude.{◌≡◌, length};
ghost use Rattle.rules_unit.specs.Slave.{make_number, make, read, learn};
ghost use Rattle.wire_pairs.specs.View.{pair_of};
ghost use Rattle.unit_slave.specs.View.{slave_of, Counted, Reads};
ghost use Rattle.lathepetal.specs.Units.{answer_of};

use super::ring::LookupOutcome;
use numbers::DONE;
use ring_lookup::Place;
use unit_slave::{NetworkSlave, OrderRead, UnitMade};
use wire_address::{LogicalNodeAddress, NodePosition};
use wire_pairs::Pair;

// A unit with the pairs that stand in these bytes; 2 where they are over 24 or no whole pairs, and then one with none.
#[unsafe(no_mangle)]
pub extern "C" fn lathepetal_unit(position: u8, address: u16, pairs: &[u8]) -> UnitMade
    ensures { (result.number ≡ make_number pairs.now)
        × (slave_of result.unit ≡ make position address pairs.now) × Counted result.unit }
{
    NetworkSlave::make(NodePosition(position), LogicalNodeAddress(address), pairs)
}

// Reads one order, and writes the ANSWER that it asks for to the start of `out`; or 1 or 2, which change nothing.
#[unsafe(no_mangle)]
pub extern "C" fn lathepetal_unit_read(
    unit: NetworkSlave,
    order: &[u8],
    out: &mut [u8],
) -> OrderRead
    ensures { Reads unit (read (slave_of unit) order.now (length out.old)) out.old result out.new }
{
    unit.read(order, out)
}

// What a look-up of the pair gave is kept; a refusal, of whatever number, hands back the very unit.
#[unsafe(no_mangle)]
pub extern "C" fn lathepetal_unit_learn(
    unit: NetworkSlave,
    block: u8,
    number: u8,
    answer: LookupOutcome,
) -> NetworkSlave
    ensures { (slave_of result ≡ learn (pair_of block number) (answer_of answer) (slave_of unit)) × (Counted unit → Counted result)
        × ((answer.number ≡ 0 → ⊥) → result ≡ unit) }
{
    let place = Place {
        position: NodePosition(answer.position),
        address: LogicalNodeAddress(answer.address),
    };
    let looked_up = if answer.number == DONE {
        Ok(place)
    } else {
        Err(answer.number)
    };
    unit.learn(Pair { block, number }, looked_up)
}
