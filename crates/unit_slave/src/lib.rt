// The unit's side: a NetworkSlave that reads orders, keeps look-up answers and answers for itself.
#![tactic(auto)]

ghost use Rattle.std.specs.Prelude.{◌≡◌, ◌&&◌, true, ◌≤◌, eqb, length, drop};
ghost use Rattle.std.proofs.Math.Option.{some};
ghost use Rattle.laws.specs.Buffers.{Wrote};
ghost use Rattle.rules.specs.House.{max_pairs, min_answer_room};
ghost use Rattle.rules.specs.Event.{read_pairs};
ghost use Rattle.rules.specs.Run.{sent_with};
ghost use Rattle.rules.specs.Listing.{Lookup};
ghost use Rattle.rules_unit.specs.Slave.{besides, renumbered, with_known, answer_of, on_order, make_number, make, read, learn};
ghost use Rattle.wire_pairs.specs.View.{pair_in, pairs_of};
ghost use Rattle.wire_order_reading.specs.View.{order_of};
ghost use Rattle.unit_slave.specs.View.{slave_of, Counted, Reads};
ghost use Rattle.unit_slave.specs.Steps.{unread, emptied_on, on_pass, with_pairs, PairsRead, Becomes, read_as, is_refusal, StandsFor};

use numbers::{DONE, Refusal};
use ring_lookup::Place;
use sizes::{MAX_PAIRS, MIN_ANSWER_ROOM};
use unit_answers::{DecentralRegistry, Known};
use wire_address::{LogicalNodeAddress, NodePosition};
use wire_order_reading::{Order, OrderRecord, PAIRS};
use wire_pairs::{PAIR, Pair, Pairs};

// A unit: where it sits and what it announces, the pass of the last order that it read, and the look-up answers that it keeps.
// C interface: these fields, in this order; so too in the two outcomes below.
#[repr(C)]
#[derive(Clone, Copy)]
pub struct NetworkSlave {
    pub pass: u32,
    pub address: LogicalNodeAddress,
    pub position: NodePosition,
    pub pairs: Pairs,
    pub known: DecentralRegistry,
}

// A unit that is made, and 0; or 2, and a unit without pairs.
#[repr(C)]
#[derive(Clone, Copy)]
pub struct UnitMade {
    pub number: u8,
    pub unit: NetworkSlave,
}

// What an order gives back: the number of a refusal or 0, how many bytes the ANSWER has that stands at the start of the lent room, and
// the unit afterwards.
#[repr(C)]
#[derive(Clone, Copy)]
pub struct OrderRead {
    pub number: u8,
    pub length: usize,
    pub unit: NetworkSlave,
}

// The pairs that stand in these bytes; refused where they are over 24 or no whole pairs.
fn pairs_in(bytes: &[u8]) -> Result<Pairs, Refusal>
    ensures { PairsRead bytes.now result }
{
    if bytes.len() % PAIR != 0 || MAX_PAIRS < bytes.len() / PAIR {
        return Err(Refusal::RecordMalformed);
    }
    Ok(wire_events::read_pairs(bytes))
}

impl NetworkSlave {
    // A unit that has read no order.
    #[tactic(auto, unfolding(crate::specs::View::slave_of, crate::specs::Steps::unread))]
    fn unread(position: NodePosition, address: LogicalNodeAddress, pairs: Pairs) -> NetworkSlave
        ensures { (slave_of result ≡ unread position.0 address.0 (pairs_of pairs)) × (pairs.count ≤ max_pairs → Counted result) }
    {
        NetworkSlave {
            pass: 0,
            address,
            position,
            pairs,
            known: DecentralRegistry::none(),
        }
    }

    // A unit with the pairs that stand in these bytes; 2 where they are over 24 or no whole pairs, and then one with none.
    #[tactic(auto, unfolding(crate::specs::View::slave_of, crate::specs::Steps::unread, rules_unit::specs::Slave::make, rules_unit::specs::Slave::make_number))]
    pub fn make(position: NodePosition, address: LogicalNodeAddress, pairs: &[u8]) -> UnitMade
        ensures { (result.number ≡ make_number pairs.now)
            × (slave_of result.unit ≡ make position.0 address.0 pairs.now) × Counted result.unit }
    {
        match pairs_in(pairs) {
            Ok(pairs) => UnitMade {
                number: DONE,
                unit: NetworkSlave::unread(position, address, pairs),
            },
            Err(refusal) => UnitMade {
                number: refusal.number(),
                unit: NetworkSlave::unread(position, address, Pairs::none()),
            },
        }
    }

    // An order of this pass is read, and the answers are gone.
    #[tactic(auto, unfolding(crate::specs::View::slave_of, crate::specs::Steps::emptied_on))]
    fn empty(&mut self, pass: u32)
        ensures { Becomes self.old (emptied_on pass (slave_of self.old)) self.new }
    {
        self.known = DecentralRegistry::none();
        self.pass = pass;
    }

    // An order of this pass is read: the answers are gone where the last one had another pass.
    #[tactic(auto, unfolding(crate::specs::View::slave_of, crate::specs::Steps::emptied_on, crate::specs::Steps::on_pass))]
    fn meet(&mut self, pass: u32)
        ensures { Becomes self.old (on_pass pass (slave_of self.old)) self.new }
    {
        if pass != self.pass {
            self.empty(pass);
        }
    }

    // The answers for the pairs that an INVALID names are gone. Bytes that are too short for one name none.
    fn forget(&mut self, order: &[u8])
        ensures { Becomes self.old (with_known (besides (read_pairs (drop 8 order.now)) (slave_of self.old).known) (slave_of self.old)) self.new }
    {
        if PAIRS <= order.len() {
            self.known = self.known.besides(&order[PAIRS..]);
        }
    }

    // A SET is obeyed.
    #[tactic(auto, unfolding(crate::specs::View::slave_of, crate::specs::Steps::with_pairs))]
    fn renumber(&mut self, block: u8, old: u8, new: u8)
        ensures { Becomes self.old (with_pairs (renumbered block old new (slave_of self.old).pairs) (slave_of self.old)) self.new }
    {
        unit_renumber::renumber(&mut self.pairs, block, old, new);
    }

    // The ANSWER, at the start of `out`; how many bytes it has is handed back. By value: behind a reference the proof does not know how
    // long the arrays of the pairs are.
    #[tactic(auto, unfolding(crate::specs::View::slave_of, rules_unit::specs::Slave::answer_of))]
    fn answer(self, out: &mut [u8]) -> usize
        requires { min_answer_room ≤ length out.old }
        ensures { Wrote out.old 0 (answer_of self.pass (slave_of self)) result out.new }
    {
        wire_answers::write_answer(out, self.pass, self.position, self.address, &self.pairs)
    }

    // A SET for this position and address is for this unit.
    fn is_set_by(&self, position: NodePosition, address: LogicalNodeAddress) -> bool
        ensures { result ≡ eqb position.0 self.now.position.0 && eqb address.0 self.now.address.0 }
    {
        position == self.position && address == self.address
    }

    // Does what an order asks for, and writes the ANSWER to it to the start of `out`; how many bytes that has is handed back.
    fn obey(&mut self, sent: OrderRecord, order: &[u8], out: &mut [u8]) -> usize
        requires { min_answer_room ≤ length out.old }
        ensures { Reads self.old (on_order (slave_of self.old) (some (sent_with sent.pass (order_of sent.order order.now))))
            out.old (record { number = 0; length = result; unit = self.new }) out.new }
    {
        match sent.order {
            Order::Ask(position) => {
                let asked = position == self.position;
                self.meet(sent.pass);
                if !asked {
                    return 0;
                }
                self.answer(out)
            }
            Order::Set {
                position,
                address,
                block,
                old,
                new,
            } => {
                let set = self.is_set_by(position, address);
                self.meet(sent.pass);
                if !set {
                    return 0;
                }
                self.renumber(block, old, new);
                self.answer(out)
            }
            Order::NotOk => {
                self.empty(sent.pass);
                0
            }
            Order::Invalid => {
                self.meet(sent.pass);
                self.forget(order);
                0
            }
            Order::Ok | Order::New | Order::WaitShort | Order::WaitLong => {
                self.meet(sent.pass);
                0
            }
        }
    }

    // Reads one order; how many bytes its ANSWER has, or why nothing is changed.
    fn take(&mut self, order: &[u8], out: &mut [u8]) -> Result<usize, Refusal>
        ensures { Reads self.old (read (slave_of self.old) order.now (length out.old)) out.old (read_as result self.new) out.new }
    {
        if out.len() < MIN_ANSWER_ROOM {
            return Err(Refusal::OrderRoomTooShort);
        }
        let Some(sent) = wire_order_reading::decode_order(order) else {
            return Err(Refusal::RecordMalformed);
        };
        Ok(self.obey(sent, order, out))
    }

    // Reads one order, and writes the ANSWER that it asks for to the start of `out`; or 1 or 2, which change nothing.
    pub fn read(mut self, order: &[u8], out: &mut [u8]) -> OrderRead
        ensures { Reads self (read (slave_of self) order.now (length out.old)) out.old result out.new }
    {
        match self.take(order, out) {
            Ok(length) => OrderRead {
                number: DONE,
                length,
                unit: self,
            },
            Err(refusal) => OrderRead {
                number: refusal.number(),
                length: 0,
                unit: self,
            },
        }
    }

    // The answer of a look-up for this pair is kept; a refusal, whatever its error is, hands back the very unit.
    pub fn learn<E: Drop>(self, pair: Pair, answer: Result<Place, E>) -> NetworkSlave
        ensures learned { (l : Lookup) → StandsFor answer l → slave_of result ≡ learn (pair_in pair) l (slave_of self) }
        ensures refused { (l : Lookup) → StandsFor answer l → is_refusal l ≡ true → result ≡ self }
        ensures counts { Counted self → Counted result }
    {
        match answer {
            Ok(place) => NetworkSlave {
                known: self.known.remember(Known {
                    pair,
                    address: place.address,
                }),
                ..self
            },
            Err(_) => self,
        }
    }
}
