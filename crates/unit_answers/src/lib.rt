// The look-up answers that a unit keeps.
#![tactic(auto)]

ghost use Rattle.std.specs.Prelude.{◌≡◌, [], ◌∷◌, ◌++◌, ◌+◌, ◌-◌, ◌<◌, ◌≤◌, min, length, drop};
ghost use Rattle.rules.specs.House.{max_answers};
ghost use Rattle.rules.specs.Picture.{holds};
ghost use Rattle.rules.specs.Event.{read_pairs};
ghost use Rattle.rules_unit.specs.Slave.{besides, newest, remember};
ghost use Rattle.wire_pairs.specs.View.{pair_in};
ghost use Rattle.unit_answers.specs.View.{known_in, answers_of};

use sizes::MAX_ANSWERS;
use wire_address::LogicalNodeAddress;
use wire_pairs::{PAIR, Pair};

// A look-up answer: a pair, and the address that it has.
#[derive(Clone, Copy, PartialEq, Eq)]
pub struct Known {
    pub pair: Pair,
    pub address: LogicalNodeAddress,
}

// The answers, the oldest first: the first `count` places of each array. The standard calls it a decentral registry.
// C interface: a count and three arrays, in this order.
#[repr(C)]
#[derive(Clone, Copy)]
pub struct DecentralRegistry {
    pub count: usize,
    pub addresses: [u16; MAX_ANSWERS],
    pub blocks: [u8; MAX_ANSWERS],
    pub numbers: [u8; MAX_ANSWERS],
}

// The pair stands in these bytes.
fn names(named: &[u8], pair: Pair) -> bool
    ensures { result ≡ holds (read_pairs named.now) (pair_in pair) }
{
    for bytes in named.chunks_exact(PAIR) {
        let here = Pair {
            block: bytes[0],
            number: bytes[1],
        };
        if pair == here {
            return true;
        }
    }
    false
}

impl DecentralRegistry {
    // No answers.
    #[tactic(auto, unfolding(crate::specs::View::answers_of, crate::specs::View::known_from, laws::specs::Views::firsts))]
    pub fn none() -> Self
        ensures { (answers_of result ≡ []) × (result.count ≡ 0) }
    {
        DecentralRegistry {
            count: 0,
            addresses: [0u16; MAX_ANSWERS],
            blocks: [0u8; MAX_ANSWERS],
            numbers: [0u8; MAX_ANSWERS],
        }
    }

    // How many answers there are.
    pub fn len(&self) -> usize
        ensures { (result ≡ min self.now.count max_answers) × (length (answers_of self.now) ≡ result) }
    {
        self.count.min(MAX_ANSWERS)
    }

    // The answer at a place: it stands in front of those behind it.
    fn at(&self, place: usize) -> Known
        requires { place < min self.now.count max_answers }
        ensures { drop place (answers_of self.now) ≡ known_in result ∷ drop (place + 1) (answers_of self.now) }
    {
        Known {
            pair: Pair {
                block: self.blocks[place],
                number: self.numbers[place],
            },
            address: LogicalNodeAddress(self.addresses[place]),
        }
    }

    // Another answer, behind these.
    fn push(&mut self, known: Known)
        requires { self.old.count < max_answers }
        ensures { (answers_of self.new ≡ answers_of self.old ++ known_in known ∷ []) × (self.new.count ≡ self.old.count + 1) }
    {
        let at = self.count;
        self.addresses[at] = known.address.0;
        self.blocks[at] = known.pair.block;
        self.numbers[at] = known.pair.number;
        self.count = at + 1;
    }

    // The answers for other pairs than those that stand in these bytes.
    pub fn besides(&self, named: &[u8]) -> DecentralRegistry
        ensures { (answers_of result ≡ besides (read_pairs named.now) (answers_of self.now)) × (result.count ≤ max_answers) }
    {
        let mut left = DecentralRegistry::none();
        for i in 0..self.len() {
            let known = self.at(i);
            if !names(named, known.pair) {
                left.push(known);
            }
        }
        left
    }

    // The answers without the oldest, where there is no place for one more.
    fn with_room(&self) -> DecentralRegistry
        ensures { (answers_of result ≡ newest (max_answers - 1) (answers_of self.now)) × (result.count ≤ max_answers - 1) }
    {
        if self.len() < MAX_ANSWERS {
            return *self;
        }
        let mut later = DecentralRegistry::none();
        for i in 1..MAX_ANSWERS {
            later.push(self.at(i));
        }
        later
    }

    // One answer more, the newest; an earlier one for the same pair goes, and if there is no place, the oldest one.
    pub fn remember(&self, known: Known) -> DecentralRegistry
        ensures { (answers_of result ≡ remember (known_in known) (answers_of self.now)) × (result.count ≤ max_answers) }
    {
        let others = self.besides(&[known.pair.block, known.pair.number]);
        let mut next = others.with_room();
        next.push(known);
        next
    }
}
