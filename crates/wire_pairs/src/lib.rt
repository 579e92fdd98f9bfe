// Pairs of block and number (FBlockID, InstID), as many as a node keeps or announces.
#![tactic(auto)]

ghost use Rattle.std.specs.Prelude.{◌≡◌, [], ◌∷◌, ◌++◌, ◌+◌, ◌<◌, ◌≤◌, min, length, take, drop};
ghost use Rattle.rules.specs.House.{max_pairs};
ghost use Rattle.rules.specs.Picture.{holds};
ghost use Rattle.rules.specs.Ending.{missing};
ghost use Rattle.wire_pairs.specs.View.{pair_in, pairs_of};

use sizes::MAX_PAIRS;

// A pair takes two bytes of a record or an order: block and number.
pub const PAIR: usize = 2;

// One pair.
#[derive(Clone, Copy, PartialEq, Eq)]
pub struct Pair {
    pub block: u8,
    pub number: u8,
}

// The first `count` places hold pairs.
// C interface: a count and two arrays, in this order.
#[repr(C)]
#[derive(Clone, Copy)]
pub struct Pairs {
    pub count: usize,
    pub blocks: [u8; MAX_PAIRS],
    pub numbers: [u8; MAX_PAIRS],
}

impl Pairs {
    pub fn none() -> Self
        ensures { (pairs_of result ≡ []) × (result.count ≡ 0) }
    {
        Pairs {
            count: 0,
            blocks: [0u8; MAX_PAIRS],
            numbers: [0u8; MAX_PAIRS],
        }
    }

    // How many pairs there are.
    pub fn len(&self) -> usize
        ensures { (result ≡ min self.now.count max_pairs) × (length (pairs_of self.now) ≡ result) }
    {
        self.count.min(MAX_PAIRS)
    }

    // The pair at a place: it stands in front of those behind it.
    pub fn at(&self, place: usize) -> Pair
        requires { place < min self.now.count max_pairs }
        ensures { drop place (pairs_of self.now) ≡ pair_in result ∷ drop (place + 1) (pairs_of self.now) }
    {
        Pair {
            block: self.blocks[place],
            number: self.numbers[place],
        }
    }

    // Another pair, behind these.
    pub fn push(&mut self, pair: Pair)
        requires { self.old.count < max_pairs }
        ensures { (pairs_of self.new ≡ pairs_of self.old ++ pair_in pair ∷ []) × (self.new.count ≡ self.old.count + 1) }
    {
        self.blocks[self.count] = pair.block;
        self.numbers[self.count] = pair.number;
        self.count += 1;
    }

    // The first of these pairs, at most `count`.
    pub fn first(&self, count: usize) -> Self
        ensures { pairs_of result ≡ take count (pairs_of self.now) }
    {
        Pairs {
            count: self.count.min(count),
            ..*self
        }
    }

    // The pair is one of those from a place on.
    pub fn holds_from(&self, place: usize, pair: Pair) -> bool
        ensures { result ≡ holds (drop place (pairs_of self.now)) (pair_in pair) }
    {
        for i in place..self.len() {
            if pair == self.at(i) {
                return true;
            }
        }
        false
    }

    // The pair is one of these.
    pub fn holds(&self, pair: Pair) -> bool
        ensures { result ≡ holds (pairs_of self.now) (pair_in pair) }
    {
        self.holds_from(0, pair)
    }

    // The pairs that `other` does not hold.
    pub fn missing(&self, other: &Pairs) -> Pairs
        ensures { pairs_of result ≡ missing (pairs_of self.now) (pairs_of other.now) }
    {
        let mut left = Pairs::none();
        for i in 0..self.len() {
            let pair = self.at(i);
            if !other.holds(pair) {
                left.push(pair);
            }
        }
        left
    }
}
