// What a SET does to a unit's list.
#![tactic(auto)]

ghost use Rattle.std.specs.Prelude.{◌≡◌, ◌||◌, ◌+◌, ◌<◌, min, length, take, drop};
ghost use Rattle.std.specs.Option.{MatchOption};
ghost use Rattle.rules.specs.House.{max_pairs};
ghost use Rattle.rules.specs.Picture.{holds};
ghost use Rattle.rules_unit.specs.Slave.{renumbered};
ghost use Rattle.wire_pairs.specs.View.{pair_in, pairs_of};
ghost use Rattle.unit_renumber.specs.Places.{first_at};

use wire_pairs::{Pair, Pairs};

// Where the first such pair stands.
fn first_of(pairs: &Pairs, pair: Pair) -> Option<usize>
    ensures { MatchOption result (first_at (pair_in pair) (pairs_of pairs.now) ≡ length (pairs_of pairs.now))
        (λ place. (place ≡ first_at (pair_in pair) (pairs_of pairs.now)) × (place < min pairs.now.count max_pairs)) }
{
    for i in 0..pairs.len() {
        if pair == pairs.at(i) {
            return Some(i);
        }
    }
    None
}

// The pair stands before or behind the place.
fn stands_besides(pairs: &Pairs, place: usize, pair: Pair) -> bool
    requires { place < max_pairs }
    ensures { result ≡ holds (take place (pairs_of pairs.now)) (pair_in pair) || holds (drop (place + 1) (pairs_of pairs.now)) (pair_in pair) }
{
    pairs.first(place).holds(pair) || pairs.holds_from(place + 1, pair)
}

// The first pair of that block with the old number gets the new one, if there is one and no other pair of the block has the new. Block, old
// and new number come one by one, as the rules' SET has them.
pub fn renumber(pairs: &mut Pairs, block: u8, old: u8, new: u8)
    ensures { (pairs_of pairs.new ≡ renumbered block old new (pairs_of pairs.old)) × (pairs.new.count ≡ pairs.old.count) }
{
    if let Some(place) = first_of(pairs, Pair { block, number: old }) {
        if !stands_besides(pairs, place, Pair { block, number: new }) {
            pairs.numbers[place] = new;
        }
    }
}
