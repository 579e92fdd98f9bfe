// Which pair is renumbered to what.
ghost use Rattle.std.specs.Prelude.{◌≡◌};
ghost use Rattle.rules.specs.Renumber.{renumber};
ghost use Rattle.wire_pairs.specs.View.{pair_in, pairs_of};
ghost use Rattle.row_judge.specs.Marks.{judged_of};
ghost use Rattle.row_renumber.specs.Marks.{NoneFree, attempt_of, free_for, free_of, renumbering_of};

use super::free;
use row_entry::NodeEntry;
use sizes::MAX_PAIRS;
use wire_pairs::{Pair, Pairs};

// A pair is offered a number as often as this.
pub const MAX_TRIES: u8 = 3;

// One pair is renumbered: at this place, with these tries, to a new number.
#[derive(Clone, Copy)]
pub struct Offer {
    pub place: u8,
    pub tries: u8,
    pub pair: Pair,
    pub new: u8,
}

// The free number of a block. One that is known to be full, to have no free number, is not searched again.
fn free_for(full: Option<u8>, entries: &[NodeEntry], announced: &Pairs, block: u8) -> Option<u8>
    requires { NoneFree (free_for entries.now announced.now) full }
    ensures { free_of result ≡ free_for entries.now announced.now block }
{
    if full == Some(block) {
        return None;
    }
    free::free_number(entries, announced, block)
}

// What becomes of the pair at one place: it is offered a number if it is bad, a try is left and a number is free. Its block is full where
// none is free.
fn attempt(
    full: &mut Option<u8>,
    entries: &[NodeEntry],
    announced: &Pairs,
    good: bool,
    place: u8,
    tries: u8,
    pair: Pair,
) -> Option<Offer>
    requires { NoneFree (free_for entries.now announced.now) full.old }
    ensures { (renumbering_of result ≡ attempt_of (free_for entries.now announced.now) place tries (record { pair = pair_in pair; good = good }))
        × NoneFree (free_for entries.now announced.now) full.new }
{
    if good || MAX_TRIES <= tries {
        return None;
    }
    match free_for(*full, entries, announced, pair.block) {
        Some(new) => Some(Offer {
            place,
            tries: tries + 1,
            pair,
            new,
        }),
        None => {
            *full = Some(pair.block);
            None
        }
    }
}

// From the place on: the first bad pair that is offered a number. The marks stand beside the pairs, as `judged_of` speaks of them.
pub fn renumber_from(
    entries: &[NodeEntry],
    announced: &Pairs,
    good: &[bool; MAX_PAIRS],
    place: u8,
    tries: u8,
) -> Option<Offer>
    ensures { renumbering_of result ≡ renumber (free_for entries.now announced.now) place tries (judged_of (pairs_of announced.now) good.now) }
{
    let mut full = None;
    let mut left = tries;
    for i in usize::from(place)..announced.len() {
        let offer = attempt(
            &mut full,
            entries,
            announced,
            good[i],
            i as u8,
            left,
            announced.at(i),
        );
        if offer.is_some() {
            return offer;
        }
        left = 0;
    }
    None
}
