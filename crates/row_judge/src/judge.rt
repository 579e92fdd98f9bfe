// Which announced pairs are good, and the pairs that an entry keeps of them.
ghost use Rattle.std.specs.Prelude.{◌≡◌, [], take};
ghost use Rattle.rules.specs.Renumber.{goods};
ghost use Rattle.wire_pairs.specs.View.{pair_in, pairs_of};
ghost use Rattle.row_judge.specs.Marks.{is_good_marked, judge_marked, judged_of};

use sizes::MAX_PAIRS;
use wire_pairs::{Pair, Pairs};

// The numbers that a pair may have.
pub const MIN_NUMBER: u8 = 0x01;

pub const MAX_NUMBER: u8 = 0xFE;

// The pair is good: its number is one that a pair may have, no other entry keeps it, and it is none of the first `earlier` announced.
fn is_good(held: bool, announced: &Pairs, earlier: usize, pair: Pair) -> bool
    ensures { result ≡ is_good_marked held (take earlier (pairs_of announced.now)) (pair_in pair) }
{
    (MIN_NUMBER..=MAX_NUMBER).contains(&pair.number)
        && !held
        && !announced.first(earlier).holds(pair)
}

// The announced pairs judged in order: a mark for each good one. The marks stand beside the pairs, as `judged_of` speaks of them.
pub fn judge(held: &[bool; MAX_PAIRS], announced: &Pairs) -> [bool; MAX_PAIRS]
    ensures { judged_of (pairs_of announced.now) result ≡ judge_marked held.now [] (pairs_of announced.now) }
{
    let mut good = [false; MAX_PAIRS];
    for i in 0..announced.len() {
        good[i] = is_good(held[i], announced, i, announced.at(i));
    }
    good
}

// The good ones of the announced pairs, whose marks stand beside them, as `judged_of` speaks of them.
pub fn good_pairs(announced: &Pairs, good: &[bool; MAX_PAIRS]) -> Pairs
    ensures { pairs_of result ≡ goods (judged_of (pairs_of announced.now) good.now) }
{
    let mut kept = Pairs::none();
    for i in 0..announced.len() {
        let pair = announced.at(i);
        if good[i] {
            kept.push(pair);
        }
    }
    kept
}
