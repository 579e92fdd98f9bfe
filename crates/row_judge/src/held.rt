// Which announced pairs another entry keeps.
ghost use Rattle.std.specs.Prelude.{◌≡◌, map};
ghost use Rattle.rules.specs.Picture.{holds};
ghost use Rattle.wire_pairs.specs.View.{pairs_of};
ghost use Rattle.row_judge.specs.Marks.{or_each};

use sizes::MAX_PAIRS;
use wire_pairs::Pairs;

// Marks each announced pair that is kept here.
pub fn mark_held(marks: &mut [bool; MAX_PAIRS], kept: &Pairs, announced: &Pairs)
    ensures { marks.new ≡ or_each marks.old (map (holds (pairs_of kept.now)) (pairs_of announced.now)) }
{
    for i in 0..announced.len() {
        let pair = announced.at(i);
        marks[i] = marks[i] || kept.holds(pair);
    }
}
