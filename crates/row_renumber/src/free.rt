// The least free number of a block: a table of the numbers in use, made once, and a search in it.
ghost use Rattle.std.specs.Prelude.{◌≡◌, map};
ghost use Rattle.laws.specs.Lists.{collect};
ghost use Rattle.rules.specs.Picture.{pairs_in};
ghost use Rattle.rules.specs.Renumber.{numbers_of, free_number};
ghost use Rattle.wire_pairs.specs.View.{pairs_of};
ghost use Rattle.row_entry.specs.View.{row_of};
ghost use Rattle.row_renumber.specs.Marks.{is_marked, Added, least_by, free_of};

use row_entry::NodeEntry;
use row_judge::judge::{MAX_NUMBER, MIN_NUMBER};
use wire_pairs::Pairs;

// As many numbers as a byte has: a mark for each.
const NUMBERS: usize = 256;

// Marks the numbers that stand with the block.
fn mark_pairs(table: &mut [bool; NUMBERS], pairs: &Pairs, block: u8)
    ensures { Added table.old (numbers_of block (pairs_of pairs.now)) table.new }
{
    for i in 0..pairs.len() {
        let pair = pairs.at(i);
        if pair.block == block {
            table[usize::from(pair.number)] = true;
        }
    }
}

// Marks the numbers that the entries keep for the block.
fn mark_entries(table: &mut [bool; NUMBERS], entries: &[NodeEntry], block: u8)
    ensures { Added table.old (numbers_of block (collect pairs_in (map row_of entries.now))) table.new }
{
    for entry in entries {
        mark_pairs(table, &entry.pairs(), block);
    }
}

// The least number that is not marked.
fn least_unmarked(table: &[bool; NUMBERS]) -> Option<u8>
    ensures { free_of result ≡ least_by (is_marked table.now) 254 1 }
{
    for number in MIN_NUMBER..=MAX_NUMBER {
        if !table[usize::from(number)] {
            return Some(number);
        }
    }
    None
}

// The least number that no entry keeps for the block and that stands with it nowhere in the announced pairs.
pub fn free_number(entries: &[NodeEntry], announced: &Pairs, block: u8) -> Option<u8>
    ensures { free_of result ≡ free_number (collect pairs_in (map row_of entries.now)) (pairs_of announced.now) block }
{
    let mut table = [false; NUMBERS];
    mark_entries(&mut table, entries, block);
    mark_pairs(&mut table, announced, block);
    least_unmarked(&table)
}
