// Lists of words in a line: pairs, what names a row, and where hexadecimal groups end.
#![tactic(auto)]

ghost use Rattle.std.specs.Prelude.{◌≡◌, ◌+◌, ◌-◌, ◌^◌, ◌≤◌, ◌<◌, length, drop};
ghost use Rattle.std.proofs.lemmas.List.Edits.{sets};
ghost use Rattle.laws.specs.Buffers.{Wrote};
ghost use Rattle.text_arguments.specs.Reading.{value_of, place_of};
ghost use Rattle.text_lists.specs.Lists.{is_pair, pair_reason, pair_bytes_of, pairs_at, pairs_stored, row_words, row_stored, two_blanks, hex_length};

use text_arguments::{Arguments, Reason};
use text_words::{digits, numbers, words};

// The most pairs of a line.
pub const MAX_PAIR_WORDS: usize = 255;

// The greatest position that a line can name, and the digits of an address.
const MAX_POSITION: u32 = 255;

const ADDRESS_DIGITS: usize = 4;

// The length of a word that is a pair.
const PAIR_WORD: usize = 5;

// A position, an address and how many pairs.
#[derive(Clone, Copy, PartialEq, Eq, Debug)]
pub struct RowWords {
    pub position: u8,
    pub address: u16,
    pub pairs: usize,
}

// A word of two hexadecimal digits, a dot and two hexadecimal digits.
#[tactic(auto, unfolding(crate::specs::Lists::is_pair))]
fn is_pair(word: &[u8]) -> bool
    ensures { result ≡ is_pair word.now }
{
    word.len() == PAIR_WORD
        && word[2] == b'.'
        && numbers::all_hex(&word[0..2])
        && numbers::all_hex(&word[3..5])
}

// A word is a pair, behind so many others.
fn taken_as_pair(word: &[u8], taken: usize) -> Result<(), Reason>
    ensures { result ≡ pair_reason taken word.now }
{
    if !is_pair(word) {
        return Err(Reason::NoPair);
    }
    if MAX_PAIR_WORDS <= taken {
        return Err(Reason::TooMany);
    }
    Ok(())
}

// The two bytes of a pair from place `at` on, as far as there is room for them.
fn store(word: &[u8], bytes: &mut [u8], at: usize)
    requires { (length word.now ≡ 5) × (at + 2 < 2 ^ 64) }
    ensures { Wrote bytes.old at (pair_bytes_of word.now) (at + 2) bytes.new }
{
    text_arguments::put(bytes, at, numbers::byte(word[0], word[1]));
    text_arguments::put(bytes, at + 1, numbers::byte(word[3], word[4]));
}

// The rest of the line as pairs, into `bytes`, as far as there is room for them; the value is the number of pairs.
pub fn pairs(arguments: &mut Arguments, bytes: &mut [u8]) -> Result<usize, Reason>
    ensures answer { result ≡ value_of (pairs_at arguments.old.line.now arguments.old.at) }
    ensures place { arguments.new ≡ record arguments.old { at = place_of arguments.old.at (pairs_at arguments.old.line.now arguments.old.at) } }
    ensures stored { bytes.new ≡ sets bytes.old 0 (pairs_stored arguments.old.line.now arguments.old.at) }
{
    let mut rest = *arguments;
    let mut count = 0;
    // The cursor goes on, and no index.
    while let Some(word) = rest.word() {
        taken_as_pair(word, count)?;
        store(word, bytes, 2 * count);
        count += 1;
    }
    arguments.at = arguments.line.len();
    Ok(count)
}

// A position, an address and pairs, and the pairs into `bytes`, as far as there is room for them.
pub fn row(mut arguments: Arguments, bytes: &mut [u8]) -> Result<RowWords, Reason>
    ensures answer { result ≡ row_words arguments.entry.line.now arguments.entry.at }
    ensures stored { bytes.new ≡ sets bytes.old 0 (row_stored arguments.entry.line.now arguments.entry.at) }
{
    let position = arguments.decimal(MAX_POSITION)?;
    let address = arguments.hex(ADDRESS_DIGITS)?;
    let pairs = pairs(&mut arguments, bytes)?;
    Ok(RowWords {
        position: position as u8,
        address: address as u16,
        pairs,
    })
}

// Two blanks in a row are in front.
fn two_blanks(text: &[u8]) -> bool
    ensures { result ≡ two_blanks text.now }
{
    match text {
        [first, second, ..] => digits::is_blank(*first) && digits::is_blank(*second),
        _ => false,
    }
}

// Where the hexadecimal groups from `from` on end: at two blanks in a row behind the first, or at the line's end.
pub fn hex_end(line: &[u8], from: usize) -> usize
    ensures { (result ≡ from + hex_length (drop from line.now)) × (from ≤ result) × (result - from ≤ length line.now - from) }
{
    let start = words::word_start(line, from);
    for at in start..line.len() {
        if two_blanks(&line[at..]) {
            return at;
        }
    }
    start.max(line.len())
}
