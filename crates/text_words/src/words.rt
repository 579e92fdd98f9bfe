// Words of a line, parted by blanks.
ghost use Rattle.std.specs.Prelude.{◌≡◌, ◌+◌, ◌≤◌, ◌-◌, length, drop};
ghost use Rattle.text_words.specs.Text.{blanks, glyphs, same_word, trimmed_length};

use super::digits;

// The place of the first byte from `from` on that is no blank, or the line's end.
pub fn word_start(line: &[u8], from: usize) -> usize
    ensures { (result ≡ from + blanks (drop from line.now)) × (from ≤ result) }
{
    for at in from..line.len() {
        if !digits::is_blank(line[at]) {
            return at;
        }
    }
    from.max(line.len())
}

// The place of the first blank from `from` on, or the line's end.
pub fn word_end(line: &[u8], from: usize) -> usize
    ensures { (result ≡ from + glyphs (drop from line.now)) × (from ≤ result) × (result - from ≤ length line.now - from) }
{
    for at in from..line.len() {
        if digits::is_blank(line[at]) {
            return at;
        }
    }
    from.max(line.len())
}

// The same bytes: what `==` says of two words. No command calls it; the edit first_byte_not_compared holds it.
pub fn same(word: &[u8], other: &[u8]) -> bool
    ensures { result ≡ same_word word.now other.now }
{
    word == other
}

// A line's length without the blanks and CRs at its end.
pub fn trimmed(line: &[u8]) -> usize
    ensures { (result ≡ trimmed_length line.now) × (result ≤ length line.now) }
{
    for n in (0..line.len()).rev() {
        if !digits::is_dropped(line[n]) {
            return n + 1;
        }
    }
    0
}
