// The arguments of a command, read from the left. The first that is wrong gives the reason, and the ones behind it are passed over.
#![tactic(auto)]

ghost use Rattle.std.specs.Prelude.{◌≡◌, ◌+◌, ◌^◌, ◌<◌, ◌≤◌, length, set, IfOk, MatchOption};
ghost use Rattle.std.proofs.lemmas.List.Edits.{sets};
ghost use Rattle.laws.specs.Buffers.{Wrote};
ghost use Rattle.text_words.specs.Text.{bytes_of};
ghost use Rattle.text_arguments.specs.Reading.{any_number, reason_of, numbered, value_of, place_of, start_of, word_of, end_of, decimal_at, hex_at, group_reason, bytes_at, bytes_stored, end_at};

use text_words::numbers::NotDecimal;
use text_words::{numbers, words};

// Why a line is not understood; `Unnamed` is a number that is no reason's.
#[derive(Clone, Copy, PartialEq, Eq, Debug)]
pub enum Reason {
    UnknownWord,
    WordMissing,
    NoDecimal,
    DoesNotFit,
    NoHex,
    OddHex,
    WrongHex,
    WordTooMany,
    TooLong,
    NoPair,
    TooMany,
    Unnamed(u8),
}

// The numbers of the reasons.
const UNKNOWN_WORD: u8 = 1;

const WORD_MISSING: u8 = 2;

const NO_DECIMAL: u8 = 3;

const DOES_NOT_FIT: u8 = 4;

const NO_HEX: u8 = 5;

const ODD_HEX: u8 = 6;

const WRONG_HEX: u8 = 7;

const WORD_TOO_MANY: u8 = 8;

const TOO_LONG: u8 = 9;

const NO_PAIR: u8 = 10;

const TOO_MANY: u8 = 11;

impl From<u8> for Reason {
    ghost from_gives = { λ number reason. reason ≡ numbered number };

    fn from(number: u8) -> Reason {
        match number {
            UNKNOWN_WORD => Reason::UnknownWord,
            WORD_MISSING => Reason::WordMissing,
            NO_DECIMAL => Reason::NoDecimal,
            DOES_NOT_FIT => Reason::DoesNotFit,
            NO_HEX => Reason::NoHex,
            ODD_HEX => Reason::OddHex,
            WRONG_HEX => Reason::WrongHex,
            WORD_TOO_MANY => Reason::WordTooMany,
            TOO_LONG => Reason::TooLong,
            NO_PAIR => Reason::NoPair,
            TOO_MANY => Reason::TooMany,
            _ => Reason::Unnamed(number),
        }
    }
}

impl From<NotDecimal> for Reason {
    ghost from_gives = { λ word reason. reason ≡ reason_of word };

    fn from(word: NotDecimal) -> Reason {
        match word {
            NotDecimal::NoNumber => Reason::NoDecimal,
            NotDecimal::TooLarge => Reason::DoesNotFit,
        }
    }
}

// The limit of a number that has no other.
const ANY: u32 = 4294967295;

// A line, and the place from which its next argument is read; a wrong argument leaves it there.
#[derive(Clone, Copy)]
pub struct Arguments<'a> {
    pub line: &'a [u8],
    pub at: usize,
}

impl<'a> Arguments<'a> {
    // The arguments of a line from this place on.
    pub fn from(line: &'a [u8], at: usize) -> Self
        ensures { result ≡ record { line = line.entry; at = at } }
    {
        Arguments { line, at }
    }

    // The next word, where there is one; the next argument is read behind it.
    pub fn word(&mut self) -> Option<&'a [u8]>
        ensures taken { MatchOption result
            ((length self.old.line.now ≤ start_of self.old.line.now self.old.at) × (self.new ≡ self.old))
            (λ word. (start_of self.old.line.now self.old.at < length self.old.line.now) × (word.now ≡ word_of self.old.line.now self.old.at)
            × (self.new ≡ record self.old { at = end_of self.old.line.now self.old.at })) }
        ensures fits { self.new.at < 2 ^ 64 }
    {
        let start = words::word_start(self.line, self.at);
        if self.line.len() <= start {
            return None;
        }
        self.at = words::word_end(self.line, start);
        Some(&self.line[start..self.at])
    }

    // The next word as a decimal number of at most `limit`.
    pub fn decimal(&mut self, limit: u32) -> Result<usize, Reason>
        ensures answer { result ≡ value_of (decimal_at self.old.line.now limit self.old.at) }
        ensures place { self.new ≡ record self.old { at = place_of self.old.at (decimal_at self.old.line.now limit self.old.at) } }
        ensures most { IfOk result (λ value. value ≤ limit) }
    {
        let mut behind = *self;
        let Some(word) = behind.word() else {
            return Err(Reason::WordMissing);
        };
        let value = numbers::decimal(word, limit)?;
        *self = behind;
        Ok(value)
    }

    // The next word as a decimal number of 32 bits.
    pub fn number(&mut self) -> Result<usize, Reason>
        ensures answer { result ≡ value_of (decimal_at self.old.line.now any_number self.old.at) }
        ensures place { self.new ≡ record self.old { at = place_of self.old.at (decimal_at self.old.line.now any_number self.old.at) } }
        ensures most { IfOk result (λ value. value ≤ any_number) }
    {
        self.decimal(ANY)
    }

    // The next word as this many hexadecimal digits.
    pub fn hex(&mut self, width: usize) -> Result<usize, Reason>
        ensures answer { result ≡ value_of (hex_at self.old.line.now width self.old.at) }
        ensures place { self.new ≡ record self.old { at = place_of self.old.at (hex_at self.old.line.now width self.old.at) } }
        ensures below { IfOk result (λ value. value < 16 ^ width) }
    {
        let mut behind = *self;
        let Some(word) = behind.word() else {
            return Err(Reason::WordMissing);
        };
        if !numbers::all_hex(word) {
            return Err(Reason::NoHex);
        }
        if word.len() != width {
            return Err(Reason::WrongHex);
        }
        *self = behind;
        Ok(numbers::hex(word) as usize)
    }

    // The rest of the line as bytes, into `bytes`; the value is their number, as far as there is room for them.
    pub fn bytes(&mut self, bytes: &mut [u8]) -> Result<usize, Reason>
        ensures answer { result ≡ value_of (bytes_at self.old.line.now (length bytes.old) self.old.at) }
        ensures place { self.new ≡ record self.old { at = place_of self.old.at (bytes_at self.old.line.now (length bytes.old) self.old.at) } }
        ensures stored { bytes.new ≡ sets bytes.old 0 (bytes_stored self.old.line.now self.old.at) }
    {
        let mut rest = *self;
        let mut count = 0;
        // The cursor goes on, and no index.
        while let Some(group) = rest.word() {
            whole_bytes(group)?;
            count = store(group, bytes, count);
        }
        self.at = self.line.len();
        Ok(count.min(bytes.len()))
    }

    // No word is left.
    pub fn end(&self) -> Result<(), Reason>
        ensures { result ≡ end_at self.now.line.now self.now.at }
    {
        if words::word_start(self.line, self.at) < self.line.len() {
            return Err(Reason::WordTooMany);
        }
        Ok(())
    }
}

// A group is whole bytes.
fn whole_bytes(group: &[u8]) -> Result<(), Reason>
    ensures { result ≡ group_reason group.now }
{
    if !numbers::all_hex(group) {
        return Err(Reason::NoHex);
    }
    if group.len() % 2 != 0 {
        return Err(Reason::OddHex);
    }
    Ok(())
}

// A byte at this place, if there is room for it.
pub fn put(bytes: &mut [u8], at: usize, byte: u8)
    ensures { bytes.new ≡ set bytes.old at byte }
{
    if at < bytes.len() {
        bytes[at] = byte;
    }
}

// The bytes of a group from place `from` on, as far as there is room for them; the place behind all of them is handed back.
fn store(group: &[u8], bytes: &mut [u8], from: usize) -> usize
    requires { from + length group.now < 2 ^ 64 }
    ensures { Wrote bytes.old from (bytes_of group.now) result bytes.new }
{
    for i in 0..group.len() / 2 {
        put(
            bytes,
            from + i,
            numbers::byte(group[2 * i], group[2 * i + 1]),
        );
    }
    from + group.len() / 2
}
