// Numbers and bytes as a script writes them.
ghost use Rattle.std.specs.Prelude.{◌≡◌, ◌%◌, ◌^◌, ◌≤◌, IfOk};
ghost use Rattle.text_words.specs.Text.{hex_value, all_digits, number, decimal_of, byte_of};

use super::digits;

// Why a word is no decimal number of at most a limit: another byte than a digit, or above the limit.
#[derive(Clone, Copy, PartialEq, Eq, Debug)]
pub enum NotDecimal {
    NoNumber,
    TooLarge,
}

// What a byte counts for in a number; one that is no digit counts for 16, which is no None: the rules' `hex_value` is that number.
fn counted(byte: u8) -> usize
    ensures value { result ≡ hex_value byte }
    ensures most { result ≤ 16 }
{
    digits::hex_value(byte).map_or(16, usize::from)
}

// Every byte is a digit to this base.
fn all_digits(word: &[u8], base: usize) -> bool
    ensures { result ≡ all_digits base word.now }
{
    word.iter().all(|byte| counted(*byte) < base)
}

// A word as a decimal number of at most `limit`.
pub fn decimal(word: &[u8], limit: u32) -> Result<usize, NotDecimal>
    ensures value { result ≡ decimal_of word.now limit }
    ensures most { IfOk result (λ value. value ≤ limit) }
{
    if word.is_empty() || !all_digits(word, 10) {
        return Err(NotDecimal::NoNumber);
    }
    let most = limit as usize;
    let mut value = 0;
    for byte in word {
        value = value * 10 + counted(*byte);
        if most < value {
            return Err(NotDecimal::TooLarge);
        }
    }
    Ok(value)
}

// Every byte is a hexadecimal digit.
pub fn all_hex(word: &[u8]) -> bool
    ensures { result ≡ all_digits 16 word.now }
{
    all_digits(word, 16)
}

// The last eight hexadecimal digits of a word as a number.
pub fn hex(word: &[u8]) -> u32
    ensures { result ≡ number 16 word.now % 2 ^ 32 }
{
    let mut value: usize = 0;
    for byte in word {
        value = (value * 16 + counted(*byte)) % 4294967296;
    }
    value as u32
}

// The byte of two hexadecimal digits.
pub fn byte(high: u8, low: u8) -> u8
    ensures { result ≡ byte_of high low }
{
    let value = counted(high) * 16 + counted(low);
    (value % 256) as u8
}
