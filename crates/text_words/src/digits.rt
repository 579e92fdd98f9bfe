// Digits, and which bytes part words.
ghost use Rattle.std.specs.Prelude.{◌≡◌, ◌<◌, IfSome};
ghost use Rattle.text_words.specs.Text.{is_blank, is_dropped, digit_of, glyph_of};

// A space or a tab.
#[tactic(auto, unfolding(crate::specs::Text::is_blank))]
pub fn is_blank(byte: u8) -> bool
    ensures { result ≡ is_blank byte }
{
    byte == b' ' || byte == b'\t'
}

// A byte that is dropped at a line's end: a blank or a CR.
#[tactic(auto, unfolding(crate::specs::Text::is_dropped))]
pub fn is_dropped(byte: u8) -> bool
    ensures { result ≡ is_dropped byte }
{
    byte == b'\r' || is_blank(byte)
}

// A hexadecimal digit's value, in either case.
pub fn hex_value(byte: u8) -> Option<u8>
    ensures value { result ≡ digit_of byte }
    ensures below { IfSome result (λ value. value < 16) }
{
    match byte {
        b'0'..=b'9' => Some(byte - b'0'),
        b'A'..=b'F' => Some(byte - b'A' + 10),
        b'a'..=b'f' => Some(byte - b'a' + 10),
        _ => None,
    }
}

// The upper-case digit of a value's low four bits.
#[tactic(auto, unfolding(crate::specs::Text::glyph_of))]
pub fn glyph(value: u8) -> u8
    ensures { result ≡ glyph_of value }
{
    let digit = value % 16;
    if digit < 10 {
        b'0' + digit
    } else {
        b'A' + (digit - 10)
    }
}
