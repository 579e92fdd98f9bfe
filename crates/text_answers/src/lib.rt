// What the programs say of a line: a comment, a line that is not understood, a refusal.
#![tactic(auto)]

ghost use Rattle.std.specs.Prelude.{◌≡◌, take};
ghost use Rattle.text_out.specs.Puts.{Puts};
ghost use Rattle.text_out.specs.Spelling.{lined};
ghost use Rattle.text_answers.specs.Remarks.{kind_of, told_of, is_too_long, shown_of, spaced_of, not_understood, refusal_of};

use text_arguments::Reason;
use text_in::MAX_LINE;
use text_numbers::Asked;
use text_out::Output;
use text_words::words;

// How much of a too long line is written back.
const SHOWN: usize = 64;

// What a line is, by its first character.
#[derive(Clone, Copy, Debug, PartialEq, Eq)]
pub enum LineKind {
    Remark,
    EarlierAnswer,
    Offer,
}

// The kind of a line; `other` stands in front of the other side's lines.
pub fn kind_of(line: &[u8], other: u8) -> LineKind
    ensures { result ≡ kind_of other line.now }
{
    let [first, ..] = line else {
        return LineKind::Remark;
    };
    match *first {
        b'#' => LineKind::Remark,
        b'=' | b'!' => LineKind::EarlierAnswer,
        byte if byte == other => LineKind::EarlierAnswer,
        _ => LineKind::Offer,
    }
}

// The reason that is told: also where the comment would be too long.
fn told(line: &[u8], reason: Reason) -> Reason
    ensures { result ≡ told_of line.now reason }
{
    if MAX_LINE - 2 < line.len() {
        Reason::TooLong
    } else {
        reason
    }
}

// The reason is that the line is too long.
fn is_too_long(reason: Reason) -> bool
    ensures { result ≡ is_too_long reason }
{
    matches!(reason, Reason::TooLong)
}

// What of the line is written back.
fn shown(line: &[u8], reason: Reason) -> &[u8]
    ensures { result.now ≡ take (shown_of line.now reason) line.now }
{
    if !is_too_long(reason) || line.len() <= SHOWN {
        return line;
    }
    let start = &line[..SHOWN];
    &start[..words::trimmed(start)]
}

// A line that is no command, as a comment, and why. Of a too long one only the start is written.
pub fn not_understood(output: &mut Output, line: &[u8], reason: Reason)
    ensures { Puts output.old (not_understood line.now reason) output.new }
{
    let why_not = told(line, reason);
    output.byte(b'#');
    shown_line(output, shown(line, why_not));
    output.bytes(b"# not understood: ");
    text_numbers::why(output, why_not);
}

// A blank and bytes, or nothing where there are none, and the end of a line.
fn shown_line(output: &mut Output, bytes: &[u8])
    ensures { Puts output.old (lined (spaced_of bytes.now)) output.new }
{
    if bytes.is_empty() {
        return output.line_end();
    }
    output.byte(b' ');
    output.line(bytes);
}

// A refusal: its number and what that means, by what was asked. It is a number and no `Refusal`: `refusal_of` speaks of any number, and C's
// outcomes hold numbers.
pub fn refusal(output: &mut Output, asked: Asked, number: u8)
    ensures { Puts output.old (refusal_of asked number) output.new }
{
    output.form(b"! %d  ", &[usize::from(number)]);
    text_numbers::meaning(output, asked, number);
}
