// Records and orders in hexadecimal, with a blank between their fields, and pairs as words.
#![tactic(auto)]

ghost use Rattle.std.specs.Prelude.{◌≡◌, ◌-◌, ltb, length, get_or};
ghost use Rattle.text_in.specs.Lines.{max_line};
ghost use Rattle.text_out.specs.Puts.{Puts};
ghost use Rattle.text_records.specs.Fields.{head_gap, answer_gap, event_gap, is_known, field_gap, order_gap, gap_of, spaced_byte, spaced_of, marked_of, pair_word, pair_words};

use text_in::MAX_LINE;
use text_out::Output;
use wire_events::{ADDRESS, ANSWER, COUNT};
use wire_orders::{ASK, HEAD, INVALID, KIND, NEW, PASS, SET, SET_BLOCK, SET_NEW, WAIT_LONG};
use wire_pairs::PAIR;

// Where what stands behind the first byte of an order's body begins, and of a SET its block and its new number.
const BODY: usize = HEAD + 1;

const BLOCK: usize = HEAD + SET_BLOCK;

const NEW_NUMBER: usize = HEAD + SET_NEW;

// Whose fields bytes have: a record's, which tells an event, or an order's.
#[derive(Clone, Copy, Debug, PartialEq, Eq)]
pub enum Layout {
    Event,
    Order,
}

// The third byte is the kind; 0 where there is none. It is a byte and no enum: a line may hold any byte there, also one that is no kind.
fn kind_of(bytes: &[u8]) -> u8
    ensures { result ≡ get_or bytes.now 2 0 }
{
    wire_octets::octet(bytes, KIND)
}

// A blank stands after mark, kind and pass.
fn head_gap(n: usize) -> bool
    ensures { result ≡ head_gap n }
{
    n == KIND || n == PASS || n == HEAD
}

// A blank stands after the address of an ANSWER, its count and each of its pairs.
fn answer_gap(n: usize) -> bool
    ensures { result ≡ answer_gap n }
{
    n == COUNT || COUNT < n && n % 2 == 1
}

// A blank stands after byte n of an event, where more bytes follow.
fn event_gap(kind: u8, n: usize) -> bool
    ensures { result ≡ event_gap kind n }
{
    head_gap(n) || n == ADDRESS || kind == ANSWER && answer_gap(n)
}

// A kind that an order has.
fn is_known(kind: u8) -> bool
    ensures { result ≡ is_known kind }
{
    (ASK..=WAIT_LONG).contains(&kind)
}

// A blank stands after the address of a SET, its block and its old number, and after each pair of NEW and INVALID.
fn field_gap(kind: u8, n: usize) -> bool
    ensures { result ≡ field_gap kind n }
{
    BLOCK <= n
        && match kind {
            SET => n <= NEW_NUMBER,
            NEW | INVALID => n % 2 == 0,
            _ => false,
        }
}

// A blank stands after byte n of an order, where more bytes follow.
fn order_gap(kind: u8, n: usize) -> bool
    ensures { result ≡ order_gap kind n }
{
    if n == BODY {
        is_known(kind)
    } else {
        head_gap(n) || field_gap(kind, n)
    }
}

impl Layout {
    // A blank stands after byte n, where more bytes follow.
    fn has_gap(self, kind: u8, n: usize) -> bool
        ensures { result ≡ gap_of self kind n }
    {
        match self {
            Layout::Event => event_gap(kind, n),
            Layout::Order => order_gap(kind, n),
        }
    }
}

// A byte as two digits, and a blank before them where one stands.
fn spaced_byte(output: &mut Output, blank: bool, byte: u8)
    ensures { Puts output.old (spaced_byte blank byte) output.new }
{
    if blank {
        output.byte(b' ');
    }
    output.hex(byte);
}

// Bytes with a blank between their fields.
pub fn spaced(output: &mut Output, layout: Layout, bytes: &[u8])
    ensures { Puts output.old (spaced_of layout bytes.now) output.new }
{
    let kind = kind_of(bytes);
    for (i, byte) in bytes.iter().enumerate() {
        spaced_byte(output, layout.has_gap(kind, i), *byte);
    }
}

// A mark, and bytes with a blank between their fields behind it, on a line.
pub fn marked(output: &mut Output, mark: u8, layout: Layout, bytes: &[u8])
    ensures { Puts output.old (marked_of mark layout bytes.now) output.new }
{
    output.byte(mark);
    if bytes.is_empty() {
        return output.line_end();
    }
    output.byte(b' ');
    spaced(output, layout, bytes);
    output.line_end();
}

// With a mark and a blank in front, the bytes with a blank between their fields are longer than a line.
pub fn too_wide(layout: Layout, bytes: &[u8]) -> bool
    ensures { result ≡ ltb (max_line - 2) (length (spaced_of layout bytes.now)) }
{
    let kind = kind_of(bytes);
    let mut width = 0;
    for i in 0..bytes.len() {
        if MAX_LINE - 2 < width {
            return true;
        }
        width += 2 + usize::from(layout.has_gap(kind, i));
    }
    MAX_LINE - 2 < width
}

// A pair behind a blank, as 22.01.
pub fn pair(output: &mut Output, block: u8, number: u8)
    ensures { Puts output.old (pair_word block number) output.new }
{
    output.byte(b' ');
    output.hex(block);
    output.byte(b'.');
    output.hex(number);
}

// The pairs that the bytes are, each behind a blank.
pub fn pairs(output: &mut Output, bytes: &[u8])
    ensures { Puts output.old (pair_words bytes.now) output.new }
{
    for two in bytes.chunks_exact(PAIR) {
        pair(output, two[0], two[1]);
    }
}
