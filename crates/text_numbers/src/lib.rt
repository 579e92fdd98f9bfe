// The words of a number: what a refusal means, by what was asked, and why a line is not understood.
#![tactic(auto, using(crate::proofs::Tables::told), unfolding(text_out::specs::Spelling::filled_from, text_out::specs::Spelling::value_of, text_out::specs::Spelling::decimal_of, text_out::specs::Spelling::width_of, text_out::specs::Spelling::places_by))]

ghost use Rattle.text_out.specs.Puts.{Puts};
ghost use Rattle.text_out.specs.Spelling.{lined};
ghost use Rattle.text_numbers.specs.Wording.{no_words, words_beside, of_record, of_picture, of_telegram, of_look_up, of_order, of_unit, of_compare, words_of, why_of};

use numbers::{
    ALREADY_RUNNING, ILLEGAL_SIZE, NO_PASS_LEFT, NO_ROOM_FOR_DIFFERENCES, NO_SUCH_POSITION,
    NO_SUCH_TELEGRAM, NOT_ASKED, NOT_LISTED, NOT_OK, NOT_RUNNING, ORDER_ROOM_TOO_SHORT,
    OUT_OF_SEQUENCE, PAYLOAD_TOO_LONG, POSITION_IGNORED, RECORD_MALFORMED, ROOM_TOO_SHORT,
    ROWS_NOT_RISING, TEL_ID_PASSED_OVER, TELEGRAM_MALFORMED, WRONG_PASS,
};
use sizes::{MAX_PAIRS, MAX_PAYLOAD, MAX_SIZE, MAX_UNITS, MIN_ANSWER_ROOM, MIN_ROOM, MIN_SIZE};
use text_arguments::Reason;
use text_in::MAX_LINE;
use text_out::Output;

// What was asked, and has its own numbers: a record to take, a fresh picture, a telegram to count, cut or join, a look-up, an
// order to read, a unit to make, two lists of rows to compare.
#[derive(Clone, Copy, Debug, PartialEq, Eq)]
pub enum Asked {
    Record,
    Picture,
    Telegram,
    LookUp,
    Order,
    Unit,
    Compare,
}

// A number without a row: words that are no refusal's.
fn no_words(output: &mut Output)
    ensures { Puts output.old (lined no_words) output.new }
{
    output.line(b"no words for this number")
}

// What a record is refused for.
fn of_record(output: &mut Output, number: u8)
    ensures { Puts output.old (lined (words_beside of_record number)) output.new }
{
    match number {
        ORDER_ROOM_TOO_SHORT => output.form(b"order room below %d bytes\n", &[MIN_ROOM]),
        RECORD_MALFORMED => output.line(b"record malformed"),
        NOT_RUNNING => output.line(b"the ring does not run"),
        ALREADY_RUNNING => output.line(b"the ring runs already"),
        WRONG_PASS => output.line(b"not the current pass"),
        NO_SUCH_POSITION => output.line(b"no unit at this position"),
        POSITION_IGNORED => output.line(b"the position is ignored"),
        NOT_ASKED => output.line(b"no open question, or no running delay"),
        NO_PASS_LEFT => output.line(b"no pass is left"),
        _ => no_words(output),
    }
}

// What a fresh picture is refused for.
fn of_picture(output: &mut Output, number: u8)
    ensures { Puts output.old (lined (words_beside of_picture number)) output.new }
{
    match number {
        ILLEGAL_SIZE => output.form(b"L is not %d to %d\n", &[MIN_SIZE, MAX_SIZE]),
        _ => no_words(output),
    }
}

// What a telegram is refused for, when it is counted, cut or joined.
fn of_telegram(output: &mut Output, number: u8)
    ensures { Puts output.old (lined (words_beside of_telegram number)) output.new }
{
    match number {
        ILLEGAL_SIZE => output.form(b"L is not %d to %d\n", &[MIN_SIZE, MAX_SIZE]),
        PAYLOAD_TOO_LONG => output.form(b"payload above %d bytes\n", &[MAX_PAYLOAD]),
        NO_SUCH_TELEGRAM => output.line(b"no telegram of this number"),
        ROOM_TOO_SHORT => output.line(b"lent room too short"),
        TELEGRAM_MALFORMED => output.line(b"telegram malformed"),
        TEL_ID_PASSED_OVER => output.line(b"TelID above 3: passed over"),
        OUT_OF_SEQUENCE => output.line(b"out of sequence: an open message is dropped"),
        _ => no_words(output),
    }
}

// What a look-up is refused for.
fn of_look_up(output: &mut Output, number: u8)
    ensures { Puts output.old (lined (words_beside of_look_up number)) output.new }
{
    match number {
        NOT_LISTED => output.line(b"not listed"),
        NOT_OK => output.line(b"the state is not OK"),
        _ => no_words(output),
    }
}

// What an order is refused for.
fn of_order(output: &mut Output, number: u8)
    ensures { Puts output.old (lined (words_beside of_order number)) output.new }
{
    match number {
        ORDER_ROOM_TOO_SHORT => output.form(b"room below %d bytes\n", &[MIN_ANSWER_ROOM]),
        RECORD_MALFORMED => output.line(b"order malformed"),
        _ => no_words(output),
    }
}

// What a unit is refused for.
fn of_unit(output: &mut Output, number: u8)
    ensures { Puts output.old (lined (words_beside of_unit number)) output.new }
{
    match number {
        RECORD_MALFORMED => output.form(b"more than %d pairs\n", &[MAX_PAIRS]),
        _ => no_words(output),
    }
}

// What a comparison of two lists is refused for.
fn of_compare(output: &mut Output, number: u8)
    ensures { Puts output.old (lined (words_beside of_compare number)) output.new }
{
    match number {
        RECORD_MALFORMED => output.form(
            b"position not 1 to %d, more than %d pairs, or a pair twice\n",
            &[MAX_UNITS, MAX_PAIRS],
        ),
        ROWS_NOT_RISING => output.line(b"rows not in rising position order"),
        NO_ROOM_FOR_DIFFERENCES => output.line(b"no room for all differences"),
        _ => no_words(output),
    }
}

// What a number given back means, by what was asked. It is a number and no `Refusal`: the tables of specs/Wording.antt and `no_words` speak
// of any number, and C's outcomes hold numbers.
pub fn meaning(output: &mut Output, asked: Asked, number: u8)
    ensures { Puts output.old (lined (words_of asked number)) output.new }
{
    match asked {
        Asked::Record => of_record(output, number),
        Asked::Picture => of_picture(output, number),
        Asked::Telegram => of_telegram(output, number),
        Asked::LookUp => of_look_up(output, number),
        Asked::Order => of_order(output, number),
        Asked::Unit => of_unit(output, number),
        Asked::Compare => of_compare(output, number),
    }
}

// Why a line is not understood.
pub fn why(output: &mut Output, reason: Reason)
    ensures { Puts output.old (lined (why_of reason)) output.new }
{
    match reason {
        Reason::UnknownWord => output.line(b"unknown word"),
        Reason::WordMissing => output.line(b"a word is missing"),
        Reason::NoDecimal => output.line(b"not a decimal number"),
        Reason::DoesNotFit => output.line(b"number does not fit"),
        Reason::NoHex => output.line(b"not hexadecimal"),
        Reason::OddHex => output.line(b"odd number of hex digits"),
        Reason::WrongHex => output.line(b"wrong number of hex digits"),
        Reason::WordTooMany => output.line(b"a word too many"),
        Reason::TooLong => output.form(b"line of more than %d bytes\n", &[MAX_LINE]),
        Reason::NoPair => output.line(b"not a pair"),
        Reason::TooMany => output.line(b"too many"),
        Reason::Unnamed(_) => no_words(output),
    }
}
