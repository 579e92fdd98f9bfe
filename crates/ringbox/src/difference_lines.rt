// The differences of two lists of rows, each on a line: its bytes, and in words.
use super::lists::Lists;
use diff_changes::{ADDRESS_CHANGED, PAIR_GONE, PAIR_NEW, POSITION_GONE, POSITION_NEW};
use diff_position::{ADDRESS, BLOCK, KIND, NUMBER, POSITION};
use numbers::DONE;
use sizes::LINE_SIZE;
use text_numbers::Asked;
use text_out::Output;

// One difference's line.
fn line(
    output: &mut Output,
    kind: u8,
    position: usize,
    address: usize,
    block: usize,
    number: usize,
) {
    output.form(
        b"= %d %d %w %b %b  ",
        &[usize::from(kind), position, address, block, number],
    );
    match kind {
        POSITION_GONE => output.form(b"position %d is gone", &[position]),
        POSITION_NEW => output.form(b"position %d is new, with address %w", &[position, address]),
        ADDRESS_CHANGED => output.form(b"position %d: the address is now %w", &[position, address]),
        PAIR_GONE => output.form(
            b"position %d: pair %b.%b is gone",
            &[position, block, number],
        ),
        PAIR_NEW => output.form(
            b"position %d: pair %b.%b is new",
            &[position, block, number],
        ),
        _ => {}
    }
    output.line_end();
}

// How many differences there are, and a line for each.
fn lines(output: &mut Output, bytes: &[u8]) {
    output.form(b"= differences %d\n", &[bytes.len() / LINE_SIZE]);
    for change in bytes.chunks_exact(LINE_SIZE) {
        let address = u16::from_be_bytes([change[ADDRESS], change[ADDRESS + 1]]);
        line(
            output,
            change[KIND],
            usize::from(change[POSITION]),
            usize::from(address),
            usize::from(change[BLOCK]),
            usize::from(change[NUMBER]),
        );
    }
}

// The differences from the first list to the second, written into the lent room, or the refusal.
pub(crate) fn compare(output: &mut Output, lists: &Lists, lent: &mut [u8]) {
    output.form(b"compare %d\n", &[lent.len()]);
    let outcome = diff_lines::differences(lent, &lists.first.rows, &lists.second.rows);
    if outcome.number != DONE {
        return text_answers::refusal(output, Asked::Compare, outcome.number);
    }
    lines(output, &lent[..outcome.length.min(lent.len())]);
}
