// The differences of two lists of rows, position by position, written to a lent buffer.
#![tactic(auto)]

ghost use Rattle.std.specs.Prelude.{◌≡◌, ◌≤◌, length};
ghost use Rattle.laws.specs.Buffers.{Wrote};
ghost use Rattle.rules.specs.House.{max_units, max_lines};
ghost use Rattle.rules_diff.specs.Differences.{lines_bytes};
ghost use Rattle.diff_rows.specs.Gathering.{gathering_of};
ghost use Rattle.diff_lines.specs.Comparing.{seen, lines_over, compared_by, outcome_of, Compares};

use diff_rows::Rows;
use numbers::{DONE, Refusal};
use row_node::NodeRow;
use sizes::LINE_SIZE;
use wire_address::NodePosition;

// The number of a refusal or 0, and how many bytes of lines are written.
// C interface: a number beside a length.
#[repr(C)]
#[derive(Clone, Copy)]
pub struct CompareOutcome {
    pub number: u8,
    pub length: usize,
}

// How many lines all positions have.
fn count_lines(before: &[Option<NodeRow>], after: &[Option<NodeRow>]) -> usize
    requires { length before.now ≤ max_units }
    ensures { (result ≡ length (lines_over 1 (seen before.now) (seen after.now))) × (result ≤ max_lines) }
{
    let mut n = 0;
    for (first, second) in before.iter().zip(after) {
        n += diff_changes::count(*first, *second);
    }
    n
}

// The lines of all positions, from the start of `out`; how many bytes they are is handed back.
fn write_lines(out: &mut [u8], before: &[Option<NodeRow>], after: &[Option<NodeRow>]) -> usize
    requires { (length before.now ≤ max_units) × (length (lines_bytes (lines_over 1 (seen before.now) (seen after.now))) ≤ length out.old) }
    ensures { Wrote out.old 0 (lines_bytes (lines_over 1 (seen before.now) (seen after.now))) result out.new }
{
    let mut end = 0;
    for (i, (first, second)) in before.iter().zip(after).enumerate() {
        let position = NodePosition(i as u8 + 1);
        end = diff_position::write_position(out, end, position, *first, *second);
    }
    end
}

// The differences from the first list to the second, a line each, from the start of `out`: how many bytes they are; or why nothing is
// written.
fn compared(out: &mut [u8], first: &Rows, second: &Rows) -> Result<usize, Refusal>
    ensures { Compares (compared_by (gathering_of first.now) (gathering_of second.now) (length out.old)) out.old (outcome_of result) out.new }
{
    if first.bad || second.bad {
        return Err(Refusal::RecordMalformed);
    }
    if first.falling || second.falling {
        return Err(Refusal::RowsNotRising);
    }
    let needed = count_lines(&first.seats, &second.seats) * LINE_SIZE;
    if out.len() < needed {
        return Err(Refusal::NoRoomForDifferences);
    }
    Ok(write_lines(out, &first.seats, &second.seats))
}

// The same for C: or 2, 20 or 21, and nothing is written.
pub fn differences(out: &mut [u8], first: &Rows, second: &Rows) -> CompareOutcome
    ensures { Compares (compared_by (gathering_of first.now) (gathering_of second.now) (length out.old)) out.old result out.new }
{
    match compared(out, first, second) {
        Ok(length) => CompareOutcome {
            number: DONE,
            length,
        },
        Err(refusal) => CompareOutcome {
            number: refusal.number(),
            length: 0,
        },
    }
}
