// The lines of one position, written into a lent buffer from a place on; the place behind them is handed back.
#![tactic(auto)]

ghost use Rattle.std.specs.Prelude.{◌+◌, ◌≤◌, length};
ghost use Rattle.laws.specs.Buffers.{Wrote};
ghost use Rattle.laws.specs.Lists.{collect};
ghost use Rattle.rules.specs.House.{line_size};
ghost use Rattle.rules_diff.specs.Differences.{lines_at, lines_bytes};
ghost use Rattle.wire_pairs.specs.View.{pairs_of};
ghost use Rattle.diff_rows.specs.Gathering.{seen_in};
ghost use Rattle.diff_changes.specs.Changes.{number_of, told};
ghost use Rattle.diff_position.specs.Lines.{head_line, pair_line, line_in};

use diff_changes::LineKind;
use row_node::NodeRow;
use sizes::LINE_SIZE;
use wire_address::{LogicalNodeAddress, NodePosition};
use wire_pairs::{Pair, Pairs};

// Where kind, position, address, block and number stand in a line.
pub const KIND: usize = 0;

pub const POSITION: usize = 1;

pub const ADDRESS: usize = 2;

pub const BLOCK: usize = 4;

pub const NUMBER: usize = 5;

// A line: what it tells of a position, with an address or a pair where its kind has one, and zeros where it has none.
#[derive(Clone, Copy, PartialEq, Eq)]
pub struct Line {
    pub kind: LineKind,
    pub position: NodePosition,
    pub address: LogicalNodeAddress,
    pub pair: Pair,
}

// One line.
fn write_line(out: &mut [u8], at: usize, line: Line) -> usize
    requires { at + line_size ≤ length out.old }
    ensures { Wrote out.old at (line_in line) result out.new }
{
    out[at + KIND] = line.kind.number();
    out[at + POSITION] = line.position.0;
    wire_octets::write2(out, at + ADDRESS, line.address.0 as u32);
    out[at + BLOCK] = line.pair.block;
    out[at + NUMBER] = line.pair.number;
    at + LINE_SIZE
}

// A line of this kind for each pair.
fn write_pairs(
    out: &mut [u8],
    at: usize,
    kind: LineKind,
    position: NodePosition,
    pairs: &Pairs,
) -> usize
    requires { at + length (collect (pair_line (number_of kind) position.0) (pairs_of pairs.now)) ≤ length out.old }
    ensures { Wrote out.old at (collect (pair_line (number_of kind) position.0) (pairs_of pairs.now)) result out.new }
{
    let mut end = at;
    for i in 0..pairs.len() {
        let line = Line {
            kind,
            position,
            address: LogicalNodeAddress(0),
            pair: pairs.at(i),
        };
        end = write_line(out, end, line);
    }
    end
}

// The line of the position itself, if it has one.
fn write_head(
    out: &mut [u8],
    at: usize,
    kind: Option<LineKind>,
    position: NodePosition,
    address: LogicalNodeAddress,
) -> usize
    requires { at + length (head_line (told kind) position.0 address.0) ≤ length out.old }
    ensures { Wrote out.old at (head_line (told kind) position.0 address.0) result out.new }
{
    match kind {
        Some(kind) => {
            let line = Line {
                kind,
                position,
                address,
                pair: Pair {
                    block: 0,
                    number: 0,
                },
            };
            write_line(out, at, line)
        }
        None => at,
    }
}

// The lines of a position whose seat was the first and is the second.
pub fn write_position(
    out: &mut [u8],
    at: usize,
    position: NodePosition,
    before: Option<NodeRow>,
    after: Option<NodeRow>,
) -> usize
    requires { at + length (lines_bytes (lines_at position.0 (seen_in before) (seen_in after))) ≤ length out.old }
    ensures { Wrote out.old at (lines_bytes (lines_at position.0 (seen_in before) (seen_in after))) result out.new }
{
    if let (None, None) = (before, after) {
        return at;
    }
    let kind = diff_changes::head_kind(before, after);
    let address = diff_changes::seen_address(after);
    let gone = diff_changes::gone(before, after);
    let new = diff_changes::new(before, after);
    let head = write_head(out, at, kind, position, address);
    let end = write_pairs(out, head, LineKind::PairGone, position, &gone);
    write_pairs(out, end, LineKind::PairNew, position, &new)
}
