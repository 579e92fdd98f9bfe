// A unit at the bench: a script from standard input, answered line by line. See docs/BENCH-SCRIPT.md.
#![tactic(auto)]

mod command;
mod help;
mod show;

use command::{Command, MAX_ORDER, MAX_ROOM};
use numbers::{DONE, Refusal};
use ring_lookup::Place;
use sizes::MIN_ANSWER_ROOM;
use std::rt::Env;
use text_arguments::Reason;
use text_bench::Bench;
use text_in::Input;
use text_numbers::Asked;
use text_out::Output;
use text_records::Layout;
use unit_slave::NetworkSlave;
use wire_address::{LogicalNodeAddress, NodePosition};
use wire_pairs::{PAIR, Pair};

// The unit at the start: where it sits, and its address.
const FIRST_POSITION: u8 = 1;

const FIRST_ADDRESS: u16 = 0x0101;

// The unit, the room that is lent, the bytes of an order or of pairs in a line, and room for an answer.
#[derive(Drop)]
struct UnitBench {
    unit: NetworkSlave,
    room: usize,
    bytes: [u8; MAX_ORDER],
    out: [u8; MAX_ROOM],
}

// A unit with these pairs, or a refusal and one with none.
fn make(output: &mut Output, position: u8, address: u16, pairs: &[u8]) -> NetworkSlave {
    let seat = usize::from(position);
    let named = usize::from(address);
    output.form(b"unit %d %w", &[seat, named]);
    text_records::pairs(output, pairs);
    output.line_end();
    let made = NetworkSlave::make(NodePosition(position), LogicalNodeAddress(address), pairs);
    if made.number == DONE {
        output.form(b"= unit %d %w %d\n", &[seat, named, made.unit.pairs.len()]);
    } else {
        text_answers::refusal(output, Asked::Unit, made.number);
    }
    made.unit
}

// Offers an order with so much room: a refusal, or that it is read, and the answer.
fn offer(unit: &mut NetworkSlave, output: &mut Output, order: &[u8], out: &mut [u8]) {
    text_records::marked(output, b'<', Layout::Order, order);
    let read = unit.read(order, out);
    *unit = read.unit;
    if read.number != DONE {
        return text_answers::refusal(output, Asked::Order, read.number);
    }
    output.line(b"= read");
    if read.length != 0 {
        text_records::marked(
            output,
            b'>',
            Layout::Event,
            &out[..read.length.min(out.len())],
        );
    }
}

// A look-up was answered.
fn found(unit: &mut NetworkSlave, output: &mut Output, pair: Pair, address: u16) {
    output.form(
        b"found %b %b %w\n",
        &[
            usize::from(pair.block),
            usize::from(pair.number),
            usize::from(address),
        ],
    );
    let answer: Result<Place, Refusal> = Ok(Place {
        position: NodePosition(0),
        address: LogicalNodeAddress(address),
    });
    *unit = unit.learn(pair, answer);
}

impl Bench for UnitBench {
    fn start() -> Self {
        let made = NetworkSlave::make(
            NodePosition(FIRST_POSITION),
            LogicalNodeAddress(FIRST_ADDRESS),
            &[],
        );
        UnitBench {
            unit: made.unit,
            room: MIN_ANSWER_ROOM,
            bytes: [0; MAX_ORDER],
            out: [0; MAX_ROOM],
        }
    }

    fn obey(&mut self, output: &mut Output, line: &[u8]) -> Result<(), Reason> {
        match command::parse(line, &mut self.bytes)? {
            Command::Unit(row) => {
                let named = &self.bytes[..PAIR * row.pairs.min(MAX_ORDER / PAIR)];
                self.unit = make(output, row.position, row.address, named);
            }
            Command::Room(n) => {
                output.form(b"room %d\n", &[n]);
                self.room = n;
            }
            Command::Order(n) => {
                let order = &self.bytes[..n.min(MAX_ORDER)];
                if text_records::too_wide(Layout::Order, order) {
                    return Err(Reason::TooLong);
                }
                let room = self.room.min(MAX_ROOM);
                let lent = &mut self.out[..];
                offer(&mut self.unit, output, order, &mut lent[..room]);
            }
            Command::Found { pair, address } => found(&mut self.unit, output, pair, address),
            Command::Known => show::known(output, &self.unit.known),
            Command::List => show::list(output, &self.unit.pairs),
            Command::Myself => show::myself(output, &self.unit),
        }
        Ok(())
    }
}

fn main(rt: HostRuntime) {
    if text_bench::is_there(rt.arg(1, &mut [0])) {
        // A failed write changes nothing.
        let _ = rt.stdout().write_all(help::TEXT);
        return;
    }
    text_bench::play::<UnitBench>(
        &mut Input::new(rt.stdin()),
        &mut Output::new(rt.stdout()),
        b'>',
    );
}
