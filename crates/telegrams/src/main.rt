// Telegrams at the bench: a script from standard input, answered line by line. See docs/BENCH-SCRIPT.md.
#![tactic(auto)]

mod command;
mod fields;
mod help;

ghost use Rattle.std.specs.Prelude.{◌≤◌, length};

use arrayvec::ArrayVec;
use command::{BENCH_PAYLOAD, Command, MAX_TELEGRAM};
use numbers::Refusal;
use sizes::MAX_PAYLOAD;
use std::rt::Env;
use tel_join_state::Reassembly;
use text_answers::refusal;
use text_arguments::Reason;
use text_bench::Bench;
use text_in::{Input, MAX_LINE};
use text_numbers::Asked;
use text_out::Output;

// What stands on the bench: the payload, the join state, what is joined, the bytes that a line names, and room for a telegram.
#[derive(Drop)]
struct Desk {
    payload: ArrayVec<u8, BENCH_PAYLOAD>,
    joining: Reassembly,
    buffer: [u8; MAX_PAYLOAD],
    bytes: [u8; MAX_TELEGRAM],
    room: [u8; BENCH_PAYLOAD],
}

// How many characters `join` and the blank behind it have.
const JOIN_MARK: usize = 5;

// The high half of a MsgID, and the low half: `%w` of a template takes two bytes.
fn high(msg_id: u32) -> usize {
    (msg_id / 65536) as usize
}

fn low(msg_id: u32) -> usize {
    (msg_id % 65536) as usize
}

// Byte number i of a pattern.
fn pattern(i: usize, seed: usize) -> u8 {
    ((i % 256 * 31 + i / 256 % 256 * 7 + seed % 256) % 256) as u8
}

// How many characters a join command has in its normal form, of a telegram of n bytes.
fn join_width(l: usize, room: usize, n: usize) -> usize
    requires { n ≤ MAX_TELEGRAM }
{
    let named = JOIN_MARK + Output::decimal_width(l) + 1 + Output::decimal_width(room);
    if n == 0 {
        return named;
    }
    named + 1 + fields::width(n)
}

// The join command in its normal form.
fn join_echo(output: &mut Output, l: usize, room: usize, telegram: &[u8]) {
    output.form(b"join %d %d", &[l, room]);
    if !telegram.is_empty() {
        output.byte(b' ');
        fields::telegram(output, telegram);
    }
    output.line_end();
}

// A message that is complete.
fn message(output: &mut Output, msg_id: u32, bytes: &[u8]) {
    output.form(
        b"= message %w%w %d\n",
        &[high(msg_id), low(msg_id), bytes.len()],
    );
    fields::message(output, bytes);
}

// The payload from a line's bytes.
fn set_payload(payload: &mut ArrayVec<u8, BENCH_PAYLOAD>, output: &mut Output, bytes: &[u8])
    requires { length bytes.now ≤ MAX_TELEGRAM }
{
    payload.clear();
    payload.try_extend_from_slice(bytes).unwrap();
    output.bytes(b"payload");
    if !bytes.is_empty() {
        output.byte(b' ');
        output.hex_bytes(bytes);
    }
    output.line_end();
}

// One telegram of a payload, cut into `room`.
fn telegram(
    payload: &[u8],
    output: &mut Output,
    l: usize,
    msg_id: u32,
    number: usize,
    room: &mut [u8],
) -> Result<(), Refusal> {
    let length = tel_cut::cut(l, msg_id, payload, number, room)?;
    output.bytes(b"= telegram ");
    fields::telegram(output, &room[..length.min(room.len())]);
    output.line_end();
    Ok(())
}

// Offers a telegram with this join buffer.
fn join(
    joining: &mut Reassembly,
    output: &mut Output,
    l: usize,
    buffer: &mut [u8],
    telegram: &[u8],
) -> Result<(), Refusal> {
    join_echo(output, l, buffer.len(), telegram);
    match tel_join::join(joining, l, buffer, telegram)? {
        None => output.line(b"= open"),
        Some(whole) => message(
            output,
            whole.msg_id,
            &buffer[..whole.length.min(buffer.len())],
        ),
    }
    Ok(())
}

impl Desk {
    // The payload from a pattern.
    fn fill(&mut self, output: &mut Output, n: usize, seed: usize) {
        self.payload.clear();
        for i in 0..n.min(BENCH_PAYLOAD) {
            self.payload.push(pattern(i, seed));
        }
        output.form(b"fill %d %d\n", &[n, seed]);
    }

    // The count of the payload's telegrams.
    fn counted(&self, output: &mut Output, l: usize) -> Result<usize, Refusal> {
        let telegrams = tel_count::count(l, self.payload.as_slice())?;
        output.form(b"= count %d\n", &[telegrams]);
        Ok(telegrams)
    }

    fn count(&self, output: &mut Output, l: usize) -> Result<(), Refusal> {
        output.form(b"count %d\n", &[l]);
        self.counted(output, l)?;
        Ok(())
    }

    // One telegram of the payload, with so much room.
    fn cut(
        &mut self,
        output: &mut Output,
        l: usize,
        msg_id: u32,
        number: usize,
        room: usize,
    ) -> Result<(), Refusal> {
        let lent = room.min(BENCH_PAYLOAD);
        output.form(
            b"cut %d %w%w %d %d\n",
            &[l, high(msg_id), low(msg_id), number, lent],
        );
        let whole = &mut self.room[..];
        let payload = self.payload.as_slice();
        telegram(payload, output, l, msg_id, number, &mut whole[..lent])
    }

    // All telegrams of the payload.
    fn cut_all(&mut self, output: &mut Output, l: usize, msg_id: u32) -> Result<(), Refusal> {
        output.form(b"cutall %d %w%w\n", &[l, high(msg_id), low(msg_id)]);
        let telegrams = self.counted(output, l)?;
        let payload = self.payload.as_slice();
        for number in 1..=telegrams {
            telegram(payload, output, l, msg_id, number, &mut self.room)?;
        }
        Ok(())
    }

    // A command, of which so many bytes are named.
    fn done(&mut self, output: &mut Output, command: Command, named: usize) -> Result<(), Refusal>
        requires { named ≤ MAX_TELEGRAM }
    {
        match command {
            Command::Payload(_) => set_payload(&mut self.payload, output, &self.bytes[..named]),
            Command::Fill { n, seed } => self.fill(output, n, seed),
            Command::Count(l) => self.count(output, l)?,
            Command::Cut {
                l,
                msg_id,
                number,
                room,
            } => self.cut(output, l, msg_id, number, room)?,
            Command::CutAll { l, msg_id } => self.cut_all(output, l, msg_id)?,
            Command::Rejoin => {
                self.joining = Reassembly::fresh();
                output.line(b"rejoin");
            }
            Command::Join { l, room, n: _ } => {
                let buffer = &mut self.buffer[..];
                let lent = &mut buffer[..room.min(MAX_PAYLOAD)];
                join(&mut self.joining, output, l, lent, &self.bytes[..named])?;
            }
        }
        Ok(())
    }
}

impl Bench for Desk {
    fn start() -> Self {
        Desk {
            payload: ArrayVec::new(),
            joining: Reassembly::fresh(),
            buffer: [0; MAX_PAYLOAD],
            bytes: [0; MAX_TELEGRAM],
            room: [0; BENCH_PAYLOAD],
        }
    }

    // A telegram is offered where its normal form is no longer than a line.
    fn obey(&mut self, output: &mut Output, line: &[u8]) -> Result<(), Reason> {
        let command = command::parse(line, &mut self.bytes)?;
        let named = match command {
            Command::Payload(n) => n.min(MAX_TELEGRAM),
            Command::Join { l, room, n } => {
                let named = n.min(MAX_TELEGRAM);
                if MAX_LINE < join_width(l, room, named) {
                    return Err(Reason::TooLong);
                }
                named
            }
            _ => 0,
        };
        if let Err(why) = self.done(output, command, named) {
            refusal(output, Asked::Telegram, why.number());
        }
        Ok(())
    }
}

fn main(rt: HostRuntime) {
    if text_bench::is_there(rt.arg(1, &mut [0])) {
        // A failed write changes nothing.
        let _ = rt.stdout().write_all(help::TEXT);
        return;
    }
    text_bench::play::<Desk>(
        &mut Input::new(rt.stdin()),
        &mut Output::new(rt.stdout()),
        b'<',
    );
}
