// The commands of a telegram script.
use sizes::MAX_PAYLOAD;
use text_arguments::{Arguments, Reason};

// The sizes of the buffers: a payload, which may be longer than the longest message, and the bytes of a telegram that a line can hold.
pub const BENCH_PAYLOAD: usize = 70000;

pub const MAX_TELEGRAM: usize = 8192;

// How many hexadecimal digits a MsgID has.
const MSG_ID_DIGITS: usize = 8;

// A command with its arguments; a payload's and a telegram's bytes stand in buffers beside it.
#[derive(Clone, Copy, PartialEq, Eq, Debug)]
pub enum Command {
    Payload(usize),
    Fill {
        n: usize,
        seed: usize,
    },
    Count(usize),
    Cut {
        l: usize,
        msg_id: u32,
        number: usize,
        room: usize,
    },
    CutAll {
        l: usize,
        msg_id: u32,
    },
    Rejoin,
    Join {
        l: usize,
        room: usize,
        n: usize,
    },
}

fn payload(mut arguments: Arguments, bytes: &mut [u8]) -> Result<Command, Reason> {
    let n = arguments.bytes(bytes)?;
    Ok(Command::Payload(n))
}

fn fill(mut arguments: Arguments) -> Result<Command, Reason> {
    let n = arguments.decimal(BENCH_PAYLOAD as u32)?;
    let seed = arguments.number()?;
    arguments.end()?;
    Ok(Command::Fill { n, seed })
}

fn count(mut arguments: Arguments) -> Result<Command, Reason> {
    let l = arguments.number()?;
    arguments.end()?;
    Ok(Command::Count(l))
}

fn cut(mut arguments: Arguments) -> Result<Command, Reason> {
    let l = arguments.number()?;
    let msg_id = arguments.hex(MSG_ID_DIGITS)?;
    let number = arguments.number()?;
    let room = arguments.decimal(BENCH_PAYLOAD as u32)?;
    arguments.end()?;
    Ok(Command::Cut {
        l,
        msg_id: msg_id as u32,
        number,
        room,
    })
}

fn cut_all(mut arguments: Arguments) -> Result<Command, Reason> {
    let l = arguments.number()?;
    let msg_id = arguments.hex(MSG_ID_DIGITS)?;
    arguments.end()?;
    Ok(Command::CutAll {
        l,
        msg_id: msg_id as u32,
    })
}

fn rejoin(arguments: Arguments) -> Result<Command, Reason> {
    arguments.end()?;
    Ok(Command::Rejoin)
}

fn join(mut arguments: Arguments, bytes: &mut [u8]) -> Result<Command, Reason> {
    let l = arguments.number()?;
    let room = arguments.decimal(MAX_PAYLOAD as u32)?;
    let n = arguments.bytes(bytes)?;
    Ok(Command::Join { l, room, n })
}

// The command of a line, and the bytes that it names in `bytes`; why there is none.
pub(crate) fn parse(line: &[u8], bytes: &mut [u8]) -> Result<Command, Reason> {
    let mut arguments = Arguments::from(line, 0);
    match arguments.word() {
        Some(b"join") => join(arguments, bytes),
        Some(b"cut") => cut(arguments),
        Some(b"cutall") => cut_all(arguments),
        Some(b"fill") => fill(arguments),
        Some(b"payload") => payload(arguments, bytes),
        Some(b"count") => count(arguments),
        Some(b"rejoin") => rejoin(arguments),
        _ => Err(Reason::UnknownWord),
    }
}
