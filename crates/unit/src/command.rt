// The commands of a unit's script.
use text_arguments::{Arguments, Reason};
use text_lists::RowWords;
use text_words::words;
use wire_pairs::Pair;

// The longest order that a line can hold, and the most room that is lent.
pub const MAX_ORDER: usize = 8192;

pub const MAX_ROOM: usize = 8192;

// How many hexadecimal digits a block or a number has, and an address.
const BYTE_DIGITS: usize = 2;

const ADDRESS_DIGITS: usize = 4;

// A command with its arguments; the bytes of an order or of pairs stand in a buffer beside it.
#[derive(Clone, Copy, PartialEq, Eq)]
pub enum Command {
    Unit(RowWords),
    Room(usize),
    Order(usize),
    Found { pair: Pair, address: u16 },
    Known,
    List,
    Myself,
}

// A command that takes no argument more. `bare` and `room` are ringbox's over other commands: one for both would be handed the command by
// a closure, and read no plainer.
fn bare(arguments: Arguments, command: Command) -> Result<Command, Reason> {
    arguments.end()?;
    Ok(command)
}

fn unit(arguments: Arguments, bytes: &mut [u8]) -> Result<Command, Reason> {
    let row = text_lists::row(arguments, bytes)?;
    Ok(Command::Unit(row))
}

fn room(mut arguments: Arguments) -> Result<Command, Reason> {
    let n = arguments.decimal(MAX_ROOM as u32)?;
    arguments.end()?;
    Ok(Command::Room(n))
}

fn found(mut arguments: Arguments) -> Result<Command, Reason> {
    let block = arguments.hex(BYTE_DIGITS)?;
    let number = arguments.hex(BYTE_DIGITS)?;
    let address = arguments.hex(ADDRESS_DIGITS)?;
    arguments.end()?;
    Ok(Command::Found {
        pair: Pair {
            block: block as u8,
            number: number as u8,
        },
        address: address as u16,
    })
}

// An order: its bytes up to two blanks in a row; the words behind them are not read.
fn order(line: &[u8], at: usize, bytes: &mut [u8]) -> Result<Command, Reason> {
    let end = text_lists::hex_end(line, at).min(line.len());
    let n = Arguments::from(&line[..end], at).bytes(bytes)?;
    Ok(Command::Order(n))
}

// The command of a line, and the bytes of an order or of pairs in `bytes`; why there is none.
pub(crate) fn parse(line: &[u8], bytes: &mut [u8]) -> Result<Command, Reason> {
    let start = words::word_start(line, 0);
    if line.get(start) == Some(&b'<') {
        return order(line, start + 1, bytes);
    }
    let mut arguments = Arguments::from(line, 0);
    match arguments.word() {
        Some(b"unit") => unit(arguments, bytes),
        Some(b"room") => room(arguments),
        Some(b"found") => found(arguments),
        Some(b"known") => bare(arguments, Command::Known),
        Some(b"list") => bare(arguments, Command::List),
        Some(b"self") => bare(arguments, Command::Myself),
        _ => Err(Reason::UnknownWord),
    }
}
