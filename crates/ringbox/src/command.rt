// The commands of a ring script.
use super::lists::Which;
use text_arguments::{Arguments, Reason};
use text_lists::RowWords;
use text_words::words;
use wire_pairs::Pair;

// The longest record that a line can hold, and the most order room, which is lent at the start.
pub const MAX_RECORD: usize = 8192;

pub const MAX_ROOM: usize = 8192;

// The most room that differences are written to.
pub const MAX_DIFFERENCE_ROOM: usize = 20000;

// How many hexadecimal digits a block or a number has.
const BYTE_DIGITS: usize = 2;

// A command with its arguments; the bytes of a record or of pairs stand in a buffer beside it.
#[derive(Clone, Copy, PartialEq, Eq)]
pub enum Command {
    Fresh(usize),
    Room(usize),
    Record(usize),
    State,
    Listing,
    LookUp(Pair),
    Rows,
    TakeRows(Which),
    NoRows(Which),
    Row { which: Which, row: RowWords },
    Compare(usize),
}

// A command that takes no argument more.
fn bare(arguments: Arguments, command: Command) -> Result<Command, Reason> {
    arguments.end()?;
    Ok(command)
}

fn fresh(mut arguments: Arguments) -> Result<Command, Reason> {
    let l = arguments.number()?;
    arguments.end()?;
    Ok(Command::Fresh(l))
}

fn room(mut arguments: Arguments) -> Result<Command, Reason> {
    let n = arguments.decimal(MAX_ROOM as u32)?;
    arguments.end()?;
    Ok(Command::Room(n))
}

fn compare(mut arguments: Arguments) -> Result<Command, Reason> {
    let n = arguments.decimal(MAX_DIFFERENCE_ROOM as u32)?;
    arguments.end()?;
    Ok(Command::Compare(n))
}

// A row for a list, and its pairs in `bytes`.
fn row(arguments: Arguments, which: Which, bytes: &mut [u8]) -> Result<Command, Reason> {
    let row = text_lists::row(arguments, bytes)?;
    Ok(Command::Row { which, row })
}

// What a list is to be: the picture's rows, none, or with one row more.
fn list(arguments: Arguments, which: Which, bytes: &mut [u8]) -> Result<Command, Reason> {
    let mut behind = arguments;
    match behind.word() {
        None => Ok(Command::TakeRows(which)),
        Some(b"none") => bare(behind, Command::NoRows(which)),
        Some(_) => row(arguments, which, bytes),
    }
}

fn look_up(mut arguments: Arguments) -> Result<Command, Reason> {
    let block = arguments.hex(BYTE_DIGITS)?;
    let number = arguments.hex(BYTE_DIGITS)?;
    arguments.end()?;
    Ok(Command::LookUp(Pair {
        block: block as u8,
        number: number as u8,
    }))
}

fn offered(mut arguments: Arguments, record: &mut [u8]) -> Result<Command, Reason> {
    let n = arguments.bytes(record)?;
    Ok(Command::Record(n))
}

// The command of a line, and the bytes of a record or of pairs in `bytes`; why there is none.
pub(crate) fn parse(line: &[u8], bytes: &mut [u8]) -> Result<Command, Reason> {
    let start = words::word_start(line, 0);
    if line.get(start) == Some(&b'>') {
        return offered(Arguments::from(line, start + 1), bytes);
    }
    let mut arguments = Arguments::from(line, 0);
    match arguments.word() {
        Some(b"state") => bare(arguments, Command::State),
        Some(b"listing") => bare(arguments, Command::Listing),
        Some(b"rows") => bare(arguments, Command::Rows),
        Some(b"lookup") => look_up(arguments),
        Some(b"fresh") => fresh(arguments),
        Some(b"room") => room(arguments),
        Some(b"first") => list(arguments, Which::First, bytes),
        Some(b"second") => list(arguments, Which::Second, bytes),
        Some(b"compare") => compare(arguments),
        _ => Err(Reason::UnknownWord),
    }
}
