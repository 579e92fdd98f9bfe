// The ring box at the bench: a script from standard input, answered line by line. See docs/BENCH-SCRIPT.md.
#![tactic(auto)]

mod command;
mod difference_lines;
mod help;
mod lists;
mod order_lines;
mod show;

ghost use Rattle.registry.specs.Outcome.{HandedOut};

use command::{Command, MAX_DIFFERENCE_ROOM, MAX_RECORD, MAX_ROOM};
use lists::Lists;
use numbers::DONE;
use registry::image::RegistryImage;
use std::rt::Env;
use text_arguments::Reason;
use text_bench::Bench;
use text_in::Input;
use text_numbers::Asked;
use text_out::Output;
use text_records::Layout;
use wire_pairs::{PAIR, Pair};

// L of the picture at the start.
const FIRST_SIZE: usize = 12;

// The picture, the order room that is lent, two lists of rows, the bytes of a record or of pairs in a line, and room for orders and
// differences.
#[derive(Drop)]
struct RingBox {
    picture: RegistryImage,
    room: usize,
    lists: Lists,
    bytes: [u8; MAX_RECORD],
    lent: [u8; MAX_DIFFERENCE_ROOM],
}

// A fresh picture for L.
fn fresh(picture: &mut RegistryImage, output: &mut Output, l: usize)
    ensures { HandedOut picture.new }
{
    output.form(b"fresh %d\n", &[l]);
    let made = RegistryImage::fresh(l);
    *picture = made.picture;
    match made.answer {
        Ok(()) => output.form(b"= fresh %d\n", &[l]),
        Err(refusal) => text_answers::refusal(output, Asked::Picture, refusal.number()),
    }
}

// Offers a record with so much order room: a refusal, or that it is taken, and its orders.
fn offer(picture: &mut RegistryImage, output: &mut Output, record: &[u8], lent: &mut [u8])
    requires { HandedOut picture.old }
    ensures { HandedOut picture.new }
{
    text_records::marked(output, b'>', Layout::Event, record);
    let recorded = picture.record(record, lent);
    *picture = recorded.picture;
    if recorded.number != DONE {
        return text_answers::refusal(output, Asked::Record, recorded.number);
    }
    output.line(b"= taken");
    order_lines::lines(output, &lent[..recorded.length.min(lent.len())]);
}

// A look-up in its normal form, and where the pair is listed.
fn look_up(picture: &RegistryImage, output: &mut Output, pair: Pair) {
    output.form(
        b"lookup %b %b\n",
        &[usize::from(pair.block), usize::from(pair.number)],
    );
    show::found(output, picture.look_up(pair));
}

impl Bench for RingBox {
    // The picture is fresh, or it was handed back for a record. This is no ghost field, which has to have one proof at most.
    ghost holds = { λ bench. HandedOut bench.picture };

    fn start() -> Self {
        RingBox {
            picture: RegistryImage::fresh(FIRST_SIZE).picture,
            room: MAX_ROOM,
            lists: Lists::none(),
            bytes: [0; MAX_RECORD],
            lent: [0; MAX_DIFFERENCE_ROOM],
        }
    }

    fn obey(&mut self, output: &mut Output, line: &[u8]) -> Result<(), Reason> {
        match command::parse(line, &mut self.bytes)? {
            Command::Fresh(l) => fresh(&mut self.picture, output, l),
            Command::Room(n) => {
                output.form(b"room %d\n", &[n]);
                self.room = n;
            }
            Command::Record(n) => {
                let record = &self.bytes[..n.min(MAX_RECORD)];
                if text_records::too_wide(Layout::Event, record) {
                    return Err(Reason::TooLong);
                }
                let room = self.room.min(MAX_DIFFERENCE_ROOM);
                let lent = &mut self.lent[..];
                offer(&mut self.picture, output, record, &mut lent[..room]);
            }
            Command::State => show::state(output, &self.picture),
            Command::Listing => show::listing(output, &self.picture),
            Command::LookUp(pair) => look_up(&self.picture, output, pair),
            Command::Rows => show::rows(output, &self.picture),
            Command::TakeRows(which) => self.lists.take(output, which, &self.picture),
            Command::NoRows(which) => self.lists.clear(output, which),
            Command::Row { which, row } => {
                let named = &self.bytes[..PAIR * row.pairs.min(MAX_RECORD / PAIR)];
                self.lists
                    .add(output, which, row.position, row.address, named)?;
            }
            Command::Compare(n) => {
                let room = n.min(MAX_DIFFERENCE_ROOM);
                let lent = &mut self.lent[..];
                difference_lines::compare(output, &self.lists, &mut lent[..room]);
            }
        }
        Ok(())
    }
}

fn main(rt: HostRuntime) {
    if text_bench::is_there(rt.arg(1, &mut [0])) {
        // A failed write changes nothing.
        let _ = rt.stdout().write_all(help::TEXT);
        return;
    }
    text_bench::play::<RingBox>(
        &mut Input::new(rt.stdin()),
        &mut Output::new(rt.stdout()),
        b'<',
    );
}
