// What a picture shows: state, listing, rows, and where a pair is listed.
use numbers::Refusal;
use registry::image::RegistryImage;
use ring_lookup::Place;
use ring_state::{OFF, OK};
use row_entry::{IGNORED, LISTED, NodeEntry, SETTING, SILENT};
use sizes::MAX_LISTED;
use text_numbers::Asked;
use text_out::Output;
use wire_address::NodePosition;

// The state on one line.
pub(crate) fn state(output: &mut Output, picture: &RegistryImage) {
    output.line(b"state");
    match picture.current_state().0 {
        OFF => output.bytes(b"= OFF"),
        OK => output.bytes(b"= OK"),
        _ => output.bytes(b"= NOTOK"),
    }
    output.form(
        b" pass %d nodes %d open %d",
        &[
            picture.current_pass() as usize,
            picture.nodes(),
            picture.open_questions(),
        ],
    );
    if picture.delay_runs() {
        output.line(b" delay yes");
    } else {
        output.line(b" delay no");
    }
}

// The listing, an entry on each line.
pub(crate) fn listing(output: &mut Output, picture: &RegistryImage) {
    output.line(b"listing");
    let listing = picture.listing();
    output.form(b"= listing %d\n", &[listing.count]);
    // C interface: the fields of the entries stand in arrays of their own.
    for i in 0..listing.count.min(MAX_LISTED) {
        output.form(
            b"= %d %w %b %b\n",
            &[
                usize::from(listing.positions[i]),
                usize::from(listing.addresses[i]),
                usize::from(listing.blocks[i]),
                usize::from(listing.numbers[i]),
            ],
        );
    }
}

// Where a pair is listed, or the refusal.
pub(crate) fn found(output: &mut Output, found: Result<Place, Refusal>) {
    match found {
        Ok(place) => output.form(
            b"= at %d %w\n",
            &[usize::from(place.position.0), usize::from(place.address.0)],
        ),
        Err(refusal) => text_answers::refusal(output, Asked::LookUp, refusal.number()),
    }
}

// One row.
fn row(output: &mut Output, position: NodePosition, entry: &NodeEntry) {
    output.form(b"= %d", &[usize::from(position.0)]);
    let status = entry.status.0;
    match status {
        SETTING => output.bytes(b" SETTING "),
        LISTED => output.bytes(b" LISTED "),
        SILENT => output.bytes(b" SILENT "),
        IGNORED => output.bytes(b" IGNORED "),
        _ => output.bytes(b" WAITING "),
    }
    match status {
        SETTING | LISTED | IGNORED => output.hex_pair(entry.address.0),
        _ => output.bytes(b"----"),
    }
    output.form(
        b" bad %d silent %d",
        &[usize::from(entry.bad), usize::from(entry.silences)],
    );
    let pairs = entry.pairs();
    for i in 0..pairs.len() {
        let pair = pairs.at(i);
        text_records::pair(output, pair.block, pair.number);
    }
    output.line_end();
}

// The rows, each on a line.
pub(crate) fn rows(output: &mut Output, picture: &RegistryImage) {
    output.line(b"rows");
    for x in 1..picture.nodes() {
        let position = NodePosition((x % 256) as u8);
        row(output, position, &picture.entry_at(position));
    }
}
