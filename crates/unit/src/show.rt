// What a unit shows: itself, its list, and the look-up answers that it keeps.
use text_out::Output;
use unit_answers::DecentralRegistry;
use unit_slave::NetworkSlave;
use wire_pairs::Pairs;

// Where it sits, its address, and the pass of the last order that it read.
pub(crate) fn myself(output: &mut Output, unit: &NetworkSlave) {
    output.line(b"self");
    output.form(
        b"= %d %w pass %d\n",
        &[
            usize::from(unit.position.0),
            usize::from(unit.address.0),
            unit.pass as usize,
        ],
    );
}

// The pairs, each on a line.
pub(crate) fn list(output: &mut Output, pairs: &Pairs) {
    output.line(b"list");
    output.form(b"= list %d\n", &[pairs.len()]);
    for i in 0..pairs.len() {
        let pair = pairs.at(i);
        output.form(
            b"= %b %b\n",
            &[usize::from(pair.block), usize::from(pair.number)],
        );
    }
}

// The answers, each on a line, the oldest first.
pub(crate) fn known(output: &mut Output, known: &DecentralRegistry) {
    output.line(b"known");
    output.form(b"= known %d\n", &[known.len()]);
    // C interface: the fields of the answers stand in arrays of their own.
    for i in 0..known.len() {
        output.form(
            b"= %b %b %w\n",
            &[
                usize::from(known.blocks[i]),
                usize::from(known.numbers[i]),
                usize::from(known.addresses[i]),
            ],
        );
    }
}
