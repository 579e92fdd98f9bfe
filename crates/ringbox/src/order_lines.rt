// Orders, each on a line: its bytes, and in words.
use text_out::Output;
use text_records::Layout;
use wire_order_reading::{Order, PAIRS, decode_order, order_length};

// The pairs of a NEW or an INVALID.
fn pairs(output: &mut Output, bytes: &[u8]) {
    if let Some(pairs) = bytes.get(PAIRS..) {
        text_records::pairs(output, pairs);
    }
}

// An order in words.
fn in_words(output: &mut Output, bytes: &[u8]) {
    let Some(sent) = decode_order(bytes) else {
        return;
    };
    match sent.order {
        Order::Ask(position) => output.form(b"ASK position %d", &[usize::from(position.0)]),
        Order::Set {
            position,
            address,
            block,
            old,
            new,
        } => output.form(
            b"SET position %d (%w): %b.%b becomes %b.%b",
            &[
                usize::from(position.0),
                usize::from(address.0),
                usize::from(block),
                usize::from(old),
                usize::from(block),
                usize::from(new),
            ],
        ),
        Order::Ok => output.bytes(b"OK: the registry stands"),
        Order::NotOk => output.bytes(b"NOTOK: the registry is made anew"),
        Order::New => {
            output.bytes(b"NEW:");
            pairs(output, bytes);
        }
        Order::Invalid => {
            output.bytes(b"INVALID:");
            pairs(output, bytes);
        }
        Order::WaitShort => output.bytes(b"WAIT SHORT: then DELAY asks the silent units"),
        Order::WaitLong => output.bytes(b"WAIT LONG: then DELAY asks the silent units"),
    }
}

// A line for each of the orders, of which each says how long it is: no iterator parts them.
pub(crate) fn lines(output: &mut Output, orders: &[u8]) {
    let mut rest = orders;
    while !rest.is_empty() {
        let (order, behind) = rest.split_at(order_length(rest).min(rest.len()));
        output.bytes(b"< ");
        text_records::spaced(output, Layout::Order, order);
        output.bytes(b"  ");
        in_words(output, order);
        output.line_end();
        rest = behind;
    }
}
