// Telegrams and messages in hexadecimal.
ghost use Rattle.std.specs.Prelude.{◌*◌, ◌+◌, ◌≤◌};

use crate::command::MAX_TELEGRAM;
use text_out::Output;

// How many bytes of a message stand on a line.
const WIDTH: usize = 32;

// Where a blank stands before a byte of a telegram: behind the MsgID, and behind TelID and TelLen.
const BEHIND_MSG_ID: usize = 4;

const BEHIND_HEAD: usize = 6;

// How many characters a telegram of n bytes has.
pub(crate) fn width(n: usize) -> usize
    requires { n ≤ MAX_TELEGRAM }
    ensures { result ≤ 2 * MAX_TELEGRAM + 2 }
{
    2 * n + usize::from(BEHIND_MSG_ID < n) + usize::from(BEHIND_HEAD < n)
}

// A telegram's bytes.
pub(crate) fn telegram(output: &mut Output, bytes: &[u8]) {
    for (i, byte) in bytes.iter().enumerate() {
        if i == BEHIND_MSG_ID || i == BEHIND_HEAD {
            output.byte(b' ');
        }
        output.hex(*byte);
    }
}

// A message's bytes, 32 on a line.
pub(crate) fn message(output: &mut Output, bytes: &[u8]) {
    for row in bytes.chunks(WIDTH) {
        output.bytes(b"= ");
        output.hex_bytes(row);
        output.line_end();
    }
}
