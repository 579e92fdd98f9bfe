// Telegrams: counted, cut and joined. C interface: a number stands beside the value, and a state goes in and comes back.
ghost use Rattle.std.specs.Prelude.{◌≡◌, length};
ghost use Rattle.rules.specs.Telegram.{idle, count, count_number, count_value, cut, join};
ghost use Rattle.tel_join_state.specs.Answers.{joining_of, state_of};
ghost use Rattle.lathepetal.specs.Numbers.{Cuts, Joins};

use numbers::number_in;
use tel_join_state::{Message, Reassembly};

// The number of a refusal or 0, and how many telegrams the message has.
#[repr(C)]
#[derive(Clone, Copy)]
pub struct CountOutcome {
    pub number: u8,
    pub telegrams: usize,
}

// The number of a refusal or 0, and how many bytes the telegram has.
#[repr(C)]
#[derive(Clone, Copy)]
pub struct CutOutcome {
    pub number: u8,
    pub length: usize,
}

// The number of a refusal or 0; 1 where the message is complete, with its MsgID and its length; and the next state.
#[repr(C)]
#[derive(Clone, Copy)]
pub struct JoinOutcome {
    pub number: u8,
    pub complete: u8,
    pub msg_id: u32,
    pub length: usize,
    pub state: Reassembly,
}

// How many telegrams a message has, or 10 or 11.
#[unsafe(no_mangle)]
pub extern "C" fn lathepetal_count(l: usize, payload: &[u8]) -> CountOutcome
    ensures { (result.number ≡ count_number (count l payload.now)) × (result.telegrams ≡ count_value (count l payload.now)) }
{
    let answer = tel_count::count(l, payload);
    CountOutcome {
        number: number_in(answer),
        telegrams: answer.unwrap_or(0),
    }
}

// Telegram `number` of a message, from 1, into `buffer`, or 10, 11, 12 or 13, which leave `buffer` as it is.
#[unsafe(no_mangle)]
pub extern "C" fn lathepetal_cut(
    l: usize,
    msg_id: u32,
    payload: &[u8],
    number: usize,
    buffer: &mut [u8],
) -> CutOutcome
    ensures { Cuts (cut l msg_id payload.now number (length buffer.old)) buffer.old result buffer.new }
{
    let telegram = tel_cut::cut(l, msg_id, payload, number, buffer);
    CutOutcome {
        number: number_in(telegram),
        length: telegram.unwrap_or(0),
    }
}

// A join state with no message open.
#[unsafe(no_mangle)]
pub extern "C" fn lathepetal_join_fresh() -> Reassembly
    ensures { (joining_of result ≡ idle) × (result ≡ state_of idle) }
{
    Reassembly::fresh()
}

// Takes one telegram into `buffer`; or 10, 13, 14 and 15, which change nothing, or 16, which ends an open message and leaves `buffer` as
// it is.
#[unsafe(no_mangle)]
pub extern "C" fn lathepetal_join(
    state: Reassembly,
    l: usize,
    buffer: &mut [u8],
    telegram: &[u8],
) -> JoinOutcome
    ensures { Joins state (join l (joining_of state) buffer.old telegram.now) result buffer.new }
{
    let mut next = state;
    let answer = tel_join::join(&mut next, l, buffer, telegram);
    let message = answer.unwrap_or(None);
    let told = message.unwrap_or(Message {
        msg_id: 0,
        length: 0,
    });
    JoinOutcome {
        number: number_in(answer),
        complete: u8::from(message.is_some()),
        msg_id: told.msg_id,
        length: told.length,
        state: next,
    }
}
