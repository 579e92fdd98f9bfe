// A message cut and joined again comes back the same: segmentation and reassembly, one after the other.
#![tactic(auto)]

ghost use Rattle.std.specs.Prelude.{true, ◌≡◌, ◌≤◌, length};
ghost use Rattle.rules.specs.House.{max_payload};
ghost use Rattle.rules.specs.Picture.{legal_size};
ghost use Rattle.rules.specs.Telegram.{count_of, telegram_of, join};
ghost use Rattle.tel_join_state.specs.Answers.{joining_of, Joins};
ghost use Rattle.tel_round_trip.specs.Back.{back, back_answer};

use numbers::Refusal;
use sizes::{MAX_PAYLOAD, MAX_SIZE};
use tel_head::HEAD;
use tel_join_state::{Message, Reassembly, Taken};

// The longest telegram.
const LONGEST: usize = HEAD + MAX_SIZE;

// Telegram `number` of a message, cut and then given to `join`.
fn pass_on(
    l: usize,
    msg_id: u32,
    payload: &[u8],
    number: usize,
    state: &mut Reassembly,
    buffer: &mut [u8],
) -> Taken
    requires { (legal_size l ≡ true) × (length payload.now ≤ max_payload) × (1 ≤ number) × (number ≤ count_of l (length payload.now)) }
    ensures { Joins state.old (join l (joining_of state.old) buffer.old (telegram_of l msg_id payload.now number))
        result state.new buffer.new }
{
    let mut telegram = [0u8; LONGEST];
    let length = tel_cut::cut(l, msg_id, payload, number, &mut telegram)?;
    tel_join::join(state, l, buffer, &telegram[..length])
}

// Cuts a message and joins its telegrams in their order: it is complete, with its MsgID and its length, and `buffer` holds its bytes. Or 10, 11
// or 13, which leave `buffer` as it is.
pub fn cut_and_join(
    l: usize,
    msg_id: u32,
    payload: &[u8],
    buffer: &mut [u8],
) -> Result<Message, Refusal>
    ensures { (back_answer result ≡ (back l msg_id payload.now buffer.old).answer)
        × (buffer.new ≡ (back l msg_id payload.now buffer.old).buffer) }
{
    let count = tel_count::count(l, payload)?;
    if buffer.len() < MAX_PAYLOAD {
        return Err(Refusal::RoomTooShort);
    }
    let mut state = Reassembly::fresh();
    for number in 1..count {
        pass_on(l, msg_id, payload, number, &mut state, buffer)?;
    }
    let last = pass_on(l, msg_id, payload, count, &mut state, buffer)?;
    Ok(last.unwrap())
}
