// Reassembly: telegrams joined, one at a time, to the message that they were cut from.
#![tactic(auto)]

ghost use Rattle.std.specs.Prelude.{◌≡◌, ◌+◌, ◌≤◌, length, drop};
ghost use Rattle.rules.specs.House.{max_size, max_payload};
ghost use Rattle.rules.specs.Event.{be4};
ghost use Rattle.rules.specs.Telegram.{join_to, join};
ghost use Rattle.tel_head.specs.Kinds.{tel_id_number};
ghost use Rattle.tel_join_state.specs.Answers.{joining_of, Joins};

use numbers::Refusal;
use sizes::MAX_PAYLOAD;
use tel_head::{HEAD, TelId};
use tel_join_state::{Message, Reassembly, Taken};

// A well-formed telegram.
fn take(state: &mut Reassembly, tel_id: TelId, buffer: &mut [u8], telegram: &[u8]) -> Taken
    requires { (max_payload ≤ length buffer.old) × (6 ≤ length telegram.now) × (length telegram.now ≤ 6 + max_size)
        × (1 ≤ tel_id_number tel_id → 7 ≤ length telegram.now) }
    ensures { Joins state.old (join_to (tel_id_number tel_id) (joining_of state.old) (be4 telegram.now 0) (drop 6 telegram.now)
        buffer.old) result state.new buffer.new }
{
    let msg_id = tel_head::msg_id(telegram);
    let body = &telegram[HEAD..];
    match tel_id {
        TelId::Single => {
            tel_head::store(buffer, 0, body);
            *state = Reassembly::fresh();
            Ok(Some(Message {
                msg_id,
                length: body.len(),
            }))
        }
        TelId::First => state.begin(msg_id, body[0], buffer, &body[1..]),
        TelId::Next => state.go_on(false, msg_id, body[0], buffer, &body[1..]),
        TelId::Final => state.go_on(true, msg_id, body[0], buffer, &body[1..]),
    }
}

// Takes one telegram into `buffer`, which holds the message from its start on, or 10, 13, 14, 15 or 16, which leave `buffer` as it is.
// Only 16 changes the state: it drops an open message.
pub fn join(state: &mut Reassembly, l: usize, buffer: &mut [u8], telegram: &[u8]) -> Taken
    ensures { Joins state.old (join l (joining_of state.old) buffer.old telegram.now) result state.new buffer.new }
{
    if sizes::illegal(l) {
        return Err(Refusal::IllegalSize);
    }
    if buffer.len() < MAX_PAYLOAD {
        return Err(Refusal::RoomTooShort);
    }
    if tel_head::malformed(l, telegram) {
        return Err(Refusal::TelegramMalformed);
    }
    let tel_id = TelId::try_from(tel_head::tel_id(telegram))?;
    take(state, tel_id, buffer, telegram)
}
