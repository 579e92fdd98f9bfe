// Joining: the state between telegrams, what is answered of each, and the parts of a message put together.
#![tactic(auto)]

ghost use Rattle.std.specs.Prelude.{◌≡◌, ◌≤◌, length};
ghost use Rattle.rules.specs.House.{max_size, max_payload};
ghost use Rattle.rules.specs.Telegram.{idle, opened, begins, continues};
ghost use Rattle.tel_join_state.specs.Answers.{joining_of, state_of, Joins};

use numbers::Refusal;
use sizes::MAX_PAYLOAD;

// What is remembered between telegrams, as plain numbers: whether a message is open (0: none is), its MsgID, the counter that comes
// next, and its length so far. C interface: `lathepetal_join` takes it and gives it back, so a flag stands beside the numbers.
#[repr(C)]
#[derive(Clone, Copy)]
pub struct Reassembly {
    pub open: u32,
    pub msg_id: u32,
    pub counter: u32,
    pub length: u32,
}

// A message that is complete.
#[derive(Clone, Copy, Debug, PartialEq, Eq)]
pub struct Message {
    pub msg_id: u32,
    pub length: usize,
}

// What a telegram gives: the message that it completes, none where more is to come, or a refusal.
pub type Taken = Result<Option<Message>, Refusal>;

impl Reassembly {
    // No message is open: four zeros.
    pub fn fresh() -> Self
        ensures { (joining_of result ≡ idle) × (result ≡ state_of idle) }
    {
        Reassembly {
            open: 0,
            msg_id: 0,
            counter: 0,
            length: 0,
        }
    }

    // A message is open.
    pub fn opened(msg_id: u32, counter: u32, length: u32) -> Self
        ensures { (joining_of result ≡ opened msg_id counter length) × (result ≡ state_of (opened msg_id counter length)) }
    {
        Reassembly {
            open: 1,
            msg_id,
            counter,
            length,
        }
    }

    // 16 drops an open message.
    pub fn dropped(&mut self) -> Refusal
        ensures { (result ≡ Refusal.OutOfSequence) × (joining_of self.new ≡ idle) × (self.new ≡ state_of idle) }
    {
        *self = Reassembly::fresh();
        Refusal::OutOfSequence
    }

    // TelID 1: the first part of a message.
    pub fn begin(&mut self, msg_id: u32, counter: u8, buffer: &mut [u8], part: &[u8]) -> Taken
        requires { (max_payload ≤ length buffer.old) × (length part.now ≤ max_size) }
        ensures { Joins self.old (begins msg_id counter part.now buffer.old) result self.new buffer.new }
    {
        if counter != 0 {
            return Err(self.dropped());
        }
        tel_head::store(buffer, 0, part);
        *self = Reassembly::opened(msg_id, 1, part.len() as u32);
        Ok(None)
    }

    // TelID 2 and 3: a part of the open message, the last one where `last` says so.
    pub fn go_on(
        &mut self,
        last: bool,
        msg_id: u32,
        counter: u8,
        buffer: &mut [u8],
        part: &[u8],
    ) -> Taken
        requires { (max_payload ≤ length buffer.old) × (length part.now ≤ max_size) }
        ensures { Joins self.old (continues last (joining_of self.old) msg_id counter part.now buffer.old) result self.new buffer.new }
    {
        let at = self.length as usize;
        let total = at + part.len();
        if self.open == 0
            || msg_id != self.msg_id
            || u32::from(counter) != self.counter
            || MAX_PAYLOAD < total
        {
            return Err(self.dropped());
        }
        tel_head::store(buffer, at, part);
        *self = if last {
            Reassembly::fresh()
        } else {
            Reassembly::opened(msg_id, (self.counter + 1) & 0xFF, total as u32)
        };
        Ok(last.then_some(Message {
            msg_id,
            length: total,
        }))
    }
}
