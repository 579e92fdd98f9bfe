// One record: taken or refused.
ghost use Rattle.std.specs.Prelude.{◌≡◌, length};
ghost use Rattle.rules.specs.Run.{step};
ghost use Rattle.registry.specs.View.{view_of};
ghost use Rattle.registry.specs.Outcome.{Does, given, HandedOut};

use super::image::RegistryImage;
use numbers::{Refusal, number_in};
use ring_answer::hear;
use sizes::MIN_ROOM;
use wire_address::LogicalNodeAddress;
use wire_events::Event;

// What a record gives back: the number of a refusal, 0 where it is taken; how many bytes the orders have; and the next picture. Numbers,
// and no enum beside the picture, so that it crosses to C as it is.
// C interface: a number for the refusal.
#[repr(C)]
#[derive(Clone, Copy)]
pub struct Recorded {
    pub number: u8,
    pub length: usize,
    pub picture: RegistryImage,
}

impl RegistryImage {
    // Takes one record in place, and writes its orders from the start of `out`: how many bytes they have; or why nothing is changed.
    fn take(&mut self, bytes: &[u8], out: &mut [u8]) -> Result<usize, Refusal>
        requires { HandedOut self.old }
        ensures { Does self.old (step (view_of self.old) bytes.now (length out.old)) out.old (given self.new result) out.new
            × HandedOut self.new }
    {
        if out.len() < MIN_ROOM {
            return Err(Refusal::OrderRoomTooShort);
        }
        let read = wire_events::decode(bytes);
        ring_refusals::refusal(self.state, &read)?;
        ring_refusals::reply_refusal(self.state, self.pass, self.ring(), &read)?;
        // Bytes that are no event are refused above.
        let Some(event) = read else {
            return Err(Refusal::RecordMalformed);
        };
        match event {
            Event::Start(nodes) => self.start(out, nodes),
            Event::NetworkChange(nodes) => self.network_change(out, nodes),
            Event::Shutdown => Ok(self.shut_down(out)),
            Event::Answer {
                position,
                address,
                pairs,
                ..
            } => {
                let seat = position.0 as usize - 1;
                let heard = hear::hear(self.ring(), seat, address, &pairs);
                if heard.verdict.conflicts() {
                    return self.conflict(out, position, address, heard.verdict);
                }
                Ok(self.reply(out, position, address, heard.next, heard.step))
            }
            Event::NoAnswer { position, .. } => {
                let next = self.entries[position.0 as usize - 1].silenced();
                Ok(self.reply(out, position, LogicalNodeAddress(0), next, None))
            }
            Event::DelayExpired { pass } => self.delay_expired(out, pass),
        }
    }

    // Takes one record, and writes its orders from the start of `out`; or 1 to 9, which change nothing. The picture comes and goes by value,
    // and is changed in place meanwhile, since each step that took it by value would copy it.
    pub fn record(self, bytes: &[u8], out: &mut [u8]) -> Recorded
        requires { HandedOut self }
        ensures { Does self (step (view_of self) bytes.now (length out.old)) out.old result out.new
            × HandedOut result.picture }
    {
        let mut picture = self;
        let answer = picture.take(bytes, out);
        Recorded {
            number: number_in(answer),
            length: answer.unwrap_or(0),
            picture,
        }
    }
}
