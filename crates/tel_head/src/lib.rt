// For which L and messages there are telegrams, and the bytes of one: its head written and read, and its part of the message copied.
#![tactic(auto)]

ghost use Rattle.std.specs.Prelude.{◌≡◌, ◌++◌, ◌+◌, ◌*◌, ◌/◌, ◌≤◌, ◌<◌, length, get_or, take, drop};
ghost use Rattle.std.proofs.lemmas.List.Edits.{sets};
ghost use Rattle.rules.specs.Event.{be4, four};
ghost use Rattle.rules.specs.Telegram.{head_bytes, tel_id_of, tel_len_of, malformed};
ghost use Rattle.tel_head.specs.Allowed.{Allows};
ghost use Rattle.tel_head.specs.Kinds.{tel_id_number, Reads};

use numbers::Refusal;
use wire_octets::octet;

// MsgID, TelID and TelLen.
pub const HEAD: usize = 6;

// Where the counter byte stands in a telegram of several.
pub const COUNTER: usize = HEAD;

// What a telegram is in its message, by its TelID.
#[derive(Clone, Copy, Debug, PartialEq, Eq)]
pub enum TelId {
    Single = 0,
    First = 1,
    Next = 2,
    Final = 3,
}

impl TelId {
    // The number in a head, by the name that papers and rules have for it.
    pub fn number(self) -> u32
        ensures { (result ≡ tel_id_number self) × (result < 4) }
    {
        self as u32
    }
}

impl TryFrom<u32> for TelId {
    type Error = Refusal;

    ghost try_from_gives = { Reads };

    // A number above 3 is passed over: 15.
    fn try_from(tel_id: u32) -> Result<TelId, Refusal> {
        match tel_id {
            0 => Ok(TelId::Single),
            1 => Ok(TelId::First),
            2 => Ok(TelId::Next),
            3 => Ok(TelId::Final),
            _ => Err(Refusal::TelIdPassedOver),
        }
    }
}

// L is from 12 to 45 and a message of n bytes is not too long, or 10 or 11.
pub fn allowed(l: usize, n: usize) -> Result<(), Refusal>
    ensures { Allows l n result }
{
    if sizes::illegal(l) {
        return Err(Refusal::IllegalSize);
    }
    if sizes::too_long(n) {
        return Err(Refusal::PayloadTooLong);
    }
    Ok(())
}

// Copies `part` into `buffer`, from `at` on.
pub fn store(buffer: &mut [u8], at: usize, part: &[u8])
    requires { at + length part.now ≤ length buffer.old }
    ensures { buffer.new ≡ sets buffer.old at part.now }
{
    buffer[at..at + part.len()].copy_from_slice(part);
}

// So many bytes move at once.
const WORD: usize = 8;

// The same for a part of a telegram. One of up to two words, as at the least L, goes as its first word and its last one, which may overlap:
// a copy of bytes whose number is not known is a call.
pub fn store_words(buffer: &mut [u8], at: usize, part: &[u8])
    requires { at + length part.now ≤ length buffer.old }
    ensures { buffer.new ≡ sets buffer.old at part.now }
{
    let n = part.len();
    if WORD <= n && n <= 2 * WORD {
        let last = n - WORD;
        store(buffer, at, &part[..WORD]);
        store(buffer, at + last, &part[last..]);
    } else {
        store(buffer, at, part);
    }
}

// TelID and the high bits of TelLen in one byte.
fn pack(tel_id: u32, tel_len: u32) -> u8
    requires { (tel_id < 16) × (tel_len < 4096) }
    ensures { result ≡ tel_id * 16 + tel_len / 256 }
{
    ((tel_id << 4) | (tel_len >> 8)) as u8
}

// Writes the head of a telegram. The TelID is a number and no `TelId`: the premise "below 16" of docs/DECISIONS.md holds it.
pub fn write_head(buffer: &mut [u8], msg_id: u32, tel_id: u32, tel_len: u32)
    requires { (6 ≤ length buffer.old) × (tel_id < 16) × (tel_len < 4096) }
    ensures { buffer.new ≡ sets buffer.old 0 (four msg_id ++ head_bytes tel_id tel_len) }
{
    wire_octets::write4(buffer, 0, msg_id);
    buffer[4] = pack(tel_id, tel_len);
    buffer[5] = wire_octets::low(tel_len);
}

// The MsgID of a telegram.
pub fn msg_id(telegram: &[u8]) -> u32
    ensures { result ≡ be4 telegram.now 0 }
{
    let high = wire_octets::word(octet(telegram, 0), octet(telegram, 1));
    let low = wire_octets::word(octet(telegram, 2), octet(telegram, 3));
    high << 16 | low
}

// The TelID of a telegram. It is a number and no `TelId`: the rules' `tel_id_of` goes up to 15.
pub fn tel_id(telegram: &[u8]) -> u32
    ensures { result ≡ tel_id_of telegram.now }
{
    u32::from(octet(telegram, 4) >> 4)
}

// The TelLen of a telegram.
fn tel_len(telegram: &[u8]) -> usize
    ensures { (result ≡ tel_len_of telegram.now) × (result < 4096) }
{
    wire_octets::word(octet(telegram, 4) & 0x0F, octet(telegram, 5)) as usize
}

// The telegram is too short, its TelLen wrong or above L, or its counter byte missing.
pub fn malformed(l: usize, telegram: &[u8]) -> bool
    ensures { result ≡ malformed l telegram.now }
{
    let tel_len = tel_len(telegram);
    let tel_id = tel_id(telegram);
    telegram.len() < HEAD
        || telegram.len() != HEAD + tel_len
        || l < tel_len
        || tel_len == 0 && TelId::First as u32 <= tel_id && tel_id <= TelId::Final as u32
}
