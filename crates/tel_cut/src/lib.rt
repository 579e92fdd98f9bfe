// Segmentation: each telegram of a message by its number.
#![tactic(auto)]

ghost use Rattle.std.specs.Prelude.{true, ◌≡◌, ◌∷◌, ◌+◌, ◌≤◌, ◌<◌, length};
ghost use Rattle.std.proofs.lemmas.List.Edits.{sets};
ghost use Rattle.rules.specs.House.{max_payload};
ghost use Rattle.rules.specs.Picture.{legal_size};
ghost use Rattle.rules.specs.Telegram.{telegram, cut};
ghost use Rattle.tel_head.specs.Kinds.{tel_id_number};
ghost use Rattle.tel_cut.specs.Answers.{Cuts};
ghost use Rattle.tel_cut.specs.Parts.{part_id};

use numbers::Refusal;
use tel_head::{COUNTER, HEAD, TelId};

// The only telegram of a message up to L, or 12 or 13. What is cut comes as C passes it, one by one.
fn cut_single(
    l: usize,
    msg_id: u32,
    payload: &[u8],
    number: usize,
    buffer: &mut [u8],
) -> Result<usize, Refusal>
    requires { (legal_size l ≡ true) × (length payload.now ≤ l) }
    ensures { Cuts (cut l msg_id payload.now number (length buffer.old)) buffer.old result buffer.new }
{
    let n = payload.len();
    if number != 1 {
        return Err(Refusal::NoSuchTelegram);
    }
    if buffer.len() < HEAD + n {
        return Err(Refusal::RoomTooShort);
    }
    tel_head::write_head(buffer, msg_id, TelId::Single.number(), n as u32);
    tel_head::store(buffer, HEAD, payload);
    Ok(HEAD + n)
}

// The TelID of a telegram with `before` telegrams in front of it and `left` bytes from its own on, of which it holds `most`.
fn part_id(before: usize, left: usize, most: usize) -> TelId
    ensures { tel_id_number result ≡ part_id before left most }
{
    if before == 0 {
        TelId::First
    } else if left <= most {
        TelId::Final
    } else {
        TelId::Next
    }
}

// Writes one of several telegrams: its head, its counter byte, and its part of the payload.
fn write_part(msg_id: u32, tel_id: TelId, counter: u8, part: &[u8], buffer: &mut [u8])
    requires { (1 + length part.now < 4096) × (7 + length part.now ≤ length buffer.old) }
    ensures { buffer.new ≡ sets buffer.old 0 (telegram msg_id (tel_id_number tel_id) (counter ∷ part.now)) }
{
    tel_head::write_head(buffer, msg_id, tel_id.number(), (1 + part.len()) as u32);
    buffer[COUNTER] = counter;
    tel_head::store_words(buffer, COUNTER + 1, part);
}

// One of several telegrams, or 12 or 13.
fn cut_part(
    l: usize,
    msg_id: u32,
    payload: &[u8],
    number: usize,
    buffer: &mut [u8],
) -> Result<usize, Refusal>
    requires { (legal_size l ≡ true) × (l < length payload.now) × (length payload.now ≤ max_payload) }
    ensures { Cuts (cut l msg_id payload.now number (length buffer.old)) buffer.old result buffer.new }
{
    let n = payload.len();
    // There are no more telegrams than bytes, and the product below fits.
    if number == 0 || n < number {
        return Err(Refusal::NoSuchTelegram);
    }
    let before = number - 1;
    let most = l - 1;
    let from = before * most;
    if n <= from {
        return Err(Refusal::NoSuchTelegram);
    }
    let left = n - from;
    let size = left.min(most);
    if buffer.len() < COUNTER + 1 + size {
        return Err(Refusal::RoomTooShort);
    }
    let tel_id = part_id(before, left, most);
    let counter = wire_octets::low(before as u32);
    write_part(msg_id, tel_id, counter, &payload[from..from + size], buffer);
    Ok(COUNTER + 1 + size)
}

// Telegram `number` of a message into `buffer`, or 10, 11, 12 or 13, which leave `buffer` as it is.
pub fn cut(
    l: usize,
    msg_id: u32,
    payload: &[u8],
    number: usize,
    buffer: &mut [u8],
) -> Result<usize, Refusal>
    ensures { Cuts (cut l msg_id payload.now number (length buffer.old)) buffer.old result buffer.new }
{
    let n = payload.len();
    tel_head::allowed(l, n)?;
    if l < n {
        cut_part(l, msg_id, payload, number, buffer)
    } else {
        cut_single(l, msg_id, payload, number, buffer)
    }
}
