// Numbers as bytes, the highest byte first.
#![tactic(auto)]

ghost use Rattle.std.specs.Prelude.{◌≡◌, ◌+◌, ◌*◌, ◌%◌, ◌≤◌, ◌<◌, length, get_or};
ghost use Rattle.std.proofs.lemmas.List.Edits.{sets};
ghost use Rattle.rules.specs.Event.{be4, two, four};

// The byte at a place; 0 behind the end.
pub fn octet(bytes: &[u8], at: usize) -> u8
    ensures { result ≡ get_or bytes.now at 0 }
{
    bytes.get(at).copied().unwrap_or(0)
}

// The last byte of a number.
pub fn low(n: u32) -> u8
    ensures { result ≡ n % 256 }
{
    (n & 0xFF) as u8
}

// Two bytes as one number.
pub fn word(high: u8, low: u8) -> u32
    ensures { (result ≡ high * 256 + low) × (result < 65536) }
{
    u32::from(u16::from_be_bytes([high, low]))
}

// Four bytes as one number.
pub fn read4(bytes: &[u8], at: usize) -> u32
    requires { at + 4 ≤ length bytes.now }
    ensures { result ≡ be4 bytes.now at }
{
    u32::from_be_bytes([bytes[at], bytes[at + 1], bytes[at + 2], bytes[at + 3]])
}

// A number as two bytes.
pub fn write2(buffer: &mut [u8], at: usize, n: u32)
    requires { at + 2 ≤ length buffer.old }
    ensures { buffer.new ≡ sets buffer.old at (two n) }
{
    let [_, _, high, low] = n.to_be_bytes();
    buffer[at] = high;
    buffer[at + 1] = low;
}

// A number as four bytes.
pub fn write4(buffer: &mut [u8], at: usize, n: u32)
    requires { at + 4 ≤ length buffer.old }
    ensures { buffer.new ≡ sets buffer.old at (four n) }
{
    write2(buffer, at, n >> 16);
    write2(buffer, at + 2, n);
}
