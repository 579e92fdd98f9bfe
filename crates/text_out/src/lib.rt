// Standard output through a buffer. The contracts give what waits in it afterwards. They cannot speak of what a call of the system
// writes, so these are open: that what waits is what is written, and whether a write fails.
#![tactic(auto)]

ghost use Rattle.std.specs.Prelude.{◌≡◌, ◌≤◌, ◌<◌, length, false, [], ◌∷◌};
ghost use Rattle.laws.specs.Lists.{collect};
ghost use Rattle.text_words.specs.Text.{lf};
ghost use Rattle.text_out.specs.Puts.{empty, Puts, Drains};
ghost use Rattle.text_out.specs.Spelling.{lined, hex_of, hex_pair_of, width_of, decimal_of, value_of, filled};

use std::io::Stdout;
use text_words::digits;

// How many bytes wait at most.
pub const SPACE: usize = 65536;

// What waits to be written, at the start of its buffer, and where it goes; whether a write failed. The buffer is fixed memory, and no Vec:
// the programs take none from the heap. `waiting` stands beside it, and it is no ArrayVec: `Puts` speaks of any count.
#[derive(Clone, Copy)]
pub struct Output {
    pub stdout: Stdout,
    pub text: [u8; SPACE],
    pub waiting: usize,
    pub closed: bool,
}

// The first n bytes are written: not where there are fewer, or where a write fails.
fn is_written(stdout: Stdout, text: &[u8], n: usize) -> bool
    ensures { length text.now < n → result ≡ false }
{
    n <= text.len() && stdout.write_all(&text[..n]).is_ok()
}

impl Output {
    // Nothing waits.
    pub fn new(stdout: Stdout) -> Self
        ensures { result ≡ empty stdout }
    {
        Output {
            stdout,
            text: [0; SPACE],
            waiting: 0,
            closed: false,
        }
    }

    // Nothing waits then: it is written, unless a write failed before. Whether this one fails is open where it can be made: that
    // depends on the system.
    pub fn drain(&mut self)
        ensures { Drains self.old self.new }
    {
        self.closed = self.closed || !is_written(self.stdout, &self.text, self.waiting);
        self.waiting = 0;
    }

    // One byte more. Where it finds the buffer full, that is written out first, and whether the write fails is open.
    pub fn byte(&mut self, byte: u8)
        ensures { Puts self.old (byte ∷ []) self.new }
    {
        if SPACE <= self.waiting {
            self.drain();
        }
        self.text[self.waiting] = byte;
        self.waiting += 1;
    }

    // Bytes as they are.
    pub fn bytes(&mut self, bytes: &[u8])
        ensures { Puts self.old bytes.now self.new }
    {
        for byte in bytes {
            self.byte(*byte);
        }
    }

    // The end of a line.
    pub fn line_end(&mut self)
        ensures { Puts self.old (lf ∷ []) self.new }
    {
        self.byte(b'\n');
    }

    // Bytes, and the end of a line.
    pub fn line(&mut self, bytes: &[u8])
        ensures { Puts self.old (lined bytes.now) self.new }
    {
        self.bytes(bytes);
        self.line_end();
    }

    // A number in decimal.
    pub fn decimal(&mut self, n: usize)
        ensures { Puts self.old (decimal_of n) self.new }
    {
        let mut spelled = [0u8; 20];
        let k = io::decimal(n as u64, &mut spelled);
        self.bytes(&spelled[..k]);
    }

    // How many digits a number has in decimal.
    pub fn decimal_width(n: usize) -> usize
        ensures { (result ≡ width_of n) × (result ≤ 20) }
    {
        io::decimal(n as u64, &mut [0; 20])
    }

    // A byte as two hexadecimal digits.
    pub fn hex(&mut self, byte: u8)
        ensures { Puts self.old (hex_of byte) self.new }
    {
        self.byte(digits::glyph(byte / 16));
        self.byte(digits::glyph(byte % 16));
    }

    // Bytes in hexadecimal, with no blank between.
    pub fn hex_bytes(&mut self, bytes: &[u8])
        ensures { Puts self.old (collect hex_of bytes.now) self.new }
    {
        for byte in bytes {
            self.hex(*byte);
        }
    }

    // An address or another two-byte number.
    pub fn hex_pair(&mut self, n: u16)
        ensures { Puts self.old (hex_pair_of n) self.new }
    {
        let [high, low] = n.to_be_bytes();
        self.hex(high);
        self.hex(low);
    }

    // A value: two hexadecimal digits for b, four for w, decimal for anything else.
    fn value(&mut self, kind: u8, value: usize)
        ensures { Puts self.old (value_of kind value) self.new }
    {
        match kind {
            b'b' => self.hex((value % 256) as u8),
            b'w' => self.hex_pair((value % 65536) as u16),
            _ => self.decimal(value),
        }
    }

    // A template with the values in it, from the first on: %d stands for one in decimal, %b for two hexadecimal digits, %w for four.
    // No `write!`: no clause says what that puts.
    pub fn form(&mut self, template: &[u8], values: &[usize])
        ensures { Puts self.old (filled template.now values.now) self.new }
    {
        let mut unused = values;
        let mut is_marked = false;
        for byte in template {
            if is_marked {
                let [value, rest @ ..] = unused else {
                    return;
                };
                self.value(*byte, *value);
                unused = rest;
                is_marked = false;
            } else if *byte == b'%' {
                is_marked = true;
            } else {
                self.byte(*byte);
            }
        }
    }
}
