// Standard input by lines. The contracts give every result, the lent line, and what is held afterwards. They cannot speak of what a
// call of the system reads, so these are open: that a read is made, and the bytes that it delivers.
#![tactic(auto)]

ghost use Rattle.std.specs.Prelude.{◌≡◌, ◌+◌, min};
ghost use Rattle.text_in.specs.Lines.{max_line, unread, kept_at, Filled, NextLine};

use std::io::{Read, Stdin};
use text_words::digits;

// How many bytes a read takes, and the longest line.
pub const CHUNK: usize = 65536;

pub const MAX_LINE: usize = 16384;

// What is read and not used yet, the bytes of the chunk from `from` to `to`, and where more comes from. The chunk is fixed memory, and no
// Vec: the programs take none from the heap. `from` and `to` stand beside it, and it is no ArrayVec: `NextLine` speaks of any two places.
#[derive(Clone, Copy)]
pub struct Input {
    pub stdin: Stdin,
    pub chunk: [u8; CHUNK],
    pub from: usize,
    pub to: usize,
}

// Byte number `seen` of a line, counted from 0, where the line has room for it; how many are seen then, at most one more than fit.
fn store(line: &mut [u8; MAX_LINE], seen: usize, byte: u8) -> usize
    ensures { (result ≡ min (seen + 1) (max_line + 1)) × (line.new ≡ kept_at line.old seen byte) }
{
    if MAX_LINE <= seen {
        return MAX_LINE + 1;
    }
    line[seen] = byte;
    seen + 1
}

impl Input {
    // Nothing read yet.
    pub fn new(stdin: Stdin) -> Self
        ensures { result ≡ unread stdin }
    {
        Input {
            stdin,
            chunk: [0; CHUNK],
            from: 0,
            to: 0,
        }
    }

    // Something is there to use then, unless the input has ended or cannot be read. The bytes that a read delivers are open: they
    // come from the system.
    fn fill(&mut self)
        ensures { Filled self.old self.new }
    {
        if self.to <= self.from {
            self.from = 0;
            self.to = self.stdin.read(&mut self.chunk).unwrap_or(0);
        }
    }

    // The next line into `line`, and its length without the blanks and CRs at its end (above 16,384: too long). A line without LF at the
    // input's end counts where it has a byte. What the system delivers meanwhile is open, and all else follows from it.
    pub fn line(&mut self, line: &mut [u8; MAX_LINE]) -> Option<usize>
        ensures { NextLine self.old line.old result self.new line.new }
    {
        let mut seen = 0;
        let mut length = 0;
        // A loop has to end; no line is as long as this.
        for _ in 0..u64::MAX {
            self.fill();
            if self.to.min(CHUNK) <= self.from {
                return (0 < seen).then_some(length);
            }
            let byte = self.chunk[self.from];
            self.from += 1;
            if byte == b'\n' {
                return Some(length);
            }
            seen = store(line, seen, byte);
            if !digits::is_dropped(byte) {
                length = seen;
            }
        }
        None
    }
}
