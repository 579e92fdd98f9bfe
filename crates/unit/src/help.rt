// What --help says.
pub const TEXT: &[u8] =
    b"unit: plays a unit of a MOST ring to a master, from a bench script on standard input.

  < HEX                       offers an order: = read and the unit's answer, or a refusal
  unit POSITION ADDRESS PAIRS a unit there with these pairs, as unit 2 0102 22.01 31.01
  room N                      lends N bytes of room from now on, up to 8192 (64 at the start)
  found BLOCK NUM ADDRESS     a look-up was answered, as found 22 01 0101
  known                       the look-up answers that it keeps, the oldest first
  list                        its pairs
  self                        its position, its address, the pass of the last order
  # ...                       a comment, written back
  = ... > ... ! ...           an earlier answer, dropped

The lines that ringbox writes can be read as they stand, and ringbox reads what this writes.
In: < 4D4F 01 00000001 01  ASK position 1     Out: > 4D45 04 00000001 01 0101 00
What it writes is a script too: fed back in, it gives the same text again.
";
