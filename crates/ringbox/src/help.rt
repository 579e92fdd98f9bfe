// What --help says.
pub const TEXT: &[u8] =
    b"ringbox: plays NetworkMaster to a MOST ring from a bench script on standard input.

  > HEX             offers a record: = taken and its orders, or a refusal
  fresh L           a fresh picture for payload size L, 12 to 45 (12 at the start)
  room N            lends N bytes of order room from now on, up to 8192 (8192 at the start)
  state             the state, the pass, the nodes, the open questions, the delay
  listing           every listed block instance: position, address, block, number
  lookup BLOCK NUM  where a block instance is listed, as lookup 22 01
  rows              every row: position, status, address, counts, pairs
  first, second     the first or second list is the LISTED and SETTING rows; first none: it is empty
  first POS ADR ..  one row more in that list, as first 2 0102 22.01 31.01; second likewise
  compare ROOM      the differences from first to second, into ROOM bytes, up to 20000
  # ...             a comment, written back
  = ... < ... ! ... an earlier answer, dropped

A record: 4D45, kind, pass (4 bytes), x. Kinds: 01 START and 02 NCE (x = N), 03 SHUTDOWN,
04 ANSWER (x = position, address (2), count, pairs), 05 NONE (x = position), 06 DELAY.
In: > 4D45 01 00000000 03     Out: < 4D4F 01 00000001 01  ASK position 1
What it writes is a script too: fed back in, it gives the same text again.
";
