// What --help says.
pub const TEXT: &[u8] = b"telegrams: cuts and joins messages from a bench script on standard input.

  payload HEX                 the payload is these bytes
  fill N SEED                 the payload is N bytes of a pattern, up to 70000
  count L                     how many telegrams the payload has at payload size L, 12 to 45
  cut L MSGID NUMBER ROOM     telegram NUMBER, from 1, into room of ROOM bytes, up to 70000
  cutall L MSGID              every telegram
  rejoin                      a fresh join state
  join L ROOM HEX             offers a telegram with a join buffer of ROOM bytes, up to 65535
  # ...                       a comment, written back
  = ... < ... ! ...           an earlier answer, dropped

MSGID is 8 hexadecimal digits, as cutall 12 0102000C.
What it writes is a script too: fed back in, it gives the same text again.
";
