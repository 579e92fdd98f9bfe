// The sizes of paper 01 and of the tickets, each by its name. `rules/specs/House.antt` has the same ones for contracts
// and proofs.
#![tactic(auto)]

ghost use Rattle.std.specs.Prelude.{◌≡◌, not, ltb};
ghost use Rattle.rules.specs.House.{max_payload};
ghost use Rattle.rules.specs.Picture.{legal_size};

// L, the payload size of a telegram.
pub const MIN_SIZE: usize = 12;

pub const MAX_SIZE: usize = 45;

// The most nodes of a ring, and those of them that are units: positions 1 and above.
pub const MAX_NODES: u8 = 64;

pub const MAX_UNITS: usize = MAX_NODES as usize - 1;

// The most pairs that a unit announces and its row keeps, and the most that a listing has.
pub const MAX_PAIRS: usize = 24;

pub const MAX_LISTED: usize = MAX_UNITS * MAX_PAIRS;

// The least room that orders are written to.
pub const MIN_ROOM: usize = 8192;

// The look-up answers that a unit keeps at most, and the least room that its ANSWER is written to.
pub const MAX_ANSWERS: usize = 64;

pub const MIN_ANSWER_ROOM: usize = 64;

// The bytes of a difference of two lists of rows; the most differences of one position and of all; room that is enough for them.
pub const LINE_SIZE: usize = 6;

pub const MAX_LINES_EACH: usize = 1 + 2 * MAX_PAIRS;

pub const MAX_LINES: usize = MAX_UNITS * MAX_LINES_EACH;

pub const DIFFERENCES_ROOM: usize = LINE_SIZE * MAX_LINES;

// The longest message.
pub const MAX_PAYLOAD: usize = 65535;

// L is outside 12 to 45.
#[tactic(auto, unfolding(rules::specs::Picture::legal_size))]
pub fn illegal(l: usize) -> bool
    ensures { result ≡ not (legal_size l) }
{
    l < MIN_SIZE || MAX_SIZE < l
}

// A message of n bytes is above 65,535.
pub fn too_long(n: usize) -> bool
    ensures { result ≡ ltb max_payload n }
{
    MAX_PAYLOAD < n
}
