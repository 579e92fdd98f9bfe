// Counting: how many telegrams a message has.
#![tactic(auto)]

ghost use Rattle.std.specs.Prelude.{◌≡◌, ◌≤◌};
ghost use Rattle.rules.specs.House.{min_size, max_payload};
ghost use Rattle.rules.specs.Telegram.{count_of, count};
ghost use Rattle.tel_count.specs.Answers.{count_answer};

use numbers::Refusal;

// How many telegrams a message of n bytes has.
fn count_of(l: usize, n: usize) -> usize
    requires { (min_size ≤ l) × (n ≤ max_payload) }
    ensures { result ≡ count_of l n }
{
    if n <= l { 1 } else { n.div_ceil(l - 1) }
}

// How many telegrams a message has, or 10 or 11.
pub fn count(l: usize, payload: &[u8]) -> Result<usize, Refusal>
    ensures { count_answer result ≡ count l payload.now }
{
    let n = payload.len();
    tel_head::allowed(l, n)?;
    Ok(count_of(l, n))
}
