// A bench: a script from standard input, answered line by line.
#![tactic(auto)]

ghost use Rattle.std.specs.Prelude.{◌≡◌, IfErr};
ghost use Rattle.text_answers.specs.Remarks.{kind_of, not_understood};
ghost use Rattle.text_answers.specs.declared.LineKind.TheVariants.{Remark, EarlierAnswer};
ghost use Rattle.text_out.specs.Puts.{Puts};
ghost use Rattle.text_out.specs.Spelling.{lined};
ghost use Rattle.text_bench.specs.Turns.{is_there};

use std::env::FillError;
use text_answers::LineKind;
use text_arguments::Reason;
use text_in::{Input, MAX_LINE};
use text_out::Output;

// What stands on the bench.
pub trait Bench: Drop {
    // What holds of it from line to line.
    ghost holds: { Self → Type 0 } = { λ bench. Unit {0} };

    // As it stands before the first line.
    fn start() -> Self
        ensures { holds result };

    // Does what a command line asks for, and puts the command in its normal form and what comes of it. A line that is no command is an Err,
    // and puts nothing.
    fn obey(&mut self, output: &mut Output, line: &[u8]) -> Result<(), Reason>
        requires { holds self.old }
        ensures kept { holds self.new }
        ensures quiet { IfErr result (λ reason. output.new ≡ output.old) };
}

// An argument of a program is there, of any length.
pub fn is_there(argument: Result<usize, FillError>) -> bool
    ensures { result ≡ is_there argument }
{
    !matches!(argument, Err(FillError::NotPresent))
}

// A line of any kind: a remark is written back, an earlier answer is passed over, and a command is obeyed. A line that is no command is an
// Err, and told with its reason. `other` stands in front of the other side's lines.
fn answer<B: Bench>(
    bench: &mut B,
    output: &mut Output,
    line: &[u8],
    other: u8,
) -> Result<(), Reason>
    requires { B.holds bench.old }
    ensures kept { B.holds bench.new }
    ensures remark { kind_of other line.now ≡ Remark → Puts output.old (lined line.now) output.new × (bench.new ≡ bench.old) }
    ensures passed_over { kind_of other line.now ≡ EarlierAnswer → (output.new ≡ output.old) × (bench.new ≡ bench.old) }
    ensures no_command { IfErr result (λ reason. Puts output.old (not_understood line.now reason) output.new) }
{
    match text_answers::kind_of(line, other) {
        LineKind::Remark => output.line(line),
        LineKind::EarlierAnswer => {}
        LineKind::Offer => {
            let obeyed = bench.obey(output, line);
            if let Err(reason) = obeyed {
                text_answers::not_understood(output, line, reason);
            }
            return obeyed;
        }
    }
    Ok(())
}

// The script, line by line, up to its end or to a failed write; nothing is left waiting to be written.
pub fn play<B: Bench>(input: &mut Input, output: &mut Output, other: u8)
    ensures { output.old.waiting ≡ 0 → output.new.waiting ≡ 0 }
{
    let mut bench = B::start();
    let mut line = [0u8; MAX_LINE];
    // A loop has to end; no script is as long as this.
    for _ in 0..u64::MAX {
        let Some(length) = input.line(&mut line) else {
            return;
        };
        match line.get(..length) {
            // Why a line is no command is told already.
            Some(fits) => {
                let _ = answer(&mut bench, output, fits, other);
            }
            None => text_answers::not_understood(output, &line, Reason::TooLong),
        }
        output.drain();
        if output.closed {
            return;
        }
    }
}
