// Reads a method line and lines of keys from standard input; prints each line's text, a tab, and yes or no.
// What is done with the bytes is p7_feed's; here they are read and written, in order, and what fails is told.
#![tactic(auto)]

ghost use Rattle.std.specs.Prelude.{◌≤◌, ◌≡◌, true, false, length, is_ok, MatchOption};
ghost use Rattle.p0_refusals.specs.Answers.{onto};
ghost use Rattle.p7_line.specs.Line.{most};
ghost use Rattle.p7_feed.specs.Mirror.{state_of, run_to, run_out, fed};
ghost use Rattle.p7_wordline.specs.Mirror.{input_of, amount as amount_of, bytes_read, is_over, goes_on, Came};
ghost use Rattle.p7_wordline.specs.declared.Input.TheVariants.{NoMore};

use p7_feed::{Carry, PART, Phase, ROOM};
use p7_slices as slices;
use std::io;
use std::io::{Error, Read, Stdin, Stdout};
use std::process::ExitCode;

// The number of the error of a read that a signal cut short. By std's contract an error with no number can be of kind Interrupted too.
const EINTR: i32 = 4;

// What a read gave: so many bytes, the end of the input, or none, because a signal cut it short or it failed.
#[derive(Clone, Copy)]
enum Input {
    Bytes(usize),
    NoMore,
    Interrupted,
    Failed(Error),
}

// What a turn leaves: what its read gave, and whether what it prints was written.
#[derive(Clone, Copy)]
struct Took {
    input: Input,
    wrote: io::Result<()>,
}

// What a read gave, by its answer.
fn input_of(said: io::Result<usize>, part: &[u8]) -> Input
    ensures { result ≡ input_of said (length part.now) }
{
    match said {
        Err(error) => {
            if error.raw_os_error() == Some(EINTR) {
                return Input::Interrupted;
            }
            Input::Failed(error)
        }
        // an arm `Ok(0)` would leave the proof no fact about k to cite
        Ok(k) => {
            if k == 0 {
                return Input::NoMore;
            }
            Input::Bytes(k.min(part.len()))
        }
    }
}

// How many bytes it left.
#[tactic(auto, unfolding(crate::specs::Mirror::amount))]
fn amount(input: Input) -> usize
    ensures { result ≡ amount_of input }
{
    match input {
        Input::Bytes(k) => k,
        Input::NoMore | Input::Interrupted | Input::Failed(_) => 0,
    }
}

// One read into `part`; what its bytes print stands at the start of `out`, and is written.
fn turn(
    from: &mut Stdin,
    to: Stdout,
    part: &mut [u8; PART],
    carry: &mut Carry,
    out: &mut [u8; ROOM],
) -> Took
    requires { (carry.old.len ≤ most) × (is_over carry.old.phase ≡ false) }
    ensures held { (state_of carry.new ≡ run_to (state_of carry.old) (bytes_read result.input part.new))
        × (carry.new ≡ fed carry.old (bytes_read result.input part.new)) × (carry.new.len ≤ most) }
    ensures printed { out.new ≡ onto (run_out (state_of carry.old) (bytes_read result.input part.new)) out.old }
{
    let said = from.read(part);
    let input = input_of(said, part);
    let k = amount(input);
    let n = p7_feed::feed(slices::first(part, k), carry, out);
    let wrote = to.write_all(slices::first(out, n));
    Took { input, wrote }
}

// After a refused method line.
#[tactic(auto, unfolding(crate::specs::Mirror::is_over))]
fn is_over(phase: Phase) -> bool
    ensures { result ≡ is_over phase }
{
    matches!(phase, Phase::Ended)
}

// Whether another turn follows.
#[tactic(auto, unfolding(crate::specs::Mirror::goes_on, crate::specs::Mirror::may_read))]
fn goes_on(took: Took, phase: Phase) -> bool
    ensures { result ≡ goes_on took phase }
{
    if took.wrote.is_err() || is_over(phase) {
        return false;
    }
    match took.input {
        Input::Bytes(_) | Input::Interrupted => true,
        Input::NoMore | Input::Failed(_) => false,
    }
}

// Turn after turn, and what the last one leaves; none where there is no last one.
fn run(from: &mut Stdin, to: Stdout, carry: &mut Carry) -> Option<Took>
    requires { Came carry.old × (carry.old.len ≤ most) × (is_over carry.old.phase ≡ false) }
    ensures came { Came carry.new }
    ensures last { MatchOption result (is_over carry.new.phase ≡ false) (λ took. goes_on took carry.new.phase ≡ false) }
{
    let mut part = [0; PART];
    let mut out = [0; ROOM];
    // a loop is proved to end, so the turns are counted
    for _turn in 0..u64::MAX {
        let took = turn(from, to, &mut part, carry, &mut out);
        if !goes_on(took, carry.phase) {
            return Some(took);
        }
    }
    None
}

// Tells what was not done, and by which error. What can not be told either is told nowhere.
fn fail(to: &impl Eprint, what: &str, error: Option<Error>) -> ExitCode {
    let _ = match error {
        Some(error) => eprintln!(to; "wordline: {what}: {error}"),
        None => eprintln!(to; "wordline: {what}"),
    };
    ExitCode::FAILURE
}

fn tell_unwritten(to: &impl Eprint, error: Error) -> ExitCode {
    fail(to, "not all was written", Some(error))
}

// The end of the input: the line at hand, which no line end has closed. The clause alone asks for `took`.
fn finish(rt: &(impl Print + Eprint), carry: &Carry, took: Took) -> ExitCode
    requires { (took.input ≡ NoMore) × (is_ok took.wrote ≡ true) }
{
    let mut out = [0; p7_line::ROOM];
    let held = slices::first(&carry.line, carry.len);
    let n = p7_feed::finish(held, carry.phase, &mut out);
    match rt.write_all(slices::first(&out, n)) {
        Ok(()) => ExitCode::SUCCESS,
        Err(error) => tell_unwritten(rt, error),
    }
}

fn main(rt: HostRuntime) -> ExitCode {
    let mut carry = Carry {
        line: [0; p7_line::MOST],
        len: 0,
        phase: Phase::Start,
    };
    let Some(took) = run(&mut rt.stdin(), rt.stdout(), &mut carry) else {
        return fail(&rt, "not all was read", None);
    };
    if let Err(error) = took.wrote {
        return tell_unwritten(&rt, error);
    }
    match took.input {
        Input::NoMore => finish(&rt, &carry, took),
        Input::Failed(error) => fail(&rt, "not all was read", Some(error)),
        Input::Bytes(_) | Input::Interrupted => ExitCode::SUCCESS,
    }
}
