// What `wordline` does with its input, a part at a time: the line at hand is held in bounded memory.
#![tactic(auto)]

ghost use Rattle.std.specs.Prelude.{◌≡◌, ◌≤◌, [], length};
ghost use Rattle.p0_choice.specs.Choice.{pick};
ghost use Rattle.p0_refusals.specs.Answers.{onto};
ghost use Rattle.p7_line.specs.Line.{most};
ghost use Rattle.p7_line.specs.Mirror.{line_room};
ghost use Rattle.p7_feed.specs.Mirror.{state, state_of, part_most, out_room, end_phase, end_out, run_to, run_out, fed, finish_of, finish_out};

use p2_input_method::InputMethod;
use p7_line::MOST;
use p7_slices as slices;

// The most bytes of a part; `part_most` says the same.
pub const PART: usize = 512;

// Room for what a part prints; `out_room` says the same.
pub const ROOM: usize = PART * p7_line::ROOM;

// Before the method line; reading lines of keys; after a refused method line.
#[derive(Clone, Copy, Debug, PartialEq, Eq)]
pub enum Phase {
    Start,
    Keys(InputMethod),
    Ended,
}

// What goes on from one part of the input to the next: the line at hand, of which the first `len` bytes are held, and the phase.
// That `len` is at most MOST is a clause and no ghost field: the definition `fed` of what goes on would have to prove it.
#[derive(Clone, Copy)]
pub struct Carry {
    pub line: [u8; MOST],
    pub len: usize,
    pub phase: Phase,
}

// The end of a line: writes what it prints from the start of `out`, and goes on to the phase after it.
fn end_line(phase: &mut Phase, line: &[u8], out: &mut [u8]) -> usize
    requires { line_room ≤ length out.old }
    ensures next { phase.new ≡ end_phase phase.old line.now }
    ensures count { (result ≡ length (end_out phase.old line.now)) × (result ≤ line_room) }
    ensures printed { out.new ≡ onto (end_out phase.old line.now) out.old }
{
    match *phase {
        Phase::Start => match p7_line::method_line(line) {
            Ok(m) => {
                *phase = Phase::Keys(m);
                0
            }
            Err(refusal) => {
                *phase = Phase::Ended;
                p7_line::put_refused(refusal, out)
            }
        },
        Phase::Keys(m) => p7_line::line_out(m, line, out),
        Phase::Ended => 0,
    }
}

// A part of the input; what it prints stands at the start of `out`, and how much it is is the answer.
pub fn feed(part: &[u8], carry: &mut Carry, out: &mut [u8; ROOM]) -> usize
    requires { (length part.now ≤ part_most) × (carry.old.len ≤ most) }
    ensures value { (result ≡ length (run_out (state_of carry.old) part.now)) × (result ≤ out_room) }
    ensures held { (state_of carry.new ≡ run_to (state_of carry.old) part.now) × (carry.new ≡ fed carry.old part.now)
        × (carry.new.len ≤ most) }
    ensures printed { out.new ≡ onto (run_out (state_of carry.old) part.now) out.old }
{
    let mut n = 0;
    for b in part {
        if *b == b'\n' {
            let line = slices::first(&carry.line, carry.len);
            n += end_line(&mut carry.phase, line, &mut out[n..]);
            carry.len = 0;
            continue;
        }
        // of a line over the limit no more is held
        if MOST <= carry.len {
            continue;
        }
        carry.line[carry.len] = *b;
        carry.len += 1;
    }
    n
}

// Whether an unfinished line counts: if it has a byte, and the method line always.
#[tactic(auto, using(crate::proofs::Ends::finish_none, crate::proofs::Ends::finish_some))]
fn counts(phase: Phase, line: &[u8]) -> bool
    ensures { finish_of phase line.now ≡ pick result (end_out phase line.now) [] }
{
    matches!(phase, Phase::Start) || !line.is_empty()
}

// The end of the input, where so much of a line is held.
pub fn finish(held: &[u8], phase: Phase, out: &mut [u8]) -> usize
    requires { line_room ≤ length out.old }
    ensures { (result ≡ length (finish_out (state held.now phase))) × (result ≤ line_room)
        × (out.new ≡ onto (finish_out (state held.now phase)) out.old) }
{
    if !counts(phase, held) {
        return 0;
    }
    let mut last = phase;
    end_line(&mut last, held, out)
}
