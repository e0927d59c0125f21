// A note line, checked whole, and in parts over a state of the host's bytes (document 02, 2026-04); docs/BYTES.md states their order.
ghost use Rattle.std.specs.Prelude.{◌≡◌};
ghost use Rattle.p0_refusals.specs.Answers.{refusal_of};
ghost use Rattle.p4_note_line.specs.Line.{line_answer, checked_number};
ghost use Rattle.p6_note_bytes.specs.Calls.{line_begin_on, line_begin_bytes, line_part_on, line_part_bytes, line_answer_on};
ghost use Rattle.p6_host.specs.LineCalls.{words_out, no_out, first_out};

use p0_refusals::{Refusal, refusal_of};
use p4_note_line::Report;

// The numbers of a line's refusal and counts.
fn tell_checked(
    given: Result<Report, Refusal>,
    words: &mut usize,
    no: &mut usize,
    first: &mut usize,
) -> u32
    ensures { (result ≡ checked_number given) × (words.new ≡ words_out given words.old)
        × (no.new ≡ no_out given no.old) × (first.new ≡ first_out given first.old) }
{
    match given {
        Ok(counts) => {
            *words = counts.words;
            *no = counts.noes;
            *first = counts.first;
            0
        }
        Err(refusal) => u32::from(refusal),
    }
}

#[unsafe(no_mangle)]
pub extern "C" fn pasdrongel_line_check(
    line: &[u32],
    words: &mut usize,
    no: &mut usize,
    first: &mut usize,
) -> u32
    ensures value { result ≡ checked_number (line_answer line.now) }
    ensures words_after { words.new ≡ words_out (line_answer line.now) words.old }
    ensures no_after { no.new ≡ no_out (line_answer line.now) no.old }
    ensures first_after { first.new ≡ first_out (line_answer line.now) first.old }
{
    let given = p4_note_line::check(line);
    tell_checked(given, words, no, first)
}

#[unsafe(no_mangle)]
pub extern "C" fn pasdrongel_line_begin(state: &mut [u8]) -> u32
    ensures value { result ≡ refusal_of (line_begin_on state.old) }
    ensures state_after { state.new ≡ line_begin_bytes state.old }
{
    let given = p6_note_bytes::begin(state);
    refusal_of(given)
}

// Refusals 1 and 6 end the line, and the state records them: the one call that leaves something else where it refuses.
#[unsafe(no_mangle)]
pub extern "C" fn pasdrongel_line_part(state: &mut [u8], letters: &[u32]) -> u32
    ensures value { result ≡ refusal_of (line_part_on state.old letters.now) }
    ensures state_after { state.new ≡ line_part_bytes state.old letters.now }
{
    let given = p6_note_bytes::part(state, letters);
    refusal_of(given)
}

#[unsafe(no_mangle)]
pub extern "C" fn pasdrongel_line_answer(
    state: &[u8],
    words: &mut usize,
    no: &mut usize,
    first: &mut usize,
) -> u32
    ensures value { result ≡ checked_number (line_answer_on state.now) }
    ensures words_after { words.new ≡ words_out (line_answer_on state.now) words.old }
    ensures no_after { no.new ≡ no_out (line_answer_on state.now) no.old }
    ensures first_after { first.new ≡ first_out (line_answer_on state.now) first.old }
{
    let given = p6_note_bytes::answer(state);
    tell_checked(given, words, no, first)
}
