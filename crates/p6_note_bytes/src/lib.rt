// The state of a note line as bytes, for a host in C: read, tested and written. docs/BYTES.md states their order.
#![tactic(auto)]

ghost use Rattle.std.specs.Prelude.{◌≡◌, ◌++◌, ◌+◌, ◌≤◌, take};
ghost use Rattle.p0_choice.specs.Choice.{pick};
ghost use Rattle.p4_spelling.specs.Verdict.{longest_length};
ghost use Rattle.p6_note_bytes.specs.Bytes.{kept_start, line_size, standing_byte, two_bytes, kept_bytes, line_head, line_bytes};
ghost use Rattle.p6_note_bytes.specs.Bytes.{standing_of, two_at, kept_at, line_of, spells_line};
ghost use Rattle.p6_note_bytes.specs.Calls.{line_begin_on, line_begin_bytes, line_part_on, line_part_bytes, line_answer_on};

use p0_refusals::Refusal;
use p4_note_line::Report;
use p4_note_parts as parts;
use p4_note_parts::{Line, Standing};
use p4_spelling::LONGEST;
use p6_zeros as zeros;

// Where the kept letters start.
const HEAD: usize = 10;

pub const SIZE: usize = HEAD + 2 * LONGEST;

// ---- reading

// The number in two bytes, low byte first.
fn two_at(b: &[u8; SIZE], at: usize) -> u16
    requires { at + 2 ≤ line_size }
    ensures { result ≡ two_at b.now at }
{
    u16::from_le_bytes([b[at], b[at + 1]])
}

fn kept_of(b: &[u8; SIZE]) -> [u32; LONGEST]
    ensures { result ≡ kept_at longest_length b.now kept_start }
{
    let mut kept = [0u32; LONGEST];
    for i in 0..LONGEST {
        kept[i] = u32::from(two_at(b, HEAD + 2 * i));
    }
    kept
}

// A function, as is `standing_byte`: a standing is std's Result, of which no impl may stand here.
#[tactic(auto, using(crate::proofs::Reading::read_going, crate::proofs::Reading::read_foreign, crate::proofs::Reading::read_long))]
fn standing_of(x: u8) -> Standing
    ensures { result ≡ standing_of x }
{
    match x {
        0 => Ok(()),
        1 => Err(Refusal::Foreign),
        _ => Err(Refusal::Long),
    }
}

#[tactic(auto, using(crate::proofs::Reading::line_read))]
fn line_of(b: &[u8; SIZE]) -> Line
    ensures { result ≡ line_of b.now }
{
    Line {
        letters: kept_of(b),
        length: usize::from(two_at(b, 2)),
        run: usize::from(b[1]),
        words: usize::from(two_at(b, 4)),
        noes: usize::from(two_at(b, 6)),
        first: usize::from(two_at(b, 8)),
        standing: standing_of(b[0]),
    }
}

// The state that bytes spell, which is to be tested yet. Refusal: 10, for bytes that spell none.
#[tactic(auto, unfolding(crate::specs::Bytes::spells_line))]
fn read(b: &[u8; SIZE]) -> Result<Line, Refusal>
    ensures { result ≡ pick (spells_line b.now) (Ok (line_of b.now)) (Err Refusal.Unsound) }
{
    match b[0] {
        0 | 1 | 6 => Ok(line_of(b)),
        _ => Err(Refusal::Unsound),
    }
}

// ---- writing

fn standing_byte(standing: Standing) -> u8
    ensures { result ≡ standing_byte standing }
{
    match standing {
        Ok(()) => 0,
        Err(why) => u32::from(why) as u8,
    }
}

// The two low bytes of a number, low byte first.
fn two_bytes(n: usize) -> [u8; 2]
    ensures { result ≡ two_bytes n }
{
    let [low, high, ..] = n.to_le_bytes();
    [low, high]
}

// What stands before the kept letters.
#[tactic(auto, unfolding(crate::specs::Bytes::line_head))]
fn head(s: Line) -> [u8; HEAD]
    ensures { result ≡ line_head s }
{
    let [run, _] = two_bytes(s.run);
    let [length0, length1] = two_bytes(s.length);
    let [words0, words1] = two_bytes(s.words);
    let [noes0, noes1] = two_bytes(s.noes);
    let [first0, first1] = two_bytes(s.first);
    [
        standing_byte(s.standing),
        run,
        length0,
        length1,
        words0,
        words1,
        noes0,
        noes1,
        first0,
        first1,
    ]
}

#[tactic(auto, using(crate::proofs::Writing::put_none, crate::proofs::Writing::put_done))]
fn put_kept(b: &mut [u8; SIZE], kept: &[u32; LONGEST])
    ensures { b.new ≡ take kept_start b.old ++ kept_bytes kept.now }
{
    for (i, x) in kept.iter().enumerate() {
        let [low, high] = two_bytes(*x as usize);
        b[HEAD + 2 * i] = low;
        b[HEAD + 2 * i + 1] = high;
    }
}

fn put_line(b: &mut [u8; SIZE], s: Line)
    ensures { b.new ≡ line_bytes s }
{
    b[..HEAD].copy_from_slice(&head(s));
    put_kept(b, &s.letters);
}

// ---- the calls

// A new line, in bytes that may be any. Refusal: 10, for another length.
#[tactic(auto, using(crate::proofs::Calls::begin_put), unfolding(crate::specs::Calls::line_begin_on, crate::specs::Calls::line_begin_bytes))]
pub fn begin(state: &mut [u8]) -> Result<usize, Refusal>
    ensures value { result ≡ line_begin_on state.old }
    ensures state_after { state.new ≡ line_begin_bytes state.old }
{
    let Some(state) = state.as_mut_array::<SIZE>() else {
        return Err(Refusal::Unsound);
    };
    zeros::put_zeros(state, 0, SIZE);
    Ok(0)
}

// The next part of a line. Refusals: 10, which leaves every byte; then 1 and 6, which the state keeps. Bytes that spell an unsound
// state are written back as they were.
pub fn part(state: &mut [u8], letters: &[u32]) -> Result<usize, Refusal>
    ensures value { result ≡ line_part_on state.old letters.now }
    ensures state_after { state.new ≡ line_part_bytes state.old letters.now }
{
    let Some(state) = state.as_mut_array() else {
        return Err(Refusal::Unsound);
    };
    let s = read(state)?;
    let after = parts::part(s, letters);
    put_line(state, after.line);
    after.answer
}

// What is told of the letters that have come, at any time. Refusals: 10, then the one that the state keeps.
pub fn answer(state: &[u8]) -> Result<Report, Refusal>
    ensures { result ≡ line_answer_on state.now }
{
    let Some(state) = state.as_array() else {
        return Err(Refusal::Unsound);
    };
    parts::answer(read(state)?)
}
