// A note line (document 02, request 2026-04): words and gaps by turns, each word judged. Here the line is whole; `p4_note_parts` takes it
// as it comes in.
#![tactic(auto)]

ghost use Rattle.std.specs.Prelude.{◌≡◌, ◌≤◌, length};
ghost use Rattle.p4_note_line.specs.Line.{line_limit, until_gap, taking, line_fault, line_answer};
ghost use Rattle.p4_note_line.specs.Mirror.{gap_run, one_more, counted_from, CanCount, BeginsWord};

use p0_refusals::{LETTERS, Refusal};
use p1_letters as letters;
use p4_spelling as spelling;

// The most letters of a line; `line_limit` says the same.
pub const LINE: usize = 4096;

// What is told of a line: how many words it has, how many of them are judged no, and where the first of those begins; the line's
// length where there is none.
#[derive(Clone, Copy, Debug, PartialEq, Eq)]
pub struct Report {
    pub words: usize,
    pub noes: usize,
    pub first: usize,
}

// What a letter is to the line before it.
#[derive(Clone, Copy, Debug, PartialEq, Eq)]
pub enum Taken {
    Gap,
    Letter,
}

// Of a letter that `at` letters stand before, the last `run` of them of one word.
#[tactic(auto, unfolding(crate::specs::Line::taking))]
pub fn take(at: usize, run: usize, x: u32) -> Result<Taken, Refusal>
    ensures { result ≡ taking at run x }
{
    if !letters::in_alphabet(x) {
        return Err(Refusal::Foreign);
    }
    if LINE <= at {
        return Err(Refusal::Long);
    }
    if letters::is_separator(x) {
        return Ok(Taken::Gap);
    }
    if LETTERS <= run {
        return Err(Refusal::Long);
    }
    Ok(Taken::Letter)
}

// The line's length, or the refusal of the first letter that has one.
#[tactic(auto, using(crate::proofs::Faults::fault_gap, crate::proofs::Faults::fault_letter, crate::proofs::Faults::fault_none), unfolding(crate::specs::Line::line_fault))]
fn fault_in(line: &[u32]) -> Result<usize, Refusal>
    ensures { result ≡ line_fault line.now }
{
    let mut run = 0;
    for (at, x) in line.iter().enumerate() {
        run = match take(at, run, *x)? {
            Taken::Gap => 0,
            Taken::Letter => run + 1,
        };
    }
    Ok(line.len())
}

// How many letters of a gap the letters begin with.
fn gap_run(rest: &[u32]) -> usize
    ensures value { result ≡ gap_run rest.now }
    ensures within { result ≤ length rest.now }
{
    rest.iter()
        .position(|x| !letters::is_separator(*x))
        .unwrap_or(rest.len())
}

// How many letters of a word.
fn word_run(rest: &[u32]) -> usize
    ensures value { result ≡ length (until_gap rest.now) }
    ensures within { result ≤ length rest.now }
{
    rest.iter()
        .position(|x| letters::is_separator(*x))
        .unwrap_or(rest.len())
}

impl Report {
    // A word more, which begins at `at`.
    pub fn add(&mut self, at: usize, yes: bool)
        requires { (self.old.words ≤ line_limit) × (self.old.noes ≤ line_limit) }
        ensures { self.new ≡ one_more self.old at yes }
    {
        self.words += 1;
        if yes {
            return;
        }
        if self.noes == 0 {
            self.first = at;
        }
        self.noes += 1;
    }
}

// ---- the readers, which call each other over the letters that are left, before which `at` letters stand. They add to what was told of
// those; while none is judged no its first place is the line's length. So there is a call for a word and the gap after it, not for a
// letter. The report goes along lent, and not by value: the compiler then makes a loop of the two, and no line takes more stack than
// another.

// The gap reader: "a word is followed by a gap ..".
#[cycle(gap_word)]
fn gap(rest: &[u32], at: usize, told: &mut Report)
    requires { CanCount at rest.now told.old }
    ensures { told.new ≡ counted_from told.old at rest.now }
{
    let run = gap_run(rest);
    if run != rest.len() {
        word(&rest[run..], at + run, told);
    }
}

// The word reader: ".. and a gap by a word".
#[cycle(gap_word)]
fn word(rest: &[u32], at: usize, told: &mut Report)
    requires room { CanCount at rest.now told.old }
    requires begins { BeginsWord rest.now }
    ensures { told.new ≡ counted_from told.old at rest.now }
{
    let run = word_run(rest);
    let yes = spelling::accepts(&rest[..run]);
    told.add(at, yes);
    gap(&rest[run..], at + run, told);
}

// A whole line, checked. Refusals by place: 1 and 6, whichever stands first.
pub fn check(line: &[u32]) -> Result<Report, Refusal>
    ensures { result ≡ line_answer line.now }
{
    let length = fault_in(line)?;
    let mut told = Report {
        words: 0,
        noes: 0,
        first: length,
    };
    gap(line, 0, &mut told);
    Ok(told)
}
