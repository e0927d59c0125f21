// A note line in parts (document 02, request 2026-04): the line as it comes in, cut anywhere. A state stands for what has come; it is
// handed over by value, and `p6_note_bytes` has it as bytes.
#![tactic(auto)]

ghost use Rattle.std.specs.Prelude.{◌≡◌, true, false, leb};
ghost use Rattle.p0_choice.specs.Choice.{pick};
ghost use Rattle.p0_refusals.specs.Limits.{letter_limit};
ghost use Rattle.p4_note_line.specs.Line.{line_limit};
ghost use Rattle.p4_note_parts.specs.State.{begun, in_word, letters_fit, counts_fit, end_fits, line_sound};
ghost use Rattle.p4_note_parts.specs.Parts.{open_accepted, counted_all, gap_taken, letter_taken, ended, part_taken};
ghost use Rattle.p4_note_parts.specs.Parts.{part_after, state_answer};

use p0_refusals::{LETTERS, Refusal};
use p1_letters as letters;
use p4_note_line as line;
use p4_note_line::{LINE, Report, Taken};
use p4_spelling as spelling;
use p4_spelling::LONGEST;

// Whether a line goes on, or which refusal has ended it.
pub type Standing = Result<(), Refusal>;

// What has come of a line: how many letters, the open word's number of letters and the first of these, how many words have
// ended, how many of them are judged no, and where the first of those begins.
#[derive(Clone, Copy, Debug, PartialEq, Eq)]
pub struct Line {
    pub letters: [u32; LONGEST],
    pub length: usize,
    pub run: usize,
    pub words: usize,
    pub noes: usize,
    pub first: usize,
    pub standing: Standing,
}

// What a part leaves and answers.
#[derive(Clone, Copy, Debug, PartialEq, Eq)]
pub struct LineAfter {
    pub line: Line,
    pub answer: Result<usize, Refusal>,
}

// ---- soundness

// A letter that a word can have.
#[tactic(auto, unfolding(crate::specs::State::in_word))]
fn in_word(x: u32) -> bool
    ensures { result ≡ in_word x }
{
    letters::in_alphabet(x) && !letters::is_separator(x)
}

// The kept letters of an open word of `run` letters.
#[tactic(auto, using(crate::proofs::Tests::kept_stray, crate::proofs::Tests::kept_none, crate::proofs::Tests::kept_foreign, crate::proofs::Tests::kept_on, crate::proofs::Tests::kept_all))]
fn letters_fit(kept: &[u32; LONGEST], run: usize) -> bool
    ensures { result ≡ letters_fit run kept.now }
{
    for (i, x) in kept.iter().enumerate() {
        if i < run {
            if !in_word(*x) {
                return false;
            }
        } else if *x != 0 {
            return false;
        }
    }
    true
}

// The words that have ended. What exceeds the length is told first, so that no sum wraps.
#[tactic(auto, unfolding(crate::specs::State::counts_fit))]
fn counts_fit(s: Line) -> bool
    ensures { result ≡ pick (leb s.length line_limit) (pick (leb s.run letter_limit) (counts_fit s) false) false }
{
    if LINE < s.length || LETTERS < s.run || s.length < s.words || s.length < s.first {
        return false;
    }
    if s.noes == 0 {
        return s.first == 0 && 2 * s.words + s.run <= s.length;
    }
    s.noes <= s.words
        && s.first + 2 * s.noes + s.run <= s.length
        && 2 * s.words + s.run + s.first % 2 <= s.length
}

fn end_fits(standing: Standing, length: usize, run: usize) -> bool
    ensures { result ≡ end_fits standing length run }
{
    match standing {
        Ok(()) | Err(Refusal::Foreign) => true,
        Err(Refusal::Long) => run == LETTERS || length == LINE,
        Err(_) => false,
    }
}

// A state that some line leads to.
#[tactic(auto, using(crate::proofs::Tests::sound_tests))]
pub fn sound(s: Line) -> bool
    ensures { result ≡ line_sound s }
{
    counts_fit(s) && end_fits(s.standing, s.length, s.run) && letters_fit(&s.letters, s.run)
}

// ---- letters

// The verdict on an open word. None that is longer than LONGEST is accepted.
#[tactic(auto, unfolding(crate::specs::Parts::open_accepted))]
fn open_accepted(kept: &[u32; LONGEST], run: usize) -> bool
    ensures { result ≡ open_accepted run kept.now }
{
    run <= LONGEST && spelling::accepts(&kept[..run])
}

// What is counted, the open word too. That a state is sound is asked here and below, and is in no type: a host hands states in by value, and
// a type would owe it for each state that is made.
#[tactic(auto, using(crate::proofs::Words::none_open, crate::proofs::Words::one_open, crate::proofs::Words::run_within, crate::proofs::Words::few_words, crate::proofs::Words::few_noes))]
fn counted(s: Line) -> Report
    requires { line_sound s ≡ true }
    ensures { result ≡ counted_all s }
{
    let mut told = Report {
        words: s.words,
        noes: s.noes,
        first: s.first,
    };
    if s.run != 0 {
        told.add(s.length - s.run, open_accepted(&s.letters, s.run));
    }
    told
}

// A letter of a gap, by which an open word has ended. Where none stands open, no more is to be told than the length.
#[tactic(auto, using(crate::proofs::Words::spaced, crate::proofs::Words::closed, crate::proofs::Words::length_fits), unfolding(crate::specs::State::begun))]
fn close(s: Line) -> Line
    requires { line_sound s ≡ true }
    ensures { result ≡ gap_taken s }
{
    if s.run == 0 {
        return Line {
            length: s.length + 1,
            standing: Ok(()),
            ..s
        };
    }
    let n = counted(s);
    Line {
        length: s.length + 1,
        words: n.words,
        noes: n.noes,
        first: n.first,
        ..begin()
    }
}

// The open word has a letter more, which is kept while there is room.
#[tactic(auto, using(crate::proofs::Words::length_fits, crate::proofs::Words::run_fits, crate::proofs::Words::lengthened))]
fn lengthen(s: Line, x: u32) -> Line
    requires { line_sound s ≡ true }
    ensures { result ≡ letter_taken s x }
{
    let mut letters = s.letters;
    if s.run < LONGEST {
        letters[s.run] = x;
    }
    Line {
        letters,
        length: s.length + 1,
        run: s.run + 1,
        standing: Ok(()),
        ..s
    }
}

// A letter was refused, and the line has ended.
#[tactic(auto, unfolding(crate::specs::Parts::ended))]
fn end(s: Line, why: Refusal) -> Line
    ensures { result ≡ ended s (Err why) }
{
    Line {
        standing: Err(why),
        ..s
    }
}

// The letters of a part, up to one that is refused.
#[tactic(auto, using(crate::proofs::Steps::on_start, crate::proofs::Steps::on_end))]
fn take_part(mut s: Line, part: &[u32]) -> Line
    requires { (line_sound s ≡ true) × (s.standing ≡ Ok tt) }
    ensures { result ≡ part_taken s part.now }
{
    for x in part {
        s = match line::take(s.length, s.run, *x) {
            Ok(Taken::Gap) => close(s),
            Ok(Taken::Letter) => lengthen(s, *x),
            Err(why) => return end(s, why),
        };
    }
    s
}

// ---- the calls

// A new line.
#[tactic(auto, unfolding(crate::specs::State::begun))]
pub fn begin() -> Line
    ensures { result ≡ begun }
{
    Line {
        letters: [0u32; LONGEST],
        length: 0,
        run: 0,
        words: 0,
        noes: 0,
        first: 0,
        standing: Ok(()),
    }
}

// The next part of a line. Refusals: 10, then 1 and 6 by place; these two the state keeps, and repeats.
#[tactic(auto, using(crate::proofs::Standings::part_taken_lem), unfolding(crate::specs::Parts::part_after))]
pub fn part(s: Line, letters: &[u32]) -> LineAfter
    ensures { result ≡ part_after s letters.now }
{
    if !sound(s) {
        return LineAfter {
            line: s,
            answer: Err(Refusal::Unsound),
        };
    }
    if let Err(why) = s.standing {
        return LineAfter {
            line: s,
            answer: Err(why),
        };
    }
    let line = take_part(s, letters);
    LineAfter {
        line,
        answer: line.standing.and(Ok(0)),
    }
}

// What is told of the letters that have come, at any time. Refusals: 10, then the one that the state keeps.
#[tactic(auto, using(crate::proofs::Standings::told_none, crate::proofs::Standings::told_some, crate::proofs::Standings::answer_stands), unfolding(crate::specs::Parts::state_answer))]
pub fn answer(s: Line) -> Result<Report, Refusal>
    ensures { result ≡ state_answer s }
{
    if !sound(s) {
        return Err(Refusal::Unsound);
    }
    s.standing?;
    let n = counted(s);
    if n.noes == 0 {
        return Ok(Report {
            first: s.length,
            ..n
        });
    }
    Ok(n)
}
