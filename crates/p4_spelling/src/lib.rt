// Cut and verdict (document 01, port order 4: `spelling.rs`). A word is cut into onset, vowels and coda, and judged by
// the rows of `p4_rows`.
#![tactic(auto)]

ghost use Rattle.std.specs.Prelude.{◌≡◌, ◌≤◌, length, true, eqb};
ghost use Rattle.p0_choice.specs.Choice.{pick};
ghost use Rattle.p4_rows.specs.Rows.{onset_to_vowels};
ghost use Rattle.p4_rows.specs.Lookup.{go_together};
ghost use Rattle.p4_spelling.specs.Cut.{before_vowel, vowel_run, is_glue, onset_end};
ghost use Rattle.p4_spelling.specs.Verdict.{coda_fits, fits as fitting, verdict};
ghost use Rattle.p4_spelling.specs.Answers.{places_of, onset_part, vowels_part, coda_part, cut_answer, verdict_answer};

use p0_refusals::{LETTERS, Refusal};
use p1_letters as letters;
use p4_rows as rows;

// The letters of the longest accepted word; `longest_length` says the same.
pub const LONGEST: usize = 8;

// The one onset of a row that no word may have.
const Z: u32 = 0x7a;

// Where a word is cut: its onset ends before `onset`, its vowels end before `vowels`.
#[derive(Clone, Copy, Debug, PartialEq, Eq)]
pub struct CutPlaces {
    pub onset: usize,
    pub vowels: usize,
}

// How many letters stand before the first vowel. It and the next differ in a `!`: one function over a closure would be longer than both.
fn before_vowel(word: &[u32]) -> usize
    ensures { result ≡ before_vowel word.now }
{
    word.iter()
        .position(|x| letters::is_spelling_vowel(*x))
        .unwrap_or(word.len())
}

// How many vowels the word starts with.
fn vowel_run(word: &[u32]) -> usize
    ensures { result ≡ vowel_run word.now }
{
    word.iter()
        .position(|x| !letters::is_spelling_vowel(*x))
        .unwrap_or(word.len())
}

// q u or g i.
#[tactic(auto, unfolding(crate::specs::Cut::is_glue, p4_rows::specs::Lookup::in_list, p4_rows::specs::Lookup::same_word, p0_choice::specs::Text::words))]
fn is_glue(x: u32, y: u32) -> bool
    ensures { result ≡ is_glue x y }
{
    matches!((x, y), (0x71, 0x75) | (0x67, 0x69))
}

#[tactic(auto, using(crate::proofs::Scans::end_short, crate::proofs::Scans::end_unglued, crate::proofs::Scans::end_no_vowel, crate::proofs::Scans::end_glued))]
fn onset_end(word: &[u32]) -> usize
    ensures { result ≡ onset_end word.now }
{
    match *word {
        [x, y, z, ..] if is_glue(x, y) && letters::is_spelling_vowel(z) => 2,
        _ => before_vowel(word),
    }
}

// The places where any word is cut.
#[tactic(auto, using(crate::proofs::Scans::places_are, crate::proofs::Scans::places_within))]
pub fn cut_at(word: &[u32]) -> CutPlaces
    ensures { (result ≡ places_of word.now) × (result.onset ≤ result.vowels) × (result.vowels ≤ length word.now) }
{
    let onset = onset_end(word);
    CutPlaces {
        onset,
        vowels: onset + vowel_run(&word[onset..]),
    }
}

// The parts of a word between such places; empty where they do not stand in it. Each is a range of its own.
#[tactic(auto, unfolding(crate::specs::Answers::onset_part))]
pub fn onset_part(word: &[u32], at: CutPlaces) -> &[u32]
    ensures { result.now ≡ onset_part word.now at }
{
    word.get(..at.onset).unwrap_or(&[])
}

#[tactic(auto, unfolding(crate::specs::Answers::vowels_part))]
pub fn vowels_part(word: &[u32], at: CutPlaces) -> &[u32]
    ensures { result.now ≡ vowels_part word.now at }
{
    word.get(at.onset..at.vowels).unwrap_or(&[])
}

#[tactic(auto, unfolding(crate::specs::Answers::coda_part))]
pub fn coda_part(word: &[u32], at: CutPlaces) -> &[u32]
    ensures { result.now ≡ coda_part word.now at }
{
    word.get(at.vowels..).unwrap_or(&[])
}

// The cut of a permitted word.
#[tactic(auto, unfolding(crate::specs::Answers::cut_answer, crate::specs::Answers::permitted))]
pub fn partition(word: &[u32]) -> Result<CutPlaces, Refusal>
    ensures { result ≡ cut_answer word.now }
{
    if LETTERS < word.len() {
        Err(Refusal::Long)
    } else if letters::all_letters(word) {
        Ok(cut_at(word))
    } else {
        Err(Refusal::Foreign)
    }
}

// One of the onset's rows goes with one of the vowels', or the onset has no letters. An onset without rows is not
// listed, and goes with none.
fn onset_fits(letters: usize, onset: &[usize], vowels: &[usize]) -> bool
    ensures { result ≡ pick (eqb letters 0) true (go_together onset_to_vowels onset.now vowels.now) }
{
    letters == 0 || rows::cv_valid(onset, vowels)
}

// The same of the coda, whose search is its own: another row of the vowels may answer it.
#[tactic(auto, using(crate::proofs::Judging::no_coda_rows, crate::proofs::Judging::some_coda))]
fn coda_fits(vowels: &[usize], coda: &[u32]) -> bool
    ensures { result ≡ coda_fits vowels.now coda.now }
{
    coda.is_empty() || rows::vc_valid(vowels, rows::lookup_coda(coda))
}

// The verdict on a word of small letters without tones.
#[tactic(auto, using(crate::proofs::Judging::bare_onset, crate::proofs::Judging::vowels_in_no_row, crate::proofs::Judging::onset_unfit, crate::proofs::Judging::coda_decides))]
fn fits(word: &[u32]) -> bool
    ensures { result ≡ fitting word.now }
{
    let at = cut_at(word);
    let onset = rows::lookup_onset(&word[..at.onset]);
    if at.onset == at.vowels {
        return !onset.is_empty();
    }
    let vowels = rows::lookup_vowels(&word[at.onset..at.vowels]);
    !vowels.is_empty()
        && onset_fits(at.onset, onset, vowels)
        && coda_fits(vowels, &word[at.vowels..])
}

// Whether a word is accepted. None that is longer than LONGEST is; and of f j w z, which it may not have, no row has one
// but the onset z.
#[tactic(auto, using(crate::proofs::Folding::too_long, crate::proofs::Folding::fold_begin, crate::proofs::Folding::fold_on, crate::proofs::Folding::begins_z, crate::proofs::Folding::folded))]
pub fn accepts(word: &[u32]) -> bool
    ensures { result ≡ verdict word.now }
{
    if LONGEST < word.len() {
        return false;
    }
    let mut plain = [0u32; LONGEST];
    for (i, x) in word.iter().enumerate() {
        plain[i] = letters::strip_tone(letters::lower(*x));
    }
    if plain[0] == Z {
        return false;
    }
    fits(&plain[..word.len()])
}

// The verdict on a permitted word. An accepted word has letters of the alphabet alone, so only the others are asked.
#[tactic(auto, using(crate::proofs::Answers::says_yes), unfolding(crate::specs::Answers::verdict_answer, crate::specs::Answers::permitted))]
pub fn is_valid_vietnamese_syllable(word: &[u32]) -> Result<bool, Refusal>
    ensures { result ≡ verdict_answer word.now }
{
    if LETTERS < word.len() {
        return Err(Refusal::Long);
    }
    if accepts(word) {
        return Ok(true);
    }
    if !letters::all_letters(word) {
        return Err(Refusal::Foreign);
    }
    Ok(false)
}
