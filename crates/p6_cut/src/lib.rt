// For a host in Rattle: a cut word keeps the lent word together with its two cut places, and onset, vowels and coda are
// parts of that word.
#![tactic(auto)]

ghost use Rattle.std.specs.Prelude.{◌≡◌};
ghost use Rattle.p4_spelling.specs.Answers.{onset_part, vowels_part, coda_part};
ghost use Rattle.p6_cut.specs.Cut.{places_after};

use p4_spelling as spelling;
use p4_spelling::CutPlaces;

#[derive(Clone, Copy, Debug, PartialEq, Eq)]
pub struct CutWord<'a> {
    pub word: &'a [u32],
    pub places: CutPlaces,
}

// The places of a word's cut. A refused word is cut past its end, so that all its parts are empty: a host then asks for parts without
// an answer to take apart first, where an Option would be one.
#[tactic(auto, unfolding(crate::specs::Cut::places_after))]
pub fn places_of(word: &[u32]) -> CutPlaces
    ensures { result ≡ places_after word.now }
{
    let past = word.len() + 1;
    let past_end = CutPlaces {
        onset: past,
        vowels: past,
    };
    spelling::partition(word).unwrap_or(past_end)
}

// The parts by a word and places that a host keeps apart: three names, as the parts of p4_spelling and of document 01 are three.
pub fn onset_between(word: &[u32], places: CutPlaces) -> &[u32]
    ensures { result.now ≡ onset_part word.now places }
{
    spelling::onset_part(word, places)
}

pub fn vowels_between(word: &[u32], places: CutPlaces) -> &[u32]
    ensures { result.now ≡ vowels_part word.now places }
{
    spelling::vowels_part(word, places)
}

pub fn coda_between(word: &[u32], places: CutPlaces) -> &[u32]
    ensures { result.now ≡ coda_part word.now places }
{
    spelling::coda_part(word, places)
}

pub fn cut(word: &[u32]) -> CutWord
    ensures { (result.word ≡ word.entry) × (result.places ≡ places_after word.now) }
{
    CutWord {
        word,
        places: places_of(word),
    }
}

pub fn onset<'a>(c: CutWord<'a>) -> &'a [u32]
    ensures { result.now ≡ onset_part c.entry.word.now c.entry.places }
{
    onset_between(c.word, c.places)
}

pub fn vowels<'a>(c: CutWord<'a>) -> &'a [u32]
    ensures { result.now ≡ vowels_part c.entry.word.now c.entry.places }
{
    vowels_between(c.word, c.places)
}

pub fn coda<'a>(c: CutWord<'a>) -> &'a [u32]
    ensures { result.now ≡ coda_part c.entry.word.now c.entry.places }
{
    coda_between(c.word, c.places)
}
