// What a call answers: how much it wrote, or why it refuses.
#![tactic(auto)]

ghost use Rattle.std.specs.Prelude.{◌≡◌};
ghost use Rattle.p0_refusals.specs.Answers.{refusal_of};
ghost use Rattle.p0_refusals.specs.Refusals.{number_of};

// The most letters of a word, of a raw string, and to be written as UTF-8; `letter_limit` says the same.
pub const LETTERS: usize = 64;

// The most bytes to be read as UTF-8; `byte_limit` says the same.
pub const BYTES: usize = 256;

// Why a call refuses: a row of document 01's table each, in its order, and then those that requests of document 02 add to it.
#[derive(Clone, Copy, Debug, PartialEq, Eq)]
pub enum Refusal {
    // a code point outside the alphabet
    Foreign,
    // a letter must be appended and all cells are used
    Full,
    // the lent output is shorter than the answer
    Short,
    // last cell to be removed, none there
    Empty,
    // undo, and there is nothing to undo
    NoUndo,
    // word, raw string, line, or UTF-8 letters or bytes over the limit
    Long,
    // no such listed word
    NoWord,
    // malformed UTF-8
    Malformed,
    // first line of the program is neither `telex` nor `vni`
    NoMethod,
    // composition not sound
    Unsound,
    // 2026-02: the bytes are no draft of a sound composition
    NoDraft,
}

// The refusal's number, as a host sees it.
impl From<Refusal> for u32 {
    ghost from_gives = { λ refusal n. n ≡ number_of refusal };

    fn from(refusal: Refusal) -> u32 {
        match refusal {
            Refusal::Foreign => 1,
            Refusal::Full => 2,
            Refusal::Short => 3,
            Refusal::Empty => 4,
            Refusal::NoUndo => 5,
            Refusal::Long => 6,
            Refusal::NoWord => 7,
            Refusal::Malformed => 8,
            Refusal::NoMethod => 9,
            Refusal::Unsound => 10,
            Refusal::NoDraft => 11,
        }
    }
}

// The number of an answer, as a host sees it: the refusal's, or 0 where so many letters or bytes were written.
pub fn refusal_of(answer: Result<usize, Refusal>) -> u32
    ensures { result ≡ refusal_of answer }
{
    match answer {
        Ok(_) => 0,
        Err(why) => u32::from(why),
    }
}
