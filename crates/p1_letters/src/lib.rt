// The letters of document 01's alphabet: which they are, their case, tone on and off, and the two vowel
// tests (port order 1). Every function takes every u32; what is no letter is left as it is.
#![tactic(auto)]

ghost use Rattle.std.specs.Prelude.{◌/◌, ◌%◌, ◌^◌, ◌≡◌, eqb};
ghost use Rattle.p0_choice.specs.Choice.{among};
ghost use Rattle.p1_letters.specs.Mirror.{column_asked, in_blocks};
ghost use Rattle.p1_letters.specs.Alphabet.{small_by32, small_by1, small_next, is_capital, in_alphabet, all_letters, is_white_space};
ghost use Rattle.p1_letters.specs.Alphabet.{is_separator, ascii_lower, ascii_upper, lower as lower_of, upper as upper_of};
ghost use Rattle.p1_letters.specs.Tones.{tone_on, tone_off};
ghost use Rattle.p1_letters.specs.Vowels.{vowels, is_vowel, is_spelling_vowel};

use p1_tone_block as tones;

// A block of 32 code points as a number, whose lowest bit stands for the block's first code point.
fn bit(block: u32, x: u32) -> bool
    ensures { result ≡ eqb (block / 2 ^ (x % 32) % 2) 1 }
{
    (block >> (x % 32)) % 2 == 1
}

// À Á Â Ã È É Ê Ì Í Ò Ó Ô Õ Ù Ú Ý in their block, and their small letters in the next.
const BY_32: u32 = 0x263c370f;

// à á â ã è é ê ì í ò ó ô õ ù ú ý, whose capitals are 32 less.
fn is_small_by_32(x: u32) -> bool
    ensures { result ≡ among x small_by32 }
{
    match x {
        0xe0..=0xff => bit(BY_32, x),
        _ => false,
    }
}

// ă đ ĩ ũ ơ ư, whose capitals are 1 less.
#[tactic(auto, unfolding(crate::specs::Alphabet::small_by1, p0_choice::specs::Text::word))]
fn is_small_by_1(x: u32) -> bool
    ensures { result ≡ among x small_by1 }
{
    matches!(x, 0x103 | 0x111 | 0x129 | 0x169 | 0x1a1 | 0x1b0)
}

// These and the odd code points of U+1EA1 to U+1EF9: the small letters whose capitals are 1 less.
fn is_small_next(x: u32) -> bool
    ensures { result ≡ small_next x }
{
    if x < 0x1ea1 {
        return is_small_by_1(x);
    }
    if 0x1ef9 < x {
        return false;
    }
    x % 2 == 1
}

// Rust's `is_uppercase` on the alphabet.
pub fn is_capital(x: u32) -> bool
    ensures { result ≡ is_capital x }
{
    if x < 0x41 {
        return false;
    }
    if x <= 0x5a {
        return true;
    }
    if x < 0xe0 {
        return is_small_by_32(x + 32);
    }
    if 0x1ef8 < x {
        return false;
    }
    is_small_next(x + 1)
}

// Blocks of 32 code points up to U+01BF: the letters outside ASCII that stand there. There are none from there to U+1EA0.
const LETTERS: &[u32; 14] = &[
    // À to ÿ
    0, 0, 0, 0, 0, 0, BY_32, BY_32,
    // Ă ă Đ đ, Ĩ ĩ, Ũ ũ, Ơ ơ Ư ư
    0x0003000c, 0x00000300, 0, 0x00000300, 0, 0x00018003,
];

// Whether a code point is among those of such blocks; past them there are none.
#[tactic(auto, unfolding(crate::specs::Mirror::in_blocks))]
fn in_blocks(blocks: &[u32; 14], x: u32) -> bool
    ensures { result ≡ in_blocks blocks.now x }
{
    let block = blocks.get((x / 32) as usize).copied().unwrap_or(0);
    bit(block, x)
}

pub fn in_alphabet(x: u32) -> bool
    ensures { result ≡ in_alphabet x }
{
    if x < 0x80 {
        return true;
    }
    if 0x1ea0 <= x {
        return x <= 0x1ef9;
    }
    in_blocks(LETTERS, x)
}

pub fn all_letters(s: &[u32]) -> bool
    ensures { result ≡ all_letters s.now }
{
    s.iter().all(|x| in_alphabet(*x))
}

#[tactic(auto, unfolding(crate::specs::Alphabet::is_white_space))]
pub fn is_white_space(x: u32) -> bool
    ensures { result ≡ is_white_space x }
{
    matches!(x, 0x09..=0x0d | 0x20)
}

// White space or . , ! ? ; : with : and ; in two arms, as they are neighbours, which in one would be a range.
#[tactic(auto, unfolding(crate::specs::Alphabet::is_separator, p0_choice::specs::Text::word))]
pub fn is_separator(x: u32) -> bool
    ensures { result ≡ is_separator x }
{
    if is_white_space(x) {
        return true;
    }
    match x {
        33 | 44 | 46 | 58 | 63 => true,
        59 => true,
        _ => false,
    }
}

#[tactic(auto, unfolding(crate::specs::Alphabet::ascii_lower, crate::specs::Alphabet::is_ascii_capital))]
pub fn ascii_lower(x: u32) -> u32
    ensures { result ≡ ascii_lower x }
{
    match x {
        65..=90 => x + 32,
        _ => x,
    }
}

#[tactic(auto, unfolding(crate::specs::Alphabet::ascii_upper))]
pub fn ascii_upper(x: u32) -> u32
    ensures { result ≡ ascii_upper x }
{
    match x {
        97..=122 => x - 32,
        _ => x,
    }
}

pub fn lower(x: u32) -> u32
    ensures { result ≡ lower_of x }
{
    if x < 0x80 {
        return ascii_lower(x);
    }
    if !is_capital(x) {
        return x;
    }
    if x < 0xe0 {
        return x + 32;
    }
    x + 1
}

pub fn upper(x: u32) -> u32
    ensures { result ≡ upper_of x }
{
    if x < 0x80 {
        return ascii_upper(x);
    }
    if is_small_by_32(x) {
        return x - 32;
    }
    if is_small_next(x) {
        return x - 1;
    }
    x
}

// The columns of the letters from f to x, three bits each: f 2, j 5, r 3, s 1, x 4, and 0 for the others.
const KEYS: u64 = 0x10000b000005002;

// The column that a tone key asks for.
fn column_of(tone: u32) -> Option<u8>
    ensures { result ≡ column_asked tone }
{
    match tone {
        49..=53 => Some((tone - 48) as u8),
        102..=120 => {
            let column = ((KEYS >> (3 * (tone - 102))) % 8) as u8;
            if column == 0 { None } else { Some(column) }
        }
        _ => None,
    }
}

// Tone on, as the Rust: a capital vowel gives the small toned letter, which stands in the vowel's row and the tone's column.
pub fn apply_tone_to_char(ch: u32, tone: u32) -> u32
    ensures { result ≡ tone_on ch tone }
{
    let l = ascii_lower(ch);
    if !is_small_vowel(l) {
        return ch;
    }
    match column_of(tone) {
        Some(column) => u32::from(tones::letter_at(tones::letter_place(l) + column)),
        None => ch,
    }
}

// Tone off: the vowel at the head of the row. Most letters stand below à, where none has a tone, and are not looked up.
pub fn strip_tone(c: u32) -> u32
    ensures { result ≡ tone_off c }
{
    if c < 0xe0 {
        return c;
    }
    let place = tones::letter_place(c);
    let found = u32::from(tones::letter_at(place));
    if found == c {
        return u32::from(tones::letter_at(place / tones::WIDTH * tones::WIDTH));
    }
    c
}

// One of the twelve small vowels.
#[tactic(auto, unfolding(crate::specs::Vowels::vowels, p0_choice::specs::Text::word))]
pub fn is_small_vowel(x: u32) -> bool
    ensures { result ≡ among x vowels }
{
    matches!(
        x,
        0x61 | 0x65 | 0x69 | 0x6f | 0x75 | 0x79 | 0xe2 | 0xea | 0xf4 | 0x103 | 0x1a1 | 0x1b0
    )
}

// The composer's test.
pub fn is_vowel(ch: u32) -> bool
    ensures { result ≡ is_vowel ch }
{
    is_small_vowel(ascii_lower(ch))
}

// Blocks of 32 code points up to U+01BF: the speller's vowels that stand there. There are none from there to U+1EA0.
const SPELLING_VOWELS: &[u32; 14] = &[
    // a e i o u y
    0, 0, 0, 0x02208222, 0, 0, 0,
    // à to ý, ă, ĩ, ũ, ơ ư
    BY_32, 0x00000008, 0x00000200, 0, 0x00000200, 0, 0x00010002,
];

// The speller's test: 27 letters below U+1EA0, and the small ones from there on.
pub fn is_spelling_vowel(c: u32) -> bool
    ensures { result ≡ is_spelling_vowel c }
{
    if c < 0x1ea0 {
        return in_blocks(SPELLING_VOWELS, c);
    }
    if 0x1ef9 < c {
        return false;
    }
    c % 2 == 1
}
