// UTF-8 by RFC 3629, for all of Unicode: the character at a place of bytes, and the bytes of a code point. The reader and
// the writer over document 01's alphabet are p5_utf8_text.
#![tactic(auto)]

ghost use Rattle.std.specs.Prelude.{◌≡◌, true, [], ◌∷◌, ◌++◌, ◌+◌, ◌≤◌, ◌<◌, get_or, length, take, drop};
ghost use Rattle.p5_utf8.specs.Rfc3629.{is_scalar, encode, bits2, bits3, utf8_2, utf8_3, utf8_4, begins, character, char_of, char_at};

// A character that stands at a place of bytes: a Unicode scalar value, and the number of its bytes.
#[derive(Clone, Copy, Debug, PartialEq, Eq)]
pub struct Char {
    pub scalar: u32,
    pub width: usize,
}

// UTF8-2.
#[tactic(auto, unfolding(crate::specs::Rfc3629::tail, crate::specs::Rfc3629::utf8_2, crate::specs::Rfc3629::begins, crate::specs::Rfc3629::along))]
fn is_two(a: u8, b: u8) -> bool
    ensures { result ≡ begins utf8_2 (a ∷ b ∷ []) }
{
    matches!((a, b), (0xc2..=0xdf, 0x80..=0xbf))
}

// UTF8-3: after E0 the second byte excludes overlong forms, after ED the surrogates.
#[tactic(auto, unfolding(crate::specs::Rfc3629::tail, crate::specs::Rfc3629::utf8_3, crate::specs::Rfc3629::begins, crate::specs::Rfc3629::along))]
fn is_three(a: u8, b: u8, c: u8) -> bool
    ensures { result ≡ begins utf8_3 (a ∷ b ∷ c ∷ []) }
{
    matches!(
        (a, b, c),
        (0xe0, 0xa0..=0xbf, 0x80..=0xbf)
            | (0xe1..=0xec, 0x80..=0xbf, 0x80..=0xbf)
            | (0xed, 0x80..=0x9f, 0x80..=0xbf)
            | (0xee..=0xef, 0x80..=0xbf, 0x80..=0xbf)
    )
}

// UTF8-4: after F0 the second byte excludes overlong forms, after F4 what lies past U+10FFFF.
#[tactic(auto, unfolding(crate::specs::Rfc3629::tail, crate::specs::Rfc3629::utf8_4, crate::specs::Rfc3629::begins, crate::specs::Rfc3629::along))]
fn is_four(a: u8, b: u8, c: u8, d: u8) -> bool
    ensures { result ≡ begins utf8_4 (a ∷ b ∷ c ∷ d ∷ []) }
{
    matches!(
        (a, b, c, d),
        (0xf0, 0x90..=0xbf, 0x80..=0xbf, 0x80..=0xbf)
            | (0xf1..=0xf3, 0x80..=0xbf, 0x80..=0xbf, 0x80..=0xbf)
            | (0xf4, 0x80..=0x8f, 0x80..=0xbf, 0x80..=0xbf)
    )
}

// The code point of two bytes.
#[tactic(auto, unfolding(crate::specs::Rfc3629::bits2))]
pub fn bits2(a: u8, b: u8) -> u32
    ensures { result ≡ bits2 (a ∷ b ∷ []) }
{
    u32::from(a) % 32 * 64 + u32::from(b) % 64
}

// The code point of three bytes.
#[tactic(auto, unfolding(crate::specs::Rfc3629::bits3))]
pub fn bits3(a: u8, b: u8, c: u8) -> u32
    ensures { result ≡ bits3 (a ∷ b ∷ c ∷ []) }
{
    u32::from(a) % 16 * 4096 + u32::from(b) % 64 * 64 + u32::from(c) % 64
}

#[tactic(auto, using(crate::proofs::Grammar::lead_2))]
fn two(a: u8, b: u8) -> Option<Char>
    requires { (0xc2 ≤ a) × (a < 0xe0) }
    ensures { result ≡ char_of (a ∷ b ∷ []) }
{
    if !is_two(a, b) {
        return None;
    }
    Some(Char {
        scalar: bits2(a, b),
        width: 2,
    })
}

#[tactic(auto, using(crate::proofs::Grammar::lead_3))]
fn three(a: u8, b: u8, c: u8) -> Option<Char>
    requires { (0xe0 ≤ a) × (a < 0xf0) }
    ensures { result ≡ char_of (a ∷ b ∷ c ∷ []) }
{
    if !is_three(a, b, c) {
        return None;
    }
    Some(Char {
        scalar: bits3(a, b, c),
        width: 3,
    })
}

#[tactic(auto, using(crate::proofs::Grammar::lead_4), unfolding(crate::specs::Rfc3629::bits4))]
fn four(a: u8, b: u8, c: u8, d: u8) -> Option<Char>
    requires { (0xf0 ≤ a) × (a < 0xf5) }
    ensures { result ≡ char_of (a ∷ b ∷ c ∷ d ∷ []) }
{
    if !is_four(a, b, c, d) {
        return None;
    }
    let scalar = u32::from(a) % 8 * 262144
        + u32::from(b) % 64 * 4096
        + u32::from(c) % 64 * 64
        + u32::from(d) % 64;
    Some(Char { scalar, width: 4 })
}

// The byte at a place; past the end 0, which no byte after a first may be.
fn byte(s: &[u8], i: usize) -> u8
    ensures { result ≡ get_or s.now i 0 }
{
    s.get(i).copied().unwrap_or(0)
}

// The character at a place.
#[tactic(auto, using(crate::proofs::CharAt::places))]
pub fn char_at(s: &[u8], i: usize) -> Option<Char>
    ensures { result ≡ char_at s.now i }
{
    let a = *s.get(i)?;
    match a {
        0..=0x7f => Some(Char {
            scalar: u32::from(a),
            width: 1,
        }),
        0xc2..=0xdf => two(a, byte(s, i + 1)),
        0xe0..=0xef => three(a, byte(s, i + 1), byte(s, i + 2)),
        0xf0..=0xf4 => four(a, byte(s, i + 1), byte(s, i + 2), byte(s, i + 3)),
        _ => None,
    }
}

// How many bytes a code point has.
#[tactic(auto, unfolding(crate::specs::Rfc3629::encode))]
pub fn width(x: u32) -> usize
    ensures { (result ≡ length (encode x)) × (result ≤ 4) }
{
    match x {
        0..=0x7f => 1,
        0x80..=0x7ff => 2,
        0x800..=0xffff => 3,
        _ => 4,
    }
}

// Writes the bytes of a scalar value at a place, and gives the place after them. They are read back as that character: of a
// surrogate they would not be.
#[tactic(auto, using(crate::proofs::Putting::rows))]
pub fn put(out: &mut [u8], j: usize, x: u32) -> usize
    requires { (is_scalar x ≡ true) × (j + length (encode x) ≤ length out.old) }
    ensures value { result ≡ j + length (encode x) }
    ensures out_after { out.new ≡ take j out.old ++ (encode x ++ drop (j + length (encode x)) out.old) }
    ensures j_after { char_at out.new j ≡ character x (length (encode x)) }
{
    match x {
        0..=0x7f => {
            out[j] = x as u8;
            j + 1
        }
        0x80..=0x7ff => {
            out[j] = (0xc0 + x / 64) as u8;
            out[j + 1] = (0x80 + x % 64) as u8;
            j + 2
        }
        0x800..=0xffff => {
            out[j] = (0xe0 + x / 4096) as u8;
            out[j + 1] = (0x80 + x / 64 % 64) as u8;
            out[j + 2] = (0x80 + x % 64) as u8;
            j + 3
        }
        _ => {
            out[j] = (0xf0 + x / 262144) as u8;
            out[j + 1] = (0x80 + x / 4096 % 64) as u8;
            out[j + 2] = (0x80 + x / 64 % 64) as u8;
            out[j + 3] = (0x80 + x % 64) as u8;
            j + 4
        }
    }
}
