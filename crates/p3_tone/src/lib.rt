// The cell that takes a tone (bamboo.rs: last_syllable_range, find_tone_position), over a lent row of bases: on sound
// cells a letter is its base, so that one row serves vowels, separators and bases.
#![tactic(auto)]

ghost use Rattle.std.specs.Prelude.{◌≡◌, ◌<◌, ◌≤◌, ◌^◌, length, drop};
ghost use Rattle.p0_choice.specs.Choice.{pick};
ghost use Rattle.p3_cells.specs.Mirror.{row_cells};
ghost use Rattle.std.specs.Prelude.{None as nowhere, Some as at};
ghost use Rattle.p3_tone.specs.TonePlace.{any_vowel, syllable_start, vowel_places, gliding_pair, rising_pair, tone_place};
ghost use Rattle.p3_tone.specs.Mirror.{seen_of, with_first, kept_seen, chosen_seen};

use p1_letters as letters;

// What the choice asks of a syllable's vowels: how many there are, and the places of the first three and of the last two. With
// numbers alone there is no array of places on the stack.
#[derive(Clone, Copy)]
struct Seen {
    count: usize,
    first: usize,
    second: usize,
    third: usize,
    before: usize,
    last: usize,
}

// The last syllable: where it starts, and its vowels.
#[derive(Clone, Copy)]
struct Scanned {
    start: usize,
    vowels: Seen,
}

fn any_vowel(row: &[u32]) -> bool
    ensures { result ≡ any_vowel (row_cells row.now) }
{
    row.iter().any(|x| letters::is_vowel(*x))
}

// A vowel more, before the others: it is the first, and one of the last two as long as there are fewer.
fn with_first(v: Seen, i: usize) -> Seen
    requires { v.count < 2 ^ 63 }
    ensures { result ≡ with_first v i }
{
    Seen {
        count: v.count + 1,
        first: i,
        second: v.first,
        third: v.second,
        before: if v.count < 2 { i } else { v.before },
        last: if v.count < 1 { i } else { v.last },
    }
}

// One pass, from the end of the row back to a separator.
#[tactic(auto, using(crate::proofs::Syllable::starts, crate::proofs::Vowels::seen))]
fn last_syllable(row: &[u32]) -> Scanned
    ensures { (result.start ≡ syllable_start (row_cells row.now)) × (result.start ≤ length row.now)
        × (result.vowels ≡ seen_of (vowel_places result.start (drop result.start (row_cells row.now)))) }
{
    let mut vowels = Seen {
        count: 0,
        first: 0,
        second: 0,
        third: 0,
        before: 0,
        last: 0,
    };
    for i in (0..row.len()).rev() {
        if letters::is_separator(row[i]) {
            return Scanned {
                start: i + 1,
                vowels,
            };
        }
        if letters::is_vowel(row[i]) {
            vowels = with_first(vowels, i);
        }
    }
    Scanned { start: 0, vowels }
}

// q u or g i.
#[tactic(auto, using(crate::proofs::TonePlace::gliding_are), unfolding(crate::specs::TonePlace::pair_in))]
fn is_gliding_pair(x: u32, y: u32) -> bool
    ensures { result ≡ gliding_pair x y }
{
    matches!((x, y), (113, 117) | (103, 105))
}

// oa oe uy iê yê uô ươ io uâ uê uơ.
#[tactic(auto, using(crate::proofs::TonePlace::rising_are), unfolding(crate::specs::TonePlace::pair_in))]
fn is_rising_pair(x: u32, y: u32) -> bool
    ensures { result ≡ rising_pair x y }
{
    match x {
        105 => matches!(y, 111 | 0xea),
        111 => matches!(y, 97 | 101),
        117 => matches!(y, 121 | 0xe2 | 0xea | 0xf4 | 0x1a1),
        121 => y == 0xea,
        0x1b0 => y == 0x1a1,
        _ => false,
    }
}

// Without the first vowel, if it is the u of qu or the i of gi, and not the only one.
#[tactic(auto, using(crate::proofs::TonePlace::glides_by), unfolding(crate::specs::Mirror::kept_seen))]
fn kept(row: &[u32], start: usize, v: Seen) -> Seen
    requires { (start ≤ length row.now) × (v.first < length row.now) }
    ensures { result ≡ kept_seen start (drop start (row_cells row.now)) v }
{
    if 2 <= v.count
        && v.first == start + 1
        && is_gliding_pair(
            letters::ascii_lower(row[start]),
            letters::ascii_lower(row[v.first]),
        )
    {
        Seen {
            count: v.count - 1,
            first: v.second,
            second: v.third,
            ..v
        }
    } else {
        v
    }
}

#[tactic(auto, using(crate::proofs::TonePlace::rises_by), unfolding(crate::specs::Mirror::chosen_seen))]
fn chosen(row: &[u32], v: Seen) -> usize
    requires { (v.before < length row.now) × (v.last < length row.now) }
    ensures { result ≡ chosen_seen (row_cells row.now) v }
{
    if v.count == 1 {
        v.first
    } else if is_rising_pair(
        letters::ascii_lower(row[v.before]),
        letters::ascii_lower(row[v.last]),
    ) {
        v.last
    } else if v.count < 3 {
        v.first
    } else {
        v.second
    }
}

// The cell that takes the tone, where there is a vowel at all.
#[tactic(auto, using(crate::proofs::TonePlace::row_some, crate::proofs::TonePlace::places))]
pub fn find_tone_position(row: &[u32]) -> Option<usize>
    ensures { result ≡ pick (any_vowel (row_cells row.now)) (at (tone_place (row_cells row.now))) nowhere }
{
    let scanned = last_syllable(row);
    if scanned.vowels.count == 0 {
        return if any_vowel(row) {
            Some(row.len() - 1)
        } else {
            None
        };
    }
    Some(chosen(row, kept(row, scanned.start, scanned.vowels)))
}
