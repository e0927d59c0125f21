// What `wordline` does with a line: the method line names a method, any other is keys for a fresh composition.
#![tactic(auto)]

ghost use Rattle.std.specs.Prelude.{◌≡◌, ◌≤◌, ◌<◌, length, take, true, [], MatchResult};
ghost use Rattle.p1_letters.specs.Alphabet.{all_letters};
ghost use Rattle.p0_refusals.specs.Answers.{writes, onto};
ghost use Rattle.p3_cells.specs.Settings.{at_first};
ghost use Rattle.p7_line.specs.Line.{digit, refused_line, text_line, keys_made, made_line, line_out};
ghost use Rattle.p7_line.specs.Mirror.{line_room};
ghost use Rattle.p7_line.specs.Method.{method_named, begun_by};

use p0_refusals::{BYTES, LETTERS, Refusal};
use p2_input_method::InputMethod;
use p3_cells::LIMIT;
use p7_slices as slices;

// So much of a line decides what it prints; `most` says the same.
pub const MOST: usize = BYTES + 1;

// The most bytes of a text that is printed; `write_room` says the same.
const TEXT: usize = p5_utf8_text::writer::WIDTH * LETTERS;

// The most that a line prints; `line_room` says the same.
pub const ROOM: usize = TEXT + 5;

const TELEX: &[u32] = &['t' as u32, 'e' as u32, 'l' as u32, 'e' as u32, 'x' as u32];

const VNI: &[u32] = &['v' as u32, 'n' as u32, 'i' as u32];

const DIGITS: &[u8; 10] = b"0123456789";

#[tactic(auto, unfolding(crate::specs::Line::digit, p0_choice::specs::Text::word))]
fn digit(n: u32) -> u8
    requires { n < 10 }
    ensures { result ≡ digit n }
{
    DIGITS[n as usize]
}

// Each of these writes from the start of what it is lent, and gives how many bytes it wrote. It is lent a slice and no array of
// ROOM bytes, since `feed` lends what is left of a longer output.

pub fn put_refused(refusal: Refusal, out: &mut [u8]) -> usize
    requires { 11 ≤ length out.old }
    ensures { (result ≡ length (refused_line refusal)) × (result ≤ line_room) × (out.new ≡ onto (refused_line refusal) out.old) }
{
    // by digits, since no clause names the bytes that a Formatter writes
    let number = u32::from(refusal);
    let next = slices::put(b"refused ", out, 0);
    if number < 10 {
        return slices::put(&[digit(number), b'\n'], out, next);
    }
    slices::put(&[digit(number / 10), digit(number % 10), b'\n'], out, next)
}

#[tactic(auto, using(crate::proofs::SameWord::namings), unfolding(crate::specs::Method::method_named, p0_choice::specs::Text::word))]
fn named(name: &[u32]) -> Result<InputMethod, Refusal>
    ensures { result ≡ method_named (writes name.now) }
{
    if name == TELEX {
        return Ok(InputMethod::Telex);
    }
    if name == VNI {
        return Ok(InputMethod::Vni);
    }
    Err(Refusal::NoMethod)
}

// The method line.
pub fn method_line(line: &[u8]) -> Result<InputMethod, Refusal>
    ensures { result ≡ begun_by line.now }
{
    let mut letters = [0; BYTES];
    let n = p5_utf8_text::reader::read(line, &mut letters)?;
    named(slices::first(&letters, n))
}

// A composed text, a tab, and its verdict; a longer one has none, and is refused.
fn text_line(text: &[u32], out: &mut [u8]) -> usize
    requires { (all_letters text.now ≡ true) × (line_room ≤ length out.old) }
    ensures { (result ≡ length (text_line text.now)) × (result ≤ line_room) × (out.new ≡ onto (text_line text.now) out.old) }
{
    if LETTERS < text.len() {
        return put_refused(Refusal::Long, out);
    }
    let next = p5_utf8_text::writer::write(text, out).unwrap();
    if p4_spelling::accepts(text) {
        return slices::put(b"\tyes\n", out, next);
    }
    slices::put(b"\tno\n", out, next)
}

// Keys on a fresh composition: how long its text is, or the refusal of the first append that finds all cells used.
fn keys_typed(m: InputMethod, keys: &[u32], text: &mut [u32; LIMIT]) -> Result<usize, Refusal>
    requires { all_letters keys.now ≡ true }
    ensures { MatchResult result
        (λ n. (all_letters (take n text.new) ≡ true)
        × (made_line (at_first m) (keys_made (at_first m) [] keys.now) ≡ text_line (take n text.new)))
        (λ r. made_line (at_first m) (keys_made (at_first m) [] keys.now) ≡ refused_line r) }
{
    let mut c = p3_calls::new(m);
    let mut count = 0;
    for key in keys {
        let after = p3_key::process_sound_key(c, *key, text);
        count = after.answer?;
        c = after.comp;
    }
    Ok(count)
}

// A line of keys: how long the text is, or why the line is refused.
fn line_typed(m: InputMethod, line: &[u8], text: &mut [u32; LIMIT]) -> Result<usize, Refusal>
    ensures { MatchResult result
        (λ n. (all_letters (take n text.new) ≡ true) × (line_out m line.now ≡ text_line (take n text.new)))
        (λ r. line_out m line.now ≡ refused_line r) }
{
    let mut letters = [0; BYTES];
    let n = p5_utf8_text::reader::read(line, &mut letters)?;
    keys_typed(m, slices::first(&letters, n), text)
}

// What a line of keys prints, with its line feed.
pub fn line_out(m: InputMethod, line: &[u8], out: &mut [u8]) -> usize
    requires { line_room ≤ length out.old }
    ensures { (result ≡ length (line_out m line.now)) × (result ≤ line_room) × (out.new ≡ onto (line_out m line.now) out.old) }
{
    let mut text = [0; LIMIT];
    match line_typed(m, line, &mut text) {
        Ok(n) => text_line(slices::first(&text, n), out),
        Err(refusal) => put_refused(refusal, out),
    }
}
