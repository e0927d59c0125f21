// Letters of the alphabet written as UTF-8 (document 01, port order 5).
ghost use Rattle.std.specs.Prelude.{◌≡◌, true, ◌≤◌, length};
ghost use Rattle.p1_letters.specs.Alphabet.{all_letters};
ghost use Rattle.p0_refusals.specs.Answers.{answer, onto, output};
ghost use Rattle.p0_refusals.specs.Mirror.{counted};
ghost use Rattle.p5_utf8.specs.Rfc3629.{encode_all};
ghost use Rattle.p5_utf8_text.specs.Write.{writing};

use p0_refusals::{LETTERS, Refusal};
use p1_letters as letters;
use p5_utf8 as utf8;

// The most bytes of a letter; `letter_bytes` says the same.
pub const WIDTH: usize = 3;

// How many bytes the letters have, or why they are refused.
#[tactic(auto, using(crate::proofs::Measuring::ways))]
fn measure(word: &[u32]) -> Result<usize, Refusal>
    ensures { result ≡ counted (writing word.now) }
{
    if LETTERS < word.len() {
        return Err(Refusal::Long);
    }
    let mut n = 0;
    for x in word {
        if !letters::in_alphabet(*x) {
            return Err(Refusal::Foreign);
        }
        n += utf8::width(*x);
    }
    Ok(n)
}

// Writes the letters' bytes from the start of `out`.
#[tactic(auto, using(crate::proofs::Laying::ways))]
fn lay(word: &[u32], out: &mut [u8])
    requires { (all_letters word.now ≡ true) × (length (encode_all word.now) ≤ length out.old) }
    ensures { out.new ≡ onto (encode_all word.now) out.old }
{
    let mut j = 0;
    for x in word {
        j = utf8::put(out, j, *x);
    }
}

// Writes at most LETTERS letters as UTF-8, from the start of `out`. Refusals: 6, then 1, last 3; `out` then stays as it was.
#[tactic(auto, using(crate::proofs::Writing::ways))]
pub fn write(word: &[u32], out: &mut [u8]) -> Result<usize, Refusal>
    ensures value { result ≡ answer (writing word.now) (length out.old) }
    ensures out_after { out.new ≡ output (writing word.now) out.old }
{
    let n = measure(word)?;
    if out.len() < n {
        return Err(Refusal::Short);
    }
    lay(word, out);
    Ok(n)
}
