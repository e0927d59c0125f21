// Bytes read as UTF-8 over the alphabet (document 01, port order 5).
ghost use Rattle.std.specs.Prelude.{◌≡◌, ◌≤◌, length};
ghost use Rattle.p0_refusals.specs.Answers.{writes, content, answer, onto, output};
ghost use Rattle.p0_refusals.specs.Mirror.{counted};
ghost use Rattle.p5_utf8_text.specs.Read.{reading};

use p0_refusals::{BYTES, Refusal};
use p1_letters as letters;
use p5_utf8 as utf8;

// How many letters the bytes are, or why they are refused. A byte of ASCII is a letter by itself, and costs no call.
#[tactic(auto, using(crate::proofs::Surveying::ways))]
fn survey(bytes: &[u8]) -> Result<usize, Refusal>
    ensures { result ≡ counted (reading bytes.now) }
{
    if BYTES < bytes.len() {
        return Err(Refusal::Long);
    }
    let mut i = 0;
    let mut k = 0;
    // a step is a character long, and not one place
    while i < bytes.len() {
        let a = bytes[i];
        if a < 0x80 {
            i += 1;
            k += 1;
            continue;
        }
        let found = utf8::char_at(bytes, i).ok_or(Refusal::Malformed)?;
        if !letters::in_alphabet(found.scalar) {
            return Err(Refusal::Foreign);
        }
        i += found.width;
        k += 1;
    }
    Ok(k)
}

// Writes the letters from the start of `out`. The bytes are known to be letters, so the first of each says how many it has.
#[tactic(auto, using(crate::proofs::Spreading::ways))]
fn spread(bytes: &[u8], out: &mut [u32])
    requires { (reading bytes.now ≡ writes (content (reading bytes.now)))
        × (length (content (reading bytes.now)) ≤ length out.old) }
    ensures { out.new ≡ onto (content (reading bytes.now)) out.old }
{
    let mut i = 0;
    let mut k = 0;
    // a step is a character long, and not one place
    while i < bytes.len() {
        let a = bytes[i];
        if a < 0x80 {
            out[k] = u32::from(a);
            i += 1;
            k += 1;
            continue;
        }
        let b = bytes[i + 1];
        if a < 0xe0 {
            out[k] = utf8::bits2(a, b);
            i += 2;
            k += 1;
            continue;
        }
        out[k] = utf8::bits3(a, b, bytes[i + 2]);
        i += 3;
        k += 1;
    }
}

// Reads at most BYTES bytes as letters, written from the start of `out`. Refusals: 6, then 8 or 1 for the first faulty
// character, last 3; `out` then stays as it was.
#[tactic(auto, using(crate::proofs::Reading::ways))]
pub fn read(bytes: &[u8], out: &mut [u32]) -> Result<usize, Refusal>
    ensures value { result ≡ answer (reading bytes.now) (length out.old) }
    ensures out_after { out.new ≡ output (reading bytes.now) out.old }
{
    let n = survey(bytes)?;
    if out.len() < n {
        return Err(Refusal::Short);
    }
    spread(bytes, out);
    Ok(n)
}
