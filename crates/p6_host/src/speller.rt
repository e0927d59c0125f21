// Cut and verdict (port order 4).
ghost use Rattle.std.specs.Prelude.{◌≡◌};
ghost use Rattle.p4_spelling.specs.Answers.{cut_number, verdict_number, cut_answer, verdict_answer};
ghost use Rattle.p6_host.specs.SpellerCalls.{onset_out, vowels_out, verdict_out};

use p0_refusals::Refusal;
use p4_spelling::CutPlaces;

// The numbers of a cut's refusal and places.
fn tell_cut(given: Result<CutPlaces, Refusal>, onset: &mut usize, vowels: &mut usize) -> u32
    ensures { (result ≡ cut_number given) × (onset.new ≡ onset_out given onset.old)
        × (vowels.new ≡ vowels_out given vowels.old) }
{
    match given {
        Ok(places) => {
            *onset = places.onset;
            *vowels = places.vowels;
            0
        }
        Err(refusal) => u32::from(refusal),
    }
}

fn tell_verdict(given: Result<bool, Refusal>, yes: &mut u32) -> u32
    ensures { (result ≡ verdict_number given) × (yes.new ≡ verdict_out given yes.old) }
{
    match given {
        Ok(accepted) => {
            *yes = u32::from(accepted);
            0
        }
        Err(refusal) => u32::from(refusal),
    }
}

#[unsafe(no_mangle)]
pub extern "C" fn pasdrongel_cut(word: &[u32], onset: &mut usize, vowels: &mut usize) -> u32
    ensures value { result ≡ cut_number (cut_answer word.now) }
    ensures onset_after { onset.new ≡ onset_out (cut_answer word.now) onset.old }
    ensures vowels_after { vowels.new ≡ vowels_out (cut_answer word.now) vowels.old }
{
    let given = p4_spelling::partition(word);
    tell_cut(given, onset, vowels)
}

#[unsafe(no_mangle)]
pub extern "C" fn pasdrongel_verdict(word: &[u32], yes: &mut u32) -> u32
    ensures value { result ≡ verdict_number (verdict_answer word.now) }
    ensures yes_after { yes.new ≡ verdict_out (verdict_answer word.now) yes.old }
{
    let given = p4_spelling::is_valid_vietnamese_syllable(word);
    tell_verdict(given, yes)
}
