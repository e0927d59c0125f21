// The letters (port order 1).
ghost use Rattle.std.specs.Prelude.{◌≡◌};
ghost use Rattle.p1_letters.specs.Alphabet.{is_capital, is_white_space, is_separator, lower, upper};
ghost use Rattle.p1_letters.specs.Tones.{tone_on, tone_off};
ghost use Rattle.p1_letters.specs.Vowels.{is_vowel, is_spelling_vowel};
ghost use Rattle.p6_host.specs.LetterCalls.{letter_code, letter_out, tone_code, tone_out, flag_of};

use p0_refusals::Refusal;

#[unsafe(no_mangle)]
#[tactic(auto, unfolding(crate::specs::LetterCalls::letter_code))]
pub extern "C" fn pasdrongel_check_letter(letter: u32) -> u32
    ensures { result ≡ letter_code letter }
{
    if p1_letters::in_alphabet(letter) {
        return 0;
    }
    u32::from(Refusal::Foreign)
}

// Writes an answer about a letter, unless the letter is foreign.
#[tactic(auto, unfolding(crate::specs::LetterCalls::letter_code, crate::specs::LetterCalls::letter_out))]
pub fn give(letter: u32, answer: u32, place: &mut u32) -> u32
    ensures { (result ≡ letter_code letter) × (place.new ≡ letter_out letter answer place.old) }
{
    if p1_letters::in_alphabet(letter) {
        *place = answer;
        return 0;
    }
    u32::from(Refusal::Foreign)
}

#[unsafe(no_mangle)]
pub extern "C" fn pasdrongel_lower(letter: u32, small: &mut u32) -> u32
    ensures { (result ≡ letter_code letter) × (small.new ≡ letter_out letter (lower letter) small.old) }
{
    give(letter, p1_letters::lower(letter), small)
}

#[unsafe(no_mangle)]
pub extern "C" fn pasdrongel_upper(letter: u32, capital: &mut u32) -> u32
    ensures { (result ≡ letter_code letter) × (capital.new ≡ letter_out letter (upper letter) capital.old) }
{
    give(letter, p1_letters::upper(letter), capital)
}

#[unsafe(no_mangle)]
pub extern "C" fn pasdrongel_is_capital(letter: u32, yes: &mut u32) -> u32
    ensures { (result ≡ letter_code letter) × (yes.new ≡ letter_out letter (flag_of (is_capital letter)) yes.old) }
{
    give(letter, u32::from(p1_letters::is_capital(letter)), yes)
}

#[unsafe(no_mangle)]
pub extern "C" fn pasdrongel_is_white_space(letter: u32, yes: &mut u32) -> u32
    ensures { (result ≡ letter_code letter) × (yes.new ≡ letter_out letter (flag_of (is_white_space letter)) yes.old) }
{
    give(letter, u32::from(p1_letters::is_white_space(letter)), yes)
}

#[unsafe(no_mangle)]
pub extern "C" fn pasdrongel_is_separator(letter: u32, yes: &mut u32) -> u32
    ensures { (result ≡ letter_code letter) × (yes.new ≡ letter_out letter (flag_of (is_separator letter)) yes.old) }
{
    give(letter, u32::from(p1_letters::is_separator(letter)), yes)
}

#[unsafe(no_mangle)]
#[tactic(auto, unfolding(crate::specs::LetterCalls::letter_code, crate::specs::LetterCalls::letter_out, crate::specs::LetterCalls::tone_code, crate::specs::LetterCalls::tone_out))]
pub extern "C" fn pasdrongel_tone_on(letter: u32, tone: u32, toned: &mut u32) -> u32
    ensures { (result ≡ tone_code letter tone) × (toned.new ≡ tone_out letter tone (tone_on letter tone) toned.old) }
{
    if p1_letters::in_alphabet(letter) {
        return give(tone, p1_letters::apply_tone_to_char(letter, tone), toned);
    }
    u32::from(Refusal::Foreign)
}

#[unsafe(no_mangle)]
pub extern "C" fn pasdrongel_tone_off(letter: u32, plain: &mut u32) -> u32
    ensures { (result ≡ letter_code letter) × (plain.new ≡ letter_out letter (tone_off letter) plain.old) }
{
    give(letter, p1_letters::strip_tone(letter), plain)
}

#[unsafe(no_mangle)]
pub extern "C" fn pasdrongel_is_composer_vowel(letter: u32, yes: &mut u32) -> u32
    ensures { (result ≡ letter_code letter) × (yes.new ≡ letter_out letter (flag_of (is_vowel letter)) yes.old) }
{
    give(letter, u32::from(p1_letters::is_vowel(letter)), yes)
}

#[unsafe(no_mangle)]
pub extern "C" fn pasdrongel_is_speller_vowel(letter: u32, yes: &mut u32) -> u32
    ensures { (result ≡ letter_code letter) × (yes.new ≡ letter_out letter (flag_of (is_spelling_vowel letter)) yes.old) }
{
    give(
        letter,
        u32::from(p1_letters::is_spelling_vowel(letter)),
        yes,
    )
}
