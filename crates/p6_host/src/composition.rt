// A composition, in bytes of the host (port order 3); docs/BYTES.md states their order.
ghost use Rattle.std.specs.Fn.{FnReturnsAt};
ghost use Rattle.std.specs.Prelude.{◌≡◌, true, false, length};
ghost use Rattle.p0_refusals.specs.Answers.{refusal_of};
ghost use Rattle.p3_calls.specs.Output.{text_outcome, removal_outcome};
ghost use Rattle.p3_key.specs.Process.{key_outcome};
ghost use Rattle.p6_bytes.specs.Bytes.{size, method_byte, mode_byte, flag_byte, composition_of, bytes_sound};
ghost use Rattle.p6_composition.specs.Calls.{answer_on, bytes_on, out_on, key_on, reset_on, literal_on, removal_on, undo_on, method_on, mode_on};
ghost use Rattle.p6_composition.specs.Calls.{capitals_on, text_on, new_on, new_bytes};
ghost use Rattle.p6_host.specs.Counts.{count_out, behaviour_out};
ghost use Rattle.p6_host.specs.CompositionCalls.{sound_code, sound_out};

use crate::answers::{tell, tell_behaviour};
use p0_refusals::{Refusal, refusal_of};
use p6_bytes::SIZE;

// How many bytes a composition takes: this is returned, and nothing is refused.
#[unsafe(no_mangle)]
pub extern "C" fn pasdrongel_composition_bytes() -> usize
    ensures { result ≡ size }
{
    p6_bytes::SIZE
}

#[unsafe(no_mangle)]
pub extern "C" fn pasdrongel_new(state: &mut [u8], method: u32) -> u32
    ensures value { result ≡ refusal_of (new_on state.old method) }
    ensures state_after { state.new ≡ new_bytes state.old method }
{
    let given = p6_composition::new(state, method);
    refusal_of(given)
}

#[unsafe(no_mangle)]
#[tactic(auto, unfolding(crate::specs::CompositionCalls::sound_code))]
pub extern "C" fn pasdrongel_check_composition(state: &[u8]) -> u32
    ensures { result ≡ sound_code state.now }
{
    if p6_bytes::bytes_ok(state) {
        return 0;
    }
    u32::from(Refusal::Unsound)
}

// Writes what a composition is asked, unless the bytes spell none.
#[tactic(auto, unfolding(crate::specs::CompositionCalls::sound_code))]
fn ask<T: Copy, F: Fn(&[u8; SIZE]) -> T>(state: &[u8], question: F, place: &mut T) -> u32
    requires { F.IsAlwaysCallable question }
    ensures code { result ≡ sound_code state.now }
    ensures unsound { bytes_sound state.now ≡ false → place.new ≡ place.old }
    ensures sound { bytes_sound state.now ≡ true → FnReturnsAt F.Fn question state.now place.new }
{
    let Some(composition) = p6_bytes::checked(state) else {
        return u32::from(Refusal::Unsound);
    };
    *place = question(composition);
    0
}

#[unsafe(no_mangle)]
pub extern "C" fn pasdrongel_method(state: &[u8], method: &mut u32) -> u32
    ensures { (result ≡ sound_code state.now)
        × (method.new ≡ sound_out state.now (method_byte (composition_of state.now).settings.method)
        method.old) }
{
    ask(state, p6_bytes::method_number, method)
}

#[unsafe(no_mangle)]
pub extern "C" fn pasdrongel_mode(state: &[u8], mode: &mut u32) -> u32
    ensures { (result ≡ sound_code state.now)
        × (mode.new ≡ sound_out state.now (mode_byte (composition_of state.now).settings.mode)
        mode.old) }
{
    ask(state, p6_bytes::mode_number, mode)
}

#[unsafe(no_mangle)]
pub extern "C" fn pasdrongel_capitals(state: &[u8], on: &mut u32) -> u32
    ensures { (result ≡ sound_code state.now)
        × (on.new ≡ sound_out state.now (flag_byte (composition_of state.now).settings.capitals)
        on.old) }
{
    ask(state, p6_bytes::capitals_number, on)
}

#[unsafe(no_mangle)]
pub extern "C" fn pasdrongel_count(state: &[u8], count: &mut usize) -> u32
    ensures { (result ≡ sound_code state.now)
        × (count.new ≡ sound_out state.now (composition_of state.now).count count.old) }
{
    ask(state, p6_bytes::cell_count, count)
}

#[unsafe(no_mangle)]
pub extern "C" fn pasdrongel_key(
    state: &mut [u8],
    key: u32,
    text: &mut [u32],
    count: &mut usize,
) -> u32
    ensures value { result ≡ refusal_of (answer_on state.old (key_on state.old key text.old)) }
    ensures state_after { state.new ≡ bytes_on state.old (key_on state.old key text.old) }
    ensures text_after { text.new ≡ out_on state.old (key_outcome (composition_of state.old) key)
        text.old }
    ensures count_after { count.new ≡ count_out (answer_on state.old (key_on state.old key text.old))
        count.old }
{
    let given = p6_composition::process_key(state, key, text);
    tell(given, count)
}

#[unsafe(no_mangle)]
pub extern "C" fn pasdrongel_text(state: &[u8], text: &mut [u32], count: &mut usize) -> u32
    ensures value { result ≡ refusal_of (text_on state.now (length text.old)) }
    ensures text_after { text.new ≡ out_on state.now (text_outcome (composition_of state.now))
        text.old }
    ensures count_after { count.new ≡ count_out (text_on state.now (length text.old)) count.old }
{
    let given = p6_composition::get_output(state, text);
    tell(given, count)
}

#[unsafe(no_mangle)]
pub extern "C" fn pasdrongel_literal(state: &mut [u8], letter: u32) -> u32
    ensures value { result ≡ refusal_of (answer_on state.old (literal_on state.old letter)) }
    ensures state_after { state.new ≡ bytes_on state.old (literal_on state.old letter) }
{
    let given = p6_composition::append_literal(state, letter);
    refusal_of(given)
}

#[unsafe(no_mangle)]
pub extern "C" fn pasdrongel_remove_last(
    state: &mut [u8],
    text: &mut [u32],
    count: &mut usize,
) -> u32
    ensures value { result ≡ refusal_of (answer_on state.old (removal_on state.old text.old)) }
    ensures state_after { state.new ≡ bytes_on state.old (removal_on state.old text.old) }
    ensures text_after { text.new ≡ out_on state.old (removal_outcome (composition_of state.old))
        text.old }
    ensures count_after { count.new ≡ count_out (answer_on state.old (removal_on state.old text.old))
        count.old }
{
    let given = p6_composition::pop_last(state, text);
    tell(given, count)
}

#[unsafe(no_mangle)]
pub extern "C" fn pasdrongel_undo(
    state: &mut [u8],
    trigger: u32,
    raw: &[u32],
    behaviour: &mut u32,
) -> u32
    ensures value { result ≡ refusal_of (answer_on state.old (undo_on state.old trigger raw.now)) }
    ensures state_after { state.new ≡ bytes_on state.old (undo_on state.old trigger raw.now) }
    ensures behaviour_after { behaviour.new ≡ behaviour_out
        (answer_on state.old (undo_on state.old trigger raw.now)) behaviour.old }
{
    let given = p6_composition::undo_telex_transform(state, trigger, raw);
    tell_behaviour(given, behaviour)
}

#[unsafe(no_mangle)]
pub extern "C" fn pasdrongel_reset(state: &mut [u8]) -> u32
    ensures value { result ≡ refusal_of (answer_on state.old (reset_on state.old)) }
    ensures state_after { state.new ≡ bytes_on state.old (reset_on state.old) }
{
    let given = p6_composition::reset(state);
    refusal_of(given)
}

#[unsafe(no_mangle)]
pub extern "C" fn pasdrongel_set_method(state: &mut [u8], method: u32) -> u32
    ensures value { result ≡ refusal_of (answer_on state.old (method_on state.old method)) }
    ensures state_after { state.new ≡ bytes_on state.old (method_on state.old method) }
{
    let given = p6_composition::set_method(state, method);
    refusal_of(given)
}

#[unsafe(no_mangle)]
pub extern "C" fn pasdrongel_set_mode(state: &mut [u8], mode: u32) -> u32
    ensures value { result ≡ refusal_of (answer_on state.old (mode_on state.old mode)) }
    ensures state_after { state.new ≡ bytes_on state.old (mode_on state.old mode) }
{
    let given = p6_composition::set_mode(state, mode);
    refusal_of(given)
}

#[unsafe(no_mangle)]
pub extern "C" fn pasdrongel_set_capitals(state: &mut [u8], on: u32) -> u32
    ensures value { result ≡ refusal_of (answer_on state.old (capitals_on state.old on)) }
    ensures state_after { state.new ≡ bytes_on state.old (capitals_on state.old on) }
{
    let given = p6_composition::set_capitals(state, on);
    refusal_of(given)
}
