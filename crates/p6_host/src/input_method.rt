// The input methods (port order 2): 0 is Telex, 1 is VNI.
ghost use Rattle.std.specs.Prelude.{Bool, ◌≡◌};
ghost use Rattle.p2_input_method.specs.Rules.{is_tone_key, mark_for, is_horn_key};
ghost use Rattle.p6_bytes.specs.Bytes.{method_of};
ghost use Rattle.p6_host.specs.LetterCalls.{flag_of};
ghost use Rattle.p6_host.specs.MethodCalls.{key_code, key_out, mark_code, mark_out};

use crate::letters::give;
use p0_refusals::Refusal;
use p2_input_method::InputMethod;

// Writes what a method says of a key, unless the number is no method's or the key is foreign.
#[tactic(auto, using(crate::proofs::MethodCalls::no_key_code, crate::proofs::MethodCalls::no_key_out, crate::proofs::MethodCalls::key_code_lem, crate::proofs::MethodCalls::asked_key_out))]
fn ask_key<F: Fn(InputMethod, u32) -> bool>(
    method: u32,
    key: u32,
    question: F,
    yes: &mut u32,
) -> u32
    requires { F.IsAlwaysCallable question }
    ensures code { result ≡ key_code method key }
    ensures asked { (h : InputMethod → Bool) → ((m : InputMethod) (r : Bool) → F.post question m key r → r ≡ h m)
        → yes.new ≡ key_out method key (flag_of (h (method_of method))) yes.old }
{
    let m = match InputMethod::try_from(method) {
        Ok(m) => m,
        Err(refusal) => return u32::from(refusal),
    };
    give(key, u32::from(question(m, key)), yes)
}

#[unsafe(no_mangle)]
pub extern "C" fn pasdrongel_is_tone_key(method: u32, key: u32, yes: &mut u32) -> u32
    ensures { (result ≡ key_code method key)
        × (yes.new ≡ key_out method key (flag_of (is_tone_key (method_of method) key)) yes.old) }
{
    ask_key(method, key, p2_input_method::is_tone_key, yes)
}

#[unsafe(no_mangle)]
pub extern "C" fn pasdrongel_is_horn_key(method: u32, key: u32, yes: &mut u32) -> u32
    ensures { (result ≡ key_code method key)
        × (yes.new ≡ key_out method key (flag_of (is_horn_key (method_of method) key)) yes.old) }
{
    ask_key(method, key, p2_input_method::is_horn_key, yes)
}

#[unsafe(no_mangle)]
#[tactic(auto, using(crate::proofs::MethodCalls::no_mark_code, crate::proofs::MethodCalls::no_mark_out, crate::proofs::MethodCalls::mark_foreign, crate::proofs::MethodCalls::mark_foreign_out, crate::proofs::MethodCalls::mark_code_lem, crate::proofs::MethodCalls::mark_out_lem))]
pub extern "C" fn pasdrongel_mark_for(method: u32, base: u32, key: u32, mark: &mut u32) -> u32
    ensures { (result ≡ mark_code method base key)
        × (mark.new ≡ mark_out method base key (mark_for (method_of method) base key) mark.old) }
{
    let m = match InputMethod::try_from(method) {
        Ok(m) => m,
        Err(refusal) => return u32::from(refusal),
    };
    if p1_letters::in_alphabet(base) {
        // 0 for none, as the header has it
        let found = p2_input_method::mark_for(m, base, key);
        return give(key, u32::from(found.unwrap_or(0)), mark);
    }
    u32::from(Refusal::Foreign)
}
