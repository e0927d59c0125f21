// The loop of p7_bench over the inner key, which requires soundness and does not test it; alone in its library, so that the
// inner key has one caller there.
#![tactic(auto)]

ghost use Rattle.std.specs.Prelude.{◌≡◌};
ghost use Rattle.p7_bench.specs.Run.{after_keys};
ghost use Rattle.p7_bench.specs.Typing.{type_key, fresh};

use p2_input_method::InputMethod;
use p3_calls as calls;
use p3_key as key;
use p7_bench::keys::refusals;

// As p7_bench::keys, whose loop asks no soundness of the composition at hand: a shared one would carry it in its contract for both.
// Answers how many keys were refused; the text is what the last other one wrote.
#[unsafe(no_mangle)]
#[tactic(auto, using(p7_bench::proofs::Typing::typing, crate::proofs::Sound::fresh_sound, crate::proofs::Sound::typed_sound))]
pub extern "C" fn pasdrongel_bench_sound_keys(keys: &[u32], text: &mut [u32]) -> usize
    ensures value { result ≡ (after_keys type_key (fresh text.old) keys.now).refused }
    ensures text_after { text.new ≡ (after_keys type_key (fresh text.old) keys.now).text }
{
    let mut c = calls::new(InputMethod::Telex);
    let mut refused: usize = 0;
    for k in keys {
        if *k == 0x0a {
            c = calls::new(InputMethod::Telex);
        } else {
            let typed = key::process_sound_key(c, *k, text);
            refused += refusals(typed.answer);
            c = typed.comp;
        }
    }
    refused
}
