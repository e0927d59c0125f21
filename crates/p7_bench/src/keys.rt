// A note typed under Telex, key by key.
ghost use Rattle.std.specs.Prelude.{◌≡◌, ◌≤◌};
ghost use Rattle.p7_bench.specs.Run.{after_keys};
ghost use Rattle.p7_bench.specs.Typing.{refusals_of, type_key, fresh};

use p0_refusals::Refusal;
use p2_input_method::InputMethod;
use p3_calls as calls;
use p3_key as key;

// 1 for a key that is refused, else 0.
pub fn refusals(given: Result<usize, Refusal>) -> usize
    ensures { (result ≡ refusals_of given) × (result ≤ 1) }
{
    usize::from(given.is_err())
}

// Answers how many keys were refused; the text is what the last other one wrote.
#[unsafe(no_mangle)]
#[tactic(auto, using(crate::proofs::Typing::typing))]
pub extern "C" fn pasdrongel_bench_keys(keys: &[u32], text: &mut [u32]) -> usize
    ensures value { result ≡ (after_keys type_key (fresh text.old) keys.now).refused }
    ensures text_after { text.new ≡ (after_keys type_key (fresh text.old) keys.now).text }
{
    let mut c = calls::new(InputMethod::Telex);
    let mut refused: usize = 0;
    for k in keys {
        if *k == 0x0a {
            c = calls::new(InputMethod::Telex);
        } else {
            let typed = key::process_key(c, *k, text);
            refused += refusals(typed.answer);
            c = typed.comp;
        }
    }
    refused
}
