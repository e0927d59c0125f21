// The loops of p7_bench for C: each export calls the library's function of its name, and promises what that promises.
#![tactic(auto)]

ghost use Rattle.std.specs.Prelude.{◌≡◌, length};
ghost use Rattle.p7_bench.specs.Run.{after_keys};
ghost use Rattle.p7_bench.specs.Floor.{lay, blank_sheet};
ghost use Rattle.p7_bench.specs.Typing.{type_key, fresh};

// Answers how many letters are in the row at the end.
#[unsafe(no_mangle)]
pub extern "C" fn pasdrongel_bench_floor(keys: &[u32], text: &mut [u32]) -> usize
    ensures value { result ≡ length (after_keys lay (blank_sheet text.old) keys.now).row }
    ensures text_after { text.new ≡ (after_keys lay (blank_sheet text.old) keys.now).text }
{
    p7_bench::floor::pasdrongel_bench_floor(keys, text)
}

// Answers how many keys were refused; the text is what the last other one wrote.
#[unsafe(no_mangle)]
pub extern "C" fn pasdrongel_bench_keys(keys: &[u32], text: &mut [u32]) -> usize
    ensures value { result ≡ (after_keys type_key (fresh text.old) keys.now).refused }
    ensures text_after { text.new ≡ (after_keys type_key (fresh text.old) keys.now).text }
{
    p7_bench::keys::pasdrongel_bench_keys(keys, text)
}
