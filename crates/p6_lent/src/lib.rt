// For a host in Rattle: it lends one composition and finds it altered there. Each call takes the composition whole, hands
// it to the call by value, stores what comes back, and answers as that call does.
#![tactic(auto)]

ghost use Rattle.std.specs.Prelude.{◌≡◌, length};
ghost use Rattle.p0_refusals.specs.Answers.{output};
ghost use Rattle.p3_calls.specs.Output.{removal_outcome, removed};
ghost use Rattle.p3_calls.specs.Settings.{reset_to};
ghost use Rattle.p3_key.specs.Process.{key_outcome, keyed};
ghost use Rattle.p3_undo.specs.Call.{undo_telex};

use p0_refusals::Refusal;
use p3_cells::Composition;
use p3_undo::TelexUndo;

pub fn process_key(c: &mut Composition, key: u32, out: &mut [u32]) -> Result<usize, Refusal>
    ensures { (c.new ≡ (keyed c.old key (length out.old)).comp)
        × (result ≡ (keyed c.old key (length out.old)).answer)
        × (out.new ≡ output (key_outcome c.old key) out.old) }
{
    let k = p3_key::process_key(*c, key, out);
    *c = k.comp;
    k.answer
}

pub fn reset(c: &mut Composition) -> Result<usize, Refusal>
    ensures { (c.new ≡ (reset_to c.old).comp) × (result ≡ (reset_to c.old).answer) }
{
    let k = p3_calls::reset(*c);
    *c = k.comp;
    k.answer
}

pub fn pop_last(c: &mut Composition, out: &mut [u32]) -> Result<usize, Refusal>
    ensures { (c.new ≡ (removed c.old (length out.old)).comp)
        × (result ≡ (removed c.old (length out.old)).answer)
        × (out.new ≡ output (removal_outcome c.old) out.old) }
{
    let k = p3_calls::pop_last(*c, out);
    *c = k.comp;
    k.answer
}

pub fn undo_telex_transform(
    c: &mut Composition,
    trigger: u32,
    raw: &[u32],
) -> Result<TelexUndo, Refusal>
    ensures { (c.new ≡ (undo_telex c.old trigger raw.now).comp)
        × (result ≡ (undo_telex c.old trigger raw.now).answer) }
{
    let k = p3_undo::undo_telex_transform(*c, trigger, raw);
    *c = k.comp;
    k.answer
}
