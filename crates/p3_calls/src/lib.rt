// The calls on a composition beside the key and undo (bamboo.rs), by value. Each takes any composition and refuses one that
// is not sound; after a refusal the composition and the output are what they were.
#![tactic(auto)]

ghost use Rattle.std.specs.Prelude.{◌≡◌, [], length};
ghost use Rattle.p0_refusals.specs.Answers.{answer, output};
ghost use Rattle.p3_cells.specs.Cells.{composed};
ghost use Rattle.p3_cells.specs.Leaving.{refusing};
ghost use Rattle.p3_calls.specs.Settings.{created, reset_to, method_set, enabled_set, capitals_set};
ghost use Rattle.p3_calls.specs.Literal.{literal};
ghost use Rattle.p3_calls.specs.Output.{text_outcome, removal_outcome, removed};

use p0_refusals::Refusal;
use p1_letters as letters;
use p2_input_method::InputMethod;
use p3_cells as cells;
use p3_cells::{After, Composition, LIMIT, Mode, Settings};

fn refuse(c: Composition, why: Refusal) -> After
    ensures { result ≡ refusing c why }
{
    After {
        comp: c,
        answer: Err(why),
    }
}

// A call that writes nothing is done.
fn done(c: Composition) -> After
    ensures { result ≡ record { comp = c; answer = Ok 0 } }
{
    After {
        comp: c,
        answer: Ok(0),
    }
}

#[tactic(auto, unfolding(p3_cells::specs::Cells::composed))]
pub fn empty(settings: Settings) -> Composition
    ensures { result ≡ composed settings [] }
{
    Composition {
        cells: [cells::blank(); LIMIT],
        settings,
        count: 0,
    }
}

#[tactic(auto, unfolding(crate::specs::Settings::created))]
pub fn new(method: InputMethod) -> Composition
    ensures { result ≡ created method }
{
    empty(Settings {
        method,
        mode: Mode::Vietnamese,
        capitals: false,
    })
}

#[tactic(auto, using(crate::proofs::Settings::settles), unfolding(crate::specs::Settings::reset_to))]
pub fn reset(c: Composition) -> After
    ensures { result ≡ reset_to c }
{
    if !cells::sound(c) {
        return refuse(c, Refusal::Unsound);
    }
    done(empty(c.settings))
}

#[tactic(auto, using(crate::proofs::Settings::settles), unfolding(crate::specs::Settings::method_set))]
pub fn set_method(c: Composition, method: InputMethod) -> After
    ensures { result ≡ method_set c method }
{
    if !cells::sound(c) {
        return refuse(c, Refusal::Unsound);
    }
    done(empty(Settings {
        method,
        ..c.settings
    }))
}

// Vietnamese where enabled, else English.
#[tactic(auto, using(crate::proofs::Settings::settles), unfolding(crate::specs::Settings::enabled_set))]
pub fn set_enabled(mut c: Composition, enabled: bool) -> After
    ensures { result ≡ enabled_set c enabled }
{
    if !cells::sound(c) {
        return refuse(c, Refusal::Unsound);
    }
    if !enabled {
        return done(empty(Settings {
            mode: Mode::English,
            ..c.settings
        }));
    }
    c.settings.mode = Mode::Vietnamese;
    done(c)
}

// Whether a flagged cell shows the capital of its letter, mark and tone included.
#[tactic(auto, using(crate::proofs::Settings::settles), unfolding(crate::specs::Settings::capitals_set))]
pub fn set_capitals(mut c: Composition, on: bool) -> After
    ensures { result ≡ capitals_set c on }
{
    if !cells::sound(c) {
        return refuse(c, Refusal::Unsound);
    }
    c.settings.capitals = on;
    done(c)
}

#[tactic(auto, using(crate::proofs::Literal::appends), unfolding(crate::specs::Literal::literal))]
pub fn append_literal(mut c: Composition, ch: u32) -> After
    ensures { result ≡ literal c ch }
{
    if !cells::sound(c) {
        return refuse(c, Refusal::Unsound);
    }
    if !letters::in_alphabet(ch) {
        return refuse(c, Refusal::Foreign);
    }
    if LIMIT <= c.count {
        return refuse(c, Refusal::Full);
    }
    c.cells[c.count] = cells::typed(ch);
    c.count += 1;
    done(c)
}

#[tactic(auto, using(crate::proofs::Output::sound_fits, crate::proofs::Output::texts))]
pub fn get_output(c: Composition, out: &mut [u32]) -> Result<usize, Refusal>
    ensures { (result ≡ answer (text_outcome c) (length out.old))
        × (out.new ≡ output (text_outcome c) out.old) }
{
    if !cells::sound(c) {
        return Err(Refusal::Unsound);
    }
    if out.len() < c.count {
        return Err(Refusal::Short);
    }
    Ok(cells::flatten(c, out))
}

#[tactic(auto, using(crate::proofs::Output::removal_fits, crate::proofs::Output::removal))]
pub fn pop_last(mut c: Composition, out: &mut [u32]) -> After
    ensures { (result ≡ removed c (length out.old)) × (out.new ≡ output (removal_outcome c) out.old) }
{
    if !cells::sound(c) {
        return refuse(c, Refusal::Unsound);
    }
    if c.count == 0 {
        return refuse(c, Refusal::Empty);
    }
    let left = c.count - 1;
    if out.len() < left {
        return refuse(c, Refusal::Short);
    }
    c.cells[left] = cells::blank();
    c.count = left;
    After {
        comp: c,
        answer: Ok(cells::flatten(c, out)),
    }
}
