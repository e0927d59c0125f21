// A key (bamboo.rs: process_key): its step with the refusals in their order, and the text.
//
// `compose` owns the composition: one copy in and one out. It has one way through, so that no copy is made for another,
// and what a step reads is lent as a row of bases. A refusal puts the cell at hand back where it stood.
#![tactic(auto)]

ghost use Rattle.std.specs.Prelude.{◌≡◌, true, ◌<◌, ◌≤◌, eqb, length};
ghost use Rattle.p0_refusals.specs.Answers.{output};
ghost use Rattle.p3_cells.specs.Cells.{limit, is_cell, is_sound};
ghost use Rattle.p3_cells.specs.Mirror.{row_cells};
ghost use Rattle.p3_key.specs.Process.{key_outcome, keyed};
ghost use Rattle.p3_key.specs.Mirror.{sound_by, letter_for, stays, no_stroke, step_stroke, pass_stroke, stroke_of};

use p0_refusals::Refusal;
use p1_letters as letters;
use p3_cells as cells;
use p3_cells::{After, Cell, Composition, LIMIT, Mode, Settings};
use p3_step as step;
use p3_step::{Change, Step};

// A step or a refusal, with how many letters are written and the answer.
#[derive(Clone, Copy)]
pub struct Stroke {
    pub step: Step,
    pub letters: usize,
    pub answer: Result<usize, Refusal>,
}

// ---- the letters and the refusals

#[tactic(auto, unfolding(crate::specs::Mirror::letter_for))]
fn letter_for(z: Settings, key: u32, x: Cell) -> u32
    ensures { result ≡ letter_for z key x }
{
    match z.mode {
        Mode::Vietnamese => cells::shown(z.capitals, x),
        Mode::English => key,
    }
}

// No cell changes.
fn stay(n: usize, letters: usize, answer: Result<usize, Refusal>) -> Stroke
    ensures { result ≡ stays n letters answer }
{
    Stroke {
        step: Step {
            change: Change::Nothing,
            at: 0,
            also: 0,
            count: n,
        },
        letters,
        answer,
    }
}

fn refuse(r: Refusal, n: usize) -> Stroke
    ensures { result ≡ no_stroke r n }
{
    stay(n, 0, Err(r))
}

#[tactic(auto, unfolding(crate::specs::Mirror::step_stroke))]
fn step_stroke(s: Step, n: usize, room: usize) -> Stroke
    ensures { result ≡ step_stroke s n room }
{
    let count = s.count;
    if LIMIT < count {
        return refuse(Refusal::Full, n);
    }
    if room < count {
        return refuse(Refusal::Short, n);
    }
    Stroke {
        step: s,
        letters: count,
        answer: Ok(count),
    }
}

#[tactic(auto, unfolding(crate::specs::Mirror::pass_stroke))]
fn pass_stroke(n: usize, room: usize) -> Stroke
    ensures { result ≡ pass_stroke n room }
{
    if room < 1 {
        return refuse(Refusal::Short, n);
    }
    stay(n, 1, Ok(1))
}

// What the key does. The places lie in the array, and the letters fit into it and into the output.
fn stroke_of(sound: bool, z: Settings, row: &[u32], key: u32, n: usize, room: usize) -> Stroke
    ensures { (result ≡ stroke_of sound z (row_cells row.now) key n room) × (result.step.at < limit)
        × (result.step.also < limit) × (result.letters ≤ limit) × (result.letters ≤ room) }
{
    if !sound {
        return refuse(Refusal::Unsound, n);
    }
    if !letters::in_alphabet(key) {
        return refuse(Refusal::Foreign, n);
    }
    match z.mode {
        Mode::Vietnamese => {
            let s = step::first_step(z, row, letters::ascii_lower(key));
            step_stroke(s, n, room)
        }
        Mode::English => pass_stroke(n, room),
    }
}

// ---- soundness, without a way out of a loop: 0 for a cell in use that is as soundness asks. Most are ASCII letters alone.
#[tactic(auto, using(crate::proofs::Faults::plain_fault))]
fn fault(x: Cell) -> u64
    ensures { (eqb result 0 ≡ is_cell x) × (result ≤ 1) }
{
    // returned at once, which LLVM makes one test of the cell's number; with one place for both zeros the loop has one jump back
    if (x.base < 128 && x.mark == 0 && x.tone == 0) || cells::is_cell(x) {
        return 0;
    }
    1
}

#[tactic(auto, unfolding(crate::specs::Mirror::sound_by))]
fn is_sound(trusted: bool, n: usize, faults: u64) -> bool
    ensures { result ≡ sound_by trusted n faults }
{
    trusted || (n <= LIMIT && faults == 0)
}

// The owner. Its three loops stand here because a function that is handed the composition copies it: the sum of all cells as
// numbers, the row with the test of the cells in use, and the text. What the cells in use have of the sum is taken off, and 0 is
// left where the others are blank: a loop over these alone has no known number of turns. Where it is trusted the tests are
// compiled away.
fn compose<const TRUSTED: bool>(mut c: Composition, key: u32, out: &mut [u32]) -> After
    requires { TRUSTED ≡ true → is_sound c ≡ true }
    ensures { (result ≡ keyed c key (length out.old)) × (out.new ≡ output (key_outcome c key) out.old) }
{
    let n = c.count;
    let used = n.min(LIMIT);
    let mut left: u64 = 0;
    for cell in &c.cells {
        left += cells::packed(*cell);
    }
    let mut bases = [0; LIMIT];
    let mut faults: u64 = 0;
    for (i, cell) in c.cells[..used].iter().enumerate() {
        let x = *cell;
        bases[i] = x.base;
        faults += fault(x);
        left -= cells::packed(x);
    }
    let sound = is_sound(TRUSTED, n, faults + left);
    let e = stroke_of(sound, c.settings, &bases[..used], key, n, out.len());
    let Step {
        change,
        at,
        also,
        count,
    } = e.step;
    let y = c.cells[also];
    let p = step::put_cell(change, c.cells[at], y, key, letters::ascii_lower(key));
    c.cells[also] = step::also_cell(change, c.settings.capitals, y);
    c.cells[at] = p;
    c.count = count;
    // read where they lie, which costs less than to keep them over the step
    let z = c.settings;
    for (j, cell) in c.cells[..e.letters].iter().enumerate() {
        out[j] = letter_for(z, key, *cell);
    }
    After {
        comp: c,
        answer: e.answer,
    }
}

pub fn process_key(c: Composition, key: u32, out: &mut [u32]) -> After
    ensures { (result ≡ keyed c key (length out.old)) × (out.new ≡ output (key_outcome c key) out.old) }
{
    compose::<false>(c, key, out)
}

// The same without the test of soundness, for a caller that knows it: a loop over keys of our own.
pub fn process_sound_key(c: Composition, key: u32, out: &mut [u32]) -> After
    requires { is_sound c ≡ true }
    ensures { (result ≡ keyed c key (length out.old)) × (out.new ≡ output (key_outcome c key) out.old) }
{
    compose::<true>(c, key, out)
}
