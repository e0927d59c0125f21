// The calls on a composition given as bytes, which they find altered there. Each tests the bytes once; then cells are read
// and stored where they lie. After a refusal not a byte has changed. A call begins with a `let .. else` and no `?`: a Result cannot say
// what it lends of a slice.
#![tactic(auto)]

ghost use Rattle.std.specs.Prelude.{ℕ, map, ◌≡◌, true, ◌++◌, ◌<◌, ◌≤◌, length, take, drop};
ghost use Rattle.p3_calls.specs.Output.{text_outcome, removal_outcome};
ghost use Rattle.p3_cells.specs.Cells.{limit, used};
ghost use Rattle.p3_cells.specs.Mirror.{first_cells, first_text, row_cells};
ghost use Rattle.p3_cells.specs.Row.{bases};
ghost use Rattle.p3_step.specs.Mirror.{step_of};
ghost use Rattle.p3_key.specs.Process.{key_outcome};
ghost use Rattle.p3_undo.specs.Raw.{raw_lowered};
ghost use Rattle.p3_undo.specs.Undo.{to_undo};
ghost use Rattle.p6_bytes.specs.Bytes.{composition_of, method_of, bytes_sound};
ghost use Rattle.p6_composition.specs.Mirror.{applied, found_on};
ghost use Rattle.p6_composition.specs.UndoAnswer.{undo_number};
ghost use Rattle.p6_composition.specs.Calls.{answer_on, bytes_on, out_on, key_on, reset_on, literal_on, removal_on, undo_on};
ghost use Rattle.p6_composition.specs.Calls.{method_on, mode_on, capitals_on, text_on, new_on, new_bytes};

use p0_refusals::{LETTERS, Refusal};
use p1_letters as letters;
use p2_input_method::InputMethod;
use p3_cells as cells;
use p3_cells::{Cell, LIMIT, Mode, Settings};
use p3_step as step;
use p3_step::{Change, Step};
use p3_undo as undo;
use p3_undo::{TelexUndo, Undoing};
use p6_bytes as bytes;
use p6_bytes::SIZE;
use p6_zeros as zeros;

// The text of the first n cells, from the start of an output that has room for it. Beside `fill` it stands on its own: a letter is read from the
// bytes by its place, and not of a Cell, and what follows the text is promised too.
fn text(b: &[u8; SIZE], n: usize, out: &mut [u32])
    requires { (n ≤ limit) × (n ≤ length out.old) }
    ensures { out.new ≡ first_text (composition_of b.now) n ++ drop n out.old }
{
    let capitals = bytes::capitals(b);
    for i in 0..n {
        out[i] = bytes::shown(b, capitals, i);
    }
}

// ---- a key

// A number of each of the first n cells, from the start of a row.
#[tactic(auto, using(crate::proofs::Filled::filled_more))]
fn fill<F: Fn(Cell) -> u32>(b: &[u8; SIZE], n: usize, number: F, row: &mut [u32])
    requires callable { F.IsAlwaysCallable number }
    requires room { (n ≤ limit) × (n ≤ length row.old) }
    ensures { (h : Cell → ℕ) → ((x : Cell) (r : ℕ) → F.post number x r → r ≡ h x) → take n row.new ≡ map h (first_cells (composition_of b.now) n) }
{
    for i in 0..n {
        row[i] = number(bytes::cell(b, i));
    }
}

// The step of a key in lower case. For one that does not act there is no row.
fn step_on(b: &[u8; SIZE], z: Settings, k: u32, n: usize) -> Step
    requires { (bytes_sound b.now ≡ true) × (n ≡ (composition_of b.now).count) × (n ≤ limit) }
    ensures { result ≡ step_of z (row_cells (bases (used (composition_of b.now)))) k }
{
    if !p3_acts::acts(z.method, k) {
        return Step {
            change: Change::Append,
            at: n,
            also: n,
            count: n + 1,
        };
    }
    let mut row = [0u32; LIMIT];
    fill(b, n, |x| x.base, &mut row);
    step::first_step(z, &row[..n], k)
}

// Stores the cells of a step, and the count.
fn apply(b: &mut [u8; SIZE], s: Step, key: u32, k: u32)
    requires { (s.at < limit) × (s.also < limit) × (s.count ≤ limit) }
    ensures { b.new ≡ applied b.old s key k }
{
    let x = bytes::cell(b, s.at);
    let y = bytes::cell(b, s.also);
    let put = step::put_cell(s.change, x, y, key, k);
    let also = step::also_cell(s.change, bytes::capitals(b), y);
    bytes::store(b, s.also, also);
    bytes::store(b, s.at, put);
    b[2] = s.count as u8;
}

pub fn process_key(state: &mut [u8], key: u32, out: &mut [u32]) -> Result<usize, Refusal>
    ensures { (result ≡ answer_on state.old (key_on state.old key out.old))
        × (state.new ≡ bytes_on state.old (key_on state.old key out.old))
        × (out.new ≡ out_on state.old (key_outcome (composition_of state.old) key) out.old) }
{
    let Some(state) = bytes::checked_mut(state) else {
        return Err(Refusal::Unsound);
    };
    if !letters::in_alphabet(key) {
        return Err(Refusal::Foreign);
    }
    let z = bytes::settings(state);
    if let Mode::English = z.mode {
        if out.is_empty() {
            return Err(Refusal::Short);
        }
        out[0] = key;
        return Ok(1);
    }
    let k = letters::ascii_lower(key);
    let s = step_on(state, z, k, bytes::cell_count(state));
    let count = s.count;
    if LIMIT < count {
        return Err(Refusal::Full);
    }
    if out.len() < count {
        return Err(Refusal::Short);
    }
    apply(state, s, key, k);
    text(state, count, out);
    Ok(count)
}

// ---- the other calls

pub fn reset(state: &mut [u8]) -> Result<usize, Refusal>
    ensures { (result ≡ answer_on state.old (reset_on state.old))
        × (state.new ≡ bytes_on state.old (reset_on state.old)) }
{
    let Some(state) = bytes::checked_mut(state) else {
        return Err(Refusal::Unsound);
    };
    bytes::clear(state);
    Ok(0)
}

pub fn append_literal(state: &mut [u8], letter: u32) -> Result<usize, Refusal>
    ensures { (result ≡ answer_on state.old (literal_on state.old letter))
        × (state.new ≡ bytes_on state.old (literal_on state.old letter)) }
{
    let Some(state) = bytes::checked_mut(state) else {
        return Err(Refusal::Unsound);
    };
    if !letters::in_alphabet(letter) {
        return Err(Refusal::Foreign);
    }
    let n = bytes::cell_count(state);
    if LIMIT <= n {
        return Err(Refusal::Full);
    }
    bytes::store(state, n, cells::typed(letter));
    state[2] = (n + 1) as u8;
    Ok(0)
}

pub fn pop_last(state: &mut [u8], out: &mut [u32]) -> Result<usize, Refusal>
    ensures { (result ≡ answer_on state.old (removal_on state.old out.old))
        × (state.new ≡ bytes_on state.old (removal_on state.old out.old))
        × (out.new ≡ out_on state.old (removal_outcome (composition_of state.old)) out.old) }
{
    let Some(state) = bytes::checked_mut(state) else {
        return Err(Refusal::Unsound);
    };
    let n = bytes::cell_count(state);
    if n == 0 {
        return Err(Refusal::Empty);
    }
    let m = n - 1;
    if out.len() < m {
        return Err(Refusal::Short);
    }
    bytes::store(state, m, cells::blank());
    state[2] = m as u8;
    text(state, m, out);
    Ok(m)
}

pub fn get_output(state: &[u8], out: &mut [u32]) -> Result<usize, Refusal>
    ensures { (result ≡ text_on state.now (length out.old))
        × (out.new ≡ out_on state.now (text_outcome (composition_of state.now)) out.old) }
{
    let Some(state) = bytes::checked(state) else {
        return Err(Refusal::Unsound);
    };
    let n = bytes::cell_count(state);
    if out.len() < n {
        return Err(Refusal::Short);
    }
    text(state, n, out);
    Ok(n)
}

// ---- undo

// What a trigger in lower case is to undo.
fn undo_on(b: &[u8; SIZE], n: usize, raw: &[u32], t: u32) -> Option<Undoing>
    requires { (bytes_sound b.now ≡ true) × (n ≡ (composition_of b.now).count) × (n ≤ limit) }
    ensures { result ≡ to_undo (composition_of b.now).settings.method (used (composition_of b.now))
        (raw_lowered raw.now) t }
{
    let z = bytes::settings(b);
    let mut row = [0u32; LIMIT];
    fill(b, n, undo::sign, &mut row);
    undo::to_undo(z.method, &row[..n], raw, t)
}

// The number by which a host is told what becomes of the trigger.
fn undo_number(undone: TelexUndo) -> usize
    ensures { result ≡ undo_number undone }
{
    undone as usize
}

// Stores what is found.
fn undo_found(state: &mut [u8; SIZE], n: usize, raw: &[u32], t: u32) -> Result<usize, Refusal>
    requires { (bytes_sound state.old ≡ true) × (n ≡ (composition_of state.old).count) × (n ≤ limit) }
    ensures { (result ≡ answer_on state.old (found_on state.old raw.now t))
        × (state.new ≡ bytes_on state.old (found_on state.old raw.now t)) }
{
    let Some(undoing) = undo_on(state, n, raw, t) else {
        return Err(Refusal::NoUndo);
    };
    match undoing {
        Undoing::Tone(i) => {
            bytes::store(state, i, undo::tone_lost(bytes::cell(state, i)));
            Ok(0)
        }
        Undoing::Mark(i, r) => {
            bytes::store(state, i, undo::restored(r.first, bytes::cell(state, i)));
            Ok(undo_number(undo::behaviour(r)))
        }
    }
}

// What becomes of the trigger is 0 or 1 in a usize: all calls of document 01 answer by one type, over which `answer_on` and `bytes_on` are stated.
pub fn undo_telex_transform(state: &mut [u8], trigger: u32, raw: &[u32]) -> Result<usize, Refusal>
    ensures { (result ≡ answer_on state.old (undo_on state.old trigger raw.now))
        × (state.new ≡ bytes_on state.old (undo_on state.old trigger raw.now)) }
{
    let Some(state) = bytes::checked_mut(state) else {
        return Err(Refusal::Unsound);
    };
    if LETTERS < raw.len() {
        return Err(Refusal::Long);
    }
    if !letters::in_alphabet(trigger) {
        return Err(Refusal::Foreign);
    }
    if !letters::all_letters(raw) {
        return Err(Refusal::Foreign);
    }
    let t = letters::ascii_lower(trigger);
    undo_found(state, bytes::cell_count(state), raw, t)
}

// ---- the method of a number, whatever the number: who is to refuse those from 2 on asks `InputMethod::try_from`

#[tactic(auto, unfolding(p6_bytes::specs::Bytes::method_of))]
pub fn method_of(method: u32) -> InputMethod
    ensures { result ≡ method_of method }
{
    if method == 0 {
        InputMethod::Telex
    } else {
        InputMethod::Vni
    }
}

// ---- the settings by their numbers, each stored as the byte that it is: by `try_from` it would be turned back into its number

pub fn set_method(state: &mut [u8], method: u32) -> Result<usize, Refusal>
    ensures { (result ≡ answer_on state.old (method_on state.old method))
        × (state.new ≡ bytes_on state.old (method_on state.old method)) }
{
    let Some(state) = bytes::checked_mut(state) else {
        return Err(Refusal::Unsound);
    };
    if 1 < method {
        return Err(Refusal::Unsound);
    }
    state[0] = method as u8;
    bytes::clear(state);
    Ok(0)
}

pub fn set_mode(state: &mut [u8], mode: u32) -> Result<usize, Refusal>
    ensures { (result ≡ answer_on state.old (mode_on state.old mode))
        × (state.new ≡ bytes_on state.old (mode_on state.old mode)) }
{
    let Some(state) = bytes::checked_mut(state) else {
        return Err(Refusal::Unsound);
    };
    if 1 < mode {
        return Err(Refusal::Unsound);
    }
    state[1] = mode as u8;
    if mode == 0 {
        return Ok(0);
    }
    bytes::clear(state);
    Ok(0)
}

// 1 turns capitals on, and 0 off: no cell changes.
pub fn set_capitals(state: &mut [u8], on: u32) -> Result<usize, Refusal>
    ensures { (result ≡ answer_on state.old (capitals_on state.old on))
        × (state.new ≡ bytes_on state.old (capitals_on state.old on)) }
{
    let Some(state) = bytes::checked_mut(state) else {
        return Err(Refusal::Unsound);
    };
    if 1 < on {
        return Err(Refusal::Unsound);
    }
    state[3] = on as u8;
    Ok(0)
}

// An empty Vietnamese composition, capitals off, whatever the bytes were.
pub fn new(state: &mut [u8], method: u32) -> Result<usize, Refusal>
    ensures { (result ≡ new_on state.old method) × (state.new ≡ new_bytes state.old method) }
{
    let Some(state) = state.as_mut_array::<SIZE>() else {
        return Err(Refusal::Unsound);
    };
    if 1 < method {
        return Err(Refusal::Unsound);
    }
    state[0] = method as u8;
    zeros::put_zeros(state, 1, SIZE);
    Ok(0)
}
