// Undo of the last Telex step (bamboo.rs, undo_telex_transform): what is to be undone is found first, as a small answer,
// in a lent row of the cells' signs, and stored at one place.
#![tactic(auto)]

ghost use Rattle.std.specs.Prelude.{◌≡◌, ℕ, Bool, true, ◌<◌, ◌≤◌, ◌-◌, length};
ghost use Rattle.p0_choice.specs.Choice.{among};
ghost use Rattle.p0_choice.specs.Text.{word};
ghost use Rattle.p2_input_method.specs.Rules.{mark_rules};
ghost use Rattle.p2_input_method.specs.declared.InputMethod.TheVariants.{Telex};
ghost use Rattle.p3_cells.specs.Cells.{is_sound, used};
ghost use Rattle.p3_cells.specs.declared.Cell.{Cell};
ghost use Rattle.p3_undo.specs.Raw.{raw_lowered, ends_in, pair_at, any_plain, active};
ghost use Rattle.p3_undo.specs.Undo.{last_with, has_tone, has_mark, rule_at, by_rules, tone_at, to_undo, tone_lost as toneless_of};
ghost use Rattle.p3_undo.specs.Undo.{restored as restored_of};
ghost use Rattle.p3_undo.specs.Mirror.{sign as sign_of, bearing, sign_cells, end_found};
ghost use Rattle.p3_undo.specs.Call.{behaviour as behaviour_of, not_undone, undo_found, undo_telex};

use p0_refusals::{LETTERS, Refusal};
use p1_letters as letters;
use p2_input_method as input_method;
use p2_input_method::{InputMethod, MarkRule};
use p3_cells as cells;
use p3_cells::{Cell, Composition, LIMIT};

// What becomes of the trigger.
#[derive(Clone, Copy, Debug, PartialEq, Eq)]
pub enum TelexUndo {
    AppendTrigger,
    ConsumeTrigger,
}

#[derive(Clone, Copy)]
pub struct Undone {
    pub comp: Composition,
    pub answer: Result<TelexUndo, Refusal>,
}

// The cell that loses its tone; or the cell that gets a rule's first letter back, with that rule.
#[derive(Clone, Copy)]
pub enum Undoing {
    Tone(usize),
    Mark(usize, MarkRule),
}

// Where the tone of a cell stands in its sign; its mark stands at 1.
const TONE_AT: u32 = 1 << 16;

// ---- the raw string

#[tactic(auto, using(crate::proofs::Raw::lowered_ends))]
fn ends_in(raw: &[u32], t: u32) -> bool
    ensures { result ≡ ends_in (raw_lowered raw.now) t }
{
    match raw.last() {
        Some(x) => letters::ascii_lower(*x) == t,
        None => false,
    }
}

// a stands before place i, and t there.
#[tactic(auto, using(crate::proofs::Raw::pair_turn))]
fn pair_at(raw: &[u32], a: u32, t: u32, i: usize) -> bool
    requires { (1 ≤ i) × (i < length raw.now) }
    ensures { result ≡ pair_at (raw_lowered raw.now) a t (i - 1) }
{
    letters::ascii_lower(raw[i - 1]) == a && letters::ascii_lower(raw[i]) == t
}

// Where the last a, t ends.
#[tactic(auto, using(crate::proofs::Raw::end_turn, crate::proofs::Raw::end_first, crate::proofs::Raw::end_none))]
fn last_end(raw: &[u32], a: u32, t: u32) -> Option<usize>
    ensures { result ≡ end_found (raw_lowered raw.now) a t }
{
    for i in (1..raw.len()).rev() {
        if pair_at(raw, a, t, i) {
            return Some(i + 1);
        }
    }
    None
}

#[tactic(auto, unfolding(p0_choice::specs::Text::word))]
fn is_plain(x: u32) -> bool
    ensures { result ≡ among x (word "aeiouy") }
{
    matches!(x, 97 | 101 | 105 | 111 | 117 | 121)
}

fn any_plain(raw: &[u32]) -> bool
    ensures { result ≡ any_plain (raw_lowered raw.now) }
{
    raw.iter().any(|x| is_plain(letters::ascii_lower(*x)))
}

#[tactic(auto, using(crate::proofs::Raw::end_within, crate::proofs::Raw::active_none, crate::proofs::Raw::active_some))]
fn has_active_mark_pattern(raw: &[u32], a: u32, t: u32) -> bool
    ensures { result ≡ active (raw_lowered raw.now) a t }
{
    match last_end(raw, a, t) {
        Some(end) => !any_plain(&raw[end..]),
        None => false,
    }
}

// ---- the cells: what undo asks of them, as a row of their signs

// A sign is one number: 4 bytes a cell, where a row of cells would take the 768 bytes that a call may have of the stack.
#[tactic(auto, unfolding(crate::specs::Mirror::sign))]
pub fn sign(x: Cell) -> u32
    ensures { result ≡ sign_of x }
{
    u32::from(x.mark) + u32::from(x.tone) * TONE_AT
}

#[tactic(auto, unfolding(crate::specs::Undo::has_tone))]
fn has_tone(t: u32, s: u32) -> bool
    ensures { result ≡ has_tone t (bearing s) }
{
    t != 0 && s / TONE_AT == t
}

// With no tone beside it a mark is the whole sign.
#[tactic(auto, unfolding(crate::specs::Undo::has_mark))]
fn has_mark(m: u16, s: u32) -> bool
    ensures { result ≡ has_mark m (bearing s) }
{
    s == u32::from(m)
}

// The last cell whose sign passes the test.
fn last_fitting<F: Fn(u32) -> bool>(row: &[u32], fits: F) -> Option<usize>
    requires { F.IsAlwaysCallable fits }
    ensures { (p : Cell → Bool) → ((s : ℕ) (b : Bool) → F.post fits s b → b ≡ p (bearing s))
        → result ≡ last_with p (sign_cells row.now) (length row.now) }
{
    for i in (0..row.len()).rev() {
        if fits(row[i]) {
            return Some(i);
        }
    }
    None
}

// ---- what is to be undone

#[tactic(auto, using(crate::proofs::Signs::row_length), unfolding(crate::specs::Undo::rule_at))]
fn rule_at(row: &[u32], raw: &[u32], t: u32, r: MarkRule) -> Option<usize>
    ensures { result ≡ rule_at (sign_cells row.now) (raw_lowered raw.now) t r }
{
    if r.key == t && has_active_mark_pattern(raw, r.first, r.key) {
        last_fitting(row, |s| has_mark(r.result, s))
    } else {
        None
    }
}

#[tactic(auto, using(crate::proofs::Undo::rules_end, crate::proofs::Undo::rules_found, crate::proofs::Undo::rules_on))]
fn by_rules(row: &[u32], raw: &[u32], t: u32) -> Option<Undoing>
    ensures { result ≡ by_rules (sign_cells row.now) (raw_lowered raw.now) t (mark_rules Telex) }
{
    for rule in input_method::telex_rules() {
        if let Some(i) = rule_at(row, raw, t, rule) {
            return Some(Undoing::Mark(i, rule));
        }
    }
    None
}

#[tactic(auto, using(crate::proofs::Signs::row_length), unfolding(crate::specs::Undo::tone_at))]
fn tone_at(row: &[u32], raw: &[u32], t: u32) -> Option<usize>
    ensures { result ≡ tone_at (sign_cells row.now) (raw_lowered raw.now) t }
{
    if ends_in(raw, t) {
        last_fitting(row, |s| has_tone(t, s))
    } else {
        None
    }
}

// Over the signs of the cells in use, which a caller fills in from where it holds them.
#[tactic(auto, unfolding(crate::specs::Undo::to_undo))]
pub fn to_undo(m: InputMethod, row: &[u32], raw: &[u32], t: u32) -> Option<Undoing>
    ensures { result ≡ to_undo m (sign_cells row.now) (raw_lowered raw.now) t }
{
    match m {
        InputMethod::Telex => match tone_at(row, raw, t) {
            Some(i) => Some(Undoing::Tone(i)),
            None => by_rules(row, raw, t),
        },
        InputMethod::Vni => None,
    }
}

// ---- the call

#[tactic(auto, unfolding(crate::specs::Undo::tone_lost))]
pub fn tone_lost(x: Cell) -> Cell
    ensures { result ≡ toneless_of x }
{
    Cell { tone: 0, ..x }
}

#[tactic(auto, unfolding(crate::specs::Undo::restored))]
pub fn restored(a: u32, x: Cell) -> Cell
    ensures { result ≡ restored_of a x }
{
    Cell {
        base: if x.upper { letters::ascii_upper(a) } else { a },
        mark: 0,
        ..x
    }
}

// dd consumes its trigger, the others append it.
#[tactic(auto, unfolding(crate::specs::Call::behaviour))]
pub fn behaviour(rule: MarkRule) -> TelexUndo
    ensures { result ≡ behaviour_of rule }
{
    if rule.first == 100 && rule.key == 100 {
        TelexUndo::ConsumeTrigger
    } else {
        TelexUndo::AppendTrigger
    }
}

#[tactic(auto, using(p3_cells::proofs::Holding::count_fits))]
fn find(c: Composition, raw: &[u32], t: u32) -> Option<Undoing>
    requires { is_sound c ≡ true }
    ensures { result ≡ to_undo c.settings.method (used c) (raw_lowered raw.now) t }
{
    let mut row = [0; LIMIT];
    for (i, cell) in c.cells[..c.count].iter().enumerate() {
        row[i] = sign(*cell);
    }
    to_undo(c.settings.method, &row[..c.count], raw, t)
}

// Stores what is found.
fn undo_found(mut c: Composition, raw: &[u32], t: u32) -> Undone
    requires { is_sound c ≡ true }
    ensures { result ≡ undo_found c (to_undo c.settings.method (used c) (raw_lowered raw.now) t) }
{
    let Some(undoing) = find(c, raw, t) else {
        return refuse(c, Refusal::NoUndo);
    };
    match undoing {
        Undoing::Tone(i) => {
            c.cells[i] = tone_lost(c.cells[i]);
            Undone {
                comp: c,
                answer: Ok(TelexUndo::AppendTrigger),
            }
        }
        Undoing::Mark(i, r) => {
            c.cells[i] = restored(r.first, c.cells[i]);
            Undone {
                comp: c,
                answer: Ok(behaviour(r)),
            }
        }
    }
}

fn refuse(c: Composition, why: Refusal) -> Undone
    ensures { result ≡ not_undone c why }
{
    Undone {
        comp: c,
        answer: Err(why),
    }
}

#[tactic(auto, unfolding(crate::specs::Call::undo_telex))]
pub fn undo_telex_transform(c: Composition, trigger: u32, raw: &[u32]) -> Undone
    ensures { result ≡ undo_telex c trigger raw.now }
{
    if !cells::sound(c) {
        return refuse(c, Refusal::Unsound);
    }
    if LETTERS < raw.len() {
        return refuse(c, Refusal::Long);
    }
    if !letters::in_alphabet(trigger) || !letters::all_letters(raw) {
        return refuse(c, Refusal::Foreign);
    }
    undo_found(c, raw, letters::ascii_lower(trigger))
}
