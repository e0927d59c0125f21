// The step of a key (bamboo.rs: process_key), the first that fits, over a lent row of bases: as numbers, since a
// composition by value would be copied at each step.
#![tactic(auto)]

ghost use Rattle.std.specs.Prelude.{◌≡◌};
ghost use Rattle.p3_cells.specs.Mirror.{row_cells};
ghost use Rattle.p3_step.specs.Mirror.{one_at, step_of, put_cell, also_cell};

use p1_letters as letters;
use p2_input_method as input_method;
use p3_cells as cells;
use p3_cells::{Cell, Settings};
use p3_marks as marks;
use p3_tone as place;

// What comes at a place: the cell as it is, with a tone, with a mark, the ư of a pair, or a typed letter.
#[derive(Clone, Copy, Debug, PartialEq, Eq)]
pub enum Change {
    Nothing,
    Tone,
    Mark(u16),
    Pair,
    Append,
}

// The place that changes, the other one (the same where one cell changes), and how many cells there are then.
#[derive(Clone, Copy, Debug, PartialEq, Eq)]
pub struct Step {
    pub change: Change,
    pub at: usize,
    pub also: usize,
    pub count: usize,
}

// One cell changes.
fn one_cell(change: Change, at: usize, count: usize) -> Step
    ensures { result ≡ one_at change at count }
{
    Step {
        change,
        at,
        also: at,
        count,
    }
}

// The steps in their order, each where the ones before it do not fit: tone, uo, ua, mark, append.
#[tactic(auto, using(crate::proofs::Steps::uo_in_row, crate::proofs::Steps::mark_in_row, crate::proofs::Steps::mark_made_of, crate::proofs::Steps::step_turn))]
pub fn first_step(z: Settings, row: &[u32], k: u32) -> Step
    ensures { result ≡ step_of z (row_cells row.now) k }
{
    let m = z.method;
    let n = row.len();
    if input_method::is_tone_key(m, k) {
        if let Some(i) = place::find_tone_position(row) {
            return one_cell(Change::Tone, i, n);
        }
    }
    if input_method::is_horn_key(m, k) {
        if let Some(i) = marks::find_uo(row) {
            return Step {
                change: Change::Pair,
                at: i,
                also: i + 1,
                count: n,
            };
        }
        if let Some(i) = marks::find_ua(row) {
            return one_cell(Change::Mark(0x1b0), i, n);
        }
    }
    if let Some(i) = marks::find_mark_backtrack(m, row, k) {
        let mark = input_method::mark_for(m, letters::ascii_lower(row[i]), k).unwrap();
        return one_cell(Change::Mark(mark), i, n);
    }
    one_cell(Change::Append, n, n + 1)
}

// ---- the cells of a step

// The cell at the place, where x stands, and y at the other place. A tone key is a byte.
#[tactic(auto, unfolding(crate::specs::Mirror::put_cell, p3_marks::specs::Ua::marked, p3_marks::specs::Uo::horn_u))]
pub fn put_cell(change: Change, x: Cell, y: Cell, key: u32, k: u32) -> Cell
    ensures { result ≡ put_cell change x y key k }
{
    match change {
        Change::Nothing => x,
        Change::Tone => Cell {
            tone: (k % 256) as u8,
            ..x
        },
        Change::Mark(mark) => Cell {
            base: u32::from(mark),
            mark,
            ..x
        },
        Change::Pair => Cell {
            base: 0x1b0,
            mark: 0x1b0,
            tone: y.tone,
            upper: x.upper,
        },
        Change::Append => cells::typed(key),
    }
}

// The cell at the other place, where y stands. It is stored first: where the two places are one, the place's own cell stays.
// The ơ of a pair has a flag only where capitals are on: the o's.
#[tactic(auto, unfolding(crate::specs::Mirror::also_cell, p3_marks::specs::Uo::horn_o))]
pub fn also_cell(change: Change, capitals: bool, y: Cell) -> Cell
    ensures { result ≡ also_cell change capitals y }
{
    match change {
        Change::Pair => Cell {
            base: 0x1a1,
            mark: 0x1a1,
            tone: 0,
            upper: capitals && y.upper,
        },
        Change::Nothing | Change::Tone | Change::Mark(_) | Change::Append => y,
    }
}
