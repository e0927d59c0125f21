// A composition: at most LIMIT cells and the settings, by value (bamboo.rs), its soundness and its text. The count comes
// last, so that the cells can be copied as one block.
#![tactic(auto)]

ghost use Rattle.std.specs.Prelude.{◌≡◌, ◌++◌, ◌<◌, ◌≤◌, ◌^◌, eqb, length, drop};
ghost use Rattle.p0_choice.specs.Choice.{among};
ghost use Rattle.p3_cells.specs.Cells.{limit, blank as blank_cell, is_blank, marks, tone_fits, is_cell, typed as typed_cell, is_sound};
ghost use Rattle.p3_cells.specs.Cells.{used};
ghost use Rattle.p3_cells.specs.Mirror.{packed_cell};
ghost use Rattle.p3_cells.specs.Text.{letter_of, toned_letter, flagged as flagged_of, shown as shown_of, text_of};

use p0_refusals::Refusal;
use p1_letters as letters;
use p2_input_method as input_method;
use p2_input_method::InputMethod;

pub const LIMIT: usize = 96;

// Where the fields of a cell stand in it as one number; its base stands at 1.
const MARK_AT: u64 = 1 << 32;

const TONE_AT: u64 = 1 << 48;

const UPPER_AT: u64 = 1 << 56;

#[derive(Clone, Copy)]
pub enum Mode {
    Vietnamese,
    English,
}

// A typed letter. 0 stands for no mark and for no tone, and no Option does: a cell has 8 bytes (docs/BYTES.md), which are tested
// and copied as one number, and neither a mark nor a tone key is U+0000.
#[derive(Clone, Copy)]
pub struct Cell {
    pub base: u32,
    pub mark: u16,
    pub tone: u8,
    pub upper: bool,
}

// What a composition is set to, whatever it holds.
#[derive(Clone, Copy)]
pub struct Settings {
    pub method: InputMethod,
    pub mode: Mode,
    pub capitals: bool,
}

#[derive(Clone, Copy)]
pub struct Composition {
    pub cells: [Cell; LIMIT],
    pub settings: Settings,
    pub count: usize,
}

// What a call leaves: the composition, and its answer.
#[derive(Clone, Copy)]
pub struct After {
    pub comp: Composition,
    pub answer: Result<usize, Refusal>,
}

// ---- cells

pub fn blank() -> Cell
    ensures { result ≡ blank_cell }
{
    Cell {
        base: 0,
        mark: 0,
        tone: 0,
        upper: false,
    }
}

// The cell that a letter is appended as.
#[tactic(auto, unfolding(crate::specs::Cells::typed))]
pub fn typed(ch: u32) -> Cell
    ensures { result ≡ typed_cell ch }
{
    Cell {
        base: ch,
        upper: letters::is_capital(ch),
        ..blank()
    }
}

// ---- soundness

// One of ă â ê ô ơ ư đ.
#[tactic(auto, unfolding(crate::specs::Cells::marks, p0_choice::specs::Text::word))]
pub fn is_mark(m: u16) -> bool
    ensures { result ≡ among m marks }
{
    matches!(m, 0xe2 | 0xea | 0xf4 | 0x103 | 0x111 | 0x1a1 | 0x1b0)
}

// No tone, or a tone key of either method.
#[tactic(auto, using(crate::proofs::SoundTest::tone_keys_lem), unfolding(crate::specs::Cells::tone_fits))]
pub fn tone_fits(x: Cell) -> bool
    ensures { result ≡ tone_fits x }
{
    let tone = u32::from(x.tone);
    tone == 0
        || input_method::is_tone_key(InputMethod::Telex, tone)
        || input_method::is_tone_key(InputMethod::Vni, tone)
}

// A cell in use is as soundness asks. Most have no mark and no tone; a mark is a letter, so the base needs no second test.
#[tactic(auto, using(crate::proofs::Made::mark_letter), unfolding(crate::specs::Cells::is_cell, crate::specs::Cells::mark_fits))]
pub fn is_cell(x: Cell) -> bool
    ensures { result ≡ is_cell x }
{
    if x.mark == 0 {
        return tone_fits(x) && letters::in_alphabet(x.base);
    }
    u32::from(x.mark) == x.base && is_mark(x.mark) && tone_fits(x)
}

// A cell as one number, 0 for a blank cell alone: one load of 8 bytes.
#[tactic(auto, unfolding(crate::specs::Mirror::packed_cell, crate::specs::Cells::is_blank))]
pub fn packed(x: Cell) -> u64
    ensures { (result ≡ packed_cell x) × (eqb result 0 ≡ is_blank x) × (result < 2 ^ 57) }
{
    u64::from(x.base)
        + u64::from(x.mark) * MARK_AT
        + u64::from(x.tone) * TONE_AT
        + u64::from(x.upper) * UPPER_AT
}

// The cells past the count are blank where, as numbers, their sum is 0: with no way out of the loop, it is done by vectors.
pub fn sound(c: Composition) -> bool
    ensures { result ≡ is_sound c }
{
    if LIMIT < c.count {
        return false;
    }
    let (used, past) = c.cells.split_at(c.count);
    for cell in used {
        if !is_cell(*cell) {
            return false;
        }
    }
    let mut sum: u64 = 0;
    for cell in past {
        sum += packed(*cell);
    }
    sum == 0
}

// ---- text

// The mark, else the base.
#[tactic(auto, unfolding(crate::specs::Text::letter_of))]
pub fn letter_of(x: Cell) -> u32
    ensures { result ≡ letter_of x }
{
    if x.mark == 0 {
        x.base
    } else {
        u32::from(x.mark)
    }
}

#[tactic(auto, using(crate::proofs::Text::toned_none), unfolding(crate::specs::Text::toned_letter))]
fn toned_letter(x: Cell) -> u32
    ensures { result ≡ toned_letter x }
{
    let letter = letter_of(x);
    if x.tone == 0 {
        letter
    } else {
        letters::apply_tone_to_char(letter, u32::from(x.tone))
    }
}

// What a flag makes of a letter: its capital; where capitals are off, as the Rust has it, only of an ASCII letter.
#[tactic(auto, unfolding(crate::specs::Text::flagged))]
fn flagged(capitals: bool, letter: u32) -> u32
    ensures { result ≡ flagged_of capitals letter }
{
    if capitals {
        letters::upper(letter)
    } else if letters::is_capital(letter) {
        letter
    } else {
        letters::ascii_upper(letter)
    }
}

// Most cells have neither a tone nor a flag, which one comparison tells; of these the number tells whether there is a mark.
#[tactic(auto, using(crate::proofs::Text::shown_base, crate::proofs::Text::shown_mark), unfolding(crate::specs::Text::shown))]
pub fn shown(capitals: bool, x: Cell) -> u32
    ensures { result ≡ shown_of capitals x }
{
    let Cell { base, mark, .. } = x;
    let number = packed(x);
    if number < TONE_AT {
        return if number < MARK_AT {
            base
        } else {
            u32::from(mark)
        };
    }
    let letter = toned_letter(x);
    if x.upper {
        flagged(capitals, letter)
    } else {
        letter
    }
}

// The text, from the start of an output that has room for it; answers how many letters.
pub fn flatten(c: Composition, out: &mut [u32]) -> usize
    requires { (c.count ≤ limit) × (c.count ≤ length out.old) }
    ensures { (result ≡ c.count) × (out.new ≡ text_of c.settings.capitals (used c) ++ drop c.count out.old) }
{
    for (i, cell) in c.cells[..c.count].iter().enumerate() {
        out[i] = shown(c.settings.capitals, *cell);
    }
    c.count
}
