// A composition as a draft, for keeping (document 02, 2026-02): tagged fields, written and read. docs/DRAFTS.md takes one apart.
#![tactic(auto)]

ghost use Rattle.std.specs.Prelude.{◌≡◌, [], ◌∷◌, ◌+◌, ◌<◌, ◌≤◌, length};
ghost use Rattle.p3_cells.specs.Cells.{limit};
ghost use Rattle.p6_draft.specs.Draft.{field, draft_cell};
ghost use Rattle.p6_draft.specs.Mirror.{draft_head, draft_start, draft_frame, draft_length, put_at, field_start, head_fields};
ghost use Rattle.p6_draft.specs.Mirror.{four_at, read_mark, draft_cell_at, draft_settings, draft_count, field_fits, frame_fits};
ghost use Rattle.p6_draft.specs.Mirror.{draft_cell_fits, plain_at, draft_cells_fit, is_draft};

use p1_letters as letters;
use p3_cells as cells;
use p3_cells::{Cell, LIMIT, Settings};
use p6_bytes as bytes;
use p6_zeros as zeros;

// The tags, in the order of their fields: numbers, as docs/DRAFTS.md has them.
const METHOD: u8 = 1;

const MODE: u8 = 2;

const CELLS: u8 = 3;

const CAPITALS: u8 = 4;

// The bytes of a field that holds one byte.
const FIELD: usize = 4;

// Where the cells start, after two such fields and the tag and length of their own, and how many bytes each has.
pub const HEAD: usize = 2 * FIELD + 3;

pub const CELL: usize = 7;

// The bytes of a draft without cells.
pub const FRAME: usize = HEAD + FIELD;

// ---- writing

// What these functions ask of a length relates a place to it, as the bound of an index does: no type of the bytes could carry it.
// A field of one byte.
#[tactic(auto, unfolding(crate::specs::Mirror::put_at, crate::specs::Draft::field))]
fn put_field(draft: &mut [u8], at: usize, tag: u8, value: u8)
    requires { at + 4 ≤ length draft.old }
    ensures { draft.new ≡ put_at at (field tag (value ∷ [])) draft.old }
{
    draft[at..at + FIELD].copy_from_slice(&[tag, 0, 1, value]);
}

// The tag and the length of a field.
#[tactic(auto, unfolding(crate::specs::Mirror::put_at, crate::specs::Mirror::field_start))]
fn put_start(draft: &mut [u8], at: usize, tag: u8, n: usize)
    requires { (at + 3 ≤ length draft.old) × (n < 65536) }
    ensures { draft.new ≡ put_at at (field_start tag n) draft.old }
{
    let [high, low] = (n as u16).to_be_bytes();
    draft[at..at + 3].copy_from_slice(&[tag, high, low]);
}

// What stands before the cells, of which there are n.
#[tactic(auto, using(crate::proofs::Writing::head_put))]
pub fn put_head(draft: &mut [u8], method: u8, mode: u8, n: usize)
    requires { (draft_head ≤ length draft.old) × (n ≤ limit) }
    ensures { draft.new ≡ put_at 0 (head_fields method mode n) draft.old }
{
    put_field(draft, 0, METHOD, method);
    put_field(draft, FIELD, MODE, mode);
    put_start(draft, 2 * FIELD, CELLS, CELL * n);
}

// What stands after n cells.
pub fn put_tail(draft: &mut [u8], capitals: u8, n: usize)
    requires { (n ≤ limit) × (draft_length n ≤ length draft.old) }
    ensures { draft.new ≡ put_at (draft_start n) (field 4 (capitals ∷ [])) draft.old }
{
    put_field(draft, HEAD + CELL * n, CAPITALS, capitals);
}

// A cell's bytes. Whether it has a mark is one of them, and the mark itself is its base.
#[tactic(auto, unfolding(crate::specs::Draft::draft_cell, crate::specs::Draft::mark_byte))]
fn cell_bytes(x: Cell) -> [u8; CELL]
    ensures { result ≡ draft_cell x }
{
    let [b0, b1, b2, b3] = x.base.to_be_bytes();
    [
        b0,
        b1,
        b2,
        b3,
        u8::from(x.mark != 0),
        x.tone,
        u8::from(x.upper),
    ]
}

// The cell at place i.
#[tactic(auto, using(crate::proofs::Writing::cell_length), unfolding(crate::specs::Mirror::put_at))]
pub fn put_cell(draft: &mut [u8], i: usize, x: Cell)
    requires { draft_start i + 7 ≤ length draft.old }
    ensures { draft.new ≡ put_at (draft_start i) (draft_cell x) draft.old }
{
    let at = HEAD + CELL * i;
    draft[at..at + CELL].copy_from_slice(&cell_bytes(x));
}

// ---- reading

// Four bytes as one number, high byte first: LLVM makes one load of it.
#[tactic(auto, unfolding(crate::specs::Mirror::four_at))]
fn four_at(draft: &[u8], at: usize) -> u32
    requires { at + 4 ≤ length draft.now }
    ensures { result ≡ four_at draft.now at }
{
    u32::from_be_bytes([draft[at], draft[at + 1], draft[at + 2], draft[at + 3]])
}

// A mark is its base. A base of more than two bytes is no letter, and the test of the cell refuses it.
#[tactic(auto, unfolding(crate::specs::Mirror::read_mark))]
fn read_mark(byte: u8, base: u32) -> u16
    ensures { result ≡ read_mark byte base }
{
    if byte == 0 {
        0
    } else {
        (base % 0x1_0000) as u16
    }
}

// The cell at place i.
#[tactic(auto, unfolding(crate::specs::Mirror::draft_cell_at))]
pub fn cell(draft: &[u8], i: usize) -> Cell
    requires { draft_start i + 7 ≤ length draft.now }
    ensures { result ≡ draft_cell_at draft.now (draft_start i) }
{
    let at = HEAD + CELL * i;
    let base = four_at(draft, at);
    let mark = read_mark(draft[at + 4], base);
    Cell {
        base,
        mark,
        tone: draft[at + 5],
        upper: draft[at + 6] == 1,
    }
}

// Most cells are a letter of ASCII alone: with the byte before it the cell is one load, which two comparisons tell.
#[tactic(auto, unfolding(crate::specs::Mirror::plain_at))]
fn plain(draft: &[u8], at: usize) -> bool
    requires { (1 ≤ at) × (at + 7 ≤ length draft.now) }
    ensures { result ≡ plain_at draft.now at }
{
    let w = zeros::long_at(draft, at - 1);
    w < 0x80_0000_0000 && w % 0x1_0000_0000 < 0x100
}

// As `cells::is_cell`, by the byte that says whether there is a mark. It is not called here: with a second caller LLVM would no
// longer put it into the test of a composition's bytes, which every call makes.
#[tactic(auto, using(crate::proofs::Tests::plain_fits, crate::proofs::Tests::flag_wrong, crate::proofs::Tests::tone_wrong, crate::proofs::Tests::letter_decides, crate::proofs::Tests::mark_other, crate::proofs::Tests::mark_decides, crate::proofs::Tests::mark_wrong))]
fn cell_fits(draft: &[u8], i: usize) -> bool
    requires { draft_start i + 7 ≤ length draft.now }
    ensures { result ≡ draft_cell_fits draft.now i }
{
    let at = HEAD + CELL * i;
    if plain(draft, at) {
        return true;
    }
    if 1 < draft[at + 6] {
        return false;
    }
    let x = cell(draft, i);
    if !cells::tone_fits(x) {
        return false;
    }
    match draft[at + 4] {
        0 => letters::in_alphabet(x.base),
        1 => u32::from(x.mark) == x.base && cells::is_mark(x.mark),
        _ => false,
    }
}

fn cells_fit(draft: &[u8], n: usize) -> bool
    requires { (n ≤ limit) × (draft_start n ≤ length draft.now) }
    ensures { result ≡ draft_cells_fit draft.now n }
{
    (0..n).all(|i| cell_fits(draft, i))
}

// A field of one byte, 0 or 1: tag, length and byte as one number, of which the last bit alone is free.
#[tactic(auto, unfolding(crate::specs::Mirror::field_fits))]
fn field_fits(draft: &[u8], at: usize, tag: u8) -> bool
    requires { at + 4 ≤ length draft.now }
    ensures { result ≡ field_fits draft.now at tag }
{
    four_at(draft, at) / 2 == u32::from(tag) * 0x80_0000 + 0x80
}

// The fields beside the cells, of which there are n.
#[tactic(auto, unfolding(crate::specs::Mirror::frame_fits))]
fn frame_fits(draft: &[u8], n: usize) -> bool
    requires { (n ≤ limit) × (draft_length n ≤ length draft.now) }
    ensures { result ≡ frame_fits draft.now n }
{
    field_fits(draft, 0, METHOD)
        && field_fits(draft, FIELD, MODE)
        && draft[8] == CELLS
        && usize::from(u16::from_be_bytes([draft[9], draft[10]])) == CELL * n
        && field_fits(draft, HEAD + CELL * n, CAPITALS)
}

// How many cells bytes of this length have.
#[tactic(auto, unfolding(crate::specs::Mirror::draft_count))]
pub fn cell_count(draft: &[u8]) -> usize
    requires { draft_frame ≤ length draft.now }
    ensures { result ≡ draft_count draft.now }
{
    (draft.len() - FRAME) / CELL
}

// Whether the bytes are the draft of a sound composition.
#[tactic(auto, unfolding(crate::specs::Mirror::is_draft))]
pub fn is_draft(draft: &[u8]) -> bool
    ensures { result ≡ is_draft draft.now }
{
    if draft.len() < FRAME {
        return false;
    }
    let n = cell_count(draft);
    n <= LIMIT && draft.len() == FRAME + CELL * n && frame_fits(draft, n) && cells_fit(draft, n)
}

#[tactic(auto, unfolding(crate::specs::Mirror::draft_settings))]
pub fn settings(draft: &[u8], n: usize) -> Settings
    requires { (n ≤ limit) × (draft_length n ≤ length draft.now) }
    ensures { result ≡ draft_settings draft.now n }
{
    Settings {
        method: bytes::method_of(draft[3]),
        mode: bytes::mode_of(draft[7]),
        capitals: draft[HEAD + CELL * n + 3] == 1,
    }
}
