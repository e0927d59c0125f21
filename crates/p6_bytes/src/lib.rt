// The composition as bytes, for a host in C: read, tested and written. docs/BYTES.md states their order.
#![tactic(auto)]

ghost use Rattle.std.specs.Prelude.{◌≡◌, true, false, ◌<◌, ◌≤◌, MatchOption};
ghost use Rattle.std.specs.Borrow.{sem};
ghost use Rattle.p6_bytes.specs.Mirror.{LendsBytes};
ghost use Rattle.p3_cells.specs.Cells.{limit};
ghost use Rattle.p3_cells.specs.Mirror.{cell_of};
ghost use Rattle.p3_cells.specs.Text.{shown as shown_of};
ghost use Rattle.p6_bytes.specs.Bytes.{method_byte, mode_byte, flag_byte, cell_bytes};
ghost use Rattle.p6_bytes.specs.Bytes.{method_of, mode_of, composition_of, bytes_sound};
ghost use Rattle.p6_bytes.specs.Mirror.{head_fits, cell_fits, cells_fit, stored, cleared};

use p2_input_method::InputMethod;
use p3_cells as cells;
use p3_cells::{Cell, Mode, Settings};
use p6_zeros as zeros;

pub const HEAD: usize = 8;

pub const SIZE: usize = HEAD + 8 * cells::LIMIT;

// ---- the cells where they lie

#[tactic(auto, using(crate::proofs::Stored::cell_there), unfolding(crate::specs::Bytes::cell_at))]
pub fn cell(b: &[u8; SIZE], i: usize) -> Cell
    requires { i < limit }
    ensures { result ≡ cell_of (composition_of b.now) i }
{
    let at = HEAD + 8 * i;
    Cell {
        base: u32::from_le_bytes([b[at], b[at + 1], b[at + 2], b[at + 3]]),
        mark: u16::from_le_bytes([b[at + 4], b[at + 5]]),
        tone: b[at + 6],
        upper: b[at + 7] == 1,
    }
}

pub fn flag_byte(on: bool) -> u8
    ensures { result ≡ flag_byte on }
{
    u8::from(on)
}

#[tactic(auto, unfolding(crate::specs::Bytes::cell_bytes))]
fn cell_bytes(x: Cell) -> [u8; 8]
    ensures { result ≡ cell_bytes x }
{
    let [b0, b1, b2, b3] = x.base.to_le_bytes();
    let [b4, b5] = x.mark.to_le_bytes();
    [b0, b1, b2, b3, b4, b5, x.tone, flag_byte(x.upper)]
}

#[tactic(auto, unfolding(crate::specs::Mirror::stored))]
pub fn store(b: &mut [u8; SIZE], i: usize, x: Cell)
    requires { i < limit }
    ensures { b.new ≡ stored b.old i x }
{
    let at = HEAD + 8 * i;
    b[at..at + 8].copy_from_slice(&cell_bytes(x));
}

// Most cells have neither a tone nor a flag, which one comparison tells.
#[tactic(auto, using(crate::proofs::Stored::bare_shown))]
pub fn shown(b: &[u8; SIZE], capitals: bool, i: usize) -> u32
    requires { i < limit }
    ensures { result ≡ shown_of capitals (cell_of (composition_of b.now) i) }
{
    let x = cell(b, i);
    if zeros::long_at(b, HEAD + 8 * i) < 0x1_0000_0000_0000 {
        return cells::letter_of(x);
    }
    cells::shown(capitals, x)
}

// No cells: the count and the cells' bytes are 0.
#[tactic(auto, using(crate::proofs::Stored::cleared_is, crate::proofs::Stored::set_length))]
pub fn clear(b: &mut [u8; SIZE])
    ensures { b.new ≡ cleared b.old }
{
    b[2] = 0;
    zeros::put_zeros(b, HEAD, SIZE);
}

// ---- soundness

// The head: a method, a mode, capitals of 0 or 1, and zeros. What follows the count is tested as one number, below 2 times 256 to the
// third, as three bytes stand before it.
fn head_fits(b: &[u8; SIZE]) -> bool
    ensures { result ≡ head_fits b.now }
{
    b[0] <= 1 && b[1] <= 1 && zeros::long_at(b, 0) < 0x200_0000
}

// Most cells are an ASCII letter alone, which one comparison tells. With an arm for each flag the cell is one load.
#[tactic(auto, using(crate::proofs::Tests::letter_alone, crate::proofs::Tests::flag_fits, crate::proofs::Tests::no_flag))]
fn cell_fits(b: &[u8; SIZE], i: usize) -> bool
    requires { i < limit }
    ensures { result ≡ cell_fits b.now i }
{
    let at = HEAD + 8 * i;
    zeros::long_at(b, at) < 128 || (b[at + 7] <= 1 && cells::is_cell(cell(b, i)))
}

fn cells_fit(b: &[u8; SIZE], n: usize) -> bool
    requires { n ≤ limit }
    ensures { result ≡ cells_fit b.now n }
{
    (0..n).all(|i| cell_fits(b, i))
}

fn is_sound(b: &[u8; SIZE]) -> bool
    ensures { result ≡ bytes_sound b.now }
{
    let n = usize::from(b[2]);
    head_fits(b) && n <= cells::LIMIT && cells_fit(b, n) && zeros::all_zero(&b[HEAD + 8 * n..])
}

pub fn bytes_ok(b: &[u8]) -> bool
    ensures { result ≡ bytes_sound b.now }
{
    checked(b).is_some()
}

// The bytes of a sound composition, or none where they are those of no such one.
#[tactic(auto, using(crate::proofs::Sound::no_size))]
pub fn checked(b: &[u8]) -> Option<&[u8; SIZE]>
    ensures { MatchOption result (bytes_sound b.now ≡ false) (λ s. (s.now ≡ b.now) × (bytes_sound s.now ≡ true)) }
{
    let b = b.as_array()?;
    if is_sound(b) { Some(b) } else { None }
}

// The same, to be written: a second function, as nothing is generic over `mut`.
#[tactic(auto, using(crate::proofs::Sound::no_size))]
pub fn checked_mut(b: &mut [u8]) -> Option<&mut [u8; SIZE]>
    ensures* writes_back { sem 𝓛 (LendsBytes b.entry result) }
    ensures cases { MatchOption result (bytes_sound b.old ≡ false) (λ s. (s.now ≡ b.old) × (bytes_sound s.now ≡ true)) }
{
    if !bytes_ok(b) {
        return None;
    }
    b.as_mut_array()
}

// ---- its settings and numbers, each of which is one byte

// Every byte is a method here, as it is a mode, since the test has been made: no TryFrom, which could fail.
#[tactic(auto, unfolding(crate::specs::Bytes::method_of))]
pub fn method_of(x: u8) -> InputMethod
    ensures { result ≡ method_of x }
{
    if x == 0 {
        InputMethod::Telex
    } else {
        InputMethod::Vni
    }
}

#[tactic(auto, unfolding(crate::specs::Bytes::mode_of))]
pub fn mode_of(x: u8) -> Mode
    ensures { result ≡ mode_of x }
{
    if x == 0 {
        Mode::Vietnamese
    } else {
        Mode::English
    }
}

#[tactic(auto, unfolding(crate::specs::Bytes::composition_of))]
pub fn settings(b: &[u8; SIZE]) -> Settings
    ensures { result ≡ (composition_of b.now).settings }
{
    Settings {
        method: method_of(b[0]),
        mode: mode_of(b[1]),
        capitals: b[3] == 1,
    }
}

#[tactic(auto, unfolding(crate::specs::Bytes::composition_of))]
pub fn capitals(b: &[u8; SIZE]) -> bool
    ensures { result ≡ (composition_of b.now).settings.capitals }
{
    b[3] == 1
}

#[tactic(auto, unfolding(crate::specs::Bytes::composition_of, crate::specs::Bytes::method_of))]
pub fn method_number(b: &[u8; SIZE]) -> u32
    ensures { result ≡ method_byte (composition_of b.now).settings.method }
{
    method_of(b[0]) as u32
}

#[tactic(auto, unfolding(crate::specs::Bytes::composition_of, crate::specs::Bytes::mode_of))]
pub fn mode_number(b: &[u8; SIZE]) -> u32
    ensures { result ≡ mode_byte (composition_of b.now).settings.mode }
{
    mode_of(b[1]) as u32
}

pub fn capitals_number(b: &[u8; SIZE]) -> u32
    ensures { result ≡ flag_byte (composition_of b.now).settings.capitals }
{
    u32::from(capitals(b))
}

#[tactic(auto, unfolding(crate::specs::Bytes::composition_of))]
pub fn cell_count(b: &[u8; SIZE]) -> usize
    ensures { result ≡ (composition_of b.now).count }
{
    usize::from(b[2])
}
