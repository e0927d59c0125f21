// The floor: what no key can be spared. It appends its letter to a row, as long as the cells of a composition, and copies the
// letters so far to the text.
ghost use Rattle.std.specs.Prelude.{◌≡◌, ◌<◌, length};
ghost use Rattle.p3_cells.specs.Cells.{limit};
ghost use Rattle.p7_bench.specs.Run.{after_keys};
ghost use Rattle.p7_bench.specs.Floor.{copied, free_place, lay, blank_sheet};

use p3_cells::LIMIT;

// Copies letters to the start of a text that has room for them.
#[tactic(auto, using(crate::proofs::Rows::copy_short), unfolding(crate::specs::Floor::copied))]
fn copy(letters: &[u32], text: &mut [u32])
    ensures { text.new ≡ copied letters.now text.old }
{
    let n = letters.len();
    if n <= text.len() {
        text[..n].copy_from_slice(letters);
    }
}

// Where the next letter goes: a full row starts afresh.
#[tactic(auto, using(p0_choice::proofs::Choices::picks), unfolding(crate::specs::Floor::free_place))]
fn free_place(count: usize) -> usize
    ensures { (result ≡ free_place count) × (result < limit) }
{
    if count < LIMIT { count } else { 0 }
}

// Answers how many letters are in the row at the end.
#[unsafe(no_mangle)]
#[tactic(auto, using(crate::proofs::Rows::lay_start, crate::proofs::Rows::lay_line, crate::proofs::Rows::lay_room, crate::proofs::Rows::lay_more, crate::proofs::Rows::lay_count, crate::proofs::Rows::lay_text))]
pub extern "C" fn pasdrongel_bench_floor(keys: &[u32], text: &mut [u32]) -> usize
    ensures value { result ≡ length (after_keys lay (blank_sheet text.old) keys.now).row }
    ensures text_after { text.new ≡ (after_keys lay (blank_sheet text.old) keys.now).text }
{
    let mut row = [0u32; LIMIT];
    let mut count: usize = 0;
    for k in keys {
        if *k == 0x0a {
            count = 0;
        } else {
            let at = free_place(count);
            row[at] = *k;
            count = at + 1;
            copy(&row[..count], text);
        }
    }
    count
}
