// The cells of a draft, written from wherever they lie.
ghost use Rattle.std.specs.Prelude.{◌≡◌, ℕ, ◌<◌, ◌≤◌, length};
ghost use Rattle.p3_cells.specs.Cells.{limit};
ghost use Rattle.p3_cells.specs.Mirror.{cell_of, first_cells, places};
ghost use Rattle.p3_cells.specs.declared.Cell.{Cell};
ghost use Rattle.p3_cells.specs.declared.Composition.{Composition};
ghost use Rattle.p6_draft.specs.Draft.{draft_cells};
ghost use Rattle.p6_draft.specs.Mirror.{draft_head, draft_start, put_at};

use p3_cells::Cell;
use p6_draft as form;

// The first n cells, each of which `cell` gives at its place.
pub(crate) fn put_cells<F: Fn(usize) -> Cell>(n: usize, cell: F, draft: &mut [u8])
    requires callable { (i : ℕ) → i < n → F.pre cell i }
    requires room { (n ≤ limit) × (draft_start n ≤ length draft.old) }
    ensures { (c : Composition) → places c ≡ limit → ((i : ℕ) (x : Cell) → i < n → F.post cell i x → x ≡ cell_of c i)
        → draft.new ≡ put_at draft_head (draft_cells (first_cells c n)) draft.old }
{
    for i in 0..n {
        form::put_cell(draft, i, cell(i));
    }
}
