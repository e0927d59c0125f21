// Drafts of a composition by value, for a host in Rattle.
ghost use Rattle.std.specs.Prelude.{◌≡◌, true, length};
ghost use Rattle.p0_refusals.specs.Answers.{answer, output};
ghost use Rattle.p6_draft.specs.Draft.{Reading, Means};
ghost use Rattle.p6_draft.specs.Mirror.{draft_composition, is_draft};
ghost use Rattle.p6_draft_calls.specs.Calls.{draft_outcome, read_to};

use crate::cells::put_cells;
use p0_refusals::Refusal;
use p3_cells as cells;
use p3_cells::{After, Composition};
use p6_draft as form;

// The draft of a composition, from the start of an output. Refusals: 10, then 3; the output then stays as it was.
pub fn write(c: Composition, draft: &mut [u8]) -> Result<usize, Refusal>
    ensures value { result ≡ answer (draft_outcome c) (length draft.old) }
    ensures draft_after { draft.new ≡ output (draft_outcome c) draft.old }
{
    if !cells::sound(c) {
        return Err(Refusal::Unsound);
    }
    let n = c.count;
    let m = form::FRAME + form::CELL * n;
    if draft.len() < m {
        return Err(Refusal::Short);
    }
    let z = c.settings;
    form::put_head(draft, z.method as u8, z.mode as u8, n);
    put_cells(n, |i| c.cells[i], draft);
    form::put_tail(draft, u8::from(z.capitals), n);
    Ok(m)
}

// The composition of a draft.
fn composition(draft: &[u8]) -> Composition
    requires { is_draft draft.now ≡ true }
    ensures { result ≡ draft_composition draft.now }
{
    let n = form::cell_count(draft);
    let z = form::settings(draft, n);
    let mut c = p3_calls::empty(z);
    c.count = n;
    for i in 0..n {
        c.cells[i] = form::cell(draft, i);
    }
    c
}

// The composition that the bytes are the draft of; where they are none, 11 and the composition that stood there.
pub fn read(c: Composition, draft: &[u8]) -> After
    ensures { (u : Reading) × Means draft.now u × (result ≡ read_to u c) }
{
    if !form::is_draft(draft) {
        return After {
            comp: c,
            answer: Err(Refusal::NoDraft),
        };
    }
    After {
        comp: composition(draft),
        answer: Ok(0),
    }
}
