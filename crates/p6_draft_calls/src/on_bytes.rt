// Drafts of a composition that is given as bytes, for a host in C. After a refusal not a byte has changed. These calls and those by
// value are two: bytes are lent and hold the settings as numbers. What the two share is in p6_draft and in `cells`.
ghost use Rattle.std.specs.Prelude.{◌≡◌, true, length};
ghost use Rattle.p0_refusals.specs.Answers.{answer, output};
ghost use Rattle.p6_bytes.specs.Bytes.{bytes_of};
ghost use Rattle.p6_draft.specs.Draft.{Reading, Means};
ghost use Rattle.p6_draft.specs.Mirror.{draft_composition, is_draft};
ghost use Rattle.p6_draft_calls.specs.Calls.{bytes_outcome, read_on, read_bytes};

use crate::cells::put_cells;
use p0_refusals::Refusal;
use p6_bytes as bytes;
use p6_bytes::SIZE;
use p6_draft as form;
use p6_zeros as zeros;

// The draft of a composition, from the start of an output. Refusals: 10, then 3; the output then stays as it was.
pub fn write_on(state: &[u8], draft: &mut [u8]) -> Result<usize, Refusal>
    ensures value { result ≡ answer (bytes_outcome state.now) (length draft.old) }
    ensures draft_after { draft.new ≡ output (bytes_outcome state.now) draft.old }
{
    let Some(state) = bytes::checked(state) else {
        return Err(Refusal::Unsound);
    };
    let n = bytes::cell_count(state);
    let m = form::FRAME + form::CELL * n;
    if draft.len() < m {
        return Err(Refusal::Short);
    }
    form::put_head(draft, state[0], state[1], n);
    put_cells(n, |i| bytes::cell(state, i), draft);
    form::put_tail(draft, state[3], n);
    Ok(m)
}

// The composition of a draft, over whatever stands in `state`.
fn fill_on(draft: &[u8], state: &mut [u8; SIZE])
    requires { is_draft draft.now ≡ true }
    ensures { state.new ≡ bytes_of (draft_composition draft.now) }
{
    let n = form::cell_count(draft);
    zeros::put_zeros(state, 0, SIZE);
    state[0] = draft[3];
    state[1] = draft[7];
    state[2] = n as u8;
    state[3] = draft[form::HEAD + form::CELL * n + 3];
    for i in 0..n {
        bytes::store(state, i, form::cell(draft, i));
    }
}

// The composition that the bytes are the draft of. Refusals: 10 where `state` has another length, then 11 where they are none. What
// stood in `state` is not looked at.
pub fn read_on(draft: &[u8], state: &mut [u8]) -> Result<usize, Refusal>
    ensures { (u : Reading) × Means draft.now u × (result ≡ read_on u state.old)
        × (state.new ≡ read_bytes u state.old) }
{
    let Some(state) = state.as_mut_array() else {
        return Err(Refusal::Unsound);
    };
    if !form::is_draft(draft) {
        return Err(Refusal::NoDraft);
    }
    fill_on(draft, state);
    Ok(0)
}
