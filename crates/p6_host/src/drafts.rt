// Drafts of compositions, for keeping (document 02, 2026-02); docs/DRAFTS.md states their form.
ghost use Rattle.std.specs.Prelude.{◌≡◌, length};
ghost use Rattle.p0_refusals.specs.Answers.{refusal_of, answer, output};
ghost use Rattle.p6_draft.specs.Draft.{Reading, Means};
ghost use Rattle.p6_draft_calls.specs.Calls.{bytes_outcome, read_on, read_bytes};
ghost use Rattle.p6_host.specs.Counts.{count_out};

use crate::answers::tell;
use p0_refusals::refusal_of;
use p6_draft_calls::on_bytes;

#[unsafe(no_mangle)]
pub extern "C" fn pasdrongel_write_draft(state: &[u8], draft: &mut [u8], count: &mut usize) -> u32
    ensures value { result ≡ refusal_of (answer (bytes_outcome state.now) (length draft.old)) }
    ensures draft_after { draft.new ≡ output (bytes_outcome state.now) draft.old }
    ensures count_after { count.new ≡ count_out (answer (bytes_outcome state.now) (length draft.old))
        count.old }
{
    let given = on_bytes::write_on(state, draft);
    tell(given, count)
}

#[unsafe(no_mangle)]
pub extern "C" fn pasdrongel_read_draft(draft: &[u8], state: &mut [u8]) -> u32
    ensures { (u : Reading) × Means draft.now u × (result ≡ refusal_of (read_on u state.old))
        × (state.new ≡ read_bytes u state.old) }
{
    let given = on_bytes::read_on(draft, state);
    refusal_of(given)
}
