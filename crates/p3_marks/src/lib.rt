// Where the uo, ua and mark steps change cells (bamboo.rs: process_key, find_mark_backtrack), over a lent row of bases.
#![tactic(auto)]

ghost use Rattle.std.specs.Prelude.{◌≡◌};
ghost use Rattle.p3_cells.specs.Mirror.{row_cells};
ghost use Rattle.p3_marks.specs.Uo.{uo_place};
ghost use Rattle.p3_marks.specs.Ua.{ua_place};
ghost use Rattle.p3_marks.specs.Mark.{mark_place};
ghost use Rattle.p3_marks.specs.Mirror.{is_mark_key};

use p1_letters as letters;
use p2_input_method as input_method;
use p2_input_method::InputMethod;

// The u of the pair: an o after a u among the last 5, with no other vowel on the way.
#[tactic(auto, using(crate::proofs::Uo::uo_first, crate::proofs::Uo::uo_turn, crate::proofs::Uo::uo_end))]
pub fn find_uo(row: &[u32]) -> Option<usize>
    ensures { result ≡ uo_place (row_cells row.now) }
{
    let reach = row.len().saturating_sub(5).max(1);
    for i in (reach..row.len()).rev() {
        let o = letters::ascii_lower(row[i]);
        if o == 111 {
            let u = letters::ascii_lower(row[i - 1]);
            return if u == 117 { Some(i - 1) } else { None };
        }
        if letters::is_vowel(o) {
            return None;
        }
    }
    None
}

// The u of a ua at the end, with no q before it.
#[tactic(auto, using(crate::proofs::Ua::ua_turn))]
pub fn find_ua(row: &[u32]) -> Option<usize>
    ensures { result ≡ ua_place (row_cells row.now) }
{
    let n = row.len();
    if n < 2 {
        return None;
    }
    if letters::ascii_lower(row[n - 2]) != 117 || letters::ascii_lower(row[n - 1]) != 97 {
        return None;
    }
    if 2 < n && letters::ascii_lower(row[n - 3]) == 113 {
        return None;
    }
    Some(n - 2)
}

// The last of the 5 whose base makes a rule with the key; most keys are in no rule, and need no scan.
#[tactic(auto, using(crate::proofs::Mark::mark_no_key, crate::proofs::Mark::mark_first, crate::proofs::Mark::mark_turn, crate::proofs::Mark::mark_end))]
pub fn find_mark_backtrack(m: InputMethod, row: &[u32], k: u32) -> Option<usize>
    ensures { result ≡ mark_place m (row_cells row.now) k }
{
    if !is_mark_key(m, k) {
        return None;
    }
    for i in (row.len().saturating_sub(5)..row.len()).rev() {
        if input_method::mark_for(m, letters::ascii_lower(row[i]), k).is_some() {
            return Some(i);
        }
    }
    None
}

// The key of a mark rule: a d e o w, or 6 to 9.
#[tactic(auto, using(crate::proofs::Mark::telex_keys, crate::proofs::Mark::vni_keys), unfolding(crate::specs::Mirror::is_mark_key))]
fn is_mark_key(m: InputMethod, k: u32) -> bool
    ensures { result ≡ is_mark_key m k }
{
    match m {
        // d and e are neighbours: in one arm they would be a range, whose test comes after that of the others.
        InputMethod::Telex => match k {
            97 | 100 | 111 | 119 => true,
            101 => true,
            _ => false,
        },
        InputMethod::Vni => matches!(k, 54..=57),
    }
}
