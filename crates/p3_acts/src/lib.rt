// The keys that act (bamboo.rs: process_key): tone keys, and the keys of mark rules. Any other key is appended, whatever the
// cells are, so that its step needs no row of bases.
#![tactic(auto)]

ghost use Rattle.std.specs.Prelude.{◌≡◌};
ghost use Rattle.p3_acts.specs.Mirror.{acts as acts_of};

use p2_input_method::InputMethod;

// a d e f j o r s w x, or 1 to 9.
#[tactic(auto, unfolding(crate::specs::Mirror::acts, crate::specs::Mirror::act_keys, p0_choice::specs::Text::word))]
pub fn acts(m: InputMethod, k: u32) -> bool
    ensures { result ≡ acts_of m k }
{
    match m {
        // Neighbours stand in arms of their own: in one they would be a range, whose test comes after that of the others.
        InputMethod::Telex => match k {
            97 | 100 | 102 | 106 | 111 | 114 | 119 => true,
            101 | 115 | 120 => true,
            _ => false,
        },
        InputMethod::Vni => matches!(k, 49..=57),
    }
}
