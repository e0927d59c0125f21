// The two input methods (input_method.rs): tone keys, and mark rules in order.
#![tactic(auto)]

ghost use Rattle.std.specs.Prelude.{◌≡◌, get_or};
ghost use Rattle.p2_input_method.specs.Rules.{is_tone_key, mark_rules, is_horn_key};
ghost use Rattle.p2_input_method.specs.Mirror.{mark_found, method_numbered, no_rule};
ghost use Rattle.p2_input_method.specs.declared.InputMethod.TheVariants.{Telex};

use p0_refusals::Refusal;

#[derive(Clone, Copy, Debug, PartialEq, Eq)]
pub enum InputMethod {
    Telex,
    Vni,
}

// A mark rule: its pattern of two letters, and the letter that it makes.
#[derive(Clone, Copy, Debug, PartialEq, Eq)]
pub struct MarkRule {
    pub first: u32,
    pub key: u32,
    pub result: u16,
}

pub const TELEX_RULES: usize = 7;

// The method that a host names by a number: 0 is Telex, 1 is VNI.
impl TryFrom<u32> for InputMethod {
    type Error = Refusal;

    ghost try_from_gives = { λ number method. method ≡ method_numbered number };

    #[tactic(auto, unfolding(crate::specs::Mirror::method_numbered))]
    fn try_from(number: u32) -> Result<InputMethod, Refusal> {
        match number {
            0 => Ok(InputMethod::Telex),
            1 => Ok(InputMethod::Vni),
            _ => Err(Refusal::Unsound),
        }
    }
}

// f s r x j, or 1 to 5.
#[tactic(auto, unfolding(crate::specs::Rules::is_tone_key, crate::specs::Rules::tone_keys, p0_choice::specs::Text::word))]
pub fn is_tone_key(m: InputMethod, k: u32) -> bool
    ensures { result ≡ is_tone_key m k }
{
    match m {
        // r and s are neighbours: in one arm they would be a range, whose test comes after that of the others.
        InputMethod::Telex => match k {
            102 | 106 | 114 | 120 => true,
            115 => true,
            _ => false,
        },
        InputMethod::Vni => matches!(k, 49..=53),
    }
}

// The letter that base and key make, both in lower case.
#[tactic(auto, unfolding(crate::specs::Mirror::mark_found, crate::specs::Rules::mark_for, crate::specs::Rules::mark_rules, crate::specs::Rules::mark_rule, crate::specs::Rules::mark_in, p0_choice::specs::Text::word))]
pub fn mark_for(m: InputMethod, b: u32, k: u32) -> Option<u16>
    ensures { result ≡ mark_found m b k }
{
    match (m, k, b) {
        (InputMethod::Telex, 97, 97) | (InputMethod::Vni, 54, 97) => Some(0xe2),
        (InputMethod::Telex, 101, 101) | (InputMethod::Vni, 54, 101) => Some(0xea),
        (InputMethod::Telex, 111, 111) | (InputMethod::Vni, 54, 111) => Some(0xf4),
        (InputMethod::Telex, 119, 97) | (InputMethod::Vni, 56, 97) => Some(0x103),
        (InputMethod::Telex, 119, 111) | (InputMethod::Vni, 55, 111) => Some(0x1a1),
        (InputMethod::Telex, 119, 117) | (InputMethod::Vni, 55, 117) => Some(0x1b0),
        (InputMethod::Telex, 100, 100) | (InputMethod::Vni, 57, 100) => Some(0x111),
        _ => None,
    }
}

// The key of the uo and ua steps.
#[tactic(auto, unfolding(crate::specs::Rules::is_horn_key))]
pub fn is_horn_key(m: InputMethod, k: u32) -> bool
    ensures { result ≡ is_horn_key m k }
{
    match m {
        InputMethod::Telex => k == 119,
        InputMethod::Vni => k == 55,
    }
}

// Telex's rules in order, aw aa ee oo ow uw dd.
#[tactic(auto, unfolding(crate::specs::Rules::mark_rules, crate::specs::Rules::mark_rule, p0_choice::specs::Text::word))]
pub fn telex_rules() -> [MarkRule; TELEX_RULES]
    ensures { result ≡ mark_rules Telex }
{
    [
        MarkRule {
            first: 97,
            key: 119,
            result: 0x103,
        },
        MarkRule {
            first: 97,
            key: 97,
            result: 0xe2,
        },
        MarkRule {
            first: 101,
            key: 101,
            result: 0xea,
        },
        MarkRule {
            first: 111,
            key: 111,
            result: 0xf4,
        },
        MarkRule {
            first: 111,
            key: 119,
            result: 0x1a1,
        },
        MarkRule {
            first: 117,
            key: 119,
            result: 0x1b0,
        },
        MarkRule {
            first: 100,
            key: 100,
            result: 0x111,
        },
    ]
}

// One of them by its number, for every number: past the last, a rule of no letters.
pub fn telex_rule(i: usize) -> MarkRule
    ensures { result ≡ get_or (mark_rules Telex) i no_rule }
{
    telex_rules().get(i).copied().unwrap_or(MarkRule {
        first: 0,
        key: 0,
        result: 0,
    })
}
