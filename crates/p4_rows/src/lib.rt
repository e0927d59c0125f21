// The rows of `spelling.rs` as letter tables, and its two matrices: in which rows a part of a word stands,
// and whether a row of one part goes with a row of another.
#![tactic(auto)]

ghost use Rattle.std.specs.Prelude.{◌≡◌};
ghost use Rattle.p4_rows.specs.Rows.{onset_rows, vowel_rows, coda_rows, onset_to_vowels, vowels_to_coda};
ghost use Rattle.p4_rows.specs.Lookup.{rows_of, go_together};
ghost use Rattle.p4_rows.specs.Mirror.{key_of, rows_on, onset_keys, vowel_keys, coda_keys, entry, any_entry};

// By onset row and vowel row.
const CV_MATRIX: [[bool; 8]; 5] = [
    [true, true, true, false, false, true, false, false],
    [true, true, true, true, true, true, false, false],
    [true, true, true, true, false, true, false, false],
    [false, false, false, false, false, false, true, false],
    [false, false, false, false, false, false, false, true],
];

// By vowel row and coda row.
const VC_MATRIX: [[bool; 5]; 8] = [
    [true, false, true, false, false],
    [true, true, true, false, false],
    [false, true, true, false, false],
    [false, true, true, false, false],
    [false, false, false, false, false],
    [false, false, false, false, false],
    [false, false, false, true, false],
    [false, false, false, false, true],
];

// A part's letters as one number, four hexadecimal digits a letter and the number of letters last, so that no two
// parts have one key and the tables below can be read. 0 for what no table has: no letter, over three, or beyond U+FFFF. By parts
// themselves a table would be tests in turn, sixty for the vowels.
#[tactic(auto, unfolding(crate::specs::Mirror::key_of))]
fn key(part: &[u32]) -> u64
    ensures { result ≡ key_of part.now }
{
    match *part {
        [a] if a < 0x1_0000 => u64::from(a) * 0x10 + 1,
        [a, b] if a < 0x1_0000 && b < 0x1_0000 => (u64::from(a) * 0x1_0000 + u64::from(b)) * 0x10
            + 2,
        [a, b, c] if a < 0x1_0000 && b < 0x1_0000 && c < 0x1_0000 => {
            ((u64::from(a) * 0x1_0000 + u64::from(b)) * 0x1_0000 + u64::from(c)) * 0x10 + 3
        }
        _ => 0,
    }
}

#[tactic(auto, unfolding(p0_choice::specs::Text::word, p0_choice::specs::Text::words, p0_choice::specs::Text::words_from, crate::specs::Rows::onset_rows, crate::specs::Mirror::key_of, crate::specs::Mirror::key_rows, crate::specs::Mirror::onset_keys, crate::specs::Mirror::rows_on_from, crate::specs::Mirror::rows_on))]
fn onset_rows(key: u64) -> &'static [usize]
    ensures { result.now ≡ rows_on onset_keys key }
{
    match key {
        // b d g m n p r s t v z gh nh ph tr
        0x0062_1
        | 0x0064_1
        | 0x0067_1
        | 0x006d_1
        | 0x006e_1
        | 0x0070_1
        | 0x0072_1
        | 0x0073_1
        | 0x0074_1
        | 0x0076_1
        | 0x007a_1
        | 0x0067_0068_2
        | 0x006e_0068_2
        | 0x0070_0068_2
        | 0x0074_0072_2 => &[0],
        // đ
        0x0111_1 => &[0, 3],
        // c k kh qu th
        0x0063_1 | 0x006b_1 | 0x006b_0068_2 | 0x0071_0075_2 | 0x0074_0068_2 => &[1],
        // h
        0x0068_1 => &[1, 4],
        // x ch gi ng ngh
        0x0078_1 | 0x0063_0068_2 | 0x0067_0069_2 | 0x006e_0067_2 | 0x006e_0067_0068_3 => &[2],
        // l
        0x006c_1 => &[2, 3],
        _ => &[],
    }
}

#[tactic(auto, unfolding(p0_choice::specs::Text::word, p0_choice::specs::Text::words, p0_choice::specs::Text::words_from, crate::specs::Rows::vowel_rows, crate::specs::Mirror::key_of, crate::specs::Mirror::key_rows, crate::specs::Mirror::vowel_keys, crate::specs::Mirror::rows_on_from, crate::specs::Mirror::rows_on))]
fn vowels_rows(key: u64) -> &'static [usize]
    ensures { result.now ≡ rows_on vowel_keys key }
{
    match key {
        // y ê ua uy uê
        0x0079_1 | 0x00ea_1 | 0x0075_0061_2 | 0x0075_0079_2 | 0x0075_00ea_2 => &[0],
        // i
        0x0069_1 => &[0, 7],
        // a iê oa yê uyê
        0x0061_1 | 0x0069_00ea_2 | 0x006f_0061_2 | 0x0079_00ea_2 | 0x0075_0079_00ea_3 => &[1],
        // e o u â ô ơ ư oe oo uâ uô ươ
        0x0065_1
        | 0x006f_1
        | 0x0075_1
        | 0x00e2_1
        | 0x00f4_1
        | 0x01a1_1
        | 0x01b0_1
        | 0x006f_0065_2
        | 0x006f_006f_2
        | 0x0075_00e2_2
        | 0x0075_00f4_2
        | 0x01b0_01a1_2 => &[2],
        // ă
        0x0103_1 => &[2, 6],
        // oă
        0x006f_0103_2 => &[3],
        // uơ
        0x0075_01a1_2 => &[4],
        // ai ao au ay eo ia iu oi ui âu ây êu ôi ơi ưa ưi ưu iêu oai oao oay oeo uya uyu uây uôi yêu ươi ươu
        0x0061_0069_2
        | 0x0061_006f_2
        | 0x0061_0075_2
        | 0x0061_0079_2
        | 0x0065_006f_2
        | 0x0069_0061_2
        | 0x0069_0075_2
        | 0x006f_0069_2
        | 0x0075_0069_2
        | 0x00e2_0075_2
        | 0x00e2_0079_2
        | 0x00ea_0075_2
        | 0x00f4_0069_2
        | 0x01a1_0069_2
        | 0x01b0_0061_2
        | 0x01b0_0069_2
        | 0x01b0_0075_2
        | 0x0069_00ea_0075_3
        | 0x006f_0061_0069_3
        | 0x006f_0061_006f_3
        | 0x006f_0061_0079_3
        | 0x006f_0065_006f_3
        | 0x0075_0079_0061_3
        | 0x0075_0079_0075_3
        | 0x0075_00e2_0079_3
        | 0x0075_00f4_0069_3
        | 0x0079_00ea_0075_3
        | 0x01b0_01a1_0069_3
        | 0x01b0_01a1_0075_3 => &[5],
        _ => &[],
    }
}

#[tactic(auto, unfolding(p0_choice::specs::Text::word, p0_choice::specs::Text::words, p0_choice::specs::Text::words_from, crate::specs::Rows::coda_rows, crate::specs::Mirror::key_of, crate::specs::Mirror::key_rows, crate::specs::Mirror::coda_keys, crate::specs::Mirror::rows_on_from, crate::specs::Mirror::rows_on))]
fn coda_rows(key: u64) -> &'static [usize]
    ensures { result.now ≡ rows_on coda_keys key }
{
    match key {
        // ch nh
        0x0063_0068_2 | 0x006e_0068_2 => &[0],
        // ng
        0x006e_0067_2 => &[1],
        // c
        0x0063_1 => &[1, 4],
        // m n p t
        0x006d_1 | 0x006e_1 | 0x0070_1 | 0x0074_1 => &[2],
        // k
        0x006b_1 => &[3],
        _ => &[],
    }
}

// Three tables and three names: one function would be handed the table, which the name already says.
#[tactic(auto, using(crate::proofs::Keys::looks_up_onset))]
pub fn lookup_onset(part: &[u32]) -> &'static [usize]
    ensures { result.now ≡ rows_of onset_rows part.now }
{
    onset_rows(key(part))
}

#[tactic(auto, using(crate::proofs::Keys::looks_up_vowels))]
pub fn lookup_vowels(part: &[u32]) -> &'static [usize]
    ensures { result.now ≡ rows_of vowel_rows part.now }
{
    vowels_rows(key(part))
}

#[tactic(auto, using(crate::proofs::Keys::looks_up_coda))]
pub fn lookup_coda(part: &[u32]) -> &'static [usize]
    ensures { result.now ≡ rows_of coda_rows part.now }
{
    coda_rows(key(part))
}

// Whether a row goes with another; none goes with a row that there is not.
fn allows<const N: usize>(matrix: &[[bool; N]], a: usize, b: usize) -> bool
    ensures { result ≡ entry matrix.now a b }
{
    let Some(row) = matrix.get(a) else {
        return false;
    };
    matches!(row.get(b), Some(true))
}

// Some row of the first part goes with some row of the second: the search ends at the first pair allowed.
#[tactic(auto, using(crate::proofs::Matrices::none_told, crate::proofs::Matrices::one_told))]
fn pair_valid<const N: usize>(matrix: &[[bool; N]], first: &[usize], second: &[usize]) -> bool
    ensures { result ≡ any_entry matrix.now first.now second.now }
{
    let mut valid = false;
    'pairs: for a in first {
        for b in second {
            if allows(matrix, *a, *b) {
                valid = true;
                break 'pairs;
            }
        }
    }
    valid
}

// Some row of the onset goes with some row of the vowels.
pub fn cv_valid(onset: &[usize], vowels: &[usize]) -> bool
    ensures { result ≡ go_together onset_to_vowels onset.now vowels.now }
{
    pair_valid(&CV_MATRIX, onset, vowels)
}

// Some row of the vowels goes with some row of the coda.
pub fn vc_valid(vowels: &[usize], coda: &[usize]) -> bool
    ensures { result ≡ go_together vowels_to_coda vowels.now coda.now }
{
    pair_valid(&VC_MATRIX, vowels, coda)
}
