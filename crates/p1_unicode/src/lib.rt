// No code: what the Unicode Standard says of the alphabet (specs/), and that the letters of p1_letters are
// Unicode's (proofs/).
#![tactic(auto)]
