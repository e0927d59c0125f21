// No code: request 2026-05 of document 02, the limit of 96 cells, and the drafts of panels with another limit. What names the limit,
// with any other in its place (specs/); the form of a draft does not depend on it, and a reader with a lower limit reads exactly the
// drafts that its compositions have room for, and refuses the longer ones by 11 (proofs/).
#![tactic(auto)]
