// No code: request 2026-01 of document 02, the capitals setting. The definitions of document 01 as they read without it, and
// what two settings may differ in (specs/); with the setting off the calls are those of document 01, with it on the text is in
// Unicode's capitals, and under both the compositions are one but for the flags of ơ (proofs/).
#![tactic(auto)]
