// No code: the choice by a test, texts as code points, and tables tested entry by entry (specs/), with
// the laws by which every other crate's proofs go (proofs/).
#![tactic(auto)]
