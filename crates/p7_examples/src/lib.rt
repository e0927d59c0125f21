// No code: document 01's examples marked (P), over the definitions of composer, undo and verdict.
#![tactic(auto)]
