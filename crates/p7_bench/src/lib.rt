// Loops over the keys of a note, for bench/run to time what is called by value, which C cannot call. At each U+000A what was
// typed so far is put aside, and the next key starts afresh. The loop over the inner key stands in a crate of its own:
// a by-value function that has two callers in one library is not inlined, and copies the composition at each call.
#![tactic(auto)]

pub mod floor;
pub mod keys;
