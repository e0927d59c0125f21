// The two calls of drafts (document 02, 2026-02): of a composition by value, and of one that is given as bytes. Each tests what it is
// given once; then cells go over one by one.
#![tactic(auto)]

pub mod by_value;
pub mod cells;
pub mod on_bytes;
