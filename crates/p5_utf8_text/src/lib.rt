// Letters of the alphabet written as UTF-8, and bytes read as such (document 01, port order 5).
#![tactic(auto)]

pub mod reader;
pub mod writer;
