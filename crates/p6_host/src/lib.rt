// The calls for a host in C, on numbers and lent slices; include/pasdrongel.h declares them. Each returns its
// refusal's number of document 01's table, 0 for none; after a refusal every lent place is as it was.
// All exports stand in this one crate, a module for each subject: the archive has this crate's alone.
#![tactic(auto)]

pub mod answers;
pub mod composition;
pub mod drafts;
pub mod input_method;
pub mod letters;
pub mod lines;
pub mod lister;
pub mod speller;
pub mod utf8;
