// No code: words in a trie, and tries in a table of nodes (specs/). What the words are: each once, in dictionary order,
// numbered; and what a scan along a row of any table, and a word spelled letter by letter in it, come to (proofs/).
#![tactic(auto)]
