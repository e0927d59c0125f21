// The lister (document 01, port order 5): the listed words by number, and the one that follows a word. Both go down the
// table of nodes of `p5_listing`: a letter's node stands in a row with those beside it, and each step goes to a higher number.
#![tactic(auto)]

ghost use Rattle.std.specs.Prelude.{◌≡◌, ◌++◌, ◌+◌, ◌≤◌, ◌<◌, MatchOption, eqb, length, take};
ghost use Rattle.p5_trie.specs.Mirror.{trie_size, nth, trie_at};
ghost use Rattle.p5_trie.specs.Numbering.{Many};
ghost use Rattle.p5_trie.proofs.Tests.{depth};
ghost use Rattle.p5_trie.proofs.Turn.{Turned};
ghost use Rattle.p5_listing.specs.Listed.{Listed};
ghost use Rattle.p5_listing.specs.Mirror.{node_count, letter_in, down_in, words_in, end_in, last_in, nodes};
ghost use Rattle.p4_spelling.specs.Verdict.{longest_length};
ghost use Rattle.p5_listing.specs.Counts.{word_count};
ghost use Rattle.p0_refusals.specs.Answers.{Outcome, writes, answer, output};
ghost use Rattle.p5_lister.specs.Meaning.{NumberMeans, NextMeans};
ghost use Rattle.p5_lister.specs.Mirror.{PassedAll, HaltsAt};

use p0_refusals::{LETTERS, Refusal};
use p1_letters as letters;
use p4_spelling::LONGEST;
use p5_nodes as table;

// How many words are listed; `word_count` says the same.
const TOTAL: usize = 5963;

// More than any letter, and than the words of any list: bounds that stop no scan, so that one scan serves both walks.
const NO_LETTER: u32 = u32::MAX;

const MANY: usize = 65536;

// What the table says of a node, as one number, so that the table has four bytes a node: the panel's image is nearly full.
#[derive(Clone, Copy)]
struct Entry {
    bits: u32,
}

impl Entry {
    fn letter(self) -> u32
        ensures { result ≡ letter_in self.bits }
    {
        self.bits / 2097152
    }

    // Where the row of the nodes below begins; COUNT where there are none.
    fn down(self) -> usize
        ensures { result ≡ down_in self.bits }
    {
        (self.bits / 4096 % 512) as usize
    }

    // How many words go through the node.
    fn words(self) -> usize
        ensures { result ≡ words_in self.bits }
    {
        (self.bits / 4 % 1024) as usize
    }

    // How many words end at the node, 0 or 1.
    fn ends(self) -> usize
        ensures { result ≡ end_in self.bits }
    {
        (self.bits / 2 % 2) as usize
    }

    // No node is beside it.
    fn is_last(self) -> bool
        ensures { result ≡ eqb (last_in self.bits) 1 }
    {
        self.bits % 2 == 1
    }
}

// Where a scan stopped: a node, its entry, and what is left of the number.
#[derive(Clone, Copy)]
struct Halt {
    node: usize,
    left: usize,
    entry: Entry,
}

// The first node from `from` on, in its row, whose letter is y or more or through which, with those before it, more than `most`
// words go. Of all functions this one reads the table. A row's place is a plain number: a type for it would be taken apart at
// each step.
fn scan(from: usize, y: u32, most: usize) -> Option<Halt>
    requires { from ≤ node_count }
    ensures { MatchOption result (PassedAll from y most) (λ h. HaltsAt from y most h.node h.left h.entry.bits) }
{
    let mut left = most;
    for node in from..table::COUNT {
        let entry = Entry {
            bits: table::entry(node),
        };
        let through = entry.words();
        if y <= entry.letter() || left < through {
            return Some(Halt { node, left, entry });
        }
        if entry.is_last() {
            return None;
        }
        left -= through;
    }
    None
}

// A word: the first `len` letters (no heap: an array with a length).
#[derive(Clone, Copy)]
struct Spelled {
    len: usize,
    letters: [u32; LONGEST],
}

// The letters that are kept, and after them word n of the nodes from `from` on.
fn spell(from: usize, kept: Spelled, n: usize) -> Spelled
    requires { (from ≤ node_count) × (n < trie_size (trie_at nodes from)) × (kept.len + depth (trie_at nodes from) ≤ longest_length) }
    ensures { (result.len ≤ longest_length)
        × (take result.len result.letters ≡ take kept.len kept.letters ++ nth (trie_at nodes from) n) }
{
    let mut word = kept;
    let mut row = from;
    let mut left = n;
    while let Some(halt) = scan(row, NO_LETTER, left) {
        word.letters[word.len] = halt.entry.letter();
        word.len += 1;
        let ends = halt.entry.ends();
        if halt.left < ends {
            return word;
        }
        left = halt.left - ends;
        row = halt.entry.down();
    }
    word
}

// Where the next word parts from a word: after `at` letters, to the first word of the node.
#[derive(Clone, Copy)]
struct Parting {
    node: usize,
    at: usize,
}

// Goes along the word, and says where the next one parts from it, if one follows; `back` is the node beside the last one
// passed that had one.
fn turn(root: usize, word: &[u32]) -> Option<Parting>
    requires { (root ≤ node_count) × (trie_size (trie_at nodes root) ≤ 65536) }
    ensures { MatchOption result (Turned nodes root word.now node_count 0)
        (λ p. (p.node < node_count) × Turned nodes root word.now p.node p.at) }
{
    let mut row = root;
    let mut back = None;
    for (i, y) in word.iter().enumerate() {
        let Some(halt) = scan(row, *y, MANY) else {
            return back;
        };
        if *y < halt.entry.letter() {
            return Some(Parting {
                node: halt.node,
                at: i,
            });
        }
        if !halt.entry.is_last() {
            back = Some(Parting {
                node: halt.node + 1,
                at: i,
            });
        }
        row = halt.entry.down();
    }
    if row == table::COUNT {
        return back;
    }
    Some(Parting {
        node: row,
        at: word.len(),
    })
}

// The first n letters of the word.
fn keep(word: &[u32], n: usize) -> Spelled
    requires { (n ≤ longest_length) × (n ≤ length word.now) }
    ensures { (result.len ≡ n) × (take n result.letters ≡ take n word.now) }
{
    let mut letters = [0; LONGEST];
    letters[..n].copy_from_slice(&word[..n]);
    Spelled { len: n, letters }
}

// Gives the word, if there is room for it.
fn give(word: &Spelled, out: &mut [u32]) -> Result<usize, Refusal>
    requires { word.now.len ≤ longest_length }
    ensures { (result ≡ answer (writes (take word.now.len word.now.letters)) (length out.old))
        × (out.new ≡ output (writes (take word.now.len word.now.letters)) out.old) }
{
    let len = word.len;
    if out.len() < len {
        return Err(Refusal::Short);
    }
    out[..len].copy_from_slice(&word.letters[..len]);
    Ok(len)
}

// How many words are listed: the numbers below this name them.
pub fn total() -> usize
    ensures { (result ≡ word_count) × Many Listed result }
{
    TOTAL
}

// The listed word of number n, from 0.
pub fn word_number(n: usize, out: &mut [u32]) -> Result<usize, Refusal>
    ensures { (u : Outcome) × NumberMeans Listed n u
        × (result ≡ answer u (length out.old)) × (out.new ≡ output u out.old) }
{
    if TOTAL <= n {
        return Err(Refusal::NoWord);
    }
    let none = keep(&[], 0);
    let word = spell(table::ROOT, none, n);
    give(&word, out)
}

// The first listed word after a permitted word, which need not be listed.
pub fn next_word(word: &[u32], out: &mut [u32]) -> Result<usize, Refusal>
    ensures { (u : Outcome) × NextMeans Listed word.now u
        × (result ≡ answer u (length out.old)) × (out.new ≡ output u out.old) }
{
    if LETTERS < word.len() {
        return Err(Refusal::Long);
    }
    if !letters::all_letters(word) {
        return Err(Refusal::Foreign);
    }
    let parting = turn(table::ROOT, word).ok_or(Refusal::NoWord)?;
    let kept = keep(word, parting.at);
    let next = spell(parting.node, kept, 0);
    give(&next, out)
}
