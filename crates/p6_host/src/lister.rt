// The list of all accepted syllables (port order 5).
ghost use Rattle.std.specs.Prelude.{◌≡◌, length};
ghost use Rattle.p0_refusals.specs.Answers.{Outcome, refusal_of, answer, output};
ghost use Rattle.p5_trie.specs.Numbering.{Many};
ghost use Rattle.p5_listing.specs.Counts.{word_count};
ghost use Rattle.p5_listing.specs.Listed.{Listed};
ghost use Rattle.p5_lister.specs.Meaning.{NumberMeans, NextMeans};
ghost use Rattle.p6_host.specs.Counts.{count_out};

use crate::answers::tell;

#[unsafe(no_mangle)]
pub extern "C" fn pasdrongel_total(total: &mut usize) -> u32
    ensures { (result ≡ 0) × (total.new ≡ word_count) × Many Listed total.new }
{
    *total = p5_lister::total();
    0
}

#[unsafe(no_mangle)]
pub extern "C" fn pasdrongel_word(number: usize, word: &mut [u32], count: &mut usize) -> u32
    ensures { (u : Outcome) × NumberMeans Listed number u
        × (result ≡ refusal_of (answer u (length word.old)))
        × (word.new ≡ output u word.old)
        × (count.new ≡ count_out (answer u (length word.old)) count.old) }
{
    let given = p5_lister::word_number(number, word);
    tell(given, count)
}

#[unsafe(no_mangle)]
pub extern "C" fn pasdrongel_next_word(after: &[u32], word: &mut [u32], count: &mut usize) -> u32
    ensures { (u : Outcome) × NextMeans Listed after.now u
        × (result ≡ refusal_of (answer u (length word.old)))
        × (word.new ≡ output u word.old)
        × (count.new ≡ count_out (answer u (length word.old)) count.old) }
{
    let given = p5_lister::next_word(after, word);
    tell(given, count)
}
