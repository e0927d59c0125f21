// Prints every listed word, one to a line, in UTF-8 and in order. Where one is not written, nothing more is, and that is told.
#![tactic(auto)]

use p4_spelling::LONGEST;
use p7_slices as slices;
use std::io;
use std::io::{Error, Stdout};
use std::process::ExitCode;

// The most bytes of a word.
const WORD: usize = p5_utf8_text::writer::WIDTH * LONGEST;

// Writes a word and a line feed; an error where it is not written.
fn print(to: Stdout, word: &[u32]) -> io::Result<()> {
    let mut bytes = [0; WORD + 1];
    let n = p5_utf8_text::writer::write(word, &mut bytes).map_err(|_| Error::other(
        "no letters of a word",
    ))?;
    if WORD < n {
        return Err(Error::other("more letters than a word's"));
    }
    bytes[n] = b'\n';
    to.write_all(slices::first(&bytes, n + 1))
}

// Writes the word of a number; an error where it is not written.
fn print_number(to: Stdout, n: usize) -> io::Result<()> {
    let mut letters = [0; LONGEST];
    let len = p5_lister::word_number(n, &mut letters).map_err(|_| Error::other(
        "no word of this number",
    ))?;
    print(to, slices::first(&letters, len))
}

fn main(rt: HostRuntime) -> ExitCode {
    for n in 0..p5_lister::total() {
        if let Err(error) = print_number(rt.stdout(), n) {
            let _ = eprintln!(rt; "wordlist: not all was written: {error}");
            return ExitCode::FAILURE;
        }
    }
    ExitCode::SUCCESS
}
