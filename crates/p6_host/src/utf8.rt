// UTF-8 (port order 5).
ghost use Rattle.std.specs.Prelude.{◌≡◌, length};
ghost use Rattle.p0_refusals.specs.Answers.{refusal_of, answer, output};
ghost use Rattle.p5_utf8_text.specs.Read.{reading};
ghost use Rattle.p5_utf8_text.specs.Write.{writing};
ghost use Rattle.p6_host.specs.Counts.{count_out};

use crate::answers::tell;

#[unsafe(no_mangle)]
pub extern "C" fn pasdrongel_read_utf8(bytes: &[u8], letters: &mut [u32], count: &mut usize) -> u32
    ensures value { result ≡ refusal_of (answer (reading bytes.now) (length letters.old)) }
    ensures letters_after { letters.new ≡ output (reading bytes.now) letters.old }
    ensures count_after { count.new ≡ count_out (answer (reading bytes.now) (length letters.old))
        count.old }
{
    let given = p5_utf8_text::reader::read(bytes, letters);
    tell(given, count)
}

#[unsafe(no_mangle)]
pub extern "C" fn pasdrongel_write_utf8(letters: &[u32], bytes: &mut [u8], count: &mut usize) -> u32
    ensures value { result ≡ refusal_of (answer (writing letters.now) (length bytes.old)) }
    ensures bytes_after { bytes.new ≡ output (writing letters.now) bytes.old }
    ensures count_after { count.new ≡ count_out (answer (writing letters.now) (length bytes.old))
        count.old }
{
    let given = p5_utf8_text::writer::write(letters, bytes);
    tell(given, count)
}
