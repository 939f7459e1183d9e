// What the programs that are run against the Rust print: an answer as a list of words, and digests of many answers.
#![tactic(auto)]

ghost use Rattle.std.specs.Prelude.{◌≡◌, ◌+◌, ◌%◌, min, length, unsigned_abs, OnOk};
ghost use Rattle.std.specs.Io.KnownBytes.{Appends};
ghost use Rattle.report.specs.Lines.{word_text, words_text, line_of};
ghost use Rattle.report.specs.Words.{no_words, pushed, mixed, mixed_upto, mixed_all, digest_of, sign_of, bits_of, float_of};
ghost use Rattle.report.specs.Texts.{room, zeros, mixed_replaced};
ghost use Rattle.text.specs.Writing.{writing};
ghost use Rattle.byte_source.specs.Answers.{read_by};
ghost use Rattle.report.specs.Records.{a_record, asked_in};

use byte_source::{Read, Span};
use std::io;
use std::io::Write;

// An answer: 0 and its values, or a refusal's number and its values. No answer that is printed has more than 40 words.
// An array with a count: a Vec may run out of memory at each word, and each function that answers words would have to say so.
#[derive(Clone, Copy)]
pub struct Words {
    pub words: [u64; 40],
    pub count: usize,
}

pub fn no_words() -> Words
    ensures { result ≡ no_words }
{
    Words {
        words: [0; 40],
        count: 0,
    }
}

// One word more, while there is room.
pub fn push(to: Words, word: u64) -> Words
    ensures { result ≡ pushed to word }
{
    let at = to.count;
    if 40 <= at {
        return to;
    }
    let mut words = to.words;
    words[at] = word;
    Words {
        words,
        count: at + 1,
    }
}

// A digest of nothing.
pub const EMPTY: u64 = 14695981039346656037;

// A word mixed into a digest.
pub fn mix(digest: u64, word: u64) -> u64
    ensures { result ≡ mixed digest word }
{
    digest.wrapping_mul(1099511628211).wrapping_add(word)
}

// Words mixed into a digest: their number, and then these.
pub fn mix_list(digest: u64, list: &[u64], count: usize) -> u64
    ensures { result ≡ mixed_upto (mixed digest count) list.now (min count (length list.now)) }
{
    let first = count.min(list.len());
    let mut out = mix(digest, count as u64);
    for &word in &list[..first] {
        out = mix(out, word);
    }
    out
}

// An answer mixed into a digest.
pub fn mix_words(digest: u64, words: Words) -> u64
    ensures { result ≡ digest_of digest words }
{
    let list = words.words;
    mix_list(digest, &list, words.count)
}

// Bytes mixed into a digest, one by one.
pub fn mix_bytes(digest: u64, bytes: &[u8]) -> u64
    ensures { result ≡ mixed_all digest bytes.now }
{
    let mut out = digest;
    for &byte in bytes {
        out = mix(out, u64::from(byte));
    }
    out
}

// A text's replaced bytes mixed into a digest, by way of the buffer; 0 if the buffer is too short.
pub fn mix_replaced(digest: u64, text: &[u8], buffer: &mut [u8]) -> u64
    ensures { (result ≡ mixed_replaced digest text.now (length buffer.old)) × (buffer.new ≡ (writing text.now buffer.old 0).buffer) }
{
    let Ok(n) = text::write_replaced(text, buffer, 0) else {
        return 0;
    };
    if buffer.len() < n {
        return 0;
    }
    mix_bytes(digest, &buffer[..n])
}

// Room for a map or a long text. In a function of its own, so that no proof looks into it.
pub fn large() -> [u8; 1100000]
    ensures { result ≡ zeros room }
{
    [0; 1100000]
}

// A text's replaced bytes mixed into a digest. A short text has a short buffer: there are many of them.
pub fn mix_text(digest: u64, text: &[u8]) -> u64
    ensures { result ≡ mixed_replaced digest text.now room }
{
    if text.len() < 300 {
        let mut buffer = [0u8; 900];
        return mix_replaced(digest, text, &mut buffer);
    }
    let mut buffer = large();
    mix_replaced(digest, text, &mut buffer)
}

// What a record asks, and where its question stands.
#[derive(Clone, Copy)]
pub struct Record {
    pub letter: u8,
    pub question: Span,
}

// A record: a letter, the length of the question in 4 bytes, the question.
#[tactic(auto, using(byte_source::proofs::ReadLaws::reads), unfolding(crate::specs::Records::a_record))]
pub fn read_record(input: &[u8], at: usize) -> Read<Record>
    ensures { read_by (asked_in input.now) result ≡ a_record input.now at }
{
    let (letter, at) = byte_source::read_u8(input, at)?;
    let (size, at) = byte_source::read_u32_be(input, at)?;
    let (question, at) = byte_source::read_bytes(input, at, size as usize)?;
    Ok((Record { letter, question }, at))
}

// A number's magnitude.
pub fn magnitude(v: i64) -> u64
    ensures { result ≡ unsigned_abs v }
{
    v.unsigned_abs()
}

// 1 for a negative number, and 0 for any other.
pub fn sign(v: i64) -> u64
    ensures { result ≡ sign_of v }
{
    u64::from(v < 0)
}

// The bits of a float; one pattern stands for every NaN.
pub fn float_bits(x: f64) -> u64
    ensures { result ≡ bits_of x }
{
    if x.is_nan() {
        return 9221120237041090560;
    }
    x.to_bits()
}

// The float of a bit pattern.
pub fn float_of(bits: u64) -> f64
    ensures { result ≡ float_of bits }
{
    if 9218868437227405312 < bits % 9223372036854775808 {
        return f64::NAN;
    }
    f64::from_bits(bits)
}

fn print_word<W: Write>(to: &mut W, word: u64) -> io::Result<()>
    ensures { OnOk result (Appends (W.contents to.old) (W.contents to.new) (word_text word)) }
{
    write!(to, " {word}")
}

fn print_words<W: Write>(to: &mut W, words: &[u64]) -> io::Result<()>
    ensures { OnOk result (Appends (W.contents to.old) (W.contents to.new) (words_text words.now)) }
{
    for word in words {
        print_word(to, *word)?;
    }
    Ok(())
}

// A line: the letter of what was asked, and the words of the answer.
pub fn print_line<W: Write>(to: &mut W, letter: u8, words: Words) -> io::Result<()>
    ensures { OnOk result (Appends (W.contents to.old) (W.contents to.new) (line_of letter words)) }
{
    let list = words.words;
    let count = words.count.min(40);
    to.write_all(&[letter])?;
    print_words(to, &list[..count])?;
    to.write_all(b"\n")
}
