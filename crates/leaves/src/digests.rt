// Digests of the answers to every short input, a line for each first byte.
use crate::answers;
use report::EMPTY;
use std::io;
use std::io::Write;

fn print_digest<W: Write>(to: &mut W, letter: u8, first: u8, digest: u64) -> io::Result<()> {
    let words = report::push(report::no_words(), u64::from(first));
    report::print_line(to, letter, report::push(words, digest))
}

// The input of one byte, and then all of two bytes, that start with `first`.
fn inputs_from(letter: u8, first: u8) -> u64 {
    let one = [first];
    let mut digest = report::mix_words(EMPTY, answers::answer(letter, &one));
    for second in 0..=255u8 {
        let two = [first, second];
        digest = report::mix_words(digest, answers::answer(letter, &two));
    }
    digest
}

// Every input of one and of two bytes, for the letter that the input names.
pub(crate) fn short_inputs<W: Write>(to: &mut W, input: &[u8]) -> io::Result<()> {
    let Some(&letter) = input.first() else {
        return Ok(());
    };
    for first in 0..=255u8 {
        print_digest(to, letter, first, inputs_from(letter, first))?;
    }
    Ok(())
}

// A text's validity, its replaced bytes behind their length, its hash and its letter.
fn mix_text(digest: u64, text: &[u8]) -> u64 {
    let mut buffer = [0u8; 9];
    let mut out = report::mix(digest, questions::flag(text::utf8_valid(text)));
    out = report::mix(out, text::replaced_len(text) as u64);
    out = report::mix_replaced(out, text, &mut buffer);
    out = report::mix(out, text::hash_tag_parameter(text));
    report::mix(out, questions::letter_of(tag::inline_value_kind(text)))
}

fn texts_from_two(digest: u64, first: u8, second: u8) -> u64 {
    let mut out = digest;
    for third in 0..=255u8 {
        let text = [first, second, third];
        out = mix_text(out, &text);
    }
    out
}

fn texts_from(first: u8) -> u64 {
    let mut digest = EMPTY;
    for second in 0..=255u8 {
        digest = texts_from_two(digest, first, second);
    }
    digest
}

// Every text of three bytes.
pub(crate) fn texts_of_three<W: Write>(to: &mut W) -> io::Result<()> {
    for first in 0..=255u8 {
        print_digest(to, b'3', first, texts_from(first))?;
    }
    Ok(())
}
