// Replays the Rust's answers for the leaves without any Rust. Standard input is a list of records: a letter for what is asked,
// the length of the input in 4 bytes, the input. Each answer is a line of words; `compare/run leaves-sample` writes both sides.
#![tactic(auto)]

mod answers;
mod digests;
mod fills;

use std::io;
use std::io::{BufWriter, Read, Write};

// Some letters ask for a digest of every short input, or for a map that is filled up.
fn answer_record<W: Write>(to: &mut W, letter: u8, input: &[u8]) -> io::Result<()> {
    match letter {
        b'1' => digests::short_inputs(to, input),
        b'3' => digests::texts_of_three(to),
        b'T' => report::print_line(to, letter, fills::filled_text(input)),
        _ => report::print_line(to, letter, answers::answer(letter, input)),
    }
}

// No input has as many records as the loop may take.
fn answer_all<W: Write>(to: &mut W, input: &[u8]) -> io::Result<()> {
    let mut at = 0;
    for _ in 0..100000u32 {
        let Ok((asked, next)) = report::read_record(input, at) else {
            return Ok(());
        };
        let question = byte_source::span_bytes(input, asked.question);
        answer_record(to, asked.letter, question)?;
        at = next;
    }
    Ok(())
}

// More input than a map has room for is left unread. Each program has its `main`: what it calls is its own.
fn main(rt: HostRuntime) -> io::Result<()> {
    let mut input = Vec::new(rt.alloc());
    rt.reader().take(1100000).read_to_end(&mut input)?;
    let mut out = BufWriter::new(rt.alloc(), io::writer(&rt))?;
    answer_all(&mut out, &input)?;
    out.flush()
}
