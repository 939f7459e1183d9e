// Replays the Rust's answers for the index, the tags and the columns without any Rust. Standard input is a list of records: a letter for
// what is asked, the length of the input in 4 bytes, the input. Each answer is a line of words; `compare/run index-sample` writes both
// sides.
#![tactic(auto)]

mod answers;
mod columns;

use byte_source::Span;
use report::{Record, Words};
use std::io;
use std::io::{BufWriter, Read, Write};

// A question to the base map's header; 99 if it does not open.
fn header_answer(letter: u8, map: &[u8], question: &[u8]) -> Words {
    match opening::from_source(map) {
        Ok((header, _)) => answers::answer(letter, map, header, question),
        Err(_) => report::push(report::no_words(), 99),
    }
}

// M a map; l and x columns and longitudes, which need none.
fn answer(letter: u8, map: &[u8], question: &[u8]) -> Words {
    match letter {
        b'M' => report::no_words(),
        b'l' => columns::column_words(question),
        b'x' => columns::longitude_words(question),
        _ => header_answer(letter, map, question),
    }
}

// The question is answered; the base map of the next one, which an M changes.
// `headers` has this function and the next too: a shared one were public, and had to state what it prints (tools/audit).
fn next_base<W: Write>(to: &mut W, input: &[u8], base: Span, asked: Record) -> io::Result<Span> {
    let question = byte_source::span_bytes(input, asked.question);
    let map = byte_source::span_bytes(input, base);
    report::print_line(to, asked.letter, answer(asked.letter, map, question))?;
    if asked.letter == b'M' {
        return Ok(asked.question);
    }
    Ok(base)
}

// No input has as many records as the loop may take.
fn answer_all<W: Write>(to: &mut W, input: &[u8]) -> io::Result<()> {
    let mut base = Span { start: 0, size: 0 };
    let mut at = 0;
    for _ in 0..100000u32 {
        let Ok((asked, next)) = report::read_record(input, at) else {
            return Ok(());
        };
        base = next_base(to, input, base, asked)?;
        at = next;
    }
    Ok(())
}

// More input than a map has room for is left unread. Each program has its `main`: what it calls is its own.
fn main(rt: HostRuntime) -> io::Result<()> {
    let mut input = Vec::new(rt.alloc());
    rt.reader().take(1100000).read_to_end(&mut input)?;
    let mut out = BufWriter::new(rt.alloc(), io::writer(&rt))?;
    answer_all(&mut out, &input)?;
    out.flush()
}
