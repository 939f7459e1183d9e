// Replays the Rust's answers for headers without any Rust. Standard input is a list of records: a letter for what is asked, the length
// of the input in 4 bytes, the input. Each answer is a line of words; `compare/run maps-sample` writes both sides.
#![tactic(auto)]

mod damage;
mod opened;

use byte_source::Span;
use report::{Record, Words};
use std::io;
use std::io::{BufWriter, Read, Write};

// M a map is opened; C and D all of its cuts and damages, c and d one of them.
fn answer(letter: u8, map: &[u8], question: &[u8]) -> Words {
    match letter {
        b'M' => opened::open_words(question),
        b'C' => damage::all_cuts(map),
        b'D' => damage::all_damages(map),
        b'c' => damage::one_cut(map, question),
        b'd' => damage::one_damage(map, question),
        _ => report::no_words(),
    }
}

// The question is answered; the base map of the next one, which an M changes.
// `indexes` has this function and the next too: a shared one were public, and had to state what it prints (tools/audit).
fn next_base<W: Write>(to: &mut W, input: &[u8], base: Span, asked: Record) -> io::Result<Span> {
    let question = byte_source::span_bytes(input, asked.question);
    let map = byte_source::span_bytes(input, base);
    report::print_line(to, asked.letter, answer(asked.letter, map, question))?;
    if asked.letter == b'M' {
        return Ok(asked.question);
    }
    Ok(base)
}

// No input has as many records as the loop may take.
fn answer_all<W: Write>(to: &mut W, input: &[u8]) -> io::Result<()> {
    let mut base = Span { start: 0, size: 0 };
    let mut at = 0;
    for _ in 0..100000u32 {
        let Ok((asked, next)) = report::read_record(input, at) else {
            return Ok(());
        };
        base = next_base(to, input, base, asked)?;
        at = next;
    }
    Ok(())
}

// More input than a map has room for is left unread. Each program has its `main`: what it calls is its own.
fn main(rt: HostRuntime) -> io::Result<()> {
    let mut input = Vec::new(rt.alloc());
    rt.reader().take(1100000).read_to_end(&mut input)?;
    let mut out = BufWriter::new(rt.alloc(), io::writer(&rt))?;
    answer_all(&mut out, &input)?;
    out.flush()
}
