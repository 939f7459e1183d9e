// The reader over the lent map, with its position, in the place of io.rs's ByteSource. A read is the function of the same name
// on the slice: it moves the reader behind the value, and where it is refused, the position is as before.
#![tactic(auto)]

ghost use Rattle.std.specs.Prelude.{◌≡◌};
ghost use Rattle.parsing.specs.Parse.{byte};
ghost use Rattle.byte_source.specs.BigEndian.{big_endian, int32};
ghost use Rattle.byte_source.specs.Answers.{read_by, read_res, part_in};
ghost use Rattle.utils.specs.Vbe.{noted_unsigned, noted_signed, noted_coordinate, text};
ghost use Rattle.utils.specs.Answers.{noted_held, noted_by, microdegrees};
ghost use Rattle.reader.specs.Places.{read_at, moved_to, next_of};

use byte_source::{Read, Span};
use utils::{Microdegrees, Noted};

#[derive(Clone, Copy)]
pub struct Reader<'a> {
    pub src: &'a [u8],
    pub at: usize,
}

// Where the next read starts: behind the value, or where it is refused, at the old place.
fn next_of<T: Copy>(at: usize, got: Read<T>) -> usize
    ensures { result ≡ next_of at got }
{
    match got {
        Ok((_, next)) => next,
        Err(_) => at,
    }
}

// The reader there, and what was read.
fn moved<'s, 'a, T: Copy>(r: &'s mut Reader<'a>, got: Read<T>) -> Read<T>
    ensures { (result ≡ got) × (r.new ≡ moved_to r.old (next_of r.old.at got)) }
{
    r.at = next_of(r.at, got);
    got
}

pub fn new<'a>(src: &'a [u8]) -> Reader<'a>
    ensures { (result.src ≡ src.entry) × (result.at ≡ 0) }
{
    Reader { src, at: 0 }
}

pub fn position<'a>(r: Reader<'a>) -> usize
    ensures { result ≡ r.entry.at }
{
    r.at
}

// A place is a number, so seeking always succeeds.
pub fn seek_to<'s, 'a>(r: &'s mut Reader<'a>, at: usize)
    ensures { r.new ≡ moved_to r.old at }
{
    r.at = at;
}

// Each read is a method of the Rust's ByteSource under its name: a call and a step. Only the call differs, and what its contract says: one
// function for all would take the read with its view and parser, and each of these would stay to give it.
pub fn read_u8<'s, 'a>(r: &'s mut Reader<'a>) -> Read<u8>
    ensures { (read_res result ≡ read_at byte r.old) × (r.new ≡ moved_to r.old (next_of r.old.at result)) }
{
    let got = byte_source::read_u8(r.src, r.at);
    moved(r, got)
}

pub fn read_u16_be<'s, 'a>(r: &'s mut Reader<'a>) -> Read<u16>
    ensures { (read_res result ≡ read_at (big_endian 2) r.old) × (r.new ≡ moved_to r.old (next_of r.old.at result)) }
{
    let got = byte_source::read_u16_be(r.src, r.at);
    moved(r, got)
}

pub fn read_u32_be<'s, 'a>(r: &'s mut Reader<'a>) -> Read<u32>
    ensures { (read_res result ≡ read_at (big_endian 4) r.old) × (r.new ≡ moved_to r.old (next_of r.old.at result)) }
{
    let got = byte_source::read_u32_be(r.src, r.at);
    moved(r, got)
}

pub fn read_i32_be<'s, 'a>(r: &'s mut Reader<'a>) -> Read<i32>
    ensures { (read_res result ≡ read_at int32 r.old) × (r.new ≡ moved_to r.old (next_of r.old.at result)) }
{
    let got = byte_source::read_i32_be(r.src, r.at);
    moved(r, got)
}

pub fn read_u64_be<'s, 'a>(r: &'s mut Reader<'a>) -> Read<u64>
    ensures { (read_res result ≡ read_at (big_endian 8) r.old) × (r.new ≡ moved_to r.old (next_of r.old.at result)) }
{
    let got = byte_source::read_u64_be(r.src, r.at);
    moved(r, got)
}

pub fn read_vbe_u_int<'s, 'a>(r: &'s mut Reader<'a>) -> Read<Noted<u64>>
    ensures { (read_by noted_held result ≡ read_at noted_unsigned r.old) × (r.new ≡ moved_to r.old (next_of r.old.at result)) }
{
    let got = utils::read_vbe_u_int(r.src, r.at);
    moved(r, got)
}

pub fn read_vbe_s_int<'s, 'a>(r: &'s mut Reader<'a>) -> Read<Noted<i64>>
    ensures { (read_by noted_held result ≡ read_at noted_signed r.old) × (r.new ≡ moved_to r.old (next_of r.old.at result)) }
{
    let got = utils::read_vbe_s_int(r.src, r.at);
    moved(r, got)
}

pub fn read_microdegrees<'s, 'a>(r: &'s mut Reader<'a>) -> Read<Noted<Microdegrees>>
    ensures { (read_by (noted_by microdegrees) result ≡ read_at noted_coordinate r.old) × (r.new ≡ moved_to r.old (next_of r.old.at result)) }
{
    let got = utils::read_microdegrees(r.src, r.at);
    moved(r, got)
}

// A text, as a part of the map.
pub fn read_vbe_u<'s, 'a>(r: &'s mut Reader<'a>) -> Read<Span>
    ensures { (read_by (part_in r.old.src.now) result ≡ read_at text r.old) × (r.new ≡ moved_to r.old (next_of r.old.at result)) }
{
    let got = utils::read_vbe_u(r.src, r.at);
    moved(r, got)
}

// The number at a place, and where the reader then stands, also where it is refused. No caller needs a walk: its contract says nothing of a reader.
#[derive(Clone, Copy)]
pub struct NumberAt {
    pub got: Read<Noted<u64>>,
    pub next: usize,
}

pub fn number_at(src: &[u8], at: usize) -> NumberAt
    ensures { (read_by noted_held result.got ≡ noted_unsigned src.now at) × (result.next ≡ next_of at result.got) }
{
    let mut r = Reader { src, at };
    let got = read_vbe_u_int(&mut r);
    NumberAt { got, next: r.at }
}
