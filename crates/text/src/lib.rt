// Texts of the map: UTF-8, the text with U+FFFD put in, and the hash of utils.rs.
#![tactic(auto)]

ghost use Rattle.std.specs.Prelude.{◌≡◌, ◌+◌, ◌-◌, ◌^◌, ◌<◌, ◌≤◌, length, take, drop, nat_le};
ghost use Rattle.std.specs.Iterator.{at_most};
ghost use Rattle.std.proofs.lemmas.List.Edits.{sets};
ghost use Rattle.arithmetic.specs.Cut.{cut};
ghost use Rattle.text.specs.Utf8.{follow, sequence_at, size_of, code_of, written_of, sequence_bytes, valid, code_points, replaced};
ghost use Rattle.text.specs.Sequences.{GivesSequence};
ghost use Rattle.text.specs.Hash.{hash};
ghost use Rattle.text.specs.Writing.{place_behind, outcome, writing};

use error::LentRefusal;

// A code unit sequence: a character with its code point and its number of bytes, or an ill-formed one with its number of bytes.
#[derive(Clone, Copy)]
pub enum Sequence {
    Char(u32, usize),
    Ill(usize),
}

fn size_of(sequence: Sequence) -> usize
    ensures { result ≡ size_of sequence }
{
    match sequence {
        Sequence::Char(_, n) => n,
        Sequence::Ill(n) => n,
    }
}

fn code_of(sequence: Sequence) -> u64
    ensures { result ≡ code_of sequence }
{
    match sequence {
        Sequence::Char(c, _) => c as u64,
        Sequence::Ill(_) => 0xFFFD,
    }
}

// The number of bytes that a sequence has in the replaced text. One function for this and `size_of` would take which of the two is meant.
fn written_of(sequence: Sequence) -> usize
    ensures { result ≡ written_of sequence }
{
    match sequence {
        Sequence::Char(_, n) => n,
        Sequence::Ill(_) => 3,
    }
}

// `n` bytes gave `c`; `more` follow, from `at` on, the first of them from `low` to `high`.
fn follow_at(text: &[u8], at: usize, more: u32, low: u32, high: u32, c: u32, n: usize) -> Sequence
    requires { (n + more ≤ 4) × (128 ≤ low) × (high ≤ 191) × (c < 64 ^ n) }
    ensures { result ≡ follow more low high c n (drop at text.now) }
{
    if more == 0 {
        return Sequence::Char(c, n);
    }
    if text.len() <= at {
        return Sequence::Ill(n);
    }
    let b = text[at] as u32;
    if b < low {
        return Sequence::Ill(n);
    }
    if high < b {
        return Sequence::Ill(n);
    }
    follow_at(
        text,
        at + 1,
        more - 1,
        0x80,
        0xBF,
        64 * c + (b - 0x80),
        n + 1,
    )
}

// The sequence that starts at `at`: the rows of Table 3-7 in their order.
fn by_table(text: &[u8], at: usize) -> Sequence
    requires { at < length text.now }
    ensures { result ≡ sequence_at text.now at }
{
    let b = text[at] as u32;
    match b {
        0x00..=0x7F => Sequence::Char(b, 1),
        0xC2..=0xDF => follow_at(text, at + 1, 1, 0x80, 0xBF, b - 0xC0, 1),
        0xE0 => follow_at(text, at + 1, 2, 0xA0, 0xBF, b - 0xE0, 1),
        0xE1..=0xEC => follow_at(text, at + 1, 2, 0x80, 0xBF, b - 0xE0, 1),
        0xED => follow_at(text, at + 1, 2, 0x80, 0x9F, b - 0xE0, 1),
        0xEE..=0xEF => follow_at(text, at + 1, 2, 0x80, 0xBF, b - 0xE0, 1),
        0xF0 => follow_at(text, at + 1, 3, 0x90, 0xBF, b - 0xF0, 1),
        0xF1..=0xF3 => follow_at(text, at + 1, 3, 0x80, 0xBF, b - 0xF0, 1),
        0xF4 => follow_at(text, at + 1, 3, 0x80, 0x8F, b - 0xF0, 1),
        _ => Sequence::Ill(1),
    }
}

// The same, inlined into the loops: most bytes are of the first row.
#[inline(always)]
fn sequence_at(text: &[u8], at: usize) -> Sequence
    requires { at < length text.now }
    ensures { result ≡ sequence_at text.now at }
{
    let b = text[at] as u32;
    if b < 128 {
        return Sequence::Char(b, 1);
    }
    by_table(text, at)
}

// The sequences of a text from a place on, each with its place.
#[derive(Drop)]
struct Sequences<'a> {
    text: &'a [u8],
    at: usize,
}

impl<'a> Sequences<'a> {
    fn new(text: &'a [u8]) -> Sequences<'a>
        ensures { (result.text.now ≡ text.now) × (result.at ≡ 0) }
    {
        Sequences { text, at: 0 }
    }
}

impl<'a> Iterator for Sequences<'a> {
    type Item = (usize, Sequence);

    ghost next_gives = { GivesSequence };

    ghost remaining = { λ s. at_most (length s.text.now - s.at) };

    #[inline(always)]
    fn next(&mut self) -> Option<(usize, Sequence)> {
        let at = self.at;
        if self.text.len() <= at {
            return None;
        }
        let next = sequence_at(self.text, at);
        self.at = at + size_of(next);
        Some((at, next))
    }
}

// Whether each sequence of the text is a character.
pub fn utf8_valid(text: &[u8]) -> bool
    ensures { result ≡ valid text.now }
{
    for (_, next) in Sequences::new(text) {
        if let Sequence::Ill(_) = next {
            return false;
        }
    }
    true
}

// The length of the replaced text, or 2^64 - 1 where it is above it.
pub fn replaced_len(text: &[u8]) -> usize
    ensures { result ≡ cut (length (replaced text.now)) }
{
    if utf8_valid(text) {
        return text.len();
    }
    let mut n = 0;
    for (_, next) in Sequences::new(text) {
        n = arithmetic::saturating_add_usize(n, written_of(next));
    }
    n
}

// Whether `len` bytes have room for the replaced text from `start` on. It counts the room down: `replaced_len` may be cut.
fn replaced_fits(text: &[u8], start: usize, len: usize) -> bool
    ensures { result ≡ nat_le (place_behind text.now start) len }
{
    if len < start {
        return false;
    }
    let mut room = len - start;
    // The replaced text is three times as long as the text at the most.
    if text.len() <= room / 3 {
        return true;
    }
    for (_, next) in Sequences::new(text) {
        let n = written_of(next);
        if room < n {
            return false;
        }
        room -= n;
    }
    true
}

// `n` bytes of the text, from `from` on, written to the buffer from `to` on. Byte for byte: `copy_from_slice` calls memmove, which
// programs that link the library would have to bring.
fn copy(text: &[u8], from: usize, n: usize, buffer: &mut [u8], to: usize)
    requires { (from + n ≤ length text.now) × (to + n ≤ length buffer.old) }
    ensures { buffer.new ≡ sets buffer.old to (take n (drop from text.now)) }
{
    for i in 0..n {
        buffer[to + i] = text[from + i];
    }
}

// A sequence of the text, from `at` on, written to the buffer from `to` on; the place behind it.
fn put_sequence(text: &[u8], at: usize, next: Sequence, buffer: &mut [u8], to: usize) -> usize
    requires { (at + size_of next ≤ length text.now) × (to + written_of next ≤ length buffer.old) }
    ensures { (result ≡ to + written_of next) × (buffer.new ≡ sets buffer.old to (sequence_bytes next (drop at text.now))) }
{
    match next {
        Sequence::Char(_, n) => {
            copy(text, at, n, buffer, to);
            to + n
        }
        Sequence::Ill(_) => {
            buffer[to] = 0xEF;
            buffer[to + 1] = 0xBF;
            buffer[to + 2] = 0xBD;
            to + 3
        }
    }
}

// The replaced text written to the buffer from `start` on; the place behind it.
fn put_replaced(text: &[u8], buffer: &mut [u8], start: usize) -> usize
    requires { place_behind text.now start ≤ length buffer.old }
    ensures { (result ≡ place_behind text.now start) × (buffer.new ≡ sets buffer.old start (replaced text.now)) }
{
    if utf8_valid(text) {
        let n = text.len();
        copy(text, 0, n, buffer, start);
        return start + n;
    }
    let mut to = start;
    for (at, next) in Sequences::new(text) {
        to = put_sequence(text, at, next, buffer, to);
    }
    to
}

// The replaced text written to the buffer from `start` on, and the place behind it; a buffer that is too short is refused and kept.
pub fn write_replaced(text: &[u8], buffer: &mut [u8], start: usize) -> Result<usize, LentRefusal>
    ensures { outcome result buffer.new ≡ writing text.now buffer.old start }
{
    if replaced_fits(text, start, buffer.len()) {
        return Ok(put_replaced(text, buffer, start));
    }
    let needed = arithmetic::saturating_add_usize(replaced_len(text), start);
    Err(error::short_buffer(needed as u64))
}

// The number of characters of the text, an ill-formed sequence being one.
fn char_count(text: &[u8]) -> usize
    ensures { result ≡ length (code_points text.now) }
{
    let mut n = 0;
    for _ in Sequences::new(text) {
        n += 1;
    }
    n
}

// The hash of the replaced text, whose characters are those of the text. The power of 31 falls by one from character to character, by
// 31's inverse modulo 2^64; n + 1 may pass 64 bits, so the first one is taken in two factors.
pub fn hash_tag_parameter(text: &[u8]) -> u64
    ensures { result ≡ hash (code_points (replaced text.now)) }
{
    let n = char_count(text);
    let mut power = arithmetic::wrapping_pow_u64(31, n as u64).wrapping_mul(31);
    let mut h: u64 = 0;
    for (_, next) in Sequences::new(text) {
        h = h.wrapping_add(code_of(next)).wrapping_mul(power);
        power = power.wrapping_mul(17256631552825064415);
    }
    h
}
