// A header's fields and the answers of its index, as words.
#![tactic(auto)]

ghost use Rattle.std.specs.Prelude.{◌≡◌};
ghost use Rattle.header_words.specs.Fields.{text_pushed, optional_text_pushed, position_pushed, box_pushed, optional_position_pushed, optional_byte_pushed, tag_mixed, interval_mixed};
ghost use Rattle.header_words.specs.Index.{number_words, answer_words, entry_words};

use byte_source::Span;
use error::Refusal;
use index::TileIndexEntry;
use report::Words;
use types::{BoundingBox, Position, ZoomInterval};

// The length of the replaced text, and its digest.
pub fn push_text(words: Words, map: &[u8], span: Span) -> Words
    ensures { result ≡ text_pushed words map.now span }
{
    let bytes = byte_source::span_bytes(map, span);
    let words = report::push(words, text::replaced_len(bytes) as u64);
    report::push(words, report::mix_text(report::EMPTY, bytes))
}

// 0 for what is absent, and 1 in front of what is there.
pub fn push_optional_text(words: Words, map: &[u8], text: Option<Span>) -> Words
    ensures { result ≡ optional_text_pushed words map.now text }
{
    match text {
        None => report::push(words, 0),
        Some(span) => push_text(report::push(words, 1), map, span),
    }
}

pub fn push_position(words: Words, p: Position) -> Words
    ensures { result ≡ position_pushed words p }
{
    let words = report::push(words, report::float_bits(p.latitude));
    report::push(words, report::float_bits(p.longitude))
}

pub fn push_box(words: Words, bounds: BoundingBox) -> Words
    ensures { result ≡ box_pushed words bounds }
{
    push_position(push_position(words, bounds.min), bounds.max)
}

pub fn push_optional_position(words: Words, p: Option<Position>) -> Words
    ensures { result ≡ optional_position_pushed words p }
{
    match p {
        None => report::push(words, 0),
        Some(at) => push_position(report::push(words, 1), at),
    }
}

pub fn push_optional_byte(words: Words, b: Option<u8>) -> Words
    ensures { result ≡ optional_byte_pushed words b }
{
    match b {
        None => report::push(words, 0),
        Some(v) => report::push(report::push(words, 1), u64::from(v)),
    }
}

// A tag's text behind its length.
pub fn mix_tag(digest: u64, map: &[u8], span: Span) -> u64
    ensures { result ≡ tag_mixed digest map.now span }
{
    let bytes = byte_source::span_bytes(map, span);
    report::mix_text(report::mix(digest, text::replaced_len(bytes) as u64), bytes)
}

pub fn mix_interval(digest: u64, z: ZoomInterval) -> u64
    ensures { result ≡ interval_mixed digest z }
{
    let out = report::mix(digest, u64::from(z.base_zoom_level));
    let out = report::mix(out, u64::from(z.min_zoom_level));
    let out = report::mix(out, u64::from(z.max_zoom_level));
    let out = report::mix(out, z.sub_file_start);
    report::mix(out, z.sub_file_size)
}

// 0 for none, and 1 in front of a number.
fn number_words(number: Option<u64>) -> Words
    ensures { result ≡ number_words number }
{
    match number {
        None => questions::one(0),
        Some(n) => questions::two(1, n),
    }
}

pub fn sub_file_words(got: Option<usize>) -> Words
    ensures { result ≡ number_words got }
{
    number_words(got.map(|k| k as u64))
}

pub fn count_words(got: Result<Option<u32>, Refusal>) -> Words
    ensures { result ≡ answer_words got }
{
    match got {
        Ok(count) => number_words(count.map(u64::from)),
        Err(r) => questions::refusal_words(r),
    }
}

pub fn index_words(got: Result<Option<usize>, Refusal>) -> Words
    ensures { result ≡ answer_words got }
{
    match got {
        Ok(index) => number_words(index.map(|n| n as u64)),
        Err(r) => questions::refusal_words(r),
    }
}

pub fn entry_words(got: Result<TileIndexEntry, Refusal>) -> Words
    ensures { result ≡ entry_words got }
{
    match got {
        Ok(entry) => questions::three(
            questions::flag(entry.is_water),
            entry.offset,
            entry.offset_abs,
        ),
        Err(r) => questions::refusal_words(r),
    }
}
