// The answer of each leaf as words.
use byte_source::{Read, Span};
use error::Refusal;
use report::{EMPTY, Words};
use tag::Tag;

// A number, and the place behind it.
fn number<T: Into<u64>>(got: Read<T>) -> Result<Words, Refusal> {
    let (v, at) = got?;
    Ok(questions::two(v.into(), at as u64))
}

// 1 if it is negative, its magnitude, and the place behind it.
fn with_sign(v: i64, at: usize) -> Words {
    questions::three(report::sign(v), report::magnitude(v), at as u64)
}

fn int(map: &[u8]) -> Result<Words, Refusal> {
    let (v, at) = byte_source::read_i32_be(map, 0)?;
    Ok(with_sign(i64::from(v), at))
}

fn signed(map: &[u8]) -> Result<Words, Refusal> {
    let (v, at) = utils::read_vbe_s_int(map, 0)?;
    Ok(with_sign(v.value, at))
}

fn micro(map: &[u8]) -> Result<Words, Refusal> {
    let (coordinate, at) = utils::read_microdegrees(map, 0)?;
    let degrees = utils::microdegrees_to_degrees(coordinate.value);
    Ok(questions::two(report::float_bits(degrees.0), at as u64))
}

fn stored_text(map: &[u8], span: Span, at: usize) -> Words {
    let bytes = byte_source::span_bytes(map, span);
    let words = questions::three(
        span.start as u64,
        span.size as u64,
        questions::flag(text::utf8_valid(bytes)),
    );
    let words = report::push(words, text::replaced_len(bytes) as u64);
    let words = report::push(words, report::mix_text(EMPTY, bytes));
    report::push(words, at as u64)
}

// Out of line: else the room for its replaced text, 1.1 MB, would be made for each record.
#[inline(never)]
fn text_at_start(map: &[u8]) -> Result<Words, Refusal> {
    let (span, at) = utils::read_vbe_u(map, 0)?;
    Ok(stored_text(map, span, at))
}

fn parsed(t: Tag) -> Words {
    let words = questions::two(t.key_len as u64, t.value_len as u64);
    report::push(report::push(words, t.key_code), t.value_code)
}

// The first byte of the input is the letter, and the rest is the map.
fn value(input: &[u8]) -> Result<Words, Refusal> {
    let Some((&letter, map)) = input.split_first() else {
        return Ok(report::no_words());
    };
    let (stored, at) = tag::skip_inline_value(map, 0, tag::kind_of(letter))?;
    let span = stored.value;
    Ok(questions::three(span.start as u64, span.size as u64, at as u64))
}

fn read(letter: u8, input: &[u8]) -> Result<Words, Refusal> {
    match letter {
        b'a' => number(byte_source::read_u8(input, 0)),
        b'b' => number(byte_source::read_u16_be(input, 0)),
        b'c' => int(input),
        b'd' => number(byte_source::read_u32_be(input, 0)),
        b'e' => number(byte_source::read_u64_be(input, 0)),
        b'u' => number(utils::read_number(input, 0)),
        b's' => signed(input),
        b'm' => micro(input),
        b't' => text_at_start(input),
        b'v' => value(input),
        _ => Ok(report::no_words()),
    }
}

// The answer to a letter, for a map that is the input, read at its start.
pub(crate) fn answer(letter: u8, input: &[u8]) -> Words {
    match letter {
        b'h' => questions::one(text::hash_tag_parameter(input)),
        b'g' => parsed(tag::parse_tag(input)),
        b'k' => questions::one(questions::letter_of(tag::inline_value_kind(input))),
        _ => read(letter, input).unwrap_or_else(questions::refusal_words),
    }
}
