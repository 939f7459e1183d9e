// tag.rs: the tags of a feature, and the kinds of inline values.
#![tactic(auto)]

ghost use Rattle.std.specs.Prelude.{◌≡◌, length};
ghost use Rattle.byte_source.specs.Answers.{read_by};
ghost use Rattle.utils.specs.Answers.{noted_part};
ghost use Rattle.text.specs.Utf8.{code_points, replaced};
ghost use Rattle.text.specs.Hash.{hash};
ghost use Rattle.tag.specs.Tag.{new_tag, tag_of, key_bytes, mark, letter_after, letter_of, kind_of, kind};
ghost use Rattle.tag.specs.Value.{value, sized};

use byte_source::{Read, Span};
use utils::Noted;

// The lengths in bytes of a tag's key and value, and their hashes, all of the replaced text.
#[derive(Clone, Copy)]
pub struct Tag {
    pub key_len: usize,
    pub value_len: usize,
    pub key_code: u64,
    pub value_code: u64,
}

impl Tag {
    // The tag of a key and a value as stored.
    pub fn new(key: &[u8], value: &[u8]) -> Tag
        ensures { result ≡ new_tag (replaced key.now) (replaced value.now) }
    {
        Tag {
            key_len: text::replaced_len(key),
            value_len: text::replaced_len(value),
            key_code: text::hash_tag_parameter(key),
            value_code: text::hash_tag_parameter(value),
        }
    }
}

// Splits a stored text at its first `=`; without one the value is empty.
pub fn parse_tag(text: &[u8]) -> Tag
    ensures { result ≡ tag_of text.now }
{
    match text.iter().position(|&b| b == b'=') {
        Some(split) => Tag::new(&text[..split], &text[split + 1..]),
        None => Tag::new(text, &[]),
    }
}

// The key of a tag that is made of a feature's text.
#[derive(Clone, Copy)]
pub enum TextKey {
    // `name`
    Name,
    // `addr:housenumber`
    HouseNumber,
    // `ref`
    Ref,
}

// The key's length in bytes.
fn key_len(key: TextKey) -> usize
    ensures { result ≡ length (key_bytes key) }
{
    match key {
        TextKey::Name => 4,
        TextKey::HouseNumber => 16,
        TextKey::Ref => 3,
    }
}

// The key's hash, computed beforehand. With the length as a pair it would have a contract of two parts, which `text_tag` takes apart again: no
// plainer.
pub fn key_code(key: TextKey) -> u64
    ensures { result ≡ hash (code_points (key_bytes key)) }
{
    match key {
        TextKey::Name => 13679434282859051909,
        TextKey::HouseNumber => 6114384994605450480,
        TextKey::Ref => 3014119817958767,
    }
}

// The tag that is made of a feature's text, as stored.
pub fn text_tag(key: TextKey, value: &[u8]) -> Tag
    ensures { result ≡ new_tag (key_bytes key) (replaced value.now) }
{
    Tag {
        key_len: key_len(key),
        value_len: text::replaced_len(value),
        key_code: key_code(key),
        value_code: text::hash_tag_parameter(value),
    }
}

// Whether two bytes are `=%`.
fn is_mark(b: u8, d: u8) -> bool
    ensures { result ≡ mark b d }
{
    b == b'=' && d == b'%'
}

// The byte behind the first `=%`, or 0, and no Option: `kind_of` takes a letter, so that an Option would be made a 0 again.
fn letter_after(text: &[u8]) -> u8
    ensures { result ≡ letter_after text.now }
{
    let n = text.len();
    if n < 3 {
        return 0;
    }
    for at in 0..n - 2 {
        if is_mark(text[at], text[at + 1]) {
            return text[at + 2];
        }
    }
    0
}

// What inline value a tag has: it stands behind all ids of the feature.
#[derive(Clone, Copy)]
pub enum Kind {
    // b: 1 byte
    Byte,
    // h: 2 bytes
    Short,
    // i: 4 bytes
    Int,
    // f: 4 bytes
    Float,
    // s: a length and that many bytes
    Text,
    // any other letter, or none: a case and no Option, since a value of this kind is read too, as 0 bytes
    Nothing,
}

// By its letter.
pub fn kind_of(letter: u8) -> Kind
    ensures { result ≡ kind_of letter }
{
    match letter {
        b'b' => Kind::Byte,
        b'h' => Kind::Short,
        b'i' => Kind::Int,
        b'f' => Kind::Float,
        b's' => Kind::Text,
        _ => Kind::Nothing,
    }
}

// The letter of a kind, or 0.
pub fn letter_of(kind: Kind) -> u8
    ensures { result ≡ letter_of kind }
{
    match kind {
        Kind::Byte => b'b',
        Kind::Short => b'h',
        Kind::Int => b'i',
        Kind::Float => b'f',
        Kind::Text => b's',
        Kind::Nothing => 0,
    }
}

// The kind by the letter behind the first `=%`. U+FFFD is no letter and no mark, so the stored bytes tell it.
pub fn inline_value_kind(text: &[u8]) -> Kind
    ensures { result ≡ kind (replaced text.now) }
{
    kind_of(letter_after(text))
}

// A length, which is not held to the limit of texts, and that many bytes.
fn read_sized(map: &[u8], at: usize) -> Read<Noted<Span>>
    ensures { read_by (noted_part map.now) result ≡ sized map.now at }
{
    let (n, start) = utils::read_vbe_u_int(map, at)?;
    utils::read_part(map, start, n.value as usize, n.plain)
}

// The inline value of a tag as a part of the map, and the place behind it. A value of a fixed size has no number that could be padded.
pub fn skip_inline_value(map: &[u8], at: usize, kind: Kind) -> Read<Noted<Span>>
    ensures { read_by (noted_part map.now) result ≡ value kind map.now at }
{
    match kind {
        Kind::Byte => utils::read_part(map, at, 1, true),
        Kind::Short => utils::read_part(map, at, 2, true),
        Kind::Int => utils::read_part(map, at, 4, true),
        Kind::Float => utils::read_part(map, at, 4, true),
        Kind::Text => read_sized(map, at),
        Kind::Nothing => utils::read_part(map, at, 0, true),
    }
}
