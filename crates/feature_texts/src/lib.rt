// tag.rs and tile.rs: the texts of a collected feature in a lent buffer: its tags' strings in the order of its ids, then its name, house
// number and reference. A text that is absent takes no room.
#![tactic(auto)]

ghost use Rattle.std.specs.Prelude.{◌≡◌, ◌+◌, ◌≤◌, length};
ghost use Rattle.std.proofs.lemmas.List.Edits.{sets};
ghost use Rattle.arithmetic.specs.Cut.{cut};
ghost use Rattle.text.specs.Utf8.{replaced};
ghost use Rattle.types.specs.Types.{maybe_part};
ghost use Rattle.fetched.specs.Fetched.{part_bytes, started_name, id_texts};
ghost use Rattle.feature_texts.specs.FeatureTexts.{texts_in, write_texts, AtMost, room_for};

use byte_source::Span;
use types::TagRange;

// What a feature's texts are made of.
#[derive(Clone, Copy)]
pub struct TextParts {
    pub tags: TagRange,
    pub name: Option<Span>,
    pub house_number: Option<Span>,
    pub reference: Option<Span>,
}

// The stored bytes of a tag's name, at its listed start; none where no text stands there.
pub fn tag_name<'a>(map: &'a [u8], starts: &[u64], tags: TagRange, id: u64) -> &'a [u8]
    ensures { result.now ≡ started_name starts.now tags map.now id }
{
    let Ok((span, _)) = tag_table::listed_text(map, starts, tags, id as usize) else {
        return &map[..0];
    };
    byte_source::span_bytes(map, span)
}

// The stored bytes of a text; none where it is absent.
pub fn optional_bytes(map: &[u8], text: Option<Span>) -> &[u8]
    ensures { result.now ≡ part_bytes (maybe_part map.now text) }
{
    let Some(span) = text else {
        return &map[..0];
    };
    byte_source::span_bytes(map, span)
}

// The length of the tags' strings; 2^64 - 1 stands for any larger one.
fn ids_len(map: &[u8], starts: &[u64], tags: TagRange, ids: &[u64]) -> usize
    ensures { result ≡ cut (length (id_texts (started_name starts.now tags map.now) ids.now)) }
{
    let mut len = 0;
    for &id in ids {
        let one = text::replaced_len(tag_name(map, starts, tags, id));
        len = arithmetic::saturating_add_usize(len, one);
    }
    len
}

// The length that a buffer needs for the texts of a feature with these tag ids.
pub fn texts_len(map: &[u8], starts: &[u64], ids: &[u64], parts: TextParts) -> usize
    ensures { result ≡ cut (length (texts_in starts.now parts map.now ids.now)) }
{
    let len = ids_len(map, starts, parts.tags, ids);
    let name = text::replaced_len(optional_bytes(map, parts.name));
    let house_number = text::replaced_len(optional_bytes(map, parts.house_number));
    let reference = text::replaced_len(optional_bytes(map, parts.reference));
    let len = arithmetic::saturating_add_usize(len, name);
    let len = arithmetic::saturating_add_usize(len, house_number);
    arithmetic::saturating_add_usize(len, reference)
}

// How long the tags' strings are as stored. 2^64 - 1 stands for any larger length. Not one function with `ids_len`: this one promises a
// bound, and that one a length.
fn stored_ids(map: &[u8], starts: &[u64], tags: TagRange, ids: &[u64]) -> usize
    ensures { AtMost (id_texts (started_name starts.now tags map.now) ids.now) result }
{
    let mut len = 0;
    for &id in ids {
        let name = tag_name(map, starts, tags, id);
        len = arithmetic::saturating_add_usize(len, name.len());
    }
    len
}

// How long all texts are as stored.
fn stored_len(map: &[u8], starts: &[u64], ids: &[u64], parts: TextParts) -> usize
    ensures { AtMost (texts_in starts.now parts map.now ids.now) result }
{
    let len = stored_ids(map, starts, parts.tags, ids);
    let name = optional_bytes(map, parts.name);
    let house_number = optional_bytes(map, parts.house_number);
    let reference = optional_bytes(map, parts.reference);
    let len = arithmetic::saturating_add_usize(len, name.len());
    let len = arithmetic::saturating_add_usize(len, house_number.len());
    arithmetic::saturating_add_usize(len, reference.len())
}

// Whether `room` bytes have room for the texts. They are measured only if three times their stored length is too long.
fn has_room(map: &[u8], starts: &[u64], ids: &[u64], parts: TextParts, room: usize) -> bool
    ensures { result ≡ room_for (texts_in starts.now parts map.now ids.now) room }
{
    if stored_len(map, starts, ids, parts) < room / 3 {
        return true;
    }
    let len = texts_len(map, starts, ids, parts);
    len < usize::MAX && len <= room
}

// A text in a buffer that has room for it; the place behind it.
fn put(bytes: &[u8], buffer: &mut [u8], at: usize) -> usize
    requires { at + length (replaced bytes.now) ≤ length buffer.old }
    ensures { (result ≡ at + length (replaced bytes.now)) × (buffer.new ≡ sets buffer.old at (replaced bytes.now)) }
{
    text::write_replaced(bytes, buffer, at).unwrap_or(at)
}

// The tags' strings at the front of a buffer that has room for them; the place behind them.
fn put_ids(map: &[u8], starts: &[u64], tags: TagRange, ids: &[u64], buffer: &mut [u8]) -> usize
    requires { length (id_texts (started_name starts.now tags map.now) ids.now) ≤ length buffer.old }
    ensures { (result ≡ length (id_texts (started_name starts.now tags map.now) ids.now)) × (buffer.new ≡ sets buffer.old 0 (id_texts (started_name starts.now tags map.now) ids.now)) }
{
    let mut at = 0;
    for &id in ids {
        at = put(tag_name(map, starts, tags, id), buffer, at);
    }
    at
}

// All texts at the front of a buffer that has room for them.
fn put_texts(map: &[u8], starts: &[u64], ids: &[u64], parts: TextParts, buffer: &mut [u8])
    requires { length (texts_in starts.now parts map.now ids.now) ≤ length buffer.old }
    ensures { buffer.new ≡ sets buffer.old 0 (texts_in starts.now parts map.now ids.now) }
{
    let at = put_ids(map, starts, parts.tags, ids, buffer);
    let at = put(optional_bytes(map, parts.name), buffer, at);
    let at = put(optional_bytes(map, parts.house_number), buffer, at);
    put(optional_bytes(map, parts.reference), buffer, at);
}

// Writes the texts of a feature with these tag ids to the front of a buffer, if it is long enough.
pub fn write_texts(map: &[u8], starts: &[u64], ids: &[u64], parts: TextParts, buffer: &mut [u8])
    ensures { buffer.new ≡ write_texts (texts_in starts.now parts map.now ids.now) buffer.old }
{
    if has_room(map, starts, ids, parts, buffer.len()) {
        put_texts(map, starts, ids, parts, buffer);
    }
}
