// header.rs and tag.rs: the tag names of points and of ways. A table says where they stand; a name is found by a walk over the texts, or
// by the lists that opening filled.
#![tactic(auto)]

ghost use Rattle.std.specs.Prelude.{◌≡◌};
ghost use Rattle.parsing.specs.Parse.{map_res, many, passed};
ghost use Rattle.byte_source.specs.Answers.{read_by, read_res, part_in};
ghost use Rattle.utils.specs.Vbe.{text};
ghost use Rattle.format.specs.Header.{tags};
ghost use Rattle.format.specs.TagTable.{tag_text};
ghost use Rattle.format.specs.TagLists.{listed_text};
ghost use Rattle.format.specs.Tile.{kind_at};
ghost use Rattle.tag_table.specs.Tables.{tag_table, table_in, place_res, entry, kinds_by};

use byte_source::{Read, Span};
use error::Refusal;
use tag::Kind;
use types::{TagRange, TagTable};

// The place behind `count` texts.
fn skip_texts(map: &[u8], at: usize, count: usize) -> Result<usize, Refusal>
    ensures { place_res result ≡ passed (many text count map.now at) }
{
    let mut next = at;
    for _ in 0..count {
        let (_, after) = utils::read_vbe_u(map, next)?;
        next = after;
    }
    Ok(next)
}

// A count of 16 bits, then as many texts.
pub fn read_tag_table(map: &[u8], at: usize) -> Read<TagTable>
    ensures { read_res result ≡ map_res tag_table (tags map.now at) }
{
    let (n, start) = byte_source::read_u16_be(map, at)?;
    let count = n as usize;
    let next = skip_texts(map, start, count)?;
    Ok((TagTable { start, count }, next))
}

// Tag name k of a table, ids counted from 0.
pub fn tag_text(map: &[u8], table: TagTable, k: usize) -> Read<Span>
    ensures { read_by (part_in map.now) result ≡ tag_text (table_in table) k map.now }
{
    if table.count <= k {
        return Err(Refusal::InvalidTagId(k as u64));
    }
    let at = skip_texts(map, table.start, k)?;
    utils::read_vbe_u(map, at)
}

// Where tag k's entry stands in a list of this length: an id that no tag has has none, nor has one behind the end of the list.
fn entry(len: usize, tags: TagRange, k: usize) -> Option<usize>
    ensures { result ≡ entry len tags k }
{
    if k < tags.count && tags.first < len && k < len - tags.first {
        return Some(tags.first + k);
    }
    None
}

// The text of tag k at its listed start; ids counted from 0.
pub fn listed_text(map: &[u8], starts: &[u64], tags: TagRange, k: usize) -> Read<Span>
    ensures { read_by (part_in map.now) result ≡ listed_text starts.now tags.first tags.count k map.now }
{
    match entry(starts.len(), tags, k) {
        Some(place) => utils::read_vbe_u(map, starts[place] as usize),
        None => Err(Refusal::InvalidTagId(k as u64)),
    }
}

// The kind of tag k's inline value by its listed letter; behind the end of the list none.
pub fn listed_kind(letters: &[u8], tags: TagRange, k: usize) -> Kind
    ensures { result ≡ kind_at (kinds_by letters.now tags) k }
{
    match entry(letters.len(), tags, k) {
        Some(place) => tag::kind_of(letters[place]),
        None => Kind::Nothing,
    }
}
