// poi.rs, way.rs and tag.rs: layer and tags, which points and ways have alike.
#![tactic(auto)]

ghost use Rattle.std.specs.Prelude.{◌≡◌, ◌≤◌, replicate};
ghost use Rattle.parsing.specs.Parse.{many, map_res};
ghost use Rattle.byte_source.specs.Answers.{read_by};
ghost use Rattle.utils.specs.Vbe.{noted};
ghost use Rattle.utils.specs.Answers.{noted_held};
ghost use Rattle.format.specs.Tile.{tag_id, values, layer_of, behind_special, tagged};
ghost use Rattle.tag_table.specs.Tables.{kinds_by};
ghost use Rattle.tagged.specs.TagIds.{noted_ids, noted_values, tags_of, shown_tags};

use byte_source::Read;
use error::Refusal;
use types::TagRange;
use utils::Noted;

// Up to 15 tag ids from the front, zeros behind them. An array with a count, since it is handed out by value and there is no heap.
#[derive(Clone, Copy)]
pub struct TagIds {
    pub ids: [u64; 15],
    pub count: usize,
}

// Layer and tag ids. `plain`: whether the encodings of all ids and of all lengths were plain.
#[derive(Clone, Copy)]
pub struct Tagged {
    pub tag_ids: TagIds,
    pub layer: i8,
    pub plain: bool,
}

// The high four bits of the special byte, minus 5.
pub fn layer_of(special: u8) -> i8
    ensures { result ≡ layer_of special }
{
    (special / 16) as i8 - 5
}

// An id of one of `tags` tags, checked as it is read.
fn read_tag_id(map: &[u8], at: usize, tags: usize) -> Read<Noted<u64>>
    ensures { read_by noted_held result ≡ tag_id tags map.now at }
{
    let (id, next) = utils::read_vbe_u_int(map, at)?;
    if tags as u64 <= id.value {
        return Err(Refusal::InvalidTagId(id.value));
    }
    Ok((id, next))
}

// `count` ids, to the front of `ids`, and whether all were plain.
fn read_tag_ids(map: &[u8], at: usize, tags: usize, count: usize, ids: &mut [u64; 15]) -> Read<bool>
    requires { (count ≤ 15) × (ids.old ≡ replicate 15 0) }
    ensures { read_by (noted ids.new) result ≡ map_res noted_ids (many (tag_id tags) count map.now at) }
{
    let mut next = at;
    let mut plain = true;
    for i in 0..count {
        let (id, after) = read_tag_id(map, next, tags)?;
        ids[i] = id.value;
        plain &= id.plain;
        next = after;
    }
    Ok((plain, next))
}

// Past the inline values of the tags with these ids, in the order of the ids, and whether the lengths of all were plain.
fn skip_values(map: &[u8], at: usize, letters: &[u8], tags: TagRange, ids: &[u64]) -> Read<bool>
    ensures { read_by (noted tt) result ≡ map_res noted_values (values (kinds_by letters.now tags) ids.now map.now at) }
{
    let mut next = at;
    let mut plain = true;
    for &id in ids {
        let kind = tag_table::listed_kind(letters, tags, id as usize);
        let (value, after) = tag::skip_inline_value(map, next, kind)?;
        plain &= value.plain;
        next = after;
    }
    Ok((plain, next))
}

// The ids, as many as the special byte's low four bits say, and behind all ids the values that they announce.
fn read_tags(map: &[u8], at: usize, special: u8, letters: &[u8], tags: TagRange) -> Read<Tagged>
    ensures { read_by shown_tags result ≡ map_res tags_of (behind_special (kinds_by letters.now tags) special map.now at) }
{
    let mut ids = [0u64; 15];
    let count = (special % 16) as usize;
    let (plain_ids, at) = read_tag_ids(map, at, tags.count, count, &mut ids)?;
    let (plain_values, at) = skip_values(map, at, letters, tags, &ids[..count])?;
    let tagged = Tagged {
        layer: layer_of(special),
        tag_ids: TagIds { ids, count },
        plain: plain_ids & plain_values,
    };
    Ok((tagged, at))
}

// The special byte, then the tags. Values are skipped by the listed letters.
pub fn read_tagged(map: &[u8], at: usize, letters: &[u8], tags: TagRange) -> Read<Tagged>
    ensures { read_by shown_tags result ≡ map_res tags_of (tagged (kinds_by letters.now tags) map.now at) }
{
    let (special, at) = byte_source::read_u8(map, at)?;
    read_tags(map, at, special, letters, tags)
}
