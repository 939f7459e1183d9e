// poi.rs: a point of a tile.
#![tactic(auto)]

ghost use Rattle.std.specs.Prelude.{◌≡◌};
ghost use Rattle.parsing.specs.Parse.{map_res, optional};
ghost use Rattle.byte_source.specs.Answers.{read_by, read_res};
ghost use Rattle.utils.specs.Vbe.{noted_signed};
ghost use Rattle.utils.specs.Answers.{noted_held};
ghost use Rattle.format.specs.Elevation.{low32};
ghost use Rattle.format.specs.Tile.{point_fields, point};
ghost use Rattle.tag_table.specs.Tables.{kinds_by};
ghost use Rattle.poi.specs.Poi.{noted_elevation, poi_fields_of, poi_of, streamed_poi};

use byte_source::{Read, Span};
use tagged::TagIds;
use types::{Position, TagRange};
use utils::Noted;

// A point. Its texts and its signature are raw parts of the map, its elevation is in metres. `plain`: whether the encodings of all its
// numbers were plain.
#[derive(Clone, Copy)]
pub struct Poi {
    pub signature: Option<Span>,
    pub position: Position,
    pub tag_ids: TagIds,
    pub name: Option<Span>,
    pub house_number: Option<Span>,
    pub elevation: Option<i32>,
    pub layer: i8,
    pub plain: bool,
}

// What a point's flags announce.
#[derive(Clone, Copy)]
struct PoiFields {
    name: Option<Span>,
    house_number: Option<Span>,
    elevation: Option<i32>,
    plain: bool,
}

// As an elevation is stored: the low 32 bits of a number. A cast loses no bits in Rattle, so it is the remainder that is cast.
pub fn low32(v: i64) -> i32
    ensures { result ≡ low32 v }
{
    (v.rem_euclid(4294967296) as u32).cast_signed()
}

// An elevation that a flag announces. One function for this and `read_noted_text` would take a reader with its view and parser: no plainer.
fn read_elevation(map: &[u8], at: usize, flag: bool) -> Read<Noted<Option<i32>>>
    ensures { read_by noted_held result ≡ map_res noted_elevation (optional flag noted_signed map.now at) }
{
    if !flag {
        let absent = Noted {
            value: None,
            plain: true,
        };
        return Ok((absent, at));
    }
    let (number, next) = utils::read_vbe_s_int(map, at)?;
    let elevation = Noted {
        value: Some(low32(number.value)),
        plain: number.plain,
    };
    Ok((elevation, next))
}

// The flags, and what they announce.
fn read_poi_fields(map: &[u8], at: usize) -> Read<PoiFields>
    ensures { read_res result ≡ map_res poi_fields_of (point_fields map.now at) }
{
    let (flags, at) = byte_source::read_u8(map, at)?;
    let (name, at) = fields::read_noted_text(map, at, flags / 128 % 2 == 1)?;
    let (house_number, at) = fields::read_noted_text(map, at, flags / 64 % 2 == 1)?;
    let (elevation, at) = read_elevation(map, at, flags / 32 % 2 == 1)?;
    let fields = PoiFields {
        name: name.value,
        house_number: house_number.value,
        elevation: elevation.value,
        plain: name.plain & house_number.plain & elevation.plain,
    };
    Ok((fields, at))
}

// A point with raw texts. Here and in `read_way_head` no TileFormat stands for `debug`, `letters` and `tags`: it has the tags of points and
// those of ways, and would be made to be taken apart.
pub fn read_poi(map: &[u8], at: usize, debug: bool, letters: &[u8], tags: TagRange) -> Read<Poi>
    ensures { read_res result ≡ map_res poi_of (point debug (kinds_by letters.now tags) map.now at) }
{
    let (signature, at) = fields::read_signature(map, at, debug)?;
    let (position, at) = fields::read_position(map, at)?;
    let (tagged, at) = tagged::read_tagged(map, at, letters, tags)?;
    let (fields, at) = read_poi_fields(map, at)?;
    let poi = Poi {
        signature,
        position: position.value,
        layer: tagged.layer,
        tag_ids: tagged.tag_ids,
        name: fields.name,
        house_number: fields.house_number,
        elevation: fields.elevation,
        plain: position.plain & tagged.plain & fields.plain,
    };
    Ok((poi, at))
}

// A point as it is streamed.
pub fn streamed_poi(map: &[u8], poi: Poi) -> Poi
    ensures { result ≡ streamed_poi map.now poi }
{
    Poi {
        signature: None,
        name: fields::streamed_span(map, poi.name),
        house_number: fields::streamed_span(map, poi.house_number),
        ..poi
    }
}
