// header.rs: what every header has up to its flags, and the fields that the flags announce.
#![tactic(auto)]

ghost use Rattle.std.specs.Prelude.{◌≡◌};
ghost use Rattle.parsing.specs.Parse.{byte, optional};
ghost use Rattle.byte_source.specs.Answers.{read_by};
ghost use Rattle.format.specs.Header.{place, front, options};
ghost use Rattle.header_parts.specs.Parts.{front_of, maybe_place, maybe_byte, options_of};

use byte_source::{Read, Span};
use header_fields::{Preamble, StoredBox, StoredPosition};

#[derive(Clone, Copy)]
pub struct Front {
    pub preamble: Preamble,
    pub bounding_box: StoredBox,
    pub projection: Span,
    pub tile_size: u16,
    pub flags: u8,
}

#[derive(Clone, Copy)]
pub struct Options {
    pub start_position: Option<StoredPosition>,
    pub language_preference: Option<Span>,
    pub comment: Option<Span>,
    pub created_by: Option<Span>,
    pub start_zoom_level: Option<u8>,
}

// What every header has in front of the optional fields.
pub fn read_front(map: &[u8], at: usize) -> Read<Front>
    ensures { read_by (front_of map.now) result ≡ front map.now at }
{
    let (preamble, at) = header_fields::read_preamble(map, at)?;
    let (bounding_box, at) = header_fields::read_bounding_box(map, at)?;
    let (tile_size, at) = byte_source::read_u16_be(map, at)?;
    let (projection, at) = utils::read_vbe_u(map, at)?;
    let (flags, at) = byte_source::read_u8(map, at)?;
    let front = Front {
        preamble,
        bounding_box,
        tile_size,
        projection,
        flags,
    };
    Ok((front, at))
}

// A field that a flag announces. One function for both fields would take a reader with its view and parser: no plainer.
pub fn read_optional_position(map: &[u8], at: usize, flag: bool) -> Read<Option<StoredPosition>>
    ensures { read_by maybe_place result ≡ optional flag place map.now at }
{
    if !flag {
        return Ok((None, at));
    }
    let (position, next) = header_fields::read_position(map, at)?;
    Ok((Some(position), next))
}

pub fn read_optional_byte(map: &[u8], at: usize, flag: bool) -> Read<Option<u8>>
    ensures { read_by maybe_byte result ≡ optional flag byte map.now at }
{
    if !flag {
        return Ok((None, at));
    }
    let (value, next) = byte_source::read_u8(map, at)?;
    Ok((Some(value), next))
}

// The fields that the flags announce: 40 start position, 20 start zoom level, 10 language, 08 comment, 04 created by.
pub fn read_options(map: &[u8], flags: u8, at: usize) -> Read<Options>
    ensures { read_by (options_of map.now) result ≡ options flags map.now at }
{
    let (start_position, at) = read_optional_position(map, at, flags / 64 % 2 == 1)?;
    let (start_zoom_level, at) = read_optional_byte(map, at, flags / 32 % 2 == 1)?;
    let (language_preference, at) = fields::read_optional_text(map, at, flags / 16 % 2 == 1)?;
    let (comment, at) = fields::read_optional_text(map, at, flags / 8 % 2 == 1)?;
    let (created_by, at) = fields::read_optional_text(map, at, flags / 4 % 2 == 1)?;
    let options = Options {
        start_position,
        start_zoom_level,
        language_preference,
        comment,
        created_by,
    };
    Ok((options, at))
}
