// poi.rs, way.rs and header.rs: the fields that points, ways and the header have alike, but for tags.
#![tactic(auto)]

ghost use Rattle.std.specs.Prelude.{◌≡◌};
ghost use Rattle.parsing.specs.Parse.{map_res, optional};
ghost use Rattle.byte_source.specs.Answers.{read_by};
ghost use Rattle.utils.specs.Answers.{noted_held, noted_by};
ghost use Rattle.types.specs.Types.{maybe_part};
ghost use Rattle.utils.specs.Vbe.{text, noted_text};
ghost use Rattle.format.specs.WayData.{node};
ghost use Rattle.format.specs.Tile.{debug_signature};
ghost use Rattle.fields.specs.Fields.{maybe_noted, noted_position, streamed_span};

use byte_source::{Read, Span};
use types::Position;
use utils::Noted;

// In debug maps, the 32 bytes in front of a tile or a feature. One function for this and a text would take the read with its view: no plainer.
pub fn read_signature(map: &[u8], at: usize, debug: bool) -> Read<Option<Span>>
    ensures { read_by (maybe_part map.now) result ≡ debug_signature debug map.now at }
{
    if !debug {
        return Ok((None, at));
    }
    let (span, next) = byte_source::read_bytes(map, at, 32)?;
    Ok((Some(span), next))
}

// A text that a flag announces, alone. By the same read as the noted one, which stays one piece of code that way.
pub fn read_optional_text(map: &[u8], at: usize, flag: bool) -> Read<Option<Span>>
    ensures { read_by (maybe_part map.now) result ≡ optional flag text map.now at }
{
    if !flag {
        return Ok((None, at));
    }
    let (text, next) = utils::read_text(map, at)?;
    Ok((Some(text.value), next))
}

// A text that a flag announces, and whether the encoding of its length was plain; without the text there is no number that is not.
pub fn read_noted_text(map: &[u8], at: usize, flag: bool) -> Read<Noted<Option<Span>>>
    ensures { read_by (noted_by (maybe_part map.now)) result ≡ map_res maybe_noted (optional flag noted_text map.now at) }
{
    if !flag {
        let absent = Noted {
            value: None,
            plain: true,
        };
        return Ok((absent, at));
    }
    let (text, next) = utils::read_text(map, at)?;
    let found = Noted {
        value: Some(text.value),
        plain: text.plain,
    };
    Ok((found, next))
}

// Latitude, then longitude, in degrees.
pub fn read_position(map: &[u8], at: usize) -> Read<Noted<Position>>
    ensures { read_by noted_held result ≡ map_res noted_position (node map.now at) }
{
    let (latitude, at) = utils::read_microdegrees(map, at)?;
    let (longitude, at) = utils::read_microdegrees(map, at)?;
    let position = Noted {
        value: types::position_of(latitude.value, longitude.value),
        plain: latitude.plain & longitude.plain,
    };
    Ok((position, at))
}

// A text as it is streamed: a part of the map, empty if it is not valid UTF-8.
pub fn streamed_span(map: &[u8], span: Option<Span>) -> Option<Span>
    ensures { result ≡ streamed_span map.now span }
{
    let part = span?;
    let bytes = byte_source::span_bytes(map, part);
    if text::utf8_valid(bytes) {
        return Some(part);
    }
    Some(Span {
        start: part.start,
        size: 0,
    })
}
