// way.rs: the fields of a way between its tag values and its coordinates.
#![tactic(auto)]

ghost use Rattle.std.specs.Prelude.{◌≡◌};
ghost use Rattle.parsing.specs.Parse.{map_res, optional};
ghost use Rattle.format.specs.WayData.{node};
ghost use Rattle.format.specs.Tile.{way_fields, data_block_count};
ghost use Rattle.byte_source.specs.Answers.{read_by, read_res};
ghost use Rattle.utils.specs.Answers.{noted_held};
ghost use Rattle.way_fields.specs.WayFields.{label_of, announced_of, body_head, way_fields_of};

use byte_source::{Read, Span};
use types::Position;
use utils::Noted;

// A way's texts are raw parts of the map. `data_blocks` data blocks follow. `plain`: whether every number was, that of the data blocks too.
#[derive(Clone, Copy)]
pub struct WayFields {
    pub name: Option<Span>,
    pub house_number: Option<Span>,
    pub reference: Option<Span>,
    pub label_position: Option<Position>,
    pub data_blocks: u64,
    pub double_delta: bool,
    pub plain: bool,
}

// The flags, and the fields that they announce. `plain`: whether every number was. Not `WayFields`, whose data blocks are not counted yet.
#[derive(Clone, Copy)]
struct Announced {
    name: Option<Span>,
    house_number: Option<Span>,
    reference: Option<Span>,
    label_position: Option<Position>,
    flags: u8,
    plain: bool,
}

// Latitude, then longitude, in degrees. One function for this and `read_noted_text` would take a reader with its view and parser: no plainer.
fn read_label(map: &[u8], at: usize, flag: bool) -> Read<Noted<Option<Position>>>
    ensures { read_by noted_held result ≡ map_res label_of (optional flag node map.now at) }
{
    if !flag {
        let absent = Noted {
            value: None,
            plain: true,
        };
        return Ok((absent, at));
    }
    let (position, next) = fields::read_position(map, at)?;
    let label = Noted {
        value: Some(position.value),
        plain: position.plain,
    };
    Ok((label, next))
}

fn read_announced(map: &[u8], at: usize) -> Read<Announced>
    ensures { read_res result ≡ map_res announced_of (way_fields map.now at) }
{
    let (flags, at) = byte_source::read_u8(map, at)?;
    let (name, at) = fields::read_noted_text(map, at, flags / 128 % 2 == 1)?;
    let (house_number, at) = fields::read_noted_text(map, at, flags / 64 % 2 == 1)?;
    let (reference, at) = fields::read_noted_text(map, at, flags / 32 % 2 == 1)?;
    let (label, at) = read_label(map, at, flags / 16 % 2 == 1)?;
    let announced = Announced {
        name: name.value,
        house_number: house_number.value,
        reference: reference.value,
        label_position: label.value,
        flags,
        plain: name.plain & house_number.plain & reference.plain & label.plain,
    };
    Ok((announced, at))
}

// Without the field there is one data block, and no number is stored.
fn read_data_block_count(map: &[u8], at: usize, flags: u8) -> Read<Noted<u64>>
    ensures { read_by noted_held result ≡ data_block_count flags map.now at }
{
    if flags / 8 % 2 == 1 {
        return utils::read_vbe_u_int(map, at);
    }
    let one = Noted {
        value: 1,
        plain: true,
    };
    Ok((one, at))
}

// The fields of a way with raw texts, and the place where its data blocks start.
pub fn read_way_fields(map: &[u8], at: usize) -> Read<WayFields>
    ensures { read_res result ≡ map_res way_fields_of (body_head map.now at) }
{
    let (fields, at) = read_announced(map, at)?;
    let (count, at) = read_data_block_count(map, at, fields.flags)?;
    let way = WayFields {
        name: fields.name,
        house_number: fields.house_number,
        reference: fields.reference,
        label_position: fields.label_position,
        double_delta: fields.flags / 4 % 2 == 1,
        data_blocks: count.value,
        plain: fields.plain & count.plain,
    };
    Ok((way, at))
}
