// header.rs: the file header. It is read without its intervals, which stand last; `with_intervals` adds them.
#![tactic(auto)]

ghost use Rattle.std.specs.Prelude.{◌≡◌};
ghost use Rattle.parsing.specs.Parse.{and_then, map_res};
ghost use Rattle.byte_source.specs.Answers.{read_res};
ghost use Rattle.format.specs.Header.{tables, header};
ghost use Rattle.types.specs.Types.{node_position, optional_position};
ghost use Rattle.header_fields.specs.Fields.{place_of, box_of};
ghost use Rattle.header_parts.specs.Parts.{front_of, options_of, maybe_place};
ghost use Rattle.header.specs.HeaderView.{bounding_box, header_fields, with_intervals, map_header, whole};
ghost use Rattle.header.specs.Made.{Made};

use byte_source::{Read, Span};
use error::Refusal;
use header_fields::{StoredBox, StoredPosition};
use header_parts::{Front, Options};
use types::{BoundingBox, HeaderFields, MapHeader, Position, TagTable, ZoomInterval};

fn degrees_of(p: StoredPosition) -> Position
    ensures { result ≡ node_position (place_of p) }
{
    types::position_of(p.latitude, p.longitude)
}

fn bounding_box_of(b: StoredBox) -> BoundingBox
    ensures { result ≡ bounding_box (box_of b) }
{
    BoundingBox {
        min: degrees_of(b.min),
        max: degrees_of(b.max),
    }
}

fn optional_position_of(p: Option<StoredPosition>) -> Option<Position>
    ensures { result ≡ optional_position (maybe_place p) }
{
    p.map(degrees_of)
}

// The fields of the header's parts.
fn fields_of(
    front: Front,
    options: Options,
    poi_tags: TagTable,
    way_tags: TagTable,
    num_zoom_intervals: u8,
) -> HeaderFields
    ensures { Made front options poi_tags way_tags num_zoom_intervals result }
{
    HeaderFields {
        magic: Span { start: 0, size: 20 },
        header_size: front.preamble.header_size,
        file_version: front.preamble.file_version,
        file_size: front.preamble.file_size,
        creation_date: front.preamble.creation_date,
        bounding_box: bounding_box_of(front.bounding_box),
        tile_size: front.tile_size,
        projection: front.projection,
        flags: front.flags,
        map_start_position: optional_position_of(options.start_position),
        start_zoom_level: options.start_zoom_level,
        language_preference: options.language_preference,
        comment: options.comment,
        created_by: options.created_by,
        poi_tags,
        way_tags,
        num_zoom_intervals,
    }
}

// What stands behind the optional fields. Header size 0 is refused only once the intervals were passed.
fn read_tables(map: &[u8], at: usize, front: Front, options: Options) -> Read<HeaderFields>
    ensures { read_res result ≡ map_res header_fields (tables (front_of map.now front) (options_of map.now options) map.now at) }
{
    let (poi_tags, at) = tag_table::read_tag_table(map, at)?;
    let (way_tags, at) = tag_table::read_tag_table(map, at)?;
    let (count, at) = zoom_intervals::pass_intervals(map, at)?;
    if front.preamble.header_size == 0 {
        return Err(Refusal::InvalidHeaderSize);
    }
    let fields = fields_of(front, options, poi_tags, way_tags, count);
    Ok((fields, at))
}

// The header without its intervals.
pub fn read_fields(map: &[u8]) -> Read<HeaderFields>
    ensures { read_res result ≡ map_res header_fields (header map.now 0) }
{
    let (front, at) = header_parts::read_front(map, 0)?;
    let (options, at) = header_parts::read_options(map, front.flags, at)?;
    read_tables(map, at, front, options)
}

fn header_of(fields: HeaderFields, zoom_interval_configuration: [ZoomInterval; 255]) -> MapHeader
    ensures { result ≡ with_intervals fields zoom_interval_configuration }
{
    MapHeader {
        magic: fields.magic,
        header_size: fields.header_size,
        file_version: fields.file_version,
        file_size: fields.file_size,
        creation_date: fields.creation_date,
        bounding_box: fields.bounding_box,
        tile_size: fields.tile_size,
        projection: fields.projection,
        flags: fields.flags,
        map_start_position: fields.map_start_position,
        start_zoom_level: fields.start_zoom_level,
        language_preference: fields.language_preference,
        comment: fields.comment,
        created_by: fields.created_by,
        poi_tags: fields.poi_tags,
        way_tags: fields.way_tags,
        num_zoom_intervals: fields.num_zoom_intervals,
        zoom_interval_configuration,
    }
}

// A header that was read, with its intervals.
pub fn with_intervals(map: &[u8], got: Read<HeaderFields>) -> Read<MapHeader>
    ensures { read_res result ≡ and_then (read_res got) (whole map.now) }
{
    let (fields, at) = got?;
    let table = zoom_intervals::table_before(at, fields.num_zoom_intervals);
    let (zooms, next) = zoom_intervals::fill_intervals(map, table.start, table.count)?;
    Ok((header_of(fields, zooms.intervals), next))
}

pub fn read_from_file(map: &[u8]) -> Read<MapHeader>
    ensures { read_res result ≡ map_res map_header (header map.now 0) }
{
    with_intervals(map, read_fields(map))
}
