// types.rs: the records that are handed out.
#![tactic(auto)]

ghost use Rattle.std.specs.Prelude.{◌≡◌};
ghost use Rattle.types.specs.Types.{position_of};

use byte_source::Span;
use utils::Microdegrees;

// In degrees.
#[derive(Clone, Copy)]
pub struct Position {
    pub latitude: f64,
    pub longitude: f64,
}

#[derive(Clone, Copy)]
pub struct BoundingBox {
    pub min: Position,
    pub max: Position,
}

// The zoom levels from min to max have one sub file.
#[derive(Clone, Copy)]
pub struct ZoomInterval {
    pub sub_file_start: u64,
    pub sub_file_size: u64,
    pub base_zoom_level: u8,
    pub min_zoom_level: u8,
    pub max_zoom_level: u8,
}

// Where the tag names of points or of ways stand in the map's header, and how many there are.
#[derive(Clone, Copy)]
pub struct TagTable {
    pub start: usize,
    pub count: usize,
}

// Which entries of the listed tag strings are the tags of points, or of ways: `count` entries from `first` on.
#[derive(Clone, Copy)]
pub struct TagRange {
    pub first: usize,
    pub count: usize,
}

// Where the zoom intervals stand in the map's header, and how many there are.
#[derive(Clone, Copy)]
pub struct IntervalTable {
    pub start: usize,
    pub count: u8,
}

// The file header but for the array of its intervals, which is 6 KB.
#[derive(Clone, Copy)]
pub struct HeaderFields {
    pub magic: Span,
    pub file_size: u64,
    pub creation_date: u64,
    pub bounding_box: BoundingBox,
    pub projection: Span,
    pub map_start_position: Option<Position>,
    pub language_preference: Option<Span>,
    pub comment: Option<Span>,
    pub created_by: Option<Span>,
    pub poi_tags: TagTable,
    pub way_tags: TagTable,
    pub header_size: u32,
    pub file_version: u32,
    pub tile_size: u16,
    pub flags: u8,
    pub num_zoom_intervals: u8,
    pub start_zoom_level: Option<u8>,
}

// The file header. Texts are parts of the map; the intervals are filled from the front.
#[derive(Clone, Copy)]
pub struct MapHeader {
    pub magic: Span,
    pub header_size: u32,
    pub file_version: u32,
    pub tile_size: u16,
    pub flags: u8,
    pub num_zoom_intervals: u8,
    pub start_zoom_level: Option<u8>,
    pub file_size: u64,
    pub creation_date: u64,
    pub bounding_box: BoundingBox,
    pub projection: Span,
    pub map_start_position: Option<Position>,
    pub language_preference: Option<Span>,
    pub comment: Option<Span>,
    pub created_by: Option<Span>,
    pub poi_tags: TagTable,
    pub way_tags: TagTable,
    // an array, since the header is handed out by value and there is no heap
    pub zoom_interval_configuration: [ZoomInterval; 255],
}

// The tiles of a sub file, as the host computes them; both ends are included.
#[derive(Clone, Copy)]
pub struct Grid {
    pub x_min: i32,
    pub y_min: i32,
    pub x_max: i32,
    pub y_max: i32,
}

// The position of two stored coordinates.
pub fn position_of(latitude: Microdegrees, longitude: Microdegrees) -> Position
    ensures { result ≡ position_of latitude.0 longitude.0 }
{
    let y = utils::microdegrees_to_degrees(latitude);
    let x = utils::microdegrees_to_degrees(longitude);
    Position {
        latitude: y.0,
        longitude: x.0,
    }
}
