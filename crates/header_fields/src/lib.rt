// header.rs: the fields that every header has in front of the optional ones.
#![tactic(auto)]

ghost use Rattle.std.specs.Prelude.{◌≡◌, ◌&&◌};
ghost use Rattle.byte_source.specs.Answers.{read_by};
ghost use Rattle.format.specs.Header.{same, versioned, preamble, place, box, on_earth, valid_box};
ghost use Rattle.header_fields.specs.Fields.{place_of, box_of, preamble_of};

use byte_source::Read;
use error::Refusal;
use utils::Microdegrees;

// A position as stored.
#[derive(Clone, Copy)]
pub struct StoredPosition {
    pub latitude: Microdegrees,
    pub longitude: Microdegrees,
}

#[derive(Clone, Copy)]
pub struct StoredBox {
    pub min: StoredPosition,
    pub max: StoredPosition,
}

#[derive(Clone, Copy)]
pub struct Preamble {
    pub file_size: u64,
    pub creation_date: u64,
    pub header_size: u32,
    pub file_version: u32,
}

// Whether two slices hold the same bytes: std's `==` under the format's word, on which the proofs of its callers rest. With `==` in place
// that of `read_preamble` did not close.
pub fn same_bytes(a: &[u8], b: &[u8]) -> bool
    ensures { result ≡ same a.now b.now }
{
    a == b
}

// Behind the magic bytes.
fn read_versioned(map: &[u8], at: usize) -> Read<Preamble>
    ensures { read_by preamble_of result ≡ versioned map.now at }
{
    let (header_size, at) = byte_source::read_u32_be(map, at)?;
    let (file_version, at) = byte_source::read_u32_be(map, at)?;
    if file_version < 3 {
        return Err(Refusal::UnsupportedVersion(file_version));
    }
    let (file_size, at) = byte_source::read_u64_be(map, at)?;
    let (creation_date, at) = byte_source::read_u64_be(map, at)?;
    let preamble = Preamble {
        header_size,
        file_version,
        file_size,
        creation_date,
    };
    Ok((preamble, at))
}

// The magic bytes, sizes, version and date.
pub fn read_preamble(map: &[u8], at: usize) -> Read<Preamble>
    ensures { read_by preamble_of result ≡ preamble map.now at }
{
    let (span, next) = byte_source::read_bytes(map, at, 20)?;
    let bytes = byte_source::span_bytes(map, span);
    if same_bytes(bytes, b"mapsforge binary OSM") {
        return read_versioned(map, next);
    }
    Err(Refusal::InvalidMagic)
}

// 32 bits as stored.
fn microdegrees_of(v: i32) -> Microdegrees
    ensures { result.0 ≡ v }
{
    Microdegrees(v as i64)
}

// Latitude, then longitude, 32 bits each.
pub fn read_position(map: &[u8], at: usize) -> Read<StoredPosition>
    ensures { read_by place_of result ≡ place map.now at }
{
    let (y, at) = byte_source::read_i32_be(map, at)?;
    let (x, at) = byte_source::read_i32_be(map, at)?;
    let position = StoredPosition {
        latitude: microdegrees_of(y),
        longitude: microdegrees_of(x),
    };
    Ok((position, at))
}

// Latitudes from -90 to 90 degrees, longitudes from -180 to 180.
fn on_earth(p: StoredPosition) -> bool
    ensures { result ≡ on_earth (place_of p) }
{
    let in_latitudes = -90000000 <= p.latitude.0 && p.latitude.0 <= 90000000;
    let in_longitudes = -180000000 <= p.longitude.0 && p.longitude.0 <= 180000000;
    in_latitudes && in_longitudes
}

fn valid_box(a: StoredPosition, b: StoredPosition) -> bool
    ensures { result ≡ valid_box (place_of a) (place_of b) }
{
    on_earth(a) && on_earth(b) && a.latitude.0 <= b.latitude.0 && a.longitude.0 <= b.longitude.0
}

// The box is checked right after its 16 bytes.
pub fn read_bounding_box(map: &[u8], at: usize) -> Read<StoredBox>
    ensures { read_by box_of result ≡ box map.now at }
{
    let (min, at) = read_position(map, at)?;
    let (max, at) = read_position(map, at)?;
    if valid_box(min, max) {
        return Ok((StoredBox { min, max }, at));
    }
    Err(Refusal::InvalidBoundingBox)
}
