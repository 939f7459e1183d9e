// A header in words, a line for each field.
use byte_source::Span;
use error::Refusal;
use std::io;
use std::io::Write;
use types::{BoundingBox, MapHeader, Position, TagTable, ZoomInterval};

// How a header reads is for its reader to judge, so none of these functions has a contract.
fn number<W: Write>(to: &mut W, label: &str, value: u64) -> io::Result<()> {
    writeln!(to, "{label}{value}")
}

pub(crate) fn refusal<W: Write>(to: &mut W, r: Refusal) -> io::Result<()> {
    let number = error::number_of(r);
    writeln!(
        to,
        "not a readable map: refusal {number} (docs/DIFFERENCES.md and crates/error say what each number means)"
    )
}

// The bytes of the map as they are: they need not be UTF-8.
fn text<W: Write>(to: &mut W, label: &str, map: &[u8], span: Span) -> io::Result<()> {
    write!(to, "{label}")?;
    to.write_all(byte_source::span_bytes(map, span))?;
    to.write_all(b"\n")
}

fn optional_text<W: Write>(
    to: &mut W,
    label: &str,
    map: &[u8],
    value: Option<Span>,
) -> io::Result<()> {
    if let Some(span) = value {
        text(to, label, map, span)?;
    }
    Ok(())
}

// Six digits behind the point: microdegrees.
fn fraction<W: Write>(to: &mut W, micro: u64) -> io::Result<()> {
    write!(to, "{micro:06}")
}

fn microdegrees<W: Write>(to: &mut W, micro: u64) -> io::Result<()> {
    let whole = micro / 1000000;
    write!(to, "{whole}.")?;
    fraction(to, micro % 1000000)
}

// The coordinates of a header lie within 180 degrees.
fn degrees<W: Write>(to: &mut W, x: f64) -> io::Result<()> {
    if x < 0.0 {
        write!(to, "-")?;
        return size(to, 0.0 - x);
    }
    size(to, x)
}

fn size<W: Write>(to: &mut W, x: f64) -> io::Result<()> {
    let micro = x * 1000000.0 + 0.5;
    if micro > -1.0 && micro < 18446744073709551616.0 {
        return microdegrees(to, std::num::truncating_f64_to_u64(micro));
    }
    Ok(())
}

fn position<W: Write>(to: &mut W, label: &str, p: Position) -> io::Result<()> {
    write!(to, "{label}")?;
    degrees(to, p.latitude)?;
    write!(to, " ")?;
    degrees(to, p.longitude)?;
    to.write_all(b"\n")
}

fn optional_position<W: Write>(to: &mut W, label: &str, value: Option<Position>) -> io::Result<()> {
    if let Some(p) = value {
        position(to, label, p)?;
    }
    Ok(())
}

fn optional_byte<W: Write>(to: &mut W, label: &str, value: Option<u8>) -> io::Result<()> {
    if let Some(b) = value {
        number(to, label, u64::from(b))?;
    }
    Ok(())
}

// The tag names, one to a line, with their ids.
fn tags<W: Write>(to: &mut W, label: &str, map: &[u8], table: TagTable) -> io::Result<()> {
    number(to, label, table.count as u64)?;
    let mut at = table.start;
    for i in 0..table.count {
        let Ok((span, next)) = utils::read_vbe_u(map, at) else {
            return Ok(());
        };
        write!(to, "  {i}")?;
        text(to, " ", map, span)?;
        at = next;
    }
    Ok(())
}

fn interval<W: Write>(to: &mut W, k: usize, z: ZoomInterval) -> io::Result<()> {
    let min = z.min_zoom_level;
    let max = z.max_zoom_level;
    let base = z.base_zoom_level;
    let start = z.sub_file_start;
    let bytes = z.sub_file_size;
    writeln!(
        to,
        "sub file {k}: zoom {min} to {max}, base {base}, at {start}, bytes {bytes}"
    )
}

fn intervals<W: Write>(to: &mut W, h: MapHeader) -> io::Result<()> {
    let count = h.num_zoom_intervals as usize;
    for (k, &z) in h.zoom_interval_configuration[..count].iter().enumerate() {
        interval(to, k, z)?;
    }
    Ok(())
}

fn bounds<W: Write>(to: &mut W, b: BoundingBox) -> io::Result<()> {
    position(to, "south west: ", b.min)?;
    position(to, "north east: ", b.max)
}

fn front<W: Write>(to: &mut W, map: &[u8], h: MapHeader) -> io::Result<()> {
    number(to, "version: ", u64::from(h.file_version))?;
    number(to, "file size: ", h.file_size)?;
    number(to, "created, in milliseconds since 1970: ", h.creation_date)?;
    bounds(to, h.bounding_box)?;
    number(to, "tile size: ", u64::from(h.tile_size))?;
    text(to, "projection: ", map, h.projection)?;
    number(to, "flags: ", u64::from(h.flags))
}

fn options<W: Write>(to: &mut W, map: &[u8], h: MapHeader) -> io::Result<()> {
    optional_position(to, "start position: ", h.map_start_position)?;
    optional_byte(to, "start zoom: ", h.start_zoom_level)?;
    optional_text(to, "language: ", map, h.language_preference)?;
    optional_text(to, "comment: ", map, h.comment)?;
    optional_text(to, "created by: ", map, h.created_by)
}

// The whole header, which ends at `end`.
pub(crate) fn header<W: Write>(to: &mut W, map: &[u8], h: MapHeader, end: usize) -> io::Result<()> {
    front(to, map, h)?;
    options(to, map, h)?;
    tags(to, "point tags: ", map, h.poi_tags)?;
    tags(to, "way tags: ", map, h.way_tags)?;
    intervals(to, h)?;
    number(to, "header ends at: ", end as u64)
}
