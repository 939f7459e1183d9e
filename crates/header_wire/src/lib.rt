// The header as words, and what tiles and sub files need of it, which other calls take back.
#![tactic(auto)]

ghost use Rattle.std.specs.Prelude.{◌≡◌, [], ◌∷◌, cond};
ghost use Rattle.std.proofs.lemmas.List.Edits.{sets};
ghost use Rattle.format.specs.Header.{bit};
ghost use Rattle.wire.specs.Wire.{wire, lending};
ghost use Rattle.header_wire.specs.Header.{byte_words, field_words, option_words, table_words, layout_words, degrees_of, layout_in, intervals_in, header_wire};

use error::LentRefusal;
use tile_layout::TileLayout;
use types::{HeaderFields, IntervalTable, TagRange};

#[derive(Clone, Copy)]
struct ByteWords {
    present: u64,
    value: u64,
}

// Whether there is a byte, and the byte. An elevation crosses beside this in a signed word, so `metre_words` fills another struct.
fn byte_words(byte: Option<u8>) -> ByteWords
    ensures { result ≡ byte_words byte }
{
    match byte {
        None => ByteWords {
            present: 0,
            value: 0,
        },
        Some(b) => ByteWords {
            present: 1,
            value: u64::from(b),
        },
    }
}

fn debug_bit(flags: u8) -> u64
    ensures { result ≡ cond (bit 7 flags) 1 0 }
{
    u64::from(flags / 128 % 2 == 1)
}

// What tiles and sub files need of a header that ends here: the debug flag, and where tags and intervals stand.
fn put_layout(fields: HeaderFields, end: usize, layout: &mut [u64; 7])
    ensures { layout.new ≡ sets layout.old 0 (layout_words fields end) }
{
    let table = zoom_intervals::table_before(end, fields.num_zoom_intervals);
    layout[0] = debug_bit(fields.flags);
    layout[1] = fields.poi_tags.start as u64;
    layout[2] = fields.poi_tags.count as u64;
    layout[3] = fields.way_tags.start as u64;
    layout[4] = fields.way_tags.count as u64;
    layout[5] = table.start as u64;
    layout[6] = u64::from(table.count);
}

// The listed tags: those of points come first, then those of ways.
pub fn layout_in(words: [u64; 7]) -> TileLayout
    ensures { result ≡ layout_in words }
{
    let points = words[2] as usize;
    let ways = words[4] as usize;
    TileLayout {
        debug: 0 < words[0],
        poi_tags: TagRange {
            first: 0,
            count: points,
        },
        way_tags: TagRange {
            first: points,
            count: ways,
        },
    }
}

pub fn intervals_in(words: [u64; 7]) -> IntervalTable
    ensures { result ≡ intervals_in words }
{
    IntervalTable {
        start: words[5] as usize,
        count: (words[6] % 256) as u8,
    }
}

// South, west, north and east; the start position, 0 where there is none.
fn put_degrees(fields: HeaderFields, degrees: &mut [f64; 6])
    ensures { degrees.new ≡ sets degrees.old 0 (degrees_of fields) }
{
    let bounds = fields.bounding_box;
    let start = wire::place_words(fields.map_start_position);
    degrees[0] = bounds.min.latitude;
    degrees[1] = bounds.min.longitude;
    degrees[2] = bounds.max.latitude;
    degrees[3] = bounds.max.longitude;
    degrees[4] = start.latitude;
    degrees[5] = start.longitude;
}

// The fields that may be absent.
fn put_options(fields: HeaderFields, words: &mut [u64; 34])
    ensures { words.new ≡ sets words.old 17 (option_words fields) }
{
    let position = wire::place_words(fields.map_start_position);
    let zoom = byte_words(fields.start_zoom_level);
    let language = wire::span_words(fields.language_preference);
    let comment = wire::span_words(fields.comment);
    let created = wire::span_words(fields.created_by);
    words[17] = position.present;
    words[18] = zoom.present;
    words[19] = zoom.value;
    words[20] = language.present;
    words[21] = language.start;
    words[22] = language.size;
    words[23] = comment.present;
    words[24] = comment.start;
    words[25] = comment.size;
    words[26] = created.present;
    words[27] = created.start;
    words[28] = created.size;
}

// The fields that every header has, and the place behind it.
fn put_fields(fields: HeaderFields, end: usize, words: &mut [u64; 34])
    ensures { words.new ≡ sets (sets words.old 6 (field_words fields end)) 29 (table_words fields) }
{
    words[6] = end as u64;
    words[7] = u64::from(fields.header_size);
    words[8] = u64::from(fields.file_version);
    words[9] = fields.file_size;
    words[10] = fields.creation_date;
    words[11] = u64::from(fields.tile_size);
    words[12] = u64::from(fields.flags);
    words[13] = fields.magic.start as u64;
    words[14] = fields.magic.size as u64;
    words[15] = fields.projection.start as u64;
    words[16] = fields.projection.size as u64;
    words[29] = fields.poi_tags.start as u64;
    words[30] = fields.poi_tags.count as u64;
    words[31] = fields.way_tags.start as u64;
    words[32] = fields.way_tags.count as u64;
    words[33] = u64::from(fields.num_zoom_intervals);
}

pub fn put_header(
    got: Result<(HeaderFields, usize), LentRefusal>,
    words: &mut [u64; 34],
    degrees: &mut [f64; 6],
    layout: &mut [u64; 7],
) -> u64
    ensures { wire result (words.new ∷ layout.new ∷ []) [] degrees.new ≡ header_wire (lending (words.old ∷ layout.old ∷ []) [] degrees.old) got }
{
    match got {
        Ok((fields, end)) => {
            put_fields(fields, end, words);
            put_options(fields, words);
            put_degrees(fields, degrees);
            put_layout(fields, end, layout);
            0
        }
        Err(r) => wire::put_lent_refusal(r, words),
    }
}
