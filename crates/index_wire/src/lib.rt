// What is asked of sub files, tiles, tags, texts, columns and a way's data, as words for programs in other languages. An answer writes its
// own words; the others keep their values.
#![tactic(auto)]

ghost use Rattle.std.specs.Prelude.{◌≡◌, [], ◌∷◌};
ghost use Rattle.wire.specs.Wire.{wire, lending};
ghost use Rattle.index_wire.specs.Index.{put_found, put_absent, number_wire, interval_wire, interval_in, entry_wire, kind_word, tag_wire, text_wire, column_wire, longitude_wire, put_sizes, way_data_wire, data_written_wire};

use byte_source::{Read, Span};
use error::{LentRefusal, Refusal};
use index::TileIndexEntry;
use tag::Kind;
use types::ZoomInterval;
use utils::Degrees;
use way_measure::Sizes;

// A number that may be absent: 1 and the number,
fn put_found(number: u64, words: &mut [u64; 8]) -> u64
    ensures { wire result (words.new ∷ []) [] [] ≡ put_found number (lending (words.old ∷ []) [] []) }
{
    words[6] = 1;
    words[7] = number;
    0
}

// or 0.
fn put_absent(words: &mut [u64; 8]) -> u64
    ensures { wire result (words.new ∷ []) [] [] ≡ put_absent (lending (words.old ∷ []) [] []) }
{
    words[6] = 0;
    0
}

// Beside put_index: of u32 and usize no conversion to words is common that a generic function could call.
pub fn put_count(got: Result<Option<u32>, Refusal>, words: &mut [u64; 8]) -> u64
    ensures { wire result (words.new ∷ []) [] [] ≡ number_wire (lending (words.old ∷ []) [] []) got }
{
    match got {
        Ok(None) => put_absent(words),
        Ok(Some(n)) => put_found(u64::from(n), words),
        Err(r) => wire::put_refusal(r, words),
    }
}

pub fn put_index(got: Result<Option<usize>, Refusal>, words: &mut [u64; 8]) -> u64
    ensures { wire result (words.new ∷ []) [] [] ≡ number_wire (lending (words.old ∷ []) [] []) got }
{
    match got {
        Ok(None) => put_absent(words),
        Ok(Some(n)) => put_found(n as u64, words),
        Err(r) => wire::put_refusal(r, words),
    }
}

// A sub file's interval, as other calls take it; of a missing one only the mark that there is none.
pub fn put_interval(
    got: Result<Option<ZoomInterval>, Refusal>,
    words: &mut [u64; 6],
    interval: &mut [u64; 6],
) -> u64
    ensures { wire result (words.new ∷ interval.new ∷ []) [] [] ≡ interval_wire (lending (words.old ∷ interval.old ∷ []) [] []) got }
{
    match got {
        Ok(None) => {
            interval[0] = 0;
            0
        }
        Ok(Some(z)) => {
            interval[0] = 1;
            interval[1] = z.base_zoom_level as u64;
            interval[2] = z.min_zoom_level as u64;
            interval[3] = z.max_zoom_level as u64;
            interval[4] = z.sub_file_start;
            interval[5] = z.sub_file_size;
            0
        }
        Err(r) => wire::put_refusal(r, words),
    }
}

pub fn interval_in(words: [u64; 6]) -> Option<ZoomInterval>
    ensures { result ≡ interval_in words }
{
    if 0 < words[0] {
        return Some(ZoomInterval {
            base_zoom_level: (words[1] % 256) as u8,
            min_zoom_level: (words[2] % 256) as u8,
            max_zoom_level: (words[3] % 256) as u8,
            sub_file_start: words[4],
            sub_file_size: words[5],
        });
    }
    None
}

// Whether a tile is water, and where it stands, from the sub file's start and from the map's.
pub fn put_entry(got: Result<TileIndexEntry, Refusal>, words: &mut [u64; 9]) -> u64
    ensures { wire result (words.new ∷ []) [] [] ≡ entry_wire (lending (words.old ∷ []) [] []) got }
{
    match got {
        Ok(e) => {
            let water = u64::from(e.is_water);
            words[6] = water;
            words[7] = e.offset;
            words[8] = e.offset_abs;
            0
        }
        Err(r) => wire::put_refusal(r, words),
    }
}

// The letters of inline values: 1 for b, 2 h, 3 i, 4 f, 5 s; 0 for none.
fn kind_word(kind: Kind) -> u64
    ensures { result ≡ kind_word kind }
{
    match kind {
        Kind::Nothing => 0,
        Kind::Byte => 1,
        Kind::Short => 2,
        Kind::Int => 3,
        Kind::Float => 4,
        Kind::Text => 5,
    }
}

// Where a tag's text stands, the place behind it, and the kind of its inline value; without a text there is no kind to tell.
pub fn put_tag(got: Read<Span>, kind: Kind, words: &mut [u64; 10]) -> u64
    ensures { wire result (words.new ∷ []) [] [] ≡ tag_wire (lending (words.old ∷ []) [] []) (record { text = got; kind = kind }) }
{
    match got {
        Ok((span, end)) => {
            let letter = kind_word(kind);
            words[6] = span.start as u64;
            words[7] = span.size as u64;
            words[8] = end as u64;
            words[9] = letter;
            0
        }
        Err(r) => wire::put_refusal(r, words),
    }
}

// How many bytes of a text were written.
pub fn put_text(got: Result<usize, LentRefusal>, words: &mut [u64; 7]) -> u64
    ensures { wire result (words.new ∷ []) [] [] ≡ text_wire (lending (words.old ∷ []) [] []) got }
{
    match got {
        Ok(n) => {
            words[6] = n as u64;
            0
        }
        Err(r) => wire::put_lent_refusal(r, words),
    }
}

pub fn put_column(got: Result<i32, Refusal>, words: &mut [u64; 6], column: &mut [i64; 1]) -> u64
    ensures { wire result (words.new ∷ []) column.new [] ≡ column_wire (lending (words.old ∷ []) column.old []) got }
{
    match got {
        Ok(x) => {
            let found = i64::from(x);
            column[0] = found;
            0
        }
        Err(r) => wire::put_refusal(r, words),
    }
}

pub fn put_longitude(
    got: Result<Degrees, Refusal>,
    words: &mut [u64; 6],
    longitude: &mut [f64; 1],
) -> u64
    ensures { wire result (words.new ∷ []) [] longitude.new ≡ longitude_wire (lending (words.old ∷ []) [] longitude.old) got }
{
    match got {
        Ok(d) => {
            longitude[0] = d.0;
            0
        }
        Err(r) => wire::put_refusal(r, words),
    }
}

// The numbers of blocks and nodes of a way's data, and the place behind them.
fn put_sizes(sizes: Sizes, end: usize, words: &mut [u64; 10]) -> u64
    ensures { wire result (words.new ∷ []) [] [] ≡ put_sizes sizes end (lending (words.old ∷ []) [] []) }
{
    let plain = u64::from(sizes.plain);
    words[6] = sizes.blocks;
    words[7] = sizes.nodes;
    words[8] = end as u64;
    words[9] = plain;
    0
}

pub fn put_way_data(got: Read<Sizes>, words: &mut [u64; 10]) -> u64
    ensures { wire result (words.new ∷ []) [] [] ≡ way_data_wire (lending (words.old ∷ []) [] []) got }
{
    match got {
        Ok((s, end)) => put_sizes(s, end, words),
        Err(r) => wire::put_refusal(r, words),
    }
}

// The same of data that was written. It refuses with another type, and what puts the one refusal does not put the other.
pub fn put_data_written(got: Result<(Sizes, usize), LentRefusal>, words: &mut [u64; 10]) -> u64
    ensures { wire result (words.new ∷ []) [] [] ≡ data_written_wire (lending (words.old ∷ []) [] []) got }
{
    match got {
        Ok((s, end)) => put_sizes(s, end, words),
        Err(r) => wire::put_lent_refusal(r, words),
    }
}
