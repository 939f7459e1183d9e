// header.rs: the zoom intervals, each with its sub file. They are rows of 19 bytes, the last thing in the header, and are read one by one
// where they stand, or all into an array.
#![tactic(auto)]

ghost use Rattle.std.specs.Prelude.{◌≡◌, ◌+◌, ◌≤◌, length};
ghost use Rattle.parsing.specs.Parse.{ok, map_res, many};
ghost use Rattle.byte_source.specs.Answers.{read_by, read_res};
ghost use Rattle.byte_source.specs.BigEndian.{big_endian};
ghost use Rattle.format.specs.Header.{interval, intervals};
ghost use Rattle.format.specs.IntervalTable.{row_at, row_holding};
ghost use Rattle.types.specs.Types.{interval_of};
ghost use Rattle.index.specs.Answers.{maybe, interval_found, answer_by};
ghost use Rattle.zoom_intervals.specs.Intervals.{empty_interval, zoom_intervals};
ghost use Rattle.zoom_intervals.specs.Rows.{table_before};

use byte_source::Read;
use error::Refusal;
use types::{IntervalTable, ZoomInterval};

// Up to 255 intervals, filled from the front. An array with a count, since it is handed out by value and there is no heap.
#[derive(Clone, Copy)]
pub struct ZoomIntervals {
    pub intervals: [ZoomInterval; 255],
    pub count: u8,
}

// A number of a row that is whole in the map.
fn number_at(map: &[u8], at: usize) -> u64
    requires { at + 8 ≤ length map.now }
    ensures { ok result (at + 8) ≡ big_endian 8 map.now at }
{
    match byte_source::read_u64_be(map, at) {
        Ok((n, _)) => n,
        Err(_) => 0,
    }
}

fn row(map: &[u8], at: usize) -> ZoomInterval
    requires { at + 19 ≤ length map.now }
    ensures { ok (interval_of result) (at + 19) ≡ interval map.now at }
{
    let sub_file_start = number_at(map, at + 3);
    let sub_file_size = number_at(map, at + 11);
    ZoomInterval {
        base_zoom_level: map[at],
        min_zoom_level: map[at + 1],
        max_zoom_level: map[at + 2],
        sub_file_start,
        sub_file_size,
    }
}

// One test for all its bytes, so that a call for a row is short.
pub fn read_interval(map: &[u8], at: usize) -> Read<ZoomInterval>
    ensures { read_by interval_of result ≡ interval map.now at }
{
    if map.len() < at {
        return Err(Refusal::Source);
    }
    if map.len() - at < 19 {
        return Err(Refusal::Source);
    }
    Ok((row(map, at), at + 19))
}

pub fn empty_interval() -> ZoomInterval
    ensures { result ≡ empty_interval }
{
    ZoomInterval {
        base_zoom_level: 0,
        min_zoom_level: 0,
        max_zoom_level: 0,
        sub_file_start: 0,
        sub_file_size: 0,
    }
}

// `count` intervals.
pub fn fill_intervals(map: &[u8], at: usize, count: u8) -> Read<ZoomIntervals>
    ensures { read_res result ≡ map_res zoom_intervals (many interval count map.now at) }
{
    let mut intervals = [empty_interval(); 255];
    let mut next = at;
    for i in 0..count as usize {
        let (one, after) = read_interval(map, next)?;
        intervals[i] = one;
        next = after;
    }
    Ok((ZoomIntervals { intervals, count }, next))
}

// A count of one byte, then as many intervals: how many there are, and the place behind them.
pub fn pass_intervals(map: &[u8], at: usize) -> Read<u8>
    ensures { read_res result ≡ map_res length (intervals map.now at) }
{
    let (count, at) = byte_source::read_u8(map, at)?;
    let (_, next) = byte_source::read_bytes(map, at, 19 * (count as usize))?;
    Ok((count, next))
}

// The table of so many intervals that end here. 0 stands for a start in front of the map.
pub fn table_before(end: usize, count: u8) -> IntervalTable
    ensures { result ≡ table_before end count }
{
    let start = end.saturating_sub(19 * (count as usize));
    IntervalTable { start, count }
}

// Interval k of a table, which may be of another map; 2^64 - 1 stands for any place behind it, and is behind every map's end too.
pub fn interval_at(
    map: &[u8],
    table: IntervalTable,
    k: usize,
) -> Result<Option<ZoomInterval>, Refusal>
    ensures { answer_by interval_found result ≡ row_at table.start table.count k map.now }
{
    if table.count as usize <= k {
        return Ok(None);
    }
    let at = arithmetic::saturating_add_usize(table.start, 19 * k);
    let (interval, _) = read_interval(map, at)?;
    Ok(Some(interval))
}

// The number of the first sub file, counted from 0, whose interval holds the zoom.
pub fn sub_file_for_zoom(
    map: &[u8],
    table: IntervalTable,
    zoom: u8,
) -> Result<Option<usize>, Refusal>
    ensures { answer_by maybe result ≡ row_holding zoom 0 table.count map.now table.start }
{
    let mut at = table.start;
    for i in 0..table.count as usize {
        let (interval, next) = read_interval(map, at)?;
        if index::holds_zoom(interval, zoom) {
            return Ok(Some(i));
        }
        at = next;
    }
    Ok(None)
}
