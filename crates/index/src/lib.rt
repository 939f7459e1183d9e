// tile.rs and visit.rs: sub files, the tiles of their grids, and the tile index.
#![tactic(auto)]

ghost use Rattle.std.specs.Prelude.{◌≡◌, cond, ◌+◌, ◌*◌, ◌≤◌, ◌<◌, ◌^◌};
ghost use Rattle.arithmetic.specs.Cut.{cut};
ghost use Rattle.parsing.specs.Parse.{nth};
ghost use Rattle.format.specs.Header.{between};
ghost use Rattle.format.specs.Index.{holds_zoom, sub_file_for_zoom, width, grid_tiles, tile_count, in_grid, row_major, grid_index, tile_index_of, entry, entry_at, entry_asked, tile_index_entry};
ghost use Rattle.types.specs.Types.{interval_of, intervals_of, grid_of};
ghost use Rattle.index.specs.Asked.{Inside};
ghost use Rattle.index.specs.Answers.{maybe, interval_found, answer_by, answer_res, held_res};

use error::Refusal;
use types::{Grid, MapHeader, ZoomInterval};

// An entry of the tile index: where the tile stands, from its sub file's start and from the map's (2^64 - 1 for any larger place).
#[derive(Clone, Copy)]
pub struct TileIndexEntry {
    pub offset: u64,
    pub offset_abs: u64,
    pub is_water: bool,
}

// The zoom interval of a sub file: all that the calls below need to know of it.
pub fn interval_of(header: MapHeader, sub_file: usize) -> Option<ZoomInterval>
    ensures { interval_found result ≡ nth (intervals_of header) sub_file }
{
    if header.num_zoom_intervals as usize <= sub_file {
        return None;
    }
    Some(header.zoom_interval_configuration[sub_file])
}

// Whether a sub file has the zoom, by its interval.
pub fn holds_zoom(interval: ZoomInterval, zoom: u8) -> bool
    ensures { result ≡ holds_zoom (interval_of interval) zoom }
{
    interval.min_zoom_level <= zoom && zoom <= interval.max_zoom_level
}

// The number of the first sub file whose interval holds the zoom.
pub fn sub_file_for_zoom(header: MapHeader, zoom: u8) -> Option<usize>
    ensures { maybe result ≡ sub_file_for_zoom (intervals_of header) zoom }
{
    let n = header.num_zoom_intervals as usize;
    let intervals = &header.zoom_interval_configuration[..n];
    intervals.iter().position(|&z| holds_zoom(z, zoom))
}

// The columns or rows from low to high, both included; 0 if they are reversed.
fn width_of(low: i32, high: i32) -> u64
    ensures { result ≡ width low high }
{
    if high < low {
        return 0;
    }
    high.abs_diff(low) as u64 + 1
}

// How many tiles a grid has. The product of two widths may pass 64 bits, so it is tested before it is made.
pub fn grid_tiles(grid: Grid) -> Result<u64, Refusal>
    ensures { answer_res result ≡ grid_tiles (grid_of grid) }
{
    let columns = width_of(grid.x_min, grid.x_max);
    let rows = width_of(grid.y_min, grid.y_max);
    if columns < 1 {
        return Err(Refusal::InvalidGrid);
    }
    if rows < 1 {
        return Err(Refusal::InvalidGrid);
    }
    if 4294967295 / columns < rows {
        return Err(Refusal::InvalidGrid);
    }
    Ok(columns * rows)
}

// How many tiles, and so index entries, a sub file has.
#[tactic(auto, using(crate::proofs::AnswerLaws::reads), unfolding(format::specs::Index::tile_count))]
pub fn tile_count(found: Option<ZoomInterval>, grid: Grid) -> Result<Option<u32>, Refusal>
    ensures { answer_by maybe result ≡ tile_count (interval_found found) (grid_of grid) }
{
    let Some(_) = found else {
        return Ok(None);
    };
    let tiles = grid_tiles(grid)?;
    Ok(Some(tiles as u32))
}

// `contains` alone: the proof of a test of both ranges in one expression did not close.
fn in_range(low: i32, v: i32, high: i32) -> bool
    ensures { result ≡ between low high v }
{
    (low..=high).contains(&v)
}

fn in_grid(grid: Grid, x: i32, y: i32) -> bool
    ensures { result ≡ in_grid (grid_of grid) x y }
{
    in_range(grid.x_min, x, grid.x_max) && in_range(grid.y_min, y, grid.y_max)
}

// Of a tile in the grid.
fn row_major(grid: Grid, x: i32, y: i32) -> usize
    requires { Inside (grid_of grid) x y }
    ensures { result ≡ row_major (grid_of grid) x y }
{
    let row = y.abs_diff(grid.y_min) as u64;
    let column = x.abs_diff(grid.x_min) as u64;
    (row * width_of(grid.x_min, grid.x_max) + column) as usize
}

// The number of a tile in its grid, row by row.
#[tactic(auto, using(crate::proofs::AnswerLaws::reads), unfolding(format::specs::Index::grid_index))]
fn grid_index(grid: Grid, x: i32, y: i32) -> Result<Option<usize>, Refusal>
    ensures { answer_by maybe result ≡ grid_index (grid_of grid) x y }
{
    grid_tiles(grid)?;
    if !in_grid(grid, x, y) {
        return Ok(None);
    }
    Ok(Some(row_major(grid, x, y)))
}

// The number of the tile x, y in its sub file.
#[tactic(auto, using(crate::proofs::AnswerLaws::reads), unfolding(format::specs::Index::tile_index_of))]
pub fn tile_index_of(
    found: Option<ZoomInterval>,
    grid: Grid,
    x: i32,
    y: i32,
) -> Result<Option<usize>, Refusal>
    ensures { answer_by maybe result ≡ tile_index_of (interval_found found) (grid_of grid) x y }
{
    let Some(_) = found else {
        return Ok(None);
    };
    grid_index(grid, x, y)
}

// What stands in front of the entries: in debug maps the index signature.
fn signature_size(debug: bool) -> usize
    ensures { (result ≡ cond debug 16 0) × (result ≤ 16) }
{
    if debug {
        return 16;
    }
    0
}

// Where the entry of a tile stands; 2^64 - 1 stands for any place behind it, and is behind every map's end too.
fn entry_place(debug: bool, start: u64, tile: usize) -> usize
    requires { tile < 2 ^ 32 }
    ensures { result ≡ cut (entry_at debug start tile) }
{
    let size = signature_size(debug);
    arithmetic::saturating_add_usize(start as usize, size + 5 * tile)
}

// The top bit is water, the other 39 bits are the offset.
fn read_entry(map: &[u8], start: u64, at: usize) -> Result<TileIndexEntry, Refusal>
    ensures { answer_res result ≡ held_res (entry start map.now at) }
{
    let (n, _) = byte_source::read_u40_be(map, at).map_err(|r| error::cut_off_as(
        r,
        Refusal::IndexCutOff(at as u64),
    ))?;
    let offset = n % 549755813888;
    let absolute = arithmetic::saturating_add_usize(start as usize, offset as usize);
    Ok(TileIndexEntry {
        is_water: 549755813888 <= n,
        offset,
        offset_abs: absolute as u64,
    })
}

// The entry with this number in the sub file with this start, whatever tiles there are.
pub fn entry_at(map: &[u8], debug: bool, start: u64, tile: u32) -> Result<TileIndexEntry, Refusal>
    ensures { answer_res result ≡ held_res (entry start map.now (entry_at debug start tile)) }
{
    read_entry(map, start, entry_place(debug, start, tile as usize))
}

// The entry of a tile of the sub file with this start.
#[tactic(auto, using(crate::proofs::AnswerLaws::reads), unfolding(format::specs::Index::entry_asked))]
pub fn entry_in(
    map: &[u8],
    debug: bool,
    start: u64,
    grid: Grid,
    tile: usize,
) -> Result<TileIndexEntry, Refusal>
    ensures { answer_res result ≡ held_res (entry_asked debug start (grid_of grid) tile map.now) }
{
    let tiles = grid_tiles(grid)?;
    if tiles <= tile as u64 {
        return Err(Refusal::InvalidTileIndex);
    }
    entry_at(map, debug, start, tile as u32)
}

// The entry of a tile. Refused in this order: sub file (8), grid (14), tile (8), the map's end (19).
#[tactic(auto, using(crate::proofs::AnswerLaws::reads), unfolding(format::specs::Index::tile_index_entry))]
pub fn tile_index_entry(
    map: &[u8],
    debug: bool,
    found: Option<ZoomInterval>,
    grid: Grid,
    tile: usize,
) -> Result<TileIndexEntry, Refusal>
    ensures { answer_res result ≡ held_res (tile_index_entry debug (interval_found found) (grid_of grid) tile map.now) }
{
    let Some(interval) = found else {
        return Err(Refusal::InvalidTileIndex);
    };
    entry_in(map, debug, interval.sub_file_start, grid, tile)
}
