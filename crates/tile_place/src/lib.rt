// tile.rs and visit.rs: where a tile stands, and its sub file's zoom levels, before any byte of the tile is read.
#![tactic(auto)]

ghost use Rattle.std.specs.Prelude.{◌≡◌, cond, ◌<◌, ◌^◌};
ghost use Rattle.parsing.specs.Parse.{map_res};
ghost use Rattle.format.specs.Index.{locate_in, locate};
ghost use Rattle.types.specs.Types.{interval_of, grid_of};
ghost use Rattle.index.specs.Answers.{interval_found, answer_res};
ghost use Rattle.tile_place.specs.Places.{place_of, next_after, place_there};

use error::Refusal;
use types::{Grid, ZoomInterval};

// `at` is the tile's first byte; 2^64 - 1 stands for any place behind it, and is behind every map's end too. A tile that its index
// marks empty has no bytes, and 0 stands there: no Option, since its head, which says that it has no features, ends at that 0.
#[derive(Clone, Copy)]
pub struct FoundTile {
    pub at: u64,
    pub min_zoom: u8,
    pub max_zoom: u8,
    pub is_water: bool,
    pub empty: bool,
}

// Where the next tile starts, from the sub file's start. Behind the last of `tiles` tiles it is the sub file's size, and no entry is
// read.
fn next_offset(
    map: &[u8],
    debug: bool,
    interval: ZoomInterval,
    tile: u32,
    tiles: u64,
) -> Result<u64, Refusal>
    requires { (tile < tiles) × (tiles < 2 ^ 32) }
    ensures { answer_res result ≡ next_after debug (interval_of interval) tile tiles map.now }
{
    let next = tile + 1;
    if next as u64 == tiles {
        return Ok(interval.sub_file_size);
    }
    let entry = index::entry_at(map, debug, interval.sub_file_start, next)?;
    Ok(entry.offset)
}

fn first_byte(empty: bool, at: u64) -> u64
    ensures { result ≡ cond empty 0 at }
{
    if empty {
        return 0;
    }
    at
}

// Of a tile that is there: its entry, the next one, and last the interval.
fn place_of(
    map: &[u8],
    debug: bool,
    interval: ZoomInterval,
    tile: u32,
    tiles: u64,
) -> Result<FoundTile, Refusal>
    requires { (tile < tiles) × (tiles < 2 ^ 32) }
    ensures { answer_res result ≡ place_there debug (interval_of interval) tile tiles map.now }
{
    let min_zoom = interval.min_zoom_level;
    let max_zoom = interval.max_zoom_level;
    let entry = index::entry_at(map, debug, interval.sub_file_start, tile)?;
    let offset = next_offset(map, debug, interval, tile, tiles)?;
    if max_zoom < min_zoom {
        return Err(Refusal::ReversedInterval);
    }
    let empty = entry.offset == offset;
    Ok(FoundTile {
        min_zoom,
        max_zoom,
        at: first_byte(empty, entry.offset_abs),
        is_water: entry.is_water,
        empty,
    })
}

// In the sub file of this interval.
fn place_in(
    map: &[u8],
    debug: bool,
    interval: ZoomInterval,
    grid: Grid,
    tile: usize,
) -> Result<FoundTile, Refusal>
    ensures { answer_res result ≡ map_res place_of (locate_in debug (interval_of interval) (grid_of grid) tile map.now) }
{
    let tiles = index::grid_tiles(grid)?;
    if tiles <= tile as u64 {
        return Err(Refusal::InvalidTileIndex);
    }
    place_of(map, debug, interval, tile as u32, tiles)
}

// Refused in this order: sub file (8), grid (14), tile (8), the map's end in its entry and in the next one (19), interval (13). Here and in the
// calls on a tile (`open`, `read_tile`, `collect`, `wanted`) `found`, `grid` and `tile` are parameters, as C hands them in: a struct of them
// would be made for one call and taken apart here.
#[tactic(auto, using(index::proofs::AnswerLaws::reads), unfolding(format::specs::Index::locate))]
pub fn find_tile(
    map: &[u8],
    debug: bool,
    found: Option<ZoomInterval>,
    grid: Grid,
    tile: usize,
) -> Result<FoundTile, Refusal>
    ensures { answer_res result ≡ map_res place_of (locate debug (interval_found found) (grid_of grid) tile map.now) }
{
    let Some(interval) = found else {
        return Err(Refusal::InvalidTileIndex);
    };
    place_in(map, debug, interval, grid, tile)
}
