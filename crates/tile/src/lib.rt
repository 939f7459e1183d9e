// tile.rs: collecting a tile, which decodes every feature of every row, and lists where each one starts.
#![tactic(auto)]

ghost use Rattle.std.specs.Prelude.{◌≡◌, ◌+◌, ◌≤◌, length};
ghost use Rattle.parsing.specs.Parse.{map_res, many};
ghost use Rattle.utils.specs.Vbe.{values_of};
ghost use Rattle.format.specs.Index.{answer};
ghost use Rattle.format.specs.Rows.{empty_head};
ghost use Rattle.format.specs.Tile.{row};
ghost use Rattle.types.specs.Types.{grid_of};
ghost use Rattle.index.specs.Answers.{interval_found};
ghost use Rattle.byte_source.specs.Answers.{read_res};
ghost use Rattle.zoom_table.specs.Blocks.{rows_of};
ghost use Rattle.agreement.specs.Collected.{way};
ghost use Rattle.tile_layout.specs.TileLayout.{tile_kinds, format_of};
ghost use Rattle.tile.specs.Tile.{rows_read, walked, collect_at, collect_tile, tile_places, TileIs, summary_of, has_room, too_short, RowsPut, ReadsPut, ExactPut, WaysPut, PlacesPut, EndsExact, lent_tile, CollectIs};

use byte_source::{Read, Span};
use error::{Lengths, LentRefusal, Refusal};
use tile_layout::TileFormat;
use tile_place::FoundTile;
use tile_walk::WaysSaid;
use types::{Grid, ZoomInterval};
use zoom_table::{Sums, ZoomRow, ZoomTable};

// A collected tile. `zoom_table` has `rows` rows from the front, zeros behind them: an array, since a tile is handed out by value and there
// is no heap. `exact`: every way's stored size is its decoded
// length. `plain`: every number of the tile was.
#[derive(Clone, Copy)]
pub struct Tile {
    pub signature: Option<Span>,
    pub zoom_table: [ZoomRow; 256],
    pub rows: usize,
    pub first_way_offset: u64,
    pub points: u64,
    pub ways: u64,
    pub exact: bool,
    pub plain: bool,
}

// What is said of a collected tile besides its rows.
#[derive(Clone, Copy)]
pub struct TileSummary {
    pub signature: Option<Span>,
    pub first_way_offset: u64,
    pub points: u64,
    pub ways: u64,
    pub rows: usize,
    pub exact: bool,
    pub plain: bool,
}

// The zoom table of a tile. One that its index marks empty has a zero row for each level.
// The order of the levels is required, here and below: a ghost field of FoundTile would have to hold of what `place_of` makes of any place.
fn read_rows(map: &[u8], place: FoundTile, debug: bool) -> Read<ZoomTable>
    requires { place.min_zoom ≤ place.max_zoom }
    ensures { read_res result ≡ map_res rows_of (rows_read place.empty debug place.min_zoom place.max_zoom map.now place.at) }
{
    let at = place.at as usize;
    let min = place.min_zoom;
    let max = place.max_zoom;
    if place.empty {
        let zero = ZoomRow { points: 0, ways: 0 };
        let table = ZoomTable {
            rows: [zero; 256],
            count: (max - min) as usize + 1,
        };
        return Ok((table, at));
    }
    let (_, at) = fields::read_signature(map, at, debug)?;
    zoom_table::read_zoom_table(map, at, min, max)
}

// All points behind a head that ends at `at`, then all ways from where the first-way offset leads. Where there are none, as in an empty tile, nothing
// is called.
fn walk(map: &[u8], at: usize, sums: Sums, offset: u64, format: TileFormat<'_>) -> Read<WaysSaid>
    ensures { read_res result ≡ walked (tile_kinds format.entry) map.now at sums.all_points sums.all_ways offset }
{
    let ways = sums.all_ways;
    let (plain, _) = tile_walk::measure_points(map, at, sums.all_points, format)?;
    let first = arithmetic::saturating_add_usize(at, offset as usize);
    if ways == 0 {
        return Ok((WaysSaid { exact: true, plain }, first));
    }
    let (said, behind) = tile_walk::measure_ways(map, first, ways, format)?;
    let said = WaysSaid {
        exact: said.exact,
        plain: plain & said.plain,
    };
    Ok((said, behind))
}

// What is said of the tile at a place that was found, and where its points start, behind its head.
fn summarize(map: &[u8], place: FoundTile, format: TileFormat<'_>) -> Read<TileSummary>
    requires { place.min_zoom ≤ place.max_zoom }
    ensures { read_res result ≡ map_res summary_of (collect_at (tile_kinds format.entry) place.empty place.min_zoom place.max_zoom place.at map.now) }
{
    let min = place.min_zoom;
    let max = place.max_zoom;
    let at = place.at as usize;
    let (head, start) = tile_head::read_tile_head(
        map,
        at,
        place.empty,
        format.layout.debug,
        min,
        max,
        max,
    )?;
    let sums = head.sums;
    let (said, _) = walk(map, start, sums, head.offset, format)?;
    let summary = TileSummary {
        signature: head.signature,
        first_way_offset: head.offset,
        points: sums.all_points,
        ways: sums.all_ways,
        rows: (max - min) as usize + 1,
        exact: said.exact,
        plain: head.plain & said.plain,
    };
    Ok((summary, start))
}

// Whether a list has room for the places of so many points and ways.
fn has_room(points: u64, ways: u64, len: usize) -> bool
    ensures { result ≡ has_room points ways len }
{
    let room = len as u64;
    points <= room && ways <= room - points
}

// The refusal that gives the length needed.
fn too_short(points: u64, ways: u64) -> LentRefusal
    ensures { result ≡ too_short points ways }
{
    let needed = arithmetic::saturating_add_usize(points as usize, ways as usize);
    LentRefusal::Short(Lengths {
        list1: needed as u64,
        ..Lengths::NONE
    })
}

// Where each of n points starts. They were read before. Not one function with put_measured_places: the read would be a closure, whose
// contract is as long as this loop.
fn put_point_places(map: &[u8], at: usize, n: u64, format: TileFormat<'_>, places: &mut [u64])
    requires { n ≤ length places.old }
    ensures { ReadsPut (format_of (tile_kinds format.entry)).point n map.now at 0 places.old places.new }
{
    let TileFormat { layout, letters } = format;
    let mut next = at;
    for i in 0..n {
        let got = poi::read_poi(map, next, layout.debug, letters, layout.poi_tags);
        let Ok((_, after)) = got else {
            return;
        };
        places[i as usize] = next as u64;
        next = after;
    }
}

// Where each of n ways starts, from entry `first` on, each measured again: by the walk over one way, so that the code for a way has one caller.
fn put_measured_places(
    map: &[u8],
    at: usize,
    n: u64,
    format: TileFormat<'_>,
    places: &mut [u64],
    first: u64,
)
    requires { first + n ≤ length places.old }
    ensures { ReadsPut (way (format_of (tile_kinds format.entry))) n map.now at first places.old places.new }
{
    let mut next = at;
    for i in 0..n {
        let Ok((_, after)) = tile_walk::measure_ways(map, next, 1, format) else {
            return;
        };
        places[(first + i) as usize] = next as u64;
        next = after;
    }
}

// Where a way ends whose stored size is exact: nothing behind its size is read.
fn exact_end(map: &[u8], at: usize, debug: bool) -> Result<usize, Refusal>
    ensures { EndsExact debug map.now at result }
{
    let (_, at) = fields::read_signature(map, at, debug)?;
    let (size, start) = utils::read_vbe_u_int(map, at)?;
    Ok(arithmetic::saturating_add_usize(start, size.value as usize))
}

// Where each of n ways starts, by their stored sizes, which are exact. A loop of its own: its promise is of exact ways alone, of any
// kinds of tags.
fn put_exact_places(map: &[u8], at: usize, n: u64, debug: bool, places: &mut [u64], first: u64)
    requires { first + n ≤ length places.old }
    ensures { ExactPut debug n map.now at first places.old places.new }
{
    let mut next = at;
    for i in 0..n {
        let Ok(after) = exact_end(map, next, debug) else {
            return;
        };
        places[(first + i) as usize] = next as u64;
        next = after;
    }
}

// Where each way starts, in the cheapest way.
fn put_way_places(
    map: &[u8],
    at: usize,
    summary: TileSummary,
    format: TileFormat<'_>,
    places: &mut [u64],
)
    requires { summary.points + summary.ways ≤ length places.old }
    ensures { WaysPut (tile_kinds format.entry) summary.ways summary.exact map.now at summary.points places.old places.new }
{
    let n = summary.ways;
    let first = summary.points;
    if summary.exact {
        put_exact_places(map, at, n, format.layout.debug, places, first);
        return;
    }
    put_measured_places(map, at, n, format, places, first);
}

// Where each feature of a collected tile starts, whose points start at `start`.
fn put_places(
    map: &[u8],
    start: usize,
    summary: TileSummary,
    format: TileFormat<'_>,
    places: &mut [u64],
)
    requires { summary.points + summary.ways ≤ length places.old }
    ensures { PlacesPut (tile_kinds format.entry) map.now start summary places.old places.new }
{
    let offset = summary.first_way_offset;
    put_point_places(map, start, summary.points, format, places);
    let first = arithmetic::saturating_add_usize(start, offset as usize);
    put_way_places(map, first, summary, format, places);
}

// Refused in this order: sub file (8), grid (14), tile (8), its entry and the next one (19), interval (13), then as the tile's bytes are
// read, and 15 last, if the list is shorter than the count of features. A tile that its index marks empty has none. `collect` begins alike:
// one step for both would hand back three values, and its contract would say of each refusal what these two say.
pub fn read_tile(
    map: &[u8],
    format: TileFormat<'_>,
    found: Option<ZoomInterval>,
    grid: Grid,
    tile: usize,
    places: &mut [u64],
) -> Result<Tile, LentRefusal>
    ensures { TileIs (collect_tile (tile_kinds format.entry) (interval_found found) (grid_of grid) tile map.now) (tile_places (tile_kinds format.entry) (interval_found found) (grid_of grid) tile map.now) places.old result places.new }
{
    let place = tile_place::find_tile(map, format.layout.debug, found, grid, tile)?;
    let (summary, start) = summarize(map, place, format)?;
    if !has_room(summary.points, summary.ways, places.len()) {
        return Err(too_short(summary.points, summary.ways));
    }
    // The rows were read before, for their sums: they are not refused here.
    let (table, _) = read_rows(map, place, format.layout.debug)?;
    let zoom_table = table.rows;
    put_places(map, start, summary, format, places);
    Ok(Tile {
        signature: summary.signature,
        zoom_table,
        rows: summary.rows,
        first_way_offset: summary.first_way_offset,
        points: summary.points,
        ways: summary.ways,
        exact: summary.exact,
        plain: summary.plain,
    })
}

// `count` rows from `at` on, to the fronts of two lists. That they fit is required, here and of `put_zeros`: a number of one caller needs no type.
fn put_rows(map: &[u8], at: usize, count: usize, points: &mut [u64; 256], ways: &mut [u64; 256])
    requires { count ≤ 256 }
    ensures { RowsPut (map_res values_of (many row count map.now at)) points.old ways.old points.new ways.new }
{
    let mut next = at;
    for i in 0..count {
        let Ok((row, after)) = zoom_table::read_row(map, next) else {
            return;
        };
        let one = row.value;
        points[i] = one.points;
        ways[i] = one.ways;
        next = after;
    }
}

// `count` zero rows.
fn put_zeros(count: usize, points: &mut [u64; 256], ways: &mut [u64; 256])
    requires { count ≤ 256 }
    ensures { RowsPut (answer (empty_head count).table) points.old ways.old points.new ways.new }
{
    points[..count].fill(0);
    ways[..count].fill(0);
}

// The zoom table of a tile. Its rows were read before, for their sums.
fn put_table(
    map: &[u8],
    place: FoundTile,
    debug: bool,
    points: &mut [u64; 256],
    ways: &mut [u64; 256],
)
    requires { place.min_zoom ≤ place.max_zoom }
    ensures { RowsPut (rows_read place.empty debug place.min_zoom place.max_zoom map.now place.at) points.old ways.old points.new ways.new }
{
    let count = (place.max_zoom - place.min_zoom) as usize + 1;
    if place.empty {
        put_zeros(count, points, ways);
        return;
    }
    let Ok((_, at)) = fields::read_signature(map, place.at as usize, debug) else {
        return;
    };
    put_rows(map, at, count, points, ways);
}

// The same, but the zoom table goes row by row to the fronts of two lists, and no array is made or copied for it. With a refusal the
// lists keep their values.
pub fn collect(
    map: &[u8],
    format: TileFormat<'_>,
    found: Option<ZoomInterval>,
    grid: Grid,
    tile: usize,
    points: &mut [u64; 256],
    ways: &mut [u64; 256],
    places: &mut [u64],
) -> Result<TileSummary, LentRefusal>
    ensures { CollectIs (collect_tile (tile_kinds format.entry) (interval_found found) (grid_of grid) tile map.now) (tile_places (tile_kinds format.entry) (interval_found found) (grid_of grid) tile map.now) (lent_tile points.old ways.old places.old) result (lent_tile points.new ways.new places.new) }
{
    let place = tile_place::find_tile(map, format.layout.debug, found, grid, tile)?;
    let (summary, start) = summarize(map, place, format)?;
    if !has_room(summary.points, summary.ways, places.len()) {
        return Err(too_short(summary.points, summary.ways));
    }
    put_places(map, start, summary, format, places);
    put_table(map, place, format.layout.debug, points, ways);
    Ok(summary)
}
