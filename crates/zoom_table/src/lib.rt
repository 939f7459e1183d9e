// blocks.rs: the zoom table of a tile.
#![tactic(auto)]

ghost use Rattle.std.specs.Prelude.{◌≡◌, ◌-◌, ◌≤◌, suc};
ghost use Rattle.parsing.specs.Parse.{map_res, many};
ghost use Rattle.byte_source.specs.Answers.{read_by, read_res};
ghost use Rattle.utils.specs.Vbe.{values_of};
ghost use Rattle.utils.specs.Answers.{noted_held, noted_by};
ghost use Rattle.format.specs.Tile.{row};
ghost use Rattle.format.specs.Rows.{rows_upto, numbers_of_table, interval_table};
ghost use Rattle.format.specs.CutOff.{where_byte};
ghost use Rattle.zoom_table.specs.Blocks.{stored_row, sum_of, rows_of, noted_sums, IfShort, ShortRow};

use byte_source::Read;
use error::Refusal;
use utils::Noted;

// The points and ways of a zoom level.
#[derive(Clone, Copy)]
pub struct ZoomRow {
    pub points: u64,
    pub ways: u64,
}

// Rows from the front, zeros behind them. An array with a count, since it is handed out by value and there is no heap.
#[derive(Clone, Copy)]
pub struct ZoomTable {
    pub rows: [ZoomRow; 256],
    pub count: usize,
}

// Points and ways of the rows up to a zoom, and of all rows. 2^64 - 1 stands for any larger sum.
#[derive(Clone, Copy)]
pub struct Sums {
    pub points: u64,
    pub ways: u64,
    pub all_points: u64,
    pub all_ways: u64,
}

#[tactic(auto, using(byte_source::proofs::ReadLaws::reads), unfolding(format::specs::Tile::row))]
pub fn read_row(map: &[u8], at: usize) -> Read<Noted<ZoomRow>>
    ensures { read_by (noted_by stored_row) result ≡ row map.now at }
{
    let (points, at) = utils::read_vbe_u_int(map, at)?;
    let (ways, at) = utils::read_vbe_u_int(map, at)?;
    let row = Noted {
        value: ZoomRow {
            points: points.value,
            ways: ways.value,
        },
        plain: points.plain & ways.plain,
    };
    Ok((row, at))
}

// `count` rows.
fn fill_rows(map: &[u8], at: usize, count: usize) -> Read<ZoomTable>
    requires { count ≤ 256 }
    ensures { read_res result ≡ map_res rows_of (map_res values_of (many row count map.now at)) }
{
    let empty = ZoomRow { points: 0, ways: 0 };
    let mut rows = [empty; 256];
    let mut next = at;
    for i in 0..count {
        let (one, after) = read_row(map, next)?;
        rows[i] = one.value;
        next = after;
    }
    Ok((ZoomTable { rows, count }, next))
}

// A row for each level of an interval, as numbers.
fn read_table_numbers(map: &[u8], at: usize, min: u8, max: u8) -> Read<ZoomTable>
    ensures { read_res result ≡ map_res rows_of (map_res values_of (numbers_of_table min max map.now at)) }
{
    if max < min {
        return Err(Refusal::ReversedInterval);
    }
    fill_rows(map, at, (max - min) as usize + 1)
}

// Whether both numbers of a row have one byte, as most have.
fn is_short(map: &[u8], at: usize) -> bool
    ensures { IfShort result (ShortRow map.now at) }
{
    let len = map.len();
    at <= len && 2 <= len - at && map[at] < 128 && map[at + 1] < 128
}

// The sums of `count` rows, and whether all their numbers were plain.
fn sum_rows(map: &[u8], at: usize, count: usize) -> Read<Noted<ZoomRow>>
    ensures { read_by noted_held result ≡ map_res sum_of (many row count map.now at) }
{
    let mut points = 0;
    let mut ways = 0;
    let mut plain = true;
    let mut next = at;
    for _ in 0..count {
        if is_short(map, next) {
            points = arithmetic::saturating_add_usize(points, map[next] as usize);
            ways = arithmetic::saturating_add_usize(ways, map[next + 1] as usize);
            next += 2;
            continue;
        }
        let (one, after) = read_row(map, next)?;
        points = arithmetic::saturating_add_usize(points, one.value.points as usize);
        ways = arithmetic::saturating_add_usize(ways, one.value.ways as usize);
        plain &= one.plain;
        next = after;
    }
    let sum = Noted {
        value: ZoomRow {
            points: points as u64,
            ways: ways as u64,
        },
        plain,
    };
    Ok((sum, next))
}

// How many rows count at a zoom, which is clamped into the interval.
fn rows_upto(min: u8, max: u8, zoom: u8) -> usize
    requires { min ≤ max }
    ensures { (result ≡ rows_upto min max zoom) × (result ≤ suc (max - min)) }
{
    if zoom < min {
        return 1;
    }
    if max < zoom {
        return (max - min) as usize + 1;
    }
    (zoom - min) as usize + 1
}

// The sums of a zoom table, as numbers, and the place behind it.
fn sum_table_numbers(map: &[u8], at: usize, min: u8, max: u8, zoom: u8) -> Read<Noted<Sums>>
    ensures { read_by noted_held result ≡ map_res (noted_sums min max zoom) (numbers_of_table min max map.now at) }
{
    if max < min {
        return Err(Refusal::ReversedInterval);
    }
    let upto = rows_upto(min, max, zoom);
    let (first, at) = sum_rows(map, at, upto)?;
    let (rest, at) = sum_rows(map, at, (max - min) as usize + 1 - upto)?;
    let shown = first.value;
    let above = rest.value;
    let points = arithmetic::saturating_add_usize(shown.points as usize, above.points as usize);
    let ways = arithmetic::saturating_add_usize(shown.ways as usize, above.ways as usize);
    let sums = Noted {
        value: Sums {
            points: shown.points,
            ways: shown.ways,
            all_points: points as u64,
            all_ways: ways as u64,
        },
        plain: first.plain & rest.plain,
    };
    Ok((sums, at))
}

// Where the missing byte of a read that began at `at`, byte by byte, is: the first behind the map.
pub fn missing_byte(map: &[u8], at: usize) -> u64
    ensures { result ≡ where_byte map.now at }
{
    if map.len() < at {
        return at as u64;
    }
    map.len() as u64
}

// A row for each level of an interval. A map that ends in it is refused with 20.
pub fn read_zoom_table(map: &[u8], at: usize, min: u8, max: u8) -> Read<ZoomTable>
    ensures { read_res result ≡ map_res rows_of (map_res values_of (interval_table min max map.now at)) }
{
    read_table_numbers(map, at, min, max).map_err(|r| error::cut_off_as(
        r,
        Refusal::TileHeadCutOff(missing_byte(map, at)),
    ))
}

// The sums of a zoom table, and the place behind it. A map that ends in it is refused with 20.
pub fn sum_zoom_table(map: &[u8], at: usize, min: u8, max: u8, zoom: u8) -> Read<Noted<Sums>>
    ensures { read_by noted_held result ≡ map_res (noted_sums min max zoom) (interval_table min max map.now at) }
{
    sum_table_numbers(map, at, min, max, zoom).map_err(|r| error::cut_off_as(
        r,
        Refusal::TileHeadCutOff(missing_byte(map, at)),
    ))
}
