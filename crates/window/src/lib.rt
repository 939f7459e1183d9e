// A window over several tiles (request 10): the base tiles that a rectangle of sub tiles touches, row by row, each with its touched cells.
// A rectangle may be 2^64 wide, so nothing walks over it: its columns and rows are cut to the grid's, and tile k is column k % columns of row
// k / columns.
#![tactic(auto)]

ghost use Rattle.std.specs.Prelude.{◌≡◌, ◌%◌, ◌^◌, ◌≤◌, ◌<◌, pos, ◌+ℤ◌};
ghost use Rattle.byte_source.specs.BigEndian.{twos_complement};
ghost use Rattle.format.specs.Index.{width, row_major};
ghost use Rattle.index.specs.Asked.{Inside};
ghost use Rattle.types.specs.Types.{grid_of};
ghost use Rattle.index.specs.Answers.{maybe_by, answer_by, answer_res};
ghost use Rattle.window.specs.Window.{first_of, count_of, columns_of, rows_of, mask_of, touched_tile, window_count, window_tile, shares_cell};
ghost use Rattle.window.specs.Biased.{biased, biased_first, biased_last, biased_count, biased_between, cell_bit, biased_mask, Step, Tiles, Cell, Place};
ghost use Rattle.window.specs.Answers.{rectangle_of, touched_of};

use error::Refusal;
use types::Grid;

// Sub tiles, two zoom levels below the base, so that a tile has 4 by 4 of them. Both ends are included, and rows grow downwards.
#[derive(Clone, Copy)]
pub struct Window {
    pub left: i64,
    pub top: i64,
    pub right: i64,
    pub bottom: i64,
}

// A tile that the window touches, its number in the sub file, and its touched cells, row by row, bit 15 the top left.
#[derive(Clone, Copy)]
pub struct WindowTile {
    pub x: i32,
    pub y: i32,
    pub number: usize,
    pub mask: u16,
}

// Both ends of a rectangle's columns or rows, or of a grid's, biased as below.
#[derive(Clone, Copy)]
struct Ends {
    low: u64,
    high: u64,
}

// A sub tile's number plus 2^63, which no number of 64 bits makes negative: the order stays, and a quotient by 4 is rounded down.
fn bias(v: i64) -> u64
    ensures { result ≡ biased (2 ^ 63) v }
{
    v.abs_diff(i64::MIN)
}

// A tile's number plus 2^61, a quarter of 2^63: so it compares with the quotients.
fn tile_bias(v: i32) -> u64
    ensures { result ≡ biased (2 ^ 61) v }
{
    bias(v as i64) - 6917529027641081856
}

// The tile's number again: 2^61 is a multiple of 2^32, so that its low 32 bits are left.
fn unbias(n: u64) -> i32
    ensures { result ≡ twos_complement (n % 2 ^ 32) }
{
    ((n % 4294967296) as u32).cast_signed()
}

// The first column or row that is in the grid and touched, if one is,
fn first_of(grid_low: u64, low: u64) -> u64
    ensures { result ≡ biased_first grid_low low }
{
    grid_low.max(low / 4)
}

// and the last.
fn last_of(grid_high: u64, high: u64) -> u64
    ensures { result ≡ biased_last grid_high high }
{
    grid_high.min(high / 4)
}

// How many columns or rows are touched.
fn count_of(grid: Ends, ends: Ends) -> u64
    ensures { result ≡ biased_count grid.low grid.high ends.low ends.high }
{
    if ends.high < ends.low {
        return 0;
    }
    let first = first_of(grid.low, ends.low);
    let last = last_of(grid.high, ends.high);
    if last < first {
        return 0;
    }
    last - first + 1
}

// Whether the sub tile that stands so many steps into a tile lies between the ends.
fn touches(ends: Ends, tile: u64, step: u64) -> bool
    requires { Step tile step }
    ensures { result ≡ biased_between ends.low ends.high tile step }
{
    let at = 4 * tile + step;
    ends.low <= at && at <= ends.high
}

// Cell k of a tile, row by row, as a bit.
fn cell_bit(across: Ends, down: Ends, x: u64, y: u64, k: u64) -> u64
    requires { Cell x y k }
    ensures { (result ≡ cell_bit across.low across.high down.low down.high x y k) × (result ≤ 1) }
{
    u64::from(touches(across, x, k % 4) && touches(down, y, k / 4))
}

// The cells of a tile, the first one the highest bit.
fn mask_at(across: Ends, down: Ends, x: u64, y: u64) -> u16
    requires { Tiles x y }
    ensures { result ≡ biased_mask across.low across.high down.low down.high x y 16 }
{
    let mut mask: u64 = 0;
    for k in 0..16 {
        mask = 2 * mask + cell_bit(across, down, x, y, k);
    }
    mask as u16
}

fn ends_of(low: i64, high: i64) -> Ends
    ensures { (result.low ≡ biased (2 ^ 63) low) × (result.high ≡ biased (2 ^ 63) high) }
{
    Ends {
        low: bias(low),
        high: bias(high),
    }
}

// The touched cells of a tile.
fn mask_of(window: Window, x: i32, y: i32) -> u16
    ensures { result ≡ mask_of (rectangle_of window) x y }
{
    let across = ends_of(window.left, window.right);
    let down = ends_of(window.top, window.bottom);
    mask_at(across, down, tile_bias(x), tile_bias(y))
}

// How many of the grid's columns, or rows, from the low to the high end are touched.
fn axis_count(grid_low: i32, grid_high: i32, low: i64, high: i64) -> u64
    ensures { result ≡ count_of grid_low grid_high low high }
{
    let grid = Ends {
        low: tile_bias(grid_low),
        high: tile_bias(grid_high),
    };
    count_of(grid, ends_of(low, high))
}

fn columns_of(grid: Grid, window: Window) -> u64
    ensures { (result ≡ columns_of (grid_of grid) (rectangle_of window)) × (result ≤ width grid.x_min grid.x_max) }
{
    axis_count(grid.x_min, grid.x_max, window.left, window.right)
}

fn rows_of(grid: Grid, window: Window) -> u64
    ensures { (result ≡ rows_of (grid_of grid) (rectangle_of window)) × (result ≤ width grid.y_min grid.y_max) }
{
    axis_count(grid.y_min, grid.y_max, window.top, window.bottom)
}

// How many tiles the window touches: 14 for a bad grid, before all else.
pub fn window_count(grid: Grid, window: Window) -> Result<u64, Refusal>
    ensures { answer_res result ≡ window_count (grid_of grid) (rectangle_of window) }
{
    index::grid_tiles(grid)?;
    let rows = rows_of(grid, window);
    let columns = columns_of(grid, window);
    Ok(rows * columns)
}

// Touched column or row i.
fn axis_tile(grid_low: i32, grid_high: i32, low: i64, high: i64, i: u64) -> i32
    requires { i < count_of grid_low grid_high low high }
    ensures { result ≡ first_of grid_low low +ℤ pos i }
{
    let first = first_of(tile_bias(grid_low), bias(low));
    unbias(first + i)
}

// Of a tile in the grid. It stands beside index's: shared it were public, and a public function has no `requires` (project rule); one that
// tests the grid again for each tile is no plainer.
fn row_major(grid: Grid, x: i32, y: i32) -> usize
    requires { Inside (grid_of grid) x y }
    ensures { result ≡ row_major (grid_of grid) x y }
{
    let row = y.abs_diff(grid.y_min) as u64;
    let column = x.abs_diff(grid.x_min) as u64;
    let last = grid.x_max.abs_diff(grid.x_min) as u64;
    (row * (last + 1) + column) as usize
}

// Touched column i of touched row j.
fn tile_at(grid: Grid, window: Window, i: u64, j: u64) -> WindowTile
    requires { Place (grid_of grid) (rectangle_of window) i j }
    ensures { touched_of result ≡ touched_tile (grid_of grid) (rectangle_of window) i j }
{
    let x = axis_tile(grid.x_min, grid.x_max, window.left, window.right, i);
    let y = axis_tile(grid.y_min, grid.y_max, window.top, window.bottom, j);
    let number = row_major(grid, x, y);
    let mask = mask_of(window, x, y);
    WindowTile { x, y, number, mask }
}

// Tile k, from 0, of those that the window touches, row by row from the top, left to right; none behind the last. 14 for a bad grid, before
// all else.
pub fn window_tile(grid: Grid, window: Window, k: u64) -> Result<Option<WindowTile>, Refusal>
    ensures { answer_by (maybe_by touched_of) result ≡ window_tile (grid_of grid) (rectangle_of window) k }
{
    index::grid_tiles(grid)?;
    let rows = rows_of(grid, window);
    let columns = columns_of(grid, window);
    if columns < 1 || rows <= k / columns {
        return Ok(None);
    }
    Ok(Some(tile_at(grid, window, k % columns, k / columns)))
}

// Whether a way is accepted: its bitmap shares a cell with the mask of its tile.
pub fn shares_cell(bitmap: u16, mask: u16) -> bool
    ensures { result ≡ shares_cell bitmap mask }
{
    bitmap & mask != 0
}
