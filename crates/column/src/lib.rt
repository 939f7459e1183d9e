// tile.rs: the column of a longitude, and the longitude of a column.
#![tactic(auto)]

ghost use Rattle.std.specs.Prelude.{◌≡◌, ◌^◌, ◌≤◌};
ghost use Rattle.std.specs.Float.Ieee as Ieee;
ghost use Rattle.column.specs.Column.{as_float, longitude, column, longitude_res, column_res};

use error::Refusal;
use utils::Degrees;

// A larger zoom is refused: 1 << zoom would not fit 64 bits.
const MAX_ZOOM: u8 = 63;

// How many columns a zoom has: 2^zoom.
fn zoom_tiles(zoom: u8) -> f64
    requires { zoom ≤ 63 }
    ensures { result ≡ as_float (2 ^ zoom) }
{
    std::num::nearest_u64_to_f64(1u64 << zoom)
}

// The longitude at which column x starts.
pub fn tilex2long(x: u32, zoom: u8) -> Result<Degrees, Refusal>
    ensures { longitude_res result ≡ longitude x zoom }
{
    if MAX_ZOOM < zoom {
        return Err(Refusal::ZoomTooLarge);
    }
    Ok(Degrees(x as f64 / zoom_tiles(zoom) * 360.0 - 180.0))
}

// A float cut to 32 bits: toward zero, 0 for a NaN, and the ends saturate. It names one call of the library, in which two edits plant
// their slip.
#[tactic(auto, using(crate::proofs::ColumnLaws::kept))]
fn to_i32(x: f64) -> i32
    ensures { result ≡ Ieee.to_signed 31 x }
{
    std::num::saturating_f64_to_i32(x)
}

// The column that a longitude lies in.
pub fn tile_column(degrees: Degrees, zoom: u8) -> Result<i32, Refusal>
    ensures { column_res result ≡ column degrees.0 zoom }
{
    if MAX_ZOOM < zoom {
        return Err(Refusal::ZoomTooLarge);
    }
    Ok(to_i32(zoom_tiles(zoom) * (degrees.0 + 180.0) / 360.0))
}
