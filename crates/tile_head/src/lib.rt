// tile.rs and visit.rs: a tile's head, which is its signature, the sums of its zoom table, and its first-way offset.
#![tactic(auto)]

ghost use Rattle.std.specs.Prelude.{◌≡◌};
ghost use Rattle.parsing.specs.Parse.{map_res};
ghost use Rattle.byte_source.specs.Answers.{read_by, read_res};
ghost use Rattle.utils.specs.Vbe.{noted_unsigned};
ghost use Rattle.utils.specs.Answers.{noted_held};
ghost use Rattle.types.specs.Types.{maybe_part};
ghost use Rattle.format.specs.CutOff.{where_read, where_byte, of_head};
ghost use Rattle.format.specs.Tile.{debug_signature};
ghost use Rattle.format.specs.Rows.{interval_head};
ghost use Rattle.tile_head.specs.TileHead.{head_at, no_features};

use byte_source::{Read, Span};
use error::Refusal;
use utils::Noted;
use zoom_table::Sums;

// The first way is `offset` bytes behind the head. `plain`: whether every number of the head was plain, also those of rows above the zoom.
#[derive(Clone, Copy)]
pub struct TileHead {
    pub signature: Option<Span>,
    pub sums: Sums,
    pub offset: u64,
    pub plain: bool,
}

// A tile's signature: 32 bytes at once.
fn head_signature(map: &[u8], at: usize, debug: bool) -> Read<Option<Span>>
    ensures { read_by (maybe_part map.now) result ≡ of_head where_read (debug_signature debug) map.now at }
{
    fields::read_signature(map, at, debug).map_err(|r| error::cut_off_as(
        r,
        Refusal::TileHeadCutOff(at as u64),
    ))
}

// A number of a tile's head.
fn head_number(map: &[u8], at: usize) -> Read<Noted<u64>>
    ensures { read_by noted_held result ≡ of_head where_byte noted_unsigned map.now at }
{
    utils::read_vbe_u_int(map, at).map_err(|r| error::cut_off_as(
        r,
        Refusal::TileHeadCutOff(zoom_table::missing_byte(map, at)),
    ))
}

fn no_features() -> TileHead
    ensures { result ≡ no_features }
{
    TileHead {
        signature: None,
        sums: Sums {
            points: 0,
            ways: 0,
            all_points: 0,
            all_ways: 0,
        },
        offset: 0,
        plain: true,
    }
}

// The head of a tile of the levels from min to max, with the sums up to a zoom, and the place behind it. A reversed interval is
// refused before any byte is read. A tile that its index marks empty has no bytes. The fields of a FoundTile are parameters, as the
// definition takes them: a contract that names each is no plainer.
#[tactic(auto, using(crate::proofs::HeadLaws::heads), unfolding(format::specs::Tile::tile_head))]
pub fn read_tile_head(
    map: &[u8],
    at: usize,
    empty: bool,
    debug: bool,
    min: u8,
    max: u8,
    zoom: u8,
) -> Read<TileHead>
    ensures { read_res result ≡ map_res (head_at min max zoom) (interval_head empty debug min max map.now at) }
{
    if max < min {
        return Err(Refusal::ReversedInterval);
    }
    if empty {
        return Ok((no_features(), at));
    }
    let (signature, at) = head_signature(map, at, debug)?;
    let (table, at) = zoom_table::sum_zoom_table(map, at, min, max, zoom)?;
    let (offset, at) = head_number(map, at)?;
    let head = TileHead {
        signature,
        sums: table.value,
        offset: offset.value,
        plain: table.plain & offset.plain,
    };
    Ok((head, at))
}
