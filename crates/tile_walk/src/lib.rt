// tile.rs: all points and all ways of a tile, each decoded whole, as collecting does.
#![tactic(auto)]

ghost use Rattle.std.specs.Prelude.{◌≡◌};
ghost use Rattle.byte_source.specs.Answers.{read_res};
ghost use Rattle.tile_layout.specs.TileLayout.{tile_kinds};
ghost use Rattle.tile_walk.specs.TileWalk.{plain_of, said_way, said_ways};

use byte_source::Read;
use tile_layout::TileFormat;

// Of ways: whether every stored size is the decoded length, and whether every number was plain.
#[derive(Clone, Copy)]
pub struct WaysSaid {
    pub exact: bool,
    pub plain: bool,
}

// n points: whether every number of theirs was plain.
pub fn measure_points(map: &[u8], at: usize, n: u64, format: TileFormat<'_>) -> Read<bool>
    ensures { read_res result ≡ plain_of (tile_kinds format.entry) map.now n at }
{
    let TileFormat { layout, letters } = format;
    let mut all = true;
    let mut next = at;
    for _ in 0..n {
        let (poi, after) = poi::read_poi(map, next, layout.debug, letters, layout.poi_tags)?;
        all &= poi.plain;
        next = after;
    }
    Ok((all, next))
}

// One way: its decoded length is counted from its data start, as its stored size is.
pub fn measure_way(map: &[u8], at: usize, format: TileFormat<'_>) -> Read<WaysSaid>
    ensures { read_res result ≡ said_way (tile_kinds format.entry) map.now at }
{
    let TileFormat { layout, letters } = format;
    let (head, start) = way_head::read_way_head(map, at, layout.debug, letters, layout.way_tags)?;
    let (body, behind) = way::measure_way_body(map, start)?;
    let said = WaysSaid {
        exact: head.size == (behind - head.start) as u64,
        plain: head.plain & body.plain,
    };
    Ok((said, behind))
}

// n ways. A loop of its own: one for both, by a closure, would need the parser and its view beside it.
pub fn measure_ways(map: &[u8], at: usize, n: u64, format: TileFormat<'_>) -> Read<WaysSaid>
    ensures { read_res result ≡ said_ways (tile_kinds format.entry) map.now n at }
{
    let mut exact = true;
    let mut plain = true;
    let mut next = at;
    for _ in 0..n {
        let (one, after) = measure_way(map, next, format)?;
        exact &= one.exact;
        plain &= one.plain;
        next = after;
    }
    Ok((WaysSaid { exact, plain }, next))
}
