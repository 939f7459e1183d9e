// What a tile's stream will want, under a list of decisions (request 1 of document 02): how many points and accepted ways it delivers, and how
// long the lists and the longest text have to be. Nothing is lent, and no node is written.
#![tactic(auto)]

ghost use Rattle.std.specs.Prelude.{◌≡◌, [], ◌∷◌, max, ◌+◌, ◌<◌, ◌^◌};
ghost use Rattle.parsing.specs.Parse.{map_res, many};
ghost use Rattle.byte_source.specs.Answers.{read_res};
ghost use Rattle.format.specs.Tile.{body};
ghost use Rattle.types.specs.Types.{grid_of};
ghost use Rattle.index.specs.Answers.{interval_found, answer_res};
ghost use Rattle.agreement.specs.Stream.{idle};
ghost use Rattle.agreement.specs.TileFormat.{TileEnd};
ghost use Rattle.tile_layout.specs.TileLayout.{tile_kinds, format_of};
ghost use Rattle.visit.specs.Visit.{opened_at};
ghost use Rattle.wanted.specs.Taken.{accepts, taken_way, taken_ways};
ghost use Rattle.wanted.specs.Wanted.{greatest, point_text, wanted_state, wanted_after, wanted_tile, body_figures, one_way, all_ways, joined, span_size, figures_of};

use byte_source::{Read, Span};
use error::Refusal;
use tile_layout::TileFormat;
use tile_place::FoundTile;
use types::{Grid, ZoomInterval};
use visit::Remaining;
use way::WayBody;

// `points` and `ways` count what is delivered, declined ways not among it. `blocks` and `nodes` are the most that one accepted way has: the
// lengths of the list of node counts, and of those of latitudes and longitudes. `text` is the longest name, house number or reference, as stored.
#[derive(Clone, Copy)]
pub struct WantedFigures {
    pub points: u64,
    pub ways: u64,
    pub blocks: u64,
    pub nodes: u64,
    pub text: u64,
}

// The same figures of ways alone.
#[derive(Clone, Copy)]
struct WayFigures {
    ways: u64,
    blocks: u64,
    nodes: u64,
    text: u64,
}

// The stored size of a text; 0 where there is none.
fn text_size(text: Option<Span>) -> u64
    ensures { result ≡ span_size text }
{
    match text {
        Some(span) => span.size as u64,
        None => 0,
    }
}

// One point: its longer text, and the place behind it.
fn point_text(map: &[u8], at: usize, format: TileFormat<'_>) -> Read<u64>
    ensures { read_res result ≡ map_res point_text ((format_of (tile_kinds format.entry)).point map.now at) }
{
    let TileFormat { layout, letters } = format;
    let (poi, next) = poi::read_poi(map, at, layout.debug, letters, layout.poi_tags)?;
    Ok((text_size(poi.name).max(text_size(poi.house_number)), next))
}

// n points.
fn points_text(map: &[u8], at: usize, n: u64, format: TileFormat<'_>) -> Read<u64>
    ensures { read_res result ≡ map_res (greatest point_text) (many (format_of (tile_kinds format.entry)).point n map.now at) }
{
    let mut longest = 0;
    let mut next = at;
    for _ in 0..n {
        let (text, after) = point_text(map, next, format)?;
        longest = longest.max(text);
        next = after;
    }
    Ok((longest, next))
}

// Whether way k is accepted: behind the end of the decisions it is declined.
fn is_accepted(decisions: &[u8], k: u64) -> bool
    ensures { result ≡ accepts decisions.now k }
{
    let k = k as usize;
    k < decisions.len() && decisions[k] != 0
}

fn no_figures() -> WayFigures
    ensures { result ≡ body_figures [] }
{
    WayFigures {
        ways: 0,
        blocks: 0,
        nodes: 0,
        text: 0,
    }
}

// Of one accepted way.
fn body_figures(body: WayBody) -> WayFigures
    ensures { result ≡ figures_of body }
{
    let longer = text_size(body.name).max(text_size(body.house_number));
    WayFigures {
        ways: 1,
        blocks: body.blocks,
        nodes: body.nodes,
        text: longer.max(text_size(body.reference)),
    }
}

// Of two lots of ways: counts are added, and the largest stay.
fn both_figures(a: WayFigures, b: WayFigures) -> WayFigures
    requires { a.ways + b.ways < 2 ^ 64 }
    ensures { result ≡ joined a b }
{
    WayFigures {
        ways: a.ways + b.ways,
        blocks: a.blocks.max(b.blocks),
        nodes: a.nodes.max(b.nodes),
        text: a.text.max(b.text),
    }
}

// The body of an accepted way. Its nodes are passed, not written.
fn measure_body(map: &[u8], at: usize) -> Read<WayFigures>
    ensures { read_res result ≡ map_res (λ b. body_figures (b ∷ [])) (body map.now at) }
{
    let (body, next) = way::measure_way_body(map, at)?;
    Ok((body_figures(body), next))
}

// One way. The body of a declined one is not read: its data start plus stored size lead past it.
fn measure_way(map: &[u8], at: usize, accepted: bool, format: TileFormat<'_>) -> Read<WayFigures>
    ensures { read_res result ≡ map_res (one_way (tile_kinds format.entry)) (taken_way (format_of (tile_kinds format.entry)) accepted map.now at) }
{
    let TileFormat { layout, letters } = format;
    let (head, start) = way_head::read_way_head(map, at, layout.debug, letters, layout.way_tags)?;
    if accepted {
        return measure_body(map, start);
    }
    let past = arithmetic::saturating_add_usize(head.start, head.size as usize);
    Ok((no_figures(), past))
}

// n ways.
fn measure_ways(
    map: &[u8],
    at: usize,
    n: u64,
    format: TileFormat<'_>,
    decisions: &[u8],
) -> Read<WayFigures>
    ensures { read_res result ≡ map_res (all_ways (tile_kinds format.entry)) (taken_ways (format_of (tile_kinds format.entry)) decisions.now 0 n map.now at) }
{
    let mut all = no_figures();
    let mut next = at;
    for i in 0..n {
        let accepted = is_accepted(decisions, i);
        let (one, after) = measure_way(map, next, accepted, format)?;
        all = both_figures(all, one);
        next = after;
    }
    Ok((all, next))
}

// What remains of a stream where no way waits.
fn wanted_of(
    map: &[u8],
    format: TileFormat<'_>,
    rest: Remaining,
    decisions: &[u8],
) -> Result<WantedFigures, Refusal>
    ensures { (z : TileEnd) → answer_res result ≡ wanted_state (tile_kinds format.entry) decisions.now map.now (idle rest.points rest.ways rest.at rest.way z) }
{
    let (text, _) = points_text(map, rest.at, rest.points, format)?;
    let (all, _) = measure_ways(map, rest.way, rest.ways, format, decisions)?;
    Ok(WantedFigures {
        points: rest.points,
        ways: all.ways,
        blocks: all.blocks,
        nodes: all.nodes,
        text: text.max(all.text),
    })
}

// From a tile's place on.
fn wanted_at(
    map: &[u8],
    place: FoundTile,
    format: TileFormat<'_>,
    zoom: u8,
    decisions: &[u8],
) -> Result<WantedFigures, Refusal>
    ensures { answer_res result ≡ wanted_after format.entry.layout format.entry.letters.now decisions.now map.now (opened_at format.entry.layout.debug 0 zoom place map.now) }
{
    let (head, at) = tile_head::read_tile_head(
        map,
        place.at as usize,
        place.empty,
        format.layout.debug,
        place.min_zoom,
        place.max_zoom,
        zoom,
    )?;
    let sums = head.sums;
    let way = arithmetic::saturating_add_usize(at, head.offset as usize);
    let rest = Remaining {
        points: sums.points,
        ways: sums.ways,
        at,
        way,
    };
    wanted_of(map, format, rest, decisions)
}

// The figures of a tile's stream at a zoom, where byte j of the decisions decides way j: 0 declines it, any other accepts it, and behind
// their end ways are declined. It is refused where that stream is, by opening it or by the first call that is refused. It reads the tile's
// head as `visit::open` does, and not by it: with one caller, that is inlined where streams are opened.
pub fn wanted(
    map: &[u8],
    format: TileFormat<'_>,
    found: Option<ZoomInterval>,
    grid: Grid,
    tile: usize,
    zoom: u8,
    decisions: &[u8],
) -> Result<WantedFigures, Refusal>
    ensures { answer_res result ≡ wanted_tile format.entry.layout format.entry.letters.now (interval_found found) (grid_of grid) tile zoom decisions.now map.now }
{
    let place = tile_place::find_tile(map, format.layout.debug, found, grid, tile)?;
    wanted_at(map, place, format, zoom, decisions)
}
