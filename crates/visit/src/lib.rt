// visit.rs: a tile's stream, as a chain of calls. Each call takes the stream that the last one left and gives it back; a refused call
// gives it back as it was.
#![tactic(auto)]

ghost use Rattle.std.specs.Prelude.{◌≡◌, ◌≤◌, ◌<◌};
ghost use Rattle.types.specs.Types.{grid_of};
ghost use Rattle.index.specs.Answers.{interval_found};
ghost use Rattle.way_data.specs.Reply.{lent};
ghost use Rattle.format.specs.BodyLists.{body_lists};
ghost use Rattle.format.specs.Tile.{body};
ghost use Rattle.agreement.specs.Stream.{idle, waits, on_next, on_accept, on_decline};
ghost use Rattle.agreement.specs.TileFormat.{note_plain, note_body, whole_body};
ghost use Rattle.tile_layout.specs.TileLayout.{tile_kinds, format_of};
ghost use Rattle.visit.specs.Visit.{end_of, state_of, open_tile, opened_at, open_res, shown_step, answered_of, next_of, next_step, accept_of, accept_step, streamed_body, streamed_head, decline_step};

use byte_source::Span;
use error::{LentRefusal, Refusal};
use poi::Poi;
use tagged::TagIds;
use tile_layout::{TileFormat, TileLayout};
use tile_place::FoundTile;
use types::{Grid, Position, ZoomInterval};
use way::WayBody;
use way_head::WayHead;

// What the stream's end says. `plain`: whether every number of the tile's head and of what was read of its features was plain.
#[derive(Clone, Copy)]
pub struct TileEnd {
    pub sub_file: usize,
    pub is_water: bool,
    pub plain: bool,
}

// The points and ways that remain, and the places of the next point and the next way.
#[derive(Clone, Copy)]
pub struct Remaining {
    pub points: u64,
    pub ways: u64,
    pub at: usize,
    pub way: usize,
}

// The ways that remain behind the one that waits, where declining it goes, where its body starts, and whether its head was plain.
#[derive(Clone, Copy)]
pub struct WaitingWay {
    pub ways: u64,
    pub past: usize,
    pub body: usize,
    pub head_plain: bool,
}

#[derive(Clone, Copy)]
pub enum Turn {
    Idle(Remaining),
    Waits(WaitingWay),
}

#[derive(Clone, Copy)]
pub struct Stream {
    pub turn: Turn,
    pub end: TileEnd,
}

#[derive(Clone, Copy)]
pub struct StreamedHead {
    pub tag_ids: TagIds,
    pub bitmap: u16,
    pub layer: i8,
    pub plain: bool,
}

// `blocks` node counts and `nodes` latitudes and longitudes went to the lists. `plain` speaks of the whole way, its head included.
#[derive(Clone, Copy)]
pub struct StreamedBody {
    pub name: Option<Span>,
    pub house_number: Option<Span>,
    pub reference: Option<Span>,
    pub label_position: Option<Position>,
    pub blocks: u64,
    pub nodes: u64,
    pub plain: bool,
}

// What a call of next gives: a point, a way's head, or what the end says.
#[derive(Clone, Copy)]
pub enum Given {
    Point(Poi),
    Way(StreamedHead),
    End(TileEnd),
}

// What a call answered, and the stream that it left.
#[derive(Clone, Copy)]
pub struct Answered<A> {
    pub answer: A,
    pub stream: Stream,
}

// What the end would say, after a feature of which this was said.
fn noted_end(end: TileEnd, plain: bool) -> TileEnd
    ensures { end_of result ≡ note_plain plain (end_of end) }
{
    TileEnd {
        sub_file: end.sub_file,
        is_water: end.is_water,
        plain: end.plain & plain,
    }
}

fn streamed_head(head: WayHead) -> StreamedHead
    ensures { result ≡ streamed_head head }
{
    StreamedHead {
        bitmap: head.bitmap,
        layer: head.layer,
        tag_ids: head.tag_ids,
        plain: head.plain,
    }
}

// `head` says whether the way's head was plain.
fn streamed_body(map: &[u8], head: bool, body: WayBody) -> StreamedBody
    ensures { result ≡ streamed_body map.now head body }
{
    StreamedBody {
        name: fields::streamed_span(map, body.name),
        house_number: fields::streamed_span(map, body.house_number),
        reference: fields::streamed_span(map, body.reference),
        label_position: body.label_position,
        blocks: body.blocks,
        nodes: body.nodes,
        plain: head & body.plain,
    }
}

// A call that is refused leaves the stream as it was.
fn kept_if_refused<T, E>(got: Result<(T, Stream), E>, before: Stream) -> Answered<Result<T, E>>
    ensures { result ≡ answered_of got before }
{
    match got {
        Ok((value, stream)) => Answered {
            answer: Ok(value),
            stream,
        },
        Err(refusal) => Answered {
            answer: Err(refusal),
            stream: before,
        },
    }
}

fn next_point(
    map: &[u8],
    format: TileFormat<'_>,
    rest: Remaining,
    end: TileEnd,
) -> Result<(Given, Stream), Refusal>
    requires { 0 < rest.points }
    ensures { next_of result (idle rest.points rest.ways rest.at rest.way (end_of end)) ≡ shown_step (on_next (format_of (tile_kinds format.entry)) map.now (idle rest.points rest.ways rest.at rest.way (end_of end))) }
{
    let TileFormat { layout, letters } = format;
    let (poi, at) = poi::read_poi(map, rest.at, layout.debug, letters, layout.poi_tags)?;
    let turn = Turn::Idle(Remaining {
        points: rest.points - 1,
        ways: rest.ways,
        at,
        way: rest.way,
    });
    let end = noted_end(end, poi.plain);
    let point = poi::streamed_poi(map, poi);
    Ok((Given::Point(point), Stream { turn, end }))
}

fn next_way(
    map: &[u8],
    format: TileFormat<'_>,
    rest: Remaining,
    end: TileEnd,
) -> Result<(Given, Stream), Refusal>
    requires { (rest.points ≤ 0) × (0 < rest.ways) }
    ensures { next_of result (idle rest.points rest.ways rest.at rest.way (end_of end)) ≡ shown_step (on_next (format_of (tile_kinds format.entry)) map.now (idle rest.points rest.ways rest.at rest.way (end_of end))) }
{
    let TileFormat { layout, letters } = format;
    let tags = layout.way_tags;
    let (head, body) = way_head::read_way_head(map, rest.way, layout.debug, letters, tags)?;
    let past = arithmetic::saturating_add_usize(head.start, head.size as usize);
    let turn = Turn::Waits(WaitingWay {
        ways: rest.ways - 1,
        past,
        body,
        head_plain: head.plain,
    });
    let end = noted_end(end, head.plain);
    Ok((Given::Way(streamed_head(head)), Stream { turn, end }))
}

// The next point; after the last point the next way's head, which then waits; at last the end, again and again. 16 while a way waits.
// Inline values are skipped by the listed letters. The end is answered here: handed up with the others it would be copied with room for a point.
pub fn next(map: &[u8], format: TileFormat<'_>, stream: Stream) -> Answered<Result<Given, Refusal>>
    ensures { next_step result ≡ shown_step (on_next (format_of (tile_kinds format.entry)) map.now (state_of «stream»)) }
{
    let Turn::Idle(rest) = stream.turn else {
        return Answered {
            answer: Err(Refusal::OutOfTurn),
            stream,
        };
    };
    if 0 < rest.points {
        return kept_if_refused(next_point(map, format, rest, stream.end), stream);
    }
    if 0 < rest.ways {
        return kept_if_refused(next_way(map, format, rest, stream.end), stream);
    }
    Answered {
        answer: Ok(Given::End(stream.end)),
        stream,
    }
}

// The body of the way that waits, and the stream behind it.
// Here and below each list is a parameter: of a struct of &muts every function would have to promise, too, that its fields are the same lists.
fn accept_way(
    map: &[u8],
    way: WaitingWay,
    end: TileEnd,
    node_counts: &mut [u64],
    latitudes: &mut [f64],
    longitudes: &mut [f64],
) -> Result<(StreamedBody, Stream), LentRefusal>
    ensures { accept_of result (waits way.ways way.past way.body way.head_plain (end_of end)) node_counts.new latitudes.new longitudes.new ≡ shown_step (on_accept body body_lists whole_body note_body map.now (waits way.ways way.past way.body way.head_plain (end_of end)) (lent node_counts.old latitudes.old longitudes.old)) }
{
    let (stored, at) = way::read_way_body(map, way.body, node_counts, latitudes, longitudes)?;
    let turn = Turn::Idle(Remaining {
        points: 0,
        ways: way.ways,
        at,
        way: at,
    });
    let body = streamed_body(map, way.head_plain, stored);
    let end = noted_end(end, body.plain);
    Ok((body, Stream { turn, end }))
}

// The body of the waiting way, decoded whole; then its node counts, latitudes and longitudes go to the fronts of the lists. 16 while no
// way waits; a refused accept leaves the way waiting and the lists alone.
pub fn accept(
    map: &[u8],
    stream: Stream,
    node_counts: &mut [u64],
    latitudes: &mut [f64],
    longitudes: &mut [f64],
) -> Answered<Result<StreamedBody, LentRefusal>>
    ensures { accept_step result node_counts.new latitudes.new longitudes.new ≡ shown_step (on_accept body body_lists whole_body note_body map.now (state_of «stream») (lent node_counts.old latitudes.old longitudes.old)) }
{
    let Turn::Waits(way) = stream.turn else {
        return Answered {
            answer: Err(LentRefusal::Refused(Refusal::OutOfTurn)),
            stream,
        };
    };
    kept_if_refused(
        accept_way(map, way, stream.end, node_counts, latitudes, longitudes),
        stream,
    )
}

// Goes to the waiting way's data start plus stored size. 16 while no way waits.
pub fn decline(stream: Stream) -> Answered<Result<(), Refusal>>
    ensures { decline_step result ≡ shown_step (on_decline (state_of «stream»)) }
{
    let Turn::Waits(way) = stream.turn else {
        return Answered {
            answer: Err(Refusal::OutOfTurn),
            stream,
        };
    };
    let turn = Turn::Idle(Remaining {
        points: 0,
        ways: way.ways,
        at: way.past,
        way: way.past,
    });
    let end = stream.end;
    Answered {
        answer: Ok(()),
        stream: Stream { turn, end },
    }
}

// The stream of a tile whose place is known.
fn open_at(
    map: &[u8],
    place: FoundTile,
    debug: bool,
    sub_file: usize,
    zoom: u8,
) -> Result<Stream, Refusal>
    ensures { open_res result ≡ opened_at debug sub_file zoom place map.now }
{
    let (head, at) = tile_head::read_tile_head(
        map,
        place.at as usize,
        place.empty,
        debug,
        place.min_zoom,
        place.max_zoom,
        zoom,
    )?;
    let sums = head.sums;
    let way = arithmetic::saturating_add_usize(at, head.offset as usize);
    let turn = Turn::Idle(Remaining {
        points: sums.points,
        ways: sums.ways,
        at,
        way,
    });
    let end = TileEnd {
        sub_file,
        is_water: place.is_water,
        plain: head.plain,
    };
    Ok(Stream { turn, end })
}

// A stream of a tile at a zoom, which is clamped into the sub file's interval. Refused in this order: sub file (8), grid (14), tile (8),
// its entry and the next one (19), interval (13), then as the tile's head is read. The stream of a tile that its index marks empty is at
// its end.
pub fn open(
    map: &[u8],
    layout: TileLayout,
    found: Option<ZoomInterval>,
    sub_file: usize,
    grid: Grid,
    tile: usize,
    zoom: u8,
) -> Result<Stream, Refusal>
    ensures { open_res result ≡ open_tile layout (interval_found found) sub_file (grid_of grid) tile zoom map.now }
{
    let debug = layout.debug;
    let place = tile_place::find_tile(map, debug, found, grid, tile)?;
    open_at(map, place, debug, sub_file, zoom)
}
