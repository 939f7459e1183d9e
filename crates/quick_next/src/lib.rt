// The stream's next by the quick readers, where they have the answer: a point or a way's head of a map that is no debug map, and the end of any tile.
// Where they have none, crate visit says what comes next.
#![tactic(auto)]

ghost use Rattle.std.specs.Prelude.{◌≡◌, IfSome, List, ℕ};
ghost use Rattle.agreement.specs.Stream.{on_next};
ghost use Rattle.tile_layout.specs.TileLayout.{TileKinds, tile_kinds, format_of};
ghost use Rattle.visit.specs.Visit.{state_of, shown_step, next_step};
ghost use Rattle.quick_next.specs.QuickNext.{is_quick, given_point, way_step, point_step, end_step};

use byte_source::Span;
use quick_point::QuickPoint;
use tile_layout::{TileFormat, TileLayout};
use types::Position;
use visit::{Remaining, Stream, TileEnd, Turn, WaitingWay};

// A way's head but for its tag ids, and the stream in which the way then waits. Every number was plain.
#[derive(Clone, Copy)]
pub struct WayStep {
    pub stream: Stream,
    pub count: usize,
    pub bitmap: u16,
    pub layer: i8,
}

// A point but for its tag ids, and the stream behind it. Every number was plain.
#[derive(Clone, Copy)]
pub struct PointStep {
    pub stream: Stream,
    pub position: Position,
    pub name: Option<Span>,
    pub house_number: Option<Span>,
    pub elevation: Option<i32>,
    pub count: usize,
    pub layer: i8,
}

// Whether a feature comes next in a map that is no debug map.
pub fn is_quick(layout: TileLayout, stream: Stream) -> bool
    ensures { result ≡ is_quick layout «stream» }
{
    let Turn::Idle(rest) = stream.turn else {
        return false;
    };
    if layout.debug {
        return false;
    }
    if 0 < rest.points {
        return true;
    }
    0 < rest.ways
}

// What the end says, where nothing remains: read off the stream, whatever the map and its tags. By itself, so that it is written as it stands; with
// a point and a head beside it the compiler would make room for theirs.
pub fn end_step(stream: Stream) -> Option<TileEnd>
    ensures { (l : TileKinds) (m : List ℕ) → IfSome result (λ e. next_step (end_step e «stream») ≡ shown_step (on_next (format_of l) m (state_of «stream»))) }
{
    let Turn::Idle(rest) = stream.turn else {
        return None;
    };
    if 0 < rest.points || 0 < rest.ways {
        return None;
    }
    Some(stream.end)
}

// The next way's head, after the last point. Its tag ids go to the front of `ids`, with zeros behind them; if there is no answer, anything
// may stand there.
pub fn way_step(
    map: &[u8],
    format: TileFormat<'_>,
    stream: Stream,
    ids: &mut [u64; 15],
) -> Option<WayStep>
    ensures { IfSome result (λ w. next_step (way_step w ids.new) ≡ shown_step (on_next (format_of (tile_kinds format.entry)) map.now (state_of «stream»))) }
{
    let TileFormat { layout, letters } = format;
    let Turn::Idle(rest) = stream.turn else {
        return None;
    };
    if layout.debug || 0 < rest.points || rest.ways < 1 {
        return None;
    }
    *ids = [0u64; 15];
    let tags = layout.way_tags;
    let got = quick_head::quick_head(map, rest.way, letters, tags, ids)?;
    let turn = Turn::Waits(WaitingWay {
        ways: rest.ways - 1,
        past: got.past,
        body: got.body,
        head_plain: true,
    });
    let end = stream.end;
    Some(WayStep {
        stream: Stream { turn, end },
        count: got.count,
        bitmap: got.bitmap,
        layer: got.layer,
    })
}

// A point as it is streamed.
fn given_point(point: QuickPoint, stream: Stream) -> PointStep
    ensures { result ≡ given_point point «stream» }
{
    let fields = point.fields;
    PointStep {
        stream,
        position: types::position_of(point.node.latitude, point.node.longitude),
        name: fields.name,
        house_number: fields.house,
        elevation: fields.elevation.map(poi::low32),
        count: point.tags.count,
        layer: point.tags.layer,
    }
}

// The next point. Its tag ids go to `ids` as a way's do.
pub fn point_step(
    map: &[u8],
    format: TileFormat<'_>,
    stream: Stream,
    ids: &mut [u64; 15],
) -> Option<PointStep>
    ensures { IfSome result (λ p. next_step (point_step p ids.new) ≡ shown_step (on_next (format_of (tile_kinds format.entry)) map.now (state_of «stream»))) }
{
    let TileFormat { layout, letters } = format;
    let Turn::Idle(rest) = stream.turn else {
        return None;
    };
    if layout.debug || rest.points < 1 {
        return None;
    }
    *ids = [0u64; 15];
    let tags = layout.poi_tags;
    let got = quick_point::quick_point(map, rest.at, letters, tags, ids)?;
    let turn = Turn::Idle(Remaining {
        points: rest.points - 1,
        ways: rest.ways,
        at: got.fields.next,
        way: rest.way,
    });
    let end = stream.end;
    Some(given_point(got, Stream { turn, end }))
}
