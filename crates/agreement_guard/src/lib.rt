// A program as demand 3 supposes it. It opens a map, which lists the tags, collects a tile by the listed letters, opens the tile's stream
// and calls next, accept and decline. Its contract is proved by the theorem `book-says`, from the contracts of the functions that it calls.
// So if one of these contracts is weakened, or what the theorem supposes of them is no longer what they ensure, this crate is refused.
// Nothing calls it.
#![tactic(auto)]

ghost use Rattle.types.specs.Types.{grid_of};
ghost use Rattle.opening.specs.Opening.{lists};
ghost use Rattle.tile_layout.specs.TileLayout.{tile_kinds};
ghost use Rattle.way_data.specs.Reply.{lent};
ghost use Rattle.agreement_guard.specs.Guard.{OpenedIs, Called3, OutcomeIs};

use error::{LentRefusal, Refusal};
use tile_layout::{TileFormat, TileLayout};
use types::{Grid, ZoomInterval};
use visit::{Given, Stream, StreamedBody};

// What tiles need of the header of a map that opened.
#[derive(Clone, Copy)]
pub struct OpenedMap {
    pub layout: TileLayout,
    pub found: Option<ZoomInterval>,
}

// What the three calls answered.
#[derive(Clone, Copy)]
pub struct Replies {
    pub next: Result<Given, Refusal>,
    pub accepted: Result<StreamedBody, LentRefusal>,
    pub declined: Result<(), Refusal>,
}

// Opens the map and lists its tags.
// Here and below each list is a parameter: of a struct of &muts every function would have to promise, too, that its fields are the same lists.
fn open_with_lists(
    map: &[u8],
    starts: &mut [u64],
    letters: &mut [u8],
    sub_file: usize,
) -> Result<OpenedMap, LentRefusal>
    ensures { OpenedIs map.now sub_file (lists starts.old letters.old) (lists starts.new letters.new) result }
{
    let (header, _) = opening::open_map(map, starts, letters)?;
    Ok(OpenedMap {
        layout: tile_layout::layout_of(header),
        found: index::interval_of(header, sub_file),
    })
}

fn call_three(
    map: &[u8],
    format: TileFormat<'_>,
    stream: Stream,
    node_counts: &mut [u64],
    latitudes: &mut [f64],
    longitudes: &mut [f64],
) -> Replies
    ensures { Called3 map.now (tile_kinds format.entry) «stream» (lent node_counts.old latitudes.old longitudes.old) (lent node_counts.new latitudes.new longitudes.new) result }
{
    let first = visit::next(map, format, stream);
    let second = visit::accept(map, first.stream, node_counts, latitudes, longitudes);
    let third = visit::decline(second.stream);
    Replies {
        next: first.answer,
        accepted: second.answer,
        declined: third.answer,
    }
}

// Next, accept and decline, called on a freshly opened stream of a tile that collects and whose stored sizes are exact; nothing is called where
// they are not. Refused if the map does not open, or the tile does not collect; with 15 if a list is too short for it.
pub fn first_calls(
    map: &[u8],
    starts: &mut [u64],
    letters: &mut [u8],
    sub_file: usize,
    grid: Grid,
    tile: usize,
    zoom: u8,
    places: &mut [u64],
    node_counts: &mut [u64],
    latitudes: &mut [f64],
    longitudes: &mut [f64],
) -> Result<Option<Replies>, LentRefusal>
    ensures { OutcomeIs map.now sub_file (grid_of grid) tile zoom (lists starts.old letters.old) (lists starts.new letters.new) places.old places.new (lent node_counts.old latitudes.old longitudes.old) (lent node_counts.new latitudes.new longitudes.new) result }
{
    let opened = open_with_lists(map, starts, letters, sub_file)?;
    let layout = opened.layout;
    let format = TileFormat { layout, letters };
    let found = opened.found;
    let whole = tile::read_tile(map, format, found, grid, tile, places)?;
    if !whole.exact {
        return Ok(None);
    }
    let stream = visit::open(map, layout, found, sub_file, grid, tile, zoom)?;
    let replies = call_three(map, format, stream, node_counts, latitudes, longitudes);
    Ok(Some(replies))
}
