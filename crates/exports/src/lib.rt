// The reader for programs in other languages, which link these functions by exports_c, under their own names; include/mapsforge.h declares them
// and says what each word is. Each call answers 0, or the number of a refusal, whose values go to the first words. An answer writes its own
// words, and the others keep their values. What a call needs of the header is handed in: the layout that opening gave, and its sub file's
// interval.
// C lends each list by itself: so lists that go together (starts and letters; node counts, latitudes and longitudes) are parameters of their own.
#![tactic(auto)]

ghost use Rattle.std.specs.Prelude.{◌≡◌, [], ◌∷◌};
ghost use Rattle.parsing.specs.Parse.{map_res};
ghost use Rattle.format.specs.WayData.{way_data};
ghost use Rattle.byte_source.specs.Answers.{read_res};
ghost use Rattle.way_measure.specs.Answers.{way_sizes};
ghost use Rattle.text.specs.Writing.{outcome, writing};
ghost use Rattle.column.specs.Column.{column_res, longitude_res, column as column_of, longitude as longitude_of};
ghost use Rattle.opening.specs.Opening.{lists};
ghost use Rattle.way_data.specs.Reply.{lent, reply, read_way_data};
ghost use Rattle.fetch_way.specs.FetchWay.{lent as lent_all};
ghost use Rattle.wire.specs.Wire.{wire, lending, Crosses, there};
ghost use Rattle.index_wire.specs.Index.{number_wire, interval_wire, interval_in, entry_wire, tag_wire, text_wire, column_wire, longitude_wire, way_data_wire, data_written_wire};
ghost use Rattle.window.specs.Window.{shares_cell};
ghost use Rattle.window_wire.specs.Windows.{window_count_wire, window_tile_wire};
ghost use Rattle.wanted_wire.specs.Figures.{wanted_wire};
ghost use Rattle.exports.specs.Calls.{WantedOf};
ghost use Rattle.header_wire.specs.Header.{header_wire, layout_in, intervals_in};
ghost use Rattle.stream_wire.specs.Streams.{stream_in, selection_in, opened_wire, next_wire, accept_wire, decline_wire};
ghost use Rattle.tile.specs.Tile.{lent_tile};
ghost use Rattle.feature_wire.specs.Features.{tile_wire, fetch_wire};
ghost use Rattle.showing.specs.Showing.{shown};
ghost use Rattle.showing_wire.specs.Rules.{checked_wire, shown_wire};
ghost use Rattle.exports.specs.Calls.{grid_in, window_in, OpenOf, tags_from, TagIs, RowOf, SubFileOf, CountOf, IndexOf, EntryOf, WindowCountOf, WindowTileOf, StreamOf, NextOf, QuickOf, SelectedOf, SkipOf, AcceptOf, DeclineOf, TileOf, FeatureOf, RulesOf};

use tile_layout::{TagLists, TileFormat};
use types::{Grid, TagRange};
use utils::Degrees;
use visit::Stream;
use window::Window;

// The header but for its intervals, in 34 words and six degrees, and what tiles and sub files need of it, in seven words. The start and the
// letter of each point tag and then of each way tag go to the fronts of two lists, which other calls take.
pub fn mapsforge_open(
    map: &[u8],
    starts: &mut [u64],
    letters: &mut [u8],
    words: &mut [u64; 34],
    degrees: &mut [f64; 6],
    layout: &mut [u64; 7],
) -> u64
    ensures { Crosses (header_wire (lending (words.old ∷ layout.old ∷ []) [] degrees.old)) (OpenOf map.now (lists starts.old letters.old) (lists starts.new letters.new)) (wire result (words.new ∷ layout.new ∷ []) [] degrees.new) }
{
    let got = opening::open_listed(map, starts, letters);
    header_wire::put_header(got, words, degrees, layout)
}

// The zoom interval of a sub file, in the six words that other calls take, read where the layout says that the intervals stand.
pub fn mapsforge_interval(
    map: &[u8],
    layout: &[u64; 7],
    sub_file: usize,
    words: &mut [u64; 6],
    interval: &mut [u64; 6],
) -> u64
    ensures { Crosses (interval_wire (lending (words.old ∷ interval.old ∷ []) [] [])) (RowOf map.now sub_file (intervals_in layout.now)) (wire result (words.new ∷ interval.new ∷ []) [] []) }
{
    let table = header_wire::intervals_in(*layout);
    let got = zoom_intervals::interval_at(map, table, sub_file);
    index_wire::put_interval(got, words, interval)
}

// The first sub file whose interval has the zoom.
pub fn mapsforge_sub_file(map: &[u8], layout: &[u64; 7], zoom: u8, words: &mut [u64; 8]) -> u64
    ensures { Crosses (number_wire (lending (words.old ∷ []) [] [])) (SubFileOf map.now zoom (intervals_in layout.now)) (wire result (words.new ∷ []) [] []) }
{
    let table = header_wire::intervals_in(*layout);
    let got = zoom_intervals::sub_file_for_zoom(map, table, zoom);
    index_wire::put_index(got, words)
}

// Where the text of tag k stands, of `count` tags from entry `first` of the lists on, and the kind of its inline value.
pub fn mapsforge_tag(
    map: &[u8],
    starts: &[u64],
    letters: &[u8],
    first: usize,
    count: usize,
    k: usize,
    words: &mut [u64; 10],
) -> u64
    ensures { Crosses (tag_wire (lending (words.old ∷ []) [] [])) (TagIs starts.now letters.now (tags_from first count) k map.now) (wire result (words.new ∷ []) [] []) }
{
    let tags = TagRange { first, count };
    let kind = tag_table::listed_kind(letters, tags, k);
    let got = tag_table::listed_text(map, starts, tags, k);
    index_wire::put_tag(got, kind, words)
}

// A text with each ill-formed part replaced by U+FFFD, to the front of the buffer.
pub fn mapsforge_text(text: &[u8], buffer: &mut [u8], words: &mut [u64; 7]) -> u64
    ensures { Crosses (text_wire (lending (words.old ∷ []) [] [])) (λ a. outcome a buffer.new ≡ writing text.now buffer.old 0) (wire result (words.new ∷ []) [] []) }
{
    let got = text::write_replaced(text, buffer, 0);
    index_wire::put_text(got, words)
}

// The grid of a sub file, as it is handed in.
fn grid_of(x_min: i32, y_min: i32, x_max: i32, y_max: i32) -> Grid
    ensures { result ≡ grid_in x_min y_min x_max y_max }
{
    Grid {
        x_min,
        y_min,
        x_max,
        y_max,
    }
}

// How many tiles a sub file has.
pub fn mapsforge_tile_count(
    interval: &[u64; 6],
    x_min: i32,
    y_min: i32,
    x_max: i32,
    y_max: i32,
    words: &mut [u64; 8],
) -> u64
    ensures { Crosses (number_wire (lending (words.old ∷ []) [] [])) (CountOf (interval_in interval.now) (grid_in x_min y_min x_max y_max)) (wire result (words.new ∷ []) [] []) }
{
    let grid = grid_of(x_min, y_min, x_max, y_max);
    let got = index::tile_count(index_wire::interval_in(*interval), grid);
    index_wire::put_count(got, words)
}

// The number of the tile x, y.
pub fn mapsforge_tile_index(
    interval: &[u64; 6],
    x_min: i32,
    y_min: i32,
    x_max: i32,
    y_max: i32,
    x: i32,
    y: i32,
    words: &mut [u64; 8],
) -> u64
    ensures { Crosses (number_wire (lending (words.old ∷ []) [] [])) (IndexOf x y (interval_in interval.now) (grid_in x_min y_min x_max y_max)) (wire result (words.new ∷ []) [] []) }
{
    let grid = grid_of(x_min, y_min, x_max, y_max);
    let got = index::tile_index_of(index_wire::interval_in(*interval), grid, x, y);
    index_wire::put_index(got, words)
}

// A tile's entry in the index.
pub fn mapsforge_index_entry(
    map: &[u8],
    layout: &[u64; 7],
    interval: &[u64; 6],
    x_min: i32,
    y_min: i32,
    x_max: i32,
    y_max: i32,
    tile: usize,
    words: &mut [u64; 9],
) -> u64
    ensures { Crosses (entry_wire (lending (words.old ∷ []) [] [])) (EntryOf map.now tile (layout_in layout.now) (interval_in interval.now) (grid_in x_min y_min x_max y_max)) (wire result (words.new ∷ []) [] []) }
{
    let grid = grid_of(x_min, y_min, x_max, y_max);
    let tiles = header_wire::layout_in(*layout);
    let found = index_wire::interval_in(*interval);
    let got = index::tile_index_entry(map, tiles.debug, found, grid, tile);
    index_wire::put_entry(got, words)
}

// The column that a longitude lies in.
pub fn mapsforge_column(
    longitude: f64,
    zoom: u8,
    words: &mut [u64; 6],
    column: &mut [i64; 1],
) -> u64
    ensures { Crosses (column_wire (lending (words.old ∷ []) column.old [])) (λ a. column_res a ≡ column_of longitude zoom) (wire result (words.new ∷ []) column.new []) }
{
    let got = column::tile_column(Degrees(longitude), zoom);
    index_wire::put_column(got, words, column)
}

// The longitude at which a column starts.
pub fn mapsforge_longitude(
    column: u32,
    zoom: u8,
    words: &mut [u64; 6],
    longitude: &mut [f64; 1],
) -> u64
    ensures { Crosses (longitude_wire (lending (words.old ∷ []) [] longitude.old)) (λ a. longitude_res a ≡ longitude_of column zoom) (wire result (words.new ∷ []) [] longitude.new) }
{
    let got = column::tilex2long(column, zoom);
    index_wire::put_longitude(got, words, longitude)
}

// How many tiles of the grid a rectangle of sub tiles touches.
pub fn mapsforge_window_count(
    x_min: i32,
    y_min: i32,
    x_max: i32,
    y_max: i32,
    left: i64,
    top: i64,
    right: i64,
    bottom: i64,
    words: &mut [u64; 7],
) -> u64
    ensures { Crosses (window_count_wire (lending (words.old ∷ []) [] [])) (WindowCountOf (window_in left top right bottom) (grid_in x_min y_min x_max y_max)) (wire result (words.new ∷ []) [] []) }
{
    let grid = grid_of(x_min, y_min, x_max, y_max);
    let window = Window {
        left,
        top,
        right,
        bottom,
    };
    let got = window::window_count(grid, window);
    window_wire::put_window_count(got, words)
}

// Tile k of those, row by row from the top, left to right: its number, its touched cells, its column and row.
pub fn mapsforge_window_tile(
    x_min: i32,
    y_min: i32,
    x_max: i32,
    y_max: i32,
    left: i64,
    top: i64,
    right: i64,
    bottom: i64,
    k: u64,
    words: &mut [u64; 9],
    column_row: &mut [i64; 2],
) -> u64
    ensures { Crosses (window_tile_wire (lending (words.old ∷ []) column_row.old [])) (WindowTileOf k (window_in left top right bottom) (grid_in x_min y_min x_max y_max)) (wire result (words.new ∷ []) column_row.new []) }
{
    let grid = grid_of(x_min, y_min, x_max, y_max);
    let window = Window {
        left,
        top,
        right,
        bottom,
    };
    let got = window::window_tile(grid, window, k);
    window_wire::put_window_tile(got, words, column_row)
}

// Whether a way's bitmap and a tile's mask share a cell: if not, the way is declined. This call refuses nothing, and answers outright.
pub fn mapsforge_shares_cell(bitmap: u16, mask: u16) -> bool
    ensures { result ≡ shares_cell bitmap mask }
{
    window::shares_cell(bitmap, mask)
}

// A stream of a tile: its state, in eight words.
pub fn mapsforge_stream_open(
    map: &[u8],
    layout: &[u64; 7],
    interval: &[u64; 6],
    sub_file: usize,
    x_min: i32,
    y_min: i32,
    x_max: i32,
    y_max: i32,
    tile: usize,
    zoom: u8,
    state: &mut [u64; 8],
    words: &mut [u64; 6],
) -> u64
    ensures { Crosses (opened_wire (lending (words.old ∷ state.old ∷ []) [] [])) (StreamOf map.now sub_file tile zoom (layout_in layout.now) (interval_in interval.now) (grid_in x_min y_min x_max y_max)) (wire result (words.new ∷ state.new ∷ []) [] []) }
{
    let grid = grid_of(x_min, y_min, x_max, y_max);
    let tiles = header_wire::layout_in(*layout);
    let found = index_wire::interval_in(*interval);
    let got = visit::open(map, tiles, found, sub_file, grid, tile, zoom);
    stream_wire::put_opened(got, words, state)
}

// The next point or the next way's head by the quick readers, which may write to the ids before they turn out to have no answer. Each large
// function that is called here is called here alone, so that the compiler inlines it.
fn try_quick(
    map: &[u8],
    format: TileFormat<'_>,
    stream: Stream,
    state: &mut [u64; 8],
    words: &mut [u64; 22],
    signed_words: &mut [i64; 2],
    degrees: &mut [f64; 2],
    ids: &mut [u64; 15],
) -> bool
    ensures { QuickOf result (Crosses (next_wire (lending (words.old ∷ ids.old ∷ state.old ∷ []) signed_words.old degrees.old)) (NextOf map.now format.entry.letters.now format.entry.layout «stream») (wire 0 (words.new ∷ ids.new ∷ state.new ∷ []) signed_words.new degrees.new)) (wire 0 (words.new ∷ ids.new ∷ state.new ∷ []) signed_words.new degrees.new ≡ lending (words.old ∷ ids.old ∷ state.old ∷ []) signed_words.old degrees.old) }
{
    if let Some(end) = quick_next::end_step(stream) {
        stream_wire::put_end_step(end, stream, state, words);
        return true;
    }
    if !quick_next::is_quick(format.layout, stream) {
        return false;
    }
    let kept = *ids;
    if let Some(way) = quick_next::way_step(map, format, stream, ids) {
        stream_wire::put_way_step(way, state, words, signed_words);
        return true;
    }
    if let Some(point) = quick_next::point_step(map, format, stream, ids) {
        stream_wire::put_point_step(point, state, words, signed_words, degrees);
        return true;
    }
    *ids = kept;
    false
}

// The next point, the next way's head, or the end.
pub fn mapsforge_stream_next(
    map: &[u8],
    layout: &[u64; 7],
    letters: &[u8],
    state: &mut [u64; 8],
    words: &mut [u64; 22],
    signed_words: &mut [i64; 2],
    degrees: &mut [f64; 2],
    ids: &mut [u64; 15],
) -> u64
    ensures { Crosses (next_wire (lending (words.old ∷ ids.old ∷ state.old ∷ []) signed_words.old degrees.old)) (NextOf map.now letters.now (layout_in layout.now) (stream_in state.old)) (wire result (words.new ∷ ids.new ∷ state.new ∷ []) signed_words.new degrees.new) }
{
    // each slice anew: so the compiler takes address and length in registers, also from the calls below, and not through memory
    let map = &map[..];
    let letters = &letters[..];
    let layout = header_wire::layout_in(*layout);
    let format = TileFormat { layout, letters };
    let stream = stream_wire::stream_in(*state);
    if try_quick(
        map,
        format,
        stream,
        state,
        words,
        signed_words,
        degrees,
        ids,
    ) {
        return 0;
    }
    let step = visit::next(map, format, stream);
    stream_wire::put_next(step, state, words, signed_words, degrees, ids)
}

// A refused call leaves the state before it.
fn put_back(number: u64, before: [u64; 8], state: &mut [u64; 8]) -> u64
    ensures { (result ≡ number) × (state.new ≡ there number state.old before) }
{
    if number == 0 {
        return number;
    }
    *state = before;
    number
}

// Next with every way declined that the window and the rules do not select: `select` says which of them count, with the window's mask and the
// zoom, and `classes` is a table that a check of rules filled. It goes by the calls themselves, so that the functions that next calls have no
// other caller and are inlined there; a way that goes past leaves no words.
pub fn mapsforge_stream_next_selected(
    map: &[u8],
    layout: &[u64; 7],
    letters: &[u8],
    select: &[u64; 4],
    classes: &[u8],
    state: &mut [u64; 8],
    words: &mut [u64; 22],
    signed_words: &mut [i64; 2],
    degrees: &mut [f64; 2],
    ids: &mut [u64; 15],
) -> u64
    ensures { Crosses (next_wire (lending (words.old ∷ ids.old ∷ state.old ∷ []) signed_words.old degrees.old)) (SelectedOf map.now letters.now classes.now (layout_in layout.now) (selection_in select.now) (stream_in state.old)) (wire result (words.new ∷ ids.new ∷ state.new ∷ []) signed_words.new degrees.new) }
{
    let which = stream_wire::selection_in(*select);
    let said = *words;
    let signs = *signed_words;
    let place = *degrees;
    let row = *ids;
    let before = *state;
    let mut aside = [0; 6];
    loop {
        let number = mapsforge_stream_next(
            map,
            layout,
            letters,
            state,
            words,
            signed_words,
            degrees,
            ids,
        );
        if !stream_wire::goes_past(number, words, ids, which, classes) {
            return put_back(number, before, state);
        }
        mapsforge_stream_decline(state, &mut aside);
        *words = said;
        *signed_words = signs;
        *degrees = place;
        *ids = row;
    }
}

// The waiting way's body; its node counts, latitudes and longitudes go to the fronts of the lists.
pub fn mapsforge_stream_accept(
    map: &[u8],
    state: &mut [u64; 8],
    node_counts: &mut [u64],
    latitudes: &mut [f64],
    longitudes: &mut [f64],
    words: &mut [u64; 19],
    degrees: &mut [f64; 2],
) -> u64
    ensures { Crosses (accept_wire (lending (words.old ∷ state.old ∷ []) [] degrees.old)) (AcceptOf map.now (stream_in state.old) (lent node_counts.old latitudes.old longitudes.old) (lent node_counts.new latitudes.new longitudes.new)) (wire result (words.new ∷ state.new ∷ []) [] degrees.new) }
{
    let stream = stream_wire::stream_in(*state);
    let step = visit::accept(map, stream, node_counts, latitudes, longitudes);
    stream_wire::put_accepted(step, state, words, degrees)
}

// Past the waiting way, by its stored size.
pub fn mapsforge_stream_decline(state: &mut [u64; 8], words: &mut [u64; 6]) -> u64
    ensures { Crosses (decline_wire (lending (words.old ∷ state.old ∷ []) [] [])) (DeclineOf (stream_in state.old)) (wire result (words.new ∷ state.new ∷ []) [] []) }
{
    let step = visit::decline(stream_wire::stream_in(*state));
    stream_wire::put_declined(step, state, words)
}

// Past the waiting way and then the next point, way or end, in one call, for a program that declines most ways. 16 while no way waits; a
// refused call leaves the way waiting.
pub fn mapsforge_stream_skip(
    map: &[u8],
    layout: &[u64; 7],
    letters: &[u8],
    state: &mut [u64; 8],
    words: &mut [u64; 22],
    signed_words: &mut [i64; 2],
    degrees: &mut [f64; 2],
    ids: &mut [u64; 15],
) -> u64
    ensures { Crosses (next_wire (lending (words.old ∷ ids.old ∷ state.old ∷ []) signed_words.old degrees.old)) (SkipOf map.now letters.now (layout_in layout.now) (stream_in state.old)) (wire result (words.new ∷ ids.new ∷ state.new ∷ []) signed_words.new degrees.new) }
{
    let before = *state;
    let mut aside = [0; 6];
    let refused = mapsforge_stream_decline(state, &mut aside);
    if refused != 0 {
        return refused;
    }
    let number = mapsforge_stream_next(
        map,
        layout,
        letters,
        state,
        words,
        signed_words,
        degrees,
        ids,
    );
    put_back(number, before, state)
}

// A collected tile; its zoom table's rows go to the fronts of two lists, and where each feature starts to that of a third, `places`.
pub fn mapsforge_collect(
    map: &[u8],
    layout: &[u64; 7],
    letters: &[u8],
    interval: &[u64; 6],
    x_min: i32,
    y_min: i32,
    x_max: i32,
    y_max: i32,
    tile: usize,
    words: &mut [u64; 15],
    points: &mut [u64; 256],
    ways: &mut [u64; 256],
    places: &mut [u64],
) -> u64
    ensures { Crosses (tile_wire (lending (words.old ∷ []) [] [])) (TileOf map.now letters.now tile (lent_tile points.old ways.old places.old) (lent_tile points.new ways.new places.new) (layout_in layout.now) (interval_in interval.now) (grid_in x_min y_min x_max y_max)) (wire result (words.new ∷ []) [] []) }
{
    let grid = grid_of(x_min, y_min, x_max, y_max);
    let layout = header_wire::layout_in(*layout);
    let format = TileFormat { layout, letters };
    let found = index_wire::interval_in(*interval);
    let got = tile::collect(map, format, found, grid, tile, points, ways, places);
    feature_wire::put_tile(got, words)
}

// Feature k of a collected tile: points from 0, ways behind them. It is read from where collecting listed it, and nothing else is.
pub fn mapsforge_fetch(
    map: &[u8],
    layout: &[u64; 7],
    starts: &[u64],
    letters: &[u8],
    places: &[u64],
    points: u64,
    ways: u64,
    feature: u64,
    node_counts: &mut [u64],
    latitudes: &mut [f64],
    longitudes: &mut [f64],
    initial_latitudes: &mut [f64],
    initial_longitudes: &mut [f64],
    buffer: &mut [u8],
    words: &mut [u64; 37],
    signed_words: &mut [i64; 2],
    degrees: &mut [f64; 2],
    ids: &mut [u64; 15],
    tags: &mut [u64; 75],
) -> u64
    ensures { Crosses (fetch_wire (lending (words.old ∷ ids.old ∷ tags.old ∷ []) signed_words.old degrees.old)) (FeatureOf map.now starts.now letters.now places.now points ways feature (lent_all node_counts.old latitudes.old longitudes.old initial_latitudes.old initial_longitudes.old buffer.old) (lent_all node_counts.new latitudes.new longitudes.new initial_latitudes.new initial_longitudes.new buffer.new) (layout_in layout.now)) (wire result (words.new ∷ ids.new ∷ tags.new ∷ []) signed_words.new degrees.new) }
{
    let tiles = header_wire::layout_in(*layout);
    let lists = TagLists { starts, letters };
    let fetch = fetch::fetch_feature(
        map,
        tiles,
        lists,
        places,
        points,
        ways,
        feature,
        node_counts,
        latitudes,
        longitudes,
        initial_latitudes,
        initial_longitudes,
        buffer,
    );
    feature_wire::put_fetch(fetch, words, signed_words, degrees, ids, tags)
}

// A way's data from a place on: the numbers of blocks and nodes, and the place behind them.
pub fn mapsforge_measure_way_data(
    map: &[u8],
    at: usize,
    data_blocks: u64,
    words: &mut [u64; 10],
) -> u64
    ensures { Crosses (way_data_wire (lending (words.old ∷ []) [] [])) (λ a. read_res a ≡ map_res way_sizes (way_data data_blocks map.now at)) (wire result (words.new ∷ []) [] []) }
{
    let got = way_measure::measure_way_data(map, at, data_blocks);
    index_wire::put_way_data(got, words)
}

// The same, and the nodes to the fronts of three lists.
pub fn mapsforge_read_way_data(
    map: &[u8],
    at: usize,
    data_blocks: u64,
    double_delta: bool,
    node_counts: &mut [u64],
    latitudes: &mut [f64],
    longitudes: &mut [f64],
    words: &mut [u64; 10],
) -> u64
    ensures { Crosses (data_written_wire (lending (words.old ∷ []) [] [])) (λ a. reply a node_counts.new latitudes.new longitudes.new ≡ read_way_data double_delta (way_data data_blocks map.now at) node_counts.old latitudes.old longitudes.old) (wire result (words.new ∷ []) [] []) }
{
    let got = way_data::read_way_data(
        map,
        at,
        data_blocks,
        double_delta,
        node_counts,
        latitudes,
        longitudes,
    );
    index_wire::put_data_written(got, words)
}

// Checks showing rules, each of four bytes, for a map with so many way tags, and fills the table with the class of each tag and zoom.
pub fn mapsforge_check_rules(
    rules: &[u8],
    way_tags: u16,
    classes: &mut [u8],
    words: &mut [u64; 6],
) -> u64
    ensures { Crosses (checked_wire (lending (words.old ∷ []) [] [])) (RulesOf way_tags rules.now classes.old classes.new) (wire result (words.new ∷ []) [] []) }
{
    let got = showing::check_rules(rules, way_tags, classes);
    showing_wire::put_checked(got, words)
}

// Whether a way with these tag ids is accepted at a zoom, by a table that a check of rules filled.
pub fn mapsforge_shows(classes: &[u8], zoom: u8, ids: &[u64], words: &mut [u64; 7]) -> u64
    ensures { Crosses (shown_wire (lending (words.old ∷ []) [] [])) (λ b. b ≡ shown classes.now zoom ids.now) (wire result (words.new ∷ []) [] []) }
{
    let got = showing::shows(classes, zoom, ids);
    showing_wire::put_shown(got, words)
}

// What a tile's stream at a zoom will want, by a list of decisions: byte j decides way j, 0 declines it, and behind the end ways are declined.
pub fn mapsforge_wanted(
    map: &[u8],
    layout: &[u64; 7],
    letters: &[u8],
    interval: &[u64; 6],
    x_min: i32,
    y_min: i32,
    x_max: i32,
    y_max: i32,
    tile: usize,
    zoom: u8,
    decisions: &[u8],
    words: &mut [u64; 11],
) -> u64
    ensures { Crosses (wanted_wire (lending (words.old ∷ []) [] [])) (WantedOf map.now letters.now decisions.now tile zoom (layout_in layout.now) (interval_in interval.now) (grid_in x_min y_min x_max y_max)) (wire result (words.new ∷ []) [] []) }
{
    let grid = grid_of(x_min, y_min, x_max, y_max);
    let layout = header_wire::layout_in(*layout);
    let format = TileFormat { layout, letters };
    let found = index_wire::interval_in(*interval);
    let got = wanted::wanted(map, format, found, grid, tile, zoom, decisions);
    wanted_wire::put_wanted(got, words)
}
