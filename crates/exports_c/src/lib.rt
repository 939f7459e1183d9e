// The library `exports` as programs in other languages link it; include/mapsforge.h declares these functions and says what each word is. A
// slice goes by its address and its length, an array by its address alone. Each function here calls the library's of the same name, with the
// same arguments, and states its clauses again; what they promise is said there.
// C lends each list by itself: so lists that go together (starts and letters; node counts, latitudes and longitudes) are parameters of their own.
#![tactic(auto)]

ghost use Rattle.std.specs.Prelude.{◌≡◌, [], ◌∷◌};
ghost use Rattle.parsing.specs.Parse.{map_res};
ghost use Rattle.format.specs.WayData.{way_data};
ghost use Rattle.byte_source.specs.Answers.{read_res};
ghost use Rattle.way_measure.specs.Answers.{way_sizes};
ghost use Rattle.text.specs.Writing.{outcome, writing};
ghost use Rattle.column.specs.Column.{column_res, longitude_res, column as column_of, longitude as longitude_of};
ghost use Rattle.opening.specs.Opening.{lists};
ghost use Rattle.way_data.specs.Reply.{lent, reply, read_way_data};
ghost use Rattle.fetch_way.specs.FetchWay.{lent as lent_all};
ghost use Rattle.wire.specs.Wire.{wire, lending, Crosses};
ghost use Rattle.index_wire.specs.Index.{number_wire, interval_wire, interval_in, entry_wire, tag_wire, text_wire, column_wire, longitude_wire, way_data_wire, data_written_wire};
ghost use Rattle.window.specs.Window.{shares_cell};
ghost use Rattle.window_wire.specs.Windows.{window_count_wire, window_tile_wire};
ghost use Rattle.wanted_wire.specs.Figures.{wanted_wire};
ghost use Rattle.exports.specs.Calls.{WantedOf};
ghost use Rattle.header_wire.specs.Header.{header_wire, layout_in, intervals_in};
ghost use Rattle.stream_wire.specs.Streams.{stream_in, selection_in, opened_wire, next_wire, accept_wire, decline_wire};
ghost use Rattle.tile.specs.Tile.{lent_tile};
ghost use Rattle.feature_wire.specs.Features.{tile_wire, fetch_wire};
ghost use Rattle.showing.specs.Showing.{shown};
ghost use Rattle.showing_wire.specs.Rules.{checked_wire, shown_wire};
ghost use Rattle.exports.specs.Calls.{grid_in, window_in, OpenOf, tags_from, TagIs, RowOf, SubFileOf, CountOf, IndexOf, EntryOf, WindowCountOf, WindowTileOf, StreamOf, NextOf, SelectedOf, SkipOf, AcceptOf, DeclineOf, TileOf, FeatureOf, RulesOf};

// The header but for its intervals, in 34 words and six degrees, and what tiles and sub files need of it, in seven words. The start and the
// letter of each point tag and then of each way tag go to the fronts of two lists, which other calls take.
#[unsafe(no_mangle)]
pub extern "C" fn mapsforge_open(
    map: &[u8],
    starts: &mut [u64],
    letters: &mut [u8],
    words: &mut [u64; 34],
    degrees: &mut [f64; 6],
    layout: &mut [u64; 7],
) -> u64
    ensures { Crosses (header_wire (lending (words.old ∷ layout.old ∷ []) [] degrees.old)) (OpenOf map.now (lists starts.old letters.old) (lists starts.new letters.new)) (wire result (words.new ∷ layout.new ∷ []) [] degrees.new) }
{
    exports::mapsforge_open(map, starts, letters, words, degrees, layout)
}

// The zoom interval of a sub file, in the six words that other calls take, read where the layout says that the intervals stand.
#[unsafe(no_mangle)]
pub extern "C" fn mapsforge_interval(
    map: &[u8],
    layout: &[u64; 7],
    sub_file: usize,
    words: &mut [u64; 6],
    interval: &mut [u64; 6],
) -> u64
    ensures { Crosses (interval_wire (lending (words.old ∷ interval.old ∷ []) [] [])) (RowOf map.now sub_file (intervals_in layout.now)) (wire result (words.new ∷ interval.new ∷ []) [] []) }
{
    exports::mapsforge_interval(map, layout, sub_file, words, interval)
}

// The first sub file whose interval has the zoom.
#[unsafe(no_mangle)]
pub extern "C" fn mapsforge_sub_file(
    map: &[u8],
    layout: &[u64; 7],
    zoom: u8,
    words: &mut [u64; 8],
) -> u64
    ensures { Crosses (number_wire (lending (words.old ∷ []) [] [])) (SubFileOf map.now zoom (intervals_in layout.now)) (wire result (words.new ∷ []) [] []) }
{
    exports::mapsforge_sub_file(map, layout, zoom, words)
}

// Where the text of tag k stands, of `count` tags from entry `first` of the lists on, and the kind of its inline value.
#[unsafe(no_mangle)]
pub extern "C" fn mapsforge_tag(
    map: &[u8],
    starts: &[u64],
    letters: &[u8],
    first: usize,
    count: usize,
    k: usize,
    words: &mut [u64; 10],
) -> u64
    ensures { Crosses (tag_wire (lending (words.old ∷ []) [] [])) (TagIs starts.now letters.now (tags_from first count) k map.now) (wire result (words.new ∷ []) [] []) }
{
    exports::mapsforge_tag(map, starts, letters, first, count, k, words)
}

// A text with each ill-formed part replaced by U+FFFD, to the front of the buffer.
#[unsafe(no_mangle)]
pub extern "C" fn mapsforge_text(text: &[u8], buffer: &mut [u8], words: &mut [u64; 7]) -> u64
    ensures { Crosses (text_wire (lending (words.old ∷ []) [] [])) (λ a. outcome a buffer.new ≡ writing text.now buffer.old 0) (wire result (words.new ∷ []) [] []) }
{
    exports::mapsforge_text(text, buffer, words)
}

// How many tiles a sub file has.
#[unsafe(no_mangle)]
pub extern "C" fn mapsforge_tile_count(
    interval: &[u64; 6],
    x_min: i32,
    y_min: i32,
    x_max: i32,
    y_max: i32,
    words: &mut [u64; 8],
) -> u64
    ensures { Crosses (number_wire (lending (words.old ∷ []) [] [])) (CountOf (interval_in interval.now) (grid_in x_min y_min x_max y_max)) (wire result (words.new ∷ []) [] []) }
{
    exports::mapsforge_tile_count(interval, x_min, y_min, x_max, y_max, words)
}

// The number of the tile x, y.
#[unsafe(no_mangle)]
pub extern "C" fn mapsforge_tile_index(
    interval: &[u64; 6],
    x_min: i32,
    y_min: i32,
    x_max: i32,
    y_max: i32,
    x: i32,
    y: i32,
    words: &mut [u64; 8],
) -> u64
    ensures { Crosses (number_wire (lending (words.old ∷ []) [] [])) (IndexOf x y (interval_in interval.now) (grid_in x_min y_min x_max y_max)) (wire result (words.new ∷ []) [] []) }
{
    exports::mapsforge_tile_index(interval, x_min, y_min, x_max, y_max, x, y, words)
}

// A tile's entry in the index.
#[unsafe(no_mangle)]
pub extern "C" fn mapsforge_index_entry(
    map: &[u8],
    layout: &[u64; 7],
    interval: &[u64; 6],
    x_min: i32,
    y_min: i32,
    x_max: i32,
    y_max: i32,
    tile: usize,
    words: &mut [u64; 9],
) -> u64
    ensures { Crosses (entry_wire (lending (words.old ∷ []) [] [])) (EntryOf map.now tile (layout_in layout.now) (interval_in interval.now) (grid_in x_min y_min x_max y_max)) (wire result (words.new ∷ []) [] []) }
{
    exports::mapsforge_index_entry(
        map, layout, interval, x_min, y_min, x_max, y_max, tile, words,
    )
}

// The column that a longitude lies in.
#[unsafe(no_mangle)]
pub extern "C" fn mapsforge_column(
    longitude: f64,
    zoom: u8,
    words: &mut [u64; 6],
    column: &mut [i64; 1],
) -> u64
    ensures { Crosses (column_wire (lending (words.old ∷ []) column.old [])) (λ a. column_res a ≡ column_of longitude zoom) (wire result (words.new ∷ []) column.new []) }
{
    exports::mapsforge_column(longitude, zoom, words, column)
}

// The longitude at which a column starts. C has a function for each call, also where two take arguments of like types.
#[unsafe(no_mangle)]
pub extern "C" fn mapsforge_longitude(
    column: u32,
    zoom: u8,
    words: &mut [u64; 6],
    longitude: &mut [f64; 1],
) -> u64
    ensures { Crosses (longitude_wire (lending (words.old ∷ []) [] longitude.old)) (λ a. longitude_res a ≡ longitude_of column zoom) (wire result (words.new ∷ []) [] longitude.new) }
{
    exports::mapsforge_longitude(column, zoom, words, longitude)
}

// How many tiles of the grid a rectangle of sub tiles touches.
#[unsafe(no_mangle)]
pub extern "C" fn mapsforge_window_count(
    x_min: i32,
    y_min: i32,
    x_max: i32,
    y_max: i32,
    left: i64,
    top: i64,
    right: i64,
    bottom: i64,
    words: &mut [u64; 7],
) -> u64
    ensures { Crosses (window_count_wire (lending (words.old ∷ []) [] [])) (WindowCountOf (window_in left top right bottom) (grid_in x_min y_min x_max y_max)) (wire result (words.new ∷ []) [] []) }
{
    exports::mapsforge_window_count(x_min, y_min, x_max, y_max, left, top, right, bottom, words)
}

// Tile k of those, row by row from the top, left to right: its number, its touched cells, its column and row.
#[unsafe(no_mangle)]
pub extern "C" fn mapsforge_window_tile(
    x_min: i32,
    y_min: i32,
    x_max: i32,
    y_max: i32,
    left: i64,
    top: i64,
    right: i64,
    bottom: i64,
    k: u64,
    words: &mut [u64; 9],
    column_row: &mut [i64; 2],
) -> u64
    ensures { Crosses (window_tile_wire (lending (words.old ∷ []) column_row.old [])) (WindowTileOf k (window_in left top right bottom) (grid_in x_min y_min x_max y_max)) (wire result (words.new ∷ []) column_row.new []) }
{
    exports::mapsforge_window_tile(
        x_min, y_min, x_max, y_max, left, top, right, bottom, k, words, column_row,
    )
}

// Whether a way's bitmap and a tile's mask share a cell: if not, the way is declined. This call refuses nothing, and answers outright.
#[unsafe(no_mangle)]
pub extern "C" fn mapsforge_shares_cell(bitmap: u16, mask: u16) -> bool
    ensures { result ≡ shares_cell bitmap mask }
{
    exports::mapsforge_shares_cell(bitmap, mask)
}

// A stream of a tile: its state, in eight words.
#[unsafe(no_mangle)]
pub extern "C" fn mapsforge_stream_open(
    map: &[u8],
    layout: &[u64; 7],
    interval: &[u64; 6],
    sub_file: usize,
    x_min: i32,
    y_min: i32,
    x_max: i32,
    y_max: i32,
    tile: usize,
    zoom: u8,
    state: &mut [u64; 8],
    words: &mut [u64; 6],
) -> u64
    ensures { Crosses (opened_wire (lending (words.old ∷ state.old ∷ []) [] [])) (StreamOf map.now sub_file tile zoom (layout_in layout.now) (interval_in interval.now) (grid_in x_min y_min x_max y_max)) (wire result (words.new ∷ state.new ∷ []) [] []) }
{
    exports::mapsforge_stream_open(
        map, layout, interval, sub_file, x_min, y_min, x_max, y_max, tile, zoom, state, words,
    )
}

// The next point, the next way's head, or the end.
#[unsafe(no_mangle)]
pub extern "C" fn mapsforge_stream_next(
    map: &[u8],
    layout: &[u64; 7],
    letters: &[u8],
    state: &mut [u64; 8],
    words: &mut [u64; 22],
    signed_words: &mut [i64; 2],
    degrees: &mut [f64; 2],
    ids: &mut [u64; 15],
) -> u64
    ensures { Crosses (next_wire (lending (words.old ∷ ids.old ∷ state.old ∷ []) signed_words.old degrees.old)) (NextOf map.now letters.now (layout_in layout.now) (stream_in state.old)) (wire result (words.new ∷ ids.new ∷ state.new ∷ []) signed_words.new degrees.new) }
{
    exports::mapsforge_stream_next(
        map,
        layout,
        letters,
        state,
        words,
        signed_words,
        degrees,
        ids,
    )
}

// Next with every way declined that the window and the rules do not select: `select` says which of them count, with the window's mask and the
// zoom, and `classes` is a table that a check of rules filled. It goes by the calls themselves, so that the functions that next calls have no
// other caller and are inlined there; a way that goes past leaves no words.
#[unsafe(no_mangle)]
pub extern "C" fn mapsforge_stream_next_selected(
    map: &[u8],
    layout: &[u64; 7],
    letters: &[u8],
    select: &[u64; 4],
    classes: &[u8],
    state: &mut [u64; 8],
    words: &mut [u64; 22],
    signed_words: &mut [i64; 2],
    degrees: &mut [f64; 2],
    ids: &mut [u64; 15],
) -> u64
    ensures { Crosses (next_wire (lending (words.old ∷ ids.old ∷ state.old ∷ []) signed_words.old degrees.old)) (SelectedOf map.now letters.now classes.now (layout_in layout.now) (selection_in select.now) (stream_in state.old)) (wire result (words.new ∷ ids.new ∷ state.new ∷ []) signed_words.new degrees.new) }
{
    exports::mapsforge_stream_next_selected(
        map,
        layout,
        letters,
        select,
        classes,
        state,
        words,
        signed_words,
        degrees,
        ids,
    )
}

// The waiting way's body; its node counts, latitudes and longitudes go to the fronts of the lists.
#[unsafe(no_mangle)]
pub extern "C" fn mapsforge_stream_accept(
    map: &[u8],
    state: &mut [u64; 8],
    node_counts: &mut [u64],
    latitudes: &mut [f64],
    longitudes: &mut [f64],
    words: &mut [u64; 19],
    degrees: &mut [f64; 2],
) -> u64
    ensures { Crosses (accept_wire (lending (words.old ∷ state.old ∷ []) [] degrees.old)) (AcceptOf map.now (stream_in state.old) (lent node_counts.old latitudes.old longitudes.old) (lent node_counts.new latitudes.new longitudes.new)) (wire result (words.new ∷ state.new ∷ []) [] degrees.new) }
{
    exports::mapsforge_stream_accept(
        map,
        state,
        node_counts,
        latitudes,
        longitudes,
        words,
        degrees,
    )
}

// Past the waiting way, by its stored size.
#[unsafe(no_mangle)]
pub extern "C" fn mapsforge_stream_decline(state: &mut [u64; 8], words: &mut [u64; 6]) -> u64
    ensures { Crosses (decline_wire (lending (words.old ∷ state.old ∷ []) [] [])) (DeclineOf (stream_in state.old)) (wire result (words.new ∷ state.new ∷ []) [] []) }
{
    exports::mapsforge_stream_decline(state, words)
}

// Past the waiting way and then the next point, way or end, in one call, for a program that declines most ways. 16 while no way waits; a
// refused call leaves the way waiting. C has no function that takes which of two calls is meant.
#[unsafe(no_mangle)]
pub extern "C" fn mapsforge_stream_skip(
    map: &[u8],
    layout: &[u64; 7],
    letters: &[u8],
    state: &mut [u64; 8],
    words: &mut [u64; 22],
    signed_words: &mut [i64; 2],
    degrees: &mut [f64; 2],
    ids: &mut [u64; 15],
) -> u64
    ensures { Crosses (next_wire (lending (words.old ∷ ids.old ∷ state.old ∷ []) signed_words.old degrees.old)) (SkipOf map.now letters.now (layout_in layout.now) (stream_in state.old)) (wire result (words.new ∷ ids.new ∷ state.new ∷ []) signed_words.new degrees.new) }
{
    exports::mapsforge_stream_skip(
        map,
        layout,
        letters,
        state,
        words,
        signed_words,
        degrees,
        ids,
    )
}

// A collected tile; its zoom table's rows go to the fronts of two lists, and where each feature starts to that of a third, `places`.
#[unsafe(no_mangle)]
pub extern "C" fn mapsforge_collect(
    map: &[u8],
    layout: &[u64; 7],
    letters: &[u8],
    interval: &[u64; 6],
    x_min: i32,
    y_min: i32,
    x_max: i32,
    y_max: i32,
    tile: usize,
    words: &mut [u64; 15],
    points: &mut [u64; 256],
    ways: &mut [u64; 256],
    places: &mut [u64],
) -> u64
    ensures { Crosses (tile_wire (lending (words.old ∷ []) [] [])) (TileOf map.now letters.now tile (lent_tile points.old ways.old places.old) (lent_tile points.new ways.new places.new) (layout_in layout.now) (interval_in interval.now) (grid_in x_min y_min x_max y_max)) (wire result (words.new ∷ []) [] []) }
{
    exports::mapsforge_collect(
        map, layout, letters, interval, x_min, y_min, x_max, y_max, tile, words, points, ways,
        places,
    )
}

// Feature k of a collected tile: points from 0, ways behind them. It is read from where collecting listed it, and nothing else is.
#[unsafe(no_mangle)]
pub extern "C" fn mapsforge_fetch(
    map: &[u8],
    layout: &[u64; 7],
    starts: &[u64],
    letters: &[u8],
    places: &[u64],
    points: u64,
    ways: u64,
    feature: u64,
    node_counts: &mut [u64],
    latitudes: &mut [f64],
    longitudes: &mut [f64],
    initial_latitudes: &mut [f64],
    initial_longitudes: &mut [f64],
    buffer: &mut [u8],
    words: &mut [u64; 37],
    signed_words: &mut [i64; 2],
    degrees: &mut [f64; 2],
    ids: &mut [u64; 15],
    tags: &mut [u64; 75],
) -> u64
    ensures { Crosses (fetch_wire (lending (words.old ∷ ids.old ∷ tags.old ∷ []) signed_words.old degrees.old)) (FeatureOf map.now starts.now letters.now places.now points ways feature (lent_all node_counts.old latitudes.old longitudes.old initial_latitudes.old initial_longitudes.old buffer.old) (lent_all node_counts.new latitudes.new longitudes.new initial_latitudes.new initial_longitudes.new buffer.new) (layout_in layout.now)) (wire result (words.new ∷ ids.new ∷ tags.new ∷ []) signed_words.new degrees.new) }
{
    exports::mapsforge_fetch(
        map,
        layout,
        starts,
        letters,
        places,
        points,
        ways,
        feature,
        node_counts,
        latitudes,
        longitudes,
        initial_latitudes,
        initial_longitudes,
        buffer,
        words,
        signed_words,
        degrees,
        ids,
        tags,
    )
}

// A way's data from a place on: the numbers of blocks and nodes, and the place behind them.
#[unsafe(no_mangle)]
pub extern "C" fn mapsforge_measure_way_data(
    map: &[u8],
    at: usize,
    data_blocks: u64,
    words: &mut [u64; 10],
) -> u64
    ensures { Crosses (way_data_wire (lending (words.old ∷ []) [] [])) (λ a. read_res a ≡ map_res way_sizes (way_data data_blocks map.now at)) (wire result (words.new ∷ []) [] []) }
{
    exports::mapsforge_measure_way_data(map, at, data_blocks, words)
}

// The same, and the nodes to the fronts of three lists.
#[unsafe(no_mangle)]
pub extern "C" fn mapsforge_read_way_data(
    map: &[u8],
    at: usize,
    data_blocks: u64,
    double_delta: bool,
    node_counts: &mut [u64],
    latitudes: &mut [f64],
    longitudes: &mut [f64],
    words: &mut [u64; 10],
) -> u64
    ensures { Crosses (data_written_wire (lending (words.old ∷ []) [] [])) (λ a. reply a node_counts.new latitudes.new longitudes.new ≡ read_way_data double_delta (way_data data_blocks map.now at) node_counts.old latitudes.old longitudes.old) (wire result (words.new ∷ []) [] []) }
{
    exports::mapsforge_read_way_data(
        map,
        at,
        data_blocks,
        double_delta,
        node_counts,
        latitudes,
        longitudes,
        words,
    )
}

// Checks showing rules, each of four bytes, for a map with so many way tags, and fills the table with the class of each tag and zoom.
#[unsafe(no_mangle)]
pub extern "C" fn mapsforge_check_rules(
    rules: &[u8],
    way_tags: u16,
    classes: &mut [u8],
    words: &mut [u64; 6],
) -> u64
    ensures { Crosses (checked_wire (lending (words.old ∷ []) [] [])) (RulesOf way_tags rules.now classes.old classes.new) (wire result (words.new ∷ []) [] []) }
{
    exports::mapsforge_check_rules(rules, way_tags, classes, words)
}

// Whether a way with these tag ids is accepted at a zoom, by a table that a check of rules filled.
#[unsafe(no_mangle)]
pub extern "C" fn mapsforge_shows(
    classes: &[u8],
    zoom: u8,
    ids: &[u64],
    words: &mut [u64; 7],
) -> u64
    ensures { Crosses (shown_wire (lending (words.old ∷ []) [] [])) (λ b. b ≡ shown classes.now zoom ids.now) (wire result (words.new ∷ []) [] []) }
{
    exports::mapsforge_shows(classes, zoom, ids, words)
}

// What a tile's stream at a zoom will want, by a list of decisions: byte j decides way j, 0 declines it, and behind the end ways are declined.
#[unsafe(no_mangle)]
pub extern "C" fn mapsforge_wanted(
    map: &[u8],
    layout: &[u64; 7],
    letters: &[u8],
    interval: &[u64; 6],
    x_min: i32,
    y_min: i32,
    x_max: i32,
    y_max: i32,
    tile: usize,
    zoom: u8,
    decisions: &[u8],
    words: &mut [u64; 11],
) -> u64
    ensures { Crosses (wanted_wire (lending (words.old ∷ []) [] [])) (WantedOf map.now letters.now decisions.now tile zoom (layout_in layout.now) (interval_in interval.now) (grid_in x_min y_min x_max y_max)) (wire result (words.new ∷ []) [] []) }
{
    exports::mapsforge_wanted(
        map, layout, letters, interval, x_min, y_min, x_max, y_max, tile, zoom, decisions, words,
    )
}
