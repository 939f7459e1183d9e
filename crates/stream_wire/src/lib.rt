// What a stream answers, as words for programs in other languages. An answer writes its own words; the others keep their values.
#![tactic(auto)]

ghost use Rattle.std.specs.Prelude.{◌≡◌, List, [], ◌∷◌, ℕ, ℤ, Float};
ghost use Rattle.std.proofs.lemmas.List.Edits.{sets};
ghost use Rattle.wire.specs.Wire.{wire, lending};
ghost use Rattle.wire.specs.Elevation.{metre_words};
ghost use Rattle.quick_next.specs.QuickNext.{way_step, point_step, end_step};
ghost use Rattle.stream_wire.specs.Streams.{stream_words, turn_in, stream_in, selection_in, goes_past, opened_wire, put_point, put_head, put_end, put_body, next_wire, accept_wire, decline_wire};

use error::{LentRefusal, Refusal};
use poi::Poi;
use quick_next::{PointStep, WayStep};
use selection::Selection;
use tagged::TagIds;
use visit::{
    Answered, Given, Remaining, Stream, StreamedBody, StreamedHead, TileEnd, Turn, WaitingWay,
};

fn turn_in(words: [u64; 8]) -> Turn
    ensures { result ≡ turn_in words }
{
    if 0 < words[0] {
        return Turn::Waits(WaitingWay {
            ways: words[2],
            past: words[1] as usize,
            body: words[3] as usize,
            head_plain: 0 < words[4],
        });
    }
    Turn::Idle(Remaining {
        points: words[1],
        ways: words[2],
        at: words[3] as usize,
        way: words[4] as usize,
    })
}

pub fn stream_in(words: [u64; 8]) -> Stream
    ensures { result ≡ stream_in words }
{
    let turn = turn_in(words);
    let end = TileEnd {
        sub_file: words[6] as usize,
        is_water: 0 < words[5],
        plain: 0 < words[7],
    };
    Stream { turn, end }
}

// Which ways are selected; of the mask 16 bits count, of the zoom 8.
pub fn selection_in(words: [u64; 4]) -> Selection
    ensures { result ≡ selection_in words }
{
    Selection {
        by_window: 0 < words[0],
        mask: (words[1] % 65536) as u16,
        by_rules: 0 < words[2],
        zoom: (words[3] % 256) as u8,
    }
}

// Whether these are the words of a next that gave a way that is not selected.
pub fn goes_past(
    number: u64,
    words: &[u64; 22],
    ids: &[u64; 15],
    selection: Selection,
    classes: &[u8],
) -> bool
    ensures { result ≡ goes_past selection classes.now number words.now ids.now }
{
    if number != 0 {
        return false;
    }
    if words[6] != 1 {
        return false;
    }
    let tags = TagIds {
        ids: *ids,
        count: words[7] as usize,
    };
    !selection::is_selected(selection, classes, (words[18] % 65536) as u16, tags)
}

// A stream, in eight words.
fn put_stream(stream: Stream, state: &mut [u64; 8])
    ensures { state.new ≡ sets state.old 0 (stream_words stream) }
{
    let end = stream.end;
    let water = u64::from(end.is_water);
    let plain = u64::from(end.plain);
    let turn = stream.turn;
    match turn {
        Turn::Idle(r) => {
            state[0] = 0;
            state[1] = r.points;
            state[2] = r.ways;
            state[3] = r.at as u64;
            state[4] = r.way as u64;
            state[5] = water;
            state[6] = end.sub_file as u64;
            state[7] = plain;
        }
        Turn::Waits(w) => {
            let head = u64::from(w.head_plain);
            state[0] = 1;
            state[1] = w.past as u64;
            state[2] = w.ways;
            state[3] = w.body as u64;
            state[4] = head;
            state[5] = water;
            state[6] = end.sub_file as u64;
            state[7] = plain;
        }
    }
}

// The stream that was opened.
pub fn put_opened(got: Result<Stream, Refusal>, words: &mut [u64; 6], state: &mut [u64; 8]) -> u64
    ensures { wire result (words.new ∷ state.new ∷ []) [] [] ≡ opened_wire (lending (words.old ∷ state.old ∷ []) [] []) got }
{
    match got {
        Ok(s) => {
            put_stream(s, state);
            0
        }
        Err(r) => wire::put_refusal(r, words),
    }
}

// A point's layer and elevation.
fn put_signs(layer: i8, elevation: Option<i32>, signed_words: &mut [i64; 2])
    ensures { signed_words.new ≡ sets signed_words.old 0 (layer ∷ (metre_words elevation).metres ∷ []) }
{
    let elevation = wire::metre_words(elevation);
    signed_words[0] = i64::from(layer);
    signed_words[1] = elevation.metres;
}

// A point: its texts and where it lies.
fn put_point(
    poi: Poi,
    words: &mut [u64; 22],
    signed_words: &mut [i64; 2],
    degrees: &mut [f64; 2],
    ids: &mut [u64; 15],
)
    ensures { wire 0 (words.new ∷ ids.new ∷ []) signed_words.new degrees.new ≡ put_point poi (lending (words.old ∷ ids.old ∷ []) signed_words.old degrees.old) }
{
    let signature = wire::span_words(poi.signature);
    let name = wire::span_words(poi.name);
    let house = wire::span_words(poi.house_number);
    let elevation = wire::metre_words(poi.elevation);
    let position = poi.position;
    let tags = poi.tag_ids;
    let plain = u64::from(poi.plain);
    words[6] = 0;
    words[7] = tags.count as u64;
    words[8] = signature.present;
    words[9] = signature.start;
    words[10] = signature.size;
    words[11] = name.present;
    words[12] = name.start;
    words[13] = name.size;
    words[14] = house.present;
    words[15] = house.start;
    words[16] = house.size;
    words[17] = elevation.present;
    words[21] = plain;
    put_signs(poi.layer, poi.elevation, signed_words);
    degrees[0] = position.latitude;
    degrees[1] = position.longitude;
    let row = tags.ids;
    *ids = row;
}

// The head of a way.
fn put_head(
    head: StreamedHead,
    words: &mut [u64; 22],
    signed_words: &mut [i64; 2],
    ids: &mut [u64; 15],
)
    ensures { wire 0 (words.new ∷ ids.new ∷ []) signed_words.new [] ≡ put_head head (lending (words.old ∷ ids.old ∷ []) signed_words.old []) }
{
    let tags = head.tag_ids;
    let layer = i64::from(head.layer);
    let plain = u64::from(head.plain);
    words[6] = 1;
    words[7] = tags.count as u64;
    words[18] = head.bitmap as u64;
    words[21] = plain;
    signed_words[0] = layer;
    let row = tags.ids;
    *ids = row;
}

// The end, and the stream as it stays.
pub fn put_end_step(said: TileEnd, stream: Stream, state: &mut [u64; 8], words: &mut [u64; 22])
    ensures { (ids : List ℕ) (signs : List ℤ) (place : List Float) → wire 0 (words.new ∷ ids ∷ state.new ∷ []) signs place ≡ next_wire (lending (words.old ∷ ids ∷ state.old ∷ []) signs place) (end_step said «stream») }
{
    put_end(said, words);
    put_stream(stream, state);
}

// A way's head that a quick read gave, but for its tag ids, and the state in which it waits.
pub fn put_way_step(
    step: WayStep,
    state: &mut [u64; 8],
    words: &mut [u64; 22],
    signed_words: &mut [i64; 2],
)
    ensures { (ids before : List ℕ) (place : List Float) → wire 0 (words.new ∷ ids ∷ state.new ∷ []) signed_words.new place ≡ next_wire (lending (words.old ∷ before ∷ state.old ∷ []) signed_words.old place) (way_step step ids) }
{
    let layer = i64::from(step.layer);
    words[6] = 1;
    words[7] = step.count as u64;
    words[18] = step.bitmap as u64;
    words[21] = 1;
    signed_words[0] = layer;
    let stream = step.stream;
    put_stream(stream, state);
}

// A point that a quick read gave, but for its tag ids, and the state behind it.
pub fn put_point_step(
    step: PointStep,
    state: &mut [u64; 8],
    words: &mut [u64; 22],
    signed_words: &mut [i64; 2],
    degrees: &mut [f64; 2],
)
    ensures { (ids before : List ℕ) → wire 0 (words.new ∷ ids ∷ state.new ∷ []) signed_words.new degrees.new ≡ next_wire (lending (words.old ∷ before ∷ state.old ∷ []) signed_words.old degrees.old) (point_step step ids) }
{
    let name = wire::span_words(step.name);
    let house = wire::span_words(step.house_number);
    let elevation = wire::metre_words(step.elevation);
    let position = step.position;
    words[6] = 0;
    words[7] = step.count as u64;
    words[8] = 0;
    words[9] = 0;
    words[10] = 0;
    words[11] = name.present;
    words[12] = name.start;
    words[13] = name.size;
    words[14] = house.present;
    words[15] = house.start;
    words[16] = house.size;
    words[17] = elevation.present;
    words[21] = 1;
    put_signs(step.layer, step.elevation, signed_words);
    degrees[0] = position.latitude;
    degrees[1] = position.longitude;
    let stream = step.stream;
    put_stream(stream, state);
}

fn put_end(end: TileEnd, words: &mut [u64; 22])
    ensures { wire 0 (words.new ∷ []) [] [] ≡ put_end end (lending (words.old ∷ []) [] []) }
{
    let water = u64::from(end.is_water);
    let plain = u64::from(end.plain);
    words[6] = 2;
    words[19] = end.sub_file as u64;
    words[20] = water;
    words[21] = plain;
}

// The next point, the next way's head, or the end; and the state.
pub fn put_next(
    step: Answered<Result<Given, Refusal>>,
    state: &mut [u64; 8],
    words: &mut [u64; 22],
    signed_words: &mut [i64; 2],
    degrees: &mut [f64; 2],
    ids: &mut [u64; 15],
) -> u64
    ensures { wire result (words.new ∷ ids.new ∷ state.new ∷ []) signed_words.new degrees.new ≡ next_wire (lending (words.old ∷ ids.old ∷ state.old ∷ []) signed_words.old degrees.old) step }
{
    match step.answer {
        Ok(Given::Point(poi)) => {
            put_point(poi, words, signed_words, degrees, ids);
            put_stream(step.stream, state);
            0
        }
        Ok(Given::Way(head)) => {
            put_head(head, words, signed_words, ids);
            put_stream(step.stream, state);
            0
        }
        Ok(Given::End(end)) => {
            put_end(end, words);
            put_stream(step.stream, state);
            0
        }
        Err(r) => wire::put_refusal(r, words),
    }
}

// What an accepted way has besides its nodes.
fn put_body(body: StreamedBody, words: &mut [u64; 19], degrees: &mut [f64; 2])
    ensures { wire 0 (words.new ∷ []) [] degrees.new ≡ put_body body (lending (words.old ∷ []) [] degrees.old) }
{
    let name = wire::span_words(body.name);
    let house = wire::span_words(body.house_number);
    let reference = wire::span_words(body.reference);
    let label = wire::place_words(body.label_position);
    let plain = u64::from(body.plain);
    words[6] = body.blocks;
    words[7] = body.nodes;
    words[8] = name.present;
    words[9] = name.start;
    words[10] = name.size;
    words[11] = house.present;
    words[12] = house.start;
    words[13] = house.size;
    words[14] = reference.present;
    words[15] = reference.start;
    words[16] = reference.size;
    words[17] = label.present;
    words[18] = plain;
    degrees[0] = label.latitude;
    degrees[1] = label.longitude;
}

pub fn put_accepted(
    step: Answered<Result<StreamedBody, LentRefusal>>,
    state: &mut [u64; 8],
    words: &mut [u64; 19],
    degrees: &mut [f64; 2],
) -> u64
    ensures { wire result (words.new ∷ state.new ∷ []) [] degrees.new ≡ accept_wire (lending (words.old ∷ state.old ∷ []) [] degrees.old) step }
{
    match step.answer {
        Ok(body) => {
            put_body(body, words, degrees);
            put_stream(step.stream, state);
            0
        }
        Err(r) => wire::put_lent_refusal(r, words),
    }
}

pub fn put_declined(
    step: Answered<Result<(), Refusal>>,
    state: &mut [u64; 8],
    words: &mut [u64; 6],
) -> u64
    ensures { wire result (words.new ∷ state.new ∷ []) [] [] ≡ decline_wire (lending (words.old ∷ state.old ∷ []) [] []) step }
{
    match step.answer {
        Ok(()) => {
            put_stream(step.stream, state);
            0
        }
        Err(r) => wire::put_refusal(r, words),
    }
}
