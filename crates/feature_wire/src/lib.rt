// What a collected tile and a fetched feature answer, as words for programs in other languages. An answer writes its own words; the others
// keep their values.
#![tactic(auto)]

ghost use Rattle.std.specs.Prelude.{◌≡◌, [], ◌∷◌};
ghost use Rattle.std.proofs.lemmas.List.Edits.{sets};
ghost use Rattle.wire.specs.Wire.{wire, lending};
ghost use Rattle.wire.specs.Elevation.{metre_words};
ghost use Rattle.feature_wire.specs.Features.{put_summary, tile_wire, text_words, texts_before, tag_words, put_point, put_way, fetch_wire};

use error::LentRefusal;
use fetched::{Feature, FeatureTexts, FetchedPoi, FetchedWay, TagText};
use tile::TileSummary;

// What is said of a collected tile.
fn put_summary(summary: TileSummary, words: &mut [u64; 15])
    ensures { wire 0 (words.new ∷ []) [] [] ≡ put_summary summary (lending (words.old ∷ []) [] []) }
{
    let signature = wire::span_words(summary.signature);
    let exact = u64::from(summary.exact);
    let plain = u64::from(summary.plain);
    words[6] = signature.present;
    words[7] = signature.start;
    words[8] = signature.size;
    words[9] = summary.rows as u64;
    words[10] = summary.first_way_offset;
    words[11] = summary.points;
    words[12] = summary.ways;
    words[13] = exact;
    words[14] = plain;
}

pub fn put_tile(read: Result<TileSummary, LentRefusal>, words: &mut [u64; 15]) -> u64
    ensures { wire result (words.new ∷ []) [] [] ≡ tile_wire (lending (words.old ∷ []) [] []) read }
{
    match read {
        Ok(summary) => {
            put_summary(summary, words);
            0
        }
        Err(r) => wire::put_lent_refusal(r, words),
    }
}

#[derive(Clone, Copy)]
struct TextWords {
    present: u64,
    len: u64,
    key_len: u64,
    value_len: u64,
    key_code: u64,
    value_code: u64,
}

fn text_words(text: Option<TagText>) -> TextWords
    ensures { result ≡ text_words text }
{
    match text {
        None => TextWords {
            present: 0,
            len: 0,
            key_len: 0,
            value_len: 0,
            key_code: 0,
            value_code: 0,
        },
        Some(t) => TextWords {
            present: 1,
            len: t.len as u64,
            key_len: t.tag.key_len as u64,
            value_len: t.tag.value_len as u64,
            key_code: t.tag.key_code,
            value_code: t.tag.value_code,
        },
    }
}

// Name, house number and reference.
fn put_texts(texts: FeatureTexts, words: &mut [u64; 37])
    ensures { words.new ≡ sets words.old 11 (texts_before texts []) }
{
    let n = text_words(texts.name);
    let h = text_words(texts.house_number);
    let r = text_words(texts.reference);
    words[11] = n.present;
    words[12] = n.len;
    words[13] = n.key_len;
    words[14] = n.value_len;
    words[15] = n.key_code;
    words[16] = n.value_code;
    words[17] = h.present;
    words[18] = h.len;
    words[19] = h.key_len;
    words[20] = h.value_len;
    words[21] = h.key_code;
    words[22] = h.value_code;
    words[23] = r.present;
    words[24] = r.len;
    words[25] = r.key_len;
    words[26] = r.value_len;
    words[27] = r.key_code;
    words[28] = r.value_code;
}

// Five words for each tag. By number: a chunk of five words would be written by number too.
fn put_tags(tags: [TagText; 15], words: &mut [u64; 75])
    ensures { words.new ≡ tag_words tags }
{
    for i in 0..15 {
        let text = tags[i];
        let at = 5 * i;
        words[at] = text.len as u64;
        words[at + 1] = text.tag.key_len as u64;
        words[at + 2] = text.tag.value_len as u64;
        words[at + 3] = text.tag.key_code;
        words[at + 4] = text.tag.value_code;
    }
}

// A point's layer and elevation.
fn put_signs(poi: FetchedPoi, signed_words: &mut [i64; 2])
    ensures { signed_words.new ≡ sets signed_words.old 0 (poi.layer ∷ (metre_words poi.elevation).metres ∷ []) }
{
    let elevation = wire::metre_words(poi.elevation);
    signed_words[0] = i64::from(poi.layer);
    signed_words[1] = elevation.metres;
}

fn put_point(
    poi: FetchedPoi,
    words: &mut [u64; 37],
    signed_words: &mut [i64; 2],
    degrees: &mut [f64; 2],
    ids: &mut [u64; 15],
    tags: &mut [u64; 75],
)
    ensures { wire 0 (words.new ∷ ids.new ∷ tags.new ∷ []) signed_words.new degrees.new ≡ put_point poi (lending (words.old ∷ ids.old ∷ tags.old ∷ []) signed_words.old degrees.old) }
{
    let signature = wire::span_words(poi.signature);
    let elevation = wire::metre_words(poi.elevation);
    let plain = u64::from(poi.plain);
    words[6] = 0;
    words[7] = poi.tag_ids.count as u64;
    words[8] = signature.present;
    words[9] = signature.start;
    words[10] = signature.size;
    put_texts(poi.texts, words);
    words[29] = elevation.present;
    words[35] = plain;
    put_signs(poi, signed_words);
    degrees[0] = poi.position.latitude;
    degrees[1] = poi.position.longitude;
    let row = poi.tag_ids.ids;
    *ids = row;
    put_tags(poi.texts.tags, tags);
}

fn put_layer(way: FetchedWay, signed_words: &mut [i64; 2])
    ensures { signed_words.new ≡ sets signed_words.old 0 (way.layer ∷ []) }
{
    signed_words[0] = i64::from(way.layer);
}

// What a fetched way has besides its nodes.
fn put_way(
    way: FetchedWay,
    words: &mut [u64; 37],
    signed_words: &mut [i64; 2],
    degrees: &mut [f64; 2],
    ids: &mut [u64; 15],
    tags: &mut [u64; 75],
)
    ensures { wire 0 (words.new ∷ ids.new ∷ tags.new ∷ []) signed_words.new degrees.new ≡ put_way way (lending (words.old ∷ ids.old ∷ tags.old ∷ []) signed_words.old degrees.old) }
{
    let signature = wire::span_words(way.signature);
    let label = wire::place_words(way.label_position);
    let double_delta = u64::from(way.double_delta);
    let plain = u64::from(way.plain);
    let head_plain = u64::from(way.head_plain);
    words[6] = 1;
    words[7] = way.tag_ids.count as u64;
    words[8] = signature.present;
    words[9] = signature.start;
    words[10] = signature.size;
    put_texts(way.texts, words);
    words[30] = way.bitmap as u64;
    words[31] = double_delta;
    words[32] = way.blocks;
    words[33] = way.nodes;
    words[34] = label.present;
    words[35] = plain;
    words[36] = head_plain;
    put_layer(way, signed_words);
    degrees[0] = label.latitude;
    degrees[1] = label.longitude;
    let row = way.tag_ids.ids;
    *ids = row;
    put_tags(way.texts.tags, tags);
}

pub fn put_fetch(
    fetch: Result<Feature, LentRefusal>,
    words: &mut [u64; 37],
    signed_words: &mut [i64; 2],
    degrees: &mut [f64; 2],
    ids: &mut [u64; 15],
    tags: &mut [u64; 75],
) -> u64
    ensures { wire result (words.new ∷ ids.new ∷ tags.new ∷ []) signed_words.new degrees.new ≡ fetch_wire (lending (words.old ∷ ids.old ∷ tags.old ∷ []) signed_words.old degrees.old) fetch }
{
    match fetch {
        Ok(Feature::Point(poi)) => {
            put_point(poi, words, signed_words, degrees, ids, tags);
            0
        }
        Ok(Feature::Way(way)) => {
            put_way(way, words, signed_words, degrees, ids, tags);
            0
        }
        Err(r) => wire::put_lent_refusal(r, words),
    }
}
