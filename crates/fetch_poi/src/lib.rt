// poi.rs and tag.rs: a point as a fetch gives it, its texts in a lent buffer.
#![tactic(auto)]

ghost use Rattle.std.specs.Prelude.{◌≡◌};
ghost use Rattle.fetch_poi.specs.FetchPoi.{poi_parts, poi_with, poi_stored, PoiFetchIs, PoiWritten};

use error::LentRefusal;
use feature_texts::TextParts;
use fetched::{FeatureTexts, FetchedPoi};
use poi::Poi;
use tile_layout::TagLists;
use types::TagRange;

// What the texts of a point are made of.
fn poi_parts(poi: Poi, tags: TagRange) -> TextParts
    ensures { result ≡ poi_parts poi tags }
{
    TextParts {
        tags,
        name: poi.name,
        house_number: poi.house_number,
        reference: None,
    }
}

fn poi_with(poi: Poi, texts: FeatureTexts) -> FetchedPoi
    ensures { result ≡ poi_with poi texts }
{
    FetchedPoi {
        signature: poi.signature,
        position: poi.position,
        layer: poi.layer,
        tag_ids: poi.tag_ids,
        texts,
        elevation: poi.elevation,
        plain: poi.plain,
    }
}

// A point with these tag ids that ends at `next`: its texts go to the front of the buffer.
fn write_poi(
    map: &[u8],
    poi: Poi,
    ids: &[u64],
    next: usize,
    starts: &[u64],
    tags: TagRange,
    buffer: &mut [u8],
) -> Result<(FetchedPoi, usize), LentRefusal>
    ensures { PoiWritten starts.now tags poi ids.now next map.now buffer.old result buffer.new }
{
    let parts = poi_parts(poi, tags);
    let len = feature_texts::texts_len(map, starts, ids, parts);
    if buffer.len() < len {
        return Err(error::short_buffer(len as u64));
    }
    feature_texts::write_texts(map, starts, ids, parts, buffer);
    let texts = feature_tags::texts_of(map, starts, ids, parts);
    Ok((poi_with(poi, texts), next))
}

// The point at a place. Refused as it is read; then 15 if the buffer is too short for its texts.
pub fn fetch_poi(
    map: &[u8],
    at: usize,
    debug: bool,
    lists: TagLists<'_>,
    tags: TagRange,
    buffer: &mut [u8],
) -> Result<(FetchedPoi, usize), LentRefusal>
    ensures { PoiFetchIs (poi_stored debug lists.entry.starts.now lists.entry.letters.now tags map.now at) buffer.old result buffer.new }
{
    let (poi, next) = poi::read_poi(map, at, debug, lists.letters, tags)?;
    let ids = poi.tag_ids.ids;
    let count = poi.tag_ids.count;
    write_poi(map, poi, &ids[..count], next, lists.starts, tags, buffer)
}
