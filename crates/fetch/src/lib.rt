// tile.rs: a feature of a collected tile, by its number: points from 0, ways behind them. It is read from where collecting listed it.
#![tactic(auto)]

ghost use Rattle.std.specs.Prelude.{◌≡◌};
ghost use Rattle.index.specs.Answers.{answer_res};
ghost use Rattle.fetch_way.specs.FetchWay.{lent};
ghost use Rattle.fetch.specs.Fetch.{listed_place, fetch_listed, FeatureIs};

use error::{LentRefusal, Refusal};
use fetched::Feature;
use tile_layout::{TagLists, TileLayout};

// Where a point starts, or a way; its signature's place in debug maps.
#[derive(Clone, Copy)]
enum FeaturePlace {
    Point(usize),
    Way(usize),
}

// Feature k by the list that collecting filled: points from 0, ways behind them. 17 for a number at or above the count or the list's length.
fn listed_place(
    places: &[u64],
    points: u64,
    ways: u64,
    feature: u64,
) -> Result<FeaturePlace, Refusal>
    ensures { answer_res result ≡ listed_place places.now points ways feature }
{
    if places.len() as u64 <= feature {
        return Err(Refusal::InvalidFeature);
    }
    let at = places[feature as usize] as usize;
    if feature < points {
        return Ok(FeaturePlace::Point(at));
    }
    if ways <= feature - points {
        return Err(Refusal::InvalidFeature);
    }
    Ok(FeaturePlace::Way(at))
}

// `places`, `points` and `ways` are what collecting the tile gave; only this feature is read. 17 for a number at or above the count of
// features or the list's length, before reading; 15 last, with every length needed, if a list or the buffer is too short. A point's texts
// go to the buffer; a way's node counts, latitudes and longitudes go to the first three lists, its blocks' initial latitudes and longitudes
// to the others. A refusal leaves them all alone.
// Each list is a parameter: of a struct of &muts every function would have to promise, too, that its fields are the same lists.
pub fn fetch_feature(
    map: &[u8],
    layout: TileLayout,
    lists: TagLists<'_>,
    places: &[u64],
    points: u64,
    ways: u64,
    feature: u64,
    node_counts: &mut [u64],
    latitudes: &mut [f64],
    longitudes: &mut [f64],
    initial_latitudes: &mut [f64],
    initial_longitudes: &mut [f64],
    buffer: &mut [u8],
) -> Result<Feature, LentRefusal>
    ensures { FeatureIs (fetch_listed layout lists.entry.starts.now lists.entry.letters.now places.now points ways feature map.now) (lent node_counts.old latitudes.old longitudes.old initial_latitudes.old initial_longitudes.old buffer.old) result (lent node_counts.new latitudes.new longitudes.new initial_latitudes.new initial_longitudes.new buffer.new) }
{
    let place = listed_place(places, points, ways, feature)?;
    match place {
        FeaturePlace::Point(at) => {
            let (poi, _) = fetch_poi::fetch_poi(
                map,
                at,
                layout.debug,
                lists,
                layout.poi_tags,
                buffer,
            )?;
            Ok(Feature::Point(poi))
        }
        FeaturePlace::Way(at) => {
            let (way, _) = fetch_way::fetch_way(
                map,
                at,
                layout.debug,
                lists,
                layout.way_tags,
                node_counts,
                latitudes,
                longitudes,
                initial_latitudes,
                initial_longitudes,
                buffer,
            )?;
            Ok(Feature::Way(way))
        }
    }
}
