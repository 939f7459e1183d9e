// way.rs and tag.rs: a way as a fetch gives it, its nodes and its blocks' initial positions in lent lists, its texts in a lent buffer.
#![tactic(auto)]

ghost use Rattle.std.specs.Prelude.{◌≡◌, ◌≤◌, length};
ghost use Rattle.measured_way.specs.MeasuredWay.{way_stored};
ghost use Rattle.fetch_way.specs.FetchWay.{lent, WayFetchIs, texts_written};

use error::{Lengths, LentRefusal};
use fetched::FetchedWay;
use measured_way::TextPlan;
use tile_layout::TagLists;
use types::TagRange;

// The planned texts in the buffer.
fn write_texts(map: &[u8], starts: &[u64], plan: TextPlan, buffer: &mut [u8])
    requires { plan.tag_ids.count ≤ length plan.tag_ids.ids }
    ensures { buffer.new ≡ texts_written starts.now map.now plan buffer.old }
{
    let ids = plan.tag_ids.ids;
    let count = plan.tag_ids.count;
    feature_texts::write_texts(map, starts, &ids[..count], plan.parts, buffer);
}

// The way at a place. Refused as it is read; then 15 with every length needed if a list or the buffer is too short.
// Each list is a parameter: of a struct of &muts every function would have to promise, too, that its fields are the same lists.
pub fn fetch_way(
    map: &[u8],
    at: usize,
    debug: bool,
    lists: TagLists<'_>,
    tags: TagRange,
    node_counts: &mut [u64],
    latitudes: &mut [f64],
    longitudes: &mut [f64],
    initial_latitudes: &mut [f64],
    initial_longitudes: &mut [f64],
    buffer: &mut [u8],
) -> Result<(FetchedWay, usize), LentRefusal>
    ensures { WayFetchIs (way_stored debug lists.entry.starts.now lists.entry.letters.now tags map.now at) (lent node_counts.old latitudes.old longitudes.old initial_latitudes.old initial_longitudes.old buffer.old) result (lent node_counts.new latitudes.new longitudes.new initial_latitudes.new initial_longitudes.new buffer.new) }
{
    let room = Lengths {
        list1: node_counts.len() as u64,
        list2: latitudes.len() as u64,
        list3: longitudes.len() as u64,
        list4: initial_latitudes.len() as u64,
        list5: initial_longitudes.len() as u64,
        buffer: buffer.len() as u64,
    };
    let (measured, next) = measured_way::measure_way(map, at, debug, lists, tags, room)?;
    way_lists::write_lists(
        map,
        Some(measured.lists),
        node_counts,
        latitudes,
        longitudes,
        initial_latitudes,
        initial_longitudes,
    );
    write_texts(map, lists.starts, measured.texts, buffer);
    Ok((measured.way, next))
}
