// way.rs and tag.rs: a way as a fetch tells of it, and whether lists of given lengths have room for it. Nothing is written yet.
#![tactic(auto)]

ghost use Rattle.std.specs.Prelude.{◌≡◌, not};
ghost use Rattle.measured_way.specs.MeasuredWay.{way_parts, way_with, roomy, too_short, MeasuredIs, BodyMeasured, WayTold};

use error::{Lengths, LentRefusal};
use feature_texts::TextParts;
use fetched::{FeatureTexts, FetchedWay};
use tagged::TagIds;
use tile_layout::TagLists;
use types::TagRange;
use way::WayBody;
use way_head::WayHead;
use way_lists::ListPlan;

// What a way's texts are made of.
#[derive(Clone, Copy)]
pub struct TextPlan {
    pub tag_ids: TagIds,
    pub parts: TextParts,
}

// A way, with what is to be written of it.
#[derive(Clone, Copy)]
pub struct MeasuredWay {
    pub way: FetchedWay,
    pub texts: TextPlan,
    pub lists: ListPlan,
}

// What the texts of a way are made of.
fn way_parts(body: WayBody, tags: TagRange) -> TextParts
    ensures { result ≡ way_parts body tags }
{
    TextParts {
        tags,
        name: body.name,
        house_number: body.house_number,
        reference: body.reference,
    }
}

fn way_with(head: WayHead, body: WayBody, texts: FeatureTexts) -> FetchedWay
    ensures { result ≡ way_with head body texts }
{
    FetchedWay {
        signature: head.signature,
        bitmap: head.bitmap,
        layer: head.layer,
        tag_ids: head.tag_ids,
        texts,
        label_position: body.label_position,
        double_delta: body.double_delta,
        blocks: body.blocks,
        nodes: body.nodes,
        plain: head.plain & body.plain,
        head_plain: head.plain,
    }
}

// Whether a list, or the buffer, is shorter than what goes to it.
fn is_short(blocks: u64, nodes: u64, texts: u64, room: Lengths) -> bool
    ensures { result ≡ not (roomy blocks nodes texts room) }
{
    room.list1 < blocks
        || room.list2 < nodes
        || room.list3 < nodes
        || room.list4 < blocks
        || room.list5 < blocks
        || room.buffer < texts
}

// The refusal that gives every length needed.
fn too_short(blocks: u64, nodes: u64, texts: u64) -> LentRefusal
    ensures { result ≡ too_short blocks nodes texts }
{
    LentRefusal::Short(Lengths {
        list1: blocks,
        list2: nodes,
        list3: nodes,
        list4: blocks,
        list5: blocks,
        buffer: texts,
    })
}

// A way with this head, these tag ids and this body, which starts at `start` and ends at `next`.
fn tell_way(
    map: &[u8],
    head: WayHead,
    body: WayBody,
    ids: &[u64],
    start: usize,
    next: usize,
    starts: &[u64],
    tags: TagRange,
    room: Lengths,
) -> Result<(MeasuredWay, usize), LentRefusal>
    ensures { WayTold starts.now tags head body ids.now start next room map.now result }
{
    let parts = way_parts(body, tags);
    let len = feature_texts::texts_len(map, starts, ids, parts);
    if is_short(body.blocks, body.nodes, len as u64, room) {
        return Err(too_short(body.blocks, body.nodes, len as u64));
    }
    let texts = feature_tags::texts_of(map, starts, ids, parts);
    let measured = MeasuredWay {
        way: way_with(head, body, texts),
        texts: TextPlan {
            tag_ids: head.tag_ids,
            parts,
        },
        lists: ListPlan {
            start,
            blocks: body.blocks as usize,
        },
    };
    Ok((measured, next))
}

// The rest of a way with this head and these tag ids, whose body starts at `start`.
fn measure_body(
    map: &[u8],
    head: WayHead,
    ids: &[u64],
    start: usize,
    starts: &[u64],
    tags: TagRange,
    room: Lengths,
) -> Result<(MeasuredWay, usize), LentRefusal>
    ensures { BodyMeasured starts.now tags head ids.now start room map.now result }
{
    let (body, next) = way::measure_way_body(map, start)?;
    tell_way(map, head, body, ids, start, next, starts, tags, room)
}

// The way at a place. Refused as it is read; then 15, with every length needed, if one of these lengths is too short.
pub fn measure_way(
    map: &[u8],
    at: usize,
    debug: bool,
    lists: TagLists<'_>,
    tags: TagRange,
    room: Lengths,
) -> Result<(MeasuredWay, usize), LentRefusal>
    ensures { MeasuredIs debug lists.entry.starts.now lists.entry.letters.now tags room map.now at result }
{
    let (head, start) = way_head::read_way_head(map, at, debug, lists.letters, tags)?;
    let ids = head.tag_ids.ids;
    let count = head.tag_ids.count;
    measure_body(map, head, &ids[..count], start, lists.starts, tags, room)
}
