// What is handed out of a fetched feature: records, and their definitions in specs/. No code.
#![tactic(auto)]

use byte_source::Span;
use tag::Tag;
use tagged::TagIds;
use types::Position;

// A text in the lent buffer: its length there, and the tag that is made of it.
#[derive(Clone, Copy)]
pub struct TagText {
    pub len: usize,
    pub tag: Tag,
}

// The texts of a feature in the order of the buffer: one for each tag id, from the front, empty ones behind them; then the others. A
// text that is absent takes no room. An array, since they are handed out by value and there is no heap.
#[derive(Clone, Copy)]
pub struct FeatureTexts {
    pub tags: [TagText; 15],
    pub name: Option<TagText>,
    pub house_number: Option<TagText>,
    pub reference: Option<TagText>,
}

// A fetched point. Its signature is a raw part of the map. `plain`: whether every number of it was.
#[derive(Clone, Copy)]
pub struct FetchedPoi {
    pub signature: Option<Span>,
    pub position: Position,
    pub tag_ids: TagIds,
    pub texts: FeatureTexts,
    pub elevation: Option<i32>,
    pub layer: i8,
    pub plain: bool,
}

// A fetched way. `blocks` and `nodes` count what stands in the lent lists. `plain`: whether every number of it was; `head_plain`: of its
// head, as a stream's next says.
#[derive(Clone, Copy)]
pub struct FetchedWay {
    pub signature: Option<Span>,
    pub tag_ids: TagIds,
    pub texts: FeatureTexts,
    pub label_position: Option<Position>,
    pub blocks: u64,
    pub nodes: u64,
    pub bitmap: u16,
    pub layer: i8,
    pub double_delta: bool,
    pub plain: bool,
    pub head_plain: bool,
}

// A feature that is fetched by its number in a tile.
#[derive(Clone, Copy)]
pub enum Feature {
    Point(FetchedPoi),
    Way(FetchedWay),
}
