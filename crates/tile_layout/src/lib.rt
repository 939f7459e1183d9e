// types.rs: what a tile's features need of the header. It is passed at each call, since the header is 6 KB. Which tags there are is said by
// entries of the listed tag strings: the point tags' come first, then the way tags'.
#![tactic(auto)]

ghost use Rattle.std.specs.Prelude.{◌≡◌};
ghost use Rattle.tile_layout.specs.TileLayout.{layout_with, layout_of};

use types::{MapHeader, TagRange, TagTable};

#[derive(Clone, Copy)]
pub struct TileLayout {
    pub poi_tags: TagRange,
    pub way_tags: TagRange,
    pub debug: bool,
}

// What says how a tile's features are read: their layout, and the letter of each listed tag's inline value, as opening listed them.
#[derive(Clone, Copy)]
pub struct TileFormat<'a> {
    pub layout: TileLayout,
    pub letters: &'a [u8],
}

// The lists that opening filled: where the text of each tag starts, and the letter of its inline value.
#[derive(Clone, Copy)]
pub struct TagLists<'a> {
    pub starts: &'a [u64],
    pub letters: &'a [u8],
}

// By the header's flags (80 is a debug map) and tag tables.
pub fn layout_with(flags: u8, poi_tags: TagTable, way_tags: TagTable) -> TileLayout
    ensures { result ≡ layout_with flags poi_tags way_tags }
{
    let points = poi_tags.count;
    TileLayout {
        debug: flags / 128 % 2 == 1,
        poi_tags: TagRange {
            first: 0,
            count: points,
        },
        way_tags: TagRange {
            first: points,
            count: way_tags.count,
        },
    }
}

pub fn layout_of(header: MapHeader) -> TileLayout
    ensures { result ≡ layout_of header }
{
    layout_with(header.flags, header.poi_tags, header.way_tags)
}
