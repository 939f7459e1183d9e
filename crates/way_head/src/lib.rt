// way.rs: a way up to its tag values, which is all that is known of a way that is declined.
#![tactic(auto)]

ghost use Rattle.std.specs.Prelude.{◌≡◌};
ghost use Rattle.parsing.specs.Parse.{map_res};
ghost use Rattle.byte_source.specs.Answers.{read_res};
ghost use Rattle.format.specs.Tile.{head};
ghost use Rattle.tag_table.specs.Tables.{kinds_by};
ghost use Rattle.way_head.specs.WayHead.{head_of};

use byte_source::{Read, Span};
use tagged::TagIds;
use types::TagRange;

// The size is counted from `start`, the byte behind the size field. `plain`: whether the encodings of all numbers were plain.
#[derive(Clone, Copy)]
pub struct WayHead {
    pub signature: Option<Span>,
    pub size: u64,
    pub start: usize,
    pub tag_ids: TagIds,
    pub bitmap: u16,
    pub layer: i8,
    pub plain: bool,
}

// Signature, size, tile bitmap, layer and tags; the tag values are skipped. The way's body starts behind it.
pub fn read_way_head(
    map: &[u8],
    at: usize,
    debug: bool,
    letters: &[u8],
    tags: TagRange,
) -> Read<WayHead>
    ensures { read_res result ≡ map_res head_of (head debug (kinds_by letters.now tags) map.now at) }
{
    let (signature, at) = fields::read_signature(map, at, debug)?;
    let (size, start) = utils::read_vbe_u_int(map, at)?;
    let (bitmap, next) = byte_source::read_u16_be(map, start)?;
    let (tagged, body) = tagged::read_tagged(map, next, letters, tags)?;
    let head = WayHead {
        signature,
        size: size.value,
        start,
        bitmap,
        layer: tagged.layer,
        tag_ids: tagged.tag_ids,
        plain: size.plain & tagged.plain,
    };
    Ok((head, body))
}
