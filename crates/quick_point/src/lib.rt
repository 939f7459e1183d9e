// A point, read straight to the caller's array where its numbers are short and plain and nothing is refused. Anything else is None here.
#![tactic(auto)]

ghost use Rattle.std.specs.Prelude.{true, false, ◌≤◌, length, IfSome};
ghost use Rattle.parsing.specs.Parse.{optional};
ghost use Rattle.utils.specs.Vbe.{noted, noted_signed, noted_text};
ghost use Rattle.format.specs.TagLists.{kinds_in};
ghost use Rattle.format.specs.Tile.{point_fields, point};
ghost use Rattle.quick_head.specs.Quick.{Reads};
ghost use Rattle.quick_point.specs.QuickPoint.{text_of, elevation_of, fields_of, fields_in, point_of, point_in};

use byte_source::Span;
use quick_head::{QuickNode, QuickTags};
use types::TagRange;

// A text that a flag announces, of less than 2^14 bytes and valid UTF-8, and the place behind it.
fn quick_text(map: &[u8], at: usize, flag: bool) -> Option<(Option<Span>, usize)>
    requires { at ≤ length map.now }
    ensures { IfSome result (λ r. Reads text_of (optional flag noted_text map.now at) (length map.now) (noted r.0 true) r.1) }
{
    if !flag {
        return Some((None, at));
    }
    let (size, start) = quick_head::quick_number(map, at)?;
    let size = size as usize;
    if 1048576 < size || map.len() - start < size {
        return None;
    }
    let next = start + size;
    if !text::utf8_valid(&map[start..next]) {
        return None;
    }
    Some((Some(Span { start, size }), next))
}

// An elevation that a flag announces, and the place behind it.
fn quick_elevation(map: &[u8], at: usize, flag: bool) -> Option<(Option<i64>, usize)>
    requires { at ≤ length map.now }
    ensures { IfSome result (λ r. Reads elevation_of (optional flag noted_signed map.now at) (length map.now) (noted r.0 true) r.1) }
{
    if !flag {
        return Some((None, at));
    }
    let (value, next) = quick_head::quick_signed(map, at)?;
    Some((Some(value), next))
}

// What a point's flags announce, and the place behind it.
#[derive(Clone, Copy)]
pub struct QuickFields {
    pub name: Option<Span>,
    pub house: Option<Span>,
    pub elevation: Option<i64>,
    pub next: usize,
}

fn quick_fields(map: &[u8], at: usize) -> Option<QuickFields>
    ensures { IfSome result (λ f. Reads fields_of (point_fields map.now at) (length map.now) (noted (fields_in f) true) f.next) }
{
    if map.len() <= at {
        return None;
    }
    let flags = map[at];
    let (name, at) = quick_text(map, at + 1, flags / 128 % 2 == 1)?;
    let (house, at) = quick_text(map, at, flags / 64 % 2 == 1)?;
    let (elevation, next) = quick_elevation(map, at, flags / 32 % 2 == 1)?;
    Some(QuickFields {
        name,
        house,
        elevation,
        next,
    })
}

#[derive(Clone, Copy)]
pub struct QuickPoint {
    pub node: QuickNode,
    pub tags: QuickTags,
    pub fields: QuickFields,
}

// A point, in a map that is no debug map; its ids go to the front of `ids`.
pub fn quick_point(
    map: &[u8],
    at: usize,
    letters: &[u8],
    tags: TagRange,
    ids: &mut [u64; 15],
) -> Option<QuickPoint>
    ensures { IfSome result (λ p. Reads (point_of ids.old) (point false (kinds_in letters.now tags.first tags.count) map.now at) (length map.now) (point_in p ids.new) p.fields.next) }
{
    let node = quick_head::quick_node(map, at)?;
    let tags = quick_head::quick_tags(map, node.next, letters, tags, ids)?;
    let fields = quick_fields(map, tags.next)?;
    Some(QuickPoint { node, tags, fields })
}
