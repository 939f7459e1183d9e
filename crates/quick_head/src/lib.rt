// A way up to its tag values, and a point's numbers and tags, read straight to the caller's array: where numbers have one or two bytes
// (coordinates up to four) and are plain, and nothing is refused. Anything else is None here, and is left to the general readers.
#![tactic(auto)]

ghost use Rattle.std.specs.Prelude.{◌≡◌, true, false, ◌+◌, ◌-◌, ◌/◌, ◌%◌, ◌≤◌, ◌<◌, ◌^◌, length, take, IfSome, IsTrue, ◌↔◌};
ghost use Rattle.parsing.specs.Parse.{many};
ghost use Rattle.utils.specs.Vbe.{noted, noted_unsigned, signed_of, noted_signed, noted_coordinate};
ghost use Rattle.tag.specs.Tag.{kind_of};
ghost use Rattle.tag.specs.Value.{value, sized};
ghost use Rattle.format.specs.TagLists.{kinds_in};
ghost use Rattle.format.specs.WayData.{node};
ghost use Rattle.format.specs.Tile.{tag_id, kind_at, values, tagged, head};
ghost use Rattle.quick_head.specs.Quick.{Reads, whole, is_plain, are_plain, width_of, filled, tags_of, head_of, FrontIs, SignedIs};

use types::TagRange;
use utils::Microdegrees;

// A plain number of one or two bytes, and the place behind it; of two, the second is not 0.
#[tactic(auto, using(crate::proofs::QuickLaws::quicks))]
pub fn quick_number(map: &[u8], at: usize) -> Option<(u64, usize)>
    ensures { IfSome result (λ r. Reads whole (noted_unsigned map.now at) (length map.now) (noted r.0 true) r.1) }
{
    let len = map.len();
    if len <= at {
        return None;
    }
    let a = u64::from(map[at]);
    if a < 128 {
        return Some((a, at + 1));
    }
    if len - at < 2 {
        return None;
    }
    let b = u64::from(map[at + 1]);
    if b < 1 || 128 <= b {
        return None;
    }
    Some((a % 128 + 128 * b, at + 2))
}

// `count` ids of `tags` tags, to the front of `ids`, and the place behind them.
fn quick_ids(map: &[u8], at: usize, tags: usize, count: usize, ids: &mut [u64; 15]) -> Option<usize>
    requires { (count ≤ 15) × (at ≤ length map.now) }
    ensures { IfSome result (λ e. Reads (filled ids.old) (many (tag_id tags) count map.now at) (length map.now) (noted ids.new true) e) }
{
    let mut next = at;
    for i in 0..count {
        let (id, behind) = quick_number(map, next)?;
        if tags as u64 <= id {
            return None;
        }
        ids[i] = id;
        next = behind;
    }
    Some(next)
}

// The letter of a tag; the letters of all `tags` tags are there.
#[tactic(auto, using(crate::proofs::QuickLaws::quicks))]
fn letter_at(letters: &[u8], tags: TagRange, k: u64) -> u8
    requires { tags.first + tags.count ≤ length letters.now }
    ensures { kind_of result ≡ kind_at (kinds_in letters.now tags.first tags.count) k }
{
    if tags.count as u64 <= k {
        return 0;
    }
    letters[tags.first + k as usize]
}

// The bytes of a value of a letter that is no s.
fn width(letter: u8) -> usize
    ensures { result ≡ width_of letter }
{
    match letter {
        b'b' => 1,
        b'h' => 2,
        b'i' | b'f' => 4,
        _ => 0,
    }
}

// The place behind a length and that many bytes.
fn quick_sized(map: &[u8], at: usize) -> Option<usize>
    ensures { IfSome result (λ e. Reads is_plain (sized map.now at) (length map.now) true e) }
{
    let (size, start) = quick_number(map, at)?;
    let size = size as usize;
    if map.len() - start < size {
        return None;
    }
    Some(start + size)
}

// The place behind a value by its letter.
#[tactic(auto, using(crate::proofs::QuickLaws::quicks))]
fn quick_value(map: &[u8], at: usize, letter: u8) -> Option<usize>
    requires { at ≤ length map.now }
    ensures { IfSome result (λ e. Reads is_plain (value (kind_of letter) map.now at) (length map.now) true e) }
{
    if letter == 0 {
        return Some(at);
    }
    if letter == b's' {
        return quick_sized(map, at);
    }
    let n = width(letter);
    if map.len() - at < n {
        return None;
    }
    Some(at + n)
}

// The place behind the values of the first `count` ids.
fn quick_values(
    map: &[u8],
    at: usize,
    letters: &[u8],
    tags: TagRange,
    ids: &[u64; 15],
    count: usize,
) -> Option<usize>
    requires { (count ≤ 15) × (at ≤ length map.now) × (tags.first + tags.count ≤ length letters.now) }
    ensures { IfSome result (λ e. Reads are_plain (values (kinds_in letters.now tags.first tags.count) (take count ids.now) map.now at) (length map.now) true e) }
{
    let mut next = at;
    for i in 0..count {
        let letter = letter_at(letters, tags, ids[i]);
        next = quick_value(map, next, letter)?;
    }
    Some(next)
}

// Whether the letters of all `tags` tags are there.
pub fn has_all(letters: &[u8], tags: TagRange) -> bool
    ensures { IsTrue result ↔ (tags.first + tags.count ≤ length letters.now) }
{
    tags.first <= letters.len() && tags.count <= letters.len() - tags.first
}

// A layer and the number of tags, and the place behind the tags' values.
#[derive(Clone, Copy)]
pub struct QuickTags {
    pub count: usize,
    pub next: usize,
    pub layer: i8,
}

// A way's or a point's layer and tags, whose ids go to the front of `ids`. Inlined, since a call of it costs a feature a tenth of its time.
#[inline(always)]
pub fn quick_tags(
    map: &[u8],
    at: usize,
    letters: &[u8],
    tags: TagRange,
    ids: &mut [u64; 15],
) -> Option<QuickTags>
    ensures { IfSome result (λ t. Reads (tags_of ids.old) (tagged (kinds_in letters.now tags.first tags.count) map.now at) (length map.now) (record { layer = t.layer; ids = ids.new; count = t.count; plain = true }) t.next) }
{
    if !has_all(letters, tags) {
        return None;
    }
    if map.len() <= at {
        return None;
    }
    let special = map[at];
    let count = (special % 16) as usize;
    let behind = quick_ids(map, at + 1, tags.count, count, ids)?;
    let next = quick_values(map, behind, letters, tags, ids, count)?;
    Some(QuickTags {
        count,
        next,
        layer: tagged::layer_of(special),
    })
}

// What stands in front of a way's tags.
#[derive(Clone, Copy)]
struct QuickFront {
    size: u64,
    start: usize,
    bitmap: u16,
}

fn quick_front(map: &[u8], at: usize) -> Option<QuickFront>
    ensures { IfSome result (λ f. FrontIs map.now at f.size f.start f.bitmap) }
{
    let (size, start) = quick_number(map, at)?;
    if map.len() - start < 2 {
        return None;
    }
    let bitmap = u16::from(map[start]) * 256 + u16::from(map[start + 1]);
    Some(QuickFront {
        size,
        start,
        bitmap,
    })
}

// A way up to its tag values: its bitmap, layer and number of tags, where declining it goes and where its body starts.
#[derive(Clone, Copy)]
pub struct QuickHead {
    pub past: usize,
    pub body: usize,
    pub count: usize,
    pub bitmap: u16,
    pub layer: i8,
}

// In a map that is no debug map. The tags' ids go to the front of `ids`.
pub fn quick_head(
    map: &[u8],
    at: usize,
    letters: &[u8],
    tags: TagRange,
    ids: &mut [u64; 15],
) -> Option<QuickHead>
    ensures { IfSome result (λ h. Reads (head_of ids.old) (head false (kinds_in letters.now tags.first tags.count) map.now at) (length map.now) (record { past = h.past; bitmap = h.bitmap; tags = record { layer = h.layer; ids = ids.new; count = h.count; plain = true }; plain = true }) h.body) }
{
    let front = quick_front(map, at)?;
    let got = quick_tags(map, front.start + 2, letters, tags, ids)?;
    Some(QuickHead {
        past: arithmetic::saturating_add_usize(front.start, front.size as usize),
        body: got.next,
        count: got.count,
        bitmap: front.bitmap,
        layer: got.layer,
    })
}

// The number of this magnitude, negative unless `sign` is 0.
// `utils` and `way_data` have it too: it needs its `requires`, and so it cannot be a public function of one of them.
fn signed_of(v: u64, sign: u64) -> i64
    requires { v < 2 ^ 63 }
    ensures { result ≡ signed_of v sign }
{
    let magnitude = v as i64;
    if sign == 0 {
        return magnitude;
    }
    -magnitude
}

// A number of one byte; minus zero is not plain.
fn quick_one(a: u64, at: usize) -> Option<(i64, usize)>
    requires { at < 2 ^ 64 - 1 }
    ensures { IfSome result (λ r. SignedIs (a % 64) (a / 64) (a ≡ 64 → ⊥) (at + 1) r.0 r.1) }
{
    if a == 64 {
        return None;
    }
    Some((signed_of(a % 64, a / 64), at + 1))
}

// A number of several bytes, if it is at least `least`.
fn quick_last(v: u64, sign: u64, least: u64, next: usize) -> Option<(i64, usize)>
    requires { v < 2 ^ 63 }
    ensures { IfSome result (λ r. SignedIs v sign (least ≤ v) next r.0 r.1) }
{
    if v < least {
        return None;
    }
    Some((signed_of(v, sign), next))
}

// A plain coordinate of at most four bytes, where four are there. Of n bytes it is plain if it is at least half of 128 ^ (n - 1).
fn quick_coordinate(map: &[u8], at: usize) -> Option<(i64, usize)>
    requires { at + 4 ≤ length map.now }
    ensures { IfSome result (λ r. Reads whole (noted_coordinate map.now at) (length map.now) (noted r.0 true) r.1) }
{
    let a = u64::from(map[at]);
    if a < 128 {
        return quick_one(a, at);
    }
    let b = u64::from(map[at + 1]);
    if b < 128 {
        return quick_last(a % 128 + 128 * (b % 64), b / 64, 64, at + 2);
    }
    let c = u64::from(map[at + 2]);
    if c < 128 {
        return quick_last(
            a % 128 + 128 * (b % 128) + 16384 * (c % 64),
            c / 64,
            8192,
            at + 3,
        );
    }
    let d = u64::from(map[at + 3]);
    if d < 128 {
        return quick_last(
            a % 128 + 128 * (b % 128) + 16384 * (c % 128) + 2097152 * (d % 64),
            d / 64,
            1048576,
            at + 4,
        );
    }
    None
}

// A position, and the place behind it.
#[derive(Clone, Copy)]
pub struct QuickNode {
    pub latitude: Microdegrees,
    pub longitude: Microdegrees,
    pub next: usize,
}

// Two plain coordinates of at most four bytes each, where eight are there.
pub fn quick_node(map: &[u8], at: usize) -> Option<QuickNode>
    ensures { IfSome result (λ n. Reads whole (node map.now at) (length map.now) (noted (record { latitude = n.latitude.0; longitude = n.longitude.0 }) true) n.next) }
{
    let len = map.len();
    if len < at || len - at < 8 {
        return None;
    }
    let (y, then) = quick_coordinate(map, at)?;
    if len - then < 4 {
        return None;
    }
    let (x, next) = quick_coordinate(map, then)?;
    Some(QuickNode {
        latitude: Microdegrees(y),
        longitude: Microdegrees(x),
        next,
    })
}

// A plain signed number of one or two bytes.
pub fn quick_signed(map: &[u8], at: usize) -> Option<(i64, usize)>
    ensures { IfSome result (λ r. Reads whole (noted_signed map.now at) (length map.now) (noted r.0 true) r.1) }
{
    let len = map.len();
    if len <= at {
        return None;
    }
    let a = u64::from(map[at]);
    if a < 128 {
        return quick_one(a, at);
    }
    if len - at < 2 {
        return None;
    }
    let b = u64::from(map[at + 1]);
    if b < 128 {
        return quick_last(a % 128 + 128 * (b % 64), b / 64, 64, at + 2);
    }
    None
}
