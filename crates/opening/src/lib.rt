// tile.rs, `from_source`: opening a map; and opening it with lists of its tag strings.
#![tactic(auto)]

ghost use Rattle.std.specs.Prelude.{◌≡◌};
ghost use Rattle.parsing.specs.Parse.{map_res};
ghost use Rattle.byte_source.specs.Answers.{read_res, part_in};
ghost use Rattle.format.specs.Header.{signature, opened};
ghost use Rattle.format.specs.Index.{answered};
ghost use Rattle.format.specs.IntervalTable.{rows_signed};
ghost use Rattle.format.specs.TagLists.{letter_of_text};
ghost use Rattle.index.specs.Answers.{answer_res};
ghost use Rattle.header.specs.HeaderView.{header_fields, map_header};
ghost use Rattle.opening.specs.Opening.{lists, ListedIs, OpenIs};
ghost use Rattle.opening.specs.Listing.{long_enough, too_short, TagsFit, TagsListed, BothFit, BothListed};

use byte_source::{Read, Span};
use error::{Lengths, LentRefusal, Refusal};
use types::{HeaderFields, IntervalTable, MapHeader, TagTable};

// A sub file's signature, 16 bytes at its start.
fn check_signature(map: &[u8], start: u64) -> Result<(), Refusal>
    ensures { answer_res result ≡ answered (signature map.now start) }
{
    let (span, _) = byte_source::read_bytes(map, start as usize, 16)?;
    let bytes = byte_source::span_bytes(map, span);
    if header_fields::same_bytes(bytes, b"+++IndexStart+++") {
        return Ok(());
    }
    Err(Refusal::InvalidIndexSignature)
}

// Every sub file's, row by row.
fn check_signatures(map: &[u8], table: IntervalTable) -> Result<(), Refusal>
    ensures { answer_res result ≡ rows_signed table.count map.now table.start }
{
    let mut at = table.start;
    for _ in 0..table.count {
        let (one, next) = zoom_intervals::read_interval(map, at)?;
        check_signature(map, one.sub_file_start)?;
        at = next;
    }
    Ok(())
}

// The header without its intervals, and in debug maps (flag 80) the signature of every sub file.
pub fn open_fields(map: &[u8]) -> Read<HeaderFields>
    ensures { read_res result ≡ map_res header_fields (opened map.now) }
{
    let (fields, at) = header::read_fields(map)?;
    if fields.flags / 128 % 2 != 1 {
        return Ok((fields, at));
    }
    let table = zoom_intervals::table_before(at, fields.num_zoom_intervals);
    check_signatures(map, table)?;
    Ok((fields, at))
}

pub fn from_source(map: &[u8]) -> Read<MapHeader>
    ensures { read_res result ≡ map_res map_header (opened map.now) }
{
    header::with_intervals(map, open_fields(map))
}

// The letter of a tag's text, or 0.
fn text_letter(map: &[u8], text: Span) -> u8
    ensures { result ≡ letter_of_text (part_in map.now text) }
{
    let bytes = byte_source::span_bytes(map, text);
    tag::letter_of(tag::inline_value_kind(bytes))
}

// Lists a table's tags, from entry `first` on: where each starts, which is the first byte of its length, and its letter. Opening has read
// the texts, so none is refused.
// Here and below each list is a parameter: of a struct of &muts every function would have to promise, too, that its fields are the same lists.
fn list_tags(map: &[u8], table: TagTable, starts: &mut [u64], letters: &mut [u8], first: usize)
    requires { TagsFit map.now table first starts.old letters.old }
    ensures { TagsListed map.now table first starts.old letters.old starts.new letters.new }
{
    let mut at = table.start;
    for i in 0..table.count {
        let Ok((text, next)) = utils::read_vbe_u(map, at) else {
            return;
        };
        starts[first + i] = at as u64;
        letters[first + i] = text_letter(map, text);
        at = next;
    }
}

// The tags of points, and behind them those of ways. A map without tags takes no call.
fn list_both(map: &[u8], points: TagTable, ways: TagTable, starts: &mut [u64], letters: &mut [u8])
    requires { BothFit map.now points ways starts.old letters.old }
    ensures { BothListed map.now points ways starts.old letters.old starts.new letters.new }
{
    if points.count + ways.count == 0 {
        return;
    }
    list_tags(map, points, starts, letters, 0);
    list_tags(map, ways, starts, letters, points.count);
}

// Whether lists of these lengths have room for n entries each.
fn long_enough(n: usize, starts: usize, letters: usize) -> bool
    ensures { result ≡ long_enough n starts letters }
{
    n <= starts && n <= letters
}

// The refusal that gives the length needed of both lists.
fn too_short(n: usize) -> LentRefusal
    ensures { result ≡ too_short n }
{
    LentRefusal::Short(Lengths {
        list1: n as u64,
        list2: n as u64,
        ..Lengths::NONE
    })
}

// Opens a map and lists its tags: of each its start and its letter. Nothing is written before all else has succeeded.
pub fn open_listed(
    map: &[u8],
    starts: &mut [u64],
    letters: &mut [u8],
) -> Result<(HeaderFields, usize), LentRefusal>
    ensures { ListedIs (opened map.now) (lists starts.old letters.old) result (lists starts.new letters.new) }
{
    let (fields, at) = open_fields(map)?;
    let tags = fields.poi_tags.count + fields.way_tags.count;
    if !long_enough(tags, starts.len(), letters.len()) {
        return Err(too_short(tags));
    }
    list_both(map, fields.poi_tags, fields.way_tags, starts, letters);
    Ok((fields, at))
}

// The same with the whole header: `from_source` for a map whose tags are listed.
pub fn open_map(
    map: &[u8],
    starts: &mut [u64],
    letters: &mut [u8],
) -> Result<(MapHeader, usize), LentRefusal>
    ensures { OpenIs (opened map.now) (lists starts.old letters.old) result (lists starts.new letters.new) }
{
    let opened = open_listed(map, starts, letters)?;
    Ok(header::with_intervals(map, Ok(opened))?)
}
