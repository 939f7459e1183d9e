// The index of the base map.
use byte_source::Span;
use report::Words;
use types::{Grid, MapHeader, TagTable, ZoomInterval};

fn grid_at(question: &[u8]) -> Grid {
    Grid {
        x_min: questions::int_at(question, 8),
        y_min: questions::int_at(question, 12),
        x_max: questions::int_at(question, 16),
        y_max: questions::int_at(question, 20),
    }
}

// A number of two bytes.
fn tag_number(question: &[u8]) -> usize {
    questions::byte_at(question, 0) as usize * 256 + questions::byte_at(question, 1) as usize
}

fn text_words(map: &[u8], span: Span) -> Words {
    let words = header_words::push_text(questions::zero(), map, span);
    let kind = tag::inline_value_kind(byte_source::span_bytes(map, span));
    report::push(words, questions::letter_of(kind))
}

fn tag_words(map: &[u8], table: TagTable, k: usize) -> Words {
    match tag_table::tag_text(map, table, k) {
        Ok((span, _)) => text_words(map, span),
        Err(r) => questions::refusal_words(r),
    }
}

// Of a sub file with this interval.
fn grid_answer(
    letter: u8,
    map: &[u8],
    debug: bool,
    found: Option<ZoomInterval>,
    question: &[u8],
) -> Words {
    let grid = grid_at(question);
    match letter {
        b'n' => header_words::count_words(index::tile_count(found, grid)),
        b'i' => header_words::index_words(index::tile_index_of(
            found,
            grid,
            questions::int_at(question, 24),
            questions::int_at(question, 28),
        )),
        b'e' => header_words::entry_words(index::tile_index_entry(
            map,
            debug,
            found,
            grid,
            questions::number_at(question, 24) as usize,
        )),
        _ => report::no_words(),
    }
}

pub(crate) fn answer(letter: u8, map: &[u8], h: MapHeader, question: &[u8]) -> Words {
    match letter {
        b'z' => header_words::sub_file_words(index::sub_file_for_zoom(
            h,
            questions::byte_at(question, 0),
        )),
        b'p' => tag_words(map, h.poi_tags, tag_number(question)),
        b'w' => tag_words(map, h.way_tags, tag_number(question)),
        _ => {
            let debug = h.flags / 128 % 2 == 1;
            let sub_file = questions::number_at(question, 0) as usize;
            grid_answer(
                letter,
                map,
                debug,
                index::interval_of(h, sub_file),
                question,
            )
        }
    }
}
