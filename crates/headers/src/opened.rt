// A header as words.
use report::{EMPTY, Words};
use types::{MapHeader, TagTable};

// The tags' texts, one behind the other.
fn tags_digest(map: &[u8], table: TagTable) -> u64 {
    let mut digest = EMPTY;
    let mut at = table.start;
    for _ in 0..table.count {
        let Ok((span, next)) = utils::read_vbe_u(map, at) else {
            return 0;
        };
        digest = header_words::mix_tag(digest, map, span);
        at = next;
    }
    digest
}

fn push_tags(words: Words, map: &[u8], table: TagTable) -> Words {
    report::push(
        report::push(words, table.count as u64),
        tags_digest(map, table),
    )
}

fn intervals_digest(h: MapHeader) -> u64 {
    let count = h.num_zoom_intervals as usize;
    let mut digest = EMPTY;
    for &interval in &h.zoom_interval_configuration[..count] {
        digest = header_words::mix_interval(digest, interval);
    }
    digest
}

fn push_front(h: MapHeader) -> Words {
    let words = report::push(questions::zero(), u64::from(h.header_size));
    let words = report::push(words, u64::from(h.file_version));
    let words = report::push(words, h.file_size);
    let words = report::push(words, h.creation_date);
    header_words::push_box(words, h.bounding_box)
}

fn push_options(words: Words, map: &[u8], h: MapHeader) -> Words {
    let words = header_words::push_optional_position(words, h.map_start_position);
    let words = header_words::push_optional_byte(words, h.start_zoom_level);
    let words = header_words::push_optional_text(words, map, h.language_preference);
    let words = header_words::push_optional_text(words, map, h.comment);
    header_words::push_optional_text(words, map, h.created_by)
}

fn header_words(map: &[u8], h: MapHeader) -> Words {
    let words = report::push(push_front(h), u64::from(h.tile_size));
    let words = header_words::push_text(words, map, h.projection);
    let words = report::push(words, u64::from(h.flags));
    let words = push_options(words, map, h);
    let words = push_tags(words, map, h.poi_tags);
    let words = push_tags(words, map, h.way_tags);
    let words = report::push(words, u64::from(h.num_zoom_intervals));
    report::push(words, intervals_digest(h))
}

// What opening a map answers.
pub(crate) fn open_words(map: &[u8]) -> Words {
    match opening::from_source(map) {
        Ok((header, _)) => header_words(map, header),
        Err(r) => questions::refusal_words(r),
    }
}
