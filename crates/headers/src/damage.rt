// Cut and damaged copies of the base map, opened.
use crate::opened;
use report::{EMPTY, Words};

fn cut_words(map: &[u8], size: usize) -> Words {
    match map.get(..size) {
        Some(cut) => opened::open_words(cut),
        None => report::no_words(),
    }
}

pub(crate) fn one_cut(map: &[u8], question: &[u8]) -> Words {
    cut_words(map, questions::word_at(question, 0) as usize)
}

// Every length below the map's own.
pub(crate) fn all_cuts(map: &[u8]) -> Words {
    let mut digest = EMPTY;
    for size in 0..map.len() {
        digest = report::mix_words(digest, cut_words(map, size));
    }
    questions::one(digest)
}

pub(crate) fn one_damage(map: &[u8], question: &[u8]) -> Words {
    let mut copy = report::large();
    copies::put_front(&mut copy, map);
    let at = questions::word_at(question, 0) as usize;
    if copy.len() <= at {
        return report::no_words();
    }
    copy[at] = questions::byte_at(question, 4);
    cut_words(&copy, map.len())
}

// Three damages of each of the first 1500 bytes, one at a time; each is taken back.
fn damages_of(copy: &mut [u8], map: &[u8]) -> u64 {
    copies::put_front(copy, map);
    let mut digest = EMPTY;
    for n in 0..3 * map.len().min(1500) {
        copies::damage(copy, n);
        digest = report::mix_words(digest, cut_words(copy, map.len()));
        copies::damage(copy, n);
    }
    digest
}

pub(crate) fn all_damages(map: &[u8]) -> Words {
    let mut copy = report::large();
    questions::one(damages_of(&mut copy, map))
}
