// Answers as words, for programs in other languages: refusals, and what may be absent. 1 stands in front of what is there; what is absent is
// all 0.
#![tactic(auto)]

ghost use Rattle.std.specs.Prelude.{◌≡◌, ◌<◌, set};
ghost use Rattle.std.proofs.lemmas.List.Edits.{sets};
ghost use Rattle.error.specs.Refusals.{number_of, values_of, lent_number, lent_values};
ghost use Rattle.wire.specs.Elevation.{metre_words};
ghost use Rattle.wire.specs.Verdicts.{value_list, span_words, place_words};

use byte_source::Span;
use error::{Lengths, LentRefusal, Refusal};
use types::Position;

#[derive(Clone, Copy)]
pub struct SpanWords {
    pub present: u64,
    pub start: u64,
    pub size: u64,
}

#[derive(Clone, Copy)]
pub struct PlaceWords {
    pub present: u64,
    pub latitude: f64,
    pub longitude: f64,
}

// 1 in front of an elevation in metres; 0 and 0 where it is absent.
#[derive(Clone, Copy)]
pub struct MetreWords {
    pub present: u64,
    pub metres: i64,
}

// A refusal's value, if it has one.
fn value_of(refusal: Refusal) -> Option<u64>
    ensures { value_list result ≡ values_of refusal }
{
    match refusal {
        Refusal::UnsupportedVersion(version) => Some(version as u64),
        Refusal::InvalidTagId(id) => Some(id),
        Refusal::IndexCutOff(place) => Some(place),
        Refusal::TileHeadCutOff(place) => Some(place),
        _ => None,
    }
}

// A word, where there is one at that place.
fn put(words: &mut [u64], at: usize, value: u64)
    ensures { words.new ≡ set words.old at value }
{
    if at < words.len() {
        words[at] = value;
    }
}

// A refusal: its number, and its value to the first word. The other words keep their values.
pub fn put_refusal(refusal: Refusal, words: &mut [u64]) -> u64
    ensures { (result ≡ number_of refusal) × (words.new ≡ sets words.old 0 (values_of refusal)) }
{
    let number = error::number_of(refusal) as u64;
    if let Some(value) = value_of(refusal) {
        put(words, 0, value);
    }
    number
}

// The lengths needed, to the first six words.
fn put_lengths(lengths: Lengths, words: &mut [u64])
    ensures { words.new ≡ sets words.old 0 (lent_values (LentRefusal.Short lengths)) }
{
    put(words, 0, lengths.list1);
    put(words, 1, lengths.list2);
    put(words, 2, lengths.list3);
    put(words, 3, lengths.list4);
    put(words, 4, lengths.list5);
    put(words, 5, lengths.buffer);
}

// The same of a call that is lent lists or a buffer.
pub fn put_lent_refusal(refusal: LentRefusal, words: &mut [u64]) -> u64
    ensures { (result ≡ lent_number refusal) × (words.new ≡ sets words.old 0 (lent_values refusal)) }
{
    match refusal {
        LentRefusal::Refused(r) => put_refusal(r, words),
        LentRefusal::Short(lengths) => {
            put_lengths(lengths, words);
            15
        }
    }
}

pub fn span_words(text: Option<Span>) -> SpanWords
    ensures { result ≡ span_words text }
{
    match text {
        None => SpanWords {
            present: 0,
            start: 0,
            size: 0,
        },
        Some(span) => SpanWords {
            present: 1,
            start: span.start as u64,
            size: span.size as u64,
        },
    }
}

pub fn place_words(place: Option<Position>) -> PlaceWords
    ensures { result ≡ place_words place }
{
    match place {
        None => PlaceWords {
            present: 0,
            latitude: 0.0,
            longitude: 0.0,
        },
        Some(p) => PlaceWords {
            present: 1,
            latitude: p.latitude,
            longitude: p.longitude,
        },
    }
}

pub fn metre_words(elevation: Option<i32>) -> MetreWords
    ensures { result ≡ metre_words elevation }
{
    match elevation {
        None => MetreWords {
            present: 0,
            metres: 0,
        },
        Some(m) => MetreWords {
            present: 1,
            metres: i64::from(m),
        },
    }
}
