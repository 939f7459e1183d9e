// Columns and longitudes.
use report::Words;
use utils::Degrees;

fn signed_words(x: i32) -> Words {
    let v = i64::from(x);
    questions::two(report::sign(v), report::magnitude(v))
}

// The column of a longitude, given by its bits.
pub(crate) fn column_words(question: &[u8]) -> Words {
    let degrees = Degrees(report::float_of(questions::number_at(question, 0)));
    match column::tile_column(degrees, questions::byte_at(question, 8)) {
        Ok(x) => signed_words(x),
        Err(r) => questions::refusal_words(r),
    }
}

pub(crate) fn longitude_words(question: &[u8]) -> Words {
    match column::tilex2long(
        questions::word_at(question, 0),
        questions::byte_at(question, 4),
    ) {
        Ok(degrees) => questions::one(report::float_bits(degrees.0)),
        Err(r) => questions::refusal_words(r),
    }
}
