// The numbers of a question that the runs against the Rust ask, and the simplest answers.
#![tactic(auto)]

ghost use Rattle.std.specs.Prelude.{◌≡◌, cond, [], ◌∷◌};
ghost use Rattle.questions.specs.Numbers.{byte_at, number_at, int_at};
ghost use Rattle.error.specs.Refusals.{number_of};
ghost use Rattle.tag.specs.Tag.{letter_of};
ghost use Rattle.questions.specs.Answers.{pushed_all, answered, lent_refusal_words, in_rust, refusal_words};

use error::{Lengths, LentRefusal, Refusal};
use report::Words;
use tag::Kind;

// The numbers that stand at a place of a question; 0 where it ends too early. One function for the four would take the read, and be no
// plainer.
pub fn byte_at(question: &[u8], at: usize) -> u8
    ensures { result ≡ byte_at question.now at }
{
    byte_source::read_u8(question, at).map_or(0, |(v, _)| v)
}

pub fn word_at(question: &[u8], at: usize) -> u32
    ensures { result ≡ number_at 4 question.now at }
{
    byte_source::read_u32_be(question, at).map_or(0, |(v, _)| v)
}

pub fn number_at(question: &[u8], at: usize) -> u64
    ensures { result ≡ number_at 8 question.now at }
{
    byte_source::read_u64_be(question, at).map_or(0, |(v, _)| v)
}

pub fn int_at(question: &[u8], at: usize) -> i32
    ensures { result ≡ int_at question.now at }
{
    byte_source::read_i32_be(question, at).map_or(0, |(v, _)| v)
}

fn push_lengths(words: Words, l: Lengths) -> Words
    ensures { result ≡ pushed_all words (l.list1 ∷ l.list2 ∷ l.list3 ∷ []) }
{
    report::push(report::push(report::push(words, l.list1), l.list2), l.list3)
}

// The number of what stands for a refusal in the Rust: a map that ends in an index entry or in a tile's head is its `Source`. By the numbers,
// as the definition has it.
fn rust_number(refusal: Refusal) -> u8
    ensures { result ≡ in_rust (number_of refusal) 1 (number_of refusal) }
{
    let number = error::number_of(refusal);
    if number == 19 || number == 20 {
        return 1;
    }
    number
}

// A refusal: its number in the Rust, and its value there.
pub fn refusal_words(refusal: Refusal) -> Words
    ensures { result ≡ refusal_words refusal }
{
    let words = report::push(report::no_words(), rust_number(refusal) as u64);
    match refusal {
        Refusal::UnsupportedVersion(v) => report::push(words, v as u64),
        Refusal::InvalidTagId(i) => report::push(words, i),
        _ => words,
    }
}

// The same of a call that is lent lists; of the lengths needed those of the first three.
pub fn lent_refusal_words(refusal: LentRefusal) -> Words
    ensures { result ≡ lent_refusal_words refusal }
{
    match refusal {
        LentRefusal::Refused(r) => refusal_words(r),
        LentRefusal::Short(l) => push_lengths(report::push(report::no_words(), 15), l),
    }
}

// A success is 0 and its values, of which no answer here has more than three.
pub fn zero() -> Words
    ensures { result ≡ answered [] }
{
    report::push(report::no_words(), 0)
}

pub fn one(a: u64) -> Words
    ensures { result ≡ answered (a ∷ []) }
{
    report::push(zero(), a)
}

pub fn two(a: u64, b: u64) -> Words
    ensures { result ≡ answered (a ∷ b ∷ []) }
{
    report::push(one(a), b)
}

pub fn three(a: u64, b: u64, c: u64) -> Words
    ensures { result ≡ answered (a ∷ b ∷ c ∷ []) }
{
    report::push(two(a, b), c)
}

pub fn flag(b: bool) -> u64
    ensures { result ≡ cond b 1 0 }
{
    u64::from(b)
}

// The letter of an inline value's kind, and 0 for none.
pub fn letter_of(kind: Kind) -> u64
    ensures { result ≡ letter_of kind }
{
    u64::from(tag::letter_of(kind))
}
