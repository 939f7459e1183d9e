// error.rs: why a call has no result.
#![tactic(auto)]

ghost use Rattle.std.specs.Prelude.{◌≡◌};
ghost use Rattle.error.specs.declared.LentRefusal.TheVariants.{Refused};
ghost use Rattle.error.specs.Refusals.{number_of, lent_number, short_buffer, cut_off_as};

// The lengths that a call needs: of the lists in the order in which it takes them, and of the buffer. 0 where it takes none.
#[derive(Clone, Copy)]
pub struct Lengths {
    pub list1: u64,
    pub list2: u64,
    pub list3: u64,
    pub list4: u64,
    pub list5: u64,
    pub buffer: u64,
}

impl Lengths {
    // Of a call that takes no list and no buffer.
    pub const NONE: Lengths = Lengths {
        list1: 0,
        list2: 0,
        list3: 0,
        list4: 0,
        list5: 0,
        buffer: 0,
    };
}

// The table "Answers other than a result" of document 01, in its order, but for 15. The first ten are the Rust's `MapforgeError`. No value is
// wider than a word: every answer of a read holds one.
#[derive(Clone, Copy)]
pub enum Refusal {
    // 1: the map ends too early
    Source,
    // 2
    InvalidMagic,
    // 3, with the version
    UnsupportedVersion(u32),
    // 4
    InvalidBoundingBox,
    // 5: the header size is 0
    InvalidHeaderSize,
    // 6
    InvalidIndexSignature,
    // 7, with the id
    InvalidTagId(u64),
    // 8: no such sub file or tile
    InvalidTileIndex,
    // 9: a text over 2^20 bytes
    TextTooLong,
    // 10: a block over 2^20 nodes
    TooManyNodes,
    // 11: the ninth byte of a number has its top bit
    NumberTooLong,
    // 12: a coordinate above 2^53
    CoordinateTooLarge,
    // 13: min zoom above max
    ReversedInterval,
    // 14: a reversed grid, or one of over 2^32 - 1 tiles
    InvalidGrid,
    // 16: a call out of turn
    OutOfTurn,
    // 17: a feature number at or above the count
    InvalidFeature,
    // 18: a zoom above 63 in column or longitude arithmetic
    ZoomTooLarge,
    // 19: the map ends in an index entry, with the place where its read began
    IndexCutOff(u64),
    // 20: the map ends in a tile's head, with the place where the missing read began
    TileHeadCutOff(u64),
}

// Why a call that is lent lists or a buffer has no result.
#[derive(Clone, Copy)]
pub enum LentRefusal {
    Refused(Refusal),
    // 15: a lent list or buffer is shorter than the result, with the lengths needed
    Short(Lengths),
}

// A call that is lent nothing refuses alike.
impl From<Refusal> for LentRefusal {
    ghost from_gives = { λ refusal lent. lent ≡ Refused refusal };

    fn from(refusal: Refusal) -> LentRefusal {
        LentRefusal::Refused(refusal)
    }
}

// Document 01's number of a refusal.
pub fn number_of(refusal: Refusal) -> u8
    ensures { result ≡ number_of refusal }
{
    match refusal {
        Refusal::Source => 1,
        Refusal::InvalidMagic => 2,
        Refusal::UnsupportedVersion(_) => 3,
        Refusal::InvalidBoundingBox => 4,
        Refusal::InvalidHeaderSize => 5,
        Refusal::InvalidIndexSignature => 6,
        Refusal::InvalidTagId(_) => 7,
        Refusal::InvalidTileIndex => 8,
        Refusal::TextTooLong => 9,
        Refusal::TooManyNodes => 10,
        Refusal::NumberTooLong => 11,
        Refusal::CoordinateTooLarge => 12,
        Refusal::ReversedInterval => 13,
        Refusal::InvalidGrid => 14,
        Refusal::OutOfTurn => 16,
        Refusal::InvalidFeature => 17,
        Refusal::ZoomTooLarge => 18,
        Refusal::IndexCutOff(_) => 19,
        Refusal::TileHeadCutOff(_) => 20,
    }
}

// The same of a call that is lent lists or a buffer.
pub fn lent_number_of(refusal: LentRefusal) -> u8
    ensures { result ≡ lent_number refusal }
{
    match refusal {
        LentRefusal::Refused(r) => number_of(r),
        LentRefusal::Short(_) => 15,
    }
}

// The refusal that only the buffer is too short.
pub fn short_buffer(needed: u64) -> LentRefusal
    ensures { result ≡ short_buffer needed }
{
    LentRefusal::Short(Lengths {
        buffer: needed,
        ..Lengths::NONE
    })
}

// What is refused where a map that ends too early has a refusal of its own, as in an index entry and in a tile's head.
pub fn cut_off_as(refusal: Refusal, cut_off: Refusal) -> Refusal
    ensures { result ≡ cut_off_as cut_off refusal }
{
    match refusal {
        Refusal::Source => cut_off,
        _ => refusal,
    }
}
