// utils.rs: numbers of variable length, microdegrees, and texts as parts of the map.
#![tactic(auto)]

ghost use Rattle.std.specs.Prelude.{◌≡◌, ◌+◌, ◌-◌, ◌^◌, ◌<◌, ◌≤◌};
ghost use Rattle.std.specs.Float.Ieee as Ieee;
ghost use Rattle.parsing.specs.Parse.{map_res, part};
ghost use Rattle.std.specs.Float.{binary64};
ghost use Rattle.byte_source.specs.Answers.{read_by, read_res, part_in};
ghost use Rattle.utils.specs.Vbe.{noted, groups, unsigned, noted_unsigned, plain_unsigned, noted_signed, plain_signed, signed_of, noted_coordinate, noted_text, text};
ghost use Rattle.utils.specs.Degree.{degrees};
ghost use Rattle.utils.specs.Answers.{groups_held, noted_held, noted_by, microdegrees, noted_part};

use byte_source::{Read, Span};
use error::Refusal;

// What was read, and whether every number of it was plain.
#[derive(Clone, Copy)]
pub struct Noted<T> {
    pub value: T,
    pub plain: bool,
}

// Microdegrees, as stored.
#[derive(Clone, Copy)]
pub struct Microdegrees(pub i64);

// Degrees, as delivered.
#[derive(Clone, Copy)]
pub struct Degrees(pub f64);

// The data of a number's bytes, its sign, and the last byte's weight.
#[derive(Clone, Copy)]
struct Groups {
    magnitude: u64,
    sign: u64,
    weight: u64,
}

// The last byte's data is its remainder by `last`.
fn read_groups(map: &[u8], at: usize, last: u64) -> Read<Groups>
    requires { (0 < last) × (last ≤ 128) }
    ensures { read_by groups_held result ≡ groups last 9 map.now at }
{
    if map.len() <= at {
        return Err(Refusal::Source);
    }
    let mut v: u64 = 0;
    let mut w: u64 = 1;
    for i in 0..9 {
        if map.len() <= at + i {
            return Err(Refusal::Source);
        }
        let b = map[at + i] as u64;
        if b < 128 {
            let groups = Groups {
                magnitude: v + w * (b % last),
                sign: b / last,
                weight: w,
            };
            return Ok((groups, at + i + 1));
        }
        v += w * (b % 128);
        w *= 128;
    }
    Err(Refusal::NumberTooLong)
}

fn plain_unsigned(v: u64, w: u64) -> bool
    ensures { result ≡ plain_unsigned v w }
{
    w == 1 || w <= v
}

// A number of more bytes than one.
fn long_unsigned(map: &[u8], at: usize) -> Read<Noted<u64>>
    ensures { read_by noted_held result ≡ noted_unsigned map.now at }
{
    let (groups, next) = read_groups(map, at, 128)?;
    let value = groups.magnitude;
    let plain = plain_unsigned(value, groups.weight);
    Ok((Noted { value, plain }, next))
}

// Groups of 7 bits, lowest first. Most numbers have one byte.
pub fn read_vbe_u_int(map: &[u8], at: usize) -> Read<Noted<u64>>
    ensures { read_by noted_held result ≡ noted_unsigned map.now at }
{
    if map.len() <= at {
        return Err(Refusal::Source);
    }
    let b = map[at] as u64;
    if b < 128 {
        let number = Noted {
            value: b,
            plain: true,
        };
        return Ok((number, at + 1));
    }
    long_unsigned(map, at)
}

// The value alone.
pub fn read_number(map: &[u8], at: usize) -> Read<u64>
    ensures { read_res result ≡ unsigned map.now at }
{
    let (number, next) = read_vbe_u_int(map, at)?;
    Ok((number.value, next))
}

// The number of this magnitude, negative unless `sign` is 0.
fn signed_of(v: u64, sign: u64) -> i64
    requires { v < 2 ^ 63 }
    ensures { result ≡ signed_of v sign }
{
    let m = v as i64;
    if sign == 0 {
        return m;
    }
    0 - m
}

// Whether no shorter encoding gives the same value, and it is not minus zero.
fn plain_signed(v: u64, sign: u64, w: u64) -> bool
    requires { v < 2 ^ 63 }
    ensures { result ≡ plain_signed v sign w }
{
    if w == 1 {
        if v == 0 {
            return sign == 0;
        }
        return true;
    }
    w <= 2 * v
}

fn long_signed(map: &[u8], at: usize) -> Read<Noted<i64>>
    ensures { read_by noted_held result ≡ noted_signed map.now at }
{
    let (groups, next) = read_groups(map, at, 64)?;
    let number = Noted {
        value: signed_of(groups.magnitude, groups.sign),
        plain: plain_signed(groups.magnitude, groups.sign, groups.weight),
    };
    Ok((number, next))
}

// The same with a sign: the last byte's 40 is the sign, its 3F the data.
pub fn read_vbe_s_int(map: &[u8], at: usize) -> Read<Noted<i64>>
    ensures { read_by noted_held result ≡ noted_signed map.now at }
{
    if map.len() <= at {
        return Err(Refusal::Source);
    }
    let b = map[at] as u64;
    if b < 128 {
        let number = Noted {
            value: signed_of(b % 64, b / 64),
            plain: plain_signed(b % 64, b / 64, 1),
        };
        return Ok((number, at + 1));
    }
    long_signed(map, at)
}

// A coordinate as stored. Above 2^53 a float would not hold it.
pub fn read_microdegrees(map: &[u8], at: usize) -> Read<Noted<Microdegrees>>
    ensures { read_by (noted_by microdegrees) result ≡ noted_coordinate map.now at }
{
    let (v, next) = read_vbe_s_int(map, at)?;
    if v.value < -9007199254740992 {
        return Err(Refusal::CoordinateTooLarge);
    }
    if 9007199254740992 < v.value {
        return Err(Refusal::CoordinateTooLarge);
    }
    let coordinate = Noted {
        value: Microdegrees(v.value),
        plain: v.plain,
    };
    Ok((coordinate, next))
}

// The one conversion between the two units: one division.
pub fn microdegrees_to_degrees(m: Microdegrees) -> Degrees
    ensures { result.0 ≡ degrees m.0 }
{
    Degrees(nearest(m.0) / 1000000.0)
}

// The float nearest to v. A cast is exact up to 2^53, and that is all that a coordinate needs.
fn nearest(v: i64) -> f64
    ensures { result ≡ Ieee.of_int binary64 v }
{
    if v < -9007199254740992 {
        return std::num::nearest_i64_to_f64(v);
    }
    if 9007199254740992 < v {
        return std::num::nearest_i64_to_f64(v);
    }
    v as f64
}

// n bytes as a part of the map, with what is said of the length before them.
pub fn read_part(map: &[u8], at: usize, n: usize, plain: bool) -> Read<Noted<Span>>
    ensures { read_by (noted_part map.now) result ≡ map_res (λ b. noted b plain) (part n map.now at) }
{
    let (value, next) = byte_source::read_bytes(map, at, n)?;
    Ok((Noted { value, plain }, next))
}

// A text: a length, at most 2^20, then its bytes, as a part of the map.
pub fn read_text(map: &[u8], at: usize) -> Read<Noted<Span>>
    ensures { read_by (noted_part map.now) result ≡ noted_text map.now at }
{
    let (n, start) = read_vbe_u_int(map, at)?;
    if 1048576 < n.value {
        return Err(Refusal::TextTooLong);
    }
    read_part(map, start, n.value as usize, n.plain)
}

// The text alone, by its length's value: what a walk over many texts reads.
pub fn read_vbe_u(map: &[u8], at: usize) -> Read<Span>
    ensures { read_by (part_in map.now) result ≡ text map.now at }
{
    let (n, start) = read_number(map, at)?;
    if 1048576 < n {
        return Err(Refusal::TextTooLong);
    }
    byte_source::read_bytes(map, start, n as usize)
}
