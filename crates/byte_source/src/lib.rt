// io.rs: big-endian reads at a place of the lent map. Seeking always succeeds: a place is a number, and a read past the end is
// refusal 1.
#![tactic(auto)]

ghost use Rattle.std.specs.Prelude.{◌≡◌, ◌+◌, ◌≤◌, ◌<◌, length, IfOk, IfErr};
ghost use Rattle.error.specs.declared.Refusal.TheVariants.{Source};
ghost use Rattle.parsing.specs.Parse.{byte, part};
ghost use Rattle.byte_source.specs.BigEndian.{big_endian, int32};
ghost use Rattle.byte_source.specs.Answers.{read_res, read_by, part_in, span_bytes};

use error::Refusal;

// A part of the map: where it starts and how many bytes it has.
#[derive(Clone, Copy)]
pub struct Span {
    pub start: usize,
    pub size: usize,
}

// A read answers a value with the place behind it, or a refusal.
pub type Read<T> = Result<(T, usize), Refusal>;

pub fn read_u8(map: &[u8], at: usize) -> Read<u8>
    ensures { read_res result ≡ byte map.now at }
{
    if at < map.len() {
        return Ok((map[at], at + 1));
    }
    Err(Refusal::Source)
}

// The place behind the next `n` bytes, if the map has them.
fn behind(map: &[u8], at: usize, n: usize) -> Result<usize, Refusal>
    ensures ok { IfOk result (λ next. (next ≡ at + n) × (at + n ≤ length map.now)) }
    ensures err { IfErr result (λ r. (r ≡ Source) × (length map.now < at + n)) }
{
    if map.len() < at || map.len() - at < n {
        return Err(Refusal::Source);
    }
    Ok(at + n)
}

// std's conversions of bytes have a name for each width, and no trait is common to them: so each width has its own read.
pub fn read_u16_be(map: &[u8], at: usize) -> Read<u16>
    ensures { read_res result ≡ big_endian 2 map.now at }
{
    let next = behind(map, at, 2)?;
    Ok((u16::from_be_bytes([map[at], map[at + 1]]), next))
}

pub fn read_u32_be(map: &[u8], at: usize) -> Read<u32>
    ensures { read_res result ≡ big_endian 4 map.now at }
{
    let next = behind(map, at, 4)?;
    let bytes = [map[at], map[at + 1], map[at + 2], map[at + 3]];
    Ok((u32::from_be_bytes(bytes), next))
}

// 5 bytes, as an entry of the tile index has.
pub fn read_u40_be(map: &[u8], at: usize) -> Read<u64>
    ensures { read_res result ≡ big_endian 5 map.now at }
{
    let next = behind(map, at, 5)?;
    let bytes = [
        0,
        0,
        0,
        map[at],
        map[at + 1],
        map[at + 2],
        map[at + 3],
        map[at + 4],
    ];
    Ok((u64::from_be_bytes(bytes), next))
}

pub fn read_u64_be(map: &[u8], at: usize) -> Read<u64>
    ensures { read_res result ≡ big_endian 8 map.now at }
{
    let next = behind(map, at, 8)?;
    let bytes = [
        map[at],
        map[at + 1],
        map[at + 2],
        map[at + 3],
        map[at + 4],
        map[at + 5],
        map[at + 6],
        map[at + 7],
    ];
    Ok((u64::from_be_bytes(bytes), next))
}

pub fn read_i32_be(map: &[u8], at: usize) -> Read<i32>
    ensures { read_res result ≡ int32 map.now at }
{
    let (bits, next) = read_u32_be(map, at)?;
    Ok((bits.cast_signed(), next))
}

// The next `size` bytes as a part of the map. 0 bytes are read anywhere.
pub fn read_bytes(map: &[u8], at: usize, size: usize) -> Read<Span>
    ensures { read_by (part_in map.now) result ≡ part size map.now at }
{
    if size < 1 {
        return Ok((Span { start: at, size: 0 }, at));
    }
    let next = behind(map, at, size)?;
    Ok((Span { start: at, size }, next))
}

// The bytes of a part, as far as the map goes.
pub fn span_bytes(map: &[u8], span: Span) -> &[u8]
    ensures { result.now ≡ span_bytes map.now span }
{
    let start = span.start;
    let size = span.size;
    if map.len() <= start {
        return &map[0..0];
    }
    if map.len() - start <= size {
        return &map[start..];
    }
    let end = start + size;
    &map[start..end]
}
