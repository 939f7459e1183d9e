// Coordinates passed over without decoding them: the fast half of a first pass over a way's data.
#![tactic(auto)]

ghost use Rattle.std.specs.Prelude.{◌≡◌, ◌+◌, ◌*◌, ◌≤◌, length};
ghost use Rattle.coordinates.specs.Skip.{short, skip_of, skip_one, plain_end, is_off, any_off, open_in, start_of, PassedTo};

// A number of more bytes than one is plain by its last two: they have data above the bits that one byte less would hold.
fn plain_end(before: u8, last: u8) -> bool
    ensures { result ≡ plain_end before last }
{
    last % 64 != 0 || 192 <= before
}

// One number of at most 3 bytes: whether it is plain, and where it ends.
fn skip_one(map: &[u8], at: usize) -> Option<(bool, usize)>
    requires { at + 3 ≤ length map.now }
    ensures { result ≡ skip_one (short map.now at) }
{
    let a = map[at];
    if a < 128 {
        return Some((a != 64, at + 1));
    }
    let b = map[at + 1];
    if b < 128 {
        return Some((plain_end(a, b), at + 2));
    }
    let c = map[at + 2];
    if c < 128 {
        return Some((plain_end(b, c), at + 3));
    }
    None
}

// Whether a byte, behind two others, ends a number that is not plain, or is the third of a number and does not end it.
fn is_off(second: u8, before: u8, b: u8) -> bool
    ensures { result ≡ is_off second before b }
{
    ((before < 192) & ((b == 64) | ((b == 0) & (128 <= before))))
        | ((128 <= second) & (128 <= before) & (128 <= b))
}

// Whether one of the eight bytes behind two is off. The compiler asks all eight at once.
fn any_off(map: &[u8], back: usize) -> bool
    requires { back + 10 ≤ length map.now }
    ensures { result ≡ any_off map.now back }
{
    let y = map[back];
    let z = map[back + 1];
    let a = map[back + 2];
    let b = map[back + 3];
    let c = map[back + 4];
    let d = map[back + 5];
    let e = map[back + 6];
    let f = map[back + 7];
    let g = map[back + 8];
    let h = map[back + 9];
    is_off(y, z, a)
        | is_off(z, a, b)
        | is_off(a, b, c)
        | is_off(b, c, d)
        | is_off(c, d, e)
        | is_off(d, e, f)
        | is_off(e, f, g)
        | is_off(f, g, h)
}

// How many of the same eight bytes end no number.
fn open_in(map: &[u8], back: usize) -> u8
    requires { back + 10 ≤ length map.now }
    ensures { result ≡ open_in map.now back }
{
    let a = map[back + 2] / 128;
    let b = map[back + 3] / 128;
    let c = map[back + 4] / 128;
    let d = map[back + 5] / 128;
    let e = map[back + 6] / 128;
    let f = map[back + 7] / 128;
    let g = map[back + 8] / 128;
    let h = map[back + 9] / 128;
    a + b + c + d + e + f + g + h
}

// Where the number starts that goes on behind two bytes.
fn start_of(map: &[u8], back: usize) -> usize
    requires { back + 2 ≤ length map.now }
    ensures { result ≡ start_of map.now back }
{
    if map[back + 1] < 128 {
        return back + 2;
    }
    if map[back] < 128 {
        return back + 1;
    }
    back
}

// Where the numbers start that are not passed yet, and how many they are.
#[derive(Clone, Copy)]
struct Rest {
    next: usize,
    left: u64,
}

// As many of n numbers as are passed by eights, all of them plain.
fn skip_eights(map: &[u8], at: usize, n: u64) -> Rest
    requires { at + 3 * n ≤ length map.now }
    ensures { PassedTo map.now at n result.next result.left }
{
    if at < 2 {
        return Rest { next: at, left: n };
    }
    let mut back = at - 2;
    if 128 <= map[back + 1] {
        return Rest { next: at, left: n };
    }
    let mut left = n;
    // counted by what eight bytes hold, not by turns
    while 8 <= left {
        if any_off(map, back) {
            break;
        }
        left = left - 8 + open_in(map, back) as u64;
        back += 8;
    }
    Rest {
        next: start_of(map, back),
        left,
    }
}

// Whether n coordinates of at most 3 bytes are all plain, and where they end. 3 bytes hold 20 bits, so none of them is refused. That the map
// has bytes for all of them is asked once: none stands for a map that may end in them, or for coordinates that are not all short.
pub fn skip_coordinates(map: &[u8], at: usize, n: u64) -> Option<(bool, usize)>
    ensures { result ≡ skip_of map.now at n }
{
    let len = map.len();
    if len < at {
        return None;
    }
    let room = ((len - at) / 3) as u64;
    if room < n {
        return None;
    }
    let rest = skip_eights(map, at, n);
    let mut next = rest.next;
    let mut plain = true;
    for _ in 0..rest.left {
        let (p, after) = skip_one(map, next)?;
        plain = plain & p;
        next = after;
    }
    Some((plain, next))
}
