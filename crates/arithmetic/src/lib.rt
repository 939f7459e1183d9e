// Powers modulo 2^64 with an exponent of 64 bits, and sums in document 01's words.
#![tactic(auto)]

ghost use Rattle.std.specs.Prelude.{◌≡◌, ◌+◌, ◌*◌, ◌%◌, ◌^◌};
ghost use Rattle.arithmetic.specs.Cut.{cut};

// r times b if e is odd.
fn times_if_odd(r: u64, b: u64, e: u64) -> u64
    ensures { result ≡ r * b ^ (e % 2) % 2 ^ 64 }
{
    if e % 2 == 0 {
        return r;
    }
    r.wrapping_mul(b)
}

// base to the power exp, modulo 2^64. The loop goes by the exponent's bits, and std's `wrapping_pow` has room for 32 of them.
pub fn wrapping_pow_u64(base: u64, exp: u64) -> u64
    ensures { result ≡ base ^ exp % 2 ^ 64 }
{
    let mut r = 1;
    let mut b = base;
    let mut e = exp;
    while 0 < e {
        r = times_if_odd(r, b, e);
        b = b.wrapping_mul(b);
        e /= 2;
    }
    r
}

// a + b, or 2^64 - 1 where the sum is above it.
pub fn saturating_add_usize(a: usize, b: usize) -> usize
    ensures { result ≡ cut (a + b) }
{
    a.saturating_add(b)
}
