// Copies of a map for the runs against the Rust, and damage done to them.
#![tactic(auto)]

ghost use Rattle.std.specs.Prelude.{◌≡◌};
ghost use Rattle.std.proofs.lemmas.List.Edits.{sets};
ghost use Rattle.copies.specs.Damage.{turned, damaged};

// The bytes in front of the copy, as far as it goes.
#[tactic(auto, using(crate::proofs::CopyLaws::front_is))]
pub fn put_front(copy: &mut [u8], bytes: &[u8])
    ensures { copy.new ≡ sets copy.old 0 bytes.now }
{
    let n = copy.len().min(bytes.len());
    copy[..n].copy_from_slice(&bytes[..n]);
}

// A byte with its lowest bit turned over.
#[tactic(auto, unfolding(crate::specs::Damage::turned))]
fn lowest_turned(b: u8) -> u8
    ensures { result ≡ turned 0 b }
{
    if b % 2 == 0 {
        return b + 1;
    }
    b - 1
}

// The same with its highest bit.
#[tactic(auto, unfolding(crate::specs::Damage::turned))]
fn highest_turned(b: u8) -> u8
    ensures { result ≡ turned 1 b }
{
    if b < 128 {
        return b + 128;
    }
    b - 128
}

// Damage n turns a bit of byte n / 3 over, its lowest or its highest, or every bit; done again, it takes the damage back.
#[tactic(auto, using(crate::proofs::CopyLaws::set_past), unfolding(crate::specs::Damage::damaged, crate::specs::Damage::turned))]
pub fn damage(copy: &mut [u8], n: usize)
    ensures { copy.new ≡ damaged copy.old n }
{
    let at = n / 3;
    if copy.len() <= at {
        return;
    }
    let b = copy[at];
    copy[at] = match n % 3 {
        0 => lowest_turned(b),
        1 => highest_turned(b),
        _ => 255 - b,
    };
}
