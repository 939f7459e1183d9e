// way.rs: the initial positions of a way's blocks, from the node counts and the coordinates that were read.
#![tactic(auto)]

ghost use Rattle.std.specs.Prelude.{◌≡◌, drop};
ghost use Rattle.initial_positions.specs.Initial.{first_of, write_initials};

// The first of the n values from pos on.
fn first_of(values: &[f64], pos: usize, n: u64) -> f64
    ensures { result ≡ first_of n (drop pos values.now) }
{
    if n < 1 || values.len() <= pos {
        return 0.0;
    }
    values[pos]
}

// Writes the first coordinate of each block to the front of a list, if it is long enough for all.
pub fn write_initials(node_counts: &[u64], values: &[f64], initials: &mut [f64])
    ensures { initials.new ≡ write_initials node_counts.now values.now initials.old }
{
    if initials.len() < node_counts.len() {
        return;
    }
    let mut pos = 0;
    for (i, &n) in node_counts.iter().enumerate() {
        initials[i] = first_of(values, pos, n);
        pos += (n as usize).min(values.len() - pos);
    }
}
