// way.rs: the nodes of a way in degrees, written to the fronts of lent lists. What is written was measured before, so that a refusal
// leaves the lists as they were.
#![tactic(auto)]

ghost use Rattle.std.specs.Prelude.{◌≡◌, ◌<◌, ◌≤◌, ◌^◌, nat_abs};
ghost use Rattle.parsing.specs.Parse.{map_res, many, Fine};
ghost use Rattle.utils.specs.Vbe.{signed_of, coordinate};
ghost use Rattle.utils.specs.Degree.{degrees};
ghost use Rattle.format.specs.WayData.{way_data, concat};
ghost use Rattle.format.specs.Nodes.{next_delta};
ghost use Rattle.way_data.specs.Reply.{reply, read_way_data};
ghost use Rattle.way_data.specs.Writes.{node_alone, data_block_alone, shorter, too_short, coordinate_res, node_res, Exact, start_at, moved_by, later, in_block, one_block, NodesFit, NodesWritten, BlocksFit, BlocksWritten};

use error::{Lengths, LentRefusal};
use utils::{Degrees, Microdegrees};
use way_measure::{Node, Sizes};

// The last node of a block in degrees, and the delta that led to it.
#[derive(Clone, Copy)]
struct Cursor {
    latitude: f64,
    longitude: f64,
    dlat: f64,
    dlon: f64,
}

// Where the second pass is, in the map and in the lists of blocks and of nodes.
#[derive(Clone, Copy)]
struct Progress {
    next: usize,
    blocks: usize,
    nodes: usize,
}

fn next_delta(double: bool, delta: f64, stored: f64) -> f64
    ensures { result ≡ next_delta double delta stored }
{
    if double {
        return delta + stored;
    }
    stored
}

// In degrees. The first pass has read it, so it is at most 2^53, and the cast is exact:
// `microdegrees_to_degrees` would ask again, for each coordinate of the second pass.
fn exact_degrees(m: Microdegrees) -> Degrees
    requires { nat_abs m.0 ≤ 2 ^ 53 }
    ensures { result.0 ≡ degrees m.0 }
{
    Degrees(m.0 as f64 / 1000000.0)
}

// A block's first node, as stored.
fn first_node(n: Node) -> Cursor
    requires { Exact n }
    ensures { result ≡ start_at n }
{
    let lat = exact_degrees(n.latitude);
    let lon = exact_degrees(n.longitude);
    Cursor {
        latitude: lat.0,
        longitude: lon.0,
        dlat: 0.0,
        dlon: 0.0,
    }
}

// A later node, from the one before it.
fn next_node(last: Cursor, double: bool, n: Node) -> Cursor
    requires { Exact n }
    ensures { result ≡ moved_by double last n }
{
    let stored = first_node(n);
    let dlat = next_delta(double, last.dlat, stored.latitude);
    let dlon = next_delta(double, last.dlon, stored.longitude);
    Cursor {
        latitude: last.latitude + dlat,
        longitude: last.longitude + dlon,
        dlat,
        dlon,
    }
}

// The microdegrees of this magnitude, negative unless `sign` is 0. As in utils, where it is private.
fn signed_of(v: u64, sign: u64) -> Microdegrees
    requires { v < 2 ^ 63 }
    ensures { result.0 ≡ signed_of v sign }
{
    let m = v as i64;
    if sign == 0 {
        return Microdegrees(m);
    }
    Microdegrees(0 - m)
}

// A coordinate of any length, and the place behind it. The first pass has read it, so it is not refused.
fn long_coordinate(map: &[u8], at: usize) -> (Microdegrees, usize)
    requires { Fine (coordinate map.now at) }
    ensures { coordinate_res result ≡ coordinate map.now at }
{
    let Ok((coordinate, next)) = utils::read_microdegrees(map, at) else {
        return (Microdegrees(0), at);
    };
    (coordinate.value, next)
}

// The same, read here where it has at most three bytes, as nearly all have.
fn known_coordinate(map: &[u8], at: usize) -> (Microdegrees, usize)
    requires { Fine (coordinate map.now at) }
    ensures { coordinate_res result ≡ coordinate map.now at }
{
    let a = map[at] as u64;
    if a < 128 {
        return (signed_of(a % 64, a / 64), at + 1);
    }
    let b = map[at + 1] as u64;
    if b < 128 {
        return (signed_of(a % 128 + 128 * (b % 64), b / 64), at + 2);
    }
    let c = map[at + 2] as u64;
    if c < 128 {
        let magnitude = a % 128 + 128 * (b % 128) + 16384 * (c % 64);
        return (signed_of(magnitude, c / 64), at + 3);
    }
    long_coordinate(map, at)
}

// A node, and the place behind it.
fn known_node(map: &[u8], at: usize) -> (Node, usize)
    requires { Fine (node_alone map.now at) }
    ensures { node_res result ≡ node_alone map.now at }
{
    let (latitude, next) = known_coordinate(map, at);
    let (longitude, next) = known_coordinate(map, next);
    let node = Node {
        latitude,
        longitude,
    };
    (node, next)
}

// The nodes behind the first.
// Here and below each list is a parameter: of a struct of &muts every function would have to promise, too, that its fields are the same lists.
fn write_later(
    map: &[u8],
    at: usize,
    n: u64,
    double: bool,
    first: Cursor,
    latitudes: &mut [f64],
    longitudes: &mut [f64],
    from: usize,
) -> usize
    requires { NodesFit map.now at n from latitudes.old longitudes.old }
    ensures { NodesWritten (later double first) (many node_alone n map.now at) from latitudes.old longitudes.old result latitudes.new longitudes.new }
{
    let mut last = first;
    let mut next = at;
    for pos in from..from + n as usize {
        let (node, after) = known_node(map, next);
        last = next_node(last, double, node);
        latitudes[pos] = last.latitude;
        longitudes[pos] = last.longitude;
        next = after;
    }
    next
}

// All nodes of a block.
fn write_nodes(
    map: &[u8],
    at: usize,
    n: u64,
    double: bool,
    latitudes: &mut [f64],
    longitudes: &mut [f64],
    from: usize,
) -> usize
    requires { NodesFit map.now at n from latitudes.old longitudes.old }
    ensures { NodesWritten (in_block double) (many node_alone n map.now at) from latitudes.old longitudes.old result latitudes.new longitudes.new }
{
    if n < 1 {
        return at;
    }
    let (node, next) = known_node(map, at);
    let first = first_node(node);
    latitudes[from] = first.latitude;
    longitudes[from] = first.longitude;
    write_later(
        map,
        next,
        n - 1,
        double,
        first,
        latitudes,
        longitudes,
        from + 1,
    )
}

fn write_block(
    map: &[u8],
    from: Progress,
    double: bool,
    counts: &mut [u64],
    latitudes: &mut [f64],
    longitudes: &mut [f64],
) -> Progress
    requires { BlocksFit (one_block map.now from.next) from counts.old latitudes.old longitudes.old }
    ensures { BlocksWritten double (one_block map.now from.next) from counts.old latitudes.old longitudes.old result counts.new latitudes.new longitudes.new }
{
    let Ok((n, start)) = utils::read_number(map, from.next) else {
        return from;
    };
    let block = from.blocks;
    counts[block] = n;
    let next = write_nodes(map, start, n, double, latitudes, longitudes, from.nodes);
    Progress {
        next,
        blocks: block + 1,
        nodes: from.nodes + n as usize,
    }
}

fn write_blocks(
    map: &[u8],
    from: Progress,
    n: u64,
    double: bool,
    counts: &mut [u64],
    latitudes: &mut [f64],
    longitudes: &mut [f64],
) -> Progress
    requires { BlocksFit (map_res concat (many one_block n map.now from.next)) from counts.old latitudes.old longitudes.old }
    ensures { BlocksWritten double (map_res concat (many one_block n map.now from.next)) from counts.old latitudes.old longitudes.old result counts.new latitudes.new longitudes.new }
{
    let mut place = from;
    for _ in 0..n {
        place = write_block(map, place, double, counts, latitudes, longitudes);
    }
    place
}

fn write_data_block(
    map: &[u8],
    from: Progress,
    double: bool,
    counts: &mut [u64],
    latitudes: &mut [f64],
    longitudes: &mut [f64],
) -> Progress
    requires { BlocksFit (data_block_alone map.now from.next) from counts.old latitudes.old longitudes.old }
    ensures { BlocksWritten double (data_block_alone map.now from.next) from counts.old latitudes.old longitudes.old result counts.new latitudes.new longitudes.new }
{
    let Ok((n, next)) = utils::read_number(map, from.next) else {
        return from;
    };
    let place = Progress { next, ..from };
    write_blocks(map, place, n, double, counts, latitudes, longitudes)
}

// The second pass. One function for this and `write_blocks` would take the step with its contract of two numbers and three lists: no plainer.
fn write_way_data(
    map: &[u8],
    from: Progress,
    n: u64,
    double: bool,
    counts: &mut [u64],
    latitudes: &mut [f64],
    longitudes: &mut [f64],
) -> Progress
    requires { BlocksFit (map_res concat (many data_block_alone n map.now from.next)) from counts.old latitudes.old longitudes.old }
    ensures { BlocksWritten double (map_res concat (many data_block_alone n map.now from.next)) from counts.old latitudes.old longitudes.old result counts.new latitudes.new longitudes.new }
{
    let mut place = from;
    for _ in 0..n {
        place = write_data_block(map, place, double, counts, latitudes, longitudes);
    }
    place
}

// Whether a list of one of these lengths is shorter than what goes to it.
fn shorter(s: Sizes, counts: usize, latitudes: usize, longitudes: usize) -> bool
    ensures { result ≡ shorter s counts latitudes longitudes }
{
    (counts as u64) < s.blocks || (latitudes as u64) < s.nodes || (longitudes as u64) < s.nodes
}

// The refusal that gives the lengths needed: of the node counts, the latitudes and the longitudes.
fn too_short(s: Sizes) -> LentRefusal
    ensures { result ≡ too_short s }
{
    LentRefusal::Short(Lengths {
        list1: s.blocks,
        list2: s.nodes,
        list3: s.nodes,
        ..Lengths::NONE
    })
}

// Reads the data blocks whole, then writes node counts, latitudes and longitudes to the fronts of the lists.
pub fn read_way_data(
    map: &[u8],
    at: usize,
    data_blocks: u64,
    double: bool,
    node_counts: &mut [u64],
    latitudes: &mut [f64],
    longitudes: &mut [f64],
) -> Result<(Sizes, usize), LentRefusal>
    ensures { reply result node_counts.new latitudes.new longitudes.new ≡ read_way_data double (way_data data_blocks map.now at) node_counts.old latitudes.old longitudes.old }
{
    let (sizes, end) = way_measure::measure_way_data(map, at, data_blocks)?;
    if shorter(sizes, node_counts.len(), latitudes.len(), longitudes.len()) {
        return Err(too_short(sizes));
    }
    let from = Progress {
        next: at,
        blocks: 0,
        nodes: 0,
    };
    write_way_data(
        map,
        from,
        data_blocks,
        double,
        node_counts,
        latitudes,
        longitudes,
    );
    Ok((sizes, end))
}
