// way.rs: how many blocks and nodes the data of a way has, and where it ends. This is the first of two passes: a refusal leaves the
// lent lists as they were, so nothing is written before all is known to be readable.
#![tactic(auto)]

ghost use Rattle.std.specs.Prelude.{◌≡◌};
ghost use Rattle.parsing.specs.Parse.{map_res, many};
ghost use Rattle.byte_source.specs.Answers.{read_by, read_res};
ghost use Rattle.utils.specs.Answers.{noted_held, noted_by};
ghost use Rattle.format.specs.WayData.{node, block, data_block, way_data};
ghost use Rattle.way_measure.specs.Answers.{node_held, count_of, nodes_count, sizes_of, blocks_sizes, way_sizes};

use byte_source::Read;
use error::Refusal;
use utils::{Microdegrees, Noted};

// A node as stored: its position, or a delta.
#[derive(Clone, Copy)]
pub struct Node {
    pub latitude: Microdegrees,
    pub longitude: Microdegrees,
}

// How many coordinate blocks, how many nodes all of them have, and whether every number was plain.
#[derive(Clone, Copy)]
pub struct Sizes {
    pub blocks: u64,
    pub nodes: u64,
    pub plain: bool,
}

pub fn read_node(map: &[u8], at: usize) -> Read<Noted<Node>>
    ensures { read_by (noted_by node_held) result ≡ node map.now at }
{
    let (latitude, at) = utils::read_microdegrees(map, at)?;
    let (longitude, at) = utils::read_microdegrees(map, at)?;
    let value = Node {
        latitude: latitude.value,
        longitude: longitude.value,
    };
    let plain = latitude.plain & longitude.plain;
    Ok((Noted { value, plain }, at))
}

// The slow way over n nodes: each is decoded, so a refusal comes at its place. `plain` is what is said of the count before them.
fn measure_nodes(map: &[u8], at: usize, n: u64, plain: bool) -> Read<Noted<u64>>
    ensures { read_by noted_held result ≡ map_res (nodes_count plain) (many node n map.now at) }
{
    let mut next = at;
    let mut plain = plain;
    for _ in 0..n {
        let (node, after) = read_node(map, next)?;
        plain = plain & node.plain;
        next = after;
    }
    Ok((Noted { value: n, plain }, next))
}

// A block's node count. Nodes of short numbers, nearly all, are passed over without decoding them.
fn measure_block(map: &[u8], at: usize) -> Read<Noted<u64>>
    ensures { read_by noted_held result ≡ map_res count_of (block map.now at) }
{
    let (n, at) = utils::read_vbe_u_int(map, at)?;
    if 1048576 < n.value {
        return Err(Refusal::TooManyNodes);
    }
    let Some((p, end)) = coordinates::skip_coordinates(map, at, 2 * n.value) else {
        return measure_nodes(map, at, n.value, n.plain);
    };
    let count = Noted {
        value: n.value,
        plain: n.plain & p,
    };
    Ok((count, end))
}

// n blocks. `plain` is what is said of the count before them.
fn measure_blocks(map: &[u8], at: usize, n: u64, plain: bool) -> Read<Sizes>
    ensures { read_res result ≡ map_res (blocks_sizes plain) (many block n map.now at) }
{
    let mut next = at;
    let mut nodes: u64 = 0;
    let mut plain = plain;
    for _ in 0..n {
        let (count, after) = measure_block(map, next)?;
        nodes += count.value;
        plain = plain & count.plain;
        next = after;
    }
    let sizes = Sizes {
        blocks: n,
        nodes,
        plain,
    };
    Ok((sizes, next))
}

fn measure_data_block(map: &[u8], at: usize) -> Read<Sizes>
    ensures { read_res result ≡ map_res sizes_of (data_block map.now at) }
{
    let (n, at) = utils::read_vbe_u_int(map, at)?;
    measure_blocks(map, at, n.value, n.plain)
}

// The first pass. Each turn passes a byte or is refused, so that counts up to 2^64 - 1 end, and no sum wraps.
pub fn measure_way_data(map: &[u8], at: usize, data_blocks: u64) -> Read<Sizes>
    ensures { read_res result ≡ map_res way_sizes (way_data data_blocks map.now at) }
{
    let mut next = at;
    let mut blocks: u64 = 0;
    let mut nodes: u64 = 0;
    let mut plain = true;
    for _ in 0..data_blocks {
        let (sizes, after) = measure_data_block(map, next)?;
        blocks += sizes.blocks;
        nodes += sizes.nodes;
        plain = plain & sizes.plain;
        next = after;
    }
    let sizes = Sizes {
        blocks,
        nodes,
        plain,
    };
    Ok((sizes, next))
}
