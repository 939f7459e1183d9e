// A block at its limit, which is too long for the other programs' input: 2^20 nodes pass, one more is 10. `bench/run` holds the same
// blocks to the Rust, all their nodes included; here the lists are too short on purpose.
#![tactic(auto)]

use error::LentRefusal;
use report::Words;
use std::io;
use way_measure::Sizes;

fn room() -> [u8; 2200000] {
    [0; 2200000]
}

fn words_of(got: Result<(Sizes, usize), LentRefusal>) -> Words {
    match got {
        Ok((s, end)) => questions::three(s.blocks, s.nodes, end as u64),
        Err(r) => questions::lent_refusal_words(r),
    }
}

fn measured(map: &[u8], size: usize) -> Words {
    let Some(map) = map.get(..size) else {
        return report::no_words();
    };
    words_of(way_measure::measure_way_data(map, 0, 1).map_err(LentRefusal::Refused))
}

fn read(map: &[u8]) -> Words {
    let mut counts = [0u64; 4];
    let mut latitudes = [0.0; 1000];
    let mut longitudes = [0.0; 1000];
    words_of(way_data::read_way_data(
        map,
        0,
        1,
        false,
        &mut counts,
        &mut latitudes,
        &mut longitudes,
    ))
}

// 2^20 nodes, the same without the last byte, in lists of 1000, and 2^20 + 1 nodes.
fn main(rt: HostRuntime) -> io::Result<()> {
    let mut out = io::writer(&rt);
    // one data block of one block, whose node count has three bytes; its nodes are zeros
    let most = [1u8, 128, 128, 64];
    let more = [1u8, 129, 128, 64];
    let mut map = room();
    copies::put_front(&mut map, &most);
    report::print_line(&mut out, b'n', measured(&map, 2097156))?;
    report::print_line(&mut out, b'e', measured(&map, 2097155))?;
    report::print_line(&mut out, b'l', read(&map))?;
    copies::put_front(&mut map, &more);
    report::print_line(&mut out, b'm', measured(&map, 2097158))
}
