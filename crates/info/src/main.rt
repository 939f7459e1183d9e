// Shows the header of the map that its argument names.
#![tactic(auto)]

mod show;

use std::alloc::Global;
use std::fs::File;
use std::io::{BufWriter, Read, Write};
use std::{env, io};

fn show_map<W: Write>(to: &mut W, map: &[u8]) -> io::Result<()> {
    match opening::from_source(map) {
        Ok((header, at)) => show::header(to, map, header, at),
        Err(r) => show::refusal(to, r),
    }
}

// No more than the program shows, and one byte.
fn read_map<R: Read + Drop>(alloc: Global, from: R) -> io::Result<Vec<u8>> {
    let mut map = Vec::new(alloc);
    from.take(1100000).read_to_end(&mut map)?;
    Ok(map)
}

fn show_file<W: Write, R: Read + Drop>(to: &mut W, alloc: Global, from: R) -> io::Result<()> {
    let map = read_map(alloc, from)?;
    if 1100000 <= map.len() {
        return writeln!(
            to,
            "the map is larger than this program reads (1,099,999 bytes)"
        );
    }
    show_map(to, &map)
}

// A path of as many bytes or more is none that can be opened.
const TOO_LONG: usize = 4096;

fn main(rt: HostRuntime) -> io::Result<()> {
    let Some(path) = env::args(&rt)?.nth(1) else {
        return println!(rt; "usage: info MAP");
    };
    if TOO_LONG <= path.len() {
        return println!(rt; "usage: info MAP");
    }
    match File::open(&rt, &path) {
        Ok(file) => {
            let mut out = BufWriter::new(rt.alloc(), io::writer(&rt))?;
            show_file(&mut out, rt.alloc(), file)?;
            out.flush()
        }
        Err(e) => eprintln!(rt; "{path}: {e}"),
    }
}
