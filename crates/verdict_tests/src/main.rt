// The judge's one call, `write_verdict`, on tables of texts: every layer, and every refusal that a text can reach.
//
// The tables stand in data/; data/README.txt says how they are written. Each row has the text of a case, the text of its
// evidence and the row of the verdict on them, which was worked out by hand from docs/. The file stdout has every row ok.
#![tactic(auto)]

mod bench;
mod notation;

use bench::Bench;
use std::alloc::{AllocError, Global};
use std::{fs, io};

const TABLES: [&str; 7] = [
    "case_text.txt",
    "evidence_text.txt",
    "case.txt",
    "run.txt",
    "certificate.txt",
    "layers.txt",
    "room.txt",
];

// Evidence of a thousand moves: in thread 0 eight reads pass a write, in thread 1 each of 32 reads passes 31 writes.
fn thousand_moves(heap: Global) -> Result<Vec<u8>, AllocError> {
    let mut text = String::from_str(heap, "item,thread,place,count\r\n")?;
    for place in 2..10u8 {
        text.push_str(format!(in heap; "M,0,{place},0\r\n")?.as_str())?;
    }
    for read in 0..32u8 {
        for write in (1..32u8).rev() {
            let place = read + write;
            text.push_str(format!(in heap; "M,1,{place},0\r\n")?.as_str())?;
        }
    }
    Ok(text.into_bytes())
}

fn take_table(rt: &HostRuntime, bench: &mut Bench, name: &str) -> io::Result<()> {
    let table = fs::read_to_string(rt, name)?;
    for line in table.lines() {
        bench.take(rt, line)?;
    }
    Ok(())
}

fn main(rt: HostRuntime) -> io::Result<()> {
    let mut bench = Bench::new(rt.alloc());
    for name in TABLES {
        take_table(&rt, &mut bench, name)?;
    }
    bench.evidence = thousand_moves(rt.alloc())?;
    take_table(&rt, &mut bench, "longest.txt")?;
    bench.report(&rt)
}
