// Reads requests for tags from standard input, one to a line, and writes a reply to each to standard output. What a line
// asks for and what is replied is the matter of `requests`; here input and output go by large pieces. A read takes what
// is there, and its replies go out at once.
#![tactic(auto)]

use requests::Lines;
use std::io;
use std::io::{Read, Write};

// The most bytes of one read.
const CHUNK: usize = 65536;

fn main(rt: HostRuntime) -> io::Result<()> {
    let mut input = rt.stdin();
    let mut output = rt.stdout();
    let mut lines = Lines::new();
    let mut out = Vec::new(rt.alloc());
    let mut chunk = [0u8; CHUNK];
    // nothing says that an input ends, so the reads are counted
    for _ in 0..u64::MAX {
        let n = input.read(&mut chunk)?;
        if n == 0 {
            break;
        }
        lines.feed(&chunk[0..n], &mut out)?;
        output.write_all(&out)?;
        out.clear();
    }
    lines.finish(&mut out)?;
    output.write_all(&out)
}
