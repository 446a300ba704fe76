// Reads a script from standard input, a node line and calls on that node, one to a line, and writes a reply to each line to
// standard output. What a line asks for and what is replied is the matter of `scripts`.
#![tactic(auto)]

use scripts::answer_script;
use std::io;
use std::io::{Read, Write};

fn main(rt: HostRuntime) -> io::Result<()> {
    let mut input = Vec::new(rt.alloc());
    rt.stdin().read_to_end(&mut input)?;
    let replies = answer_script(rt.alloc(), &input)?;
    rt.stdout().write_all(&replies)
}
