// Runs published examples: reads rows on standard input, works each one out, and prints each row that disagrees and
// how many agree. A tag is made twice, by the one-shot call and by a run that is fed the message in pieces. A line that
// is no row ends the program with an error.
#![tactic(auto)]

ghost use Rattle.std.specs.Prelude.{◌≡◌, true, ◌++◌, length, drop};
ghost use Rattle.hash.specs.Meaning.{hashed};
ghost use Rattle.tags.specs.Asked.{written, Long};
ghost use Rattle.vectors.specs.Codes.{code_of, tag_asked};

use crate::pieces::tag_in_pieces;
use crate::rows::{AskRow, HashRow, Request, Row, TagRow, read_row};
use hash::{Hash, hash_message};
use refusals::Refusal;
use ripemd160::Ripemd160;
use sha_1::Sha1;
use sha256::Sha256;
use std::io::{BufRead, BufReader};
use std::{fmt, io};
use tags::{HashKind, make_tag};

mod pieces;
mod rows;

// How many rows agree, and how many do not.
#[derive(Drop)]
struct Count {
    what: &'static str,
    agree: u64,
    differ: u64,
}

impl Count {
    fn new(what: &'static str) -> Count {
        Count {
            what,
            agree: 0,
            differ: 0,
        }
    }

    // Counts a row, and prints it if it disagrees.
    fn row(&mut self, rt: &impl Print, line: &str, agrees: bool) -> io::Result<()> {
        if agrees {
            self.agree = self.agree.saturating_add(1);
            return Ok(());
        }
        self.differ = self.differ.saturating_add(1);
        println!(rt; "{}: differs: {line}", self.what)
    }
}

impl fmt::Display for Count {
    fn fmt<W: fmt::Write>(&self, f: &mut fmt::Formatter<W>) -> fmt::Result {
        write!(
            f,
            "{}: {} agree, {} differ",
            self.what, self.agree, self.differ
        )
    }
}

// Whether the place begins with these bytes, and they are n.
#[tactic(auto, using(crate::proofs::Front::begun))]
fn begins(place: &[u8; 32], n: usize, bytes: &[u8]) -> bool
    ensures { result ≡ true → (length bytes.now ≡ n) × (place.now ≡ bytes.now ++ drop n place.now) }
{
    bytes.len() == n && place.starts_with(bytes)
}

// Whether a message has this code. Where it has, that is the code by the definition.
fn has_code<H: Hash>(hash: &mut H, message: &[u8], code: &[u8]) -> bool
    ensures { result ≡ true → code.now ≡ hashed H.meaning message.now }
{
    let mut out = [0; 32];
    hash_message(hash, message, &mut out);
    begins(&out, 4 * H::shape_of().words, code)
}

// Whether the hash gives the row's code. Where it does, that is the code by the definition.
fn hash_agrees(row: &HashRow) -> bool
    ensures { result ≡ true → row.now.code.items ≡ code_of row.now.hash row.now.message.items }
{
    match HashKind::try_from(row.hash) {
        Ok(HashKind::OfRipemd160) => has_code(&mut Ripemd160::new(), &row.message, &row.code),
        Ok(HashKind::OfSha1) => has_code(&mut Sha1::new(), &row.message, &row.code),
        Ok(HashKind::OfSha256) => has_code(&mut Sha256::new(), &row.message, &row.code),
        Err(_) => false,
    }
}

// The one-shot call of a request.
fn call(request: &Request, out: &mut [u8], work: &mut [u8; 64]) -> Result<u64, Refusal>
    ensures tag { out.new ≡ written result (tag_asked request.now) request.now.t out.old }
    ensures long { Long result (tag_asked request.now) request.now.t (length out.old) }
{
    make_tag(
        request.algorithm,
        request.hash,
        request.t,
        &request.key,
        &request.message,
        out,
        work,
    )
}

// Whether the one-shot call gives the row's tag. Where it does, that is the tag by the definition.
fn call_agrees(row: &TagRow) -> bool
    ensures { result ≡ true → row.now.tag.items ≡ tag_asked row.now.request }
{
    let mut out = [0; 32];
    let made = call(&row.request, &mut out, &mut [0; 64]);
    made.is_ok() && begins(&out, row.request.t, &row.tag)
}

// Whether a run gives the row's tag.
fn pieces_agree(row: &TagRow) -> bool {
    let mut out = [0; 32];
    let made = tag_in_pieces(&row.request, &mut out);
    made.is_ok() && begins(&out, row.request.t, &row.tag)
}

// Whether the one-shot call answers with the row's number. A refusal leaves the place to write as it was, and the work
// block is wiped either way.
fn number_agrees(row: &AskRow) -> bool {
    let room = row.room.min(32);
    let mut out = [0xee; 32];
    let mut work = [0xee; 64];
    let number = match call(&row.request, &mut out[0..room], &mut work) {
        Ok(_) => 0,
        Err(refusal) => u8::from(refusal),
    };
    number == row.number && work == [0; 64] && (number == 0 || out == [0xee; 32])
}

fn run(rt: &HostRuntime) -> anyhow::Result<()> {
    let heap = rt.alloc();
    let mut hashes = Count::new("hash rows");
    let mut calls = Count::new("tag rows, by one call");
    let mut runs = Count::new("tag rows, in pieces");
    let mut asked = Count::new("answer numbers");
    for line in BufReader::new(heap, rt.stdin())?.lines(heap) {
        let line = line?;
        let text = line.as_str();
        match read_row(heap, text)? {
            Row::Plain(row) => hashes.row(rt, text, hash_agrees(&row))?,
            Row::Keyed(row) => {
                calls.row(rt, text, call_agrees(&row))?;
                runs.row(rt, text, pieces_agree(&row))?;
            }
            Row::Asking(row) => asked.row(rt, text, number_agrees(&row))?,
        }
    }
    println!(rt; "{hashes}\n{calls}\n{runs}\n{asked}")?;
    Ok(())
}

fn main(rt: HostRuntime) -> anyhow::Result<()> {
    run(&rt)
}
