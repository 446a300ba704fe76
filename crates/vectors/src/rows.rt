// Rows of examples, as text: `hash H MESSAGE CODE`, `tag A H T KEY MESSAGE TAG`, and `ask A H T KEY MESSAGE ROOM NUMBER`
// for the number that the one-shot call answers with, 0 where it accepts. Bytes are pairs of
// upper-case hexadecimal digits, or `-` for none; a message may also be a byte and how often it stands, `61*1000000`,
// and so may the key of an `ask` row.
ghost use Rattle.std.specs.Prelude.{◌<◌, IfSome};

use anyhow::{Context, anyhow};
use std::alloc::Global;

#[derive(Drop)]
pub struct HashRow {
    pub hash: u32,
    pub message: Vec<u8>,
    pub code: Vec<u8>,
}

// What a tag is asked of. Algorithm and hash are numbers, as the one-shot call takes them: a row may name what there is not.
#[derive(Drop)]
pub struct Request {
    pub algorithm: u32,
    pub hash: u32,
    pub t: usize,
    pub key: Vec<u8>,
    pub message: Vec<u8>,
}

#[derive(Drop)]
pub struct TagRow {
    pub request: Request,
    pub tag: Vec<u8>,
}

#[derive(Drop)]
pub struct AskRow {
    pub request: Request,
    pub room: usize,
    pub number: u8,
}

#[derive(Drop)]
pub enum Row {
    Plain(HashRow),
    Keyed(TagRow),
    Asking(AskRow),
}

// The value of a hexadecimal digit. Crate text reads pairs too, but does not tell which of the two errors below a row has.
fn digit(letter: u8) -> Option<u8>
    ensures { IfSome result (λ d. d < 16) }
{
    match letter {
        b'0'..=b'9' => Some(letter - b'0'),
        b'A'..=b'F' => Some(letter - b'A' + 10),
        _ => None,
    }
}

fn byte(pair: &[u8]) -> anyhow::Result<u8> {
    let [high, low] = pair else {
        return Err(anyhow!("half a byte"));
    };
    let high = digit(*high).context("no hexadecimal digit")?;
    let low = digit(*low).context("no hexadecimal digit")?;
    Ok(high * 16 + low)
}

fn bytes(heap: Global, field: &str) -> anyhow::Result<Vec<u8>> {
    if field == "-" {
        return Ok(Vec::new(heap));
    }
    field.as_bytes().chunks(2).map(byte).try_collect(heap)
}

fn message(heap: Global, field: &str) -> anyhow::Result<Vec<u8>> {
    let Some((letter, times)) = field.split_once('*') else {
        return bytes(heap, field);
    };
    let letter = byte(letter.as_bytes())?;
    let times = times.parse::<usize>()?;
    Ok(vec![in heap; letter; times]?)
}

pub(crate) fn read_row(heap: Global, line: &str) -> anyhow::Result<Row> {
    let fields: Vec<&str> = line.split_whitespace().collect(heap)?;
    match fields.as_slice() {
        ["hash", hash, text, code] => Ok(Row::Plain(HashRow {
            hash: hash.parse()?,
            message: message(heap, text)?,
            code: bytes(heap, code)?,
        })),
        ["tag", algorithm, hash, t, key, text, tag] => Ok(Row::Keyed(TagRow {
            request: Request {
                algorithm: algorithm.parse()?,
                hash: hash.parse()?,
                t: t.parse()?,
                key: bytes(heap, key)?,
                message: message(heap, text)?,
            },
            tag: bytes(heap, tag)?,
        })),
        ["ask", algorithm, hash, t, key, text, room, number] => Ok(Row::Asking(AskRow {
            request: Request {
                algorithm: algorithm.parse()?,
                hash: hash.parse()?,
                t: t.parse()?,
                key: message(heap, key)?,
                message: message(heap, text)?,
            },
            room: room.parse()?,
            number: number.parse()?,
        })),
        _ => Err(anyhow!("no row")),
    }
}
