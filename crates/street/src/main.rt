// A street with a cabinet and two lamps. The cabinet seals commands; the lamps hear them in pieces, in all four lanes at
// once, check them, and take, carry or decline their orders. One frame is damaged, one comes twice and one is for
// somebody else. Each node runs through the call that performs any list of calls on a new node, so what is proved of
// that is what is seen here.
#![tactic(auto)]

use anyhow::{Context, bail};
use history::{Log, log_calls};
use hmac::Hmac;
use node::{Answer, Call, Fields, Outcome, Report};
use sha256::Sha256;
use std::alloc::Global;
use std::fmt;

// The key of the street, which every node has in slot 2.
static KEY: [u8; 16] = *b"lamps of Mill St";

const SLOT: usize = 2;

// Tags of sixteen bytes, HMAC over SHA-256.
const TAG: usize = 16;

const CABINET: u16 = 1;

const FIRST_LAMP: u16 = 11;

const SECOND_LAMP: u16 = 12;

const EVERYBODY: u16 = 65535;

// The kinds of commands.
const LEVEL: u8 = 0;

const SHEET: u8 = 1;

// A call, with the words that it is told in.
type ToldCall<'a> = (&'a str, Call<'a>);

fn install<'a>() -> Call<'a> {
    Call::Install {
        slot: SLOT,
        key: &KEY,
    }
}

fn seal<'a>(slot: usize, kind: u8, body: &'a [u8], address: u16) -> Call<'a> {
    Call::Seal {
        slot,
        kind,
        body,
        address,
        room: 295,
    }
}

fn open<'a>(lane: usize) -> Call<'a> {
    Call::Open { lane, slot: SLOT }
}

fn hear<'a>(lane: usize, piece: &'a [u8]) -> Call<'a> {
    Call::Feed { lane, piece }
}

fn judge<'a>(lane: usize, tag: &'a [u8]) -> Call<'a> {
    Call::Judge { lane, tag }
}

fn take<'a>(frame: &'a [u8]) -> Call<'a> {
    Call::Take { frame }
}

fn order(number: u32, kind: u8, level: u8, size: u16) -> Fields {
    Fields {
        slot: SLOT as u8,
        number,
        kind,
        level,
        place: 8,
        size,
    }
}

// A list of calls on a new node, each told with its answer.
fn run(rt: &HostRuntime, name: &str, address: u16, told: &[ToldCall<'_>]) -> anyhow::Result<Log> {
    let heap = rt.alloc();
    let calls: Vec<Call<'_>> = told.iter().map(|(_, call)| *call).collect(heap)?;
    println!(rt; "{name}, address {address}")?;
    let mut work = [0; 64];
    let log = log_calls::<Sha256, Hmac>(heap, Sha256::new(), TAG, address, &calls, &mut work)?;
    for ((what, _), step) in told.iter().zip(log.steps.iter()) {
        println!(rt; "  {what}: {}", Told(&step.answer))?;
    }
    println!(rt; "  {}\n", Standing(&log.last()))?;
    Ok(log)
}

// An answer, in words.
#[derive(Drop)]
struct Told<'a>(&'a Answer);

impl<'a> fmt::Display for Told<'a> {
    fn fmt<W: fmt::Write>(&self, f: &mut fmt::Formatter<W>) -> fmt::Result {
        match self.0 {
            Err(refusal) => write!(f, "refused by {refusal}"),
            Ok(Outcome::Done) => write!(f, "done"),
            Ok(Outcome::Tag(_)) => write!(f, "a tag"),
            Ok(Outcome::Verdict(true)) => write!(f, "the tag is right"),
            Ok(Outcome::Verdict(false)) => write!(f, "the tag is wrong"),
            Ok(Outcome::Frame(frame)) => write!(f, "a frame of {} bytes", frame.bytes().len()),
            Ok(Outcome::Given(order)) => write!(f, "taken, order number {}", order.number),
        }
    }
}

// A report, in words.
#[derive(Drop)]
struct Standing<'a>(&'a Report);

impl<'a> fmt::Display for Standing<'a> {
    fn fmt<W: fmt::Write>(&self, f: &mut fmt::Formatter<W>) -> fmt::Result {
        let Report {
            reading,
            level,
            taken,
            carried,
            declined,
        } = self.0;
        write!(
            f,
            "burns at {level} %; {taken} taken, {carried} carried, {declined} declined; {reading} rounds"
        )
    }
}

// The frame that a call wrote.
fn frame_at(heap: Global, log: &Log, i: usize) -> anyhow::Result<Vec<u8>> {
    let step = log.steps.get(i).context("no such answer")?;
    let Ok(Outcome::Frame(frame)) = &step.answer else {
        bail!("no frame");
    };
    Ok(frame.bytes().to_vec(heap)?)
}

fn cabinet(rt: &HostRuntime) -> anyhow::Result<Log> {
    let calls = [
        ("installs the street's key in slot 2", install()),
        (
            "seals level 40 for lamp 11",
            seal(SLOT, LEVEL, &[40], FIRST_LAMP),
        ),
        (
            "seals a sheet for everybody",
            seal(SLOT, SHEET, b"fog until nine", EVERYBODY),
        ),
        (
            "seals level 70 for lamp 12",
            seal(SLOT, LEVEL, &[70], SECOND_LAMP),
        ),
        (
            "seals level 101, which is too high",
            seal(SLOT, LEVEL, &[101], SECOND_LAMP),
        ),
        (
            "seals with slot 3, which has no key",
            seal(3, LEVEL, &[0], SECOND_LAMP),
        ),
    ];
    run(rt, "The cabinet", CABINET, &calls)
}

// Four frames come in pieces, each in a lane of its own and all at once. Of each this is what its tag signs.
fn hears<'a>(
    level: &'a [u8; 9],
    sheet: &'a [u8; 22],
    damaged: &'a [u8; 22],
    other: &'a [u8; 9],
) -> [ToldCall<'a>; 12] {
    [
        ("installs the street's key in slot 2", install()),
        ("opens lane 0", open(0)),
        ("opens lane 1", open(1)),
        ("opens lane 2", open(2)),
        ("opens lane 3", open(3)),
        ("hears 3 bytes of the level in lane 0", hear(0, &level[..3])),
        (
            "hears 11 bytes of the sheet in lane 1",
            hear(1, &sheet[..11]),
        ),
        (
            "hears 1 byte of a damaged sheet in lane 2",
            hear(2, &damaged[..1]),
        ),
        (
            "hears the rest of the level in lane 0",
            hear(0, &level[3..]),
        ),
        ("hears the other lamp's level in lane 3", hear(3, other)),
        (
            "hears the rest of the damaged sheet in lane 2",
            hear(2, &damaged[1..]),
        ),
        (
            "hears the rest of the sheet in lane 1",
            hear(1, &sheet[11..]),
        ),
    ]
}

// The tags of the first three.
fn judges<'a>(level: &'a [u8], sheet: &'a [u8], damaged: &'a [u8]) -> [ToldCall<'a>; 4] {
    [
        ("judges lane 0", judge(0, level)),
        ("judges lane 1", judge(1, sheet)),
        ("judges lane 2", judge(2, damaged)),
        ("drops lane 3", Call::Drop { lane: 3 }),
    ]
}

// The whole frames.
fn takes<'a>(
    level: &'a [u8],
    sheet: &'a [u8],
    damaged: &'a [u8],
    other: &'a [u8],
) -> [ToldCall<'a>; 9] {
    let level_order = order(1, LEVEL, 40, 1);
    let sheet_order = order(2, SHEET, 0, 14);
    [
        ("takes the level", take(level)),
        ("takes the sheet with an order still in hand", take(sheet)),
        ("carries the level", Call::Carry { order: level_order }),
        ("takes the level a second time", take(level)),
        ("takes the damaged sheet", take(damaged)),
        ("takes the other lamp's level", take(other)),
        ("takes the sheet", take(sheet)),
        (
            "declines an order that is not the one in hand",
            Call::Decline { order: level_order },
        ),
        ("declines the sheet", Call::Decline { order: sheet_order }),
    ]
}

// What a frame's tag signs, and the tag.
fn apart<'a, const N: usize>(frame: &'a [u8]) -> anyhow::Result<(&'a [u8; N], &'a [u8])> {
    frame.split_first_chunk::<N>().context("a short frame")
}

fn first_lamp<'a>(
    rt: &HostRuntime,
    level: &'a [u8],
    sheet: &'a [u8],
    damaged: &'a [u8],
    other: &'a [u8],
) -> anyhow::Result<Log> {
    let (level_front, level_tag) = apart(level)?;
    let (sheet_front, sheet_tag) = apart(sheet)?;
    let (damaged_front, damaged_tag) = apart(damaged)?;
    let (other_front, _) = apart(other)?;
    let mut calls = Vec::new(rt.alloc());
    calls.extend_from_slice(&hears(level_front, sheet_front, damaged_front, other_front))?;
    calls.extend_from_slice(&judges(level_tag, sheet_tag, damaged_tag))?;
    calls.extend_from_slice(&takes(level, sheet, damaged, other))?;
    run(rt, "The first lamp", FIRST_LAMP, &calls)
}

fn second_lamp<'a>(rt: &HostRuntime, level: &'a [u8], other: &'a [u8]) -> anyhow::Result<Log> {
    let calls = [
        ("takes its level without a key", take(level)),
        ("installs the street's key in slot 2", install()),
        ("takes the first lamp's level", take(other)),
        ("takes its level", take(level)),
        (
            "carries the level",
            Call::Carry {
                order: order(3, LEVEL, 70, 1),
            },
        ),
    ];
    run(rt, "The second lamp", SECOND_LAMP, &calls)
}

// The sheet with one letter of it changed on the way.
fn damage(frame: &mut Vec<u8>) {
    if let Some(byte) = frame.get_mut(12) {
        *byte ^= 1;
    }
}

fn street(rt: &HostRuntime) -> anyhow::Result<()> {
    let heap = rt.alloc();
    let sealed = cabinet(rt)?;
    let level = frame_at(heap, &sealed, 1)?;
    let sheet = frame_at(heap, &sealed, 2)?;
    let other = frame_at(heap, &sealed, 3)?;
    let mut damaged = sheet.clone()?;
    damage(&mut damaged);
    first_lamp(rt, &level, &sheet, &damaged, &other)?;
    second_lamp(rt, &other, &level)?;
    Ok(())
}

fn main(rt: HostRuntime) -> anyhow::Result<()> {
    street(&rt)
}

#[cfg(test)]
mod tests {
    use super::*;
    use history::{run_both, run_calls};
    use std::test::Fail;

    // Two lamps that hear and judge as many bytes, with other bytes and other tags, spend as many rounds: two on the key, two on a tag.
    #[test]
    fn lamps_alike(rt: HostRuntime) -> Result<(), Fail> {
        let heap = rt.alloc();
        let calls = [install(), open(0), hear(0, b"fog"), judge(0, &[0; 16])];
        let other_calls = [install(), open(0), hear(0, b"ice"), judge(0, &[1; 16])];
        let mut work = [1; 64];
        let (report, answers) = run_calls::<Sha256, Hmac>(
            heap,
            Sha256::new(),
            TAG,
            FIRST_LAMP,
            &calls,
            &mut work,
        )?;
        assert_eq!(rt; answers.len(), 4);
        assert_eq!(rt; report.reading, 4);
        let (one, other) = run_both::<Sha256, Hmac>(
            heap,
            Sha256::new(),
            Sha256::new(),
            TAG,
            FIRST_LAMP,
            SECOND_LAMP,
            &calls,
            &other_calls,
            &mut work,
        )?;
        assert_eq!(rt; one.0.reading, 4);
        assert_eq!(rt; other.0.reading, 4);
        Ok(())
    }
}
