// The calls that the lines of a script ask for. A call borrows its bytes from the command that spells it.
ghost use Rattle.std.specs.Prelude.{◌≡◌, ◌≤◌, [], ◌∷◌, ◌++◌, map, length, IfOk, OnOk, slice_index};
ghost use Rattle.std.specs.Option.{option_map};
ghost use Rattle.scripts.specs.Calls.{numbers_of, spelled, calls_asked};
ghost use Rattle.scripts.specs.Six.{six_of, OrderFits};
ghost use Rattle.scripts.specs.Told.{told};

use crate::command::Command;
use crate::verb::{Deed, Verb};
use node::{Call, Fields};
use std::alloc::{AllocError, Global};

fn number_at(numbers: &[u64], i: usize) -> u64
    ensures { result ≡ slice_index numbers.now i }
{
    if i < numbers.len() { numbers[i] } else { 0 }
}

// The first six of the numbers, 0 where there are fewer.
pub(crate) fn six(numbers: &[u64]) -> [u64; 6]
    ensures { result ≡ six_of numbers.now }
{
    [
        number_at(numbers, 0),
        number_at(numbers, 1),
        number_at(numbers, 2),
        number_at(numbers, 3),
        number_at(numbers, 4),
        number_at(numbers, 5),
    ]
}

fn order_of(n: [u64; 6]) -> Fields
    requires { OrderFits n }
    ensures { numbers_of result ≡ six_of n }
{
    Fields {
        slot: n[0] as u8,
        number: n[1] as u32,
        kind: n[2] as u8,
        level: n[3] as u8,
        place: n[4] as u16,
        size: n[5] as u16,
    }
}

// The call that a command spells.
fn call_of<'a>(deed: Deed, command: &'a Command) -> Call<'a>
    requires { command.now.verb ≡ Verb.Calling deed }
    ensures { spelled result ≡ told command.now }
{
    let n = six(&command.numbers);
    let bytes = command.bytes.as_slice();
    match deed {
        Deed::Install => Call::Install {
            slot: n[0] as usize,
            key: bytes,
        },
        Deed::Clear => Call::Clear {
            slot: n[0] as usize,
        },
        Deed::Open => Call::Open {
            lane: n[0] as usize,
            slot: n[1] as usize,
        },
        Deed::Feed => Call::Feed {
            lane: n[0] as usize,
            piece: bytes,
        },
        Deed::Finish => Call::Finish {
            lane: n[0] as usize,
            room: n[1] as usize,
        },
        Deed::Judge => Call::Judge {
            lane: n[0] as usize,
            tag: bytes,
        },
        Deed::Drop => Call::Drop {
            lane: n[0] as usize,
        },
        Deed::Seal => Call::Seal {
            slot: n[0] as usize,
            kind: n[2] as u8,
            body: bytes,
            address: n[1] as u16,
            room: n[3] as usize,
        },
        Deed::Take => Call::Take { frame: bytes },
        Deed::Carry => Call::Carry { order: order_of(n) },
        Deed::Decline => Call::Decline { order: order_of(n) },
    }
}

// The call that a line asks for, if it asks for one, after those before it.
fn add_call<'a>(calls: &mut Vec<Call<'a>>, line: &'a Option<Command>) -> Result<(), AllocError>
    ensures { OnOk result (map spelled calls.new.items ≡ map spelled calls.old.items ++ calls_asked (option_map told line.now ∷ [])) }
{
    if let Some(command) = line {
        if let Verb::Calling(deed) = command.verb {
            calls.push(call_of(deed, command))?;
        }
    }
    Ok(())
}

// The calls among the lines, in their order.
pub(crate) fn calls_in<'a>(
    heap: Global,
    lines: &'a [Option<Command>],
) -> Result<Vec<Call<'a>>, AllocError>
    ensures { IfOk result (λ v. map spelled v.items ≡ calls_asked (map (option_map told) lines.now)) }
{
    let mut calls = Vec::new(heap);
    for line in lines {
        add_call(&mut calls, line)?;
    }
    Ok(calls)
}
