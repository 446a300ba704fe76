// Makes the node that a script asks for, and runs its calls.
ghost use Rattle.std.specs.Prelude.{◌≡◌, map, IfOk, slice_index};
ghost use Rattle.std.specs.Result.{result_err};
ghost use Rattle.std.specs.Option.{option_map};
ghost use Rattle.refusals.specs.Questions.{first_refusal};
ghost use Rattle.tags.specs.Kinds.{Found, face_of};
ghost use Rattle.node.specs.Asking.{making_q};
ghost use Rattle.history.specs.Law.{Logged};
ghost use Rattle.history.specs.Logs.{answers_of, reports_of};
ghost use Rattle.scripts.specs.Calls.{spelled, calls_asked};
ghost use Rattle.scripts.specs.Making.{making_of, asked, making};
ghost use Rattle.scripts.specs.Play.{Played, PlayedAs, PlayedIn};
ghost use Rattle.scripts.specs.Told.{told};

use crate::calls::{calls_in, six};
use crate::command::Command;
use crate::making::Making;
use crate::verb::Verb;
use hash::Hash;
use history::{Log, log_calls};
use hmac::Hmac;
use mac::Algorithm;
use mdxmac::{MdxMac, ShortMac};
use node::{Call, Node, Report};
use refusals::Refusal;
use ripemd160::Ripemd160;
use sha_1::Sha1;
use sha256::Sha256;
use std::alloc::{AllocError, Global};
use tags::{AlgorithmKind, HashKind};

// Asks the questions of a making, of an algorithm over a hash.
fn ask_with<H: Hash + Drop, A: Algorithm<H> + Drop>(
    hash: H,
    t: usize,
    address: u16,
) -> Result<(), Refusal>
    ensures { result_err result ≡ first_refusal (making_q A.Algorithm.face H.Hash.meaning.added t address) }
{
    let node: Node<H, A> = Node::make(hash, t, address);
    match node.refusal() {
        Some(refusal) => Err(refusal),
        None => Ok(()),
    }
}

// The same, by the kind of the algorithm.
fn ask_over<H: Hash + Drop>(hash: H, making: Making) -> Result<(), Refusal>
    ensures { result_err result ≡ first_refusal (making_q (face_of making.algorithm H.meaning) H.meaning.added making.t making.address) }
{
    let (t, address) = (making.t, making.address);
    match making.algorithm {
        AlgorithmKind::OfMdxMac => ask_with::<H, MdxMac>(hash, t, address),
        AlgorithmKind::OfHmac => ask_with::<H, Hmac>(hash, t, address),
        AlgorithmKind::OfShortMac => ask_with::<H, ShortMac>(hash, t, address),
    }
}

fn ask(making: Making) -> Result<(), Refusal>
    ensures { result_err result ≡ asked making }
{
    match making.hash {
        HashKind::OfRipemd160 => ask_over(Ripemd160::new(), making),
        HashKind::OfSha1 => ask_over(Sha1::new(), making),
        HashKind::OfSha256 => ask_over(Sha256::new(), making),
    }
}

// The making that a node line asks for, where there are such an algorithm and hash.
fn making_in(command: &Command) -> Result<Making, Refusal>
    requires { command.now.verb ≡ Verb.Node }
    ensures made { Found (making_of command.now.numbers.items) result }
    ensures size { IfOk result (λ m. m.t ≡ slice_index command.now.numbers.items 2) }
{
    let n = six(&command.numbers);
    Ok(Making {
        algorithm: AlgorithmKind::try_from(n[0] as u32)?,
        hash: HashKind::try_from(n[1] as u32)?,
        t: n[2] as usize,
        address: n[3] as u16,
    })
}

// The same, where no question of the making is answered no.
pub(crate) fn made_by(command: &Command) -> Result<Making, Refusal>
    requires { command.now.verb ≡ Verb.Node }
    ensures refusal { result_err result ≡ making command.now.numbers.items }
    ensures size { IfOk result (λ m. m.t ≡ slice_index command.now.numbers.items 2) }
{
    let making = making_in(command)?;
    ask(making)?;
    Ok(making)
}

// Runs the calls on a new node, by the kind of the algorithm.
fn run_over<H: Hash + Drop>(
    heap: Global,
    hash: H,
    making: Making,
    calls: &[Call<'_>],
) -> Result<Log, AllocError>
    ensures { IfOk result (λ l. Logged (face_of making.algorithm H.meaning) H.meaning.added making.t making.address (H.reading hash) calls.now (answers_of l) (reports_of l)) }
{
    let mut work = [0u8; 64];
    let (t, address) = (making.t, making.address);
    match making.algorithm {
        AlgorithmKind::OfMdxMac => {
            log_calls::<H, MdxMac>(heap, hash, t, address, calls, &mut work)
        }
        AlgorithmKind::OfHmac => log_calls::<H, Hmac>(heap, hash, t, address, calls, &mut work),
        AlgorithmKind::OfShortMac => {
            log_calls::<H, ShortMac>(heap, hash, t, address, calls, &mut work)
        }
    }
}

fn empty_log(heap: Global) -> Log {
    Log {
        start: Report::default(),
        steps: Vec::new(heap),
    }
}

fn run_as(heap: Global, making: Making, calls: &[Call<'_>]) -> Result<Log, AllocError>
    ensures { IfOk result (λ l. Played making.algorithm making.hash making.t making.address (map spelled calls.now) (answers_of l) (reports_of l)) }
{
    match making.hash {
        HashKind::OfRipemd160 => run_over(heap, Ripemd160::new(), making, calls),
        HashKind::OfSha1 => run_over(heap, Sha1::new(), making, calls),
        HashKind::OfSha256 => run_over(heap, Sha256::new(), making, calls),
    }
}

// Runs the calls among the lines on the node that a node line asks for. Nothing is run where there is no such algorithm
// or hash.
fn run_lines(heap: Global, command: &Command, lines: &[Option<Command>]) -> Result<Log, AllocError>
    requires { command.now.verb ≡ Verb.Node }
    ensures { IfOk result (λ l. PlayedAs (making_of command.now.numbers.items) (calls_asked (map (option_map told) lines.now)) (answers_of l) (reports_of l)) }
{
    let Ok(making) = making_in(command) else {
        return Ok(empty_log(heap));
    };
    let calls = calls_in(heap, lines)?;
    run_as(heap, making, &calls)
}

// Runs a script. The first node line makes the node; nothing is run where there is none.
pub(crate) fn run_script(heap: Global, lines: &[Option<Command>]) -> Result<Log, AllocError>
    ensures { IfOk result (λ l. PlayedIn (map (option_map told) lines.now) (answers_of l) (reports_of l)) }
{
    for (i, line) in lines.iter().enumerate() {
        if let Some(command) = line {
            if let Verb::Node = command.verb {
                return run_lines(heap, command, &lines[i + 1..]);
            }
        }
    }
    Ok(empty_log(heap))
}
