// Any list of calls on one new node, with an answer for each, and the law that such a list obeys: what each call answers, which
// numbers rise, how orders are counted and what the meter reads, told by the list of calls and answers alone (specs/).
// It runs on the host: what it gives back is a `Vec`.
#![tactic(auto)]

ghost use Rattle.std.specs.Prelude.{◌≡◌, IfOk};
ghost use Rattle.mac.specs.Promises.{wiped};
ghost use Rattle.node.specs.Replaying.{report_of};
ghost use Rattle.history.specs.History.{history};
ghost use Rattle.history.specs.Keeps.{GoesOn};
ghost use Rattle.history.specs.Law.{Ran, Logged};
ghost use Rattle.history.specs.Logs.{answers_of, reports_of, last_of};
ghost use Rattle.history.specs.Alike.{Alike, Together};

use hash::Hash;
use mac::{Algorithm, Wipe};
use node::{Answer, Call, Replay, Report};
use std::alloc::{AllocError, Global};

// A call's answer, and the report on the node after it.
#[derive(Clone, Copy)]
pub struct Step {
    pub answer: Answer,
    pub report: Report,
}

// What came of a list of calls: the report on the node before the first, and a step for each.
#[derive(Drop)]
pub struct Log {
    pub start: Report,
    pub steps: Vec<Step>,
}

impl Log {
    // The report on the node after the last call.
    pub fn last(&self) -> Report
        ensures { result ≡ last_of self.now }
    {
        self.steps.last().map_or(self.start, |step| step.report)
    }
}

// Performs every call of the list on a new node. Want of memory for the steps is told before any call.
pub fn log_calls<H: Hash + Drop, A: Algorithm<H> + Drop>(
    heap: Global,
    hash: H,
    t: usize,
    address: u16,
    calls: &[Call<'_>],
    work: &mut [u8; 64],
) -> Result<Log, AllocError>
    ensures ran { IfOk result (λ l. Logged A.Algorithm.face H.Hash.meaning.added t address (H.Hash.reading hash) calls.now (answers_of l) (reports_of l)) }
    ensures zeroed { work.new ≡ wiped }
{
    let guard = Wipe { block: work };
    log_all::<H, A>(heap, hash, t, address, calls, guard.block)
}

fn log_all<H: Hash + Drop, A: Algorithm<H> + Drop>(
    heap: Global,
    hash: H,
    t: usize,
    address: u16,
    calls: &[Call<'_>],
    work: &mut [u8; 64],
) -> Result<Log, AllocError>
    ensures ran { IfOk result (λ l. Logged A.Algorithm.face H.Hash.meaning.added t address (H.Hash.reading hash) calls.now (answers_of l) (reports_of l)) }
{
    let mut replay: Replay<H, A> = Replay::make(hash, t, address);
    let start = replay.report();
    let mut steps = Vec::with_capacity(heap, calls.len())?;
    for call in calls {
        steps.push_reserved(next_step(&mut replay, call, work));
    }
    Ok(Log { start, steps })
}

// One call on a node, with its answer.
#[tactic(auto, using(crate::proofs::Goings::goes_on))]
fn perform<H: Hash, A: Algorithm<H>>(
    replay: &mut Replay<H, A>,
    call: &Call<'_>,
    work: &mut [u8; 64],
) -> Answer
    ensures { GoesOn H.Hash.next A.Algorithm.face replay.old.node replay.new.node call.now result }
{
    replay.perform(call, work)
}

// The same, with the report on the node after it.
fn next_step<H: Hash, A: Algorithm<H>>(
    replay: &mut Replay<H, A>,
    call: &Call<'_>,
    work: &mut [u8; 64],
) -> Step
    ensures goes_on { GoesOn H.Hash.next A.Algorithm.face replay.old.node replay.new.node call.now result.answer }
    ensures report { result.report ≡ report_of replay.new.node.desk (H.Hash.reading replay.new.node.hash) }
{
    let answer = perform(replay, call, work);
    Step {
        answer,
        report: replay.report(),
    }
}

// Performs two lists, each on a new node of its own. Wherever the lists so far are alike to an onlooker, the meters read alike.
pub fn log_both<H: Hash + Drop, A: Algorithm<H> + Drop>(
    heap: Global,
    hash: H,
    other_hash: H,
    t: usize,
    address: u16,
    other_address: u16,
    calls: &[Call<'_>],
    others: &[Call<'_>],
    work: &mut [u8; 64],
) -> Result<(Log, Log), AllocError>
    ensures one { IfOk result (λ p. Logged A.Algorithm.face H.Hash.meaning.added t address (H.Hash.reading hash) calls.now (answers_of p.0) (reports_of p.0)) }
    ensures other { IfOk result (λ p. Logged A.Algorithm.face H.Hash.meaning.added t other_address (H.Hash.reading other_hash) «others».now (answers_of p.1) (reports_of p.1)) }
    ensures alike { IfOk result (λ p. (H.Hash.reading hash ≡ H.Hash.reading other_hash → Together calls.now «others».now (answers_of p.0) (answers_of p.1) (reports_of p.0) (reports_of p.1))) }
    ensures zeroed { work.new ≡ wiped }
{
    log_pair::<H, A>(
        heap,
        hash,
        other_hash,
        t,
        address,
        other_address,
        calls,
        others,
        work,
    )
}

fn log_pair<H: Hash + Drop, A: Algorithm<H> + Drop>(
    heap: Global,
    hash: H,
    other_hash: H,
    t: usize,
    address: u16,
    other_address: u16,
    calls: &[Call<'_>],
    others: &[Call<'_>],
    work: &mut [u8; 64],
) -> Result<(Log, Log), AllocError>
    ensures one { IfOk result (λ p. Logged A.Algorithm.face H.Hash.meaning.added t address (H.Hash.reading hash) calls.now (answers_of p.0) (reports_of p.0)) }
    ensures other { IfOk result (λ p. Logged A.Algorithm.face H.Hash.meaning.added t other_address (H.Hash.reading other_hash) «others».now (answers_of p.1) (reports_of p.1)) }
    ensures alike { IfOk result (λ p. (H.Hash.reading hash ≡ H.Hash.reading other_hash → Together calls.now «others».now (answers_of p.0) (answers_of p.1) (reports_of p.0) (reports_of p.1))) }
    ensures zeroed { work.new ≡ wiped }
{
    let one = log_calls::<H, A>(heap, hash, t, address, calls, work)?;
    let two = log_calls::<H, A>(heap, other_hash, t, other_address, others, work)?;
    Ok((one, two))
}

// Performs every call of the list on a new node, and keeps the answers and the report on the node after the last call alone. Want of
// memory for the answers is told before any call.
pub fn run_calls<H: Hash + Drop, A: Algorithm<H> + Drop>(
    heap: Global,
    hash: H,
    t: usize,
    address: u16,
    calls: &[Call<'_>],
    work: &mut [u8; 64],
) -> Result<(Report, Vec<Answer>), AllocError>
    ensures ran { IfOk result (λ p. Ran A.Algorithm.face H.Hash.meaning.added t address (H.Hash.reading hash) calls.now p.1.items p.0) }
    ensures zeroed { work.new ≡ wiped }
{
    perform_all::<H, A>(heap, hash, t, address, calls, work)
}

fn perform_all<H: Hash + Drop, A: Algorithm<H> + Drop>(
    heap: Global,
    hash: H,
    t: usize,
    address: u16,
    calls: &[Call<'_>],
    work: &mut [u8; 64],
) -> Result<(Report, Vec<Answer>), AllocError>
    ensures ran { IfOk result (λ p. Ran A.Algorithm.face H.Hash.meaning.added t address (H.Hash.reading hash) calls.now p.1.items p.0) }
    ensures zeroed { work.new ≡ wiped }
{
    let guard = Wipe { block: work };
    let mut replay: Replay<H, A> = Replay::make(hash, t, address);
    let mut answers = Vec::with_capacity(heap, calls.len())?;
    for call in calls {
        answers.push_reserved(perform(&mut replay, call, guard.block));
    }
    Ok((replay.report(), answers))
}

// The same of two lists, each on a new node of its own. Where the lists are alike to an onlooker, the meters end alike.
pub fn run_both<H: Hash + Drop, A: Algorithm<H> + Drop>(
    heap: Global,
    hash: H,
    other_hash: H,
    t: usize,
    address: u16,
    other_address: u16,
    calls: &[Call<'_>],
    other_calls: &[Call<'_>],
    work: &mut [u8; 64],
) -> Result<((Report, Vec<Answer>), (Report, Vec<Answer>)), AllocError>
    ensures one { IfOk result (λ p. Ran A.Algorithm.face H.Hash.meaning.added t address (H.Hash.reading hash) calls.now p.0.1.items p.0.0) }
    ensures other { IfOk result (λ p. Ran A.Algorithm.face H.Hash.meaning.added t other_address (H.Hash.reading other_hash) other_calls.now p.1.1.items p.1.0) }
    ensures alike { IfOk result (λ p. (H.Hash.reading hash ≡ H.Hash.reading other_hash → Alike (history calls.now p.0.1.items) (history other_calls.now p.1.1.items) → p.0.0.reading ≡ p.1.0.reading)) }
    ensures zeroed { work.new ≡ wiped }
{
    perform_both::<H, A>(
        heap,
        hash,
        other_hash,
        t,
        address,
        other_address,
        calls,
        other_calls,
        work,
    )
}

fn perform_both<H: Hash + Drop, A: Algorithm<H> + Drop>(
    heap: Global,
    hash: H,
    other_hash: H,
    t: usize,
    address: u16,
    other_address: u16,
    calls: &[Call<'_>],
    other_calls: &[Call<'_>],
    work: &mut [u8; 64],
) -> Result<((Report, Vec<Answer>), (Report, Vec<Answer>)), AllocError>
    ensures one { IfOk result (λ p. Ran A.Algorithm.face H.Hash.meaning.added t address (H.Hash.reading hash) calls.now p.0.1.items p.0.0) }
    ensures other { IfOk result (λ p. Ran A.Algorithm.face H.Hash.meaning.added t other_address (H.Hash.reading other_hash) other_calls.now p.1.1.items p.1.0) }
    ensures alike { IfOk result (λ p. (H.Hash.reading hash ≡ H.Hash.reading other_hash → Alike (history calls.now p.0.1.items) (history other_calls.now p.1.1.items) → p.0.0.reading ≡ p.1.0.reading)) }
    ensures zeroed { work.new ≡ wiped }
{
    let one = run_calls::<H, A>(heap, hash, t, address, calls, work)?;
    let two = run_calls::<H, A>(heap, other_hash, t, other_address, other_calls, work)?;
    Ok((one, two))
}
