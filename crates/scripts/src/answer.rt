// Replies to the lines of a script, one after the other, from the answers and the reports of the run.
ghost use Rattle.std.specs.Prelude.{◌≡◌, ◌+◌, ◌^◌, ◌<◌, ◌≤◌, [], ◌∷◌, ◌++◌, map, IfOk, OnOk, slice_index_or};
ghost use Rattle.std.specs.Option.{option_map};
ghost use Rattle.node.specs.declared.replay.Outcome.TheVariants.{Done};
ghost use Rattle.history.specs.Law.{report_at};
ghost use Rattle.history.specs.Logs.{answers_of, reports_of};
ghost use Rattle.scripts.specs.Reply.{while_waiting, while_refusing, while_working, on_from_waiting, on_from_working, replied, onward, transcript, calls_before};
ghost use Rattle.scripts.specs.Told.{told};

use crate::command::Command;
use crate::play::made_by;
use crate::reply::{put_answer, put_refusal, put_state};
use crate::stage::Stage;
use crate::verb::Verb;
use history::Log;
use node::{Answer, Outcome, Report};
use refusals::Refusal;
use std::alloc::{AllocError, Global};
use text::put_decimal;

// There is an answer for each call, so that the default is never taken.
fn answer_at(log: &Log, k: usize) -> Answer
    ensures { result ≡ slice_index_or (answers_of log.now) k (Ok Done) }
{
    log.steps
        .get(k)
        .map_or(Ok(Outcome::Done), |step| step.answer)
}

// The report after k calls. There is one, so that the default is never taken.
fn report_after(log: &Log, k: usize) -> Report
    ensures { result ≡ report_at (reports_of log.now) k }
{
    if k == 0 {
        return log.start;
    }
    log.steps
        .get(k - 1)
        .map_or(Report::default(), |step| step.report)
}

// A node line: what became of the making.
fn put_making(out: &mut Vec<u8>, command: &Command) -> Result<Stage, AllocError>
    requires { command.now.verb ≡ Verb.Node }
    ensures { IfOk result (λ next. (out.new.items ≡ out.old.items ++ while_waiting command.now.verb command.now.numbers.items) × (next ≡ on_from_waiting command.now.verb command.now.numbers.items)) }
{
    match made_by(command) {
        Ok(making) => {
            out.extend_from_slice(b"ok")?;
            Ok(Stage::Working(making.t, 0))
        }
        Err(refusal) => {
            put_refusal(out, refusal)?;
            Ok(Stage::Refusing(refusal))
        }
    }
}

// Before the node line every other line is one of another form.
fn put_waiting(out: &mut Vec<u8>, command: &Command) -> Result<Stage, AllocError>
    ensures { IfOk result (λ next. (out.new.items ≡ out.old.items ++ while_waiting command.now.verb command.now.numbers.items) × (next ≡ on_from_waiting command.now.verb command.now.numbers.items)) }
{
    if let Verb::Node = command.verb {
        return put_making(out, command);
    }
    out.push(b'?')?;
    Ok(Stage::Waiting)
}

// After a refused making every call is refused alike.
fn put_refusing(out: &mut Vec<u8>, refusal: Refusal, verb: Verb) -> Result<(), AllocError>
    ensures { OnOk result (out.new.items ≡ out.old.items ++ while_refusing refusal verb) }
{
    if let Verb::Node = verb {
        out.push(b'?')?;
        return Ok(());
    }
    put_refusal(out, refusal)
}

// With a node that k calls came to.
fn put_working(
    out: &mut Vec<u8>,
    t: usize,
    k: usize,
    verb: Verb,
    log: &Log,
) -> Result<Stage, AllocError>
    requires { k + 1 < 2 ^ 64 }
    ensures { IfOk result (λ next. (out.new.items ≡ out.old.items ++ while_working (answers_of log.now) (reports_of log.now) t k verb) × (next ≡ on_from_working t k verb)) }
{
    match verb {
        Verb::Node => out.push(b'?')?,
        Verb::Calling(_) => {
            put_answer(out, t, answer_at(log, k))?;
            return Ok(Stage::Working(t, k + 1));
        }
        Verb::Meter => put_decimal(out, report_after(log, k).reading)?,
        Verb::State => put_state(out, report_after(log, k))?,
    }
    Ok(Stage::Working(t, k))
}

// The reply to one line.
fn put_reply(
    out: &mut Vec<u8>,
    stage: Stage,
    line: &Option<Command>,
    log: &Log,
) -> Result<Stage, AllocError>
    requires { calls_before stage + 1 < 2 ^ 64 }
    ensures { IfOk result (λ next. (out.new.items ≡ out.old.items ++ replied (answers_of log.now) (reports_of log.now) stage (option_map told line.now)) × (next ≡ onward stage (option_map told line.now))) }
{
    let Some(command) = line else {
        out.push(b'?')?;
        return Ok(stage);
    };
    match stage {
        Stage::Waiting => put_waiting(out, command),
        Stage::Refusing(refusal) => {
            put_refusing(out, refusal, command.verb)?;
            Ok(stage)
        }
        Stage::Working(t, k) => put_working(out, t, k, command.verb, log),
    }
}

// All the replies, each with its newline.
pub(crate) fn answer_lines(
    heap: Global,
    lines: &[Option<Command>],
    log: &Log,
) -> Result<Vec<u8>, AllocError>
    ensures { IfOk result (λ v. v.items ≡ transcript (answers_of log.now) (reports_of log.now) Stage.Waiting (map (option_map told) lines.now)) }
{
    let mut out = Vec::new(heap);
    let mut stage = Stage::Waiting;
    for line in lines {
        let next = put_reply(&mut out, stage, line, log)?;
        out.push(b'\n')?;
        stage = next;
    }
    Ok(out)
}
