//! The program's call.
ghost use Rattle.std.specs.Prelude.{◌≡◌, ◌≤◌, ◌⊎◌, map, string_bytes, IfOk, IfErr};
ghost use Rattle.io_world.specs.Faults.{last_count, Rose};
ghost use Rattle.validate_app.specs.Files.{texts_seen_of};
ghost use Rattle.validate_app.specs.Held.{held_paths};
ghost use Rattle.validate_app.specs.Inputs.{StopsAtText};
ghost use Rattle.validate_app.specs.Outcomes.{ValidationEnds, IsJudgedPlan, IsOutcome, TellsOutcome};
ghost use Rattle.validate_app.specs.declared.status.Status.TheVariants.{WriteFault};

use crate::outcome::{MEMORY, Outcome};
use crate::report::read_report;
use crate::status::Status;
use crate::step::Scene;
use crate::stop::Stop;
use crate::texts::{read_plan, read_task};
use crate::verdict::Verdict;
use crate::words::{Paths, read_words};
use command_line::WordsFault;
use io_world::{Files, Sink, write_all};
use std::alloc::Global;

/// What is said of a plan, and the cost that it claims.
#[derive(Drop)]
struct JudgedPlan {
    verdict: Verdict,
    claimed: Option<u64>,
}

/// Reads the files of these paths, and judges the plan.
fn judge_files<F: Files>(
    alloc: Global,
    files: &mut F,
    paths: &Paths<'_>,
) -> Result<JudgedPlan, Stop>
    ensures said { IfOk result (λ judged. IsJudgedPlan (F.told files.old) (held_paths paths.now)
        judged.verdict judged.claimed) }
    ensures stop { IfErr result (StopsAtText (texts_seen_of F.told F.faults files.old files.new)
        (held_paths paths.now)) }
{
    let task = match read_task(alloc, files, paths) {
        Ok(task) => task,
        Err(stop) => return Err(stop),
    };
    let knowledge = match read_report(alloc, files, paths, &task) {
        Ok(knowledge) => knowledge,
        Err(stop) => return Err(stop),
    };
    let plan = match read_plan(alloc, files, paths) {
        Ok(plan) => plan,
        Err(stop) => return Err(stop),
    };
    let scene = Scene {
        alloc,
        task: &task,
        facts: &knowledge.facts,
    };
    match scene.judge(plan.calls.as_slice()) {
        Ok(verdict) => Ok(JudgedPlan {
            verdict,
            claimed: plan.claimed,
        }),
        Err(_) => Err(Stop::Memory),
    }
}

/// What the words lead to.
fn outcome_of<F: Files>(alloc: Global, words: &[String], files: &mut F) -> Outcome
    ensures { IsOutcome (map string_bytes words.now)
        (texts_seen_of F.told F.faults files.old files.new) result }
{
    let paths = match read_words(alloc, words) {
        Ok(paths) => paths,
        Err(WordsFault::Usage) => return Outcome::Stopped(Stop::Usage),
        Err(WordsFault::Memory) => return Outcome::Stopped(Stop::Memory),
    };
    match judge_files(alloc, files, &paths) {
        Ok(judged) => Outcome::Judged(judged.verdict, judged.claimed),
        Err(stop) => Outcome::Stopped(stop),
    }
}

/// Writes what is said at the end of a run.
fn tell<O: Sink>(out: &mut O, text: &[u8], status: Status) -> Status
    ensures told { TellsOutcome text.now status (O.taken out.old) (O.taken out.new) result }
    ensures later { O.faults out.old ≤ O.faults out.new }
    ensures cause { (result ≡ status) ⊎ Rose last_count (O.faults out.old) (O.faults out.new) }
{
    match write_all(out, text) {
        Ok(()) => status,
        Err(_) => Status::WriteFault,
    }
}

/// Says whether a plan is valid.
///
/// The words are the program's name, and the paths of a domain, a problem and a plan, and perhaps of
/// a report and its streams: `pddl_validate DOMAIN PROBLEM PLAN [REPORT STREAMS]`. A report gives
/// what its transcript certifies, which has to be legal, and its objects may be named. A file is
/// read only after the texts before it were accepted, the plan last. Then this is written:
///
/// - `valid COST`: the steps can be taken one after another from the initial state, the goal is
///   true behind them, and they cost so much together.
///   A second line `claims N` follows where the plan's first comment `; cost = N` says another cost.
/// - `invalid N KIND`: step N, from 1, is the first that can't be taken. KIND is the first of these
///   tests that it fails: `action`, the domain has an action of its name; `args`, it has as many
///   arguments as the action has parameters; `object`, these are names of objects; `type`, they
///   have the parameters' types; `condition`, the condition is true; `cost`, the cost has a value.
/// - `invalid goal`: all steps can be taken, and the goal is false behind them.
/// - Behind `invalid N condition` and `invalid goal` a second line is the part that makes the
///   condition false: of an `and` the first part that is false, and of that again such a part. It is
///   PDDL text, with the names of the arguments in place of the parameters.
/// - `fault plan KIND PLACE`: a line of the plan is no step, and this is its fault, in bytes from
///   the text's beginning. `fault input TEXT KIND PLACE`: `domain`, `problem` or `streams` was
///   refused.
/// - `fault report KIND LINE`: the report certifies nothing, first in this line, from 1. KIND is
///   `text`, it is no report; `ask`, a request may not be made; `answer`, an answer may not be given.
/// - `fault read FILE failed` or `too-long`: the file wasn't read, or it has too many bytes.
/// - `fault usage`, with a line of usage behind it: the words are none of the program's.
/// - `fault memory`: memory is wanting.
pub fn run<F: Files, O: Sink>(alloc: Global, words: &[String], files: &mut F, out: &mut O) -> Status
    // The run ends with what it came to, which has its cause in the words and the told files, and
    // whose text the sink took, or a part of it where the sink failed.
    ensures ends { ValidationEnds (map string_bytes words.now)
        (texts_seen_of F.told F.faults files.old files.new) (O.taken out.old) (O.taken out.new)
        result }
    // A fault of the sink is answered only where its count rose.
    ensures sink { result ≡ WriteFault → Rose last_count (O.faults out.old) (O.faults out.new) }
{
    let outcome = outcome_of(alloc, words, files);
    match outcome.text(alloc) {
        Ok(text) => tell(out, text.as_slice(), outcome.status()),
        Err(_) => tell(out, MEMORY, Status::Memory),
    }
}
