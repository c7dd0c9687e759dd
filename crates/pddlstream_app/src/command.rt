//! The program's call.
ghost use Rattle.std.specs.Prelude.{◌≡◌, ◌≤◌, ◌⊎◌, ℕ, suc, false, map, string_bytes, IfOk, IfErr};
ghost use Rattle.io_world.specs.Faults.{last_count, HasCause, Rose};
ghost use Rattle.pddlstream_app.specs.Asked.{AsksAll, AsksBefore, AsksFiles, HasReadCause};
ghost use Rattle.pddlstream_app.specs.Complete.{CompletesBy};
ghost use Rattle.pddlstream_app.specs.Headline.{PrintsNoPlan, PrintsPlan};
ghost use Rattle.command_files.specs.Outside.{outside_of, seen_of, written_of};
ghost use Rattle.pddlstream_app.specs.Plays.{PlaysSafely};
ghost use Rattle.pddlstream_app.specs.Runs.{Caused, ClosesRun, EndsBy, IsUnhindered, LeavesAnswers, LeavesHost, SparesHost, StandsBy, TellsStatus};
ghost use Rattle.restart_host.specs.Leads.{RoseBy};
ghost use Rattle.round_run.specs.Told.{course};
ghost use Rattle.run_command.specs.Heard.{AreCounted, AreMadeGood, AreTooMany, restarts_in};
ghost use Rattle.round_run.specs.declared.fault.RunFault.TheVariants as fault;
ghost use Rattle.command_files.specs.declared.status.Status.TheVariants.{GeneratorFault, NoPlan, Plan, ReadFault, WriteFault};
ghost use Rattle.command_files.specs.declared.stop.Stop.TheVariants.{Run};

use crate::answer::answer;
use crate::job::{Job, job_of};
use command_files::{MEMORY, Status, Stop};
use command_line::{WordsFault, read_words};
use io_world::{Files, Host, Sink, write_all};
use run_command::{make, solve};
use std::alloc::Global;
use turn_run::RunFault;

/// Writes the last line of a run that ends so.
fn tell<O: Sink>(out: &mut O, text: &[u8], status: Status) -> Status
    ensures told { TellsStatus status text.now (written_of O.taken out.old out.new) result }
    ensures later { O.faults out.old ≤ O.faults out.new }
    ensures cause { (result ≡ status) ⊎ Rose last_count (O.faults out.old) (O.faults out.new) }
{
    match write_all(out, text) {
        Ok(()) => status,
        Err(_) => Status::WriteFault,
    }
}

/// Writes the last line of a run that has no outcome, and answers how it ends.
fn close<O: Sink>(alloc: Global, out: &mut O, stop: &Stop) -> Status
    ensures closed { ClosesRun stop.now (written_of O.taken out.old out.new) result }
    ensures later { O.faults out.old ≤ O.faults out.new }
    ensures cause { result ≡ WriteFault → (stop.now ≡ Run fault.Write)
        ⊎ Rose last_count (O.faults out.old) (O.faults out.new) }
{
    match stop.last_text(alloc) {
        Ok(text) => tell(out, text.as_slice(), stop.status()),
        Err(_) => tell(out, MEMORY, Status::Memory),
    }
}

/// Reads the words, and does what they ask for.
fn attempt<F: Files, H: Host, O: Sink>(
    alloc: Global,
    words: &[String],
    files: &mut F,
    host: &mut H,
    out: &mut O,
) -> Result<Status, Stop>
    requires idle { (k : ℕ) → H.running host.old k ≡ false }
    ensures stands { StandsBy (map string_bytes words.now) (outside_of (seen_of F.told F.faults
        F.asked files.old files.new) H.spoken H.log host.old host.new) (host.new ≡ host.old)
        (written_of O.taken out.old out.new) result }
    ensures idle { (k : ℕ) → H.running host.new k ≡ false }
    ensures answers { LeavesAnswers (map string_bytes words.now)
        (outside_of (seen_of F.told F.faults F.asked files.old files.new) H.spoken H.log host.old
        host.new) }
    ensures leaves { SparesHost (map string_bytes words.now) result host.old host.new }
    ensures host { HasCause (Run fault.Generator) H.last (H.faults host.old) (H.faults host.new)
        result }
    ensures failed { AreCounted (restarts_in (map string_bytes words.now))
        (course H.Host host.old host.new) result }
    ensures sink { HasCause (Run fault.Write) last_count (O.faults out.old) (O.faults out.new)
        result }
    ensures asked { IfOk result (λ _. AsksAll (map string_bytes words.now)
        (seen_of F.told F.faults F.asked files.old files.new)) }
    ensures asked_before { IfErr result (AsksBefore (map string_bytes words.now)
        (seen_of F.told F.faults F.asked files.old files.new)) }
{
    let config = match read_words(alloc, words) {
        Ok(config) => config,
        Err(WordsFault::Usage) => return Err(Stop::Usage),
        Err(WordsFault::Memory) => return Err(Stop::Run(RunFault::Memory)),
    };
    match job_of(config) {
        Job::Solve(words) => solve(alloc, &words, files, host, out),
        Job::Make(number) => make(alloc, number, host, out),
        Job::Answer(words) => answer(alloc, &words, files, out),
    }
}

/// Does what the words ask for.
///
/// `solve DOMAIN PROBLEM STREAMS [OPTIONS] [-- PROGRAM WORDS]` reads the domain's file and the
/// domain, then the problem's and the problem, then the streams' and the streams. By `--map FILE`
/// the map says which program answers which stream; without it, PROGRAM answers all, by `--workers
/// N` children (1). A pool of `@grid FILE` has the generator of the grid, whose file is read last.
/// Where something is to be asked, the children of all pools are started. `--algorithm` says what
/// is asked, all that is due, level by level, or what a dream needs; it is asked in rounds of as
/// many requests as the pools have workers for. The report has a head, each request and answer, and
/// the outcome. By `--restarts R` so many failures of children are made good: a child that fails is
/// started again. The other options are `--calls`, `--states` and `--depth` (`command_line`).
///
/// `replay DOMAIN PROBLEM STREAMS REPORT [--states N]` reads the three texts so, then the report's
/// file, and writes `valid`, `invalid LINE KIND`, or `limit states` where a claim of the report
/// can't be decided within N states. Reports of all four modes are judged.
///
/// `generate N` makes the grid's task of that number, solves it as `solve` does by `@grid`, without
/// a report, and writes one line, `generate N OUTCOME levels L asks A`: how many levels and
/// requests the run had. It reads no file.
///
/// A fault's line is the last: for a refused text it names the text, the kind of the fault and its
/// place, in bytes from the text's beginning; for a map the kind, and for a grid the kind and the
/// line.
pub fn run<F: Files, H: Host, O: Sink>(
    alloc: Global,
    words: &[String],
    files: &mut F,
    host: &mut H,
    out: &mut O,
) -> Status
    // No child runs before and after it.
    requires idle { (k : ℕ) → H.running host.old k ≡ false }
    ensures idle { (k : ℕ) → H.running host.new k ≡ false }
    // The headline. A printed plan is executable over what the problem and the printed answers say,
    // reaches the goal and has the printed cost; `no plan` stands only where each reachable
    // instance has finished and no plan exists.
    ensures plan { result ≡ Plan
        → PrintsPlan (map string_bytes words.now) (F.told files.old)
        (written_of O.taken out.old out.new) }
    ensures no_plan { result ≡ NoPlan
        → PrintsNoPlan (map string_bytes words.now) (F.told files.old)
        (written_of O.taken out.old out.new) }
    // What the sink took is what a run writes that ends so, or a part of it where the sink failed.
    // Where the host tells what was said with the children, that is the dialogue of the run's
    // transcript; and where they answer by a table, a run in incremental mode asks, hears, knows
    // and ends as the plain run over the table does, but at the limit of states. Where the host's
    // log is told, its calls are those of the transcript, in order, and then stops: the starts of
    // all workers, the writes of each request and the reads of each answer. A run without an
    // outcome has them up to where it broke off; a fault of the generator has a call that failed,
    // and where no line stands that may have requests behind it only stops came. Where nothing was
    // asked in a run with an outcome, no call was made on a child, and the host itself is as it
    // was. With `--restarts R` above 0 all this is so of what the host tells that starts children
    // again over this one (`IsHeard`); and the log of this one has, of a run with an outcome, the
    // calls of the run, whose children may have several lives, and the run comes to what they
    // answer in each of their lives (`IsRanAgain`).
    ensures ends { EndsBy (map string_bytes words.now) (outside_of (seen_of F.told F.faults F.asked
        files.old files.new) H.spoken H.log host.old host.new) (host.new ≡ host.old)
        (written_of O.taken out.old out.new) result }
    // A command that answers with one text, as a replay, makes no call on a child, however it ends,
    // also where the sink fails.
    ensures answers { LeavesAnswers (map string_bytes words.now)
        (outside_of (seen_of F.told F.faults F.asked files.old files.new) H.spoken H.log host.old
        host.new) }
    // Where the files of `play` are told and true, a right report with the grid's own answers on a
    // task of that grid, the run doesn't end so that something is wrong: no line is refused, and no
    // step of the plan has a fault.
    ensures safe { PlaysSafely (map string_bytes words.now) (F.told files.old) result }
    // The host itself is as it was, whatever it tells: of a command that answers, where the words
    // mean no command, and where the words, a file or a text ended the run.
    ensures leaves { LeavesHost (map string_bytes words.now) result host.old host.new }
    // A file that couldn't be read is told only where the files' count of faults rose, or where
    // the file that the last line names is too long.
    ensures read { result ≡ ReadFault → HasReadCause (map string_bytes words.now)
        (seen_of F.told F.faults F.asked files.old files.new) (written_of O.taken out.old out.new) }
    // A fault of the generator or of the sink is answered only where its count rose.
    ensures host { Caused (result ≡ GeneratorFault) H.last (H.faults host.old) (H.faults host.new) }
    ensures sink { Caused (result ≡ WriteFault) last_count (O.faults out.old) (O.faults out.new) }
    // One of the generator is answered only where one start, write or read more failed than is made
    // good: the count rose by as many, and so many failed in a log that is told.
    ensures many { result ≡ GeneratorFault
        → AreTooMany (restarts_in (map string_bytes words.now)) (course H.Host host.old host.new) }
    // Where neither the generator nor the sink nor want of memory ended the run, no more of them
    // failed than are made good.
    ensures made_good { IsUnhindered result
        → AreMadeGood (restarts_in (map string_bytes words.now)) (course H.Host host.old host.new) }
    // Where the words mean that a task is to be solved, the files are told and spell one, no count
    // of faults rose, the children's by no more than are made good, and only answers were heard,
    // the run has an outcome, or memory is wanting. And where the generators answer by a finite
    // table over which no run passes the limits of calls and of states, that outcome is a plan or
    // `no plan`, in each mode, and in incremental mode the one of the plain run over the table,
    // whatever the workers.
    ensures complete { CompletesBy (map string_bytes words.now)
        (outside_of (seen_of F.told F.faults F.asked files.old files.new) H.spoken H.log host.old
        host.new) (RoseBy (suc (restarts_in (map string_bytes words.now))) H.last
        (H.faults host.old) (H.faults host.new))
        (Rose last_count (O.faults out.old) (O.faults out.new)) result }
    // Where the files tell which paths were asked for, those of this call are the command's files,
    // each once and in their order: none where the words are no command, those up to the text that
    // the last line names where it was refused or not read, and else all. Where memory is wanting
    // or the sink failed, they are a front of these.
    ensures asked { AsksFiles (map string_bytes words.now)
        (seen_of F.told F.faults F.asked files.old files.new) (written_of O.taken out.old out.new)
        result }
{
    match attempt(alloc, words, files, host, out) {
        Ok(status) => status,
        Err(stop) => {
            if stop.is_write() {
                Status::WriteFault
            } else {
                close(alloc, out, &stop)
            }
        }
    }
}
