//! What a run comes to, and the lines that tell it.
ghost use Rattle.std.specs.Prelude.{◌≡◌, ◌++◌, codes, IfOk};
ghost use Rattle.std.specs.Fmt.{decimal};
ghost use Rattle.task_reader.specs.Kinds.{kind_word};
ghost use Rattle.validate_app.specs.Told as specs;
ghost use Rattle.validate_app.specs.declared.stop.FileRole.TheVariants.{Report};

use crate::status::Status;
use crate::stop::{FileRole, Stop};
use crate::verdict::{StepFlaw, Verdict};
use crate::words::usage_text;
use legal_report::ReportFlaw;
use std::alloc::{AllocError, Global};
use task_reader::FaultKind;

/// What a run comes to.
#[derive(Drop)]
pub(crate) enum Outcome {
    /// This is said of the plan, which claims this cost.
    Judged(Verdict, Option<u64>),
    /// There is no verdict.
    Stopped(Stop),
}

/// What is printed where memory is wanting.
pub(crate) const MEMORY: &[u8] = b"fault memory\n";

/// These bytes, one behind the other.
fn parts(alloc: Global, first: &[u8], second: &[u8], third: &[u8]) -> Result<Vec<u8>, AllocError>
    ensures { IfOk result (λ text. text.items ≡ first.now ++ second.now ++ third.now) }
{
    let mut text = Vec::from_slice(alloc, first)?;
    text.extend_from_slice(second)?;
    text.extend_from_slice(third)?;
    Ok(text)
}

/// The word for a flaw.
fn flaw_word(flaw: &StepFlaw) -> &'static [u8]
    ensures { result.now ≡ specs.flaw_word flaw.now }
{
    match flaw {
        StepFlaw::Action => b"action",
        StepFlaw::Args => b"args",
        StepFlaw::Object => b"object",
        StepFlaw::Sort => b"type",
        StepFlaw::Condition(_) => b"condition",
        StepFlaw::Cost => b"cost",
    }
}

/// The line for a step that can't be taken.
fn step_line(alloc: Global, number: usize, flaw: &StepFlaw) -> Result<Vec<u8>, AllocError>
    ensures { IfOk result (λ text. text.items ≡ codes "invalid " ++ decimal number ++ codes " "
        ++ specs.flaw_word flaw.now ++ codes "\n") }
{
    let front = format!(in alloc; "invalid {number} ")?;
    parts(alloc, front.as_bytes(), flaw_word(flaw), b"\n")
}

/// The lines for a step that can't be taken.
fn step_lines(alloc: Global, number: usize, flaw: &StepFlaw) -> Result<Vec<u8>, AllocError>
    ensures { IfOk result (λ text. text.items ≡ codes "invalid " ++ decimal number ++ codes " "
        ++ specs.flaw_word flaw.now ++ codes "\n" ++ specs.flaw_part flaw.now) }
{
    let line = step_line(alloc, number, flaw)?;
    match flaw {
        StepFlaw::Condition(part) => parts(alloc, line.as_slice(), part.as_slice(), b"\n"),
        StepFlaw::Action | StepFlaw::Args | StepFlaw::Object | StepFlaw::Sort | StepFlaw::Cost =>
            Ok(line),
    }
}

/// The lines for a verdict. Fails only where memory is wanting.
fn verdict_lines(alloc: Global, verdict: &Verdict) -> Result<Vec<u8>, AllocError>
    ensures { IfOk result (λ text. text.items ≡ specs.plan_verdict_text verdict.now) }
{
    match verdict {
        Verdict::Valid(cost) => {
            let line = format!(in alloc; "valid {cost}\n")?;
            Ok(line.into_bytes())
        }
        Verdict::Step(number, flaw) => step_lines(alloc, *number, flaw),
        Verdict::Goal(part) => parts(alloc, b"invalid goal\n", part.as_slice(), b"\n"),
    }
}

/// The line for a claim of another cost than this. Fails only where memory is wanting.
fn claim_line(alloc: Global, cost: u64, claimed: Option<u64>) -> Result<Vec<u8>, AllocError>
    ensures { IfOk result (λ text. text.items ≡ specs.claim_line cost claimed) }
{
    match claimed {
        Some(claimed) if claimed != cost => {
            let line = format!(in alloc; "claims {claimed}\n")?;
            Ok(line.into_bytes())
        }
        Some(_) | None => Ok(Vec::new(alloc)),
    }
}

/// What a plan claims that is valid at another cost. Fails only where memory is wanting.
fn claim_text(alloc: Global, verdict: &Verdict, claimed: Option<u64>) -> Result<Vec<u8>, AllocError>
    ensures { IfOk result (λ text. text.items ≡ specs.claim_text verdict.now claimed) }
{
    match verdict {
        Verdict::Valid(cost) => claim_line(alloc, *cost, claimed),
        Verdict::Step(_, _) | Verdict::Goal(_) => Ok(Vec::new(alloc)),
    }
}

/// The lines for a verdict, and behind them that for a claim of another cost. Fails only where
/// memory is wanting.
fn judged_lines(
    alloc: Global,
    verdict: &Verdict,
    claimed: Option<u64>,
) -> Result<Vec<u8>, AllocError>
    ensures { IfOk result (λ text. text.items ≡ specs.plan_verdict_text verdict.now
        ++ specs.claim_text verdict.now claimed) }
{
    let mut text = verdict_lines(alloc, verdict)?;
    let claim = claim_text(alloc, verdict, claimed)?;
    text.extend_from_slice(claim.as_slice())?;
    Ok(text)
}

/// What is said of a refused text before its kind.
fn refused_word(role: FileRole) -> &'static [u8]
    ensures { result.now ≡ specs.refused_word role }
{
    match role {
        FileRole::Domain => b"fault input domain ",
        FileRole::Problem => b"fault input problem ",
        FileRole::Streams => b"fault input streams ",
        FileRole::Report => b"fault report ",
        FileRole::Plan => b"fault plan ",
    }
}

/// The line for a refused text.
fn refused_line(
    alloc: Global,
    role: FileRole,
    kind: FaultKind,
    place: usize,
) -> Result<Vec<u8>, AllocError>
    ensures { IfOk result (λ line. line.items ≡ specs.refused_word role ++ kind_word kind
        ++ codes " " ++ decimal place ++ codes "\n") }
{
    let place = format!(in alloc; "{place}")?;
    let mut line = parts(alloc, refused_word(role), kind.word(), b" ")?;
    line.extend_from_slice(place.as_bytes())?;
    line.extend_from_slice(b"\n")?;
    Ok(line)
}

/// The word for why a report certifies nothing.
fn report_word(flaw: ReportFlaw) -> &'static [u8]
    ensures { result.now ≡ specs.report_word flaw }
{
    match flaw {
        ReportFlaw::Text => b"text",
        ReportFlaw::Ask => b"ask",
        ReportFlaw::Answer => b"answer",
    }
}

/// The line for a report that certifies nothing.
fn flawed_line(alloc: Global, line: usize, flaw: ReportFlaw) -> Result<Vec<u8>, AllocError>
    ensures { IfOk result (λ text. text.items ≡ specs.refused_word Report ++ specs.report_word flaw
        ++ codes " " ++ decimal line ++ codes "\n") }
{
    let line = format!(in alloc; " {line}\n")?;
    parts(
        alloc,
        refused_word(FileRole::Report),
        report_word(flaw),
        line.as_bytes(),
    )
}

/// What is written of a run without a verdict. Fails only where memory is wanting.
fn stop_text(alloc: Global, stop: Stop) -> Result<Vec<u8>, AllocError>
    ensures { IfOk result (λ text. text.items ≡ specs.stop_text stop) }
{
    match stop {
        Stop::Usage => parts(alloc, b"fault usage\n", usage_text().as_bytes(), b""),
        Stop::Refused { role, kind, place } => refused_line(alloc, role, kind, place),
        Stop::Flawed { line, flaw } => flawed_line(alloc, line, flaw),
        Stop::Failed(role) => parts(alloc, b"fault read ", role.word(), b" failed\n"),
        Stop::TooLong(role) => parts(alloc, b"fault read ", role.word(), b" too-long\n"),
        Stop::Memory => Vec::from_slice(alloc, MEMORY),
    }
}

/// How a run ends that says this of a plan.
fn status_of_verdict(verdict: &Verdict) -> Status
    ensures { result ≡ specs.status_of_verdict verdict.now }
{
    match verdict {
        Verdict::Valid(_) => Status::Valid,
        Verdict::Step(_, _) | Verdict::Goal(_) => Status::Invalid,
    }
}

/// How a run ends without a verdict.
fn status_of_stop(stop: Stop) -> Status
    ensures { result ≡ specs.status_of_stop stop }
{
    match stop {
        Stop::Usage => Status::Usage,
        Stop::Refused { .. } | Stop::Flawed { .. } => Status::Input,
        Stop::Failed(_) | Stop::TooLong(_) => Status::ReadFault,
        Stop::Memory => Status::Memory,
    }
}

impl Outcome {
    /// How a run ends that comes to this.
    pub(crate) fn status(&self) -> Status
        ensures { result ≡ specs.status_of self.now }
    {
        match self {
            Outcome::Judged(verdict, _) => status_of_verdict(verdict),
            Outcome::Stopped(stop) => status_of_stop(*stop),
        }
    }

    /// What is written of it. Fails only where memory is wanting.
    pub(crate) fn text(&self, alloc: Global) -> Result<Vec<u8>, AllocError>
        ensures { IfOk result (λ text. text.items ≡ specs.text_of self.now) }
    {
        match self {
            Outcome::Judged(verdict, claimed) => judged_lines(alloc, verdict, *claimed),
            Outcome::Stopped(stop) => stop_text(alloc, *stop),
        }
    }
}
