//! Turns without a dream.
ghost use Rattle.solve_run.specs.OnDesk.{HasNoDreamAt, OnDreamless, OnFallback};
ghost use Rattle.std.specs.Prelude.{◌≡◌};
ghost use Rattle.solve_run.specs.Focusing.{BeginsFocusedTurn};
ghost use Rattle.turn_run.specs.Turns.{IsTurnAt};
ghost use Rattle.turn_run.specs.declared.turns.Turned.TheVariants.{Spent, Done as WholeTurn};
ghost use Rattle.round_run.specs.Desk.{RestsAt};
ghost use Rattle.round_run.specs.Told.{stretch, host_told};
ghost use Rattle.round_run.specs.declared.ending.Batch.TheVariants.{CallsSpent, Done};

use instance_queue::Due;
use io_world::{Host, Sink};
use optimistic_set::Tried;
use transcript_model::Entry;
use turn_run::{Batch, Desk, RunFault, Turned, ask_behind};

/// How the turn ends whose last batch ended so.
pub(crate) fn turned(ended: Batch) -> Turned
    ensures done { ended ≡ Done → result ≡ WholeTurn }
    ensures spent { ended ≡ CallsSpent → result ≡ Spent }
{
    match ended {
        Batch::Done => Turned::Done,
        Batch::CallsSpent => Turned::Spent,
    }
}

/// Goes on behind a `none`, which was printed: where something was tried (`is_tried`), that is
/// forgotten, and else a whole level is asked, of these instances, which are due.
///
/// # Errors
/// `Answer` where the line that answers a request is no answer; `Generator` and `Write` only where
/// the host's or the sink's count of faults rose in this call; `Memory`. Afterwards the desk may
/// only be looked at.
fn fall_back<H: Host, O: Sink>(
    desk: &mut Desk<'_>,
    host: &mut H,
    out: &mut O,
    is_tried: bool,
    dues: &[Due],
) -> Result<Batch, RunFault>
    requires rests { RestsAt desk.old (host_told H.Host host.old) }
    requires turn { IsTurnAt desk.old dues.now }
    ensures goes { OnFallback desk.old desk.new (stretch H.Host O.Sink host.old host.new out.old
        out.new) is_tried dues.now result }
{
    if is_tried {
        desk.mark(out, Entry::Reset)?;
        return Ok(Batch::Done);
    }
    ask_behind(desk, host, out, Entry::Level, dues)
}

/// Says that there is no dream; then where something was tried, that is forgotten, and else a whole
/// level is asked, of these instances, which are due. It is so in each mode that dreams, and no
/// skeletons change.
///
/// # Errors
/// `Answer` where the line that answers a request is no answer; `Generator` and `Write` only where
/// the host's or the sink's count of faults rose in this call; `Memory`. Afterwards the desk may
/// only be looked at.
pub(crate) fn without_dream<H: Host, O: Sink>(
    desk: &mut Desk<'_>,
    host: &mut H,
    out: &mut O,
    tried: &mut Tried,
    dues: &[Due],
) -> Result<Turned, RunFault>
    requires rests { RestsAt desk.old (host_told H.Host host.old) }
    requires begins { BeginsFocusedTurn desk.old.task desk.old.head desk.old.state dues.now }
    requires none { HasNoDreamAt desk.old tried.old }
    ensures goes { OnDreamless desk.old desk.new (stretch H.Host O.Sink host.old host.new out.old
        out.new) tried.old tried.new result }
{
    desk.mark(out, Entry::Nothing)?;
    let is_tried = !tried.is_empty();
    let ended = fall_back(desk, host, out, is_tried, dues)?;
    tried.clear();
    Ok(turned(ended))
}
