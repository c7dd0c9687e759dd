//! Plans, judged step by step.
ghost use Rattle.std.specs.Prelude.{◌≡◌, ◌<◌, ◌^◌, length, IfOk};
ghost use Rattle.task_model.specs.Fit.{IsFit};
ghost use Rattle.task_model.specs.Initial.{initial_state};
ghost use Rattle.validate_app.specs.Verdicts.{IsPlanVerdict};

use crate::local::is_local;
use crate::step::{Scene, Taken};
use crate::verdict::Verdict;
use formula_eval::Env;
use formula_memo::holds_once;
use plan_check::initial;
use spread_state::{Board, SpreadState};
use std::alloc::AllocError;
use transcript_model::Call;

impl Scene<'_> {
    /// Judges the plan that the calls show, of fewer than 2^26 steps, so that its cost fits. The
    /// state is spread where steps are quicker then.
    pub(crate) fn judge(&self, calls: &[Call]) -> Result<Verdict, AllocError>
        requires fit { IsFit self.now.task.now }
        requires few { length calls.now < 2 ^ 26 }
        ensures { IfOk result (IsPlanVerdict self.now.task.now self.now.facts.now.known calls.now) }
    {
        let state = initial(self.alloc, self.task)?;
        if is_local(self.task) {
            self.judge_from(SpreadState::spread(&state)?, calls)
        } else {
            self.judge_from(state, calls)
        }
    }

    /// Judges the plan from the initial state.
    fn judge_from<B: Board>(&self, board: B, calls: &[Call]) -> Result<Verdict, AllocError>
        requires fit { IsFit self.now.task.now }
        requires few { length calls.now < 2 ^ 26 }
        requires initial { B.atoms board ≡ initial_state self.now.task.now }
        ensures { IfOk result (IsPlanVerdict self.now.task.now self.now.facts.now.known calls.now) }
    {
        let mut board = board;
        let mut cost: u64 = 0;
        for (place, call) in calls.iter().enumerate() {
            match self.take(&mut board, call)? {
                Taken::Costs(more) => cost += more,
                Taken::Fails(flaw) => return Ok(Verdict::Step(place + 1, flaw)),
            }
        }
        let state = board.state()?;
        let mut env = Env::new(&[]);
        if holds_once(
            self.task,
            self.facts,
            &state,
            &self.task.problem.goal,
            &mut env,
        ) {
            Ok(Verdict::Valid(cost))
        } else {
            let part = self.false_text(&state, &self.task.problem.goal, &[])?;
            Ok(Verdict::Goal(part))
        }
    }
}
