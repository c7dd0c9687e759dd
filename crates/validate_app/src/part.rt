//! The part of a condition that makes it false.
ghost use Rattle.std.specs.Prelude.{◌≡◌, ◌≤◌, IfOk, length, true};
ghost use Rattle.formula_eval.specs.Readable.{are_readable, is_readable};
ghost use Rattle.formula_memo.specs.Remembered.{StandsFor};
ghost use Rattle.task_model.specs.Condition.{parts_of};
ghost use Rattle.task_model.specs.Fit.{IsFit};
ghost use Rattle.validate_app.specs.Parts as specs;
ghost use Rattle.validate_app.specs.Parts.{holds_with as holds_in};
ghost use Rattle.task_model.specs.declared.limits.TheConstants.{SLOTS};

use crate::step::Scene;
use condition_text::Naming;
use formula_eval::Env;
use formula_memo::{Memo, holds_with};
use std::alloc::AllocError;
use task_model::{Formula, FormulaNode, Obj, Seq, State};

impl Scene<'_> {
    /// The part that makes the condition false where the slots have these objects.
    #[cycle(part)]
    fn false_part<'f>(
        &self,
        state: &State,
        memo: &mut Memo,
        formula: &'f Formula,
        env: &mut Env,
    ) -> &'f Formula
        requires fit { IsFit self.now.task.now }
        requires readable { is_readable self.now.task.now.domain formula.now ≡ true }
        requires stands { StandsFor self.now.task.now.domain self.now.facts.now.known state.now
            memo.old }
        ensures { result.now ≡ specs.false_part (holds_in self.now.task.now
            self.now.facts.now.known state.now env.old) formula.now }
    {
        match &formula.node {
            FormulaNode::All(parts) => {
                self.false_among(state, memo, parts.as_slice(), formula, env)
            }
            FormulaNode::Atom { .. }
            | FormulaNode::Equal(_, _)
            | FormulaNode::Any(_)
            | FormulaNode::Not(_)
            | FormulaNode::Exists { .. } => formula,
        }
    }

    /// That of the first of these parts which is false, and the whole where none is.
    #[cycle(part)]
    fn false_among<'f>(
        &self,
        state: &State,
        memo: &mut Memo,
        parts: &'f [Formula],
        whole: &'f Formula,
        env: &mut Env,
    ) -> &'f Formula
        requires fit { IsFit self.now.task.now }
        requires readable { are_readable self.now.task.now.domain (parts_of parts.now) ≡ true }
        requires stands { StandsFor self.now.task.now.domain self.now.facts.now.known state.now
            memo.old }
        ensures { result.now ≡ specs.false_among (holds_in self.now.task.now
            self.now.facts.now.known state.now env.old) (parts_of parts.now) whole.now }
    {
        for part in parts {
            if !holds_with(self.task, self.facts, state, memo, part, env) {
                return self.false_part(state, memo, part, env);
            }
        }
        whole
    }

    /// The text of the part that makes the condition false where the first slots have these objects.
    /// Fails only where memory is wanting.
    pub(crate) fn false_text(
        &self,
        state: &State,
        formula: &Formula,
        objects: &[Obj],
    ) -> Result<Seq<u8>, AllocError>
        requires fit { IsFit self.now.task.now }
        requires readable { is_readable self.now.task.now.domain formula.now ≡ true }
        requires few { length objects.now ≤ SLOTS }
        ensures { IfOk result (λ text. text ≡ specs.false_text self.now.task.now
            self.now.facts.now.known state.now formula.now objects.now) }
    {
        let mut env = Env::new(objects);
        let mut memo = Memo::empty(self.alloc);
        let part = self.false_part(state, &mut memo, formula, &mut env);
        let naming = Naming {
            domain: &self.task.domain,
            names: self.facts.names(),
            objects,
        };
        let text = naming.condition_text(self.alloc, part)?;
        Ok(Seq::from_vec(text))
    }
}
