//! Conditions that are put behind a text.
ghost use Rattle.std.specs.Prelude.{◌≡◌, ◌++◌, ◌≤◌, OnOk, codes};
ghost use Rattle.task_model.specs.Condition.{Exists, Not, parts_of};
ghost use Rattle.condition_text.specs.Texts as specs;

use crate::naming::Naming;
use std::alloc::{AllocError, Global};
use task_model::{Formula, FormulaNode, Term};

impl Naming<'_> {
    /// Puts each term behind the text, with a space in front of it.
    fn put_terms(&self, alloc: Global, text: &mut Vec<u8>, terms: &[Term]) -> Result<(), AllocError>
        ensures { OnOk result (text.new.items ≡ text.old.items
            ++ specs.terms_text self.now.names.now self.now.objects.now terms.now) }
    {
        for term in terms {
            text.extend_from_slice(b" ")?;
            self.put_term(alloc, text, *term)?;
        }
        Ok(())
    }

    /// Puts a word and terms behind the text, in parentheses.
    fn put_applied(
        &self,
        alloc: Global,
        text: &mut Vec<u8>,
        word: &[u8],
        terms: &[Term],
    ) -> Result<(), AllocError>
        ensures { OnOk result (text.new.items ≡ text.old.items
            ++ specs.applied self.now.names.now self.now.objects.now word.now terms.now) }
    {
        text.extend_from_slice(b"(")?;
        text.extend_from_slice(word)?;
        self.put_terms(alloc, text, terms)?;
        text.extend_from_slice(b")")
    }

    /// Puts a variable with its type behind the text.
    fn put_typed(
        &self,
        alloc: Global,
        text: &mut Vec<u8>,
        slot: usize,
        sort: u32,
    ) -> Result<(), AllocError>
        ensures { OnOk result (text.new.items ≡ text.old.items
            ++ specs.typed self.now.domain.now slot sort) }
    {
        self.put_variable(alloc, text, slot)?;
        text.extend_from_slice(b" - ")?;
        text.extend_from_slice(self.sort_at(sort))
    }

    /// Puts variables of these types behind the text, from the slot `first` on, each with a space in
    /// front of it.
    fn put_more_variables(
        &self,
        alloc: Global,
        text: &mut Vec<u8>,
        first: usize,
        sorts: &[u32],
    ) -> Result<(), AllocError>
        requires { first ≤ 256 }
        ensures { OnOk result (text.new.items ≡ text.old.items
            ++ specs.more_variables self.now.domain.now first sorts.now) }
    {
        for (place, sort) in sorts.iter().enumerate() {
            text.extend_from_slice(b" ")?;
            self.put_typed(alloc, text, first + place, *sort)?;
        }
        Ok(())
    }

    /// Puts variables of these types behind the text, from the slot `first` on, with a space between
    /// any two.
    fn put_variables(
        &self,
        alloc: Global,
        text: &mut Vec<u8>,
        first: u8,
        sorts: &[u32],
    ) -> Result<(), AllocError>
        ensures { OnOk result (text.new.items ≡ text.old.items
            ++ specs.variables_text self.now.domain.now first sorts.now) }
    {
        let Some((sort, more)) = sorts.split_first() else {
            return Ok(());
        };
        let slot = first as usize;
        self.put_typed(alloc, text, slot, *sort)?;
        self.put_more_variables(alloc, text, slot + 1, more)
    }

    /// Puts a quantified condition behind the text.
    #[cycle(put)]
    fn put_exists(
        &self,
        alloc: Global,
        text: &mut Vec<u8>,
        first: u8,
        sorts: &[u32],
        body: &Formula,
    ) -> Result<(), AllocError>
        ensures { OnOk result (text.new.items ≡ text.old.items
            ++ specs.condition_text self.now.domain.now self.now.names.now self.now.objects.now
            (Exists first sorts.now body.now)) }
    {
        text.extend_from_slice(b"(exists (")?;
        self.put_variables(alloc, text, first, sorts)?;
        text.extend_from_slice(b") ")?;
        self.put_condition(alloc, text, body)?;
        text.extend_from_slice(b")")
    }

    /// Puts each condition behind the text, with a space in front of it.
    #[cycle(put)]
    fn put_parts(
        &self,
        alloc: Global,
        text: &mut Vec<u8>,
        parts: &[Formula],
    ) -> Result<(), AllocError>
        ensures { OnOk result (text.new.items ≡ text.old.items
            ++ specs.parts_text self.now.domain.now self.now.names.now self.now.objects.now
            (parts_of parts.now)) }
    {
        for part in parts {
            text.extend_from_slice(b" ")?;
            self.put_condition(alloc, text, part)?;
        }
        Ok(())
    }

    /// Puts a word and conditions behind the text, in parentheses.
    #[cycle(put)]
    fn put_joined(
        &self,
        alloc: Global,
        text: &mut Vec<u8>,
        word: &[u8],
        parts: &[Formula],
    ) -> Result<(), AllocError>
        ensures { OnOk result (text.new.items ≡ text.old.items ++ word.now
            ++ specs.parts_text self.now.domain.now self.now.names.now self.now.objects.now
            (parts_of parts.now) ++ codes ")") }
    {
        text.extend_from_slice(word)?;
        self.put_parts(alloc, text, parts)?;
        text.extend_from_slice(b")")
    }

    /// Puts the denial of a condition behind the text.
    #[cycle(put)]
    fn put_denied(
        &self,
        alloc: Global,
        text: &mut Vec<u8>,
        part: &Formula,
    ) -> Result<(), AllocError>
        ensures { OnOk result (text.new.items ≡ text.old.items
            ++ specs.condition_text self.now.domain.now self.now.names.now self.now.objects.now
            (Not part.now)) }
    {
        text.extend_from_slice(b"(not ")?;
        self.put_condition(alloc, text, part)?;
        text.extend_from_slice(b")")
    }

    /// Puts a condition behind the text.
    #[cycle(put)]
    pub(crate) fn put_condition(
        &self,
        alloc: Global,
        text: &mut Vec<u8>,
        formula: &Formula,
    ) -> Result<(), AllocError>
        ensures { OnOk result (text.new.items ≡ text.old.items
            ++ specs.condition_text self.now.domain.now self.now.names.now self.now.objects.now
            formula.now) }
    {
        match &formula.node {
            FormulaNode::Atom { pred, args } => {
                self.put_applied(alloc, text, self.predicate_at(*pred), args.as_slice())
            }
            FormulaNode::Equal(first, second) => {
                self.put_applied(alloc, text, b"=", &[*first, *second])
            }
            FormulaNode::All(parts) => self.put_joined(alloc, text, b"(and", parts.as_slice()),
            FormulaNode::Any(parts) => self.put_joined(alloc, text, b"(or", parts.as_slice()),
            FormulaNode::Not(part) => self.put_denied(alloc, text, part),
            FormulaNode::Exists { first, sorts, body } => {
                self.put_exists(alloc, text, *first, sorts.as_slice(), body)
            }
        }
    }
}
