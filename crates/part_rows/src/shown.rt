//! Names, terms, atoms and conditions as rows show them.
use crate::out::Out;
use task_model::{Formula, FormulaNode, Name, Pattern, Term};

/// Writes a name.
pub(crate) fn write_name(out: &mut Out, name: &Name) {
    out.put(" ");
    out.put_bytes(name.bytes());
}

/// Writes numbers.
pub(crate) fn write_numbers(out: &mut Out, numbers: &[u32]) {
    for number in numbers {
        out.put(" ");
        out.print(*number);
    }
}

/// Writes a term, a slot as `?N` and an object as `N`.
fn write_term(out: &mut Out, term: &Term) {
    match term {
        Term::Slot(slot) => {
            out.put(" ?");
            out.print(*slot);
        }
        Term::Object(object) => {
            out.put(" ");
            out.print(object.place());
        }
    }
}

/// Writes an atom or a value as `[NAME TERMS]`, its name by its place.
pub(crate) fn write_applied(out: &mut Out, name: u32, terms: &[Term]) {
    out.put(" [");
    out.print(name);
    for term in terms {
        write_term(out, term);
    }
    out.put("]");
}

/// Writes atoms.
pub(crate) fn write_patterns(out: &mut Out, patterns: &[Pattern]) {
    for pattern in patterns {
        write_applied(out, pattern.pred, pattern.args.as_slice());
    }
}

/// Writes a condition, as deep as `depth` says.
pub(crate) fn write_formula(out: &mut Out, formula: &Formula, depth: usize) {
    if depth == 0 {
        return;
    }
    match &formula.node {
        FormulaNode::Atom { pred, args } => write_applied(out, *pred, args.as_slice()),
        FormulaNode::Equal(first, second) => {
            out.put(" [=");
            write_term(out, first);
            write_term(out, second);
            out.put("]");
        }
        FormulaNode::All(parts) => {
            out.put(" [and");
            for part in parts {
                write_formula(out, part, depth - 1);
            }
            out.put("]");
        }
        FormulaNode::Any(parts) => {
            out.put(" [or");
            for part in parts {
                write_formula(out, part, depth - 1);
            }
            out.put("]");
        }
        FormulaNode::Not(part) => {
            out.put(" [not");
            write_formula(out, part, depth - 1);
            out.put("]");
        }
        FormulaNode::Exists { first, sorts, body } => {
            out.put(" [exists ");
            out.print(*first);
            out.put(":");
            write_numbers(out, sorts.as_slice());
            write_formula(out, body, depth - 1);
            out.put("]");
        }
    }
}
