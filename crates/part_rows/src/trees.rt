//! Trees of texts, and their forms.
use crate::out::Out;
use crate::refusals::write_refusal;
use crate::word::{first_word, number};
use form_reader::{Fault, InputFault, TextKind, check_form};
use sexpr_text::{Front, Node, TextFault, Tree, alone, front_of, read_tree};
use std::alloc::Global;
use task_reader::InputRefusal;

/// Writes the trees of a row, each behind a space and with the place of each word and each list in
/// it. No tree of the row is deeper than `depth`.
fn write_row(out: &mut Out, row: &[Node], depth: usize) {
    if depth == 0 {
        return;
    }
    let mut left = row;
    for _ in 0..row.len() {
        left = match front_of(left) {
            Front::End => return,
            Front::Word { text, place, rest } => {
                out.put(" ");
                out.put_bytes(text);
                out.put("@");
                out.print(place);
                rest
            }
            Front::List { items, place, rest } => {
                out.put(" (");
                out.print(place);
                write_row(out, items, depth - 1);
                out.put(" )");
                rest
            }
        };
    }
}

/// Writes the tree with the place of each word and each list.
fn write_tree(out: &mut Out, tree: &Tree) {
    out.put("(");
    out.print(tree.place());
    write_row(out, &tree.items, tree.items.len());
    out.put(" )");
}

/// How many trees are in a row.
fn count(row: &[Node]) -> usize {
    let mut left = row;
    let mut count: usize = 0;
    for _ in 0..row.len() {
        left = match front_of(left) {
            Front::End => return count,
            Front::Word { rest, .. } => rest,
            Front::List { rest, .. } => rest,
        };
        count = count.saturating_add(1);
    }
    count
}

/// Writes a fault of a text.
fn write_refused(out: &mut Out, fault: TextFault) {
    match fault {
        TextFault::Memory => out.lose(),
        fault => out.show(fault),
    }
}

/// Writes the tree of a text, or its fault.
pub(crate) fn write_read(alloc: Global, out: &mut Out, text: &[u8]) {
    match read_tree(alloc, text) {
        Ok(tree) => write_tree(out, &tree),
        Err(fault) => write_refused(out, fault),
    }
}

/// Writes a place and how many trees are behind it.
fn write_place(out: &mut Out, place: usize, rest: &[Node]) {
    out.put(" at ");
    out.print(place);
    out.put(", ");
    out.print(count(rest));
    out.put(" behind; ");
}

/// Writes what is in front, at which place and how much behind it, what is in the lists, and what
/// is behind, as deep as `depth` says.
fn write_front(out: &mut Out, front: Front<'_>, depth: usize) {
    if depth == 0 {
        return;
    }
    match front {
        Front::End => out.put("end"),
        Front::Word { text, place, rest } => {
            out.put_bytes(text);
            write_place(out, place, rest);
            write_front(out, front_of(rest), depth - 1);
        }
        Front::List { items, place, rest } => {
            out.put("list of ");
            out.print(count(items));
            write_place(out, place, rest);
            write_front(out, front_of(items), depth - 1);
            out.put("; ");
            write_front(out, front_of(rest), depth - 1);
        }
    }
}

/// Writes the place of a text's tree, and what is in front all through it.
pub(crate) fn write_walk(alloc: Global, out: &mut Out, text: &[u8]) {
    match read_tree(alloc, text) {
        Ok(tree) => {
            out.put("at ");
            out.print(tree.place());
            out.put("; ");
            write_front(out, alone(&tree), 20);
        }
        Err(fault) => write_refused(out, fault),
    }
}

/// Writes how many beginnings of a text are unclosed at their ends, and the tree of the whole.
pub(crate) fn write_beginnings(alloc: Global, out: &mut Out, text: &[u8]) {
    let mut count: usize = 0;
    for length in 0..text.len() {
        match read_tree(alloc, &text[..length]) {
            Err(TextFault::Unclosed(place)) if place == length => count = count.saturating_add(1),
            Err(TextFault::Memory) => out.lose(),
            _ => {}
        }
    }
    out.print(count);
    out.put(" of ");
    out.print(text.len());
    out.put(" beginnings are unclosed at their ends; the whole: ");
    write_read(alloc, out, text);
}

/// Writes what is printed of a fault: its name, and its place.
pub(crate) fn write_fault(out: &mut Out, words: &[u8]) {
    let (name, place) = first_word(words);
    let place = number(place);
    out.print(match name {
        b"bad-byte" => TextFault::BadByte(place),
        b"unclosed" => TextFault::Unclosed(place),
        b"extra" => TextFault::Extra(place),
        b"too-deep" => TextFault::TooDeep(place),
        _ => TextFault::Memory,
    });
}

/// Writes the fault of a text's form, or that it has none.
pub(crate) fn write_form(alloc: Global, out: &mut Out, kind: TextKind, text: &[u8]) {
    match read_tree(alloc, text) {
        Ok(tree) => match check_form(kind, &tree) {
            Some(Fault { place, kind }) => {
                write_refusal(out, InputRefusal::from(InputFault::At { place, kind }));
            }
            None => out.put("no fault"),
        },
        Err(fault) => write_refused(out, fault),
    }
}
