//! What is due of a row, by its kind and its texts.
use crate::out::Out;
use crate::word::{first_word, number};
use crate::{
    commands, domains, grids, lines, maps, members, problems, reports, service, tasks, trees,
};
use command_line::usage_text;
use form_reader::TextKind;
use std::alloc::Global;

/// What is due of a row of one text about texts of tasks.
fn write_task_text(alloc: Global, out: &mut Out, kind: &[u8], text: &[u8]) {
    match kind {
        b"tree" => trees::write_read(alloc, out, text),
        b"fronts" => trees::write_walk(alloc, out, text),
        b"beginnings" => trees::write_beginnings(alloc, out, text),
        b"text-fault" => trees::write_fault(out, text),
        b"refusal" => tasks::write_shown(out, text),
        b"domain-form" => trees::write_form(alloc, out, TextKind::Domain, text),
        b"problem-form" => trees::write_form(alloc, out, TextKind::Problem, text),
        b"stream-form" => trees::write_form(alloc, out, TextKind::Streams, text),
        b"domain" | b"domain-counts" | b"types" => domains::write_read(alloc, out, kind, text),
        _ => out.put("no such row of one text"),
    }
}

/// What is due of any row of one text.
fn write_one(alloc: Global, out: &mut Out, kind: &[u8], rest: &[u8], text: &[u8]) {
    match kind {
        b"answer" => lines::write_answered(out, rest, text),
        b"cause" => lines::write_cause(out, text),
        b"pieces" => lines::write_cut(alloc, out, number(rest), text),
        b"report" => reports::write_faulty(alloc, out, text),
        b"report-fronts" => reports::write_fronts(alloc, out, text),
        b"migrated" => reports::write_migrated(alloc, out, text),
        b"command" => commands::write_asked(alloc, out, text),
        b"usage" => out.put(usage_text()),
        b"grid" => grids::write_read(alloc, out, kind, text),
        b"request-of" => grids::write_made(alloc, out, kind, number(rest), text),
        b"made-lengths" | b"made-texts" | b"made-read" => {
            grids::write_made(alloc, out, kind, number(text), &[]);
        }
        b"generator" => members::write_calls(alloc, out, text),
        _ => write_task_text(alloc, out, kind, text),
    }
}

/// What is due of a row of two texts.
fn write_two(alloc: Global, out: &mut Out, kind: &[u8], given: &[u8], text: &[u8]) {
    match kind {
        b"problem" | b"problem-counts" | b"streams" | b"stream-ends" => {
            problems::write_read(alloc, out, kind, given, text);
        }
        b"report-again" => reports::write_again(alloc, out, given, text),
        b"map" | b"words" => maps::write_given(alloc, out, kind, given, text, &[]),
        b"request" => grids::write_answered(alloc, out, given, text),
        b"last-child" | b"sure-host" => members::write_child(alloc, out, kind, given, text),
        _ => out.put("no such row of two texts"),
    }
}

/// Writes what is due of a row.
pub(crate) fn write_due(alloc: Global, out: &mut Out, heading: &[u8], texts: &[Vec<u8>]) {
    let (kind, rest) = first_word(heading);
    match (kind, texts) {
        (b"pushes", _) => lines::write_pushes(alloc, out, texts),
        (b"serve", [grid, input]) => service::write_service(alloc, out, rest, grid, input),
        (b"task", [domain, problem, streams]) => {
            tasks::write_counted(alloc, out, domain, problem, streams);
        }
        (b"map-grid", [streams, map, grid]) => {
            maps::write_given(alloc, out, kind, streams, map, grid);
        }
        (_, [text]) => write_one(alloc, out, kind, rest, text),
        (_, [given, text]) => write_two(alloc, out, kind, given, text),
        _ => out.put("no row"),
    }
}
