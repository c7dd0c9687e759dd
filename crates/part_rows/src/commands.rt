//! Lines of words, and what they ask for.
use crate::out::Out;
use crate::word::words_of;
use command_line::{Config, PlayConfig, ReplayConfig, SolveConfig, WordsFault, read_words};
use std::alloc::Global;
use transcript_model::Mode;

/// Writes a word, where `_` stands for an empty one.
fn write_word(out: &mut Out, word: &str) {
    out.put(" ");
    out.put(if word.is_empty() { "_" } else { word });
}

/// Writes words.
pub(crate) fn write_words(out: &mut Out, words: &[String]) {
    for word in words {
        write_word(out, word.as_str());
    }
}

/// Writes a number behind a space.
fn write_number(out: &mut Out, number: u32) {
    out.put(" ");
    out.print(number);
}

fn mode_word(mode: Mode) -> &'static str {
    match mode {
        Mode::Incremental => " incremental",
        Mode::Focused => " focused",
        Mode::Binding => " binding",
        Mode::Adaptive => " adaptive",
    }
}

/// Writes that the cheapest plan is asked for.
fn write_optimal(out: &mut Out, optimal: bool) {
    if optimal {
        out.put(" optimal");
    }
}

/// Writes paths, calls, states, depth, workers and mode, the protocol where it isn't 1, whether the
/// cheapest plan is asked for, the restarts where they aren't 0, and then the map or the program.
fn write_solve(out: &mut Out, config: &SolveConfig) {
    out.put("solve");
    write_word(out, config.domain.as_str());
    write_word(out, config.problem.as_str());
    write_word(out, config.streams.as_str());
    write_number(out, config.calls);
    write_number(out, config.states);
    write_number(out, u32::from(config.depth));
    write_number(out, u32::from(config.workers));
    out.put(mode_word(config.mode));
    if config.protocol != 1 {
        out.put(" protocol");
        write_number(out, u32::from(config.protocol));
    }
    write_optimal(out, config.optimal);
    if config.restarts != 0 {
        out.put(" restarts");
        write_number(out, config.restarts);
    }
    if let Some(map) = &config.map {
        out.put(" map");
        write_word(out, map.as_str());
    }
    write_words(out, config.program.as_slice());
}

/// Writes the command's name, paths and states, and whether the plan's cost is judged too.
fn write_judged(out: &mut Out, name: &str, config: &ReplayConfig) {
    out.put(name);
    write_word(out, config.domain.as_str());
    write_word(out, config.problem.as_str());
    write_word(out, config.streams.as_str());
    write_word(out, config.report.as_str());
    write_number(out, config.states);
    write_optimal(out, config.optimal);
}

/// Writes paths and states.
fn write_play(out: &mut Out, config: &PlayConfig) {
    out.put("play");
    write_word(out, config.domain.as_str());
    write_word(out, config.problem.as_str());
    write_word(out, config.streams.as_str());
    write_word(out, config.report.as_str());
    write_word(out, config.grid.as_str());
    write_number(out, config.states);
}

/// Writes a command.
fn write_config(out: &mut Out, config: &Config) {
    match config {
        Config::Solve(config) => write_solve(out, config),
        Config::Replay(config) => write_judged(out, "replay", config),
        Config::Generate(number) => {
            out.put("generate");
            write_number(out, *number);
        }
        Config::Migrate(path) => {
            out.put("migrate");
            write_word(out, path.as_str());
        }
        Config::Deorder(config) => write_judged(out, "deorder", config),
        Config::Play(config) => write_play(out, config),
    }
}

/// Writes what words ask for.
fn write_read(alloc: Global, out: &mut Out, words: &[String]) {
    match read_words(alloc, words) {
        Ok(config) => write_config(out, &config),
        Err(WordsFault::Usage) => out.put("usage"),
        Err(WordsFault::Memory) => out.lose(),
    }
}

/// Writes what a line of words asks for.
pub(crate) fn write_asked(alloc: Global, out: &mut Out, line: &[u8]) {
    match words_of(alloc, line) {
        Ok(words) => write_read(alloc, out, words.as_slice()),
        Err(_) => out.lose(),
    }
}
