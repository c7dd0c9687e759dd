//! What the words ask for.
use task_model::Seq;
use transcript_model::Mode;

/// A task is to be solved: `solve DOMAIN PROBLEM STREAMS [OPTIONS] [-- PROGRAM WORDS]` (this
/// project). Paths are as the words give them, and may be empty; no file is looked at here.
#[derive(Debug, Drop)]
pub struct SolveConfig {
    /// DOMAIN, the path of the domain's text.
    pub domain: String,
    /// PROBLEM, the path of the problem's text.
    pub problem: String,
    /// STREAMS, the path of the streams' text.
    pub streams: String,
    /// The path of `--map`, where the words have one.
    pub map: Option<String>,
    /// The generator program and its words, in order; none where no program is named, and none
    /// beside a map.
    pub program: Seq<String>,
    /// How many workers run the program, 1 to 16: `--workers`, and 1 without it, as beside a map.
    pub workers: u8,
    /// How the planner goes about it: `--algorithm`, and incremental mode without it.
    pub mode: Mode,
    /// The most calls of a run, 1 to 100,000: `--calls`, and 10,000 without it.
    pub calls: u32,
    /// The most states of a search, 1 to 200,000: `--states`, and 100,000 without it.
    pub states: u32,
    /// The depth of dreams, 1 to 8: `--depth`, and 3 without it. It has no meaning in incremental
    /// mode.
    pub depth: u8,
    /// The version of the protocol and of the report, 1 or 2: `--protocol`, and 1 without it.
    pub protocol: u8,
    /// Whether the cheapest plan is asked for: `--optimal`, which goes with incremental mode alone.
    pub optimal: bool,
    /// How many failures of children are made good by starting them again, 0 to 1,000:
    /// `--restarts`, and 0 without it.
    pub restarts: u32,
}

/// A report is to be judged: `replay DOMAIN PROBLEM STREAMS REPORT [--states N] [--optimal]`, or its
/// plan's order is to be told: `deorder`, with the same words but `--optimal` (this project). Paths
/// are as the words give them, and may be empty; no file is looked at here.
#[derive(Debug, Drop)]
pub struct ReplayConfig {
    /// DOMAIN, the path of the domain's text.
    pub domain: String,
    /// PROBLEM, the path of the problem's text.
    pub problem: String,
    /// STREAMS, the path of the streams' text.
    pub streams: String,
    /// REPORT, the path of the report.
    pub report: String,
    /// The most states of a search of the judge, 1 to 200,000: `--states`, and 100,000 without it.
    pub states: u32,
    /// Whether the plan's cost is to be judged too: `--optimal`, which `deorder` hasn't.
    pub optimal: bool,
}

/// A report's plan is to be acted out on a grid: `play DOMAIN PROBLEM STREAMS REPORT GRID [--states
/// N]` (this project). Paths are as the words give them, and may be empty; no file is looked at
/// here.
#[derive(Debug, Drop)]
pub struct PlayConfig {
    /// DOMAIN, the path of the domain's text.
    pub domain: String,
    /// PROBLEM, the path of the problem's text.
    pub problem: String,
    /// STREAMS, the path of the streams' text.
    pub streams: String,
    /// REPORT, the path of the report.
    pub report: String,
    /// GRID, the path of the grid's text.
    pub grid: String,
    /// The most states of a search of the judge, 1 to 200,000: `--states`, and 100,000 without it.
    pub states: u32,
}

/// What the words ask for.
#[derive(Debug, Drop)]
pub enum Config {
    /// A task is to be solved.
    Solve(SolveConfig),
    /// A report is to be judged.
    Replay(ReplayConfig),
    /// The grid task of this number, 1 to 12, is to be made and solved: `generate N` (this
    /// project).
    Generate(u32),
    /// The report of this path is to be printed in version 2: `migrate REPORT` (this project). The
    /// path may be empty; no file is looked at here.
    Migrate(String),
    /// What must stay in order of a report's plan is to be told: `deorder DOMAIN PROBLEM STREAMS
    /// REPORT [--states N]` (this project).
    Deorder(ReplayConfig),
    /// A report's plan is to be acted out on a grid: `play DOMAIN PROBLEM STREAMS REPORT GRID
    /// [--states N]` (this project).
    Play(PlayConfig),
}
