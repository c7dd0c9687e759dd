// How far a scripted child has come.
ghost use Rattle.std.specs.Prelude.{◌≡◌, ◌≤◌};
ghost use Rattle.io_world.specs.ScriptHostState.{idle, begun, progress_of, open_to, line_feeds};

/// How far a scripted child has come since its last start, and how often it was started.
#[derive(Clone, Copy, Debug, PartialEq, Eq)]
pub struct Progress {
    /// Whether it runs.
    pub running: bool,
    /// How many of its bytes it gave.
    pub position: usize,
    /// How often it was read from. This stops at `2^64 - 1`.
    pub reads: u64,
    /// How many line feeds were written to it. This stops at `2^64 - 1`.
    pub lines: u64,
    /// How many of its starts were Ok. This stops at `2^64 - 1`.
    pub starts: u64,
}

impl Progress {
    /// It wasn't started.
    pub fn idle() -> Progress
        ensures { result ≡ idle }
    {
        Progress {
            running: false,
            position: 0,
            reads: 0,
            lines: 0,
            starts: 0,
        }
    }

    /// It was just started once more.
    pub fn begun(self) -> Progress
        ensures { result ≡ begun self.starts }
    {
        Progress {
            running: true,
            starts: self.starts.saturating_add(1),
            ..Progress::idle()
        }
    }
}

/// How far this child has come; the same as `idle` for a number of no child.
pub fn progress_of(progress: &[Progress], child: u8) -> Progress
    ensures { result ≡ progress_of progress.now child }
{
    progress
        .get(child as usize)
        .copied()
        .unwrap_or(Progress::idle())
}

/// The place before which bytes may be given, `end` or less: each need that isn't met lowers it.
pub fn open_to(progress: &[Progress], needs: &[(usize, u8, u64)], end: usize) -> usize
    ensures value { result ≡ open_to progress.now needs.now end }
    ensures within { result ≤ end }
{
    let Some((need, others)) = needs.split_first() else {
        return end;
    };
    if progress_of(progress, need.1).lines < need.2 {
        open_to(progress, others, end.min(need.0))
    } else {
        open_to(progress, others, end)
    }
}

/// How many line feeds there are.
pub fn line_feeds(bytes: &[u8]) -> usize
    ensures { result ≡ line_feeds bytes.now }
{
    bytes.iter().filter(|byte| **byte == b'\n').count()
}
