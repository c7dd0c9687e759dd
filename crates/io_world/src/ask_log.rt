// The calls on files, with their answers.
ghost use Rattle.std.specs.Prelude.{◌≡◌, ◌++◌, ◌∷◌, [], List, Option, Some, None, string_bytes, option_map, if◌then◌else◌, OnOk, OnErr};
ghost use Rattle.io_world.specs.FileMap.{AskedPath};

use crate::files::FileFault;
use std::alloc::{AllocError, Global};
use std::marker::Model;

/// A path that was asked for, with Ok or the fault.
#[derive(Drop)]
struct Ask {
    path: String,
    answer: Result<(), FileFault>,
}

impl Model for Ask {
    ghost Value = { AskedPath };

    ghost view = { λ s. record { path = string_bytes s.path; answer = s.answer } };
}

/// All paths that were asked for with their answers, as long as there was memory for each.
#[derive(Drop)]
pub struct AskLog {
    asks: Vec<Ask>,
    whole: bool,
}

impl Model for AskLog {
    ghost Value = { Option (List AskedPath) };

    ghost view = { λ s. (if s.whole then Some s.asks.items else None) };
}

impl AskLog {
    /// Nothing was asked yet.
    pub fn new(alloc: Global) -> AskLog
        ensures { result ≡ Some [] }
    {
        AskLog {
            asks: Vec::new(alloc),
            whole: true,
        }
    }

    /// Notes a path with its answer. Where there is no memory for it, the log is lost.
    pub fn note(
        &mut self,
        alloc: Global,
        path: &str,
        answer: Result<(), FileFault>,
    ) -> Result<(), AllocError>
        ensures ok { OnOk result (self.new
            ≡ option_map (λ asks. asks ++ record { path = path.now; answer = answer } ∷ [])
            self.old) }
        ensures err { OnErr result (self.new ≡ None) }
    {
        let Ok(path) = String::from_str(alloc, path) else {
            self.whole = false;
            return Err(AllocError);
        };
        let Ok(()) = self.asks.push(Ask { path, answer }) else {
            self.whole = false;
            return Err(AllocError);
        };
        Ok(())
    }
}
