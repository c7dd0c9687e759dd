//! What the children of a row say.
ghost use Rattle.io_world.specs.ScriptHostState.{is_running};
ghost use Rattle.std.specs.Prelude.{◌≡◌, ℕ, false};

use crate::word::{first_word, number};
use io_world::{CHILDREN, Script, ScriptHost};
use std::alloc::{AllocError, Global};
use std::mem;

/// What the children say, of whom one was named last, at each of their starts, and which calls on
/// them fail.
#[derive(Drop)]
pub(crate) struct Talk {
    alloc: Global,
    scripts: Vec<Vec<Script>>,
    open: usize,
    fails: Vec<u64>,
}

impl Talk {
    /// There are no children.
    pub(crate) fn new(alloc: Global) -> Talk {
        Talk {
            alloc,
            scripts: Vec::new(alloc),
            open: 0,
            fails: Vec::new(alloc),
        }
    }

    /// There are children up to this one, each with what it says at its first start.
    fn grow(&mut self, child: usize) -> Result<(), AllocError> {
        for _ in self.scripts.len()..child.saturating_add(1) {
            let mut lives = Vec::new(self.alloc);
            lives.push(silent(self.alloc))?;
            self.scripts.push(lives)?;
        }
        Ok(())
    }

    /// What that child says at its next start begins: nothing so far. Answers whether there is one.
    pub(crate) fn begin_life(&mut self) -> Result<bool, AllocError> {
        match self.scripts.get_mut(self.open) {
            Some(lives) => lives.push(silent(self.alloc))?,
            None => return Ok(false),
        }
        Ok(true)
    }

    /// What that child says at the start that was named last.
    fn script(&mut self) -> Option<&mut Script> {
        self.scripts.get_mut(self.open)?.last_mut()
    }

    /// What this child says begins: nothing so far. There are children up to it.
    pub(crate) fn begin_child(&mut self, child: usize) -> Result<(), AllocError> {
        self.open = child.min(CHILDREN - 1);
        self.grow(self.open)?;
        if let Some(lives) = self.scripts.get_mut(self.open) {
            lives.truncate(1);
        }
        if let Some(script) = self.script() {
            script.bytes.clear();
            script.needs.clear();
        }
        Ok(())
    }

    /// Puts bytes behind what that child says, and answers whether there is one.
    pub(crate) fn add(&mut self, bytes: &[u8]) -> Result<bool, AllocError> {
        match self.script() {
            Some(script) => script.bytes.extend_from_slice(bytes)?,
            None => return Ok(false),
        }
        Ok(true)
    }

    /// Its bytes from a place on wait until so many lines were written to another child: place,
    /// child and lines. Answers whether there is such a child.
    pub(crate) fn add_need(&mut self, words: &[u8]) -> Result<bool, AllocError> {
        let (place, rest) = first_word(words);
        let (child, lines) = first_word(rest);
        let Ok(child) = u8::try_from(number(child)) else {
            return Ok(false);
        };
        match self.script() {
            Some(script) => {
                let need = (number(place), child, number(lines) as u64);
                script.needs.push(need)?;
            }
            None => return Ok(false),
        }
        Ok(true)
    }

    /// The call on a child of this number fails.
    pub(crate) fn fail(&mut self, call: usize) -> Result<(), AllocError> {
        self.fails.push(call as u64)?;
        Ok(())
    }

    /// A read gives at most so many bytes.
    pub(crate) fn cut(&mut self, piece: usize) -> Result<(), AllocError> {
        let alloc = self.alloc;
        for lives in &mut self.scripts {
            for script in lives.as_mut_slice() {
                script.cuts = vec![in alloc; piece; script.bytes.len()]?;
            }
        }
        Ok(())
    }

    /// The host of the children. None is left here.
    pub(crate) fn take(&mut self) -> ScriptHost
        ensures { (k : ℕ) → is_running result k ≡ false }
    {
        let scripts = mem::replace(&mut self.scripts, Vec::new(self.alloc));
        let fails = mem::replace(&mut self.fails, Vec::new(self.alloc));
        ScriptHost::again(self.alloc, scripts, fails)
    }
}

/// A child that says nothing.
fn silent(alloc: Global) -> Script {
    Script {
        bytes: Vec::new(alloc),
        cuts: Vec::new(alloc),
        needs: Vec::new(alloc),
    }
}
