//! The lists that are open at a place of the text.
ghost use Rattle.std.specs.Prelude.{◌≡◌, [], IfOk};
ghost use Rattle.sexpr_text.specs.Nesting.{Opens, one, open_count, Holds, IsNest, Adds, Closes};

use crate::tree::{Node, Seen, Tree};
use std::alloc::{AllocError, Global};

/// A list in another one that isn't closed yet.
#[derive(Clone, Copy, Debug)]
pub struct Begun {
    /// Where it stands in the row.
    pub at: usize,
    /// The place of its `(`.
    pub place: usize,
}

/// The open lists.
#[derive(Debug, Drop)]
pub struct Nest {
    /// What stands in the outermost list so far.
    pub items: Vec<Node>,
    /// The place of its `(`.
    pub place: usize,
    /// The open lists in it, the innermost last.
    pub begun: Vec<Begun>,
}

impl Nest {
    /// One open list, whose `(` stands at the place.
    pub fn new(alloc: Global, place: usize) -> Nest
        ensures { Holds result (one place []) }
    {
        Nest {
            items: Vec::new(alloc),
            place,
            begun: Vec::new(alloc),
        }
    }

    /// How many lists are open.
    pub fn open_count(&self) -> usize
        ensures { (os : Opens) → Holds self.now os → result ≡ open_count os }
    {
        self.begun.len() + 1
    }

    /// Adds a word to the innermost list, or opens a list in it.
    pub fn add(&mut self, node: Node) -> Result<(), AllocError>
        ensures { IfOk result (λ _. (os : Opens) → Holds self.old os → Adds os node self.new) }
    {
        if let Seen::List { place, .. } = node.seen() {
            let at = self.items.len();
            self.begun.push(Begun { at, place })?;
        }
        self.items.push(node)?;
        Ok(())
    }

    /// Closes the innermost list, if it isn't the outermost, and answers whether it did.
    pub fn close(&mut self) -> bool
        requires { IsNest self.old }
        ensures { (os : Opens) → Holds self.old os → Closes os result self.new }
    {
        let Some(Begun { at, place }) = self.begun.pop() else {
            return false;
        };
        let count = self.items.len() - at - 1;
        self.items[at] = Node::list(count, place);
        true
    }

    /// The outermost list, with what stands in it so far.
    pub fn into_tree(self) -> Tree
        ensures items { result.items ≡ self.items }
        ensures place { result.place ≡ self.place }
    {
        Tree {
            items: self.items,
            place: self.place,
        }
    }
}
