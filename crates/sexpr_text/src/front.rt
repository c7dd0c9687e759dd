//! How layers above go through trees.
ghost use Rattle.std.specs.Prelude.{◌≡◌, ◌∷◌};
ghost use Rattle.sexpr_text.specs.Nodes as nodes;
ghost use Rattle.sexpr_text.specs.Trees.{tree, trees};
ghost use Rattle.sexpr_text.specs.Front.{shown};

use crate::tree::{Node, Seen, Tree};

/// The first of some trees in a row, and those after it.
#[derive(Clone, Copy, Debug)]
pub enum Front<'a> {
    /// There is no tree.
    End,
    /// A word: its letters in lower case, its place, and the trees after it.
    Word {
        text: &'a [u8],
        place: usize,
        rest: &'a [Node],
    },
    /// A list: the trees in it, its place, and the trees after it.
    List {
        items: &'a [Node],
        place: usize,
        rest: &'a [Node],
    },
}

/// What stands first in a row of trees. It takes no memory.
#[inline(always)]
pub fn front_of<'a>(items: &'a [Node]) -> Front<'a>
    ensures { trees items.now ≡ shown result }
{
    let Some((first, behind)) = items.split_first() else {
        return Front::End;
    };
    match first.seen() {
        Seen::Word { text, place } => Front::Word {
            text,
            place,
            rest: behind,
        },
        Seen::List { count, place } => list_front(count, place, behind),
    }
}

/// A list in which so many nodes stand, or as many as are behind it.
#[inline(always)]
fn list_front<'a>(count: usize, place: usize, behind: &'a [Node]) -> Front<'a>
    ensures { trees (nodes.Node.list count place ∷ behind.now) ≡ shown result }
{
    let inside = count.min(behind.len());
    Front::List {
        items: &behind[..inside],
        place,
        rest: &behind[inside..],
    }
}

/// What one list that stands alone is, as a row of it alone. It takes no memory.
pub fn alone<'a>(one: &'a Tree) -> Front<'a>
    ensures { tree one.now ≡ shown result }
{
    Front::List {
        items: one.items.as_slice(),
        place: one.place,
        rest: &[],
    }
}
