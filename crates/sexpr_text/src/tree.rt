//! Trees as rows of nodes.
ghost use Rattle.std.specs.Prelude.{◌≡◌, IfOk};
ghost use Rattle.sexpr_text.specs.Nodes as nodes;
ghost use Rattle.sexpr_text.specs.Trees.{tree, place_of_first};

use crate::text::Text;
use std::alloc::{AllocError, Global};
use std::boxed::Box;
use std::marker::Model;

/// How many letters lie in a node.
const SHORT: usize = 22;

/// A word, or where a list begins. A row of nodes is a row of trees: right behind a list's node come
/// those of all that stands in it, at any depth, and then what comes after it. The place is that of
/// the word's first byte or of the list's `(`.
///
/// A node takes 32 bytes, and only a word of more than 22 letters takes memory beside them.
#[derive(Debug, Drop)]
pub struct Node {
    form: Form,
}

/// What a node is.
#[derive(Debug, Drop)]
enum Form {
    /// A word of so many letters, with others behind them.
    Short {
        length: u8,
        letters: [u8; SHORT],
        place: usize,
    },
    /// A word of more letters.
    Long {
        letters: Box<Vec<u8>>,
        place: usize,
    },
    /// A list, in which this many nodes stand, at any depth. Where fewer are behind it, those do.
    List {
        count: usize,
        place: usize,
    },
}

impl Model for Node {
    ghost use Rattle.sexpr_text.specs.Nodes.{Node, form_shown, IsShort};

    ghost Value = { Node };

    ghost view = { λ n. form_shown n.form };

    ghost invariant = { λ n. IsShort n.form };
}

/// What a node is, its letters in their order.
#[derive(Clone, Copy, Debug)]
pub(crate) enum Seen<'a> {
    Word { text: &'a [u8], place: usize },
    List { count: usize, place: usize },
}

impl Node {
    /// A word. Fails only where memory is wanting.
    pub(crate) fn word(alloc: Global, text: Text, place: usize) -> Result<Node, AllocError>
        ensures { IfOk result (λ node. node ≡ nodes.Node.word text place) }
    {
        Node::spelled(alloc, text.bytes(), place)
    }

    /// A word of these letters. Fails only where memory is wanting.
    fn spelled(alloc: Global, text: &[u8], place: usize) -> Result<Node, AllocError>
        ensures { IfOk result (λ node. node ≡ nodes.Node.word text.now place) }
    {
        let form = if text.len() <= SHORT {
            let mut letters = [0; SHORT];
            letters[..text.len()].copy_from_slice(text);
            Form::Short {
                length: text.len() as u8,
                letters,
                place,
            }
        } else {
            let letters = Box::new(alloc, Vec::from_slice(alloc, text)?)?;
            Form::Long { letters, place }
        };
        Ok(Node { form })
    }

    /// A list in which so many nodes stand.
    pub(crate) fn list(count: usize, place: usize) -> Node
        ensures { result ≡ nodes.Node.list count place }
    {
        Node {
            form: Form::List { count, place },
        }
    }

    /// What the node is.
    #[inline(always)]
    pub(crate) fn seen(&self) -> Seen<'_>
        ensures { nodes.seen_as result ≡ self.now }
    {
        match &self.form {
            Form::Short {
                length,
                letters,
                place,
            } => Seen::Word {
                text: &letters[..*length as usize],
                place: *place,
            },
            Form::Long { letters, place } => Seen::Word {
                text: letters.as_slice(),
                place: *place,
            },
            Form::List { count, place } => Seen::List {
                count: *count,
                place: *place,
            },
        }
    }
}

/// One list that stands alone, as in a text.
#[derive(Debug, Drop)]
pub struct Tree {
    /// The nodes between its `(` and its `)`.
    pub items: Vec<Node>,
    /// Where it begins, in bytes from the text's beginning.
    pub place: usize,
}

impl Tree {
    /// Where the list begins, in bytes from the text's beginning.
    pub fn place(&self) -> usize
        ensures { result ≡ place_of_first (tree self.now) }
    {
        self.place
    }
}
