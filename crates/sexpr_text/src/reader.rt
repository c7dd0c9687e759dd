//! A text to its tree.
ghost use Rattle.std.specs.Prelude.{◌≡◌, ◌≤◌, length, IfOk, IfErr, Ok};
ghost use Rattle.sexpr_text.specs.Trees.{Trees, tree, size};
ghost use Rattle.sexpr_text.specs.Spelling.{Spells};
ghost use Rattle.sexpr_text.specs.Faults.{BlamesPlace, HasNoFault};
ghost use Rattle.sexpr_text.specs.Reading.{GivesRead, outside_fault, reading};
ghost use Rattle.sexpr_text.specs.Scanning.{token_of};
ghost use Rattle.sexpr_text.specs.Nesting.{NestEnds};

use crate::fault::TextFault;
use crate::nest::Nest;
use crate::scanner::{Lexeme, Placed, Scanner};
use crate::tree::{Node, Tree};
use std::alloc::Global;

/// How many lists may stand in one another.
const MAX_DEPTH: usize = 64;

/// Reads a text that is one list in parentheses.
///
/// White space is a tab, a line feed, a CR or a space. A comment runs from `;` to the next line
/// feed and may hold any bytes. A word is a maximal run of the bytes `!` to `~` without parentheses
/// and `;`; its letters `A` to `Z` come out in lower case. Lists stand in one another up to a depth
/// of 64, the outermost having depth 1.
///
/// Lists, comments and words that don't depend on case are those of PDDL 2.1. Which bytes may
/// stand, the depth and the faults are this project's.
///
/// # Errors
///
/// The fault with the least place, and at one place `BadByte` before `Extra`:
///
/// - `BadByte`: a byte outside comments that is neither white space nor one of `!` to `~`.
/// - `Unclosed`: the text ends before its list is closed, or has no token; the place is its length.
/// - `Extra`: the first token is no `(`, or a token stands behind the list.
/// - `TooDeep`: a `(` that opens a list at depth 65.
///
/// And `Memory` where memory ran out, which says nothing of the text.
pub fn read_tree(alloc: Global, bytes: &[u8]) -> Result<Tree, TextFault>
    // What is read is spelled so.
    ensures found { IfOk result (λ t. Spells bytes.now (tree t)) }
    // What is spelled so is read, unless memory runs out.
    ensures only { (t : Trees) → Spells bytes.now t → GivesRead tree result (Ok t) }
    // A text that is read has no fault, and a fault that is told is the first one of the text.
    ensures clean { IfOk result (λ t. HasNoFault bytes.now) }
    ensures first { IfErr result (BlamesPlace bytes.now) }

    // Tree and fault as one function of the bytes, for the layers above.
    ensures exact { GivesRead tree result (reading bytes.now) }
    // The tree is no larger than its text.
    ensures small { IfOk result (λ t. size (tree t) ≤ length bytes.now) }
{
    read(alloc, bytes)
}

/// The tree or the first fault.
#[tactic(auto, unfolding(crate::specs::Reading::reading))]
fn read(alloc: Global, bytes: &[u8]) -> Result<Tree, TextFault>
    ensures { GivesRead tree result (reading bytes.now) }
{
    let end = bytes.len();
    let mut scanner = Scanner::new(bytes);
    let Some(Placed { lexeme, place }) = scanner.next(alloc)? else {
        return Err(TextFault::Unclosed(end));
    };
    let Lexeme::Left = lexeme else {
        return Err(fault_outside(&lexeme, place));
    };
    let tree = read_list(alloc, &mut scanner, place, end)?;
    match scanner.next(alloc)? {
        None => Ok(tree),
        Some(Placed { lexeme, place }) => Err(fault_outside(&lexeme, place)),
    }
}

/// The fault of a token that stands before or after the list.
fn fault_outside(lexeme: &Lexeme, place: usize) -> TextFault
    ensures { result ≡ outside_fault (token_of lexeme.now place) }
{
    match lexeme {
        Lexeme::Bad => TextFault::BadByte(place),
        Lexeme::Word(_) | Lexeme::Left | Lexeme::Right => TextFault::Extra(place),
    }
}

/// The rest of the list whose `(` stands at the place, in a text that ends at `end`.
fn read_list(
    alloc: Global,
    scanner: &mut Scanner,
    place: usize,
    end: usize,
) -> Result<Tree, TextFault>
    ensures { NestEnds end place scanner.old result scanner.new }
{
    let mut nest = Nest::new(alloc, place);
    'tokens: loop {
        let Some(Placed { lexeme, place: at }) = scanner.next(alloc)? else {
            return Err(TextFault::Unclosed(end));
        };
        let node = match lexeme {
            Lexeme::Bad => return Err(TextFault::BadByte(at)),
            Lexeme::Word(text) => Node::word(alloc, text, at)?,
            Lexeme::Left if nest.open_count() == MAX_DEPTH => return Err(TextFault::TooDeep(at)),
            Lexeme::Left => Node::list(0, at),
            Lexeme::Right => {
                if !nest.close() {
                    return Ok(nest.into_tree());
                }
                continue 'tokens;
            }
        };
        nest.add(node)?;
    }
}
