//! The task of blocks on a grid, of each size.
ghost use Rattle.std.specs.Prelude.{◌≡◌, ◌≤◌, ◌++◌, IfOk, OnOk, string_bytes};
ghost use Rattle.grid_text.specs.Tasks as specs;

use std::alloc::{AllocError, Global};
use task_model::Seq;

/// The domain of every grid task: blocks are picked from their sides and put where no other block
/// is in the way.
const DOMAIN: &[u8] = b"(define (domain grid)
  (:requirements :strips :typing :negative-preconditions :derived-predicates)
  (:types block region pose side cell)
  (:predicates (fits ?b - block ?r - region) (pose ?b - block ?p - pose)
    (in ?b - block ?p - pose ?r - region) (grasp ?b - block ?g - side)
    (reach ?b - block ?p - pose ?g - side ?c - cell)
    (clear ?b - block ?p - pose ?o - block ?q - pose)
    (at ?b - block ?p - pose) (free) (holding ?b - block ?g - side)
    (unsafe ?b - block ?p - pose) (placed ?b - block ?r - region))
  (:derived (unsafe ?b - block ?p - pose)
    (exists (?o - block ?q - pose)
      (and (at ?o ?q) (not (= ?o ?b)) (not (clear ?b ?p ?o ?q)))))
  (:derived (placed ?b - block ?r - region)
    (exists (?p - pose) (and (at ?b ?p) (in ?b ?p ?r))))
  (:action pick :parameters (?b - block ?p - pose ?g - side ?c - cell)
    :precondition (and (free) (at ?b ?p) (reach ?b ?p ?g ?c))
    :effect (and (holding ?b ?g) (not (at ?b ?p)) (not (free))))
  (:action put :parameters (?b - block ?p - pose ?g - side ?c - cell)
    :precondition (and (holding ?b ?g) (reach ?b ?p ?g ?c)
      (not (unsafe ?b ?p)))
    :effect (and (at ?b ?p) (free) (not (holding ?b ?g)))))
";

/// The streams of every grid task: where a block may lie in a region, its sides, the cell from
/// which it is reached, and that two blocks don't overlap.
const STREAMS: &[u8] = b"(define (stream grid)
  (:stream place :inputs (?b - block ?r - region) :domain (fits ?b ?r)
    :outputs (?p - pose) :certified (and (pose ?b ?p) (in ?b ?p ?r)))
  (:stream grasp :inputs (?b - block) :outputs (?g - side)
    :certified (grasp ?b ?g))
  (:stream reach :inputs (?b - block ?p - pose ?g - side)
    :domain (and (pose ?b ?p) (grasp ?b ?g)) :outputs (?c - cell)
    :certified (reach ?b ?p ?g ?c))
  (:stream clear
    :inputs (?b - block ?p - pose ?o - block ?q - pose)
    :domain (and (pose ?b ?p) (pose ?o ?q)) :certified (clear ?b ?p ?o ?q)))
";

/// The four texts of a task.
#[derive(Debug, Drop)]
pub struct GridTask {
    /// The domain.
    pub domain: Seq<u8>,
    /// The problem.
    pub problem: Seq<u8>,
    /// The stream file.
    pub streams: Seq<u8>,
    /// The grid file.
    pub grid: Seq<u8>,
}

/// The task of a number, from 1 to 12: so many blocks, each of which has to be put into its own
/// region of two cells, one of them an obstacle. Fails only where memory is wanting.
pub fn grid_task(alloc: Global, number: u32) -> Result<GridTask, AllocError>
    requires { (1 ≤ number) × (number ≤ 12) }
    ensures { IfOk result (λ task. task ≡ specs.grid_task number) }
{
    let domain = Vec::from_slice(alloc, DOMAIN)?;
    let problem = problem_of(alloc, number)?;
    let streams = Vec::from_slice(alloc, STREAMS)?;
    let grid = grid_of(alloc, number)?;
    Ok(GridTask {
        domain: Seq::from_vec(domain),
        problem: Seq::from_vec(problem),
        streams: Seq::from_vec(streams),
        grid: Seq::from_vec(grid),
    })
}

fn problem_of(alloc: Global, number: u32) -> Result<Vec<u8>, AllocError>
    requires { number ≤ 12 }
    ensures { IfOk result (λ text. text.items ≡ specs.problem_text number) }
{
    let head = format!(in alloc; "(define (problem grid-{number}) (:domain grid)\n  (:objects")?;
    let mut text = head.into_bytes();
    push_row(alloc, &mut text, Row::Blocks, number)?;
    text.extend_from_slice(b" - block")?;
    push_row(alloc, &mut text, Row::Regions, number)?;
    text.extend_from_slice(b" - region")?;
    push_row(alloc, &mut text, Row::Homes, number)?;
    text.extend_from_slice(b" - pose)\n  (:init (free)")?;
    push_row(alloc, &mut text, Row::Facts, number)?;
    text.extend_from_slice(b")\n  (:goal (and")?;
    push_row(alloc, &mut text, Row::Goals, number)?;
    text.extend_from_slice(b")))\n")?;
    Ok(text)
}

fn grid_of(alloc: Global, number: u32) -> Result<Vec<u8>, AllocError>
    requires { number ≤ 12 }
    ensures { IfOk result (λ text. text.items ≡ specs.grid_text number) }
{
    let width = 2 * number;
    let head = format!(in alloc; "grid {width} 6\n")?;
    let mut text = head.into_bytes();
    push_row(alloc, &mut text, Row::BlockLines, number)?;
    push_row(alloc, &mut text, Row::RegionLines, number)?;
    push_row(alloc, &mut text, Row::ObstacleLines, number)?;
    Ok(text)
}

/// What is written for each number from 1 on.
#[derive(Clone, Copy, PartialEq, Eq)]
enum Row {
    /// The block's name.
    Blocks,
    /// The region's name.
    Regions,
    /// The name of the block's first pose.
    Homes,
    /// The initial facts of the block.
    Facts,
    /// That the block is in its region.
    Goals,
    /// The block's line of the grid.
    BlockLines,
    /// The region's line of the grid.
    RegionLines,
    /// The obstacle's line of the grid.
    ObstacleLines,
}

/// Writes a row for the numbers from 1 up to this one.
fn push_row(alloc: Global, text: &mut Vec<u8>, row: Row, number: u32) -> Result<(), AllocError>
    requires { number ≤ 12 }
    ensures { OnOk result (text.new.items ≡ text.old.items ++ specs.row_text row number) }
{
    for before in 0..number {
        let item = item_of(alloc, row, before + 1)?;
        text.extend_from_slice(item.as_bytes())?;
    }
    Ok(())
}

fn item_of(alloc: Global, row: Row, i: u32) -> Result<String, AllocError>
    requires { (1 ≤ i) × (i ≤ 12) }
    ensures { IfOk result (λ item. string_bytes item ≡ specs.item_text row i) }
{
    let x = 2 * i - 2;
    match row {
        Row::Blocks => format!(in alloc; " b{i}"),
        Row::Regions => format!(in alloc; " r{i}"),
        Row::Homes => format!(in alloc; " home-b{i}"),
        Row::Facts => facts_of(alloc, i),
        Row::Goals => format!(in alloc; " (placed b{i} r{i})"),
        Row::BlockLines => format!(in alloc; "block b{i} 1 1 {x} 1\n"),
        Row::RegionLines => format!(in alloc; "region r{i} {x} 4 2 1\n"),
        Row::ObstacleLines => format!(in alloc; "obstacle {x} 4 1 1\n"),
    }
}

/// The initial facts of a block.
fn facts_of(alloc: Global, i: u32) -> Result<String, AllocError>
    ensures { IfOk result (λ facts. string_bytes facts ≡ specs.facts_text i) }
{
    let mut facts = format!(in alloc; " (fits b{i} r{i})")?;
    let pose = format!(in alloc; " (pose b{i} home-b{i})")?;
    facts.push_str(pose.as_str())?;
    let at = format!(in alloc; " (at b{i} home-b{i})")?;
    facts.push_str(at.as_str())?;
    Ok(facts)
}
