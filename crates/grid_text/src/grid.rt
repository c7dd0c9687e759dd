//! A grid of blocks.
ghost use Rattle.std.specs.Prelude.{◌≡◌, Some, None, true, OnOk, IfOk, IfErr, MatchResult};
ghost use Rattle.std.specs.List.{list_any};
ghost use Rattle.std.specs.Str.{bytes_eq};
ghost use Rattle.grid_text.specs.Entries.{grid_item};
ghost use Rattle.grid_text.specs.Grids as specs;
ghost use Rattle.grid_text.specs.Rects.{LiesInLargest};

use crate::entry::{Entry, EntrySort, Item, entry_of, item_of};
use crate::fault::{GridFault, GridKind};
use crate::lines::{is_passed, may_stand_in_line};
use crate::rect::Rect;
use std::alloc::{AllocError, Global};
use std::marker::Model;
use task_model::Name;

/// The most blocks, and the most regions.
const MOST_NAMED: usize = 100;

/// The most obstacles.
const MOST_OBSTACLES: usize = 1000;

/// A block: its size, and the corner at which it stands at first.
#[derive(Debug, Drop)]
pub struct Block {
    /// What it is called.
    pub name: Name,
    /// How many cells it is wide.
    pub w: u32,
    /// How many cells it is high.
    pub h: u32,
    /// The least x of its cells at first.
    pub x: u32,
    /// The least y of its cells at first.
    pub y: u32,
}

/// A region: a rectangle with a name.
#[derive(Debug, Drop)]
pub struct Region {
    name: Name,
    rect: Rect,
}

impl Model for Region {
    ghost use Rattle.grid_text.specs.Grids.{NamedRect};
    ghost use Rattle.grid_text.specs.Rects.{LiesInLargest};

    ghost Value = { NamedRect };

    ghost view = { λ r. record { name = r.name; rect = r.rect } };

    ghost invariant = { λ r. LiesInLargest r.rect };
}

impl Region {
    /// What it is called.
    pub fn name(&self) -> &Name
        ensures { result.now ≡ self.now.name }
    {
        &self.name
    }

    /// Its cells.
    pub fn rect(&self) -> Rect
        ensures rect { result ≡ self.now.rect }
        ensures small { LiesInLargest result }
    {
        self.rect
    }
}

/// A grid of cells with blocks, regions and obstacles, in the order of its file.
#[derive(Drop)]
pub struct Grid {
    width: u32,
    height: u32,
    blocks: Vec<Block>,
    regions: Vec<Region>,
    obstacles: Vec<Rect>,
}

impl Model for Grid {
    ghost use Rattle.std.specs.Prelude.{◌≤◌};
    ghost use Rattle.grid_text.specs.Grids.{GridFile};

    ghost Value = { GridFile };

    ghost view = { λ g. record {
      width = g.width;
      height = g.height;
      blocks = g.blocks.items;
      regions = g.regions.items;
      obstacles = g.obstacles.items;
    } };

    ghost invariant = { λ g. (g.width ≤ 1000) × (g.height ≤ 1000) };
}

impl Grid {
    /// How many cells it is wide: x goes from 0 to one less.
    pub fn width(&self) -> u32
        ensures { result ≡ self.now.width }
    {
        self.width
    }

    /// How many cells it is high: y goes from 0 to one less.
    pub fn height(&self) -> u32
        ensures { result ≡ self.now.height }
    {
        self.height
    }

    /// The blocks, in the file's order.
    pub fn blocks(&self) -> &[Block]
        ensures { result.now ≡ self.now.blocks }
    {
        self.blocks.as_slice()
    }

    /// The regions, in the file's order.
    pub fn regions(&self) -> &[Region]
        ensures { result.now ≡ self.now.regions }
    {
        self.regions.as_slice()
    }

    /// The obstacles, in the file's order.
    pub fn obstacles(&self) -> &[Rect]
        ensures { result.now ≡ self.now.obstacles }
    {
        self.obstacles.as_slice()
    }

    /// The rectangle of all cells.
    pub fn area(&self) -> Rect
        ensures { result ≡ specs.area self.now }
    {
        Rect {
            x: 0,
            y: 0,
            w: self.width,
            h: self.height,
        }
    }

    /// Nothing was read.
    pub(crate) fn empty(alloc: Global) -> Grid
        ensures { result ≡ specs.nothing_read }
    {
        Grid {
            width: 0,
            height: 0,
            blocks: Vec::new(alloc),
            regions: Vec::new(alloc),
            obstacles: Vec::new(alloc),
        }
    }

    /// Takes one line more, whose number is stated for its fault.
    ///
    /// # Errors
    /// The line's first fault, or `Memory`.
    pub(crate) fn take_line(
        &mut self,
        alloc: Global,
        line: &[u8],
        number: u32,
    ) -> Result<(), GridFault>
        ensures right { OnOk result (specs.fault_in self.old line.now ≡ None) }
        ensures grid { OnOk result (self.new ≡ specs.with_line self.old line.now) }
        ensures fault { IfErr result (specs.LineBlames self.old line.now number) }
    {
        match self.item_in(line) {
            Err(kind) => Err(GridFault::At { line: number, kind }),
            Ok(None) => Ok(()),
            Ok(Some(item)) => {
                self.add(alloc, &item)?;
                Ok(())
            }
        }
    }

    /// What a line says, or None where it is passed over.
    ///
    /// # Errors
    /// The line's first fault.
    fn item_in<'a>(&self, line: &'a [u8]) -> Result<Option<Item<'a>>, GridKind>
        ensures { MatchResult result
            (λ item. (specs.fault_in self.now line.now ≡ None) × (item ≡ specs.item_in line.now))
            (λ kind. specs.fault_in self.now line.now ≡ Some kind) }
    {
        if !may_stand_in_line(line) {
            return Err(GridKind::Form);
        }
        if is_passed(line) {
            return Ok(None);
        }
        let Some(entry) = entry_of(line) else {
            return Err(GridKind::Form);
        };
        match self.checked(&entry) {
            Ok(item) => Ok(Some(item)),
            Err(kind) => Err(kind),
        }
    }

    /// The entry with its numbers read.
    ///
    /// # Errors
    /// The first of the faults of its place among the lines, its numbers, its cells, its name and
    /// its number.
    #[tactic(auto, unfolding(crate::specs::Grids::entry_fault))]
    fn checked<'a>(&self, entry: &Entry<'a>) -> Result<Item<'a>, GridKind>
        ensures { MatchResult result
            (λ item. (specs.entry_fault self.now entry.now ≡ None) × (item ≡ grid_item entry.now))
            (λ kind. specs.entry_fault self.now entry.now ≡ Some kind) }
    {
        if !self.is_due(entry.sort()) {
            return Err(GridKind::Form);
        }
        let Some(item) = item_of(entry) else {
            return Err(GridKind::Number);
        };
        if !self.is_inside(item.sort, &item.rect) {
            return Err(GridKind::Outside);
        }
        if self.is_taken(item.sort, item.name) {
            return Err(GridKind::Duplicate);
        }
        if self.is_full(item.sort) {
            return Err(GridKind::TooMany);
        }
        Ok(item)
    }

    /// Whether a line of this sort may come now: the size comes first, and once.
    fn is_due(&self, sort: EntrySort) -> bool
        ensures { result ≡ specs.is_sort_due self.now sort }
    {
        match sort {
            EntrySort::Size => self.width == 0,
            EntrySort::Block | EntrySort::Region | EntrySort::Obstacle => self.width != 0,
        }
    }

    /// Whether the rectangle of a line lies where it may lie.
    fn is_inside(&self, sort: EntrySort, rect: &Rect) -> bool
        ensures { result ≡ specs.is_inside self.now sort rect.now }
    {
        match sort {
            EntrySort::Size => true,
            EntrySort::Block | EntrySort::Region | EntrySort::Obstacle => {
                rect.is_within(&self.area())
            }
        }
    }

    /// Whether another line of this sort has the name.
    fn is_taken(&self, sort: EntrySort, name: &[u8]) -> bool
        ensures { result ≡ specs.is_name_taken self.now sort name.now }
    {
        match sort {
            EntrySort::Block => has_block(&self.blocks, name),
            EntrySort::Region => has_region(&self.regions, name),
            EntrySort::Size | EntrySort::Obstacle => false,
        }
    }

    /// Whether there are as many lines of this sort as there may be.
    fn is_full(&self, sort: EntrySort) -> bool
        ensures { result ≡ specs.is_full self.now sort }
    {
        match sort {
            EntrySort::Size => false,
            EntrySort::Block => self.blocks.len() >= MOST_NAMED,
            EntrySort::Region => self.regions.len() >= MOST_NAMED,
            EntrySort::Obstacle => self.obstacles.len() >= MOST_OBSTACLES,
        }
    }

    /// Adds what a line says. Fails only where memory is wanting.
    fn add(&mut self, alloc: Global, item: &Item<'_>) -> Result<(), AllocError>
        requires { specs.is_inside self.old item.now.sort item.now.rect ≡ true }
        ensures { OnOk result (self.new
            ≡ specs.grown self.old item.now.sort item.now.name item.now.rect) }
    {
        let rect = item.rect;
        match item.sort {
            EntrySort::Size => {
                self.width = rect.w;
                self.height = rect.h;
            }
            EntrySort::Block => self.blocks.push(block_of(alloc, item.name, rect)?)?,
            EntrySort::Region => self.regions.push(region_of(alloc, item.name, rect)?)?,
            EntrySort::Obstacle => self.obstacles.push(rect)?,
        }
        Ok(())
    }
}

fn block_of(alloc: Global, name: &[u8], rect: Rect) -> Result<Block, AllocError>
    ensures { IfOk result (λ block. block ≡ specs.block_of name.now rect) }
{
    let name = Name::new(Vec::from_slice(alloc, name)?);
    Ok(Block {
        name,
        w: rect.w,
        h: rect.h,
        x: rect.x,
        y: rect.y,
    })
}

fn region_of(alloc: Global, name: &[u8], rect: Rect) -> Result<Region, AllocError>
    requires { LiesInLargest rect }
    ensures { IfOk result (λ region. region ≡ specs.region_of name.now rect) }
{
    let name = Name::new(Vec::from_slice(alloc, name)?);
    Ok(Region { name, rect })
}

fn has_block(blocks: &[Block], name: &[u8]) -> bool
    ensures { result ≡ list_any (λ b. bytes_eq b.name name.now) blocks.now }
{
    blocks.iter().any(|b| b.name.bytes() == name)
}

fn has_region(regions: &[Region], name: &[u8]) -> bool
    ensures { result ≡ list_any (λ r. bytes_eq r.name name.now) regions.now }
{
    regions.iter().any(|r| r.name.bytes() == name)
}
