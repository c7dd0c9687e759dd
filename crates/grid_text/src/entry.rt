//! What a line of a grid file says.
ghost use Rattle.std.specs.Prelude.{◌≡◌, if◌then◌else◌};
ghost use Rattle.gen_lines.specs.Reply.{fields};
ghost use Rattle.grid_text.specs.Entries as specs;

use crate::fields::{first_field, four_fields};
use crate::numbers::{extent_of, short_number};
use crate::rect::Rect;
use std::marker::Model;
use task_model::is_name;

/// What a line is about, by its first word.
#[derive(Clone, Copy, PartialEq, Eq)]
pub(crate) enum EntrySort {
    /// `grid`: how wide and high the grid is.
    Size,
    /// `block`
    Block,
    /// `region`
    Region,
    /// `obstacle`
    Obstacle,
}

/// The words of a line by what they mean. A line `grid W H` is about the rectangle of the whole
/// grid, whose corner is written nowhere and stands here as 0; it and obstacles have an empty name.
#[derive(Drop)]
pub(crate) struct Entry<'a> {
    sort: EntrySort,
    name: &'a [u8],
    x: &'a [u8],
    y: &'a [u8],
    w: &'a [u8],
    h: &'a [u8],
}

impl<'a> Model for Entry<'a> {
    ghost use Rattle.grid_text.specs.Entries.{GridEntry};

    ghost Value = { GridEntry };

    ghost view = { λ e. record {
      sort = e.sort;
      name = e.name.now;
      x = e.x.now;
      y = e.y.now;
      w = e.w.now;
      h = e.h.now;
    } };
}

impl<'a> Entry<'a> {
    /// What it is about.
    pub(crate) fn sort(&self) -> EntrySort
        ensures { result ≡ self.now.sort }
    {
        self.sort
    }
}

/// What a line says, if its words, its name and the number of its fields are right.
pub(crate) fn entry_of(line: &[u8]) -> Option<Entry<'_>>
    ensures { result ≡ specs.entry_of (fields line.now) }
{
    let (word, rest) = first_field(line)?;
    match sort_of(word)? {
        EntrySort::Size => size_of(rest),
        EntrySort::Block => block_of(rest),
        EntrySort::Region => region_of(rest),
        EntrySort::Obstacle => obstacle_of(rest),
    }
}

#[tactic(auto, unfolding(crate::specs::Entries::entry_sort))]
fn sort_of(word: &[u8]) -> Option<EntrySort>
    ensures { result ≡ specs.entry_sort word.now }
{
    if word == b"grid".as_slice() {
        return Some(EntrySort::Size);
    }
    if word == b"block".as_slice() {
        return Some(EntrySort::Block);
    }
    if word == b"region".as_slice() {
        return Some(EntrySort::Region);
    }
    if word == b"obstacle".as_slice() {
        return Some(EntrySort::Obstacle);
    }
    None
}

/// `W H`
fn size_of(given: &[u8]) -> Option<Entry<'_>>
    ensures { result ≡ specs.size_entry (fields given.now) }
{
    let (w, rest) = first_field(given)?;
    let (h, rest) = first_field(rest)?;
    if let Some(_) = first_field(rest) {
        return None;
    }
    Some(Entry {
        sort: EntrySort::Size,
        name: b"",
        x: b"0",
        y: b"0",
        w,
        h,
    })
}

/// `NAME w h x y`
fn block_of(given: &[u8]) -> Option<Entry<'_>>
    ensures { result ≡ specs.block_entry (fields given.now) }
{
    let (name, rest) = first_field(given)?;
    if !is_name(name) {
        return None;
    }
    let (w, h, x, y) = four_fields(rest)?;
    Some(Entry {
        sort: EntrySort::Block,
        name,
        x,
        y,
        w,
        h,
    })
}

/// `NAME x y w h`
fn region_of(given: &[u8]) -> Option<Entry<'_>>
    ensures { result ≡ specs.region_entry (fields given.now) }
{
    let (name, rest) = first_field(given)?;
    if !is_name(name) {
        return None;
    }
    let (x, y, w, h) = four_fields(rest)?;
    Some(Entry {
        sort: EntrySort::Region,
        name,
        x,
        y,
        w,
        h,
    })
}

/// `x y w h`
fn obstacle_of(given: &[u8]) -> Option<Entry<'_>>
    ensures { result ≡ specs.obstacle_of (fields given.now) }
{
    let (x, y, w, h) = four_fields(given)?;
    Some(Entry {
        sort: EntrySort::Obstacle,
        name: b"",
        x,
        y,
        w,
        h,
    })
}

/// The most cells that a line's rectangle may be wide or high. A grid has its own limit; for others
/// it is what four digits write.
fn most_extent(sort: EntrySort) -> u32
    ensures { result ≡ specs.most_extent sort }
{
    match sort {
        EntrySort::Size => 1000,
        EntrySort::Block | EntrySort::Region | EntrySort::Obstacle => 9999,
    }
}

/// What a line says, with its numbers.
#[derive(Drop)]
pub(crate) struct Item<'a> {
    pub(crate) sort: EntrySort,
    pub(crate) name: &'a [u8],
    pub(crate) rect: Rect,
}

impl<'a> Model for Item<'a> {
    ghost use Rattle.std.specs.Prelude.{◌≤◌};
    ghost use Rattle.grid_text.specs.Entries.{Item, most_extent};

    ghost Value = { Item };

    ghost view = { λ i. record { sort = i.sort; name = i.name.now; rect = i.rect } };

    ghost invariant = { λ i. (i.rect.w ≤ most_extent i.sort) × (i.rect.h ≤ most_extent i.sort) };
}

/// The entry with its numbers, if they are right.
#[tactic(auto, unfolding(crate::specs::Entries::has_numbers))]
pub(crate) fn item_of<'a>(entry: &Entry<'a>) -> Option<Item<'a>>
    ensures { result ≡ (if specs.has_numbers entry.now then Some (specs.grid_item entry.now) else
        None) }
{
    let most = most_extent(entry.sort);
    let x = short_number(entry.x)?;
    let y = short_number(entry.y)?;
    let w = extent_of(entry.w, most)?;
    let h = extent_of(entry.h, most)?;
    Some(Item {
        sort: entry.sort,
        name: entry.name,
        rect: Rect { x, y, w, h },
    })
}
