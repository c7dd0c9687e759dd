//! The words of a request: streams, blocks, regions, poses and sides.
ghost use Rattle.std.specs.Prelude.{◌≡◌, ◌<◌, IfSome, Some, None, if◌then◌else◌, drop, length, option_map, position, take};
ghost use Rattle.std.specs.Option.{option_copied};
ghost use Rattle.std.specs.Str.{bytes_eq};
ghost use Rattle.std.specs.Str.Parse.{digits_value};
ghost use Rattle.grid_world.specs.Words as specs;

use crate::answer::Side;
use grid_text::{Block, Grid, Rect, Region, number_of};

/// The streams of the grid.
#[derive(Clone, Copy, Debug, PartialEq, Eq)]
pub(crate) enum Stream {
    Place,
    Grasp,
    Reach,
    Clear,
}

/// A corner with the least x and y.
#[derive(Clone, Copy, Debug, PartialEq, Eq)]
pub struct Corner {
    /// The least x.
    pub x: u32,
    /// The least y.
    pub y: u32,
}

#[tactic(auto, unfolding(crate::specs::Words::served_stream))]
pub(crate) fn stream_of(word: &[u8]) -> Option<Stream>
    ensures { result ≡ specs.served_stream word.now }
{
    if word == b"place".as_slice() {
        return Some(Stream::Place);
    }
    if word == b"grasp".as_slice() {
        return Some(Stream::Grasp);
    }
    if word == b"reach".as_slice() {
        return Some(Stream::Reach);
    }
    if word == b"clear".as_slice() {
        return Some(Stream::Clear);
    }
    None
}

/// The side that `#n`, `#e`, `#s` or `#w` writes.
#[tactic(auto, unfolding(crate::specs::Words::side_of))]
pub(crate) fn side_of(word: &[u8]) -> Option<Side>
    ensures { result ≡ specs.side_of word.now }
{
    if word == b"#n".as_slice() {
        return Some(Side::N);
    }
    if word == b"#e".as_slice() {
        return Some(Side::E);
    }
    if word == b"#s".as_slice() {
        return Some(Side::S);
    }
    if word == b"#w".as_slice() {
        return Some(Side::W);
    }
    None
}

/// The block of this name.
pub fn block_named<'a>(grid: &'a Grid, name: &[u8]) -> Option<&'a Block>
    ensures { option_copied result ≡ specs.block_named grid.now name.now }
{
    grid.blocks().iter().find(|b| b.name.bytes() == name)
}

pub(crate) fn region_named<'a>(grid: &'a Grid, name: &[u8]) -> Option<&'a Region>
    ensures { option_copied result ≡ specs.region_named grid.now name.now }
{
    grid.regions().iter().find(|r| r.name().bytes() == name)
}

/// The corner that a pose word means: `#X,Y`, or `home-B` for the first corner of a block.
#[tactic(auto, unfolding(crate::specs::Words::pose_of))]
pub fn pose_of(grid: &Grid, word: &[u8]) -> Option<Corner>
    ensures { result ≡ specs.pose_of grid.now word.now }
{
    if let Some(text) = behind(word, b"#") {
        return corner_of(text);
    }
    if let Some(name) = behind(word, b"home-") {
        return home_of(grid, name);
    }
    None
}

/// What stands behind the front of a word, if it begins so.
fn behind<'a>(word: &'a [u8], front: &[u8]) -> Option<&'a [u8]>
    ensures { option_map (λ rest. rest.now) result
        ≡ (if bytes_eq (take (length front.now) word.now) front.now then Some
        (drop (length front.now) word.now) else None) }
{
    if word.len() < front.len() {
        return None;
    }
    if &word[..front.len()] != front {
        return None;
    }
    Some(&word[front.len()..])
}

fn home_of(grid: &Grid, name: &[u8]) -> Option<Corner>
    ensures { result ≡ specs.home_of (specs.block_named grid.now name.now) }
{
    let block = block_named(grid, name)?;
    Some(Corner {
        x: block.x,
        y: block.y,
    })
}

/// The corner that `X,Y` writes: numbers below 2^32 without leading zeros.
fn corner_of(text: &[u8]) -> Option<Corner>
    ensures { result ≡ specs.corner_of text.now }
{
    let comma = comma_in(text)?;
    let x = plain_number(&text[..comma])?;
    let y = plain_number(&text[comma + 1..])?;
    Some(Corner { x, y })
}

fn comma_in(text: &[u8]) -> Option<usize>
    ensures place { result ≡ position specs.is_comma text.now }
    ensures within { IfSome result (λ n. n < length text.now) }
{
    text.iter().position(|b| *b == b',')
}

#[tactic(auto, unfolding(crate::specs::Words::is_plain))]
fn plain_number(text: &[u8]) -> Option<u32>
    ensures { result ≡ (if specs.is_plain text.now then Some (digits_value 10 text.now) else None) }
{
    if has_leading_zero(text) {
        return None;
    }
    number_of(text)
}

fn has_leading_zero(text: &[u8]) -> bool
    ensures { result ≡ specs.has_leading_zero text.now }
{
    match text {
        [b'0', _, ..] => true,
        _ => false,
    }
}

/// The cells of a block at a pose.
pub(crate) fn posed(grid: &Grid, block: &[u8], pose: &[u8]) -> Option<Rect>
    ensures { result ≡ specs.posed grid.now block.now pose.now }
{
    let block = block_named(grid, block)?;
    let corner = pose_of(grid, pose)?;
    Some(rect_at(block, corner))
}

/// The cells of a block whose corner with the least x and y lies there.
pub fn rect_at(block: &Block, corner: Corner) -> Rect
    ensures { result ≡ specs.rect_at block.now corner }
{
    Rect {
        x: corner.x,
        y: corner.y,
        w: block.w,
        h: block.h,
    }
}
