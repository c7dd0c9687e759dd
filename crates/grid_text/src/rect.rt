//! Rectangles of cells.
ghost use Rattle.std.specs.Prelude.{◌≡◌, ◌+◌};
ghost use Rattle.grid_text.specs.Rects.{is_within, meets};

/// A rectangle of cells: its corner with the least x and y, and how many cells it is wide and high.
/// y grows to the south.
#[derive(Clone, Copy, Debug, PartialEq, Eq)]
pub struct Rect {
    /// The least x of its cells.
    pub x: u32,
    /// The least y of its cells.
    pub y: u32,
    /// How many cells it is wide.
    pub w: u32,
    /// How many cells it is high.
    pub h: u32,
}

impl Rect {
    /// Whether all cells of this rectangle are cells of the other, where it has cells.
    #[tactic(auto, unfolding(crate::specs::Rects::is_within))]
    pub fn is_within(&self, other: &Rect) -> bool
        ensures { result ≡ is_within self.now other.now }
    {
        other.x <= self.x
            && other.y <= self.y
            && self.right() <= other.right()
            && self.bottom() <= other.bottom()
    }

    /// Whether the rectangles have a cell in common, where both have cells.
    #[tactic(auto, unfolding(crate::specs::Rects::meets))]
    pub fn meets(&self, other: &Rect) -> bool
        ensures { result ≡ meets self.now other.now }
    {
        u64::from(self.x) < other.right()
            && u64::from(other.x) < self.right()
            && u64::from(self.y) < other.bottom()
            && u64::from(other.y) < self.bottom()
    }

    /// The x of the cells beside it in the east, which may be past 32 bits.
    pub fn right(&self) -> u64
        ensures { result ≡ self.now.x + self.now.w }
    {
        u64::from(self.x) + u64::from(self.w)
    }

    /// The y of the cells beside it in the south, which may be past 32 bits.
    pub fn bottom(&self) -> u64
        ensures { result ≡ self.now.y + self.now.h }
    {
        u64::from(self.y) + u64::from(self.h)
    }
}
