//! Answers of the grid.

/// A side of a block.
#[derive(Clone, Copy, Debug, PartialEq, Eq)]
pub enum Side {
    /// The north, where y is less.
    N,
    /// The east, where x is greater.
    E,
    /// The south, where y is greater.
    S,
    /// The west, where x is less.
    W,
}

/// What a request is answered.
#[derive(Clone, Copy, Debug, PartialEq, Eq)]
pub enum GridAnswer {
    /// A pose of a block: its corner with the least x and y.
    Pose {
        /// The corner's x.
        x: u32,
        /// The corner's y.
        y: u32,
    },
    /// A side by which a block is grasped.
    Side(Side),
    /// The cell from which a block is reached.
    Hand {
        /// The cell's x.
        x: u32,
        /// The cell's y.
        y: u32,
    },
    /// The test holds.
    Yes,
    /// Nothing more comes.
    End,
}
