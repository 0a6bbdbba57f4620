//! The two sides of a medium.
ghost use Rattle.std.specs.Prelude.{◌≡◌};
ghost use Rattle.medium.specs.Waiting.{other_side};

/// The longest frame that a medium carries, in bytes.
pub const LONGEST_FRAME: usize = 276;

/// A side of a medium: the end that stands there puts frames in for the other side and takes those for its own.
#[derive(Debug, Clone, Copy, PartialEq, Eq)]
pub enum Side {
    Left,
    Right,
}

impl Side {
    /// The side across.
    pub fn other(self) -> Side
        ensures { result ≡ other_side self }
    {
        match self {
            Side::Left => Side::Right,
            Side::Right => Side::Left,
        }
    }
}
