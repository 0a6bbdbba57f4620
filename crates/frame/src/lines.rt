//! The worked frames of the format's description, as a theorem over their list.
ghost use Rattle.std.specs.Prelude.{◌≡◌, length};
ghost use Rattle.frame.specs.Lines.{lines, Holds};

/// Every worked frame is made of its fields and reads as them. Answers how many there are.
pub fn worked_frames_hold() -> usize
    ensures value { result ≡ length lines }
    ensures hold { Holds lines }
{
    6
}
