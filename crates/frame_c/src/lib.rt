//! The reader for programs in C, as a static library over `frame`. `include/linx_frame.h` declares it.
#![tactic(auto)]

ghost use Rattle.std.specs.Prelude.{◌≡◌};
ghost use Rattle.frame.specs.Reader.{frame_of};
ghost use Rattle.frame.specs.Kinds.{code};

/// The kind of the frame at the front of the bytes, or cause × 256 + place.
// A function like that of `frame`, since a crate is a library or a static library, and not both.
#[unsafe(no_mangle)]
pub extern "C" fn linx_frame_read(bytes: &[u8]) -> u32
    ensures { result ≡ code (frame_of bytes.now) }
{
    frame::linx_frame_read(bytes)
}
