//! What a program in C is told of a frame: one number, since C has no enum with fields. The crate `frame_c` exports it.
ghost use Rattle.std.specs.Prelude.{◌≡◌};
ghost use Rattle.frame.specs.Reader.{frame_of};
ghost use Rattle.frame.specs.Kinds.{code};

use crate::reader::read;

/// The kind of the frame at the front of the bytes, or cause × 256 + place.
pub fn linx_frame_read(bytes: &[u8]) -> u32
    ensures { result ≡ code (frame_of bytes.now) }
{
    match read(bytes) {
        Ok(frame) => u32::from(u8::from(frame.kind())),
        Err(fault) => u32::from(u8::from(fault.cause())) * 256 + u32::from(fault.place()),
    }
}
