//! The headers of a capture, and what they make together with the frames.
ghost use Rattle.std.specs.Prelude.{◌≡◌};
ghost use Rattle.capture.specs.Format.{file_header, frame_header};
ghost use Rattle.capture.specs.Opened.{Opens, Continues};

use crate::layout::packet_header;
use medium::Side;

/// What a capture begins with. Read by the rule of the format, every capture gives back its frames, each with its side, in their order.
pub fn file_header() -> [u8; 24]
    ensures bytes { result ≡ file_header }
    ensures opens { Opens }
{
    [
        // the magic number
        0xa1, 0xb2, 0xc3, 0xd4,
        // version 2
        0x00, 0x02,
        // point 4
        0x00, 0x04,
        // no time zone
        0x00, 0x00, 0x00, 0x00,
        // nothing on how exact the stamps are
        0x00, 0x00, 0x00, 0x00,
        // the longest packet
        0x00, 0x00, 0xff, 0xff,
        // Ethernet
        0x00, 0x00, 0x00, 0x01,
    ]
}

/// What stands before the bytes of a frame. Behind the capture of `number` frames, this and then the frame's `length` bytes make the capture
/// with that frame too.
pub fn frame_header(number: u64, from: Side, length: u16) -> [u8; 30]
    ensures bytes { result ≡ frame_header number from length }
    ensures continues { Continues number from length result }
{
    packet_header(number, from, length)
}
