//! Frames as a capture file of Ethernet packets, in the classic format that Wireshark opens.
//!
//! A capture is `file_header()`, and then for each frame its `frame_header` and its bytes. The frames are numbered from 0, and the n-th
//! is stamped n microseconds after 0. A frame that is put in at the left side goes from 02:00:00:00:00:0a to 02:00:00:00:00:0b, one from the right
//! side the other way; the Ethernet type is 0x8911, that of LINX. All numbers are big-endian.
//!
//! The capture of one frame, the bytes `40 00 00 04`, put in at the left side:
//!
//! ```text
//! a1 b2 c3 d4  00 02 00 04  00 00 00 00  00 00 00 00  00 00 ff ff  00 00 00 01    file_header()
//! 00 00 00 00  00 00 00 00  00 00 00 12  00 00 00 12                              frame_header(0, Side::Left, 4): the record, of 18 bytes,
//! 02 00 00 00 00 0b  02 00 00 00 00 0a  89 11                                     and the packet's header
//! 40 00 00 04                                                                     the frame
//! ```
#![tactic(auto)]

mod headers;
mod layout;

pub use headers::{file_header, frame_header};
