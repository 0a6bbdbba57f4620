//! The frames of a LINX Ethernet connection: bytes to fields and back, and nothing of what frames do.
//! `read` answers a `Frame` or a `FrameFault`; `write` puts a `Frame` into a place. `docs/PROTOCOL.md` has every bit.
#![tactic(auto)]

mod dock;
mod fault;
mod fields;
mod form;
mod header;
mod lines;
mod range;
mod reader;
mod writer;

pub use dock::linx_frame_read;
pub use fault::{Cause, FrameFault, HeaderFault, Layer};
pub use fields::{ConnId, ConnType, Fragment, Head, SeqNo, UnknownType, WindowExponent};
pub use form::{Frame, Kind, PIECE};
pub use lines::worked_frames_hold;
pub use reader::read;
pub use writer::{Refusal, write};
