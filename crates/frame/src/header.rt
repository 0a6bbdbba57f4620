//! What Next names, and ACK as the reader holds it on its way to a frame.
ghost use Rattle.std.specs.Prelude.{◌≡◌};
ghost use Rattle.frame.specs.Headers.{main_next, ack_next};

use crate::fields::Head;

/// The protocol's version.
pub(crate) const VERSION: u32 = 3;

/// Next in a header that is always the last.
pub(crate) const LAST: u32 = 15;

/// The header that follows MAIN, with its number in Next.
#[derive(Clone, Copy, PartialEq, Eq)]
pub(crate) enum AfterMain {
    Conn = 1,
    Ack = 4,
}

/// A number in Next that names no header that may follow.
#[derive(Clone, Copy)]
pub(crate) struct UnknownNext(pub u32);

impl TryFrom<u32> for AfterMain {
    type Error = UnknownNext;

    ghost try_from_gives = { λ n r. r ≡ main_next n };

    fn try_from(next: u32) -> Result<AfterMain, UnknownNext> {
        match next {
            1 => Ok(AfterMain::Conn),
            4 => Ok(AfterMain::Ack),
            _ => Err(UnknownNext(next)),
        }
    }
}

/// The header that follows ACK, if any, with its number in Next.
#[derive(Clone, Copy)]
pub(crate) enum AfterAck {
    Udata = 2,
    Frag = 3,
    Nack = 5,
    Last = 15,
}

impl TryFrom<u32> for AfterAck {
    type Error = UnknownNext;

    ghost try_from_gives = { λ n r. r ≡ ack_next n };

    fn try_from(next: u32) -> Result<AfterAck, UnknownNext> {
        match next {
            2 => Ok(AfterAck::Udata),
            3 => Ok(AfterAck::Frag),
            5 => Ok(AfterAck::Nack),
            15 => Ok(AfterAck::Last),
            _ => Err(UnknownNext(next)),
        }
    }
}

/// ACK, once it has passed its checks, with the receiver from MAIN.
#[derive(Clone, Copy)]
pub(crate) struct AckHeader {
    pub next: AfterAck,
    pub head: Head,
}
