//! The five forms of a frame.
ghost use Rattle.std.specs.Prelude.{◌≡◌};
ghost use Rattle.frame.specs.Fields.{fields};
ghost use Rattle.frame.specs.Layout.{size};
ghost use Rattle.frame.specs.Kinds.{kind_number, kind_of};
ghost use Rattle.frame.specs.Numbers.{type_number};

use crate::fields::{ConnId, ConnType, Fragment, Head, SeqNo, WindowExponent};

/// A full piece of a message, in bytes.
pub const PIECE: usize = 256;

/// A frame, with the payload as a part of the bytes it was read from.
#[derive(Debug, Clone, Copy, PartialEq, Eq)]
pub enum Frame<'a> {
    /// MAIN CONN: sets a connection up or ends it.
    Conn {
        to: ConnId,
        kind: ConnType,
        window: WindowExponent,
        published: ConnId,
    },
    /// MAIN ACK: tells what has arrived.
    Ack {
        head: Head,
    },
    /// MAIN ACK NACK: a gap report, `count` pieces missing from `from` on.
    Nack {
        head: Head,
        count: u8,
        from: SeqNo,
    },
    /// MAIN ACK UDATA: a whole message, or its first piece.
    Udata {
        head: Head,
        fragment: Fragment,
        dst: u16,
        src: u16,
        payload: &'a [u8],
    },
    /// MAIN ACK FRAG: a later piece of a message.
    Frag {
        head: Head,
        fragment: Fragment,
        payload: &'a [u8],
    },
}

/// What a frame is: the type of a CONN frame, else its last header. A caller from C is told the number.
#[derive(Debug, Clone, Copy, PartialEq, Eq)]
pub enum Kind {
    Connect = 1,
    ConnectAck = 2,
    ConnAck = 3,
    Reset = 4,
    Ack = 5,
    Nack = 6,
    Udata = 7,
    Frag = 8,
}

impl From<Kind> for u8 {
    ghost from_gives = { λ kind n. n ≡ kind_number kind };

    fn from(kind: Kind) -> u8 {
        kind as u8
    }
}

impl From<ConnType> for Kind {
    ghost from_gives = { λ t kind. kind_number kind ≡ type_number t };

    fn from(kind: ConnType) -> Kind {
        match kind {
            ConnType::Connect => Kind::Connect,
            ConnType::ConnectAck => Kind::ConnectAck,
            ConnType::Ack => Kind::ConnAck,
            ConnType::Reset => Kind::Reset,
        }
    }
}

impl Frame<'_> {
    /// The kind of the frame: the type of a CONN frame, else the last header.
    pub fn kind(self) -> Kind
        ensures { kind_number result ≡ kind_of (fields self.entry) }
    {
        match self {
            Frame::Conn { kind, .. } => Kind::from(kind),
            Frame::Ack { .. } => Kind::Ack,
            Frame::Nack { .. } => Kind::Nack,
            Frame::Udata { .. } => Kind::Udata,
            Frame::Frag { .. } => Kind::Frag,
        }
    }

    /// The packet size: the length of the whole frame in bytes.
    pub fn size(self) -> usize
        ensures { result ≡ size (fields self.entry) }
    {
        match self {
            Frame::Conn { .. } | Frame::Ack { .. } => 8,
            Frame::Nack { .. } => 12,
            Frame::Udata { payload, .. } => 20 + payload.len(),
            Frame::Frag { payload, .. } => 12 + payload.len(),
        }
    }
}
