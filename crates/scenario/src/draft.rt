//! A form as it was typed: numbers that may lie outside their fields. So its types are like those of `frame`, and no instances of
//! the same: there each field has a type of its own.
ghost use Rattle.std.specs.Prelude.{◌≡◌, ◌≤◌, false, ◌⊎◌, MatchOption};
ghost use Rattle.frame.specs.Fields.{head_fields, fields, bit, conn as conn_fields};
ghost use Rattle.frame.specs.Ranges.{conn_fits, head_fits, in_range};
ghost use Rattle.scenario.specs.Draft.{head_of, fields_of};

use frame::{ConnId, ConnType, Fragment, Frame, Head, SeqNo, WindowExponent};

/// The fields that four of the forms begin with.
#[derive(Clone, Copy, Debug)]
pub struct HeadDraft {
    /// The receiver's connection number.
    pub to: u32,
    /// 1 where an answer is requested, 0 where none is.
    pub request: u32,
    /// The next sequence number that the sender waits for.
    pub ackno: u32,
    /// The number of the piece carried, or of the next new one.
    pub seqno: u32,
}

/// The five forms.
#[derive(Debug, Drop)]
pub enum Draft {
    /// Sets a connection up or ends it.
    Conn {
        to: u32,
        kind: u32,
        window: u32,
        published: u32,
    },
    /// Tells what has arrived.
    Ack {
        head: HeadDraft,
    },
    /// A gap report.
    Nack {
        head: HeadDraft,
        count: u32,
        from: u32,
    },
    /// A whole message, or its first piece.
    Udata {
        head: HeadDraft,
        more: u32,
        number: u32,
        dst: u32,
        src: u32,
        payload: Vec<u8>,
    },
    /// A later piece of a message.
    Frag {
        head: HeadDraft,
        more: u32,
        number: u32,
        payload: Vec<u8>,
    },
}

// By match: no std conversion makes a bool of a number, and the arms show both bits.
fn flag(number: u32) -> Option<bool>
    ensures { MatchOption result (2 ≤ number) (λ b. bit b ≡ number) }
{
    match number {
        0 => Some(false),
        1 => Some(true),
        _ => None,
    }
}

impl HeadDraft {
    fn head(self) -> Option<Head>
        ensures { MatchOption result (head_fits (head_of self) ≡ false) (λ h. head_fields h ≡ head_of self) }
    {
        Some(Head {
            to: ConnId(u8::try_from(self.to).ok()?),
            request: flag(self.request)?,
            ackno: SeqNo(u16::try_from(self.ackno).ok()?),
            seqno: SeqNo(u16::try_from(self.seqno).ok()?),
        })
    }
}

fn fragment(more: u32, number: u32) -> Option<Fragment>
    ensures { MatchOption result ((2 ≤ more) ⊎ (65536 ≤ number)) (λ f. (bit f.more ≡ more) × (f.number ≡ number)) }
{
    Some(Fragment {
        more: flag(more)?,
        number: u16::try_from(number).ok()?,
    })
}

fn conn(to: u32, kind: u32, window: u32, published: u32) -> Option<Frame<'static>>
    ensures { MatchOption result (conn_fits to kind window published ≡ false) (λ f. fields f ≡ conn_fields to kind window published) }
{
    Some(Frame::Conn {
        to: ConnId(u8::try_from(to).ok()?),
        kind: ConnType::try_from(u8::try_from(kind).ok()?).ok()?,
        window: WindowExponent(u8::try_from(window).ok()?),
        published: ConnId(u8::try_from(published).ok()?),
    })
}

impl Draft {
    /// The frame with these fields, or none where a number is too large for its field. Fields out of range may come either
    /// way: the writer declines them.
    pub fn frame(&self) -> Option<Frame<'_>>
        ensures { MatchOption result (in_range (fields_of self.now) ≡ false) (λ f. fields f ≡ fields_of self.now) }
    {
        match self {
            Draft::Conn {
                to,
                kind,
                window,
                published,
            } => conn(*to, *kind, *window, *published),
            Draft::Ack { head } => Some(Frame::Ack { head: head.head()? }),
            Draft::Nack { head, count, from } => Some(Frame::Nack {
                head: head.head()?,
                count: u8::try_from(*count).ok()?,
                from: SeqNo(u16::try_from(*from).ok()?),
            }),
            Draft::Udata {
                head,
                more,
                number,
                dst,
                src,
                payload,
            } => Some(Frame::Udata {
                head: head.head()?,
                fragment: fragment(*more, *number)?,
                dst: u16::try_from(*dst).ok()?,
                src: u16::try_from(*src).ok()?,
                payload: payload.as_slice(),
            }),
            Draft::Frag {
                head,
                more,
                number,
                payload,
            } => Some(Frame::Frag {
                head: head.head()?,
                fragment: fragment(*more, *number)?,
                payload: payload.as_slice(),
            }),
        }
    }
}
