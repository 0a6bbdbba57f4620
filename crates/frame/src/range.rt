//! Which values the fields of a frame may have. Reader and writer ask the same questions.
ghost use Rattle.std.specs.Prelude.{◌≡◌};
ghost use Rattle.frame.specs.Fields.{fields, head_fields, bit};
ghost use Rattle.frame.specs.Numbers.{type_number};
ghost use Rattle.frame.specs.Ranges.{conn_fits, head_fits, count_fits, udata_fits, frag_fits, length_fits, in_range};

use crate::fields::{ConnId, ConnType, Fragment, Head, SeqNo, WindowExponent};
use crate::form::{Frame, PIECE};

/// The fields of a CONN frame fit its type. The reader asks with four fields, before there is a frame.
pub(crate) fn conn_fits(
    to: ConnId,
    kind: ConnType,
    window: WindowExponent,
    published: ConnId,
) -> bool
    ensures { result ≡ conn_fits to.0 (type_number kind) window.0 published.0 }
{
    match kind {
        ConnType::Connect => to.0 == 0 && window.0 <= WindowExponent::MAX && published.0 > 0,
        ConnType::ConnectAck => to.0 > 0 && window.0 <= WindowExponent::MAX && published.0 > 0,
        ConnType::Ack => to.0 > 0 && window.0 == 0 && published.0 > 0,
        ConnType::Reset => to.0 > 0 && window.0 == 0 && published.0 == 0,
    }
}

fn head_fits(head: Head) -> bool
    ensures { result ≡ head_fits (head_fields head) }
{
    head.to.0 > 0 && head.ackno.0 <= SeqNo::MAX && head.seqno.0 <= SeqNo::MAX
}

/// A gap report names 1 to 31 pieces.
pub(crate) fn count_fits(count: u8) -> bool
    ensures { result ≡ count_fits count }
{
    (1..=31).contains(&count)
}

/// UDATA carries a whole message or the first of several pieces.
pub(crate) fn udata_fits(fragment: Fragment) -> bool
    ensures { result ≡ udata_fits (bit fragment.more) fragment.number }
{
    if fragment.more {
        fragment.number == 0
    } else {
        fragment.number == Fragment::WHOLE
    }
}

/// FRAG carries a later piece, the last one up to number 15.
pub(crate) fn frag_fits(fragment: Fragment) -> bool
    ensures { result ≡ frag_fits (bit fragment.more) fragment.number }
{
    if fragment.more {
        (1..Fragment::LAST).contains(&fragment.number)
    } else {
        (1..=Fragment::LAST).contains(&fragment.number)
    }
}

/// A piece before the last is full; the last has `least` to 256 bytes.
pub(crate) fn length_fits(least: usize, more: bool, length: usize) -> bool
    ensures { result ≡ length_fits least (bit more) length }
{
    if more {
        length == PIECE
    } else {
        (least..=PIECE).contains(&length)
    }
}

/// Every field is in its range.
pub(crate) fn in_range(frame: Frame) -> bool
    ensures { result ≡ in_range (fields frame.entry) }
{
    match frame {
        Frame::Conn {
            to,
            kind,
            window,
            published,
        } => conn_fits(to, kind, window, published),
        Frame::Ack { head } => head_fits(head),
        Frame::Nack { head, count, from } => head_fits(head)
            && count_fits(count)
            && from.0 <= SeqNo::MAX,
        Frame::Udata {
            head,
            fragment,
            payload,
            ..
        } => {
            head_fits(head) && udata_fits(fragment) && length_fits(0, fragment.more, payload.len())
        }
        Frame::Frag {
            head,
            fragment,
            payload,
        } => {
            head_fits(head) && frag_fits(fragment) && length_fits(1, fragment.more, payload.len())
        }
    }
}
