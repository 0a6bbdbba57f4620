//! The text of a frame.
ghost use Rattle.std.specs.Prelude.{◌≡◌, IfOk, Some, string_bytes};
ghost use Rattle.std.specs.Fmt.{WritesOnOk};
ghost use Rattle.frame.specs.Fields.{head_fields, fields, bit, udata};
ghost use Rattle.scenario.specs.Form.{head_text, form_text};

use crate::hex::Hex;
use frame::{ConnId, Fragment, Frame, Head, SeqNo, WindowExponent};
use std::alloc::{AllocError, Global};
use std::fmt;

/// The fields that four of the forms begin with.
#[derive(Clone, Copy)]
struct HeadText(Head);

impl fmt::Display for HeadText {
    ghost output = { λ x. Some (head_text (head_fields x.0)) };

    fn fmt<W: fmt::Write>(&self, f: &mut fmt::Formatter<W>) -> fmt::Result {
        let to = self.0.to.0;
        let request = u8::from(self.0.request);
        let ackno = self.0.ackno.0;
        let seqno = self.0.seqno.0;
        write!(f, "to {to} r {request} ackno {ackno} seqno {seqno}")
    }
}

// A function of its own, so that `fmt` stays short; no other has these five fields as parameters.
fn write_udata<W: fmt::Write>(
    f: &mut fmt::Formatter<W>,
    head: Head,
    fragment: Fragment,
    dst: u16,
    src: u16,
    payload: &[u8],
) -> fmt::Result
    ensures { WritesOnOk W.write_str_gives f.old result (form_text (udata (head_fields head) (bit fragment.more) fragment.number dst src payload.now)) f.new }
{
    let head = HeadText(head);
    let more = u8::from(fragment.more);
    let number = fragment.number;
    let payload = Hex(payload);
    write!(
        f,
        "udata {head} more {more} frag {number} dst {dst} src {src} payload {payload}"
    )
}

/// A frame, printed as the words of its form, each before its value.
#[derive(Clone, Copy)]
pub struct Form<'a>(pub Frame<'a>);

impl fmt::Display for Form<'_> {
    ghost output = { λ x. Some (form_text (fields x.0)) };

    fn fmt<W: fmt::Write>(&self, f: &mut fmt::Formatter<W>) -> fmt::Result {
        match self.0 {
            Frame::Conn {
                to: ConnId(to),
                kind,
                window: WindowExponent(window),
                published: ConnId(published),
            } => {
                let kind = u8::from(kind);
                write!(
                    f,
                    "conn to {to} type {kind} winsize {window} published {published}"
                )
            }
            Frame::Ack { head } => write!(f, "ack {}", HeadText(head)),
            Frame::Nack {
                head,
                count,
                from: SeqNo(from),
            } => write!(f, "nack {} count {count} from {from}", HeadText(head)),
            Frame::Udata {
                head,
                fragment,
                dst,
                src,
                payload,
            } => write_udata(f, head, fragment, dst, src, payload),
            Frame::Frag {
                head,
                fragment: Fragment { more, number },
                payload,
            } => {
                let head = HeadText(head);
                let more = u8::from(more);
                let payload = Hex(payload);
                write!(f, "frag {head} more {more} frag {number} payload {payload}")
            }
        }
    }
}

/// The words of a frame's form, each before its value.
pub fn form_text(heap: Global, frame: Frame) -> Result<String, AllocError>
    ensures { IfOk result (λ s. string_bytes s ≡ form_text (fields frame.entry)) }
{
    format!(in heap; "{}", Form(frame))
}
