//! What a line of a scenario says.
ghost use Rattle.std.specs.Prelude.{◌≡◌};
ghost use Rattle.scenario.specs.Draft.{head_of, fields_of};
ghost use Rattle.scenario.specs.Words.{rest_of, told, Tells};
ghost use Rattle.scenario.specs.Lines.{head_after, conn_after, nack_after, payload_after, udata_after, frag_after, form_after, said, call_after, is_blank, is_skipped, said_by};

use crate::draft::{Draft, HeadDraft};
use crate::words::Words;
use crate::wrong::{Stop, Wrong};
use std::alloc::Global;

/// What one line asks for.
#[derive(Debug, Drop)]
pub enum Line {
    /// A blank line or a comment.
    Nothing,
    /// What the reader answers for these bytes.
    Read(Vec<u8>),
    /// What the entry for C answers for them.
    Cread(Vec<u8>),
    /// The bytes of a frame with these fields.
    Write(Draft),
}

fn head<'a>(words: &mut Words<'a>) -> Result<HeadDraft, Wrong<'a>>
    ensures { told head_of result (rest_of words.new) ≡ head_after (rest_of words.old) }
{
    Ok(HeadDraft {
        to: words.number("to")?,
        request: words.number("r")?,
        ackno: words.number("ackno")?,
        seqno: words.number("seqno")?,
    })
}

fn conn<'a>(words: &mut Words<'a>) -> Result<Draft, Wrong<'a>>
    ensures { told fields_of result (rest_of words.new) ≡ conn_after (rest_of words.old) }
{
    Ok(Draft::Conn {
        to: words.number("to")?,
        kind: words.number("type")?,
        window: words.number("winsize")?,
        published: words.number("published")?,
    })
}

fn nack<'a>(words: &mut Words<'a>) -> Result<Draft, Wrong<'a>>
    ensures { told fields_of result (rest_of words.new) ≡ nack_after (rest_of words.old) }
{
    Ok(Draft::Nack {
        head: head(words)?,
        count: words.number("count")?,
        from: words.number("from")?,
    })
}

fn payload<'a>(words: &mut Words<'a>) -> Result<Vec<u8>, Stop<'a>>
    ensures { Tells (λ p. (p.items, rest_of words.new)) result (payload_after (rest_of words.old)) }
{
    words.name("payload")?;
    words.bytes()
}

fn udata<'a>(words: &mut Words<'a>) -> Result<Draft, Stop<'a>>
    ensures { Tells (λ d. (fields_of d, rest_of words.new)) result (udata_after (rest_of words.old)) }
{
    Ok(Draft::Udata {
        head: head(words)?,
        more: words.number("more")?,
        number: words.number("frag")?,
        dst: words.number("dst")?,
        src: words.number("src")?,
        payload: payload(words)?,
    })
}

fn frag<'a>(words: &mut Words<'a>) -> Result<Draft, Stop<'a>>
    ensures { Tells (λ d. (fields_of d, rest_of words.new)) result (frag_after (rest_of words.old)) }
{
    Ok(Draft::Frag {
        head: head(words)?,
        more: words.number("more")?,
        number: words.number("frag")?,
        payload: payload(words)?,
    })
}

fn form<'a>(words: &mut Words<'a>) -> Result<Draft, Stop<'a>>
    ensures { Tells (λ d. (fields_of d, rest_of words.new)) result (form_after (rest_of words.old)) }
{
    match words.word("the form")? {
        "conn" => Ok(conn(words)?),
        "ack" => Ok(Draft::Ack { head: head(words)? }),
        "nack" => Ok(nack(words)?),
        "udata" => udata(words),
        "frag" => frag(words),
        other => Err(Wrong::Form(other).into()),
    }
}

fn call<'a>(words: &mut Words<'a>) -> Result<Line, Stop<'a>>
    ensures { Tells (λ l. (said l, rest_of words.new)) result (call_after (rest_of words.old)) }
{
    match words.word("a command")? {
        "read" => Ok(Line::Read(words.bytes()?)),
        "cread" => Ok(Line::Cread(words.bytes()?)),
        "write" => Ok(Line::Write(form(words)?)),
        other => Err(Wrong::Command(other).into()),
    }
}

fn is_blank(line: &str) -> bool
    ensures { result ≡ is_blank line.now }
{
    line.bytes().all(|byte| byte == b' ')
}

// A blank line or a comment.
fn is_skipped(line: &str) -> bool
    ensures { result ≡ is_skipped line.now }
{
    is_blank(line) || line.starts_with('#')
}

impl Line {
    /// What a line says, or what is wrong with it.
    pub fn parse<'a>(heap: Global, line: &'a str) -> Result<Line, Stop<'a>>
        ensures { Tells said result (said_by line.now) }
    {
        if is_skipped(line) {
            return Ok(Line::Nothing);
        }
        let mut words = Words::new(heap, line);
        let call = call(&mut words)?;
        words.end()?;
        Ok(call)
    }
}
