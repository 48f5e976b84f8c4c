//! What a browser is answered.
ghost use Rattle.std.specs.Prelude.{◌≡◌, ◌++◌, [], OnOk, codes, length, if◌then◌else◌};
ghost use Rattle.std.specs.Fmt.{decimal};
ghost use Rattle.acdm_web.specs.Answers.{answer_text, body_of, date_line, events_head, further_line};
ghost use Rattle.acdm_web.specs.Answers.{head_end, head_line, head_of, kind_of, status_of};

use crate::request::{BrowserRequest, Wanted};
use httpdate::HttpDate;
use itoa::Buffer;
use std::alloc::AllocError;

/// What a page may load and run: what stands in it, and the events of where it came from.
const POLICY: &str =
    "Content-Security-Policy: default-src 'none'; style-src 'unsafe-inline'; script-src 'unsafe-inline'; connect-src 'self'; base-uri 'none'; frame-ancestors 'self'";

// The line of a status.
fn status_of(wanted: Wanted) -> &'static str
    ensures { result.now ≡ status_of wanted }
{
    match wanted {
        Wanted::Page | Wanted::Events(_) => "HTTP/1.1 200 OK",
        Wanted::Nothing => "HTTP/1.1 404 Not Found",
        Wanted::OtherMethod => "HTTP/1.1 405 Method Not Allowed",
        Wanted::Misdirected => "HTTP/1.1 421 Misdirected Request",
        Wanted::NoRequest => "HTTP/1.1 400 Bad Request",
        Wanted::Busy => "HTTP/1.1 503 Service Unavailable",
    }
}

// The line of what stands behind the head.
fn kind_of(wanted: Wanted) -> &'static str
    ensures { result.now ≡ kind_of wanted }
{
    match wanted {
        Wanted::Page => "Content-Type: text/html; charset=utf-8",
        Wanted::Events(_) => "Content-Type: text/event-stream; charset=utf-8",
        _ => "Content-Type: text/plain; charset=utf-8",
    }
}

// What stands behind the head: the page, or why there is none, in words.
fn body_of<'p>(wanted: Wanted, page: &'p str) -> &'p str
    ensures { result.now ≡ body_of wanted page.now }
{
    match wanted {
        Wanted::Page => page,
        Wanted::Events(_) => "",
        Wanted::Nothing => "Nothing is here. The board is at /, its events at /events.\n",
        Wanted::OtherMethod => "Ask by GET or HEAD.\n",
        Wanted::Misdirected =>
            "This board has no such name. Its operator gives names by --web-name.\n",
        Wanted::NoRequest => "This is no request of HTTP/1.1 with at most 64 fields.\n",
        Wanted::Busy => "All places for browsers are taken. Try again in a minute.\n",
    }
}

// Adds words.
fn push_words(text: &mut Vec<u8>, words: &str) -> Result<(), AllocError>
    ensures { OnOk result (text.new.items ≡ text.old.items ++ words.now) }
{
    text.extend_from_slice(words.as_bytes())?;
    Ok(())
}

// Adds a line of a head.
fn push_head_line(text: &mut Vec<u8>, words: &str) -> Result<(), AllocError>
    ensures { OnOk result (text.new.items ≡ text.old.items ++ head_line words.now) }
{
    push_words(text, words)?;
    text.extend_from_slice(b"\r\n")?;
    Ok(())
}

// Adds the line of a status.
fn push_status(text: &mut Vec<u8>, wanted: Wanted) -> Result<(), AllocError>
    ensures { OnOk result (text.new.items ≡ text.old.items ++ head_line (status_of wanted)) }
{
    push_head_line(text, status_of(wanted))
}

// Adds the line of what stands behind a head.
fn push_kind(text: &mut Vec<u8>, wanted: Wanted) -> Result<(), AllocError>
    ensures { OnOk result (text.new.items ≡ text.old.items ++ head_line (kind_of wanted)) }
{
    push_head_line(text, kind_of(wanted))
}

// Adds the end of a head.
fn push_head_end(text: &mut Vec<u8>) -> Result<(), AllocError>
    ensures { OnOk result (text.new.items ≡ text.old.items ++ head_end) }
{
    push_head_line(text, "Cache-Control: no-store")?;
    push_head_line(text, "Connection: close")?;
    push_head_line(text, "X-Content-Type-Options: nosniff")?;
    push_head_line(text, "Referrer-Policy: no-referrer")?;
    push_head_line(text, POLICY)?;
    push_head_line(text, "")?;
    Ok(())
}

// Adds the line that tells how many bytes stand behind the head.
fn push_length(text: &mut Vec<u8>, body: &str) -> Result<(), AllocError>
    ensures { OnOk result (text.new.items
        ≡ text.old.items ++ head_line (codes "Content-Length: " ++ decimal (length body.now))) }
{
    let mut digits = Buffer::new();
    text.extend_from_slice(b"Content-Length: ")?;
    push_head_line(text, digits.format(body.len()))?;
    Ok(())
}

// Adds the line of the moment of an answer, where it is known.
fn push_date(text: &mut Vec<u8>, date: Option<HttpDate>) -> Result<(), AllocError>
    ensures { OnOk result (text.new.items ≡ text.old.items ++ date_line date) }
{
    let Some(date) = date else {
        return Ok(());
    };
    text.extend_from_slice(b"Date: ")?;
    text.extend_from_slice(&date.to_bytes())?;
    text.extend_from_slice(b"\r\n")?;
    Ok(())
}

// Adds the line that one kind of answer has beside the others.
fn push_further(text: &mut Vec<u8>, wanted: Wanted) -> Result<(), AllocError>
    ensures { OnOk result (text.new.items ≡ text.old.items ++ further_line wanted) }
{
    match wanted {
        Wanted::OtherMethod => push_head_line(text, "Allow: GET, HEAD"),
        Wanted::Busy => push_head_line(text, "Retry-After: 60"),
        _ => Ok(()),
    }
}

// Adds the head of an answer with an end.
fn push_head(
    text: &mut Vec<u8>,
    wanted: Wanted,
    body: &str,
    date: Option<HttpDate>,
) -> Result<(), AllocError>
    ensures { OnOk result (text.new.items ≡ text.old.items ++ head_of wanted body.now date) }
{
    push_status(text, wanted)?;
    push_kind(text, wanted)?;
    push_further(text, wanted)?;
    push_length(text, body)?;
    push_date(text, date)?;
    push_head_end(text)?;
    Ok(())
}

// Adds the head of the events.
fn push_events_head(text: &mut Vec<u8>) -> Result<(), AllocError>
    ensures { OnOk result (text.new.items ≡ text.old.items ++ events_head) }
{
    push_head_line(text, "HTTP/1.1 200 OK")?;
    push_head_line(text, "Content-Type: text/event-stream; charset=utf-8")?;
    push_head_end(text)?;
    Ok(())
}

/// Adds what a browser is answered (RFC 9110, RFC 9112; this project's profile): the page, the head of
/// the events, or a refusal in words. That is 404 for another path, 405 for another method than `GET` and `HEAD`, 421
/// for what is asked of another host or by a page of another site, 400 for what is no request, and 503 where all places
/// are taken. `HEAD` is answered the head that `GET` is, and nothing behind it. The date is that of the answer,
/// where it is known; the head of the events has none. `Err` only where memory was refused.
pub fn push_answer(
    text: &mut Vec<u8>,
    request: BrowserRequest,
    page: &str,
    date: Option<HttpDate>,
) -> Result<(), AllocError>
    ensures { OnOk result (text.new.items ≡ text.old.items ++ answer_text request page.now date) }
{
    if let Wanted::Events(_) = request.wanted {
        return push_events_head(text);
    }
    let body = body_of(request.wanted, page);
    push_head(text, request.wanted, body, date)?;
    if request.is_head {
        return Ok(());
    }
    push_words(text, body)?;
    Ok(())
}
