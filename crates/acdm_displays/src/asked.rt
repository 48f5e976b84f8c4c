//! What a display asks for first.
ghost use Rattle.std.specs.Prelude.{◌≡◌, ◌==◌, IfSome, if◌then◌else◌};
ghost use Rattle.acdm_displays.specs.Asked.{IsAskedBy, Names, NamesFollower, feed_start};
ghost use Rattle.acdm_displays.specs.declared.asked.DisplayRequest.TheVariants.{Silence, Unknown};

use acdm_keeping::term_text;
use acdm_lines::{is_passing, number_in};
use std::alloc::Global;
use std::io::{Read, Write};

/// How many bytes the first line of a display has at most.
const LONGEST_FIRST: usize = 32;

/// How often nothing comes in its time, until no first line is waited for: a quarter of a second.
const MOST_WAITS: u64 = 10;

/// Where the feed of a display begins.
#[derive(Clone, Copy, Debug, PartialEq, Eq)]
pub enum Start {
    /// With the entry of this number, from 0.
    Entry(u64),
    /// With the line of the board after all entries in sight.
    Board,
}

/// What a board asks for that follows.
#[derive(Clone, Copy, Debug, PartialEq, Eq)]
pub struct FollowerStart {
    /// The number of the entry that comes next there, from 0.
    pub from: u64,
    /// Its name.
    pub name: u64,
}

/// What a display has asked for first.
#[derive(Clone, Copy, Debug, PartialEq, Eq)]
pub(crate) enum DisplayRequest {
    /// It has sent nothing for a quarter of a second, or has ended at once.
    Silence,
    /// A line that asks for this was sent.
    For(Start),
    /// A board that follows has sent its line.
    Follow(FollowerStart),
    /// A board has asked for the term of this one, ahead of what else it asks for.
    Term,
    /// Something else was sent.
    Unknown,
}

/// What a first line asks for, without its line feed: `from N`, of a decimal number below 2^64 with no sign
/// and no zero before it, or `board`. No other line asks for anything.
pub fn start_named(line: &[u8]) -> Option<Start>
    ensures { IfSome result (Names line.now) }
{
    let Ok(line) = str::from_utf8(line) else {
        return None;
    };
    if line == "board" {
        return Some(Start::Board);
    }
    let digits = line.strip_prefix("from ")?;
    let number = number_in(digits.as_bytes())?;
    Some(Start::Entry(number))
}

/// What a first line of a board asks for that follows, without its line feed: `from N as M`, of two decimal numbers below
/// 2^64 with no sign and no zero before them, the second its name. No other line asks so.
pub fn follower_named(line: &[u8]) -> Option<FollowerStart>
    ensures { IfSome result (NamesFollower line.now) }
{
    let Ok(line) = str::from_utf8(line) else {
        return None;
    };
    let rest = line.strip_prefix("from ")?;
    let (digits, rest) = rest.split_once(' ')?;
    let name = rest.strip_prefix("as ")?;
    Some(FollowerStart {
        from: number_in(digits.as_bytes())?,
        name: number_in(name.as_bytes())?,
    })
}

/// Where the feed begins for a display that has asked so, if it is sent to that one: with the first entry where
/// nothing was sent.
pub(crate) fn feed_start(asked: DisplayRequest) -> Option<Start>
    ensures { result ≡ feed_start asked }
{
    match asked {
        DisplayRequest::Silence => Some(Start::Entry(0)),
        DisplayRequest::For(start) => Some(start),
        DisplayRequest::Follow(_) | DisplayRequest::Term | DisplayRequest::Unknown => None,
    }
}

/// What a display asks for by its first line, as `follower_named` and `start_named` say, or by the line `term`. A line that is too long is unknown, and one that
/// does not end within a quarter of a second.
pub(crate) fn first_asked<R: Read>(reader: &mut R) -> DisplayRequest {
    let mut line = [0u8; LONGEST_FIRST];
    let mut count = 0;
    let mut waits = 0u64;
    for _ in 0..LONGEST_FIRST as u64 + MOST_WAITS + 2 {
        let mut heard = [0u8; 1];
        match reader.read(&mut heard) {
            Ok(0) => return at_rest(count),
            Ok(_) => {}
            Err(error) if is_passing(&error) => {
                waits = waits.saturating_add(1);
                if waits >= MOST_WAITS {
                    return at_rest(count);
                }
                continue;
            }
            Err(_) => return DisplayRequest::Unknown,
        }
        if heard[0] == b'\n' {
            return by_line(&line[..count]);
        }
        if count >= LONGEST_FIRST {
            return DisplayRequest::Unknown;
        }
        line[count] = heard[0];
        count += 1;
    }
    DisplayRequest::Unknown
}

/// What a display asks for that is not the term of this board. Where it asks for that first, this term is sent, and its next
/// line says what else it asks for: none is as an unknown one then.
pub(crate) fn asked_with_term<S: Read + Write>(
    alloc: Global,
    term: u64,
    stream: &mut S,
) -> DisplayRequest {
    match first_asked(stream) {
        DisplayRequest::Term => {}
        asked => return asked,
    }
    let Ok(text) = term_text(alloc, term) else {
        return DisplayRequest::Unknown;
    };
    if stream.write_all(text.as_slice()).is_err() {
        return DisplayRequest::Unknown;
    }
    match first_asked(stream) {
        DisplayRequest::Silence | DisplayRequest::Term => DisplayRequest::Unknown,
        asked => asked,
    }
}

// What is asked for by a line.
fn by_line(line: &[u8]) -> DisplayRequest
    ensures { IsAskedBy line.now result }
{
    if line == b"term".as_slice() {
        return DisplayRequest::Term;
    }
    if let Some(start) = follower_named(line) {
        return DisplayRequest::Follow(start);
    }
    match start_named(line) {
        Some(start) => DisplayRequest::For(start),
        None => DisplayRequest::Unknown,
    }
}

// What is asked for where no line feed came behind so many bytes.
fn at_rest(count: usize) -> DisplayRequest
    ensures { result ≡ (if count == 0 then Silence else Unknown) }
{
    if count == 0 {
        DisplayRequest::Silence
    } else {
        DisplayRequest::Unknown
    }
}
