//! What came of the lines of a session, counted.
ghost use Rattle.std.specs.Prelude.{◌≡◌, ◌≤◌, ◌<◌, ◌++◌, IfOk, OnOk, length, take, string_bytes, vec_capacity};
ghost use Rattle.acdm_partners.specs.Came.{Counts, CountsOne, bad_members, by_code, count_text, counts_text, hex_digit};
ghost use Rattle.acdm_partners.specs.Came.{is_still_first, json_byte, json_text, last_text, no_lines};

use std::alloc::{AllocError, Global};
use std::marker::Model;

/// How many codes there are, from 0: those of refusals and of bad lines are below.
const CODES: usize = 600;

/// How many bytes of a bad line are held.
const LONGEST: usize = 200;

/// What came of a line: an entry, which was refused by a code or was not, or none, by a code.
#[derive(Clone, Copy, Debug, PartialEq, Eq)]
pub enum LineOutcome {
    Entered,
    Refused(u16),
    Bad(u16),
}

/// What came of the lines of a session so far, and the first bytes of its last bad one.
#[derive(Drop)]
pub(crate) struct SessionCounts {
    entries: u64,
    refused: [u64; CODES],
    bad: [u64; CODES],
    bad_lines: u64,
    last_code: u16,
    last_line: Vec<u8>,
    ghost room: { 200 ≤ vec_capacity last_line },
}

impl Model for SessionCounts {
    ghost use Rattle.acdm_partners.specs.Came.{CountsView};

    ghost Value = { CountsView };

    ghost view = { λ c. record {
      entries = c.entries;
      refused = c.refused;
      bad = c.bad;
      bad_lines = c.bad_lines;
      last_code = c.last_code;
      last_line = c.last_line.items;
    } };
}

// The first bytes of a line.
#[tactic(auto, using(crate::proofs::Came::first_bytes))]
fn first_bytes(line: &[u8]) -> &[u8]
    ensures bytes { result.now ≡ take 200 line.now }
    ensures bound { length result.now ≤ 200 }
{
    &line[..LONGEST.min(line.len())]
}

// Counts one more by a code.
fn count_one(counts: &mut [u64; CODES], code: u16)
    ensures { CountsOne code counts.old counts.new }
{
    let code = usize::from(code);
    if code < CODES {
        counts[code] = counts[code].saturating_add(1);
    }
}

// Adds how many there are by a code, where there is one, and says whether none was told by now.
fn add_count(text: &mut String, is_first: bool, code: u64, count: u64) -> Result<bool, AllocError>
    ensures text { OnOk result (string_bytes text.new ≡ string_bytes text.old ++ count_text is_first code count) }
    ensures first { IfOk result (λ still. still ≡ is_still_first is_first count) }
{
    if count == 0 {
        return Ok(is_first);
    }
    if !is_first {
        text.push_str(",")?;
    }
    write!(text, "{code}:{count}")?;
    Ok(false)
}

// Adds the counts by their codes: `CODE:COUNT`, a comma between two, or `-` where there is none.
fn add_by_code(text: &mut String, counts: &[u64]) -> Result<(), AllocError>
    ensures { OnOk result (string_bytes text.new ≡ string_bytes text.old ++ by_code counts.now) }
{
    let mut code = 0u64;
    let mut is_first = true;
    for count in counts {
        is_first = add_count(text, is_first, code, *count)?;
        code = code.saturating_add(1);
    }
    if is_first {
        text.push_str("-")?;
    }
    Ok(())
}

// A hexadecimal digit.
fn hex_digit(number: u8) -> u8
    requires { number < 16 }
    ensures digit { result ≡ hex_digit number }
    ensures ascii { result < 128 }
{
    if number < 10 {
        b'0' + number
    } else {
        b'a' + (number - 10)
    }
}

// Adds a byte of a text of JSON, as the character of its number.
fn add_json_byte(text: &mut String, byte: u8) -> Result<(), AllocError>
    ensures { OnOk result (string_bytes text.new ≡ string_bytes text.old ++ json_byte byte) }
{
    if byte == b'"' {
        return text.push_str("\\\"");
    }
    if byte == b'\\' {
        return text.push_str("\\\\");
    }
    if 32 <= byte && byte <= 126 {
        return text.push(char::from(byte));
    }
    text.push_str("\\u00")?;
    text.push(char::from(hex_digit(byte / 16)))?;
    text.push(char::from(hex_digit(byte % 16)))
}

/// Adds bytes as a text of JSON in ASCII, in which each byte is the character of its number.
pub(crate) fn add_json(text: &mut String, bytes: &[u8]) -> Result<(), AllocError>
    ensures { OnOk result (string_bytes text.new ≡ string_bytes text.old ++ json_text bytes.now) }
{
    text.push_str("\"")?;
    for byte in bytes {
        add_json_byte(text, *byte)?;
    }
    text.push_str("\"")
}

impl SessionCounts {
    /// No line came. `Err` only where memory was refused.
    pub(crate) fn new(alloc: Global) -> Result<SessionCounts, AllocError>
        ensures { IfOk result (λ counts. counts ≡ no_lines) }
    {
        Ok(SessionCounts {
            entries: 0,
            refused: [0; CODES],
            bad: [0; CODES],
            bad_lines: 0,
            last_code: 0,
            last_line: Vec::with_capacity(alloc, LONGEST)?,
        })
    }

    /// Counts a line of which this came.
    pub(crate) fn count(&mut self, outcome: LineOutcome, line: &[u8])
        ensures { Counts outcome line.now self.old self.new }
    {
        match outcome {
            LineOutcome::Entered => self.entries = self.entries.saturating_add(1),
            LineOutcome::Refused(code) => {
                self.entries = self.entries.saturating_add(1);
                count_one(&mut self.refused, code);
            }
            LineOutcome::Bad(code) => {
                count_one(&mut self.bad, code);
                self.bad_lines = self.bad_lines.saturating_add(1);
                self.last_code = code;
                self.hold(line);
            }
        }
    }

    // Holds the first bytes of a line in place of those that are held.
    fn hold(&mut self, line: &[u8])
        ensures { self.new ≡ record self.old { last_line = take 200 line.now } }
    {
        self.last_line.clear();
        match self.last_line.extend_from_slice(first_bytes(line)) {
            Ok(()) => {}
            Err(_) => unreachable!(),
        }
    }

    /// How many lines were bad.
    pub(crate) fn bad_lines(&self) -> u64
        ensures { result ≡ self.now.bad_lines }
    {
        self.bad_lines
    }

    /// Adds the code of the last bad line and its first bytes, as two members of an object of JSON; 0 and nothing
    /// where none was bad.
    pub(crate) fn add_bad(&self, text: &mut String) -> Result<(), AllocError>
        ensures { OnOk result (string_bytes text.new ≡ string_bytes text.old ++ bad_members self.now) }
    {
        let code = self.last_code;
        write!(text, "\"code\":{code},\"line\":")?;
        add_json(text, self.last_line.as_slice())
    }

    // Adds the first bytes of the last bad line, where one was bad.
    fn add_last(&self, text: &mut String) -> Result<(), AllocError>
        ensures { OnOk result (string_bytes text.new ≡ string_bytes text.old ++ last_text self.now) }
    {
        if self.bad_lines == 0 {
            return Ok(());
        }
        text.push_str(" last ")?;
        add_json(text, self.last_line.as_slice())
    }

    /// Adds what is told of it, each word behind a blank: how many lines came, how many made an entry, how many were
    /// refused and how many bad, by their codes, and the first bytes of the last bad one, as a text of JSON.
    pub(crate) fn add_text(&self, text: &mut String) -> Result<(), AllocError>
        ensures { OnOk result (string_bytes text.new ≡ string_bytes text.old ++ counts_text self.now) }
    {
        let entries = self.entries;
        let lines = entries.saturating_add(self.bad_lines);
        write!(text, " lines {lines} entries {entries} refused ")?;
        add_by_code(text, &self.refused)?;
        text.push_str(" bad ")?;
        add_by_code(text, &self.bad)?;
        self.add_last(text)
    }
}
