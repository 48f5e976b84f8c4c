//! A line of JSON behind what stands in a text.
ghost use Rattle.std.specs.Prelude.{◌≡◌, ◌++◌, ◌∷◌, ◌<◌, ◌≤◌, ◌/◌, [], IsTrue, OnOk, OnErr, cond};
ghost use Rattle.std.specs.Bool.{OnTrue};
ghost use Rattle.std.specs.List.{list_all};
ghost use Rattle.std.specs.Fmt.{decimal};
ghost use Rattle.json.specs.Token.{begin_object, end_object, begin_array, end_array, key, string, number, null};
ghost use Rattle.json.specs.Print.{escape, print};
ghost use Rattle.json.specs.Run.{is_plain, is_stop};
ghost use Rattle.acdm_feed.specs.Minutes.{minute_text};
ghost use Rattle.acdm_feed.specs.Lineviews.{is_key, name_in};

use crate::day::{Day, rest_of};
use crate::minute::minute_text;
use crate::room::Room;
use itoa::Buffer;
use json::Writer;
use std::alloc::AllocError;
use std::marker::Model;

/// A line of JSON that is added to, token after token, behind what stood in a text before.
#[derive(Drop)]
pub(crate) struct FeedLine {
    out: Room,
    // How many bytes stood in the text before.
    kept: usize,
    // Whether a comma comes before the next token that begins a value or a member.
    after_value: bool,
    // The day of the last instant that was added.
    day: Day,
}

impl Model for FeedLine {
    ghost use Rattle.acdm_feed.specs.Lineviews.{LineView};

    ghost Value = { LineView };

    ghost use Rattle.acdm_feed.specs.Lines.{line_view, IsLine};

    ghost view = { line_view };

    ghost invariant = { IsLine };
}

impl FeedLine {
    /// Nothing is added to this text yet. The day is that of the instants that are to be added, most likely.
    pub(crate) fn new(text: Vec<u8>, day: Day) -> FeedLine
        ensures before { result.before ≡ text.items }
        ensures tokens { result.tokens ≡ [] }
    {
        let kept = text.len();
        FeedLine {
            out: Room::new(text),
            kept,
            after_value: false,
            day,
        }
    }

    /// Adds the beginning of an object.
    #[inline(always)]
    pub(crate) fn begin_object(&mut self) -> Result<(), AllocError>
        ensures before { self.new.before ≡ self.old.before }
        ensures adds { OnOk result (self.new.tokens ≡ self.old.tokens ++ begin_object ∷ []) }
    {
        self.out.add(self.after_value, b"{")?;
        self.after_value = false;
        Ok(())
    }

    /// Adds the end of an object.
    #[inline(always)]
    pub(crate) fn end_object(&mut self) -> Result<(), AllocError>
        ensures before { self.new.before ≡ self.old.before }
        ensures adds { OnOk result (self.new.tokens ≡ self.old.tokens ++ end_object ∷ []) }
    {
        self.out.add(false, b"}")?;
        self.after_value = true;
        Ok(())
    }

    /// Adds the beginning of an array.
    #[inline(always)]
    pub(crate) fn begin_array(&mut self) -> Result<(), AllocError>
        ensures before { self.new.before ≡ self.old.before }
        ensures adds { OnOk result (self.new.tokens ≡ self.old.tokens ++ begin_array ∷ []) }
    {
        self.out.add(self.after_value, b"[")?;
        self.after_value = false;
        Ok(())
    }

    /// Adds the end of an array.
    #[inline(always)]
    pub(crate) fn end_array(&mut self) -> Result<(), AllocError>
        ensures before { self.new.before ≡ self.old.before }
        ensures adds { OnOk result (self.new.tokens ≡ self.old.tokens ++ end_array ∷ []) }
    {
        self.out.add(false, b"]")?;
        self.after_value = true;
        Ok(())
    }

    /// Adds a key, which is handed over with its quotes and its colon.
    #[inline(always)]
    pub(crate) fn key(&mut self, quoted: &str) -> Result<(), AllocError>
        requires { IsTrue (is_key quoted.now) }
        ensures before { self.new.before ≡ self.old.before }
        ensures adds { OnOk result (self.new.tokens ≡ self.old.tokens ++ key (name_in quoted.now) ∷ []) }
    {
        self.out.add(self.after_value, quoted.as_bytes())?;
        self.after_value = false;
        Ok(())
    }

    /// Adds a null.
    #[inline(always)]
    pub(crate) fn null(&mut self) -> Result<(), AllocError>
        ensures before { self.new.before ≡ self.old.before }
        ensures adds { OnOk result (self.new.tokens ≡ self.old.tokens ++ null ∷ []) }
    {
        self.out.add(self.after_value, b"null")?;
        self.after_value = true;
        Ok(())
    }

    /// Adds a number.
    pub(crate) fn u64(&mut self, n: u64) -> Result<(), AllocError>
        ensures before { self.new.before ≡ self.old.before }
        ensures adds { OnOk result (self.new.tokens ≡ self.old.tokens ++ number (decimal n) ∷ []) }
    {
        add_number(&mut self.out, self.after_value, n)?;
        self.after_value = true;
        Ok(())
    }

    /// Adds a text of which no byte needs an escape.
    #[inline(always)]
    pub(crate) fn plain(&mut self, text: &[u8]) -> Result<(), AllocError>
        requires { IsTrue (list_all is_plain text.now) }
        ensures before { self.new.before ≡ self.old.before }
        ensures adds { OnOk result (self.new.tokens ≡ self.old.tokens ++ string text.now ∷ []) }
    {
        self.out.add_quoted(self.after_value, text)?;
        self.after_value = true;
        Ok(())
    }

    /// Adds a text.
    pub(crate) fn string(&mut self, text: &str) -> Result<(), AllocError>
        ensures before { self.new.before ≡ self.old.before }
        ensures adds { OnOk result (self.new.tokens ≡ self.old.tokens ++ string text.now ∷ []) }
    {
        add_string(&mut self.out, self.after_value, text)?;
        self.after_value = true;
        Ok(())
    }

    /// Adds a minute since 1970-01-01T00:00Z as the text of an instant.
    pub(crate) fn instant(&mut self, minute: u32) -> Result<(), AllocError>
        ensures before { self.new.before ≡ self.old.before }
        ensures adds { OnOk result (self.new.tokens
            ≡ self.old.tokens ++ string (minute_text minute) ∷ []) }
    {
        match self.day.turned(minute / 1_440) {
            Some(day) => self.instant_on(day, minute),
            None => self.late_instant(minute),
        }
    }

    // Adds an instant of a year that has not four digits.
    #[cold]
    #[inline(never)]
    fn late_instant(&mut self, minute: u32) -> Result<(), AllocError>
        ensures before { self.new.before ≡ self.old.before }
        ensures adds { OnOk result (self.new.tokens
            ≡ self.old.tokens ++ string (minute_text minute) ∷ []) }
    {
        self.string(minute_text(minute).as_str())
    }

    // Adds an instant of this day.
    #[inline(always)]
    fn instant_on(&mut self, day: Day, minute: u32) -> Result<(), AllocError>
        requires { day.number ≡ minute / 1440 }
        ensures before { self.new.before ≡ self.old.before }
        ensures adds { OnOk result (self.new.tokens
            ≡ self.old.tokens ++ string (minute_text minute) ∷ []) }
    {
        self.day = day;
        self.out
            .add_pair(self.after_value, &day.begin, &rest_of(minute % 1_440))?;
        self.after_value = true;
        Ok(())
    }

    /// Puts what stood in a text before back there, and this line with a line feed behind it. `Err` only where memory
    /// was refused; only what stood there before was put there then.
    pub(crate) fn end(self, text: &mut Vec<u8>) -> Result<(), AllocError>
        ensures ends { OnOk result (text.new.items ≡ self.before ++ (print self.tokens ++ 10 ∷ [])) }
        ensures refused { OnErr result (text.new.items ≡ self.before) }
    {
        let FeedLine { mut out, kept, .. } = self;
        match out.add(false, b"\n") {
            Ok(()) => {
                *text = out.whole();
                Ok(())
            }
            Err(refused) => {
                *text = out.first(kept);
                Err(refused)
            }
        }
    }

    /// Puts what stood in a text before back there.
    pub(crate) fn drop_into(self, text: &mut Vec<u8>)
        ensures { text.new.items ≡ self.before }
    {
        let FeedLine {
            out,
            kept: count,
            ..
        } = self;
        *text = out.first(count);
    }
}

// Adds the digits of a number.
#[inline(always)]
fn add_number(out: &mut Room, comma: bool, n: u64) -> Result<(), AllocError>
    ensures adds { OnOk result (out.new.items
        ≡ out.old.items ++ (cond comma (44 ∷ []) [] ++ decimal n)) }
    ensures refused { OnErr result (out.new.items ≡ out.old.items) }
{
    if n < 10 {
        return add_digit(out, comma, n as u8);
    }
    if n < 100 {
        return add_two(out, comma, n as u8);
    }
    let mut digits = Buffer::new();
    out.add(comma, digits.format(n).as_bytes())
}

#[inline(always)]
fn add_digit(out: &mut Room, comma: bool, n: u8) -> Result<(), AllocError>
    requires { n < 10 }
    ensures adds { OnOk result (out.new.items
        ≡ out.old.items ++ (cond comma (44 ∷ []) [] ++ decimal n)) }
    ensures refused { OnErr result (out.new.items ≡ out.old.items) }
{
    out.add(comma, &[b'0' + n])
}

#[inline(always)]
fn add_two(out: &mut Room, comma: bool, n: u8) -> Result<(), AllocError>
    requires { (10 ≤ n) × (n < 100) }
    ensures adds { OnOk result (out.new.items
        ≡ out.old.items ++ (cond comma (44 ∷ []) [] ++ decimal n)) }
    ensures refused { OnErr result (out.new.items ≡ out.old.items) }
{
    out.add(comma, &[b'0' + n / 10, b'0' + n % 10])
}

// Adds a text between quotes.
#[inline(always)]
fn add_string(out: &mut Room, comma: bool, text: &str) -> Result<(), AllocError>
    ensures adds { OnOk result (out.new.items
        ≡ out.old.items ++ (cond comma (44 ∷ []) [] ++ 34 ∷ (escape text.now ++ 34 ∷ []))) }
    ensures refused { OnErr result (out.new.items ≡ out.old.items) }
{
    if is_plain(text.as_bytes()) {
        return out.add_quoted(comma, text.as_bytes());
    }
    add_escaped(out, comma, text)
}

// Adds a text between quotes, with its escapes.
#[cold]
#[inline(never)]
fn add_escaped(out: &mut Room, comma: bool, text: &str) -> Result<(), AllocError>
    ensures adds { OnOk result (out.new.items
        ≡ out.old.items ++ (cond comma (44 ∷ []) [] ++ 34 ∷ (escape text.now ++ 34 ∷ []))) }
    ensures refused { OnErr result (out.new.items ≡ out.old.items) }
{
    let mut quoted = Writer::new(Vec::new(out.allocator()));
    quoted.string(text)?;
    let quoted = quoted.into_inner();
    out.add(comma, quoted.as_slice())
}

/// Whether no byte of a text needs an escape.
#[inline(always)]
pub(crate) fn is_plain(text: &[u8]) -> bool
    ensures { result ≡ list_all is_plain text.now }
{
    let mut rest = text;
    while let Some((byte, more)) = rest.split_first() {
        if is_stop(*byte) {
            return false;
        }
        rest = more;
    }
    true
}

#[inline(always)]
fn is_stop(byte: u8) -> bool
    ensures { result ≡ is_stop byte }
{
    byte == b'"' || byte == b'\\' || byte < 0x20
}
