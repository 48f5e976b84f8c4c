//! Members of objects.
ghost use Rattle.std.specs.Prelude.{◌≡◌, ◌++◌, ◌∷◌, [], IsTrue, OnOk};
ghost use Rattle.std.specs.List.{list_all};
ghost use Rattle.json.specs.Run.{is_plain};
ghost use Rattle.json.specs.Token.{string};
ghost use Rattle.acdm_record.specs.Fields.{is_text};
ghost use Rattle.acdm_feed.specs.Lineviews.{is_key, name_in};
ghost use Rattle.acdm_feed.specs.Names.{number_member, text_member, time_member};

use crate::line::{FeedLine, is_plain};
use std::alloc::AllocError;

// The key of this name as it stands in a line, with its quotes and its colon.
macro_rules! key {
    ($name:literal) => {
        concat!("\"", $name, "\":")
    };
}

pub(crate) use key;

// Adds a member with a number.
#[inline(always)]
#[tactic(auto, unfolding(crate::specs::Names::number_member))]
pub(crate) fn push_number(line: &mut FeedLine, key: &str, number: u64) -> Result<(), AllocError>
    requires { IsTrue (is_key key.now) }
    ensures before { line.new.before ≡ line.old.before }
    ensures adds { OnOk result (line.new.tokens
        ≡ line.old.tokens ++ number_member (name_in key.now) number) }
{
    line.key(key)?;
    line.u64(number)
}

// Adds a member with a text.
#[inline(always)]
#[tactic(auto, unfolding(crate::specs::Names::text_member))]
pub(crate) fn push_text(line: &mut FeedLine, key: &str, text: &str) -> Result<(), AllocError>
    requires { IsTrue (is_key key.now) }
    ensures before { line.new.before ≡ line.old.before }
    ensures adds { OnOk result (line.new.tokens
        ≡ line.old.tokens ++ text_member (name_in key.now) text.now) }
{
    line.key(key)?;
    line.string(text)
}

// Adds a member with a word of which no byte needs an escape.
#[inline(always)]
#[tactic(auto, unfolding(crate::specs::Names::text_member))]
pub(crate) fn push_word(line: &mut FeedLine, key: &str, word: &str) -> Result<(), AllocError>
    requires key { IsTrue (is_key key.now) }
    requires word { IsTrue (list_all is_plain word.now) }
    ensures before { line.new.before ≡ line.old.before }
    ensures adds { OnOk result (line.new.tokens
        ≡ line.old.tokens ++ text_member (name_in key.now) word.now) }
{
    line.key(key)?;
    line.plain(word.as_bytes())
}

// A text of printable bytes, which are ASCII.
fn printable(bytes: &[u8]) -> &str
    requires { IsTrue (is_text bytes.now) }
    ensures { result.now ≡ bytes.now }
{
    let Ok(text) = str::from_utf8(bytes) else {
        unreachable!();
    };
    text
}

// Adds a text of printable bytes.
fn push_bytes(line: &mut FeedLine, text: &[u8]) -> Result<(), AllocError>
    requires { IsTrue (is_text text.now) }
    ensures before { line.new.before ≡ line.old.before }
    ensures adds { OnOk result (line.new.tokens ≡ line.old.tokens ++ string text.now ∷ []) }
{
    if is_plain(text) {
        return line.plain(text);
    }
    push_escaped(line, text)
}

// The same where a byte needs an escape.
#[cold]
#[inline(never)]
fn push_escaped(line: &mut FeedLine, text: &[u8]) -> Result<(), AllocError>
    requires { IsTrue (is_text text.now) }
    ensures before { line.new.before ≡ line.old.before }
    ensures adds { OnOk result (line.new.tokens ≡ line.old.tokens ++ string text.now ∷ []) }
{
    line.string(printable(text))
}

// Adds a member with a text of printable bytes.
#[inline(always)]
#[tactic(auto, unfolding(crate::specs::Names::text_member))]
pub(crate) fn push_printable(line: &mut FeedLine, key: &str, text: &[u8]) -> Result<(), AllocError>
    requires key { IsTrue (is_key key.now) }
    requires text { IsTrue (is_text text.now) }
    ensures before { line.new.before ≡ line.old.before }
    ensures adds { OnOk result (line.new.tokens
        ≡ line.old.tokens ++ text_member (name_in key.now) text.now) }
{
    line.key(key)?;
    push_bytes(line, text)
}

// Adds a member with a minute since 1970-01-01T00:00Z, of which 0 is none.
#[inline(always)]
#[tactic(auto, unfolding(crate::specs::Names::time_member))]
pub(crate) fn push_time(line: &mut FeedLine, key: &str, time: u32) -> Result<(), AllocError>
    requires { IsTrue (is_key key.now) }
    ensures before { line.new.before ≡ line.old.before }
    ensures adds { OnOk result (line.new.tokens
        ≡ line.old.tokens ++ time_member (name_in key.now) time) }
{
    line.key(key)?;
    if time == 0 {
        return line.null();
    }
    line.instant(time)
}
