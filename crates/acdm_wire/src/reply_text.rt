//! The texts of replies.
ghost use Rattle.std.specs.Prelude.{◌≡◌, ◌+◌, ◌≤◌, ◌++◌, length};
ghost use Rattle.hex.specs.Hex.{encode_lower};
ghost use Rattle.acdm_record.specs.Fields.{bytes_of};
ghost use Rattle.acdm_step.specs.declared.outcome.Outcome.TheVariants.{Done, Refused, Shown};
ghost use Rattle.acdm_wire.specs.declared.text.TheConstants.{LONGEST_TEXT};
ghost use Rattle.acdm_wire.specs.Replies.{list_head, entry_text, bad_text};

use crate::fault::Bad;
use crate::text::TextBuffer;
use acdm_milestones::Refusal;
use acdm_record::Record;

impl TextBuffer {
    fn push_record(&mut self, record: &Record)
        requires { length self.old + 320 ≤ LONGEST_TEXT }
        ensures text { self.new ≡ self.old ++ encode_lower (bytes_of «record».now) }
        ensures short { length self.new ≤ length self.old + 320 }
    {
        let bytes = record.bytes();
        let mut digits = [0; 320];
        let used = &mut digits[..2 * bytes.len()];
        if hex::encode_to_slice(bytes, used).is_err() {
            unreachable!();
        }
        self.push(used);
    }
}

pub(crate) fn done(number: u64) -> TextBuffer
    ensures { result ≡ entry_text number Done }
{
    let mut text = TextBuffer::new();
    text.push(b"ok ");
    text.push_number(number);
    text.push(b"\n");
    text
}

pub(crate) fn refused(number: u64, refusal: Refusal) -> TextBuffer
    ensures { result ≡ entry_text number (Refused refusal) }
{
    let mut text = TextBuffer::new();
    text.push(b"no ");
    text.push_number(number);
    text.push(b" ");
    text.push_number(u64::from(refusal.code()));
    text.push(b"\n");
    text
}

pub(crate) fn shown(number: u64, record: &Record) -> TextBuffer
    ensures { result ≡ entry_text number (Shown «record».now) }
{
    let mut text = TextBuffer::new();
    text.push(b"rec ");
    text.push_number(number);
    text.push(b" ");
    text.push_record(record);
    text.push(b"\n");
    text
}

/// What stands before a list: a word of at most 8 letters, and the entry's number.
pub(crate) fn head(word: &str, number: u64) -> TextBuffer
    requires { length word.now ≤ 8 }
    ensures { result ≡ list_head word.now number }
{
    let mut text = TextBuffer::new();
    text.push(word.as_bytes());
    text.push(b" ");
    text.push_number(number);
    text.push(b" ");
    text
}

// Why a program is not loaded, with the slot of its first fault.
fn refused_program(code: u16, slot: usize) -> TextBuffer
    ensures { result ≡ bad_text (Bad.Program code slot) }
{
    let mut text = TextBuffer::new();
    text.push(b"bad ");
    text.push_number(u64::from(code));
    text.push(b" ");
    text.push_number(slot as u64);
    text.push(b"\n");
    text
}

pub(crate) fn rejected(bad: Bad) -> TextBuffer
    ensures { result ≡ bad_text bad }
{
    if let Bad::Program { code, slot } = bad {
        return refused_program(code, slot);
    }
    let mut text = TextBuffer::new();
    text.push(b"bad ");
    text.push_number(u64::from(bad.code()));
    text.push(b"\n");
    text
}
