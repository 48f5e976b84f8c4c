//! Why bytes are not those of a record.

ghost use Rattle.std.specs.Prelude.{◌≡◌, ◌&&◌, ◌||◌, ◌==◌, IsTrue, drop};
ghost use Rattle.std.specs.List.{list_all};
ghost use Rattle.acdm_record.specs.declared.field.Field.TheVariants.{Reached, Alerts, Layout};
ghost use Rattle.acdm_record.specs.Place.{text_offset_of, text_width_of, text_fields};
ghost use Rattle.acdm_record.specs.Fields.{part, number_at, are_zeros, is_reached_word};
ghost use Rattle.acdm_record.specs.Fields.{is_alert_word};
ghost use Rattle.acdm_record.specs.Faults.{is_filled, is_layout_of, first_fault_in, code_of};

use crate::field::{Field, TextField};
use crate::part::{first_zero, number_in, text_part};
use crate::text::is_printable;
use thiserror::Error;

/// What is wrong with bytes that are no record's, in the order in which it is tested.
#[derive(Clone, Copy, PartialEq, Eq, Debug, Error)]
pub enum RecordError {
    /// They are neither 128 bytes nor 160.
    #[error("a record has 128 or 160 bytes")]
    WrongLength,
    /// The layout, byte 62, is not that of so many bytes: 1 of 128, 2 of 160.
    #[error("the layout is not 1 in 128 bytes, or 2 in 160")]
    UnknownLayout,
    /// A text is not left-justified, or has a byte outside 0x21 to 0x7E before the zeros that fill
    /// it.
    #[error("a text is not printable bytes filled with zeros")]
    MalformedText,
    /// The reached word has a bit above 16, or the alert word has bit 0 or 6.
    #[error("a reached or alert bit that has no meaning is set")]
    ReservedBits,
    /// One of the last 16 of 160 bytes is not zero.
    #[error("one of the last 16 bytes is not zero")]
    ReservedBytes,
}

impl RecordError {
    /// The number of the error, from 1 to 5.
    pub fn code(self) -> u16
        ensures { result ≡ code_of self }
    {
        match self {
            RecordError::WrongLength => 1,
            RecordError::UnknownLayout => 2,
            RecordError::MalformedText => 3,
            RecordError::ReservedBits => 4,
            RecordError::ReservedBytes => 5,
        }
    }
}

fn are_zeros(bytes: &[u8]) -> bool
    ensures { result ≡ are_zeros bytes.now }
{
    bytes.iter().all(|byte| *byte == 0)
}

fn is_filled(part: &[u8]) -> bool
    ensures { result ≡ is_filled part.now }
{
    let place = first_zero(part);
    is_printable(&part[..place]) && are_zeros(&part[place..])
}

fn has_texts(bytes: &[u8; 160]) -> bool
    ensures { result ≡ list_all (λ t. is_filled
        (part (text_offset_of t) (text_width_of t) bytes.now)) text_fields }
{
    TextField::ALL
        .iter()
        .all(|field| is_filled(text_part(bytes, *field)))
}

/// Whether a record has so many bytes in one of the layouts.
pub(crate) fn has_length(long: usize) -> bool
    ensures { result ≡ (long == 128 || long == 160) }
{
    long == 128 || long == 160
}

fn is_layout_of(long: usize, layout: u64) -> bool
    ensures { result ≡ is_layout_of long layout }
{
    match layout {
        1 => long == 128,
        2 => long == 160,
        _ => false,
    }
}

fn is_reached_word(word: u64) -> bool
    ensures { result ≡ is_reached_word word }
{
    word < 1 << 17
}

fn is_alert_word(word: u64) -> bool
    ensures { result ≡ is_alert_word word }
{
    word % 2 == 0 && word / 64 % 2 == 0
}

fn has_known_bits(bytes: &[u8; 160]) -> bool
    ensures { result ≡ (is_reached_word (number_at bytes.now Reached)
        && is_alert_word (number_at bytes.now Alerts)) }
{
    is_reached_word(number_in(bytes, Field::Reached))
        && is_alert_word(number_in(bytes, Field::Alerts))
}

fn has_spare(bytes: &[u8; 160]) -> bool
    ensures { result ≡ are_zeros (drop 144 bytes.now) }
{
    are_zeros(&bytes[144..])
}

/// The first fault of 128 or 160 bytes, if they are not those of a record; they are handed in with
/// zeros behind them.
#[tactic(auto, unfolding(crate::specs::Faults::first_fault_in))]
pub(crate) fn fault_of(bytes: &[u8; 160], long: usize) -> Option<RecordError>
    requires { IsTrue (long == 128 || long == 160) }
    ensures { result ≡ first_fault_in long bytes.now }
{
    if !is_layout_of(long, number_in(bytes, Field::Layout)) {
        return Some(RecordError::UnknownLayout);
    }
    if !has_texts(bytes) {
        return Some(RecordError::MalformedText);
    }
    if !has_known_bits(bytes) {
        return Some(RecordError::ReservedBits);
    }
    if !has_spare(bytes) {
        return Some(RecordError::ReservedBytes);
    }
    None
}
