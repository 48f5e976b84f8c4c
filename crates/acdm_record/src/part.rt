//! The bytes at a field's place.

ghost use Rattle.std.specs.Prelude.{◌≡◌, ◌<◌, ◌≤◌, ◌^◌, ◌==◌, length, ℕ, slice_index};
ghost use Rattle.std.specs.List.{before_first, position_or_len};
ghost use Rattle.byteorder.specs.Endian.{little_number};
ghost use Rattle.acdm_record.specs.Place.{width_of, text_offset_of, text_width_of};
ghost use Rattle.acdm_record.specs.Fields.{part, number_at, padded};

use crate::field::{Field, TextField};
use byteorder::{ByteOrder, LittleEndian};

/// The number at a field's place.
pub(crate) fn number_in(bytes: &[u8; 160], field: Field) -> u64
    ensures value { result ≡ number_at bytes.now field }
    ensures fits { result < 256 ^ width_of field }
{
    let (offset, width) = field.place();
    let bytes = &bytes[offset..offset + width];
    in_range(bytes);
    LittleEndian::read_uint(bytes, width)
}

/// All bytes at a text's place.
pub(crate) fn text_part(bytes: &[u8; 160], field: TextField) -> &[u8]
    ensures { result.now ≡ part (text_offset_of field) (text_width_of field) bytes.now }
{
    let (offset, width) = field.place();
    &bytes[offset..offset + width]
}

/// The bytes at a text's place as one number, by which two places of one width are compared.
pub(crate) fn text_number(bytes: &[u8; 160], field: TextField) -> u64
    ensures { result ≡ little_number (text_width_of field)
        (part (text_offset_of field) (text_width_of field) bytes.now) }
{
    let (offset, width) = field.place();
    let text = &bytes[offset..offset + width];
    in_range(text);
    LittleEndian::read_uint(text, width)
}

/// What stands before the first zero byte.
pub(crate) fn before_zero(part: &[u8]) -> &[u8]
    ensures { result.now ≡ before_first (λ b. b == 0) part.now }
{
    &part[..first_zero(part)]
}

/// The place of the first zero byte, or the length.
pub(crate) fn first_zero(part: &[u8]) -> usize
    ensures place { result ≡ position_or_len (λ b. b == 0) part.now }
    ensures inside { result ≤ length part.now }
{
    for (i, byte) in part.iter().enumerate() {
        if *byte == 0 {
            return i;
        }
    }
    part.len()
}

/// Writes a text, and zero bytes behind it.
pub(crate) fn write_padded(part: &mut [u8], text: &[u8])
    requires { length text.now ≤ length part.old }
    ensures { part.new ≡ padded (length part.old) text.now }
{
    part.fill(0);
    part[..text.len()].copy_from_slice(text);
}

// Bytes are below 256, which a proof is told of a slice and not of an array behind a reference.
pub(crate) fn in_range(bytes: &[u8])
    ensures { (i : ℕ) → slice_index bytes.now i < 256 }
{}
