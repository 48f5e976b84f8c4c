//! The record itself.
ghost use Rattle.std.specs.Prelude.{◌≡◌, ◌<◌, ◌≤◌, ◌^◌, ◌↔◌, length, IsTrue, IsOk, IfOk, IfErr};
ghost use Rattle.std.specs.Prelude.{Some};
ghost use Rattle.std.specs.Str.{bytes_eq};
ghost use Rattle.acdm_record.specs.Place.{width_of, text_width_of};
ghost use Rattle.acdm_record.specs.declared.field.Field.TheVariants.{Layout};
ghost use Rattle.acdm_record.specs.Fields.{fields_at, number_of, set_number, text_of, set_text};
ghost use Rattle.acdm_record.specs.Fields.{is_text, bytes_of, length_of, new_record, is_allowed};
ghost use Rattle.acdm_record.specs.Fields.{migrated};
ghost use Rattle.acdm_record.specs.Faults.{AreOfRecord, first_fault};

use crate::fault::{RecordError, fault_of, has_length};
use crate::field::{Field, TextField};
use crate::part::{before_zero, in_range, number_in, text_number, text_part, write_padded};
use byteorder::{ByteOrder, LittleEndian};
use std::marker::Model;

/// A flight's record. It takes 160 bytes, of which layout 1 has 128.
#[derive(Drop)]
pub struct Record {
    bytes: [u8; 160],
}

impl Model for Record {
    ghost use Rattle.acdm_record.specs.Fields.{Fields, fields_at, IsRecord};

    ghost Value = { Fields };

    ghost view = { λ r. fields_at r.bytes };

    ghost invariant = { λ r. IsRecord r.bytes };
}

impl Record {
    /// The number under a name.
    pub fn get(&self, field: Field) -> u64
        ensures value { result ≡ number_of self.now field }
        ensures fits { result < 256 ^ width_of field }
        ensures allowed { IsTrue (is_allowed (number_of self.now Layout) field result) }
    {
        number_in(&self.bytes, field)
    }

    /// Puts a number under a name, and leaves every other name as it is.
    ///
    /// The number fits the bytes of its field. The layout stays what it is, the reached word has no
    /// bit above 16, the alert word has neither bit 0 nor bit 6, and in layout 1 the times of
    /// de-icing stay 0.
    pub fn set(&mut self, field: Field, value: u64)
        requires fits { value < 256 ^ width_of field }
        requires allowed { IsTrue (is_allowed (number_of self.old Layout) field value) }
        ensures { self.new ≡ set_number self.old field value }
    {
        let (offset, width) = field.place();
        LittleEndian::write_uint(&mut self.bytes[offset..offset + width], value, width);
    }

    /// The text under a name, without the zeros behind it.
    pub fn text(&self, field: TextField) -> &[u8]
        ensures value { result.now ≡ text_of self.now field }
        ensures printable { IsTrue (is_text result.now) }
        ensures short { length result.now ≤ text_width_of field }
    {
        before_zero(text_part(&self.bytes, field))
    }

    /// Whether the texts under two names are the same.
    pub fn has_same_text(&self, one: TextField, other: TextField) -> bool
        ensures { result ≡ bytes_eq (text_of self.now one) (text_of self.now other) }
    {
        if one.place().1 != other.place().1 {
            return self.text(one) == self.text(other);
        }
        in_range(&self.bytes);
        text_number(&self.bytes, one) == text_number(&self.bytes, other)
    }

    /// Puts a text under a name, and leaves every other name as it is.
    ///
    /// The text has at most as many bytes as its field, each from 0x21 to 0x7E; it may be empty.
    pub fn set_text(&mut self, field: TextField, text: &[u8])
        requires printable { IsTrue (is_text text.now) }
        requires short { length text.now ≤ text_width_of field }
        ensures { self.new ≡ set_text self.old field text.now }
    {
        let (offset, width) = field.place();
        write_padded(&mut self.bytes[offset..offset + width], text);
    }

    /// Another record with the same bytes.
    pub fn copy(&self) -> Record
        ensures { result ≡ self.now }
    {
        Record { bytes: self.bytes }
    }

    /// Brings a record of layout 1 to layout 2, in which its times of de-icing are 0. Every other
    /// name keeps its value.
    pub fn migrate(&mut self)
        requires { length_of self.old ≡ 128 }
        ensures { self.new ≡ migrated self.old }
    {
        let (offset, width) = Field::Layout.place();
        LittleEndian::write_uint(&mut self.bytes[offset..offset + width], 2, width);
    }

    /// The bytes of the record: 128 in layout 1, 160 in layout 2.
    pub fn bytes(&self) -> &[u8]
        ensures layout { result.now ≡ bytes_of self.now }
        ensures long { length result.now ≡ length_of self.now }
        ensures few { length result.now ≤ 160 }
        ensures of_record { AreOfRecord result.now }
    {
        in_range(&self.bytes);
        if self.get(Field::Layout) == 2 {
            &self.bytes
        } else {
            &self.bytes[..128]
        }
    }

    /// The record that has these bytes, or what is first wrong with them: their number, the layout,
    /// a text, a bit of the reached or alert word, or a byte behind the times of de-icing (this
    /// project's profile).
    pub fn from_bytes(bytes: &[u8]) -> Result<Record, RecordError>
        ensures fields { IfOk result (λ r. r ≡ fields_at bytes.now) }
        ensures same { IfOk result (λ r. bytes_of r ≡ bytes.now) }
        ensures exactly { IsOk result ↔ AreOfRecord bytes.now }
        ensures refused { IfErr result (λ e. first_fault bytes.now ≡ Some e) }
    {
        if !has_length(bytes.len()) {
            return Err(RecordError::WrongLength);
        }
        let mut kept = [0; 160];
        write_padded(&mut kept, bytes);
        match fault_of(&kept, bytes.len()) {
            Some(fault) => Err(fault),
            None => Ok(Record { bytes: kept }),
        }
    }

    /// A new record: the flight number, layout 1, and nothing else.
    pub fn new(flight: u64) -> Self
        ensures { result ≡ new_record flight }
    {
        let mut bytes = [0; 160];
        bytes[62] = 1;
        let mut record = Record { bytes };
        record.set(Field::Flight, flight);
        record
    }
}
