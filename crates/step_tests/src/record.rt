//! A record's bytes against both layouts, and the texts that are taken.
ghost use Rattle.std.specs.Prelude.{◌<◌, ◌≤◌};

use crate::fixture::{holds, same_bytes, same_number};
use acdm_record::{Field, Record, RecordError, Text, TextField};
use std::mem::size_of;
use std::process::Abort;

#[test]
fn new_record_has_its_flight_and_layout_alone(rt: HostRuntime) {
    let record = Record::new(0x0102_0304_0506_0708);
    let mut expected = [0; 128];
    expected[..8].copy_from_slice(&[8, 7, 6, 5, 4, 3, 2, 1]);
    expected[62] = 1;
    has_bytes(&rt, &record, &expected);
}

// These bytes stand at this place of a record.
fn stands_at(rt: &impl Abort, record: &Record, place: u8, part: &[u8]) {
    let place = usize::from(place);
    let end = place + part.len();
    assert!(rt; end <= record.bytes().len());
    same_bytes(rt, &record.bytes()[place..end], part);
}

fn has_text(rt: &impl Abort, record: &Record, field: TextField, text: &str) {
    same_bytes(rt, record.text(field), text.as_bytes());
}

fn has_bytes(rt: &impl Abort, record: &Record, bytes: &[u8]) {
    same_bytes(rt, record.bytes(), bytes);
}

fn filled() -> Record {
    let mut record = Record::new(7);
    record.set_text(TextField::Callsign, b"DLH7");
    record.set_text(TextField::PlanDestination, b"EDDM");
    record.set(Field::Reached, 3);
    record.set(Field::Exit, 5);
    record.set(Field::Atot, 29_000_760);
    record
}

#[test]
fn fields_stand_at_their_places(rt: HostRuntime) {
    let record = filled();
    for (place, part) in [(8, "DLH7\0\0\0\0"), (44, "EDDM\x03\0\0\0"), (63, "\x05")] {
        stands_at(&rt, &record, place, part.as_bytes());
    }
    stands_at(&rt, &record, 124, &[56, 132, 186, 1]);
    has_text(&rt, &record, TextField::Callsign, "DLH7");
    holds(&rt, &record, Field::Atot, 29_000_760);
    holds(&rt, &record, Field::Tobt, 0);
    has_bytes(&rt, &record.copy(), record.bytes());
}

#[test]
fn texts_are_compared_without_their_zeros(rt: HostRuntime) {
    let mut record = Record::new(7);
    record.set_text(TextField::Callsign, b"A320");
    assert!(rt; !record.has_same_text(TextField::Callsign, TextField::PlanRegistration));
    record.set_text(TextField::PlanRegistration, b"A320");
    assert!(rt; record.has_same_text(TextField::Callsign, TextField::PlanRegistration));
    record.set_text(TextField::PlanType, b"A320");
    assert!(rt; record.has_same_text(TextField::Callsign, TextField::PlanType));
}

fn is_no_text(rt: &impl Abort, text: &str) {
    assert!(rt; Text::<4>::from_bytes(text.as_bytes()).is_none());
}

fn is_a_text(rt: &impl Abort, text: &str) {
    let kept = Text::<4>::from_bytes(text.as_bytes()).expect(rt, "a text");
    same_bytes(rt, kept.as_bytes(), text.as_bytes());
}

#[test]
fn texts_are_one_to_most_printable_bytes(rt: HostRuntime) {
    for text in ["", "A3200", "A 20", "A\x7f20"] {
        is_no_text(&rt, text);
    }
    for text in ["!~", "A320"] {
        is_a_text(&rt, text);
    }
}

#[test]
fn a_text_takes_as_many_bytes_as_it_may_have(rt: HostRuntime) {
    same_number(&rt, size_of::<Text<8>>() as u64, 8);
    same_number(&rt, size_of::<Text<4>>() as u64, 4);
}

// Flight 7, scheduled and planned: callsign DLH7, type A320, registration DAIBC, destination EDDM,
// SOBT and EOBT 29,000,760, MTTT 40, EXIT 5, EXOT 10, stand 12.
const PLANNED: &str =
    "0700000000000000444c4837000000004133323041333230444149424300000044414942430000004544444d4544444d030000000000000028000a000c0001053884ba013884ba01";

fn planned(rt: &impl Abort) -> [u8; 128] {
    let mut bytes = [0; 128];
    hex::decode_to_slice(PLANNED, &mut bytes[..72]).expect(rt, "bytes");
    bytes
}

fn is_refused(rt: &impl Abort, bytes: &[u8], error: RecordError, code: u64) {
    assert!(rt; Record::from_bytes(bytes).err() == Some(error));
    same_number(rt, u64::from(error.code()), code);
}

fn has_the_plan(rt: &impl Abort, record: &Record) {
    holds(rt, record, Field::Flight, 7);
    has_text(rt, record, TextField::ScheduledRegistration, "DAIBC");
    holds(rt, record, Field::Eobt, 29_000_760);
}

#[test]
fn bytes_of_a_record_are_read_and_given_back(rt: HostRuntime) {
    let bytes = planned(&rt);
    let record = Record::from_bytes(&bytes).expect(&rt, "a record");
    has_bytes(&rt, &record, &bytes);
    has_the_plan(&rt, &record);
}

// The same bytes but for one.
fn planned_but(rt: &impl Abort, place: usize, byte: u8) -> [u8; 128]
    requires { place < 128 }
{
    let mut bytes = planned(rt);
    bytes[place] = byte;
    bytes
}

fn malformed(rt: &impl Abort) -> [u8; 128] {
    let mut bytes = planned(rt);
    bytes[8..16].copy_from_slice(b"D\0L\0\0\0\0\0");
    bytes
}

// One byte less.
fn shorter(rt: &impl Abort) -> [u8; 127] {
    let mut bytes = [0; 127];
    hex::decode_to_slice(PLANNED, &mut bytes[..72]).expect(rt, "bytes");
    bytes
}

// The same flight in layout 2, with its de-icing expected from 29,000,580 on, and ended at
// 29,000,581.
const DEICED: &str =
    "0700000000000000444c4837000000004133323041333230444149424300000044414942430000004544444d4544444d030000000000000028000a000c0002053884ba013884ba0100000000000000000000000000000000000000000000000000000000000000000000000000000000000000000000000000000000000000008483ba0100000000000000008583ba0100000000000000000000000000000000";

fn deiced(rt: &impl Abort) -> [u8; 160] {
    let mut bytes = [0; 160];
    hex::decode_to_slice(DEICED, &mut bytes).expect(rt, "bytes");
    bytes
}

// The same bytes but for one.
fn deiced_but(rt: &impl Abort, place: usize, byte: u8) -> [u8; 160]
    requires { place < 160 }
{
    let mut bytes = deiced(rt);
    bytes[place] = byte;
    bytes
}

// So many of these bytes, from the first on, are refused.
fn is_refused_cut(rt: &impl Abort, length: usize, error: RecordError, code: u64)
    requires { length ≤ 160 }
{
    let bytes = deiced(rt);
    is_refused(rt, &bytes[..length], error, code);
}

// They are a record's.
fn is_read(rt: &impl Abort, bytes: &[u8]) {
    let record = Record::from_bytes(bytes).expect(rt, "a record");
    has_bytes(rt, &record, bytes);
}

// The last bit of the reached word, and the first and the last of the alert word.
#[test]
fn each_bit_with_a_meaning_is_read(rt: HostRuntime) {
    is_read(&rt, &planned_but(&rt, 50, 1));
    is_read(&rt, &planned_but(&rt, 52, 2));
    is_read(&rt, &planned_but(&rt, 55, 128));
}

#[test]
fn other_bytes_are_refused_with_their_first_fault(rt: HostRuntime) {
    is_refused(&rt, &shorter(&rt), RecordError::WrongLength, 1);
    is_refused(&rt, &planned_but(&rt, 62, 2), RecordError::UnknownLayout, 2);
    is_refused(&rt, &malformed(&rt), RecordError::MalformedText, 3);
    is_refused(&rt, &planned_but(&rt, 50, 2), RecordError::ReservedBits, 4);
    is_refused(
        &rt,
        &planned_but(&rt, 51, 128),
        RecordError::ReservedBits,
        4,
    );
    is_refused(&rt, &planned_but(&rt, 52, 1), RecordError::ReservedBits, 4);
    is_refused(&rt, &planned_but(&rt, 52, 64), RecordError::ReservedBits, 4);
}

#[test]
fn a_record_of_layout_2_is_read_and_given_back(rt: HostRuntime) {
    is_read(&rt, &deiced(&rt));
    let record = Record::from_bytes(&deiced(&rt)).expect(&rt, "a record");
    has_the_plan(&rt, &record);
    holds(&rt, &record, Field::Layout, 2);
    holds(&rt, &record, Field::Eczt, 29_000_580);
    holds(&rt, &record, Field::Eezt, 0);
    holds(&rt, &record, Field::Aczt, 0);
    holds(&rt, &record, Field::Aezt, 29_000_581);
}

#[test]
fn bytes_of_layout_2_are_refused_with_their_first_fault(rt: HostRuntime) {
    is_refused_cut(&rt, 159, RecordError::WrongLength, 1);
    is_refused_cut(&rt, 129, RecordError::WrongLength, 1);
    is_refused_cut(&rt, 128, RecordError::UnknownLayout, 2);
    is_refused(&rt, &deiced_but(&rt, 62, 1), RecordError::UnknownLayout, 2);
    is_refused(&rt, &deiced_but(&rt, 62, 3), RecordError::UnknownLayout, 2);
    is_refused(&rt, &deiced_but(&rt, 52, 1), RecordError::ReservedBits, 4);
    is_refused(&rt, &deiced_but(&rt, 144, 1), RecordError::ReservedBytes, 5);
    is_refused(&rt, &deiced_but(&rt, 159, 1), RecordError::ReservedBytes, 5);
}

// Each time of de-icing stands at its place, of a record that was brought to layout 2.
#[test]
fn a_migrated_record_takes_times_of_deicing(rt: HostRuntime) {
    let mut record = Record::new(7);
    same_number(&rt, record.bytes().len() as u64, 128);
    record.migrate();
    same_number(&rt, record.bytes().len() as u64, 160);
    holds(&rt, &record, Field::Aczt, 0);
    record.set(Field::Eczt, 1);
    record.set(Field::Eezt, 2);
    record.set(Field::Aczt, 3);
    record.set(Field::Aezt, 4);
    stands_at(&rt, &record, 62, &[2]);
    stands_at(
        &rt,
        &record,
        128,
        &[1, 0, 0, 0, 2, 0, 0, 0, 3, 0, 0, 0, 4, 0, 0, 0],
    );
    stands_at(&rt, &record, 144, &[0; 16]);
    holds(&rt, &record, Field::Flight, 7);
}

#[test]
fn a_record_takes_as_many_bytes_as_layout_2_has(rt: HostRuntime) {
    same_number(&rt, size_of::<Record>() as u64, 160);
}

#[test]
fn errors_have_their_texts(rt: HostRuntime) {
    let text = format!(in rt.alloc(); "{}", RecordError::UnknownLayout).expect(&rt, "a text");
    assert_eq!(rt;
        text.as_str(),
        "the layout is not 1 in 128 bytes, or 2 in 160"
    );
}
