//! Why bytes encode no program, as text.

use crate::slot_text::write_slot;
use bpf_decode::EncodingFault;
use std::io::{self, Write};

/// A file of another kind than the bytes of a program.
#[derive(Clone, Copy)]
enum FileKind {
    /// As a compiler writes it. Its first bytes (System V ABI, ELF header) are no instruction.
    Object,
    /// Words of digits, each with or without 0x before it.
    Hexadecimal,
    /// A line with a member "program", as partners send it.
    Line,
}

fn is_hexadecimal(word: &str) -> bool {
    let digits = word
        .strip_prefix("0x")
        .or(word.strip_prefix("0X"))
        .unwrap_or(word);
    !digits.is_empty() && digits.bytes().all(|byte| byte.is_ascii_hexdigit())
}

/// The kind of a file of which the bytes encode no program. No text of ASCII has the byte of an
/// exit.
fn kind_of(bytes: &[u8]) -> Option<FileKind> {
    if let [0x7f, b'E', b'L', b'F', ..] = bytes {
        return Some(FileKind::Object);
    }
    if !bytes.is_ascii() {
        return None;
    }
    let text = str::from_utf8(bytes).ok()?;
    if text.contains("\"program\"") {
        return Some(FileKind::Line);
    }
    if !text.trim().is_empty() && text.split_whitespace().all(is_hexadecimal) {
        return Some(FileKind::Hexadecimal);
    }
    None
}

/// Writes the first fault of bytes, what is known there and what is wanted, and the verdict.
pub(crate) fn write_unreadable<W: Write>(
    fault: EncodingFault,
    slot: usize,
    bytes: &[u8],
    writer: &mut W,
) -> io::Result<()> {
    let code = fault.code();
    writeln!(writer, "fault {code} at slot {slot}: {fault}")?;
    match kind_of(bytes) {
        Some(FileKind::Object) => writeln!(
            writer,
            "    file: known an object file (ELF), wanted one section (llvm-objcopy -O binary)"
        )?,
        Some(FileKind::Hexadecimal) => writeln!(
            writer,
            "    file: known hexadecimal text, wanted the bytes that it tells (xxd -r -p)"
        )?,
        Some(FileKind::Line) => writeln!(
            writer,
            "    file: known a line that loads a program, wanted the bytes that its program tells (xxd -r -p)"
        )?,
        None => write_reason(fault, slot, bytes, writer)?,
    }
    writeln!(writer, "refused {code} {slot}")
}

fn write_reason<W: Write>(
    fault: EncodingFault,
    slot: usize,
    bytes: &[u8],
    writer: &mut W,
) -> io::Result<()> {
    match fault {
        EncodingFault::Length => {
            let count = bytes.len();
            writeln!(writer, "    bytes: known {count}, wanted 8 for each slot")
        }
        EncodingFault::TooLong => writeln!(
            writer,
            "    bytes: known over 32768, wanted 32768 at most"
        ),
        _ => write_slot(fault, slot, bytes, writer),
    }
}
