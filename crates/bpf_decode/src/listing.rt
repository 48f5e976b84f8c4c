//! The listing of a program, one text for each slot.

ghost use Rattle.std.specs.Prelude.{◌≡◌, ◌<◌, length, slice_get, IfSome, OnOk, Some};
ghost use Rattle.std.specs.Io.KnownBytes.{Appends};
ghost use Rattle.bpf_decode.specs.Listing.{register_text, operand_text, width_text, code_name};
ghost use Rattle.bpf_decode.specs.Listing.{condition_name, size_name, part_name, order_name};
ghost use Rattle.bpf_decode.specs.Listing.{bytes_text, part_text, offset_text, address_text};
ghost use Rattle.bpf_decode.specs.Listing.{hex_text, jump_width_text, store_name, op_text};
ghost use Rattle.bpf_decode.specs.Listing.{line_text};
ghost use Rattle.bpf_decode.specs.declared.op.Op.TheVariants.{Arith, Extend, Jump, Load};
ghost use Rattle.bpf_decode.specs.declared.op.Op.TheVariants.{LoadSigned, Store};

use crate::op::{ByteOrder, Bytes, Code, Condition, Op, Operand, Part, Register, Size, Width};
use crate::program::Program;
use std::{fmt, io};

impl fmt::Display for Register {
    ghost output = { λ r. Some (register_text r) };

    fn fmt<W: fmt::Write>(&self, f: &mut fmt::Formatter<W>) -> fmt::Result {
        let number = self.number();
        write!(f, "r{number}")
    }
}

impl fmt::Display for Operand {
    ghost output = { λ operand. Some (operand_text operand) };

    fn fmt<W: fmt::Write>(&self, f: &mut fmt::Formatter<W>) -> fmt::Result {
        match self {
            Operand::From(register) => write!(f, "{register}"),
            Operand::Immediate(value) => write!(f, "{value}"),
        }
    }
}

impl fmt::Display for Width {
    ghost output = { λ width. Some (width_text width) };

    fn fmt<W: fmt::Write>(&self, f: &mut fmt::Formatter<W>) -> fmt::Result {
        match self {
            Width::W32 => write!(f, "32"),
            Width::W64 => write!(f, "64"),
        }
    }
}

impl fmt::Display for Code {
    ghost output = { λ code. Some (code_name code) };

    fn fmt<W: fmt::Write>(&self, f: &mut fmt::Formatter<W>) -> fmt::Result {
        let name = match self {
            Code::Add => "add",
            Code::Sub => "sub",
            Code::Mul => "mul",
            Code::Div => "div",
            Code::SignedDiv => "sdiv",
            Code::Mod => "mod",
            Code::SignedMod => "smod",
            Code::Or => "or",
            Code::And => "and",
            Code::Xor => "xor",
            Code::LeftShift => "lsh",
            Code::RightShift => "rsh",
            Code::ArithmeticShift => "arsh",
            Code::Mov => "mov",
        };
        write!(f, "{name}")
    }
}

impl fmt::Display for Condition {
    ghost output = { λ condition. Some (condition_name condition) };

    fn fmt<W: fmt::Write>(&self, f: &mut fmt::Formatter<W>) -> fmt::Result {
        let name = match self {
            Condition::Equal => "jeq",
            Condition::NotEqual => "jne",
            Condition::Above => "jgt",
            Condition::AtLeast => "jge",
            Condition::Below => "jlt",
            Condition::AtMost => "jle",
            Condition::Meets => "jset",
            Condition::SignedAbove => "jsgt",
            Condition::SignedAtLeast => "jsge",
            Condition::SignedBelow => "jslt",
            Condition::SignedAtMost => "jsle",
        };
        write!(f, "{name}")
    }
}

impl fmt::Display for Size {
    ghost output = { λ size. Some (size_name size) };

    fn fmt<W: fmt::Write>(&self, f: &mut fmt::Formatter<W>) -> fmt::Result {
        let name = match self {
            Size::Byte => "b",
            Size::Half => "h",
            Size::Word => "w",
            Size::Double => "dw",
        };
        write!(f, "{name}")
    }
}

impl fmt::Display for ByteOrder {
    ghost output = { λ order. Some (order_name order) };

    fn fmt<W: fmt::Write>(&self, f: &mut fmt::Formatter<W>) -> fmt::Result {
        let name = match self {
            ByteOrder::Little => "le",
            ByteOrder::Big => "be",
            ByteOrder::Swap => "swap",
        };
        write!(f, "{name}")
    }
}

impl fmt::Display for Bytes {
    ghost output = { λ bytes. Some (bytes_text bytes) };

    fn fmt<W: fmt::Write>(&self, f: &mut fmt::Formatter<W>) -> fmt::Result {
        match self {
            Bytes::Two => write!(f, "16"),
            Bytes::Four => write!(f, "32"),
            Bytes::Eight => write!(f, "64"),
        }
    }
}

impl fmt::Display for Part {
    ghost output = { λ part. Some (part_name part) };

    fn fmt<W: fmt::Write>(&self, f: &mut fmt::Formatter<W>) -> fmt::Result {
        let name = match self {
            Part::Low8 => "b",
            Part::Low16 => "h",
            Part::Low32 => "w",
        };
        write!(f, "{name}")
    }
}

/// The bits of a part.
#[derive(Clone, Copy)]
struct Bits(Part);

impl fmt::Display for Bits {
    ghost output = { λ bits. Some (part_text bits.0) };

    fn fmt<W: fmt::Write>(&self, f: &mut fmt::Formatter<W>) -> fmt::Result {
        match self.0 {
            Part::Low8 => write!(f, "8"),
            Part::Low16 => write!(f, "16"),
            Part::Low32 => write!(f, "32"),
        }
    }
}

/// The mark of a jump on the low 32 bits.
#[derive(Clone, Copy)]
struct JumpWidth(Width);

impl fmt::Display for JumpWidth {
    ghost output = { λ width. Some (jump_width_text width.0) };

    fn fmt<W: fmt::Write>(&self, f: &mut fmt::Formatter<W>) -> fmt::Result {
        match self.0 {
            Width::W32 => write!(f, "32"),
            Width::W64 => Ok(()),
        }
    }
}

/// What a store of this value is called.
#[derive(Clone, Copy)]
struct StoreName(Operand);

impl fmt::Display for StoreName {
    ghost output = { λ value. Some (store_name value.0) };

    fn fmt<W: fmt::Write>(&self, f: &mut fmt::Formatter<W>) -> fmt::Result {
        match self.0 {
            Operand::From(_) => write!(f, "stx"),
            Operand::Immediate(_) => write!(f, "st"),
        }
    }
}

/// An offset, with its sign.
#[derive(Clone, Copy)]
struct Offset(i32);

impl fmt::Display for Offset {
    ghost output = { λ offset. Some (offset_text offset.0) };

    fn fmt<W: fmt::Write>(&self, f: &mut fmt::Formatter<W>) -> fmt::Result {
        let offset = self.0;
        if offset < 0 {
            write!(f, "{offset}")
        } else {
            write!(f, "+{offset}")
        }
    }
}

/// The address of a load or a store.
#[derive(Clone, Copy)]
struct Address(Register, i16);

impl fmt::Display for Address {
    ghost output = { λ address. Some (address_text address.0 address.1) };

    fn fmt<W: fmt::Write>(&self, f: &mut fmt::Formatter<W>) -> fmt::Result {
        let base = self.0;
        let offset = Offset(self.1 as i32);
        write!(f, "[{base}{offset}]")
    }
}

/// Sixteen hexadecimal digits.
#[derive(Clone, Copy)]
struct Hex(u64);

impl fmt::Display for Hex {
    ghost output = { λ number. Some (hex_text number.0) };

    fn fmt<W: fmt::Write>(&self, f: &mut fmt::Formatter<W>) -> fmt::Result {
        let number = self.0;
        write!(f, "{number:016x}")
    }
}

/// An operation on two words.
#[derive(Clone, Copy)]
struct ArithText(Width, Code, Register, Operand);

impl fmt::Display for ArithText {
    ghost output = { λ op. Some (op_text (Arith op.0 op.1 op.2 op.3)) };

    fn fmt<W: fmt::Write>(&self, f: &mut fmt::Formatter<W>) -> fmt::Result {
        let ArithText(width, code, dst, operand) = *self;
        write!(f, "{code}{width} {dst}, {operand}")
    }
}

/// A move with the sign of a part.
#[derive(Clone, Copy)]
struct ExtendText(Width, Part, Register, Register);

impl fmt::Display for ExtendText {
    ghost output = { λ op. Some (op_text (Extend op.0 op.1 op.2 op.3)) };

    fn fmt<W: fmt::Write>(&self, f: &mut fmt::Formatter<W>) -> fmt::Result {
        let ExtendText(width, part, dst, src) = *self;
        let bits = Bits(part);
        write!(f, "movsx{bits}_{width} {dst}, {src}")
    }
}

/// A conditional jump.
#[derive(Clone, Copy)]
struct JumpText(Width, Condition, Register, Operand, i16);

impl fmt::Display for JumpText {
    ghost output = { λ op. Some (op_text (Jump op.0 op.1 op.2 op.3 op.4)) };

    fn fmt<W: fmt::Write>(&self, f: &mut fmt::Formatter<W>) -> fmt::Result {
        let JumpText(width, condition, dst, operand, offset) = *self;
        let mark = JumpWidth(width);
        let offset = Offset(offset as i32);
        write!(f, "{condition}{mark} {dst}, {operand}, {offset}")
    }
}

/// A load.
#[derive(Clone, Copy)]
struct LoadText(Size, Register, Address);

impl fmt::Display for LoadText {
    ghost output = { λ op. Some (op_text (Load op.0 op.1 op.2.0 op.2.1)) };

    fn fmt<W: fmt::Write>(&self, f: &mut fmt::Formatter<W>) -> fmt::Result {
        let LoadText(size, dst, address) = *self;
        write!(f, "ldx{size} {dst}, {address}")
    }
}

/// A load with the sign of a part.
#[derive(Clone, Copy)]
struct LoadSignedText(Part, Register, Address);

impl fmt::Display for LoadSignedText {
    ghost output = { λ op. Some (op_text (LoadSigned op.0 op.1 op.2.0 op.2.1)) };

    fn fmt<W: fmt::Write>(&self, f: &mut fmt::Formatter<W>) -> fmt::Result {
        let LoadSignedText(part, dst, address) = *self;
        write!(f, "ldxs{part} {dst}, {address}")
    }
}

/// A store.
#[derive(Clone, Copy)]
struct StoreText(Size, Address, Operand);

impl fmt::Display for StoreText {
    ghost output = { λ op. Some (op_text (Store op.0 op.1.0 op.1.1 op.2)) };

    fn fmt<W: fmt::Write>(&self, f: &mut fmt::Formatter<W>) -> fmt::Result {
        let StoreText(size, address, value) = *self;
        let name = StoreName(value);
        write!(f, "{name}{size} {address}, {value}")
    }
}

impl fmt::Display for Op {
    ghost output = { λ op. Some (op_text op) };

    fn fmt<W: fmt::Write>(&self, f: &mut fmt::Formatter<W>) -> fmt::Result {
        match *self {
            Op::Arith {
                width,
                code,
                dst,
                operand,
            } => {
                let text = ArithText(width, code, dst, operand);
                write!(f, "{text}")
            }
            Op::Negate { width, dst } => write!(f, "neg{width} {dst}"),
            Op::Extend {
                width,
                part,
                dst,
                src,
            } => {
                let text = ExtendText(width, part, dst, src);
                write!(f, "{text}")
            }
            Op::End { order, bytes, dst } => write!(f, "{order}{bytes} {dst}"),
            Op::Ja { offset } => {
                let offset = Offset(offset as i32);
                write!(f, "ja {offset}")
            }
            Op::Ja32 { offset } => {
                let offset = Offset(offset);
                write!(f, "ja32 {offset}")
            }
            Op::Jump {
                width,
                condition,
                dst,
                operand,
                offset,
            } => {
                let text = JumpText(width, condition, dst, operand, offset);
                write!(f, "{text}")
            }
            Op::Call { helper } => write!(f, "call {helper}"),
            Op::Exit => write!(f, "exit"),
            Op::Load {
                size,
                dst,
                base,
                offset,
            } => {
                let text = LoadText(size, dst, Address(base, offset));
                write!(f, "{text}")
            }
            Op::LoadSigned {
                part,
                dst,
                base,
                offset,
            } => {
                let text = LoadSignedText(part, dst, Address(base, offset));
                write!(f, "{text}")
            }
            Op::Store {
                size,
                base,
                offset,
                value,
            } => {
                let text = StoreText(size, Address(base, offset), value);
                write!(f, "{text}")
            }
            Op::Wide { dst, value } => {
                let value = Hex(value);
                write!(f, "lddw {dst}, 0x{value}")
            }
            Op::Tail => write!(f, "-"),
        }
    }
}

/// Writes the text of a slot of the program, as `0: mov64 r0, 7`, with no line feed.
pub fn line<W: io::Write>(program: &Program, slot: usize, writer: &mut W) -> io::Result<()>
    requires { slot < length program.now }
    ensures { OnOk result (IfSome (slice_get program.now slot) (λ op.
        Appends (W.contents writer.old) (W.contents writer.new) (line_text slot op))) }
{
    let op = program.op(slot);
    write!(writer, "{slot}: {op}")
}
