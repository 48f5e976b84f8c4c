//! From a program to its bytes.

ghost use Rattle.std.specs.Prelude.{◌≡◌, ◌+◌, ◌≤◌, ◌<◌, ◌++◌, length, IfOk};
ghost use Rattle.bpf_decode.specs.Encoding.{Encodes, encoding_of, slot_of, tail_of, number_of};
ghost use Rattle.bpf_decode.specs.Encoding.{sign_of, class_of, jump_number_of, jump_class_of};
ghost use Rattle.bpf_decode.specs.Encoding.{size_number_of, part_number_of, order_opcode_of};
ghost use Rattle.bpf_decode.specs.Slots.{slot_bytes};
ghost use Rattle.bpf_decode.specs.Words.{part_bits, count_of};

use crate::fault::NoMemory;
use crate::insn::Insn;
use crate::op::{ByteOrder, Bytes, Code, Condition, Op, Operand, Part, Register, Size, Width};
use crate::program::Program;
use arrayvec::ArrayVec;
use std::alloc::Global;

/// The bytes that encode the program, eight for each slot: there is one such list of bytes.
pub fn encode(alloc: Global, program: &Program) -> Result<Vec<u8>, NoMemory>
    ensures { IfOk result (λ bytes. Encodes bytes.items program.now) }
{
    let ops = program.ops();
    let mut bytes = Vec::with_capacity(alloc, 8 * ops.len())?;
    for op in ops {
        bytes.extend_from_slice(encode_op(*op).as_slice())?;
    }
    Ok(bytes)
}

/// The bytes that encode an instruction: the eight of its slot, of a wide load those of both its slots
/// (RFC 9669, section 3). A tail is the second slot of the wide load before it, and has none of its own.
pub fn encode_op(op: Op) -> ArrayVec<u8, 16>
    ensures { result.items ≡ encoding_of op }
{
    let mut bytes = ArrayVec::new();
    match op {
        Op::Tail => {}
        Op::Wide { dst, value } => {
            push_slot(&mut bytes, wide_insn(dst, value));
            push_slot(&mut bytes, tail_insn(value));
        }
        _ => push_slot(&mut bytes, insn_of(op)),
    }
    bytes
}

/// Adds a slot.
fn push_slot(bytes: &mut ArrayVec<u8, 16>, slot: Insn)
    requires room { length bytes.old.items ≤ 8 }
    requires dst { slot.dst < 16 }
    requires src { slot.src < 16 }
    ensures { bytes.new.items ≡ bytes.old.items ++ slot_bytes slot }
{
    if bytes.try_extend_from_slice(&slot.to_bytes()).is_err() {
        unreachable!();
    }
}

/// The fields of an instruction's first slot.
fn insn_of(op: Op) -> Insn
    ensures fields { result ≡ slot_of op }
    ensures dst { result.dst < 16 }
    ensures src { result.src < 16 }
{
    match op {
        Op::Arith {
            width,
            code,
            dst,
            operand,
        } => arith_insn(width, code, dst, operand),
        Op::Negate { width, dst } => insn(0x80 + class(width), dst.number(), 0, 0, 0),
        Op::Extend {
            width,
            part,
            dst,
            src,
        } => extend_insn(width, part, dst, src),
        Op::End { order, bytes, dst } => end_insn(order, bytes, dst),
        Op::Ja { offset } => insn(0x05, 0, 0, offset, 0),
        Op::Ja32 { offset } => insn(0x06, 0, 0, 0, offset),
        Op::Jump {
            width,
            condition,
            dst,
            operand,
            offset,
        } => jump_insn(width, condition, dst, operand, offset),
        Op::Call { helper } => insn(0x85, 0, 0, 0, helper.cast_signed()),
        Op::Exit => insn(0x95, 0, 0, 0, 0),
        Op::Load {
            size,
            dst,
            base,
            offset,
        } => insn(
            0x61 + 8 * size_number(size),
            dst.number(),
            base.number(),
            offset,
            0,
        ),
        Op::LoadSigned {
            part,
            dst,
            base,
            offset,
        } => insn(
            0x81 + 8 * part_number(part),
            dst.number(),
            base.number(),
            offset,
            0,
        ),
        Op::Store {
            size,
            base,
            offset,
            value,
        } => store_insn(size, base, offset, value),
        Op::Wide { dst, value } => wide_insn(dst, value),
        Op::Tail => insn(0, 0, 0, 0, 0),
    }
}

/// These fields.
fn insn(opc: u8, dst: u8, src: u8, off: i16, imm: i32) -> Insn
    ensures { result ≡ record { opc = opc; dst = dst; src = src; off = off; imm = imm } }
{
    Insn {
        opc,
        dst,
        src,
        off,
        imm,
    }
}

fn arith_insn(width: Width, code: Code, dst: Register, operand: Operand) -> Insn
    ensures fields { result ≡ slot_of (Op.Arith width code dst operand) }
    ensures dst { result.dst < 16 }
    ensures src { result.src < 16 }
{
    let opc = 16 * code_number(code) + class(width);
    let off = code_offset(code);
    match operand {
        Operand::Immediate(imm) => insn(opc, dst.number(), 0, off, imm),
        Operand::From(src) => insn(opc + 8, dst.number(), src.number(), off, 0),
    }
}

fn extend_insn(width: Width, part: Part, dst: Register, src: Register) -> Insn
    ensures fields { result ≡ slot_of (Op.Extend width part dst src) }
    ensures dst { result.dst < 16 }
    ensures src { result.src < 16 }
{
    let bits = match part {
        Part::Low8 => 8,
        Part::Low16 => 16,
        Part::Low32 => 32,
    };
    insn(0xb8 + class(width), dst.number(), src.number(), bits, 0)
}

fn end_insn(order: ByteOrder, bytes: Bytes, dst: Register) -> Insn
    ensures fields { result ≡ slot_of (Op.End order bytes dst) }
    ensures dst { result.dst < 16 }
    ensures src { result.src < 16 }
{
    let opc = match order {
        ByteOrder::Little => 0xd4,
        ByteOrder::Big => 0xdc,
        ByteOrder::Swap => 0xd7,
    };
    let bits = match bytes {
        Bytes::Two => 16,
        Bytes::Four => 32,
        Bytes::Eight => 64,
    };
    insn(opc, dst.number(), 0, 0, bits)
}

fn jump_insn(
    width: Width,
    condition: Condition,
    dst: Register,
    operand: Operand,
    offset: i16,
) -> Insn
    ensures fields { result ≡ slot_of (Op.Jump width condition dst operand offset) }
    ensures dst { result.dst < 16 }
    ensures src { result.src < 16 }
{
    let opc = 16 * condition_number(condition) + jump_class(width);
    match operand {
        Operand::Immediate(imm) => insn(opc, dst.number(), 0, offset, imm),
        Operand::From(src) => insn(opc + 8, dst.number(), src.number(), offset, 0),
    }
}

fn store_insn(size: Size, base: Register, offset: i16, value: Operand) -> Insn
    ensures fields { result ≡ slot_of (Op.Store size base offset value) }
    ensures dst { result.dst < 16 }
    ensures src { result.src < 16 }
{
    let size = 8 * size_number(size);
    match value {
        Operand::Immediate(imm) => insn(0x62 + size, base.number(), 0, offset, imm),
        Operand::From(src) => insn(0x63 + size, base.number(), src.number(), offset, 0),
    }
}

fn wide_insn(dst: Register, value: u64) -> Insn
    ensures fields { result ≡ slot_of (Op.Wide dst value) }
    ensures dst { result.dst < 16 }
    ensures src { result.src < 16 }
{
    let low = (value % 0x1_0000_0000) as u32;
    insn(0x18, dst.number(), 0, 0, low.cast_signed())
}

fn tail_insn(value: u64) -> Insn
    ensures fields { result ≡ tail_of value }
    ensures dst { result.dst < 16 }
    ensures src { result.src < 16 }
{
    let high = (value / 0x1_0000_0000) as u32;
    insn(0, 0, 0, 0, high.cast_signed())
}

fn class(width: Width) -> u8
    ensures { result ≡ class_of width }
{
    match width {
        Width::W32 => 4,
        Width::W64 => 7,
    }
}

fn jump_class(width: Width) -> u8
    ensures { result ≡ jump_class_of width }
{
    match width {
        Width::W32 => 6,
        Width::W64 => 5,
    }
}

fn code_number(code: Code) -> u8
    ensures number { result ≡ number_of code }
    ensures below { result < 13 }
{
    match code {
        Code::Add => 0,
        Code::Sub => 1,
        Code::Mul => 2,
        Code::Div | Code::SignedDiv => 3,
        Code::Or => 4,
        Code::And => 5,
        Code::LeftShift => 6,
        Code::RightShift => 7,
        Code::Mod | Code::SignedMod => 9,
        Code::Xor => 10,
        Code::Mov => 11,
        Code::ArithmeticShift => 12,
    }
}

fn code_offset(code: Code) -> i16
    ensures { result ≡ sign_of code }
{
    match code {
        Code::SignedDiv | Code::SignedMod => 1,
        _ => 0,
    }
}

fn condition_number(condition: Condition) -> u8
    ensures number { result ≡ jump_number_of condition }
    ensures below { result < 14 }
{
    match condition {
        Condition::Equal => 1,
        Condition::Above => 2,
        Condition::AtLeast => 3,
        Condition::Meets => 4,
        Condition::NotEqual => 5,
        Condition::SignedAbove => 6,
        Condition::SignedAtLeast => 7,
        Condition::Below => 10,
        Condition::AtMost => 11,
        Condition::SignedBelow => 12,
        Condition::SignedAtMost => 13,
    }
}

fn size_number(size: Size) -> u8
    ensures number { result ≡ size_number_of size }
    ensures below { result < 4 }
{
    match size {
        Size::Word => 0,
        Size::Half => 1,
        Size::Byte => 2,
        Size::Double => 3,
    }
}

fn part_number(part: Part) -> u8
    ensures number { result ≡ part_number_of part }
    ensures below { result < 3 }
{
    match part {
        Part::Low32 => 0,
        Part::Low16 => 1,
        Part::Low8 => 2,
    }
}
