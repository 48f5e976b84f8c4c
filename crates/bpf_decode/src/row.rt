//! What a slot says, by the row of its opcode.

ghost use Rattle.std.specs.Prelude.{◌≡◌, ◌≢◌, ◌<◌, pos, MatchOption, MatchResult};
ghost use Rattle.bpf_decode.specs.Encoding.{sign_of};
ghost use Rattle.bpf_decode.specs.Forms.{HasOpcode};
ghost use Rattle.bpf_decode.specs.Rows.{SlotGives, SignGives, RegisterGives, RegistersGive};
ghost use Rattle.bpf_decode.specs.Rows.{PartGives, BytesGive};

use crate::fault::EncodingFault;
use crate::form::{Form, OperandSource, form_at};
use crate::insn::Insn;
use crate::op::{ByteOrder, Bytes, Code, Condition, Op, Operand, Part, Register, Size, Width};

/// The instruction of a slot. Of a wide load the value has the lower half alone.
pub(crate) fn op_of(insn: Insn) -> Result<Op, EncodingFault>
    ensures { SlotGives result insn }
{
    let Some(form) = form_at(insn.opc) else {
        return Err(EncodingFault::Opcode);
    };
    match form {
        Form::Arith(width, code, OperandSource::Immediate) => arith_immediate(width, code, insn),
        Form::Arith(width, code, OperandSource::Register) => arith_register(width, code, insn),
        Form::Negate(width) => negate(width, insn),
        Form::End(order) => end(order, insn),
        Form::Ja => ja(insn),
        Form::Ja32 => ja32(insn),
        Form::Jump(width, condition, OperandSource::Immediate) => jump_immediate(
            width, condition, insn,
        ),
        Form::Jump(width, condition, OperandSource::Register) => jump_register(
            width, condition, insn,
        ),
        Form::Call => call(insn),
        Form::Exit => exit(insn),
        Form::Load(size) => load(size, insn),
        Form::LoadSigned(part) => load_signed(part, insn),
        Form::Store(size, OperandSource::Immediate) => store_immediate(size, insn),
        Form::Store(size, OperandSource::Register) => store_register(size, insn),
        Form::Wide => wide(insn),
    }
}

/// A register by its number.
fn register(number: u8) -> Result<Register, EncodingFault>
    ensures { RegisterGives result number }
{
    if number > 10 {
        return Err(EncodingFault::Register);
    }
    Ok(Register::new(number))
}

/// Two registers by their numbers.
fn registers(dst: u8, src: u8) -> Result<(Register, Register), EncodingFault>
    ensures { RegistersGive result dst src }
{
    let dst = register(dst)?;
    let src = register(src)?;
    Ok((dst, src))
}

/// The operation of the same number that has this offset.
fn with_sign(code: Code, off: i16) -> Option<Code>
    requires { sign_of code ≡ pos 0 }
    ensures { SignGives result code off }
{
    match (code, off) {
        (code, 0) => Some(code),
        (Code::Div, 1) => Some(Code::SignedDiv),
        (Code::Mod, 1) => Some(Code::SignedMod),
        _ => None,
    }
}

/// The part of a register that is extended to a width.
fn part_at(width: Width, off: i16) -> Option<Part>
    ensures { PartGives result width off }
{
    match (width, off) {
        (_, 8) => Some(Part::Low8),
        (_, 16) => Some(Part::Low16),
        (Width::W64, 32) => Some(Part::Low32),
        _ => None,
    }
}

/// The bytes whose order is set, by the number of their bits.
fn bytes_at(bits: i32) -> Option<Bytes>
    ensures { BytesGive result bits }
{
    match bits {
        16 => Some(Bytes::Two),
        32 => Some(Bytes::Four),
        64 => Some(Bytes::Eight),
        _ => None,
    }
}

fn arith_immediate(width: Width, code: Code, insn: Insn) -> Result<Op, EncodingFault>
    requires { HasOpcode (Some (Form.Arith width code OperandSource.Immediate)) insn.opc }
    ensures { SlotGives result insn }
{
    let Some(code) = with_sign(code, insn.off) else {
        return Err(EncodingFault::Field);
    };
    if insn.src != 0 {
        return Err(EncodingFault::Field);
    }
    let dst = register(insn.dst)?;
    Ok(Op::Arith {
        width,
        code,
        dst,
        operand: Operand::Immediate(insn.imm),
    })
}

fn arith_register(width: Width, code: Code, insn: Insn) -> Result<Op, EncodingFault>
    requires { HasOpcode (Some (Form.Arith width code OperandSource.Register)) insn.opc }
    ensures { SlotGives result insn }
{
    if insn.imm != 0 {
        return Err(EncodingFault::Field);
    }
    if code == Code::Mov && insn.off != 0 {
        return extend(width, insn);
    }
    let Some(code) = with_sign(code, insn.off) else {
        return Err(EncodingFault::Field);
    };
    let (dst, src) = registers(insn.dst, insn.src)?;
    Ok(Op::Arith {
        width,
        code,
        dst,
        operand: Operand::From(src),
    })
}

fn extend(width: Width, insn: Insn) -> Result<Op, EncodingFault>
    requires opcode { HasOpcode (Some (Form.Arith width Code.Mov OperandSource.Register)) insn.opc }
    requires offset { insn.off ≢ pos 0 }
    requires immediate { insn.imm ≡ pos 0 }
    ensures { SlotGives result insn }
{
    let Some(part) = part_at(width, insn.off) else {
        return Err(EncodingFault::Field);
    };
    let (dst, src) = registers(insn.dst, insn.src)?;
    Ok(Op::Extend {
        width,
        part,
        dst,
        src,
    })
}

fn negate(width: Width, insn: Insn) -> Result<Op, EncodingFault>
    requires { HasOpcode (Some (Form.Negate width)) insn.opc }
    ensures { SlotGives result insn }
{
    if insn.src != 0 || insn.off != 0 || insn.imm != 0 {
        return Err(EncodingFault::Field);
    }
    let dst = register(insn.dst)?;
    Ok(Op::Negate { width, dst })
}

fn end(order: ByteOrder, insn: Insn) -> Result<Op, EncodingFault>
    requires { HasOpcode (Some (Form.End order)) insn.opc }
    ensures { SlotGives result insn }
{
    if insn.src != 0 || insn.off != 0 {
        return Err(EncodingFault::Field);
    }
    let Some(bytes) = bytes_at(insn.imm) else {
        return Err(EncodingFault::Field);
    };
    let dst = register(insn.dst)?;
    Ok(Op::End { order, bytes, dst })
}

fn ja(insn: Insn) -> Result<Op, EncodingFault>
    requires { HasOpcode (Some Form.Ja) insn.opc }
    ensures { SlotGives result insn }
{
    if insn.dst != 0 || insn.src != 0 || insn.imm != 0 {
        return Err(EncodingFault::Field);
    }
    Ok(Op::Ja { offset: insn.off })
}

fn ja32(insn: Insn) -> Result<Op, EncodingFault>
    requires { HasOpcode (Some Form.Ja32) insn.opc }
    ensures { SlotGives result insn }
{
    if insn.dst != 0 || insn.src != 0 || insn.off != 0 {
        return Err(EncodingFault::Field);
    }
    Ok(Op::Ja32 { offset: insn.imm })
}

fn jump_immediate(width: Width, condition: Condition, insn: Insn) -> Result<Op, EncodingFault>
    requires { HasOpcode (Some (Form.Jump width condition OperandSource.Immediate)) insn.opc }
    ensures { SlotGives result insn }
{
    if insn.src != 0 {
        return Err(EncodingFault::Field);
    }
    let dst = register(insn.dst)?;
    Ok(Op::Jump {
        width,
        condition,
        dst,
        operand: Operand::Immediate(insn.imm),
        offset: insn.off,
    })
}

fn jump_register(width: Width, condition: Condition, insn: Insn) -> Result<Op, EncodingFault>
    requires { HasOpcode (Some (Form.Jump width condition OperandSource.Register)) insn.opc }
    ensures { SlotGives result insn }
{
    if insn.imm != 0 {
        return Err(EncodingFault::Field);
    }
    let (dst, src) = registers(insn.dst, insn.src)?;
    Ok(Op::Jump {
        width,
        condition,
        dst,
        operand: Operand::From(src),
        offset: insn.off,
    })
}

fn call(insn: Insn) -> Result<Op, EncodingFault>
    requires { HasOpcode (Some Form.Call) insn.opc }
    ensures { SlotGives result insn }
{
    if insn.dst != 0 || insn.src != 0 || insn.off != 0 {
        return Err(EncodingFault::Field);
    }
    Ok(Op::Call {
        helper: insn.imm.cast_unsigned(),
    })
}

fn exit(insn: Insn) -> Result<Op, EncodingFault>
    requires { HasOpcode (Some Form.Exit) insn.opc }
    ensures { SlotGives result insn }
{
    if insn.dst != 0 || insn.src != 0 || insn.off != 0 || insn.imm != 0 {
        return Err(EncodingFault::Field);
    }
    Ok(Op::Exit)
}

fn load(size: Size, insn: Insn) -> Result<Op, EncodingFault>
    requires { HasOpcode (Some (Form.Load size)) insn.opc }
    ensures { SlotGives result insn }
{
    if insn.imm != 0 {
        return Err(EncodingFault::Field);
    }
    let (dst, base) = registers(insn.dst, insn.src)?;
    Ok(Op::Load {
        size,
        dst,
        base,
        offset: insn.off,
    })
}

fn load_signed(part: Part, insn: Insn) -> Result<Op, EncodingFault>
    requires { HasOpcode (Some (Form.LoadSigned part)) insn.opc }
    ensures { SlotGives result insn }
{
    if insn.imm != 0 {
        return Err(EncodingFault::Field);
    }
    let (dst, base) = registers(insn.dst, insn.src)?;
    Ok(Op::LoadSigned {
        part,
        dst,
        base,
        offset: insn.off,
    })
}

fn store_immediate(size: Size, insn: Insn) -> Result<Op, EncodingFault>
    requires { HasOpcode (Some (Form.Store size OperandSource.Immediate)) insn.opc }
    ensures { SlotGives result insn }
{
    if insn.src != 0 {
        return Err(EncodingFault::Field);
    }
    let base = register(insn.dst)?;
    Ok(Op::Store {
        size,
        base,
        offset: insn.off,
        value: Operand::Immediate(insn.imm),
    })
}

fn store_register(size: Size, insn: Insn) -> Result<Op, EncodingFault>
    requires { HasOpcode (Some (Form.Store size OperandSource.Register)) insn.opc }
    ensures { SlotGives result insn }
{
    if insn.imm != 0 {
        return Err(EncodingFault::Field);
    }
    let (base, src) = registers(insn.dst, insn.src)?;
    Ok(Op::Store {
        size,
        base,
        offset: insn.off,
        value: Operand::From(src),
    })
}

fn wide(insn: Insn) -> Result<Op, EncodingFault>
    requires { HasOpcode (Some Form.Wide) insn.opc }
    ensures { SlotGives result insn }
{
    if insn.src != 0 || insn.off != 0 {
        return Err(EncodingFault::Field);
    }
    let dst = register(insn.dst)?;
    Ok(Op::Wide {
        dst,
        value: insn.imm.cast_unsigned() as u64,
    })
}
