//! What an opcode alone says.

ghost use Rattle.std.specs.Prelude.{◌≡◌, ◌≢◌, ◌<◌, ◌+◌, ◌*◌, ◌/◌, ◌%◌, pos, MatchOption};
ghost use Rattle.bpf_decode.specs.Encoding.{number_of, sign_of, class_of, jump_number_of};
ghost use Rattle.bpf_decode.specs.Encoding.{jump_class_of};
ghost use Rattle.bpf_decode.specs.Forms.{HasOpcode, source_number_of};
ghost use Rattle.bpf_decode.specs.declared.op.Code.{Code};
ghost use Rattle.bpf_decode.specs.declared.op.Condition.{Condition};
ghost use Rattle.bpf_decode.specs.declared.form.Form.{Form};

use crate::op::{ByteOrder, Code, Condition, Part, Size, Width};

/// Where the second operand comes from: bit 3 of the opcode.
#[derive(Clone, Copy)]
pub(crate) enum OperandSource {
    Immediate,
    Register,
}

/// A row of the table of forms, as far as the opcode tells it.
#[derive(Clone, Copy)]
pub(crate) enum Form {
    Arith(Width, Code, OperandSource),
    Negate(Width),
    End(ByteOrder),
    Ja,
    Ja32,
    Jump(Width, Condition, OperandSource),
    Call,
    Exit,
    Load(Size),
    LoadSigned(Part),
    Store(Size, OperandSource),
    Wide,
}

/// The operation of a number, unsigned where there are two.
fn code_at(number: u8) -> Option<Code>
    ensures { MatchOption result ((code : Code) → number_of code ≢ number)
        (λ code. (number_of code ≡ number) × (sign_of code ≡ pos 0)) }
{
    match number {
        0 => Some(Code::Add),
        1 => Some(Code::Sub),
        2 => Some(Code::Mul),
        3 => Some(Code::Div),
        4 => Some(Code::Or),
        5 => Some(Code::And),
        6 => Some(Code::LeftShift),
        7 => Some(Code::RightShift),
        9 => Some(Code::Mod),
        10 => Some(Code::Xor),
        11 => Some(Code::Mov),
        12 => Some(Code::ArithmeticShift),
        _ => None,
    }
}

/// The condition of a number.
fn condition_at(number: u8) -> Option<Condition>
    ensures { MatchOption result ((condition : Condition) → jump_number_of condition ≢ number)
        (λ condition. jump_number_of condition ≡ number) }
{
    match number {
        1 => Some(Condition::Equal),
        2 => Some(Condition::Above),
        3 => Some(Condition::AtLeast),
        4 => Some(Condition::Meets),
        5 => Some(Condition::NotEqual),
        6 => Some(Condition::SignedAbove),
        7 => Some(Condition::SignedAtLeast),
        10 => Some(Condition::Below),
        11 => Some(Condition::AtMost),
        12 => Some(Condition::SignedBelow),
        13 => Some(Condition::SignedAtMost),
        _ => None,
    }
}

/// Bit 3 of an opcode.
fn source_of(opcode: u8) -> OperandSource
    ensures { opcode / 8 % 2 ≡ source_number_of result }
{
    if opcode / 8 % 2 == 0 {
        OperandSource::Immediate
    } else {
        OperandSource::Register
    }
}

/// The form of an opcode of the classes ALU and ALU64.
fn arith_form(width: Width, opcode: u8) -> Option<Form>
    requires { opcode % 8 ≡ class_of width }
    ensures { HasOpcode result opcode }
{
    match opcode {
        0x84 | 0x87 => Some(Form::Negate(width)),
        0xd4 => Some(Form::End(ByteOrder::Little)),
        0xdc => Some(Form::End(ByteOrder::Big)),
        0xd7 => Some(Form::End(ByteOrder::Swap)),
        _ => {
            let code = code_at(opcode / 16)?;
            Some(Form::Arith(width, code, source_of(opcode)))
        }
    }
}

/// The form of an opcode of the classes JMP32 and JMP.
fn jump_form(width: Width, opcode: u8) -> Option<Form>
    requires { opcode % 8 ≡ jump_class_of width }
    ensures { HasOpcode result opcode }
{
    match opcode {
        0x05 => Some(Form::Ja),
        0x06 => Some(Form::Ja32),
        0x85 => Some(Form::Call),
        0x95 => Some(Form::Exit),
        _ => {
            let condition = condition_at(opcode / 16)?;
            Some(Form::Jump(width, condition, source_of(opcode)))
        }
    }
}

/// The form of an opcode of the classes LD, LDX, ST and STX.
fn memory_form(opcode: u8) -> Option<Form>
    requires { opcode % 8 < 4 }
    ensures { HasOpcode result opcode }
{
    match opcode {
        0x18 => Some(Form::Wide),
        0x61 => Some(Form::Load(Size::Word)),
        0x69 => Some(Form::Load(Size::Half)),
        0x71 => Some(Form::Load(Size::Byte)),
        0x79 => Some(Form::Load(Size::Double)),
        0x81 => Some(Form::LoadSigned(Part::Low32)),
        0x89 => Some(Form::LoadSigned(Part::Low16)),
        0x91 => Some(Form::LoadSigned(Part::Low8)),
        0x62 => Some(Form::Store(Size::Word, OperandSource::Immediate)),
        0x6a => Some(Form::Store(Size::Half, OperandSource::Immediate)),
        0x72 => Some(Form::Store(Size::Byte, OperandSource::Immediate)),
        0x7a => Some(Form::Store(Size::Double, OperandSource::Immediate)),
        0x63 => Some(Form::Store(Size::Word, OperandSource::Register)),
        0x6b => Some(Form::Store(Size::Half, OperandSource::Register)),
        0x73 => Some(Form::Store(Size::Byte, OperandSource::Register)),
        0x7b => Some(Form::Store(Size::Double, OperandSource::Register)),
        _ => None,
    }
}

/// The form of an opcode, if any row has it.
pub(crate) fn form_at(opcode: u8) -> Option<Form>
    ensures { HasOpcode result opcode }
{
    match opcode % 8 {
        4 => arith_form(Width::W32, opcode),
        7 => arith_form(Width::W64, opcode),
        6 => jump_form(Width::W32, opcode),
        5 => jump_form(Width::W64, opcode),
        _ => memory_form(opcode),
    }
}
