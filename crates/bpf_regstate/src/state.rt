//! What is known before an instruction.

ghost use Rattle.std.specs.Prelude.{◌≡◌, ◌≤◌, ◌-◌, ◌*◌, ◌^◌, ◌∷◌, ◌&&◌, drop, length};
ghost use Rattle.std.specs.Int.{byte_len};
ghost use Rattle.bpf_helpers.specs.Promise.{signature_of};
ghost use Rattle.bpf_semantics.specs.Machine.{size_type};
ghost use Rattle.bpf_regstate.specs.Shape.{IsRange, IsReg};
ghost use Rattle.bpf_regstate.specs.Effect.{answer_reg, range_of};
ghost use Rattle.bpf_regstate.specs.Narrowing.{immediate_word, is_low, narrows};
ghost use Rattle.bpf_regstate.specs.declared.reg.Reg.TheVariants.{Uninit};

use crate::arith::{all_of, operate_on_ranges};
use crate::length::Length;
use crate::marks::{are_marked, join_words, mark_from};
use crate::narrowing::{narrow, narrows};
use crate::places::place_of_access;
use crate::reg::{Reg, join_each};
use crate::single::{extend_words, negate_words, order_words, single};
use crate::words::{forget, is_word, join_kept, keep, word_at};
use bpf_decode::{Condition, Op, Operand, Register, Size, Width};
use bpf_helpers::{Range, Sigs};
use bpf_semantics::{MemoryPlace, RECORD_BASE, STACK_BASE, STACK_LENGTH, byte_count};
use std::alloc::{AllocError, Global};
use std::marker::Model;

/// What is known before an instruction: of each register, which bytes of the stack were written on
/// every way there, and of aligned words of the stack. Contracts see it as a `Shape`.
pub struct State {
    registers: [Reg; 11],
    marks: [u64; 8],
    words: Vec<Reg>,
}

impl Drop for State {
    fn drop(self) {
        let State {
            registers: _,
            marks: _,
            words: _,
        } = self;
    }
}

impl Model for State {
    ghost use Rattle.bpf_regstate.specs.Shape.{Shape, IsShape};
    ghost use Rattle.bpf_regstate.specs.Marks.{marks_of};

    ghost Value = { Shape };

    ghost view = { λ s. record {
      registers = s.registers;
      marks = marks_of s.marks;
      words = s.words.items;
    } };

    ghost invariant = { λ s.
        IsShape (record {
          registers = s.registers;
          marks = marks_of s.marks;
          words = s.words.items;
        }) };
}

/// The greatest number of this size.
fn greatest(size: Size) -> u64
    ensures { result ≡ 2 ^ (8 * byte_len (size_type size)) - 1 }
{
    match size {
        Size::Byte => 0xff,
        Size::Half => 0xffff,
        Size::Word => 0xffff_ffff,
        Size::Double => u64::MAX,
    }
}

/// The range of a register's words; every word where nothing is known.
fn range_of(reg: Reg) -> Range
    requires { IsReg reg }
    ensures value { result ≡ range_of reg }
    ensures range { IsRange result }
{
    match reg {
        Reg::Uninit => all_of(Width::W64),
        Reg::Known(range) => range,
    }
}

/// Changes the registers as a call does: the answer in r0, nothing known of r1 to r5, and the
/// others as they were.
fn after_call(registers: &mut [Reg], answer: Reg)
    requires { 6 ≤ length registers.old }
    ensures { registers.new ≡ answer ∷ Uninit ∷ Uninit ∷ Uninit ∷ Uninit ∷ Uninit
        ∷ drop 6 registers.old }
{
    let none = Reg::Uninit;
    registers[..6].copy_from_slice(&[answer, none, none, none, none, none]);
}

/// What is known of the answer of the helper of this number.
fn answer_of(sigs: &Sigs, helper: u32) -> Reg
    ensures value { result ≡ answer_reg (signature_of sigs.now helper) }
    ensures range { IsReg result }
{
    match sigs.get(helper) {
        Some(signature) => Reg::Known(signature.answer()),
        None => Reg::Uninit,
    }
}

impl State {
    ghost use Rattle.std.specs.Prelude.{◌≡◌, ◌<◌, ◌≤◌, ◌^◌, ◌+◌, ◌-◌, Some, None, if◌then◌else◌};
    ghost use Rattle.std.specs.Prelude.{is_ok, IfOk, OnOk};
    ghost use Rattle.bpf_semantics.specs.Machine.{InStack};
    ghost use Rattle.bpf_decode.specs.declared.op.Op.TheVariants.{Call};
    ghost use Rattle.bpf_decode.specs.declared.op.Operand.TheVariants.{From, Immediate};
    ghost use Rattle.bpf_regstate.specs.Shape.{IsRange, IsReg, IsShape, known, known_word};
    ghost use Rattle.bpf_regstate.specs.Effect.{after_op, load_range, operand_reg, range_of};
    ghost use Rattle.bpf_regstate.specs.Effect.{marked, store_marks, store_words, stored_words};
    ghost use Rattle.bpf_regstate.specs.Effect.{with_register};
    ghost use Rattle.bpf_regstate.specs.Ranges.{is_single};
    ghost use Rattle.bpf_regstate.specs.Faults.{all_marked};
    ghost use Rattle.bpf_regstate.specs.Joins.{joined};
    ghost use Rattle.bpf_regstate.specs.Narrowing.{refined};
    ghost use Rattle.bpf_regstate.specs.Lengths.{bytes_in};
    ghost use Rattle.bpf_regstate.specs.States.{start_shape};
    ghost use Rattle.bpf_regstate.specs.declared.reg.Reg.TheVariants.{Known};

    /// What is known before the first instruction (this project's profile): r1 is the first address
    /// of a record of this length, r2 is the length, r3 a moment of 32 bits, r4 a milestone from 1 to 16,
    /// and r10 the end of the stack, of which no byte is written. It takes no memory.
    #[tactic(auto, unfolding(crate::specs::States::start_shape))]
    pub fn start(alloc: Global, record_length: Length) -> State
        ensures { result ≡ start_shape (bytes_in record_length) }
    {
        let none = Reg::Uninit;
        let record = Reg::Known(single(RECORD_BASE));
        let length = Reg::Known(single(record_length.bytes() as u64));
        let moment = Reg::Known(Range {
            lo: 0,
            hi: 0xffff_ffff,
        });
        let milestone = Reg::Known(Range { lo: 1, hi: 16 });
        let end = Reg::Known(single(STACK_BASE + STACK_LENGTH as u64));
        State {
            registers: [
                none, record, length, moment, milestone, none, none, none, none, none, end,
            ],
            marks: [0; 8],
            words: Vec::new(alloc),
        }
    }

    /// What is known of a register.
    pub fn register(&self, register: Register) -> Reg
        ensures value { result ≡ known self.now register }
        ensures range { IsReg result }
        ensures shape { IsShape self.now }
    {
        self.registers[register.index()]
    }

    /// Whether so many bytes of the stack from a place on are marked as written.
    pub fn all_marked(&self, at: usize, count: usize) -> bool
        ensures { result ≡ all_marked self.now at count }
    {
        are_marked(&self.marks, at, count)
    }

    /// Changes what is known of a register.
    fn set(&mut self, register: Register, range: Range)
        requires { IsRange range }
        ensures { self.new ≡ with_register self.old register (Known range) }
    {
        let place = register.index();
        self.registers[place] = Reg::Known(range);
    }

    /// The range of a register's words.
    fn range_of(&self, register: Register) -> Range
        ensures value { result ≡ range_of (known self.now register) }
        ensures range { IsRange result }
    {
        range_of(self.register(register))
    }

    /// The range of the second operand.
    fn operand(&self, operand: Operand) -> Range
        ensures value { result ≡ range_of (operand_reg self.now operand) }
        ensures range { IsRange result }
    {
        match operand {
            Operand::From(register) => self.range_of(register),
            Operand::Immediate(value) => single((value as i64).cast_unsigned()),
        }
    }

    /// Keeps what both have in common: a register is uninitialised if either says so, else it has
    /// the least range that has both, a byte of the stack is marked if both mark it, and a word of
    /// the stack is kept if both keep it, with the least range that has both.
    pub fn join(&mut self, other: &State)
        ensures { self.new ≡ joined self.old other.now }
    {
        join_each(&mut self.registers, &other.registers);
        join_words(&mut self.marks, &other.marks);
        join_kept(&mut self.words, other.words.as_slice());
    }

    /// Marks what a store writes from this place of the stack on, if there is one address where it
    /// goes.
    fn mark(&mut self, address: Range, at: usize, count: usize)
        requires { at + count ≤ 512 }
        ensures { self.new ≡ record {
          registers = self.old.registers;
          marks = if is_single address then marked self.old.marks (InStack at) count
              else self.old.marks;
          words = self.old.words;
        } }
    {
        if address.lo == address.hi {
            mark_from(&mut self.marks, at, count);
        }
    }

    /// Keeps the value of a store of one aligned word, and nothing of the words of which any other
    /// store may touch a byte, from this place of the stack on. `Err` only where there is no
    /// memory, and then nothing has changed.
    fn put_word(
        &mut self,
        address: Range,
        at: usize,
        count: usize,
        value: Range,
    ) -> Result<(), AllocError>
        requires range { IsRange address }
        requires value { IsRange value }
        requires some { 0 < count }
        requires inside { at + (address.hi - address.lo + count) ≤ 512 }
        ensures { self.new ≡ record {
          registers = self.old.registers;
          marks = self.old.marks;
          words = if is_ok result
              then stored_words self.old.words address (InStack at) count value
              else self.old.words;
        } }
    {
        if is_word(address, at, count) {
            keep(&mut self.words, word_at(at), value)?;
        } else {
            let touched = (address.hi - address.lo) as usize + count;
            let words = (at % 8 + touched + 7) / 8;
            forget(&mut self.words, word_at(at + touched - 1), words);
        }
        Ok(())
    }

    /// A store: of the words and of the marks of the stack.
    fn store(
        &mut self,
        record_length: usize,
        address: Range,
        offset: i32,
        count: usize,
        value: Range,
    ) -> Result<(), AllocError>
        requires short { record_length < 2 ^ 16 }
        requires range { IsRange address }
        requires value { IsRange value }
        requires some { 0 < count }
        requires few { count ≤ 8 }
        ensures { OnOk result (self.new ≡ record {
          registers = self.old.registers;
          marks = store_marks record_length self.old.marks address offset count;
          words = store_words record_length self.old.words address offset count value;
        }) }
    {
        if let MemoryPlace::Stack(at) = place_of_access(record_length, address, offset, count) {
            self.put_word(address, at, count, value)?;
            self.mark(address, at, count);
        }
        Ok(())
    }

    /// The range of what a load gives.
    fn load(&self, record_length: usize, address: Range, offset: i32, size: Size) -> Range
        requires short { record_length < 2 ^ 16 }
        requires range { IsRange address }
        ensures value { result
            ≡ load_range record_length self.now.words address offset (byte_len (size_type size)) }
        ensures range { IsRange result }
    {
        let count = byte_count(size);
        if let MemoryPlace::Stack(at) = place_of_access(record_length, address, offset, count) {
            if is_word(address, at, count) {
                return range_of(self.word(word_at(at)));
            }
        }
        Range {
            lo: 0,
            hi: greatest(size),
        }
    }

    /// What is known of an aligned word of the stack: word 0 is that at its end, and word `w` has
    /// the eight bytes from 504 - 8 * `w` on.
    pub fn word(&self, word: usize) -> Reg
        ensures value { result ≡ known_word self.now word }
        ensures range { IsReg result }
    {
        match self.words.get(word) {
            Some(known) => *known,
            None => Reg::Uninit,
        }
    }

    /// The same again. `Err` only where there is no memory.
    pub fn copy(&self) -> Result<State, AllocError>
        ensures { IfOk result (λ state. state ≡ self.now) }
    {
        let words = self.words.clone()?;
        Ok(State {
            registers: self.registers,
            marks: self.marks,
            words,
        })
    }

    /// What is known after an instruction, of those that are no conditional jumps (this project's
    /// profile). Jumps and the exit change nothing. `Err` only where there is no memory.
    pub fn transfer(&self, record_length: Length, op: Op, sigs: &Sigs) -> Result<State, AllocError>
        ensures { IfOk result (λ after.
            after ≡ after_op (bytes_in record_length) sigs.now op self.now) }
    {
        let mut after = self.copy()?;
        after.advance(record_length.bytes(), op, sigs)?;
        Ok(after)
    }

    /// Goes on to what is known after an instruction, as `transfer` has it, in place. `Err` only
    /// where there is no memory.
    #[inline(always)]
    pub fn advance(&mut self, record_length: usize, op: Op, sigs: &Sigs) -> Result<(), AllocError>
        requires { record_length < 2 ^ 16 }
        ensures { OnOk result (self.new ≡ after_op record_length sigs.now op self.old) }
    {
        match op {
            Op::Arith {
                width,
                code,
                dst,
                operand,
            } => self.set(
                dst,
                operate_on_ranges(code, width, self.range_of(dst), self.operand(operand)),
            ),
            Op::Negate { width, dst } => self.set(dst, negate_words(width, self.range_of(dst))),
            Op::Extend {
                width,
                part,
                dst,
                src,
            } => self.set(dst, extend_words(width, part, self.range_of(src))),
            Op::End { order, bytes, dst } => {
                self.set(dst, order_words(order, bytes, self.range_of(dst)))
            }
            Op::Load {
                size,
                dst,
                base,
                offset,
            } => self.set(
                dst,
                self.load(record_length, self.range_of(base), offset as i32, size),
            ),
            Op::LoadSigned { dst, .. } => self.set(dst, all_of(Width::W64)),
            Op::Store {
                size,
                base,
                offset,
                value,
            } => {
                let address = self.range_of(base);
                let value = self.operand(value);
                self.store(
                    record_length,
                    address,
                    offset as i32,
                    byte_count(size),
                    value,
                )?
            }
            Op::Wide { dst, value } => self.set(dst, single(value)),
            Op::Call { helper } => self.call(sigs, helper),
            Op::Jump { .. } => {}
            Op::Ja { .. } => {}
            Op::Ja32 { .. } => {}
            Op::Exit => {}
            Op::Tail => {}
        }
        Ok(())
    }

    /// A call: nothing is known of r1 to r5 after it, and r0 has an answer that is promised.
    fn call(&mut self, sigs: &Sigs, helper: u32)
        ensures { self.new ≡ after_op 0 sigs.now (Call helper) self.old }
    {
        after_call(&mut self.registers, answer_of(sigs, helper));
    }

    /// What is known along one edge of a conditional jump: where the condition holds if `taken`,
    /// else where it doesn't. `None` where no words of the two ranges lead there. Unsigned
    /// comparisons of two different registers, or of a register and an immediate, narrow both
    /// ranges; comparisons of low halves only where both ranges lie below 2^32 (this project's
    /// profile). `Err` only where there is no memory.
    pub fn refine(
        &self,
        width: Width,
        condition: Condition,
        dst: Register,
        operand: Operand,
        taken: bool,
    ) -> Result<Option<State>, AllocError>
        ensures { IfOk result (λ after.
            after ≡ refined width condition dst operand taken self.now) }
    {
        let mut after = self.copy()?;
        if after.follow(width, condition, dst, operand, taken) {
            Ok(Some(after))
        } else {
            Ok(None)
        }
    }

    /// Goes on to what is known along one edge of a conditional jump, as `refine` has it, in place;
    /// `false` where no words lead there.
    pub fn follow(
        &mut self,
        width: Width,
        condition: Condition,
        dst: Register,
        operand: Operand,
        taken: bool,
    ) -> bool
        ensures { refined width condition dst operand taken self.old
            ≡ (if result then Some self.new else None) }
    {
        match operand {
            Operand::From(src) => self.follow_registers(width, condition, dst, src, taken),
            Operand::Immediate(value) => {
                self.follow_immediate(width, condition, dst, value, taken)
            }
        }
    }

    /// The same for two registers.
    fn follow_registers(
        &mut self,
        width: Width,
        condition: Condition,
        dst: Register,
        src: Register,
        taken: bool,
    ) -> bool
        ensures { refined width condition dst (From src) taken self.old
            ≡ (if result then Some self.new else None) }
    {
        if dst.index() == src.index() {
            return true;
        }
        let a = self.range_of(dst);
        let b = self.range_of(src);
        if !tells(condition, width, a, b) {
            return true;
        }
        match narrow(condition, taken, a, b) {
            Some((left, right)) => {
                self.set(dst, left);
                self.set(src, right);
                true
            }
            None => false,
        }
    }

    /// The same for a register and an immediate.
    fn follow_immediate(
        &mut self,
        width: Width,
        condition: Condition,
        dst: Register,
        value: i32,
        taken: bool,
    ) -> bool
        ensures { refined width condition dst (Immediate value) taken self.old
            ≡ (if result then Some self.new else None) }
    {
        let a = self.range_of(dst);
        let b = single(word_of(width, value));
        if !tells(condition, width, a, b) {
            return true;
        }
        match narrow(condition, taken, a, b) {
            Some((left, _)) => {
                self.set(dst, left);
                true
            }
            None => false,
        }
    }
}

/// The word with which a jump of the width compares: the sign-extended immediate, of the low halves
/// its 32 bits.
fn word_of(width: Width, value: i32) -> u64
    ensures { result ≡ immediate_word width value }
{
    match width {
        Width::W32 => value.cast_unsigned() as u64,
        Width::W64 => (value as i64).cast_unsigned(),
    }
}

/// Whether the low parts of the words of a range are the words.
fn is_low(width: Width, range: Range) -> bool
    ensures { result ≡ is_low width range }
{
    match width {
        Width::W32 => range.hi < 0x1_0000_0000,
        Width::W64 => true,
    }
}

/// Whether a comparison tells anything of the ranges of two different operands.
fn tells(condition: Condition, width: Width, a: Range, b: Range) -> bool
    ensures { result ≡ (narrows condition && is_low width a && is_low width b) }
{
    narrows(condition) && is_low(width, a) && is_low(width, b)
}
