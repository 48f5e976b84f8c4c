//! One slot of eight bytes.

/// The fields of a slot (RFC 9669, section 3): the opcode, the numbers of the destination and the
/// source register, the offset and the immediate.
#[derive(Clone, Copy, PartialEq, Eq, Debug)]
pub struct Insn {
    pub opc: u8,
    pub dst: u8,
    pub src: u8,
    pub off: i16,
    pub imm: i32,
}

impl Insn {
    ghost use Rattle.std.specs.Prelude.{◌≡◌, ◌≤◌, ◌<◌, length};
    ghost use Rattle.bpf_decode.specs.Slots.{fields, slot_bytes};

    /// The fields of the first eight bytes.
    pub fn from_bytes(bytes: &[u8]) -> Insn
        requires { 8 ≤ length bytes.now }
        ensures { result ≡ fields bytes.now }
    {
        Insn {
            opc: bytes[0],
            dst: bytes[1] % 16,
            src: bytes[1] / 16,
            off: i16::from_le_bytes([bytes[2], bytes[3]]),
            imm: i32::from_le_bytes([bytes[4], bytes[5], bytes[6], bytes[7]]),
        }
    }

    /// The eight bytes of the fields. Each register field has four bits.
    pub fn to_bytes(self) -> [u8; 8]
        requires dst { self.dst < 16 }
        requires src { self.src < 16 }
        ensures { result ≡ slot_bytes self }
    {
        let [off_low, off_high] = self.off.to_le_bytes();
        let [first, second, third, fourth] = self.imm.to_le_bytes();
        let registers = self.src * 16 + self.dst;
        [
            self.opc, registers, off_low, off_high, first, second, third, fourth,
        ]
    }
}
