//! Where bytes lie (this project's profile).

ghost use Rattle.std.specs.Prelude.{◌≡◌, ◌<◌, ◌^◌, ◌+ℤ◌, pos};
ghost use Rattle.bpf_semantics.specs.Machine.{place_of};
ghost use Rattle.bpf_semantics.specs.Places.{PlaceIs};

/// The first address of the record.
pub const RECORD_BASE: u64 = 0x1_0000_0000;

/// The first address of the stack.
pub const STACK_BASE: u64 = 0x2_0000_0000;

/// How many bytes the stack has.
pub const STACK_LENGTH: usize = 512;

/// Where some bytes lie.
#[derive(Clone, Copy, PartialEq, Eq, Debug)]
pub enum MemoryPlace {
    /// In the record, from this byte on.
    Record(usize),
    /// In the stack, from this byte on.
    Stack(usize),
    /// In no region, or not all in one.
    Nowhere,
}

/// Where so many bytes lie from a word plus an offset on, which are added as whole numbers, beside
/// a record of `record_length` bytes.
pub fn place_at(record_length: usize, base: u64, offset: i32, count: usize) -> MemoryPlace
    requires short { record_length < 2 ^ 16 }
    requires few { count < 2 ^ 32 }
    ensures { PlaceIs result record_length count
        (place_of record_length (pos base +ℤ offset) count) }
{
    match base.checked_add_signed(offset as i64) {
        Some(address) => region(record_length, address, count),
        None => MemoryPlace::Nowhere,
    }
}

/// Where so many bytes from an address on lie.
fn region(record_length: usize, address: u64, count: usize) -> MemoryPlace
    requires short { record_length < 2 ^ 16 }
    requires few { count < 2 ^ 32 }
    ensures { PlaceIs result record_length count (place_of record_length (pos address) count) }
{
    let address = address as usize;
    let record = RECORD_BASE as usize;
    let stack = STACK_BASE as usize;
    if address < record || address > stack + STACK_LENGTH {
        return MemoryPlace::Nowhere;
    }
    if address + count <= record + record_length {
        return MemoryPlace::Record(address - record);
    }
    if stack <= address && address + count <= stack + STACK_LENGTH {
        return MemoryPlace::Stack(address - stack);
    }
    MemoryPlace::Nowhere
}
