//! How many bytes loads and stores move (RFC 9669, section 5).

ghost use Rattle.std.specs.Prelude.{◌≡◌, ◌≤◌};
ghost use Rattle.std.specs.Int.{byte_len};
ghost use Rattle.bpf_decode.specs.Words.{part_type};
ghost use Rattle.bpf_semantics.specs.Machine.{size_type};

use bpf_decode::{Part, Size};

/// How many bytes a load or a store of this size moves: 1, 2, 4 or 8.
pub fn byte_count(size: Size) -> usize
    ensures value { result ≡ byte_len (size_type size) }
    ensures few { result ≤ 8 }
    ensures some { 1 ≤ result }
{
    match size {
        Size::Byte => 1,
        Size::Half => 2,
        Size::Word => 4,
        Size::Double => 8,
    }
}

/// How many bytes a load that sign-extends this part moves: 1, 2 or 4.
pub fn part_byte_count(part: Part) -> usize
    ensures value { result ≡ byte_len (part_type part) }
    ensures few { result ≤ 8 }
    ensures some { 1 ≤ result }
{
    match part {
        Part::Low8 => 1,
        Part::Low16 => 2,
        Part::Low32 => 4,
    }
}
