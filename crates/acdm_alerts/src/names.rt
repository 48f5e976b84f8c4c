//! The names of alerts, as they are written.
ghost use Rattle.std.specs.Prelude.{◌≡◌, ◌+◌, ◌≤◌, ◌++◌, ◌∷◌, [], length, if◌then◌else◌, OnOk};
ghost use Rattle.std.specs.Io.KnownBytes.{Appends};
ghost use Rattle.acdm_alerts.specs.Names.{name_of, names_text};

use crate::alert_set::AlertSet;
use arrayvec::ArrayVec;
use std::io::{self, Write};

/// The name of an alert by its bit, such as `CDM07a`; empty where no set has the bit (0, 6, and from 32
/// on).
pub fn name_of(bit: u32) -> &'static str
    ensures name { result.now ≡ name_of bit }
    ensures short { length result.now ≤ 6 }
{
    match bit {
        1 => "CDM01",
        2 => "CDM02",
        3 => "CDM03",
        4 => "CDM04",
        5 => "CDM05",
        7 => "CDM07",
        8 => "CDM08",
        9 => "CDM09",
        10 => "CDM10",
        11 => "CDM11",
        12 => "CDM12",
        13 => "CDM13",
        14 => "CDM14",
        15 => "CDM07a",
        16 => "LOC00",
        17 => "LOC01",
        18 => "LOC02",
        19 => "LOC03",
        20 => "LOC04",
        21 => "LOC05",
        22 => "LOC06",
        23 => "LOC07",
        24 => "LOC08",
        25 => "LOC09",
        26 => "LOC10",
        27 => "LOC11",
        28 => "LOC12",
        29 => "LOC13",
        30 => "LOC14",
        31 => "LOC15",
        _ => "",
    }
}

// Adds the name of a bit that is set, and a comma before it unless it is the first.
fn push_name<const N: usize>(names: &mut ArrayVec<u8, N>, is_first: bool, bit: u32)
    requires { length names.old.items + 7 ≤ N }
    ensures text { names.new.items ≡ names.old.items
        ++ ((if is_first then [] else 44 ∷ []) ++ name_of bit) }
    ensures short { length names.new.items ≤ length names.old.items + 7 }
{
    if !is_first {
        names.push(b',');
    }
    if names
        .try_extend_from_slice(name_of(bit).as_bytes())
        .is_err()
    {
        unreachable!();
    }
}

/// Adds the names of the alerts, as `names_of` gives them, behind what stands there. There is room
/// for all names, which are at most 217 bytes.
pub fn push_names<const N: usize>(alerts: AlertSet, text: &mut ArrayVec<u8, N>)
    requires { length text.old.items + 217 ≤ N }
    ensures names { text.new.items ≡ text.old.items ++ names_text alerts }
    ensures short { length text.new.items ≤ length text.old.items + 217 }
{
    let word = u64::from(alerts.word());
    let mut is_first = true;
    let mut bit = 1;
    while word >> bit != 0 {
        bit += (word >> bit).trailing_zeros();
        push_name(text, is_first, bit);
        is_first = false;
        bit += 1;
    }
}

/// The names of the alerts, by rising bit, with commas between: `CDM08,CDM07a`; no byte for the
/// empty set.
pub fn names_of(alerts: AlertSet) -> ArrayVec<u8, 224>
    ensures { result.items ≡ names_text alerts }
{
    let mut names = ArrayVec::new();
    push_names(alerts, &mut names);
    names
}

/// Writes the names of the alerts as `names_of` gives them. It writes nothing for the empty set.
pub fn write_names<W: Write>(alerts: AlertSet, writer: &mut W) -> io::Result<()>
    ensures { OnOk result (Appends (W.contents writer.old) (W.contents writer.new)
        (names_text alerts)) }
{
    writer.write_all(names_of(alerts).as_slice())
}
