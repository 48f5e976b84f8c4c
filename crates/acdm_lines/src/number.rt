//! The number that a text names.
ghost use Rattle.std.specs.Prelude.{◌≡◌, IfSome, IsNone};
ghost use Rattle.acdm_lines.specs.Numbers.{NamesNoNumber, NamesNumber, is_plain};

// Whether no sign stands before the digits of a text, and no zero but that of 0.
fn is_plain(text: &[u8]) -> bool
    ensures { result ≡ is_plain text.now }
{
    match text.split_first() {
        Some((first, rest)) if !rest.is_empty() => *first != b'+' && *first != b'0',
        _ => true,
    }
}

/// The number below 2^64 that a text names by its digits, with no sign and no zero before them.
pub fn number_in(text: &[u8]) -> Option<u64>
    ensures named { IfSome result (NamesNumber text.now) }
    ensures none { IsNone result → NamesNoNumber text.now }
{
    if !is_plain(text) {
        return None;
    }
    let Ok(text) = str::from_utf8(text) else {
        return None;
    };
    match text.parse::<u64>() {
        Ok(number) => Some(number),
        Err(_) => None,
    }
}
