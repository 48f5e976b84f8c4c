//! Short texts of printable bytes, such as a callsign.
ghost use Rattle.std.specs.Prelude.{◌≡◌, ◌≤◌, ◌↔◌, IsTrue, IsSome, IfSome, length};
ghost use Rattle.acdm_record.specs.Fields.{is_text};
ghost use Rattle.acdm_record.specs.Texts.{text_from};

use crate::part::{before_zero, write_padded};
use std::marker::Model;

pub(crate) fn is_printable(bytes: &[u8]) -> bool
    ensures { result ≡ is_text bytes.now }
{
    bytes.iter().all(|byte| 33 <= *byte && *byte <= 126)
}

/// A text of 1 to N bytes, each from 0x21 to 0x7E. It takes N bytes.
#[derive(Drop)]
pub struct Text<const N: usize> {
    bytes: [u8; N],
}

impl<const N: usize> Model for Text<N> {
    ghost use Rattle.std.specs.Prelude.{ℕ, List};
    ghost use Rattle.acdm_record.specs.Texts.{kept_text, IsKept};

    ghost Value = { List ℕ };

    ghost view = { λ t. kept_text t.bytes };

    ghost invariant = { λ t. IsKept N (kept_text t.bytes) };
}

impl<const N: usize> Text<N> {
    /// The text of these bytes, if they are 1 to N and printable.
    pub fn from_bytes(bytes: &[u8]) -> Option<Text<N>>
        ensures { result ≡ text_from N bytes.now }
    {
        if bytes.is_empty() || bytes.len() > N || !is_printable(bytes) {
            return None;
        }
        let mut kept = [0; N];
        write_padded(&mut kept, bytes);
        Some(Text { bytes: kept })
    }

    /// The bytes of the text.
    pub fn as_bytes(&self) -> &[u8]
        ensures same { result.now ≡ self.now }
        ensures printable { IsTrue (is_text self.now) }
        ensures some { 1 ≤ length self.now }
        ensures short { length self.now ≤ N }
    {
        before_zero(&self.bytes)
    }
}
