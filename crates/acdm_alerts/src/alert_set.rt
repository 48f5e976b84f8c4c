//! The alerts of a flight as one word.
ghost use Rattle.std.specs.Prelude.{◌≡◌, ◌==◌, ◌<◌, ◌^◌, IsTrue};
ghost use Rattle.acdm_record.specs.declared.field.Field.TheVariants.{Alerts};
ghost use Rattle.acdm_record.specs.Fields.{number_of, is_alert_word, set_number};
ghost use Rattle.acdm_alerts.specs.Decided.{with_rejection, with_locals};

use acdm_record::{Field, Record};
use std::marker::Model;

/// The alerts of a flight: bit k is CDM k for k from 1 to 14 without 6, bit 15 is CDM07a, bits 16
/// to 31 are the local alerts LOC00 to LOC15.
#[derive(Clone, Copy)]
pub struct AlertSet {
    word: u32,
}

impl Model for AlertSet {
    ghost use Rattle.std.specs.Prelude.{ℕ, ◌≡◌, true};
    ghost use Rattle.acdm_record.specs.Fields.{is_alert_word};

    ghost Value = { ℕ };

    ghost view = { λ s. s.word };

    ghost invariant = { λ s. is_alert_word s.word ≡ true };

    ghost inverse = { λ n. record { word = n } };
}

impl AlertSet {
    /// The set of this word, which has neither bit 0 nor bit 6.
    pub fn from_word(word: u32) -> AlertSet
        requires { IsTrue (is_alert_word word) }
        ensures { result ≡ word }
    {
        AlertSet { word }
    }

    /// The alerts that a record has.
    pub fn of(flight: &Record) -> AlertSet
        ensures { result ≡ number_of flight.now Alerts }
    {
        AlertSet::from_word(flight.get(Field::Alerts) as u32)
    }

    /// Puts the set into a record.
    pub fn store(self, flight: &mut Record)
        ensures { flight.new ≡ set_number flight.old Alerts self }
    {
        flight.set(Field::Alerts, u64::from(self.word));
    }

    /// The alert word.
    pub fn word(self) -> u32
        ensures value { result ≡ self }
        ensures allowed { IsTrue (is_alert_word result) }
    {
        self.word
    }

    /// The same alerts with CDM14, no automatic TOBT, set or clear. Only a TOBT program decides it
    /// (this project's profile).
    pub fn with_rejection(self, rejected: bool) -> AlertSet
        ensures { result ≡ with_rejection rejected self }
    {
        let bit = if rejected { 16384 } else { 0 };
        AlertSet::from_word(self.word / 32768 * 32768 + bit + self.word % 16384)
    }

    /// The same built-in alerts with other local alerts, of which LOC00 is the lowest bit.
    pub fn with_locals(self, locals: u16) -> AlertSet
        ensures { result ≡ with_locals locals self }
    {
        AlertSet::from_word(u32::from(locals) * 65536 + self.word % 65536)
    }

    /// Whether there is no alert.
    pub fn is_empty(self) -> bool
        ensures { result ≡ (self == 0) }
    {
        matches!(self.word, 0)
    }
}
