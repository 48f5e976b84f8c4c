//! What the replies of a session go to: one connection after the other.
ghost use Rattle.std.specs.Prelude.{◌≡◌, ◌≤◌, ◌<◌, [], None, take, length, IsSome, MatchOption, IfSome};
ghost use Rattle.acdm_partners.specs.Sending.{IsCut, OutletView, Takes};

use crate::patient::Patient;
use acdm_lines::Sink;
use std::io::Write;
use std::marker::Model;

/// What replies go to: the connection of this number, until it is cut off. Proofs know all that it took.
#[derive(Drop)]
pub(crate) struct Outlet<W: Write> {
    number: u64,
    stream: Option<Patient<Sink<W>>>,
}

impl<W: Write> Model for Outlet<W> {
    ghost use Rattle.std.specs.Option.{option_map};
    ghost use Rattle.acdm_partners.specs.Sending.{OutletView};

    ghost Value = { OutletView };

    ghost view = { λ o. record { number = o.number; log = option_map (λ p. p.stream.log) o.stream } };
}

impl<W: Write + Drop> Outlet<W> {
    /// No connection yet.
    pub(crate) fn new() -> Outlet<W>
        ensures { result ≡ record { number = 0; log = None } }
    {
        Outlet {
            number: 0,
            stream: None,
        }
    }

    /// The number of the connection.
    pub(crate) fn number(&self) -> u64
        ensures { result ≡ self.now.number }
    {
        self.number
    }

    /// Turns to the connection of this number, which has taken nothing yet.
    pub(crate) fn turn_to(&mut self, number: u64, stream: Option<W>)
        ensures number { self.new.number ≡ number }
        ensures fresh { IfSome self.new.log (λ log. log ≡ []) }
    {
        self.number = number;
        self.stream = match stream {
            Some(stream) => Some(Patient::new(Sink::new(stream))),
            None => None,
        };
    }

    /// Nothing goes to the connection any more.
    pub(crate) fn cut(&mut self)
        ensures { self.new ≡ record { number = self.old.number; log = None } }
    {
        self.stream = None;
    }

    /// Hands bytes to the connection that is served, which is that of this number, and says how many it
    /// took. Nothing where it took none: it failed, or there is none.
    pub(crate) fn send(&mut self, served: u64, buf: &[u8]) -> Option<usize>
        requires { self.old.number ≡ served }
        ensures number { self.new.number ≡ self.old.number }
        ensures bound { IfSome result (λ n. (0 < n) × (n ≤ length buf.now)) }
        ensures took { IfSome result (λ n. Takes self.old self.new (take n buf.now)) }
    {
        let stream = self.stream.as_mut()?;
        match stream.write(buf) {
            Ok(taken) if taken > 0 => Some(taken),
            _ => None,
        }
    }
}
