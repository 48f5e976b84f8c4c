//! The replies to whoever is served at a place, as a writer.
ghost use Rattle.std.specs.Prelude.{◌≡◌, None, IfOk};
ghost use Rattle.std.specs.Io.{WritesAtMost};
ghost use Rattle.std.specs.Io.KnownBytes.{WriteAppends};
ghost use Rattle.acdm_partners.specs.Sending as sending;

use crate::outlet::Outlet;
use crate::places::PartnerPlace;
use std::io::{self, ErrorKind, Write};
use std::net::TcpStream;
use std::sync::{Arc, Wait};

/// Where the replies of a session go: to the connection whose lines they answer. A connection that
/// fails, or takes nothing for 30 seconds, is cut off; what is left for it is dropped. Where the session
/// serves no further one, the writer fails then, unless the board closes.
pub struct PartnerReplies<'r, Rt> {
    rt: &'r Rt,
    place: Arc<PartnerPlace>,
    outlet: Outlet<TcpStream>,
}

impl<Rt> Drop for PartnerReplies<'_, Rt> {
    fn drop(self) {
        let PartnerReplies {
            rt: _,
            place: _,
            outlet: _,
        } = self;
    }
}

impl<'r, Rt: Wait> PartnerReplies<'r, Rt> {
    /// The replies of the session at a place.
    pub fn new(rt: &'r Rt, place: Arc<PartnerPlace>) -> PartnerReplies<'r, Rt>
        ensures { result.outlet ≡ record { number = 0; log = None } }
    {
        PartnerReplies {
            rt,
            place,
            outlet: Outlet::new(),
        }
    }

    // Nothing goes to the connection any more. What was to go to it is dropped, or the writer fails.
    fn drop_rest(&mut self, dropped: usize) -> io::Result<usize>
        ensures all { IfOk result (λ n. n ≡ dropped) }
        ensures cut { sending.IsCut self.new.outlet }
    {
        self.outlet.cut();
        if self.place.terms.again || self.place.is_closing() {
            Ok(dropped)
        } else {
            Err(io::Error::from(ErrorKind::BrokenPipe))
        }
    }
}

impl<'r, Rt: Wait> Write for PartnerReplies<'r, Rt> {
    fn write(&mut self, buf: &[u8]) -> io::Result<usize>
        ensures bound { WritesAtMost result buf.now }
        ensures bytes { WriteAppends None None result buf.now }
        ensures replies { sending.Replies self.old.outlet self.new.outlet result buf.now }
    {
        if buf.is_empty() {
            return Ok(0);
        }
        let Some((number, stream)) = self.place.reply(self.rt) else {
            return self.drop_rest(buf.len());
        };
        if self.outlet.number() != number {
            self.outlet.turn_to(number, stream);
        }
        match self.outlet.send(number, buf) {
            Some(taken) => Ok(taken),
            None => {
                self.place.fail(self.rt, number);
                self.drop_rest(buf.len())
            }
        }
    }

    fn flush(&mut self) -> io::Result<()> {
        Ok(())
    }
}
