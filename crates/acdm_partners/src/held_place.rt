//! What the lock of a place holds: who is served there, and its connection.
ghost use Rattle.std.specs.Prelude.{◌≡◌, None, Some, IfSome, IfNone, option_map, is_some, true};
ghost use Rattle.acdm_place.specs.declared.events.Event.{Event};
ghost use Rattle.acdm_place.specs.Turns.{after, told};

use acdm_place::{Actions, Event, KeptPlace};
use std::net::{Shutdown, TcpStream};

/// A connection whose lines are to be heard, and what was read of it already.
#[derive(Drop)]
pub(crate) struct Arrived {
    pub(crate) stream: TcpStream,
    pub(crate) text: Vec<u8>,
}

/// The connection that is served: its number at its place, and what it is cut off by. Also what its replies go to
/// until they are asked for, and itself until its session hears it.
#[derive(Drop)]
pub(crate) struct ServedPartner {
    number: u64,
    open: TcpStream,
    replies: Option<TcpStream>,
    arrived: Option<Arrived>,
}

impl ServedPartner {
    /// The connection of this number. `None` where the system gives no further handle of it.
    pub(crate) fn new(number: u64, arrived: Arrived) -> Option<ServedPartner>
        ensures { IfSome result (λ s. s.number ≡ number) }
    {
        let open = arrived.stream.try_clone().ok()?;
        let replies = arrived.stream.try_clone().ok()?;
        Some(ServedPartner {
            number,
            open,
            replies: Some(replies),
            arrived: Some(arrived),
        })
    }
}

// Closes a connection, if there is one.
fn close(served: Option<ServedPartner>) {
    if let Some(served) = served {
        let _ = served.open.shutdown(Shutdown::Both);
    }
}

/// Who is served at a place, and its connection.
#[derive(Drop)]
pub(crate) struct HeldPlace {
    place: KeptPlace,
    served: Option<ServedPartner>,
    // The connection that is held is the one that is served.
    ghost same: { option_map (λ s. s.number) served ≡ place.served },
}

impl HeldPlace {
    /// A place where nobody has connected. Whether its session goes on with the next connection when one has ended.
    pub(crate) fn new(again: bool) -> HeldPlace {
        HeldPlace {
            place: KeptPlace::new(again),
            served: None,
        }
    }

    /// Who is served there, as it may be asked.
    pub(crate) fn place(&self) -> &KeptPlace
        ensures { result.now ≡ self.now.place }
    {
        &self.place
    }

    /// Has an event happen by which nobody is served anew, and says what is to be done then. Who is cut off is closed.
    pub(crate) fn step(&mut self, event: Event) -> Actions
        requires { (told self.old.place event).serve ≡ None }
        ensures place { self.new.place ≡ after self.old.place event }
        ensures actions { result ≡ told self.old.place event }
    {
        let actions = self.place.step(event);
        if actions.cut_off.is_some() {
            close(self.served.take());
        }
        actions
    }

    /// The first line of a connection is there, and may be a command: it takes the place, or is closed. Says whether
    /// it takes it.
    pub(crate) fn arrive(&mut self, newcomer: ServedPartner) -> bool
        ensures place { self.new.place ≡ after self.old.place (Event.FirstLine newcomer.number true true) }
        ensures taken { result ≡ is_some (told self.old.place (Event.FirstLine newcomer.number true true)).serve }
    {
        let actions = self
            .place
            .step(Event::FirstLine(newcomer.number, true, true));
        if actions.serve.is_none() {
            return false;
        }
        close(self.served.take());
        self.served = Some(newcomer);
        true
    }

    /// The session comes for the next connection: its number, and itself, if there is one.
    pub(crate) fn next(&mut self) -> Option<(u64, Arrived)>
        ensures place { self.new.place ≡ after self.old.place Event.NextAsked }
        ensures heard { IfSome result (λ n. (told self.old.place Event.NextAsked).hear ≡ Some n.0) }
    {
        let actions = self.step(Event::NextAsked);
        let number = actions.hear?;
        let served = self.served.as_mut()?;
        let arrived = served.arrived.take()?;
        Some((number, arrived))
    }

    /// The session has a reply: the number of the connection that it goes to, and what it goes to there, where that was
    /// not asked for before. `None` where it goes nowhere.
    pub(crate) fn reply(&mut self) -> Option<(u64, Option<TcpStream>)>
        ensures place { self.new.place ≡ after self.old.place Event.ReplyMade }
        ensures goes { IfSome result (λ r. (told self.old.place Event.ReplyMade).hand_on_to ≡ Some r.0) }
        ensures dropped { result ≡ None → (told self.old.place Event.ReplyMade).hand_on_to ≡ None }
    {
        let actions = self.step(Event::ReplyMade);
        let number = actions.hand_on_to?;
        let stream = match &mut self.served {
            Some(served) => served.replies.take(),
            None => None,
        };
        Some((number, stream))
    }

    /// The board closes. Nothing more is read of who is served, and who has no line in hand is closed.
    pub(crate) fn close(&mut self)
        ensures { self.new.place ≡ after self.old.place Event.CloseAsked }
    {
        let _ = self.step(Event::CloseAsked);
        if let Some(served) = &self.served {
            let _ = served.open.shutdown(Shutdown::Read);
        }
    }
}
