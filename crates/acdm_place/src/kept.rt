//! A place as a lock keeps it.
ghost use Rattle.std.specs.Prelude.{◌≡◌};
ghost use Rattle.acdm_place.specs.Turns.{nobody, is_here, is_over, is_past, told, after};

use crate::events::{Actions, Event};
use crate::places::Place;
use std::marker::Model;

/// A place that is, at any moment, what it became by some list of events: so each law holds of it, whoever
/// takes it out of a lock.
#[derive(Drop)]
pub struct KeptPlace {
    place: Place,
}

impl Model for KeptPlace {
    ghost use Rattle.std.specs.Prelude.{◌≡◌, List};
    ghost use Rattle.acdm_place.specs.declared.events.Event.{Event};
    ghost use Rattle.acdm_place.specs.declared.places.Place.{Place};
    ghost use Rattle.acdm_place.specs.Past.{past};

    ghost Value = { Place };

    ghost view = { λ k. k.place };

    ghost invariant = { λ k. (J : List Event) × (k.place ≡ past k.place.again J) };
}

impl KeptPlace {
    /// A place where nobody has connected. Whether its session goes on with the next connection when one has ended.
    pub fn new(again: bool) -> KeptPlace
        ensures { result ≡ nobody again }
    {
        KeptPlace {
            place: Place::new(again),
        }
    }

    /// Whether the board closes, or the session has ended.
    pub fn is_closing(&self) -> bool
        ensures { result ≡ self.now.closing }
    {
        self.place.is_closing()
    }

    /// Whether the session is to end, or has.
    pub fn is_over(&self) -> bool
        ensures { result ≡ is_over self.now }
    {
        self.place.is_over()
    }

    /// Whether no further byte is to be read of the connection of this number.
    pub fn is_past(&self, number: u64) -> bool
        ensures { result ≡ is_past self.now number }
    {
        self.place.is_past(number)
    }

    /// Whether the connection of this number is served, or its lines are heard.
    pub fn is_here(&self, number: u64) -> bool
        ensures { result ≡ is_here self.now number }
    {
        self.place.is_here(number)
    }

    /// Has an event happen, and says what is to be done then.
    pub fn step(&mut self, event: Event) -> Actions
        ensures state { self.new ≡ after self.old event }
        ensures actions { result ≡ told self.old event }
    {
        self.place.step(event)
    }
}
