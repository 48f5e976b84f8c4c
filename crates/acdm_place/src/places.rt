//! Who is served at an address, and whose lines its session hears.
ghost use Rattle.std.specs.Prelude.{◌≡◌};
ghost use Rattle.acdm_place.specs.Turns.{nobody, is_of, is_heard, is_here, is_over, is_open, is_past};
ghost use Rattle.acdm_place.specs.Turns.{cut_if, left_if, told, after};

use crate::events::{Actions, Event};

/// How many milliseconds a place that closes waits for who takes its last reply.
const LAST_PATIENCE: u64 = 5000;

/// Who is served at an address, and whose lines its session hears. A newer connection takes the place at once; the
/// session hears the whole lines of the older one to their end, whose replies go nowhere then.
#[derive(Clone, Copy)]
pub struct Place {
    // Whether the session goes on with the next connection when one has ended.
    again: bool,
    // The highest number that was ever served, or 0.
    newest: u64,
    // Who is served.
    served: Option<u64>,
    // Whose lines the session takes.
    heard: Option<u64>,
    // Whose line the session has taken and not yet answered.
    asker: Option<u64>,
    // Whether the board closes or the session has ended, and for how many milliseconds it has waited since.
    closing: bool,
    waited: u64,
}

// Whether it is this number.
fn is_of(held: Option<u64>, number: u64) -> bool
    ensures { result ≡ is_of held number }
{
    match held {
        Some(other) => other == number,
        None => false,
    }
}

// Whether who is heard is served.
fn is_heard(heard: Option<u64>, served: Option<u64>) -> bool
    ensures { result ≡ is_heard heard served }
{
    match heard {
        Some(number) => is_of(served, number),
        None => false,
    }
}

impl Place {
    /// A place where nobody has connected. Whether its session goes on with the next connection when one has ended.
    pub(crate) fn new(again: bool) -> Place
        ensures { result ≡ nobody again }
    {
        Place {
            again,
            newest: 0,
            served: None,
            heard: None,
            asker: None,
            closing: false,
            waited: 0,
        }
    }

    /// Whether the board closes, or the session has ended.
    pub(crate) fn is_closing(&self) -> bool
        ensures { result ≡ self.now.closing }
    {
        self.closing
    }

    /// Whether the session is to end, or has.
    pub(crate) fn is_over(&self) -> bool
        ensures { result ≡ is_over self.now }
    {
        if self.asker.is_some() {
            return false;
        }
        if self.closing {
            return true;
        }
        if self.again || self.newest == 0 {
            return false;
        }
        self.served.is_none() && self.heard.is_none()
    }

    /// Whether no further byte is to be read of the connection of this number.
    pub(crate) fn is_past(&self, number: u64) -> bool
        ensures { result ≡ is_past self.now number }
    {
        self.closing || self.newest != number
    }

    /// Whether the connection of this number is served, or its lines are heard.
    pub(crate) fn is_here(&self, number: u64) -> bool
        ensures { result ≡ is_here self.now number }
    {
        is_of(self.served, number) || is_of(self.heard, number)
    }

    // Whether a newcomer may be served.
    fn is_open(&self) -> bool
        ensures { result ≡ is_open self.now }
    {
        if self.closing {
            return false;
        }
        self.again || self.newest == 0
    }

    /// Has an event happen, and says what is to be done then.
    pub(crate) fn step(&mut self, event: Event) -> Actions
        ensures state { self.new ≡ after self.old event }
        ensures actions { result ≡ told self.old event }
    {
        match event {
            Event::FirstLine(number, is_whole, is_command) => {
                self.judge(number, is_whole, is_command)
            }
            Event::NextAsked => self.turn(),
            Event::LineTaken(number) => self.admit(number),
            Event::ReplyMade => self.reply(),
            Event::LineAnswered => self.go_on(),
            Event::WriteFailed(number) => self.fail(number),
            Event::CloseAsked => self.close(),
            Event::Tick(milliseconds) => self.wait(milliseconds),
            Event::SessionEnded => self.finish(),
        }
    }

    // Has a newcomer take the place by a whole first line that may be a command, or refuses it.
    fn judge(&mut self, number: u64, is_whole: bool, is_command: bool) -> Actions
        ensures state { self.new ≡ after self.old (Event.FirstLine number is_whole is_command) }
        ensures actions { result ≡ told self.old (Event.FirstLine number is_whole is_command) }
    {
        let mut actions = Actions::nothing();
        if self.is_open() && is_whole && is_command && self.newest < number {
            actions.cut_off = self.served;
            actions.serve = Some(number);
            self.newest = number;
            self.served = Some(number);
        } else if !is_of(self.served, number) {
            actions.refuse = Some(number);
        }
        actions
    }

    // Has the session hear the next connection, where the one that it hears has ended.
    fn turn(&mut self) -> Actions
        ensures state { self.new ≡ after self.old Event.NextAsked }
        ensures actions { result ≡ told self.old Event.NextAsked }
    {
        let mut actions = Actions::nothing();
        if self.asker.is_some() {
            return actions;
        }
        if is_heard(self.heard, self.served) {
            actions.cut_off = self.served;
            self.served = None;
            self.heard = None;
        } else {
            actions.hear = self.served;
            self.heard = self.served;
        }
        actions
    }

    // Whether the session may take a line.
    fn admit(&mut self, number: u64) -> Actions
        ensures state { self.new ≡ after self.old (Event.LineTaken number) }
        ensures actions { result ≡ told self.old (Event.LineTaken number) }
    {
        let mut actions = Actions::nothing();
        if !self.closing && self.asker.is_none() && is_of(self.heard, number) {
            actions.admits = true;
            self.asker = Some(number);
        }
        actions
    }

    // Where a reply goes.
    fn reply(&mut self) -> Actions
        ensures state { self.new ≡ after self.old Event.ReplyMade }
        ensures actions { result ≡ told self.old Event.ReplyMade }
    {
        let mut actions = Actions::nothing();
        if let Some(number) = self.asker {
            if is_of(self.served, number) {
                actions.hand_on_to = Some(number);
            }
        }
        actions
    }

    // Cuts off who is served, where that is due.
    fn cut_off_if(&mut self, is_due: bool) -> Actions
        ensures state { self.new ≡ left_if is_due self.old }
        ensures actions { result ≡ cut_if is_due self.old }
    {
        let mut actions = Actions::nothing();
        if is_due {
            actions.cut_off = self.served;
            self.served = None;
        }
        actions
    }

    // The line in hand was answered.
    fn go_on(&mut self) -> Actions
        ensures state { self.new ≡ after self.old Event.LineAnswered }
        ensures actions { result ≡ told self.old Event.LineAnswered }
    {
        self.asker = None;
        self.cut_off_if(self.closing)
    }

    // A connection takes no reply any more.
    fn fail(&mut self, number: u64) -> Actions
        ensures state { self.new ≡ after self.old (Event.WriteFailed number) }
        ensures actions { result ≡ told self.old (Event.WriteFailed number) }
    {
        self.cut_off_if(is_of(self.served, number))
    }

    // The board closes. Where a line is in hand it is answered before.
    fn close(&mut self) -> Actions
        ensures state { self.new ≡ after self.old Event.CloseAsked }
        ensures actions { result ≡ told self.old Event.CloseAsked }
    {
        let is_free = self.asker.is_none();
        self.closing = true;
        self.cut_off_if(is_free)
    }

    // Time has passed. A board that closes cuts off who has not taken its last reply.
    fn wait(&mut self, milliseconds: u64) -> Actions
        ensures state { self.new ≡ after self.old (Event.Tick milliseconds) }
        ensures actions { result ≡ told self.old (Event.Tick milliseconds) }
    {
        if !self.closing {
            return Actions::nothing();
        }
        self.waited = self.waited.saturating_add(milliseconds);
        self.cut_off_if(self.waited >= LAST_PATIENCE)
    }

    // The session has ended: nobody is served any more.
    fn finish(&mut self) -> Actions
        ensures state { self.new ≡ after self.old Event.SessionEnded }
        ensures actions { result ≡ told self.old Event.SessionEnded }
    {
        self.closing = true;
        self.heard = None;
        self.asker = None;
        self.cut_off_if(true)
    }
}
