//! What happens at a place, and what is to be done then.
ghost use Rattle.std.specs.Prelude.{◌≡◌};
ghost use Rattle.acdm_place.specs.Turns.{nothing};

/// What happened at a place. Connections have numbers from 1, in the order in which their first lines were there.
#[derive(Clone, Copy)]
pub enum Event {
    /// The first line of a connection is there: its number, whether the line is whole, and whether it may be a
    /// command. A connection that has gone before has a line that is not whole.
    FirstLine(u64, bool, bool),
    /// The session comes for the next connection: nothing more comes from the one that it hears, if it hears one.
    NextAsked,
    /// The session would take a whole line of the connection of this number.
    LineTaken(u64),
    /// The session has a reply, or a part of one, to the line that it took last.
    ReplyMade,
    /// All replies to the line that was taken last were written, or dropped.
    LineAnswered,
    /// The connection of this number takes no reply any more.
    WriteFailed(u64),
    /// The board closes.
    CloseAsked,
    /// So many milliseconds have passed.
    Tick(u64),
    /// The session has ended: it takes no line any more, and has no reply.
    SessionEnded,
}

/// What is to be done, in this order. Connections are given by their numbers.
#[derive(Clone, Copy)]
pub struct Actions {
    /// Where the reply goes. Nowhere where there is none, or where its connection was cut off.
    pub hand_on_to: Option<u64>,
    /// Which connection is closed, and no longer served.
    pub cut_off: Option<u64>,
    /// Which connection is closed without ever having been served.
    pub refuse: Option<u64>,
    /// Which connection is served from now on.
    pub serve: Option<u64>,
    /// Of which connection the session hears the lines from now on.
    pub hear: Option<u64>,
    /// Whether the session may take the line.
    pub admits: bool,
}

impl Actions {
    /// Nothing is to be done.
    pub(crate) fn nothing() -> Actions
        ensures { result ≡ nothing }
    {
        Actions {
            hand_on_to: None,
            cut_off: None,
            refuse: None,
            serve: None,
            hear: None,
            admits: false,
        }
    }
}
