//! Partners who come and go, and a control address.
ghost use Rattle.std.specs.Prelude.{◌≡◌, ◌+◌, ◌++◌, ◌≤◌, IfOk, IfErr, OnOk, length, map, option_map};
ghost use Rattle.std.specs.Prelude.{true, None, is_some, vec_len};
ghost use Rattle.std.specs.List.{flat_map};
ghost use Rattle.acdm_serving.specs.Partners.{Announces, FailsToTell, IsOfAccepting, TellsPartners, asks_nothing};
ghost use Rattle.acdm_serving.specs.Partners.{session_text, starts_of, tick_starts};
ghost use Rattle.acdm_sessions.specs.Sessions.{ServesSessions, new_session, session_start};
ghost use Rattle.acdm_sessions.specs.Sessions.{session_told};
ghost use Rattle.acdm_serving.specs.Outcomes.{outcome_of};

use crate::host::Host;
use crate::partners::{Listener, REPLIES_HELD, ServedPartners, announce, tell};
use crate::peer::{Peer, PeerWatch, begin_watch};
use crate::tally::Tally;
use crate::ticks::{Ticks, Timer};
use acdm_board::Desk;
use acdm_confirming::Confirmed;
use acdm_failures::ServeError;
use acdm_headline::serve_sessions;
use acdm_keeping::{BoardTerm, Named, Opening, Replies, SharedKeeper, Synced, Waiter};
use acdm_milestones::Role;
use acdm_partners::{
    Acceptor, Arriving, Connection, Control, Door, LineOutcome, LineQueue, PartnerPlace,
    PartnerReplies, Reception, Reporter, Terms, WholeLines,
};
use acdm_row::Row;
use acdm_sessions::{Answer, Clock, Closed, Gate, Session, Sink, Source};
use acdm_step::Outcome;
use acdm_wire::LONGEST_REQUEST;
use bpf_helpers::Helpers;
use std::alloc::{AllocError, Global};
use std::io::{self, Read, Write};
use std::net::TcpListener;
use std::sync::atomic::{AtomicBool, AtomicUsize, Ordering};
use std::sync::{Arc, Wait};
use std::time::Clock as SystemClock;

// One byte more than the longest line has, so that a longer one is told by what is kept of it.
const MOST_KEPT: usize = LONGEST_REQUEST + 1;

/// What the lines of a session come from: all its connections, or the board's own ticks.
#[derive(Drop)]
pub enum Reading<'r, Rt: Wait + SystemClock> {
    Partner(WholeLines<Arriving<'r, Rt>, Connection<'r, Rt>, MOST_KEPT>),
    Ticks(Ticks<Timer<'r, Rt>>),
}

impl<'r, Rt: Wait + SystemClock> Read for Reading<'r, Rt> {
    fn read(&mut self, buf: &mut [u8]) -> io::Result<usize> {
        match self {
            Reading::Partner(lines) => lines.read(buf),
            Reading::Ticks(ticks) => ticks.read(buf),
        }
    }
}

/// Where the replies of a session go: to the connection whose lines they answer, or to nobody.
#[derive(Drop)]
pub enum Answering<'r, Rt> {
    Partner(PartnerReplies<'r, Rt>),
    Nobody,
}

impl<'r, Rt: Wait + SystemClock> Write for Answering<'r, Rt> {
    fn write(&mut self, buf: &[u8]) -> io::Result<usize> {
        match self {
            Answering::Partner(replies) => replies.write(buf),
            Answering::Nobody => Ok(buf.len()),
        }
    }

    fn flush(&mut self) -> io::Result<()> {
        match self {
            Answering::Partner(replies) => replies.flush(),
            Answering::Nobody => Ok(()),
        }
    }
}

/// Who keeps the journal, where it is kept, for all whose replies wait.
pub type FileKeeper<J, Rt> = SharedKeeper<Synced<Rt>, J>;

/// By whom a session waits until the entries of its replies are kept.
pub type ReplyWaiter<'r, J, Rt> = Waiter<'r, Synced<Rt>, J, Rt>;

/// What its replies go to, once their entries are kept, where the journal is.
pub type KeptReplyWriter<'r, J, Rt> = Replies<ReplyWaiter<'r, J, Rt>, Answering<'r, Rt>>;

/// Partners at listeners, in the order of their sessions, and behind these the session of the board's own ticks, if
/// it gives any.
#[derive(Drop)]
pub struct Partners<C: Drop> {
    /// Where they connect.
    pub listeners: Vec<Listener<C>>,
    /// The ticks.
    pub ticks: Option<Ticking<C>>,
}

/// Ticks in role `APT`.
#[derive(Drop)]
pub struct Ticking<C: Drop> {
    /// How many seconds lie between two, from 1 to 86,400.
    pub seconds: u32,
    /// Their clock.
    pub clock: C,
}

/// How a board is run whose partners come and go.
#[derive(Drop)]
pub struct Operation<'r, J: Opening, Rt: Host> {
    /// By which terms they are served.
    pub terms: Terms,
    /// Where it can be closed and asked how it is, if it can be.
    pub control: Option<Control>,
    /// The word that says that it closes.
    pub closing: Arc<AtomicBool>,
    /// The file in which its journal is kept, if it is.
    pub kept: Option<Named>,
    /// Who keeps its journal there, if it is kept.
    pub keeper: Option<&'r FileKeeper<J, Rt>>,
    /// What other boards keep, where replies wait for that too.
    pub confirmed: Option<&'r Arc<Confirmed>>,
    /// The path of the file in which it logs what its operator is told, if it does.
    pub log: Option<String>,
    /// Its term.
    pub term: BoardTerm,
    /// The board that may take over, which is asked for its term again and again, if there is one.
    pub peer: Option<Peer>,
}

impl<J: Opening, Rt: Host> Operation<'_, J, Rt> {
    /// Whether nothing of it was asked for: each session ends with its connection, lines are taken at any pace,
    /// nothing is kept or logged, and there is no control address. Partners of such a board, where it gives no ticks,
    /// are served by `serve_partners` too.
    pub fn is_plain(&self) -> bool
        ensures plain { result ≡ asks_nothing self.now.terms (is_some self.now.control) (is_some self.now.kept)
            (is_some self.now.keeper) (is_some self.now.log) }
        ensures kept { result ≡ true → self.now.kept ≡ None }
        ensures keeper { result ≡ true → self.now.keeper ≡ None }
    {
        !self.terms.again
            && self.terms.pace.is_none()
            && self.control.is_none()
            && self.kept.is_none()
            && self.keeper.is_none()
            && self.log.is_none()
    }
}

// Where partners connect, in the order of their sessions.
#[derive(Drop)]
struct Addresses {
    doors: Vec<Door>,
    places: Vec<Arc<PartnerPlace>>,
    // How many seconds lie between ticks, if there are any.
    ticks: Option<u32>,
}

impl Addresses {
    fn new(alloc: Global) -> Addresses {
        Addresses {
            doors: Vec::new(alloc),
            places: Vec::new(alloc),
            ticks: None,
        }
    }

    // Opens the address of a session, and says where its partner connects.
    fn add<J: Opening, Rt: Host>(
        &mut self,
        alloc: Global,
        number: usize,
        role: Role,
        socket: TcpListener,
        operation: &Operation<'_, J, Rt>,
    ) -> Result<Arc<PartnerPlace>, ServeError>
        ensures fails { IfErr result IsOfAccepting }
    {
        let Ok(place) = PartnerPlace::new(alloc, operation.terms, &operation.closing) else {
            return Err(ServeError::Memory);
        };
        let (Ok(kept), Ok(given)) = (Arc::try_clone(&place), Arc::try_clone(&place)) else {
            return Err(ServeError::Memory);
        };
        let Ok(door) = Door::new(alloc, number, role.name(), MOST_KEPT, place, socket) else {
            return Err(ServeError::Memory);
        };
        let Some(door) = door else {
            return Err(ServeError::Accept(number));
        };
        if self.doors.push(door).is_err() || self.places.push(kept).is_err() {
            return Err(ServeError::Memory);
        }
        Ok(given)
    }
}

// Has nobody served where a session has ended, and the board closed once those of all partners have. It holds
// nobody up.
#[derive(Drop)]
struct PartnerPlaces<'r, Rt> {
    rt: &'r Rt,
    places: Vec<Arc<PartnerPlace>>,
    // How many have ended.
    ended: AtomicUsize,
    closing: Arc<AtomicBool>,
}

// What came of a line that was answered so.
fn outcome_of(answer: &Answer) -> LineOutcome
    ensures { result ≡ outcome_of answer.now }
{
    match answer {
        Answer::Entered(reply) => match &reply.outcome {
            Outcome::Refused(refusal) => LineOutcome::Refused(refusal.code()),
            _ => LineOutcome::Entered,
        },
        Answer::Rejected(bad) => LineOutcome::Bad(bad.code()),
    }
}

impl<Rt> PartnerPlaces<'_, Rt> {
    // The place of a session, if a partner connects there.
    fn place(&self, session: u8) -> Option<&Arc<PartnerPlace>> {
        self.places.get(usize::from(session).saturating_sub(1))
    }
}

impl<Rt: Wait> Gate for PartnerPlaces<'_, Rt> {
    fn enter(&self, _session: u8, _call: u64) {}

    fn told(&self, session: u8, line: &[u8], answer: &Answer) {
        if let Some(place) = self.place(session) {
            place.count(self.rt, outcome_of(answer), line);
        }
    }

    fn answered(&self, _session: u8, _call: u64) {}

    fn ended(&self, session: u8) {
        let Some(place) = self.place(session) else {
            return;
        };
        place.finish(self.rt);
        let before = self.ended.fetch_add(1, Ordering::SeqCst);
        if before.saturating_add(1) >= self.places.len() {
            self.closing.store(true, Ordering::SeqCst);
        }
    }
}

// A session that reads so, and whose replies go there once their entries are kept, by whom it waits for that.
fn session_of<'r, J: Opening, Rt: Host, C: Clock + Drop>(
    alloc: Global,
    role: Role,
    ends: (Reading<'r, Rt>, Answering<'r, Rt>),
    waiter: ReplyWaiter<'r, J, Rt>,
    clock: C,
) -> Result<Session<Reading<'r, Rt>, KeptReplyWriter<'r, J, Rt>, C>, ServeError>
    ensures role { IfOk result (λ session. session.role ≡ role) }
    ensures start { IfOk result (λ s. session_start s.role s.reader s.writer (C.gives s.clock)
        ≡ new_session role (C.gives clock)) }
    ensures fails { IfErr result IsOfAccepting }
{
    let (reading, answering) = ends;
    let Ok(writer) = Replies::new(alloc, waiter, answering, REPLIES_HELD) else {
        return Err(ServeError::Memory);
    };
    Ok(Session {
        role,
        reader: Source::new(reading),
        writer: Sink::new(writer),
        clock,
    })
}

// A session over all connections at a place.
fn session_at<'r, J: Opening, Rt: Host, C: Clock + Drop>(
    rt: &'r Rt,
    alloc: Global,
    role: Role,
    place: Arc<PartnerPlace>,
    operation: &Operation<'r, J, Rt>,
    clock: C,
) -> Result<Session<Reading<'r, Rt>, KeptReplyWriter<'r, J, Rt>, C>, ServeError>
    ensures role { IfOk result (λ session. session.role ≡ role) }
    ensures start { IfOk result (λ s. session_start s.role s.reader s.writer (C.gives s.clock)
        ≡ new_session role (C.gives clock)) }
    ensures fails { IfErr result IsOfAccepting }
{
    let Ok(same) = Arc::try_clone(&place) else {
        return Err(ServeError::Memory);
    };
    let Ok(lines) = WholeLines::new(alloc, Arriving::new(rt, same)) else {
        return Err(ServeError::Memory);
    };
    let ends = (
        Reading::Partner(lines),
        Answering::Partner(PartnerReplies::new(rt, place)),
    );
    let waiter = Waiter::new(rt, operation.keeper, operation.confirmed);
    session_of(alloc, role, ends, waiter, clock)
}

// The session of a board's own ticks, of which nobody is told, so that no other board has to keep their entries before.
fn session_ticking<'r, J: Opening, Rt: Host, C: Clock + Drop>(
    rt: &'r Rt,
    alloc: Global,
    ticks: Ticking<C>,
    operation: &Operation<'r, J, Rt>,
) -> Result<Session<Reading<'r, Rt>, KeptReplyWriter<'r, J, Rt>, C>, ServeError>
    ensures start { IfOk result (λ s. session_start s.role s.reader s.writer (C.gives s.clock)
        ≡ new_session Role.AirportOperator (C.gives ticks.clock)) }
    ensures fails { IfErr result IsOfAccepting }
{
    let Ok(closing) = Arc::try_clone(&operation.closing) else {
        return Err(ServeError::Memory);
    };
    let Ticking { seconds, clock } = ticks;
    let ends = (
        Reading::Ticks(Ticks::new(Timer::new(rt, seconds, closing))),
        Answering::Nobody,
    );
    let role = Role::AirportOperator;
    let waiter = Waiter::new(rt, operation.keeper, None);
    session_of(alloc, role, ends, waiter, clock)
}

// Adds that session, if there is one, for which there is room.
fn add_ticks<'r, J: Opening, Rt: Host, C: Clock + Drop>(
    rt: &'r Rt,
    alloc: Global,
    ticks: Option<Ticking<C>>,
    operation: &Operation<'r, J, Rt>,
    sessions: &mut Vec<Session<Reading<'r, Rt>, KeptReplyWriter<'r, J, Rt>, C>>,
) -> Result<(), ServeError>
    ensures starts { OnOk result (map (λ s. session_start s.role s.reader s.writer
        (C.gives s.clock)) sessions.new.items
        ≡ map (λ s. session_start s.role s.reader s.writer (C.gives s.clock)) sessions.old.items
        ++ tick_starts C.gives (option_map (λ t. t.clock) ticks)) }
    ensures fails { IfErr result IsOfAccepting }
{
    let Some(ticks) = ticks else {
        return Ok(());
    };
    let session = session_ticking(rt, alloc, ticks, operation)?;
    match sessions.push(session) {
        Ok(()) => {}
        Err(_) => return Err(ServeError::Memory),
    }
    Ok(())
}

// Opens the address of a partner, and its session.
fn open<'r, J: Opening, Rt: Host, C: Clock + Drop>(
    rt: &'r Rt,
    alloc: Global,
    number: usize,
    listener: Listener<C>,
    operation: &Operation<'r, J, Rt>,
    addresses: &mut Addresses,
) -> Result<Session<Reading<'r, Rt>, KeptReplyWriter<'r, J, Rt>, C>, ServeError>
    ensures role { IfOk result (λ session. session.role ≡ listener.role) }
    ensures start { IfOk result (λ s. session_start s.role s.reader s.writer (C.gives s.clock)
        ≡ new_session listener.role (C.gives listener.clock)) }
    ensures fails { IfErr result IsOfAccepting }
{
    let Listener {
        role,
        socket,
        clock,
    } = listener;
    let place = addresses.add(alloc, number, role, socket, operation)?;
    session_at(rt, alloc, role, place, operation, clock)
}

// Opens the address of each partner, in order, and its session.
fn open_all<'r, J: Opening, Rt: Host, C: Clock + Drop>(
    rt: &'r Rt,
    alloc: Global,
    listeners: Vec<Listener<C>>,
    operation: &Operation<'r, J, Rt>,
    addresses: &mut Addresses,
) -> Result<Vec<Session<Reading<'r, Rt>, KeptReplyWriter<'r, J, Rt>, C>>, ServeError>
    ensures len { IfOk result (λ sessions. vec_len sessions ≡ vec_len listeners) }
    ensures roles { IfOk result (λ sessions. map (λ s. s.role) sessions.items
        ≡ map (λ l. l.role) listeners.items) }
    ensures starts { IfOk result (λ sessions. map (λ s. session_start s.role s.reader s.writer
        (C.gives s.clock)) sessions.items
        ≡ map (λ l. new_session l.role (C.gives l.clock)) listeners.items) }
    ensures fails { IfErr result IsOfAccepting }
{
    let Ok(mut sessions) = Vec::with_capacity(alloc, listeners.len()) else {
        return Err(ServeError::Memory);
    };
    for listener in listeners {
        let number = sessions.len() + 1;
        let session = open(rt, alloc, number, listener, operation, addresses)?;
        sessions.push_reserved(session);
    }
    Ok(sessions)
}

/// What tells an operator what happens: on standard error, and in the log at a path, if there is one.
pub(crate) fn reporter_of<Rt: Host>(
    rt: &Rt,
    alloc: Global,
    log: Option<String>,
) -> Result<Reporter<Rt>, AllocError> {
    let errors = LineQueue::on_errors(rt, rt.clone()?, alloc)?;
    let log = match log {
        Some(path) => Some(LineQueue::at_file(rt, rt.clone()?, alloc, path)?),
        None => None,
    };
    Ok(Reporter::new(rt.clone()?, alloc, errors, log))
}

// Who accepts partners and answers at the control address.
fn acceptor_of<J: Opening, Rt: Host>(
    rt: &Rt,
    alloc: Global,
    addresses: (Vec<Door>, Option<u32>),
    operation: Operation<'_, J, Rt>,
    row: &Arc<Row>,
) -> Result<Acceptor<Rt, Tally<Rt>>, AllocError> {
    let Operation {
        control,
        closing,
        kept,
        confirmed,
        log,
        term,
        peer,
        ..
    } = operation;
    let (doors, ticks) = addresses;
    let tally = Tally {
        rt: rt.clone()?,
        row: Arc::try_clone(row)?,
        kept,
        confirmed: match confirmed {
            Some(confirmed) => Some(Arc::try_clone(confirmed)?),
            None => None,
        },
        term,
        ticks,
    };
    let reporter = reporter_of(rt, alloc, log)?;
    if let Some(
        Peer {
            unreached: Some(why),
            ..
        },
    ) = peer
    {
        reporter.tell_unreached(why.as_str());
    }
    Acceptor::new(reporter, doors, control, tally, None, closing)
}

// Starts the thread that accepts partners and answers at the control address.
fn receive<J: Opening, Rt: Host>(
    rt: &Rt,
    alloc: Global,
    addresses: (Vec<Door>, Option<u32>),
    operation: Operation<'_, J, Rt>,
    row: &Arc<Row>,
) -> Result<Reception, ServeError>
    ensures fails { IfErr result IsOfAccepting }
{
    let Ok(acceptor) = acceptor_of(rt, alloc, addresses, operation, row) else {
        return Err(ServeError::Memory);
    };
    match Reception::begin(rt, acceptor) {
        Ok(reception) => Ok(reception),
        Err(_) => Err(ServeError::Memory),
    }
}

// Has the peer asked for its term, if there is one, while partners are served. Its thread is not waited for, since a
// connection may take seconds.
fn watch_peer<J: Opening, Rt: Host>(
    rt: &Rt,
    alloc: Global,
    operation: &Operation<'_, J, Rt>,
) -> Result<(), ServeError>
    ensures fails { IfErr result IsOfAccepting }
{
    let Some(peer) = &operation.peer else {
        return Ok(());
    };
    let (term, closing) = (&operation.term, &operation.closing);
    let Ok(watch) = PeerWatch::new(rt, alloc, peer.address, term, closing) else {
        return Err(ServeError::Memory);
    };
    if begin_watch(rt, watch) {
        Ok(())
    } else {
        Err(ServeError::Memory)
    }
}

// Tells of the listeners, and opens the sessions of their partners and that of ticks.
fn opened<'r, J: Opening, Rt: Host, C: Clock + Drop, W: Write>(
    rt: &'r Rt,
    alloc: Global,
    partners: Partners<C>,
    operation: &Operation<'r, J, Rt>,
    addresses: &mut Addresses,
    writer: &mut Sink<W>,
) -> Result<Vec<Session<Reading<'r, Rt>, KeptReplyWriter<'r, J, Rt>, C>>, ServeError>
    requires few { vec_len partners.listeners ≤ 64 }
    ensures starts { IfOk result (λ sessions. map (λ s. session_start s.role s.reader s.writer
        (C.gives s.clock)) sessions.items
        ≡ starts_of C.gives partners.listeners.items (option_map (λ t. t.clock) partners.ticks)) }
    ensures tells { OnOk result (Announces (map (λ l. l.role) partners.listeners.items) writer.old writer.new) }
    ensures fails { IfErr result (FailsToTell writer.old writer.new) }
{
    let Partners { listeners, ticks } = partners;
    addresses.ticks = match &ticks {
        Some(ticks) => Some(ticks.seconds),
        None => None,
    };
    announce(alloc, listeners.as_slice(), writer)?;
    let mut sessions = open_all(rt, alloc, listeners, operation, addresses)?;
    match add_ticks(rt, alloc, ticks, operation, &mut sessions) {
        Ok(()) => Ok(sessions),
        Err(error) => Err(error),
    }
}

/// Serves a partner on each listener, all at once against one desk, as `serve_partners`, by these terms: who
/// connects is served once its first line is there and begins with `{`, whoever else is there; who sends
/// another is answered `bad 101` and closed. Where the terms say so, each session goes on with the next who connects.
/// At the control address the board can be closed, as by the word: all sessions end then, and so they do where
/// the file of the journal is removed, renamed, replaced or cut. Replies wait for the keeper, if there is one. Where
/// the board gives ticks itself, one more session behind the others enters them, in role `APT`, until all others
/// have ended.
///
/// `Accept` where a listener has no address or can't be asked; `Write` where the writer failed before the
/// sessions; `Memory` where it was refused before they began, or no thread could be made.
pub fn serve_reconnecting<
    'r,
    J: Opening + Send + Sync,
    Rt: Host,
    H: Helpers + Drop + Send,
    C: Clock + Drop + Send,
    W: Write,
>(
    rt: &'r Rt,
    alloc: Global,
    partners: Partners<C>,
    operation: Operation<'r, J, Rt>,
    desk: Desk<H>,
    writer: &mut Sink<W>,
) -> Result<ServedPartners<H, Reading<'r, Rt>, KeptReplyWriter<'r, J, Rt>, C>, ServeError>
    requires few { length (starts_of C.gives partners.listeners.items
        (option_map (λ t. t.clock) partners.ticks)) ≤ 64 }
    ensures serves { IfOk result (λ c. ServesSessions desk c.desk
        (starts_of C.gives partners.listeners.items (option_map (λ t. t.clock) partners.ticks))
        (map (λ e. session_told e.number e.role e.calls e.end e.torn e.reader e.writer e.pass)
        c.sessions.items)) }
    ensures tells { IfOk result (λ c. TellsPartners (map (λ l. l.role) partners.listeners.items)
        (flat_map (λ e. session_text e.number e.calls e.end e.torn) c.sessions.items)
        (length c.desk.history) writer.old writer.new c.told) }
    ensures fails { IfErr result (FailsToTell writer.old writer.new) }
{
    let mut addresses = Addresses::new(alloc);
    let open = &mut addresses;
    let sessions = opened(rt, alloc, partners, &operation, open, writer)?;
    let Addresses {
        doors,
        places,
        ticks,
    } = addresses;
    let Ok(closing) = Arc::try_clone(&operation.closing) else {
        return Err(ServeError::Memory);
    };
    let places = PartnerPlaces {
        rt,
        places,
        ended: AtomicUsize::new(0),
        closing,
    };
    match watch_peer(rt, alloc, &operation) {
        Ok(()) => {}
        Err(error) => return Err(error),
    }
    let reception = receive(rt, alloc, (doors, ticks), operation, desk.row())?;
    let served = serve_sessions(rt, alloc, desk, sessions, &places);
    let _control = reception.end(rt);
    let closed = match served {
        Ok(closed) => closed,
        Err(_desk) => return Err(ServeError::Memory),
    };
    let told = tell(&closed, writer);
    let Closed { desk, sessions } = closed;
    Ok(ServedPartners {
        desk,
        sessions,
        told,
    })
}
