//! Partners who are accepted once, over the listeners that are handed.
ghost use Rattle.std.specs.Prelude.{◌≡◌, ◌+◌, ◌≤◌, ◌++◌, false, IfOk, IfErr, OnOk, length, map};
ghost use Rattle.std.specs.Prelude.{vec_len, Ok};
ghost use Rattle.std.specs.List.{flat_map};
ghost use Rattle.std.specs.Net.Text.{socket_text};
ghost use Rattle.acdm_serving.specs.Partners.{Announces, AnnouncesOne, FailsToTell, TellsPartners};
ghost use Rattle.acdm_serving.specs.Partners.{IsOfAccepting, closed_text};
ghost use Rattle.acdm_serving.specs.Partners.{end_text, listen_text, session_text};
ghost use Rattle.acdm_failures.specs.declared.failure.ServeError.TheVariants.{Memory};
ghost use Rattle.acdm_sessions.specs.Sessions.{ServesSessions, new_session, session_start};
ghost use Rattle.acdm_sessions.specs.Sessions.{session_told};
ghost use Rattle.acdm_wire.specs.Writes.{Writes};

use acdm_board::Desk;
use acdm_failures::ServeError;
use acdm_headline::serve_sessions;
use acdm_milestones::Role;
use acdm_partners::{PATIENCE, Patient};
use acdm_sessions::{
    Clock, Closed, End, EndedSession, Gate, ReplyWriter, RunError, Session, Sink, Source,
};
use acdm_wire::{TextBuffer, write_out, write_whole};
use bpf_helpers::Helpers;
use std::alloc::Global;
use std::io::{BufWriter, Read, Write};
use std::net::{Shutdown, SocketAddr, TcpListener, TcpStream};
use std::sync::Wait;
use std::thread::Threads;
use std::time::Duration;

/// What a partner's replies go to.
pub type PatientWriter = BufWriter<Patient<TcpStream>>;

/// How many bytes of a partner's replies are sent in one piece.
pub(crate) const REPLIES_HELD: usize = 65_536;

// The connections of all sessions, in order: one is closed once its session has ended. It holds nobody
// up.
#[derive(Drop)]
struct Connections {
    streams: Vec<TcpStream>,
}

impl Connections {
    // Takes a connection in, the `number`-th, which is let go where it takes nothing for 30 seconds.
    fn add(&mut self, number: usize, stream: &TcpStream) -> Result<(), ServeError>
        ensures fails { IfErr result IsOfAccepting }
    {
        let patience = Some(Duration::from_millis(PATIENCE));
        if stream.set_write_timeout(patience).is_err() {
            return Err(ServeError::Accept(number));
        }
        let Ok(same) = stream.try_clone() else {
            return Err(ServeError::Accept(number));
        };
        match self.streams.push(same) {
            Ok(()) => Ok(()),
            Err(_) => Err(ServeError::Memory),
        }
    }
}

impl Gate for Connections {
    fn enter(&self, _session: u8, _call: u64) {}

    fn answered(&self, _session: u8, _call: u64) {}

    fn ended(&self, session: u8) {
        if let Some(stream) = self.streams.get(usize::from(session).saturating_sub(1)) {
            let _ = stream.shutdown(Shutdown::Both);
        }
    }
}

/// Where the partner of a session connects.
#[derive(Drop)]
pub struct Listener<C: Drop> {
    /// The role of the partner.
    pub role: Role,
    /// The socket that listens for it.
    pub socket: TcpListener,
    /// The clock of its session.
    pub clock: C,
}

/// What partners who were served leave.
#[derive(Drop)]
pub struct ServedPartners<H: Helpers + Drop, R: Read + Drop, S: ReplyWriter + Drop, C: Drop> {
    /// The desk, with the entries that their sessions made.
    pub desk: Desk<H>,
    /// Their sessions, in the order of their numbers.
    pub sessions: Vec<EndedSession<R, S, C>>,
    /// How it went to tell how they ended.
    pub told: Result<(), RunError>,
}

/// Accepts one partner on each listener, in order, serves all at once against one desk, and tells
/// on the writer what it does: `listen K ROLE ADDR` for each listener, K from 1, then, once all
/// partners are gone, `session K CALLS END` for each session and `closed N` with the number of
/// entries. Whoever wants what they leave even where the writer fails then calls `serve_partners`.
///
/// `Accept` where a listener has no address or a partner can't be accepted; `Write` where the
/// writer failed; `Memory` where it was refused before they began.
pub fn serve_on<
    Rt: Threads + Wait + Sync,
    H: Helpers + Drop + Send,
    C: Clock + Drop + Send,
    W: Write,
>(
    rt: &Rt,
    alloc: Global,
    partners: Vec<(Role, TcpListener, C)>,
    desk: Desk<H>,
    writer: &mut Sink<W>,
) -> Result<Closed<H, TcpStream, PatientWriter, C>, ServeError>
    requires few { vec_len partners ≤ 64 }
    ensures serves { IfOk result (λ c. ServesSessions desk c.desk
        (map (λ p. new_session p.0 (C.gives p.2)) partners.items)
        (map (λ e. session_told e.number e.role e.calls e.end e.torn e.reader e.writer e.pass)
        c.sessions.items)) }
    ensures tells { IfOk result (λ c. TellsPartners (map (λ p. p.0) partners.items)
        (flat_map (λ e. session_text e.number e.calls e.end e.torn) c.sessions.items)
        (length c.desk.history) writer.old writer.new (Ok tt)) }
    ensures fails { IfErr result (FailsToTell writer.old writer.new) }
{
    let listeners = listeners_of(alloc, partners)?;
    let served = serve_partners(rt, alloc, listeners, desk, writer)?;
    match served.told {
        Ok(()) => Ok(Closed {
            desk: served.desk,
            sessions: served.sessions,
        }),
        Err(_) => Err(ServeError::Write),
    }
}

// The listeners of partners. `Memory` where it was refused.
fn listeners_of<C: Clock + Drop>(
    alloc: Global,
    partners: Vec<(Role, TcpListener, C)>,
) -> Result<Vec<Listener<C>>, ServeError>
    ensures len { IfOk result (λ listeners. vec_len listeners ≡ vec_len partners) }
    ensures roles { IfOk result (λ listeners. map (λ l. l.role) listeners.items
        ≡ map (λ p. p.0) partners.items) }
    ensures starts { IfOk result (λ listeners. map (λ l. new_session l.role (C.gives l.clock)) listeners.items
        ≡ map (λ p. new_session p.0 (C.gives p.2)) partners.items) }
    ensures memory { IfErr result (λ error. error ≡ Memory) }
{
    let Ok(mut listeners) = Vec::with_capacity(alloc, partners.len()) else {
        return Err(ServeError::Memory);
    };
    for partner in partners {
        let (role, socket, clock) = partner;
        listeners.push_reserved(Listener {
            role,
            socket,
            clock,
        });
    }
    Ok(listeners)
}

/// The same over these listeners, but that a writer that fails once all partners are gone is told beside what they
/// leave.
pub fn serve_partners<
    Rt: Threads + Wait + Sync,
    H: Helpers + Drop + Send,
    C: Clock + Drop + Send,
    W: Write,
>(
    rt: &Rt,
    alloc: Global,
    listeners: Vec<Listener<C>>,
    desk: Desk<H>,
    writer: &mut Sink<W>,
) -> Result<ServedPartners<H, TcpStream, PatientWriter, C>, ServeError>
    requires few { vec_len listeners ≤ 64 }
    ensures serves { IfOk result (λ c. ServesSessions desk c.desk
        (map (λ l. new_session l.role (C.gives l.clock)) listeners.items)
        (map (λ e. session_told e.number e.role e.calls e.end e.torn e.reader e.writer e.pass)
        c.sessions.items)) }
    ensures tells { IfOk result (λ c. TellsPartners (map (λ l. l.role) listeners.items)
        (flat_map (λ e. session_text e.number e.calls e.end e.torn) c.sessions.items)
        (length c.desk.history) writer.old writer.new c.told) }
    ensures fails { IfErr result (FailsToTell writer.old writer.new) }
{
    let mut connections = Connections {
        streams: Vec::new(alloc),
    };
    let sessions = arrived(alloc, listeners, &mut connections, writer)?;
    let Ok(closed) = serve_sessions(rt, alloc, desk, sessions, &connections) else {
        return Err(ServeError::Memory);
    };
    let told = tell(&closed, writer);
    let Closed { desk, sessions } = closed;
    Ok(ServedPartners {
        desk,
        sessions,
        told,
    })
}

// Tells of the listeners, and accepts a partner on each.
fn arrived<C: Clock + Drop, W: Write>(
    alloc: Global,
    listeners: Vec<Listener<C>>,
    connections: &mut Connections,
    writer: &mut Sink<W>,
) -> Result<Vec<Session<TcpStream, PatientWriter, C>>, ServeError>
    requires few { vec_len listeners ≤ 64 }
    ensures len { IfOk result (λ sessions. vec_len sessions ≡ vec_len listeners) }
    ensures roles { IfOk result (λ sessions. map (λ s. s.role) sessions.items
        ≡ map (λ l. l.role) listeners.items) }
    ensures starts { IfOk result (λ sessions. map (λ s. session_start s.role s.reader s.writer
        (C.gives s.clock)) sessions.items
        ≡ map (λ l. new_session l.role (C.gives l.clock)) listeners.items) }
    ensures tells { OnOk result (Announces (map (λ l. l.role) listeners.items) writer.old writer.new) }
    ensures fails { IfErr result (FailsToTell writer.old writer.new) }
{
    announce(alloc, listeners.as_slice(), writer)?;
    accept_all(alloc, listeners, connections)
}

// The line of a listener.
fn listen_line(
    alloc: Global,
    number: usize,
    role: Role,
    address: SocketAddr,
) -> Result<Vec<u8>, ServeError>
    ensures text { IfOk result (λ line.
        line.items ≡ listen_text number role (socket_text address)) }
    ensures memory { IfErr result (λ error. error ≡ Memory) }
{
    let mut line = Vec::new(alloc);
    let role = role.name();
    // A text in memory is written unless there is none.
    match writeln!(line, "listen {number} {role} {address}") {
        Ok(()) => Ok(line),
        Err(_) => Err(ServeError::Memory),
    }
}

// Writes the line of a listener.
fn announce_one<C: Drop, W: Write>(
    alloc: Global,
    number: usize,
    listener: &Listener<C>,
    writer: &mut Sink<W>,
) -> Result<(), ServeError>
    ensures { AnnouncesOne number listener.now.role writer.old writer.new result }
{
    let Ok(address) = listener.socket.local_addr() else {
        return Err(ServeError::Accept(number));
    };
    let line = listen_line(alloc, number, listener.role, address)?;
    match write_out(writer, line.as_slice()) {
        Ok(()) => Ok(()),
        Err(_) => Err(ServeError::Write),
    }
}

/// Writes the line of each listener.
pub(crate) fn announce<C: Drop, W: Write>(
    alloc: Global,
    listeners: &[Listener<C>],
    writer: &mut Sink<W>,
) -> Result<(), ServeError>
    requires few { length listeners.now ≤ 64 }
    ensures tells { OnOk result (Announces (map (λ l. l.role) listeners.now) writer.old writer.new) }
    ensures fails { IfErr result (FailsToTell writer.old writer.new) }
{
    let mut number = 1;
    let mut rest = listeners;
    while let Some((listener, more)) = rest.split_first() {
        announce_one(alloc, number, listener, writer)?;
        number += 1;
        rest = more;
    }
    Ok(())
}

// Accepts a partner on each listener, in order.
fn accept_all<C: Clock + Drop>(
    alloc: Global,
    listeners: Vec<Listener<C>>,
    connections: &mut Connections,
) -> Result<Vec<Session<TcpStream, PatientWriter, C>>, ServeError>
    ensures len { IfOk result (λ sessions. vec_len sessions ≡ vec_len listeners) }
    ensures roles { IfOk result (λ sessions. map (λ s. s.role) sessions.items
        ≡ map (λ l. l.role) listeners.items) }
    ensures starts { IfOk result (λ sessions. map (λ s. session_start s.role s.reader s.writer
        (C.gives s.clock)) sessions.items
        ≡ map (λ l. new_session l.role (C.gives l.clock)) listeners.items) }
    ensures fails { IfErr result IsOfAccepting }
{
    let Ok(mut sessions) = Vec::with_capacity(alloc, listeners.len()) else {
        return Err(ServeError::Memory);
    };
    for listener in listeners {
        let number = sessions.len() + 1;
        sessions.push_reserved(accept(alloc, number, listener, connections)?);
    }
    Ok(sessions)
}

// Accepts a partner.
fn accept<C: Clock + Drop>(
    alloc: Global,
    number: usize,
    listener: Listener<C>,
    connections: &mut Connections,
) -> Result<Session<TcpStream, PatientWriter, C>, ServeError>
    ensures role { IfOk result (λ session. session.role ≡ listener.role) }
    ensures start { IfOk result (λ s. session_start s.role s.reader s.writer (C.gives s.clock)
        ≡ new_session listener.role (C.gives listener.clock)) }
    ensures fails { IfErr result IsOfAccepting }
{
    let Listener {
        role,
        socket,
        clock,
    } = listener;
    let Ok((stream, _)) = socket.accept() else {
        return Err(ServeError::Accept(number));
    };
    let Ok(same) = stream.try_clone() else {
        return Err(ServeError::Accept(number));
    };
    connections.add(number, &stream)?;
    // Where replies can't go at once they go later.
    let _ = stream.set_nodelay(true);
    let Ok(writer) = BufWriter::with_capacity(alloc, REPLIES_HELD, Patient::new(same)) else {
        return Err(ServeError::Memory);
    };
    Ok(Session {
        role,
        reader: Source::new(stream),
        writer: Sink::new(writer),
        clock,
    })
}

// The name of an end; of a session that is torn that alone is told.
fn end_name(end: End, torn: bool) -> &'static str
    ensures { result.now ≡ end_text end torn }
{
    if torn {
        return "torn";
    }
    match end {
        End::End => "end",
        End::Read => "read",
        End::Write => "write",
        End::Memory => "memory",
        End::Start => "start",
        End::Torn => "torn",
    }
}

// The line of a session that has ended.
fn session_line(number: u8, calls: u64, end: End, torn: bool) -> TextBuffer
    ensures { result ≡ session_text number calls end torn }
{
    let mut line = TextBuffer::new();
    line.push(b"session ");
    line.push_number(u64::from(number));
    line.push(b" ");
    line.push_number(calls);
    line.push(b" ");
    line.push(end_name(end, torn).as_bytes());
    line.push(b"\n");
    line
}

// The last line.
fn closed_line(entries: u64) -> TextBuffer
    ensures { result ≡ closed_text entries }
{
    let mut line = TextBuffer::new();
    line.push(b"closed ");
    line.push_number(entries);
    line.push(b"\n");
    line
}

// Writes the line of each session.
fn tell_sessions<R: Read + Drop, S: ReplyWriter + Drop, C: Drop, W: Write>(
    sessions: &[EndedSession<R, S, C>],
    writer: &mut Sink<W>,
) -> Result<(), RunError>
    ensures { Writes writer.old writer.new
        (flat_map (λ e. session_text e.number e.calls e.end e.torn) sessions.now) result }
{
    let mut rest = sessions;
    while let Some((session, more)) = rest.split_first() {
        let line = session_line(session.number, session.calls, session.end, session.torn);
        write_whole(writer, line.as_slice())?;
        rest = more;
    }
    Ok(())
}

/// Writes the line of each session, and how many entries there are.
pub(crate) fn tell<H: Helpers + Drop, R: Read + Drop, S: ReplyWriter + Drop, C: Drop, W: Write>(
    closed: &Closed<H, R, S, C>,
    writer: &mut Sink<W>,
) -> Result<(), RunError>
    ensures writes { Writes writer.old writer.new
        (flat_map (λ e. session_text e.number e.calls e.end e.torn) closed.now.sessions.items
        ++ closed_text (length closed.now.desk.history)) result }
    ensures flushed { OnOk result (writer.new.waits ≡ false) }
{
    tell_sessions(closed.sessions.as_slice(), writer)?;
    let line = closed_line(closed.desk.len());
    write_out(writer, line.as_slice())
}
