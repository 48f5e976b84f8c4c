//! The words `ROLE=ADDR` of the command `serve`.
ghost use Rattle.std.specs.Prelude.{◌≡◌, ◌+◌, ◌≤◌, IfOk, IfErr, OnOk, Some, is_some, length, map, option_map};
ghost use Rattle.acdm_commands.specs.Minutes.{is_minute};
ghost use Rattle.acdm_commands.specs.Partners.{AddsNamed, FailsToListen, FailsToName, FailsToSeat, address_in};
ghost use Rattle.acdm_commands.specs.Partners.{role_in};
ghost use Rattle.acdm_serving.specs.Partners.{starts_of};

use crate::context::Context;
use crate::system_clock::SystemMinutes;
use acdm_failures::Failure;
use acdm_milestones::Role;
use acdm_serving::{Listener, Partners, Ticking};
use std::io::{self, ErrorKind};
use std::net::{Net, SocketAddr, TcpListener, TcpStream};
use std::time::Clock as SystemClock;

// The role and the address of a word, the `number`-th.
fn partner_of<'a>(number: usize, word: &'a str) -> Result<(Role, &'a str), Failure>
    ensures role { IfOk result (λ p. role_in word.now ≡ Some p.0) }
    ensures address { IfOk result (λ p. p.1.now ≡ address_in word.now) }
    ensures fails { IfErr result (FailsToName number word.now) }
{
    let Some((role, address)) = word.split_once('=') else {
        return Err(Failure::Role(number));
    };
    match Role::from_name(role.as_bytes()) {
        Some(role) => Ok((role, address)),
        None => Err(Failure::Role(number)),
    }
}

/// Listens at an address, an IP address and a port. The system's error where it can't, one of the kind
/// `InvalidInput` where it is no address.
pub(crate) fn socket_at<Rt: Net<Listener = TcpListener, Stream = TcpStream>>(
    rt: &Rt,
    address: &str,
) -> io::Result<TcpListener> {
    let Ok(address) = address.parse::<SocketAddr>() else {
        return Err(io::Error::new(ErrorKind::InvalidInput, "no IP address with a port"));
    };
    TcpListener::bind(rt, address)
}

// Listens for the partner that a word names, the `number`-th. Why not is noted.
fn listen_for<'r, Rt: Net<Listener = TcpListener, Stream = TcpStream> + SystemClock>(
    context: &Context<'r, Rt>,
    number: usize,
    word: &str,
) -> Result<Listener<SystemMinutes<'r, Rt>>, Failure>
    ensures role { IfOk result (λ p. role_in word.now ≡ Some p.role) }
    ensures fails { IfErr result (FailsToName number word.now) }
{
    let (role, address) = match partner_of(number, word) {
        Ok(partner) => partner,
        Err(failure) => {
            let error = io::Error::new(
                ErrorKind::InvalidInput,
                "no role before =: NM, ATC, APT, AO, GH or DIC",
            );
            context.why.note(context.alloc, "", word, &error);
            return Err(failure);
        }
    };
    match socket_at(context.rt, address) {
        Ok(socket) => Ok(Listener {
            role,
            socket,
            clock: SystemMinutes::new(context.rt),
        }),
        Err(error) => {
            context.why.note(context.alloc, "", word, &error);
            Err(Failure::Address(number))
        }
    }
}

// Listens for the partner that a word names, the next.
fn add<'r, Rt: Net<Listener = TcpListener, Stream = TcpStream> + SystemClock>(
    context: &Context<'r, Rt>,
    partners: &mut Vec<Listener<SystemMinutes<'r, Rt>>>,
    word: &str,
) -> Result<(), Failure>
    ensures added { OnOk result (AddsNamed (λ p. p.role) word.now partners.old.items
        partners.new.items) }
    ensures fails { IfErr result (FailsToName (length partners.old.items + 1) word.now) }
{
    let number = partners.len() + 1;
    let partner = listen_for(context, number, word)?;
    partners.push(partner)?;
    Ok(())
}

// Listens for each partner that the words name, in order, from 1. The first word whose role is not
// readable, or whose address is not readable or can't be bound, is the failure, and is noted.
fn listen<'r, Rt: Net<Listener = TcpListener, Stream = TcpStream> + SystemClock>(
    context: &Context<'r, Rt>,
    words: &[&str],
) -> Result<Vec<Listener<SystemMinutes<'r, Rt>>>, Failure>
    ensures roles { IfOk result (λ partners.
        map role_in (map (λ w. w.now) words.now) ≡ map (λ p. Some p.role) partners.items) }
    ensures fails { IfErr result (FailsToListen (map (λ w. w.now) words.now)) }
{
    let mut partners = Vec::new(context.alloc);
    for word in words {
        add(context, &mut partners, word)?;
    }
    Ok(partners)
}

// Notes that a word, by its place from 0, names one partner too many.
fn note_word<Rt>(context: &Context<'_, Rt>, words: &[&str], place: usize) {
    let error = io::Error::new(
        ErrorKind::InvalidInput,
        "more sessions than 64, of which ticks take one",
    );
    if let Some(word) = words.get(place) {
        context.why.note(context.alloc, "", word, &error);
    }
}

/// Listens for the partners of the words, at most 64, and has the clock of ticks, each so many seconds, if there are
/// any, which take the place of one. The first word that names no role, whose address is none or can't be listened
/// at, or that is one too many, is the failure, and is noted.
pub(crate) fn few_partners<'r, Rt: Net<Listener = TcpListener, Stream = TcpStream> + SystemClock>(
    context: &Context<'r, Rt>,
    tick: Option<u32>,
    words: &[&str],
) -> Result<Partners<SystemMinutes<'r, Rt>>, Failure>
    ensures few { IfOk result (λ p. length (starts_of (λ _. is_minute) p.listeners.items
        (option_map (λ t. t.clock) p.ticks)) ≤ 64) }
    ensures roles { IfOk result (λ p.
        map role_in (map (λ w. w.now) words.now) ≡ map (λ p. Some p.role) p.listeners.items) }
    ensures ticks { IfOk result (λ p. is_some p.ticks ≡ is_some tick) }
    ensures fails { IfErr result (FailsToSeat (map (λ w. w.now) words.now) (is_some tick)) }
{
    let listeners = match listen(context, words) {
        Ok(listeners) => listeners,
        Err(failure) => return Err(failure),
    };
    match tick {
        Some(seconds) => {
            if listeners.len() > 63 {
                note_word(context, words, 63);
                return Err(Failure::Address(64));
            }
            let clock = SystemMinutes::new(context.rt);
            Ok(Partners {
                listeners,
                ticks: Some(Ticking { seconds, clock }),
            })
        }
        None => {
            if listeners.len() > 64 {
                note_word(context, words, 64);
                return Err(Failure::Address(65));
            }
            Ok(Partners {
                listeners,
                ticks: None,
            })
        }
    }
}
