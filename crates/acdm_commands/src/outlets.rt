//! The addresses of displays, at which the command `serve` listens beside its partners.
ghost use Rattle.std.specs.Prelude.{◌≡◌, IfErr, is_some, option_map};
ghost use Rattle.acdm_commands.specs.Partners.{FailsToShow, has_outlet};

use crate::addresses::socket_at;
use crate::context::Context;
use acdm_confirming::Confirmed;
use acdm_displays::{DisplayKind, DisplayListener, Displays};
use acdm_failures::Failure;
use acdm_keeping::{BoardTerm, Reach};
use acdm_row::Row;
use acdm_serving::Host;
use std::io;
use std::sync::Arc;
use std::thread::Threads;
use std::time::Clock as SystemClock;

/// Where displays are sent the journal, where they are told what it changes, and where browsers have
/// the board as a page: an IP address and a port each, or nowhere. And by which name browsers may ask for it.
#[derive(Clone, Copy, Debug, PartialEq, Eq)]
pub(crate) struct OutletAddresses<'a> {
    pub(crate) journal: Option<&'a str>,
    pub(crate) changes: Option<&'a str>,
    pub(crate) web: Option<&'a str>,
    pub(crate) web_name: Option<&'a str>,
}

impl<'a> OutletAddresses<'a> {
    // Whether there is one.
    fn is_any(&self) -> bool
        ensures { result ≡ has_outlet (is_some self.now.journal) (is_some self.now.changes) (is_some self.now.web) }
    {
        if self.journal.is_some() {
            return true;
        }
        if self.changes.is_some() {
            return true;
        }
        self.web.is_some()
    }

    // That of a kind of displays.
    fn of(&self, kind: DisplayKind) -> Option<&'a str>
        ensures journal { kind ≡ DisplayKind.Journal → option_map (λ a. a.now) result
            ≡ option_map (λ a. a.now) self.now.journal }
        ensures changes { kind ≡ DisplayKind.Changes → option_map (λ a. a.now) result
            ≡ option_map (λ a. a.now) self.now.changes }
        ensures web { kind ≡ DisplayKind.Web → option_map (λ a. a.now) result
            ≡ option_map (λ a. a.now) self.now.web }
    {
        match kind {
            DisplayKind::Journal => self.journal,
            DisplayKind::Changes => self.changes,
            DisplayKind::Web => self.web,
        }
    }
}

/// Displays that are sent the journal, those that are told what it changes, and browsers.
#[derive(Drop)]
pub(crate) struct Outlets {
    open: Vec<Displays>,
}

/// Disconnects all displays, once they were sent what there is.
pub(crate) fn close_all<Rt: SystemClock + Threads>(rt: &Rt, outlets: Outlets) {
    let Outlets { open } = outlets;
    for displays in open {
        displays.close(rt);
    }
}

// The option that names the address of displays of a kind.
fn option_of(kind: DisplayKind) -> &'static str {
    match kind {
        DisplayKind::Journal => "--watch ",
        DisplayKind::Changes => "--changes ",
        DisplayKind::Web => "--web ",
    }
}

/// The entries that displays are shown: those of a row, as far as it is kept where it is, what other boards keep where
/// replies wait for that, and the board's term.
#[derive(Clone, Copy)]
pub(crate) struct ShownRow<'a> {
    pub(crate) row: &'a Arc<Row>,
    pub(crate) reach: &'a Option<Reach>,
    pub(crate) confirmed: &'a Option<Arc<Confirmed>>,
    pub(crate) term: &'a BoardTerm,
}

// Displays of a row that connect at an address.
fn displays_at<Rt: Host>(
    context: &Context<'_, Rt>,
    kind: DisplayKind,
    address: &str,
    name: Option<&str>,
    shown: ShownRow<'_>,
) -> io::Result<Displays> {
    let ShownRow {
        row,
        reach,
        confirmed,
        term,
    } = shown;
    let socket = socket_at(context.rt, address)?;
    let listener = DisplayListener {
        kind,
        socket,
        name,
        confirmed: confirmed.as_ref(),
        term: term.copy(context.alloc)?,
    };
    Displays::start(context.rt, context.alloc, listener, row, reach.as_ref())
}

impl Outlets {
    // Listens for displays of a row at the address of their kind, if there is one. Why not is noted.
    fn add<Rt: Host>(
        &mut self,
        context: &Context<'_, Rt>,
        addresses: OutletAddresses<'_>,
        kind: DisplayKind,
        shown: ShownRow<'_>,
    ) -> Result<(), Failure> {
        let Some(address) = addresses.of(kind) else {
            return Ok(());
        };
        match displays_at(context, kind, address, addresses.web_name, shown) {
            Ok(displays) => {
                self.open.push(displays)?;
                Ok(())
            }
            Err(error) => {
                let option = option_of(kind);
                Err(
                    context
                        .why
                        .failure(context.alloc, Failure::Watch, option, address, &error),
                )
            }
        }
    }

    // Listens for all displays of a row, which are shown it as far as it is kept where it is.
    fn add_all<Rt: Host>(
        &mut self,
        context: &Context<'_, Rt>,
        addresses: OutletAddresses<'_>,
        shown: ShownRow<'_>,
    ) -> Result<(), Failure> {
        self.add(context, addresses, DisplayKind::Journal, shown)?;
        self.add(context, addresses, DisplayKind::Changes, shown)?;
        self.add(context, addresses, DisplayKind::Web, shown)
    }
}

/// Listens for all displays of a row, or for none. The room for them is there before the first. `Watch` where an
/// address is none or can't be listened at, and why is noted; `Memory` where that was refused.
pub(crate) fn outlets_at<Rt: Host>(
    context: &Context<'_, Rt>,
    addresses: OutletAddresses<'_>,
    shown: ShownRow<'_>,
) -> Result<Outlets, Failure>
    ensures { IfErr result (FailsToShow (has_outlet (is_some addresses.entry.journal)
        (is_some addresses.entry.changes) (is_some addresses.entry.web))) }
{
    let Ok(open) = Vec::with_capacity(context.alloc, 3) else {
        return Err(Failure::Memory);
    };
    let mut outlets = Outlets { open };
    if !addresses.is_any() {
        return Ok(outlets);
    }
    match outlets.add_all(context, addresses, shown) {
        Ok(()) => Ok(outlets),
        Err(Failure::Memory) => {
            close_all(context.rt, outlets);
            Err(Failure::Memory)
        }
        Err(_) => {
            close_all(context.rt, outlets);
            Err(Failure::Watch)
        }
    }
}
