//! The command `serve`, from its words on.
ghost use Rattle.std.specs.Prelude.{◌≡◌, ◌≤◌, true, false, IfErr, IfOk, IfSome, None, OnErr, is_some, length, map, option_map};
ghost use Rattle.std.specs.Arc.{arc_value};
ghost use Rattle.acdm_board.specs.Desk.{row_of};
ghost use Rattle.acdm_confirming.specs.Confirming.{terms_of};
ghost use Rattle.acdm_commands.specs.Completed.{ServesLine};
ghost use Rattle.acdm_commands.specs.Keeping.{BeginsWith, FailsAtDesk, FailsToBegin, FailsToResume, IsNewKeeper};
ghost use Rattle.acdm_commands.specs.Keeping.{ComesLed, IsLed, ServesLed, seen_by};
ghost use Rattle.acdm_commands.specs.Minutes.{is_minute};
ghost use Rattle.acdm_commands.specs.Terms.{MayGoOn};
ghost use Rattle.acdm_commands.specs.Partners.{FailsToOpen, FailsToServe, IsNamedBy, named_of, role_in, terms_by};
ghost use Rattle.acdm_failures.specs.Failures.{EndsBy};
ghost use Rattle.acdm_keeping.specs.Kept.{Blames, CutsShort, StandsFor};
ghost use Rattle.acdm_failures.specs.declared.failure.Failure.TheVariants.{Follow, Memory};
ghost use Rattle.acdm_serving.specs.Partners.{starts_of};
ghost use Rattle.acdm_tables.specs.Helpers.{helpers_by};

use crate::addresses::few_partners;
use crate::cause::Noting;
use crate::context::Context;
use crate::outlets::{Outlets, ShownRow, close_all, outlets_at};
use crate::request::{KeepIn, ServeRequest, Setup};
use crate::resuming::{KeptFile, Resumption, keeper_of, resume};
use crate::saving::{buffer_for, save_served, saving_in, settle};
use crate::serve_options::{Operator, ServeOptions, operator_of};
use crate::system_clock::SystemMinutes;
use crate::term::{JournalTerm, term_of};
use acdm_board::Desk;
use acdm_confirming::Confirmed;
use acdm_failures::{Failure, ended};
use acdm_judging::Finding;
use acdm_keeping::{
    Keeper, KeptCount, LastingReceipt, Named, Opening, Paths, Reach, SharedKeeper, Synced,
};
use acdm_serving::{
    FileKeeper, FirstBoardPlace, Host, Operation, Partners, ServedPartners, follow_first,
    latest_receipt, serve_partners, serve_reconnecting,
};
use acdm_sessions::{RunError, Sink};
use acdm_tables::KnownHelpers;
use bpf_helpers::Helpers;
use std::alloc::{AllocError, Global};
use std::fs::{File, Files};
use std::io::{self, BufWriter, ErrorKind, Write};
use std::marker::Brand;
use std::net::SocketAddr;
use std::sync::Arc;
use std::sync::atomic::AtomicBool;

/// A board that partners are to be served by, and the keeper of its journal, if it is kept, with the name of the file.
#[derive(Drop)]
struct BoardStart<Rt: Paths + Drop, H: Helpers + Drop> {
    desk: Desk<H>,
    keeper: Option<Keeper<Synced<Rt>>>,
    named: Option<Named>,
    // What receipts of the keeper are compared by.
    count: KeptCount,
    term: JournalTerm,
}

/// Why no partner is served.
#[derive(Drop)]
enum BeginError {
    /// The journal that was kept is not legal, and this is to be told of it.
    Illegal(Finding),
    /// This failed.
    Failed(Failure),
}

/// Serves a partner for each word `ROLE=ADDR`, at most 64, all at once, and tells on the writer what it does.
/// Displays are sent meanwhile what they have an address for. Where the journal is kept, the board goes on from the one
/// in the file, and a reply is sent once its entry stands there. When all partners are gone, the journal is saved, if
/// that was asked for, whether it could be told how they ended or not.
///
/// The status is 0 where all was told and the journal was kept and saved; 1 where what the file has is
/// no legal journal, which is told as an audit tells it, and nobody is served; else 2, with a line on the errors'
/// writer.
pub(crate) fn serve_command<'a, Rt: Host + Files<File = File>, W: Write, E: Write>(
    context: &'a Context<'_, Rt>,
    setup: Setup,
    request: &'a ServeRequest<'a>,
    output: &mut Sink<W>,
    errors: &mut Sink<E>,
) -> u8
    ensures { EndsBy (ServesLine (helpers_by setup.tables) setup.capacity
        (option_map (λ s. s.now) request.now.files.save) (is_some request.now.files.keep) (named_of request.now)
        output.old output.new) result errors.old errors.new }
{
    match saving_in(context, request.files) {
        Ok(mut saving) => {
            let work = match begin(context, setup, request) {
                // (`Brand`: the proof says what the desk of this start and its keeper began with)
                Ok(begun) => serve_desk::<Brand, Rt, KnownHelpers, W, BufWriter<Noting<'a, File>>>(
                    context,
                    request,
                    begun,
                    output,
                    &mut saving.file,
                ),
                Err(BeginError::Illegal(finding)) => finding.tell(output),
                Err(BeginError::Failed(failure)) => Err(failure),
            };
            ended(settle(context, request.files, saving, work), errors)
        }
        Err(failure) => ended(Err(failure), errors),
    }
}

// Makes a board, which goes on from the journal in a file where it is kept, unless its peer has taken over.
fn begin<Rt: Host + Files<File = File>>(
    context: &Context<'_, Rt>,
    setup: Setup,
    request: &ServeRequest<'_>,
) -> Result<BoardStart<Rt, KnownHelpers>, BeginError>
    ensures begins { IfOk result (λ b. BeginsWith (helpers_by setup.tables) setup.capacity
        (is_some request.now.files.keep) b.desk) }
    ensures kept { IfOk result (λ b. is_some b.keeper ≡ is_some request.now.files.keep) }
    ensures new { IfOk result (λ b. IfSome b.keeper (IsNewKeeper b.desk)) }
    ensures goes_on { IfOk result (λ b. is_some request.now.files.keep ≡ true
        → MayGoOn (named_of request.now).follows (named_of request.now).peered b.term.own b.term.peer) }
    ensures fails { IfErr result (FailsToBegin (is_some request.now.files.keep) (named_of request.now).peered) }
{
    let Setup { tables, capacity } = setup;
    let helpers = KnownHelpers::new(context.alloc, tables);
    let Ok(count) = KeptCount::new(context.alloc) else {
        return Err(BeginError::Failed(Failure::Memory));
    };
    let Ok(mut desk) = Desk::new(context.alloc, helpers, capacity) else {
        return Err(BeginError::Failed(Failure::Memory));
    };
    let Some(keep) = request.files.keep else {
        let Ok(term) = JournalTerm::first(context.alloc) else {
            return Err(BeginError::Failed(Failure::Memory));
        };
        return Ok(BoardStart {
            desk,
            keeper: None,
            named: None,
            count,
            term,
        });
    };
    let follows = request.first.is_some();
    let term = match term_of(context, keep, request.options.peer, follows) {
        Ok(term) => term,
        Err(failure) => return Err(BeginError::Failed(failure)),
    };
    let KeptFile { writer, named } = match resume(context, keep, &mut desk) {
        Ok(Resumption::Ready(kept)) => kept,
        Ok(Resumption::Illegal(finding)) => return Err(BeginError::Illegal(finding)),
        Err(failure) => return Err(BeginError::Failed(failure)),
    };
    match keeper_of(context.alloc, &desk, writer) {
        Ok(keeper) => Ok(BoardStart {
            desk,
            keeper: Some(keeper),
            named: Some(named),
            count,
            term,
        }),
        Err(failure) => Err(BeginError::Failed(failure)),
    }
}

// Serves partners by a board, and saves what they made. Its keeper, if there is one, is shared, and displays are shown what
// is kept. They are disconnected once the journal is saved, so that none of them delays it.
fn serve_desk<
    J: Opening + Send + Sync,
    Rt: Host + Files<File = File>,
    H: Helpers + Drop + Send,
    W: Write,
    F: Write + Drop,
>(
    context: &Context<'_, Rt>,
    request: &ServeRequest<'_>,
    begun: BoardStart<Rt, H>,
    output: &mut Sink<W>,
    saved: &mut Option<Sink<F>>,
) -> Result<u8, Failure>
    requires desk { row_of begun.desk ≡ J.desk_row }
    requires opening { seen_by begun.keeper ≡ J.opening }
    requires table { begun.count ≡ J.table }
    requires new { IfSome begun.keeper (IsNewKeeper begun.desk) }
    ensures { ServesLed (is_some begun.keeper) begun.desk (named_of request.now) output.old output.new saved.old
        saved.new result }
{
    let alloc = context.alloc;
    let BoardStart {
        desk,
        keeper,
        named,
        count,
        term,
    } = begun;
    let Ok(mut buffer) = buffer_for(alloc, saved) else {
        return Err(Failure::Memory);
    };
    let Operator { control, log } = match operator_of(context, &request.options, &request.files) {
        Ok(operator) => operator,
        Err(failure) => return Err(failure),
    };
    let shared: SharedParts<J, Rt> = match share(context, request, keeper, count, &named, &desk) {
        Ok(shared) => shared,
        Err(_) => return Err(Failure::Memory),
    };
    let SharedParts {
        keeper: shared,
        reach,
        named: same,
        confirmed,
        closing,
    } = shared;
    let JournalTerm { term, peer, .. } = term;
    let peer = match peer {
        Some(peer) => Some(peer.again()),
        None => None,
    };
    let shown = ShownRow {
        row: desk.row(),
        reach: &reach,
        confirmed: &confirmed,
        term: &term,
    };
    let (partners, outlets) = match opened(context, request, shown) {
        Ok(opened) => opened,
        Err(failure) => return Err(failure),
    };
    let operation = Operation {
        terms: request.options.terms(),
        control,
        closing,
        kept: named,
        log,
        keeper: shared.as_ref(),
        confirmed: confirmed.as_ref(),
        term,
        peer,
    };
    let led = Led {
        partners: Some(partners),
        desk,
        operation,
    };
    let served = serve_led(context.rt, context, request, led, output);
    let (mut desk, told, latest) = match served {
        Ok(served) => served,
        Err(failure) => {
            let _ = keep_rest(context.rt, shared, None);
            close_all(context.rt, outlets);
            note_kept(context, request.files.keep, &same);
            return Err(failure);
        }
    };
    let (_keeper, kept) = keep_rest(context.rt, shared, latest);
    match kept {
        Ok(()) => {}
        Err(failure) => {
            close_all(context.rt, outlets);
            note_kept(context, request.files.keep, &same);
            return Err(failure.of_keeping());
        }
    }
    let came = save_served(&mut buffer, &mut desk, told, saved);
    close_all(context.rt, outlets);
    match came {
        Ok(()) => Ok(0),
        Err(failure) => {
            note_kept(context, request.files.keep, &same);
            Err(failure)
        }
    }
}

// The name of a file, if there is one, once more.
fn copy_of(alloc: Global, named: &Option<Named>) -> Result<Option<Named>, Failure> {
    match named {
        Some(named) => Ok(Some(named.copy(alloc)?)),
        None => Ok(None),
    }
}

// Notes why the file in which a journal is kept could not be written any more, where it could not.
fn note_kept<Rt>(context: &Context<'_, Rt>, keep: Option<KeepIn<'_>>, named: &Option<Named>) {
    if let (Some(keep), Some(named)) = (keep, named) {
        keep.note_failure(context, named);
    }
}

/// What the threads of a board share beside its row: the keeper of its journal, how far that is kept and the name of its file,
/// if it is kept; what other boards keep, where replies wait for that; and whether the board closes.
#[derive(Drop)]
struct SharedParts<J: Opening, Rt: Host> {
    keeper: Option<FileKeeper<J, Rt>>,
    reach: Option<Reach>,
    named: Option<Named>,
    confirmed: Option<Arc<Confirmed>>,
    closing: Arc<AtomicBool>,
}

// Shares the keeper of a desk, if there is one. `Memory` where that was refused.
fn share<J: Opening, Rt: Host, H: Helpers + Drop>(
    context: &Context<'_, Rt>,
    request: &ServeRequest<'_>,
    keeper: Option<Keeper<Synced<Rt>>>,
    count: KeptCount,
    named: &Option<Named>,
    desk: &Desk<H>,
) -> Result<SharedParts<J, Rt>, Failure>
    requires desk { row_of desk.now ≡ J.desk_row }
    requires opening { seen_by keeper ≡ J.opening }
    requires table { count ≡ J.table }
    requires new { IfSome keeper (IsNewKeeper desk.now) }
    ensures shared { IfOk result (λ s. is_some s.keeper ≡ is_some keeper) }
    ensures confirmed { IfOk result (λ s. option_map (λ c. terms_of (arc_value c)) s.confirmed
        ≡ terms_by request.now.options.second request.now.options.is_strict) }
    ensures fails { IfErr result (λ failure. failure ≡ Memory) }
{
    let alloc = context.alloc;
    let Ok(closing) = Arc::new(alloc, AtomicBool::new(false)) else {
        return Err(Failure::Memory);
    };
    let Ok(named) = copy_of(alloc, named) else {
        return Err(Failure::Memory);
    };
    let Ok(confirmed) = confirmed_by(alloc, request.options, &closing) else {
        return Err(Failure::Memory);
    };
    let keeper = match shared_keeper(context.rt, alloc, keeper, count, desk, &closing) {
        Ok(keeper) => keeper,
        Err(_) => return Err(Failure::Memory),
    };
    match reach_of(&keeper) {
        Ok(reach) => Ok(SharedParts {
            keeper,
            reach,
            named,
            confirmed,
            closing,
        }),
        Err(_) => Err(Failure::Memory),
    }
}

// The keeper of a desk for all threads, if there is one.
fn shared_keeper<J: Opening, Rt: Host, H: Helpers + Drop>(
    rt: &Rt,
    alloc: Global,
    keeper: Option<Keeper<Synced<Rt>>>,
    count: KeptCount,
    desk: &Desk<H>,
    closing: &Arc<AtomicBool>,
) -> Result<Option<FileKeeper<J, Rt>>, Failure>
    requires desk { row_of desk.now ≡ J.desk_row }
    requires opening { seen_by keeper ≡ J.opening }
    requires table { count ≡ J.table }
    requires new { IfSome keeper (IsNewKeeper desk.now) }
    ensures shared { IfOk result (λ s. is_some s ≡ is_some keeper) }
    ensures fails { IfErr result (λ failure. failure ≡ Memory) }
{
    match keeper {
        Some(keeper) => match SharedKeeper::new(rt, alloc, keeper, count, closing) {
            Ok(shared) => Ok(Some(shared)),
            Err(_) => Err(Failure::Memory),
        },
        None => Ok(None),
    }
}

// How far the journal is kept, if it is.
fn reach_of<J: Opening, Rt: Host>(
    shared: &Option<FileKeeper<J, Rt>>,
) -> Result<Option<Reach>, Failure> {
    match shared {
        Some(keeper) => Ok(Some(keeper.reach()?)),
        None => Ok(None),
    }
}

// Keeps what is left, where the journal is kept, and answers its keeper. Whether that fails or not, what the latest
// receipt is for, behind which replies were handed on, stands in the file. It fails only where the file has, or where
// memory was refused.
fn keep_rest<J: Opening, Rt: Host>(
    rt: &Rt,
    shared: Option<FileKeeper<J, Rt>>,
    latest: Option<LastingReceipt<J>>,
) -> (Option<Keeper<Synced<Rt>>>, Result<(), Failure>)
    ensures keeper { is_some result.0 ≡ is_some shared }
    ensures stands { IfSome result.0 (λ k. StandsFor J.opening latest k.seen k.writer.log) }
    ensures blames { IfErr result.1 (λ failure. IfSome result.0 (λ k. Blames k.writer failure)) }
    ensures fails { IfErr result.1 CutsShort }
    ensures kept { OnErr result.1 (is_some shared ≡ true) }
{
    match shared {
        Some(keeper) => {
            let (keeper, kept) = keeper.end(rt, latest);
            (Some(keeper), kept)
        }
        None => (None, Ok(())),
    }
}

// What other boards keep, where replies wait for that.
fn confirmed_by(
    alloc: Global,
    options: ServeOptions<'_>,
    closing: &Arc<AtomicBool>,
) -> Result<Option<Arc<Confirmed>>, AllocError>
    ensures { IfOk result (λ confirmed. option_map (λ c. terms_of (arc_value c)) confirmed
        ≡ terms_by options.entry.second options.entry.is_strict) }
{
    let Some(terms) = options.confirmation_terms() else {
        return Ok(None);
    };
    let confirmed = Confirmed::new(terms, Arc::try_clone(closing)?);
    Ok(Some(Arc::new(alloc, confirmed)?))
}

// Listens for partners, and for displays of a row.
fn opened<'r, Rt: Host>(
    context: &Context<'r, Rt>,
    request: &ServeRequest<'_>,
    shown: ShownRow<'_>,
) -> Result<(Partners<SystemMinutes<'r, Rt>>, Outlets), Failure>
    ensures few { IfOk result (λ opened. length (starts_of (λ _. is_minute) opened.0.listeners.items
        (option_map (λ t. t.clock) opened.0.ticks)) ≤ 64) }
    ensures roles { IfOk result (λ opened.
        map role_in (named_of request.now).words ≡ map (λ p. Some p.role) opened.0.listeners.items) }
    ensures ticks { IfOk result (λ opened. is_some opened.0.ticks ≡ (named_of request.now).ticks) }
    ensures fails { IfErr result (FailsToOpen (named_of request.now)) }
{
    let partners = match few_partners(context, request.options.tick, request.words.as_slice()) {
        Ok(partners) => partners,
        Err(failure) => return Err(failure),
    };
    match outlets_at(context, request.outlets, shown) {
        Ok(outlets) => Ok((partners, outlets)),
        Err(failure) => Err(failure),
    }
}

// Whether each partner is served to the end of its one connection.
fn is_served_once<J: Opening, Rt: Host, C: Drop>(
    partners: &Partners<C>,
    operation: &Operation<'_, J, Rt>,
) -> bool
    ensures { result ≡ true → is_some partners.now.ticks ≡ false }
{
    partners.ticks.is_none() && operation.is_plain()
}

/// Who is served, by what desk, and how that is run: nobody, where the board was closed while another one was followed.
#[derive(Drop)]
struct Led<'r, 'c, J: Opening, Rt: Host, H: Helpers + Drop> {
    partners: Option<Partners<SystemMinutes<'c, Rt>>>,
    desk: Desk<H>,
    operation: Operation<'r, J, Rt>,
}

// The board that is to be followed, at its address. `Follow` where that is none, which is noted.
fn first_board<'a, Rt>(
    context: &Context<'_, Rt>,
    name: &'a str,
) -> Result<FirstBoardPlace<'a>, Failure>
    ensures { IfErr result (λ failure. failure ≡ Follow) }
{
    match name.parse::<SocketAddr>() {
        Ok(address) => Ok(FirstBoardPlace { name, address }),
        Err(_) => {
            let error = io::Error::new(ErrorKind::InvalidInput, "no IP address with a port");
            context.why.note(context.alloc, "", name, &error);
            Err(Failure::Follow)
        }
    }
}

// Follows another board first, where that is asked for and the journal is kept, until this one is to serve. Nobody listens
// for partners meanwhile.
fn lead<'r, 'c, J: Opening + Send + Sync, Rt: Host, H: Helpers + Drop>(
    rt: &'r Rt,
    context: &Context<'c, Rt>,
    request: &ServeRequest<'_>,
    led: Led<'r, 'c, J, Rt, H>,
) -> Result<Led<'r, 'c, J, Rt, H>, Failure>
    requires some { is_some led.partners ≡ true }
    requires few { IfSome led.partners (λ p. length (starts_of (λ _. is_minute) p.listeners.items
        (option_map (λ t. t.clock) p.ticks)) ≤ 64) }
    requires named { IfSome led.partners (IsNamedBy (named_of request.now)) }
    ensures few { IfOk result (λ led. IfSome led.partners (λ p. length (starts_of (λ _. is_minute) p.listeners.items
        (option_map (λ t. t.clock) p.ticks)) ≤ 64)) }
    ensures named { IfOk result (λ led. IfSome led.partners (IsNamedBy (named_of request.now))) }
    ensures led { IfOk result (λ after.
        IsLed (is_some led.entry.operation.keeper) (named_of request.now).follows led.entry.desk after.desk) }
    ensures closed { IfOk result (λ after. after.partners ≡ None
        → (is_some led.entry.operation.keeper ≡ true) × ((named_of request.now).follows ≡ true)) }
    ensures fails { IfErr result (FailsToOpen (named_of request.now)) }
{
    let Some(name) = request.first else {
        return Ok(led);
    };
    if led.operation.keeper.is_none() {
        return Ok(led);
    }
    let Led {
        partners,
        mut desk,
        mut operation,
    } = led;
    drop(partners);
    let place = match first_board(context, name) {
        Ok(place) => place,
        Err(failure) => return Err(failure),
    };
    match follow_first(rt, context.alloc, place, &mut operation, &mut desk) {
        Ok(true) => {}
        Ok(false) => {
            return Ok(Led {
                partners: None,
                desk,
                operation,
            });
        }
        Err(failure) => return Err(failure),
    }
    match few_partners(context, request.options.tick, request.words.as_slice()) {
        Ok(partners) => Ok(Led {
            partners: Some(partners),
            desk,
            operation,
        }),
        Err(failure) => Err(failure),
    }
}

// Follows another board first, where that is asked for, and serves the partners then. Answers the desk once they are gone,
// how it went to tell how they ended, and the latest receipt behind which replies were handed on, if the journal is kept.
fn serve_led<'r, 'c, J: Opening + Send + Sync + 'r, Rt: Host, H: Helpers + Drop + Send, W: Write>(
    rt: &'r Rt,
    context: &Context<'c, Rt>,
    request: &ServeRequest<'_>,
    led: Led<'r, 'c, J, Rt, H>,
    output: &mut Sink<W>,
) -> Result<(Desk<H>, Result<(), RunError>, Option<LastingReceipt<J>>), Failure>
    requires some { is_some led.partners ≡ true }
    requires few { IfSome led.partners (λ p. length (starts_of (λ _. is_minute) p.listeners.items
        (option_map (λ t. t.clock) p.ticks)) ≤ 64) }
    requires named { IfSome led.partners (IsNamedBy (named_of request.now)) }
    ensures serves { IfOk result (λ after. ComesLed (is_some led.entry.operation.keeper) led.entry.desk
        (named_of request.now) output.old output.new after.1 after.0.history) }
    ensures fails { IfErr result (FailsToServe (named_of request.now) output.old output.new) }
{
    let led = match lead(rt, context, request, led) {
        Ok(led) => led,
        Err(failure) => return Err(failure),
    };
    let Led {
        partners,
        desk,
        operation,
    } = led;
    let Some(partners) = partners else {
        return Ok((desk, Ok(()), None));
    };
    if is_served_once(&partners, &operation) {
        let Partners { listeners, .. } = partners;
        let served = match serve_partners(rt, context.alloc, listeners, desk, output) {
            Ok(served) => served,
            Err(error) => return Err(Failure::from(error)),
        };
        let ServedPartners {
            desk,
            sessions,
            told,
        } = served;
        drop(sessions);
        return Ok((desk, told, None));
    }
    let served = serve_reconnecting(rt, context.alloc, partners, operation, desk, output);
    let served = match served {
        Ok(served) => served,
        Err(error) => return Err(Failure::from(error)),
    };
    let ServedPartners {
        desk,
        sessions,
        told,
    } = served;
    let latest = latest_receipt(sessions);
    Ok((desk, told, latest))
}
