//! The headline, over the public contracts of the crates below.
ghost use Rattle.std.specs.Prelude.{◌≡◌, ◌≤◌, ℕ, List, ◌∷◌, false, map, IfOk, IfErr, vec_len};
ghost use Rattle.bpf_helpers.specs.Promise.{Promise};
ghost use Rattle.bpf_verifier.specs.Verdict.{Verified};
ghost use Rattle.bpf_verifier.specs.Runs.{MayRun};
ghost use Rattle.acdm_step.specs.declared.entry.Entry.{Entry};
ghost use Rattle.acdm_step.specs.Commands.{History, is_accepted};
ghost use Rattle.acdm_step.specs.History.{IsLegal};
ghost use Rattle.acdm_sessions.specs.Sessions.{session_start, session_told};
ghost use Rattle.acdm_headline.specs.Headline.{ChangesNothing, IsInterleaved, IsOfTheStep};
ghost use Rattle.acdm_headline.specs.Headline.{NeverGoesWrong};

use acdm_board::Desk;
use acdm_sessions::{Clock, Closed, Gate, ReplyWriter, Session, run_sessions};
use acdm_step::law::{a_refused_command_changes_nothing, slots_are_asked_of_the_history};
use bpf_helpers::Helpers;
use bpf_verifier::laws::checked_programs_never_go_wrong;
use std::alloc::Global;
use std::io::Read;
use std::sync::Wait;
use std::thread::Threads;

/// What holds of every program that the verifier accepts, and of every entry of every legal journal.
pub fn the_written_step_is_kept()
    ensures programs { (v : Verified) → MayRun v → NeverGoesWrong v }
    ensures step { (sigs : List (ℕ × Promise)) (J : History) (e : Entry) → IsLegal sigs (e ∷ J)
        → IsOfTheStep sigs J e }
    ensures refused { (sigs : List (ℕ × Promise)) (J : History) (e : Entry)
        → is_accepted e.verdict ≡ false → ChangesNothing sigs J e }
{
    checked_programs_never_go_wrong();
    a_refused_command_changes_nothing();
    slots_are_asked_of_the_history();
}

/// Serves all sessions at once, each on a thread of its own, as `run_sessions`, which it calls: at most
/// 64, and `Err` only where memory was refused before any session started, the desk as it was.
///
/// Its contract is the headline of this project. A program that the verifier accepts ends on every
/// flight record, whatever answers the helpers give within their promise, without a trap and in at most
/// as many steps as it has instructions (`programs`). For every interleaving of partners' commands,
/// served by any threads, board, alerts and replies are those of the written milestone step with the
/// programs then loaded (`interleaved`, `step`), a refused command changing nothing (`refused`).
pub fn serve_sessions<
    R: Read + Drop + Send,
    W: ReplyWriter + Drop + Send,
    C: Clock + Drop + Send,
    H: Helpers + Drop + Send,
    G: Gate + Sync,
    Rt: Threads + Wait + Sync,
>(
    rt: &Rt,
    alloc: Global,
    desk: Desk<H>,
    sessions: Vec<Session<R, W, C>>,
    gate: &G,
) -> Result<Closed<H, R, W, C>, Desk<H>>
    requires few { vec_len sessions ≤ 64 }
    ensures programs { (v : Verified) → MayRun v → NeverGoesWrong v }
    ensures step { (sigs : List (ℕ × Promise)) (J : History) (e : Entry) → IsLegal sigs (e ∷ J)
        → IsOfTheStep sigs J e }
    ensures refused { (sigs : List (ℕ × Promise)) (J : History) (e : Entry)
        → is_accepted e.verdict ≡ false → ChangesNothing sigs J e }
    ensures interleaved { IfOk result (λ c. IsInterleaved desk c.desk
        (map (λ s. session_start s.role s.reader s.writer (C.gives s.clock)) sessions.items)
        (map (λ e. session_told e.number e.role e.calls e.end e.torn e.reader e.writer e.pass)
        c.sessions.items)) }
    ensures err { IfErr result (λ d. d ≡ desk) }
{
    the_written_step_is_kept();
    match run_sessions(rt, alloc, desk, sessions, gate) {
        Ok(closed) => {
            closed.desk.core();
            Ok(closed)
        }
        Err(desk) => Err(desk),
    }
}
