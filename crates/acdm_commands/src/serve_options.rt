//! How `serve` is asked to serve its partners, and what its operator has.
ghost use Rattle.std.specs.Prelude.{◌≡◌, true, IfErr, is_some};
ghost use Rattle.acdm_commands.specs.Partners.{FailsToOperate, terms_by};

use crate::beside::is_beside;
use crate::context::Context;
use crate::request::JournalFiles;
use crate::saving::{is_one, taken};
use crate::standard_streams::is_standard;
use acdm_confirming::ConfirmationTerms;
use acdm_failures::Failure;
use acdm_keeping::is_special;
use acdm_partners::{Appends, Control, Terms};
use acdm_serving::Host;
use std::fs::{File, Files};
use std::io::{self, ErrorKind};

/// How `serve` is to serve its partners, beside the rest.
#[derive(Clone, Copy, Debug, PartialEq, Eq)]
pub(crate) struct ServeOptions<'a> {
    /// Whether each session goes on with the next connection.
    pub(crate) again: bool,
    /// The control address, if there is one.
    pub(crate) control: Option<&'a str>,
    /// How many lines of a session are taken in a minute at most, if that is bounded.
    pub(crate) pace: Option<u32>,
    /// How many seconds lie between the board's own ticks, from 1 to 86,400, if it gives any.
    pub(crate) tick: Option<u32>,
    /// The file in which is logged what an operator is told, if it is.
    pub(crate) log: Option<&'a str>,
    /// How many boards that follow have to keep an entry before a reply tells of it, from 1 to 8, if any have to.
    pub(crate) second: Option<u32>,
    /// Whether no reply is sent while too few boards follow.
    pub(crate) is_strict: bool,
    /// The address of another board that may have taken over, if one is named.
    pub(crate) peer: Option<&'a str>,
}

impl ServeOptions<'_> {
    /// By which terms partners are served.
    pub(crate) fn terms(&self) -> Terms
        ensures { result ≡ record { again = self.now.again; pace = self.now.pace } }
    {
        Terms {
            again: self.again,
            pace: self.pace,
        }
    }

    /// For how many boards replies wait, if they do.
    pub(crate) fn confirmation_terms(&self) -> Option<ConfirmationTerms>
        ensures { result ≡ terms_by self.now.second self.now.is_strict }
    {
        match self.second {
            Some(wanted) => Some(ConfirmationTerms {
                wanted: wanted as usize,
                is_strict: self.is_strict,
            }),
            None => None,
        }
    }
}

/// What an operator has of a board, each where it was asked for: the control address, and the path of the log.
#[derive(Drop)]
pub(crate) struct Operator {
    pub(crate) control: Option<Control>,
    pub(crate) log: Option<String>,
}

// Whether the path of a log is that of a standard stream, or of what else the words name, or of the tables beside that.
fn is_taken<Rt: Files<File = File>>(rt: &Rt, path: &str, files: &JournalFiles<'_>) -> bool {
    let kept = files.kept_path();
    if is_standard(rt, path) || is_beside(path, files.save) || is_beside(path, kept) {
        return true;
    }
    is_one(rt, path, files.save) || is_one(rt, path, kept) || is_one(rt, path, files.tables.path)
}

// Makes the file of a log where there is none. The system's error where it can't be written at its end; one of the kind
// `InvalidInput` where it is no plain file, or is something else of the command too.
fn make_log<Rt: Files<File = File> + Appends>(
    rt: &Rt,
    path: &str,
    files: &JournalFiles<'_>,
) -> io::Result<()> {
    if is_special(rt, path) {
        return Err(io::Error::new(ErrorKind::InvalidInput, "no plain file"));
    }
    if is_taken(rt, path, files) {
        return Err(taken());
    }
    rt.append(path, b"")?;
    // By now it is there, and known by what it is.
    if is_taken(rt, path, files) {
        return Err(taken());
    }
    Ok(())
}

// Listens at the control address, if there is one. `Control` where it is none, or can't be listened at, which is noted.
fn control_at<Rt: Host>(
    context: &Context<'_, Rt>,
    address: Option<&str>,
) -> Result<Option<Control>, Failure>
    ensures why { IfErr result (λ failure. failure ≡ Failure.Control) }
    ensures asked { IfErr result (λ _. is_some address.entry ≡ true) }
{
    let Some(address) = address else {
        return Ok(None);
    };
    match Control::open(context.rt, context.alloc, address) {
        Ok(control) => Ok(Some(control)),
        Err(error) => {
            context
                .why
                .note(context.alloc, "--control ", address, &error);
            Err(Failure::Control)
        }
    }
}

// Makes the file of the log, if there is one, and answers its path. `Log` where it can't be written, which is
// noted; `Memory` where that was refused.
fn log_at<Rt: Host + Files<File = File>>(
    context: &Context<'_, Rt>,
    path: Option<&str>,
    files: &JournalFiles<'_>,
) -> Result<Option<String>, Failure>
    ensures { IfErr result (λ _. is_some path.entry ≡ true) }
{
    let Some(path) = path else {
        return Ok(None);
    };
    match make_log(context.rt, path, files) {
        Ok(()) => match String::from_str(context.alloc, path) {
            Ok(path) => Ok(Some(path)),
            Err(_) => Err(Failure::Memory),
        },
        Err(error) => Err(
            context
                .why
                .failure(context.alloc, Failure::Log, "--log ", path, &error),
        ),
    }
}

/// Listens at the control address, and makes the file of the log, each if there is one. `Control` and `Log` where
/// that failed, and why is noted; `Memory` where that was refused.
pub(crate) fn operator_of<Rt: Host + Files<File = File>>(
    context: &Context<'_, Rt>,
    options: &ServeOptions<'_>,
    files: &JournalFiles<'_>,
) -> Result<Operator, Failure>
    ensures { IfErr result (FailsToOperate (is_some options.now.control) (is_some options.now.log)) }
{
    let control = match control_at(context, options.control) {
        Ok(control) => control,
        Err(_) => return Err(Failure::Control),
    };
    match log_at(context, options.log, files) {
        Ok(log) => Ok(Operator { control, log }),
        Err(Failure::Memory) => Err(Failure::Memory),
        Err(_) => Err(Failure::Log),
    }
}
