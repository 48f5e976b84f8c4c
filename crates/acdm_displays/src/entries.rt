//! Which entries displays are shown.
ghost use Rattle.std.specs.Prelude.{◌≡◌, [], IfOk, IfSome};
ghost use Rattle.std.specs.Arc.{arc_value};
ghost use Rattle.acdm_displays.specs.Within.{IsAsKept, IsNoLess};

use acdm_keeping::{Extent, Reach};
use acdm_row::Row;
use acdm_watch::Watch;
use std::alloc::{AllocError, Global};
use std::sync::Arc;
use std::sync::atomic::AtomicBool;

/// The entries that displays are shown while they are made: those of a row; where they are kept, as far as
/// they are.
#[derive(Drop)]
pub struct Entries<'a> {
    /// The row.
    pub row: &'a Arc<Row>,
    /// How far it is kept, where it is.
    pub reach: Option<&'a Reach>,
    /// Whether the last one was made.
    pub closing: &'a AtomicBool,
}

/// The entries of a row that may be shown to a display: the first ones, up to so many.
#[derive(Drop)]
pub(crate) struct Prefix<'a> {
    pub(crate) row: &'a Row,
    pub(crate) most: usize,
}

/// What was seen of a row, and the extent that says that it is kept, where entries are kept.
#[derive(Drop)]
pub(crate) struct Seen {
    pub(crate) watch: Watch,
    pub(crate) extent: Option<Extent>,
}

impl Entries<'_> {
    /// The extent for what is kept by now, where entries are kept.
    pub(crate) fn latest(&self) -> Option<Extent>
        ensures { IsAsKept self.now.reach result }
    {
        match self.reach {
            Some(reach) => Some(reach.latest()),
            None => None,
        }
    }

    /// The extent for what is kept by now in the place of another one, where it is for more.
    pub(crate) fn later(&self, before: Option<Extent>) -> Option<Extent>
        ensures { IsNoLess before result }
    {
        match (before, self.latest()) {
            (Some(old), Some(new)) if old.count() < new.count() => Some(new),
            (before, _) => before,
        }
    }
}

/// Nothing was seen of the entries.
pub(crate) fn seen_of(alloc: Global, entries: &Entries<'_>) -> Result<Seen, AllocError>
    ensures row { IfOk result (λ s. s.watch.row ≡ arc_value entries.now.row.now) }
    ensures empty { IfOk result (λ s. s.watch.seen ≡ []) }
    ensures kept { IfOk result (λ s. IsAsKept entries.now.reach s.extent) }
{
    let watch = Watch::new(alloc, entries.row)?;
    let extent = entries.latest();
    Ok(Seen { watch, extent })
}

/// How many entries may be shown by an extent, or without one.
pub(crate) fn most_shown(extent: Option<Extent>) -> usize
    ensures { IfSome extent (λ r. result ≡ r.count) }
{
    match extent {
        Some(extent) => extent.count(),
        None => usize::MAX,
    }
}
