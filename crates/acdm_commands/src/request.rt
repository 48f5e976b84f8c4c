//! What the words of `run` and of `serve` ask for.
ghost use Rattle.std.specs.Prelude.{◌≡◌, IfSome, is_some, option_map};

use crate::outlets::OutletAddresses;
use crate::serve_options::ServeOptions;
use crate::tables::TablesFile;
use acdm_tables::Tables;

/// What a board is made by: the tables that its helpers answer by, and for how many entries its journal has room.
#[derive(Drop)]
pub struct Setup {
    /// The tables.
    pub tables: Tables,
    /// How many entries, from 1 to 1,000,000.
    pub capacity: usize,
}

/// Where a journal is kept.
#[derive(Clone, Copy)]
pub(crate) struct KeepIn<'a> {
    /// The file.
    pub(crate) path: &'a str,
    /// Whether what is kept stands on the disk before it is replied to.
    pub(crate) is_synced: bool,
    /// The file of the tables by which it is made.
    pub(crate) tables: TablesFile<'a>,
}

/// The files of a board's journal: the one that it is saved in at the end, and the one that it is kept in, each if
/// there is one, and that of the tables by which it is made.
#[derive(Clone, Copy)]
pub(crate) struct JournalFiles<'a> {
    pub(crate) save: Option<&'a str>,
    pub(crate) keep: Option<KeepIn<'a>>,
    pub(crate) tables: TablesFile<'a>,
}

impl<'a> JournalFiles<'a> {
    /// The files of these paths. What is kept is synced where the last word says so.
    pub(crate) fn new(
        tables: TablesFile<'a>,
        save: Option<&'a str>,
        keep: Option<&'a str>,
        is_synced: bool,
    ) -> JournalFiles<'a>
        ensures save { option_map (λ s. s.now) result.save ≡ option_map (λ s. s.now) save.entry }
        ensures keep { is_some result.keep ≡ is_some keep.entry }
        ensures path { option_map (λ k. k.path.now) result.keep ≡ option_map (λ p. p.now) keep.entry }
        ensures synced { IfSome result.keep (λ k. k.is_synced ≡ is_synced) }
    {
        let keep = match keep {
            Some(path) => Some(KeepIn {
                path,
                is_synced,
                tables,
            }),
            None => None,
        };
        JournalFiles { save, keep, tables }
    }

    /// The path of the file that it is kept in.
    pub(crate) fn kept_path(&self) -> Option<&'a str>
        ensures { option_map (λ p. p.now) result ≡ option_map (λ k. k.path.now) self.now.keep }
    {
        match self.keep {
            Some(keep) => Some(keep.path),
            None => None,
        }
    }
}

/// What `serve` is asked for: the address of a board that is followed before, where it is `follow`; the files of its
/// journal, the addresses of displays, how partners are served, and a word `ROLE=ADDR` for each of them.
#[derive(Drop)]
pub(crate) struct ServeRequest<'a> {
    pub(crate) first: Option<&'a str>,
    pub(crate) files: JournalFiles<'a>,
    pub(crate) outlets: OutletAddresses<'a>,
    pub(crate) options: ServeOptions<'a>,
    pub(crate) words: Vec<&'a str>,
}
