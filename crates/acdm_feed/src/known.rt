//! What is known of a board beside it: the name of its journal, which flights there are, and their alerts.
ghost use Rattle.std.specs.Prelude.{◌≡◌, ◌==◌, ◌||◌, ◌++◌, ◌∷◌, ℕ, List, [], OnOk, IfOk, IsTrue, Some, is_some};
ghost use Rattle.std.specs.Prelude.{None, if◌then◌else◌, nat_eq};
ghost use Rattle.indexmap.specs.IndexMap.{get};
ghost use Rattle.bpf_helpers.specs.Promise.{Promise};
ghost use Rattle.acdm_step.specs.Commands.{History, changes_flight, flight_of, is_migrate, is_tick};
ghost use Rattle.acdm_step.specs.Summaries.{flights};
ghost use Rattle.acdm_step.specs.History.{replay};
ghost use Rattle.std.specs.List.{list_any};
ghost use Rattle.acdm_feed.specs.Knowing.{AreKnown, IsNamed, Knows, KnowsFlights, Puts, word_of};
ghost use Rattle.acdm_feed.specs.Naming.{journal_name};

use crate::day::Day;
use crate::name::journal_name;
use acdm_record::Field;
use acdm_step::{Command, Core, Entry};
use indexmap::IndexMap;
use std::alloc::{AllocError, Global};

/// The name of a board's journal, if it has an entry; the flights in order of creation, and the alerts of
/// each as they were told last.
pub struct Known {
    pub(crate) name: Option<String>,
    pub(crate) flights: Vec<u64>,
    pub(crate) words: IndexMap<u64, u64>,
    // The day of the last entry.
    pub(crate) day: Day,
}

impl Drop for Known {
    fn drop(self) {
        let Known {
            name: _,
            flights: _,
            words: _,
            day: _,
        } = self;
    }
}

/// The alert word of a flight that is on the board.
pub(crate) fn word_on(board: &Core, flight: u64) -> Option<u64>
    ensures { (sigs : List (ℕ × Promise)) (J : History) → board.now ≡ replay sigs J
        → result ≡ word_of J flight }
{
    match board.record_of(flight) {
        Some(record) => Some(record.get(Field::Alerts)),
        None => None,
    }
}

/// The flight whose record a command changes, if it is that of one.
pub(crate) fn flight_changed(command: &Command) -> Option<u64>
    ensures { result ≡ (if changes_flight command.now then Some (flight_of command.now) else None) }
{
    match command {
        Command::Schedule(schedule) => Some(schedule.flight()),
        Command::Report(report) => Some(report.flight()),
        Command::Deice(deice) => Some(deice.flight.get()),
        _ => None,
    }
}

// Whether a command is one that may change the alerts of all flights.
fn touches_all(command: &Command) -> bool
    ensures { result ≡ (is_tick command.now || is_migrate command.now) }
{
    matches!(command, Command::Tick | Command::Migrate)
}

impl Known {
    /// Of the empty board.
    pub fn new(alloc: Global) -> Known
        ensures { Knows [] result }
    {
        Known {
            name: None,
            flights: Vec::new(alloc),
            words: IndexMap::new(alloc),
            day: Day::first(),
        }
    }

    /// The name of the journal, which is empty where it has no entry.
    pub(crate) fn name(&self) -> &str
        ensures { (J : History) → Knows J self.now → result.now ≡ journal_name J }
    {
        match &self.name {
            Some(name) => name.as_str(),
            None => "",
        }
    }

    /// The alert word of a flight.
    pub(crate) fn word(&self, flight: u64) -> Option<u64>
        ensures { result ≡ get nat_eq self.now.words flight }
    {
        self.words.get(&flight).copied()
    }

    /// The same, of a flight that most likely stands at this place.
    pub(crate) fn word_at(&self, place: usize, flight: u64) -> Option<u64>
        ensures { result ≡ get nat_eq self.now.words flight }
    {
        let Some((there, word)) = self.words.get_index(place) else {
            return self.word(flight);
        };
        if *there == flight {
            return Some(*word);
        }
        self.word(flight)
    }

    // Whether the alert word of a flight is that on a board.
    fn is_known(&self, board: &Core, place: usize, flight: u64) -> bool
        ensures { IsTrue result → (sigs : List (ℕ × Promise)) (K : History) → board.now ≡ replay sigs K
            → get nat_eq self.now.words flight ≡ word_of K flight }
    {
        let Some(now) = word_on(board, flight) else {
            return false;
        };
        let Some(before) = self.word_at(place, flight) else {
            return false;
        };
        before == now
    }

    // Whether the alert words of all flights are those on a board.
    fn is_up_to_date(&self, board: &Core) -> bool
        ensures { IsTrue result → (sigs : List (ℕ × Promise)) (K : History) → board.now ≡ replay sigs K
            → AreKnown self.now.flights.items K self.now }
    {
        let mut place = 0;
        let mut rest = self.flights.as_slice();
        while let Some((flight, more)) = rest.split_first() {
            if !self.is_known(board, place, *flight) {
                return false;
            }
            place = place.saturating_add(1);
            rest = more;
        }
        true
    }

    // Puts the alert word of a flight, which is the last where it was not there.
    fn put(&mut self, flight: u64, word: u64) -> Result<(), AllocError>
        ensures words { OnOk result ((f : ℕ) → get nat_eq self.new.words f
            ≡ (if flight == f then Some word else get nat_eq self.old.words f)) }
        ensures flights { OnOk result (self.new.flights.items
            ≡ (if is_some (get nat_eq self.old.words flight) then self.old.flights.items
            else self.old.flights.items ++ flight ∷ [])) }
        ensures name { self.new.name ≡ self.old.name }
    {
        let Ok(before) = self.words.insert(flight, word) else {
            return Err(AllocError);
        };
        if before.is_none() {
            self.flights.push(flight)?;
        }
        Ok(())
    }

    // Puts the alert word of a flight, where that is on the board.
    fn follow_flight(&mut self, board: &Core, flight: u64) -> Result<(), AllocError>
        ensures puts { OnOk result ((sigs : List (ℕ × Promise)) (K : History)
            → board.now ≡ replay sigs K → Puts (word_of K flight) flight self.old self.new) }
        ensures name { self.new.name ≡ self.old.name }
    {
        match word_on(board, flight) {
            Some(word) => {
                self.put(flight, word)?;
                Ok(())
            }
            None => Ok(()),
        }
    }

    // Reads all alert words from a board with the same flights, into the memory that they have, unless they are these.
    fn read_all(&mut self, board: &Core) -> Result<(), AllocError>
        ensures knows { OnOk result ((sigs : List (ℕ × Promise)) (J K : History)
            → board.now ≡ replay sigs K → KnowsFlights J self.old → flights J ≡ flights K
            → KnowsFlights K self.new) }
        ensures name { self.new.name ≡ self.old.name }
    {
        if self.is_up_to_date(board) {
            return Ok(());
        }
        let Known { flights, words, .. } = self;
        words.clear();
        put_words(words, flights.as_slice(), board)?;
        Ok(())
    }

    // Follows an entry by the flights, after which the board is this.
    fn follow_flights(&mut self, board: &Core, entry: &Entry) -> Result<(), AllocError>
        ensures knows { OnOk result ((sigs : List (ℕ × Promise)) (J : History)
            → board.now ≡ replay sigs (entry.now ∷ J) → KnowsFlights J self.old
            → KnowsFlights (entry.now ∷ J) self.new) }
        ensures name { self.new.name ≡ self.old.name }
    {
        if !entry.verdict.is_accepted() {
            return Ok(());
        }
        if touches_all(&entry.command) {
            self.read_all(board)?;
            return Ok(());
        }
        match flight_changed(&entry.command) {
            Some(flight) => {
                self.follow_flight(board, flight)?;
                Ok(())
            }
            None => Ok(()),
        }
    }

    // Names the journal by an entry, where that is its first one.
    fn follow_name(&mut self, entry: &Entry) -> Result<(), AllocError>
        ensures named { OnOk result ((J : History) → Knows J self.old → IsNamed (entry.now ∷ J) self.new) }
        ensures flights { self.new.flights ≡ self.old.flights }
        ensures words { self.new.words ≡ self.old.words }
    {
        if self.name.is_some() {
            return Ok(());
        }
        let alloc = *self.flights.allocator();
        let name = journal_name(alloc, entry)?;
        self.name = Some(name);
        Ok(())
    }

    // Keeps the day of an entry, by which the next one is told.
    fn follow_day(&mut self, entry: &Entry)
        ensures name { self.new.name ≡ self.old.name }
        ensures flights { self.new.flights ≡ self.old.flights }
        ensures words { self.new.words ≡ self.old.words }
    {
        self.day = self.day.followed(entry.moment / 1_440);
    }

    /// Follows an entry, after which the board is this.
    pub fn follow(&mut self, board: &Core, entry: &Entry) -> Result<(), AllocError>
        ensures { OnOk result ((sigs : List (ℕ × Promise)) (J : History)
            → board.now ≡ replay sigs (entry.now ∷ J) → Knows J self.old
            → Knows (entry.now ∷ J) self.new) }
    {
        self.follow_day(entry);
        self.follow_name(entry)?;
        self.follow_flights(board, entry)?;
        Ok(())
    }
}

// Puts the alert word of a flight.
fn put_word(words: &mut IndexMap<u64, u64>, flight: u64, word: u64) -> Result<(), AllocError>
    ensures { OnOk result ((f : ℕ) → get nat_eq words.new f
        ≡ (if flight == f then Some word else get nat_eq words.old f)) }
{
    match words.insert(flight, word) {
        Ok(_) => Ok(()),
        Err(_) => Err(AllocError),
    }
}

// Puts the alert words of these flights where there are none.
fn put_words(
    words: &mut IndexMap<u64, u64>,
    flights: &[u64],
    board: &Core,
) -> Result<(), AllocError>
    requires none { (f : ℕ) → get nat_eq words.old f ≡ None }
    ensures { OnOk result ((sigs : List (ℕ × Promise)) (K : History)
        → board.now ≡ replay sigs K → (f : ℕ) → get nat_eq words.new f
        ≡ (if list_any (λ g. g == f) flights.now then word_of K f else None)) }
{
    let mut rest = flights;
    while let Some((flight, more)) = rest.split_first() {
        if let Some(word) = word_on(board, *flight) {
            put_word(words, *flight, word)?;
        }
        rest = more;
    }
    Ok(())
}
