//! The records of the flights, found by flight.
ghost use Rattle.std.specs.Prelude.{◌≡◌, ◌<◌, ◌++◌, [], ◌∷◌, map, length, slice_get, slice_set};
ghost use Rattle.std.specs.Prelude.{Some, IfOk, IsTrue};
ghost use Rattle.std.specs.List.{list_all};
ghost use Rattle.bpf_regstate.specs.declared.length.Length.TheVariants.{L128};
ghost use Rattle.acdm_record.specs.declared.field.Field.TheVariants.{Flight};
ghost use Rattle.acdm_record.specs.Fields.{Fields, length_of, migrated, number_of};
ghost use Rattle.acdm_step.specs.Board.{is_long, place_of, touched};
ghost use Rattle.acdm_step.specs.Verdicts.{alert_list};
ghost use Rattle.acdm_step.specs.Marked.{Keeps};

use crate::change::touch;
use crate::marks::Marks;
use crate::outcome::{AlertList, Alerted};
use crate::verdicts::MOST_FLIGHTS;
use acdm_alerts::AlertSet;
use acdm_record::{Field, Record};
use indexmap::IndexMap;
use std::alloc::{AllocError, Global};
use std::marker::Model;

/// The records in order of creation, with room for all that a board may have.
pub(crate) struct Flights {
    records: IndexMap<u64, Record>,
    marks: Marks,
}

impl Drop for Flights {
    fn drop(self) {
        let Flights {
            records: _,
            marks: _,
        } = self;
    }
}

impl Model for Flights {
    ghost use Rattle.std.specs.Prelude.{List};
    ghost use Rattle.acdm_record.specs.Fields.{Fields};
    ghost use Rattle.indexmap.specs.IndexMap.{values, spare};
    ghost use Rattle.acdm_step.specs.Marked.{AreFlights};

    ghost Value = { List Fields };

    ghost view = { λ f. values f.records };

    ghost invariant = { λ f. AreFlights f.records.entries (spare f.records) f.marks.words };
}

impl Flights {
    /// No flight. `Err` only where memory was refused.
    pub(crate) fn new(alloc: Global) -> Result<Flights, AllocError>
        ensures { IfOk result (λ flights. flights ≡ []) }
    {
        let records = IndexMap::with_capacity(alloc, MOST_FLIGHTS)?;
        Ok(Flights {
            records,
            marks: Marks::new(),
        })
    }

    /// How many flights there are.
    pub(crate) fn len(&self) -> usize
        ensures { result ≡ length self.now }
    {
        self.records.len()
    }

    /// The place of a flight's record, or how many there are.
    pub(crate) fn place(&self, flight: u64) -> usize
        ensures { result ≡ place_of self.now flight }
    {
        match self.records.get_index_of(&flight) {
            Some(place) => place,
            None => self.records.len(),
        }
    }

    /// The record at a place.
    pub(crate) fn at(&self, place: usize) -> &Record
        requires { place < length self.now }
        ensures { slice_get self.now place ≡ Some result.now }
    {
        &self.records[place]
    }

    /// Puts another record of the same flight into a place.
    pub(crate) fn put(&mut self, place: usize, record: Record)
        requires inside { place < length self.old }
        requires same { Keeps self.old place «record» }
        ensures { self.new ≡ slice_set self.old place «record» }
    {
        self.marks.put(place, !AlertSet::of(&record).is_empty());
        self.records[place] = record;
    }

    /// Puts the record of a new flight last, which takes no memory.
    pub(crate) fn add(&mut self, record: Record)
        requires room { length self.old < MOST_FLIGHTS }
        requires absent { place_of self.old (number_of «record» Flight) ≡ length self.old }
        ensures { self.new ≡ self.old ++ «record» ∷ [] }
    {
        let place = self.records.len();
        self.marks.put(place, !AlertSet::of(&record).is_empty());
        if self
            .records
            .insert(record.get(Field::Flight), record)
            .is_err()
        {
            unreachable!();
        }
    }

    // Touches the record at a place, where it stands.
    fn touch_at(&mut self, place: usize, moment: u32)
        requires { place < length self.old }
        ensures { (r : Fields) → slice_get self.old place ≡ Some r →
            self.new ≡ slice_set self.old place (touched moment r) }
    {
        let record = &mut self.records[place];
        touch(record, moment);
        let alerted = !AlertSet::of(record).is_empty();
        self.marks.put(place, alerted);
    }

    /// Touches each record.
    pub(crate) fn touch_all(&mut self, moment: u32)
        ensures { self.new ≡ map (touched moment) self.old }
    {
        for place in 0..self.len() {
            self.touch_at(place, moment);
        }
    }

    // Brings the record at a place to layout 2, where it stands.
    fn migrate_at(&mut self, place: usize)
        requires inside { place < length self.old }
        requires first { (r : Fields) → slice_get self.old place ≡ Some r → length_of r ≡ 128 }
        ensures { (r : Fields) → slice_get self.old place ≡ Some r →
            self.new ≡ slice_set self.old place (migrated r) }
    {
        let record = &mut self.records[place];
        record.migrate();
        let alerted = !AlertSet::of(record).is_empty();
        self.marks.put(place, alerted);
    }

    /// Brings each record to layout 2.
    pub(crate) fn migrate_all(&mut self)
        requires { IsTrue (list_all (is_long L128) self.old) }
        ensures { self.new ≡ map migrated self.old }
    {
        for place in 0..self.len() {
            self.migrate_at(place);
        }
    }

    /// The flights with an alert, and with all of its alerts each. `Err` only where memory was
    /// refused.
    pub(crate) fn alerted(&self) -> Result<AlertList, AllocError>
        ensures { IfOk result (λ list. list ≡ alert_list self.now) }
    {
        let mut items = Vec::new(*self.records.allocator());
        let mut from = 0;
        while let Some(place) = self.marks.next(from) {
            let record = &self.records[place];
            items.push(Alerted {
                flight: record.get(Field::Flight),
                alerts: AlertSet::of(record),
            })?;
            from = place + 1;
        }
        Ok(AlertList::of(items))
    }
}
