//! The core, and the journal of what changed it.
ghost use Rattle.std.specs.Prelude.{◌≡◌, ◌<◌, ◌≤◌, [], ◌∷◌, true, false, length, reverse, slice_get};
ghost use Rattle.std.specs.Prelude.{take, IfOk, OnOk, OnErr};
ghost use Rattle.std.specs.Option.{option_copied};
ghost use Rattle.acdm_step.specs.Commands.{is_accepted};
ghost use Rattle.acdm_step.specs.InSlots.{answers_room};
ghost use Rattle.acdm_step.specs.Verdicts.{verdict_in};
ghost use Rattle.acdm_step.specs.History.{IsChecked, IsLegal, replay};
ghost use Rattle.acdm_step.specs.Prepared.{Fits, after_change};
ghost use Rattle.std.specs.Arc.{arc_value};
ghost use Rattle.acdm_row.specs.Views.{IsSameCaller};
ghost use Rattle.acdm_board.specs.Desk.{DeskView, Enters, Extends, row_of, with_entry};
ghost use Rattle.acdm_board.specs.Desk.{is_foreign};

use acdm_row::{EntryPlace, Pass, Publisher, Row};
use acdm_step::{Answers, Command, Core, Entry, Outcome, Plan};
use bpf_helpers::{Helpers, Live, Sigs};
use std::alloc::{AllocError, Global};
use std::marker::Model;
use std::sync::Arc;

/// A core and its journal, whose replay it is.
pub(crate) struct Book {
    core: Core,
    journal: Publisher,
}

impl Drop for Book {
    fn drop(self) {
        let Book {
            core: _,
            journal: _,
        } = self;
    }
}

impl Model for Book {
    ghost use Rattle.std.specs.Prelude.{reverse, length};
    ghost use Rattle.acdm_board.specs.Desk.{DeskView, IsBook};

    ghost Value = { DeskView };

    ghost view = { λ b. record {
      history = reverse b.journal.entries;
      capacity = length b.journal.row.cells;
      sigs = b.core.slots.sigs;
      cells = b.journal.row.cells;
    } };

    ghost invariant = { λ b. IsBook b.core b.journal };
}

/// Memory for the next entry, and for a list of answers where some may come.
#[derive(Drop)]
pub(crate) struct Places {
    pub(crate) entry: EntryPlace,
    pub(crate) answers: Answers,
}

/// Whether a command loads a program that was checked against other signatures.
fn is_foreign(command: &Command, sigs: &Sigs) -> bool
    ensures value { result ≡ is_foreign sigs.now command.now }
    ensures checked { result ≡ false → IsChecked sigs.now command.now }
{
    match command {
        Command::Load(load) => !load.was_checked(sigs),
        _ => false,
    }
}

/// The answers that the programs of an accepted command used, in no more room than they need; a
/// refused one used none. `Err` only where there are some, and no place was taken for them.
fn answers_of<H: Helpers>(
    place: Answers,
    live: Live<'_, H>,
    outcome: &Outcome,
) -> Result<Answers, AllocError>
    ensures accepted { IfOk result (λ answers. is_accepted (verdict_in outcome.now) ≡ true
        → answers ≡ live.entry.log) }
    ensures refused { IfOk result (λ answers. is_accepted (verdict_in outcome.now) ≡ false
        → answers ≡ []) }
{
    if !outcome.verdict().is_accepted() {
        return Ok(Answers::none());
    }
    let mut answers = live.into_answers();
    answers.shrink_to_fit();
    place.placed(answers)
}

impl Book {
    /// An empty journal for so many entries, and its core. `Err` only where memory was refused.
    pub(crate) fn new(alloc: Global, sigs: Sigs, capacity: usize) -> Result<Book, AllocError>
        ensures empty { IfOk result (λ book. book.history ≡ []) }
        ensures capacity { IfOk result (λ book. book.capacity ≡ capacity) }
        ensures sigs { IfOk result (λ book. book.sigs ≡ sigs) }
    {
        let journal = Publisher::new(alloc, sigs.copy()?, capacity)?;
        let core = Core::new(alloc, sigs)?;
        Ok(Book { core, journal })
    }

    /// The core, which is the replay of the journal. The journal is legal.
    pub(crate) fn core(&self) -> &Core
        ensures replays { result.now ≡ replay self.now.sigs self.now.history }
        ensures legal { IsLegal self.now.sigs self.now.history }
        ensures fits { length self.now.history ≤ self.now.capacity }
    {
        &self.core
    }

    /// Where its memory comes from.
    pub(crate) fn alloc(&self) -> Global {
        self.journal.alloc()
    }

    /// The row of cells in which the journal stands.
    pub(crate) fn row(&self) -> &Arc<Row>
        ensures { arc_value result.now ≡ row_of self.now }
    {
        self.journal.row()
    }

    /// The signatures against which programs must have been checked.
    pub(crate) fn sigs(&self) -> &Sigs
        ensures { result.now ≡ self.now.sigs }
    {
        self.core.sigs()
    }

    /// How many entries there are.
    pub(crate) fn len(&self) -> usize
        ensures value { result ≡ length self.now.history }
        ensures fits { result ≤ self.now.capacity }
    {
        self.journal.len()
    }

    /// How many there may be.
    pub(crate) fn capacity(&self) -> usize
        ensures { result ≡ self.now.capacity }
    {
        self.journal.row().len()
    }

    /// The entry of this number, as it stands in the row.
    pub(crate) fn entry<'a>(&mut self, row: &'a Row, number: u64) -> Option<&'a Entry>
        requires { row.now ≡ row_of self.old }
        ensures same { self.new ≡ self.old }
        ensures value { option_copied result ≡ slice_get (reverse self.old.history) number }
    {
        self.journal.entry(row, number)
    }

    /// Shows all of the journal to a pass. `Err` where memory was refused, and where the journal is
    /// shorter than what the pass has seen. Nothing has changed then.
    pub(crate) fn show(&mut self, pass: &mut Pass) -> Result<(), AllocError>
        requires { pass.old.row ≡ row_of self.old }
        ensures same { self.new ≡ self.old }
        ensures seen { OnOk result (pass.new.seen ≡ reverse self.old.history) }
        ensures own { (pass.new.numbers ≡ pass.old.numbers) × (pass.new.own ≡ pass.old.own) }
        ensures caller { IsSameCaller pass.old pass.new }
        ensures err { OnErr result (pass.new ≡ pass.old) }
    {
        self.journal.show(pass)
    }

    /// Whether a pass has seen no more than the journal. What it has seen is then its beginning.
    pub(crate) fn holds(&mut self, pass: &mut Pass) -> bool
        requires { pass.old.row ≡ row_of self.old }
        ensures same { (self.new ≡ self.old) × (pass.new ≡ pass.old) }
        ensures begins { result ≡ true → pass.old.seen ≡ take (length pass.old.seen)
            (reverse self.old.history) }
        ensures longer { result ≡ false → length self.old.history < length pass.old.seen }
        ensures room { length pass.old.seen ≤ self.old.capacity }
        ensures cells { self.old.capacity ≡ length self.old.cells }
    {
        self.journal.holds(pass)
    }

    /// Whether a command loads a program that was checked against other signatures than those of
    /// the core.
    pub(crate) fn refuses(&self, command: &Command) -> bool
        ensures value { result ≡ is_foreign self.now.sigs command.now }
        ensures checked { result ≡ false → IsChecked self.now.sigs command.now }
    {
        is_foreign(command, self.sigs())
    }

    /// How many answers the programs of a command may ask helpers for.
    pub(crate) fn answers_room(&self, command: &Command) -> u64
        ensures { result ≡ answers_room self.now.history command.now }
    {
        self.core.answers_room(command)
    }

    /// Takes all memory that the next entry of a pass needs but for its answers. `Err` where memory was
    /// refused, or where the pass has seen more than the journal has.
    pub(crate) fn place_for(&mut self, pass: &mut Pass) -> Result<EntryPlace, AllocError>
        requires { pass.old.row ≡ row_of self.old }
        ensures { (self.new ≡ self.old) × (pass.new ≡ pass.old) }
    {
        self.journal.place_for(pass)
    }

    /// Makes the next entry of a command, whose programs ask this oracle, which has room for all of
    /// their answers, and tells what came of it. The command is planned, its entry published in
    /// the memory that was taken for it and its answers, and the plan committed. The pass has then
    /// seen all of the journal. `Err` where memory was refused that the plan itself asks for, where
    /// the cell of the entry was set, or where the pass has seen more than the journal has; nothing
    /// has changed then.
    pub(crate) fn enter<H: Helpers>(
        &mut self,
        live: Live<'_, H>,
        places: Places,
        pass: &mut Pass,
        moment: u32,
        command: Command,
    ) -> Result<Outcome, AllocError>
        requires row { pass.old.row ≡ row_of self.old }
        requires place { length self.old.history < self.old.capacity }
        requires moment_given { 1 ≤ moment }
        requires room { live.room ≡ answers_room self.old.history command }
        requires checked { IsChecked self.old.sigs command }
        requires sigs { live.sigs ≡ self.old.sigs }
        requires log { live.log ≡ [] }
        requires refusals { live.refusals ≡ 0 }
        ensures enters { IfOk result (λ outcome. Enters self.old pass.old.session pass.old.role
            moment command self.new outcome) }
        ensures pass { OnOk result (Extends self.old self.new pass.old pass.new) }
        ensures caller { IsSameCaller pass.old pass.new }
        ensures err { OnErr result ((self.new ≡ self.old) × (pass.new ≡ pass.old)) }
    {
        let mut live = live;
        let session = pass.session();
        let role = pass.role();
        let plan = self.core.plan(&mut live, role, moment, &command)?;
        let answers = answers_of(places.answers, live, &plan.outcome)?;
        let entry = Entry {
            number: self.journal.len() as u64,
            session,
            role,
            verdict: plan.outcome.verdict(),
            moment,
            command,
            answers,
        };
        self.journal.enter(pass, entry, places.entry)?;
        Ok(self.core.commit(plan))
    }

    /// Puts an entry that is told of elsewhere behind the others, with which the journal stays legal,
    /// and does to the core what was planned for it. `Err` where memory was refused, or where the
    /// cell of the entry was set; nothing has changed then.
    pub(crate) fn restore(&mut self, entry: Entry, plan: Plan) -> Result<(), AllocError>
        requires legal { IsLegal self.old.sigs (entry ∷ self.old.history) }
        requires fits { Fits (replay self.old.sigs self.old.history) plan.change }
        requires board { after_change (replay self.old.sigs self.old.history) plan.change
            ≡ replay self.old.sigs (entry ∷ self.old.history) }
        requires place { length self.old.history < self.old.capacity }
        ensures took { OnOk result (self.new ≡ with_entry self.old entry) }
        ensures err { OnErr result (self.new ≡ self.old) }
    {
        let place = self.journal.place()?;
        self.journal.publish(entry, place)?;
        self.core.commit(plan);
        Ok(())
    }
}
