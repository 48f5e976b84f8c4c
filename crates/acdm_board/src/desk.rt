//! The desk: helpers, the core and the journal of what changed it.
ghost use Rattle.std.specs.Prelude.{◌≡◌, ◌≢◌, ◌<◌, ◌≤◌, ◌↔◌, [], ◌∷◌, true, false, length, reverse};
ghost use Rattle.std.specs.Prelude.{take};
ghost use Rattle.std.specs.Prelude.{slice_get, IfOk, IfErr, OnOk, OnErr, Some, None};
ghost use Rattle.std.specs.Option.{option_copied};
ghost use Rattle.acdm_step.specs.History.{IsChecked, IsLegal, replay};
ghost use Rattle.acdm_step.specs.Prepared.{Fits, after_change};
ghost use Rattle.std.specs.Arc.{arc_value};
ghost use Rattle.acdm_row.specs.Views.{IsSameCaller};
ghost use Rattle.acdm_board.specs.Desk.{CallsDesk, DeskView, Enters, Extends, is_foreign, row_of};
ghost use Rattle.acdm_board.specs.Desk.{replied, with_entry};

use crate::book::{Book, Places};
use crate::error::DeskError;
use crate::passes::Passes;
use acdm_milestones::Role;
use acdm_row::{Pass, Row};
use acdm_step::{Answers, Command, Core, Entry, Outcome, Plan};
use bpf_helpers::{Helpers, Live, Sigs};
use std::alloc::{AllocError, Global};
use std::marker::Model;
use std::sync::Arc;

/// What is replied: the number of the command's entry, and what came of the command.
#[derive(Drop)]
pub struct Reply {
    pub number: u64,
    pub outcome: Outcome,
}

/// Helpers, as those of a bank, and a core with its journal, whose replay it is.
pub struct Desk<H: Helpers + Drop> {
    helpers: H,
    book: Box<Book>,
    passes: Passes,
}

impl<H: Helpers + Drop> Drop for Desk<H> {
    fn drop(self) {
        let Desk {
            helpers: _,
            book: _,
            passes: _,
        } = self;
    }
}

impl<H: Helpers + Drop> Model for Desk<H> {
    ghost use Rattle.std.specs.Prelude.{◌≡◌};
    ghost use Rattle.acdm_board.specs.Desk.{DeskView, row_of};

    ghost Value = { DeskView };

    ghost view = { λ d. d.book.value };

    ghost invariant = { λ d. (d.book.value.sigs ≡ H.entries d.helpers)
        × (d.passes ≡ row_of d.book.value) };
}

impl<H: Helpers + Drop> Desk<H> {
    /// An empty desk for so many entries, with these helpers. `Err` only where memory was refused.
    pub fn new(alloc: Global, helpers: H, capacity: usize) -> Result<Desk<H>, AllocError>
        ensures empty { IfOk result (λ desk. desk.history ≡ []) }
        ensures capacity { IfOk result (λ desk. desk.capacity ≡ capacity) }
        ensures sigs { IfOk result (λ desk. desk.sigs ≡ H.entries helpers) }
    {
        let sigs = helpers.sigs()?;
        let book = Box::new(alloc, Book::new(alloc, sigs, capacity)?)?;
        let passes = Passes::new(alloc, Arc::try_clone(book.row())?);
        Ok(Desk {
            helpers,
            book,
            passes,
        })
    }

    /// The core, which is the replay of the journal. The journal is legal.
    pub fn core(&self) -> &Core
        ensures replays { result.now ≡ replay self.now.sigs self.now.history }
        ensures legal { IsLegal self.now.sigs self.now.history }
        ensures fits { length self.now.history ≤ self.now.capacity }
    {
        self.book.core()
    }

    /// The signatures of the helpers, against which programs are checked before they are loaded.
    pub fn sigs(&self) -> &Sigs
        ensures { result.now ≡ self.now.sigs }
    {
        self.book.sigs()
    }

    /// How many entries the journal has.
    pub fn len(&self) -> u64
        ensures { result ≡ length self.now.history }
    {
        self.book.len() as u64
    }

    /// How many entries the journal may have.
    pub fn capacity(&self) -> usize
        ensures value { result ≡ self.now.capacity }
        ensures fits { length self.now.history ≤ result }
    {
        // (its contract says that they are no more than there is room for: `fits`)
        let _count = self.book.len();
        self.book.capacity()
    }

    /// The row of cells in which the journal stands, for those that look at it without the desk.
    pub fn row(&self) -> &Arc<Row>
        ensures { arc_value result.now ≡ row_of self.now }
    {
        self.book.row()
    }

    /// The entry of this number, the first being 0, as it stands in the desk's row.
    pub fn entry<'a>(&mut self, row: &'a Row, number: u64) -> Option<&'a Entry>
        requires { row.now ≡ row_of self.old }
        ensures same { self.new ≡ self.old }
        ensures value { option_copied result ≡ slice_get (reverse self.old.history) number }
    {
        self.book.entry(row, number)
    }

    /// A pass of a session, from 1 to 64, that calls in a role, and has seen nothing yet. `Err` only
    /// where the row can't be shared once more.
    pub fn pass(&self, session: u8, role: Role) -> Result<Pass, AllocError>
        requires session_given { 1 ≤ session }
        requires few_sessions { session ≤ 64 }
        ensures row { IfOk result (λ p. p.row ≡ row_of self.now) }
        ensures caller { IfOk result (λ p. (p.session ≡ session) × (p.role ≡ role)) }
        ensures empty { IfOk result (λ p. (p.seen ≡ []) × (p.numbers ≡ []) × (p.own ≡ [])) }
    {
        self.book.row().pass(session, role)
    }

    /// Shows all of the journal to a pass. `Err` where memory was refused, and where the journal is
    /// shorter than what the pass has seen. Nothing has changed then.
    pub fn show(&mut self, pass: &mut Pass) -> Result<(), AllocError>
        requires { pass.old.row ≡ row_of self.old }
        ensures same { self.new ≡ self.old }
        ensures seen { OnOk result (pass.new.seen ≡ reverse self.old.history) }
        ensures own { (pass.new.numbers ≡ pass.old.numbers) × (pass.new.own ≡ pass.old.own) }
        ensures caller { IsSameCaller pass.old pass.new }
        ensures err { OnErr result (pass.new ≡ pass.old) }
    {
        self.book.show(pass)
    }

    /// Whether a pass has seen no more than the journal. What it has seen is then its beginning.
    pub fn holds(&mut self, pass: &mut Pass) -> bool
        requires { pass.old.row ≡ row_of self.old }
        ensures same { (self.new ≡ self.old) × (pass.new ≡ pass.old) }
        ensures begins { result ≡ true → pass.old.seen ≡ take (length pass.old.seen)
            (reverse self.old.history) }
        ensures longer { result ≡ false → length self.old.history < length pass.old.seen }
        ensures room { length pass.old.seen ≤ self.old.capacity }
        ensures cells { self.old.capacity ≡ length self.old.cells }
    {
        self.book.holds(pass)
    }

    // Why a command is refused before it is tried.
    fn refusal(&self, command: &Command) -> Option<DeskError>
        ensures full { (result ≡ Some DeskError.Full) ↔
            (length self.now.history ≡ self.now.capacity) }
        ensures other { (result ≡ Some DeskError.OtherSignatures) ↔
            ((length self.now.history ≢ self.now.capacity)
            × (is_foreign self.now.sigs command.now ≡ true)) }
        ensures memory { result ≢ Some DeskError.Memory }
        ensures place { result ≡ None → length self.now.history < self.now.capacity }
        ensures checked { result ≡ None → IsChecked self.now.sigs command.now }
    {
        if self.book.len() == self.book.capacity() {
            return Some(DeskError::Full);
        }
        if self.book.refuses(command) {
            return Some(DeskError::OtherSignatures);
        }
        None
    }

    // Makes the entry of a command that is not refused. `Memory` is then the only error. All memory
    // that is kept is taken first, so that no helper is asked where it is refused.
    fn enter(&mut self, pass: &mut Pass, moment: u32, command: Command) -> Result<Reply, DeskError>
        requires row { pass.old.row ≡ row_of self.old }
        requires moment_given { 1 ≤ moment }
        requires place { length self.old.history < self.old.capacity }
        requires checked { IsChecked self.old.sigs command }
        ensures entry { IfOk result (λ reply. Enters self.old pass.old.session pass.old.role moment
            command self.new reply.outcome) }
        ensures number { IfOk result (λ reply. reply.number ≡ length self.old.history) }
        ensures pass { OnOk result (Extends self.old self.new pass.old pass.new) }
        ensures caller { IsSameCaller pass.old pass.new }
        ensures memory { IfErr result (λ error. error ≡ DeskError.Memory) }
        ensures err { OnErr result ((self.new ≡ self.old) × (pass.new ≡ pass.old)) }
    {
        let number = self.book.len();
        let room = self.book.answers_room(&command);
        let alloc = self.book.alloc();
        let entry = self.book.place_for(pass)?;
        let answers = Answers::with_place(alloc, room)?;
        let places = Places { entry, answers };
        let live = Live::new(alloc, &self.helpers, room)?;
        let outcome = self.book.enter(live, places, pass, moment, command)?;
        Ok(Reply {
            number: number as u64,
            outcome,
        })
    }

    /// One event: a command of a pass at a moment (minutes since 1970-01-01T00:00Z, from 1) becomes
    /// the next entry, with the pass's session and role, what came of the command and the answers
    /// that its programs used. What the pass had seen was the beginning of the journal; it has seen
    /// all of it then, and the entry is the last of its own.
    ///
    /// `Full` where the journal is full, which is tested first; `OtherSignatures` where the program
    /// of a load was checked against other signatures than those of the desk; `Memory` where memory
    /// was refused, where the cell of the entry was set, or where the pass has seen more than the
    /// journal has. Nothing has changed then, nor has the pass. The pass is
    /// given back.
    pub fn call(
        &mut self,
        pass: Pass,
        moment: u32,
        command: Command,
    ) -> Result<(Reply, Pass), (DeskError, Pass)>
        requires row { pass.row ≡ row_of self.old }
        requires moment_given { 1 ≤ moment }
        ensures called { CallsDesk self.old pass.session pass.role moment command self.new
            (replied result) }
        ensures pass { IfOk result (λ r. Extends self.old self.new pass r.1) }
        ensures caller { IfOk result (λ r. IsSameCaller pass r.1) }
        ensures given { IfErr result (λ r. r.1 ≡ pass) }
    {
        let mut pass = pass;
        match self.call_lent(&mut pass, moment, command) {
            Ok(reply) => Ok((reply, pass)),
            Err(error) => Err((error, pass)),
        }
    }

    /// The same of a pass that is lent.
    pub fn call_lent(
        &mut self,
        pass: &mut Pass,
        moment: u32,
        command: Command,
    ) -> Result<Reply, DeskError>
        requires row { pass.old.row ≡ row_of self.old }
        requires moment_given { 1 ≤ moment }
        ensures called { CallsDesk self.old pass.old.session pass.old.role moment command self.new
            result }
        ensures pass { OnOk result (Extends self.old self.new pass.old pass.new) }
        ensures caller { IsSameCaller pass.old pass.new }
        ensures err { OnErr result (pass.new ≡ pass.old) }
    {
        if let Some(error) = self.refusal(&command) {
            return Err(error);
        }
        self.enter(pass, moment, command)
    }

    /// Takes the place of the passes of all sessions and roles, at most 384, for a run that keeps one for each pair that
    /// it meets. `Err` only where memory was refused; nothing has changed then.
    pub fn keep_passes(&mut self) -> Result<(), AllocError>
        ensures { self.new ≡ self.old }
    {
        self.passes.take_place()
    }

    /// The same for a session, from 1 to 64, in a role, by a pass that the desk keeps for the two.
    pub fn call_for(
        &mut self,
        session: u8,
        role: Role,
        moment: u32,
        command: Command,
    ) -> Result<Reply, DeskError>
        requires session_given { 1 ≤ session }
        requires few_sessions { session ≤ 64 }
        requires moment_given { 1 ≤ moment }
        ensures { CallsDesk self.old session role moment command self.new result }
    {
        if let Some(error) = self.refusal(&command) {
            return Err(error);
        }
        let mut pass = self.passes.take(session, role)?;
        let result = self.enter(&mut pass, moment, command);
        self.passes.put(pass);
        result
    }

    /// Puts an entry that is told of elsewhere, as in a saved journal, behind the others, and does to
    /// the core what was planned for it on that core. The journal has to stay legal with it, and to
    /// have room for it. `Err` where memory was refused, or where the cell of the entry was set;
    /// nothing has changed then.
    pub fn restore(&mut self, entry: Entry, plan: Plan) -> Result<(), AllocError>
        requires legal { IsLegal self.old.sigs (entry ∷ self.old.history) }
        requires fits { Fits (replay self.old.sigs self.old.history) plan.change }
        requires board { after_change (replay self.old.sigs self.old.history) plan.change
            ≡ replay self.old.sigs (entry ∷ self.old.history) }
        requires place { length self.old.history < self.old.capacity }
        ensures took { OnOk result (self.new ≡ with_entry self.old entry) }
        ensures err { OnErr result (self.new ≡ self.old) }
    {
        self.book.restore(entry, plan)
    }
}
