//! What partners ask for.
ghost use Rattle.std.specs.Prelude.{◌≡◌, ◌≤◌, IsTrue};
ghost use Rattle.std.specs.Option.{option_copied};
ghost use Rattle.acdm_step.specs.Facts.{has_its_plan, has_its_time};

use acdm_milestones::{DeicingTime, Milestone};
use acdm_record::Text;
use acdm_slots::Kind;
use bpf_helpers::Sigs;
use bpf_verifier::Checked;
use std::marker::Model;

/// The minutes of a day: the most that MTTT and EXOT may be, and how far ahead of the moment a
/// program may set TOBT (this project's profile).
pub const MINUTES_OF_DAY: u64 = 1_440;

/// What is planned for a flight.
pub struct FlightPlan {
    pub callsign: Text<8>,
    pub aircraft: Text<4>,
    pub registration: Text<8>,
    pub destination: Text<4>,
}

impl Drop for FlightPlan {
    fn drop(self) {
        let FlightPlan {
            callsign: _,
            aircraft: _,
            registration: _,
            destination: _,
        } = self;
    }
}

/// How long the stages of a turn-round take, in minutes.
#[derive(Clone, Copy, Debug, PartialEq, Eq)]
pub struct Durations {
    /// MTTT, at most `MINUTES_OF_DAY`.
    pub mttt: u16,
    /// EXIT.
    pub exit: u8,
    /// EXOT, at most `MINUTES_OF_DAY`.
    pub exot: u16,
}

/// Creates a flight, or sets what is scheduled of one.
///
/// The flight is at least 1, SOBT is a minute since 1970-01-01T00:00Z and at least 1, MTTT and EXOT
/// are at most `MINUTES_OF_DAY`, EXIT is in minutes.
pub struct Schedule {
    pub(crate) flight: FlightNumber,
    pub(crate) plan: FlightPlan,
    pub(crate) sobt: u32,
    pub(crate) mttt: u16,
    pub(crate) exit: u8,
    pub(crate) exot: u16,
    pub(crate) stand: u16,
}

impl Drop for Schedule {
    fn drop(self) {
        let Schedule {
            flight: _,
            plan: _,
            sobt: _,
            mttt: _,
            exit: _,
            exot: _,
            stand: _,
        } = self;
    }
}

impl Model for Schedule {
    ghost use Rattle.acdm_step.specs.Facts.{ScheduleFacts, IsSchedule};

    ghost Value = { ScheduleFacts };

    ghost view = { λ s. record {
      flight = s.flight;
      plan = s.plan;
      sobt = s.sobt;
      mttt = s.mttt;
      exit = s.exit;
      exot = s.exot;
      stand = s.stand;
    } };

    ghost invariant = { λ s. IsSchedule s.flight s.sobt s.mttt s.exot };
}

impl Schedule {
    /// A schedule of these values, which are in their ranges.
    pub fn new(
        flight: u64,
        plan: FlightPlan,
        sobt: u32,
        durations: Durations,
        stand: u16,
    ) -> Schedule
        requires flight_given { 1 ≤ flight }
        requires sobt_given { 1 ≤ sobt }
        requires mttt_in_range { durations.mttt ≤ MINUTES_OF_DAY }
        requires exot_in_range { durations.exot ≤ MINUTES_OF_DAY }
        ensures { result ≡ record {
          flight = flight;
          plan = plan;
          sobt = sobt;
          mttt = durations.mttt;
          exit = durations.exit;
          exot = durations.exot;
          stand = stand;
        } }
    {
        let Durations { mttt, exit, exot } = durations;
        Schedule {
            flight: FlightNumber::new(flight),
            plan,
            sobt,
            mttt,
            exit,
            exot,
            stand,
        }
    }

    /// The flight, which is at least 1.
    pub fn flight(&self) -> u64
        ensures value { result ≡ self.now.flight }
        ensures given { 1 ≤ result }
    {
        let Schedule { flight, .. } = self;
        flight.get()
    }

    /// What is planned for it.
    pub fn plan(&self) -> &FlightPlan
        ensures { result.now ≡ self.now.plan }
    {
        &self.plan
    }

    /// SOBT, in minutes since 1970-01-01T00:00Z, at least 1.
    pub fn sobt(&self) -> u32
        ensures value { result ≡ self.now.sobt }
        ensures given { 1 ≤ result }
    {
        self.sobt
    }

    /// MTTT in minutes, at most `MINUTES_OF_DAY`.
    pub fn mttt(&self) -> u16
        ensures value { result ≡ self.now.mttt }
        ensures in_range { result ≤ MINUTES_OF_DAY }
    {
        self.mttt
    }

    /// EXIT in minutes.
    pub fn exit(&self) -> u8
        ensures { result ≡ self.now.exit }
    {
        self.exit
    }

    /// EXOT in minutes, at most `MINUTES_OF_DAY`.
    pub fn exot(&self) -> u16
        ensures value { result ≡ self.now.exot }
        ensures in_range { result ≤ MINUTES_OF_DAY }
    {
        self.exot
    }

    /// The stand.
    pub fn stand(&self) -> u16
        ensures { result ≡ self.now.stand }
    {
        self.stand
    }
}

/// Reports a milestone of a flight.
///
/// The flight is at least 1. The time is in minutes since 1970-01-01T00:00Z, and 0 (no time) with
/// milestones 2 and 9 alone. A plan comes with milestone 1, and with it alone.
pub struct Report {
    pub(crate) flight: FlightNumber,
    pub(crate) milestone: Milestone,
    pub(crate) time: u32,
    pub(crate) plan: Option<FlightPlan>,
}

impl Drop for Report {
    fn drop(self) {
        let Report {
            flight: _,
            milestone: _,
            time: _,
            plan: _,
        } = self;
    }
}

impl Model for Report {
    ghost use Rattle.acdm_step.specs.Facts.{ReportFacts, IsReport};

    ghost Value = { ReportFacts };

    ghost view = { λ r. record {
      flight = r.flight;
      milestone = r.milestone;
      time = r.time;
      plan = r.plan;
    } };

    ghost invariant = { λ r. IsReport r.flight r.milestone r.time r.plan };
}

impl Report {
    /// A report of these values, which are in their ranges.
    pub fn new(flight: u64, milestone: Milestone, time: u32, plan: Option<FlightPlan>) -> Report
        requires flight_given { 1 ≤ flight }
        requires plan_with_first { IsTrue (has_its_plan milestone plan) }
        requires timed { IsTrue (has_its_time milestone time) }
        ensures { result ≡ record {
          flight = flight;
          milestone = milestone;
          time = time;
          plan = plan;
        } }
    {
        Report {
            flight: FlightNumber::new(flight),
            milestone,
            time,
            plan,
        }
    }

    /// The flight, which is at least 1.
    pub fn flight(&self) -> u64
        ensures value { result ≡ self.now.flight }
        ensures given { 1 ≤ result }
    {
        self.flight.get()
    }

    /// The milestone.
    pub fn milestone(&self) -> Milestone
        ensures { result ≡ self.now.milestone }
    {
        self.milestone
    }

    /// The time in minutes since 1970-01-01T00:00Z, 0 for no time, with milestones 2 and 9 alone.
    pub fn time(&self) -> u32
        ensures value { result ≡ self.now.time }
        ensures timed { IsTrue (has_its_time self.now.milestone result) }
    {
        self.time
    }

    /// What is planned, with milestone 1 and with it alone.
    pub fn plan(&self) -> Option<&FlightPlan>
        ensures value { option_copied result ≡ self.now.plan }
        ensures with_first { IsTrue (has_its_plan self.now.milestone self.now.plan) }
    {
        self.plan.as_ref()
    }
}

/// The number of a flight, which is at least 1. It is kept as bytes, so that a command which has one
/// is not filled up to a multiple of eight.
#[derive(Drop)]
pub struct FlightNumber {
    bytes: [u8; 8],
}

impl Model for FlightNumber {
    ghost use Rattle.std.specs.Prelude.{ℕ, ◌≤◌};
    ghost use Rattle.std.specs.Int.{from_le_bytes, w64};

    ghost Value = { ℕ };

    ghost view = { λ f. from_le_bytes w64 f.bytes };

    ghost invariant = { λ f. 1 ≤ from_le_bytes w64 f.bytes };
}

impl FlightNumber {
    /// The flight of this number.
    pub fn new(number: u64) -> FlightNumber
        requires { 1 ≤ number }
        ensures { result ≡ number }
    {
        FlightNumber {
            bytes: number.to_le_bytes(),
        }
    }

    /// The number.
    pub fn get(&self) -> u64
        ensures value { result ≡ self.now }
        ensures given { 1 ≤ result }
    {
        u64::from_le_bytes(self.bytes)
    }
}

/// Puts a checked program into a slot, in place of what stands there.
pub struct Load {
    pub milestone: Milestone,
    pub kind: Kind,
    pub program: Checked,
}

impl Drop for Load {
    fn drop(self) {
        let Load {
            milestone: _,
            kind: _,
            program: _,
        } = self;
    }
}

impl Load {
    ghost use Rattle.std.specs.Prelude.{◌↔◌};
    ghost use Rattle.bpf_regstate.specs.Lengths.{bytes_in};
    ghost use Rattle.acdm_step.specs.History.{is_checked};
    ghost use Rattle.bpf_regstate.specs.States.{Accepts};

    /// Whether its program was checked against these signatures, with which it is then accepted
    /// beside records of the length that it was checked for.
    pub fn was_checked(&self, sigs: &Sigs) -> bool
        ensures value { result ≡ is_checked sigs.now self.now.program }
        ensures same { IsTrue result ↔ (self.now.program.sigs ≡ sigs.now) }
        ensures accepts { IsTrue result → Accepts (bytes_in self.now.program.record_length)
            self.now.program.ops sigs.now }
    {
        self.program.sigs().is_same(sigs)
    }
}

/// Takes the program out of a slot.
#[derive(Clone, Copy)]
pub struct Unload {
    pub milestone: Milestone,
    pub kind: Kind,
}

/// Reports a time of de-icing of a flight.
///
/// The time is in minutes since 1970-01-01T00:00Z; 0 clears it.
#[derive(Drop)]
pub struct Deice {
    pub flight: FlightNumber,
    pub which: DeicingTime,
    pub time: u32,
}

/// What a partner asks for.
#[derive(Drop)]
pub enum Command {
    /// To create a flight, or to set what is scheduled of it.
    Schedule(Schedule),
    /// To report a milestone of a flight.
    Report(Report),
    /// To report a time of de-icing of a flight.
    Deice(Deice),
    /// To load a local program.
    Load(Load),
    /// To take one away.
    Unload(Unload),
    /// To compute the alerts of all flights anew.
    Tick,
    /// To bring all records to layout 2, and to judge all programs again beside them.
    Migrate,
    /// To see the record of a flight.
    Show(FlightNumber),
    /// To see the alerts of all flights that have any.
    Alerts,
}

impl Command {
    ghost use Rattle.std.specs.Prelude.{◌↔◌};
    ghost use Rattle.acdm_step.specs.History.{IsChecked};

    /// Whether it loads no program that was checked against other signatures than these.
    pub fn was_checked(&self, sigs: &Sigs) -> bool
        ensures { IsTrue result ↔ IsChecked sigs.now self.now }
    {
        match self {
            Command::Load(load) => load.was_checked(sigs),
            _ => true,
        }
    }
}
