//! The partners, and what each may do.
ghost use Rattle.std.specs.Prelude.{◌≡◌};
ghost use Rattle.acdm_milestones.specs.Tables.{owns, reports};
ghost use Rattle.acdm_milestones.specs.Names.{role_name, role_named};

use crate::milestone::Milestone;

/// A partner's role.
#[derive(Clone, Copy, Debug, PartialEq, Eq)]
pub enum Role {
    /// The network manager, `NM`.
    NetworkManager,
    /// Air traffic control, `ATC`.
    AirTrafficControl,
    /// The airport operator, `APT`.
    AirportOperator,
    /// An aircraft operator, `AO`.
    AircraftOperator,
    /// A ground handler, `GH`.
    GroundHandler,
    /// A de-icing company, `DIC`.
    DeicingCompany,
}

impl Role {
    /// Its name: `NM`, `ATC`, `APT`, `AO`, `GH` or `DIC` (this project's profile).
    pub fn name(self) -> &'static str
        ensures { result.now ≡ role_name self }
    {
        match self {
            Role::NetworkManager => "NM",
            Role::AirTrafficControl => "ATC",
            Role::AirportOperator => "APT",
            Role::AircraftOperator => "AO",
            Role::GroundHandler => "GH",
            Role::DeicingCompany => "DIC",
        }
    }

    /// The role of a name, if there is one.
    pub fn from_name(name: &[u8]) -> Option<Role>
        ensures { result ≡ role_named name.now }
    {
        if name == b"NM".as_slice() {
            Some(Role::NetworkManager)
        } else if name == b"ATC".as_slice() {
            Some(Role::AirTrafficControl)
        } else if name == b"APT".as_slice() {
            Some(Role::AirportOperator)
        } else if name == b"AO".as_slice() {
            Some(Role::AircraftOperator)
        } else if name == b"GH".as_slice() {
            Some(Role::GroundHandler)
        } else if name == b"DIC".as_slice() {
            Some(Role::DeicingCompany)
        } else {
            None
        }
    }
}

/// What a partner asks for, without its details.
#[derive(Clone, Copy, Debug, PartialEq, Eq)]
pub enum Action {
    /// A report of a milestone.
    Report(Milestone),
    /// A schedule.
    Schedule,
    /// A load of a local program.
    Load,
    /// The removal of a local program.
    Unload,
    /// A tick of the clock for all flights.
    Tick,
    /// A migration of all records to layout 2.
    Migrate,
    /// A time of de-icing of a flight.
    Deice,
    /// A question for a flight's record.
    Show,
    /// A question for all alerts.
    Alerts,
}

fn is_operator_or_handler(role: Role) -> bool
    ensures { result ≡ reports role Milestone.TobtUpdate }
{
    matches!(role, Role::AircraftOperator | Role::GroundHandler)
}

fn reports_milestone(role: Role, milestone: Milestone) -> bool
    ensures { result ≡ reports role milestone }
{
    match milestone {
        Milestone::FlightPlanActivated => matches!(role, Role::NetworkManager),
        Milestone::TwoHoursBeforeEobt => matches!(role, Role::NetworkManager),
        Milestone::TakeOffFromOutstation => matches!(role, Role::NetworkManager),
        Milestone::LocalRadarUpdate => matches!(role, Role::AirTrafficControl),
        Milestone::FinalApproach => matches!(role, Role::AirTrafficControl),
        Milestone::Landed => matches!(role, Role::AirTrafficControl),
        Milestone::InBlock => matches!(role, Role::AirportOperator),
        Milestone::GroundHandlingStarts => matches!(role, Role::GroundHandler),
        Milestone::TobtUpdate => is_operator_or_handler(role),
        Milestone::TsatIssue => matches!(role, Role::AirTrafficControl),
        Milestone::BoardingStarts => is_operator_or_handler(role),
        Milestone::AircraftReady => is_operator_or_handler(role),
        Milestone::StartUpRequest => matches!(role, Role::AirTrafficControl),
        Milestone::StartUpApproved => matches!(role, Role::AirTrafficControl),
        Milestone::OffBlock => matches!(role, Role::AirportOperator | Role::AirTrafficControl),
        Milestone::TakeOff => matches!(role, Role::AirTrafficControl),
    }
}

/// Whether a role may do this (this project's profile): a milestone belongs to its reporters,
/// schedule, load, unload, tick and migrate to the airport operator, times of de-icing to the
/// de-icing company, and questions to everyone.
pub fn owns(role: Role, action: Action) -> bool
    ensures { result ≡ owns role action }
{
    match action {
        Action::Report(milestone) => reports_milestone(role, milestone),
        Action::Schedule | Action::Load | Action::Unload | Action::Tick | Action::Migrate =>
            matches!(role, Role::AirportOperator),
        Action::Deice => matches!(role, Role::DeicingCompany),
        Action::Show | Action::Alerts => true,
    }
}
