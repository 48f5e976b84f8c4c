//! The sixteen milestones.
ghost use Rattle.std.specs.Prelude.{◌≡◌, ◌≤◌};
ghost use Rattle.acdm_milestones.specs.Tables.{number, milestone_numbered};

/// A milestone of a turn-round, in the order of the A-CDM manual.
#[derive(Clone, Copy, Debug, PartialEq, Eq)]
pub enum Milestone {
    /// 1: air traffic control has activated the flight plan.
    FlightPlanActivated,
    /// 2: two hours before EOBT, where the network manager issues CTOT.
    TwoHoursBeforeEobt,
    /// 3: take-off from the outstation.
    TakeOffFromOutstation,
    /// 4: the local radar sees the flight.
    LocalRadarUpdate,
    /// 5: final approach.
    FinalApproach,
    /// 6: landed.
    Landed,
    /// 7: in-block.
    InBlock,
    /// 8: ground handling starts.
    GroundHandlingStarts,
    /// 9: TOBT is updated before TSAT is issued.
    TobtUpdate,
    /// 10: TSAT is issued.
    TsatIssue,
    /// 11: boarding starts.
    BoardingStarts,
    /// 12: the aircraft is ready.
    AircraftReady,
    /// 13: start-up is requested.
    StartUpRequest,
    /// 14: start-up is approved.
    StartUpApproved,
    /// 15: off-block.
    OffBlock,
    /// 16: take-off.
    TakeOff,
}

impl Milestone {
    /// The number of the milestone, from 1 to 16, which is also its bit in the reached word.
    pub fn number(self) -> u32
        ensures value { result ≡ number self }
        ensures some { 1 ≤ result }
        ensures most { result ≤ 16 }
    {
        match self {
            Milestone::FlightPlanActivated => 1,
            Milestone::TwoHoursBeforeEobt => 2,
            Milestone::TakeOffFromOutstation => 3,
            Milestone::LocalRadarUpdate => 4,
            Milestone::FinalApproach => 5,
            Milestone::Landed => 6,
            Milestone::InBlock => 7,
            Milestone::GroundHandlingStarts => 8,
            Milestone::TobtUpdate => 9,
            Milestone::TsatIssue => 10,
            Milestone::BoardingStarts => 11,
            Milestone::AircraftReady => 12,
            Milestone::StartUpRequest => 13,
            Milestone::StartUpApproved => 14,
            Milestone::OffBlock => 15,
            Milestone::TakeOff => 16,
        }
    }

    /// The milestone of a number, if it is from 1 to 16.
    pub fn from_number(number: u64) -> Option<Milestone>
        ensures { result ≡ milestone_numbered number }
    {
        match number {
            1 => Some(Milestone::FlightPlanActivated),
            2 => Some(Milestone::TwoHoursBeforeEobt),
            3 => Some(Milestone::TakeOffFromOutstation),
            4 => Some(Milestone::LocalRadarUpdate),
            5 => Some(Milestone::FinalApproach),
            6 => Some(Milestone::Landed),
            7 => Some(Milestone::InBlock),
            8 => Some(Milestone::GroundHandlingStarts),
            9 => Some(Milestone::TobtUpdate),
            10 => Some(Milestone::TsatIssue),
            11 => Some(Milestone::BoardingStarts),
            12 => Some(Milestone::AircraftReady),
            13 => Some(Milestone::StartUpRequest),
            14 => Some(Milestone::StartUpApproved),
            15 => Some(Milestone::OffBlock),
            16 => Some(Milestone::TakeOff),
            _ => None,
        }
    }
}
