//! The numbers in replies, as the profile's list of codes has them.
use acdm_board::DeskError;
use acdm_sessions::{Bad, RequestFault};
use std::process::Abort;

fn same_code(rt: &impl Abort, found: u16, code: u16) {
    assert!(rt; found == code, "{found} stands for {code}");
}

static FAULTS: [(RequestFault, u16); 6] = [
    (RequestFault::Prefix, 100),
    (RequestFault::NoJson, 101),
    (RequestFault::UnknownCommand, 102),
    (RequestFault::Kind, 103),
    (RequestFault::Range, 104),
    (RequestFault::TooLong, 105),
];

#[test]
fn faults_have_their_codes(rt: HostRuntime) {
    for (fault, code) in &FAULTS {
        same_code(&rt, fault.code(), *code);
        same_code(&rt, Bad::Faulty(*fault).code(), *code);
    }
}

static BAD_LINES: [(Bad, u16); 5] = [
    (Bad::NoMinute, 106),
    (Bad::Program { code: 303, slot: 2 }, 303),
    (Bad::Program { code: 315, slot: 0 }, 315),
    (Bad::NoMemory, 501),
    (Bad::FullJournal, 502),
];

#[test]
fn bad_lines_have_their_codes(rt: HostRuntime) {
    for (bad, code) in &BAD_LINES {
        same_code(&rt, bad.code(), *code);
    }
}

static DESK_ERRORS: [(DeskError, u16); 3] = [
    (DeskError::OtherSignatures, 322),
    (DeskError::Memory, 501),
    (DeskError::Full, 502),
];

#[test]
fn errors_of_a_desk_have_their_codes(rt: HostRuntime) {
    for (error, code) in &DESK_ERRORS {
        same_code(&rt, error.code(), *code);
    }
}
