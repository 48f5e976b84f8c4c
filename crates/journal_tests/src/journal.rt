//! Entries written, and lines read.
use crate::fixture::{SEVEN, TEN, deiced, planned, reported, same_number, scheduled};
use acdm_journal::{
    ReadError, Stated, StatedCommand, push_entry, read_line, write_entry, write_entry_by,
};
use acdm_lines::{Sink, WriteError};
use acdm_milestones::{DeicingTime, Milestone, Refusal, Role};
use acdm_slots::Kind;
use acdm_step::{Answers, Command, Entry, FlightNumber, Load, Report, Schedule, Unload, Verdict};
use bpf_decode::decode;
use bpf_helpers::Sigs;
use bpf_regstate::Length;
use bpf_verifier::{Checked, verify};
use std::alloc::Global;
use std::process::Abort;

// A program that answers 0, for records of this length.
fn program(rt: &impl Abort, alloc: Global, length: Length) -> Checked {
    let bytes = [0xb7, 0, 0, 0, 0, 0, 0, 0, 0x95, 0, 0, 0, 0, 0, 0, 0];
    let program = decode(alloc, &bytes).expect(rt, "a program");
    verify(alloc, program, &Sigs::new(alloc), length).expect(rt, "an accepted program")
}

fn loaded(rt: &impl Abort, alloc: Global, length: Length) -> Command {
    Command::Load(Load {
        milestone: Milestone::TobtUpdate,
        kind: Kind::Alert,
        program: program(rt, alloc, length),
    })
}

fn unloaded() -> Command {
    Command::Unload(Unload {
        milestone: Milestone::InBlock,
        kind: Kind::Tobt,
    })
}

// An entry of a number, a session and a role is written so.
fn writes(
    rt: &impl Abort,
    alloc: Global,
    stamp: (u64, u8, Role),
    command: Command,
    verdict: Verdict,
    answers: Answers,
    line: &str,
) {
    let (number, session, role) = stamp;
    let entry = Entry {
        number,
        session,
        role,
        moment: SEVEN,
        command,
        verdict,
        answers,
    };
    let mut out = Sink::new(Vec::new(alloc));
    let is_written = write_entry(alloc, &entry, &mut out).is_ok();
    let out = out.into_inner();
    assert!(rt; is_written && out.as_slice() == line.as_bytes(), "{line}");
}

#[test]
fn a_journal_of_three_entries_is_written(rt: HostRuntime) {
    let alloc = rt.alloc();
    writes(
        &rt,
        alloc,
        (0, 1, Role::AirportOperator),
        scheduled(&rt),
        Verdict::Accepted,
        Answers::none(),
        "0 1 29000580 APT 0 0 schedule 7 DLH7 A320 DAIBC EDDM 29000760 40 5 10 12\n",
    );
    writes(
        &rt,
        alloc,
        (1, 2, Role::NetworkManager),
        planned(&rt),
        Verdict::Accepted,
        Answers::none(),
        "1 2 29000580 NM 0 0 report 7 1 29000760 DLH7 A320 DAIBC EDDM\n",
    );
    writes(
        &rt,
        alloc,
        (2, 3, Role::AirTrafficControl),
        reported(&rt, Milestone::TsatIssue, TEN),
        Verdict::Refused(Refusal::NotSet),
        Answers::none(),
        "2 3 29000580 ATC 205 0 report 7 10 29000760\n",
    );
}

#[test]
fn answers_are_counted_and_written(rt: HostRuntime) {
    let alloc = rt.alloc();
    let answers = vec![in alloc; 10].expect(&rt, "an answer");
    writes(
        &rt,
        alloc,
        (3, 5, Role::GroundHandler),
        reported(&rt, Milestone::TobtUpdate, TEN),
        Verdict::Accepted,
        Answers::new(alloc, answers).expect(&rt, "answers"),
        "3 5 29000580 GH 0 1 10 report 7 9 29000760\n",
    );
}

#[test]
fn changes_of_slots_are_written(rt: HostRuntime) {
    let alloc = rt.alloc();
    writes(
        &rt,
        alloc,
        (0, 1, Role::AirportOperator),
        loaded(&rt, alloc, Length::L128),
        Verdict::Accepted,
        Answers::none(),
        "0 1 29000580 APT 0 0 load 9 alert b7000000000000009500000000000000\n",
    );
    writes(
        &rt,
        alloc,
        (1, 1, Role::AirportOperator),
        unloaded(),
        Verdict::Refused(Refusal::EmptySlot),
        Answers::none(),
        "1 1 29000580 APT 321 0 unload 7 tobt\n",
    );
}

#[test]
fn a_winter_is_written(rt: HostRuntime) {
    let alloc = rt.alloc();
    writes(
        &rt,
        alloc,
        (2, 1, Role::AirportOperator),
        Command::Migrate,
        Verdict::Accepted,
        Answers::none(),
        "2 1 29000580 APT 0 0 migrate\n",
    );
    writes(
        &rt,
        alloc,
        (3, 6, Role::DeicingCompany),
        deiced(DeicingTime::ActualEnd, TEN),
        Verdict::Refused(Refusal::TimeOrder),
        Answers::none(),
        "3 6 29000580 DIC 206 0 deice 7 aezt 29000760\n",
    );
    writes(
        &rt,
        alloc,
        (4, 1, Role::AirportOperator),
        loaded(&rt, alloc, Length::L160),
        Verdict::Accepted,
        Answers::none(),
        "4 1 29000580 APT 0 0 load 9 alert b7000000000000009500000000000000 160\n",
    );
}

#[test]
fn ticks_and_questions_are_written(rt: HostRuntime) {
    let alloc = rt.alloc();
    writes(
        &rt,
        alloc,
        (2, 64, Role::AirportOperator),
        Command::Tick,
        Verdict::Accepted,
        Answers::none(),
        "2 64 29000580 APT 0 0 tick\n",
    );
    writes(
        &rt,
        alloc,
        (3, 1, Role::AircraftOperator),
        Command::Show(FlightNumber::new(8)),
        Verdict::Refused(Refusal::UnknownFlight),
        Answers::none(),
        "3 1 29000580 AO 202 0 show 8\n",
    );
    writes(
        &rt,
        alloc,
        (4, 1, Role::GroundHandler),
        Command::Alerts,
        Verdict::Accepted,
        Answers::none(),
        "4 1 29000580 GH 0 0 alerts\n",
    );
}

// The entry of a tick, of this number.
fn ticked(number: u64) -> Entry {
    Entry {
        number,
        session: 1,
        role: Role::AirportOperator,
        moment: SEVEN,
        command: Command::Tick,
        verdict: Verdict::Accepted,
        answers: Answers::none(),
    }
}

#[test]
fn a_writer_that_is_full_fails(rt: HostRuntime) {
    let tick = ticked(0);
    let mut room = [0; 9];
    let mut out = Sink::new(room.as_mut_slice());
    let written = write_entry(rt.alloc(), &tick, &mut out);
    assert!(rt; written == Err(WriteError::Write));
    drop(tick);
}

#[test]
fn a_buffer_is_used_for_each_entry(rt: HostRuntime) {
    let alloc = rt.alloc();
    let mut buffer = Vec::from_slice(alloc, b"what is not written").expect(&rt, "a buffer");
    let mut out = Sink::new(Vec::new(alloc));
    for number in 0..2 {
        let tick = ticked(number);
        let is_written = write_entry_by(&mut buffer, &tick, &mut out).is_ok();
        drop(tick);
        assert!(rt; is_written);
    }
    let out = out.into_inner();
    let both = "0 1 29000580 APT 0 0 tick\n1 1 29000580 APT 0 0 tick\n";
    assert!(rt; out.as_slice() == both.as_bytes());
}

#[test]
fn an_entry_is_added_behind_a_text(rt: HostRuntime) {
    let alloc = rt.alloc();
    let mut text = Vec::from_slice(alloc, b"before\n").expect(&rt, "a text");
    let tick = ticked(7);
    let is_added = push_entry(&mut text, &tick).is_ok();
    drop(tick);
    let whole = "before\n7 1 29000580 APT 0 0 tick\n";
    assert!(rt; is_added && text.as_slice() == whole.as_bytes());
}

// What a line states.
fn read(rt: &impl Abort, alloc: Global, line: &str) -> Stated {
    match read_line(alloc, line.as_bytes()) {
        Ok(stated) => stated,
        Err(_) => panic!(rt; "not read: {line}"),
    }
}

// Who sent what a line states, when, and what came of it.
fn tells_its_head(rt: &impl Abort, stated: &Stated) {
    same_number(rt, stated.number, 3);
    same_number(rt, u64::from(stated.session), 5);
    same_number(rt, u64::from(stated.moment), u64::from(SEVEN));
    same_number(rt, stated.outcome, 0);
    assert!(rt; stated.role == Role::GroundHandler);
    assert!(rt; stated.answers.as_slice() == [10].as_slice());
}

// A report of flight 7, without a plan.
fn tells_a_report(rt: &impl Abort, report: &Report) {
    same_number(rt, report.flight(), 7);
    assert!(rt; report.milestone() == Milestone::TobtUpdate);
    same_number(rt, u64::from(report.time()), u64::from(TEN));
    assert!(rt; report.plan().is_none());
}

#[test]
fn a_report_is_read(rt: HostRuntime) {
    let stated = read(
        &rt,
        rt.alloc(),
        "3 5 29000580 GH 0 1 10 report 7 9 29000760",
    );
    tells_its_head(&rt, &stated);
    match &stated.asked {
        StatedCommand::Plain(Command::Report(report)) => tells_a_report(&rt, report),
        _ => panic!(rt; "no report"),
    }
    drop(stated);
}

// A schedule of these values.
fn tells_a_schedule(rt: &impl Abort, schedule: &Schedule) {
    same_number(rt, schedule.flight(), 7);
    same_number(rt, u64::from(schedule.sobt()), u64::from(TEN));
    same_number(rt, u64::from(schedule.mttt()), 40);
    same_number(rt, u64::from(schedule.exit()), 5);
    same_number(rt, u64::from(schedule.exot()), 10);
    same_number(rt, u64::from(schedule.stand()), 12);
}

#[test]
fn a_schedule_is_read(rt: HostRuntime) {
    let stated = read(
        &rt,
        rt.alloc(),
        "0 1 29000580 APT 0 0 schedule 7 DLH7 A320 DAIBC EDDM 29000760 40 5 10 12",
    );
    match &stated.asked {
        StatedCommand::Plain(Command::Schedule(schedule)) => {
            tells_a_schedule(&rt, schedule);
        }
        _ => panic!(rt; "no schedule"),
    }
    drop(stated);
}

// A load for the alerts of milestone 9 is read, with the bytes of its program.
#[test]
fn the_bytes_of_a_load_are_read(rt: HostRuntime) {
    let stated = read(&rt, rt.alloc(), "0 1 29000580 APT 0 0 load 9 alert 9500fe");
    match &stated.asked {
        StatedCommand::Load(load) => {
            assert!(rt; load.milestone == Milestone::TobtUpdate && load.kind == Kind::Alert);
            assert!(rt; load.program.as_slice() == [0x95, 0, 0xfe].as_slice());
            assert!(rt; load.record_length == Length::L128);
        }
        _ => panic!(rt; "no load"),
    }
    drop(stated);
}

#[test]
fn a_time_of_deicing_is_read(rt: HostRuntime) {
    let line = "0 6 29000580 DIC 0 0 deice 7 eezt 29000760";
    let stated = read(&rt, rt.alloc(), line);
    match &stated.asked {
        StatedCommand::Plain(Command::Deice(deice)) => {
            same_number(&rt, deice.flight.get(), 7);
            assert!(rt; deice.which == DeicingTime::EstimatedEnd && deice.time == TEN);
        }
        _ => panic!(rt; "no time of de-icing"),
    }
    assert!(rt; stated.role == Role::DeicingCompany);
    drop(stated);
}

fn is_unreadable(alloc: Global, line: &[u8]) -> bool {
    matches!(read_line(alloc, line), Err(ReadError::Unreadable))
}

static UNREADABLE: [&str; 8] = [
    "3 5 29000580 GH 0 1 10 report 07 9 29000760",
    "3 5 29000580 GH 0 1 10  report 7 9 29000760",
    "0 1 29000580 APT 0 0 load 9 alert 9500FE",
    "0 1 29000580 APT 0 0 load 9 alert 9500f",
    "0 65 29000580 APT 0 0 tick",
    "0 1 29000580 APT 0 1 tick",
    "0 1 29000580 APT 0 0 tick ",
    "",
];

#[test]
fn lines_of_nothing_are_unreadable(rt: HostRuntime) {
    for line in &UNREADABLE {
        assert!(rt; is_unreadable(rt.alloc(), line.as_bytes()), "{line}");
    }
}

// The line of a load with so many digits for its program.
fn long_line(rt: &impl Abort, alloc: Global, digits: usize) -> Vec<u8> {
    let mut line = Vec::new(alloc);
    line.extend_from_slice("0 1 29000580 APT 0 0 load 9 alert ".as_bytes())
        .expect(rt, "memory");
    line.resize(line.len().saturating_add(digits), b'0')
        .expect(rt, "memory");
    line
}

#[test]
fn a_line_has_at_most_200_000_bytes(rt: HostRuntime) {
    let alloc = rt.alloc();
    let longest = long_line(&rt, alloc, 199_966);
    same_number(&rt, longest.len() as u64, 200_000);
    assert!(rt; read_line(alloc, longest.as_slice()).is_ok());
    let longer = long_line(&rt, alloc, 199_968);
    assert!(rt; is_unreadable(alloc, longer.as_slice()));
}
