//! What `tell` tells of journals.
use crate::commands::built_in;
use acdm_sessions::{Sink, Source};
use acdm_telling::tell_on;
use std::alloc::Global;
use std::process::Abort;

// Flight 7 is scheduled at 07:00 for 10:00, and then planned.
const PLANNED: &str = r#"0 1 29000580 APT 0 0 schedule 7 DLH7 A320 DAIBC EDDM 29000760 40 5 10 12
1 2 29000580 NM 0 0 report 7 1 29000760 DLH7 A320 DAIBC EDDM
"#;

const TOLD: &str =
    r#"{"entry":0,"minute":"2025-02-20T07:00:00Z","session":1,"role":"APT","command":{"cmd":"schedule","flight":7,"callsign":"DLH7","type":"A320","reg":"DAIBC","dest":"EDDM","sobt":"2025-02-20T10:00:00Z","mttt":40,"exit":5,"exot":10,"stand":12},"outcome":"ok","answers":[],"changed":[{"flight":7,"callsign":"DLH7","scheduled_type":"A320","plan_type":"","scheduled_reg":"DAIBC","plan_reg":"","scheduled_dest":"EDDM","plan_dest":"","sobt":"2025-02-20T10:00:00Z","eobt":null,"ctot":null,"otot":null,"eldt":null,"aldt":null,"aibt":null,"acgt":null,"tobt":null,"tsat":null,"asbt":null,"ardt":null,"asrt":null,"asat":null,"aobt":null,"atot":null,"mttt":40,"exit":5,"exot":10,"stand":12,"reached":[0],"alerts":["CDM13"]}]}
{"entry":1,"minute":"2025-02-20T07:00:00Z","session":2,"role":"NM","command":{"cmd":"report","flight":7,"milestone":1,"time":"2025-02-20T10:00:00Z","callsign":"DLH7","type":"A320","reg":"DAIBC","dest":"EDDM"},"outcome":"ok","answers":[],"changed":[{"flight":7,"callsign":"DLH7","scheduled_type":"A320","plan_type":"A320","scheduled_reg":"DAIBC","plan_reg":"DAIBC","scheduled_dest":"EDDM","plan_dest":"EDDM","sobt":"2025-02-20T10:00:00Z","eobt":"2025-02-20T10:00:00Z","ctot":null,"otot":null,"eldt":null,"aldt":null,"aibt":null,"acgt":null,"tobt":null,"tsat":null,"asbt":null,"ardt":null,"asrt":null,"asat":null,"aobt":null,"atot":null,"mttt":40,"exit":5,"exot":10,"stand":12,"reached":[0,1],"alerts":[]}]}
"#;

// Whether this is told of a journal, with this status.
fn tells(rt: &impl Abort, alloc: Global, journal: &str, status: u8, parts: &[&str]) -> bool {
    let mut wanted = String::new(alloc);
    for part in parts {
        wanted.push_str(part).expect(rt, "room for a part");
    }
    let mut output = Sink::new(Vec::new(alloc));
    let mut errors = Sink::new(Vec::new(alloc));
    let tables = built_in(rt, alloc);
    let ended = tell_on(
        alloc,
        &tables,
        &mut Source::new(journal.as_bytes()),
        &mut output,
        &mut errors,
    );
    ended == status
        && output.into_inner().as_slice() == wanted.as_bytes()
        && errors.into_inner().is_empty()
}

#[test]
fn a_legal_journal_is_told(rt: HostRuntime) {
    let alloc = rt.alloc();
    assert!(rt; tells(&rt, alloc, PLANNED, 0, &[TOLD]));
    assert!(rt; tells(&rt, alloc, "", 0, &[]));
}

#[test]
fn a_fault_is_told_behind_what_stands_before_it(rt: HostRuntime) {
    let alloc = rt.alloc();
    let mut journal = String::new(alloc);
    journal.push_str(PLANNED).expect(&rt, "room");
    journal
        .push_str("2 3 29000580 ATC 0 0 report 7 10 29000760\n")
        .expect(&rt, "room");
    let told = ["entry 2 405\n"];
    assert!(rt; tells(&rt, alloc, journal.as_str(), 1, &[TOLD, told[0]]));
    assert!(rt; tells(&rt, alloc, "0 1 7 APT 0 0 tick", 1, &["entry 0 401\n"]));
}
