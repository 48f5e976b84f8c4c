//! The limits of each field of a line, and one beside each limit.
use crate::sessions::are_answered;
use std::alloc::Global;
use std::process::Abort;

const ACCEPTED: &str = "ok 0\n";

const WRONG_KIND: &str = "bad 103\n";

const OUT_OF_RANGE: &str = "bad 104\n";

const SCHEDULE: &str = r#"1 29000580 APT {"cmd":"schedule""#;

// A field, a value that it may have, and one that is out of range.
type Field = (&'static str, &'static str, &'static str);

static SCHEDULE_FIELDS: [Field; 10] = [
    ("flight", "7", "0"),
    ("callsign", r#""DLH7""#, r#""""#),
    ("type", r#""A320""#, r#""""#),
    ("reg", r#""DAIBC""#, r#""""#),
    ("dest", r#""EDDM""#, r#""""#),
    ("sobt", r#""2025-02-20T10:00:00Z""#, r#""""#),
    ("mttt", "40", "1441"),
    ("exit", "5", "256"),
    ("exot", "10", "1441"),
    ("stand", "12", "65536"),
];

const ACTIVATION: &str = r#"2 29000580 NM {"cmd":"report""#;

static ACTIVATION_FIELDS: [Field; 7] = [
    ("flight", "7", "0"),
    ("milestone", "1", "0"),
    ("time", r#""2025-02-20T10:00:00Z""#, r#""""#),
    ("callsign", r#""DLH7""#, r#""""#),
    ("type", r#""A320""#, r#""""#),
    ("reg", r#""DAIBC""#, r#""""#),
    ("dest", r#""EDDM""#, r#""""#),
];

const LOAD: &str = r#"1 29000580 APT {"cmd":"load""#;

static LOAD_FIELDS: [Field; 4] = [
    ("milestone", "7", "17"),
    ("kind", r#""tobt""#, r#""""#),
    ("program", r#""95""#, r#""9""#),
    ("length", "160", "129"),
];

const DEICE: &str = r#"6 29000580 DIC {"cmd":"deice""#;

static DEICE_FIELDS: [Field; 3] = [
    ("flight", "7", "0"),
    ("field", r#""eczt""#, r#""aobt""#),
    ("time", "null", r#""""#),
];

fn push(rt: &impl Abort, line: &mut String, part: &str) {
    line.push_str(part).expect(rt, "room for a part");
}

fn push_field(rt: &impl Abort, line: &mut String, name: &str, value: &str) {
    push(rt, line, ",\"");
    push(rt, line, name);
    push(rt, line, "\":");
    push(rt, line, value);
}

/// A line of these fields, with this value under one key.
fn line_with(
    rt: &impl Abort,
    alloc: Global,
    front: &str,
    fields: &[Field],
    key: &str,
    value: &str,
) -> String {
    let mut line = String::new(alloc);
    push(rt, &mut line, front);
    for (name, usual, _) in fields {
        let value = if *name == key { value } else { *usual };
        push_field(rt, &mut line, *name, value);
    }
    push(rt, &mut line, "}\n");
    line
}

/// A line of these fields, with faults from the one of this place on: that one is out of range and
/// those behind it of the wrong kind, or the other way round.
fn line_from(
    rt: &impl Abort,
    alloc: Global,
    front: &str,
    fields: &[Field],
    place: usize,
    is_beyond: bool,
) -> String {
    let mut line = String::new(alloc);
    push(rt, &mut line, front);
    for (number, (name, usual, beyond)) in fields.iter().enumerate() {
        let value = if number < place {
            *usual
        } else if (number == place) == is_beyond {
            *beyond
        } else {
            "[]"
        };
        push_field(rt, &mut line, *name, value);
    }
    push(rt, &mut line, "}\n");
    line
}

// A field, its value, and what a line with that is answered.
type Limit = (&'static str, &'static str, &'static str);

fn are_limits(rt: &impl Abort, alloc: Global, front: &str, fields: &[Field], limits: &[Limit]) {
    for (key, value, reply) in limits {
        let line = line_with(rt, alloc, front, fields, *key, *value);
        are_answered(rt, alloc, line.as_str(), &[line.as_str()], 1, *reply);
    }
}

static SCHEDULE_LIMITS: [Limit; 48] = [
    ("flight", "1", ACCEPTED),
    ("flight", "0", OUT_OF_RANGE),
    ("flight", "18446744073709551615", ACCEPTED),
    ("flight", "18446744073709551616", WRONG_KIND),
    ("flight", "7.0", WRONG_KIND),
    ("callsign", r#""D""#, ACCEPTED),
    ("callsign", r#""""#, OUT_OF_RANGE),
    ("callsign", r#""DLH45678""#, ACCEPTED),
    ("callsign", r#""DLH456789""#, OUT_OF_RANGE),
    ("callsign", r#""!~""#, ACCEPTED),
    ("callsign", r#""D H7""#, OUT_OF_RANGE),
    ("callsign", r#""D\u007f""#, OUT_OF_RANGE),
    ("callsign", "7", WRONG_KIND),
    ("type", r#""A""#, ACCEPTED),
    ("type", r#""""#, OUT_OF_RANGE),
    ("type", r#""A3200""#, OUT_OF_RANGE),
    ("type", "null", WRONG_KIND),
    ("reg", r#""D""#, ACCEPTED),
    ("reg", r#""""#, OUT_OF_RANGE),
    ("reg", r#""DAIBCDEF""#, ACCEPTED),
    ("reg", r#""DAIBCDEFG""#, OUT_OF_RANGE),
    ("reg", "[]", WRONG_KIND),
    ("dest", r#""E""#, ACCEPTED),
    ("dest", r#""""#, OUT_OF_RANGE),
    ("dest", r#""EDDMM""#, OUT_OF_RANGE),
    ("dest", "true", WRONG_KIND),
    ("sobt", r#""1970-01-01T00:01:00Z""#, ACCEPTED),
    ("sobt", r#""1970-01-01T00:00:59Z""#, OUT_OF_RANGE),
    ("sobt", r#""1969-12-31T23:59:59Z""#, OUT_OF_RANGE),
    ("sobt", r#""2025-02-29T10:00:00Z""#, OUT_OF_RANGE),
    ("sobt", "29000760", WRONG_KIND),
    ("sobt", "null", WRONG_KIND),
    ("mttt", "0", ACCEPTED),
    ("mttt", "1440", ACCEPTED),
    ("mttt", "1441", OUT_OF_RANGE),
    ("mttt", "-1", WRONG_KIND),
    ("exit", "0", ACCEPTED),
    ("exit", "255", ACCEPTED),
    ("exit", "256", OUT_OF_RANGE),
    ("exit", r#""5""#, WRONG_KIND),
    ("exot", "0", ACCEPTED),
    ("exot", "1440", ACCEPTED),
    ("exot", "1441", OUT_OF_RANGE),
    ("exot", "{}", WRONG_KIND),
    ("stand", "0", ACCEPTED),
    ("stand", "65535", ACCEPTED),
    ("stand", "65536", OUT_OF_RANGE),
    ("stand", "1e2", WRONG_KIND),
];

#[test]
fn each_field_of_a_schedule_has_its_limits(rt: HostRuntime) {
    are_limits(
        &rt,
        rt.alloc(),
        SCHEDULE,
        &SCHEDULE_FIELDS,
        &SCHEDULE_LIMITS,
    );
}

static ACTIVATION_LIMITS: [Limit; 15] = [
    ("flight", "18446744073709551615", ACCEPTED),
    ("flight", "0", OUT_OF_RANGE),
    ("milestone", "1", ACCEPTED),
    ("milestone", "0", OUT_OF_RANGE),
    ("milestone", "17", OUT_OF_RANGE),
    ("milestone", r#""1""#, WRONG_KIND),
    ("time", r#""1970-01-01T00:01:00Z""#, ACCEPTED),
    ("time", r#""1970-01-01T00:00:59Z""#, OUT_OF_RANGE),
    ("time", "null", WRONG_KIND),
    ("callsign", r#""DLH45678""#, ACCEPTED),
    ("callsign", r#""DLH456789""#, OUT_OF_RANGE),
    ("type", r#""A3200""#, OUT_OF_RANGE),
    ("reg", r#""DAIBCDEFG""#, OUT_OF_RANGE),
    ("dest", r#""EDDMM""#, OUT_OF_RANGE),
    ("dest", "null", WRONG_KIND),
];

#[test]
fn each_field_of_a_flight_plan_has_its_limits(rt: HostRuntime) {
    are_limits(
        &rt,
        rt.alloc(),
        ACTIVATION,
        &ACTIVATION_FIELDS,
        &ACTIVATION_LIMITS,
    );
}

// Every such line is refused on a board of layout 1.
const NO_DEICING: &str = "no 0 325\n";

static DEICE_LIMITS: [Limit; 18] = [
    ("flight", "1", NO_DEICING),
    ("flight", "0", OUT_OF_RANGE),
    ("flight", "18446744073709551615", NO_DEICING),
    ("flight", "18446744073709551616", WRONG_KIND),
    ("field", r#""eczt""#, NO_DEICING),
    ("field", r#""eezt""#, NO_DEICING),
    ("field", r#""aczt""#, NO_DEICING),
    ("field", r#""aezt""#, NO_DEICING),
    ("field", r#""ECZT""#, OUT_OF_RANGE),
    ("field", r#""""#, OUT_OF_RANGE),
    ("field", "null", WRONG_KIND),
    ("field", "0", WRONG_KIND),
    ("time", "null", NO_DEICING),
    ("time", r#""1970-01-01T00:01:00Z""#, NO_DEICING),
    ("time", r#""1970-01-01T00:00:59Z""#, OUT_OF_RANGE),
    ("time", r#""null""#, OUT_OF_RANGE),
    ("time", "0", WRONG_KIND),
    ("time", "false", WRONG_KIND),
];

#[test]
fn each_field_of_a_time_of_deicing_has_its_limits(rt: HostRuntime) {
    are_limits(&rt, rt.alloc(), DEICE, &DEICE_FIELDS, &DEICE_LIMITS);
}

// One byte is no program, which is told once the fields are read.
const NO_PROGRAM: &str = "bad 301 0\n";

static LENGTH_LIMITS: [Limit; 9] = [
    ("length", "128", NO_PROGRAM),
    ("length", "160", NO_PROGRAM),
    ("length", "127", OUT_OF_RANGE),
    ("length", "129", OUT_OF_RANGE),
    ("length", "161", OUT_OF_RANGE),
    ("length", "0", OUT_OF_RANGE),
    ("length", "null", WRONG_KIND),
    ("length", "-128", WRONG_KIND),
    ("length", r#""128""#, WRONG_KIND),
];

#[test]
fn records_have_two_lengths(rt: HostRuntime) {
    are_limits(&rt, rt.alloc(), LOAD, &LOAD_FIELDS, &LENGTH_LIMITS);
}

// The first faulty field from a place on decides.
fn are_in_order(rt: &impl Abort, alloc: Global, front: &str, fields: &[Field]) {
    for place in 0..fields.len() {
        let line = line_from(rt, alloc, front, fields, place, true);
        are_answered(rt, alloc, line.as_str(), &[line.as_str()], 1, OUT_OF_RANGE);
        let line = line_from(rt, alloc, front, fields, place, false);
        are_answered(rt, alloc, line.as_str(), &[line.as_str()], 1, WRONG_KIND);
    }
}

#[test]
fn the_first_faulty_field_decides(rt: HostRuntime) {
    are_in_order(&rt, rt.alloc(), SCHEDULE, &SCHEDULE_FIELDS);
    are_in_order(&rt, rt.alloc(), ACTIVATION, &ACTIVATION_FIELDS);
    are_in_order(&rt, rt.alloc(), LOAD, &LOAD_FIELDS);
    are_in_order(&rt, rt.alloc(), DEICE, &DEICE_FIELDS);
}

// Milestones without a time, and what they are answered.
static TIMELESS: [(&str, &str); 6] = [
    ("2", "no 0 202\n"),
    ("3", WRONG_KIND),
    ("8", WRONG_KIND),
    ("9", "no 0 201\n"),
    ("10", WRONG_KIND),
    ("16", WRONG_KIND),
];

#[test]
fn two_milestones_alone_may_have_no_time(rt: HostRuntime) {
    for (milestone, reply) in &TIMELESS {
        let line = [
            "2 29000580 NM {\"cmd\":\"report\",\"flight\":7,\"milestone\":",
            *milestone,
            ",\"time\":null}\n",
        ];
        are_answered(&rt, rt.alloc(), *milestone, &line, 1, *reply);
    }
}

// What stands before the JSON of a line, and what the line is answered.
static FRONTS: [(&str, &str); 16] = [
    ("0 29000580 APT", "bad 100\n"),
    ("1 29000580 APT", "alerts 0 -\n"),
    ("64 29000580 APT", "alerts 0 -\n"),
    ("65 29000580 APT", "bad 100\n"),
    ("01 29000580 APT", "bad 100\n"),
    ("1 0 APT", "bad 100\n"),
    ("1 1 APT", "alerts 0 -\n"),
    ("1 4294967295 APT", "alerts 0 -\n"),
    ("1 4294967296 APT", "bad 100\n"),
    ("1 29000580 NM", "alerts 0 -\n"),
    ("1 29000580 ATC", "alerts 0 -\n"),
    ("1 29000580 AO", "alerts 0 -\n"),
    ("1 29000580 GH", "alerts 0 -\n"),
    ("1 29000580 DIC", "alerts 0 -\n"),
    ("1 29000580 DI", "bad 100\n"),
    ("1 29000580 apt", "bad 100\n"),
];

#[test]
fn sessions_and_moments_have_their_limits(rt: HostRuntime) {
    for (front, reply) in &FRONTS {
        let line = [*front, " {\"cmd\":\"alerts\"}\n"];
        are_answered(&rt, rt.alloc(), *front, &line, 1, *reply);
    }
}

// Slots, and what it is answered that they are to be emptied.
static SLOTS: [(&str, &str); 8] = [
    (r#""milestone":1,"kind":"tobt"}"#, "no 0 321\n"),
    (r#""milestone":16,"kind":"alert"}"#, "no 0 321\n"),
    (r#""milestone":0,"kind":"tobt"}"#, OUT_OF_RANGE),
    (r#""milestone":17,"kind":"tobt"}"#, OUT_OF_RANGE),
    (r#""milestone":1,"kind":"tobts"}"#, OUT_OF_RANGE),
    (r#""milestone":1,"kind":"TOBT"}"#, OUT_OF_RANGE),
    (r#""milestone":1,"kind":1}"#, WRONG_KIND),
    (r#""milestone":1}"#, WRONG_KIND),
];

#[test]
fn programs_have_two_kinds_and_sixteen_milestones(rt: HostRuntime) {
    for (fields, reply) in &SLOTS {
        let line = ["1 29000580 APT {\"cmd\":\"unload\",", *fields, "\n"];
        are_answered(&rt, rt.alloc(), *fields, &line, 1, *reply);
    }
}
