//! Each condition of the alerts up to CDM07a, on both sides. Written by `bench/rows/rows.py`.
use crate::rows::{Row, is_answered};

static ROWS_1: [Row; 28] = [
    Row {
        shows: "CDM01: planned alone",
        capacity: 100,
        starts: false,
        lines: r#"$+<
!=
!/
!=
"#,
        replies: r#"^
| 7:CDM01
^
| -
"#,
    },
    Row {
        shows: "CDM01: scheduled alone",
        capacity: 100,
        starts: false,
        lines: r#"1 29000579 APT {"cmd":"/
1 29000579 APT {"cmd":"=
"#,
        replies: r#"^
| -
"#,
    },
    Row {
        shows: "CDM02: a minute apart",
        capacity: 100,
        starts: false,
        lines: r#"!/
$+1(10:01:00Z",J}
!=
$+<
!=
$+1(09:59:00Z",J}
!=
"#,
        replies: r#"^
^
| 7:CDM02
^
| -
^
| 7:CDM02
"#,
    },
    Row {
        shows: "CDM02: no SOBT",
        capacity: 100,
        starts: false,
        lines: r#"$+<
!=
"#,
        replies: r#"^
| 7:CDM01
"#,
    },
    Row {
        shows: "CDM02: no EOBT",
        capacity: 100,
        starts: false,
        lines: r#"1 29000579 APT {"cmd":"/
1 29000579 APT {"cmd":"=
"#,
        replies: r#"^
| -
"#,
    },
    Row {
        shows: "CDM03: the type differs",
        capacity: 100,
        starts: false,
        lines: r#"!/
$+1(10:00:00Z","callsign":"DLH7","type":"A321","reg":"DAIBC","dest":"EDDM"}
!=
$+<
!=
$+1(10:00:00Z","callsign":"DLH7","type":"B320","reg":"DAIBC","dest":"EDDM"}
!=
$+<
!=
$+1(10:00:00Z","callsign":"DLH7","type":"A32","reg":"DAIBC","dest":"EDDM"}
!=
$+<
!=
$+1(10:00:00Z","callsign":"DLH7","type":"a320","reg":"DAIBC","dest":"EDDM"}
!=
$+<
!=
"#,
        replies: r#"^
^
| 7:CDM03
^
| -
^
| 7:CDM03
^
| -
^
| 7:CDM03
^
| -
^
| 7:CDM03
^
| -
"#,
    },
    Row {
        shows: "CDM03: no schedule with a type",
        capacity: 100,
        starts: false,
        lines: r#"$+<
!=
"#,
        replies: r#"^
| 7:CDM01
"#,
    },
    Row {
        shows: "CDM03: no flight plan with a type",
        capacity: 100,
        starts: false,
        lines: r#"1 29000579 APT {"cmd":"/
1 29000579 APT {"cmd":"=
"#,
        replies: r#"^
| -
"#,
    },
    Row {
        shows: "CDM04: the reg differs",
        capacity: 100,
        starts: false,
        lines: r#"!/
$+1(10:00:00Z","callsign":"DLH7","type":"A320","reg":"DAIBD","dest":"EDDM"}
!=
$+<
!=
$+1(10:00:00Z","callsign":"DLH7","type":"A320","reg":"CAIBC","dest":"EDDM"}
!=
$+<
!=
$+1(10:00:00Z","callsign":"DLH7","type":"A320","reg":"DAIBCDEF","dest":"EDDM"}
!=
$+<
!=
$+1(10:00:00Z","callsign":"DLH7","type":"A320","reg":"DAIB","dest":"EDDM"}
!=
$+<
!=
"#,
        replies: r#"^
^
| 7:CDM04
^
| -
^
| 7:CDM04
^
| -
^
| 7:CDM04
^
| -
^
| 7:CDM04
^
| -
"#,
    },
    Row {
        shows: "CDM04: no schedule with a reg",
        capacity: 100,
        starts: false,
        lines: r#"$+<
!=
"#,
        replies: r#"^
| 7:CDM01
"#,
    },
    Row {
        shows: "CDM04: no flight plan with a reg",
        capacity: 100,
        starts: false,
        lines: r#"1 29000579 APT {"cmd":"/
1 29000579 APT {"cmd":"=
"#,
        replies: r#"^
| -
"#,
    },
    Row {
        shows: "CDM05: the dest differs",
        capacity: 100,
        starts: false,
        lines: r#"!/
$+1(10:00:00Z","callsign":"DLH7","type":"A320","reg":"DAIBC","dest":"EDDF"}
!=
$+<
!=
$+1(10:00:00Z","callsign":"DLH7","type":"A320","reg":"DAIBC","dest":"LDDM"}
!=
$+<
!=
$+1(10:00:00Z","callsign":"DLH7","type":"A320","reg":"DAIBC","dest":"EDD"}
!=
$+<
!=
$+1(10:00:00Z","callsign":"DLH7","type":"A320","reg":"DAIBC","dest":"eDDM"}
!=
$+<
!=
"#,
        replies: r#"^
^
| 7:CDM05
^
| -
^
| 7:CDM05
^
| -
^
| 7:CDM05
^
| -
^
| 7:CDM05
^
| -
"#,
    },
    Row {
        shows: "CDM05: no schedule with a dest",
        capacity: 100,
        starts: false,
        lines: r#"$+<
!=
"#,
        replies: r#"^
| 7:CDM01
"#,
    },
    Row {
        shows: "CDM05: no flight plan with a dest",
        capacity: 100,
        starts: false,
        lines: r#"1 29000579 APT {"cmd":"/
1 29000579 APT {"cmd":"=
"#,
        replies: r#"^
| -
"#,
    },
    Row {
        shows: "CDM07: in-block",
        capacity: 100,
        starts: true,
        lines: r#"%+6(09:00)
!+7(09:20)
!=
!+7(09:21)
!=
"#,
        replies: r#"^
^
^
^
| -
^
| 7:CDM07
"#,
    },
    Row {
        shows: "CDM07: landed",
        capacity: 100,
        starts: true,
        lines: r#"%+6(09:15)
!=
%+6(09:16)
!=
"#,
        replies: r#"^
^
^
| -
^
| 7:CDM07
"#,
    },
    Row {
        shows: "CDM07: radar update",
        capacity: 100,
        starts: true,
        lines: r#"%+4(09:15)
!=
%+4(09:16)
!=
"#,
        replies: r#"^
^
^
| -
^
| 7:CDM07
"#,
    },
    Row {
        shows: "CDM07: final approach",
        capacity: 100,
        starts: true,
        lines: r#"%+5(09:15)
!=
%+5(09:16)
!=
"#,
        replies: r#"^
^
^
| -
^
| 7:CDM07
"#,
    },
    Row {
        shows: "CDM07: in-block counts before landed",
        capacity: 100,
        starts: true,
        lines: r#"%+6(09:16)
!=
!+7(09:20)
!=
"#,
        replies: r#"^
^
^
| 7:CDM07
^
| -
"#,
    },
    Row {
        shows: "CDM07: landed counts before landing",
        capacity: 100,
        starts: true,
        lines: r#"%+4(09:16)
!=
%+6(09:15)
!=
"#,
        replies: r#"^
^
^
| 7:CDM07
^
| -
"#,
    },
    Row {
        shows: "CDM07: landed counts, also where it is later",
        capacity: 100,
        starts: true,
        lines: r#"%+4(09:15)
!=
%+6(09:16)
!=
"#,
        replies: r#"^
^
^
| -
^
| 7:CDM07
"#,
    },
    Row {
        shows: "CDM07: nothing of the arrival",
        capacity: 100,
        starts: false,
        lines: r#"!schedule","flight":7,J,"sobt":"1970-01-01T00:01:00Z","mttt":40,"exit":5,"exot":10,"stand":12}
$+1,"time":"1970-01-01T00:01:00Z",J}
!=
"#,
        replies: r#"^
^
| -
"#,
    },
    Row {
        shows: "CDM07a: in-block against the target",
        capacity: 100,
        starts: false,
        lines: r#"!schedule","flight":7,J,"sobt":"2025-02-20T10:10:00Z","mttt":40,"exit":5,"exot":10,"stand":12}
$+1(10:10:00Z",J}
*+9(10:00)
%+6(09:00)
!+7(09:20)
!=
!+7(09:21)
!=
"#,
        replies: r#"^
^
^
^
^
| -
^
| 7:CDM07a
"#,
    },
    Row {
        shows: "CDM07a: landed against the target",
        capacity: 100,
        starts: false,
        lines: r#"!schedule","flight":7,J,"sobt":"2025-02-20T10:10:00Z","mttt":40,"exit":5,"exot":10,"stand":12}
$+1(10:10:00Z",J}
*+9(10:00)
%+6(09:15)
!=
%+6(09:16)
!=
"#,
        replies: r#"^
^
^
^
| -
^
| 7:CDM07a
"#,
    },
    Row {
        shows: "CDM07a: landing against the target",
        capacity: 100,
        starts: false,
        lines: r#"!schedule","flight":7,J,"sobt":"2025-02-20T10:10:00Z","mttt":40,"exit":5,"exot":10,"stand":12}
$+1(10:10:00Z",J}
*+9(10:00)
%+4(09:15)
!=
%+4(09:16)
!=
"#,
        replies: r#"^
^
^
^
| -
^
| 7:CDM07a
"#,
    },
    Row {
        shows: "CDM07a: later than both",
        capacity: 100,
        starts: true,
        lines: r#"*+9(10:00)
%+6(09:00)
!+7(09:21)
!=
"#,
        replies: r#"^
^
^
^
^
| 7:CDM07,CDM07a
"#,
    },
    Row {
        shows: "CDM07a: no target",
        capacity: 100,
        starts: false,
        lines: r#"!schedule","flight":7,J,"sobt":"2025-02-20T10:10:00Z","mttt":40,"exit":5,"exot":10,"stand":12}
$+1(10:10:00Z",J}
%+6(09:00)
!+7(09:21)
!=
"#,
        replies: r#"^
^
^
^
| -
"#,
    },
    Row {
        shows: "CDM07a: nothing of the arrival with a target",
        capacity: 100,
        starts: false,
        lines: r#"!schedule","flight":7,J,"sobt":"1970-01-01T00:01:00Z","mttt":40,"exit":5,"exot":10,"stand":12}
$+1,"time":"1970-01-01T00:01:00Z",J}
*+9,"time":"1970-01-01T00:01)
!=
"#,
        replies: r#"^
^
^
| 7:CDM09
"#,
    },
];

#[test]
fn part_1(rt: HostRuntime) {
    for row in &ROWS_1 {
        is_answered(&rt, rt.alloc(), row);
    }
}
