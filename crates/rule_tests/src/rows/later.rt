//! Alerts behind a start-up time, and with SOBT other than EOBT. Written by `bench/rows/rows.py`.
use crate::rows::{Row, is_answered};

static ROWS_1: [Row; 6] = [
    Row {
        shows: "later: raised and cleared up to the approval",
        capacity: 100,
        starts: false,
        lines: r#"!/
$+1(10:05:00Z","callsign":"DLH7","type":"A321","reg":"DAIBD","dest":"EDDF"}
%+6(09:00)
!+7(09:26)
*+9(09:49)
%+10(10:01)
!=
$+<
!+7(09:05)
!=
$+1(10:05:00Z","callsign":"DLH7","type":"A321","reg":"DAIBD","dest":"EDDF"}
!+7(09:26)
%+13(09:58)
!=
$+<
!+7(09:05)
!=
$+1(10:05:00Z","callsign":"DLH7","type":"A321","reg":"DAIBD","dest":"EDDF"}
!+7(09:26)
%+14(10:02)
!=
$+<
!+7(09:05)
!=
$+1(10:05:00Z","callsign":"DLH7","type":"A321","reg":"DAIBD","dest":"EDDF"}
!+7(09:26)
%+15(10:03)
!=
%+16(10:12)
!=
"#,
        replies: r#"^
^
^
^
^
^
| 7:CDM02,CDM03,CDM04,CDM05,CDM07,CDM08,CDM07a
^
^
| -
^
^
^
| 7:CDM02,CDM03,CDM04,CDM05,CDM07,CDM08,CDM07a
^
^
| -
^
^
^
| 7:CDM02,CDM03,CDM04,CDM05,CDM07,CDM08,CDM07a
^
^
| -
^
^
^
| 7:CDM02,CDM03,CDM04,CDM05,CDM07,CDM08,CDM07a
^
| 7:CDM02,CDM03,CDM04,CDM05,CDM07,CDM08,CDM07a
"#,
    },
    Row {
        shows: "later: no airport slot",
        capacity: 100,
        starts: false,
        lines: r#"$+<
*+9(10:00)
%+10(10:01)
!=
%+13(09:58)
%+14(10:02)
!=
%+15(10:03)
!=
%+16(10:12)
!=
!/
!=
"#,
        replies: r#"^
^
^
| 7:CDM01
^
^
| 7:CDM01
^
| 7:CDM01
^
| 7:CDM01
^
| -
"#,
    },
    Row {
        shows: "later: scheduled behind 10",
        capacity: 100,
        starts: false,
        lines: r#"$+<
*+9(10:00)
%+10(10:01)
!=
!/
!=
"#,
        replies: r#"^
^
^
| 7:CDM01
^
| -
"#,
    },
    Row {
        shows: "later: scheduled behind 14",
        capacity: 100,
        starts: false,
        lines: r#"$+<
*+9(10:00)
%+10(10:01)
%+13(09:58)
%+14(10:02)
!=
!/
!=
"#,
        replies: r#"^
^
^
^
^
| 7:CDM01
^
| -
"#,
    },
    Row {
        shows: "later: SOBT behind EOBT",
        capacity: 100,
        starts: false,
        lines: r#"!schedule","flight":7,J,"sobt":"2025-02-20T10:05:00Z","mttt":40,"exit":5,"exot":10,"stand":12}
$+<
%+6(09:15)
!=
%+6(09:16)
!=
*+9(09:44)
!=
*+9(10:15)
!=
"#,
        replies: r#"^
^
^
| 7:CDM02
^
| 7:CDM02,CDM07
^
| 7:CDM02,CDM07,CDM08,CDM07a
^
| 7:CDM02,CDM07
"#,
    },
    Row {
        shows: "later: SOBT before EOBT",
        capacity: 100,
        starts: false,
        lines: r#"!schedule","flight":7,J,"sobt":"2025-02-20T09:55:00Z","mttt":40,"exit":5,"exot":10,"stand":12}
$+<
%+6(09:15)
!=
%+6(09:16)
!=
*+9(09:44)
!=
*+9(10:15)
!=
"#,
        replies: r#"^
^
^
| 7:CDM02
^
| 7:CDM02,CDM07
^
| 7:CDM02,CDM07,CDM08,CDM07a
^
| 7:CDM02,CDM07
"#,
    },
];

#[test]
fn part_1(rt: HostRuntime) {
    for row in &ROWS_1 {
        is_answered(&rt, rt.alloc(), row);
    }
}
