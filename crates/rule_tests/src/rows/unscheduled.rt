//! Flights without a schedule. Written by `bench/rows/rows.py`.
use crate::rows::{Row, is_answered};

static ROWS_1: [Row; 6] = [
    Row {
        shows: "unscheduled: EIBT and EOBT",
        capacity: 100,
        starts: false,
        lines: r#"$+<
%+4(10:00)
!=
%+5(10:01)
!=
%+6(10:00)
!=
%+6(10:01)
!=
%+6(09:00)
!+7(10:00)
!=
!+7(10:01)
!=
"#,
        replies: r#"^
^
| 7:CDM01
^
| 7:CDM01,CDM07
^
| 7:CDM01
^
| 7:CDM01,CDM07
^
^
| 7:CDM01
^
| 7:CDM01,CDM07
"#,
    },
    Row {
        shows: "unscheduled: EIBT and TOBT",
        capacity: 100,
        starts: false,
        lines: r#"$+1(10:15:00Z",J}
*+9(10:00)
%+4(10:00)
!=
%+5(10:01)
!=
%+6(10:00)
!=
%+6(10:01)
!=
%+6(09:00)
!+7(10:00)
!=
!+7(10:01)
!=
"#,
        replies: r#"^
^
^
| 7:CDM01
^
| 7:CDM01,CDM07a
^
| 7:CDM01
^
| 7:CDM01,CDM07a
^
^
| 7:CDM01
^
| 7:CDM01,CDM07a
"#,
    },
    Row {
        shows: "unscheduled: EOBT and TOBT",
        capacity: 100,
        starts: false,
        lines: r#"$+<
*+9(10:15)
!=
*+9(10:16)
!=
*+9(09:45)
!=
*+9(09:44)
!=
"#,
        replies: r#"^
^
| 7:CDM01
^
| 7:CDM01,CDM08
^
| 7:CDM01
^
| 7:CDM01,CDM08
"#,
    },
    Row {
        shows: "unscheduled: boarding, the target and start-up",
        capacity: 100,
        starts: false,
        lines: r#"$+<
*+9(10:00)
1 29000749 APT {"cmd":"X
!=
1 29000750 APT {"cmd":"X
!=
*+9,"time":null}
!=
*+9(10:00)
!=
*+11(09:40)
%+10(10:01)
1 29000766 APT {"cmd":"X
!=
1 29000767 APT {"cmd":"X
!=
%+13(09:56)
%+14(10:06)
!=
%+14(10:07)
!=
%+14(09:56)
!=
"#,
        replies: r#"^
^
^
| 7:CDM01
^
| 7:CDM01,CDM09
^
| 7:CDM01,CDM10
^
| 7:CDM01
^
^
^
| 7:CDM01
^
| 7:CDM01,CDM11
^
^
| 7:CDM01
^
| 7:CDM01,CDM12
^
| 7:CDM01
"#,
    },
    Row {
        shows: "unscheduled: an automatic target",
        capacity: 100,
        starts: false,
        lines: r#"!S6,"kind":"tobt","program":"bf3U007`ffffffffV
$+<
!=
%+6(09:00)
!=
!S6,"kind":"tobt","program":"bf3U007`3c`V
%+6(09:00)
!=
"#,
        replies: r#"^
^
| 7:CDM01
^
| 7:CDM01,CDM14
^
^
| 7:CDM01
"#,
    },
    Row {
        shows: "unscheduled: all milestones",
        capacity: 100,
        starts: false,
        lines: r#"$+<
$+2(10:15)
$+3(08:00)
%+4(09:10)
%+5(09:08)
%+6(09:00)
!+7(09:05)
*+8(09:06)
*+9(10:00)
%+10(10:01)
*+11(09:40)
&+12(09:55)
%+13(09:58)
%+14(10:02)
%+15(10:03)
%+16(10:12)
&>
"#,
        replies: r#"^
^
^
^
^
^
^
^
^
^
^
^
^
^
^
^
~07U00444c4837U00004133323U000004441494243U004544444dfeff010002U`01`00003884ba014784ba01c083ba010484ba01fc83ba010184ba010284ba013884ba013984ba012484ba013384ba013684ba013a84ba013b84ba014484ba01
"#,
    },
];

#[test]
fn part_1(rt: HostRuntime) {
    for row in &ROWS_1 {
        is_answered(&rt, rt.alloc(), row);
    }
}
