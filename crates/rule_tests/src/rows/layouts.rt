//! A board that was migrated. Written by `bench/rows/rows.py`.
use crate::rows::{Row, is_answered};

static ROWS_1: [Row; 7] = [
    Row {
        shows: "layout 2: refusals",
        capacity: 100,
        starts: false,
        lines: r#"!migrate"}
%+6(09:00)
$/
!/
%+6(09:00)
$+<
!+7(09:05)
&+6(09:00)
%+10(10:01)
*+11(09:40)
%+6(09:00)
$+3(08:00)
%+4(09:10)
!+7(08:59)
!/
!unS7,"kind":"tobt"}
!+7(09:05)
*+8(09:06)
*+9(10:00)
%+13(09:58)
%+10(10:01)
*+9,"time":null}
%+13(09:58)
*+9(10:00)
%+10(10:01)
%+13(09:58)
%+14(09:57)
%+15(10:03)
%+14(10:02)
%+15(10:03)
*+9(10:00)
%+16(10:02)
%+16(10:12)
$+2(10:15)
"#,
        replies: r#"v -
_202
_201
^
_203
^
_203
_201
_205
_205
^
_204
_204
_206
_207
_321
^
^
^
_203
^
^
_205
^
^
^
_206
_203
^
^
_204
_206
^
_204
"#,
    },
    Row {
        shows: "layout 2: alerts",
        capacity: 100,
        starts: false,
        lines: r#"!migrate"}
$+<
!=
!/
!=
$+1(10:05:00Z","callsign":"DLH7","type":"A321","reg":"DAIBD","dest":"EDDF"}
!=
$+<
!=
%+6(09:16)
!=
%+6(09:15)
!=
*+9(09:59)
!=
*+9(09:44)
!=
*+9,"time":null}
!=
*+9(10:00)
!=
1 29000750 APT {"cmd":"X
!=
*+11(09:40)
!=
%+10(10:01)
1 29000766 APT {"cmd":"X
!=
1 29000767 APT {"cmd":"X
!=
%+13(09:58)
%+14(10:07)
!=
%+14(10:02)
!=
"#,
        replies: r#"v -
^
| 7:CDM01
^
| -
^
| 7:CDM02,CDM03,CDM04,CDM05
^
| -
^
| 7:CDM07
^
| -
^
| 7:CDM07a
^
| 7:CDM08,CDM07a
^
| 7:CDM10
^
| -
^
| 7:CDM09
^
| -
^
^
| -
^
| 7:CDM11
^
^
| 7:CDM12
^
| -
"#,
    },
    Row {
        shows: "layout 2: no flight plan",
        capacity: 100,
        starts: false,
        lines: r#"!migrate"}
!/
!=
$+<
!=
"#,
        replies: r#"v -
^
| 7:CDM13
^
| -
"#,
    },
    Row {
        shows: "layout 2: targets",
        capacity: 100,
        starts: false,
        lines: r#"!migrate"}
!/
$+<
%+6(09:00)
!?bf3U007`3c`95U00","length":160}
!+7(09:05)
&>
!?bf3U007`ffffffff95U00","length":160}
!+7(09:05)
&>
!?b7U0095U00","length":160}
!+7(09:05)
!=
!?bf3U007`32`95U00","length":160}
!+7(09:05)
&>
"#,
        replies: r#"v -
^
^
^
^
^
~Yc302U.UUfc83ba010184ba01`003884ba01UUUUUUUUUU
^
^
~Yc302`400000.UUfc83ba010184ba01`003884ba01UUUUUUUUUU
^
^
| 7:CDM14
^
^
~Yc302U.UUfc83ba010184ba01`002e84ba01UUUUUUUUUU
"#,
    },
    Row {
        shows: "layout 2: local alerts",
        capacity: 100,
        starts: false,
        lines: r#"!migrate"}
!/
$+<
!@b7`ffff000095U00","length":160}
%+6(09:00)
!=
!@b7`0000010095U00","length":160}
%+6(09:00)
!=
"#,
        replies: r#"v -
^
^
^
^
| 7:LOC00,LOC01,LOC02,LOC03,LOC04,LOC05,LOC06,LOC07,LOC08,LOC09,LOC10,LOC11,LOC12,LOC13,LOC14,LOC15
^
^
| -
"#,
    },
    Row {
        shows: "layout 2: a target by a program of before",
        capacity: 100,
        starts: true,
        lines: r#"%+6(09:00)
!?bf3U007`3c`V
!migrate"}
!+7(09:05)
&>
"#,
        replies: r#"^
^
^
^
v -
^
~Yc302U.UUfc83ba010184ba01`003884ba01UUUUUUUUUU
"#,
    },
    Row {
        shows: "layout 2: all fields stay",
        capacity: 100,
        starts: true,
        lines: r#"$+2(10:15)
$+3(08:00)
%+4(09:10)
%+5(09:08)
%+6(09:00)
!+7(09:05)
*+8(09:06)
*+9(10:00)
%+10(10:01)
*+11(09:40)
&+12(09:55)
%+13(09:58)
%+14(10:02)
!migrate"}
&>
%+15(10:03)
%+16(10:12)
&>
"#,
        replies: r#"^
^
^
^
^
^
^
^
^
^
^
^
^
^
^
v -
~Yff7fU.4784ba01c083ba010484ba01fc83ba010184ba010284ba013884ba013984ba012484ba013384ba013684ba013a84ba01UUUUUU`00
^
^
~Yffff01`0000.4784ba01c083ba010484ba01fc83ba010184ba010284ba013884ba013984ba012484ba013384ba013684ba013a84ba013b84ba014484ba01UUUUU0000
"#,
    },
];

#[test]
fn part_1(rt: HostRuntime) {
    for row in &ROWS_1 {
        is_answered(&rt, rt.alloc(), row);
    }
}
