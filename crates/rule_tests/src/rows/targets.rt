//! What comes of the answer of a program of kind `tobt`. Written by `bench/rows/rows.py`.
use crate::rows::{Row, is_answered};

static ROWS_1: [Row; 31] = [
    Row {
        shows: "target: 0 suggests nothing",
        capacity: 100,
        starts: true,
        lines: r#"!?b7U00V
%+6(09:00)
!+7(09:05)
&>
"#,
        replies: r#"^
^
^
^
^
~Yc3U00jUUfc83ba010184ba01UUUUUU
"#,
    },
    Row {
        shows: "target: now",
        capacity: 100,
        starts: true,
        lines: r#"!?bf3U0V
%+6(09:00)
!+7(09:05)
&>
"#,
        replies: r#"^
^
^
^
^
~Yc302`830000jUUfc83ba010184ba01`00fc83ba01UUUU`00
"#,
    },
    Row {
        shows: "target: a day later",
        capacity: 100,
        starts: true,
        lines: r#"!?bf3U007`a0050000V
%+6(09:00)
!+7(09:05)
&>
"#,
        replies: r#"^
^
^
^
^
~Yc302`010000jUUfc83ba010184ba01`009c89ba01UUUU`00
"#,
    },
    Row {
        shows: "target: a minute more than a day later",
        capacity: 100,
        starts: true,
        lines: r#"!?bf3U007`a1050000V
%+6(09:00)
!+7(09:05)
&>
"#,
        replies: r#"^
^
^
^
^
~Yc3`00400000jUUfc83ba010184ba01UUUUUU
"#,
    },
    Row {
        shows: "target: a minute before",
        capacity: 100,
        starts: true,
        lines: r#"!?bf3U007`ffffffffV
%+6(09:00)
!+7(09:05)
&>
"#,
        replies: r#"^
^
^
^
^
~Yc3`00400000jUUfc83ba010184ba01UUUUUU
"#,
    },
    Row {
        shows: "target: 2^32",
        capacity: 100,
        starts: true,
        lines: r#"!?18U`000001`V
%+6(09:00)
!+7(09:05)
&>
"#,
        replies: r#"^
^
^
^
^
~Yc3`00400000jUUfc83ba010184ba01UUUUUU
"#,
    },
    Row {
        shows: "target: 2^32 and the moment",
        capacity: 100,
        starts: true,
        lines: r#"!?18`fc83ba01`0001`V
%+6(09:00)
!+7(09:05)
&>
"#,
        replies: r#"^
^
^
^
^
~Yc3`00400000jUUfc83ba010184ba01UUUUUU
"#,
    },
    Row {
        shows: "target: 2^64 - 1",
        capacity: 100,
        starts: true,
        lines: r#"!?18`ffffffff`00ffffffffV
%+6(09:00)
!+7(09:05)
&>
"#,
        replies: r#"^
^
^
^
^
~Yc3`00400000jUUfc83ba010184ba01UUUUUU
"#,
    },
    Row {
        shows: "target: 1",
        capacity: 100,
        starts: true,
        lines: r#"!?b7`01`V
%+6(09:00)
!+7(09:05)
&>
"#,
        replies: r#"^
^
^
^
^
~Yc3`00400000jUUfc83ba010184ba01UUUUUU
"#,
    },
    Row {
        shows: "target: the last minute",
        capacity: 100,
        starts: false,
        lines: r#"1 4294967295 APT {"cmd":"/
2 4294967295 NM {"cmd":"+<
1 4294967295 APT {"cmd":"S4,"kind":"tobt","program":"bf3U0V
3 4294967295 ATC {"cmd":"+4(09:10)
4 4294967295 AO {"cmd":">
"#,
        replies: r#"^
^
^
^
~Y1302`030000jU00000684ba01UUffffffffUUUU`00
"#,
    },
    Row {
        shows: "target: past the last minute",
        capacity: 100,
        starts: false,
        lines: r#"1 4294967295 APT {"cmd":"/
2 4294967295 NM {"cmd":"+<
1 4294967295 APT {"cmd":"S4,"kind":"tobt","program":"bf3U007`01`V
3 4294967295 ATC {"cmd":"+4(09:10)
4 4294967295 AO {"cmd":">
"#,
        replies: r#"^
^
^
^
~Y13`00400000jU00000684ba01UUUUUUU0000
"#,
    },
    Row {
        shows: "target: its own report",
        capacity: 100,
        starts: true,
        lines: r#"!?611058`0000V
%+6(09:00)
!+7(09:05)
&>
"#,
        replies: r#"^
^
^
^
^
~Yc302`830000jUUfc83ba010184ba01`000184ba01UUUU`00
"#,
    },
    Row {
        shows: "target: 0 with a target",
        capacity: 100,
        starts: true,
        lines: r#"!?b7U00V
%+6(09:00)
*+9(10:00)
!+7(09:05)
&>
"#,
        replies: r#"^
^
^
^
^
^
~Yc302UjUUfc83ba010184ba01`003884ba01UUUU`00
"#,
    },
    Row {
        shows: "target: unusable with a target",
        capacity: 100,
        starts: true,
        lines: r#"!?bf3U007`ffffffffV
%+6(09:00)
*+9(10:00)
!+7(09:05)
&>
"#,
        replies: r#"^
^
^
^
^
^
~Yc302`400000jUUfc83ba010184ba01`003884ba01UUUU`00
"#,
    },
    Row {
        shows: "target: usable with a target",
        capacity: 100,
        starts: true,
        lines: r#"!?bf3U007`32`V
%+6(09:00)
*+9(10:00)
!+7(09:05)
&>
"#,
        replies: r#"^
^
^
^
^
^
~Yc302UjUUfc83ba010184ba01`002e84ba01UUUU`00
"#,
    },
    Row {
        shows: "target: 0 after an unusable one",
        capacity: 100,
        starts: true,
        lines: r#"!?bf3U007`ffffffffV
%+6(09:00)
!+7(09:05)
!+7(09:05)
!=
!?b7U00V
!+7(09:05)
!=
&>
"#,
        replies: r#"^
^
^
^
^
^
| 7:CDM14
^
^
| 7:CDM14
~Yc3`00400000jUUfc83ba010184ba01UUUUUU
"#,
    },
    Row {
        shows: "target: usable after an unusable one",
        capacity: 100,
        starts: true,
        lines: r#"!?bf3U007`ffffffffV
%+6(09:00)
!+7(09:05)
!=
!?bf3U007`3c`V
!+7(09:05)
!=
&>
"#,
        replies: r#"^
^
^
^
^
| 7:CDM14
^
^
| -
~Yc302UjUUfc83ba010184ba01`003884ba01UUUU`00
"#,
    },
    Row {
        shows: "target: the target that stands, after an unusable one",
        capacity: 100,
        starts: true,
        lines: r#"%+6(09:00)
*+9(10:00)
!?bf3U007`ffffffffV
!+7(09:05)
!=
!?bf3U007`3c`V
!+7(09:05)
!=
&>
"#,
        replies: r#"^
^
^
^
^
^
| 7:CDM14
^
^
| -
~Yc302UjUUfc83ba010184ba01`003884ba01UUUU`00
"#,
    },
    Row {
        shows: "target: CDM14 stays at other touches",
        capacity: 100,
        starts: true,
        lines: r#"!?bf3U007`ffffffffV
%+6(09:00)
!+7(09:05)
!X
!=
!unS7,"kind":"tobt"}
!+7(09:05)
!=
*+9(10:00)
!=
"#,
        replies: r#"^
^
^
^
^
^
| 7:CDM14
^
^
| 7:CDM14
^
| 7:CDM14
"#,
    },
    Row {
        shows: "target: CDM14 stays at a schedule",
        capacity: 100,
        starts: false,
        lines: r#"!S1,"kind":"tobt","program":"bf3U007`ffffffffV
$+<
!=
!/
!=
"#,
        replies: r#"^
^
| 7:CDM01,CDM14
^
| 7:CDM14
"#,
    },
    Row {
        shows: "target: before the approval",
        capacity: 100,
        starts: true,
        lines: r#"!S13,"kind":"tobt","program":"bf3U007`32`V
*+9(10:00)
%+10(10:01)
%+13(09:58)
&>
"#,
        replies: r#"^
^
^
^
^
^
~Y0326UjUUUU2e84ba013984ba01U00003684ba01UU
"#,
    },
    Row {
        shows: "target: with the approval",
        capacity: 100,
        starts: true,
        lines: r#"!S14,"kind":"tobt","program":"bf3U007`32`V
*+9(10:00)
%+10(10:01)
%+13(09:58)
%+14(10:02)
&>
"#,
        replies: r#"^
^
^
^
^
^
^
~Y0366`400000jUUUU3884ba013984ba01U00003684ba013a84ba01U0000
"#,
    },
    Row {
        shows: "target: after the approval",
        capacity: 100,
        starts: true,
        lines: r#"!S12,"kind":"tobt","program":"bf3U007`32`V
*+9(10:00)
%+10(10:01)
%+13(09:58)
%+14(10:02)
&+12(09:55)
&>
"#,
        replies: r#"^
^
^
^
^
^
^
^
~Y0376`400000jUUUU3884ba013984ba01`003384ba013684ba013a84ba01U0000
"#,
    },
    Row {
        shows: "target: 0 after the approval",
        capacity: 100,
        starts: true,
        lines: r#"!S12,"kind":"tobt","program":"b7U00V
*+9(10:00)
%+10(10:01)
%+13(09:58)
%+14(10:02)
&+12(09:55)
&>
"#,
        replies: r#"^
^
^
^
^
^
^
^
~Y0376UjUUUU3884ba013984ba01`003384ba013684ba013a84ba01U0000
"#,
    },
    Row {
        shows: "target: off-block",
        capacity: 100,
        starts: true,
        lines: r#"!S15,"kind":"tobt","program":"bf3U007`32`V
*+9(10:00)
%+10(10:01)
%+13(09:58)
%+14(10:02)
%+15(10:03)
&>
"#,
        replies: r#"^
^
^
^
^
^
^
^
~Y03e6`400000jUUUU3884ba013984ba01U00003684ba013a84ba013b84ba01`00
"#,
    },
    Row {
        shows: "target: no further program",
        capacity: 100,
        starts: true,
        lines: r#"!?bf3U007`3c`V
!S9,"kind":"alert","program":"b7`03`V
!S9,"kind":"tobt","program":"bf3U007`ffffffffV
%+6(09:00)
!+7(09:05)
!=
&>
"#,
        replies: r#"^
^
^
^
^
^
^
| -
~Yc302UjUUfc83ba010184ba01`003884ba01UUUU`00
"#,
    },
    Row {
        shows: "target: the alert word is the old one",
        capacity: 100,
        starts: false,
        lines: r#"!S4,"kind":"alert","program":"611034`0000V
!/
$+1(10:01:00Z",J}
%+4(09:17)
!=
%+4(09:17)
!=
"#,
        replies: r#"^
^
^
^
| 7:CDM02,CDM07,LOC02
^
| 7:CDM02,CDM07,LOC02,LOC07
"#,
    },
    Row {
        shows: "target: the alert program sees the target",
        capacity: 100,
        starts: true,
        lines: r#"!?bf3U007`3c`V
!S7,"kind":"alert","program":"61106`00000V
%+6(09:00)
!+7(09:05)
!=
"#,
        replies: r#"^
^
^
^
^
^
| 7:LOC03,LOC04,LOC05,LOC10,LOC15
"#,
    },
    Row {
        shows: "target: the alert program sees milestone 9",
        capacity: 100,
        starts: true,
        lines: r#"!?bf3U007`3c`V
!S7,"kind":"alert","program":"61103`00000V
%+6(09:00)
!+7(09:05)
!=
"#,
        replies: r#"^
^
^
^
^
^
| 7:LOC00,LOC01,LOC06,LOC07,LOC09
"#,
    },
    Row {
        shows: "target: the alert program sees CDM14",
        capacity: 100,
        starts: true,
        lines: r#"!?bf3U007`ffffffffV
!S7,"kind":"alert","program":"611034`0000V
%+6(09:00)
!+7(09:05)
!=
"#,
        replies: r#"^
^
^
^
^
^
| 7:CDM14,LOC14
"#,
    },
    Row {
        shows: "target: a refused report runs no program",
        capacity: 100,
        starts: true,
        lines: r#"!?bf3U007`3c`V
!S7,"kind":"alert","program":"b7`01`V
%+6(09:00)
!+7(08:59)
!=
&>
"#,
        replies: r#"^
^
^
^
^
_206
| -
~Y43U00jUUfc83ba01UUUUUU`00
"#,
    },
];

#[test]
fn part_1(rt: HostRuntime) {
    for row in &ROWS_1 {
        is_answered(&rt, rt.alloc(), row);
    }
}
