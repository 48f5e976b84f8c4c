//! Local alerts. Written by `bench/rows/rows.py`.
use crate::rows::{Row, is_answered};

static ROWS_1: [Row; 26] = [
    Row {
        shows: "local: LOC00",
        capacity: 100,
        starts: true,
        lines: r#"!@b7`01`V
%+6(09:00)
!=
&>
"#,
        replies: r#"^
^
^
^
| 7:LOC00
~Y43`00000100jUUfc83ba01UUUUUU`00
"#,
    },
    Row {
        shows: "local: LOC01",
        capacity: 100,
        starts: true,
        lines: r#"!@b7`02`V
%+6(09:00)
!=
&>
"#,
        replies: r#"^
^
^
^
| 7:LOC01
~Y43`00000200jUUfc83ba01UUUUUU`00
"#,
    },
    Row {
        shows: "local: LOC02",
        capacity: 100,
        starts: true,
        lines: r#"!@b7`04`V
%+6(09:00)
!=
&>
"#,
        replies: r#"^
^
^
^
| 7:LOC02
~Y43`00000400jUUfc83ba01UUUUUU`00
"#,
    },
    Row {
        shows: "local: LOC03",
        capacity: 100,
        starts: true,
        lines: r#"!@b7`08`V
%+6(09:00)
!=
&>
"#,
        replies: r#"^
^
^
^
| 7:LOC03
~Y43`00000800jUUfc83ba01UUUUUU`00
"#,
    },
    Row {
        shows: "local: LOC04",
        capacity: 100,
        starts: true,
        lines: r#"!@b7`1`0V
%+6(09:00)
!=
&>
"#,
        replies: r#"^
^
^
^
| 7:LOC04
~Y43`00001000jUUfc83ba01UUUUUU`00
"#,
    },
    Row {
        shows: "local: LOC05",
        capacity: 100,
        starts: true,
        lines: r#"!@b7`2`0V
%+6(09:00)
!=
&>
"#,
        replies: r#"^
^
^
^
| 7:LOC05
~Y43`00002000jUUfc83ba01UUUUUU`00
"#,
    },
    Row {
        shows: "local: LOC06",
        capacity: 100,
        starts: true,
        lines: r#"!@b7`4`0V
%+6(09:00)
!=
&>
"#,
        replies: r#"^
^
^
^
| 7:LOC06
~Y43`00004000jUUfc83ba01UUUUUU`00
"#,
    },
    Row {
        shows: "local: LOC07",
        capacity: 100,
        starts: true,
        lines: r#"!@b7`8`0V
%+6(09:00)
!=
&>
"#,
        replies: r#"^
^
^
^
| 7:LOC07
~Y43`00008000jUUfc83ba01UUUUUU`00
"#,
    },
    Row {
        shows: "local: LOC08",
        capacity: 100,
        starts: true,
        lines: r#"!@b7`00010000V
%+6(09:00)
!=
&>
"#,
        replies: r#"^
^
^
^
| 7:LOC08
~Y43U01jUUfc83ba01UUUUUU`00
"#,
    },
    Row {
        shows: "local: LOC09",
        capacity: 100,
        starts: true,
        lines: r#"!@b7`00020000V
%+6(09:00)
!=
&>
"#,
        replies: r#"^
^
^
^
| 7:LOC09
~Y43U02jUUfc83ba01UUUUUU`00
"#,
    },
    Row {
        shows: "local: LOC10",
        capacity: 100,
        starts: true,
        lines: r#"!@b7`00040000V
%+6(09:00)
!=
&>
"#,
        replies: r#"^
^
^
^
| 7:LOC10
~Y43U04jUUfc83ba01UUUUUU`00
"#,
    },
    Row {
        shows: "local: LOC11",
        capacity: 100,
        starts: true,
        lines: r#"!@b7`00080000V
%+6(09:00)
!=
&>
"#,
        replies: r#"^
^
^
^
| 7:LOC11
~Y43U08jUUfc83ba01UUUUUU`00
"#,
    },
    Row {
        shows: "local: LOC12",
        capacity: 100,
        starts: true,
        lines: r#"!@b7`00100000V
%+6(09:00)
!=
&>
"#,
        replies: r#"^
^
^
^
| 7:LOC12
~Y43U10jUUfc83ba01UUUUUU`00
"#,
    },
    Row {
        shows: "local: LOC13",
        capacity: 100,
        starts: true,
        lines: r#"!@b7`00200000V
%+6(09:00)
!=
&>
"#,
        replies: r#"^
^
^
^
| 7:LOC13
~Y43U20jUUfc83ba01UUUUUU`00
"#,
    },
    Row {
        shows: "local: LOC14",
        capacity: 100,
        starts: true,
        lines: r#"!@b7`00400000V
%+6(09:00)
!=
&>
"#,
        replies: r#"^
^
^
^
| 7:LOC14
~Y43U40jUUfc83ba01UUUUUU`00
"#,
    },
    Row {
        shows: "local: LOC15",
        capacity: 100,
        starts: true,
        lines: r#"!@b7`00800000V
%+6(09:00)
!=
&>
"#,
        replies: r#"^
^
^
^
| 7:LOC15
~Y43U80jUUfc83ba01UUUUUU`00
"#,
    },
    Row {
        shows: "local: all",
        capacity: 100,
        starts: true,
        lines: r#"!@b7`ffff0000V
%+6(09:00)
!=
!@b7U00V
%+6(09:00)
!=
"#,
        replies: r#"^
^
^
^
| 7:LOC00,LOC01,LOC02,LOC03,LOC04,LOC05,LOC06,LOC07,LOC08,LOC09,LOC10,LOC11,LOC12,LOC13,LOC14,LOC15
^
^
| -
"#,
    },
    Row {
        shows: "local: the low 16 bits alone",
        capacity: 100,
        starts: true,
        lines: r#"!@b7`00000100V
%+6(09:00)
!=
"#,
        replies: r#"^
^
^
^
| -
"#,
    },
    Row {
        shows: "local: the low 16 bits of all",
        capacity: 100,
        starts: true,
        lines: r#"!@18`0200ffff`00ffffffffV
%+6(09:00)
!=
"#,
        replies: r#"^
^
^
^
| 7:LOC01
"#,
    },
    Row {
        shows: "local: they stay without a program",
        capacity: 100,
        starts: true,
        lines: r#"!@b7`02`V
%+6(09:00)
!unS6,"kind":"alert"}
%+6(09:00)
!=
"#,
        replies: r#"^
^
^
^
^
^
| 7:LOC01
"#,
    },
    Row {
        shows: "local: an unload of one kind alone",
        capacity: 100,
        starts: true,
        lines: r#"!S6,"kind":"tobt","program":"bf3U007`3c`V
!@b7`02`V
!unS6,"kind":"tobt"}
%+6(09:00)
!=
!S6,"kind":"tobt","program":"bf3U007`3c`V
!unS6,"kind":"alert"}
%+6(09:00)
&>
"#,
        replies: r#"^
^
^
^
^
^
| 7:LOC01
^
^
^
~Y4302`000200jUUfc83ba01U00003884ba01UUUU`00
"#,
    },
    Row {
        shows: "local: they stay at a report of another",
        capacity: 100,
        starts: true,
        lines: r#"!@b7`02`V
%+6(09:00)
*+9(10:00)
!=
"#,
        replies: r#"^
^
^
^
^
| 7:LOC01
"#,
    },
    Row {
        shows: "local: they stay at a schedule and a tick",
        capacity: 100,
        starts: false,
        lines: r#"!S1,"kind":"alert","program":"b7`02`V
$+<
!=
!/
!=
!X
!=
"#,
        replies: r#"^
^
| 7:CDM01,LOC01
^
| 7:LOC01
^
| 7:LOC01
"#,
    },
    Row {
        shows: "local: the milestone",
        capacity: 100,
        starts: true,
        lines: r#"!@bf4U0V
%+6(09:00)
!=
"#,
        replies: r#"^
^
^
^
| 7:LOC01,LOC02
"#,
    },
    Row {
        shows: "local: milestone 16",
        capacity: 100,
        starts: true,
        lines: r#"!S16,"kind":"alert","program":"bf4U0V
*+9(10:00)
%+10(10:01)
%+13(09:58)
%+14(10:02)
%+15(10:03)
%+16(10:12)
!=
"#,
        replies: r#"^
^
^
^
^
^
^
^
^
| 7:LOC04
"#,
    },
    Row {
        shows: "local: the moment",
        capacity: 100,
        starts: true,
        lines: r#"!@bf3U0V
%+6(09:00)
!=
"#,
        replies: r#"^
^
^
^
| 7:LOC02,LOC03,LOC04,LOC05,LOC06,LOC07,LOC08,LOC09,LOC15
"#,
    },
];

#[test]
fn part_1(rt: HostRuntime) {
    for row in &ROWS_1 {
        is_answered(&rt, rt.alloc(), row);
    }
}
