//! The entries and limits of the three helpers. Written by `bench/rows/rows.py`.
use crate::rows::{Row, is_answered};

static ROWS_1: [Row; 27] = [
    Row {
        shows: "helper 1 of 808596289",
        capacity: 100,
        starts: true,
        lines: r#"!@180100004133323U0000085`01`V
%+6(09:00)
!=
"#,
        replies: r#"^
^
^
^
| 7:LOC00,LOC02,LOC03,LOC05
"#,
    },
    Row {
        shows: "helper 1 of 942880578",
        capacity: 100,
        starts: true,
        lines: r#"!@1801000042373338U000085`01`V
%+6(09:00)
!=
"#,
        replies: r#"^
^
^
^
| 7:LOC00,LOC02,LOC03,LOC05
"#,
    },
    Row {
        shows: "helper 1 of 943207233",
        capacity: 100,
        starts: true,
        lines: r#"!@1801000041333838U000085`01`V
%+6(09:00)
!=
"#,
        replies: r#"^
^
^
^
| 7:LOC03,LOC04,LOC05,LOC06
"#,
    },
    Row {
        shows: "helper 1 of 0",
        capacity: 100,
        starts: true,
        lines: r#"!@1801UU000085`01`V
%+6(09:00)
!=
"#,
        replies: r#"^
^
^
^
| 7:LOC02,LOC03,LOC04,LOC05
"#,
    },
    Row {
        shows: "helper 1 of 4294967295",
        capacity: 100,
        starts: true,
        lines: r#"!@18010000ffffffffU000085`01`V
%+6(09:00)
!=
"#,
        replies: r#"^
^
^
^
| 7:LOC02,LOC03,LOC04,LOC05
"#,
    },
    Row {
        shows: "helper 1 of 808596290",
        capacity: 100,
        starts: true,
        lines: r#"!@180100004233323U0000085`01`V
%+6(09:00)
!=
"#,
        replies: r#"^
^
^
^
| 7:LOC02,LOC03,LOC04,LOC05
"#,
    },
    Row {
        shows: "helper 1: argument 1",
        capacity: 100,
        starts: false,
        lines: r#"!@1801UU000085`01`V
!@18010000ffffffffU000085`01`V
!@1801U`0001`85`01`V
!@18010000ffffffff`00ffffffff85`01`V
"#,
        replies: r#"^
^
bad 313 2
bad 313 2
"#,
    },
    Row {
        shows: "helper 1: its answers",
        capacity: 100,
        starts: false,
        lines: r#"!@1801UU000085`01`18060000a005U`002d6001`000095U00bf7U0V
!@1801UU000085`01`180600009f05U`002d6001`000095U00bf7U0V
!@1801UU000085`01`1806000001U`0000ad6001`000095U00bf7U0V
!@1801UU000085`01`1806000002U`0000ad6001`000095U00bf7U0V
"#,
        replies: r#"^
bad 308 7
^
bad 308 7
"#,
    },
    Row {
        shows: "helper 2 of 12",
        capacity: 100,
        starts: true,
        lines: r#"!@180100000cU`000085`02`V
%+6(09:00)
!=
"#,
        replies: r#"^
^
^
^
| 7:LOC01,LOC03
"#,
    },
    Row {
        shows: "helper 2 of 120",
        capacity: 100,
        starts: true,
        lines: r#"!@1801000078U`000085`02`V
%+6(09:00)
!=
"#,
        replies: r#"^
^
^
^
| 7:LOC00,LOC01,LOC02,LOC03
"#,
    },
    Row {
        shows: "helper 2 of 900",
        capacity: 100,
        starts: true,
        lines: r#"!@180100008403U`0085`02`V
%+6(09:00)
!=
"#,
        replies: r#"^
^
^
^
| 7:LOC02,LOC04
"#,
    },
    Row {
        shows: "helper 2 of 0",
        capacity: 100,
        starts: true,
        lines: r#"!@1801UU000085`02`V
%+6(09:00)
!=
"#,
        replies: r#"^
^
^
^
| 7:LOC01,LOC03
"#,
    },
    Row {
        shows: "helper 2 of 99",
        capacity: 100,
        starts: true,
        lines: r#"!@1801000063U`000085`02`V
%+6(09:00)
!=
"#,
        replies: r#"^
^
^
^
| 7:LOC01,LOC03
"#,
    },
    Row {
        shows: "helper 2 of 100",
        capacity: 100,
        starts: true,
        lines: r#"!@1801000064U`000085`02`V
%+6(09:00)
!=
"#,
        replies: r#"^
^
^
^
| 7:LOC00,LOC01,LOC02,LOC03
"#,
    },
    Row {
        shows: "helper 2 of 499",
        capacity: 100,
        starts: true,
        lines: r#"!@18010000f301U`0085`02`V
%+6(09:00)
!=
"#,
        replies: r#"^
^
^
^
| 7:LOC00,LOC01,LOC02,LOC03
"#,
    },
    Row {
        shows: "helper 2 of 500",
        capacity: 100,
        starts: true,
        lines: r#"!@18010000f401U`0085`02`V
%+6(09:00)
!=
"#,
        replies: r#"^
^
^
^
| 7:LOC02,LOC04
"#,
    },
    Row {
        shows: "helper 2 of 999",
        capacity: 100,
        starts: true,
        lines: r#"!@18010000e703U`0085`02`V
%+6(09:00)
!=
"#,
        replies: r#"^
^
^
^
| 7:LOC02,LOC04
"#,
    },
    Row {
        shows: "helper 2: argument 1",
        capacity: 100,
        starts: false,
        lines: r#"!@1801UU000085`02`V
!@18010000e703U`0085`02`V
!@18010000e803U`0085`02`V
!@18010000ffffffff`00ffffffff85`02`V
"#,
        replies: r#"^
^
bad 313 2
bad 313 2
"#,
    },
    Row {
        shows: "helper 2: its answers",
        capacity: 100,
        starts: false,
        lines: r#"!@1801UU000085`02`180600003cU`00002d6001`000095U00bf7U0V
!@1801UU000085`02`180600003bU`00002d6001`000095U00bf7U0V
!@1801UU000085`02`1806000001U`0000ad6001`000095U00bf7U0V
!@1801UU000085`02`1806000002U`0000ad6001`000095U00bf7U0V
"#,
        replies: r#"^
bad 308 7
^
bad 308 7
"#,
    },
    Row {
        shows: "helper 3 of 7 5",
        capacity: 100,
        starts: true,
        lines: r#"!@1801000007U`00001802000005U`000085`03`V
%+6(09:00)
!=
"#,
        replies: r#"^
^
^
^
| 7:LOC02,LOC03
"#,
    },
    Row {
        shows: "helper 3 of 0 0",
        capacity: 100,
        starts: true,
        lines: r#"!@1801UU00001802UU000085`03`V
%+6(09:00)
!=
"#,
        replies: r#"^
^
^
^
| -
"#,
    },
    Row {
        shows: "helper 3 of 0 1",
        capacity: 100,
        starts: true,
        lines: r#"!@1801UU00001802000001U`000085`03`V
%+6(09:00)
!=
"#,
        replies: r#"^
^
^
^
| 7:LOC00
"#,
    },
    Row {
        shows: "helper 3 of 4294967295 10000",
        capacity: 100,
        starts: true,
        lines: r#"!@18010000ffffffffU0000180200001027U`0085`03`V
%+6(09:00)
!=
"#,
        replies: r#"^
^
^
^
| 7:LOC00,LOC01,LOC02,LOC03,LOC08,LOC09,LOC10,LOC13
"#,
    },
    Row {
        shows: "helper 3 of 29000700 60",
        capacity: 100,
        starts: true,
        lines: r#"!@18010000fc83ba01U0000180200003cU`000085`03`V
%+6(09:00)
!=
"#,
        replies: r#"^
^
^
^
| 7:LOC03,LOC04,LOC05,LOC10,LOC15
"#,
    },
    Row {
        shows: "helper 3: argument 1",
        capacity: 100,
        starts: false,
        lines: r#"!@1802UU00001801UU000085`03`V
!@1802UU000018010000ffffffffU000085`03`V
!@1802UU00001801U`0001`85`03`V
!@1802UU000018010000ffffffff`00ffffffff85`03`V
"#,
        replies: r#"^
^
bad 313 4
bad 313 4
"#,
    },
    Row {
        shows: "helper 3: argument 2",
        capacity: 100,
        starts: false,
        lines: r#"!@1801UU00001802UU000085`03`V
!@1801UU0000180200001027U`0085`03`V
!@1801UU0000180200001127U`0085`03`V
!@1801UU000018020000ffffffff`00ffffffff85`03`V
"#,
        replies: r#"^
^
bad 313 4
bad 313 4
"#,
    },
    Row {
        shows: "helper 3: its answers",
        capacity: 100,
        starts: false,
        lines: r#"!@1801UU00001802UU000085`03`180600000f27U01`2d6001`000095U00bf7U0V
!@1801UU00001802UU000085`03`180600000e27U01`2d6001`000095U00bf7U0V
!@1801UU00001802UU000085`03`1806UU0000ad6001`000095U00bf7U0V
!@1801UU00001802UU000085`03`1806000001U`0000ad6001`000095U00bf7U0V
"#,
        replies: r#"^
bad 308 9
^
bad 308 9
"#,
    },
];

#[test]
fn part_1(rt: HostRuntime) {
    for row in &ROWS_1 {
        is_answered(&rt, rt.alloc(), row);
    }
}
