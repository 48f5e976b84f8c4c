//! Who may send what. Written by `bench/rows/rows.py`.
use crate::rows::{Row, is_answered};

static ROWS_1: [Row; 23] = [
    Row {
        shows: "who reports milestone 1",
        capacity: 100,
        starts: false,
        lines: r#"%+<
!+<
&+<
*+<
R+<
$+<
"#,
        replies: r#"_201
_201
_201
_201
_201
^
"#,
    },
    Row {
        shows: "who reports milestone 2",
        capacity: 100,
        starts: false,
        lines: r#"%+2(09:00)
!+2(09:00)
&+2(09:00)
*+2(09:00)
R+2(09:00)
$+2(09:00)
"#,
        replies: r#"_201
_201
_201
_201
_201
_202
"#,
    },
    Row {
        shows: "who reports milestone 3",
        capacity: 100,
        starts: false,
        lines: r#"%+3(09:00)
!+3(09:00)
&+3(09:00)
*+3(09:00)
R+3(09:00)
$+3(09:00)
"#,
        replies: r#"_201
_201
_201
_201
_201
_202
"#,
    },
    Row {
        shows: "who reports milestone 4",
        capacity: 100,
        starts: false,
        lines: r#"$+4(09:00)
!+4(09:00)
&+4(09:00)
*+4(09:00)
R+4(09:00)
%+4(09:00)
"#,
        replies: r#"_201
_201
_201
_201
_201
_202
"#,
    },
    Row {
        shows: "who reports milestone 5",
        capacity: 100,
        starts: false,
        lines: r#"$+5(09:00)
!+5(09:00)
&+5(09:00)
*+5(09:00)
R+5(09:00)
%+5(09:00)
"#,
        replies: r#"_201
_201
_201
_201
_201
_202
"#,
    },
    Row {
        shows: "who reports milestone 6",
        capacity: 100,
        starts: false,
        lines: r#"$+6(09:00)
!+6(09:00)
&+6(09:00)
*+6(09:00)
R+6(09:00)
%+6(09:00)
"#,
        replies: r#"_201
_201
_201
_201
_201
_202
"#,
    },
    Row {
        shows: "who reports milestone 7",
        capacity: 100,
        starts: false,
        lines: r#"$+7(09:00)
%+7(09:00)
&+7(09:00)
*+7(09:00)
R+7(09:00)
!+7(09:00)
"#,
        replies: r#"_201
_201
_201
_201
_201
_202
"#,
    },
    Row {
        shows: "who reports milestone 8",
        capacity: 100,
        starts: false,
        lines: r#"$+8(09:00)
%+8(09:00)
!+8(09:00)
&+8(09:00)
R+8(09:00)
*+8(09:00)
"#,
        replies: r#"_201
_201
_201
_201
_201
_202
"#,
    },
    Row {
        shows: "who reports milestone 9",
        capacity: 100,
        starts: false,
        lines: r#"$+9(09:00)
%+9(09:00)
!+9(09:00)
R+9(09:00)
&+9(09:00)
*+9(09:00)
"#,
        replies: r#"_201
_201
_201
_201
_202
_202
"#,
    },
    Row {
        shows: "who reports milestone 10",
        capacity: 100,
        starts: false,
        lines: r#"$+10(09:00)
!+10(09:00)
&+10(09:00)
*+10(09:00)
R+10(09:00)
%+10(09:00)
"#,
        replies: r#"_201
_201
_201
_201
_201
_202
"#,
    },
    Row {
        shows: "who reports milestone 11",
        capacity: 100,
        starts: false,
        lines: r#"$+11(09:00)
%+11(09:00)
!+11(09:00)
R+11(09:00)
&+11(09:00)
*+11(09:00)
"#,
        replies: r#"_201
_201
_201
_201
_202
_202
"#,
    },
    Row {
        shows: "who reports milestone 12",
        capacity: 100,
        starts: false,
        lines: r#"$+12(09:00)
%+12(09:00)
!+12(09:00)
R+12(09:00)
&+12(09:00)
*+12(09:00)
"#,
        replies: r#"_201
_201
_201
_201
_202
_202
"#,
    },
    Row {
        shows: "who reports milestone 13",
        capacity: 100,
        starts: false,
        lines: r#"$+13(09:00)
!+13(09:00)
&+13(09:00)
*+13(09:00)
R+13(09:00)
%+13(09:00)
"#,
        replies: r#"_201
_201
_201
_201
_201
_202
"#,
    },
    Row {
        shows: "who reports milestone 14",
        capacity: 100,
        starts: false,
        lines: r#"$+14(09:00)
!+14(09:00)
&+14(09:00)
*+14(09:00)
R+14(09:00)
%+14(09:00)
"#,
        replies: r#"_201
_201
_201
_201
_201
_202
"#,
    },
    Row {
        shows: "who reports milestone 15",
        capacity: 100,
        starts: false,
        lines: r#"$+15(09:00)
&+15(09:00)
*+15(09:00)
R+15(09:00)
%+15(09:00)
!+15(09:00)
"#,
        replies: r#"_201
_201
_201
_201
_202
_202
"#,
    },
    Row {
        shows: "who reports milestone 16",
        capacity: 100,
        starts: false,
        lines: r#"$+16(09:00)
!+16(09:00)
&+16(09:00)
*+16(09:00)
R+16(09:00)
%+16(09:00)
"#,
        replies: r#"_201
_201
_201
_201
_201
_202
"#,
    },
    Row {
        shows: "who schedules",
        capacity: 100,
        starts: false,
        lines: r#"$/
%/
!/
&/
*/
R/
"#,
        replies: r#"_201
_201
^
_201
_201
_201
"#,
    },
    Row {
        shows: "who loads",
        capacity: 100,
        starts: false,
        lines: r#"$S9,"kind":"alert","program":"b7U00V
%S9,"kind":"alert","program":"b7U00V
!S9,"kind":"alert","program":"b7U00V
&S9,"kind":"alert","program":"b7U00V
*S9,"kind":"alert","program":"b7U00V
RS9,"kind":"alert","program":"b7U00V
"#,
        replies: r#"_201
_201
^
_201
_201
_201
"#,
    },
    Row {
        shows: "who unloads",
        capacity: 100,
        starts: false,
        lines: r#"$unS9,"kind":"alert"}
%unS9,"kind":"alert"}
!unS9,"kind":"alert"}
&unS9,"kind":"alert"}
*unS9,"kind":"alert"}
RunS9,"kind":"alert"}
"#,
        replies: r#"_201
_201
_321
_201
_201
_201
"#,
    },
    Row {
        shows: "who ticks",
        capacity: 100,
        starts: false,
        lines: r#"$X
%X
!X
&X
*X
RX
"#,
        replies: r#"_201
_201
^
_201
_201
_201
"#,
    },
    Row {
        shows: "who migrates",
        capacity: 100,
        starts: false,
        lines: r#"$migrate"}
%migrate"}
&migrate"}
*migrate"}
Rmigrate"}
!migrate"}
Rmigrate"}
!migrate"}
"#,
        replies: r#"_201
_201
_201
_201
_201
v -
_201
_324
"#,
    },
    Row {
        shows: "who de-ices",
        capacity: 100,
        starts: false,
        lines: r#"$qeczt"(10:00)
%qeczt"(10:00)
!qeczt"(10:00)
&qeczt"(10:00)
*qeczt"(10:00)
Rqeczt"(10:00)
"#,
        replies: r#"_201
_201
_201
_201
_201
_325
"#,
    },
    Row {
        shows: "who asks",
        capacity: 100,
        starts: false,
        lines: r#"$>
$=
%>
%=
!>
!=
&>
&=
*>
*=
R>
R=
"#,
        replies: r#"_202
| -
_202
| -
_202
| -
_202
| -
_202
| -
_202
| -
"#,
    },
];

#[test]
fn part_1(rt: HostRuntime) {
    for row in &ROWS_1 {
        is_answered(&rt, rt.alloc(), row);
    }
}
