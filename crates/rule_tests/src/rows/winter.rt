//! Migrates, and times of de-icing. Written by `bench/rows/rows.py`.
use crate::rows::{Row, is_answered};

static ROWS_1: [Row; 23] = [
    Row {
        shows: "winter: an empty board is migrated",
        capacity: 100,
        starts: false,
        lines: r#"!migrate"}
!/
&>
"#,
        replies: r#"v -
^
~07U00444c4837`004133323`0004441494243U`00004544444d`0001`0020000028000a000c0002053884ba01UUUUUUUUUUUUUUU0000
"#,
    },
    Row {
        shows: "winter: a board with flights is migrated",
        capacity: 100,
        starts: true,
        lines: r#"$report","flight":8,"milestone":<
!migrate"}
&>
!=
"#,
        replies: r#"^
^
^
v -
~Y03U00.UUUUUUUUUUUUUU`00
| 8:CDM01
"#,
    },
    Row {
        shows: "winter: eczt is set and taken back",
        capacity: 100,
        starts: true,
        lines: r#"!migrate"}
Rqeczt"(10:00)
&>
Rqeczt"(01:00)
&>
Rqeczt","time":null}
&>
"#,
        replies: r#"^
^
v -
^
~Y03U00.UUUUUUUUU00003884ba01UUUU`00
^
~Y03U00.UUUUUUUUU00001c82ba01UUUU`00
^
~Y03U00.UUUUUUUUUUUUUU`00
"#,
    },
    Row {
        shows: "winter: eezt is set and taken back",
        capacity: 100,
        starts: true,
        lines: r#"!migrate"}
Rqeezt"(10:00)
&>
Rqeezt"(01:00)
&>
Rqeezt","time":null}
&>
"#,
        replies: r#"^
^
v -
^
~Y03U00.UUUUUUUUUU3884ba01UUUU
^
~Y03U00.UUUUUUUUUU1c82ba01UUUU
^
~Y03U00.UUUUUUUUUUUUUU`00
"#,
    },
    Row {
        shows: "winter: aczt is set and taken back",
        capacity: 100,
        starts: true,
        lines: r#"!migrate"}
Rqaczt"(10:00)
&>
Rqaczt"(01:00)
&>
Rqaczt","time":null}
&>
"#,
        replies: r#"^
^
v -
^
~Y03U00.UUUUUUUUUU`003884ba01UUU0000
^
~Y03U00.UUUUUUUUUU`001c82ba01UUU0000
^
~Y03U00.UUUUUUUUUUUUUU`00
"#,
    },
    Row {
        shows: "winter: aezt is set and taken back",
        capacity: 100,
        starts: true,
        lines: r#"!migrate"}
Rqaezt"(10:00)
&>
Rqaezt"(01:00)
&>
Rqaezt","time":null}
&>
"#,
        replies: r#"^
^
v -
^
~Y03U00.UUUUUUUUUUU00003884ba01UU`00
^
~Y03U00.UUUUUUUUUUU00001c82ba01UU`00
^
~Y03U00.UUUUUUUUUUUUUU`00
"#,
    },
    Row {
        shows: "winter: eezt is not before eczt",
        capacity: 100,
        starts: true,
        lines: r#"!migrate"}
Rqeczt"(10:00)
Rqeezt"(09:59)
Rqeezt"(10:00)
Rqeczt"(10:01)
Rqeezt","time":null}
Rqeczt"(10:01)
Rqeezt"(10:00)
"#,
        replies: r#"^
^
v -
^
_206
^
_206
^
^
_206
"#,
    },
    Row {
        shows: "winter: aezt is not before aczt",
        capacity: 100,
        starts: true,
        lines: r#"!migrate"}
Rqaczt"(10:00)
Rqaezt"(09:59)
Rqaezt"(10:00)
Rqaczt"(10:01)
Rqaezt","time":null}
Rqaczt"(10:01)
Rqaezt"(10:00)
"#,
        replies: r#"^
^
v -
^
_206
^
_206
^
^
_206
"#,
    },
    Row {
        shows: "winter: the two pairs are apart",
        capacity: 100,
        starts: true,
        lines: r#"!migrate"}
Rqeczt"(10:00)
Rqeezt"(10:30)
Rqaezt"(09:00)
Rqaczt"(08:00)
&>
Rqeezt","time":null}
Rqaczt","time":null}
&>
"#,
        replies: r#"^
^
v -
^
^
^
^
~Y03U00.UUUUUUUUU00003884ba015684ba01c083ba01fc83ba01UU`00
^
^
~Y03U00.UUUUUUUUU00003884ba01U0000fc83ba01UU`00
"#,
    },
    Row {
        shows: "winter: layout, flight, plan",
        capacity: 100,
        starts: false,
        lines: r#"Rdeice","flight":8,"field":"eczt"(10:00)
!migrate"}
Rqeczt"(10:00)
!/
Rqeczt"(10:00)
$+<
Rqeczt"(10:00)
"#,
        replies: r#"_325
v -
_202
^
_203
^
^
"#,
    },
    Row {
        shows: "winter: gone",
        capacity: 100,
        starts: true,
        lines: r#"*+9(10:00)
%+10(10:01)
%+13(09:58)
%+14(10:02)
%+15(10:03)
!migrate"}
Rqeczt"(10:00)
%+16(10:12)
Rqeezt"(09:00)
Rqeczt","time":null}
"#,
        replies: r#"^
^
^
^
^
^
^
v -
^
^
_204
_204
"#,
    },
    Row {
        shows: "winter: a time is a touch",
        capacity: 100,
        starts: false,
        lines: r#"1 29000749 APT {"cmd":"/
2 29000749 NM {"cmd":"+<
5 29000749 GH {"cmd":"+9(10:00)
2 29000749 NM {"cmd":"report","flight":8,"milestone":<
1 29000749 APT {"cmd":"migrate"}
1 29000750 APT {"cmd":"=
6 29000750 DIC {"cmd":"deice","flight":8,"field":"eczt"(10:00)
1 29000750 APT {"cmd":"=
6 29000750 DIC {"cmd":"qeczt"(09:00)
1 29000750 APT {"cmd":"=
"#,
        replies: r#"^
^
^
^
v -
| 8:CDM01
^
| 8:CDM01
^
| 7:CDM09;8:CDM01
"#,
    },
    Row {
        shows: "winter: a migrate is no touch",
        capacity: 100,
        starts: false,
        lines: r#"1 29000749 APT {"cmd":"/
2 29000749 NM {"cmd":"+<
5 29000749 GH {"cmd":"+9(10:00)
1 29000750 APT {"cmd":"migrate"}
1 29000750 APT {"cmd":"=
1 29000750 APT {"cmd":"X
1 29000750 APT {"cmd":"=
4 29000749 AO {"cmd":">
"#,
        replies: r#"^
^
^
v -
| -
^
| 7:CDM09
~Y0302`020000.UUUU3884ba01UUUUUUUUUU
"#,
    },
    Row {
        shows: "winter: local alerts and CDM14 stay",
        capacity: 100,
        starts: true,
        lines: r#"!@b7`02`V
!S6,"kind":"tobt","program":"bf3U007`ffffffffV
%+6(09:00)
!=
!migrate"}
!=
Rqeczt"(10:00)
!=
"#,
        replies: r#"^
^
^
^
^
| 7:CDM14,LOC01
v -
| 7:CDM14,LOC01
^
| 7:CDM14,LOC01
"#,
    },
    Row {
        shows: "winter: programs see the length",
        capacity: 100,
        starts: true,
        lines: r#"!@bf2U0V
%+6(09:00)
!=
!migrate"}
%+6(09:00)
!=
Rqeczt"(10:00)
!=
"#,
        replies: r#"^
^
^
^
| 7:LOC07
v -
^
| 7:LOC05,LOC07
^
| 7:LOC05,LOC07
"#,
    },
    Row {
        shows: "winter: a program reads a time of de-icing",
        capacity: 100,
        starts: true,
        lines: r#"!migrate"}
!@61108c`000095U00","length":160}
Rqaezt"(10:00)
!=
%+6(09:00)
!=
"#,
        replies: r#"^
^
v -
^
^
| -
^
| 7:LOC03,LOC04,LOC05,LOC10,LOC15
"#,
    },
    Row {
        shows: "winter: programs are unloaded",
        capacity: 100,
        starts: false,
        lines: r#"!S16,"kind":"alert","program":"250201008`0b7U00V
!S9,"kind":"alert","program":"b7U00V
!S16,"kind":"tobt","program":"250201008`0b7U00V
!S1,"kind":"tobt","program":"250201008`0b7U00V
!migrate"}
!unS16,"kind":"tobt"}
!unS16,"kind":"alert"}
!unS1,"kind":"tobt"}
!unS9,"kind":"alert"}
"#,
        replies: r#"^
^
^
^
v 1:tobt:308:2;16:tobt:308:2;16:alert:308:2
_321
_321
_321
^
"#,
    },
    Row {
        shows: "winter: an unloaded program runs no more",
        capacity: 100,
        starts: true,
        lines: r#"!@250201008`0b7`02`V
%+6(09:00)
!=
!migrate"}
%+6(09:00)
!=
&>
"#,
        replies: r#"^
^
^
^
| 7:LOC01
v 6:alert:308:2
^
| 7:LOC01
~Y43`00000200.UUfc83ba01UUUUUUUUUUUU
"#,
    },
    Row {
        shows: "winter: the same time again, and none, are touches",
        capacity: 100,
        starts: false,
        lines: r#"1 29000749 APT {"cmd":"/
2 29000749 NM {"cmd":"+<
5 29000749 GH {"cmd":"+9(10:00)
1 29000749 APT {"cmd":"migrate"}
6 29000749 DIC {"cmd":"qeczt"(10:00)
6 29000750 DIC {"cmd":"qeczt"(10:00)
1 29000750 APT {"cmd":"=
6 29000749 DIC {"cmd":"qeczt","time":null}
1 29000749 APT {"cmd":"=
6 29000750 DIC {"cmd":"qaezt","time":null}
1 29000750 APT {"cmd":"=
"#,
        replies: r#"^
^
^
v -
^
^
| 7:CDM09
^
| -
^
| 7:CDM09
"#,
    },
    Row {
        shows: "winter: each fault of a longer record",
        capacity: 100,
        starts: false,
        lines: r#"!S16,"kind":"tobt","program":"250202008`0b7U0095U00bf6U0b7U00V
!S3,"kind":"tobt","program":"250202008`0b7U0095U0071aU0b7U00V
!S2,"kind":"alert","program":"250202008`0b7U0095U0071a0f0ff`00b7U00V
!S9,"kind":"tobt","program":"250202008`0b7U0095U007201Ub7U00V
!S1,"kind":"tobt","program":"250202008`0b7U0095U0085`02`b7U00V
!@720a80ff`00bfa6U1f26U716U0V
!migrate"}
!unS6,"kind":"alert"}
"#,
        replies: r#"^
^
^
^
^
^
v 1:tobt:313:3;2:alert:310:3;3:tobt:309:3;6:alert:310:3;9:tobt:311:3;16:tobt:308:3
_321
"#,
    },
    Row {
        shows: "winter: the longer record has 160 bytes",
        capacity: 100,
        starts: false,
        lines: r#"!@150203009f`25020200a`0b7U0095U00bf6U0V
!migrate"}
!unS6,"kind":"alert"}
"#,
        replies: r#"^
v -
^
"#,
    },
    Row {
        shows: "winter: by milestone, and then by kind",
        capacity: 100,
        starts: false,
        lines: r#"!S1,"kind":"alert","program":"250201008`0b7U00V
!S16,"kind":"tobt","program":"250201008`0b7U00V
!S1,"kind":"tobt","program":"250201008`0b7U00V
!migrate"}
"#,
        replies: r#"^
^
^
v 1:tobt:308:2;1:alert:308:2;16:tobt:308:2
"#,
    },
    Row {
        shows: "winter: the length of a program",
        capacity: 100,
        starts: false,
        lines: r#"!?b7U0095U00","length":160}
$?b7U0095U00","length":160}
!?b7U0095U00","length":128}
!migrate"}
!?b7U00V
!?b7U0095U00","length":128}
!?b7U0095U00","length":160}
!?61109c`0000V
!?61109c`000095U00","length":160}
!?61109d`000095U00","length":160}
"#,
        replies: r#"_323
_201
^
v -
_323
_323
^
bad 309 0
^
bad 309 0
"#,
    },
];

#[test]
fn part_1(rt: HostRuntime) {
    for row in &ROWS_1 {
        is_answered(&rt, rt.alloc(), row);
    }
}

static ROWS_2: [Row; 2] = [
    Row {
        shows: "winter: the fields of a load",
        capacity: 100,
        starts: false,
        lines: r#"!?b7U0095U00","length":null}
!?b7U0095U00","length":"160"}
!?b7U0095U00","length":127}
!?b7U0095U00","length":129}
!?b7U0095U00","length":161}
!?95U00","length":0}
!?9z","length":null}
"#,
        replies: r#"bad 103
bad 103
bad 104
bad 104
bad 104
bad 104
bad 104
"#,
    },
    Row {
        shows: "winter: the fields of a time",
        capacity: 100,
        starts: false,
        lines: r#"Rdeice","flight":0,"field":"eczt"(10:00)
Rdeice","flight":"7","field":"eczt"(10:00)
Rqaobt"(10:00)
RqECZT"(10:00)
Rq"(10:00)
Rdeice","flight":7,"field":7(10:00)
Rdeice","flight":7,"field":null(10:00)
Rqeczt","time":7}
Rqeczt","time":"10:00"}
Rqeczt"}
Rdeice","flight":7}
"#,
        replies: r#"bad 104
bad 103
bad 104
bad 104
bad 104
bad 103
bad 103
bad 103
bad 104
bad 103
bad 103
"#,
    },
];

#[test]
fn part_2(rt: HostRuntime) {
    for row in &ROWS_2 {
        is_answered(&rt, rt.alloc(), row);
    }
}
