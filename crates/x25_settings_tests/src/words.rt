use x25_settings::{
    Asked, At, Command, Decoding, End, GivenTimes, Judging, Place, Refusal, Simulation,
    StationOptions, Task, Why, settings,
};

const DEFAULTS: StationOptions = StationOptions {
    long: false,
    say_sizes: false,
    wide: false,
    k: 7,
    n2: 10,
    channels: 1,
    incoming: 0,
    outgoing: 0,
    message: 65_535,
};

const PLAIN_DECODING: Decoding = Decoding {
    long: false,
    loose: false,
    wide: false,
};

const PLAIN_JUDGING: Judging = Judging {
    long: false,
    loose: false,
    manners: false,
    strict: false,
    wide: false,
    k: 7,
    size: 128,
    window: 2,
    at: At::Either,
};

fn judging_at(at: At) -> Task {
    Task::Judge(Judging {
        at,
        ..PLAIN_JUDGING
    })
}

fn simulation(down: bool, tap: bool, station: StationOptions) -> Task {
    Task::Sim(Simulation {
        down,
        tap,
        events: false,
        loose: false,
        station,
    })
}

fn place(end: End, station: StationOptions) -> Task {
    Task::Station(Place {
        end,
        station,
        clock: None,
        loose: false,
        reasons: false,
    })
}

const USUAL_TIMES: GivenTimes = GivenTimes {
    t1: None,
    t3: None,
    t20: None,
    t21: None,
    t22: None,
    t23: None,
    t25: None,
    t26: None,
};

/// A station with a clock.
fn timed(end: End, times: GivenTimes) -> Task {
    Task::Station(Place {
        end,
        station: DEFAULTS,
        clock: Some(times),
        loose: false,
        reasons: false,
    })
}

#[test]
fn takes_plain_words_alone(rt: HostRuntime) {
    let plain: [(&[&str], Task); 44] = [
        (&["decode"], Task::Decode(PLAIN_DECODING)),
        (
            &["decode", "--long"],
            Task::Decode(Decoding {
                long: true,
                ..PLAIN_DECODING
            }),
        ),
        (
            &["decode", "--wide"],
            Task::Decode(Decoding {
                wide: true,
                ..PLAIN_DECODING
            }),
        ),
        (
            &["decode", "--wide", "--long"],
            Task::Decode(Decoding {
                long: true,
                wide: true,
                ..PLAIN_DECODING
            }),
        ),
        (&["vectors"], Task::Vectors),
        (&["sim"], simulation(false, false, DEFAULTS)),
        (&["sim", "--tap"], simulation(false, true, DEFAULTS)),
        (&["sim", "--down"], simulation(true, false, DEFAULTS)),
        (
            &["sim", "--long"],
            simulation(
                false,
                false,
                StationOptions {
                    long: true,
                    ..DEFAULTS
                },
            ),
        ),
        (
            &["sim", "--say-sizes"],
            simulation(
                false,
                false,
                StationOptions {
                    say_sizes: true,
                    ..DEFAULTS
                },
            ),
        ),
        (
            &["sim", "--wide"],
            simulation(
                false,
                false,
                StationOptions {
                    wide: true,
                    ..DEFAULTS
                },
            ),
        ),
        (
            &["sim", "--n2", "1"],
            simulation(false, false, StationOptions { n2: 1, ..DEFAULTS }),
        ),
        (
            &[
                "sim",
                "--channels",
                "16",
                "--down",
                "--n2",
                "255",
                "--long",
                "--tap",
                "--k",
                "1",
            ],
            simulation(
                true,
                true,
                StationOptions {
                    long: true,
                    k: 1,
                    n2: 255,
                    channels: 16,
                    ..DEFAULTS
                },
            ),
        ),
        (
            &["sim", "--k", "7", "--channels", "3"],
            simulation(
                false,
                false,
                StationOptions {
                    channels: 3,
                    ..DEFAULTS
                },
            ),
        ),
        (&["deframe", "dte"], Task::Deframe(End::Dte)),
        (&["deframe", "dce"], Task::Deframe(End::Dce)),
        (&["frame"], Task::Frame { loose: false }),
        (&["tabs"], Task::Tabs),
        (&["frame", "--loose"], Task::Frame { loose: true }),
        (
            &["decode", "--loose", "--wide"],
            Task::Decode(Decoding {
                loose: true,
                wide: true,
                ..PLAIN_DECODING
            }),
        ),
        (
            &["judge", "--loose"],
            Task::Judge(Judging {
                loose: true,
                ..PLAIN_JUDGING
            }),
        ),
        (
            &["sim", "--loose", "--events"],
            Task::Sim(Simulation {
                down: false,
                tap: false,
                events: true,
                loose: true,
                station: DEFAULTS,
            }),
        ),
        (&["judge"], Task::Judge(PLAIN_JUDGING)),
        (
            &["judge", "--strict"],
            Task::Judge(Judging {
                strict: true,
                ..PLAIN_JUDGING
            }),
        ),
        (
            &["judge", "--manners"],
            Task::Judge(Judging {
                manners: true,
                ..PLAIN_JUDGING
            }),
        ),
        (
            &["judge", "--window=7", "--size", "1024"],
            Task::Judge(Judging {
                size: 1024,
                window: 7,
                ..PLAIN_JUDGING
            }),
        ),
        (
            &["judge", "--wide"],
            Task::Judge(Judging {
                wide: true,
                ..PLAIN_JUDGING
            }),
        ),
        (
            &["judge", "--long", "--k", "1"],
            Task::Judge(Judging {
                long: true,
                k: 1,
                ..PLAIN_JUDGING
            }),
        ),
        (
            &["judge", "--at", "either", "--strict"],
            Task::Judge(Judging {
                strict: true,
                at: At::Either,
                ..PLAIN_JUDGING
            }),
        ),
        (&["judge", "--at", "dte"], judging_at(At::Dte)),
        (&["judge", "--at", "dce"], judging_at(At::Dce)),
        (&["judge", "--at", "line"], judging_at(At::Line)),
        (&["station", "dte"], place(End::Dte, DEFAULTS)),
        (
            &["station", "--loose", "dte"],
            Task::Station(Place {
                end: End::Dte,
                station: DEFAULTS,
                clock: None,
                loose: true,
                reasons: false,
            }),
        ),
        (
            &["station", "dce", "--reasons"],
            Task::Station(Place {
                end: End::Dce,
                station: DEFAULTS,
                clock: None,
                loose: false,
                reasons: true,
            }),
        ),
        (
            &["station", "dte", "--say-sizes"],
            place(
                End::Dte,
                StationOptions {
                    say_sizes: true,
                    ..DEFAULTS
                },
            ),
        ),
        (
            &["station", "dte", "--wide"],
            place(
                End::Dte,
                StationOptions {
                    wide: true,
                    ..DEFAULTS
                },
            ),
        ),
        (
            &["station", "dce", "--long"],
            place(
                End::Dce,
                StationOptions {
                    long: true,
                    ..DEFAULTS
                },
            ),
        ),
        (
            &[
                "station",
                "dte",
                "--channels",
                "4095",
                "--n2",
                "255",
                "--k",
                "1",
            ],
            place(
                End::Dte,
                StationOptions {
                    k: 1,
                    n2: 255,
                    channels: 4095,
                    ..DEFAULTS
                },
            ),
        ),
        (
            &[
                "station",
                "dce",
                "--outgoing",
                "3",
                "--channels",
                "4",
                "--incoming",
                "1",
            ],
            place(
                End::Dce,
                StationOptions {
                    channels: 4,
                    incoming: 1,
                    outgoing: 3,
                    ..DEFAULTS
                },
            ),
        ),
        (
            &["station", "dce", "--message", "1"],
            place(
                End::Dce,
                StationOptions {
                    message: 1,
                    ..DEFAULTS
                },
            ),
        ),
        (&["station", "dce", "--clock"], timed(End::Dce, USUAL_TIMES)),
        (
            &["station", "dte", "--t1", "0", "--clock", "--t3", "86400000"],
            timed(
                End::Dte,
                GivenTimes {
                    t1: Some(0),
                    t3: Some(86_400_000),
                    ..USUAL_TIMES
                },
            ),
        ),
        (
            &[
                "station", "dte", "--clock", "--t26", "26", "--t25", "25", "--t23", "23", "--t22",
                "22", "--t21", "21", "--t20", "20",
            ],
            timed(
                End::Dte,
                GivenTimes {
                    t20: Some(20),
                    t21: Some(21),
                    t22: Some(22),
                    t23: Some(23),
                    t25: Some(25),
                    t26: Some(26),
                    ..USUAL_TIMES
                },
            ),
        ),
    ];
    for (words, task) in plain {
        assert_eq!(rt; settings(words), Ok(Asked { task, file: None }));
    }
}

/// What words ask for, with the place of the word that names a file.
#[test]
fn takes_words_in_any_order(rt: HostRuntime) {
    let window = StationOptions { k: 3, ..DEFAULTS };
    let decoding = Task::Decode(PLAIN_DECODING);
    let loose = Task::Decode(Decoding {
        loose: true,
        ..PLAIN_DECODING
    });
    let rows: [(&[&str], Task, Option<usize>); 22] = [
        (&["sim", "--k=3"], simulation(false, false, window), None),
        (&["station", "--k=3", "dte"], place(End::Dte, window), None),
        (
            &["station", "--k", "3", "dce"],
            place(End::Dce, window),
            None,
        ),
        (
            &["station", "dte", "script", "--k", "3"],
            place(End::Dte, window),
            Some(2),
        ),
        (
            &["station", "--k", "3", "dte", "--", "dce"],
            place(End::Dte, window),
            Some(5),
        ),
        (&["decode", "trace"], decoding, Some(1)),
        (&["decode", "trace", "--loose"], loose, Some(1)),
        (&["decode", "--loose", "trace"], loose, Some(2)),
        (&["decode", "decode"], decoding, Some(1)),
        (&["decode", "dte"], decoding, Some(1)),
        (&["decode", "--"], decoding, None),
        (&["decode", "-"], decoding, None),
        (&["decode", "-", "--loose"], loose, None),
        (&["decode", "--", "-"], decoding, None),
        (&["decode", "--loose", "--", "--loose"], loose, Some(3)),
        (&["decode", "--", "--help"], decoding, Some(2)),
        (&["decode", "--", "--"], decoding, Some(2)),
        (&["decode", ""], decoding, Some(1)),
        (&["judge", "--at=line", "f"], judging_at(At::Line), Some(2)),
        (&["judge", "f", "--at", "dce"], judging_at(At::Dce), Some(1)),
        (&["deframe", "dte", "dte"], Task::Deframe(End::Dte), Some(2)),
        (&["vectors", "--"], Task::Vectors, None),
    ];
    for (words, task, file) in rows {
        assert_eq!(rt; settings(words), Ok(Asked { task, file }));
    }
}

/// The command, the place of the word that is refused, and why.
#[test]
fn says_why_it_takes_no_other_words(rt: HostRuntime) {
    let channels = Why::Number(1, 16);
    let (decode, sim, station) = (
        Some(Command::Decode),
        Some(Command::Sim),
        Some(Command::Station),
    );
    let (judge, deframe) = (Some(Command::Judge), Some(Command::Deframe));
    let rows: [(&[&str], Option<Command>, usize, Why); 74] = [
        (&[], None, 0, Why::NoCommand),
        (&["dec"], None, 0, Why::UnknownCommand),
        (&["--", "decode"], None, 0, Why::UnknownCommand),
        (&["--loose", "decode"], None, 0, Why::UnknownCommand),
        (&["trace"], None, 0, Why::UnknownCommand),
        (&["-h"], None, 0, Why::Help),
        (&["--help"], None, 0, Why::Help),
        (&["help"], None, 0, Why::Help),
        (&["help", "sim"], sim, 0, Why::Help),
        (&["help", "quux"], None, 0, Why::Help),
        (&["--version"], None, 0, Why::Version),
        (&["-V"], None, 0, Why::Version),
        (&["sim", "--help"], sim, 1, Why::Help),
        (&["station", "--k", "3", "-h"], station, 3, Why::Help),
        (&["sim", "--k", "8", "--help"], sim, 1, Why::Number(1, 7)),
        (&["sim", "-V"], sim, 1, Why::Version),
        (&["decode", "--foo"], decode, 1, Why::UnknownOption),
        (&["decode", "--foo=3"], decode, 1, Why::UnknownOption),
        (&["decode", "-x"], decode, 1, Why::UnknownOption),
        (&["decode", "--lon"], decode, 1, Why::UnknownOption),
        (&["decode", "--="], decode, 1, Why::UnknownOption),
        (&["decode", "--k=3"], decode, 1, Why::NotHere),
        (&["decode", "--down"], decode, 1, Why::NotHere),
        (&["decode", "--at", "line"], decode, 1, Why::NotHere),
        (&["sim", "--incoming", "0"], sim, 1, Why::NotHere),
        (&["sim", "--clock"], sim, 1, Why::NotHere),
        (&["sim", "--strict"], sim, 1, Why::NotHere),
        (&["deframe", "dte", "--loose"], deframe, 2, Why::NotHere),
        (&["station", "dte", "--at", "dte"], station, 2, Why::NotHere),
        (&["judge", "--message", "1"], judge, 1, Why::NotHere),
        (&["decode", "--size", "256"], decode, 1, Why::NotHere),
        (
            &["station", "dte", "--window", "3"],
            station,
            2,
            Why::NotHere,
        ),
        (&["judge", "--clock"], judge, 1, Why::NotHere),
        (&["deframe", "dte", "--long"], deframe, 2, Why::NotHere),
        (&["frame", "--long"], Some(Command::Frame), 1, Why::NotHere),
        (
            &["vectors", "--long"],
            Some(Command::Vectors),
            1,
            Why::NotHere,
        ),
        (&["decode", "--long", "--long"], decode, 1, Why::Twice),
        (&["sim", "--k", "3", "--k=3"], sim, 1, Why::Twice),
        (
            &["sim", "f", "--down", "--tap", "--down"],
            sim,
            2,
            Why::Twice,
        ),
        (&["judge", "--at=dte", "--at", "dte"], judge, 1, Why::Twice),
        (&["sim", "--k"], sim, 1, Why::WantsValue),
        (&["judge", "f", "--at"], judge, 2, Why::WantsValue),
        (&["sim", "--down=true"], sim, 1, Why::WantsNone),
        (&["sim", "--down="], sim, 1, Why::WantsNone),
        (&["sim", "--k", "8"], sim, 1, Why::Number(1, 7)),
        (&["sim", "--k", "0"], sim, 1, Why::Number(1, 7)),
        (&["sim", "--k", "03"], sim, 1, Why::Number(1, 7)),
        (&["sim", "--k=+3"], sim, 1, Why::Number(1, 7)),
        (&["sim", "--k", "-3"], sim, 1, Why::Number(1, 7)),
        (&["sim", "--k", ""], sim, 1, Why::Number(1, 7)),
        (&["sim", "--k="], sim, 1, Why::Number(1, 7)),
        (&["sim", "--n2", "256"], sim, 1, Why::Number(1, 255)),
        (&["sim", "f", "--channels", "17"], sim, 2, channels),
        (&["sim", "--channels=17", "f"], sim, 1, channels),
        (
            &["station", "dte", "--channels", "65537"],
            station,
            2,
            Why::Number(1, 4095),
        ),
        (
            &["station", "dte", "--outgoing", "4096"],
            station,
            2,
            Why::Number(0, 4095),
        ),
        (
            &["station", "dte", "--message", "65536"],
            station,
            2,
            Why::Number(1, 65_535),
        ),
        (
            &["station", "dte", "--clock", "--t1", "86400001"],
            station,
            3,
            Why::Number(0, 86_400_000),
        ),
        (&["judge", "--size", "15"], judge, 1, Why::Number(16, 4096)),
        (&["judge", "--size=8192"], judge, 1, Why::Number(16, 4096)),
        (&["judge", "--window", "0"], judge, 1, Why::Number(1, 7)),
        (&["judge", "--window", "8"], judge, 1, Why::Number(1, 7)),
        (&["judge", "--at", "DTE"], judge, 1, Why::Place),
        (&["judge", "--at="], judge, 1, Why::Place),
        (&["station"], station, 1, Why::NoEnd),
        (&["station", "--k", "3"], station, 3, Why::NoEnd),
        (&["deframe"], deframe, 1, Why::NoEnd),
        (&["station", "DTE"], station, 1, Why::End),
        (&["deframe", "-"], deframe, 1, Why::End),
        (&["decode", "f", "g"], decode, 2, Why::TooMany),
        (&["deframe", "dte", "f", "g"], deframe, 3, Why::TooMany),
        (&["vectors", "-"], Some(Command::Vectors), 1, Why::TooMany),
        (&["station", "dte", "--t1", "5"], station, 2, Why::NoClock),
        (
            &[
                "station",
                "dte",
                "--channels=4",
                "--incoming=3",
                "--outgoing=2",
            ],
            station,
            5,
            Why::OneWay,
        ),
    ];
    for (words, command, place, why) in rows {
        let refusal = Refusal {
            command,
            place,
            why,
        };
        assert_eq!(rt; settings(words), Err(refusal));
    }
}
