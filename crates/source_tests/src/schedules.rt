//! The lines of a schedule, at their numeric ends, and what a replay of a short run prints.

use crate::replayed::{SEVEN, replayed};
use std::test::Fail;
use tso_top::Status;

// Schedules of the file that returns 7: the schedule, the status and the lines.
const SCHEDULES: [(&str, Status, &str); 63] = [
    ("", Status::Done, "end running\n"),
    ("run 0\nrun 0\nrun 0", Status::Done, "end running\n"),
    (
        "run 0\nrun 0\nrun 0\nrun 0",
        Status::Done,
        "exit 7\nend exited\n",
    ),
    (
        "run 0\nrun 0\nrun 0\nrun 0\nrun 0",
        Status::NotARun { line: 5 },
        "exit 7\nnot a run: line 5\n",
    ),
    ("auto 0 4", Status::Done, "exit 7\nend exited\n"),
    ("lazy 0 3\nhold 0 1", Status::Done, "exit 7\nend exited\n"),
    (
        "hold 0 0\nlazy 0 0\nauto 0 0",
        Status::Done,
        "end running\n",
    ),
    (
        "auto 0 9\nauto 0 9\nlazy 0 9\nhold 0 9",
        Status::Done,
        "exit 7\nend exited\n",
    ),
    (
        "auto 0 9\ndrain 0",
        Status::NotARun { line: 2 },
        "exit 7\nnot a run: line 2\n",
    ),
    (
        "drain 0",
        Status::NotARun { line: 1 },
        "not a run: line 1\n",
    ),
    ("run 7", Status::NotARun { line: 1 }, "not a run: line 1\n"),
    (
        "drain 7",
        Status::NotARun { line: 1 },
        "not a run: line 1\n",
    ),
    ("hold 7 5", Status::Done, "end running\n"),
    ("lazy 7 5\nauto 7 5", Status::Done, "end running\n"),
    (
        "run 0 1",
        Status::NotARun { line: 1 },
        "not a run: line 1\n",
    ),
    (
        "run 0 0",
        Status::NotARun { line: 1 },
        "not a run: line 1\n",
    ),
    (
        "run 0\nwalk 0",
        Status::BadSchedule { line: 2 },
        "bad schedule: line 2\n",
    ),
    (
        "run 7\nwalk 0\nwalk 1",
        Status::BadSchedule { line: 2 },
        "bad schedule: line 2\n",
    ),
    (
        "auto 0 9\n\nrun 0",
        Status::NotARun { line: 3 },
        "exit 7\nnot a run: line 3\n",
    ),
    (
        "# run 9\n\n \t\r\n#\n  # walk\n\t run\t0 \r\nlazy 0 3",
        Status::Done,
        "exit 7\nend exited\n",
    ),
    (
        "run 0\n\nrun 9\n",
        Status::NotARun { line: 3 },
        "not a run: line 3\n",
    ),
    ("hold 4294967295 1", Status::Done, "end running\n"),
    (
        "run 4294967295",
        Status::NotARun { line: 1 },
        "not a run: line 1\n",
    ),
    (
        "drain 4294967295",
        Status::NotARun { line: 1 },
        "not a run: line 1\n",
    ),
    (
        "run 4294967296",
        Status::BadSchedule { line: 1 },
        "bad schedule: line 1\n",
    ),
    (
        "drain 4294967296",
        Status::BadSchedule { line: 1 },
        "bad schedule: line 1\n",
    ),
    (
        "hold 4294967296 1",
        Status::BadSchedule { line: 1 },
        "bad schedule: line 1\n",
    ),
    (
        "hold 00000000000000000000 9",
        Status::Done,
        "exit 7\nend exited\n",
    ),
    (
        "hold 000000000000000000000 9",
        Status::BadSchedule { line: 1 },
        "bad schedule: line 1\n",
    ),
    (
        "hold 0 18446744073709551615",
        Status::Done,
        "exit 7\nend exited\n",
    ),
    (
        "lazy 0 18446744073709551615",
        Status::Done,
        "exit 7\nend exited\n",
    ),
    (
        "auto 0 18446744073709551615",
        Status::Done,
        "exit 7\nend exited\n",
    ),
    (
        "hold 4294967295 18446744073709551615",
        Status::Done,
        "end running\n",
    ),
    (
        "hold 0 18446744073709551616",
        Status::BadSchedule { line: 1 },
        "bad schedule: line 1\n",
    ),
    (
        "lazy 0 18446744073709551616",
        Status::BadSchedule { line: 1 },
        "bad schedule: line 1\n",
    ),
    (
        "auto 0 18446744073709551616",
        Status::BadSchedule { line: 1 },
        "bad schedule: line 1\n",
    ),
    ("hold 0 00000000000000000003", Status::Done, "end running\n"),
    (
        "hold 0 000000000000000000003",
        Status::BadSchedule { line: 1 },
        "bad schedule: line 1\n",
    ),
    (
        "run 0 4294967295",
        Status::NotARun { line: 1 },
        "not a run: line 1\n",
    ),
    (
        "run 0 -2147483648",
        Status::NotARun { line: 1 },
        "not a run: line 1\n",
    ),
    (
        "run 0 0xfFfFfFfF",
        Status::NotARun { line: 1 },
        "not a run: line 1\n",
    ),
    (
        "run 0 -0",
        Status::NotARun { line: 1 },
        "not a run: line 1\n",
    ),
    (
        "run 0 -00000000000000000007",
        Status::NotARun { line: 1 },
        "not a run: line 1\n",
    ),
    (
        "run 0 4294967296",
        Status::BadSchedule { line: 1 },
        "bad schedule: line 1\n",
    ),
    (
        "run 0 -2147483649",
        Status::BadSchedule { line: 1 },
        "bad schedule: line 1\n",
    ),
    (
        "run 0 -000000000000000000007",
        Status::BadSchedule { line: 1 },
        "bad schedule: line 1\n",
    ),
    (
        "run 0 0x123456789",
        Status::BadSchedule { line: 1 },
        "bad schedule: line 1\n",
    ),
    (
        "run 0 0x",
        Status::BadSchedule { line: 1 },
        "bad schedule: line 1\n",
    ),
    (
        "run 0 0X1",
        Status::BadSchedule { line: 1 },
        "bad schedule: line 1\n",
    ),
    (
        "run 0 -0x1",
        Status::BadSchedule { line: 1 },
        "bad schedule: line 1\n",
    ),
    (
        "run 0 +1",
        Status::BadSchedule { line: 1 },
        "bad schedule: line 1\n",
    ),
    (
        "run",
        Status::BadSchedule { line: 1 },
        "bad schedule: line 1\n",
    ),
    (
        "run 0 1 2",
        Status::BadSchedule { line: 1 },
        "bad schedule: line 1\n",
    ),
    (
        "drain 0 1",
        Status::BadSchedule { line: 1 },
        "bad schedule: line 1\n",
    ),
    (
        "hold 0",
        Status::BadSchedule { line: 1 },
        "bad schedule: line 1\n",
    ),
    (
        "auto 0 1 2",
        Status::BadSchedule { line: 1 },
        "bad schedule: line 1\n",
    ),
    (
        "hold 0 -1",
        Status::BadSchedule { line: 1 },
        "bad schedule: line 1\n",
    ),
    (
        "lazy 0 0x1",
        Status::BadSchedule { line: 1 },
        "bad schedule: line 1\n",
    ),
    (
        "run -0",
        Status::BadSchedule { line: 1 },
        "bad schedule: line 1\n",
    ),
    (
        "RUN 0",
        Status::BadSchedule { line: 1 },
        "bad schedule: line 1\n",
    ),
    (
        "run0",
        Status::BadSchedule { line: 1 },
        "bad schedule: line 1\n",
    ),
    (
        "run 0 # one",
        Status::BadSchedule { line: 1 },
        "bad schedule: line 1\n",
    ),
    (
        "run\x0b0",
        Status::BadSchedule { line: 1 },
        "bad schedule: line 1\n",
    ),
];

#[test]
fn schedules_of_a_short_run(rt: HostRuntime) -> Result<(), Fail> {
    let alloc = rt.alloc();
    for (schedule, status, lines) in SCHEDULES {
        let (got, printed) = replayed(alloc, SEVEN.as_bytes(), schedule.as_bytes())?;
        assert_eq!(rt; got, status, "{schedule}");
        assert!(rt; printed.as_slice() == lines.as_bytes(), "{schedule}");
    }
    Ok(())
}
