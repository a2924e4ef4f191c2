//! Lines at the ends of their numbers, bad lines, printed lines, and replays of a toy machine.
ghost use Rattle.std.specs.Prelude.{◌≤◌, length};

use crate::toy::Toy;
use crate::{
    Directive, End, Line, Replay, ReplayRefusal, ScheduleRefusal, print_not_a_run, print_replay,
    read_schedule, replay,
};
use std::alloc::Global;
use std::process::Abort;
use std::test::Fail;
use tso_core::{Event, Step};
use tso_words::{Name, Words};

// Each text has this one line, with this number.
fn expect_lines(rt: &impl Abort, alloc: Global, rows: &[(&[u8], Line)]) -> Result<(), Fail> {
    for (text, want) in rows {
        assert!(rt; text.len() <= 1000);
        let got = read_schedule(alloc, *text)?;
        assert!(rt; got.lines.as_slice() == [*want].as_slice(), "{text:?}");
    }
    Ok(())
}

// The first bad line of each text.
fn expect_bad(rt: &impl Abort, alloc: Global, line: u64, texts: &[&[u8]]) {
    for text in texts {
        assert!(rt; text.len() <= 1000);
        let got = read_schedule(alloc, *text);
        assert!(rt;
            got == Err(ScheduleRefusal::BadSchedule { line }),
            "{text:?}"
        );
    }
}

// What a replay of each schedule on the toy prints.
fn expect_output(rt: &impl Abort, alloc: Global, rows: &[(&[u8], &[u8])]) -> Result<(), Fail> {
    for (text, want) in rows {
        assert!(rt; text.len() <= 1000);
        let schedule = read_schedule(alloc, *text)?;
        let mut toy = Toy::opened();
        let printed = match replay(alloc, &mut toy, &schedule) {
            Ok(r) => print_replay(alloc, &r)?,
            Err(ReplayRefusal::NotARun { line, before }) => print_not_a_run(alloc, line, &before)?,
            Err(ReplayRefusal::NoMemory) => return Err(Fail::from(ScheduleRefusal::NoMemory)),
        };
        assert!(rt; printed.as_slice() == *want, "{text:?}");
    }
    Ok(())
}

const fn run(thread: u32, choice: Option<u32>) -> Directive {
    Directive::Step(Step::Run { thread, choice })
}

const fn first(what: Directive) -> Line {
    Line { number: 1, what }
}

#[test]
fn lines_at_the_ends_of_their_numbers(rt: HostRuntime) -> Result<(), Fail> {
    let last = 18_446_744_073_709_551_615;
    let drain = Directive::Step(Step::Drain { thread: 0 });
    expect_lines(
        &rt,
        rt.alloc(),
        &[
            (b"run 0", first(run(0, None))),
            (b"run 4294967295\n", first(run(4_294_967_295, None))),
            (b"run 00000000004294967295", first(run(4_294_967_295, None))),
            (b"run 0 0", first(run(0, Some(0)))),
            (b"run 0 -0", first(run(0, Some(0)))),
            (b"run 0 -1", first(run(0, Some(4_294_967_295)))),
            (b"run 0 -2147483648", first(run(0, Some(2_147_483_648)))),
            (
                b"run 0 -00000000002147483648",
                first(run(0, Some(2_147_483_648))),
            ),
            (b"run 0 4294967295", first(run(0, Some(4_294_967_295)))),
            (b"run 0 0x0", first(run(0, Some(0)))),
            (b"run 0 0xffFFffFF", first(run(0, Some(4_294_967_295)))),
            (b"run 0 0x9aBcDeF0", first(run(0, Some(2_596_069_104)))),
            (b"run 0 010", first(run(0, Some(10)))),
            (b"drain 0", first(drain)),
            (b"\t drain\r0 \r\n", first(drain)),
            (b"hold 7 0", first(Directive::Hold { thread: 7, most: 0 })),
            (
                b"lazy 7 18446744073709551615",
                first(Directive::Lazy {
                    thread: 7,
                    most: last,
                }),
            ),
            (
                b"auto 7 00000000000000000001",
                first(Directive::Auto { thread: 7, most: 1 }),
            ),
        ],
    )?;
    let third = Line {
        number: 3,
        what: drain,
    };
    expect_lines(&rt, rt.alloc(), &[(b"# run 1\n \t\r\ndrain 0\n\n#", third)])
}

#[test]
fn bad_lines(rt: HostRuntime) -> Result<(), Fail> {
    let alloc = rt.alloc();
    expect_bad(
        &rt,
        alloc,
        1,
        &[
            b"run",
            b"run ",
            b"drain",
            b"hold",
            b"hold 1",
            b"lazy 1",
            b"auto 1",
            b"walk 0",
            b"Run 0",
            b"RUN 0",
            b"runs 0",
            b"ru 0",
            b"run0",
            b"0 run",
            b"0",
            b"run 0 0 0",
            b"drain 0 0",
            b"hold 0 1 2",
            b"run 0 # why",
            b"run #",
            b"run -1",
            b"run +1",
            b"run 0x1",
            b"run 1.",
            b"run a",
            b"run 4294967296",
            b"run 18446744073709551616",
            b"run 000000000000000000000",
            b"run 99999999999999999999",
            b"hold 0 -1",
            b"hold 0 0x1",
        ],
    );
    expect_bad(
        &rt,
        alloc,
        1,
        &[
            b"hold 0 18446744073709551616",
            b"lazy 0 99999999999999999999",
            b"auto 0 000000000000000000001",
            b"hold 4294967296 1",
            b"run 0 4294967296",
            b"run 0 -2147483649",
            b"run 0 -",
            b"run 0 --1",
            b"run 0 +1",
            b"run 0 - 1",
            b"run 0 0x",
            b"run 0 0X1",
            b"run 0 x1",
            b"run 0 -0x1",
            b"run 0 0x123456789",
            b"run 0 0x000000001",
            b"run 0 0xg",
            b"run 0 0x1g",
            b"run 0 1x",
            b"run 0 00x1",
            b"run 0 ff",
            b"run 0 1_000",
            b"run 0 000000000000000000000",
            b"run 0 -000000000000000000000",
            b"run\x0b0",
            b"run\x0c0",
            b"run\x000",
            b"\x0brun 0",
            b"run 0\x1a",
            b"run 0;",
            b"/ run 0",
            b"\xff",
        ],
    );
    expect_bad(
        &rt,
        alloc,
        2,
        &[
            b"run 0\nwalk 0",
            b"\nrun\nrun",
            b"#\n\x00\n",
            b"run 0\r\n\\\n",
        ],
    );
    Ok(())
}

#[test]
fn replays_of_the_toy(rt: HostRuntime) -> Result<(), Fail> {
    let alloc = rt.alloc();
    expect_output(
        &rt,
        alloc,
        &[
            (b"", b"end running\n"),
            (b"run 0\nrun 0\n", b"return 0 1\nend running\n"),
            // The fence waits for the buffer.
            (b"run 0\nrun 0\nrun 0\n", b"return 0 1\nnot a run: line 3\n"),
            (
                b"run 0\nrun 0\ndrain 0\nrun 0",
                b"return 0 1\nend running\n",
            ),
            (b"hold 0 100\nhold 0 100", b"return 0 1\nend running\n"),
            (
                b"lazy 0 100\nlazy 0 100",
                b"return 0 1\nreturn 0 0\nend running\n",
            ),
            (b"lazy 0 2\nrun 0", b"return 0 1\nnot a run: line 2\n"),
            (b"auto 0 2\nrun 0\nrun 0", b"return 0 1\nend running\n"),
            (b"hold 0 0\nhold 0 1\nrun 0", b"return 0 1\nend running\n"),
        ],
    )?;
    expect_output(
        &rt,
        alloc,
        &[
            (
                b"run 0\nrun 0\ndrain 0\nrun 0\nrun 0 -2",
                b"return 0 1\nreturn 0 -2\nend running\n",
            ),
            (b"run 0 5", b"not a run: line 1\n"),
            (
                b"hold 1 18446744073709551615\nhold 1 9",
                b"return 1 -1\nend running\n",
            ),
            (
                b"run 1\nrun 1\nrun 1\nrun 1",
                b"return 1 -1\nnot a run: line 4\n",
            ),
            (
                b"hold 4294967295 18446744073709551615\nlazy 2 5\nauto 2 5",
                b"end running\n",
            ),
            (b"# none\n\nrun 2", b"not a run: line 3\n"),
            (b"drain 1", b"not a run: line 1\n"),
            (
                b"lazy 0 9\nlazy 0 9\nauto 0 9\nlazy 1 9",
                b"return 0 1\nreturn 0 0\nexit 7\nend exited\n",
            ),
            (
                b"auto 0 9\nauto 0 9\nauto 0 9\nrun 1",
                b"return 0 1\nreturn 0 0\nexit 7\nnot a run: line 4\n",
            ),
        ],
    )
}

#[test]
fn steps_are_counted(rt: HostRuntime) -> Result<(), Fail> {
    let schedule = read_schedule(rt.alloc(), b"lazy 0 9\nlazy 0 9\ndrain 1")?;
    let mut toy = Toy::opened();
    let Err(ReplayRefusal::NotARun { line, before }) = replay(rt.alloc(), &mut toy, &schedule)
    else {
        return Err(Fail::from(ScheduleRefusal::NoMemory));
    };
    assert!(rt; line == 3);
    assert!(rt; before.taken == 5);
    assert!(rt; before.events.len() == 2);
    assert!(rt; before.end == End::Running);
    Ok(())
}

#[test]
fn printed_lines(rt: HostRuntime) -> Result<(), Fail> {
    let alloc = rt.alloc();
    let mut events = Vec::new(alloc);
    let name = Name::made(alloc, b"print")?;
    let words = Words::made(alloc, &[0, 2_147_483_648, 4_294_967_295, 2_147_483_647])?;
    events.push(Event::Call {
        thread: 4_294_967_295,
        name,
        words,
    })?;
    events.push(Event::Call {
        thread: 0,
        name: Name::made(alloc, b"f")?,
        words: Words::made(alloc, &[])?,
    })?;
    events.push(Event::Exit {
        word: 4_294_967_289,
    })?;
    let shown = Replay {
        events,
        taken: 3,
        end: End::NoStack,
    };
    let lines =
        b"call 4294967295 print 0 -2147483648 -1 2147483647\ncall 0 f\nexit -7\n".as_slice();
    let mut want = Vec::from_slice(alloc, lines)?;
    want.extend_from_slice(b"end no stack\n")?;
    let got = print_replay(alloc, &shown)?;
    assert!(rt; got.as_slice() == want.as_slice());
    let mut want = Vec::from_slice(alloc, lines)?;
    want.extend_from_slice(b"not a run: line 18446744073709551615\n")?;
    let got = print_not_a_run(alloc, u64::MAX, &shown)?;
    assert!(rt; got.as_slice() == want.as_slice());
    Ok(())
}

#[test]
fn printed_ends(rt: HostRuntime) -> Result<(), Fail> {
    let rows: [(End, &[u8]); 6] = [
        (End::Running, b"end running\n"),
        (End::Exited, b"end exited\n"),
        (End::Wrong, b"end wrong\n"),
        (End::Fault, b"end fault\n"),
        (End::NoStack, b"end no stack\n"),
        (End::NoHeap, b"end no heap\n"),
    ];
    for (end, want) in rows {
        let nothing = Replay {
            events: Vec::new(rt.alloc()),
            taken: 0,
            end,
        };
        let got = print_replay(rt.alloc(), &nothing)?;
        assert!(rt; got.as_slice() == want);
    }
    Ok(())
}
