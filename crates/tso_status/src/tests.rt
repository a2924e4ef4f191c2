// The statuses as they are printed. Expected lines are worked out by hand.
use super::*;
use std::test::Fail;

#[test]
fn numbers_and_lines(rt: HostRuntime) -> Result<(), Fail> {
    for (status, code, line) in [
        (Status::Done, 0u8, ""),
        (Status::Usage, 1, "usage\n"),
        (Status::ReadFault, 2, "read fault\n"),
        (Status::WriteFault, 3, "write fault\n"),
        (Status::TooLong, 4, "too long\n"),
        (Status::Syntax { at: 0 }, 5, "syntax: byte 0\n"),
        (
            Status::Syntax { at: 4_194_304 },
            5,
            "syntax: byte 4194304\n",
        ),
        (
            Status::TooDeep { at: u32::MAX },
            6,
            "too deep: byte 4294967295\n",
        ),
        (
            Status::Types { rule: 1, at: 0 },
            7,
            "types: rule 1, byte 0\n",
        ),
        (
            Status::Types {
                rule: 255,
                at: u32::MAX,
            },
            7,
            "types: rule 255, byte 4294967295\n",
        ),
        (
            Status::TooLarge { count: 3, at: 4 },
            8,
            "too large: count 3, byte 4\n",
        ),
        (
            Status::TooLarge {
                count: 255,
                at: u32::MAX,
            },
            8,
            "too large: count 255, byte 4294967295\n",
        ),
        (Status::NoMemory, 9, "no memory\n"),
        (Status::BadText { line: 3 }, 10, "bad text: line 3\n"),
        (
            Status::BadSchedule { line: 2 },
            11,
            "bad schedule: line 2\n",
        ),
        (
            Status::NotARun { line: u64::MAX },
            12,
            "not a run: line 18446744073709551615\n",
        ),
        (Status::NotBuilt, 13, "not built\n"),
    ] {
        assert_eq!(rt; status.code(), code);
        assert!(rt; status.line().as_slice() == line.as_bytes(), "{line}");
    }
    Ok(())
}
