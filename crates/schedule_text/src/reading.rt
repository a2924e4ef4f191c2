//! The schedule of a text.
ghost use Rattle.std.specs.Prelude.{◌≤◌, ℕ, List, length};
ghost use Rattle.schedule_text.specs.declared.schedule.Line.{Line as LineOf};
ghost use Rattle.schedule_text.specs.Schedules.{IsFirstBad, IsReadAs, IsRefusedAt, IsTold, ScheduleOf};

use crate::line::{Reading, read_line};
use crate::schedule::{Line, Schedule, ScheduleRefusal};
use crate::split::split_line;
use std::alloc::Global;

/// The schedule of a text, or its first bad line. `NoMemory` only where the list cannot grow.
pub fn read_schedule(alloc: Global, bytes: &[u8]) -> Result<Schedule, ScheduleRefusal>
    requires { length bytes.now ≤ 268435456 }
    ensures told { IsTold bytes.now result }
    ensures must_read { (lines : List LineOf) → ScheduleOf bytes.now lines → IsReadAs lines result }
    ensures must_refuse { (number : ℕ) → IsFirstBad bytes.now number → IsRefusedAt number result }
{
    let mut lines = Vec::new(alloc);
    let mut number: u64 = 0;
    let mut rest = bytes;
    while !rest.is_empty() {
        let (text, after) = split_line(rest);
        number += 1;
        match read_line(text) {
            Reading::Skipped => {}
            Reading::Directs(what) => match lines.push(Line { number, what }) {
                Ok(()) => {}
                Err(_) => return Err(ScheduleRefusal::NoMemory),
            },
            Reading::Bad => return Err(ScheduleRefusal::BadSchedule { line: number }),
        }
        rest = after;
    }
    Ok(Schedule { lines })
}
