// Replays: from the bytes of a C file or an assembly text and of a schedule to the lines printed.
ghost use Rattle.std.specs.Prelude.{◌≡◌, ◌≤◌, ℕ, List, length};
ghost use Rattle.clight_lang.specs.Meaning.{program_of};
ghost use Rattle.clight_front.specs.Fronts.{HasProgram};
ghost use Rattle.clight_run.specs.Source.{IsReplayOf as IsSourceReplay};
ghost use Rattle.x86_run.specs.Target.{IsReplayOf as IsTargetReplay};
ghost use Rattle.x86_lang.specs.Assembly.{assembly_of};
ghost use Rattle.tso_top.specs.Answers.{LeadsTo, PrintsReplay, bad_schedule as schedule_status, bad_text as text_status, front_status, printed_as};
ghost use Rattle.tso_top.specs.Commands.{Sourcing};
ghost use Rattle.tso_top.specs.Replays.{Playing, Targeting};

use clight_front::laws::programs_are_well_made;
use clight_front::{FrontRefusal, front};
use clight_lang::Program;
use clight_run::replay_source;
use schedule_text::{
    Replay, ReplayRefusal, Schedule, ScheduleRefusal, print_not_a_run, print_replay, read_schedule,
};
use std::alloc::Global;
use tso_status::Status;
use tso_words::NoMemory;
use x86_lang::Asm;
use x86_run::replay_target;
use x86_text::{ReadAsmRefusal, read_asm};

/// What a command that replays puts on the sink, and its status.
#[derive(Drop)]
pub struct Printed {
    pub status: Status,
    pub lines: Vec<u8>,
}

/// The status of bytes that have no program.
pub fn no_program(refusal: FrontRefusal) -> Status
    ensures { result ≡ front_status refusal }
{
    match refusal {
        FrontRefusal::Syntax { at } => Status::Syntax { at },
        FrontRefusal::TooDeep { at } => Status::TooDeep { at },
        FrontRefusal::Types { rule, at } => Status::Types { rule, at },
        FrontRefusal::TooLarge { count, at } => Status::TooLarge { count, at },
        FrontRefusal::NoMemory => Status::NoMemory,
    }
}

fn bad_text(refusal: ReadAsmRefusal) -> Status
    ensures { result ≡ text_status refusal }
{
    match refusal {
        ReadAsmRefusal::BadText { line } => Status::BadText { line },
        ReadAsmRefusal::NoMemory => Status::NoMemory,
    }
}

fn bad_schedule(refusal: ScheduleRefusal) -> Status
    ensures { result ≡ schedule_status refusal }
{
    match refusal {
        ScheduleRefusal::BadSchedule { line } => Status::BadSchedule { line },
        ScheduleRefusal::NoMemory => Status::NoMemory,
    }
}

fn with_lines(status: Status, lines: Result<Vec<u8>, NoMemory>) -> Result<Printed, Status>
    ensures { result ≡ printed_as status lines }
{
    match lines {
        Ok(lines) => Ok(Printed { status, lines }),
        Err(NoMemory) => Err(Status::NoMemory),
    }
}

// The lines of a replay, or of one that stopped at a line that is not enabled.
fn print(alloc: Global, replay: Result<Replay, ReplayRefusal>) -> Result<Printed, Status>
    ensures { PrintsReplay replay result }
{
    match replay {
        Ok(replay) => with_lines(Status::Done, print_replay(alloc, &replay)),
        Err(ReplayRefusal::NotARun { line, before }) => with_lines(
            Status::NotARun { line },
            print_not_a_run(alloc, line, &before),
        ),
        Err(ReplayRefusal::NoMemory) => Err(Status::NoMemory),
    }
}

// Plays a schedule on a program of a file from its beginning.
fn play_source(alloc: Global, program: &Program, schedule: &Schedule) -> Result<Printed, Status>
    requires { (bytes : List ℕ) × HasProgram bytes (program_of program.now) }
    ensures { LeadsTo (Playing (IsSourceReplay (program_of program.now) schedule.now.lines.items)) result }
{
    programs_are_well_made();
    print(alloc, replay_source(alloc, program, schedule))
}

/// The lines of a replay of a schedule on a C file, or why there are none: its bytes have no program,
/// or a line of the schedule is bad.
pub fn replay_source_texts(alloc: Global, file: &[u8], schedule: &[u8]) -> Result<Printed, Status>
    requires file { length file.now ≤ 4194304 }
    requires schedule { length schedule.now ≤ 268435456 }
    ensures { LeadsTo (Sourcing file.now schedule.now) result }
{
    let program = match front(alloc, file) {
        Ok(program) => program,
        Err(refusal) => return Err(no_program(refusal)),
    };
    match read_schedule(alloc, schedule) {
        Ok(schedule) => play_source(alloc, &program, &schedule),
        Err(refusal) => Err(bad_schedule(refusal)),
    }
}

// Plays a schedule on an assembly from its beginning.
fn play_target(alloc: Global, asm: &Asm, schedule: &Schedule) -> Result<Printed, Status>
    ensures { LeadsTo (Playing (IsTargetReplay (assembly_of asm.now) schedule.now.lines.items)) result }
{
    print(alloc, replay_target(alloc, asm, schedule))
}

/// The lines of a replay of a schedule on an assembly text, or the first bad line of either.
pub fn replay_target_texts(alloc: Global, text: &[u8], schedule: &[u8]) -> Result<Printed, Status>
    requires { length schedule.now ≤ 268435456 }
    ensures { LeadsTo (Targeting text.now schedule.now) result }
{
    let asm = match read_asm(alloc, text) {
        Ok(asm) => asm,
        Err(refusal) => return Err(bad_text(refusal)),
    };
    match read_schedule(alloc, schedule) {
        Ok(schedule) => play_target(alloc, &asm, &schedule),
        Err(refusal) => Err(bad_schedule(refusal)),
    }
}
