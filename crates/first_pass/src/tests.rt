// The assembly on its machine, and its text. Expected values are worked out by hand.
use super::*;
use clight_lang::program_returning;
use std::test::Fail;
use tso_core::{Event, Step};
use x86_machine::X86Machine;
use x86_machine::now::X86Now;
use x86_text::print_asm;

const RUN: Step = Step::Run {
    thread: 0,
    choice: None,
};

fn exit_word(event: &Option<Event>) -> Option<u32> {
    match event {
        Some(Event::Exit { word }) => Some(*word),
        _ => None,
    }
}

// Two steps, of which the second is the exit; no third is enabled, nor is a drain.
#[test]
fn a_number_is_returned(rt: HostRuntime) -> Result<(), Fail> {
    let alloc = rt.alloc();
    for number in [0, 7, 2_147_483_647, 4_294_967_295] {
        let program = program_returning(alloc, number)?;
        let asm = assembly(alloc, &program, number)?;
        let mut machine = X86Machine::made(alloc, &asm)?;
        for (word, now) in [(None, X86Now::Running), (Some(number), X86Now::Exited)] {
            assert!(rt; machine.step(&Step::Drain { thread: 0 }).is_err());
            let out = machine.step(&RUN)?;
            assert_eq!(rt; exit_word(&out.event), word);
            assert_eq!(rt; out.now, now);
        }
        assert!(rt; machine.step(&RUN).is_err());
    }
    Ok(())
}

#[test]
fn the_text_is_printed(rt: HostRuntime) -> Result<(), Fail> {
    let alloc = rt.alloc();
    let program = program_returning(alloc, 7)?;
    let text = print_asm(alloc, &assembly(alloc, &program, 7)?)?;
    let lines = b"# pace 1\n.globl main\n.data\n.text\nmain:\n\tmovl $7, %eax\n\tret\n";
    assert_eq!(rt; text.as_slice(), lines.as_slice());
    Ok(())
}
