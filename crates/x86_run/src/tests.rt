//! Replays of texts, worked out by hand: services and externals, both sides of each limit of a
//! stack and of the heap, and schedules that ask for what is not there.

use crate::replay_target;
use schedule_text::{ReplayRefusal, print_not_a_run, print_replay, read_schedule};
use std::alloc::Global;
use std::process::Abort;
use std::test::Fail;
use x86_text::read_asm;

// What the command prints of a schedule on a text.
fn played(rt: &impl Abort, alloc: Global, text: &str, schedule: &str) -> Result<Vec<u8>, Fail> {
    let asm = read_asm(alloc, text.as_bytes())?;
    let lines = schedule.as_bytes();
    assert!(rt; lines.len() <= 1000);
    let schedule = read_schedule(alloc, lines)?;
    match replay_target(alloc, &asm, &schedule) {
        Ok(replay) => Ok(print_replay(alloc, &replay)?),
        Err(ReplayRefusal::NotARun { line, before }) => Ok(print_not_a_run(alloc, line, &before)?),
        Err(refusal) => Err(Fail::from(refusal)),
    }
}

// A text, a schedule and what is printed.
type Row = (&'static str, &'static str, &'static str);

const BLOCKS: [Row; 16] = [
    // A block of no bytes takes one, so the next begins 16 bytes on.
    (
        "main:\ncall malloc\ncall malloc\nret",
        "auto 0 9",
        "exit 805306384\nend exited\n",
    ),
    (
        "main:\ncall malloc\ncall malloc\nret",
        "run 0 0x8ffffff0\nrun 0 0x8ffffff0",
        "not a run: line 2\n",
    ),
    (
        "main:\ncall malloc\nret",
        "run 0 0x30000008",
        "not a run: line 1\n",
    ),
    (
        "main:\ncall malloc\nret",
        "run 0 0x2ffffff0",
        "not a run: line 1\n",
    ),
    (
        "main:\ncall malloc\nret",
        "run 0 0x90000000",
        "not a run: line 1\n",
    ),
    // The whole heap, and one byte more.
    (
        "main:\nsubl $4, %esp\nmovl $0x60000000, (%esp)\ncall malloc\naddl $4, %esp\nret",
        "auto 0 9",
        "exit 805306368\nend exited\n",
    ),
    (
        "main:\nsubl $4, %esp\nmovl $0x60000001, (%esp)\ncall malloc\naddl $4, %esp\nret",
        "auto 0 9",
        "end no heap\n",
    ),
    // The access to its word is not right: no choice is taken.
    (
        "main:\naddl $8, %esp\ncall malloc\nret",
        "run 0\nrun 0",
        "end fault\n",
    ),
    (
        "main:\naddl $8, %esp\ncall malloc\nret",
        "run 0\nrun 0 0",
        "not a run: line 2\n",
    ),
    // As the last instruction, where no place is left to go on.
    ("main:\ncall malloc", "run 0", "end fault\n"),
    ("main:\ncall malloc", "run 0 0", "end no heap\n"),
    // The end of 0 does nothing and keeps EAX.
    (
        "main:\nmovl $7, %eax\ncall free\nret",
        "auto 0 9",
        "exit 7\nend exited\n",
    ),
    ("main:\ncall free\nret", "run 0 0", "not a run: line 1\n"),
    (
        "main:\npushl %eax\ncall free\nret",
        "run 0\nrun 0",
        "not a run: line 2\n",
    ),
    // A block ends once; then its place is free.
    (
        "main:\ncall malloc\npushl %eax\ncall free\ncall free\nret",
        "auto 0 9",
        "end fault\n",
    ),
    (
        "main:\ncall malloc\npushl %eax\ncall free\ncall malloc\npopl %ecx\nret",
        "auto 0 9",
        "exit 805306368\nend exited\n",
    ),
];

// Main makes a thread of f with the argument 5 and returns its number; f prints its argument.
const TWO_THREADS: &str =
    "# extern print 1\nmain:\nsubl $8, %esp\nmovl $f, %eax\nmovl %eax, (%esp)\nmovl $5, 4(%esp)\ncall thread_create\naddl $8, %esp\nret\nf:\nmovl 4(%esp), %eax\npushl %eax\ncall print\npopl %eax\nret";

const CALLS: [Row; 18] = [
    // The function word is 0, where no instruction stands; a want of a stack is told before.
    ("main:\ncall thread_create\nret", "run 0", "end fault\n"),
    (
        "main:\ncall thread_create\nret",
        "run 0 0",
        "end no stack\n",
    ),
    // The stack of main, no multiple of 16, and a stack past the last one.
    (
        "main:\ncall thread_create\nret",
        "run 0 0x900ffff0",
        "not a run: line 1\n",
    ),
    (
        "main:\ncall thread_create\nret",
        "run 0 0x90100008",
        "not a run: line 1\n",
    ),
    (
        "main:\ncall thread_create\nret",
        "run 0 0xeff00010",
        "not a run: line 1\n",
    ),
    // The access to its second word is not right.
    (
        "main:\naddl $4, %esp\ncall thread_create\nret",
        "run 0\nrun 0",
        "end fault\n",
    ),
    (
        "main:\naddl $4, %esp\ncall thread_create\nret",
        "run 0\nrun 0 0x90100000",
        "not a run: line 2\n",
    ),
    // The exit needs no empty buffer, and no instruction behind it.
    (
        "main:\nmovl $4, (%esp)\ncall exit",
        "run 0\nrun 0",
        "exit 4\nend exited\n",
    ),
    ("main:\ncall exit", "run 0 0", "not a run: line 1\n"),
    ("main:\naddl $8, %esp\ncall exit", "auto 0 9", "end fault\n"),
    // An external takes its words from the stack; a third one would stand above it.
    (
        "# extern p 2\nmain:\ncall p\nret",
        "run 0",
        "call 0 p 0 0\nend running\n",
    ),
    ("# extern p 3\nmain:\ncall p\nret", "run 0", "end fault\n"),
    (
        "# extern p 0\nmain:\ncall p\nret",
        "run 0\nrun 0 -1\nrun 0",
        "call 0 p\nreturn 0 -1\nexit -1\nend exited\n",
    ),
    // As the last instruction: the call is shown, its return is a fault.
    (
        "# extern p 0\nmain:\ncall p",
        "run 0\nrun 0",
        "call 0 p\nend fault\n",
    ),
    // Flags are unknown behind a call.
    (
        "main:\ncmpl %eax, %eax\ncall free\nje main\nret",
        "auto 0 9",
        "end fault\n",
    ),
    // A thread begins with its argument above its stack pointer. One that has ended runs no more,
    // and its buffer drains.
    (
        TWO_THREADS,
        "auto 0 7\nauto 1 9\nauto 1 9\nrun 1\nrun 1\nrun 1",
        "call 1 print 5\nreturn 1 0\nnot a run: line 6\n",
    ),
    (
        TWO_THREADS,
        "auto 0 7\nhold 1 9\nhold 1 9\nhold 1 9\ndrain 1\ndrain 1",
        "call 1 print 5\nreturn 1 0\nnot a run: line 6\n",
    ),
    (TWO_THREADS, "auto 0 9\nhold 1 1", "exit 1\nend exited\n"),
];

const STACKS: [Row; 18] = [
    // The stack pointer at both ends of the stack, and past each.
    (
        "main:\nsubl $1048568, %esp\n.L:\njmp .L",
        "auto 0 9",
        "end running\n",
    ),
    (
        "main:\nsubl $1048569, %esp\n.L:\njmp .L",
        "auto 0 9",
        "end no stack\n",
    ),
    (
        "main:\naddl $8, %esp\n.L:\njmp .L",
        "auto 0 9",
        "end running\n",
    ),
    (
        "main:\naddl $9, %esp\n.L:\njmp .L",
        "auto 0 9",
        "end no stack\n",
    ),
    (
        "main:\nsubl $1048568, %esp\npushl %eax\nret",
        "auto 0 9",
        "end no stack\n",
    ),
    (
        "main:\naddl $8, %esp\npopl %eax\nret",
        "auto 0 9",
        "end no stack\n",
    ),
    ("main:\naddl $8, %esp\nret", "auto 0 9", "end no stack\n"),
    // It is tried before the next place and the access, unless the access gives it.
    ("main:\nsubl $1048569, %esp", "auto 0 9", "end no stack\n"),
    ("main:\nmovl 4, %esp\nret", "auto 0 9", "end fault\n"),
    ("main:\nleal 4, %esp\nret", "auto 0 9", "end no stack\n"),
    // A return to the word 0 below where the thread began.
    (
        "main:\ncall f\nret\nf:\nmovl $0, (%esp)\nret",
        "auto 0 9",
        "end fault\n",
    ),
    // Accesses: of no range, of no multiple, of no thread's stack, of data to its end.
    ("main:\nmovl 4, %eax\nret", "auto 0 9", "end fault\n"),
    ("main:\nmovl 1(%esp), %eax\nret", "auto 0 9", "end fault\n"),
    (
        "main:\nmovl 0x90100000, %eax\nret",
        "auto 0 9",
        "end fault\n",
    ),
    (
        ".data\na:\n.byte 1\n.byte 2\n.text\nmain:\nmovzwl a, %eax\nret",
        "auto 0 9",
        "exit 513\nend exited\n",
    ),
    (
        ".data\na:\n.byte 1\n.byte 2\n.text\nmain:\nmovl a, %eax\nret",
        "auto 0 9",
        "end fault\n",
    ),
    // A thread sees its own write of a byte among the bytes of memory.
    (
        ".data\na:\n.long 0x04030201\n.text\nmain:\nmovl $9, %eax\nmovb %al, a+1\nmovl a, %eax\nret",
        "hold 0 9",
        "exit 67307777\nend exited\n",
    ),
    // A locked instruction waits for the buffer.
    (
        ".data\na:\n.long 0\n.text\nmain:\nmovl $9, a\nxchgl %eax, a\nret",
        "run 0\nrun 0",
        "not a run: line 2\n",
    ),
];

const SCHEDULES: [Row; 8] = [
    ("main:", "run 0", "end fault\n"),
    ("main:", "run 0 0", "not a run: line 1\n"),
    ("main:\nmovl $1, %eax", "run 0", "end fault\n"),
    (
        "main:\njmp main",
        "hold 4294967295 18446744073709551615",
        "end running\n",
    ),
    ("main:\njmp main", "run 4294967295", "not a run: line 1\n"),
    ("main:\njmp main", "drain 4294967295", "not a run: line 1\n"),
    (
        "main:\njmp main",
        "hold 0 0\nlazy 0 0\nauto 0 0",
        "end running\n",
    ),
    (
        "main:\nret",
        "auto 0 18446744073709551615\nauto 0 18446744073709551615",
        "exit 0\nend exited\n",
    ),
];

fn expect_rows(rt: &impl Abort, alloc: Global, rows: &[Row]) -> Result<(), Fail> {
    for (text, schedule, lines) in rows {
        let printed = played(rt, alloc, text, schedule)?;
        assert!(rt; printed.as_slice() == lines.as_bytes(), "{text} {schedule}");
    }
    Ok(())
}

#[test]
fn blocks_of_the_heap(rt: HostRuntime) -> Result<(), Fail> {
    expect_rows(&rt, rt.alloc(), &BLOCKS)
}

#[test]
fn calls_of_the_outside_and_of_services(rt: HostRuntime) -> Result<(), Fail> {
    expect_rows(&rt, rt.alloc(), &CALLS)
}

#[test]
fn stacks_and_accesses(rt: HostRuntime) -> Result<(), Fail> {
    expect_rows(&rt, rt.alloc(), &STACKS)
}

#[test]
fn schedules_that_ask_for_too_much(rt: HostRuntime) -> Result<(), Fail> {
    expect_rows(&rt, rt.alloc(), &SCHEDULES)
}
