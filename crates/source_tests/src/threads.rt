//! Atomics, threads, buffers and fences, and the files of `examples/` with their schedules.

use crate::replayed::{AUTO, Row, assert_rows, replayed};
use std::test::Fail;
use tso_top::Status;

const BUFFERING: &str =
    "int x, y; void print(int r); void f(void *a) { int r; x = 1; r = y; print(r); } void g(void *a) { int r; y = 1; r = x; print(r); } int main(void) { thread_create(f, 0); thread_create(g, 0); while (1) ; return 0; }";

const BUFFERING_FENCED: &str =
    "int x, y; void print(int r); void f(void *a) { int r; x = 1; mfence(); r = y; print(r); } void g(void *a) { int r; y = 1; mfence(); r = x; print(r); } int main(void) { thread_create(f, 0); thread_create(g, 0); while (1) ; return 0; }";

const BUFFERING_LOCKED: &str =
    "int x, y, z; void print(int r); void f(void *a) { int r; x = 1; atomic_xchg(&z, 1); r = y; print(r); } void g(void *a) { int r; y = 1; atomic_xchg(&z, 1); r = x; print(r); } int main(void) { thread_create(f, 0); thread_create(g, 0); while (1) ; return 0; }";

const LENT_LOCAL: &str =
    "int *p; void print(int r); void w(void *a) { *p = 5; print(1); while (1) ; } int h(void) { int v; p = &v; v = 0; print(0); return v; } int main(void) { int r; thread_create(w, 0); r = h(); print(r); while (1) ; return 0; }";

const BYTES: &str =
    "int w; void print(int r); int main(void) { char *p; short *s; p = (char *)&w; w = 0; p[0] = 1; print(0); p[1] = 2; s = (short *)p; s[1] = 3; return w; }";

const ENDS: &str =
    "int x; void f(void *a) { x = 5; } int main(void) { thread_create(f, 0); while (x == 0) ; return x; }";

const ARG: &str =
    "void print(int r); void f(void *a) { print((int)a); } int main(void) { int t; t = thread_create(f, (void *)5); print(t); t = thread_create(f, (void *)-6); print(t); return 0; }";

const SELF: &str =
    "int x; void print(int r); int main(void) { int r; x = 1; x = 2; r = x; print(r); while (1) ; return 0; }";

const LOST: &str =
    "int x; void print(int r); void f(void *a) { int r; r = x; x = r + 1; } int main(void) { int r; thread_create(f, 0); r = x; x = r + 1; mfence(); r = x; print(r); return 0; }";

const ADDED: &str =
    "int x; void print(int r); void f(void *a) { atomic_add(&x, 1); } int main(void) { int r; thread_create(f, 0); atomic_add(&x, 1); mfence(); r = x; print(r); return 0; }";

const SEES: &str =
    "int x; void print(int r); void w(void *p) { x = 5; } int main(void) { int a; int b; thread_create(w, 0); a = x; b = x; print(a - b); return 0; }";

// The atomics answer the old value.
const ATOMICS: [Row; 9] = [
    (
        "int x = 3; int main(void) { int r; r = atomic_cas(&x, 3, 9); return r * 10 + x; }",
        AUTO,
        Status::Done,
        "exit 39\nend exited\n",
    ),
    (
        "int x = 3; int main(void) { int r; r = atomic_cas(&x, 4, 9); return r * 10 + x; }",
        AUTO,
        Status::Done,
        "exit 33\nend exited\n",
    ),
    (
        "int x = 3; int main(void) { int r; r = atomic_add(&x, 5); return r * 10 + x; }",
        AUTO,
        Status::Done,
        "exit 38\nend exited\n",
    ),
    (
        "int x = 2147483647; int main(void) { atomic_add(&x, 1); return x; }",
        AUTO,
        Status::Done,
        "exit -2147483648\nend exited\n",
    ),
    (
        "int x = 3; int main(void) { int r; r = atomic_xchg(&x, 5); return r * 10 + x; }",
        AUTO,
        Status::Done,
        "exit 35\nend exited\n",
    ),
    (
        "unsigned x; int main(void) { unsigned u; u = atomic_add(&x, -1); return u == 0 && x == 4294967295u; }",
        AUTO,
        Status::Done,
        "exit 1\nend exited\n",
    ),
    (
        "int x; int *p; int main(void) { int *q; q = atomic_xchg(&p, &x); *p = 6; return q == 0 ? x : 0; }",
        AUTO,
        Status::Done,
        "exit 6\nend exited\n",
    ),
    (
        "int main(void) { int r; int v; v = 3; r = atomic_cas(&v, 3, 4); return r * 10 + v; }",
        AUTO,
        Status::Done,
        "exit 34\nend exited\n",
    ),
    (
        "int main(void) { int r; int v; v = 3; r = atomic_cas(&v, 3, 4); return r * 10 + v; }",
        "lazy 0 100000",
        Status::Done,
        "exit 34\nend exited\n",
    ),
];

#[test]
fn atomics(rt: HostRuntime) -> Result<(), Fail> {
    assert_rows(&rt, rt.alloc(), &ATOMICS)
}

// Threads, buffers and fences.
const THREADS: [Row; 34] = [
    (
        BUFFERING,
        "lazy 0 100000\nhold 1 100000\nhold 2 100000",
        Status::Done,
        "call 1 print 0\ncall 2 print 0\nend running\n",
    ),
    (
        BUFFERING,
        "lazy 0 100000\nauto 1 100000\nauto 2 100000",
        Status::Done,
        "call 1 print 0\ncall 2 print 1\nend running\n",
    ),
    (
        BUFFERING,
        "lazy 0 100000\nhold 1 100000\ndrain 1\nhold 2 100000",
        Status::Done,
        "call 1 print 0\ncall 2 print 1\nend running\n",
    ),
    (
        BUFFERING,
        "lazy 0 100000\nhold 2 100000\nhold 1 100000\nlazy 1 100000\nlazy 2 100000",
        Status::Done,
        "call 2 print 0\ncall 1 print 0\nreturn 1 0\nreturn 2 0\nend running\n",
    ),
    (
        BUFFERING,
        "lazy 0 100000\nhold 1 100000\nrun 1 -3\nhold 2 100000\nrun 2 0x10",
        Status::Done,
        "call 1 print 0\nreturn 1 -3\ncall 2 print 0\nreturn 2 16\nend running\n",
    ),
    (
        BUFFERING_FENCED,
        "lazy 0 100000\nhold 1 100000\nrun 1",
        Status::NotARun { line: 3 },
        "not a run: line 3\n",
    ),
    (
        BUFFERING_FENCED,
        "lazy 0 100000\nhold 1 100000\ndrain 1\nhold 1 100000",
        Status::Done,
        "call 1 print 0\nend running\n",
    ),
    (
        BUFFERING_FENCED,
        "lazy 0 100000\nlazy 1 100000\nlazy 2 100000",
        Status::Done,
        "call 1 print 0\ncall 2 print 1\nend running\n",
    ),
    (
        BUFFERING_LOCKED,
        "lazy 0 100000\nhold 1 100000\nrun 1",
        Status::NotARun { line: 3 },
        "not a run: line 3\n",
    ),
    (
        BUFFERING_LOCKED,
        "lazy 0 100000\nlazy 1 100000\nlazy 2 100000",
        Status::Done,
        "call 1 print 0\ncall 2 print 1\nend running\n",
    ),
    (
        LENT_LOCAL,
        "lazy 0 1000\nauto 0 1000\nhold 1 1000\ndrain 1\nlazy 0 1000",
        Status::Done,
        "call 0 print 0\nreturn 0 0\ncall 1 print 1\ncall 0 print 5\nend running\n",
    ),
    (
        LENT_LOCAL,
        "lazy 0 1000\nauto 0 1000\nhold 1 1000\nlazy 0 1000\ndrain 0\ndrain 1",
        Status::Done,
        "call 0 print 0\nreturn 0 0\ncall 1 print 1\ncall 0 print 0\nend wrong\n",
    ),
    (
        BYTES,
        "hold 0 100000\ndrain 0\ndrain 0\nhold 0 100000\nhold 0 100000",
        Status::Done,
        "call 0 print 0\nreturn 0 0\nexit 197121\nend exited\n",
    ),
    (
        BYTES,
        "hold 0 100000\ndrain 0\ndrain 0\ndrain 0",
        Status::NotARun { line: 4 },
        "call 0 print 0\nnot a run: line 4\n",
    ),
    (
        ENDS,
        "hold 0 100\nhold 1 100\nrun 1",
        Status::NotARun { line: 3 },
        "not a run: line 3\n",
    ),
    (
        ENDS,
        "hold 0 100\nhold 1 100\ndrain 1\nhold 0 100",
        Status::Done,
        "exit 5\nend exited\n",
    ),
    (
        ENDS,
        "hold 0 100\nhold 1 100\ndrain 1\ndrain 1",
        Status::NotARun { line: 4 },
        "not a run: line 4\n",
    ),
    (
        ENDS,
        "hold 0 100\nhold 1 100\ndrain 1\nhold 0 100\nrun 1",
        Status::NotARun { line: 5 },
        "exit 5\nnot a run: line 5\n",
    ),
    (
        ENDS,
        "hold 0 100\nhold 1 100\nrun 2",
        Status::NotARun { line: 3 },
        "not a run: line 3\n",
    ),
    (
        ARG,
        "hold 0 100\nhold 1 100\nhold 0 100\nhold 0 100\nhold 2 100",
        Status::Done,
        "call 0 print 1\ncall 1 print 5\nreturn 0 0\ncall 0 print 2\ncall 2 print -6\nend running\n",
    ),
    (
        SELF,
        "hold 0 100",
        Status::Done,
        "call 0 print 2\nend running\n",
    ),
    (
        SELF,
        "hold 0 100\ndrain 0\ndrain 0\ndrain 0",
        Status::NotARun { line: 4 },
        "call 0 print 2\nnot a run: line 4\n",
    ),
    (
        LOST,
        "hold 0 6\nhold 1 100\ndrain 1\nlazy 0 100",
        Status::Done,
        "call 0 print 1\nend running\n",
    ),
    (
        LOST,
        "hold 0 4\nauto 1 100\nlazy 0 100",
        Status::Done,
        "call 0 print 2\nend running\n",
    ),
    (
        ADDED,
        "hold 0 3\nhold 1 100\nlazy 0 100",
        Status::Done,
        "call 0 print 2\nend running\n",
    ),
    (
        SEES,
        "hold 0 7\nhold 1 3\ndrain 1\nhold 0 100000",
        Status::Done,
        "call 0 print -5\nend running\n",
    ),
    (
        SEES,
        "hold 0 7\nhold 1 3\nhold 0 100000",
        Status::Done,
        "call 0 print 0\nend running\n",
    ),
    (
        "int x; void f(void *a) { } int main(void) { x = 1; thread_create(f, 0); return 0; }",
        "hold 0 100\nrun 0",
        Status::NotARun { line: 2 },
        "not a run: line 2\n",
    ),
    (
        "int x; int main(void) { x = 1; malloc(1); return 0; }",
        "hold 0 100\nrun 0 0x30000000",
        Status::NotARun { line: 2 },
        "not a run: line 2\n",
    ),
    (
        "int x; int main(void) { x = 1; free(0); return 0; }",
        "hold 0 100\nrun 0",
        Status::NotARun { line: 2 },
        "not a run: line 2\n",
    ),
    (
        "int x, y; int main(void) { x = 1; atomic_cas(&y, 0, 1); return 0; }",
        "hold 0 100\nrun 0",
        Status::NotARun { line: 2 },
        "not a run: line 2\n",
    ),
    (
        "int x, y; int main(void) { x = 1; atomic_add(&y, 1); return 0; }",
        "hold 0 100\nrun 0",
        Status::NotARun { line: 2 },
        "not a run: line 2\n",
    ),
    (
        "int x, y; int main(void) { x = 1; atomic_xchg(&y, 1); return 0; }",
        "hold 0 100\ndrain 0\nhold 0 100",
        Status::Done,
        "exit 0\nend exited\n",
    ),
    (
        "int x; int main(void) { x = 1; exit(4); return 0; }",
        "hold 0 100\ndrain 0",
        Status::NotARun { line: 2 },
        "exit 4\nnot a run: line 2\n",
    ),
];

#[test]
fn threads_and_their_buffers(rt: HostRuntime) -> Result<(), Fail> {
    assert_rows(&rt, rt.alloc(), &THREADS)
}

// `examples/store_buffering.c`, and the schedule beside it.
const STORE_BUFFERING: &str =
    "// Store buffering: each of two threads writes one word and then prints the other one.\nint x, y;\nvoid print(int r);\n\nvoid f(void *a) {\n    int r;\n    y = 1;\n    r = x;\n    print(r);\n    while (1) ;\n}\n\nint main(void) {\n    int r;\n    thread_create(f, 0);\n    x = 1;\n    r = y;\n    print(r);\n    return 0;\n}\n";

const STORE_BUFFERING_SCHEDULE: &str =
    "# Each thread runs up to its event; its write of x or y stays in its buffer.\nlazy 0 100\nhold 1 100\n";

// `examples/store_buffering_fenced.c`, and the schedule beside it.
const STORE_BUFFERING_FENCED: &str =
    "// Store buffering with a fence between each thread's write and its read: one of the two reads 1.\nint x, y;\nvoid print(int r);\n\nvoid f(void *a) {\n    int r;\n    y = 1;\n    mfence();\n    r = x;\n    print(r);\n    while (1) ;\n}\n\nint main(void) {\n    int r;\n    thread_create(f, 0);\n    x = 1;\n    mfence();\n    r = y;\n    print(r);\n    return 0;\n}\n";

const STORE_BUFFERING_FENCED_SCHEDULE: &str =
    "# A thread runs as long as it can. Its fence lets it run on only when its write has reached memory.\nlazy 0 100\nlazy 1 100\n";

// `examples/message_passing.c`, and the schedule beside it.
const MESSAGE_PASSING: &str =
    "// Message passing: one thread writes a message and then a flag, the other one waits for the flag.\nint message, flag;\nvoid print(int r);\n\nvoid writer(void *a) {\n    message = 42;\n    flag = 1;\n}\n\nint main(void) {\n    int r;\n    thread_create(writer, 0);\n    while (flag == 0) ;\n    r = message;\n    print(r);\n    return 0;\n}\n";

const MESSAGE_PASSING_SCHEDULE: &str =
    "# The writer ends with both writes in its buffer. Main sees the flag only behind the second drain,\n# and by then the message has reached memory: a buffer drains in order.\nlazy 0 100\nhold 1 100\nlazy 0 100\ndrain 1\nlazy 0 100\ndrain 1\nlazy 0 100\nrun 0\nlazy 0 100\n";

// `examples/spinlock.c`, and the schedule beside it.
const SPINLOCK: &str =
    "// A spinlock: three threads add to a count, three times each, and none of the nine is lost.\nint lock, count, done;\nvoid print(int r);\n\nvoid acquire(void) {\n    int old;\n    do {\n        old = atomic_xchg(&lock, 1);\n    } while (old != 0);\n}\n\n// A plain write is enough: the writes before it reach memory first.\nvoid release(void) {\n    lock = 0;\n}\n\nvoid work(void *a) {\n    int i;\n    for (i = 0; i < 3; i++) {\n        acquire();\n        count = count + 1;\n        release();\n    }\n    atomic_add(&done, 1);\n}\n\nint main(void) {\n    int r;\n    thread_create(work, 0);\n    thread_create(work, 0);\n    work(0);\n    while (done < 3) ;\n    r = count;\n    print(r);\n    return 0;\n}\n";

const SPINLOCK_SCHEDULE: &str =
    "# The threads take turns of odd lengths, so that each waits for the lock again and again.\nlazy 0 61\nlazy 1 37\nlazy 2 43\nlazy 0 61\nlazy 1 37\nlazy 2 43\nlazy 0 61\nlazy 1 37\nlazy 2 43\nlazy 0 61\nlazy 1 37\nlazy 2 43\nlazy 0 61\nlazy 1 37\nlazy 2 43\nlazy 0 61\nlazy 1 37\nlazy 2 43\nlazy 0 61\nlazy 1 37\nlazy 2 43\nlazy 0 61\nlazy 1 37\nlazy 2 43\nlazy 0 61\nlazy 1 37\nlazy 2 43\nlazy 0 61\nlazy 1 37\nlazy 2 43\nlazy 0 61\nlazy 1 37\nlazy 2 43\nlazy 0 61\nlazy 1 37\nlazy 2 43\nlazy 1 1000\nlazy 2 1000\nlazy 0 1000\nlazy 1 1000\nlazy 0 1000\nlazy 0 1000\nlazy 0 1000\n";

// `examples/treiber_stack.c`, and the schedule beside it.
const TREIBER_STACK: &str =
    "# 1 \"stack.c\"\ntypedef struct node { int value; struct node *next; } node;\nextern void print(int);\nstatic node *head;\nstatic int done;\nstatic void push(int v) {\n  node *n, *old, *seen;\n  n = malloc(sizeof(node));\n  n->value = v;\n  do { old = head; n->next = old; seen = atomic_cas(&head, old, n); } while (seen != old);\n}\nstatic int pop(void) {\n  node *old, *next, *seen;\n  int v;\n  do {\n    old = head;\n    if (old == 0) return -1;\n    next = old->next;\n    seen = atomic_cas(&head, old, next);\n  } while (seen != old);\n  v = old->value;\n  free(old);\n  return v;\n}\nstatic void worker(void *arg) { push(2); atomic_add(&done, 1); }\nint main(void) {\n  int a, b;\n  thread_create(worker, 0);\n  push(1);\n  while (done == 0) ;\n  a = pop();\n  push(a + 3);   /* takes the place that pop freed */\n  b = pop();\n  print(a);\n  print(b);\n  return a + b;\n}\n";

const TREIBER_STACK_SCHEDULE: &str =
    "# The worker reads the head and then waits while main pushes 1: its compare and swap fails, and it\n# tries again and pushes 2. Main pops 2, pushes 5 into the block that was freed, and pops it.\nlazy 0 4\nlazy 1 25\nlazy 0 60\nlazy 1 100000\nlazy 0 100000\nlazy 0 100000\nlazy 0 100000\nlazy 0 100000\nlazy 0 100000\n";

// A file of `examples/`, its schedule, and what is printed.
const EXAMPLES: [(&str, &str, &str); 5] = [
    (
        STORE_BUFFERING,
        STORE_BUFFERING_SCHEDULE,
        "call 0 print 0\ncall 1 print 0\nend running\n",
    ),
    (
        STORE_BUFFERING_FENCED,
        STORE_BUFFERING_FENCED_SCHEDULE,
        "call 0 print 0\ncall 1 print 1\nend running\n",
    ),
    (
        MESSAGE_PASSING,
        MESSAGE_PASSING_SCHEDULE,
        "call 0 print 42\nreturn 0 0\nexit 0\nend exited\n",
    ),
    (
        SPINLOCK,
        SPINLOCK_SCHEDULE,
        "call 0 print 9\nreturn 0 0\nexit 0\nend exited\n",
    ),
    (
        TREIBER_STACK,
        TREIBER_STACK_SCHEDULE,
        "call 0 print 2\nreturn 0 0\ncall 0 print 5\nreturn 0 0\nexit 7\nend exited\n",
    ),
];

#[test]
fn examples_as_they_stand(rt: HostRuntime) -> Result<(), Fail> {
    let alloc = rt.alloc();
    for (text, schedule, lines) in EXAMPLES {
        let (got, printed) = replayed(alloc, text.as_bytes(), schedule.as_bytes())?;
        assert_eq!(rt; got, Status::Done, "{text}");
        assert!(rt; printed.as_slice() == lines.as_bytes(), "{text}");
    }
    Ok(())
}

// Other schedules of the stack of `examples/treiber_stack.c`.
const STACKS: [(&str, Status, &str); 6] = [
    (
        "lazy 0 100000\nlazy 1 100000\nlazy 0 100000\nlazy 0 100000\nlazy 0 100000\nlazy 0 100000\nlazy 0 100000",
        Status::Done,
        "call 0 print 2\nreturn 0 0\ncall 0 print 5\nreturn 0 0\nexit 7\nend exited\n",
    ),
    (
        "auto 0 100000\nauto 1 100000\nauto 0 100000\nauto 0 100000\nauto 0 100000\nauto 0 100000\nauto 0 100000",
        Status::Done,
        "call 0 print 2\nreturn 0 0\ncall 0 print 5\nreturn 0 0\nexit 7\nend exited\n",
    ),
    (
        "lazy 0 4\nlazy 1 100000\nlazy 0 100000\nlazy 0 100000\nlazy 0 100000\nlazy 0 100000\nlazy 0 100000",
        Status::Done,
        "call 0 print 1\nreturn 0 0\ncall 0 print 4\nreturn 0 0\nexit 5\nend exited\n",
    ),
    (
        "lazy 0 25\nauto 1 100000\nlazy 0 100000\nlazy 0 100000\nlazy 0 100000\nlazy 0 100000\nlazy 0 100000",
        Status::Done,
        "call 0 print 1\nreturn 0 0\ncall 0 print 4\nreturn 0 0\nexit 5\nend exited\n",
    ),
    (
        "lazy 0 100000\nhold 1 100000\nrun 1",
        Status::NotARun { line: 3 },
        "not a run: line 3\n",
    ),
    ("lazy 0 4\nhold 1 6\nrun 1 0", Status::Done, "end no heap\n"),
];

#[test]
fn a_stack_without_a_lock(rt: HostRuntime) -> Result<(), Fail> {
    let alloc = rt.alloc();
    for (schedule, status, lines) in STACKS {
        let (got, printed) = replayed(alloc, TREIBER_STACK.as_bytes(), schedule.as_bytes())?;
        assert_eq!(rt; got, status, "{schedule}");
        assert!(rt; printed.as_slice() == lines.as_bytes(), "{schedule}");
    }
    Ok(())
}
