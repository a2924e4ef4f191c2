//! Where blocks of the heap and locals may stand.

use crate::replayed::{AUTO, BLOCK, HOLD, Row, assert_rows};
use std::test::Fail;
use tso_top::Status;

const TWO: &str =
    "int main(void) { char *p; char *q; p = malloc(17); q = malloc(1); return q - p; }";

const INT_LOCAL: &str = "int main(void) { int v; int *p; p = &v; return (int)p; }";

const CHAR_LOCAL: &str = "int main(void) { char c; char *p; p = &c; return (int)p; }";

const LOCAL_DRAINS: &str =
    "void print(int r); int main(void) { int v; int *p; p = &v; *p = 1; print(0); return v; }";

const LOCALS: &str =
    "void print(int r); void f(void *a) { int v; int *p; p = &v; print((int)p); } int main(void) { thread_create(f, 0); thread_create(f, 0); while (1) ; return 0; }";

// Blocks of the heap and where they may stand. The heap has 1,610,612,736 bytes from 0x30000000 on.
const HEAP: [Row; 23] = [
    (
        BLOCK,
        "run 0\nrun 0\nrun 0\nrun 0 0",
        Status::Done,
        "end no heap\n",
    ),
    (
        BLOCK,
        "run 0\nrun 0\nrun 0\nrun 0 5",
        Status::NotARun { line: 4 },
        "not a run: line 4\n",
    ),
    (
        BLOCK,
        "hold 0 3\nrun 0 0x30000000\nhold 0 100000",
        Status::Done,
        "exit 0\nend exited\n",
    ),
    (
        BLOCK,
        "hold 0 3\nrun 0 0x30000008",
        Status::NotARun { line: 2 },
        "not a run: line 2\n",
    ),
    (
        BLOCK,
        "hold 0 3\nrun 0 0x2ffffff0",
        Status::NotARun { line: 2 },
        "not a run: line 2\n",
    ),
    (
        BLOCK,
        "hold 0 3\nrun 0 0x8ffffff0\nhold 0 100000",
        Status::Done,
        "exit 0\nend exited\n",
    ),
    (
        BLOCK,
        "hold 0 3\nrun 0 0x90000000",
        Status::NotARun { line: 2 },
        "not a run: line 2\n",
    ),
    (
        BLOCK,
        "hold 0 3\nrun 0 0\nrun 0",
        Status::NotARun { line: 3 },
        "not a run: line 3\n",
    ),
    (TWO, AUTO, Status::Done, "exit 32\nend exited\n"),
    (
        TWO,
        "hold 0 3\nrun 0 0x8ffffff0",
        Status::NotARun { line: 2 },
        "not a run: line 2\n",
    ),
    (
        TWO,
        "hold 0 3\nrun 0 0x8fffffe0\nauto 0 100000",
        Status::Done,
        "exit -1610612704\nend exited\n",
    ),
    (
        TWO,
        "hold 0 3\nrun 0 0x40000000\nauto 0 100000",
        Status::Done,
        "exit -268435456\nend exited\n",
    ),
    (
        TWO,
        "hold 0 3\nrun 0 0x30000010\nhold 0 9\nrun 0 0x30000020",
        Status::NotARun { line: 4 },
        "not a run: line 4\n",
    ),
    (
        TWO,
        "hold 0 3\nrun 0 0x30000010\nauto 0 100000",
        Status::Done,
        "exit -16\nend exited\n",
    ),
    (
        "int main(void) { char *p; char *q; p = malloc(0); q = malloc(0); return q - p; }",
        AUTO,
        Status::Done,
        "exit 16\nend exited\n",
    ),
    (
        "int main(void) { char *p; p = malloc(0); *p = 5; return *p; }",
        AUTO,
        Status::Done,
        "exit 5\nend exited\n",
    ),
    (
        "int main(void) { char *p; p = malloc(0); return p[1]; }",
        AUTO,
        Status::Done,
        "end wrong\n",
    ),
    (
        "int main(void) { char *p; char *q; p = malloc(8); free(p); q = malloc(8); return q == p; }",
        AUTO,
        Status::Done,
        "exit 1\nend exited\n",
    ),
    (
        "int main(void) { malloc(1610612736u); return 3; }",
        AUTO,
        Status::Done,
        "exit 3\nend exited\n",
    ),
    (
        "int main(void) { malloc(1610612737u); return 3; }",
        AUTO,
        Status::Done,
        "end no heap\n",
    ),
    (
        "int main(void) { malloc(4294967295u); return 3; }",
        AUTO,
        Status::Done,
        "end no heap\n",
    ),
    (
        "int main(void) { malloc(1610612736u); malloc(1); return 3; }",
        AUTO,
        Status::Done,
        "end no heap\n",
    ),
    (
        "int main(void) { free(0); return 3; }",
        AUTO,
        Status::Done,
        "exit 3\nend exited\n",
    ),
];

#[test]
fn blocks_of_the_heap(rt: HostRuntime) -> Result<(), Fail> {
    assert_rows(&rt, rt.alloc(), &HEAP)
}

// Locals and where they may stand: at a multiple of their alignment from 0x90000000 up to 0xEFFFFFFF, beside
// each other, and in the place of one whose end waits in the own buffer.
const PLACES: [Row; 24] = [
    (
        INT_LOCAL,
        "run 0\nauto 0 100000",
        Status::Done,
        "exit -1879048192\nend exited\n",
    ),
    (
        INT_LOCAL,
        "run 0 0x90000004\nauto 0 100000",
        Status::Done,
        "exit -1879048188\nend exited\n",
    ),
    (
        INT_LOCAL,
        "run 0 0xeffffffc\nauto 0 100000",
        Status::Done,
        "exit -268435460\nend exited\n",
    ),
    (
        INT_LOCAL,
        "run 0 0x90000002",
        Status::NotARun { line: 1 },
        "not a run: line 1\n",
    ),
    (
        INT_LOCAL,
        "run 0 0xeffffffe",
        Status::NotARun { line: 1 },
        "not a run: line 1\n",
    ),
    (
        INT_LOCAL,
        "run 0 0x8ffffffc",
        Status::NotARun { line: 1 },
        "not a run: line 1\n",
    ),
    (
        INT_LOCAL,
        "run 0 0xf0000000",
        Status::NotARun { line: 1 },
        "not a run: line 1\n",
    ),
    (
        INT_LOCAL,
        "run 0 0",
        Status::NotARun { line: 1 },
        "not a run: line 1\n",
    ),
    (
        CHAR_LOCAL,
        "run 0 0xefffffff\nauto 0 100000",
        Status::Done,
        "exit -268435457\nend exited\n",
    ),
    (
        CHAR_LOCAL,
        "run 0 -1879048191\nauto 0 100000",
        Status::Done,
        "exit -1879048191\nend exited\n",
    ),
    (
        "int main(void) { char a[3]; short s[1]; int v; return (int)&v - (int)a; }",
        AUTO,
        Status::Done,
        "exit 32\nend exited\n",
    ),
    (
        "int main(void) { char a[3]; int v; return (int)&v - (int)a; }",
        "run 0 0x90000001\nrun 0 0x90000004\nauto 0 100000",
        Status::Done,
        "exit 3\nend exited\n",
    ),
    (
        "int main(void) { char a[3]; int v; return (int)&v - (int)a; }",
        "run 0 0x90000002\nrun 0 0x90000004",
        Status::NotARun { line: 2 },
        "not a run: line 2\n",
    ),
    (
        "int main(void) { char a[3]; int v; return (int)&v - (int)a; }",
        "run 0 0x90000005\nrun 0 0x90000000\nauto 0 100000",
        Status::Done,
        "exit -5\nend exited\n",
    ),
    (
        "int f(void) { int v; return (int)&v; } int main(void) { int a; int c; a = f(); c = f(); return a == c; }",
        HOLD,
        Status::Done,
        "exit 1\nend exited\n",
    ),
    (
        "int f(void) { int v; return (int)&v; } int main(void) { int a; int c; a = f(); c = f(); return a == c; }",
        AUTO,
        Status::Done,
        "exit 1\nend exited\n",
    ),
    (
        "int f(int n) { int v; int r; v = (int)&v; if (n == 0) return v; r = f(n - 1); return r - v; } int main(void) { return f(1); }",
        HOLD,
        Status::Done,
        "exit 16\nend exited\n",
    ),
    (
        LOCAL_DRAINS,
        "hold 0 100000\ndrain 0\ndrain 0\ndrain 0",
        Status::NotARun { line: 4 },
        "call 0 print 0\nnot a run: line 4\n",
    ),
    (
        LOCAL_DRAINS,
        "hold 0 100000\ndrain 0\ndrain 0\nhold 0 100000\nhold 0 100000",
        Status::Done,
        "call 0 print 0\nreturn 0 0\nexit 1\nend exited\n",
    ),
    (
        LOCALS,
        "lazy 0 100\nhold 1 100\nhold 2 100",
        Status::Done,
        "call 1 print -1879048192\ncall 2 print -1879048176\nend running\n",
    ),
    (
        LOCALS,
        "lazy 0 100\nhold 1 1\nrun 2 0x90000000",
        Status::NotARun { line: 3 },
        "not a run: line 3\n",
    ),
    (
        LOCALS,
        "lazy 0 100\nhold 1 1\nrun 2 0x90000004\nhold 2 100",
        Status::Done,
        "call 2 print -1879048188\nend running\n",
    ),
    (
        LOCALS,
        "lazy 0 100\nhold 1 100\nrun 1\nhold 1 100\nhold 2 100",
        Status::Done,
        "call 1 print -1879048192\nreturn 1 0\ncall 2 print -1879048176\nend running\n",
    ),
    (
        LOCALS,
        "lazy 0 100\nauto 1 100\nauto 1 100\nauto 1 100\nhold 2 100",
        Status::Done,
        "call 1 print -1879048192\nreturn 1 0\ncall 2 print -1879048192\nend running\n",
    ),
];

#[test]
fn places_of_locals(rt: HostRuntime) -> Result<(), Fail> {
    assert_rows(&rt, rt.alloc(), &PLACES)
}
