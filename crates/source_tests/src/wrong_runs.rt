//! Runs that go wrong beside runs that nearly do, and calls of external functions.

use crate::replayed::{AUTO, HOLD, Row, assert_rows};
use std::test::Fail;
use tso_top::Status;

const GET: &str = "int get(void); int main(void) { return get(); }";

const PRINTS: &str = "void print(void); int main(void) { print(); return 0; }";

// In all tables a row is a file, a schedule, the status and the lines.

// What no operation gives a value, and undefined values that are looked at; the last few beside them call out.
const UNDEFINED: [Row; 22] = [
    (
        "int main(void) { int a; int b; a = -2147483647 - 1; b = -1; return a / b; }",
        AUTO,
        Status::Done,
        "end wrong\n",
    ),
    (
        "int main(void) { int a; int b; a = -2147483647 - 1; b = -1; return a % b; }",
        AUTO,
        Status::Done,
        "end wrong\n",
    ),
    (
        "void print(int r); int main(void) { int a; print(a); return 0; }",
        AUTO,
        Status::Done,
        "end wrong\n",
    ),
    (
        "int x; int main(void) { return 1 / x; }",
        AUTO,
        Status::Done,
        "end wrong\n",
    ),
    (
        "int x; int main(void) { return 1 % x; }",
        AUTO,
        Status::Done,
        "end wrong\n",
    ),
    (
        "unsigned x; int main(void) { return 1u / x; }",
        AUTO,
        Status::Done,
        "end wrong\n",
    ),
    (
        "int x = 32; int main(void) { return 1 << x; }",
        AUTO,
        Status::Done,
        "end wrong\n",
    ),
    (
        "int x = -1; int main(void) { return 1 >> x; }",
        AUTO,
        Status::Done,
        "end wrong\n",
    ),
    (
        "int main(void) { int r; if (r) ; return 0; }",
        AUTO,
        Status::Done,
        "end wrong\n",
    ),
    (
        "int main(void) { int r; while (r) ; return 0; }",
        AUTO,
        Status::Done,
        "end wrong\n",
    ),
    (
        "int main(void) { int r; switch (r) { } return 0; }",
        AUTO,
        Status::Done,
        "end wrong\n",
    ),
    (
        "int main(void) { int r; return r && 1; }",
        AUTO,
        Status::Done,
        "end wrong\n",
    ),
    (
        "int main(void) { int r; return r || 1; }",
        AUTO,
        Status::Done,
        "end wrong\n",
    ),
    (
        "int main(void) { int r; return r ? 1 : 1; }",
        AUTO,
        Status::Done,
        "end wrong\n",
    ),
    (
        "int main(void) { int r; return 1 && r; }",
        AUTO,
        Status::Done,
        "end wrong\n",
    ),
    (
        "int main(void) { int r; return 8 / r; }",
        AUTO,
        Status::Done,
        "end wrong\n",
    ),
    (
        "int main(void) { int r; return r; }",
        AUTO,
        Status::Done,
        "end wrong\n",
    ),
    (
        "int main(void) { int r; exit(r); return 0; }",
        AUTO,
        Status::Done,
        "end wrong\n",
    ),
    (
        "int f(void) { } int main(void) { return f(); }",
        AUTO,
        Status::Done,
        "end wrong\n",
    ),
    (
        "int x = 1; int main(void) { int r; x = r; return x; }",
        AUTO,
        Status::Done,
        "end wrong\n",
    ),
    (
        "void print(int r); int x; int main(void) { print(1); return 1 / x; }",
        "auto 0 100000\nauto 0 100000\nauto 0 100000",
        Status::Done,
        "call 0 print 1\nreturn 0 0\nend wrong\n",
    ),
    (
        "void print(int r); int main(void) { int a; print(a); return 0; }",
        "auto 0 100000\nrun 0",
        Status::NotARun { line: 2 },
        "not a run: line 2\n",
    ),
];

#[test]
fn undefined_values(rt: HostRuntime) -> Result<(), Fail> {
    assert_rows(&rt, rt.alloc(), &UNDEFINED)
}

// Loads, stores and calls of what is no such object or function; a store to nowhere that stays in its buffer is not
// wrong yet.
const ADDRESSES: [Row; 16] = [
    (
        "int main(void) { int *p; p = 0; return *p; }",
        AUTO,
        Status::Done,
        "end wrong\n",
    ),
    (
        "int w[2]; int main(void) { char *p; p = (char *)&w; return *(int *)(p + 2); }",
        AUTO,
        Status::Done,
        "end wrong\n",
    ),
    (
        "int a[4]; int main(void) { return a[4]; }",
        AUTO,
        Status::Done,
        "end wrong\n",
    ),
    (
        "int a[4]; int main(void) { return a[-1]; }",
        AUTO,
        Status::Done,
        "end wrong\n",
    ),
    (
        "char c; int n; int main(void) { char *p; p = &c; return p[1]; }",
        AUTO,
        Status::Done,
        "end wrong\n",
    ),
    (
        "int main(void) { int *p; p = (int *)main; return *p; }",
        AUTO,
        Status::Done,
        "end wrong\n",
    ),
    (
        "int main(void) { int *p; p = malloc(4); return *p; }",
        AUTO,
        Status::Done,
        "end wrong\n",
    ),
    (
        "int main(void) { char *p; int *q; p = malloc(4); *p = 1; q = (int *)p; return *q; }",
        AUTO,
        Status::Done,
        "end wrong\n",
    ),
    (
        "int main(void) { int *p; p = malloc(4); *p = 1; free(p); return *p; }",
        AUTO,
        Status::Done,
        "end wrong\n",
    ),
    (
        "int *f(void) { int v; v = 1; return &v; } int main(void) { int *p; p = f(); return *p; }",
        AUTO,
        Status::Done,
        "end wrong\n",
    ),
    (
        "int main(void) { int *p; p = 0; *p = 1; return 3; }",
        AUTO,
        Status::Done,
        "end wrong\n",
    ),
    (
        "int main(void) { int *p; p = 0; *p = 1; return 3; }",
        HOLD,
        Status::Done,
        "exit 3\nend exited\n",
    ),
    (
        "int x; int main(void) { int *p; p = 0; *p = 1; return x; }",
        HOLD,
        Status::Done,
        "end wrong\n",
    ),
    (
        "int main(void) { int (*p)(void); p = 0; return p(); }",
        AUTO,
        Status::Done,
        "end wrong\n",
    ),
    (
        "int x; int main(void) { int (*p)(void); p = (int (*)(void))&x; return p(); }",
        AUTO,
        Status::Done,
        "end wrong\n",
    ),
    (
        "int f(void) { return 1; } int main(void) { int (*p)(int); p = (int (*)(int))f; return p(1); }",
        AUTO,
        Status::Done,
        "end wrong\n",
    ),
];

#[test]
fn addresses_of_nothing(rt: HostRuntime) -> Result<(), Fail> {
    assert_rows(&rt, rt.alloc(), &ADDRESSES)
}

// Blocks that cannot be freed or asked for, atomic operations and threads on what they cannot take.
const REQUESTS: [Row; 15] = [
    (
        "int x; int *p = 0; int main(void) { free(p); return 0; }",
        AUTO,
        Status::Done,
        "exit 0\nend exited\n",
    ),
    (
        "int x; int main(void) { free(&x); return 0; }",
        AUTO,
        Status::Done,
        "end wrong\n",
    ),
    (
        "int main(void) { int v; free(&v); return 0; }",
        AUTO,
        Status::Done,
        "end wrong\n",
    ),
    (
        "int main(void) { char *p; p = malloc(8); free(p + 4); return 0; }",
        AUTO,
        Status::Done,
        "end wrong\n",
    ),
    (
        "int main(void) { char *p; p = malloc(8); free(p); free(p); return 0; }",
        AUTO,
        Status::Done,
        "end wrong\n",
    ),
    (
        "int main(void) { int r; free((void *)r); return 0; }",
        AUTO,
        Status::Done,
        "end wrong\n",
    ),
    (
        "int main(void) { unsigned n; malloc(n); return 0; }",
        AUTO,
        Status::Done,
        "end wrong\n",
    ),
    (
        "int x; int main(void) { int r; atomic_cas(&x, r, 1); return 0; }",
        AUTO,
        Status::Done,
        "end wrong\n",
    ),
    (
        "int main(void) { int *p; p = malloc(4); atomic_cas(p, 0, 1); return 0; }",
        AUTO,
        Status::Done,
        "end wrong\n",
    ),
    (
        "int main(void) { int *p; p = malloc(4); atomic_add(p, 1); return *p; }",
        AUTO,
        Status::Done,
        "end wrong\n",
    ),
    (
        "int x; int main(void) { int r; atomic_xchg(&x, r); return 4; }",
        AUTO,
        Status::Done,
        "exit 4\nend exited\n",
    ),
    (
        "int w[2]; int main(void) { char *p; p = (char *)w; atomic_add((int *)(p + 2), 1); return 0; }",
        AUTO,
        Status::Done,
        "end wrong\n",
    ),
    (
        "int main(void) { atomic_add((int *)0, 1); return 0; }",
        AUTO,
        Status::Done,
        "end wrong\n",
    ),
    (
        "int main(void) { thread_create((void (*)(void *))main, 0); return 0; }",
        AUTO,
        Status::Done,
        "end wrong\n",
    ),
    (
        "int main(void) { thread_create(0, 0); return 0; }",
        AUTO,
        Status::Done,
        "end wrong\n",
    ),
];

#[test]
fn wrong_requests(rt: HostRuntime) -> Result<(), Fail> {
    assert_rows(&rt, rt.alloc(), &REQUESTS)
}

// Calls of external functions, and the words that they return.
const OUTSIDE: [Row; 20] = [
    (GET, AUTO, Status::Done, "call 0 get\nend running\n"),
    (
        GET,
        "auto 0 100000\nauto 0 100000",
        Status::Done,
        "call 0 get\nreturn 0 0\nend running\n",
    ),
    (
        GET,
        "auto 0 100000\nauto 0 100000\nauto 0 100000",
        Status::Done,
        "call 0 get\nreturn 0 0\nexit 0\nend exited\n",
    ),
    (
        GET,
        "auto 0 100000\nrun 0 4294967295\nauto 0 100000",
        Status::Done,
        "call 0 get\nreturn 0 -1\nexit -1\nend exited\n",
    ),
    (
        GET,
        "auto 0 100000\nrun 0 -2147483648\nauto 0 100000",
        Status::Done,
        "call 0 get\nreturn 0 -2147483648\nexit -2147483648\nend exited\n",
    ),
    (
        GET,
        "auto 0 100000\nrun 0 2147483648\nauto 0 100000",
        Status::Done,
        "call 0 get\nreturn 0 -2147483648\nexit -2147483648\nend exited\n",
    ),
    (
        GET,
        "auto 0 100000\nrun 0 0x7fffffff\nauto 0 100000",
        Status::Done,
        "call 0 get\nreturn 0 2147483647\nexit 2147483647\nend exited\n",
    ),
    (
        GET,
        "auto 0 100000\nrun 0 -1\nauto 0 100000",
        Status::Done,
        "call 0 get\nreturn 0 -1\nexit -1\nend exited\n",
    ),
    (
        GET,
        "auto 0 100000\nrun 0 0xffFF\nauto 0 100000",
        Status::Done,
        "call 0 get\nreturn 0 65535\nexit 65535\nend exited\n",
    ),
    (
        GET,
        "auto 0 100000\nrun 0 00000000004294967295\nauto 0 100000",
        Status::Done,
        "call 0 get\nreturn 0 -1\nexit -1\nend exited\n",
    ),
    (
        GET,
        "auto 0 100000\nrun 0 -00000000002147483648\nauto 0 100000",
        Status::Done,
        "call 0 get\nreturn 0 -2147483648\nexit -2147483648\nend exited\n",
    ),
    (
        GET,
        "auto 0 100000\nrun 0 0x0000000A\nauto 0 100000",
        Status::Done,
        "call 0 get\nreturn 0 10\nexit 10\nend exited\n",
    ),
    (
        GET,
        "auto 0 100000\nrun 0 -0\nauto 0 100000",
        Status::Done,
        "call 0 get\nreturn 0 0\nexit 0\nend exited\n",
    ),
    (
        GET,
        "auto 0 100000\nrun 0\nrun 0 5",
        Status::NotARun { line: 3 },
        "call 0 get\nreturn 0 0\nnot a run: line 3\n",
    ),
    (
        PRINTS,
        "auto 0 100000\nrun 0 12\nauto 0 100000",
        Status::Done,
        "call 0 print\nreturn 0 12\nexit 0\nend exited\n",
    ),
    (
        "int x; void f(void) { } void send(char c, short s, unsigned u, int *p, void (*g)(void)); int main(void) { send(200, 40000, -1, &x, f); return 0; }",
        AUTO,
        Status::Done,
        "call 0 send -56 -25536 -1 536870912 134217728\nend running\n",
    ),
    (
        "int max(int a, int b); int main(void) { int r; r = max(3, -4); return r; }",
        "auto 0 100000\nrun 0 3\nauto 0 100000",
        Status::Done,
        "call 0 max 3 -4\nreturn 0 3\nexit 3\nend exited\n",
    ),
    (
        "int x; int get(void); int main(void) { x = get(); return x; }",
        "auto 0 100000\nrun 0 8\nauto 0 100000",
        Status::Done,
        "call 0 get\nreturn 0 8\nexit 8\nend exited\n",
    ),
    (
        "int get(void); int main(void) { get(); get(); return 1; }",
        "auto 0 100000\nauto 0 100000\nrun 0 8",
        Status::NotARun { line: 3 },
        "call 0 get\nreturn 0 0\nnot a run: line 3\n",
    ),
    (
        "int x; int *where(void); int main(void) { int *p; p = where(); *p = 5; return x; }",
        "auto 0 100000\nrun 0 0x20000000\nauto 0 100000",
        Status::Done,
        "call 0 where\nreturn 0 536870912\nexit 5\nend exited\n",
    ),
];

#[test]
fn calls_of_the_outside(rt: HostRuntime) -> Result<(), Fail> {
    assert_rows(&rt, rt.alloc(), &OUTSIDE)
}
