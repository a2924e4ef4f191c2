//! Programs, each shown in lines, with the lines that were worked for it.

use crate::answers::checked;
use clight_lang::Program;
use clight_lang::function::{Function, Kept, Local, Taken};
use std::alloc::{AllocError, Global};
use std::test::Fail;
use tso_core::placement::Global as Object;
use tso_words::Name;

fn put_name(alloc: Global, text: &mut String, name: &Name) -> Result<(), AllocError> {
    let name = String::from_utf8_lossy(alloc, name.bytes())?;
    text.push_str(&name)
}

/// Where the parameters and the locals of a function are.
fn put_places(alloc: Global, text: &mut String, function: &Function) -> Result<(), AllocError> {
    if !function.taken.is_empty() {
        text.push_str(", taken")?;
    }
    for Taken { argument, temp } in &function.taken {
        text.push_str(&format!(in alloc; " {argument}>{temp}")?)?;
    }
    if !function.kept.is_empty() {
        text.push_str(", kept")?;
    }
    for Kept {
        argument,
        local,
        chunk,
    } in &function.kept {
        text.push_str(&format!(in alloc; " {argument}>{local} {chunk:?}")?)?;
    }
    if !function.locals.is_empty() {
        text.push_str(", locals")?;
    }
    for Local { size, align } in &function.locals {
        text.push_str(&format!(in alloc; " {size}/{align}")?)?;
    }
    Ok(())
}

fn put_function(alloc: Global, text: &mut String, function: &Function) -> Result<(), AllocError> {
    text.push_str("function ")?;
    put_name(alloc, text, &function.name)?;
    let number = function.function_type;
    let parameters = function.parameters;
    text.push_str(&format!(in alloc; " {number}: {parameters} parameters")?)?;
    put_places(alloc, text, function)?;
    let temps = function.temps;
    let room = function.room;
    let nodes = room.nodes;
    let stated = room.stated;
    let needed = room.needed;
    text.push_str(&format!(in alloc; ", {temps} temps, {nodes} nodes")?)?;
    text.push_str(&format!(in alloc; ", {stated} stated, {needed} needed\n")?)
}

/// An object with all its bytes, those that it begins with and the zeros behind them.
fn put_object(alloc: Global, text: &mut String, object: &Object) -> Result<(), AllocError> {
    text.push_str("object ")?;
    put_name(alloc, text, &object.name)?;
    let size = object.size;
    let align = object.align;
    let mut bytes = object.start.clone()?;
    for _ in object.start.len()..size as usize {
        bytes.push(0)?;
    }
    text.push_str(&format!(in alloc; " {size}/{align} {bytes:?}\n")?)
}

fn put_types(alloc: Global, text: &mut String, program: &Program) -> Result<(), AllocError> {
    text.push_str("types")?;
    for parameters in &program.types {
        text.push_str(&format!(in alloc; " {parameters}")?)?;
    }
    if let Some(number) = program.thread_type {
        text.push_str(&format!(in alloc; ", thread {number}")?)?;
    }
    text.push_str("\n")
}

/// A function type is its number among the numbers of parameters of all; a parameter goes from its
/// argument to a temporary or a local; an object or a local has its size and alignment.
fn shown(alloc: Global, program: &Program) -> Result<String, AllocError> {
    let mut text = String::from_str(alloc, "main ")?;
    put_name(alloc, &mut text, &program.main.name)?;
    text.push_str("\nfunctions")?;
    for name in &program.globals.functions {
        text.push_str(" ")?;
        put_name(alloc, &mut text, name)?;
    }
    text.push_str("\n")?;
    put_types(alloc, &mut text, program)?;
    for object in &program.globals.objects {
        put_object(alloc, &mut text, object)?;
    }
    for external in &program.externals {
        text.push_str("external ")?;
        put_name(alloc, &mut text, &external.name)?;
        let number = external.function_type;
        text.push_str(&format!(in alloc; " {number}\n")?)?;
    }
    for function in &program.functions {
        put_function(alloc, &mut text, function)?;
    }
    Ok(text)
}

const PROGRAMS: [(&str, &[&str]); 11] = [
    (
        "int main(void) { }",
        &[
            "main main",
            "functions main",
            "types 0",
            "function main 0: 0 parameters, 0 temps, 1 nodes, 120 stated, 0 needed",
        ],
    ),
    (
        "char c = 300; short s[3] = { 1, -2 }; struct t { char a; int b; } v = { 5, 6 }; extern int y; int *p; int y = 7; enum { A = 9 } e = A; unsigned char u[3] = { -1, 2 }; struct t w[2]; int main(void) { }",
        &[
            "main main",
            "functions main",
            "types 0",
            "object c 1/1 [44]",
            "object s 6/2 [1, 0, 254, 255, 0, 0]",
            "object v 8/4 [5, 0, 0, 0, 6, 0, 0, 0]",
            "object y 4/4 [7, 0, 0, 0]",
            "object p 4/4 [0, 0, 0, 0]",
            "object e 4/4 [9, 0, 0, 0]",
            "object u 3/1 [255, 2, 0]",
            "object w 16/4 [0, 0, 0, 0, 0, 0, 0, 0, 0, 0, 0, 0, 0, 0, 0, 0]",
            "function main 0: 0 parameters, 0 temps, 1 nodes, 120 stated, 0 needed",
        ],
    ),
    (
        "void e(int, char *); int *k(void); static int g(void); int f(void); extern void free(void *); int g(void) { return f(); } int f(void) { return 1; } void e(int n, char *c); unsigned z(int a), x; int main(void) { e(1, 0); }",
        &[
            "main main",
            "functions g f main",
            "types 2 0 0 1",
            "object x 4/4 [0, 0, 0, 0]",
            "external e 0",
            "external k 1",
            "external z 3",
            "function g 2: 0 parameters, 1 temps, 4 nodes, 312 stated, 4 needed",
            "function f 2: 0 parameters, 0 temps, 3 nodes, 248 stated, 0 needed",
            "function main 2: 0 parameters, 1 temps, 6 nodes, 440 stated, 4 needed",
        ],
    ),
    (
        "int g(void); int x, f(void), y; int h(void) { return 1; } int f(void) { return g(); } int main(void) { return f(); } int g(void) { return h(); }",
        &[
            "main main",
            "functions g f h main",
            "types 0",
            "object x 4/4 [0, 0, 0, 0]",
            "object y 4/4 [0, 0, 0, 0]",
            "function g 0: 0 parameters, 1 temps, 4 nodes, 312 stated, 4 needed",
            "function f 0: 0 parameters, 1 temps, 4 nodes, 312 stated, 4 needed",
            "function h 0: 0 parameters, 0 temps, 3 nodes, 248 stated, 0 needed",
            "function main 0: 0 parameters, 1 temps, 4 nodes, 312 stated, 4 needed",
        ],
    ),
    (
        "int f(int a, char b, short *c, unsigned short d, unsigned char e, signed short g, int h[2]) { &b; &d; c = &g; &e; h = &h[1]; return a; } int main(void) { int **p; return 0; }",
        &[
            "main main",
            "functions f main",
            "types 7 0",
            "function f 0: 7 parameters, taken 0>0 2>1 6>2, kept 1>0 I8s 3>1 I16u 4>2 I8u 5>3 I16s, locals 1/1 2/2 1/1 2/2, 6 temps, 32 nodes, 2122 stated, 30 needed",
            "function main 1: 0 parameters, 1 temps, 4 nodes, 316 stated, 4 needed",
        ],
    ),
    (
        "int *f(int *p, int n, char **q) { int **r = &p; q = q + n; return *r; } int main(void) { }",
        &[
            "main main",
            "functions f main",
            "types 3 0",
            "function f 0: 3 parameters, taken 1>0 2>1, kept 0>0 I32, locals 4/4, 3 temps, 16 nodes, 1096 stated, 16 needed",
            "function main 1: 0 parameters, 0 temps, 1 nodes, 120 stated, 0 needed",
        ],
    ),
    (
        "struct t { char a; short b; char c; }; int main(void) { int a, b[3]; char c, d; struct t e; { short f, *g = &f; int a; a = 1; char h[5]; } for (int i = 0, j; i < 2; i++) { char *k = &d; } sizeof(&c); return a; }",
        &[
            "main main",
            "functions main",
            "types 0",
            "function main 0: 0 parameters, locals 12/4 1/1 1/1 6/2 2/2 5/1, 7 temps, 38 nodes, 2539 stated, 55 needed",
        ],
    ),
    (
        "int x; int f(int n) { return n; } int main(void) { int a; a = 1; a; a = f(a); x = f(a); x += a; a += x; f(a); mfence(); return f(x); }",
        &[
            "main main",
            "functions f main",
            "types 1 0",
            "object x 4/4 [0, 0, 0, 0]",
            "function f 0: 1 parameters, taken 0>0, 1 temps, 4 nodes, 316 stated, 4 needed",
            "function main 1: 0 parameters, 9 temps, 39 nodes, 2556 stated, 36 needed",
        ],
    ),
    (
        "int f(int a) { return a; } int g(int); unsigned h(int a) { return a; } int k(unsigned a) { return a; } int l(int b) { return g(b); } int (*p)(char *, int); void w(void *a) { } int main(void) { thread_create(w, 0); p(0, 1); return f(1); }",
        &[
            "main main",
            "functions f h k l w main",
            "types 1 1 1 1 0 2, thread 3",
            "object p 4/4 [0, 0, 0, 0]",
            "external g 0",
            "function f 0: 1 parameters, taken 0>0, 1 temps, 4 nodes, 316 stated, 4 needed",
            "function h 1: 1 parameters, taken 0>0, 1 temps, 4 nodes, 316 stated, 4 needed",
            "function k 2: 1 parameters, taken 0>0, 1 temps, 4 nodes, 316 stated, 4 needed",
            "function l 0: 1 parameters, taken 0>0, 2 temps, 6 nodes, 444 stated, 8 needed",
            "function w 3: 1 parameters, taken 0>0, 1 temps, 2 nodes, 188 stated, 4 needed",
            "function main 4: 0 parameters, 3 temps, 15 nodes, 1016 stated, 12 needed",
        ],
    ),
    (
        "void *f(void *p) { return p; } void g(void) { } int main(void) { f(0); g(); free(0); return 0; }",
        &[
            "main main",
            "functions f g main",
            "types 1 0 0",
            "function f 0: 1 parameters, taken 0>0, 1 temps, 4 nodes, 316 stated, 4 needed",
            "function g 1: 0 parameters, 0 temps, 1 nodes, 120 stated, 0 needed",
            "function main 2: 0 parameters, 3 temps, 14 nodes, 952 stated, 12 needed",
        ],
    ),
    (
        "int x = 3; static int main(); int f(void) { return main(); } static int main() { int y = x; return y; }",
        &[
            "main main",
            "functions main f",
            "types 0",
            "object x 4/4 [3, 0, 0, 0]",
            "function main 0: 0 parameters, 1 temps, 5 nodes, 380 stated, 4 needed",
            "function f 0: 0 parameters, 1 temps, 4 nodes, 312 stated, 4 needed",
        ],
    ),
];

#[test]
fn programs(rt: HostRuntime) -> Result<(), Fail> {
    let alloc = rt.alloc();
    for (file, lines) in &PROGRAMS {
        let Ok(program) = checked(&rt, alloc, file.as_bytes()) else {
            panic!(rt; "refused: {file}");
        };
        let text = shown(alloc, &program)?;
        let mut wanted = String::new(alloc);
        for line in *lines {
            wanted.push_str(line)?;
            wanted.push_str("\n")?;
        }
        assert_eq!(rt; text.as_str(), wanted.as_str(), "{file}");
    }
    Ok(())
}
