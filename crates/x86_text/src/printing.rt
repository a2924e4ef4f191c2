//! The printed form of an assembly.
ghost use Rattle.std.specs.Prelude.{◌≡◌, [], ◌∷◌, ◌++◌, IfOk, OnOk, codes, map};
ghost use Rattle.std.specs.Fmt.{decimal};
ghost use Rattle.x86_text.specs.Text.{AsmOf};
ghost use Rattle.x86_text.specs.Printed.{
  code_lines,
  code_text,
  export_text,
  extern_text,
  joined,
  label_text,
  pace_text,
  printed,
  static_lines,
  static_text,
};

use std::alloc::Global;
use tso_words::{Name, NoMemory};
use x86_lang::{Asm, CodeLine, Parts, StaticLine};
use x86_print::printing::{put, put_decimal, put_instr, put_signed};

// Adds a label.
fn put_label(out: &mut Vec<u8>, name: &Name) -> Result<(), NoMemory>
    ensures { OnOk result (out.new.items ≡ out.old.items ++ label_text name.now) }
{
    put(out, name.bytes())?;
    put(out, b":")
}

// Adds the line of the pace.
fn put_pace(out: &mut Vec<u8>, pace: u128) -> Result<(), NoMemory>
    ensures { OnOk result (out.new.items ≡ out.old.items ++ (pace_text pace ++ 10 ∷ [])) }
{
    put(out, b"# pace ")?;
    put_decimal(out, pace)?;
    put(out, b"\n")
}

// Adds the line of an external.
fn put_extern(out: &mut Vec<u8>, external: &(Name, u32)) -> Result<(), NoMemory>
    ensures { OnOk result (out.new.items ≡ out.old.items ++ (extern_text external.now ++ 10 ∷ [])) }
{
    put(out, b"# extern ")?;
    put(out, external.0.bytes())?;
    put(out, b" ")?;
    put_decimal(out, u128::from(external.1))?;
    put(out, b"\n")
}

// Adds the line of an exported name.
fn put_export(out: &mut Vec<u8>, name: &Name) -> Result<(), NoMemory>
    ensures { OnOk result (out.new.items ≡ out.old.items ++ (export_text name.now ++ 10 ∷ [])) }
{
    put(out, b".globl ")?;
    put(out, name.bytes())?;
    put(out, b"\n")
}

// Adds a line of data without its end.
fn put_datum(out: &mut Vec<u8>, line: &StaticLine) -> Result<(), NoMemory>
    ensures { OnOk result (out.new.items ≡ out.old.items ++ static_text line.now) }
{
    match line {
        StaticLine::Label(name) => put_label(out, name),
        StaticLine::Byte(n) => {
            put(out, b"\t.byte ")?;
            put_signed(out, 128, u32::from(*n))
        }
        StaticLine::Short(n) => {
            put(out, b"\t.short ")?;
            put_signed(out, 32_768, u32::from(*n))
        }
        StaticLine::Long(n) => {
            put(out, b"\t.long ")?;
            put_signed(out, 2_147_483_648, *n)
        }
        StaticLine::Zero(n) => {
            put(out, b"\t.zero ")?;
            put_signed(out, 2_147_483_648, *n)
        }
        StaticLine::Balign(n) => {
            put(out, b"\t.balign ")?;
            put_decimal(out, u128::from(*n))
        }
    }
}

// Adds a line of code without its end.
fn put_code(out: &mut Vec<u8>, line: &CodeLine) -> Result<(), NoMemory>
    ensures { OnOk result (out.new.items ≡ out.old.items ++ code_text line.now) }
{
    match line {
        CodeLine::Label(name) => put_label(out, name),
        CodeLine::Op(instr) => put_instr(out, instr),
    }
}

// Adds the lines of the externals.
fn put_externs(out: &mut Vec<u8>, externs: &[(Name, u32)]) -> Result<(), NoMemory>
    ensures { OnOk result (out.new.items ≡ out.old.items ++ joined (map extern_text externs.now)) }
{
    let mut rest = externs;
    while let [external, after @ ..] = rest {
        put_extern(out, external)?;
        rest = after;
    }
    Ok(())
}

// Adds the lines of the exported names.
fn put_exports(out: &mut Vec<u8>, exports: &[Name]) -> Result<(), NoMemory>
    ensures { OnOk result (out.new.items ≡ out.old.items ++ joined (map export_text exports.now)) }
{
    let mut rest = exports;
    while let [name, after @ ..] = rest {
        put_export(out, name)?;
        rest = after;
    }
    Ok(())
}

// Adds the lines of data.
fn put_statics(out: &mut Vec<u8>, statics: &[StaticLine]) -> Result<(), NoMemory>
    ensures { OnOk result (out.new.items ≡ out.old.items ++ joined (map static_text statics.now)) }
{
    let mut rest = statics;
    while let [line, after @ ..] = rest {
        put_datum(out, line)?;
        put(out, b"\n")?;
        rest = after;
    }
    Ok(())
}

// Adds the lines of code.
fn put_codes(out: &mut Vec<u8>, code: &[CodeLine]) -> Result<(), NoMemory>
    ensures { OnOk result (out.new.items ≡ out.old.items ++ joined (map code_text code.now)) }
{
    let mut rest = code;
    while let [line, after @ ..] = rest {
        put_code(out, line)?;
        put(out, b"\n")?;
        rest = after;
    }
    Ok(())
}

// Adds the two sections.
fn put_sections(out: &mut Vec<u8>, parts: &Parts) -> Result<(), NoMemory>
    ensures { OnOk result (out.new.items ≡ out.old.items ++ joined (static_lines parts.now) ++ joined (code_lines parts.now)) }
{
    put(out, b".data\n")?;
    put_statics(out, parts.statics.as_slice())?;
    put(out, b".text\n")?;
    put_codes(out, parts.code.as_slice())
}

// Adds all lines before the sections.
fn put_head(out: &mut Vec<u8>, parts: &Parts) -> Result<(), NoMemory>
    ensures { OnOk result (out.new.items ≡ out.old.items ++ joined (pace_text parts.now.pace ∷ []) ++ joined (map extern_text parts.now.externs) ++ joined (map export_text parts.now.exports)) }
{
    put_pace(out, parts.pace)?;
    put_externs(out, parts.externs.as_slice())?;
    put_exports(out, parts.exports.as_slice())
}

/// The printed form of an assembly, which is a text of it.
pub fn print_asm(alloc: Global, a: &Asm) -> Result<Vec<u8>, NoMemory>
    ensures form { IfOk result (λ text. text.items ≡ printed a.now) }
    ensures text { IfOk result (λ text. AsmOf text.items a.now) }
{
    let parts = a.parts();
    let mut out = Vec::new(alloc);
    put_head(&mut out, parts)?;
    put_sections(&mut out, parts)?;
    Ok(out)
}
