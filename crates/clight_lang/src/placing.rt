//! The placement of a program's names where nobody gives one.

ghost use Rattle.std.specs.Prelude.{◌≡◌, ◌+◌, ◌*◌, ◌≤◌, ◌++◌, length, map, sum_by, All, IfOk};
ghost use Rattle.tso_core.specs.Runs.{IsProper};
ghost use Rattle.tso_core.specs.Stated.{globals_of, object_of};
ghost use Rattle.clight_lang.specs.Placed.{aligned, functions_from, objects_from, default_places, IsAlignment, AreWithin};

use crate::program::Program;
use std::alloc::Global as Heap;
use tso_core::placement::{Global, Placement};
use tso_words::{Name, NoMemory};

/// The i-th defined function at `0x08000000 + i`, and the globals in order from `0x20000000` on,
/// each at the least address that its alignment allows. It is proper for each program within the
/// counts of a file.
pub fn default_placement(alloc: Heap, p: &Program) -> Result<Placement, NoMemory>
    requires { AreWithin (globals_of p.now.globals) }
    ensures places { IfOk result (λ at. at ≡ default_places (globals_of p.now.globals)) }
    ensures proper { IfOk result (λ at. IsProper (globals_of p.now.globals) at) }
{
    let list = with_functions(Vec::new(alloc), &p.globals.functions)?;
    let list = with_objects(list, &p.globals.objects)?;
    Placement::made(alloc, list)
}

/// The list with the functions behind it, each at an address of its own.
fn with_functions(
    mut list: Vec<(Name, u32)>,
    functions: &[Name],
) -> Result<Vec<(Name, u32)>, NoMemory>
    requires { length functions.now ≤ 4096 }
    ensures { IfOk result (λ all. all.items ≡ list.items ++ functions_from 0x08000000 functions.now) }
{
    let mut address = 0x0800_0000;
    for f in functions {
        let name = f.clone()?;
        match list.push((name, address)) {
            Ok(()) => {}
            Err(_) => return Err(NoMemory),
        }
        address += 1;
    }
    Ok(list)
}

/// The list with the globals behind it, each at the least address that its alignment allows.
fn with_objects(
    mut list: Vec<(Name, u32)>,
    objects: &[Global],
) -> Result<Vec<(Name, u32)>, NoMemory>
    requires sizes { All (λ o. IsAlignment o.align) objects.now }
    requires bytes { sum_by (λ o. o.1) (map object_of objects.now) ≤ 16777216 }
    ensures { IfOk result (λ all. all.items ≡ list.items ++ objects_from 0x20000000 (map object_of objects.now)) }
{
    let mut address = 0x2000_0000;
    for o in objects {
        let base = aligned_to(address, o.align);
        let name = o.name.clone()?;
        match list.push((name, base)) {
            Ok(()) => {}
            Err(_) => return Err(NoMemory),
        }
        address = base + o.size;
    }
    Ok(list)
}

/// The least multiple of an alignment that is at least an address.
fn aligned_to(address: u32, align: u32) -> u32
    requires low { address ≤ 0x30000000 }
    requires some { IsAlignment align }
    ensures { result ≡ aligned address align }
{
    let last = address + (align - 1);
    last - last % align
}
