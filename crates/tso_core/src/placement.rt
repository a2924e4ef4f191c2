//! The names of a program: its defined functions and globals, where they are placed, and the room
//! of a function.

ghost use Rattle.std.specs.Prelude.{◌≡◌, ◌≤◌, IfOk, vec_len};
ghost use Rattle.tso_core.specs.Placing.{address_of, NamesDiffer};

use indexmap::IndexMap;
use std::alloc::{AllocError, Global as Heap};
use std::marker::Model;
use tso_words::{Name, NoMemory};

/// A global of a program. `start` has its first bytes; the others begin as zeros.
#[derive(Drop)]
pub struct Global {
    pub name: Name,
    pub size: u32,
    pub align: u32,
    pub start: Vec<u8>,
    ghost some_size: { 1 ≤ size },
    ghost some_align: { 1 ≤ align },
    ghost start_fits: { vec_len start ≤ size },
}

impl Clone for Global {
    ghost use Rattle.tso_core.specs.Stated.{object_of};

    ghost is_clone = { λ g copy. object_of copy ≡ object_of g };

    fn clone(&self) -> Result<Global, AllocError> {
        let name = self.name.clone()?;
        let start = self.start.clone()?;
        Ok(Global {
            name,
            size: self.size,
            align: self.align,
            start,
        })
    }
}

/// The defined functions and the globals of a program, in order.
#[derive(Drop)]
pub struct Globals {
    pub functions: Vec<Name>,
    pub objects: Vec<Global>,
}

impl Clone for Globals {
    ghost use Rattle.tso_core.specs.Stated.{globals_of};

    ghost is_clone = { λ g copy. globals_of copy ≡ globals_of g };

    fn clone(&self) -> Result<Globals, AllocError> {
        let functions = self.functions.clone()?;
        let objects = self.objects.clone()?;
        Ok(Globals { functions, objects })
    }
}

/// The room of one function of a program, in any of the languages. `nodes` is the number of nodes
/// of its text in C, at most 8,000; `stated` is the size of its frame that the program states to
/// the outside, in bytes, and never changes from language to language; `needed` is the number of
/// bytes that its locals, temporaries, registers and slots take so far.
#[derive(Clone, Copy, PartialEq, Eq, Debug)]
pub struct Room {
    pub nodes: u32,
    pub stated: u32,
    pub needed: u32,
}

/// The addresses of names, no name twice.
#[derive(Drop)]
pub struct Placement {
    addresses: IndexMap<Name, u32>,
}

impl Model for Placement {
    ghost use Rattle.tso_core.specs.Systems.{Places};
    ghost use Rattle.tso_core.specs.Placing.{NamesDiffer};

    ghost Value = { Places };

    ghost view = { λ p. p.addresses.entries };

    ghost invariant = { λ p. NamesDiffer p.addresses.entries };
}

impl Placement {
    /// These names at these addresses.
    pub fn made(alloc: Heap, list: Vec<(Name, u32)>) -> Result<Placement, NoMemory>
        requires { NamesDiffer list.items }
        ensures { IfOk result (λ p. p ≡ list.items) }
    {
        let mut addresses = IndexMap::new(alloc);
        for (name, address) in list {
            addresses.insert(name, address).map_err(AllocError::from)?;
        }
        Ok(Placement { addresses })
    }

    /// The address of a name; `None` where it has none.
    pub fn find(&self, name: &Name) -> Option<u32>
        ensures { result ≡ address_of self.now name.now }
    {
        self.addresses.get(name).copied()
    }
}

#[cfg(test)]
mod tests {
    use super::*;
    use std::test::Fail;

    fn program(alloc: Heap) -> Result<Globals, Fail> {
        let mut functions = Vec::new(alloc);
        functions.push(Name::made(alloc, b"main")?)?;
        let mut objects = Vec::new(alloc);
        objects.push(Global {
            name: Name::made(alloc, b"x")?,
            size: 8,
            align: 4,
            start: [7, 0, 0, 0].to_vec(alloc)?,
        })?;
        Ok(Globals { functions, objects })
    }

    #[test]
    fn copies(rt: HostRuntime) -> Result<(), Fail> {
        let copy = program(rt.alloc())?.clone()?;
        assert_eq!(rt; copy.functions.len(), 1);
        assert_eq!(rt; copy.objects.len(), 1);
        let x = &copy.objects[0];
        assert_eq!(rt; x.name.bytes(), b"x".as_slice());
        assert_eq!(rt; (x.size, x.align), (8, 4));
        assert_eq!(rt; x.start.as_slice(), [7, 0, 0, 0].as_slice());
        Ok(())
    }

    #[test]
    fn finds(rt: HostRuntime) -> Result<(), Fail> {
        let alloc = rt.alloc();
        let x = Name::made(alloc, b"x")?;
        let list = Vec::from_array(alloc, [(Name::made(alloc, b"x")?, 0x2000_0000)])?;
        let at = Placement::made(alloc, list)?;
        assert_eq!(rt; at.find(&x), Some(0x2000_0000));
        assert_eq!(rt; at.find(&Name::made(alloc, b"y")?), None);
        Ok(())
    }
}
