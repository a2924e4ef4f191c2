//! Assemblies: what an assembly text says, and the addresses of its labels.
//!
//! An `Asm` is seen by contracts as its parts, and is whole: some text has these parts.
//! `specs/Assembly.antt` has what the x86-TSO machine reads of it: the instructions by number, the
//! labels with their addresses, and the bytes of the data.
#![tactic(auto)]

pub mod assembly;
pub mod placing;

pub use assembly::{Asm, CodeLine, Parts, StaticLine};
pub use placing::placement_of;
