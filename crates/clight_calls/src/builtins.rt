//! The builtins: their names and their types.

ghost use Rattle.std.specs.Prelude.{◌≡◌};
ghost use Rattle.clight_calls.specs.Builtins.{builtin_named, is_builtin_name, builtin_type, atomic_arguments};

use clight_lang::statement::Builtin;
use tso_words::Name;

/// The builtin of this name.
pub fn builtin_named(name: &Name) -> Option<Builtin>
    ensures { result ≡ builtin_named name.now }
{
    let bytes = name.bytes();
    if bytes == b"thread_create".as_slice() {
        Some(Builtin::ThreadCreate)
    } else if bytes == b"mfence".as_slice() {
        Some(Builtin::Fence)
    } else if bytes == b"atomic_cas".as_slice() {
        Some(Builtin::AtomicCas)
    } else if bytes == b"atomic_add".as_slice() {
        Some(Builtin::AtomicAdd)
    } else if bytes == b"atomic_xchg".as_slice() {
        Some(Builtin::AtomicXchg)
    } else if bytes == b"malloc".as_slice() {
        Some(Builtin::Malloc)
    } else if bytes == b"free".as_slice() {
        Some(Builtin::Free)
    } else if bytes == b"exit".as_slice() {
        Some(Builtin::Exit)
    } else {
        None
    }
}

/// Whether the name is a builtin's.
pub fn is_builtin_name(name: &Name) -> bool
    ensures { result ≡ is_builtin_name name.now }
{
    builtin_named(name).is_some()
}

/// The number of a builtin's type; an atomic takes several.
pub fn builtin_type(builtin: Builtin) -> Option<usize>
    ensures { result ≡ builtin_type builtin }
{
    match builtin {
        Builtin::ThreadCreate => Some(10),
        Builtin::Fence => Some(11),
        Builtin::Malloc => Some(12),
        Builtin::Free => Some(8),
        Builtin::Exit => Some(13),
        Builtin::AtomicCas | Builtin::AtomicAdd | Builtin::AtomicXchg => None,
    }
}

/// How many arguments an atomic takes behind its first one.
pub fn atomic_arguments(builtin: Builtin) -> Option<usize>
    ensures { result ≡ atomic_arguments builtin }
{
    match builtin {
        Builtin::AtomicCas => Some(2),
        Builtin::AtomicAdd | Builtin::AtomicXchg => Some(1),
        Builtin::ThreadCreate | Builtin::Fence | Builtin::Malloc | Builtin::Free | Builtin::Exit =>
            None,
    }
}
