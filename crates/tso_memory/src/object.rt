//! Objects: the ranges of addresses that are live.
ghost use Rattle.std.specs.Prelude.{◌≡◌, ℕ, ◌+◌, ◌-◌, ◌≤◌, ◌==◌, nat_lt, nat_le, ◌&&◌, not, IfOk, OnErr, IsOk};
ghost use Rattle.std.specs.List.{find, filter, list_any};
ghost use Rattle.std.specs.Vec.{vec_len, vec_capacity};
ghost use Rattle.tso_memory.specs.Memory.{IsSound, AreObjects, holds, meets, is_met, is_at, is_live, is_in, unmet, lifted, removed, inserted};

use std::alloc::AllocError;

/// How an object came to be, and so how it may end.
#[derive(Clone, Copy, PartialEq, Eq, Debug)]
pub enum Kind {
    /// A global.
    Static,
    /// A block of the heap.
    Heap,
    /// A local variable in memory.
    Local,
}

/// A live range of addresses: `size` bytes from `base` on.
#[derive(Clone, Copy, PartialEq, Eq, Debug)]
pub struct Object {
    pub base: u32,
    pub size: u32,
    pub kind: Kind,
}

impl Object {
    /// Whether all `size` bytes from `base` on lie in the object.
    pub fn holds(&self, base: u32, size: u32) -> bool
        ensures { result ≡ holds self.now base size }
    {
        self.base <= base
            && u64::from(base) + u64::from(size) <= u64::from(self.base) + u64::from(self.size)
    }

    /// Whether the object shares a byte with the `size` bytes from `base` on.
    pub fn meets(&self, base: u32, size: u32) -> bool
        ensures { result ≡ is_met base size self.now }
    {
        u64::from(self.base) < u64::from(base) + u64::from(size)
            && u64::from(base) < u64::from(self.base) + u64::from(self.size)
    }

    /// Whether the object has this base and size.
    pub fn is_at(&self, base: u32, size: u32) -> bool
        ensures { result ≡ is_at base size self.now }
    {
        self.base == base && self.size == size
    }
}

/// The object that has all `size` bytes from `base` on; a binary search.
pub(crate) fn find_object(objects: &[Object], base: u32, size: u32) -> Option<Object>
    requires objects { AreObjects 0 objects.now }
    requires some { 1 ≤ size }
    ensures { result ≡ find (λ o. holds o base size) objects.now }
{
    let after = objects.partition_point(|o| o.base <= base);
    if after == 0 {
        return None;
    }
    let o = objects[after - 1];
    if o.holds(base, size) { Some(o) } else { None }
}

/// Whether one of the objects has all `size` bytes from `base` on.
pub(crate) fn is_held(objects: &[Object], base: u32, size: u32) -> bool
    requires objects { AreObjects 0 objects.now }
    requires some { 1 ≤ size }
    ensures { result ≡ list_any (λ o. holds o base size) objects.now }
{
    match find_object(objects, base, size) {
        Some(_) => true,
        None => false,
    }
}

/// Whether an address lies in one of the objects.
pub(crate) fn is_live_at(objects: &[Object], x: u32) -> bool
    requires { AreObjects 0 objects.now }
    ensures { result ≡ is_live objects.now x }
{
    match find_object(objects, x, 1) {
        Some(_) => true,
        None => false,
    }
}

/// Whether one of the objects meets a range.
pub(crate) fn is_any_met(objects: &[Object], base: u32, size: u32) -> bool
    ensures { result ≡ list_any (is_met base size) objects.now }
{
    objects.iter().any(|o| o.meets(base, size))
}

/// Puts an object at its place.
pub(crate) fn insert_object(objects: &mut Vec<Object>, o: Object) -> Result<(), AllocError>
    requires { AreObjects 0 objects.old.items }
    ensures ok { IfOk result (λ _. objects.new.items ≡ inserted o objects.old.items) }
    ensures err { OnErr result (objects.new.items ≡ objects.old.items) }
    ensures room { vec_len objects.old + 1 ≤ vec_capacity objects.old → IsOk result }
{
    let at = objects.partition_point(|p| p.base < o.base);
    objects.insert(at, o)?;
    Ok(())
}

/// Ends the objects that meet a range.
pub(crate) fn end_met(objects: &mut Vec<Object>, base: u32, size: u32)
    ensures left { objects.new.items ≡ unmet base size objects.old.items }
    ensures room { (vec_len objects.new ≤ vec_len objects.old) × (vec_capacity objects.old ≤ vec_capacity objects.new) }
{
    objects.retain(|o| !o.meets(base, size));
}

/// Ends the object with this base and size, where there is one.
pub(crate) fn end_lifted(objects: &mut Vec<Object>, base: u32, size: u32)
    ensures { objects.new.items ≡ lifted base size objects.old.items }
{
    objects.retain(|o| !o.is_at(base, size));
}

/// Ends the object with this base.
pub(crate) fn end_at(objects: &mut Vec<Object>, base: u32)
    ensures { objects.new.items ≡ removed base objects.old.items }
{
    objects.retain(|o| o.base != base);
}
