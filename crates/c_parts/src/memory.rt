//! Values on the heap.

ghost use Rattle.std.specs.Prelude.{◌≡◌, ◌++◌, ◌∷◌, [], IfOk};

use std::alloc::{AllocError, Global};
use tso_words::NoMemory;

/// The value in a box.
pub fn boxed<T: Drop>(alloc: Global, value: T) -> Result<Box<T>, NoMemory>
    ensures { IfOk result (λ made. made.value ≡ value) }
{
    Ok(Box::new(alloc, value).map_err(AllocError::from)?)
}

/// The items with one more at their end.
pub fn extended<T: Drop>(mut items: Vec<T>, item: T) -> Result<Vec<T>, NoMemory>
    ensures { IfOk result (λ longer. longer.items ≡ items.items ++ item ∷ []) }
{
    items.push(item).map_err(AllocError::from)?;
    Ok(items)
}
