//! The memory of both machines: live objects with their cells, store buffers, and the view that a
//! thread has of memory through its own buffer.
//!
//! `Memory::load`, and `Memory::apply` of a store, take a binary search among the objects and a
//! look-up in a table of pages. An object that begins or ends takes a walk over the objects, and
//! costs nothing for each of its bytes where no page of its range was written. A buffer takes and
//! gives an item in constant time over all calls. `load_in_view` takes the same search and a few
//! walks over the own buffer; `is_view_right` tries the stores that a caller does not know to be
//! right, each by the same search and a walk from the first Place or Lift up to the store. So a
//! caller that keeps count of the items that it tried pays such a walk once for each store, and its
//! loads are linear in the buffer otherwise; `view_load` tries all stores at each call. `place_ok`
//! walks over the objects and all buffers.
#![tactic(auto)]

pub mod buffer;
pub mod laws;
pub mod memory;
pub mod object;
mod pages;
mod placing;
mod view;

pub use buffer::{Buffer, Item};
pub use memory::{ApplyRefusal, Memory, WrongAccess};
pub use object::{Kind, Object};
pub use placing::place_ok;
pub use view::{is_view_right, load_in_view, view_load};

#[cfg(test)]
mod tests;
