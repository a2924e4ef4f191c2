//! What is known in a function when its statements are made.

ghost use Rattle.std.specs.Prelude.{◌≡◌, ◌≤◌, count_by, length};
ghost use Rattle.clight_placing.specs.Placing.{number_of_type};
ghost use Rattle.clight_placing.specs.InnerOf.{location_of, location_in, is_memory};

use clight_types::Types;
use indexmap::IndexSet;

/// Where a parameter or a local is: its number among the temporaries, or among those in memory.
#[derive(Clone, Copy, PartialEq, Eq, Debug)]
pub enum Location {
    Temp(usize),
    Memory(usize),
}

/// What is known in a function: the types of the file, the function types of the program, each at
/// its number, and where each parameter and local is. A local that is not in the table is in
/// memory, behind those that are.
#[derive(Drop)]
pub struct Inner<'a> {
    pub types: &'a Types,
    pub function_types: &'a IndexSet<usize>,
    pub locations: &'a [Location],
}

impl<'a> Inner<'a> {
    /// The number of a function type in the program; 0 where the program has it not.
    #[tactic(auto, using(crate::proofs::Numbers::number_at))]
    pub fn type_number(&self, t: usize) -> usize
        ensures { result ≡ number_of_type self.now.function_types.now.keys t }
    {
        self.function_types.get_index_of(&t).unwrap_or(0)
    }

    /// Where a local is.
    pub fn location(&self, n: usize) -> Location
        ensures { location_of result ≡ location_in self.now.locations.now n }
    {
        match self.locations.get(n) {
            Some(location) => *location,
            None => Location::Memory(count_memory(self.locations) + (n - self.locations.len())),
        }
    }
}

fn count_memory(locations: &[Location]) -> usize
    ensures all { result ≡ count_by is_memory locations.now }
    ensures within { result ≤ length locations.now }
{
    locations
        .iter()
        .filter(|location| matches!(location, Location::Memory(_)))
        .count()
}
