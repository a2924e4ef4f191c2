//! What is made of a file that has no fault.

use clight_made::Made;
use clight_scopes::Scene;
use tso_words::Name;

/// A function that is defined. Its parameters come first among its locals, which stand in its body
/// by their numbers.
#[derive(Drop)]
pub struct FunctionMade {
    pub name: Name,
    pub type_number: usize,
    /// The types of its parameters and locals, in order.
    pub locals: Vec<usize>,
    /// Those of them whose address it takes.
    pub addressed: Vec<usize>,
    /// How many are parameters.
    pub parameters: usize,
    pub body: Vec<Made>,
}

/// What a file declares and defines: all that is known at its end, and its functions in order.
#[derive(Drop)]
pub struct FileMade {
    pub scene: Scene,
    pub functions: Vec<FunctionMade>,
}
