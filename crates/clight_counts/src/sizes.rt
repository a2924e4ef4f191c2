//! The sizes of functions.

ghost use Rattle.std.specs.Prelude.{◌≡◌, [], IfOk, None};
ghost use Rattle.c_tree.specs.FileShape.{file_of};
ghost use Rattle.clight_types.specs.Types.{shape_at};
ghost use Rattle.clight_types.specs.Table.{types_of};
ghost use Rattle.clight_calls.specs.Calls.{parameters_at};
ghost use Rattle.clight_files.specs.FilesOf.{functions_of, file_made_of};
ghost use Rattle.clight_meaning.specs.Counts.{bytes_of_all};
ghost use Rattle.clight_counts.specs.First.{firsts};
ghost use Rattle.clight_counts.specs.CountsOf.{AreSizes, bytes_in, size_of, size_with, size_in};

use crate::texts::{Text, more, put_first, texts_in};
use c_tree::File;
use clight_calls::names::copied;
use clight_files::{FileMade, FunctionMade};
use clight_types::{Shape, Types};
use indexmap::IndexMap;
use std::alloc::Global;
use tso_words::{Name, NoMemory};

/// The size of a function: its nodes, the bytes of its parameters and locals, how many parameters it
/// has, and the most labels that one `switch` in it has.
#[derive(Clone, Copy, PartialEq, Eq, Debug)]
pub struct Size {
    pub nodes: usize,
    pub bytes: usize,
    pub parameters: usize,
    pub labels: usize,
}

/// What the sizes of a file's functions are made of: the texts of those that it defines, and the
/// bytes of their parameters and locals, by their names.
#[derive(Drop)]
pub struct Sizes {
    pub texts: IndexMap<Name, Text>,
    pub bytes: IndexMap<Name, usize>,
}

/// The types of the parameters of a function type; none of another type.
pub fn parameters_of(types: &Types, t: usize) -> &[usize]
    ensures { result.now ≡ parameters_at (shape_at (types_of types.now) t) }
{
    match types.shape(t) {
        Some(Shape::Function { parameters, .. }) => parameters.as_slice(),
        Some(
            Shape::Void
            | Shape::Integer(_)
            | Shape::Pointer(_)
            | Shape::Array { .. }
            | Shape::Struct(_),
        )
        | None => &[],
    }
}

#[tactic(auto, using(crate::proofs::Tables::sum_next))]
fn bytes_of_all(types: &Types, list: &[usize]) -> Result<usize, NoMemory>
    ensures { IfOk result (λ bytes. bytes ≡ bytes_of_all (types_of types.now) list.now) }
{
    let mut bytes = 0;
    for t in list {
        bytes = more(bytes, types.size(*t) as usize)?;
    }
    Ok(bytes)
}

#[tactic(auto, using(crate::proofs::Tables::bytes_next, crate::proofs::Tables::bytes_end))]
fn bytes_in(
    alloc: Global,
    types: &Types,
    functions: &[FunctionMade],
) -> Result<IndexMap<Name, usize>, NoMemory>
    ensures { IfOk result (λ bytes. bytes.entries ≡ firsts [] (bytes_in (types_of types.now) (functions_of functions.now))) }
{
    let mut bytes = IndexMap::new(alloc);
    for function in functions {
        let name = copied(&function.name)?;
        put_first(&mut bytes, name, bytes_of_all(types, &function.locals)?)?;
    }
    Ok(bytes)
}

fn external_size(types: &Types, parameters: &[usize]) -> Result<Size, NoMemory>
    ensures { IfOk result (λ size. size_of size ≡ size_with (types_of types.now) parameters.now None None) }
{
    Ok(Size {
        nodes: parameters.len(),
        bytes: bytes_of_all(types, parameters)?,
        parameters: parameters.len(),
        labels: 0,
    })
}

impl Sizes {
    /// What the sizes of the functions of a file are made of, once it is judged.
    pub fn of_file(alloc: Global, file: &File, made: &FileMade) -> Result<Sizes, NoMemory>
        ensures { IfOk result (AreSizes (file_of file.now) (file_made_of made.now)) }
    {
        Ok(Sizes {
            texts: texts_in(alloc, &file.externals)?,
            bytes: bytes_in(alloc, &made.scene.types, &made.functions)?,
        })
    }

    /// The size of the function of a name, by its type. An external one has its parameters alone.
    pub fn of(&self, types: &Types, name: &Name, t: usize) -> Result<Size, NoMemory>
        ensures { IfOk result (λ size. size_of size ≡ size_in self.now (types_of types.now) name.now t) }
    {
        let parameters = parameters_of(types, t);
        match (self.texts.get(name), self.bytes.get(name)) {
            (Some(text), Some(bytes)) => Ok(Size {
                nodes: more(text.nodes, parameters.len())?,
                bytes: *bytes,
                parameters: parameters.len(),
                labels: text.labels,
            }),
            (Some(_), None) | (None, Some(_)) | (None, None) => external_size(types, parameters),
        }
    }
}
