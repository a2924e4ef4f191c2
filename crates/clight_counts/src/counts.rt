//! The counts of a whole file.

ghost use Rattle.std.specs.Prelude.{◌≡◌, ◌+◌, [], IfOk, OnOk, sum_by};
ghost use Rattle.c_tree.specs.FileShape.{external_of, externals_of, file_of};
ghost use Rattle.clight_types.specs.Table.{types_of};
ghost use Rattle.clight_scopes.specs.SceneOf.{entity_of};
ghost use Rattle.clight_nodes.specs.Counted.{counted};
ghost use Rattle.clight_files.specs.FilesOf.{file_made_of};
ghost use Rattle.clight_meaning.specs.Counts.{outer_nodes, entity_nodes, entity_bytes, size_passes, functions_pass, passed_counts};
ghost use Rattle.clight_counts.specs.CountsOf.{AreSizes, size_of};
ghost use Rattle.clight_counts.specs.PassedOf.{Keeps, known_passes, known_nodes};

use crate::limits::{Count, Excess};
use crate::sizes::{Size, Sizes};
use crate::texts::{exact, more};
use c_tree::{External, File};
use clight_files::FileMade;
use clight_nodes::{count_decl, count_specifiers};
use clight_scopes::{Entity, FileName};
use clight_types::Types;
use std::alloc::Global;
use tso_words::{Name, NoMemory};

/// The nodes and the bytes of objects in what has been gone through.
#[derive(Clone, Copy, PartialEq, Eq, Debug)]
struct Totals {
    nodes: usize,
    bytes: usize,
}

fn count_outer(nodes: &mut usize, external: &External)
    ensures { nodes.new ≡ counted nodes.old (outer_nodes (external_of external.now)) }
{
    match external {
        External::Decl(decl) => count_decl(nodes, decl),
        External::Function(function) => count_specifiers(nodes, &function.specifiers),
    }
}

/// The nodes of a file outside its functions.
#[tactic(auto, using(crate::proofs::Passing::exactly))]
fn outer_nodes(externals: &[External]) -> Result<usize, NoMemory>
    ensures { IfOk result (λ nodes. nodes ≡ sum_by outer_nodes (externals_of externals.now)) }
{
    let mut nodes = 0;
    for external in externals {
        count_outer(&mut nodes, external);
    }
    exact(nodes)
}

/// The first count of a function at this place that its size passes.
fn size_kept(at: u32, size: Size) -> Result<(), Excess>
    ensures { Keeps (size_passes at (size_of size) []) result }
{
    Count::Parameters.kept(size.parameters, at)?;
    Count::Bytes.kept(size.bytes, at)?;
    Count::Nodes.kept(size.nodes, at)?;
    Count::Labels.kept(size.labels, at)
}

/// What a name of the file stands for: the first count that it passes as a function, and its part
/// of the file's counts.
fn name_counted(
    totals: &mut Totals,
    sizes: &Sizes,
    types: &Types,
    name: &Name,
    known: &FileName,
) -> Result<(), Excess>
    ensures kept { Keeps (known_passes sizes.now (types_of types.now) name.now known.now.at (entity_of known.now.entity)) result }
    ensures nodes { OnOk result (totals.new.nodes ≡ totals.old.nodes + known_nodes sizes.now (types_of types.now) name.now (entity_of known.now.entity)) }
    ensures bytes { OnOk result (totals.new.bytes ≡ totals.old.bytes + entity_bytes (types_of types.now) (entity_of known.now.entity)) }
{
    match &known.entity {
        Entity::Function { type_number, .. } => {
            let size = sizes.of(types, name, *type_number)?;
            totals.nodes = more(totals.nodes, size.nodes)?;
            size_kept(known.at, size)
        }
        Entity::Object { type_number, .. } => {
            totals.bytes = more(totals.bytes, types.size(*type_number) as usize)?;
            Ok(())
        }
        Entity::Enumerator(_) | Entity::Typedef(_) | Entity::Builtin { .. } => Ok(()),
    }
}

/// The same of all names of the file, in order of first declaration.
fn names_counted(
    totals: &mut Totals,
    sizes: &Sizes,
    file: &File,
    made: &FileMade,
) -> Result<(), Excess>
    requires { AreSizes (file_of file.now) (file_made_of made.now) sizes.now }
    ensures kept { Keeps (functions_pass (file_of file.now) (file_made_of made.now) (file_made_of made.now).scene.file []) result }
    ensures nodes { OnOk result (totals.new.nodes ≡ totals.old.nodes + sum_by (entity_nodes (file_of file.now) (file_made_of made.now)) (file_made_of made.now).scene.file) }
    ensures bytes { OnOk result (totals.new.bytes ≡ totals.old.bytes + sum_by (λ x. entity_bytes (file_made_of made.now).scene.types x.entity) (file_made_of made.now).scene.file) }
{
    for (name, known) in made.scene.file.iter() {
        name_counted(totals, sizes, &made.scene.types, name, known)?;
    }
    Ok(())
}

/// The sizes of the functions of a file of a length in bytes, if it passes no count.
///
/// # Errors
///
/// The first count that it passes: those of the functions in order of first declaration, at the
/// function's place, and then those of the whole file, at the length; or `NoMemory`, also where a
/// count does not fit its type.
pub fn counts_kept(
    alloc: Global,
    length: u32,
    file: &File,
    made: &FileMade,
) -> Result<Sizes, Excess>
    ensures kept { Keeps (passed_counts length (file_of file.now) (file_made_of made.now)) result }
    ensures sizes { IfOk result (AreSizes (file_of file.now) (file_made_of made.now)) }
{
    let sizes = Sizes::of_file(alloc, file, made)?;
    let mut totals = Totals {
        nodes: outer_nodes(&file.externals)?,
        bytes: 0,
    };
    names_counted(&mut totals, &sizes, file, made)?;
    Count::Functions.kept(made.functions.len(), length)?;
    Count::FileNodes.kept(totals.nodes, length)?;
    Count::GlobalBytes.kept(totals.bytes, length)?;
    Ok(sizes)
}
