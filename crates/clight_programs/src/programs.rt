//! Whole programs.

ghost use Rattle.std.specs.Prelude.{◌≡◌, false, IfOk, position};
ghost use Rattle.std.specs.Prelude.{◌==◌};
ghost use Rattle.std.specs.Map.{keys_of};
ghost use Rattle.clight_lang.specs.State.{functions_of};
ghost use Rattle.clight_lang.specs.Meaning.{program_of};
ghost use Rattle.clight_types.specs.Types.{is_scalar, thread_function_type};
ghost use Rattle.clight_types.specs.Table.{types_of};
ghost use Rattle.clight_files.specs.FilesOf.{file_made_of, functions_of as made_functions};
ghost use Rattle.clight_programs.specs.ProgramsOf.{IsMeant, function_table, in_order};

use crate::functions::function_table;
use crate::globals::{outer_meant, parameter_counts};
use crate::ordered::{in_order, main_of, names_of};
use crate::types::all_types;
use clight_counts::Sizes;
use clight_files::FileMade;
use clight_lang::Program;
use clight_lang::function::Function;
use indexmap::IndexSet;
use std::alloc::Global;
use std::rc::Rc;
use tso_core::placement::Globals;
use tso_words::NoMemory;

/// The type `void (void *)` in each table of types, which is that of a thread's function.
const THREAD_FUNCTION_TYPE: usize = 8;

#[tactic(auto, using(crate::proofs::Numbered::position_turned))]
fn thread_type(function_types: &IndexSet<usize>) -> Option<usize>
    ensures { result ≡ position (λ t. t == thread_function_type) function_types.now.keys }
{
    function_types.get_index_of(&THREAD_FUNCTION_TYPE)
}

/// The functions that a file defines, in order of first declaration.
fn functions_meant(
    alloc: Global,
    made: &FileMade,
    function_types: &IndexSet<usize>,
    sizes: &Sizes,
) -> Result<Vec<Rc<Function>>, NoMemory>
    requires { is_scalar (types_of made.now.scene.types) 0 ≡ false }
    ensures { IfOk result (λ fs. functions_of fs.items ≡ in_order (function_table (types_of made.now.scene.types) function_types.now.keys sizes.now (made_functions made.now.functions.items)) (keys_of made.now.scene.file.entries)) }
{
    let table = function_table(
        alloc,
        &made.scene.types,
        function_types,
        sizes,
        &made.functions,
    )?;
    in_order(alloc, &made.scene.file, &table)
}

/// The program of what a file declares and defines. Its sizes are those of the file that it was made
/// of.
///
/// # Errors
///
/// `NoMemory`, also where a number does not fit, which does not come where the file is without
/// faults and within the counts.
pub fn program_meant(alloc: Global, made: &FileMade, sizes: &Sizes) -> Result<Program, NoMemory>
    requires { is_scalar (types_of made.now.scene.types) 0 ≡ false }
    ensures { IfOk result (λ p. IsMeant (file_made_of made.now) sizes.now (program_of p)) }
{
    let function_types = all_types(alloc, made)?;
    let functions = functions_meant(alloc, made, &function_types, sizes)?;
    let main = main_of(alloc, &functions)?;
    let names = names_of(alloc, &functions)?;
    let types = parameter_counts(alloc, &made.scene.types, &function_types)?;
    let outer = outer_meant(alloc, &made.scene.types, &function_types, &made.scene.file)?;
    Ok(Program {
        globals: Globals {
            functions: names,
            objects: outer.objects,
        },
        main,
        functions,
        externals: outer.externals,
        types,
        thread_type: thread_type(&function_types),
    })
}
