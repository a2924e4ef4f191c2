//! The texts of the functions that a file defines, by their names.

ghost use Rattle.std.specs.Prelude.{◌≡◌, ◌+◌, ◌<◌, ◌∷◌, [], OnOk, IfOk};
ghost use Rattle.c_tree.specs.FileShape.{external_of, externals_of};
ghost use Rattle.clight_meaning.specs.Counts.{definitions_of};
ghost use Rattle.clight_counts.specs.First.{with_first, firsts};
ghost use Rattle.clight_counts.specs.CountsOf.{definition_of, text_of, texts_in};

use c_tree::{External, FunctionDefinition};
use clight_nodes::{count_declarator, count_items, most_labels};
use clight_specifiers::built::name_or_empty;
use clight_specifiers::named::declared_name;
use indexmap::IndexMap;
use std::alloc::{AllocError, Global};
use tso_words::{Name, NoMemory};

/// The nodes of a function without its parameters, and the most labels that one `switch` in it has.
#[derive(Clone, Copy, PartialEq, Eq, Debug)]
pub struct Text {
    pub nodes: usize,
    pub labels: usize,
}

/// Puts a value under a name, unless the name has one.
#[tactic(auto, using(crate::proofs::Firsts::put_present, crate::proofs::Firsts::put_absent))]
pub fn put_first<V: Drop>(
    table: &mut IndexMap<Name, V>,
    name: Name,
    value: V,
) -> Result<(), NoMemory>
    ensures { OnOk result (table.new.entries ≡ with_first table.old.entries (name, value)) }
{
    if !table.contains_key(&name) {
        table.insert(name, value).map_err(AllocError::from)?;
    }
    Ok(())
}

/// A count that stands below the greatest value of its type, where counts stay that would pass it.
pub fn exact(count: usize) -> Result<usize, NoMemory>
    ensures { IfOk result (λ n. (n ≡ count) × (n < usize.MAX)) }
{
    if count < usize::MAX {
        Ok(count)
    } else {
        Err(NoMemory)
    }
}

/// So many more.
pub fn more(count: usize, more: usize) -> Result<usize, NoMemory>
    ensures { IfOk result (λ n. n ≡ count + more) }
{
    count.checked_add(more).ok_or(NoMemory)
}

/// What the text of a function counts.
///
/// # Errors
///
/// `NoMemory`, where a count does not fit its type, which no file's text is long enough for.
fn text_of(function: &FunctionDefinition) -> Result<Text, NoMemory>
    ensures { IfOk result (λ text. text ≡ text_of (definition_of function.now)) }
{
    let mut nodes = 1;
    count_declarator(&mut nodes, &function.declarator);
    count_items(&mut nodes, &function.body);
    Ok(Text {
        nodes: exact(nodes)?,
        labels: exact(most_labels(&function.body))?,
    })
}

fn put_text(
    alloc: Global,
    texts: &mut IndexMap<Name, Text>,
    external: &External,
) -> Result<(), NoMemory>
    ensures { OnOk result (texts.new.entries ≡ firsts texts.old.entries (texts_in (definitions_of (external_of external.now ∷ [])))) }
{
    if let External::Function(function) = external {
        let name = name_or_empty(alloc, declared_name(&function.declarator))?;
        put_first(texts, name, text_of(function)?)?;
    }
    Ok(())
}

/// The texts of all functions that a file defines; of a name that is defined twice, the first.
#[tactic(auto, using(crate::proofs::Tables::texts_next, crate::proofs::Tables::texts_end))]
pub fn texts_in(alloc: Global, list: &[External]) -> Result<IndexMap<Name, Text>, NoMemory>
    ensures { IfOk result (λ texts. texts.entries ≡ firsts [] (texts_in (definitions_of (externals_of list.now)))) }
{
    let mut texts = IndexMap::new(alloc);
    for external in list {
        put_text(alloc, &mut texts, external)?;
    }
    Ok(texts)
}
