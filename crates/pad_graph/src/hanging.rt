//! What hangs on a name.

ghost use Rattle.std.specs.Prelude.{◌≡◌, ◌≤◌, ◌+◌, ◌<◌, ◌^◌, ◌++◌, List, IfOk};
ghost use Rattle.std.specs.BTreeMap.{get};
ghost use Rattle.pad_text.specs.declared.name.Name.{Name};
ghost use Rattle.pad_graph.specs.Inside.Tables.{names_in};
ghost use Rattle.pad_graph.specs.Inside.Hanging.{linkings_of, IsForest, AreHanging};
ghost use Rattle.pad_graph.specs.State.{name_cmp};

use crate::linking::Linking;
use crate::tables::names_of;
use pad_text::Name;
use std::alloc::{AllocError, Global};
use std::collections::BTreeMap;

/// Adds a linking at this height for each of the names but `stop`.
fn with_names(
    mut found: Vec<Linking>,
    names: &[Name],
    stop: &Name,
    height: u64,
) -> Result<Vec<Linking>, AllocError>
    ensures { IfOk result (λ all. all.items ≡ found.items ++ linkings_of stop.now height names.now) }
{
    for name in names {
        if *name == *stop {
            continue;
        }
        found.push(Linking {
            height,
            name: *name,
        })?;
    }
    Ok(found)
}

/// The first one and all that hang on it, but for `stop` and what hangs on that. They are at most `limit`.
pub(crate) fn hanging(
    alloc: Global,
    children: &BTreeMap<Name, Vec<Name>>,
    first: Linking,
    stop: &Name,
    limit: u64,
) -> Result<Vec<Linking>, AllocError>
    requires { first.height + limit < 2 ^ 64 }
    ensures { IfOk result (λ found. (all : List Name) → IsForest (λ name. names_in (get name_cmp children.now name)) first.name stop.now all limit → AreHanging (λ name. names_in (get name_cmp children.now name)) first stop.now found.items) }
{
    let mut found = Vec::new(alloc);
    found.push(first)?;
    for at in 0..limit {
        if at as usize >= found.len() {
            return Ok(found);
        }
        let linking = found[at as usize];
        let names = names_of(children, &linking.name);
        found = with_names(found, names, stop, linking.height + 1)?;
    }
    Ok(found)
}
