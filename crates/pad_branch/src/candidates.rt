//! The linked paths that better the best branch.

ghost use Rattle.std.specs.Prelude.{◌≡◌, ◌+◌, ◌≤◌, ◌<◌, ◌^◌, ◌⊎◌, ◌↔◌, IsTrue, Contains, All, IfOk};
ghost use Rattle.std.specs.List.Sorted.{IsSorted};
ghost use Rattle.pad_graph.specs.declared.linking.Linking.{Linking};
ghost use Rattle.pad_branch.specs.declared.candidate.Candidate.{Candidate};
ghost use Rattle.pad_branch.specs.Inside.Candidates.{candidate_cmp, candidate_of, BettersWithin, IsOneOf};

use crate::candidate::Candidate;
use pad_graph::Linking;
use pad_text::Name;
use std::alloc::{AllocError, Global};
use std::cmp::{Ordering, Reverse};

/// Whether a path of this height and last name is not longer than `longest`, and betters the path with that last name and height.
fn is_better(linking: &Linking, name: &Name, height: u64, longest: u64) -> bool
    ensures { IsTrue result ↔ BettersWithin linking.now name.now height longest }
{
    if linking.height > longest {
        return false;
    }
    if linking.height != height {
        return linking.height > height;
    }
    linking.name.cmp(name) == Ordering::Less
}

/// Those of these paths that better the path with this last name and height, but for those that are longer than `longest`.
fn those_better(
    alloc: Global,
    linkings: &[Linking],
    name: &Name,
    height: u64,
    longest: u64,
) -> Result<Vec<Candidate>, AllocError>
    ensures each { IfOk result (λ candidates. (candidate : Candidate) → Contains candidates.items candidate → IsOneOf linkings.now name.now height longest candidate) }
    ensures every { IfOk result (λ candidates. (linking : Linking) → Contains linkings.now linking → BettersWithin linking name.now height longest → Contains candidates.items (candidate_of linking)) }
{
    let mut candidates = Vec::new(alloc);
    for linking in linkings {
        if !is_better(linking, name, height, longest) {
            continue;
        }
        candidates.push(Candidate {
            height: Reverse(linking.height),
            name: linking.name,
        })?;
    }
    Ok(candidates)
}

/// The same, the better first.
pub(crate) fn better(
    alloc: Global,
    linkings: &[Linking],
    name: &Name,
    height: u64,
    longest: u64,
) -> Result<Vec<Candidate>, AllocError>
    requires { longest + 1 < 2 ^ 64 }
    ensures sorted { IfOk result (λ candidates. IsSorted candidate_cmp candidates.items) }
    ensures few { IfOk result (λ candidates. All (λ candidate. (height ≤ candidate.height.0) × (candidate.height.0 + 1 < 2 ^ 64)) candidates.items) }
    ensures each { IfOk result (λ candidates. (candidate : Candidate) → Contains candidates.items candidate → IsOneOf linkings.now name.now height longest candidate) }
    ensures every { IfOk result (λ candidates. (linking : Linking) → Contains linkings.now linking → BettersWithin linking name.now height longest → Contains candidates.items (candidate_of linking)) }
{
    let mut candidates = those_better(alloc, linkings, name, height, longest)?;
    candidates.sort()?;
    Ok(candidates)
}
