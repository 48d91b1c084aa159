ghost use Rattle.std.specs.Prelude.{◌≡◌, ℕ, All, ◌+◌, ◌<◌, ◌≤◌, ◌^◌, List, None, [], ◌++◌, length, map, replicate, IfOk, OnOk};
ghost use Rattle.std.specs.List.{filter_map};
ghost use Rattle.pad_text.specs.Text.{IsText};
ghost use Rattle.pad_patch.specs.Piece.{text_after};
ghost use Rattle.pad_patch.specs.Misfit.{Overlaps, EndsAfter};
ghost use Rattle.pad_merge.specs.UnitSource.{new_unit, kept_from, sources_of, sources_after, IsAscending};
ghost use Rattle.pad_merge.specs.Origin.{numbered, origins_after, origins};
ghost use Rattle.pad_merge.specs.CopiedUnit.{source_of, origin_of, origin_in, new_or_letter};
ghost use Rattle.pad_merge.specs.Merge.{merged, CanMerge, IsNormal, operations_between};
ghost use Rattle.pad_merge.specs.declared.origin.Origin.TheVariants.{First, Second};

use crate::copied_unit::CopiedUnit;
use crate::gaps::Gaps;
use crate::origin::Origin;
use crate::origins::Origins;
use crate::side::Side;
use crate::sourced::Sourced;
use pad_patch::{Operations, Patch};
use pad_text::Name;
use std::alloc::{AllocError, Global};

/// One patch that does on a text of `len` units what the first patch and then the second one do.
pub fn merge(alloc: Global, p: &Patch, q: &Patch, len: usize) -> Result<Patch, AllocError>
    requires small { len < 2 ^ 32 }
    requires can { CanMerge p.now q.now len }
    ensures merged { IfOk result (λ patch. patch ≡ merged p.now q.now len) }
    ensures normal { IfOk result IsNormal }
    ensures inside { IfOk result (λ patch. (index : ℕ) → ¬ (EndsAfter patch len index)) }
    ensures both { IfOk result (λ patch. (text : List ℕ) → length text ≡ len → text_after patch text ≡ text_after q.now (text_after p.now text)) }
{
    let units = copied_twice(alloc, p, q, len)?;
    patch_of(alloc, units.as_slice(), len, p.before)
}

/// The merge of two patches as `merge` gives it, and where each unit that it inserts comes from.
pub fn merge_from(alloc: Global, p: &Patch, q: &Patch, len: usize) -> Result<Sourced, AllocError>
    requires small { len < 2 ^ 32 }
    requires can { CanMerge p.now q.now len }
    ensures merged { IfOk result (λ sourced. sourced.patch ≡ merged p.now q.now len) }
    ensures from { IfOk result (λ sourced. sourced.from ≡ origins p.now q.now len) }
    ensures normal { IfOk result (λ sourced. IsNormal sourced.patch) }
    ensures inside { IfOk result (λ sourced. (index : ℕ) → ¬ (EndsAfter sourced.patch len index)) }
    ensures both { IfOk result (λ sourced. (text : List ℕ) → length text ≡ len → text_after sourced.patch text ≡ text_after q.now (text_after p.now text)) }
{
    let units = copied_twice(alloc, p, q, len)?;
    let patch = patch_of(alloc, units.as_slice(), len, p.before)?;
    let from = origins_of(alloc, units.as_slice())?;
    Ok(Sourced { patch, from })
}

/// The units of a text of this length after the first patch and then the second one.
fn copied_twice(
    alloc: Global,
    p: &Patch,
    q: &Patch,
    len: usize,
) -> Result<Vec<CopiedUnit>, AllocError>
    requires small { len < 2 ^ 32 }
    requires can { CanMerge p.now q.now len }
    ensures sources { IfOk result (λ units. map source_of units.items ≡ sources_after q.now (sources_of p.now len)) }
    ensures origins { IfOk result (λ units. map origin_of units.items ≡ origins_after Second q.now (origins_after First p.now (replicate len None))) }
    ensures rising { IfOk result (λ units. IsAscending 0 len (map source_of units.items)) }
    ensures text { IfOk result (λ units. IsText (map new_or_letter (map source_of units.items))) }
{
    let before = kept(alloc, len)?;
    let between = copied(alloc, p, before.as_slice(), Side::Earlier)?;
    let after = copied(alloc, q, between.as_slice(), Side::Later)?;
    Ok(after)
}

/// The units of a text of this length.
fn kept(alloc: Global, len: usize) -> Result<Vec<CopiedUnit>, AllocError>
    requires { len < 2 ^ 32 }
    ensures sources { IfOk result (λ units. map source_of units.items ≡ kept_from 0 len) }
    ensures origins { IfOk result (λ units. map origin_of units.items ≡ replicate len None) }
{
    let mut units = Vec::new(alloc);
    for place in 0..len {
        units.push(CopiedUnit::Kept(place as u32))?;
    }
    Ok(units)
}

/// The units after one of the two patches of these units.
fn copied(
    alloc: Global,
    patch: &Patch,
    units: &[CopiedUnit],
    side: Side,
) -> Result<Vec<CopiedUnit>, AllocError>
    requires ordered { (index : ℕ) → ¬ (Overlaps patch.now index) }
    requires inside { (index : ℕ) → ¬ (EndsAfter patch.now (length units.now) index) }
    ensures sources { IfOk result (λ copy. map source_of copy.items ≡ sources_after patch.now (map source_of units.now)) }
    ensures origins { IfOk result (λ copy. map origin_of copy.items ≡ origins_after (origin_in side) patch.now (map origin_of units.now)) }
    ensures texts { OnOk result (All (λ operation. IsText operation.insert) patch.now.ops) }
{
    let mut copy = Vec::new(alloc);
    let mut place = 0;
    let mut inserted = 0;
    for op in patch.ops.as_slice() {
        copy.extend_from_slice(&units[place..op.start()])?;
        push_new(&mut copy, op.insert.as_units(), side, inserted)?;
        inserted += op.insert.len();
        place = op.end();
    }
    copy.extend_from_slice(&units[place..])?;
    Ok(copy)
}

/// Puts new units of one of the patches behind others, where so many units of that patch stand before.
fn push_new(
    copy: &mut Vec<CopiedUnit>,
    units: &[u16],
    side: Side,
    inserted: usize,
) -> Result<(), AllocError>
    requires { inserted ≤ length copy.old.items }
    ensures sources { OnOk result (map source_of copy.new.items ≡ map source_of copy.old.items ++ map new_unit units.now) }
    ensures origins { OnOk result (map origin_of copy.new.items ≡ map origin_of copy.old.items ++ numbered (origin_in side) inserted (length units.now)) }
{
    for (index, unit) in units.iter().enumerate() {
        let origin = side.origin((inserted + index) as u64);
        copy.push(CopiedUnit::New(*unit, origin))?;
    }
    Ok(())
}

/// The origins of the new units.
fn origins_of(alloc: Global, units: &[CopiedUnit]) -> Result<Origins, AllocError>
    ensures { IfOk result (λ from. from ≡ filter_map (λ origin. origin) (map origin_of units.now)) }
{
    let mut from = Vec::new(alloc);
    for unit in units {
        if let CopiedUnit::New(_, origin) = unit {
            from.push(*origin)?;
        }
    }
    Ok(Origins::new(from))
}

/// The patch that makes these units of a text of this length: one operation for each gap between kept units.
fn patch_of(
    alloc: Global,
    units: &[CopiedUnit],
    len: usize,
    before: Name,
) -> Result<Patch, AllocError>
    requires small { len < 2 ^ 32 }
    requires rising { IsAscending 0 len (map source_of units.now) }
    requires text { IsText (map new_or_letter (map source_of units.now)) }
    ensures { IfOk result (λ patch. patch ≡ record { ops = operations_between 0 [] len (map source_of units.now); before = before }) }
{
    let mut gaps = Gaps::new(alloc);
    for unit in units {
        match unit {
            CopiedUnit::Kept(place) => {
                gaps.close(alloc, *place as usize)?;
                gaps.place = *place as usize + 1;
            }
            CopiedUnit::New(unit, _) => gaps.inserted.push(*unit)?,
        }
    }
    gaps.close(alloc, len)?;
    Ok(Patch {
        ops: Operations::new(gaps.ops),
        before,
    })
}
