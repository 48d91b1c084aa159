//! Laws over the definitions, each proved once.
ghost use Rattle.pad_merge.specs.Laws.{AppliedPatchesMerge, MergedApplies, MergedHasSources, SourcesFixNormal, EmptyFirst, EmptySecond, InsertionsTakenBack, NormalIsOrdered};
ghost use Rattle.pad_merge.specs.Laws.{OneOriginEach, OriginsNameUnits, NoOriginTwice, FirstPlacesRise, SecondStandsWhole, EachOfSecondStands, MergedInsertsTexts, MergedCopies, MergedRemoves, FirstStandsUnlessRemoved};

/// Patches that can be applied to a text one after the other can be merged.
pub fn applied_patches_merge()
    ensures { AppliedPatchesMerge }
{}

/// The merge of two patches can be applied where they can be applied one after the other.
pub fn merged_applies()
    ensures { MergedApplies }
{}

/// The units after a merge come from where those after both patches in turn come from.
pub fn merged_has_sources()
    ensures { MergedHasSources }
{}

/// A patch in normal form is fixed by where the units after it come from.
pub fn sources_fix_normal()
    ensures { SourcesFixNormal }
{}

/// A patch without operations adds nothing in front of one in normal form.
pub fn empty_first()
    ensures { EmptyFirst }
{}

/// A patch without operations adds nothing behind one in normal form.
pub fn empty_second()
    ensures { EmptySecond }
{}

/// Insertions that are taken back leave no operation.
pub fn insertions_taken_back()
    ensures { InsertionsTakenBack }
{}

/// A patch in normal form is in order.
pub fn normal_is_ordered()
    ensures { NormalIsOrdered }
{}

/// There is one origin for each unit that a merge inserts.
pub fn one_origin_each()
    ensures { OneOriginEach }
{}

/// An origin names the unit that the merge inserts in its place.
pub fn origins_name_units()
    ensures { OriginsNameUnits }
{}

/// No origin stands twice.
pub fn no_origin_twice()
    ensures { NoOriginTwice }
{}

/// A merge keeps the order of the units that it keeps of the first patch.
pub fn first_places_rise()
    ensures { FirstPlacesRise }
{}

/// A merge keeps every unit that the second patch inserts, in order.
pub fn second_stands_whole()
    ensures { SecondStandsWhole }
{}

/// Each unit that the second patch inserts has an origin.
pub fn each_of_second_stands()
    ensures { EachOfSecondStands }
{}

/// A merge of patches that insert texts inserts texts.
pub fn merged_inserts_texts()
    ensures { MergedInsertsTexts }
{}

/// Copying a list by a merge is copying it by both patches in turn.
pub fn merged_copies<A>()
    ensures { MergedCopies A }
{}

/// A merge removes just what the first patch removes, and what the second one removes of the rest.
pub fn merged_removes()
    ensures { MergedRemoves }
{}

/// A unit that the first patch inserts is inserted by the merge, or the second patch removes it.
pub fn first_stands_unless_removed<A>()
    ensures { FirstStandsUnlessRemoved A }
{}
