ghost use Rattle.std.specs.Prelude.{◌≡◌, ◌++◌, [], ◌∷◌, true, false, List, ℕ};
ghost use Rattle.keeper_channel.specs.Chan.{has_marker, unmarked, moved};

/// Moved entries have no marker. With the marker behind them they are the moved entries.
pub fn moved_entries_are_the_list()
    ensures { (old : List (List ℕ)) → (has_marker (moved old) ≡ false) × (has_marker (moved old ++ [] ∷ []) ≡ true) × (unmarked (moved old ++ [] ∷ []) ≡ moved old) }
{}

/// What is appended to a list with a marker is appended to the list without it.
pub fn what_follows_a_marker_is_appended()
    ensures { (two more : List (List ℕ)) → has_marker two ≡ true → (has_marker (two ++ more) ≡ true) × (unmarked (two ++ more) ≡ unmarked two ++ more) }
{}
