// Worked rows of all the faults of small programs.
ghost use Rattle.std.specs.Prelude.{◌≡◌, [], ◌∷◌, map, Some};
ghost use Rattle.thread_tree.specs.declared.place.Place.{Place};
ghost use Rattle.thread_tree.specs.declared.tree.Decl.TheVariants as decl;
ghost use Rattle.thread_check.specs.Scope.{Scope};
ghost use Rattle.thread_check.specs.Names.{Names, sort_of, sort_of_declaration};
ghost use Rattle.fault_places.specs.Order.{IsBefore, rank_of};
ghost use Rattle.thread_check.specs.declared.fault.Kind.TheVariants as kind;
ghost use Rattle.thread_check.specs.declared.fault.CheckFault.TheVariants.{UnknownName, TooMany};
ghost use Rattle.fault_places.specs.OfCalls.{counted_faults, further_taker_faults};
ghost use Rattle.fault_places.specs.PlacesOf.{places_of};
ghost use Rattle.fault_places.specs.OfDeclarations.{faults_of};
ghost use Rattle.fault_places.specs.Rows.{at_line, two_starts, two_starts_faults, two_starts_places, twice, twice_faults, nine, ninth_faults, named, taker_faults, table};

/// Worked rows: which faults small programs have, and where. It does nothing when it runs.
#[tactic(auto, using(crate::proofs::Rows::two_starts_row, crate::proofs::Rows::twice_row, crate::proofs::Rows::ninth_row, crate::proofs::Rows::line_row, crate::proofs::Rows::column_row, crate::proofs::Rows::not_before_row, crate::proofs::Rows::table_row, crate::proofs::Rows::places_row, crate::proofs::Rows::taker_row))]
pub fn worked_rows()
    ensures two_starts { faults_of two_starts ≡ two_starts_faults }
    ensures twice { faults_of twice ≡ twice_faults }
    ensures ninth { counted_faults nine (TooMany nine kind.Items 9 ∷ []) (UnknownName (at_line 3 20) ∷ UnknownName (at_line 3 24) ∷ []) ≡ ninth_faults }
    ensures taker { (names : Names) (scope : Scope) (place : Place) → sort_of names scope 4 ≡ Some (sort_of_declaration (decl.Kind (named 4 place) [])) → further_taker_faults names scope (named 4 place ∷ []) (named 4 (at_line 5 9)) ≡ taker_faults }
    ensures line { IsBefore (at_line 1 40) (at_line 2 1) }
    ensures column { IsBefore (at_line 2 1) (at_line 2 2) }
    ensures not_before { IsBefore (at_line 2 1) (at_line 1 40) → ⊥ }
    ensures places { places_of two_starts.decls ≡ two_starts_places }
    ensures table { map rank_of (table (at_line 1 1)) ≡ 0 ∷ 1 ∷ 2 ∷ 3 ∷ 4 ∷ 5 ∷ [] }
{}
