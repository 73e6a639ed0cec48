// The laws of the places of faults, as contracts of functions that do nothing.
ghost use Rattle.std.specs.Prelude.{◌≡◌, ℕ, List, [], Some, None};
ghost use Rattle.thread_tree.specs.declared.place.Place.{Place};
ghost use Rattle.thread_tree.specs.declared.token.Placed.{Placed};
ghost use Rattle.thread_tree.specs.declared.tree.Decl.{Decl};
ghost use Rattle.thread_tree.specs.declared.tree.Tree.{Tree};
ghost use Rattle.thread_tree.specs.SpellingOfDeclarations.{SpellsDecl, SpellsDecls, SpellsProgram};
ghost use Rattle.thread_tokens.specs.Scan.{scan_of};
ghost use Rattle.thread_check.specs.declared.fault.CheckFault.{CheckFault};
ghost use Rattle.thread_check.specs.Names.{Names};
ghost use Rattle.thread_check.specs.Faults.{fault_of, IsTold};
ghost use Rattle.fault_places.specs.Order.{IsRising, AreInOrder, place_of};
ghost use Rattle.fault_places.specs.Met.{AreMet};
ghost use Rattle.fault_places.specs.Found.{first_of};
ghost use Rattle.fault_places.specs.OfDeclarations.{declaration_walk, faults_of};
ghost use Rattle.fault_places.specs.PlacesOf.{places_of};
ghost use Rattle.fault_places.specs.Passed.{ArePassed, NeverFall};
ghost use Rattle.fault_places.specs.Earliest.{IsEarliest};

/// Tokens, and the places and the faults in what they spell, come in order of the text.
///
/// `declaration` holds whatever names are in scope and whatever was counted before.
#[tactic(auto, using(crate::proofs::Scanning::text_rises, crate::proofs::PassingBodies::places_passed, crate::proofs::PassingBodies::places_never_fall, crate::proofs::FirstFault::one_declaration_met, crate::proofs::FirstFault::faults_met, crate::proofs::FirstFault::faults_in_order))]
pub fn rising()
    ensures tokens { (text : List ℕ) → IsRising (scan_of text).tokens }
    ensures tree { (before after : List Placed) (ds : List Decl) → SpellsDecls before after ds → ArePassed before after (places_of ds) }
    ensures places { (text : List ℕ) (ds : List Decl) → SpellsProgram (scan_of text).tokens ds → NeverFall (places_of ds) }
    ensures declaration { (before after : List Placed) (d : Decl) (names : Names) (loops : ℕ) → SpellsDecl before after d → IsRising before → AreMet before after (declaration_walk names loops d).faults }
    ensures program { (tokens : List Placed) (tree : Tree) → SpellsProgram tokens tree.decls → IsRising tokens → AreMet tokens [] (faults_of tree) }
    ensures faults { (text : List ℕ) (tree : Tree) → SpellsProgram (scan_of text).tokens tree.decls → AreInOrder (faults_of tree) }
{}

/// The fault that is answered is one of all the faults of the program, and it comes no later than any of them: none
/// stands before it, and none that stands with it comes before it in the table. `told` says it of what `check` tells.
#[tactic(auto, using(crate::proofs::FirstFault::first_fault, crate::proofs::FirstFault::no_faults, crate::proofs::FirstFault::earliest_fault, crate::proofs::FirstFault::told_fault))]
pub fn earliest()
    ensures first { (tokens : List Placed) (tree : Tree) → SpellsProgram tokens tree.decls → fault_of tree ≡ first_of (faults_of tree) }
    ensures accepted { (tokens : List Placed) (tree : Tree) → SpellsProgram tokens tree.decls → fault_of tree ≡ None → faults_of tree ≡ [] }
    ensures none_before { (text : List ℕ) (tree : Tree) (fault : CheckFault) → SpellsProgram (scan_of text).tokens tree.decls → fault_of tree ≡ Some fault → IsEarliest fault (faults_of tree) }
    ensures told { (text : List ℕ) (tree : Tree) (fault : CheckFault) (place : Place) → SpellsProgram (scan_of text).tokens tree.decls → IsTold (fault_of tree) fault → place_of fault ≡ Some place → IsEarliest fault (faults_of tree) }
{}
