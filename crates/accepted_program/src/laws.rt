// Laws of accepted programs, as contracts of functions that do nothing.
ghost use Rattle.std.specs.Prelude.{◌≡◌, ℕ, List};
ghost use Rattle.thread_tree.specs.SpellingOfDeclarations.{SpellsProgram};
ghost use Rattle.thread_tree.specs.declared.token.Placed.{Placed};
ghost use Rattle.thread_tree.specs.declared.tree.Decl.{Decl};
ghost use Rattle.thread_tree.specs.declared.tree.Tree.{Tree};
ghost use Rattle.thread_check.specs.Faults.{fault_of};
ghost use Rattle.accepted_program.specs.Accepted.{IsSpelling, IsAccepted};

/// Two programs that the same tokens spell are the same.
#[tactic(auto, using(crate::proofs::Declarations::unambiguous_program))]
pub fn unambiguous()
    ensures same_tree { (tokens : List Placed) (ds es : List Decl) → SpellsProgram tokens ds → SpellsProgram tokens es → ds ≡ es }
{}

/// A program's fault depends on its declarations alone, and not on the texts of its names.
#[tactic(auto, using(crate::proofs::OneProgram::same_fault))]
pub fn same_verdict()
    ensures same_fault { (t u : Tree) → t.decls ≡ u.decls → fault_of t ≡ fault_of u }
{}

/// A text is accepted as one program alone.
#[tactic(auto, using(crate::proofs::OneProgram::one_tree, crate::proofs::OneProgram::same_names, crate::proofs::OneProgram::same_decls, crate::proofs::OneProgram::accepted_too))]
pub fn one_program()
    ensures one_tree { (text : List ℕ) (t u : Tree) → IsSpelling text t → IsSpelling text u → t ≡ u }
    ensures same_names { (text : List ℕ) (t u : Tree) → IsSpelling text t → IsSpelling text u → t.names ≡ u.names }
    ensures same_decls { (text : List ℕ) (t u : Tree) → IsSpelling text t → IsSpelling text u → t.decls ≡ u.decls }
    ensures accepted_too { (text : List ℕ) (t u : Tree) → IsAccepted text t → IsSpelling text u → IsAccepted text u }
{}
