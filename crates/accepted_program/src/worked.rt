// Worked rows of the grammar, and of what tells trees apart.
ghost use Rattle.std.specs.Prelude.{◌≡◌, ℕ, Bool, List, [], ◌∷◌};
ghost use Rattle.thread_tree.specs.declared.tree.Decl.{Decl};
ghost use Rattle.accepted_program.specs.Rows.{three};
ghost use Rattle.thread_tree.specs.Spelling.{SpellsExpr};
ghost use Rattle.thread_tree.specs.Expressions as made;
ghost use Rattle.thread_tree.specs.declared.place.At.{At};
ghost use Rattle.thread_tree.specs.declared.place.Place.{Place};
ghost use Rattle.thread_tree.specs.declared.block.Stmt.{Stmt, out-Stmt};
ghost use Rattle.thread_tree.specs.declared.block.Stmt.TheOpen as stmt;
ghost use Rattle.thread_tree.specs.declared.expr.Expr.{Expr};
ghost use Rattle.thread_tree.specs.declared.expr.Expr.TheVariants as expr;
ghost use Rattle.thread_tree.specs.declared.expr.Op.{Op};
ghost use Rattle.thread_tree.specs.declared.expr.Op.TheVariants as op;
ghost use Rattle.thread_tree.specs.declared.tree.Decl.TheVariants as decl;

/// Worked rows: how three names with two operators are grouped, and what tells two trees apart.
/// It does nothing when it runs.
#[tactic(auto, using(crate::proofs::WorkedRows::numbers_differ, crate::proofs::WorkedRows::places_differ, crate::proofs::WorkedRows::names_differ, crate::proofs::WorkedRows::ends_differ))]
pub fn worked_rows()
    ensures left_first { (fields : Bool) (x y z : At) (p q : Place) (e : Expr) → SpellsExpr fields (three x op.Minus p y op.Minus q z) [] e → e ≡ made.binary op.Minus (made.binary op.Minus (expr.Local x) (expr.Local y)) (expr.Local z) }
    ensures tighter_first { (fields : Bool) (x y z : At) (p q : Place) (e : Expr) → SpellsExpr fields (three x op.Minus p y op.Times q z) [] e → e ≡ made.binary op.Minus (expr.Local x) (made.binary op.Times (expr.Local y) (expr.Local z)) }
    ensures numbers_differ { (m n : ℕ) → expr.Num m ≡ expr.Num n → m ≡ n }
    ensures operators_differ { (o u : Op) (a b c d : Expr) → made.binary o a b ≡ made.binary u c d → (o ≡ u) × (a ≡ c) × (b ≡ d) }
    ensures places_differ { (s t : Stmt) (p q : Place) → s ≡ t → out-Stmt s ≡ stmt.Break p → out-Stmt t ≡ stmt.Break q → p ≡ q }
    ensures names_differ { (a b k l : At) → decl.Object a k ≡ decl.Object b l → (a ≡ b) × (k ≡ l) }
    ensures ends_differ { (d : Decl) (ds : List Decl) → d ∷ ds ≡ [] → ⊥ }
{}
