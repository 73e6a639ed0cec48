ghost use Rattle.std.specs.Option.{IfNone, IfSome, MatchOption, is_some, option_to_list};
ghost use Rattle.std.specs.Prelude.{Option, List, ℕ, ◌≢◌, ◌≡◌, ◌+◌, ◌-◌, ◌<◌, ◌≤◌, [], false, ◌∷◌, ◌++◌, length, drop, take, slice_get, if◌then◌else◌};
ghost use Rattle.thread_tree.specs.declared.block.Block.{Block};
ghost use Rattle.thread_tree.specs.declared.block.Stmt.{Stmt, out-Stmt};
ghost use Rattle.thread_tree.specs.declared.block.Stmt.TheOpen as stmt;
ghost use Rattle.thread_tree.specs.declared.local.Local.{Local as Held};
ghost use Rattle.thread_tree.specs.declared.place.At.{At};
ghost use Rattle.thread_tree.specs.declared.expr.Expr.{Expr};
ghost use Rattle.thread_tree.specs.Program.{Program, function_of, names_of, program_of};
ghost use Rattle.thread_tree.specs.Value.{value_of, values_in};
ghost use Rattle.thread_tree.specs.LocalState.{assigned, branched, broken_off, called, declared_local, ended, entered, going_on, moved, named, returned, tested};
ghost use Rattle.thread_tree.specs.Actions.{declared_by};
ghost use Rattle.thread_machine.specs.Scope.{IsOpen, IsOpenBy, IsScoped};
ghost use Rattle.thread_machine.specs.Context.{IsCounted, after_of, block_inside, is_loop, kept_in, level_along, level_called, level_of, local_of, rest_of, state_at, statement_of, todo_after, todo_behind};

use crate::body::{Body, function};
use crate::context::{Ctx, Cursor, Way};
use crate::scope::{assign, fill, give};
use crate::walk::{is_loop, place_after, place_behind, statement_at, taking};
use arrayvec::ArrayVec;
use thread_tree::{BLOCKS, Expr, LOCALS, List, Local, Tree};

impl Ctx {
    /// The locals of the innermost frame.
    pub fn own(&self) -> &[Local]
        requires within { self.now.base ≤ length self.now.slots.items }
        ensures own { result.now ≡ drop self.now.base self.now.slots.items }
    {
        &self.slots.as_slice()[self.base..]
    }

    /// Goes on behind the statement at hand.
    #[tactic(auto, using(crate::proofs::KeepLemmas::passed_on))]
    pub fn pass(&mut self)
        requires fits { self.old.at < usize.MAX }
        ensures kept { self.new ≡ record self.old { at = self.old.at + 1; again = false } }
        ensures counted { (p : Program) → IsCounted p self.old → IsCounted p self.new }
        ensures scoped { (p : Program) (s : Stmt) → statement_of p self.old ≡ Some s → declared_by (out-Stmt s) ≡ []
            → IsScoped p self.old → IsScoped p self.new }
        ensures moved { (p : Program) → local_of p self.new ≡ going_on (local_of p self.old) (rest_of p self.old) }
    {
        self.at += 1;
        self.again = false;
    }

    /// Declares a local, and goes on behind the statement at hand.
    pub fn declare(&mut self, name: u32, value: u32)
        requires fits { self.old.at < usize.MAX }
        requires within { self.old.base ≤ length self.old.slots.items }
        requires room { length self.old.slots.items < LOCALS }
        ensures kept { self.new ≡ record self.old { slots = self.new.slots; at = self.old.at + 1; again = false } }
        ensures counted { (p : Program) → IsCounted p self.old → IsCounted p self.new }
        ensures scoped { (p : Program) (s : Stmt) → statement_of p self.old ≡ Some s
            → declared_by (out-Stmt s) ≡ name ∷ [] → IsScoped p self.old → IsScoped p self.new }
        ensures moved { (p : Program) → local_of p self.new
            ≡ declared_local (local_of p self.old) name value (rest_of p self.old) }
    {
        self.slots.push(Local { name, value });
        self.at += 1;
        self.again = false;
    }

    #[tactic(auto, using(crate::proofs::StateLemmas::length_assigned, crate::proofs::KeepLemmas::passed_on, crate::proofs::NameLemmas::names_assigned))]
    /// Assigns a local, and goes on behind the statement at hand.
    pub fn set(&mut self, name: u32, value: u32)
        requires fits { self.old.at < usize.MAX }
        requires within { self.old.base ≤ length self.old.slots.items }
        ensures kept { self.new ≡ record self.old { slots = self.new.slots; at = self.old.at + 1; again = false } }
        ensures counted { (p : Program) → IsCounted p self.old → IsCounted p self.new }
        ensures scoped { (p : Program) (s : Stmt) → statement_of p self.old ≡ Some s
            → declared_by (out-Stmt s) ≡ [] → IsScoped p self.old → IsScoped p self.new }
        ensures moved { (p : Program) → local_of p self.new
            ≡ assigned (local_of p self.old) name value (rest_of p self.old) }
    {
        assign(&mut self.slots, self.base, name, value);
        self.at += 1;
        self.again = false;
    }

    /// Enters a block of the statement at hand.
    pub fn enter(&mut self, way: Way)
        requires block { way ≢ Way.Call }
        requires within { self.old.base ≤ length self.old.slots.items }
        requires room { length self.old.cursors.items < BLOCKS }
        ensures cursors { self.new.cursors.items ≡ self.old.cursors.items
            ++ record { at = self.old.at; way = way; keep = length self.old.slots.items - self.old.base } ∷ [] }
        ensures kept { self.new ≡ record self.old { cursors = self.new.cursors; at = 0; again = false } }
        ensures counted { (p : Program) → IsCounted p self.old → IsCounted p self.new }
        ensures scoped { (p : Program) (s : Stmt) → statement_of p self.old ≡ Some s → declared_by (out-Stmt s) ≡ []
            → IsScoped p self.old → IsScoped p self.new }
        ensures moved { (p : Program) (s : Stmt) (block : Block) → statement_of p self.old ≡ Some s
            → block_inside p way s ≡ Some block
            → local_of p self.new ≡ entered (local_of p self.old) block (after_of p self.old) }
    {
        let keep = self.slots.len() - self.base;
        self.cursors.push(Cursor {
            at: self.at,
            way,
            keep,
        });
        self.at = 0;
        self.again = false;
    }

    /// Makes the move of an `if` whose condition has this value.
    pub fn branch(&mut self, value: u32, has_other: bool)
        requires fits { self.old.at < usize.MAX }
        requires within { self.old.base ≤ length self.old.slots.items }
        requires room { length self.old.cursors.items < BLOCKS }
        ensures counted { (p : Program) → IsCounted p self.old → IsCounted p self.new }
        ensures scoped { (p : Program) (s : Stmt) → statement_of p self.old ≡ Some s → declared_by (out-Stmt s) ≡ []
            → IsScoped p self.old → IsScoped p self.new }
        ensures moved { (p : Program) (s : Stmt) (e : Expr) (block : Block) (other : Option Block)
            → statement_of p self.old ≡ Some s → out-Stmt s ≡ stmt.If e block other
            → is_some other ≡ has_other → value ≡ value_of (local_of p self.old).top.locals e
            → local_of p self.new ≡ branched (local_of p self.old) e block other (rest_of p self.old) }
    {
        if value != 0 {
            self.enter(Way::First);
            return;
        }
        if has_other {
            self.enter(Way::Else);
            return;
        }
        self.pass();
    }

    /// Makes the move of a `while` whose condition has this value.
    pub fn test(&mut self, value: u32)
        requires fits { self.old.at < usize.MAX }
        requires within { self.old.base ≤ length self.old.slots.items }
        requires room { length self.old.cursors.items < BLOCKS }
        ensures counted { (p : Program) → IsCounted p self.old → IsCounted p self.new }
        ensures scoped { (p : Program) (s : Stmt) → statement_of p self.old ≡ Some s → declared_by (out-Stmt s) ≡ []
            → IsScoped p self.old → IsScoped p self.new }
        ensures moved { (p : Program) (s : Stmt) (e : Expr) (block : Block)
            → statement_of p self.old ≡ Some s → out-Stmt s ≡ stmt.While e block
            → value ≡ value_of (local_of p self.old).top.locals e
            → local_of p self.new ≡ tested (local_of p self.old) e block (rest_of p self.old) }
    {
        if value != 0 {
            self.enter(Way::First);
            return;
        }
        self.pass();
    }

    /// Goes to the end of the innermost block.
    #[tactic(auto, using(crate::proofs::KeepLemmas::finished))]
    fn finish(&mut self, tree: &Tree)
        ensures kept { self.new ≡ record self.old { at = self.new.at; again = false } }
        ensures scoped { IsOpen (program_of tree.now) self.old → IsScoped (program_of tree.now) self.new }
        ensures moved { (level_of (program_of tree.now) self.old).behind ≡ []
            → local_of (program_of tree.now) self.new
            ≡ going_on (local_of (program_of tree.now) self.old) [] }
    {
        self.at = match self.block(tree) {
            Some(block) => block.stmts.len(),
            None => 0,
        };
        self.again = false;
    }

    /// Keeps so many locals of the innermost frame.
    #[tactic(auto, using(crate::proofs::StateLemmas::take_within))]
    fn cut(&mut self, keep: usize)
        requires within { self.old.base ≤ length self.old.slots.items }
        ensures kept { self.new ≡ record self.old { slots = self.new.slots } }
        ensures slots { self.new.slots.items ≡ take (self.old.base + keep) self.old.slots.items }
    {
        let own = self.slots.len() - self.base;
        self.slots.truncate(self.base + keep.min(own));
    }

    /// Goes on where a block that was left has ended, without its locals.
    fn leave(&mut self, tree: &Tree, cursor: Cursor)
        requires within { self.old.base ≤ length self.old.slots.items }
        ensures counted { IsCounted (program_of tree.now) self.old → IsCounted (program_of tree.now) self.new }
        ensures scoped { cursor.way ≢ Way.Call → IsOpenBy (program_of tree.now) self.old.body
            (self.old.cursors.items ++ cursor ∷ []) self.old.slots.items self.old.base → IsScoped (program_of tree.now) self.new }
        ensures moved { local_of (program_of tree.now) self.new
            ≡ ended (local_of (program_of tree.now) self.old) cursor.keep
            (todo_after (level_of (program_of tree.now) self.old) cursor.at) }
    {
        let statement = statement_at(self.block(tree), cursor.at);
        self.cut(cursor.keep);
        self.at = place_after(statement, cursor.at);
        self.again = is_loop(statement);
    }

    /// Goes on behind a call that gave this result.
    fn return_to(&mut self, tree: &Tree, cursor: Cursor, value: u32)
        requires within { self.old.base ≤ length self.old.slots.items }
        requires kept { cursor.keep ≤ self.old.base }
        ensures counted { kept_in (level_of (program_of tree.now) self.old).waiting + cursor.keep ≡ self.old.base
            → IsCounted (program_of tree.now) self.new }
        ensures scoped { cursor.way ≡ Way.Call → IsOpenBy (program_of tree.now) self.old.body
            (self.old.cursors.items ++ cursor ∷ []) self.old.slots.items self.old.base → IsScoped (program_of tree.now) self.new }
        ensures moved { local_of (program_of tree.now) self.new
            ≡ returned (state_at
            (level_called (program_of tree.now) (level_of (program_of tree.now) self.old) cursor.at cursor.keep)
            (take self.old.base self.old.slots.items) (drop self.old.base self.old.slots.items) []) value }
    {
        let statement = statement_at(self.block(tree), cursor.at);
        self.slots.truncate(self.base);
        self.base -= cursor.keep;
        self.at = place_behind(statement, cursor.at);
        self.again = false;
        give(&mut self.slots, self.base, taking(statement), value);
    }

    /// Makes the move of a `return` of this value.
    pub fn give_back(&mut self, tree: &Tree, value: u32)
        requires counted { IsCounted (program_of tree.now) self.old }
        ensures counted { IsCounted (program_of tree.now) self.new }
        ensures scoped { IsScoped (program_of tree.now) self.old → IsScoped (program_of tree.now) self.new }
        ensures moved { local_of (program_of tree.now) self.new
            ≡ returned (local_of (program_of tree.now) self.old) value }
    {
        match pop_call(&mut self.cursors) {
            Some(cursor) => self.return_to(tree, cursor, value),
            None => self.finish(tree),
        }
    }

    /// Makes the move at the end of a block or of a called body, and says whether there is one: the
    /// end of a thread's body is none.
    pub fn end(&mut self, tree: &Tree) -> bool
        requires counted { IsCounted (program_of tree.now) self.old }
        ensures counted { IsCounted (program_of tree.now) self.new }
        ensures unmoved { result ≡ false → self.new ≡ self.old }
        ensures scoped { IsScoped (program_of tree.now) self.old → IsScoped (program_of tree.now) self.new }
        ensures moved { moved (program_of tree.now) (local_of (program_of tree.now) self.old)
            (level_of (program_of tree.now) self.old).behind
            ≡ (if result then Some (local_of (program_of tree.now) self.new) else None) }
    {
        match self.cursors.pop() {
            Some(cursor) => {
                match cursor.way {
                    Way::Call => self.return_to(tree, cursor, 0),
                    Way::First | Way::Else => self.leave(tree, cursor),
                }
                true
            }
            None => false,
        }
    }

    /// Makes the move of a `break`.
    pub fn leave_loop(&mut self, tree: &Tree)
        requires fits { self.old.at < usize.MAX }
        requires counted { IsCounted (program_of tree.now) self.old }
        ensures counted { IsCounted (program_of tree.now) self.new }
        ensures scoped { (s : Stmt) → statement_of (program_of tree.now) self.old ≡ Some s → declared_by (out-Stmt s) ≡ []
            → IsScoped (program_of tree.now) self.old → IsScoped (program_of tree.now) self.new }
        ensures moved { local_of (program_of tree.now) self.new
            ≡ broken_off (local_of (program_of tree.now) self.old) (rest_of (program_of tree.now) self.old) }
    {
        self.pass();
        'leaving: loop {
            match pop_block(&mut self.cursors) {
                Some(cursor) => {
                    if self.leave_behind(tree, cursor) {
                        return;
                    }
                }
                None => {
                    self.finish(tree);
                    return;
                }
            }
        }
    }

    /// Goes on behind the statement whose block was left, without the block's locals, and says
    /// whether that was a loop.
    fn leave_behind(&mut self, tree: &Tree, cursor: Cursor) -> bool
        requires within { self.old.base ≤ length self.old.slots.items }
        ensures counted { IsCounted (program_of tree.now) self.old → IsCounted (program_of tree.now) self.new }
        ensures kept { self.new.cursors ≡ self.old.cursors }
        ensures again { self.new.again ≡ false }
        ensures left { result ≡ is_loop (slice_get (level_of (program_of tree.now) self.old).stmts cursor.at) }
        ensures scoped { cursor.way ≢ Way.Call → IsOpenBy (program_of tree.now) self.old.body
            (self.old.cursors.items ++ cursor ∷ []) self.old.slots.items self.old.base → IsScoped (program_of tree.now) self.new }
        ensures moved { local_of (program_of tree.now) self.new
            ≡ ended (local_of (program_of tree.now) self.old) cursor.keep
            (todo_behind (level_of (program_of tree.now) self.old) cursor.at) }
    {
        let statement = statement_at(self.block(tree), cursor.at);
        self.cut(cursor.keep);
        self.at = place_behind(statement, cursor.at);
        self.again = false;
        is_loop(statement)
    }

    /// Makes the move of a call of a function; one that isn't declared is passed by.
    pub fn call(&mut self, tree: &Tree, callee: u32, arguments: &List<Expr>)
        requires fits { self.old.at < usize.MAX }
        requires counted { IsCounted (program_of tree.now) self.old }
        requires room { length self.old.cursors.items < BLOCKS }
        requires locals { IfSome (function_of (program_of tree.now) callee)
            (λ f. length self.old.slots.items + length f.parameters ≤ LOCALS) }
        ensures counted { IsCounted (program_of tree.now) self.new }
        ensures scoped { (s : Stmt) (to : Option At) (name : At) → statement_of (program_of tree.now) self.old ≡ Some s
            → out-Stmt s ≡ stmt.Apply to name arguments.now → name.name ≡ callee
            → IsScoped (program_of tree.now) self.old → IsScoped (program_of tree.now) self.new }
        ensures moved { (s : Stmt) (to : Option At) (name : At) → statement_of (program_of tree.now) self.old ≡ Some s
            → out-Stmt s ≡ stmt.Apply to name arguments.now → name.name ≡ callee
            → local_of (program_of tree.now) self.new
            ≡ called (program_of tree.now) (local_of (program_of tree.now) self.old) to name arguments.now
            (rest_of (program_of tree.now) self.old) }
    {
        match function(tree, callee) {
            Some(body) => self.open(body, arguments),
            None => self.pass(),
        }
    }

    /// Enters the body of a function that the statement at hand calls.
    fn open(&mut self, body: Body, arguments: &List<Expr>)
        requires within { self.old.base ≤ length self.old.slots.items }
        requires room { length self.old.cursors.items < BLOCKS }
        requires locals { length self.old.slots.items + length body.parameters.now ≤ LOCALS }
        ensures cursors { self.new.cursors.items ≡ self.old.cursors.items
            ++ record { at = self.old.at; way = Way.Call; keep = length self.old.slots.items - self.old.base } ∷ [] }
        ensures slots { self.new.slots.items ≡ self.old.slots.items
            ++ named (names_of body.entry.parameters.now)
            (values_in (drop self.old.base self.old.slots.items) arguments.now) }
        ensures kept { self.new ≡ record self.old {
          slots = self.new.slots;
          base = length self.old.slots.items;
          cursors = self.new.cursors;
          at = 0;
          again = false;
        } }
    {
        let begin = self.slots.len();
        let keep = begin - self.base;
        fill(&mut self.slots, self.base, body.parameters, arguments);
        self.cursors.push(Cursor {
            at: self.at,
            way: Way::Call,
            keep,
        });
        self.base = begin;
        self.at = 0;
        self.again = false;
    }
}

/// Takes away cursors up to the one of the call of the innermost body, if it was called.
fn pop_call(cursors: &mut ArrayVec<Cursor, BLOCKS>) -> Option<Cursor>
    ensures call { MatchOption result (cursors.new.items ≡ []) (λ cursor. cursor.way ≡ Way.Call) }
    ensures waiting { (p : Program) (template : ℕ) → (level_along p template cursors.old.items).waiting
        ≡ (level_along p template (cursors.new.items ++ option_to_list result)).waiting }
    ensures result { (p : Program) (template : ℕ) → (level_along p template cursors.old.items).result
        ≡ (level_along p template (cursors.new.items ++ option_to_list result)).result }
    ensures scoped { (p : Program) (body base : ℕ) (slots : List Held) → IsOpenBy p body cursors.old.items slots base
        → IsOpenBy p body (cursors.new.items ++ option_to_list result) slots base }
{
    while let Some(cursor) = cursors.pop() {
        match cursor.way {
            Way::Call => return Some(cursor),
            Way::First | Way::Else => {}
        }
    }
    None
}

/// Takes away the innermost cursor, if it is one of a block.
fn pop_block(cursors: &mut ArrayVec<Cursor, BLOCKS>) -> Option<Cursor>
    ensures block { IfSome result (λ cursor. cursor.way ≢ Way.Call) }
    ensures popped { cursors.old.items ≡ cursors.new.items ++ option_to_list result }
    ensures body { IfNone result ((p : Program) (template : ℕ)
        → (level_along p template cursors.new.items).behind ≡ []) }
{
    match cursors.last() {
        Some(cursor) => match cursor.way {
            Way::Call => None,
            Way::First | Way::Else => cursors.pop(),
        },
        None => None,
    }
}
