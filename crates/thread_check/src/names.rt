ghost use Rattle.std.specs.Prelude.{◌≡◌, ◌+◌, ◌<◌, ◌≤◌, ◌==◌, length, take, slice_get, find, true};
ghost use Rattle.std.specs.Option.{option_copied};
ghost use Rattle.thread_check.specs.Names.{Names as Parts, declares, sort_of_declaration, arity_of_declaration, kind_of_declaration, declaration_of, sort_of, arity, is_among, declares_field, has_field, object_has_field, peak_of};

use crate::peak::{FunctionPeak, Peak};
use crate::scope::Scope;
use crate::sort::Sort;
use std::marker::Model;
use thread_tree::{At, Decl, List};

/// The names of the whole program that are in scope: those of the first declarations.
#[derive(Drop)]
pub(crate) struct Names<'a> {
    decls: &'a List<Decl>,
    count: usize,
    functions: &'a Vec<FunctionPeak>,
    in_function: bool,
}

impl<'a> Model for Names<'a> {
    ghost use Rattle.std.specs.Prelude.{◌≤◌, take, length};
    ghost use Rattle.std.specs.Coded.{codes};
    ghost use Rattle.thread_tree.specs.contracts.tree.Decl as decl;
    ghost use Rattle.thread_check.specs.Names.{Names as Parts};

    ghost Value = { Parts };

    ghost coded = { Prim.hlevel (codes, decl.the_row.coded) };

    ghost view = { λ n. record { declarations = take n.count n.decls.now; functions = n.functions.now.items; in_function = n.in_function } };

    ghost invariant = { λ n. n.count ≤ length n.decls.now };
}

/// Whether a declaration declares this name.
#[tactic(auto, unfolding(crate::specs::Names::declares))]
fn declares(name: u32, decl: &Decl) -> bool
    ensures { result ≡ declares name decl.now }
{
    match decl {
        Decl::Kind(at, _) => at.name == name,
        Decl::Object(at, _) => at.name == name,
        Decl::Queue(at, _, _) => at.name == name,
        Decl::Semaphore(at, _, _) => at.name == name,
        Decl::Function(at, _, _) => at.name == name,
        Decl::Thread(at, _, _, _) => at.name == name,
        Decl::Start(_, _, _) => false,
    }
}

/// The sort of what is declared.
#[tactic(auto, unfolding(crate::specs::Names::sort_of_declaration))]
pub(crate) fn sort_of_declaration(decl: &Decl) -> Sort
    ensures { result ≡ sort_of_declaration decl.now }
{
    match decl {
        Decl::Kind(_, _) => Sort::Kind,
        Decl::Object(_, _) => Sort::Object,
        Decl::Queue(_, _, _) => Sort::Queue,
        Decl::Semaphore(_, _, _) => Sort::Semaphore,
        Decl::Function(_, _, _) => Sort::Function,
        Decl::Thread(_, _, _, _) => Sort::Thread,
        Decl::Start(_, _, _) => Sort::Start,
    }
}

impl<'a> Names<'a> {
    /// The names of the first declarations, of which so many are in scope.
    pub(crate) fn of(
        decls: &'a List<Decl>,
        count: usize,
        functions: &'a Vec<FunctionPeak>,
        in_function: bool,
    ) -> Names<'a>
        requires { count ≤ length decls.now }
        ensures { result ≡ record { declarations = take count decls.now; functions = functions.now.items; in_function = in_function } }
    {
        Names {
            decls,
            count,
            functions,
            in_function,
        }
    }

    /// The number of declarations in scope.
    pub(crate) fn len(&self) -> usize
        ensures { result ≡ length self.now.declarations }
    {
        self.count
    }

    /// The declaration at this place.
    #[tactic(auto, using(crate::proofs::Steps::slice_get_take))]
    pub(crate) fn get(&self, at: usize) -> &'a Decl
        requires { at < length self.now.declarations }
        ensures { slice_get self.now.declarations at ≡ Some result.now }
    {
        self.decls.get(at)
    }

    /// The declaration of a name in scope.
    #[tactic(auto, using(crate::proofs::Steps::drop_at))]
    fn declaration(&self, name: u32) -> Option<&'a Decl>
        ensures { option_copied result ≡ declaration_of self.now name }
    {
        for i in 0..self.len() {
            let decl = self.get(i);
            if declares(name, decl) {
                return Some(decl);
            }
        }
        None
    }

    /// The sort of a name in scope.
    #[tactic(auto, unfolding(crate::specs::Names::sort_of))]
    pub(crate) fn sort(&self, scope: &Scope, name: u32) -> Option<Sort>
        ensures { result ≡ sort_of self.now scope.now name }
    {
        if scope.has(name) {
            return Some(Sort::Local);
        }
        match self.declaration(name) {
            Some(decl) => Some(sort_of_declaration(decl)),
            None => None,
        }
    }
}

impl<'a> Names<'a> {
    /// Whether the body is a function's.
    pub(crate) fn in_function(&self) -> bool
        ensures { result ≡ self.now.in_function }
    {
        self.in_function
    }

    /// The same names in a function's body.
    pub(crate) fn of_function(&self) -> Names<'a>
        ensures { result ≡ record self.now { in_function = true } }
    {
        Names {
            decls: self.decls,
            count: self.count,
            functions: self.functions,
            in_function: true,
        }
    }

    /// How many parameters the function or thread of a name has.
    #[tactic(auto, unfolding(crate::specs::Names::arity))]
    pub(crate) fn arity(&self, name: u32) -> usize
        ensures { result ≡ arity self.now name }
    {
        match self.declaration(name) {
            Some(decl) => arity_of_declaration(decl),
            None => 0,
        }
    }

    /// Whether the type of a name has this field.
    #[tactic(auto, unfolding(crate::specs::Names::has_field))]
    pub(crate) fn has_field(&self, kind: u32, field: u32) -> bool
        ensures { result ≡ has_field self.now kind field }
    {
        match self.declaration(kind) {
            Some(decl) => declares_field(field, decl),
            None => false,
        }
    }

    /// Whether the static object of a name has this field.
    #[tactic(auto, unfolding(crate::specs::Names::object_has_field))]
    pub(crate) fn object_has_field(&self, object: u32, field: u32) -> bool
        ensures { result ≡ object_has_field self.now object field }
    {
        match self.declaration(object) {
            Some(decl) => match kind_of_declaration(decl) {
                Some(kind) => self.has_field(kind, field),
                None => false,
            },
            None => false,
        }
    }

    /// The peak of the function of a name.
    #[tactic(auto, unfolding(crate::specs::Names::peak_of))]
    pub(crate) fn peak(&self, name: u32) -> Peak
        ensures { result ≡ peak_of self.now name }
    {
        match function_named(self.functions, name) {
            Some(function) => function.peak,
            None => Peak {
                locals: 0,
                blocks: 0,
            },
        }
    }
}

/// How many parameters a function or a thread has.
#[tactic(auto, unfolding(crate::specs::Names::arity_of_declaration))]
fn arity_of_declaration(decl: &Decl) -> usize
    ensures { result ≡ arity_of_declaration decl.now }
{
    match decl {
        Decl::Kind(_, _) => 0,
        Decl::Object(_, _) => 0,
        Decl::Queue(_, _, _) => 0,
        Decl::Semaphore(_, _, _) => 0,
        Decl::Function(_, parameters, _) => parameters.len(),
        Decl::Thread(_, parameters, _, _) => parameters.len(),
        Decl::Start(_, _, _) => 0,
    }
}

/// Whether one of these names is this one.
pub(crate) fn is_among(name: u32, ats: &List<At>) -> bool
    ensures { result ≡ is_among name ats.now }
{
    is_among_first(name, ats, ats.len())
}

/// Whether one of so many first names is this one.
#[tactic(auto, using(crate::proofs::Steps::drop_at, crate::proofs::Steps::slice_get_take, std::proofs::lemmas::Bool::Decides::nat_tests))]
pub(crate) fn is_among_first(name: u32, ats: &List<At>, count: usize) -> bool
    requires { count ≤ length ats.now }
    ensures { result ≡ is_among name (take count ats.now) }
{
    for i in 0..count {
        if ats.get(i).name == name {
            return true;
        }
    }
    false
}

/// Whether a declaration is a type with this field.
#[tactic(auto, unfolding(crate::specs::Names::declares_field))]
fn declares_field(field: u32, decl: &Decl) -> bool
    ensures { result ≡ declares_field field decl.now }
{
    match decl {
        Decl::Kind(_, fields) => is_among(field, fields),
        Decl::Object(_, _) => false,
        Decl::Queue(_, _, _) => false,
        Decl::Semaphore(_, _, _) => false,
        Decl::Function(_, _, _) => false,
        Decl::Thread(_, _, _, _) => false,
        Decl::Start(_, _, _) => false,
    }
}

/// The name of the type that a static object has.
#[tactic(auto, unfolding(crate::specs::Names::kind_of_declaration))]
fn kind_of_declaration(decl: &Decl) -> Option<u32>
    ensures { result ≡ kind_of_declaration decl.now }
{
    match decl {
        Decl::Kind(_, _) => None,
        Decl::Object(_, kind) => Some(kind.name),
        Decl::Queue(_, _, _) => None,
        Decl::Semaphore(_, _, _) => None,
        Decl::Function(_, _, _) => None,
        Decl::Thread(_, _, _, _) => None,
        Decl::Start(_, _, _) => None,
    }
}

/// The function of a name.
fn function_named(functions: &[FunctionPeak], name: u32) -> Option<&FunctionPeak>
    ensures { option_copied result ≡ find (λ function. function.name == name) functions.now }
{
    functions.iter().find(|function| function.name == name)
}
