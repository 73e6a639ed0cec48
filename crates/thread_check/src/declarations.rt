ghost use Rattle.std.specs.Prelude.{◌≡◌, ◌+◌, ◌≤◌, ◌<◌, ◌==◌, length, take, OnOk, true};
ghost use Rattle.thread_tree.specs.declared.tree.Decl.TheVariants as decl;
ghost use Rattle.thread_check.specs.declared.sort.Sort.TheVariants as sort;
ghost use Rattle.thread_check.specs.Scope.{no_scope};
ghost use Rattle.thread_check.specs.Declarations.{is_of_sort, count_of, with_declaration, declared, field_declared, fields_rule, takes_channel, is_taken, channel_rule, parameter_declared, parameters_rule, thread_body_rule, declaration_rule, IsFew};

use crate::calls::once;
use crate::fault::{CheckFault, Kind};
use crate::names::{Names, sort_of_declaration};
use crate::scope::Scope;
use crate::sort::Sort;
use crate::uses::{in_range, same_count, same_sort, within_limit};
use thread_tree::{At, Block, DECLARED, Decl, ITEMS, LOOPS, List, Num, ROWS, TARGETS};

/// Whether a declaration is of this sort.
fn is_of_sort(sort: Sort, decl: &Decl) -> bool
    ensures { result ≡ is_of_sort sort decl.now }
{
    same_sort(sort_of_declaration(decl), sort)
}

/// Whether a declaration is a queue with this input channel.
#[tactic(auto, unfolding(crate::specs::Declarations::takes_channel))]
fn takes_channel(channel: u32, decl: &Decl) -> bool
    ensures { result ≡ takes_channel channel decl.now }
{
    match decl {
        Decl::Kind(_, _) => false,
        Decl::Object(_, _) => false,
        Decl::Queue(_, _, taken) => match taken {
            None => false,
            Some(number) => number.value == channel,
        },
        Decl::Semaphore(_, _, _) => false,
        Decl::Function(_, _, _) => false,
        Decl::Thread(_, _, _, _) => false,
        Decl::Start(_, _, _) => false,
    }
}

/// A field behind so many of its type.
#[tactic(auto, unfolding(crate::specs::Declarations::field_declared))]
fn field(fields: &List<At>, before: u32, at: At) -> Result<(), CheckFault>
    requires within { before ≤ length fields.now }
    requires few { before ≤ 10 }
    ensures verdict { result ≡ field_declared (take before fields.now) at }
    ensures ok { OnOk result (before + 1 ≤ 10) }
{
    once(fields, before as usize, at)?;
    within_limit(at.place, Kind::Fields, 10, before + 1)
}

/// The fields of a type.
#[tactic(auto, using(crate::proofs::Steps::drop_at, crate::proofs::Steps::take_at))]
fn fields(fields: &List<At>) -> Result<(), CheckFault>
    ensures { result ≡ fields_rule (take 0 fields.now) fields.now }
{
    let mut before = 0;
    for i in 0..fields.len() {
        match field(fields, before, *fields.get(i)) {
            Ok(()) => before += 1,
            Err(fault) => return Err(fault),
        }
    }
    Ok(())
}

impl<'a> Names<'a> {
    /// How many declarations in scope are of this sort.
    #[tactic(auto, using(crate::proofs::FewLaws::count_of_none, crate::proofs::FewLaws::count_of_take, crate::proofs::FewLaws::count_of_take_le))]
    fn count(&self, sort: Sort) -> u32
        requires { count_of sort self.now.declarations ≤ DECLARED }
        ensures { result ≡ count_of sort self.now.declarations }
    {
        let mut count = 0;
        for i in 0..self.len() {
            if is_of_sort(sort, self.get(i)) {
                count += 1;
            }
        }
        count
    }

    /// A name that is declared for the whole program.
    #[tactic(auto, unfolding(crate::specs::Declarations::declared))]
    fn declared(&self, sort: Sort, kind: Kind, limit: u32, at: At) -> Result<(), CheckFault>
        requires { count_of sort self.now.declarations ≤ DECLARED }
        ensures { result ≡ declared self.now sort kind limit at }
    {
        self.fresh(&Scope::before(0), at)?;
        within_limit(at.place, kind, limit, self.count(sort) + 1)
    }

    /// Whether a queue in scope has this input channel.
    #[tactic(auto, using(crate::proofs::Steps::drop_at))]
    fn is_taken(&self, channel: u32) -> bool
        ensures { result ≡ is_taken channel self.now.declarations }
    {
        for i in 0..self.len() {
            if takes_channel(channel, self.get(i)) {
                return true;
            }
        }
        false
    }

    /// The input channel of a queue, if it has one.
    #[tactic(auto, unfolding(crate::specs::Declarations::channel_rule))]
    fn channel(&self, channel: &Option<Num>) -> Result<(), CheckFault>
        ensures { result ≡ channel_rule self.now channel.now }
    {
        match channel {
            None => Ok(()),
            Some(number) => {
                if self.is_taken(number.value) {
                    return Err(CheckFault::TwiceNamed(number.place));
                }
                in_range(*number, 0, 15)
            }
        }
    }

    /// A parameter behind those in scope.
    #[tactic(auto, unfolding(crate::specs::Declarations::parameter_declared))]
    fn parameter(&self, scope: &Scope, at: At) -> Result<(), CheckFault>
        ensures verdict { result ≡ parameter_declared self.now scope.now at }
        ensures ok { OnOk result (length scope.now.locals < 48) }
    {
        self.fresh(scope, at)?;
        within_limit(at.place, Kind::Parameters, 8, scope.locals() + 1)
    }

    /// The parameters of a body.
    #[tactic(auto, using(crate::proofs::Steps::drop_at))]
    fn parameters(&self, ats: &List<At>, scope: Scope) -> Result<Scope, CheckFault>
        ensures { result ≡ parameters_rule self.now ats.now scope }
    {
        let mut scope = scope;
        for i in 0..ats.len() {
            let at = *ats.get(i);
            match self.parameter(&scope, at) {
                Ok(()) => scope = scope.with_local(at.name),
                Err(fault) => return Err(fault),
            }
        }
        Ok(scope)
    }

    /// A queue behind these names.
    #[tactic(auto, unfolding(crate::specs::Declarations::declaration_rule))]
    fn queue(
        &self,
        name: At,
        capacity: Num,
        channel: &Option<Num>,
        scope: Scope,
    ) -> Result<Scope, CheckFault>
        requires few { count_of sort.Queue self.now.declarations ≤ DECLARED }
        requires start { scope ≡ no_scope scope.loops }
        ensures { result ≡ declaration_rule self.now scope.loops (decl.Queue name capacity channel.now) }
    {
        self.declared(Sort::Queue, Kind::Queues, TARGETS as u32, name)?;
        in_range(capacity, 1, ITEMS)?;
        self.channel(channel)?;
        Ok(scope)
    }

    /// A semaphore behind these names.
    #[tactic(auto, unfolding(crate::specs::Declarations::declaration_rule))]
    fn semaphore(
        &self,
        name: At,
        count: Num,
        maximum: Num,
        scope: Scope,
    ) -> Result<Scope, CheckFault>
        requires few { count_of sort.Semaphore self.now.declarations ≤ DECLARED }
        requires start { scope ≡ no_scope scope.loops }
        ensures { result ≡ declaration_rule self.now scope.loops (decl.Semaphore name count maximum) }
    {
        self.declared(Sort::Semaphore, Kind::Semaphores, TARGETS as u32, name)?;
        in_range(count, 0, maximum.value)?;
        in_range(maximum, 1, 65535)?;
        Ok(scope)
    }

    /// A thread behind these names, where `self` has its own name too.
    fn thread_body(
        &self,
        parameters: &List<At>,
        priority: Num,
        body: &Block,
        scope: Scope,
    ) -> Result<Scope, CheckFault>
        ensures { result ≡ thread_body_rule self.now parameters.now priority body.now scope }
    {
        let scope = self.parameters(parameters, scope)?;
        in_range(priority, 0, 7)?;
        self.block(body, scope)
    }

    /// A declaration behind these names, where `with` has its own name too.
    #[tactic(auto, unfolding(crate::specs::Declarations::declaration_rule))]
    pub(crate) fn declare(&self, with: &Names, decl: &Decl, loops: u32) -> Result<Scope, CheckFault>
        requires few { IsFew self.now.declarations }
        requires loops { loops ≤ LOOPS }
        requires with { with.now ≡ with_declaration decl.now self.now }
        ensures { result ≡ declaration_rule self.now loops decl.now }
    {
        let scope = Scope::before(loops);
        match decl {
            Decl::Kind(name, names) => {
                self.declared(Sort::Kind, Kind::Types, 32, *name)?;
                fields(names)?;
                Ok(scope)
            }
            Decl::Object(name, kind) => {
                self.declared(Sort::Object, Kind::Objects, DECLARED, *name)?;
                with.used(&scope, Sort::Kind, *kind)?;
                Ok(scope)
            }
            Decl::Queue(name, capacity, channel) => { self.queue(*name, *capacity, channel, scope) }
            Decl::Semaphore(name, count, maximum) => {
                self.semaphore(*name, *count, *maximum, scope)
            }
            Decl::Function(name, parameters, body) => {
                self.declared(Sort::Function, Kind::Functions, DECLARED, *name)?;
                let scope = with.parameters(parameters, scope)?;
                self.of_function().block(body, scope)
            }
            Decl::Thread(name, parameters, priority, body) => {
                self.declared(Sort::Thread, Kind::Threads, 32, *name)?;
                with.thread_body(parameters, *priority, body, scope)
            }
            Decl::Start(place, name, numbers) => {
                within_limit(
                    *place,
                    Kind::Starts,
                    ROWS as u32,
                    self.count(Sort::Start) + 1,
                )?;
                self.used(&scope, Sort::Thread, *name)?;
                same_count(name.place, self.arity(name.name), numbers.len())?;
                Ok(scope)
            }
        }
    }
}
