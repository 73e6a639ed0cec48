ghost use Rattle.std.specs.Prelude.{◌≡◌, ◌<◌, None, replicate, slice_get, slice_set, option_and_then};
ghost use Rattle.std.specs.Option.{option_copied};

use crate::context::Ctx;
use std::marker::Model;
use thread_tree::ROWS;

/// Sixteen places for contexts, by the numbers of threads. Contracts see the list of them.
#[derive(Debug, Drop)]
pub struct Contexts {
    all: [Option<Ctx>; ROWS],
}

impl Model for Contexts {
    ghost use Rattle.thread_tree.specs.declared.limits.TheConstants.{ROWS};
    ghost use Rattle.std.specs.Prelude.{◌≡◌, List, Option, length};
    ghost use Rattle.thread_machine.specs.declared.context.Ctx.{Ctx};

    ghost Value = { List (Option Ctx) };

    ghost view = { λ contexts. contexts.all };

    ghost invariant = { λ contexts. length contexts.all ≡ ROWS };
}

impl Contexts {
    /// No context of any thread.
    pub fn none() -> Contexts
        ensures none { result ≡ replicate ROWS None }
    {
        Contexts {
            all: [
                None, None, None, None, None, None, None, None, None, None, None, None, None, None,
                None, None,
            ],
        }
    }

    /// The context of a thread, if there is one.
    pub fn get(&self, thread: u32) -> Option<&Ctx>
        ensures found { option_copied result ≡ option_and_then (λ ctx. ctx) (slice_get self.now thread) }
    {
        let at = thread as usize;
        if at < self.all.len() {
            self.all[at].as_ref()
        } else {
            None
        }
    }

    /// Hands out the context of a thread, if there is one, and leaves none there.
    pub fn take(&mut self, thread: u32) -> Option<Ctx>
        ensures taken { result ≡ option_and_then (λ ctx. ctx) (slice_get self.old thread) }
        ensures left { self.new ≡ slice_set self.old thread None }
    {
        let at = thread as usize;
        if at < self.all.len() {
            self.all[at].take()
        } else {
            None
        }
    }

    /// Puts a context, or none, in the place of a thread.
    pub fn set(&mut self, thread: u32, ctx: Option<Ctx>)
        requires thread { thread < ROWS }
        ensures put { self.new ≡ slice_set self.old thread ctx }
    {
        self.all[thread as usize] = ctx;
    }
}
