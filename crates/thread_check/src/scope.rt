ghost use Rattle.std.specs.Prelude.{◌≡◌, ◌+◌, ◌<◌, ◌≤◌, length, false};
ghost use Rattle.thread_check.specs.Scope.{no_scope, is_local, with_local, raised, looping, ploop, opened, closed, after_call};

use crate::peak::Peak;
use std::marker::Model;
use thread_tree::{BLOCKS, LOCALS, LOOPS};

/// What is in scope at a point of a body: the locals, the open blocks, and what was counted so far.
#[derive(Drop)]
pub(crate) struct Scope {
    names: [u32; LOCALS],
    count: usize,
    blocks: u32,
    in_loop: bool,
    loops: u32,
    peak: Peak,
}

impl Model for Scope {
    ghost use Rattle.thread_tree.specs.declared.limits.TheConstants.{BLOCKS, LOCALS, LOOPS};
    ghost use Rattle.std.specs.Prelude.{◌≤◌, take};
    ghost use Rattle.thread_check.specs.Scope.{Scope as Parts};

    ghost Value = { Parts };

    ghost view = { λ s. record { locals = take s.count s.names; blocks = s.blocks; in_loop = s.in_loop; loops = s.loops; peak = s.peak } };

    ghost invariant = { λ s. (s.count ≤ LOCALS) × (s.blocks ≤ BLOCKS) × (s.loops ≤ LOOPS) };
}

impl Peak {
    /// The peak that so many locals and blocks at once may raise.
    fn raised(self, locals: u8, blocks: u8) -> Peak
        ensures { result ≡ raised locals blocks self }
    {
        Peak {
            locals: self.locals.max(locals),
            blocks: self.blocks.max(blocks),
        }
    }
}

impl Scope {
    /// The scope before the parameters of a body, after so many persistent loops.
    pub(crate) fn before(loops: u32) -> Scope
        requires { loops ≤ LOOPS }
        ensures { result ≡ no_scope loops }
    {
        Scope {
            names: [0; LOCALS],
            count: 0,
            blocks: 0,
            in_loop: false,
            loops,
            peak: Peak {
                locals: 0,
                blocks: 0,
            },
        }
    }

    /// Whether a name is a local in scope.
    pub(crate) fn has(&self, name: u32) -> bool
        ensures { result ≡ is_local self.now.locals name }
    {
        self.names[..self.count].iter().any(|local| *local == name)
    }

    /// The number of locals in scope.
    pub(crate) fn locals(&self) -> u32
        ensures count { result ≡ length self.now.locals }
        ensures most { result ≤ LOCALS }
    {
        self.count as u32
    }

    /// The number of open blocks.
    pub(crate) fn blocks(&self) -> u32
        ensures count { result ≡ self.now.blocks }
        ensures most { result ≤ BLOCKS }
    {
        self.blocks
    }

    /// Whether a loop is around.
    pub(crate) fn in_loop(&self) -> bool
        ensures { result ≡ self.now.in_loop }
    {
        self.in_loop
    }

    /// The number of persistent loops so far.
    pub(crate) fn loops(&self) -> u32
        ensures count { result ≡ self.now.loops }
        ensures most { result ≤ LOOPS }
    {
        self.loops
    }

    /// The most that the body needed so far.
    pub(crate) fn peak(&self) -> Peak
        ensures { result ≡ self.now.peak }
    {
        self.peak
    }

    /// The same scope once more.
    pub(crate) fn copy(&self) -> Scope
        ensures { result ≡ self.now }
    {
        Scope {
            names: self.names,
            count: self.count,
            blocks: self.blocks,
            in_loop: self.in_loop,
            loops: self.loops,
            peak: self.peak,
        }
    }

    /// The scope with one local more.
    pub(crate) fn with_local(mut self, name: u32) -> Scope
        requires { length self.locals < 48 }
        ensures { result ≡ with_local name self }
    {
        self.names[self.count] = name;
        self.count += 1;
        self.peak = self.peak.raised(self.count as u8, 0);
        self
    }

    /// The scope in a loop.
    pub(crate) fn looping(mut self) -> Scope
        ensures { result ≡ looping self }
    {
        self.in_loop = true;
        self
    }

    /// The same scope where no loop around counts.
    pub(crate) fn out_of_loops(&self) -> Scope
        ensures { result ≡ record self.now { in_loop = false } }
    {
        let mut inner = self.copy();
        inner.in_loop = false;
        inner
    }

    /// The scope in a further persistent loop.
    pub(crate) fn in_ploop(mut self) -> Scope
        requires { self.loops < LOOPS }
        ensures { result ≡ ploop self }
    {
        self.in_loop = true;
        self.loops += 1;
        self
    }

    /// The scope at the first statement of a block.
    pub(crate) fn opened(&self) -> Scope
        requires { self.now.blocks < BLOCKS }
        ensures { result ≡ opened self.now }
    {
        let mut inner = self.copy();
        inner.blocks += 1;
        inner.peak = inner.peak.raised(0, inner.blocks as u8);
        inner
    }

    /// The scope after a block that left the inner scope.
    pub(crate) fn closed(mut self, inner: &Scope) -> Scope
        ensures { result ≡ closed self inner.now }
    {
        self.loops = inner.loops;
        self.peak = inner.peak;
        self
    }

    /// The same scope with the peak of a block that was left.
    pub(crate) fn with_peak(mut self, peak: Peak) -> Scope
        ensures { result ≡ record self { peak = peak } }
    {
        self.peak = peak;
        self
    }

    /// The scope after a call of a function with this peak.
    pub(crate) fn after_call(mut self, callee: Peak) -> Scope
        requires locals { length self.locals + callee.locals ≤ LOCALS }
        requires blocks { self.blocks + callee.blocks ≤ BLOCKS }
        ensures { result ≡ after_call callee self }
    {
        let locals = self.count as u8 + callee.locals;
        let blocks = self.blocks as u8 + callee.blocks;
        self.peak = self.peak.raised(locals, blocks);
        self
    }
}
