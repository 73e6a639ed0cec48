// How an event ends: what it stores besides the action itself, and the ends of its transaction.
ghost use Rattle.std.specs.Prelude.{◌≡◌, ◌+◌, ◌<◌, ◌≤◌, ◌^◌, IsErr, OnOk, OnErr, Some, IfOk, MatchResult};
ghost use Rattle.nv_memory.specs.Budget.{IsShort};
ghost use Rattle.undo_journal.specs.Undo.{room_of};
ghost use Rattle.undo_journal.specs.Lending.{IsLent, IsWithin};
ghost use Rattle.kernel_image.specs.Decoded.{image_in, row_at, with_row};
ghost use Rattle.kernel_image.specs.Cells.{FellAtLeast};
ghost use Rattle.kernel_events.specs.Ends.{IsCommitted, IsLost};

use kernel_image::{CODE, Cell, ENDED, EVENTS, STATE, counter, store};
use nv_memory::{Cut, Nv};
use thread_tree::ROWS;
use undo_journal::{Dark, Idle, Open};

/// Counts the event.
#[tactic(auto, using(kernel_image::proofs::Callers::store_laws))]
pub fn count<N: Nv>(tx: &mut Open<N>) -> Result<(), Cut>
    requires fits { (image_in (N.words tx.old)).events + 1 < 2 ^ 32 }
    requires room { 1 ≤ room_of (N.words tx.old) }
    ensures counted { OnOk result (image_in (N.words tx.new)
        ≡ record (image_in (N.words tx.old)) { events = (image_in (N.words tx.old)).events + 1 }) }
    ensures cut { IsErr result → IsShort (N.left tx.old) 4 }
    ensures dark { OnErr result (N.left tx.new ≡ Some 0) }
    ensures least { OnOk result (FellAtLeast 4 (N.left tx.old) (N.left tx.new)) }
    ensures lent { IsLent N.Nv tx.old tx.new }
    ensures within { OnOk result (IsWithin N.Nv tx.old tx.new 1) }
{
    let events = counter(tx);
    store(tx, Cell::Header(EVENTS), events + 1)?;
    Ok(())
}

/// Ends a thread with a code.
#[tactic(auto, using(kernel_image::proofs::Callers::store_laws))]
pub fn end<N: Nv>(tx: &mut Open<N>, thread: u32, code: u32) -> Result<(), Cut>
    requires thread { thread < ROWS }
    requires room { 2 ≤ room_of (N.words tx.old) }
    ensures ended { OnOk result (image_in (N.words tx.new)
        ≡ with_row (image_in (N.words tx.old)) thread (record (row_at (image_in (N.words tx.old)) thread) { state = ENDED; code = code })) }
    ensures cut { IsErr result → IsShort (N.left tx.old) 8 }
    ensures dark { OnErr result (N.left tx.new ≡ Some 0) }
    ensures lent { IsLent N.Nv tx.old tx.new }
    ensures within { OnOk result (IsWithin N.Nv tx.old tx.new 2) }
{
    store(tx, Cell::RowWord(thread, STATE), ENDED)?;
    store(tx, Cell::RowWord(thread, CODE), code)?;
    Ok(())
}

/// Commits an event.
#[tactic(auto, using(crate::proofs::EndLaws::fell_spent, crate::proofs::EndLaws::least_spent, crate::proofs::EndLaws::image_outside))]
pub fn commit<N: Nv>(tx: Open<N>) -> Result<Idle<N>, Dark<N>>
    ensures image { IfOk result (λ idle. image_in (N.words idle) ≡ image_in (N.words tx)) }
    ensures ends { MatchResult result (λ idle. IsCommitted N.Nv 1 1 tx idle) (IsLost N.Nv 1 tx) }
{
    match tx.commit() {
        Ok(idle) => Ok(idle),
        Err(dark) => Err(dark),
    }
}

/// Counts the event and ends a thread with a code.
pub fn halt<N: Nv>(tx: &mut Open<N>, thread: u32, code: u32) -> Result<(), Cut>
    requires thread { thread < ROWS }
    requires events { (image_in (N.words tx.old)).events + 1 < 2 ^ 32 }
    requires room { 3 ≤ room_of (N.words tx.old) }
    ensures halted { OnOk result (image_in (N.words tx.new)
        ≡ with_row (record (image_in (N.words tx.old)) { events = (image_in (N.words tx.old)).events + 1 }) thread
        (record (row_at (image_in (N.words tx.old)) thread) { state = ENDED; code = code })) }
    ensures cut { IsErr result → IsShort (N.left tx.old) 12 }
    ensures dark { OnErr result (N.left tx.new ≡ Some 0) }
    ensures least { OnOk result (FellAtLeast 4 (N.left tx.old) (N.left tx.new)) }
    ensures lent { IsLent N.Nv tx.old tx.new }
    ensures within { OnOk result (IsWithin N.Nv tx.old tx.new 3) }
{
    count(tx)?;
    end(tx, thread, code)?;
    Ok(())
}

/// An event in which a thread ends.
pub fn stop<N: Nv>(tx: Open<N>, thread: u32, code: u32) -> Result<Idle<N>, Dark<N>>
    requires thread { thread < ROWS }
    requires events { (image_in (N.words tx)).events + 1 < 2 ^ 32 }
    requires room { 3 ≤ room_of (N.words tx) }
    ensures stopped { IfOk result (λ idle. image_in (N.words idle)
        ≡ with_row (record (image_in (N.words tx)) { events = (image_in (N.words tx)).events + 1 }) thread
        (record (row_at (image_in (N.words tx)) thread) { state = ENDED; code = code })) }
    ensures ends { MatchResult result (λ idle. IsCommitted N.Nv 5 13 tx idle) (IsLost N.Nv 13 tx) }
{
    let mut tx = tx;
    if halt(&mut tx, thread, code).is_err() {
        return Err(tx.lose());
    }
    match commit(tx) {
        Ok(idle) => Ok(idle),
        Err(dark) => Err(dark),
    }
}

/// An event in which nobody runs.
pub fn pass<N: Nv>(tx: Open<N>) -> Result<Idle<N>, Dark<N>>
    requires events { (image_in (N.words tx)).events + 1 < 2 ^ 32 }
    requires room { 1 ≤ room_of (N.words tx) }
    ensures counted { IfOk result (λ idle. image_in (N.words idle)
        ≡ record (image_in (N.words tx)) { events = (image_in (N.words tx)).events + 1 }) }
    ensures ends { MatchResult result (λ idle. IsCommitted N.Nv 5 5 tx idle) (IsLost N.Nv 5 tx) }
{
    let mut tx = tx;
    if count(&mut tx).is_err() {
        return Err(tx.lose());
    }
    match commit(tx) {
        Ok(idle) => Ok(idle),
        Err(dark) => Err(dark),
    }
}
