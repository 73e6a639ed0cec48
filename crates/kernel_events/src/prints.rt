// The print of a thread: its bytes, what it stores, and its event.
ghost use Rattle.std.specs.Prelude.{◌≡◌, ◌+◌, ◌*◌, ◌<◌, ◌≤◌, length, flat_map, slice_get, IsSomeAnd, Some, decimal, ◌^◌, nat_le, if◌then◌else◌, IsErr, OnOk, OnErr, IfOk, [], ◌∷◌, ℕ, List, Option, slice_set, MatchResult, None};
ghost use Rattle.thread_tree.specs.declared.action.Item.TheVariants.{Value};
ghost use Rattle.thread_tree.specs.declared.expr.Expr.{Expr};
ghost use Rattle.thread_tree.specs.declared.place.Place.{Place};
ghost use Rattle.thread_tree.specs.Kinds.{operands_of_item, taking};
ghost use Rattle.thread_tree.specs.LocalState.{next_action, bind};
ghost use Rattle.thread_tree.specs.Program.{program_of};
ghost use Rattle.thread_machine.specs.Context.{local_of};
ghost use Rattle.thread_machine.specs.Reached.{IsContext};
ghost use Rattle.kernel_model.specs.Act.{printed, printed_line};
ghost use Rattle.nv_memory.specs.Budget.{IsShort};
ghost use Rattle.undo_journal.specs.Undo.{room_of, IsAtRest};
ghost use Rattle.undo_journal.specs.Lending.{IsLent, IsWithin};
ghost use Rattle.thread_tree.specs.declared.block.Stmt.{Stmt, out-Stmt};
ghost use Rattle.thread_tree.specs.declared.place.At.{At};
ghost use Rattle.kernel_image.specs.Cells.{FellAtLeast};
ghost use Rattle.kernel_image.specs.Decoded.{image_in, row_at};
ghost use Rattle.kernel_events.specs.Actions.{IsPrinted, print_action};
ghost use Rattle.thread_tree.specs.declared.action.Call.TheVariants as call;
ghost use Rattle.thread_tree.specs.declared.block.Stmt.TheOpen as stmt;
ghost use Rattle.thread_tree.specs.Actions.{actions};
ghost use Rattle.thread_machine.specs.declared.next.Next.TheVariants.{Action};
ghost use Rattle.kernel_model.specs.declared.event.Event.TheVariants.{Step};
ghost use Rattle.kernel_model.specs.Kernel.{State, Thread};
ghost use Rattle.kernel_model.specs.Run.{one};
ghost use Rattle.replay_list.specs.Stands.{KernelStands};
ghost use Rattle.kernel_events.specs.Ends.{IsCommitted, IsLost};
ghost use Rattle.kernel_events.specs.Follows.{Arrives};

use crate::closing::{commit, count, stop};
use crate::results::serve;
use crate::writes::EVENT_WRITES;
use arrayvec::ArrayVec;
use console_store::append as append_bytes;
use itoa::Buffer;
use kernel_model::{NO_RECORD_ROOM, soundness};
use nv_memory::{Cut, Nv};
use replay_list::{standing_laws, words_used};
use thread_check::Checked;
use thread_machine::{Contexts, Ctx};
use thread_tree::{CONSOLE_BYTES, Item, List, PRINT, RECORD_WORDS, ROWS};
use undo_journal::{Dark, Idle, Open};

/// Room for the bytes of a print: eight items of at most 64 bytes, and the newline.
pub const LINE_ROOM: usize = 640;

/// The decimal digits of a number.
fn digits(value: u32) -> ArrayVec<u8, 64>
    ensures digits { result.items ≡ decimal value }
{
    let mut buffer = Buffer::new();
    let mut bytes = ArrayVec::new();
    bytes
        .try_extend_from_slice(buffer.format(value).as_bytes())
        .unwrap();
    bytes
}

/// The bytes of a print's item. The operand of this number is its value, where it has one.
fn item_bytes(ctx: &Ctx, program: &Checked, item: &Item, which: u32) -> ArrayVec<u8, 64>
    requires context { IsContext (program_of program.now) ctx.now }
    requires operand { (place : Place) (e : Expr) → item.now ≡ Value place e
        → IsSomeAnd (next_action (program_of program.now) (local_of (program_of program.now) ctx.now)) (λ action. slice_get action.operands which ≡ Some e) }
    ensures bytes { result.items ≡ printed (local_of (program_of program.now) ctx.now).top.locals item.now }
{
    match item {
        Item::Text(_, text) => {
            let mut bytes = ArrayVec::new();
            bytes.try_extend_from_slice(text.bytes.as_slice()).unwrap();
            bytes
        }
        Item::Value(_, _) => digits(ctx.operand(program, which)),
    }
}

/// How many operands a print's item has.
fn operand_count(item: &Item) -> u32
    ensures count { result ≡ length (operands_of_item item.now) }
    ensures few { result ≤ 1 }
{
    match item {
        Item::Text(_, _) => 0,
        Item::Value(_, _) => 1,
    }
}

/// The bytes of a print of at most eight items, at which the context stands.
pub fn printed_line(ctx: &Ctx, program: &Checked, items: &List<Item>) -> ArrayVec<u8, LINE_ROOM>
    requires context { IsContext (program_of program.now) ctx.now }
    requires few { length items.now ≤ 8 }
    requires action { IsSomeAnd (next_action (program_of program.now) (local_of (program_of program.now) ctx.now))
        (λ action. action.operands ≡ flat_map operands_of_item items.now) }
    ensures line { result.items ≡ printed_line (local_of (program_of program.now) ctx.now).top.locals items.now }
    ensures short { length result.items ≤ 513 }
{
    let mut bytes = ArrayVec::new();
    let mut which = 0;
    for at in 0..items.len() {
        let item = items.get(at);
        let piece = item_bytes(ctx, program, item, which);
        bytes.try_extend_from_slice(piece.as_slice()).unwrap();
        which += operand_count(item);
    }
    bytes.push(b'\n');
    bytes
}

/// Counts the event and performs the print at which the context stands.
pub fn print<N: Nv>(
    tx: &mut Open<N>,
    program: &Checked,
    ctx: &mut Ctx,
    thread: u32,
    items: &List<Item>,
) -> Result<(), Cut>
    requires context { IsContext (program_of program.now) ctx.old }
    requires action { (names : List ℕ) × (next_action (program_of program.now) (local_of (program_of program.now) ctx.old) ≡ Some (print_action items.now names)) }
    requires few { length items.now ≤ 8 }
    requires thread { thread < ROWS }
    requires events { (image_in (N.words tx.old)).events + 1 < 2 ^ 32 }
    requires console { (image_in (N.words tx.old)).console_length ≤ CONSOLE_BYTES }
    requires fits { (row_at (image_in (N.words tx.old)) thread).used + 2 ≤ RECORD_WORDS }
    requires room { 140 ≤ room_of (N.words tx.old) }
    ensures printed { OnOk result (IsPrinted (program_of program.now) thread
        (printed_line (local_of (program_of program.now) ctx.old).top.locals items.now)
        (image_in (N.words tx.old)) (image_in (N.words tx.new))
        (local_of (program_of program.now) ctx.old) (local_of (program_of program.now) ctx.new)) }
    ensures context { OnOk result (IsContext (program_of program.now) ctx.new) }
    ensures cut { IsErr result → IsShort (N.left tx.old) 560 }
    ensures dark { OnErr result (N.left tx.new ≡ Some 0) }
    ensures least { OnOk result (FellAtLeast 4 (N.left tx.old) (N.left tx.new)) }
    ensures lent { IsLent N.Nv tx.old tx.new }
    ensures within { OnOk result (IsWithin N.Nv tx.old tx.new 140) }
{
    let line = printed_line(ctx, program, items);
    count(tx)?;
    let fits = append_bytes(tx, line.as_slice())?;
    serve(tx, program, ctx, thread, PRINT, &[u32::from(fits)])?;
    Ok(())
}

/// The event of a thread that arrives at this print.
pub fn print_event<N: Nv>(
    tx: Open<N>,
    program: &Checked,
    contexts: &mut Contexts,
    ctx: Ctx,
    thread: u32,
    number: u32,
    items: &List<Item>,
) -> Result<Idle<N>, Dark<N>>
    requires at_rest { IsAtRest (N.words tx) }
    requires thread { thread < ROWS }
    requires few { length items.now ≤ 8 }
    requires here { (s : Stmt) × (place : Place) × (to : List At) × (slice_get (actions (program_of program.now)) number ≡ Some s) × (out-Stmt s ≡ stmt.Call place (call.Print items.now) to) }
    requires arrives { (K : State) × (runner : Thread) × Arrives (program_of program.now) (image_in (N.words tx)) contexts.old K thread runner ctx (Action number) }
    ensures happened { IfOk result (λ idle. (K : State) (runner : Thread) → Arrives (program_of program.now) (image_in (N.words tx)) contexts.old K thread runner ctx (Action number)
        → KernelStands (program_of program.now) (image_in (N.words idle)) contexts.new (one (program_of program.now) K Step)) }
    ensures ends { MatchResult result (λ idle. IsCommitted N.Nv 5 EVENT_WRITES tx idle) (IsLost N.Nv EVENT_WRITES tx) }
{
    soundness();
    standing_laws();
    let _ = program.tree();
    if words_used(&tx, thread) + 2 > RECORD_WORDS {
        return stop(tx, thread, NO_RECORD_ROOM);
    }
    let mut tx = tx;
    let mut ctx = ctx;
    if print(&mut tx, program, &mut ctx, thread, items).is_err() {
        return Err(tx.lose());
    }
    contexts.set(thread, Some(ctx));
    commit(tx)
}
