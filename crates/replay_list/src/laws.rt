ghost use Rattle.std.specs.Prelude.{◌≡◌, ◌≢◌, ℕ, ◌+◌, ◌<◌, ◌≤◌, ◌++◌, Bool, true, false, if◌then◌else◌, All, List, [], ◌∷◌, length, Option, Some, None, slice_get, slice_set, slice_index, slice_index_or, option_and_then};
ghost use Rattle.undo_journal.specs.Undo.{magic, durable, IsAtRest, IsJournalled};
ghost use Rattle.thread_tree.specs.declared.block.Stmt.{Stmt};
ghost use Rattle.thread_tree.specs.Ahead.{Ahead, ahead};
ghost use Rattle.thread_tree.specs.Ahead.Arrival.{AtAction};
ghost use Rattle.thread_tree.specs.Kinds.{Action, action_of, is_unrecorded, kind_word, result_count};
ghost use Rattle.thread_tree.specs.LocalState.{next_action};
ghost use Rattle.thread_tree.specs.Program.{Program};
ghost use Rattle.thread_tree.specs.Relive as relive;
ghost use Rattle.thread_machine.specs.declared.context.Ctx.{Ctx};
ghost use Rattle.kernel_model.specs.Kernel as kernel;
ghost use Rattle.kernel_model.specs.Kernel.{Activity, State, Thread, thread_of, row_of, live_in};
ghost use Rattle.kernel_model.specs.Kernel.Activity.{Ready, Waiting};
ghost use Rattle.kernel_model.specs.declared.wait.Wait.{Wait};
ghost use Rattle.kernel_model.specs.Kernel.Row.{Ended, Live};
ghost use Rattle.kernel_model.specs.Relived.{is_open};
ghost use Rattle.kernel_model.specs.Run.{arrived};
ghost use Rattle.kernel_model.specs.Serve.{served, awake};
ghost use Rattle.kernel_model.specs.Show.{visible};
ghost use Rattle.kernel_model.specs.Sound.{IsSound};
ghost use Rattle.kernel_model.specs.Visible.{Object};
ghost use Rattle.kernel_image.specs.Agree.{Agrees, Both};
ghost use Rattle.kernel_image.specs.Decoded.{Decoded, RowWords, image_in, row_at};
ghost use Rattle.kernel_image.specs.Shown.{objects_in, shown};
ghost use Rattle.kernel_image.specs.Unread.{unread};
ghost use Rattle.replay_list.specs.Kept.{IsKept, counter_of};
ghost use Rattle.replay_list.specs.Records.{encoded, recorded, start_in, AreFit, HasRecords, IsRecorded};
ghost use Rattle.replay_list.specs.Stands.{Stands, IsRow, IsLife, IsContextOf, HasContext, items_in, counts_in, console_in};
ghost use Rattle.replay_list.specs.Zeros.{zeros};

use kernel_image::ENDED;
use kernel_model::replay;
use thread_tree::START_VALUES;

/// The laws of what stands for a kernel. It does nothing.
///
/// The parts of an image that stand for those of a kernel show what can be seen of it. A live thread
/// has its row, with its life, and its context; where a row or a context is put for one of the kernel,
/// the others stay. A row with one record more has the life of the thread that was served. The records
/// of a live thread are as many as it passed. It starts with at most sixteen values, its stamp is below the next one,
/// and what it waits for has a number of 1 to 3. A row has a state of 0 to 4, each object the header of its type, and
/// the words that nothing reads are 0. Words at rest that stand for a kernel are kept for it,
/// and so are words that come to the same with the journal undone.
pub fn standing_laws()
    ensures shows { (p : Program) (d : Decoded) (K : State) → IsSound p K → d.events ≡ K.events → d.ticks ≡ K.ticks → Both (IsRow p) d.rows K.rows → items_in p d ≡ K.queues → counts_in p d ≡ K.counts → console_in d ≡ K.console → objects_in p d.heap d.live ≡ K.objects → shown p d ≡ visible p K }
    ensures row { (p : Program) (d : Decoded) (K : State) (t : ℕ) (thread : Thread) → Both (IsRow p) d.rows K.rows → thread_of K t ≡ Some thread → IsRow p (row_at d t) (Live thread) }
    ensures row_put { (p : Program) (rows : List RowWords) (krows : List kernel.Row) (t : ℕ) (row : RowWords) (r : kernel.Row) → Both (IsRow p) rows krows → IsRow p row r → Both (IsRow p) (slice_set rows t row) (slice_set krows t r) }
    ensures rows_many { (p : Program) (rows : List RowWords) (krows : List kernel.Row) → Both (IsRow p) rows krows → length rows ≡ length krows }
    ensures context { (p : Program) (contexts : List (Option Ctx)) (K : State) (t : ℕ) (thread : Thread) → Both (HasContext p) contexts K.rows → thread_of K t ≡ Some thread → (ctx : Ctx) × (option_and_then (λ found. found) (slice_get contexts t) ≡ Some ctx) × IsContextOf p ctx thread }
    ensures context_put { (p : Program) (contexts : List (Option Ctx)) (krows : List kernel.Row) (t : ℕ) (ctx : Ctx) (thread : Thread) → Both (HasContext p) contexts krows → IsContextOf p ctx thread → Both (HasContext p) (slice_set contexts t (Some ctx)) (slice_set krows t (Live thread)) }
    ensures context_left { (p : Program) (contexts : List (Option Ctx)) (krows : List kernel.Row) (t : ℕ) (r : kernel.Row) → Both (HasContext p) contexts krows → live_in r ≡ None → Both (HasContext p) (slice_set contexts t None) (slice_set krows t r) }
    ensures served { (p : Program) (old new : RowWords) (thread : Thread) (s : Stmt) (action : Action) (results : List ℕ) → IsLife p old thread → IsRecorded (kind_word action.kind action.given) results old new → thread.activity ≡ Ready → (ahead p thread.local).arrival ≡ AtAction s → action_of p s ≡ Some action → is_unrecorded action.kind ≡ false → length results ≡ result_count action.kind action.given → IsLife p new (served p results (arrived (ahead p thread.local) thread)) }
    ensures finished { (p : Program) (old new : RowWords) (thread : Thread) (action : Action) (results : List ℕ) → IsLife p old thread → IsRecorded (kind_word action.kind action.given) results old new → is_open thread.activity ≡ true → next_action p thread.local ≡ Some action → is_unrecorded action.kind ≡ false → length results ≡ result_count action.kind action.given → IsLife p new (awake p results thread) }
    ensures opened { (p : Program) (row : RowWords) (thread : Thread) (s : Stmt) (activity : Activity) → IsLife p row thread → thread.activity ≡ Ready → (ahead p thread.local).arrival ≡ AtAction s → is_open activity ≡ true → IsLife p row (record (arrived (ahead p thread.local) thread) { activity = activity }) }
    ensures life_kept { (p : Program) (old new : RowWords) (thread : Thread) → start_in new ≡ start_in old → recorded new ≡ recorded old → new.used ≡ old.used → new.start_count ≤ START_VALUES → IsLife p old thread → IsLife p new thread }
    ensures agrees { (p : Program) (old new : RowWords) (thread : Thread) (a : Ahead) (kind : ℕ) (results : List ℕ) → Agrees old (Live thread) → IsRecorded kind results old new → Agrees new (Live (served p results (arrived a thread))) }
    ensures ended { (old new : RowWords) (thread : Thread) (cause : ℕ) → Agrees old (Live thread) → new ≡ record old { state = ENDED; code = cause } → Agrees new (Ended thread.template thread.priority cause) }
    ensures counts { (p : Program) (row : RowWords) (thread : Thread) → IsLife p row thread → (rs : List relive.Record) × (recorded row ≡ encoded rs) × AreFit rs × (thread.passed ≡ length rs) }
    ensures counted { (p : Program) (d : Decoded) (K : State) (t : ℕ) (thread : Thread) → Stands p d K → thread_of K t ≡ Some thread → HasRecords (row_at d t) thread.passed }
    ensures few { (p : Program) (d : Decoded) (K : State) (t : ℕ) (thread : Thread) → Stands p d K → thread_of K t ≡ Some thread → (row_at d t).start_count ≤ START_VALUES }
    ensures past { (p : Program) (d : Decoded) (K : State) (t : ℕ) (thread : Thread) → Stands p d K → thread_of K t ≡ Some thread → (row_at d t).stamp < d.stamp }
    ensures states { (p : Program) (d : Decoded) (K : State) → Stands p d K → All (λ (row : RowWords). row.state ≤ 4) d.rows }
    ensures waits { (p : Program) (d : Decoded) (K : State) (t : ℕ) (thread : Thread) (wait : Wait) → Stands p d K → thread_of K t ≡ Some thread → thread.activity ≡ Waiting wait → (1 ≤ (row_at d t).what) × ((row_at d t).what ≤ 3) }
    ensures headers { (p : Program) (d : Decoded) (K : State) → Stands p d K → All (λ (object : Object). slice_index d.heap object.place ≡ object.kind + 1 + (if object.is_static then 65536 else 0)) K.objects }
    ensures unread { (p : Program) (d : Decoded) (K : State) → Stands p d K → unread d ≡ zeros }
    ensures kept { (p : Program) (words : List ℕ) (K : State) → IsAtRest words → Stands p (image_in words) K → IsKept p words K }
    ensures kept_undone { (p : Program) (old new : List ℕ) (K : State) → durable new ≡ durable old → IsJournalled new → slice_index old 0 ≡ magic → IsKept p old K → IsKept p new K }
    ensures kept_events { (p : Program) (words : List ℕ) (K : State) → IsKept p words K → counter_of words ≡ K.events }
{
    replay();
}
