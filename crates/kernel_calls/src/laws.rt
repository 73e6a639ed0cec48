ghost use Rattle.kernel_model.specs.Kernel as kernel;
ghost use Rattle.kernel_image.specs.Decoded as image;
ghost use Rattle.arrayvec.specs.ArrayVec.{ArrayVec};
ghost use Rattle.kernel_calls.specs.Calling.{Acted, HoldsOpen, IsActed, IsAwaited, IsCalling, IsServing, also, but_served, of_open, results_of};
ghost use Rattle.kernel_calls.specs.Matches.{HasSameLife, HoldsContext, IsHeld, Matches, context_at, everybody, nobody, seen_row};
ghost use Rattle.kernel_image.specs.Agree.{Both, IsThread};
ghost use Rattle.kernel_image.specs.Decoded.{Decoded, RowWords, row_at};
ghost use Rattle.kernel_image.specs.Shown.{objects_in};
ghost use Rattle.kernel_image.specs.Unread.{unread};
ghost use Rattle.kernel_model.specs.Kernel.{Activity, State, Thread, changed, live_in, row_of, thread_of, with_row};
ghost use Rattle.kernel_model.specs.Kernel.Activity.{Ready, Waiting};
ghost use Rattle.kernel_model.specs.Kernel.Row.{Free, Live};
ghost use Rattle.kernel_model.specs.Objects.{first_place};
ghost use Rattle.kernel_model.specs.Order.{first};
ghost use Rattle.kernel_model.specs.Relived.{is_open};
ghost use Rattle.kernel_model.specs.Run.{arrived};
ghost use Rattle.kernel_model.specs.Serve.{held, Effect, Fate, answers, becomes, finish, served, settle, timed_out, until_of};
ghost use Rattle.kernel_model.specs.Serve.Fate.{Blocks, Sleeps, Stops};
ghost use Rattle.kernel_model.specs.Sound.{IsSound};
ghost use Rattle.kernel_model.specs.declared.wait.Wait.{Wait};
ghost use Rattle.kernel_model.specs.declared.what.What.{What};
ghost use Rattle.persistent_objects.specs.Layout.{IsLaidOut};
ghost use Rattle.ready_delay_lists.specs.Lists.{AreListed, Bears, HasStamp, IsAside, IsListed, stands_behind, stands_timed, unlisted, unlisted_row};
ghost use Rattle.replay_list.specs.Finished.{IsFinished, IsUnfinished};
ghost use Rattle.replay_list.specs.Records.{IsAppended};
ghost use Rattle.replay_list.specs.Stands.{HasContext, HasLife, KernelStands, Stands, console_in, counts_in, items_in};
ghost use Rattle.replay_list.specs.declared.outcome.Outcome.TheVariants.{Blocked, Results};
ghost use Rattle.std.specs.Prelude.{Bool, IfSome, List, None, Option, Some, length, slice_index_or, slice_set, true, ℕ, ◌*◌, ◌+◌, ◌<◌, ◌==◌, ◌≡◌, ◌≢◌, ◌≤◌, ◌⊎◌};
ghost use Rattle.thread_machine.specs.Context.{local_of};
ghost use Rattle.thread_machine.specs.declared.context.Ctx.{Ctx};
ghost use Rattle.thread_tree.specs.Ahead.{ahead};
ghost use Rattle.thread_tree.specs.Ahead.Arrival.{AtAction};
ghost use Rattle.thread_tree.specs.Kinds.{Action, result_count};
ghost use Rattle.thread_tree.specs.LocalState.{next_action};
ghost use Rattle.thread_tree.specs.Program.{Program};
ghost use Rattle.thread_tree.specs.declared.block.Stmt.{Stmt};

use kernel_model::waking;
use replay_list::standing_laws;
use thread_tree::ROWS;

/// The laws of the midst of an event. It does nothing.
///
/// Where one row, one stamp and one context change, and the image has the lists of the kernel behind that, the image and
/// the contexts have all of it: so where a thread stands in other lists, the caller sleeps or waits, or a thread is no
/// more. Where no row changes each other part stands for itself. The count of events is no part of it.
pub fn midst_laws()
    ensures life { (p : Program) (old new : RowWords) (r : kernel.Row) → unlisted_row new ≡ unlisted_row old → HasLife p old r → HasLife p new r }
    ensures put { (p : Program) (before after : ℕ) (whose held : ℕ → Bool) (d e : Decoded) (contexts later : List (Option Ctx)) (K : State) (t : ℕ) (row : RowWords) (r : kernel.Row) (stamp : ℕ) → t < ROWS → Matches p before whose d contexts K → length later ≡ ROWS → AreListed e (record (with_row K t r) { stamp = stamp }) → unlisted e ≡ unlisted (image.with_row d t row) → HasLife p row (seen_row (t == after) r) → ((u : ℕ) → u ≢ t → HasLife p (row_at d u) (seen_row (u == after) (row_of K u))) → HoldsContext p (held t) (context_at later t) r → ((u : ℕ) → u ≢ t → HoldsContext p (held u) (context_at later u) (row_of K u)) → Matches p after held e later (record (with_row K t r) { stamp = stamp }) }
    ensures same { (p : Program) (caller : ℕ) (whose : ℕ → Bool) (d e : Decoded) (contexts : List (Option Ctx)) (K : State) (t : ℕ) (row : RowWords) (r : kernel.Row) (stamp : ℕ) (found : Option Ctx) → t < ROWS → Matches p caller whose d contexts K → AreListed e (record (with_row K t r) { stamp = stamp }) → unlisted e ≡ unlisted (image.with_row d t row) → HasLife p row (seen_row (t == caller) r) → HoldsContext p (whose t) found r → Matches p caller whose e (slice_set contexts t found) (record (with_row K t r) { stamp = stamp }) }
    ensures changed { (p : Program) (whose : ℕ → Bool) (d e : Decoded) (contexts : List (Option Ctx)) (K : State) (t : ℕ) (row : RowWords) (r : kernel.Row) (stamp : ℕ) (found : Option Ctx) → t < ROWS → Matches p t whose d contexts K → AreListed e (record (with_row K t r) { stamp = stamp }) → unlisted e ≡ unlisted (image.with_row d t row) → HasLife p row r → HoldsContext p (whose t) found r → Matches p nobody whose e (slice_set contexts t found) (record (with_row K t r) { stamp = stamp }) }
    ensures relisted { (p : Program) (caller : ℕ) (whose : ℕ → Bool) (d e : Decoded) (contexts : List (Option Ctx)) (K : State) (t : ℕ) (thread later : Thread) (stamp : ℕ) → t < ROWS → Matches p caller whose d contexts K → thread_of K t ≡ Some thread → HasSameLife thread later → AreListed e (record (with_row K t (Live later)) { stamp = stamp }) → unlisted e ≡ unlisted d → Matches p caller whose e contexts (record (with_row K t (Live later)) { stamp = stamp }) }
    ensures open { (p : Program) (whose : ℕ → Bool) (d e : Decoded) (contexts : List (Option Ctx)) (K : State) (t : ℕ) (thread : Thread) (activity : Activity) (own stamp : ℕ) → t < ROWS → Matches p t whose d contexts K → thread_of K t ≡ Some thread → is_open activity ≡ true → AreListed e (record (with_row K t (Live (record thread { activity = activity; stamp = own }))) { stamp = stamp }) → unlisted e ≡ unlisted d → Matches p nobody whose e contexts (record (with_row K t (Live (record thread { activity = activity; stamp = own }))) { stamp = stamp }) }
    ensures left { (p : Program) (caller : ℕ) (whose : ℕ → Bool) (d e : Decoded) (contexts : List (Option Ctx)) (K : State) (t : ℕ) (row : RowWords) (r : kernel.Row) → t < ROWS → Matches p caller whose d contexts K → live_in r ≡ None → AreListed e (with_row K t r) → unlisted e ≡ unlisted (image.with_row d t row) → Matches p caller whose e (slice_set contexts t None) (with_row K t r) }
    ensures ended { (p : Program) (caller : ℕ) (whose : ℕ → Bool) (d e : Decoded) (contexts : List (Option Ctx)) (K : State) (t : ℕ) (row : RowWords) (r : kernel.Row) → t < ROWS → (caller ≡ t) ⊎ (caller ≡ nobody) → Matches p caller whose d contexts K → live_in r ≡ None → AreListed e (with_row K t r) → unlisted e ≡ unlisted (image.with_row d t row) → Matches p nobody (also t whose) e (slice_set contexts t None) (with_row K t r) }
    ensures parts { (p : Program) (caller : ℕ) (whose : ℕ → Bool) (d e : Decoded) (contexts : List (Option Ctx)) (K L : State) → Matches p caller whose d contexts K → L.rows ≡ K.rows → AreListed e L → e.rows ≡ d.rows → e.ticks ≡ L.ticks → items_in p e ≡ L.queues → counts_in p e ≡ L.counts → console_in e ≡ L.console → objects_in p e.heap e.live ≡ L.objects → IsLaidOut e.heap e.first_hole first_place L.objects → unread e ≡ unread d → Matches p caller whose e contexts L }
    ensures fewer { (p : Program) (caller : ℕ) (whose held : ℕ → Bool) (d : Decoded) (contexts : List (Option Ctx)) (K : State) → ((u : ℕ) → held u ≡ true → whose u ≡ true) → Matches p caller whose d contexts K → Matches p caller held d contexts K }
    ensures counted { (p : Program) (caller : ℕ) (whose : ℕ → Bool) (d : Decoded) (contexts : List (Option Ctx)) (K : State) (stored told : ℕ) → Matches p caller whose d contexts K → Matches p caller whose (record d { events = stored }) contexts (record K { events = told }) }
{}

/// The laws of what becomes of a thread. It does nothing.
///
/// A thread that was taken out of its lists and is put into others stands there as if it hadn't been. So it sleeps and
/// waits. Its results at last are all that an action's fate lacks, and an end forgets what the thread last did.
pub fn settling_laws()
    ensures again { (K : State) (t : ℕ) (thread : Thread) (activity : Activity) → stands_behind (with_row K t Free) t thread activity ≡ stands_behind K t thread activity }
    ensures timed_again { (K : State) (t : ℕ) (thread : Thread) (wake : ℕ) → stands_timed (with_row K t Free) t thread wake ≡ stands_timed K t thread wake }
    ensures blocks { (p : Program) (K : State) (t : ℕ) (thread : Thread) (wait : Wait) → thread_of K t ≡ Some thread → stands_behind K t thread (Waiting wait) ≡ settle p t (Blocks wait) K }
    ensures sleeps { (p : Program) (K : State) (t : ℕ) (thread : Thread) (wake : ℕ) → thread_of K t ≡ Some thread → stands_timed K t thread wake ≡ settle p t (Sleeps wake) K }
    ensures served { (p : Program) (t : ℕ) (fate : Fate) (K : State) (results : List ℕ) → results_of fate ≡ Some results → changed (but_served p t fate K) t (served p results) ≡ settle p t fate K }
    ensures stops { (p : Program) (t code : ℕ) (change : Thread → Thread) (K : State) → ((thread : Thread) → (change thread).template ≡ thread.template) → ((thread : Thread) → (change thread).priority ≡ thread.priority) → settle p t (Stops code) (changed K t change) ≡ settle p t (Stops code) K }
{}

/// The laws of results. It does nothing.
///
/// A thread that was delayed or waits gets the results of its call with its record first, then in its context, then by
/// its lists; the caller gets them with its record and in its context. A record changes nothing of the lists.
pub fn result_laws()
    ensures woken { (p : Program) (caller : ℕ) (whose : ℕ → Bool) (d middle e : Decoded) (contexts later : List (Option Ctx)) (K : State) (t : ℕ) (thread : Thread) (results : List ℕ) (ctx : Ctx) → t < ROWS → (awaited : IsAwaited p caller whose d contexts K t thread results) → local_of p ctx ≡ thread.local → IsFinished p t results ctx awaited.awaiting.awaited d middle contexts later → AreListed e (finish p K t results) → unlisted e ≡ unlisted middle → Matches p caller whose e later (finish p K t results) }
    ensures served { (p : Program) (whose : ℕ → Bool) (d e : Decoded) (contexts later : List (Option Ctx)) (K : State) (t : ℕ) (thread : Thread) (results : List ℕ) (ctx : Ctx) → t < ROWS → (serving : IsServing p whose d contexts K t thread results) → local_of p ctx ≡ thread.local → IsFinished p t results ctx serving.action d e contexts later → Matches p nobody whose e later (changed K t (served p results)) }
    ensures listed_same { (d : Decoded) (K : State) (t : ℕ) (thread later : Thread) → thread_of K t ≡ Some thread → ((row : RowWords) → IsThread row thread → IsThread row later) → AreListed d K → AreListed d (with_row K t (Live later)) }
    ensures listed_finished { (p : Program) (d : Decoded) (K : State) (t : ℕ) (thread : Thread) (results : List ℕ) → thread_of K t ≡ Some thread → AreListed d (stands_behind K t thread Ready) → AreListed d (finish p K t results) }
    ensures listed_recorded { (d e : Decoded) (K : State) (t kind : ℕ) (results : List ℕ) → IsAppended t kind results d e → AreListed d K → AreListed e K }
    ensures context { (p : Program) (caller : ℕ) (whose : ℕ → Bool) (d : Decoded) (contexts : List (Option Ctx)) (K : State) (t : ℕ) (thread : Thread) → Matches p caller whose d contexts K → thread_of K t ≡ Some thread → whose t ≡ true → IsHeld p (context_at contexts t) thread }
    ensures unfinished { (p : Program) (contexts : List (Option Ctx)) (t : ℕ) (thread : Thread) (action : Action) (results : List ℕ) (held : IsHeld p (context_at contexts t) thread) → next_action p thread.local ≡ Some action → length results ≡ result_count action.kind action.given → IsUnfinished p contexts t results held.ctx action }
{
    standing_laws();
}

/// The laws of an event. It does nothing.
///
/// A kernel that stands is in the midst of an event of nobody, with the contexts that are held: those of all threads, or
/// those of the threads that are delayed or wait. A ready thread that ran ahead to its action is the caller. Behind a
/// call the kernel stands again, with all contexts.
pub fn event_laws()
    ensures begins { (p : Program) (whose : ℕ → Bool) (d : Decoded) (contexts : List (Option Ctx)) (K : State) → Stands p d K → length contexts ≡ ROWS → ((u : ℕ) → HoldsContext p (whose u) (context_at contexts u) (row_of K u)) → Matches p nobody whose d contexts K }
    ensures all_held { (p : Program) (contexts : List (Option Ctx)) (krows : List kernel.Row) (u : ℕ) → Both (HasContext p) contexts krows → HasContext p (context_at contexts u) (slice_index_or krows u Free) }
    ensures begins_all { (p : Program) (d : Decoded) (contexts : List (Option Ctx)) (K : State) → KernelStands p d contexts K → Matches p nobody everybody d contexts K }
    ensures open_held { (K : State) → HoldsOpen (of_open K) K }
    ensures all_open_held { (K : State) → HoldsOpen everybody K }
    ensures arrives { (p : Program) (whose held : ℕ → Bool) (d : Decoded) (contexts later : List (Option Ctx)) (K : State) (t : ℕ) (thread : Thread) (s : Stmt) → t < ROWS → Matches p nobody whose d contexts K → thread_of K t ≡ Some thread → thread.activity ≡ Ready → (ahead p thread.local).arrival ≡ AtAction s → length later ≡ ROWS → HoldsContext p (held t) (context_at later t) (Live (arrived (ahead p thread.local) thread)) → ((u : ℕ) → u ≢ t → HoldsContext p (held u) (context_at later u) (row_of K u)) → Matches p t held d later (changed K t (arrived (ahead p thread.local))) }
    ensures stands_again { (p : Program) (d : Decoded) (contexts : List (Option Ctx)) (K : State) → Matches p nobody everybody d contexts K → IsSound p K → d.events ≡ K.events → K.stamp ≤ ROWS + 17 * K.events → KernelStands p d contexts K }
{
    standing_laws();
}

/// The laws of who gets results. It does nothing.
///
/// An action that is finished at once gives its caller the results. The first that waits for something isn't the caller,
/// and its call can be finished with as many results as a wait for that has where its time ends it.
pub fn serving_laws()
    ensures acted { (p : Program) (whose : ℕ → Bool) (t : ℕ) (d : Decoded) (contexts : List (Option Ctx)) (effect : Effect) (results : ArrayVec ℕ) → t < ROWS → length results.items ≤ 4 → IsActed p whose t d contexts effect (Results results) → (thread : Thread) × IsServing p whose d contexts (but_served p t effect.fate effect.kernel) t thread results.items }
    ensures first { (p : Program) (caller : ℕ) (whose : ℕ → Bool) (d : Decoded) (contexts : List (Option Ctx)) (K L : State) (what : What) (target u : ℕ) (results : List ℕ) → IsSound p K → IfSome (thread_of K caller) (λ thread. thread.activity ≡ Ready) → HoldsOpen whose K → Matches p caller whose d contexts L → L.rows ≡ K.rows → HasStamp L → first K what target ≡ Some u → length results ≡ length (timed_out p what target) → length results ≤ 4 → (thread : Thread) × IsAwaited p caller whose d contexts L u thread results }
{
    waking();
}

/// The laws of a thread that is moved from list to list. It does nothing.
///
/// Taken out of its lists it stands in none, and is put into others: so the caller sleeps or waits, and a thread whose
/// call is finished is ready behind its equals.
pub fn moving_laws()
    ensures aside { (e : Decoded) (K : State) (t : ℕ) (thread : Thread) → t < ROWS → length K.rows ≡ ROWS → AreListed e (with_row K t Free) → Bears (row_at e t) thread → IsAside e (with_row K t Free) t thread }
    ensures asleep { (p : Program) (whose : ℕ → Bool) (d left e : Decoded) (contexts : List (Option Ctx)) (K : State) (t : ℕ) (thread : Thread) (wake : ℕ) → t < ROWS → IsCalling p whose t d contexts K thread → unlisted left ≡ unlisted d → AreListed e (stands_timed (with_row K t Free) t thread wake) → unlisted e ≡ unlisted left → Matches p nobody whose e contexts (settle p t (Sleeps wake) K) }
    ensures blocked { (p : Program) (whose : ℕ → Bool) (d left e : Decoded) (contexts : List (Option Ctx)) (K : State) (t : ℕ) (thread : Thread) (wait : Wait) → t < ROWS → IsCalling p whose t d contexts K thread → unlisted left ≡ unlisted d → AreListed e (stands_behind (with_row K t Free) t thread (Waiting wait)) → unlisted e ≡ unlisted left → Matches p nobody whose e contexts (settle p t (Blocks wait) K) }
    ensures awaited { (p : Program) (caller : ℕ) (whose : ℕ → Bool) (d middle : Decoded) (contexts later : List (Option Ctx)) (K : State) (t : ℕ) (thread : Thread) (results : List ℕ) (ctx : Ctx) → (awaited : IsAwaited p caller whose d contexts K t thread results) → IsFinished p t results ctx awaited.awaiting.awaited d middle contexts later → IsListed middle K t thread }
    ensures awake { (p : Program) (caller : ℕ) (whose : ℕ → Bool) (d middle left e : Decoded) (contexts later : List (Option Ctx)) (K : State) (t : ℕ) (thread : Thread) (results : List ℕ) (ctx : Ctx) → t < ROWS → (awaited : IsAwaited p caller whose d contexts K t thread results) → local_of p ctx ≡ thread.local → IsFinished p t results ctx awaited.awaiting.awaited d middle contexts later → unlisted left ≡ unlisted middle → AreListed e (stands_behind (with_row K t Free) t thread Ready) → unlisted e ≡ unlisted left → Matches p caller whose e later (finish p K t results) }
{
    standing_laws();
}

/// The laws of what can't be done at once. It does nothing.
///
/// With limit 0 it is given up, and with any other one the caller waits. An action that is finished at once has results
/// as its outcome, and one that waits is blocked.
pub fn holding_laws()
    ensures held_now { (p : Program) (K : State) (what : What) (target value limit : ℕ) → limit ≡ 0 → held p K what target value limit ≡ answers (timed_out p what target) K }
    ensures held_later { (p : Program) (K : State) (what : What) (target value limit : ℕ) → limit ≢ 0 → held p K what target value limit ≡ becomes (Blocks (record { what = what; target = target; value = value; until = until_of K limit })) K }
    ensures answers { (p : Program) (whose : ℕ → Bool) (t : ℕ) (d : Decoded) (contexts : List (Option Ctx)) (effect : Effect) (K : State) (results : List ℕ) (own : ArrayVec ℕ) → effect ≡ answers results K → own.items ≡ results → Matches p t whose d contexts K → Acted p whose t d contexts effect (Results own) }
    ensures blocks { (p : Program) (whose : ℕ → Bool) (t : ℕ) (d : Decoded) (contexts : List (Option Ctx)) (effect : Effect) (K : State) (wait : Wait) → effect ≡ becomes (Blocks wait) K → Matches p nobody whose d contexts (settle p t (Blocks wait) K) → Acted p whose t d contexts effect Blocked }
{}
