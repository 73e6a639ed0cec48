ghost use Rattle.std.specs.Prelude.{◌≡◌, ◌≢◌, ℕ, ◌+◌, ◌%◌, ◌<◌, ◌≤◌, Bool, true, false, List, [], ◌∷◌, ◌++◌, length, map, All, Option, Some, None, slice_get, slice_index_or};
ghost use Rattle.kernel_model.specs.declared.event.Event.{Event};
ghost use Rattle.kernel_model.specs.declared.event.Event.TheVariants.{Step};
ghost use Rattle.kernel_model.specs.declared.wait.Wait.{Wait};
ghost use Rattle.kernel_model.specs.declared.what.What.{What};
ghost use Rattle.kernel_model.specs.declared.what.What.TheVariants.{Send, Receive, Take};
ghost use Rattle.kernel_model.specs.Visible.{Object, Queue, Semaphore};
ghost use Rattle.kernel_model.specs.Kernel.{State, Thread, Activity, thread_of};
ghost use Rattle.kernel_model.specs.Kernel.Activity.{Ready, Delayed, Waiting};
ghost use Rattle.kernel_model.specs.Calls.{born};
ghost use Rattle.kernel_model.specs.Serve.{Effect, served, awake, finish, timed_out, turned, settle, settled};
ghost use Rattle.kernel_model.specs.Serve.Fate.{Stops};
ghost use Rattle.kernel_model.specs.Act.{effect_of_call, effect_of, need};
ghost use Rattle.kernel_model.specs.Effects.{ran_ahead, words_wanted, IsCaller, IsSoundEffect, HasMany};
ghost use Rattle.kernel_model.specs.Awaits.{IsAwaiting};
ghost use Rattle.kernel_model.specs.Waking.{woken_rows, next_tick};
ghost use Rattle.kernel_model.specs.Objects.{block_size, first_place, least, kind_in, declared_kind, static_objects};
ghost use Rattle.kernel_model.specs.Order.{is_more_urgent, line_of, waits_for, chosen, first};
ghost use Rattle.kernel_model.specs.Run.{row_count, record_room, ordinary_end, watchdog, no_record_room, initial, one, on, after, arrived, counted, woken_by, woken, all_woken, rotated, tick};
ghost use Rattle.kernel_model.specs.Show.{visible};
ghost use Rattle.kernel_model.specs.Sound.{listed, IsSound, IsLaid, IsPacked, IsFree};
ghost use Rattle.kernel_model.specs.Relived.{is_open, record_of, IsRelived};
ghost use Rattle.kernel_model.specs.Placed.{IsPlaced};
ghost use Rattle.thread_tree.specs.declared.action.Call.{Call};
ghost use Rattle.thread_tree.specs.declared.block.Block.{Block};
ghost use Rattle.thread_tree.specs.declared.block.Stmt.{Stmt, out-Stmt};
ghost use Rattle.thread_tree.specs.declared.local.Local.{Local};
ghost use Rattle.thread_tree.specs.declared.tree.Tree.{Tree};
ghost use Rattle.thread_tree.specs.Actions.{Spot, actions, loops, inside, spot_at, names_in, values_of};
ghost use Rattle.thread_tree.specs.Ahead.{ahead};
ghost use Rattle.thread_tree.specs.Ahead.Arrival.{AtAction, Finished, Watchdog};
ghost use Rattle.thread_tree.specs.Relive.{Start, Record};
ghost use Rattle.thread_tree.specs.Relive.Start.{Birth, Loop};
ghost use Rattle.thread_tree.specs.Kinds.{Action, action_of, kind_of_call, is_unrecorded, result_count};
ghost use Rattle.thread_tree.specs.Limits.{IsWithinLimits};
ghost use Rattle.thread_tree.specs.LocalState.{LocalState, move, next_statement, next_action, after_first, bind, loop_block, turn, birth};
ghost use Rattle.thread_tree.specs.Program.{Program, Template, program_of};

use thread_tree::ROWS;

/// The laws of the uncut run of a program within its limits. It does nothing.
///
/// The kernel at the start is sound, and each of the first 1,000,000 events keeps it so. Each event
/// raises the counter by one, and the run goes on event by event. An event gives at most 17 stamps.
/// The stamps of live threads are past ones, and they differ where the threads stand in a list.
pub fn soundness()
    ensures initial { (p : Program) → IsWithinLimits p → IsSound p (initial p) }
    ensures kept { (p : Program) (K : State) (event : Event) → IsWithinLimits p → IsSound p K → K.events < 1000000 → IsSound p (one p K event) }
    ensures run { (p : Program) (events : List Event) → IsWithinLimits p → length events ≤ 1000000 → IsSound p (on p (initial p) events) }
    ensures counted { (p : Program) (K : State) (event : Event) → (one p K event).events ≡ K.events + 1 }
    ensures run_counted { (p : Program) (events : List Event) (K : State) → (on p K events).events ≡ K.events + length events }
    ensures begins { (p : Program) (events : List Event) → after p events 0 ≡ initial p }
    ensures goes_on { (p : Program) (events : List Event) (n : ℕ) (d : Event) → n < length events → after p events (n + 1) ≡ one p (after p events n) (slice_index_or events n d) }
    ensures stamps { (p : Program) (K : State) (event : Event) → (one p K event).stamp ≤ K.stamp + 17 }
    ensures first_stamp { (p : Program) → IsWithinLimits p → (initial p).stamp ≤ ROWS }
    ensures past { (p : Program) (K : State) (t : ℕ) (thread : Thread) → IsSound p K → thread_of K t ≡ Some thread → thread.stamp < K.stamp }
    ensures apart { (p : Program) (K : State) (t u s : ℕ) (a b : Thread) → IsSound p K → thread_of K t ≡ Some a → thread_of K u ≡ Some b → listed a.stamp a.activity ≡ Some s → listed b.stamp b.activity ≡ Some s → t ≡ u }
{}

/// The laws of who is served first. It does nothing.
///
/// The first of a line is a live thread that passes the line's test, and none that passes it is
/// more urgent; where none passes it the line is empty. Who is chosen stands first in the ready list of its priority that can be seen, and
/// the lists of greater priorities are empty; who is served first of those that wait is the front
/// of the list that can be seen.
pub fn order()
    ensures passes { (test : Thread → Bool) (K : State) (t : ℕ) → slice_get (line_of test K.rows) 0 ≡ Some t → (thread : Thread) × (thread_of K t ≡ Some thread) × (test thread ≡ true) }
    ensures none_before { (test : Thread → Bool) (K : State) (t : ℕ) (thread : Thread) → slice_get (line_of test K.rows) 0 ≡ Some t → thread_of K t ≡ Some thread → (u : ℕ) (other : Thread) → thread_of K u ≡ Some other → test other ≡ true → is_more_urgent (u, other) (t, thread) ≡ false }
    ensures is_first { (test : Thread → Bool) (K : State) (t : ℕ) (thread : Thread) → thread_of K t ≡ Some thread → test thread ≡ true → ((u : ℕ) (other : Thread) → thread_of K u ≡ Some other → test other ≡ true → t ≢ u → is_more_urgent (t, thread) (u, other) ≡ true) → slice_get (line_of test K.rows) 0 ≡ Some t }
    ensures none_first { (test : Thread → Bool) (K : State) → ((t : ℕ) (thread : Thread) → thread_of K t ≡ Some thread → test thread ≡ false) → slice_get (line_of test K.rows) 0 ≡ None }
    ensures none_passes { (test : Thread → Bool) (K : State) → slice_get (line_of test K.rows) 0 ≡ None → (t : ℕ) (thread : Thread) → thread_of K t ≡ Some thread → test thread ≡ false }
    ensures chosen_first { (p : Program) (K : State) → IsSound p K → (t : ℕ) (thread : Thread) → chosen K ≡ Some t → thread_of K t ≡ Some thread → thread.priority < 8 → slice_get (slice_index_or (visible p K).ready thread.priority []) 0 ≡ Some t }
    ensures none_above { (p : Program) (K : State) → IsSound p K → (t : ℕ) (thread : Thread) → chosen K ≡ Some t → thread_of K t ≡ Some thread → (priority : ℕ) → thread.priority < priority → priority < 8 → slice_index_or (visible p K).ready priority [] ≡ [] }
    ensures first_sender { (p : Program) (K : State) (queue : ℕ) (d : Queue) → queue < length K.queues → first K Send queue ≡ slice_get (slice_index_or (visible p K).queues queue d).senders 0 }
    ensures first_receiver { (p : Program) (K : State) (queue : ℕ) (d : Queue) → queue < length K.queues → first K Receive queue ≡ slice_get (slice_index_or (visible p K).queues queue d).receivers 0 }
    ensures first_taker { (p : Program) (K : State) (semaphore : ℕ) (d : Semaphore) → semaphore < length K.counts → first K Take semaphore ≡ slice_get (slice_index_or (visible p K).semaphores semaphore d).takers 0 }
    ensures none_ready { (p : Program) (K : State) → chosen K ≡ None → (priority : ℕ) → priority < 8 → slice_index_or (visible p K).ready priority [] ≡ [] }
{}

/// The laws of the places of objects. It does nothing.
///
/// An object fits at the place that it gets, which is even. Where there is a free place for an
/// object it gets one, and none is lower. The static objects of a program within its limits lie
/// right behind each other, with the types and in the order of their declarations.
pub fn places()
    ensures free { (objects : List Object) (fields : ℕ) → IsLaid first_place objects → least objects fields ≢ 0 → IsFree objects (least objects fields) (block_size fields) }
    ensures first { (objects : List Object) (fields place : ℕ) → IsFree objects place (block_size fields) → (1 ≤ least objects fields) × (least objects fields ≤ place) }
    ensures packed { (p : Program) → IsWithinLimits p → (to : ℕ) × IsPacked first_place (static_objects p) to × (to ≤ 770) }
    ensures kinds { (p : Program) → map kind_in (static_objects p) ≡ map (declared_kind p) p.objects }
    ensures even { (objects : List Object) (fields : ℕ) → All (λ o. o.place % 2 ≡ 0) objects → least objects fields % 2 ≡ 0 }
{}

/// The laws of persistent loops. It does nothing.
///
/// A thread's things to do stand where the program has them (`IsPlaced`): at its birth, in a loop,
/// after each move and after the results of each action. So a turn enters the state inside one of
/// the program's loops, with the values of the locals in scope.
pub fn loops()
    ensures born { (tree : Tree) (number : ℕ) (t : Template) (arguments : List ℕ) → slice_get (program_of tree).templates number ≡ Some t → length arguments ≡ length t.parameters → IsPlaced (program_of tree) (birth t arguments) }
    ensures entered { (p : Program) (number : ℕ) (spot : Spot) (values : List ℕ) → slice_get (loops p) number ≡ Some spot → length values ≡ length spot.scope → IsPlaced p (inside spot values) }
    ensures moved { (p : Program) (s t : LocalState) → IsPlaced p s → move p s ≡ Some t → IsPlaced p t }
    ensures ahead { (p : Program) (s : LocalState) → IsPlaced p s → IsPlaced p (ahead p s).local }
    ensures bound { (p : Program) (s : LocalState) (action : Action) (results : List ℕ) → IsPlaced p s → next_action p s ≡ Some action → IsPlaced p (bind p s results) }
    ensures turned { (p : Program) (t : LocalState) (s : Stmt) (block : Block) → IsPlaced p t → t.below ≡ [] → next_statement t.top.todo ≡ Some s → loop_block (out-Stmt s) ≡ Some block → IsPlaced p (turn t) }
    ensures turn_enters { (p : Program) (t : LocalState) (s : Stmt) (block : Block) → IsPlaced p t → t.below ≡ [] → next_statement t.top.todo ≡ Some s → loop_block (out-Stmt s) ≡ Some block → (number : ℕ) × (slice_get (loops p) number ≡ Some (spot_at s (names_in t.top.locals) (after_first t.top.todo))) × (turn t ≡ inside (spot_at s (names_in t.top.locals) (after_first t.top.todo)) (values_of t.top.locals)) }
{}

/// The laws of replay. It does nothing.
///
/// A start and records give a thread back (`IsRelived`): its local state, its age, how many actions
/// it passed, and its debt, which is the sum of the records' words. A thread is born with no record.
/// An action that is served appends its record, and so does a call that is finished after it was
/// open. A turn begins anew, inside the loop. Each thread that is given back stands where the
/// program has it. The action at which it arrives is one of the program's.
pub fn replay()
    ensures born { (p : Program) (number : ℕ) (t : Template) (arguments : List ℕ) (stamp : ℕ) → slice_get p.templates number ≡ Some t → length arguments ≡ length t.parameters → IsRelived p (Birth number arguments) [] (born number t arguments stamp) }
    ensures served { (p : Program) (start : Start) (rs : List Record) (thread : Thread) → IsRelived p start rs thread → (s : Stmt) (action : Action) (results : List ℕ) → thread.activity ≡ Ready → (ahead p thread.local).arrival ≡ AtAction s → action_of p s ≡ Some action → is_unrecorded action.kind ≡ false → length results ≡ result_count action.kind action.given → IsRelived p start (rs ++ record_of action results ∷ []) (served p results (arrived (ahead p thread.local) thread)) }
    ensures opened { (p : Program) (start : Start) (rs : List Record) (thread : Thread) → IsRelived p start rs thread → (s : Stmt) (activity : Activity) → thread.activity ≡ Ready → (ahead p thread.local).arrival ≡ AtAction s → is_open activity ≡ true → IsRelived p start rs (record (arrived (ahead p thread.local) thread) { activity = activity }) }
    ensures finished { (p : Program) (start : Start) (rs : List Record) (thread : Thread) → IsRelived p start rs thread → (action : Action) (results : List ℕ) → is_open thread.activity ≡ true → next_action p thread.local ≡ Some action → is_unrecorded action.kind ≡ false → length results ≡ result_count action.kind action.given → IsRelived p start (rs ++ record_of action results ∷ []) (awake p results thread) }
    ensures turned { (p : Program) (start : Start) (rs : List Record) (thread : Thread) → IsRelived p start rs thread → (s : Stmt) (block : Block) → thread.activity ≡ Ready → IsPlaced p thread.local → (ahead p thread.local).arrival ≡ AtAction s → loop_block (out-Stmt s) ≡ Some block → (ahead p thread.local).local.below ≡ [] → (number : ℕ) × (slice_get (loops p) number ≡ Some (spot_at s (names_in (ahead p thread.local).local.top.locals) (after_first (ahead p thread.local).local.top.todo))) × IsRelived p (Loop number (values_of (ahead p thread.local).local.top.locals)) [] (turned (arrived (ahead p thread.local) thread)) }
    ensures placed { (tree : Tree) (start : Start) (rs : List Record) (thread : Thread) → IsRelived (program_of tree) start rs thread → IsPlaced (program_of tree) thread.local }
    ensures arrives { (tree : Tree) (start : Start) (rs : List Record) (thread : Thread) (s : Stmt) → IsRelived (program_of tree) start rs thread → (ahead (program_of tree) thread.local).arrival ≡ AtAction s → (number : ℕ) × (slice_get (actions (program_of tree)) number ≡ Some s) }
{}

/// The laws of a step. It does nothing.
///
/// Where nobody is ready the event is counted. Else the chosen thread, which is ready, runs ahead,
/// where the kernel stays sound, and ends or performs its action.
pub fn stepping()
    ensures nobody { (p : Program) (K : State) → chosen K ≡ None → one p K Step ≡ counted K }
    ensures ready { (K : State) (t : ℕ) → chosen K ≡ Some t → (thread : Thread) × (thread_of K t ≡ Some thread) × (thread.activity ≡ Ready) }
    ensures ran_ahead { (p : Program) (K : State) (t : ℕ) (thread : Thread) → IsSound p K → thread_of K t ≡ Some thread → thread.activity ≡ Ready → IsSound p (ran_ahead p K t thread) }
    ensures caller { (p : Program) (K : State) (t : ℕ) (thread : Thread) → thread_of K t ≡ Some thread → thread.activity ≡ Ready → IsCaller (ran_ahead p K t thread) t (ahead p thread.local).local thread.debt }
    ensures finished { (p : Program) (K : State) (t : ℕ) (thread : Thread) → chosen K ≡ Some t → thread_of K t ≡ Some thread → (ahead p thread.local).arrival ≡ Finished → one p K Step ≡ settle p t (Stops ordinary_end) (ran_ahead p K t thread) }
    ensures watchdog { (p : Program) (K : State) (t : ℕ) (thread : Thread) → chosen K ≡ Some t → thread_of K t ≡ Some thread → (ahead p thread.local).arrival ≡ Watchdog → one p K Step ≡ settle p t (Stops watchdog) (ran_ahead p K t thread) }
    ensures no_room { (p : Program) (K : State) (t : ℕ) (thread : Thread) (s : Stmt) → chosen K ≡ Some t → thread_of K t ≡ Some thread → (ahead p thread.local).arrival ≡ AtAction s → record_room < words_wanted p t thread s → one p K Step ≡ settle p t (Stops no_record_room) (ran_ahead p K t thread) }
    ensures acted { (p : Program) (K : State) (t : ℕ) (thread : Thread) (s : Stmt) → chosen K ≡ Some t → thread_of K t ≡ Some thread → (ahead p thread.local).arrival ≡ AtAction s → words_wanted p t thread s ≤ record_room → one p K Step ≡ settled p t (effect_of p (ran_ahead p K t thread) t (ahead p thread.local).local.top.locals s) }
{}

/// The laws of actions. It does nothing.
///
/// The effect of an action whose record has room is sound: so is its kernel, its thread is still
/// there as it was, and what becomes of the thread fits. Behind it the kernel is sound. An effect
/// gives at most one stamp. A call's effect has as many results as the call, if it has any.
pub fn acting()
    ensures acts { (p : Program) (K : State) (t debt : ℕ) (local : LocalState) (s : Stmt) → IsWithinLimits p → IsSound p K → K.events ≤ 1000000 → IsCaller K t local debt → next_statement local.top.todo ≡ Some s → debt + need p t local.top.locals s ≤ record_room → IsSoundEffect p t local debt (effect_of p K t local.top.locals s) }
    ensures stamps { (p : Program) (K : State) (t : ℕ) (locals : List Local) (s : Stmt) → (effect_of p K t locals s).kernel.stamp ≤ K.stamp + 1 }
    ensures settles { (p : Program) (t debt : ℕ) (local : LocalState) (effect : Effect) → IsSoundEffect p t local debt effect → IsSound p (settled p t effect) }
    ensures many { (p : Program) (K : State) (t : ℕ) (locals : List Local) (c : Call) → HasMany (result_count (kind_of_call c) 0) (effect_of_call p K t locals c) }
{}

/// The laws of open calls. It does nothing.
///
/// In a sound kernel a thread that is delayed or waits stands at the call that is open, whose
/// record has room. A delay has no result; a wait has as many as it has where its time ends it.
pub fn open_calls()
    ensures delayed { (p : Program) (K : State) (t wake : ℕ) (thread : Thread) → IsSound p K → thread_of K t ≡ Some thread → thread.activity ≡ Delayed wake → IsAwaiting p thread 0 }
    ensures waiting { (p : Program) (K : State) (t : ℕ) (thread : Thread) (wait : Wait) → IsSound p K → thread_of K t ≡ Some thread → thread.activity ≡ Waiting wait → IsAwaiting p thread (length (timed_out p wait.what wait.target)) }
    ensures awaited { (p : Program) (K : State) (what : What) (target t : ℕ) (thread : Thread) → IsSound p K → thread_of K t ≡ Some thread → waits_for what target thread ≡ true → IsAwaiting p thread (length (timed_out p what target)) }
    ensures woken { (p : Program) (K : State) (t tick : ℕ) (thread : Thread) (results : List ℕ) → IsSound p K → thread_of K t ≡ Some thread → woken_by p tick thread.activity ≡ Some results → IsAwaiting p thread (length results) }
{}

/// The laws of waking. It does nothing.
///
/// A tick wakes one row after another: the call of who is woken is finished, and all else stays.
/// A row that is still to come is as it was, and so is a thread that isn't woken. The least thread
/// that is to be woken can be woken first. The first that waits for something lives, waits for it,
/// and its call is open.
pub fn waking()
    ensures none { (p : Program) (K : State) (t : ℕ) → thread_of K t ≡ None → woken p K t ≡ K }
    ensures asleep { (p : Program) (K : State) (t : ℕ) (thread : Thread) → thread_of K t ≡ Some thread → woken_by p K.ticks thread.activity ≡ None → woken p K t ≡ K }
    ensures finished { (p : Program) (K : State) (t : ℕ) (thread : Thread) (results : List ℕ) → thread_of K t ≡ Some thread → woken_by p K.ticks thread.activity ≡ Some results → woken p K t ≡ finish p K t results }
    ensures begins { (p : Program) (K : State) → woken_rows p 0 K ≡ K }
    ensures in_turn { (p : Program) (K : State) (count : ℕ) → woken_rows p (count + 1) K ≡ woken p (woken_rows p count K) count }
    ensures all { (p : Program) (K : State) → all_woken p K ≡ woken_rows p row_count K }
    ensures tick { (p : Program) (K : State) → tick p K ≡ rotated (woken_rows p row_count (next_tick K)) (chosen K) }
    ensures ticks { (p : Program) (K : State) (count : ℕ) → (woken_rows p count K).ticks ≡ K.ticks }
    ensures stamps { (p : Program) (K : State) (count : ℕ) → (woken_rows p count K).stamp ≤ K.stamp + count }
    ensures later { (p : Program) (K : State) (count t : ℕ) → count ≤ t → thread_of (woken_rows p count K) t ≡ thread_of K t }
    ensures kept { (p : Program) (K : State) (count t : ℕ) (thread : Thread) → thread_of K t ≡ Some thread → woken_by p K.ticks thread.activity ≡ None → thread_of (woken_rows p count K) t ≡ Some thread }
    ensures nobody { (p : Program) (K : State) → ((u : ℕ) (other : Thread) → u < row_count → thread_of K u ≡ Some other → woken_by p K.ticks other.activity ≡ None) → all_woken p K ≡ K }
    ensures least { (p : Program) (K : State) (t : ℕ) (thread : Thread) (results : List ℕ) → t < row_count → thread_of K t ≡ Some thread → woken_by p K.ticks thread.activity ≡ Some results → ((u : ℕ) (other : Thread) → u < t → thread_of K u ≡ Some other → woken_by p K.ticks other.activity ≡ None) → all_woken p K ≡ all_woken p (woken p K t) }
    ensures first_awaited { (p : Program) (K : State) (what : What) (target t : ℕ) → IsSound p K → first K what target ≡ Some t → (thread : Thread) × (thread_of K t ≡ Some thread) × (waits_for what target thread ≡ true) × IsAwaiting p thread (length (timed_out p what target)) }
{}
