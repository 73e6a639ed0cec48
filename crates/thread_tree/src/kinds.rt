// The kinds of calls, and how many results an action has.
ghost use Rattle.std.specs.Prelude.{◌≡◌, ◌<◌};
ghost use Rattle.thread_tree.specs.Kinds.{kind_of_call, result_count};

use crate::Call;

/// The kind of a print.
pub const PRINT: u32 = 1;

/// The kind of an `atomic` block.
pub const ATOMIC: u32 = 16;

/// What each word that an `atomic` block gives adds to the first word of its record.
pub const EACH_GIVEN: u32 = 256;

/// The kind of a turn of a persistent loop.
pub const TURN: u32 = 14;

/// The number of a call's kind, from 1 to 13 (docs/RECORDS.md).
pub fn kind_of_call(call: &Call) -> u32
    ensures kind { result ≡ kind_of_call call.now }
{
    match call {
        Call::Print(_) => PRINT,
        Call::Spawn(..) => 2,
        Call::Delete(_) => 3,
        Call::Delay(_) => 4,
        Call::Setprio(..) => 5,
        Call::Getprio(_) => 6,
        Call::Send(..) => 7,
        Call::Receive(..) => 8,
        Call::Take(..) => 9,
        Call::Give(_) => 10,
        Call::Now => 11,
        Call::Yield => 12,
        Call::Waiting(_) => 13,
    }
}

/// How many results an action of this kind, 1 to 16, has. `given` is the number of words that an atomic block gives,
/// below 2 to the 24th, and counts for it alone (docs/RECORDS.md).
#[tactic(auto, using(crate::proofs::KindLaws::result_count_none))]
pub fn result_count(kind: u32, given: u32) -> u32
    requires few { given < 16777216 }
    ensures count { result ≡ result_count kind given }
{
    match kind {
        4 | 12 | 14 | 15 => 0,
        8 => 2,
        ATOMIC => 1 + given,
        0..=13 => 1,
        _ => 0,
    }
}
