// What the words of the command line ask for.
ghost use Rattle.std.specs.Prelude.{◌≡◌, ◌↔◌, ◌≤◌, ◌^◌, ◌<◌, ℕ, List, map, length, All, string_bytes, IsTrue, IfOk, IfSome, IfNone, IsErrOf, decimal};
ghost use Rattle.intos_run.specs.Command.{IsName, IsCommand};

use itoa::Buffer;
use std::alloc::{AllocError, AllocFailed, Global};

/// The most steps that a command asks for.
const MOST_STEPS: u32 = 1_000_000;

/// The most budgets that a command has.
const MOST_CUTS: usize = 1_000;

/// What the words of the command line ask for.
#[derive(Debug, Drop)]
pub struct Command<'a> {
    /// The name of the program's file.
    pub program: &'a str,
    /// How many steps the kernel makes, at most 1,000,000.
    pub steps: u32,
    /// How many writes each boot that is to be cut may make, at most 1,000 budgets in order.
    pub cuts: Vec<u32>,
}

/// Why no command was read.
#[derive(Clone, Copy, Debug, PartialEq, Eq)]
pub enum CommandFault {
    /// The words aren't a command's.
    Usage,
    /// No memory was left.
    NoMemory,
}

impl From<AllocError> for CommandFault {
    ghost use Rattle.intos_run.specs.declared.command.CommandFault.TheVariants.{NoMemory};

    ghost from_gives = { λ _ fault. fault ≡ NoMemory };

    fn from(_error: AllocError) -> Self {
        CommandFault::NoMemory
    }
}

impl<T: Drop> From<AllocFailed<T>> for CommandFault {
    ghost use Rattle.intos_run.specs.declared.command.CommandFault.TheVariants.{NoMemory};

    ghost from_gives = { λ _ fault. fault ≡ NoMemory };

    fn from(_error: AllocFailed<T>) -> Self {
        CommandFault::NoMemory
    }
}

/// Whether a word can name a file.
fn is_name(word: &str) -> bool
    ensures name { IsTrue result ↔ IsName word.now }
{
    match word.as_bytes() {
        [] => false,
        [first, ..] => *first != b'-',
    }
}

/// The number that a text writes in decimal digits, without a leading zero, where it is at most `most`.
fn number_of(text: &str, most: u32) -> Option<u32>
    ensures some { IfSome result (λ number. (text.now ≡ decimal number) × (number ≤ most)) }
    ensures none { IfNone result ((number : ℕ) → number ≤ most → text.now ≡ decimal number → ⊥) }
{
    let Ok(number) = text.parse::<u32>() else {
        return None;
    };
    let mut buffer = Buffer::new();
    if number <= most && buffer.format(number) == text {
        Some(number)
    } else {
        None
    }
}

/// The budgets that these words write.
fn read_cuts(alloc: Global, words: &[String]) -> Result<Vec<u32>, CommandFault>
    ensures same { IfOk result (λ cuts. map string_bytes words.now ≡ map decimal cuts.items) }
    ensures few { IfOk result (λ cuts. length cuts.items ≤ 1000) }
    ensures fit { IfOk result (λ cuts. All (λ cut. cut < 2 ^ 32) cuts.items) }
    ensures usage { IsErrOf result CommandFault.Usage → (cuts : List ℕ) → length cuts ≤ 1000 → All (λ cut. cut < 2 ^ 32) cuts → map string_bytes words.now ≡ map decimal cuts → ⊥ }
{
    if words.len() > MOST_CUTS {
        return Err(CommandFault::Usage);
    }
    let mut cuts = Vec::new(alloc);
    for word in words {
        let Some(cut) = number_of(word.as_str(), u32::MAX) else {
            return Err(CommandFault::Usage);
        };
        cuts.push(cut)?;
    }
    Ok(cuts)
}

/// The command that these words ask for: `run`, the name of the program, the steps and the budgets.
///
/// # Errors
///
/// `Usage` exactly where the words aren't a command's, and want of memory.
pub fn read_command<'a>(alloc: Global, words: &'a Vec<String>) -> Result<Command<'a>, CommandFault>
    ensures ok { IfOk result (λ command. IsCommand (map string_bytes words.now.items) command.program.now command.steps command.cuts.items) }
    ensures usage { IsErrOf result CommandFault.Usage → (name : List ℕ) (steps : ℕ) (cuts : List ℕ) → IsCommand (map string_bytes words.now.items) name steps cuts → ⊥ }
{
    let [run, program, steps, cuts @ ..] = words.as_slice() else {
        return Err(CommandFault::Usage);
    };
    let program = program.as_str();
    if run.as_str() != "run" || !is_name(program) {
        return Err(CommandFault::Usage);
    }
    let Some(steps) = number_of(steps.as_str(), MOST_STEPS) else {
        return Err(CommandFault::Usage);
    };
    let cuts = read_cuts(alloc, cuts)?;
    Ok(Command {
        program,
        steps,
        cuts,
    })
}
