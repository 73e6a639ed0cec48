// A program with one byte changed or left out: whatever the text is then, it is accepted or refused with a fault.
ghost use Rattle.std.specs.Prelude.{◌≡◌, ◌<◌, ◌≤◌, ◌-◌, ◌^◌, length, IfOk};

use crate::fixtures::fault_of_tree;
use std::alloc::{AllocError, Global};
use std::test::Fail;
use thread_check::CheckFault;
use thread_text::{TextFault, parse};

const PROGRAM: &[u8] = b"fn f(a) { return a; }\nthread t() priority 1 { print 9; }\n";

const TELLING: &[u8] = b" \n{};=\"a9/-\xff";

/// How a text is answered.
#[derive(Debug, Drop, Clone, Copy, PartialEq)]
enum Outcome {
    Accepted,
    Refused,
    NoMemory,
}

/// How `parse` and then `check` answer a text.
fn answered(alloc: Global, text: &[u8]) -> Outcome
    requires { length text.now < 2 ^ 32 - 1 }
{
    match parse(alloc, text) {
        Ok(tree) => match fault_of_tree(alloc, tree) {
            None => Outcome::Accepted,
            Some(CheckFault::NoMemory) => Outcome::NoMemory,
            Some(_) => Outcome::Refused,
        },
        Err(TextFault::NoMemory) => Outcome::NoMemory,
        Err(_) => Outcome::Refused,
    }
}

/// The text with another byte at this place.
fn changed(alloc: Global, text: &[u8], at: usize, byte: u8) -> Result<Vec<u8>, AllocError>
    requires { at < length text.now }
    ensures { IfOk result (λ other. length other.items ≡ length text.now) }
{
    let mut other = text.to_vec(alloc)?;
    other[at] = byte;
    Ok(other)
}

/// The text without the byte at this place.
fn without(alloc: Global, text: &[u8], at: usize) -> Result<Vec<u8>, AllocError>
    requires { at < length text.now }
    ensures { IfOk result (λ other. length other.items ≤ length text.now) }
{
    let mut other = text.to_vec(alloc)?;
    let _byte = other.remove(at);
    Ok(other)
}

#[test]
fn every_byte_changed(rt: HostRuntime) -> Result<(), Fail> {
    let program = PROGRAM;
    assert!(rt; program.len() < 100);
    assert_eq!(rt; answered(rt.alloc(), program), Outcome::Accepted);
    for at in 0..program.len() {
        for byte in TELLING {
            let text = changed(rt.alloc(), program, at, *byte)?;
            assert_ne!(rt; answered(rt.alloc(), &text), Outcome::NoMemory);
        }
        let text = without(rt.alloc(), program, at)?;
        assert_ne!(rt; answered(rt.alloc(), &text), Outcome::NoMemory);
    }
    Ok(())
}
