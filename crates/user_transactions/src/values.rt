// The values of operators and of locals.
ghost use Rattle.std.specs.Prelude.{◌≡◌};
ghost use Rattle.thread_tree.specs.Value.{applied, truth, value_in};

use thread_tree::{Local, Op};

/// The value of the local of this name; 0 where none has the name.
pub(crate) fn lookup(locals: &[Local], name: u32) -> u32
    ensures value { result ≡ value_in locals.now name }
{
    for local in locals {
        if local.name == name {
            return local.value;
        }
    }
    0
}

// A truth value as a number.
fn number_of(value: bool) -> u32
    ensures value { result ≡ truth value }
{
    if value { 1 } else { 0 }
}

/// The value of an operator between two values; a prefix takes the second alone.
pub(crate) fn apply(op: Op, x: u32, y: u32) -> u32
    ensures value { result ≡ applied op x y }
{
    match op {
        Op::Or => x | y,
        Op::Xor => x ^ y,
        Op::And => x & y,
        Op::Same => number_of(x == y),
        Op::Other => number_of(x != y),
        Op::Less => number_of(x < y),
        Op::AtMost => number_of(x <= y),
        Op::More => number_of(x > y),
        Op::AtLeast => number_of(x >= y),
        Op::Left => x.wrapping_shl(y),
        Op::Right => x.wrapping_shr(y),
        Op::Plus => x.wrapping_add(y),
        Op::Minus => x.wrapping_sub(y),
        Op::Times => x.wrapping_mul(y),
        Op::Over => if y == 0 { u32::MAX } else { x / y },
        Op::Rest => if y == 0 { x } else { x % y },
        Op::Not => number_of(y == 0),
        Op::Flip => !y,
    }
}
