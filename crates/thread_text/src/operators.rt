ghost use Rattle.std.specs.Prelude.{◌≡◌};
ghost use Rattle.thread_tree.specs.Grammar.{is_prefix};
ghost use Rattle.thread_tree.specs.Levels.{level_of, binding};

use thread_tree::{Op, Token};

/// The level of an operator between two operands, from 1, the loosest, to 7; a prefix has 0.
#[tactic(auto, unfolding(thread_tree::specs::Levels::level_of))]
pub fn level_of(op: Op) -> u32
    ensures value { result ≡ level_of op }
{
    match op {
        Op::Or => 1,
        Op::Xor => 2,
        Op::And => 3,
        Op::Same => 4,
        Op::Other => 4,
        Op::Less => 4,
        Op::AtMost => 4,
        Op::More => 4,
        Op::AtLeast => 4,
        Op::Left => 5,
        Op::Right => 5,
        Op::Plus => 6,
        Op::Minus => 6,
        Op::Times => 7,
        Op::Over => 7,
        Op::Rest => 7,
        Op::Not => 0,
        Op::Flip => 0,
    }
}

/// The level of a token, 0 where it is no operator between two operands.
#[tactic(auto, unfolding(thread_tree::specs::Levels::binding))]
pub fn binding(token: &Token) -> u32
    ensures value { result ≡ binding token.now }
{
    match token {
        Token::Operator(op) => level_of(*op),
        Token::Name(_) => 0,
        Token::Number(_) => 0,
        Token::Text(_) => 0,
        Token::Word(_) => 0,
        Token::Mark(_) => 0,
    }
}

/// Whether the token is a prefix.
#[tactic(auto, unfolding(thread_tree::specs::Grammar::is_prefix, thread_tree::specs::Grammar::prefixes))]
pub fn is_prefix(token: &Token) -> bool
    ensures value { result ≡ is_prefix token.now }
{
    match token {
        Token::Operator(Op::Not) => true,
        Token::Operator(Op::Flip) => true,
        Token::Operator(_) => false,
        Token::Name(_) => false,
        Token::Number(_) => false,
        Token::Text(_) => false,
        Token::Word(_) => false,
        Token::Mark(_) => false,
    }
}
