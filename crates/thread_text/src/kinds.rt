ghost use Rattle.std.specs.Prelude.{◌≡◌};
ghost use Rattle.std.specs.Option.{option_copied};
ghost use Rattle.thread_tree.specs.Grammar.{is_mark, is_word};
ghost use Rattle.thread_text.specs.Kinds.{name_in, number_in, word_in, operator_in, text_in};

use thread_tree::{Mark, Op, Text, Token, Word};

/// Whether the token is this mark.
#[tactic(auto, using(grammar_laws::proofs::Callers::same_mark), unfolding(thread_tree::specs::Grammar::is_mark))]
pub fn is_mark(token: &Token, mark: Mark) -> bool
    ensures value { result ≡ is_mark mark token.now }
{
    match token {
        Token::Mark(found) => mark == *found,
        Token::Name(_) => false,
        Token::Number(_) => false,
        Token::Text(_) => false,
        Token::Word(_) => false,
        Token::Operator(_) => false,
    }
}

/// Whether the token is this word.
#[tactic(auto, using(grammar_laws::proofs::Callers::same_word), unfolding(thread_tree::specs::Grammar::is_word))]
pub fn is_word(token: &Token, word: Word) -> bool
    ensures value { result ≡ is_word word token.now }
{
    match token {
        Token::Word(found) => word == *found,
        Token::Name(_) => false,
        Token::Number(_) => false,
        Token::Text(_) => false,
        Token::Mark(_) => false,
        Token::Operator(_) => false,
    }
}

/// The token's name, where it is one.
#[tactic(auto, unfolding(crate::specs::Kinds::name_in))]
pub fn name_in(token: &Token) -> Option<u32>
    ensures value { result ≡ name_in token.now }
{
    match token {
        Token::Name(name) => Some(*name),
        Token::Number(_) => None,
        Token::Text(_) => None,
        Token::Word(_) => None,
        Token::Mark(_) => None,
        Token::Operator(_) => None,
    }
}

/// The token's number, where it is one.
#[tactic(auto, unfolding(crate::specs::Kinds::number_in))]
pub fn number_in(token: &Token) -> Option<u32>
    ensures value { result ≡ number_in token.now }
{
    match token {
        Token::Number(number) => Some(*number),
        Token::Name(_) => None,
        Token::Text(_) => None,
        Token::Word(_) => None,
        Token::Mark(_) => None,
        Token::Operator(_) => None,
    }
}

/// The token's word, where it is one.
#[tactic(auto, unfolding(crate::specs::Kinds::word_in))]
pub fn word_in(token: &Token) -> Option<Word>
    ensures value { result ≡ word_in token.now }
{
    match token {
        Token::Word(word) => Some(*word),
        Token::Name(_) => None,
        Token::Number(_) => None,
        Token::Text(_) => None,
        Token::Mark(_) => None,
        Token::Operator(_) => None,
    }
}

/// The token's operator, where it is one.
#[tactic(auto, unfolding(crate::specs::Kinds::operator_in))]
pub fn operator_in(token: &Token) -> Option<Op>
    ensures value { result ≡ operator_in token.now }
{
    match token {
        Token::Operator(operator) => Some(*operator),
        Token::Name(_) => None,
        Token::Number(_) => None,
        Token::Text(_) => None,
        Token::Word(_) => None,
        Token::Mark(_) => None,
    }
}

/// The token's string, where it is one.
#[tactic(auto, unfolding(crate::specs::Kinds::text_in))]
pub fn text_in(token: &Token) -> Option<&Text>
    ensures value { option_copied result ≡ text_in token.now }
{
    match token {
        Token::Text(text) => Some(text),
        Token::Name(_) => None,
        Token::Number(_) => None,
        Token::Word(_) => None,
        Token::Mark(_) => None,
        Token::Operator(_) => None,
    }
}
