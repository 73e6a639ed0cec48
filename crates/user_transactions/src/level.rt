use thread_tree::Expr;

/// What a block is: the whole of an `atomic` block, one in a statement, or that of a loop with this test.
#[derive(Clone, Copy)]
pub(crate) enum Level<'a> {
    Body,
    Inner,
    Turn(&'a Expr),
}
