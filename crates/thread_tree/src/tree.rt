use crate::{At, Block, List, Name, Num, Place};

/// A program: the distinct names of its text in order of their first place, and its declarations.
#[derive(Debug, Drop)]
pub struct Tree {
    pub names: List<Name>,
    pub decls: List<Decl>,
}

/// A declaration.
#[derive(Debug, Drop)]
pub enum Decl {
    Kind(At, List<At>),
    Object(At, At),
    Queue(At, Num, Option<Num>),
    Semaphore(At, Num, Num),
    Function(At, List<At>, Block),
    Thread(At, List<At>, Num, Block),
    Start(Place, At, List<Num>),
}

/// Lets a program's tree go. Where a function lets one go by itself, the walk through all that the tree owns is proved
/// there again, so callers that only try a program give its tree to this.
pub fn discard(_tree: Tree) {}
