use crate::Ending;
use thread_tree::{List, Name, Placed};

/// The tokens of a text before their ending, and the distinct names among them in order of their first place.
#[derive(Debug, Drop)]
pub struct Scanned {
    pub tokens: Vec<Placed>,
    pub names: List<Name>,
    pub ending: Ending,
}
