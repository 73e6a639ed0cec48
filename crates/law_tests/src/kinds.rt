// The table of the actions' kinds, and of the words that each leaves in its thread's records.
use kernel_model::{kind_of, record_words};
use thread_tree::{Block, Call, List, Place, Stmt, result_count};

const HERE: Place = Place { line: 1, column: 1 };

// The kind of a call or of a persistent loop.
fn kind(stmt: &Stmt) -> Option<u32> {
    match stmt {
        Stmt::Call(_, _, _) => Some(kind_of(stmt)),
        Stmt::Ploop(_, _) => Some(kind_of(stmt)),
        _ => None,
    }
}

// The kinds of two calls and of a persistent loop.
#[test]
fn kinds_of_actions(rt: HostRuntime) {
    let now = Stmt::Call(HERE, Call::Now, List::of(Vec::new(rt.alloc())));
    assert_eq!(rt; kind(&now), Some(11));
    drop(now);
    let wait = Stmt::Call(HERE, Call::Yield, List::of(Vec::new(rt.alloc())));
    assert_eq!(rt; kind(&wait), Some(12));
    drop(wait);
    let stmts = List::of(Vec::new(rt.alloc()));
    let persistent = Stmt::Ploop(HERE, Block { place: HERE, stmts });
    assert_eq!(rt; kind(&persistent), Some(14));
    drop(persistent);
}

// How many words each kind leaves, from the first kind to the last.
#[test]
fn the_whole_table(rt: HostRuntime) {
    let words = [2, 2, 2, 1, 2, 2, 2, 3, 2, 2, 2, 1, 2, 0, 0, 2];
    for (before, want) in words.iter().enumerate() {
        let kind = before as u32 + 1;
        assert_eq!(rt; record_words(kind, 0), *want, "at kind {kind}");
    }
}

// How many results the kinds have that have not one, and what is no kind.
#[test]
fn results_of_the_kinds(rt: HostRuntime) {
    let rows = [(4, 0), (8, 2), (12, 0), (14, 0), (15, 0), (16, 4), (17, 0)];
    for (kind, want) in rows {
        assert_eq!(rt; result_count(kind, 3), want, "at kind {kind}");
    }
}

// Words that are given count for a block of `atomic`, and for no other kind.
#[test]
fn given_words_count_for_atomic_alone(rt: HostRuntime) {
    assert_eq!(rt; record_words(16, 3), 5);
    assert_eq!(rt; record_words(8, 3), 3);
    assert_eq!(rt; record_words(14, 3), 0);
}
