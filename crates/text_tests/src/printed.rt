// The canonical text of a program.
use crate::fixtures::tree_of;
use thread_print::print_tree;

// A text with fewer spaces and parentheses, read and printed.
#[test]
fn a_program_is_printed(rt: HostRuntime) {
    let tree = tree_of(&rt, rt.alloc(), b"thread t()priority 1{print 1+2*3;}");
    let text = print_tree(rt.alloc(), &tree);
    thread_tree::discard(tree);
    let line = b"thread t ( ) priority 1 { print 1 + ( 2 * 3 ) ; }\n";
    match text {
        Ok(text) => assert_eq!(rt; text.as_slice(), line.as_slice()),
        Err(_) => panic!(rt; "no memory"),
    }
}
