// Texts that are read.
use crate::fixtures::{fault_of_text, tree_of};
use crate::sensor_program::SENSOR_PROGRAM;

// As many operators, parentheses and blocks as there may be, and the forms that the sensor program hasn't.
#[test]
fn a_text_at_the_bounds_is_read(rt: HostRuntime) {
    let cases: [&[u8]; 4] = [
        b"thread t() priority 1 { let a = 1+1+1+1+1+1+1+1+1+1+1+1+1+1+1+1+1+1+1+1+1+1+1+1+1+1+1+1+1+1+1+1+1; }",
        b"thread t() priority 1 { let a = ((((((((((((((((((((((((((((((((((((((((((((((((((((((((((((((((1)))))))))))))))))))))))))))))))))))))))))))))))))))))))))))))))); }",
        b"thread t() priority 1 {if 1{if 1{if 1{if 1{if 1{if 1{if 1{if 1{if 1{if 1{if 1{if 1{if 1{if 1{if 1{if 1{if 1{if 1{if 1{if 1{if 1{if 1{if 1{}}}}}}}}}}}}}}}}}}}}}}}}",
        b"queue q[1]; fn f(a) { a = f(1, 2); f(); return; } thread t(b, c) priority 0 { delete self; setprio 1, 2 -> b; atomic { let r = new K; r.K.v = 1; free r; if 1 { abort; } else { give; } } }",
    ];
    for text in cases {
        assert_eq!(rt; fault_of_text(rt.alloc(), text), None);
    }
}

#[test]
fn all_declarations_are_read(rt: HostRuntime) {
    let tree = tree_of(&rt, rt.alloc(), SENSOR_PROGRAM);
    assert_eq!(rt; tree.decls.len(), 12);
    thread_tree::discard(tree);
}
