// Programs that are run.

/// A block that stores a word twice and aborts, and then one that gives.
pub const BLOCKS: &[u8] = b"type T { v }\n\
    object o: T;\n\
    thread t() priority 1 {\n\
    let ok = 9; let x = 9;\n\
    atomic -> ok { o.v = 1; o.v = 2; abort; }\n\
    print ok;\n\
    atomic -> ok, x { o.v = 5; o.v = o.v + 1; give o.v; }\n\
    print ok, \" \", x;\n\
    }\n\
    start t();\n";

/// A block with 65 object operations, one more than it may make.
pub const TOO_MANY_STORES: &[u8] = b"type T { v }\n\
    object o: T;\n\
    thread t() priority 1 { atomic { let i = 0; while i < 65 { o.v = i; i = i + 1; } } }\n\
    start t();\n";

/// A block with as many object operations as it may make.
pub const MOST_STORES: &[u8] = b"type T { v }\n\
    object o: T;\n\
    thread t() priority 1 { atomic { let i = 0; while i < 64 { o.v = i; i = i + 1; } } }\n\
    start t();\n";

/// A block that stores a word and then never ends.
pub const ENDLESS_BLOCK: &[u8] = b"type T { v }\n\
    object o: T;\n\
    thread t() priority 1 { atomic { o.v = 1; while 1 { } } }\n\
    start t();\n";

/// Prints in a block of an `if`, in a function, and behind both.
pub const LOCALS: &[u8] = b"fn show(a, b) { let c = a + b; print c; return c; }\n\
    thread t() priority 1 {\n\
    let x = 3;\n\
    if x { let y = 4; print \"in\"; x = show(x, y); print x; }\n\
    print \"out\";\n\
    }\n\
    start t();\n";

/// Three objects of two types, of which a block changes two by the third, and the second of two threads.
pub const OBJECTS: &[u8] = b"type T { v }\n\
    type U { w }\n\
    object o: T;\n\
    object p: U;\n\
    object q: T;\n\
    thread a() priority 1 { print \"a\"; }\n\
    thread b() priority 3 {\n\
    let ok = 0; let d = 0; let e = 0;\n\
    atomic -> ok, d, e {\n\
    o.v = 7; q.v = o.v * o.v;\n\
    if p.w { abort; } else { p.w = q.v % 10; }\n\
    give p.w, q.v;\n\
    }\n\
    print d, \"<\", e;\n\
    return;\n\
    }\n\
    start b();\n";

/// A thread that never comes to an action.
pub const ENDLESS: &[u8] = b"thread t() priority 1 { while 1 { } } start t();";

/// A thread that prints for ever.
pub const ENDLESS_PRINTS: &[u8] = b"thread t() priority 1 { while 1 { print \"x\"; } } start t();";

/// Fills the console but for two bytes, prints a line that has no room, and then its answer.
pub const FILLING: &[u8] = b"thread t() priority 1 {\n\
    let ok = 9; let n = 0;\n\
    while n < 127 { print \"xxxxxxxxxxxxxxxxxxxxxxxxxxxxxxxxxxxxxxxxxxxxxxxxxxxxxxxxxxxxxxxx\" -> ok; n = n + 1; }\n\
    print ok;\n\
    }\n\
    start t();\n";

/// A thread that ends at once.
pub const NOTHING: &[u8] = b"thread t() priority 1 {\n}\nstart t();\n";

/// A thread of another name and priority, spelled with more spaces and a comment.
pub const SPELLED: &[u8] =
    b"thread alpha_7 ( ) priority 07 { print \"x\" ; } // behind\nstart alpha_7();";

/// Operators at their limits.
pub const OPERATORS: &[u8] =
    b"thread t() priority 1 { print 7 / 0, \" \", 7 % 0, \" \", 0 - 1, \" \", 1 << 33; } start t();";

/// A call of a function.
pub const CALL: &[u8] =
    b"fn f(a) { return a * 2; } thread t() priority 1 { let x = 0; x = f(4); print x; } start t();";
