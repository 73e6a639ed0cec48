// The tokens of texts.
use std::test::Fail;
use thread_tokens::{Ending, scan};
use thread_tree::{Op, Place, Placed, Token, Word};

// A comment holds names, a number begins with a zero, and a name stands twice.
#[test]
fn a_text_is_taken_apart(rt: HostRuntime) -> Result<(), Fail> {
    let text = b"let a = 07 <= b; // a, b and \"a string\"\nprint \"a\", a;\n";
    let scanned = scan(rt.alloc(), text)?;
    assert_eq!(rt; scanned.tokens.len(), 12);
    assert_eq!(rt; scanned.names.len(), 2);
    assert_eq!(rt; scanned.names.get(1).bytes.as_slice(), b"b".as_slice());
    let end = Place { line: 3, column: 1 };
    assert_eq!(rt; scanned.ending, Ending::End(end));
    let tokens = scanned.tokens.as_slice();
    assert!(rt; matches!(tokens[0].token, Token::Word(Word::Let)));
    assert!(rt; matches!(tokens[3].token, Token::Number(7)));
    assert!(rt; matches!(tokens[4].token, Token::Operator(Op::AtMost)));
    let last = Place {
        line: 2,
        column: 12,
    };
    assert!(rt; matches!(tokens[10], Placed { token: Token::Name(0), place } if place == last));
    Ok(())
}

// Each kind of ending but the text's end, behind one token.
#[test]
fn a_text_ends_at_a_fault(rt: HostRuntime) -> Result<(), Fail> {
    let second = Place { line: 1, column: 3 };
    let cases: [(&[u8], Ending); 4] = [
        (b"; @", Ending::BadToken(second)),
        (b"; \"a\nb\"", Ending::BadToken(second)),
        (b"; 4294967296", Ending::NumberTooLarge(second)),
        (b"; abcdefghijklmnopqrstuvwxy", Ending::TooLong(second)),
    ];
    for (text, ending) in cases {
        let scanned = scan(rt.alloc(), text)?;
        assert_eq!(rt; scanned.tokens.len(), 1);
        assert_eq!(rt; scanned.ending, ending);
    }
    Ok(())
}
