//! How places are printed, and that tokens and details of errors can be compared.
use minijinja_syntax::error::{Detail, Expected};
use minijinja_syntax::tokens::{Span, Token};
use std::test::Fail;

#[test]
fn spans_are_printed_by_line_and_column(rt: HostRuntime) -> Result<(), Fail> {
    let most = Span {
        start_line: u16::MAX,
        start_col: u16::MAX,
        start_offset: u32::MAX,
        end_line: u16::MAX,
        end_col: u16::MAX,
        end_offset: u32::MAX,
    };
    let third_line = Span {
        start_line: 3,
        start_col: 4,
        start_offset: 12,
        end_line: 5,
        end_col: 6,
        end_offset: 31,
    };
    let words = format!(in rt.alloc(); "{:?}{third_line:?}{most:?}", Span::default())?;
    assert!(rt; words.as_str() == " @ 0:0-0:0 @ 3:4-5:6 @ 65535:65535-65535:65535");
    Ok(())
}

#[test]
fn tokens_and_details_can_be_compared(rt: HostRuntime) {
    assert!(rt; Token::Ident("a") == Token::Ident("a"));
    assert!(rt; Token::Ident("a") != Token::Str("a"));
    assert!(rt; Token::Int(1) != Token::Int(2));
    let (end, token) = (
        Detail::UnexpectedEnd(Expected::BlockEnd),
        Detail::UnexpectedToken {
            expected: Expected::BlockEnd,
            found: "x",
        },
    );
    assert!(rt; end == end && end != token);
}
