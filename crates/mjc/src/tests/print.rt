//! The printed form of each kind of token.
use minijinja_compiler::tokens::Token;
use mjc_commands::PrintedToken;
use std::process::Abort;
use std::test::Fail;

#[test]
fn tokens_are_printed_by_name_and_part(rt: HostRuntime) -> Result<(), Fail> {
    let decoded = String::from_str(rt.alloc(), "a\n\"b\\")?;
    let large = Box::new(rt.alloc(), u128::MAX)?;
    let rows = [
        (Token::TemplateData("a\t\r"), "TemplateData(\"a\\t\\r\")"),
        (Token::VariableStart, "VariableStart"),
        (Token::BlockEnd, "BlockEnd"),
        (Token::Ident("name"), "Ident(\"name\")"),
        (Token::Str("'"), "Str(\"'\")"),
        (Token::String(decoded), "String(\"a\\n\\\"b\\\\\")"),
        (Token::Int(7), "Int(7)"),
        (
            Token::Int128(large),
            "Int128(340282366920938463463374607431768211455)",
        ),
        (Token::FloorDiv, "FloorDiv"),
        (Token::BracketOpen, "BracketOpen"),
        (Token::BraceClose, "BraceClose"),
    ];
    for (token, printed) in &rows {
        let text = PrintedToken(token).to_string(rt.alloc())?;
        assert_eq!(rt; text.as_str(), *printed);
    }
    Ok(())
}
