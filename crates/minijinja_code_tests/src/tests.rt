//! Tests of code that is made call by call. What the generator makes of texts stands in the tests
//! of the program.
mod building;
mod codegen;
mod instructions;
mod memory;

use minijinja_code::codegen::CodeGenerator;
use minijinja_code::instructions::Instructions;
use minijinja_value::value::Value;
use std::test::Fail;

/// The list of a generator in which nothing is open.
fn finished<'s>(generator: CodeGenerator<'s, Value>) -> Result<Instructions<'s, Value>, Fail> {
    if !generator.is_closed() {
        return Err(Fail::from("something is open"));
    }
    let (code, _) = generator.finish();
    Ok(code)
}
