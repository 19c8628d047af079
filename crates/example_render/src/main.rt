//! The program `example_render`, which renders templates: an example of a machine that runs the
//! instructions of the compiler. Templates stand in files, and in its input below a line `=== NAME`.
#![tactic(auto)]

mod calls;
mod filters;
mod loops;
mod machine;
mod pages;
mod scopes;
mod texts;
mod values;

use anyhow::{Result, bail};
use minijinja_compiler::compile::{Compiled, compile};
use minijinja_compiler::syntax::SyntaxConfig;
use std::alloc::Global;
use std::env;
use std::fs::File;
use std::io::Read;

/// Compiles a template in the default syntax, and adds it to others.
fn add<'s>(
    alloc: Global,
    templates: &mut Vec<Compiled<'s>>,
    name: &'s str,
    text: &'s str,
) -> Result<()> {
    match compile(alloc, text, name, &SyntaxConfig::default()) {
        Ok(template) => Ok(templates.push(template)?),
        Err(error) => bail!("{error}"),
    }
}

/// The text of a file.
fn read(rt: &HostRuntime, name: &str) -> Result<String> {
    let mut text = String::new(rt.alloc());
    File::open(rt, name)?.read_to_string(&mut text)?;
    Ok(text)
}

/// The text of each file.
fn read_all(rt: &HostRuntime, names: &[String]) -> Result<Vec<String>> {
    let mut texts = Vec::new(rt.alloc());
    for name in names {
        let text = read(rt, name.as_str())?;
        texts.push(text)?;
    }
    Ok(texts)
}

/// Compiles the templates of the input and those of files, and renders the first.
fn rendered(alloc: Global, input: &str, names: &[String], texts: &[String]) -> Result<String> {
    let mut templates = Vec::new(alloc);
    for part in input.split("=== ").skip(1) {
        let (name, text) = part.split_once('\n').unwrap_or((part, ""));
        add(alloc, &mut templates, name, text)?;
    }
    for (name, text) in names.iter().zip(texts) {
        add(alloc, &mut templates, name.as_str(), text.as_str())?;
    }
    machine::render(alloc, &templates)
}

fn main(rt: HostRuntime) -> Result<()> {
    let names: Vec<String> = env::args(&rt)?.skip(1).collect(rt.alloc())?;
    let texts = read_all(&rt, &names)?;
    let mut input = String::new(rt.alloc());
    rt.stdin().read_to_string(&mut input)?;
    let output = rendered(rt.alloc(), input.as_str(), &names, &texts)?;
    Ok(rt.println(output.as_str())?)
}
