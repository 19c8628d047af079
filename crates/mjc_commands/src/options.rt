//! The options of a command, which say how tags and lines of statements begin and end.
use minijinja_compiler::error::Error;
use minijinja_compiler::syntax::{SyntaxConfig, SyntaxConfigBuilder};
use std::alloc::Global;

/// An option, by its word.
#[derive(Clone, Copy)]
enum OptionName {
    Block,
    Variable,
    Comment,
    LineStatement,
    LineComment,
    TrimBlocks,
    LstripBlocks,
    KeepNewline,
}

impl OptionName {
    ghost use Rattle.std.specs.Prelude.{◌≡◌};
    ghost use Rattle.mjc_commands.specs.private.AtOptions.{option_named};

    #[tactic(auto, unfolding(crate::specs::private::AtOptions::option_named))]
    fn of_word(word: &str) -> Option<Self>
        ensures { result ≡ option_named word.now }
    {
        match word {
            "--block" => Some(OptionName::Block),
            "--variable" => Some(OptionName::Variable),
            "--comment" => Some(OptionName::Comment),
            "--line-statement" => Some(OptionName::LineStatement),
            "--line-comment" => Some(OptionName::LineComment),
            "--trim-blocks" => Some(OptionName::TrimBlocks),
            "--lstrip-blocks" => Some(OptionName::LstripBlocks),
            "--keep-newline" => Some(OptionName::KeepNewline),
            _ => None,
        }
    }
}

/// The syntax that options specify. Tags have a start and an end, and an empty prefix is off.
#[derive(Drop)]
pub struct Options<'a> {
    block: (&'a str, &'a str),
    variable: (&'a str, &'a str),
    comment: (&'a str, &'a str),
    line_statement: &'a str,
    line_comment: &'a str,
    trim_blocks: bool,
    lstrip_blocks: bool,
    keep_newline: bool,
}

impl<'a> Options<'a> {
    ghost use Rattle.std.specs.Prelude.{◌≡◌, ◌⊎◌, ◌<◌, length, ◌≤◌, Some, IfOk, IfErr, IfSome, IsErrAnd, OnOk};
    ghost use Rattle.minijinja_syntax.specs.Syntax.{IsBuildable, default_syntax};
    ghost use Rattle.minijinja_syntax.specs.Errors.{IsOutOfMemory, IsInvalidDelimiter};
    ghost use Rattle.mjc_commands.specs.Settings.{texts};
    ghost use Rattle.mjc_commands.specs.Commands.{syntax_of};
    ghost use Rattle.mjc_commands.specs.private.AtOptions.{Takes, first_setting, setting_of};

    /// The options of no words: the syntax of Jinja2.
    pub fn none() -> Self
        ensures { syntax_of result ≡ default_syntax }
    {
        Options {
            block: ("{%", "%}"),
            variable: ("{{", "}}"),
            comment: ("{#", "#}"),
            line_statement: "",
            line_comment: "",
            trim_blocks: false,
            lstrip_blocks: false,
            keep_newline: false,
        }
    }

    /// Applies the option at the start of the words, and returns how many words it takes; `None`
    /// where the words begin with no option.
    pub fn take(&mut self, words: &[&'a str]) -> Option<usize>
        ensures first { Takes (first_setting (texts words.now)) (syntax_of self.old)
            (texts words.now) result (syntax_of self.new) }
        ensures some { IfSome result (λ count. 0 < count) }
        ensures within { IfSome result (λ count. count ≤ length words.now) }
    {
        let (word, behind) = words.split_first()?;
        let name = OptionName::of_word(*word)?;
        let count = self.set(name, behind)?;
        Some(count + 1)
    }

    /// Applies an option with the words after it, and returns how many of them it takes; `None`
    /// where there are too few.
    fn set(&mut self, name: OptionName, words: &[&'a str]) -> Option<usize>
        ensures first { Takes (setting_of (Some name) (texts words.now)) (syntax_of self.old)
            (texts words.now) result (syntax_of self.new) }
        ensures within { IfSome result (λ count. count ≤ length words.now) }
    {
        match (name, words) {
            (OptionName::Block, [start, end, ..]) => {
                self.block = (*start, *end);
                Some(2)
            }
            (OptionName::Variable, [start, end, ..]) => {
                self.variable = (*start, *end);
                Some(2)
            }
            (OptionName::Comment, [start, end, ..]) => {
                self.comment = (*start, *end);
                Some(2)
            }
            (OptionName::LineStatement, [prefix, ..]) => {
                self.line_statement = *prefix;
                Some(1)
            }
            (OptionName::LineComment, [prefix, ..]) => {
                self.line_comment = *prefix;
                Some(1)
            }
            (OptionName::TrimBlocks, _) => {
                self.trim_blocks = true;
                Some(0)
            }
            (OptionName::LstripBlocks, _) => {
                self.lstrip_blocks = true;
                Some(0)
            }
            (OptionName::KeepNewline, _) => {
                self.keep_newline = true;
                Some(0)
            }
            _ => None,
        }
    }

    /// Builds the syntax, if its tags can be told apart.
    pub fn build(&self, alloc: Global) -> Result<SyntaxConfig, Error<'static>>
        ensures value { IfOk result (λ syntax. syntax ≡ syntax_of self.now) }
        ensures refused { IfErr result (λ e. IsInvalidDelimiter e ⊎ IsOutOfMemory e) }
        ensures invalid { ¬ IsBuildable (syntax_of self.now) → IsErrAnd result
            (λ e. IsInvalidDelimiter e ⊎ IsOutOfMemory e) }
        ensures valid { IsBuildable (syntax_of self.now) → IfErr result IsOutOfMemory }
    {
        let mut builder = SyntaxConfig::builder();
        self.set_up(alloc, &mut builder)?;
        builder.build(alloc)
    }

    /// Copies the options to a builder.
    fn set_up(&self, alloc: Global, builder: &mut SyntaxConfigBuilder) -> Result<(), Error<'static>>
        ensures value { OnOk result (builder.new ≡ syntax_of self.now) }
        ensures refused { IfErr result IsOutOfMemory }
    {
        builder.block_delimiters(alloc, self.block.0, self.block.1)?;
        builder.variable_delimiters(alloc, self.variable.0, self.variable.1)?;
        builder.comment_delimiters(alloc, self.comment.0, self.comment.1)?;
        builder.line_statement_prefix(alloc, self.line_statement)?;
        builder.line_comment_prefix(alloc, self.line_comment)?;
        builder
            .trim_blocks(self.trim_blocks)
            .lstrip_blocks(self.lstrip_blocks)
            .keep_trailing_newline(self.keep_newline);
        Ok(())
    }
}
