//! The syntax: how tags and line statements begin and end, and where the next one of a text begins.
ghost use Rattle.std.specs.Prelude.{◌≡◌, ◌<◌, ◌↔◌, length, IsSome, IfSome, IfOk};
ghost use Rattle.minijinja_syntax.specs.private.Delimiters.{delimiter_text};
ghost use Rattle.minijinja_syntax.specs.Syntax.{start_of, default_syntax};

mod markers;

use crate::delimiter::{Delimiter, Standard};
use crate::error::Error;
use crate::syntax::markers::find_default_marker;
pub use crate::syntax::markers::stands_at;
use std::alloc::{AllocError, Global};
use std::marker::Model;

/// What a start marker begins.
#[derive(Clone, Copy, Debug, PartialEq, Eq)]
pub enum StartMarker {
    /// A variable tag, by default `{{`.
    Variable,
    /// A block tag, by default `{%`.
    Block,
    /// A comment, by default `{#`.
    Comment,
    /// A line that is a statement; by default there are none.
    LineStatement,
    /// A comment up to the end of its line; by default there are none.
    LineComment,
}

const MARKERS: [StartMarker; 5] = [
    StartMarker::Variable,
    StartMarker::Block,
    StartMarker::Comment,
    StartMarker::LineStatement,
    StartMarker::LineComment,
];

const DELIMITED: [StartMarker; 3] = [
    StartMarker::Variable,
    StartMarker::Block,
    StartMarker::Comment,
];

/// Each two start markers once.
const PAIRS: [(StartMarker, StartMarker); 10] = [
    (StartMarker::Variable, StartMarker::Block),
    (StartMarker::Variable, StartMarker::Comment),
    (StartMarker::Variable, StartMarker::LineStatement),
    (StartMarker::Variable, StartMarker::LineComment),
    (StartMarker::Block, StartMarker::Comment),
    (StartMarker::Block, StartMarker::LineStatement),
    (StartMarker::Block, StartMarker::LineComment),
    (StartMarker::Comment, StartMarker::LineStatement),
    (StartMarker::Comment, StartMarker::LineComment),
    (StartMarker::LineStatement, StartMarker::LineComment),
];

/// The fields of a syntax, which a builder may leave in a state that is refused. An empty prefix is
/// off.
#[derive(Drop)]
struct Settings {
    block_start: Delimiter,
    block_end: Delimiter,
    variable_start: Delimiter,
    variable_end: Delimiter,
    comment_start: Delimiter,
    comment_end: Delimiter,
    line_statement: Delimiter,
    line_comment: Delimiter,
    trim_blocks: bool,
    lstrip_blocks: bool,
    keep_trailing_newline: bool,
}

/// What a marker is by default; an empty prefix is off.
fn default_start(marker: StartMarker) -> &'static str
    ensures { result.now ≡ start_of default_syntax marker }
{
    match marker {
        StartMarker::Variable => "{{",
        StartMarker::Block => "{%",
        StartMarker::Comment => "{#",
        StartMarker::LineStatement | StartMarker::LineComment => "",
    }
}

impl Settings {
    ghost use Rattle.std.specs.Prelude.{◌≡◌, ◌↔◌, IsTrue, IfOk, All};
    ghost use Rattle.minijinja_syntax.specs.Syntax.{AreApart, HasBoth, IsBuildable, default_syntax, start_of, end_of};
    ghost use Rattle.minijinja_syntax.specs.private.SyntaxFields.{syntax_of};
    ghost use Rattle.minijinja_syntax.specs.private.DefaultStarts.{HasDefaultStarts};

    #[tactic(auto, unfolding(crate::specs::private::Delimiters::delimiter_text))]
    fn of_jinja() -> Self
        ensures { syntax_of result ≡ default_syntax }
    {
        Settings {
            block_start: Delimiter::Standard(Standard::BlockStart),
            block_end: Delimiter::Standard(Standard::BlockEnd),
            variable_start: Delimiter::Standard(Standard::VariableStart),
            variable_end: Delimiter::Standard(Standard::VariableEnd),
            comment_start: Delimiter::Standard(Standard::CommentStart),
            comment_end: Delimiter::Standard(Standard::CommentEnd),
            line_statement: Delimiter::Standard(Standard::Off),
            line_comment: Delimiter::Standard(Standard::Off),
            trim_blocks: false,
            lstrip_blocks: false,
            keep_trailing_newline: false,
        }
    }

    fn copied(&self, alloc: Global) -> Result<Self, AllocError>
        ensures { IfOk result (λ copy. syntax_of copy ≡ syntax_of self.now) }
    {
        Ok(Settings {
            block_start: self.block_start.copied(alloc)?,
            block_end: self.block_end.copied(alloc)?,
            variable_start: self.variable_start.copied(alloc)?,
            variable_end: self.variable_end.copied(alloc)?,
            comment_start: self.comment_start.copied(alloc)?,
            comment_end: self.comment_end.copied(alloc)?,
            line_statement: self.line_statement.copied(alloc)?,
            line_comment: self.line_comment.copied(alloc)?,
            trim_blocks: self.trim_blocks,
            lstrip_blocks: self.lstrip_blocks,
            keep_trailing_newline: self.keep_trailing_newline,
        })
    }

    fn try_clone(&self) -> Result<Self, AllocError>
        ensures { IfOk result (λ copy. syntax_of copy ≡ syntax_of self.now) }
    {
        Ok(Settings {
            block_start: self.block_start.cloned()?,
            block_end: self.block_end.cloned()?,
            variable_start: self.variable_start.cloned()?,
            variable_end: self.variable_end.cloned()?,
            comment_start: self.comment_start.cloned()?,
            comment_end: self.comment_end.cloned()?,
            line_statement: self.line_statement.cloned()?,
            line_comment: self.line_comment.cloned()?,
            trim_blocks: self.trim_blocks,
            lstrip_blocks: self.lstrip_blocks,
            keep_trailing_newline: self.keep_trailing_newline,
        })
    }

    fn start_of(&self, marker: StartMarker) -> &str
        ensures { result.now ≡ start_of (syntax_of self.now) marker }
    {
        match marker {
            StartMarker::Variable => self.variable_start.as_str(),
            StartMarker::Block => self.block_start.as_str(),
            StartMarker::Comment => self.comment_start.as_str(),
            StartMarker::LineStatement => self.line_statement.as_str(),
            StartMarker::LineComment => self.line_comment.as_str(),
        }
    }

    fn end_of(&self, marker: StartMarker) -> &str
        ensures { result.now ≡ end_of (syntax_of self.now) marker }
    {
        match marker {
            StartMarker::Variable => self.variable_end.as_str(),
            StartMarker::Block => self.block_end.as_str(),
            StartMarker::Comment => self.comment_end.as_str(),
            StartMarker::LineStatement | StartMarker::LineComment => "",
        }
    }

    fn are_apart(&self, marker: StartMarker, other: StartMarker) -> bool
        ensures { IsTrue result ↔ AreApart (syntax_of self.now) marker other }
    {
        let start = self.start_of(marker);
        start.is_empty() || start != self.start_of(other)
    }

    fn are_all_apart(&self, pairs: &[(StartMarker, StartMarker)]) -> bool
        ensures { IsTrue result ↔ All (λ pair. AreApart (syntax_of self.now) pair.0 pair.1)
            pairs.now }
    {
        pairs.iter().all(|pair| self.are_apart(pair.0, pair.1))
    }

    fn has_both(&self, marker: StartMarker) -> bool
        ensures { IsTrue result ↔ HasBoth (syntax_of self.now) marker }
    {
        !self.start_of(marker).is_empty() && !self.end_of(marker).is_empty()
    }

    fn have_both(&self, markers: &[StartMarker]) -> bool
        ensures { IsTrue result ↔ All (HasBoth (syntax_of self.now)) markers.now }
    {
        markers.iter().all(|marker| self.has_both(*marker))
    }

    fn starts_by_default(&self, marker: StartMarker) -> bool
        ensures { IsTrue result ↔
            (start_of (syntax_of self.now) marker ≡ start_of default_syntax marker) }
    {
        self.start_of(marker) == default_start(marker)
    }

    fn all_start_by_default(&self, markers: &[StartMarker]) -> bool
        ensures { IsTrue result ↔ All
            (λ m. start_of (syntax_of self.now) m ≡ start_of default_syntax m) markers.now }
    {
        markers.iter().all(|marker| self.starts_by_default(*marker))
    }

    /// Whether tags begin as by default, and both prefixes are off.
    fn has_default_starts(&self) -> bool
        ensures { IsTrue result ↔ HasDefaultStarts (syntax_of self.now) }
    {
        self.all_start_by_default(&MARKERS)
    }

    fn is_buildable(&self) -> bool
        ensures { IsTrue result ↔ IsBuildable (syntax_of self.now) }
    {
        self.have_both(&DELIMITED) && self.are_all_apart(&PAIRS)
    }
}

/// Sets how tags and line statements begin and end, starting with the default syntax or with
/// another. A setter that copies a text leaves the builder as it was if memory is refused.
#[derive(Drop)]
pub struct SyntaxConfigBuilder {
    settings: Settings,
}

impl Model for SyntaxConfigBuilder {
    ghost use Rattle.minijinja_syntax.specs.Syntax.{Syntax};

    ghost Value = { Syntax };

    ghost use Rattle.minijinja_syntax.specs.private.SyntaxFields.{syntax_of};

    ghost view = { λ a. syntax_of a.settings };
}

impl SyntaxConfigBuilder {
    ghost use Rattle.std.specs.Prelude.{◌≡◌, ◌⊎◌, IfOk, IfErr, OnOk, OnErr, IsErrAnd};
    ghost use Rattle.minijinja_syntax.specs.Syntax.{IsBuildable};
    ghost use Rattle.minijinja_syntax.specs.Errors.{IsOutOfMemory, IsInvalidDelimiter};

    /// Sets the start and the end of block tags.
    pub fn block_delimiters(
        &mut self,
        alloc: Global,
        start: &str,
        end: &str,
    ) -> Result<(), Error<'static>>
        ensures ok { OnOk result
            (self.new ≡ record self.old { block_start = start.now; block_end = end.now }) }
        ensures err { OnErr result (self.new ≡ self.old) }
        ensures memory { IfErr result IsOutOfMemory }
    {
        let start = Delimiter::new(alloc, start)?;
        let end = Delimiter::new(alloc, end)?;
        self.settings.block_start = start;
        self.settings.block_end = end;
        Ok(())
    }

    /// Sets the start and the end of variable tags.
    pub fn variable_delimiters(
        &mut self,
        alloc: Global,
        start: &str,
        end: &str,
    ) -> Result<(), Error<'static>>
        ensures ok { OnOk result
            (self.new ≡ record self.old { variable_start = start.now; variable_end = end.now }) }
        ensures err { OnErr result (self.new ≡ self.old) }
        ensures memory { IfErr result IsOutOfMemory }
    {
        let start = Delimiter::new(alloc, start)?;
        let end = Delimiter::new(alloc, end)?;
        self.settings.variable_start = start;
        self.settings.variable_end = end;
        Ok(())
    }

    /// Sets the start and the end of comments.
    pub fn comment_delimiters(
        &mut self,
        alloc: Global,
        start: &str,
        end: &str,
    ) -> Result<(), Error<'static>>
        ensures ok { OnOk result
            (self.new ≡ record self.old { comment_start = start.now; comment_end = end.now }) }
        ensures err { OnErr result (self.new ≡ self.old) }
        ensures memory { IfErr result IsOutOfMemory }
    {
        let start = Delimiter::new(alloc, start)?;
        let end = Delimiter::new(alloc, end)?;
        self.settings.comment_start = start;
        self.settings.comment_end = end;
        Ok(())
    }

    /// Sets what a line that is a statement begins with; the empty text turns such lines off.
    pub fn line_statement_prefix(
        &mut self,
        alloc: Global,
        prefix: &str,
    ) -> Result<(), Error<'static>>
        ensures ok { OnOk result (self.new ≡ record self.old { line_statement = prefix.now }) }
        ensures err { OnErr result (self.new ≡ self.old) }
        ensures memory { IfErr result IsOutOfMemory }
    {
        let prefix = Delimiter::new(alloc, prefix)?;
        self.settings.line_statement = prefix;
        Ok(())
    }

    /// Sets what a comment up to the end of its line begins with; the empty text turns such
    /// comments off.
    pub fn line_comment_prefix(&mut self, alloc: Global, prefix: &str) -> Result<(), Error<'static>>
        ensures ok { OnOk result (self.new ≡ record self.old { line_comment = prefix.now }) }
        ensures err { OnErr result (self.new ≡ self.old) }
        ensures memory { IfErr result IsOutOfMemory }
    {
        let prefix = Delimiter::new(alloc, prefix)?;
        self.settings.line_comment = prefix;
        Ok(())
    }

    /// Whether the first line end after a block tag is removed.
    pub fn trim_blocks(&mut self, yes: bool) -> &mut Self
        ensures same_builder { result.ghost_name ≡ self.entry.ghost_name }
        ensures value { result.now ≡ record self.old { trim_blocks = yes } }
    {
        self.settings.trim_blocks = yes;
        self
    }

    /// Whether the whitespace between the start of a line and a tag that prints nothing is removed.
    pub fn lstrip_blocks(&mut self, yes: bool) -> &mut Self
        ensures same_builder { result.ghost_name ≡ self.entry.ghost_name }
        ensures value { result.now ≡ record self.old { lstrip_blocks = yes } }
    {
        self.settings.lstrip_blocks = yes;
        self
    }

    /// Whether a line end at the end of a text stays.
    pub fn keep_trailing_newline(&mut self, yes: bool) -> &mut Self
        ensures same_builder { result.ghost_name ≡ self.entry.ghost_name }
        ensures value { result.now ≡ record self.old { keep_trailing_newline = yes } }
    {
        self.settings.keep_trailing_newline = yes;
        self
    }

    /// The syntax, if no delimiter is empty and no two starts are equal. The builder can be used
    /// further.
    pub fn build(&self, alloc: Global) -> Result<SyntaxConfig, Error<'static>>
        ensures value { IfOk result (λ syntax. syntax ≡ self.now) }
        ensures built { OnOk result (IsBuildable self.now) }
        ensures refused { IfErr result (λ e. IsInvalidDelimiter e ⊎ IsOutOfMemory e) }
        ensures invalid { ¬ IsBuildable self.now → IsErrAnd result IsInvalidDelimiter }
        ensures valid { IsBuildable self.now → IfErr result IsOutOfMemory }
    {
        if self.settings.is_buildable() {
            Ok(SyntaxConfig {
                settings: self.settings.copied(alloc)?,
                has_default_starts: self.settings.has_default_starts(),
            })
        } else {
            Err(Error::invalid_delimiter())
        }
    }
}

/// How tags and line statements begin and end. The default is that of Jinja2: `{% %}` for blocks,
/// `{{ }}` for variables and `{# #}` for comments, no prefixes, and no flag set.
#[derive(Drop)]
pub struct SyntaxConfig {
    settings: Settings,
    /// Whether all start markers begin with `{`, so that a search can look for that byte.
    has_default_starts: bool,
}

impl Model for SyntaxConfig {
    ghost use Rattle.minijinja_syntax.specs.Syntax.{Syntax, IsBuildable};

    ghost Value = { Syntax };

    ghost use Rattle.minijinja_syntax.specs.private.SyntaxFields.{syntax_of};
    ghost use Rattle.minijinja_syntax.specs.private.DefaultStarts.{MayBeSearched};

    ghost view = { λ a. syntax_of a.settings };

    ghost invariant = { λ a. MayBeSearched (syntax_of a.settings) a.has_default_starts };
}

impl Default for SyntaxConfig {
    ghost use Rattle.std.specs.Prelude.{◌≡◌};
    ghost use Rattle.minijinja_syntax.specs.Syntax.{default_syntax};

    ghost is_default = { λ s. s ≡ default_syntax };

    fn default() -> Self {
        SyntaxConfig {
            settings: Settings::of_jinja(),
            has_default_starts: true,
        }
    }
}

impl SyntaxConfig {
    ghost use Rattle.std.specs.Prelude.{◌≡◌, ◌+◌, ◌<◌, ◌≤◌, ◌↔◌, length, IsSome, IfSome, IfOk, IfErr};
    ghost use Rattle.minijinja_syntax.specs.Errors.{IsOutOfMemory};
    ghost use Rattle.minijinja_syntax.specs.Syntax.{IsBuildable, default_syntax};
    ghost use Rattle.minijinja_syntax.specs.Markers.{found_marker, FindsMarker, IsMarkerPlace};

    /// A builder that begins with the default syntax.
    pub fn builder() -> SyntaxConfigBuilder
        ensures { result ≡ default_syntax }
    {
        SyntaxConfigBuilder {
            settings: Settings::of_jinja(),
        }
    }

    /// A builder that begins with this syntax.
    pub fn to_builder(&self, alloc: Global) -> Result<SyntaxConfigBuilder, Error<'static>>
        ensures ok { IfOk result (λ builder. builder ≡ self.now) }
        ensures err { IfErr result IsOutOfMemory }
        ensures built { IsBuildable self.now }
    {
        Ok(SyntaxConfigBuilder {
            settings: self.settings.copied(alloc)?,
        })
    }

    /// A copy of the syntax.
    pub fn try_clone(&self) -> Result<Self, Error<'static>>
        ensures ok { IfOk result (λ copy. copy ≡ self.now) }
        ensures err { IfErr result IsOutOfMemory }
    {
        Ok(SyntaxConfig {
            settings: self.settings.try_clone()?,
            has_default_starts: self.has_default_starts,
        })
    }

    /// The start and the end of block tags.
    #[inline]
    pub fn block_delimiters(&self) -> (&str, &str)
        ensures start { result.0.now ≡ self.now.block_start }
        ensures end { result.1.now ≡ self.now.block_end }
        ensures built { IsBuildable self.now }
    {
        (
            self.settings.block_start.as_str(),
            self.settings.block_end.as_str(),
        )
    }

    /// The start and the end of variable tags.
    #[inline]
    pub fn variable_delimiters(&self) -> (&str, &str)
        ensures start { result.0.now ≡ self.now.variable_start }
        ensures end { result.1.now ≡ self.now.variable_end }
        ensures built { IsBuildable self.now }
    {
        (
            self.settings.variable_start.as_str(),
            self.settings.variable_end.as_str(),
        )
    }

    /// The start and the end of comments.
    #[inline]
    pub fn comment_delimiters(&self) -> (&str, &str)
        ensures start { result.0.now ≡ self.now.comment_start }
        ensures end { result.1.now ≡ self.now.comment_end }
        ensures built { IsBuildable self.now }
    {
        (
            self.settings.comment_start.as_str(),
            self.settings.comment_end.as_str(),
        )
    }

    /// What a line that is a statement begins with, if there are any.
    pub fn line_statement_prefix(&self) -> Option<&str>
        ensures on { IsSome result ↔ (0 < length self.now.line_statement) }
        ensures value { IfSome result (λ prefix. prefix.now ≡ self.now.line_statement) }
    {
        some_text(&self.settings.line_statement)
    }

    /// What a comment up to the end of its line begins with, if there are any.
    pub fn line_comment_prefix(&self) -> Option<&str>
        ensures on { IsSome result ↔ (0 < length self.now.line_comment) }
        ensures value { IfSome result (λ prefix. prefix.now ≡ self.now.line_comment) }
    {
        some_text(&self.settings.line_comment)
    }

    /// Whether the first line end after a block tag is removed.
    pub fn trim_blocks(&self) -> bool
        ensures { result ≡ self.now.trim_blocks }
    {
        self.settings.trim_blocks
    }

    /// Whether the whitespace between the start of a line and a tag that prints nothing is removed.
    pub fn lstrip_blocks(&self) -> bool
        ensures { result ≡ self.now.lstrip_blocks }
    {
        self.settings.lstrip_blocks
    }

    /// Whether a line end at the end of a text stays.
    pub fn keep_trailing_newline(&self) -> bool
        ensures { result ≡ self.now.keep_trailing_newline }
    {
        self.settings.keep_trailing_newline
    }

    /// The next start marker at or after the byte `offset`: how many bytes after it, the marker,
    /// and its length in bytes without control. It is the leftmost eligible one, and of several at
    /// one place the longest. Nothing is allocated.
    #[inline(always)]
    pub fn find_marker(&self, source: &str, offset: usize) -> Option<(usize, StartMarker, usize)>
        requires { offset ≤ length source.now }
        ensures value { result ≡ found_marker self.now source.now offset }
        ensures finds { FindsMarker self.now source.now offset result }
        ensures built { IsBuildable self.now }
        ensures place { IfSome result (λ r. IsMarkerPlace self.now source.now (offset + r.0) r.1) }
    {
        if self.has_default_starts {
            find_default_marker(source, offset)
        } else {
            self.settings.find_marker(source, offset)
        }
    }
}

fn some_text<'t>(text: &'t Delimiter) -> Option<&'t str>
    ensures on { IsSome result ↔ (0 < length (delimiter_text text.now)) }
    ensures value { IfSome result (λ some. some.now ≡ delimiter_text text.now) }
{
    if text.as_str().is_empty() {
        None
    } else {
        Some(text.as_str())
    }
}

/// Finds the start markers of a syntax, of which it holds a copy.
#[derive(Drop)]
pub struct StartMarkerMatcher {
    syntax: SyntaxConfig,
}

impl Model for StartMarkerMatcher {
    ghost use Rattle.minijinja_syntax.specs.Syntax.{Syntax};

    ghost Value = { Syntax };

    ghost view = { λ a. a.syntax };
}

impl StartMarkerMatcher {
    ghost use Rattle.std.specs.Prelude.{◌≡◌, ◌+◌, ◌≤◌, length, IfSome, IfOk, IfErr};
    ghost use Rattle.minijinja_syntax.specs.Errors.{IsOutOfMemory};
    ghost use Rattle.minijinja_syntax.specs.Syntax.{IsBuildable};
    ghost use Rattle.minijinja_syntax.specs.Markers.{found_marker, FindsMarker, IsMarkerPlace};

    /// A matcher of the syntax's start markers.
    pub fn new(alloc: Global, syntax: &SyntaxConfig) -> Result<Self, Error<'static>>
        ensures ok { IfOk result (λ matcher. matcher ≡ syntax.now) }
        ensures err { IfErr result IsOutOfMemory }
    {
        Ok(StartMarkerMatcher {
            syntax: SyntaxConfig {
                settings: syntax.settings.copied(alloc)?,
                has_default_starts: syntax.has_default_starts,
            },
        })
    }

    /// The next start marker at or after the byte `offset`, as [`SyntaxConfig::find_marker`]
    /// returns it.
    pub fn find(&self, source: &str, offset: usize) -> Option<(usize, StartMarker, usize)>
        requires { offset ≤ length source.now }
        ensures value { result ≡ found_marker self.now source.now offset }
        ensures finds { FindsMarker self.now source.now offset result }
        ensures built { IsBuildable self.now }
        ensures place { IfSome result (λ r. IsMarkerPlace self.now source.now (offset + r.0) r.1) }
    {
        self.syntax.find_marker(source, offset)
    }
}
