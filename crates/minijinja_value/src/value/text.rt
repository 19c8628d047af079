//! The texts of values.
ghost use Rattle.std.specs.Prelude.{◌≡◌, ◌≤◌, ◌++◌, IsOk, IfOk, length, string_bytes};
ghost use Rattle.minijinja_value.specs.private.TextForms.{form_bytes, IsFitting};

use arrayvec::ArrayString;
use std::alloc::{AllocError, Global};
use std::fmt;
use std::marker::Model;

/// The most bytes of a text that allocates nothing.
pub const MOST_SHORT_BYTES: usize = 16;

/// A text that does not change. Contracts see its bytes. A short one is kept in the value itself
/// and allocates nothing.
#[derive(Drop)]
pub struct Text {
    form: Form,
}

#[derive(Drop)]
enum Form {
    Short(ArrayString<MOST_SHORT_BYTES>),
    Long(String),
}

impl Model for Text {
    ghost use Rattle.std.specs.Prelude.{ℕ, List};

    ghost Value = { List ℕ };

    ghost use Rattle.minijinja_value.specs.private.TextForms.{form_bytes, IsFitting};

    ghost view = { λ t. form_bytes t.form };

    ghost invariant = { λ t. IsFitting t.form };
}

impl Text {
    /// A copy of a text.
    pub fn new(alloc: Global, text: &str) -> Result<Text, AllocError>
        ensures value { IfOk result (λ t. t ≡ text.now) }
        ensures needs_no_memory { length text.now ≤ MOST_SHORT_BYTES → IsOk result }
    {
        let form = match ArrayString::from(text) {
            Ok(short) => Form::Short(short),
            Err(_) => Form::Long(String::from_str(alloc, text)?),
        };
        Ok(Text { form })
    }

    /// The text of a string, whose memory is freed where the text is short.
    pub fn from_string(text: String) -> Text
        ensures { result ≡ string_bytes text }
    {
        let form = match ArrayString::from(text.as_str()) {
            Ok(short) => Form::Short(short),
            Err(_) => Form::Long(text),
        };
        Text { form }
    }

    /// The text.
    pub fn as_str(&self) -> &str
        ensures { result.now ≡ self.now }
    {
        self.form.as_str()
    }

    /// The text with another one after it. A long text grows in its own memory, so joining many
    /// texts one after another takes linear time.
    pub fn followed_by(self, alloc: Global, after: &str) -> Result<Text, AllocError>
        ensures value { IfOk result (λ t. t ≡ self ++ after.now) }
        ensures needs_no_memory { length (self ++ after.now) ≤ MOST_SHORT_BYTES →
            IsOk result }
    {
        let form = match self.form {
            Form::Long(mut long) => {
                long.push_str(after)?;
                Form::Long(long)
            }
            short => joined(alloc, short.as_str(), after)?,
        };
        Ok(Text { form })
    }

    /// A copy with memory of its own.
    pub fn try_clone(&self) -> Result<Text, AllocError>
        ensures value { IfOk result (λ t. t ≡ self.now) }
        ensures needs_no_memory { length self.now ≤ MOST_SHORT_BYTES → IsOk result }
    {
        let form = match &self.form {
            Form::Short(text) => Form::Short(*text),
            Form::Long(text) => Form::Long(text.clone()?),
        };
        Ok(Text { form })
    }
}

impl Form {
    fn as_str(&self) -> &str
        ensures { result.now ≡ form_bytes self.now }
    {
        match self {
            Form::Short(text) => text.as_str(),
            Form::Long(text) => text.as_str(),
        }
    }
}

/// Two texts joined.
fn joined(alloc: Global, first: &str, second: &str) -> Result<Form, AllocError>
    ensures value { IfOk result (λ form. form_bytes form ≡ first.now ++ second.now) }
    ensures fits { IfOk result IsFitting }
    ensures needs_no_memory { length (first.now ++ second.now) ≤ MOST_SHORT_BYTES → IsOk result }
{
    if first.len().saturating_add(second.len()) <= MOST_SHORT_BYTES {
        let mut short = ArrayString::new();
        short.push_str(first);
        short.push_str(second);
        return Ok(Form::Short(short));
    }
    let mut long = String::from_str(alloc, first)?;
    long.push_str(second)?;
    Ok(Form::Long(long))
}

/// Prints as a `str` does.
impl fmt::Debug for Text {
    fn fmt<W: fmt::Write>(&self, f: &mut fmt::Formatter<W>) -> fmt::Result {
        fmt::Debug::fmt(&self.as_str(), f)
    }
}
