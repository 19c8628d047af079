//! A writer that begins each line with a label.
ghost use Rattle.std.specs.Prelude.{◌≤◌, length};

use std::io::{self, Write};

/// Writes each line after a label and a colon.
#[derive(Drop)]
pub struct Labelled<'p, W> {
    writer: W,
    label: &'p str,
    at_start: bool,
}

impl<'p, W: Write> Labelled<'p, W> {
    /// A writer whose next byte begins a line.
    pub fn new(writer: W, label: &'p str) -> Self {
        Labelled {
            writer,
            label,
            at_start: true,
        }
    }

    fn begin_line(&mut self) -> io::Result<()> {
        self.writer.write_all(self.label.as_bytes())?;
        self.writer.write_all(b": ")?;
        self.at_start = false;
        Ok(())
    }
}

/// How many bytes the first line has, with what ends it.
fn line_len(bytes: &[u8]) -> usize
    ensures { result ≤ length bytes.now }
{
    match bytes.iter().position(|byte| *byte == b'\n') {
        Some(end) => end + 1,
        None => bytes.len(),
    }
}

impl<W: Write> Write for Labelled<'_, W> {
    /// Writes one line at most.
    fn write(&mut self, buf: &[u8]) -> io::Result<usize> {
        if buf.is_empty() {
            return Ok(0);
        }
        if self.at_start {
            self.begin_line()?;
        }
        let count = self.writer.write(&buf[..line_len(buf)])?;
        self.at_start = buf[..count].ends_with(b"\n");
        Ok(count)
    }

    fn flush(&mut self) -> io::Result<()> {
        self.writer.flush()
    }
}
