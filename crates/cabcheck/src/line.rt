use std::alloc::Global;
use std::io::Write;
use std::{fmt, io};

// A line of the table while it is put together, in columns. A piece for which memory is wanting
// makes its printing fail.
#[derive(Drop)]
pub struct Line {
    bytes: Vec<u8>,
    error: Option<io::Error>,
}

impl Line {
    pub fn new(heap: Global) -> Line {
        Line {
            bytes: Vec::new(heap),
            error: None,
        }
    }

    // One piece more.
    pub fn put<D: fmt::Display + Drop>(&mut self, piece: D) {
        if let Err(error) = write!(self.bytes, "{piece}") {
            self.error = Some(error);
        }
    }

    // One word more, as it stands.
    pub fn put_word(&mut self, word: &str) {
        if let Err(error) = self.bytes.extend_from_slice(word.as_bytes()) {
            self.error = Some(error.into());
        }
    }

    // One piece more, with blanks behind it up to a width.
    pub fn left<D: fmt::Display + Drop>(&mut self, piece: D, width: usize) {
        let end = self.bytes.len().saturating_add(width);
        self.put(piece);
        self.fill(end);
    }

    // One word more, with blanks behind it up to a width.
    pub fn left_word(&mut self, word: &str, width: usize) {
        let end = self.bytes.len().saturating_add(width);
        self.put_word(word);
        self.fill(end);
    }

    fn fill(&mut self, end: usize) {
        if self.bytes.len() < end
            && let Err(error) = self.bytes.resize(end, b' ')
        {
            self.error = Some(error.into());
        }
    }

    // Begins the line anew.
    pub fn clear(&mut self) {
        self.bytes.clear();
    }

    // Prints the line without blanks at its end, and begins the next.
    pub fn print<W: Write>(&mut self, out: &mut W) -> io::Result<()> {
        if let Some(error) = self.error.take() {
            return Err(error);
        }
        out.write_all(self.bytes.trim_ascii_end())?;
        out.write_all(b"\n")?;
        self.bytes.clear();
        Ok(())
    }
}
