use cab_unit::Call;
use driver_desk::TrainRecord;
use std::fmt;
use telegram::Order;

// The words of a text, a character for each byte; nothing where there is no text.
#[derive(Clone, Copy)]
pub struct Words<'s>(pub Option<&'s [u8]>);

impl fmt::Display for Words<'_> {
    fn fmt<W: fmt::Write>(&self, f: &mut fmt::Formatter<W>) -> fmt::Result {
        let Some(words) = self.0 else {
            return Ok(());
        };
        if let Some(text) = ascii_text(words) {
            return f.write_str(text);
        }
        for run in words.chunk_by(|byte, next| byte.is_ascii() == next.is_ascii()) {
            write_run(f, run)?;
        }
        Ok(())
    }
}

// Bytes that are all ASCII, as a text that goes in one piece, which is quicker.
fn ascii_text(bytes: &[u8]) -> Option<&str> {
    match str::from_utf8(bytes) {
        Ok(text) if text.is_ascii() => Some(text),
        _ => None,
    }
}

// Bytes of which all or none are ASCII.
fn write_run<W: fmt::Write>(f: &mut fmt::Formatter<W>, run: &[u8]) -> fmt::Result {
    if let Some(text) = ascii_text(run) {
        return f.write_str(text);
    }
    for byte in run {
        f.write_char(*byte as char)?;
    }
    Ok(())
}

// The words of a text where two are told beside each other: in quotation marks, with a \ before
// each " and \ in it, or none where there is no line.
#[derive(Clone, Copy)]
pub struct Message<'s>(pub Option<&'s [u8]>);

impl fmt::Display for Message<'_> {
    fn fmt<W: fmt::Write>(&self, f: &mut fmt::Formatter<W>) -> fmt::Result {
        match self.0 {
            None => f.write_str("none"),
            Some(words) => {
                f.write_char('"')?;
                for byte in words {
                    if matches!(*byte, b'"' | b'\\') {
                        f.write_char('\\')?;
                    }
                    f.write_char(*byte as char)?;
                }
                f.write_char('"')
            }
        }
    }
}

// What the words of two calls in their rows leave out: the words of two texts, or the numbers of
// two records.
#[derive(Clone, Copy)]
pub enum Untold<'s> {
    Nothing,
    Texts(&'s [u8], &'s [u8]),
    Records(TrainRecord, TrainRecord),
}

impl<'s> Untold<'s> {
    pub fn of_calls(call: &Call<'s>, other: &Call<'s>) -> Untold<'s> {
        match (*call, *other) {
            (Call::Order(Order::Text { text, .. }), Call::Order(Order::Text { text: other, .. }))
                if text != other => { Untold::Texts(text, other) }
            (Call::Take(train), Call::Take(other)) if train != other => {
                Untold::Records(train, other)
            }
            _ => Untold::Nothing,
        }
    }
}

// The numbers of a record.
#[derive(Clone, Copy)]
pub struct RecordWords(pub TrainRecord);

impl fmt::Display for RecordWords {
    fn fmt<W: fmt::Write>(&self, f: &mut fmt::Formatter<W>) -> fmt::Result {
        let TrainRecord {
            driver,
            length,
            percentage,
            speed,
        } = self.0;
        write!(f, "{driver} {length} {percentage} {speed}")
    }
}
