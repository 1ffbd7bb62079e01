use crate::sides::{Entry, Item, Side, Sides};
use crate::words::Words;
use columns::{AnswerColumns, CallWords, HEADING, NoteColumns};
use std::io::Write;
use std::{fmt, io};

// What stands behind the line and the cab in a row.
#[derive(Clone, Copy)]
struct ItemColumns<'p, 'a>(Item<'p, 'a>);

impl fmt::Display for ItemColumns<'_, '_> {
    fn fmt<W: fmt::Write>(&self, f: &mut fmt::Formatter<W>) -> fmt::Result {
        match self.0 {
            Item::Call(answered) => {
                let call = CallWords(answered.call);
                let answer = AnswerColumns(answered.answer, answered.speed);
                let message = Words(answered.message);
                write!(f, "{call}\t{answer}\t{message}")
            }
            Item::Note(note) => write!(f, "{}\t{}", note.name(), NoteColumns(note)),
        }
    }
}

// All rows of one cab, that after switching on first.
fn print_side<W: Write>(out: &mut W, side: &Side<'_, '_>) -> io::Result<()> {
    let name = side.cab.name();
    let on = AnswerColumns(side.on, None);
    writeln!(out, "0\t{name}\ton\t{on}\t")?;
    for Entry { line, item, .. } in side.entries() {
        let columns = ItemColumns(item);
        writeln!(out, "{line}\t{name}\t{columns}")?;
    }
    Ok(())
}

// Tab-separated rows behind their heading, all of the bus cab and then all of the pulse cab.
pub fn print_tsv<W: Write>(out: &mut W, sides: &Sides<'_, '_>) -> io::Result<()> {
    writeln!(out, "{HEADING}")?;
    print_side(out, &sides.bus)?;
    print_side(out, &sides.pulse)
}
