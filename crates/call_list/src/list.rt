ghost use Rattle.call_list.specs.Lines.{line_of};
ghost use Rattle.call_list.specs.Lists.{Noted, ReadsList, ReadsListOrWantsMemory};
ghost use Rattle.call_list.specs.Modes.{EveryModeIsNamed};

use crate::entry::LineFault;
use crate::line::read_line;
use crate::listed::{ListFault, Listed};
use std::alloc::Global;

// Reads one line and keeps its call, if it has one.
fn note_line(
    heap: Global,
    listed: &mut Vec<Listed>,
    number: usize,
    line: &[u8],
) -> Result<(), ListFault>
    ensures { Noted number (line_of line.now) listed.old.items listed.new.items result }
{
    // A fault is told with the number of its line.
    match read_line(heap, line) {
        Ok(None) => Ok(()),
        Ok(Some(entry)) => {
            listed.push(Listed {
                line: number,
                entry,
            })?;
            Ok(())
        }
        Err(LineFault::Bad(wrong)) => Err(ListFault::Line {
            line: number,
            wrong,
        }),
        Err(LineFault::NoMemory) => Err(ListFault::NoMemory),
    }
}

/// Reads a call list: its calls, in the order of their lines. Blank lines and comments ask for
/// nothing. The calls and their bytes take their memory from `heap`.
///
/// `Line` names the first bad line, counted from 1, and what is wrong with it. `NoMemory` is
/// answered only where the first line that is neither blank nor a comment is a good call.
pub fn read_list(heap: Global, text: &[u8]) -> Result<Vec<Listed>, ListFault>
    ensures reads { ReadsList text.now result }
    ensures value { ReadsListOrWantsMemory text.now result }
    ensures names { EveryModeIsNamed }
{
    let mut listed = Vec::new(heap);
    // Behind a last line break `split` gives an empty piece more, which counts as a blank line.
    for (i, line) in text.split(|b| *b == b'\n').enumerate() {
        note_line(heap, &mut listed, i + 1, line)?;
    }
    Ok(listed)
}
