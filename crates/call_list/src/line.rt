ghost use Rattle.std.specs.Prelude.{◌≡◌, IfErr};
ghost use Rattle.call_list.specs.Lines.{verb_of, cycle_line, telegram_line, press_line, record_line, order_line, line_of, Reads, ReadsEntry, ReadsLine, WantsForBytes};

use crate::entry::{Entry, LineFault, Wrong};
use crate::hexadecimal::{decode, hex_wanted};
use crate::numbers::{byte_wanted, number_wanted};
use crate::order::order_of;
use crate::words::{last_word, next_word, split_word};
use std::alloc::Global;

// What a call begins with.
#[derive(Clone, Copy)]
pub(crate) enum Verb {
    Cycle,
    Telegram,
    Press,
    Record,
    Order,
}

// What the first word of a line stands for; none where the line is blank or a comment.
fn verb_of(word: &[u8]) -> Result<Option<Verb>, Wrong>
    ensures { result ≡ verb_of word.now }
{
    match word {
        [] | [b'#', ..] => Ok(None),
        b"cycle" => Ok(Some(Verb::Cycle)),
        b"telegram" => Ok(Some(Verb::Telegram)),
        b"press" => Ok(Some(Verb::Press)),
        b"record" => Ok(Some(Verb::Record)),
        b"order" => Ok(Some(Verb::Order)),
        _ => Err(Wrong::UnknownCall),
    }
}

fn read_cycle(heap: Global, rest: &[u8]) -> Result<Entry, LineFault>
    ensures { Reads (cycle_line rest.now) result }
{
    let (bus, rest) = next_word(rest)?;
    let pulse = last_word(rest)?;
    let bus = hex_wanted(bus)?;
    let pulse = hex_wanted(pulse)?;
    Ok(Entry::Cycle {
        bus: decode(heap, bus)?,
        pulse: decode(heap, pulse)?,
    })
}

fn read_telegram(heap: Global, rest: &[u8]) -> Result<Entry, LineFault>
    ensures { Reads (telegram_line rest.now) result }
{
    let bytes = last_word(rest)?;
    let bytes = hex_wanted(bytes)?;
    Ok(Entry::Telegram(decode(heap, bytes)?))
}

fn read_press(rest: &[u8]) -> Result<Entry, Wrong>
    ensures { ReadsEntry (press_line rest.now) result }
{
    let button = last_word(rest)?;
    Ok(Entry::Press(byte_wanted(button)?))
}

fn read_record(rest: &[u8]) -> Result<Entry, Wrong>
    ensures { ReadsEntry (record_line rest.now) result }
{
    let (driver, rest) = next_word(rest)?;
    let (length, rest) = next_word(rest)?;
    let (percentage, rest) = next_word(rest)?;
    let speed = last_word(rest)?;
    Ok(Entry::Record {
        driver: number_wanted(driver, u32::MAX)?,
        length: number_wanted(length, u32::MAX)?,
        percentage: number_wanted(percentage, u32::MAX)?,
        speed: number_wanted(speed, u32::MAX)?,
    })
}

fn read_order(rest: &[u8]) -> Result<Entry, Wrong>
    ensures { ReadsEntry (order_line rest.now) result }
{
    Ok(Entry::Order(order_of(rest)?))
}

// What a line asks for; none where it is blank or a comment.
pub(crate) fn read_line(heap: Global, line: &[u8]) -> Result<Option<Entry>, LineFault>
    ensures reads { ReadsLine (line_of line.now) result }
    ensures memory { IfErr result (λ f. WantsForBytes line.now f) }
{
    let (word, rest) = split_word(line);
    let Some(verb) = verb_of(word)? else {
        return Ok(None);
    };
    let entry = match verb {
        Verb::Cycle => read_cycle(heap, rest)?,
        Verb::Telegram => read_telegram(heap, rest)?,
        Verb::Press => read_press(rest)?,
        Verb::Record => read_record(rest)?,
        Verb::Order => read_order(rest)?,
    };
    Ok(Some(entry))
}
