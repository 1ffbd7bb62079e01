ghost use Rattle.std.specs.Prelude.{◌≡◌, IfOk, OnErr};
ghost use Rattle.telegram.specs.Whole.{whole_of, read_whole, WholeTelegram, EndsWithin, BeginsWithOrder};

use crate::faults::Refused;
use crate::orders::Placed;
use crate::reader::Reader;
use std::alloc::{AllocError, Global};

/// What was read of a whole telegram.
#[derive(Drop)]
pub struct Reading<'a> {
    /// The orders, as they follow one another in the telegram.
    pub orders: Vec<Placed<'a>>,
    /// The telegram's length where it was read to its end, or the order that is refused; nothing
    /// behind that order is read.
    pub ending: Result<usize, Refused>,
}

/// Reads a telegram of any length, to its end or to its first faulty order. The list of orders
/// takes its memory from `heap`.
///
/// `AllocError` where memory for the orders is wanting, and only where the telegram begins with an
/// order.
pub fn read_all<'a>(heap: Global, telegram: &'a [u8]) -> Result<Reading<'a>, AllocError>
    ensures value { IfOk result (λ g. whole_of g ≡ read_whole telegram.now) }
    ensures law { IfOk result (λ g. WholeTelegram telegram.now (whole_of g)) }
    ensures within { IfOk result (λ g. EndsWithin telegram.now g.ending) }
    ensures memory { OnErr result (BeginsWithOrder telegram.now) }
{
    let mut reader = Reader::new(telegram);
    let mut orders = Vec::new(heap);
    let ending = loop {
        match reader.next() {
            Ok(Some(placed)) => orders.push(placed)?,
            Ok(None) => break Ok(reader.place()),
            Err(refused) => break Err(refused),
        }
    };
    Ok(Reading { orders, ending })
}
