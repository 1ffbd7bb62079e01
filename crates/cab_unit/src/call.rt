use driver_desk::TrainRecord;
use telegram::Order;

/// What is asked of a unit, as a value that a list can hold.
///
/// Two are equal where all their parts are; of a block, and of a text, the bytes.
#[derive(Clone, Copy, PartialEq, Eq, Debug)]
pub enum Call<'a> {
    /// A cycle, with the block of bytes that the train end gets.
    Cycle(&'a [u8]),
    /// An order, from a telegram or from elsewhere.
    Order(Order<'a>),
    /// A press, by a number from 0 to 255: one that is no button's is answered too, with a refusal.
    Press(u8),
    /// The taking of a record, by its four numbers: driver number, length in m, brake percentage,
    /// maximum speed in km/h. Whoever makes the call makes the draft and says Yes to it first.
    Take(TrainRecord),
}
