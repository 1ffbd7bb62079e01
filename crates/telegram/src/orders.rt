use crate::modes::Mode;

/// What the line side orders. A telegram gives only what its format has; an order that comes from
/// elsewhere may name any mode and any number.
#[derive(Clone, Copy, Debug, PartialEq, Eq)]
pub enum Order<'a> {
    /// Authority to run in this mode; a telegram names only FS, OS or LS.
    Authority(Mode),
    /// The level to go over to. It is a number from 0 to 255, so that one above 2 can be told and
    /// refused; a telegram names only 0 to 2.
    Level(u8),
    /// A text for the driver.
    Text {
        /// The number of the text, 0 to 255.
        number: u8,
        /// Whether the driver has to acknowledge it, and not only see it.
        wanted: bool,
        /// Its words, lent from the telegram. There they are 1 to 200 bytes, none of them below 32
        /// and none from 127 to 159.
        text: &'a [u8],
    },
    /// The text with this number, 0 to 255, is withdrawn.
    TextWithdrawal(u8),
    /// The train has to stop at once.
    EmergencyStop,
    /// A sign that the line side is still there.
    Sign,
    /// Leave for a start that is pending, as Staff Responsible.
    Permission,
}

/// An order of a telegram, and where its bytes stand. Places are counted from 0.
#[derive(Clone, Copy, Debug, PartialEq, Eq)]
pub struct Placed<'a> {
    /// What it says.
    pub order: Order<'a>,
    /// The place of its first byte.
    pub first: usize,
    /// The place behind its last byte.
    pub after: usize,
}
