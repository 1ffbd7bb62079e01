ghost use Rattle.std.specs.Prelude.{◌≡◌};
ghost use Rattle.driver_desk.specs.Numbers.{refusal_number};

/// Why the unit refuses a call, or why numbers make no draft. A refusal leaves all as before.
#[derive(Clone, Copy, PartialEq, Eq, Debug)]
pub enum Refusal {
    /// Number 1: there is no such button; they are 1 to 9.
    NoSuchButton = 1,
    /// Number 2: the button is not enabled.
    ButtonNotEnabled = 2,
    /// Number 10: the driver number is 0 or above 99999999.
    DriverNumber = 10,
    /// Number 11: the length is 0 or above 4095 m.
    TrainLength = 11,
    /// Number 12: the brake percentage is below 10 or above 250.
    BrakePercentage = 12,
    /// Number 13: the maximum speed is below 5 or above 600 km/h, or not in steps of 5.
    MaximumSpeed = 13,
    /// Number 14: no record is taken now.
    RecordNotTaken = 14,
    /// Number 23: the mode or the level that an order names is outside its list.
    OutsideList = 23,
    /// Number 30: the order is not heard now.
    NotHeard = 30,
    /// Number 31: a text with the number waits already.
    TextWaits = 31,
    /// Number 32: twelve texts wait, which is as many as may.
    TwelveTextsWait = 32,
    /// Number 33: the text to be withdrawn does not wait.
    NoSuchText = 33,
    /// Number 34: the text to be withdrawn is overdue.
    TextOverdue = 34,
    /// Number 40: the unit is in System Failure, where it refuses every call.
    InSystemFailure = 40,
}

impl Refusal {
    /// The number of the refusal, 1 to 40, as above.
    pub fn number(self) -> u8
        ensures { result ≡ refusal_number self }
    {
        self as u8
    }
}
