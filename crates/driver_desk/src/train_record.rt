ghost use Rattle.std.specs.Prelude.{◌≡◌, false, is_some};
ghost use Rattle.driver_desk.specs.Records.{record_of, record_refusal, Drafted};

use crate::refusal::Refusal;

/// The four numbers of a train. In a draft and in a confirmed record each is in its range.
#[derive(Clone, Copy, PartialEq, Eq, Debug)]
pub struct TrainRecord {
    /// The driver number, 1 to 99999999.
    pub driver: u32,
    /// The length of the train in m, 1 to 4095.
    pub length: u16,
    /// The brake percentage, 10 to 250.
    pub percentage: u8,
    /// The maximum speed in km/h, 5 to 600 in steps of 5.
    pub speed: u16,
}

/// A record whose numbers are in their ranges, shown to the driver and not yet answered.
#[derive(Drop)]
pub struct Draft {
    train: TrainRecord,
    ghost valid: { is_some (record_refusal train) ≡ false },
}

/// A record that the driver has confirmed. No other can be handed to the unit.
#[derive(Drop)]
pub struct Confirmed {
    train: TrainRecord,
    ghost valid: { is_some (record_refusal train) ≡ false },
}

impl Draft {
    /// A draft of a driver number (1 to 99999999), a length in m (1 to 4095), a brake percentage
    /// (10 to 250) and a maximum speed in km/h (5 to 600 in steps of 5).
    ///
    /// They are looked at in this order, and the first that is out of its range is the error:
    /// `DriverNumber` (10), `TrainLength` (11), `BrakePercentage` (12) or `MaximumSpeed` (13).
    pub fn new(driver: u32, length: u32, percentage: u32, speed: u32) -> Result<Draft, Refusal>
        ensures { Drafted (λ d. d.train) (record_of driver length percentage speed) result }
    {
        if !(1..=99999999).contains(&driver) {
            return Err(Refusal::DriverNumber);
        }
        if !(1..=4095).contains(&length) {
            return Err(Refusal::TrainLength);
        }
        if !(10..=250).contains(&percentage) {
            return Err(Refusal::BrakePercentage);
        }
        if speed % 5 != 0 || !(5..=600).contains(&speed) {
            return Err(Refusal::MaximumSpeed);
        }
        let train = TrainRecord {
            driver,
            length: length as u16,
            percentage: percentage as u8,
            speed: speed as u16,
        };
        Ok(Draft { train })
    }

    /// The driver says Yes: the draft is used up, and the record is confirmed.
    pub fn yes(self) -> Confirmed
        ensures { result.train ≡ self.train }
    {
        Confirmed { train: self.train }
    }

    /// The driver says No: the draft is used up, and its numbers come back to be changed.
    pub fn no(self) -> TrainRecord
        ensures { result ≡ self.train }
    {
        self.train
    }
}

impl Confirmed {
    /// The numbers that the driver confirmed, each in its range.
    pub fn numbers(&self) -> &TrainRecord
        ensures value { result.now ≡ self.now.train }
        ensures valid { is_some (record_refusal result.now) ≡ false }
    {
        &self.train
    }
}
