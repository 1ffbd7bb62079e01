ghost use Rattle.std.specs.Prelude.{◌≡◌, Some};
ghost use Rattle.driver_desk.specs.Numbers.{class_number};
ghost use Rattle.driver_desk.specs.Requests.{before as before_other, same_turn};
ghost use Rattle.driver_desk.specs.Words.{request_words};
ghost use Rattle.std.proofs.Common.{arith};
ghost use Rattle.std.proofs.lemmas.Bool.Decides.{nat_tests};

use ordering::order::Ordered;
use std::fmt;

/// How many cycles, of 0.1 s each, the driver has to acknowledge a timed request.
pub const CYCLES_TO_ACKNOWLEDGE: u32 = 50;

/// What a request asks the driver to acknowledge.
#[derive(Clone, Copy, Default, PartialEq, Eq, PartialOrd, Ord, Debug)]
pub enum Class {
    /// Class 0: that the train was tripped.
    Trip = 0,
    /// Class 1: a mode, before it is entered or after.
    Mode = 1,
    /// Class 2: a new level.
    Level = 2,
    /// Class 3: that the train moved where it has to stand still.
    Hold = 3,
    /// Class 4: a text.
    #[default]
    Text = 4,
}

impl Class {
    /// The number of the class, 0 to 4.
    pub fn number(self) -> u8
        ensures { result ≡ class_number self }
    {
        self as u8
    }
}

/// A request to the driver to acknowledge something. The default request asks for nothing: it only
/// fills the free places of a run of fixed length.
#[derive(Clone, Copy, Default, PartialEq, Eq, Debug)]
pub struct Request {
    /// What it asks the driver to acknowledge.
    pub class: Class,
    /// Of class 1 the code of the mode, of class 2 the level, of class 4 the text's number, 0 to
    /// 255, and of the others 0.
    pub number: u8,
    /// The number of the cycle in which it was raised, 0 to 4294967295.
    pub raised: u32,
    /// Whether it is timed. A timed request is overdue once more than
    /// `CYCLES_TO_ACKNOWLEDGE` cycles have passed, and the train is braked for it.
    pub timed: bool,
}

/// The request of the earlier cycle is before; of one cycle the lower class, then the lower number.
impl Ordered for Request {
    ghost before = { before_other };

    ghost same = { same_turn };

    ghost one = { λ a b. Prim.grind (arith, nat_tests) };

    ghost carries = { λ a b c e f. Prim.grind (arith, nat_tests) };

    fn is_before(&self, other: &Request) -> bool {
        (self.raised, self.class, self.number) < (other.raised, other.class, other.number)
    }
}

/// The request as CLASS:NUMBER@CYCLE and t or u for timed or untimed, as `4:7@4t`.
impl fmt::Display for Request {
    ghost output = { λ r. Some (request_words r) };

    fn fmt<W: fmt::Write>(&self, f: &mut fmt::Formatter<W>) -> fmt::Result {
        let class = self.class.number();
        let mark = if self.timed { 't' } else { 'u' };
        write!(f, "{class}:{}@{}{mark}", self.number, self.raised)
    }
}
