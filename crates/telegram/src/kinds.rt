ghost use Rattle.std.specs.Prelude.{◌≡◌};
ghost use Rattle.telegram.specs.Kinds.{kind_numbered, takes_length};

use crate::faults::Fault;

// The kinds of orders.
#[derive(Clone, Copy)]
pub(crate) enum Kind {
    Authority,
    Level,
    Text,
    TextWithdrawal,
    EmergencyStop,
    Sign,
    Permission,
}

impl TryFrom<u8> for Kind {
    type Error = Fault;

    ghost try_from_gives = { λ number r. r ≡ kind_numbered number };

    fn try_from(number: u8) -> Result<Kind, Fault> {
        match number {
            1 => Ok(Kind::Authority),
            2 => Ok(Kind::Level),
            3 => Ok(Kind::Text),
            4 => Ok(Kind::TextWithdrawal),
            5 => Ok(Kind::EmergencyStop),
            6 => Ok(Kind::Sign),
            7 => Ok(Kind::Permission),
            _ => Err(Fault::UnknownKind),
        }
    }
}

impl Kind {
    pub(crate) fn takes_length(self, length: usize) -> bool
        ensures { result ≡ takes_length self length }
    {
        match self {
            Kind::Authority | Kind::Level | Kind::TextWithdrawal => length == 3,
            Kind::Text => matches!(length, 5..=204),
            Kind::EmergencyStop | Kind::Sign | Kind::Permission => length == 2,
        }
    }
}
