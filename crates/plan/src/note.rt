ghost use Rattle.std.specs.Prelude.{◌≡◌};
ghost use Rattle.plan.specs.Notes.{ending_note, note_name, note_number};

use driver_desk::Refusal;
use telegram::Refused;

/// What a list tells that is no call of the unit.
#[derive(Clone, Copy, PartialEq, Eq)]
pub enum Note {
    /// The four numbers of a record that no draft takes, with the refusal, 10 to 13.
    Draft(Refusal),
    /// A telegram was read to its end, which is at this place: its length in bytes.
    End(usize),
    /// A telegram was read to the first order that is refused, with why and where it begins.
    Fault(Refused),
}

impl Note {
    // How the reading of a telegram ended.
    pub(crate) fn of_ending(ending: Result<usize, Refused>) -> Note
        ensures { result ≡ ending_note ending }
    {
        match ending {
            Ok(place) => Note::End(place),
            Err(refused) => Note::Fault(refused),
        }
    }

    /// The word that a row has where another has its call: `draft`, `fault` or `end`.
    pub fn name(self) -> &'static str
        ensures { result.now ≡ note_name self }
    {
        match self {
            Note::Draft(_) => "draft",
            Note::Fault(_) => "fault",
            Note::End(_) => "end",
        }
    }

    /// 0 for an end, or the number of the refusal: 10 to 13 for a draft, 20 to 25 for a fault.
    pub fn number(self) -> u8
        ensures { result ≡ note_number self }
    {
        match self {
            Note::Draft(refusal) => refusal.number(),
            Note::Fault(refused) => refused.fault.number(),
            Note::End(_) => 0,
        }
    }
}
