ghost use Rattle.std.specs.Prelude.{◌≡◌};
ghost use Rattle.columns.specs.Names.{column_name, columns, heading};

/// A column that tells a part of an answer.
#[derive(Clone, Copy, PartialEq, Eq)]
pub enum Column {
    /// 0 where the call was accepted, else the number of its refusal.
    Outcome,
    /// The two letters of the mode.
    Mode,
    /// The level, 0 to 2.
    Level,
    /// The brake line: 0 released, 1 service, 2 emergency.
    Brake,
    /// The enabled buttons as a sum, 0 to 511: 1 for button 1, 2 for button 2, 4 for button 3, and
    /// so on up to 256 for button 9.
    Buttons,
    /// How many requests wait.
    Waiting,
    /// The first of the waiting requests, or -.
    First,
    /// The request that the call raised, or -.
    Raised,
    /// The request that the call acknowledged, or -.
    Acked,
    /// How many requests the call withdrew.
    Withdrawn,
}

impl Column {
    /// The name of the column in the heading, in small letters.
    pub fn name(self) -> &'static str
        ensures { result.now ≡ column_name self }
    {
        match self {
            Column::Outcome => "outcome",
            Column::Mode => "mode",
            Column::Level => "level",
            Column::Brake => "brake",
            Column::Buttons => "buttons",
            Column::Waiting => "waiting",
            Column::First => "first",
            Column::Raised => "raised",
            Column::Acked => "acked",
            Column::Withdrawn => "withdrawn",
        }
    }
}

/// The columns of an answer, as they stand in a row from left to right.
pub const COLUMNS: [Column; 10] = [
    Column::Outcome,
    Column::Mode,
    Column::Level,
    Column::Brake,
    Column::Buttons,
    Column::Waiting,
    Column::First,
    Column::Raised,
    Column::Acked,
    Column::Withdrawn,
];

/// The names of all fifteen columns of a row, with a tab between two.
pub const HEADING: &str =
    "line\tcab\tcall\toutcome\tmode\tlevel\tbrake\tbuttons\twaiting\tfirst\traised\tacked\twithdrawn\tspeed\tmessage";

/// Says by its contract that the heading has the names of the columns of an answer, in their order,
/// behind `line`, `cab` and `call` and before `speed` and `message`. It does nothing.
pub fn heading_stands()
    ensures columns { COLUMNS ≡ columns }
    ensures heading { HEADING.now ≡ heading }
{}
