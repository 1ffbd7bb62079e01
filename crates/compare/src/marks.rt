ghost use Rattle.std.specs.Prelude.{◌≡◌};
ghost use Rattle.compare.specs.Marks.{is_open, is_inside};
ghost use Rattle.compare.specs.Walked.{is_alike, is_reordered};

/// What is compared of a place of two runs.
#[derive(Clone, Copy, PartialEq, Eq, Debug)]
pub enum Mark {
    /// The answers and the messages are compared.
    Compared,
    /// A place in a stretch of texts that came in another order, and not its last: the answers and
    /// the messages are left open.
    Inside,
    /// The last place of such a stretch: the answers are left open, the messages are compared.
    Last,
}

impl Mark {
    /// Whether the answers of the place are left open: true of `Inside` and `Last`.
    pub fn is_open(self) -> bool
        ensures { result ≡ is_open self }
    {
        self != Mark::Compared
    }

    /// Whether the messages of the place are left open: true of `Inside` alone.
    pub fn is_inside(self) -> bool
        ensures { result ≡ is_inside self }
    {
        self == Mark::Inside
    }
}

// How the first calls of two runs compare. Where texts came in another order, all were accepted.
#[derive(Clone, Copy, PartialEq, Eq)]
pub(crate) enum Stretch {
    Same,
    Reordered,
    Other,
}

impl Stretch {
    pub(crate) fn is_alike(self) -> bool
        ensures { result ≡ is_alike self }
    {
        self != Stretch::Other
    }

    pub(crate) fn is_reordered(self) -> bool
        ensures { result ≡ is_reordered self }
    {
        self == Stretch::Reordered
    }
}
