ghost use Rattle.std.specs.Prelude.{◌≡◌};
ghost use Rattle.side_by_side.specs.Status.{status_number};

/// How a run of two cabs ended.
#[derive(Clone, Copy, PartialEq, Eq, Debug)]
pub enum Status {
    /// The lists are alike, and no answer, message or note that is compared differs.
    Agree = 0,
    /// The lists are not alike, or something that is compared differs.
    Differ = 1,
    /// Nothing was compared: neither cab was asked for a call, or memory was wanting.
    Trouble = 2,
}

impl Status {
    /// The exit status of a program that ends so: 0 of `Agree`, 1 of `Differ`, 2 of `Trouble`.
    pub fn number(self) -> u8
        ensures { result ≡ status_number self }
    {
        self as u8
    }
}
