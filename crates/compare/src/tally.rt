ghost use Rattle.std.specs.Prelude.{◌≡◌, ◌≤◌, ◌<◌, ◌+◌, ◌^◌};
ghost use Rattle.compare.specs.Compared.{none_compared, tally_with};

/// What came of comparing pairs, place by place.
#[derive(Clone, Copy, PartialEq, Eq, Debug)]
pub struct Tally {
    /// How many pairs were compared.
    pub compared: usize,
    /// How many of these differ.
    pub differing: usize,
    /// The place of the first that differs, counted from 0; none where none differs.
    pub first: Option<usize>,
}

impl Tally {
    pub(crate) fn none() -> Tally
        ensures { result ≡ none_compared }
    {
        Tally {
            compared: 0,
            differing: 0,
            first: None,
        }
    }

    // The pair at a place is compared, where it is kept.
    pub(crate) fn add(&mut self, place: usize, kept: bool, equal: bool)
        requires within { (self.old.compared ≤ place) × (self.old.differing ≤ place) ×
            (place + 1 < 2 ^ 64) }
        ensures added { self.new ≡ tally_with place kept equal self.old }
    {
        if kept {
            self.compared += 1;
            if !equal {
                self.differing += 1;
                self.first = self.first.or(Some(place));
            }
        }
    }
}
