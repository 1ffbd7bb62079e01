ghost use Rattle.std.specs.Prelude.{◌≡◌, ◌≤◌, min, length, take, drop};
ghost use Rattle.compare.specs.Asked.{asked};

use cab_unit::Call;
use driver_desk::Answer;

// A run of a cab: its calls, the answer to each, and the speed of the unit's own end after it.
#[derive(Clone, Copy)]
pub(crate) struct Run<'r, 'a> {
    pub(crate) calls: &'r [Call<'a>],
    pub(crate) answers: &'r [Answer],
    pub(crate) speeds: &'r [Option<u16>],
}

// The calls of a run with their answers.
#[derive(Clone, Copy)]
pub(crate) struct Answered<'a> {
    pub(crate) calls: &'a [Call<'a>],
    pub(crate) answers: &'a [Answer],
}

impl<'a> Answered<'a> {
    // How far both lists go.
    pub(crate) fn len(self) -> usize
        ensures { result ≡ min (length (asked self.entry)) (length self.entry.answers.now) }
    {
        self.calls.len().min(self.answers.len())
    }

    // The first n calls.
    pub(crate) fn cut(self, n: usize) -> Answered<'a>
        requires { (n ≤ length (asked self)) × (n ≤ length self.answers.now) }
        ensures calls { asked result ≡ take n (asked self.entry) }
        ensures answers { result.answers.now ≡ take n self.entry.answers.now }
    {
        Answered {
            calls: &self.calls[..n],
            answers: &self.answers[..n],
        }
    }

    // The calls behind the first n.
    pub(crate) fn behind(self, n: usize) -> Answered<'a>
        requires { (n ≤ length (asked self)) × (n ≤ length self.answers.now) }
        ensures calls { asked result ≡ drop n (asked self.entry) }
        ensures answers { result.answers.now ≡ drop n self.entry.answers.now }
    {
        Answered {
            calls: &self.calls[n..],
            answers: &self.answers[n..],
        }
    }
}
