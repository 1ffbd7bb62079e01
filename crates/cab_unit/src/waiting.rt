ghost use Rattle.std.specs.Prelude.{◌≡◌, ◌-◌, ◌<◌, ◌≤◌, false, not, ◌&&◌, [], length, filter};
ghost use Rattle.cab_unit.specs.Facts.{Few};
ghost use Rattle.cab_unit.specs.Places.{ordered, limit, Single};
ghost use Rattle.driver_desk.specs.Requests.{before, not_of_class, is_for, waits, number_of, first_of, rest_of, overdue, any_overdue};
ghost use Rattle.cab_unit.specs.declared.limits.TheConstants.{MOST_WAITING};
ghost use Rattle.driver_desk.specs.Sorting.{put, some, tally};
ghost use Rattle.driver_desk.specs.declared.request.Class.TheVariants as class;

use crate::limits::MOST_WAITING;
use arrayvec::ArrayVec;
use driver_desk::{CYCLES_TO_ACKNOWLEDGE, Class, Request};
use ordering::order::first_of;

// The requests that wait, kept in no order. They mean the list of them sorted by `before`.
// A refused call leaves each of them at its place too.
#[derive(Drop)]
pub struct Waiting {
    items: ArrayVec<Request, MOST_WAITING>,
    ghost few: { Few (ordered items) },
    ghost single: { Single (ordered items) },
}

impl Waiting {
    pub fn none() -> Waiting
        ensures { ordered result.items ≡ [] }
    {
        Waiting {
            items: ArrayVec::new(),
        }
    }

    pub fn len(&self) -> u8
        ensures { result ≡ length (ordered self.now.items) }
    {
        self.items.len() as u8
    }

    // Whether a request of this class and number waits.
    pub fn holds(&self, class: Class, number: u8) -> bool
        ensures { result ≡ waits class number (ordered self.now.items) }
    {
        self.items.iter().any(|r| is_for(r, class, number))
    }

    // Whether one of this class and number waits that is overdue in a cycle.
    pub fn holds_overdue(&self, class: Class, number: u8, cycle: u32) -> bool
        ensures { result ≡ some (λ x. is_for class number x && overdue cycle x)
            (ordered self.now.items) }
    {
        self.items
            .iter()
            .any(|r| is_for(r, class, number) && is_overdue(r, cycle))
    }

    pub fn any_overdue(&self, cycle: u32) -> bool
        ensures { result ≡ any_overdue cycle (ordered self.now.items) }
    {
        self.items.iter().any(|r| is_overdue(r, cycle))
    }

    pub fn number_of(&self, class: Class) -> u8
        ensures { result ≡ number_of class (ordered self.now.items) }
    {
        self.items.iter().filter(|r| r.class == class).count() as u8
    }

    pub fn first(&self) -> Option<Request>
        ensures { result ≡ first_of (ordered self.now.items) }
    {
        first_of(&self.items).map(|i| self.items[i])
    }

    pub fn raise(&mut self, request: Request)
        requires room { number_of request.class (ordered self.old.items) < limit request.class }
        requires fresh { waits request.class request.number (ordered self.old.items) ≡ false }
        ensures { ordered self.new.items ≡ put before request (ordered self.old.items) }
    {
        self.items.push(request);
    }

    // The last takes the place of the first.
    pub fn end_first(&mut self) -> Option<Request>
        ensures ended { result ≡ first_of (ordered self.old.items) }
        ensures rest { ordered self.new.items ≡ rest_of (ordered self.old.items) }
    {
        let i = first_of(&self.items)?;
        Some(self.items.swap_remove(i))
    }

    // Withdraws those of a class, and says how many they were.
    pub fn withdraw_class(&mut self, class: Class) -> u8
        ensures rest { ordered self.new.items ≡
            filter (not_of_class class) (ordered self.old.items) }
        ensures number { result ≡ number_of class (ordered self.old.items) }
        ensures most { result ≤ MOST_WAITING }
    {
        let waited = self.items.len();
        self.items.retain(|r| r.class != class);
        (waited - self.items.len()) as u8
    }

    // Withdraws the texts of a number, and says how many they were.
    pub fn withdraw_text(&mut self, number: u8) -> u8
        ensures rest { ordered self.new.items ≡
            filter (λ r. not (is_for class.Text number r)) (ordered self.old.items) }
        ensures number { result ≡ tally (is_for class.Text number) (ordered self.old.items) }
        ensures most { result ≤ MOST_WAITING }
    {
        let waited = self.items.len();
        self.items.retain(|r| !is_for(r, Class::Text, number));
        (waited - self.items.len()) as u8
    }

    pub fn withdraw_all(&mut self) -> u8
        ensures rest { ordered self.new.items ≡ [] }
        ensures number { result ≡ length (ordered self.old.items) }
    {
        let number = self.len();
        self.items.clear();
        number
    }
}

fn is_for(request: &Request, class: Class, number: u8) -> bool
    ensures { result ≡ is_for class number request.now }
{
    request.class == class && request.number == number
}

fn is_overdue(request: &Request, cycle: u32) -> bool
    ensures { result ≡ overdue cycle request.now }
{
    request.timed && cycle.saturating_sub(request.raised) > CYCLES_TO_ACKNOWLEDGE
}
