// The calls of the window.
ghost use Rattle.std.specs.Prelude.{◌≡◌, ◌==◌, true, false, [], length, position, is_ok};
ghost use Rattle.ordering.specs.Order.{chosen, Leads};
ghost use Rattle.ordering.specs.Shelf.{SameRun};
ghost use Rattle.window.specs.Lines.{newer, has, removed};
ghost use Rattle.window.specs.Window.{lines, rows, add_answer, added, remove_answer, part_of, handed, shown};

use crate::Window;
use crate::line::Line;
use crate::refusal::Refusal;
use ordering::shelf::Shelf;

fn is_there(lines: &[Line], number: u8) -> bool
    ensures { result ≡ has number lines.now }
{
    lines.iter().any(|line| line.number == number)
}

fn place_of(lines: &[Line], number: u8) -> Option<usize>
    ensures { result ≡ position (λ line. line.number == number) lines.now }
{
    lines.iter().position(|line| line.number == number)
}

fn part_of(line: Line, store: &[u8]) -> Result<&[u8], Refusal>
    ensures { handed result ≡ part_of line store.now }
{
    store
        .get(line.place..)
        .and_then(|rest| rest.get(..line.length))
        .ok_or(Refusal::OutsideStore)
}

impl<'a> Window<'a> {
    /// An empty window on this run, with as many rows as the run has lines. It may have none: then
    /// each line is refused.
    pub fn new(run: &'a mut [Line]) -> Window<'a>
        ensures empty { lines result ≡ [] }
        ensures room { rows result ≡ length run.old }
        ensures lent { result.shelf.run.ghost_name ≡ run.entry.ghost_name }
    {
        Window {
            shelf: Shelf::new(run),
        }
    }

    /// How many lines stand in the window.
    pub fn len(&self) -> usize
        ensures { result ≡ length (lines self.now) }
    {
        self.shelf.len()
    }

    /// The lines of the window, front to back.
    pub fn lines(&self) -> &[Line]
        ensures { result.now ≡ lines self.now }
    {
        self.shelf.live()
    }

    /// Adds a line in front of the others.
    ///
    /// `NumberThere` (51) where a line with the same number stands, else `NoFreeLine` (50) where
    /// every row is in use. The window is then as before.
    pub fn add(&mut self, line: Line) -> Result<(), Refusal>
        ensures same_run { SameRun self.old.shelf self.new.shelf }
        ensures answer { result ≡ add_answer (rows self.old) (lines self.old) line }
        ensures after { lines self.new ≡ added (rows self.old) (lines self.old) line }
        ensures refused { is_ok result ≡ false → self.new.shelf ≡ self.old.shelf }
        ensures undone { is_ok result ≡ true → removed line.number (lines self.new)
            ≡ lines self.old }
    {
        if is_there(self.lines(), line.number) {
            return Err(Refusal::NumberThere);
        }
        self.shelf.put_front(line)?;
        Ok(())
    }

    /// Removes the line with this number, 0 to 255. The others keep their order.
    ///
    /// `NoSuchLine` (52) where no line has the number. The window is then as before.
    pub fn remove(&mut self, number: u8) -> Result<(), Refusal>
        ensures same_run { SameRun self.old.shelf self.new.shelf }
        ensures answer { result ≡ remove_answer (lines self.old) number }
        ensures after { lines self.new ≡ removed number (lines self.old) }
        ensures refused { is_ok result ≡ false → self.new.shelf ≡ self.old.shelf }
        ensures gone { has number (lines self.new) ≡ false }
    {
        let place = place_of(self.lines(), number).ok_or(Refusal::NoSuchLine)?;
        self.shelf.take_out(place)?;
        Ok(())
    }

    /// The position of the top line, or none where no line stands. It is the line of the largest
    /// cycle, and of several in that cycle the one with the smallest number.
    pub fn top(&self) -> Option<usize>
        ensures value { result ≡ chosen newer (lines self.now) }
        ensures leads { Leads newer (lines self.now) result }
    {
        self.shelf.first()
    }

    /// The text of the line at a position, counted from 0: its bytes, lent from this store.
    ///
    /// `NoSuchLine` (52) where no line stands there, else `OutsideStore` (53) where the text begins
    /// or ends behind the store's end.
    pub fn show<'s>(&self, position: usize, store: &'s [u8]) -> Result<&'s [u8], Refusal>
        ensures { handed result ≡ shown (lines self.now) position store.now }
    {
        let line = self.lines().get(position).ok_or(Refusal::NoSuchLine)?;
        part_of(*line, store)
    }
}
