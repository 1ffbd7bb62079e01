ghost use Rattle.std.specs.Prelude.{◌≡◌, ◌<◌, ◌+◌, ◌++◌, [], ◌∷◌, map, length, IfOk, IfErr, OnOk};
ghost use Rattle.telegram.specs.Whole.{whole_of};
ghost use Rattle.cab_unit.specs.Events.{said};
ghost use Rattle.plan.specs.Calls.{calls_for, entry_calls, list_or, planned, telegram_calls};
ghost use Rattle.plan.specs.Rows.{at_line, line_rows, rows_for, telegram_rows};
ghost use Rattle.plan.specs.declared.cab.Cab.TheVariants.{Bus, Pulse};
ghost use Rattle.plan.specs.declared.rows.Told.TheVariants as tells;

use crate::cab::Cab;
use crate::note::Note;
use crate::rows::{Places, Row, Told};
use cab_unit::Call;
use call_list::{Entry, Listed};
use driver_desk::Draft;
use std::alloc::{AllocError, Global};
use telegram::{Reading, read_all};

/// What one cab gets of a call list, and what is told of it.
#[derive(Drop)]
pub struct Plan<'a> {
    /// The calls, in the order in which the cab is to make them.
    pub calls: Vec<Call<'a>>,
    /// The rows, in the order of the list. Each row of a call tells of the next one of `calls`.
    pub rows: Vec<Row>,
}

/// What is asked of both cabs.
#[derive(Drop)]
pub struct Plans<'a> {
    /// What the bus cab gets.
    pub bus: Plan<'a>,
    /// What the pulse cab gets.
    pub pulse: Plan<'a>,
}

impl<'a> Plan<'a> {
    fn add_row(&mut self, line: usize, told: Told) -> Result<(), AllocError>
        ensures calls { self.new.calls.items ≡ self.old.calls.items }
        ensures rows { OnOk result (self.new.rows.items ≡
            self.old.rows.items ++ (at_line line told ∷ [])) }
    {
        self.rows.push(Row { line, told })?;
        Ok(())
    }

    fn add_call(
        &mut self,
        line: usize,
        call: Call<'a>,
        places: Option<Places>,
    ) -> Result<(), AllocError>
        ensures calls { OnOk result (planned self.new ≡
            planned self.old ++ (said call.entry ∷ [])) }
        ensures rows { OnOk result (self.new.rows.items ≡
            self.old.rows.items ++ (at_line line (tells.Call places) ∷ [])) }
    {
        self.calls.push(call)?;
        self.add_row(line, Told::Call(places))
    }

    // The orders of a telegram are calls, up to its end or its first fault.
    fn add_reading(&mut self, line: usize, reading: &Reading<'a>) -> Result<(), AllocError>
        ensures calls { OnOk result (planned self.new ≡
            planned self.old ++ telegram_calls (whole_of reading.now)) }
        ensures rows { OnOk result (self.new.rows.items ≡
            self.old.rows.items ++ map (at_line line) (telegram_rows (whole_of reading.now))) }
    {
        for placed in &reading.orders {
            let places = Places {
                first: placed.first,
                after: placed.after,
            };
            self.add_call(line, Call::Order(placed.order), Some(places))?;
        }
        self.add_row(line, Told::Note(Note::of_ending(reading.ending)))
    }

    fn add_entry(&mut self, heap: Global, cab: Cab, listed: &'a Listed) -> Result<(), AllocError>
        ensures calls { OnOk result (planned self.new ≡
            planned self.old ++ entry_calls cab listed.now.entry) }
        ensures rows { OnOk result (self.new.rows.items ≡
            self.old.rows.items ++ line_rows listed.now) }
    {
        let line = listed.line;
        match &listed.entry {
            Entry::Cycle { bus, pulse } => {
                let block = cab.block_of(bus.as_slice(), pulse.as_slice());
                self.add_call(line, Call::Cycle(block), None)
            }
            Entry::Telegram(bytes) => {
                let reading = read_all(heap, bytes.as_slice())?;
                self.add_reading(line, &reading)
            }
            Entry::Press(button) => self.add_call(line, Call::Press(*button), None),
            Entry::Order(order) => self.add_call(line, Call::Order(*order), None),
            Entry::Record {
                driver,
                length,
                percentage,
                speed,
            } => match Draft::new(*driver, *length, *percentage, *speed) {
                Ok(draft) => self.add_call(line, Call::Take(draft.no()), None),
                Err(refusal) => self.add_row(line, Told::Note(Note::Draft(refusal))),
            },
        }
    }
}

/// What a call list asks of a cab. The calls borrow their bytes from the list.
///
/// A cycle gives this cab's own block, a telegram its orders up to the end or the first fault, a
/// press its button, a record its taking where no draft refuses its numbers, and an order itself.
///
/// Want of memory is the only error, and comes only where the list has a line.
pub fn plan_list<'a>(heap: Global, cab: Cab, listed: &'a [Listed]) -> Result<Plan<'a>, AllocError>
    ensures calls { IfOk result (λ p. planned p ≡ calls_for cab listed.now) }
    ensures rows { IfOk result (λ p. p.rows.items ≡ rows_for listed.now) }
    ensures memory { IfErr result (λ _. 0 < length listed.now) }
{
    let mut plan = Plan {
        calls: Vec::new(heap),
        rows: Vec::new(heap),
    };
    for one in listed {
        plan.add_entry(heap, cab, one)?;
    }
    Ok(plan)
}

/// What is asked of both cabs: the bus cab gets the list, and the pulse cab the second list where
/// there is one, else the same list. Each cab gets its own block of a cycle.
///
/// Want of memory is the only error, and comes only where one of the lists has a line.
pub fn plan_lists<'a>(
    heap: Global,
    listed: &'a [Listed],
    second: Option<&'a [Listed]>,
) -> Result<Plans<'a>, AllocError>
    ensures bus_calls { IfOk result (λ p. planned p.bus ≡ calls_for Bus listed.now) }
    ensures bus_rows { IfOk result (λ p. p.bus.rows.items ≡ rows_for listed.now) }
    ensures pulse_calls { IfOk result
        (λ p. planned p.pulse ≡ calls_for Pulse (list_or listed.now second.entry)) }
    ensures pulse_rows { IfOk result
        (λ p. p.pulse.rows.items ≡ rows_for (list_or listed.now second.entry)) }
    ensures memory { IfErr result (λ _. 0 <
        length listed.now + length (list_or listed.now second.entry)) }
{
    let bus = plan_list(heap, Cab::Bus, listed)?;
    let pulse = plan_list(heap, Cab::Pulse, second.unwrap_or(listed))?;
    Ok(Plans { bus, pulse })
}
