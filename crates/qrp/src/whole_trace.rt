//! Traces of which each item is kept as it is read.

ghost use Rattle.std.specs.Prelude.{◌≡◌, ◌≤◌, length, Ok, IfOk};
ghost use Rattle.qbf_text.specs.TakenNumbers.{LeadsOver};
ghost use Rattle.trace_items.specs.Flat.{kept_of, trace_of, IsFlat};
ghost use Rattle.qrp.specs.Returns.{ReadsTrace};
ghost use Rattle.qrp.specs.WholeTrace.{made_of, nothing_read, trace_row, trace_with, HasResult};
ghost use Rattle.window_numbers.specs.Values.{numbers_of};

use crate::buffered_numbers::{NextPlaces, keep_part, keep_steps, zeros_left};
use crate::fault::{TraceFault, trace_fault};
use crate::states::{State, take_at};
use dimacs_syntax::HeaderAt;
use qbf_text::{Grammar, Progress, Scanner, Source, Stop, Taken, read_by};
use qbf_tokens::{Comments, Token};
use std::alloc::{AllocError, Global};
use std::marker::Model;
use trace_items::{Outcome, Part, Parts, StepLists, close};
use window_numbers::{Values, Zeros};

/// A trace that is read as a whole. The lists of its whole steps are kept in an `A`.
///
/// Contracts see the trace that is made so far, and the state.
#[derive(Drop)]
pub struct TraceGrammar<A: StepLists> {
    state: State,
    parts: Parts<A>,
}

impl<A: StepLists> Model for TraceGrammar<A> {
    ghost use Rattle.qrp.specs.WholeTrace.{trace_at, AreSound, TraceRead};

    ghost Value = { TraceRead };

    ghost view = { λ g. trace_at A.lists g.parts g.state };

    ghost invariant = { λ g. AreSound A.lists g.state g.parts };
}

impl<A: StepLists> TraceGrammar<A> {
    /// At the beginning of a trace. It takes no memory.
    pub fn new(alloc: Global) -> TraceGrammar<A>
        ensures { result ≡ nothing_read }
    {
        TraceGrammar {
            state: State::InHeader(HeaderAt::P),
            parts: Parts::new(alloc),
        }
    }

    /// Takes a part that begins here or has begun, as far as its numbers are buffered, and keeps it
    /// if it is complete. Returns the place of the next number.
    ///
    /// # Errors
    /// Out of memory.
    #[cold]
    #[inline(never)]
    fn take_part(&mut self, values: Values, next: NextPlaces) -> Result<usize, AllocError>
        requires { next.from ≤ length (numbers_of values) }
        ensures leads { IfOk result (λ to. LeadsOver trace_row self.old self.new
            (numbers_of values.entry) next.from to) }
        ensures within { IfOk result (λ to. to ≤ length (numbers_of values.entry)) }
    {
        let (state, reached) = keep_part(self.state, &mut self.parts, values, next);
        self.state = state;
        reached
    }

    /// Takes the rest of an unfinished part, if there is one. Returns the place of the next number.
    ///
    /// # Errors
    /// Out of memory.
    #[inline(always)]
    #[tactic(auto, using(crate::proofs::BufferedNumbers::numbers_lead_on))]
    fn take_unfinished(&mut self, values: Values, zeros: Zeros) -> Result<usize, AllocError>
        ensures leads { IfOk result
            (λ to. LeadsOver trace_row self.old self.new (numbers_of values.entry) 0 to) }
        ensures within { IfOk result (λ to. to ≤ length (numbers_of values.entry)) }
    {
        match self.state {
            State::Between => Ok(0),
            _ => self.take_part(values, NextPlaces::new(0, zeros, 0)),
        }
    }

    /// Goes over the buffered numbers as far as they are taken, and returns how many these are.
    ///
    /// # Errors
    /// Out of memory.
    #[inline(never)]
    fn take_known_steps(&mut self, values: Values, zeros: Zeros) -> Result<usize, AllocError>
        ensures leads { IfOk result
            (λ to. LeadsOver trace_row self.old self.new (numbers_of values.entry) 0 to) }
        ensures within { IfOk result (λ to. to ≤ length (numbers_of values.entry)) }
    {
        let zero = zeros_left(self.state);
        let first = self.take_unfinished(values, zeros)?;
        let State::Between = self.state else {
            return Ok(first);
        };
        let (from, zero) = keep_steps(&mut self.parts, values, zeros, (first, zero))?;
        if from >= values.len() {
            return Ok(from);
        }
        self.take_part(values, NextPlaces::new(from, zeros, zero))
    }

    /// The parts that were kept, and the result. It takes no memory.
    pub fn into_parts(self) -> (Parts<A>, Outcome)
        requires { HasResult self.state }
        ensures made { made_of self
            ≡ Ok (record (trace_of (kept_of A.lists result.0)) { result = result.1 }) }
        ensures flat { IsFlat (kept_of A.lists result.0) }
    {
        match self.state {
            State::After(Part::Result(outcome)) => {
                let mut parts = self.parts;
                parts.lists.index.place_all();
                (parts, outcome)
            }
            _ => unreachable!(),
        }
    }
}

impl<A: StepLists> Grammar for TraceGrammar<A> {
    ghost use Rattle.qrp.specs.WholeTrace.{trace_row, TraceRead};

    type Output = ();

    type Fault = TraceFault;

    ghost State = { TraceRead };

    ghost state = { λ g. g };

    ghost row_of = { trace_row };

    ghost Kept = { Unit {0} };

    ghost kept = { λ _. tt };

    #[inline(always)]
    fn take_numbers(&mut self, values: Values, zeros: Zeros) -> Result<Progress<()>, AllocError> {
        let count = self.take_known_steps(values, zeros)?;
        Ok((count, None))
    }

    #[inline(always)]
    fn take(&mut self, token: Token) -> Result<Taken<()>, Stop<TraceFault>> {
        self.state = take_at(self.state, &mut self.parts.lists, token)?;
        match self.state {
            State::After(Part::Result(_)) => Ok(Taken::Done(())),
            State::After(part) => {
                self.state = State::Between;
                match close(&mut self.parts, part) {
                    Ok(()) => Ok(Taken::More),
                    Err(_) => Err(Stop::Memory),
                }
            }
            _ => Ok(Taken::More),
        }
    }
}

/// Reads the parts of a trace and its result, as `read_trace` does.
///
/// # Errors
/// As of `read_trace`.
pub fn read_parts<A: StepLists, S: Source>(
    alloc: Global,
    source: &mut S,
) -> Result<(Parts<A>, Outcome), (TraceFault, u64)>
    ensures reads { ReadsTrace (S.remaining source.old) (S.remaining source.new)
        (S.failures source.old) (S.failures source.new) (trace_with A.lists result) }
    ensures flat { IfOk result (λ r. IsFlat (kept_of A.lists r.0)) }
{
    let mut grammar = TraceGrammar::new(alloc);
    let mut scanner = Scanner::new(Comments::Qrp);
    if let Err(error) = read_by(&mut grammar, &mut scanner, source) {
        return Err(trace_fault(error));
    }
    Ok(grammar.into_parts())
}
