//! Tests of traces beside the rows of `tests/*.rows`: single pulls and pushes, and those that fail,
//! the results that a reader returns for good, and steps that are added.

ghost use Rattle.std.specs.Prelude.{◌≡◌, ◌<◌, ◌≤◌, ◌∷◌, [], ◌++◌, length, false, IfOk};
ghost use Rattle.std.specs.List.{AllByRecursion};
ghost use Rattle.trace_items.specs.Inferences.{IsNumber, numbers};
ghost use Rattle.step_index.specs.Numbers.{is_used};

use qbf_core::{Lit, LitBuffer, Quantifier, Var};
use qbf_text::{PieceOptions, PieceSink, PieceSource, SliceSource, VecSink};
use qrp::*;
use std::alloc::Global;
use std::process::Abort;
use std::test::Fail;
use step_index::StepIndex;
use trace_items::{
    CompactTrace, FlatTrace, Header, Item, KeptSteps, Outcome, QuantSet, Step, Steps, Trace,
};

const TRACE: &[u8] =
    b"p qrp 2 5\ne 1 0\na 2 0\n1 1 2 0 0\n2 -1 2 0 0\n3 1 0 1 0\n4 -1 0 2 0\n5 0 3 4 0\nr unsat\n";

/// The trace of a text that is read in pieces.
fn trace_of(alloc: Global, text: &[u8], piece: usize) -> Result<Trace, Fail>
    requires { 0 < piece }
{
    Ok(read_trace(alloc, &mut PieceSource::new(text, piece, 0))?)
}

/// The canonical text of a trace, which goes to a sink that has nothing yet, is this.
fn assert_written_to(rt: &impl Abort, sink: &mut VecSink, trace: &Trace, wanted: &[u8]) {
    assert!(rt; write_trace(trace, sink).is_ok());
    assert_eq!(rt; sink.bytes(), wanted);
}

/// Reads a trace in pieces, and compares its canonical text.
fn assert_read(
    rt: &(impl Abort + AllocGlobal),
    text: &[u8],
    wanted: &[u8],
    piece: usize,
) -> Result<(), Fail>
    requires { 0 < piece }
{
    let trace = trace_of(rt.alloc(), text, piece)?;
    let mut sink = VecSink::new(rt.alloc(), 0)?;
    assert_written_to(rt, &mut sink, &trace, wanted);
    Ok(())
}

/// Steps with numbers of each length, an empty set, a variable that stands twice in its set, line
/// ends of two bytes, tabs, leading zeros, comments before the header and between numbers, and a
/// result in capitals.
const MIXED: &[u8] =
    b"# p\np qrp 99999999 09\r\ne 0\ne 1 2 01 0\na 12345678 0\n1 1 -2 0 0\r\n22 -1\t2 0 1 0\n\
    # c\n333 0\nc\n 0\n4444 1 0 1 22 0\n55555 12345678 0 00\n666666 -1 0 333 0\n\
    7777777 1 \n 2 0 0\n88888888 001 0 4444 22 0\n999999999 0 0\n\
    18446744073709551615 2 0 999999999 0\nr UnSAT\n";

/// The same steps as they are written.
const PLAIN: &[u8] =
    b"p qrp 99999999 9\ne 0\ne 1 2 1 0\na 12345678 0\n1 1 -2 0 0\n22 -1 2 0 1 0\n333 0 0\n\
    4444 1 0 1 22 0\n55555 12345678 0 0\n666666 -1 0 333 0\n7777777 1 2 0 0\n\
    88888888 1 0 4444 22 0\n999999999 0 0\n18446744073709551615 2 0 999999999 0\nr unsat\n";

#[test]
fn reads_pieces_of_each_size(rt: HostRuntime) -> Result<(), Fail> {
    for piece in 1..=130 {
        assert_read(&rt, MIXED, PLAIN, piece)?;
        assert_read(&rt, PLAIN, PLAIN, piece)?;
    }
    Ok(())
}

/// A text that is refused, how many of its bytes are looked at, and its fault. The last byte that
/// is looked at is the one after the wrong token, or the end.
type Refused = (&'static [u8], u64, TraceFault, u64);

const REFUSED: [Refused; 15] = [
    (b"p qrp x 0\nr sat\n", 8, TraceFault::P2, 1),
    (b"p qrp 1\ne 1 0\n", 10, TraceFault::P2, 2),
    (b"p qrp 0 0\nsat r\n", 14, TraceFault::P3, 2),
    (b"p qrp 0 0\n7 x 0\n", 14, TraceFault::P3, 2),
    (b"p qrp 0 0\n1 0 0\na 1 0\nr sat\n", 18, TraceFault::P3, 3),
    (b"p qrp 0 0\ne 0 0\nr sat\n", 16, TraceFault::P4, 2),
    (b"p qrp 0 0\n7 0 0\n7 0 0\n", 18, TraceFault::P5, 3),
    (
        b"p qrp 0 0\n9 0 0\n7 0 0\n7 0 0\nr sat\n",
        24,
        TraceFault::P5,
        4,
    ),
    (
        b"p qrp 0 0\n9 0 0\n99999 0 0\n99999 0 0\nr sat\n",
        32,
        TraceFault::P5,
        4,
    ),
    (b"p qrp 0 0\n7 0 1 2 3 0\n", 20, TraceFault::P6, 2),
    (b"p qrp 0 0\n", 11, TraceFault::P7, 2),
    (b"p qrp 0 0\n7 0 0\n", 17, TraceFault::P7, 3),
    (b"p qrp 0 0\n1 0 0\nr\n", 19, TraceFault::P7, 4),
    (b"p qrp 0 0\nr cnf after it", 16, TraceFault::P8, 2),
    (b"p qrp 0 0\nr satx\n", 17, TraceFault::P8, 2),
];

/// The trace of this source has this fault.
fn assert_refused(
    rt: &(impl Abort + AllocGlobal),
    source: &mut PieceSource<'_>,
    wanted: (TraceFault, u64),
) {
    match read_trace(rt.alloc(), source) {
        Ok(_) => panic!(rt; "no fault {wanted:?}"),
        Err(fault) => assert_eq!(rt; fault, wanted),
    }
}

/// Reads up to the first fault, with ten items before it at most.
fn first_fault(
    reader: &mut TraceReader,
    source: &mut PieceSource<'_>,
) -> Option<(TraceFault, u64)> {
    for _ in 0..11 {
        if let Err(fault) = reader.next_item(source) {
            return Some(fault);
        }
    }
    None
}

/// Whether the next item is this fault.
fn gives(
    reader: &mut TraceReader,
    source: &mut PieceSource<'_>,
    wanted: (TraceFault, u64),
) -> bool {
    matches!(reader.next_item(source), Err(fault) if fault == wanted)
}

/// The next three items are this fault, and nothing is pulled for them.
fn assert_given_again(
    rt: &impl Abort,
    reader: &mut TraceReader,
    source: &mut PieceSource<'_>,
    wanted: (TraceFault, u64),
) {
    let pulls = source.pulls();
    for _ in 0..3 {
        assert!(rt; gives(reader, source, wanted), "{wanted:?}");
    }
    assert_eq!(rt; source.pulls(), pulls);
}

/// Reads up to the first fault, which three more calls give again, and they pull nothing.
fn assert_given_for_good(
    rt: &(impl Abort + AllocGlobal),
    source: &mut PieceSource<'_>,
    wanted: (TraceFault, u64),
) {
    let mut reader = TraceReader::new(rt.alloc());
    assert_eq!(rt; first_fault(&mut reader, source), Some(wanted));
    assert_given_again(rt, &mut reader, source, wanted);
}

/// The trace of this text has this fault, read as a whole or item by item, and is pulled equally
/// often. Returns how often. The pieces that are pulled have this size, and the pull with this
/// number fails.
fn assert_fault(
    rt: &(impl Abort + AllocGlobal),
    text: &[u8],
    pieces: (usize, u64),
    wanted: (TraceFault, u64),
) -> u64
    requires { 0 < pieces.0 }
{
    let mut whole = PieceSource::new(text, pieces.0, pieces.1);
    assert_refused(rt, &mut whole, wanted);
    let mut by_items = PieceSource::new(text, pieces.0, pieces.1);
    assert_given_for_good(rt, &mut by_items, wanted);
    assert_eq!(rt; by_items.pulls(), whole.pulls());
    whole.pulls()
}

#[test]
fn says_for_good_that_a_source_failed(rt: HostRuntime) {
    for fail_at in 1..=82 {
        let pulls = assert_fault(&rt, TRACE, (1, fail_at), (TraceFault::P1, 0));
        assert_eq!(rt; pulls, fail_at);
    }
}

#[test]
fn gives_each_fault_of_a_text_for_good(rt: HostRuntime) {
    for (text, looked_at, fault, line) in REFUSED {
        assert_fault(&rt, text, (4096, 0), (fault, line));
        // The next pull would fail.
        let fail_at = looked_at.saturating_add(1);
        let pulls = assert_fault(&rt, text, (1, fail_at), (fault, line));
        assert_eq!(rt; pulls, looked_at);
    }
}

/// A letter for the kind of the next item of `TRACE`.
fn next_letter(reader: &mut TraceReader, source: &mut PieceSource<'_>) -> u8 {
    match reader.next_item(source) {
        Ok(Item::Header(Header { vars: 2, steps: 5 })) => b'h',
        Ok(Item::Set(_)) => b'q',
        Ok(Item::Step(_)) => b's',
        Ok(Item::Result(Outcome::Unsat)) => b'r',
        _ => b'-',
    }
}

#[test]
fn gives_the_items_and_then_the_result_for_good(rt: HostRuntime) {
    // The byte after the result word is the last one that is looked at: the next pull would fail.
    let mut source = PieceSource::new(TRACE, 1, 83);
    let mut reader = TraceReader::new(rt.alloc());
    for wanted in *b"hqqsssssrrrr" {
        assert_eq!(rt; next_letter(&mut reader, &mut source), wanted);
    }
    assert_eq!(rt; source.pulls(), 82);
}

/// The reader gives an item.
fn gives_item(reader: &mut TraceReader, source: &mut SliceSource<'_>) -> bool {
    reader.next_item(source).is_ok()
}

/// The index has only the number 9.
fn assert_nine(rt: &impl Abort, index: &StepIndex) {
    assert_eq!(rt; index.len(), 1);
    assert_eq!(rt; index.position(9), Some(0));
    assert_eq!(rt; index.position(7), None);
    if 0 < index.len() {
        assert_eq!(rt; index.number(0), 9);
    }
}

#[test]
fn hands_over_the_numbers(rt: HostRuntime) {
    // The second step is not complete, so its number was not given.
    let mut source = SliceSource::new(b"p qrp 0 0\n9 0 0\n7 1 0");
    let mut reader = TraceReader::new(rt.alloc());
    for wanted in [true, true, false] {
        assert_eq!(rt; gives_item(&mut reader, &mut source), wanted);
    }
    assert_nine(&rt, &reader.into_index());
}

/// The trace has five steps. The literals of the first two and the antecedent of the third are held
/// at once.
fn assert_slices(rt: &impl Abort, flat: &FlatTrace, one: Var, two: Var) {
    assert_eq!(rt; flat.len(), 5);
    let (first, second, ants) = (flat.lits(0), flat.lits(1), flat.ants(2));
    let negative = Lit::new(one, true);
    assert_eq!(rt;
        first,
        [negative.negated(), Lit::new(two, false)].as_slice()
    );
    assert_eq!(rt; second, [negative, Lit::new(two, false)].as_slice());
    assert_eq!(rt; ants, [1].as_slice());
}

/// The parts of the trace beside its steps, and the position of a step.
fn assert_parts(rt: &impl Abort, flat: &FlatTrace) {
    assert_eq!(rt; flat.header(), Header { vars: 2, steps: 5 });
    assert_eq!(rt; flat.sets().len(), 2);
    assert_eq!(rt; flat.result(), Outcome::Unsat);
    assert_eq!(rt; flat.position(4), Some(3));
}

#[test]
fn lends_slices_at_once(rt: HostRuntime) -> Result<(), Fail> {
    let flat = read_flat(rt.alloc(), &mut SliceSource::new(TRACE))?;
    let one = Var::new(1).expect(&rt, "a variable");
    let two = Var::new(2).expect(&rt, "a variable");
    assert_slices(&rt, &flat, one, two);
    assert_parts(&rt, &flat);
    Ok(())
}

// ---- calls in which an allocation fails, and which are then tried again
//
// With memory these tests try nothing twice. tests/library/test-refusals makes each of their
// allocations fail in turn.

/// Reads the items up to the first fault. If an allocation fails, that is P9 on line 0, which three
/// more calls give again, and they pull nothing.
#[test]
fn gives_out_of_memory_for_good(rt: HostRuntime) {
    let mut source = PieceSource::new(TRACE, 1, 0);
    let mut reader = TraceReader::new(rt.alloc());
    if let Some(fault) = first_fault(&mut reader, &mut source) {
        assert_eq!(rt; fault, (TraceFault::P9, 0));
        assert_given_again(&rt, &mut reader, &mut source, fault);
    }
}

/// The items in a list, at the second try if an allocation fails.
fn list_of<T: Copy>(alloc: Global, items: &[T]) -> Result<Vec<T>, Fail>
    ensures { IfOk result (λ list. list.items ≡ items.now) }
{
    match Vec::from_slice(alloc, items) {
        Ok(list) => Ok(list),
        Err(_) => Ok(Vec::from_slice(alloc, items)?),
    }
}

/// Adds a set. If an allocation fails, the trace has as many sets as before, and the second try
/// adds it.
fn push_set_again(rt: &impl Abort, trace: &mut Trace, set: QuantSet)
    ensures { trace.new ≡ record trace.old { sets = trace.old.sets ++ set ∷ [] } }
{
    let sets = trace.sets().len();
    if let Err(back) = trace.push_set(set) {
        assert_eq!(rt; trace.sets().len(), sets);
        assert!(rt; trace.push_set(back).is_ok());
    }
}

/// Adds a step. If an allocation fails, the trace has as many steps as before, and the second try
/// adds it.
fn push_step_again(rt: &impl Abort, trace: &mut Trace, step: Step)
    requires number { IsNumber step.number }
    requires fresh { is_used step.number (numbers trace.old.steps) ≡ false }
    requires ants { AllByRecursion IsNumber step.ants }
    requires few { length step.ants ≤ 2 }
    ensures { numbers trace.new.steps ≡ numbers trace.old.steps ++ step.number ∷ [] }
{
    let (steps, number) = (trace.len(), step.number);
    if let Err(back) = trace.push_step(step) {
        assert_eq!(rt; trace.len(), steps);
        assert_eq!(rt; trace.position(number), None);
        assert!(rt; trace.push_step(back).is_ok());
    }
}

/// A step with one literal.
fn step_of(alloc: Global, number: u64, lit: Lit, ants: &[u64]) -> Result<Step, Fail>
    ensures { IfOk result (λ step. (step.number ≡ number) × (step.ants ≡ ants.now)) }
{
    Ok(Step {
        number,
        lits: list_of(alloc, &[lit])?,
        ants: list_of(alloc, ants)?,
    })
}

/// A trace of one set and no steps, which is added at the second try if an allocation fails.
fn one_set(rt: &impl Abort, alloc: Global, one: Var) -> Result<Trace, Fail>
    ensures { IfOk result (λ trace. trace.steps ≡ []) }
{
    let mut trace = Trace::new(alloc, Header { vars: 1, steps: 3 }, Outcome::Unsat);
    let set = QuantSet {
        quantifier: Quantifier::Exists,
        vars: list_of(alloc, &[one])?,
    };
    push_set_again(rt, &mut trace, set);
    Ok(trace)
}

/// A sink with room, at the second try if an allocation fails.
fn sink_of(alloc: Global, room: usize) -> Result<VecSink, Fail> {
    match VecSink::new(alloc, room) {
        Ok(sink) => Ok(sink),
        Err(_) => Ok(VecSink::new(alloc, room)?),
    }
}

/// Adds three steps, each at the second try if an allocation fails.
fn add_steps_again(rt: &impl Abort, alloc: Global, trace: &mut Trace, lit: Lit) -> Result<(), Fail>
    requires { trace.old.steps ≡ [] }
{
    push_step_again(rt, trace, step_of(alloc, 7, lit, &[])?);
    push_step_again(rt, trace, step_of(alloc, 3, lit, &[7])?);
    push_step_again(rt, trace, step_of(alloc, 9, lit, &[3, 7])?);
    Ok(())
}

/// A trace of one set and three steps, each added at the second try if an allocation fails.
fn three_steps(rt: &impl Abort, alloc: Global, one: Var) -> Result<Trace, Fail> {
    let mut trace = one_set(rt, alloc, one)?;
    add_steps_again(rt, alloc, &mut trace, Lit::new(one, true))?;
    Ok(trace)
}

#[test]
fn grows_again_after_a_refusal(rt: HostRuntime) -> Result<(), Fail> {
    let one = Var::new(1).expect(&rt, "a variable");
    let trace = three_steps(&rt, rt.alloc(), one)?;
    let mut sink = sink_of(rt.alloc(), 100)?;
    let wanted = b"p qrp 1 3\ne 1 0\n7 -1 0 0\n3 -1 0 7 0\n9 -1 0 3 7 0\nr unsat\n";
    assert_written_to(&rt, &mut sink, &trace, wanted);
    Ok(())
}

/// A sink with this room takes a beginning of the trace.
fn assert_cut(rt: &impl Abort, alloc: Global, trace: &Trace, room: u64) -> Result<(), Fail>
    requires { room ≤ 81 }
{
    let options = PieceOptions {
        piece: 1,
        room: Some(room),
        finish_fails: false,
        reserve: 0,
    };
    let mut sink = PieceSink::new(alloc, options)?;
    assert!(rt; write_trace(trace, &mut sink).is_err());
    assert_eq!(rt; sink.bytes(), &TRACE[..room as usize]);
    Ok(())
}

#[test]
fn leaves_the_sink_unfinished(rt: HostRuntime) -> Result<(), Fail> {
    let trace = trace_of(rt.alloc(), TRACE, 4096)?;
    // A `finish` of this sink fails.
    let options = PieceOptions {
        piece: 4096,
        room: None,
        finish_fails: true,
        reserve: 82,
    };
    let mut sink = PieceSink::new(rt.alloc(), options)?;
    assert!(rt; write_trace(&trace, &mut sink).is_ok());
    assert_eq!(rt; sink.bytes(), TRACE);
    Ok(())
}

#[test]
fn writes_a_beginning(rt: HostRuntime) -> Result<(), Fail> {
    let trace = trace_of(rt.alloc(), TRACE, 4096)?;
    for room in [0, 5, 33, 81] {
        assert_cut(&rt, rt.alloc(), &trace, room)?;
    }
    Ok(())
}

/// The second and the fourth of five steps are written.
fn assert_two_written(rt: &impl Abort, alloc: Global, trace: &CompactTrace) -> Result<(), Fail> {
    assert_eq!(rt; trace.len(), 5);
    let mut sink = VecSink::new(alloc, 0)?;
    assert!(rt; write_steps_at(trace, &[1, 3], &mut sink).is_ok());
    assert_eq!(rt;
        sink.bytes(),
        b"p qrp 2 2\ne 1 0\na 2 0\n2 -1 2 0 0\n4 -1 0 2 0\nr unsat\n".as_slice()
    );
    Ok(())
}

#[test]
fn writes_the_steps_at_some_places(rt: HostRuntime) -> Result<(), Fail> {
    let trace = read_compact(rt.alloc(), &mut SliceSource::new(TRACE))?;
    assert_two_written(&rt, rt.alloc(), &trace)
}

/// Steps whose literals lie at the ends of what one, two and four bytes can hold.
const WIDE: &[u8] =
    b"p qrp 2147483647 7\n1 127 -127 0 0\n2 1 128 0 0\n3 -128 0 0\n4 32767 -32767 5 0 0\n\
    5 -3 32768 0 0\n6 2147483647 -2147483647 1 0 0\n7 0 0\nr unsat\n";

/// The literals of a step are the same if they are unpacked, and if they are read one by one.
fn assert_same_literals(
    rt: &impl Abort,
    trace: &CompactTrace,
    i: usize,
    buffer: &mut LitBuffer,
) -> Result<(), Fail>
    requires { i < length trace.now.steps }
{
    let mut left = trace.lits_left(i);
    for lit in trace.unpacked(i, buffer)? {
        assert_eq!(rt; left.next(), Some(*lit));
    }
    assert_eq!(rt; left.next(), None);
    Ok(())
}

/// All steps are written as they were read, and each gives its literals.
fn assert_wide(rt: &impl Abort, alloc: Global, trace: &CompactTrace) -> Result<(), Fail> {
    assert_eq!(rt; trace.len(), 7);
    let mut sink = VecSink::new(alloc, 0)?;
    assert!(rt; write_steps_at(trace, &[0, 1, 2, 3, 4, 5, 6], &mut sink).is_ok());
    assert_eq!(rt; sink.bytes(), WIDE);
    let mut buffer = LitBuffer::new(alloc);
    for i in 0..7 {
        assert_same_literals(rt, trace, i, &mut buffer)?;
    }
    Ok(())
}

#[test]
fn keeps_literals_of_each_width(rt: HostRuntime) -> Result<(), Fail> {
    let trace = read_compact(rt.alloc(), &mut SliceSource::new(WIDE))?;
    assert_wide(&rt, rt.alloc(), &trace)
}
