//! Literals that are added to a list as the numbers that they are.

ghost use Rattle.std.specs.Prelude.{◌≡◌, ◌≤◌, ◌<◌, ◌+◌, ◌++◌, false, length, map, pos, take};
ghost use Rattle.std.specs.Prelude.{slice_index_or, slice_range, IfSome, IfOk, IsTrue, OnErr};
ghost use Rattle.std.specs.List.{AllByRecursion};
ghost use Rattle.qbf_core.specs.WrittenLiterals.{literal_of, ArePut, IsWritten};
ghost use Rattle.qbf_core.specs.declared.literal.TheConstants.{LAST_VARIABLE};

use crate::literal::{Lit, is_written};
use lists::GrowingLists;
use std::alloc::AllocError;

/// The number at a place.
#[inline(always)]
fn number_at(numbers: &[i32], place: usize) -> i32
    requires { place < length numbers.now }
    ensures { result ≡ slice_index_or numbers.now place (pos 0) }
{
    numbers[place]
}

/// The literal that the number at a place is, of a variable up to `last`, or `None` if it is not
/// such a literal.
#[inline(always)]
fn one_written(numbers: &[i32], place: usize, last: u32) -> Option<Lit>
    requires place { place < length numbers.now }
    requires last { last ≤ LAST_VARIABLE }
    ensures literal { IfSome result (λ l. l ≡ literal_of (slice_index_or numbers.now place (pos 0))) }
    ensures written { IfSome result
        (λ _. IsWritten last (slice_index_or numbers.now place (pos 0))) }
{
    let number = number_at(numbers, place);
    if is_written(number, last) {
        Some(Lit::of_written(number))
    } else {
        None
    }
}

/// The four literals that the numbers from a place on are, of variables up to `last`, or `None` if
/// one of them is not such a literal.
#[inline(always)]
fn four_written(numbers: &[i32], place: usize, last: u32) -> Option<[Lit; 4]>
    requires place { place + 4 ≤ length numbers.now }
    requires last { last ≤ LAST_VARIABLE }
    ensures literals { IfSome result
        (λ f. f ≡ map literal_of (slice_range numbers.now place (place + 4))) }
    ensures written { IfSome result
        (λ _. AllByRecursion (IsWritten last) (slice_range numbers.now place (place + 4))) }
{
    let first = number_at(numbers, place);
    let second = number_at(numbers, place + 1);
    let third = number_at(numbers, place + 2);
    let fourth = number_at(numbers, place + 3);
    if is_written(first, last)
        & is_written(second, last)
        & is_written(third, last)
        & is_written(fourth, last)
    {
        Some([
            Lit::of_written(first),
            Lit::of_written(second),
            Lit::of_written(third),
            Lit::of_written(fourth),
        ])
    } else {
        None
    }
}

/// Adds the literals that the four numbers from a place on are. `false` if one is not a literal.
///
/// # Errors
/// Out of memory. Nothing is changed then.
#[inline(always)]
fn put_four(
    lists: &mut GrowingLists<Lit>,
    numbers: &[i32],
    place: usize,
    last: u32,
) -> Result<bool, AllocError>
    requires place { place + 4 ≤ length numbers.now }
    requires last { last ≤ LAST_VARIABLE }
    ensures put { IfOk result (λ b. IsTrue b → ArePut lists.old.unfinished
        (slice_range numbers.now place (place + 4)) last lists.new.unfinished) }
    ensures kept { IfOk result (λ b. b ≡ false → lists.new ≡ lists.old)
        × OnErr result (lists.new ≡ lists.old) }
    ensures whole { lists.new.whole ≡ lists.old.whole }
{
    let Some(four) = four_written(numbers, place, last) else {
        return Ok(false);
    };
    lists.extend(&four)?;
    Ok(true)
}

/// Adds the literals that four numbers or more are, four at a time and the last four again. `false`
/// if one of them is not a literal.
///
/// # Errors
/// Out of memory.
#[inline(always)]
fn put_fours(lists: &mut GrowingLists<Lit>, numbers: &[i32], last: u32) -> Result<bool, AllocError>
    requires many { 4 ≤ length numbers.now }
    requires last { last ≤ LAST_VARIABLE }
    ensures put { IfOk result (λ b. IsTrue b
        → ArePut lists.old.unfinished numbers.now last lists.new.unfinished) }
    ensures kept { take (length lists.old.unfinished) lists.new.unfinished ≡ lists.old.unfinished }
    ensures whole { lists.new.whole ≡ lists.old.whole }
{
    let start = lists.items_len();
    let end = numbers.len() - 4;
    let mut place = 0;
    'fours: while place < end {
        if !put_four(lists, numbers, place, last)? {
            return Ok(false);
        }
        place += 4;
    }
    lists.shorten(start + end);
    put_four(lists, numbers, end, last)
}

/// Adds the literals that these numbers are, one by one. `false` if one of them is not a literal.
///
/// # Errors
/// Out of memory.
#[inline(always)]
fn put_each(lists: &mut GrowingLists<Lit>, numbers: &[i32], last: u32) -> Result<bool, AllocError>
    requires last { last ≤ LAST_VARIABLE }
    ensures put { IfOk result (λ b. IsTrue b
        → ArePut lists.old.unfinished numbers.now last lists.new.unfinished) }
    ensures kept { take (length lists.old.unfinished) lists.new.unfinished ≡ lists.old.unfinished }
    ensures whole { lists.new.whole ≡ lists.old.whole }
{
    let mut place = 0;
    'numbers: while place < numbers.len() {
        let Some(lit) = one_written(numbers, place, last) else {
            return Ok(false);
        };
        lists.push(lit)?;
        place += 1;
    }
    Ok(true)
}

/// Adds the literals that these numbers are. `false` if one of them is not a literal.
///
/// # Errors
/// Out of memory.
#[inline(always)]
fn put_written(
    lists: &mut GrowingLists<Lit>,
    numbers: &[i32],
    last: u32,
) -> Result<bool, AllocError>
    requires last { last ≤ LAST_VARIABLE }
    ensures put { IfOk result (λ b. IsTrue b
        → ArePut lists.old.unfinished numbers.now last lists.new.unfinished) }
    ensures kept { take (length lists.old.unfinished) lists.new.unfinished ≡ lists.old.unfinished }
    ensures whole { lists.new.whole ≡ lists.old.whole }
{
    if numbers.len() < 4 {
        put_each(lists, numbers, last)
    } else {
        put_fours(lists, numbers, last)
    }
}

/// Adds the literals that these numbers are, as QDIMACS 1.1 writes them, of variables up to `last`,
/// at the end of the unfinished list. `false` if nothing was added, since one of them is not such a
/// literal.
///
/// # Errors
/// Out of memory. Nothing is changed then.
#[inline(always)]
pub fn extend_written(
    lists: &mut GrowingLists<Lit>,
    numbers: &[i32],
    last: u32,
) -> Result<bool, AllocError>
    requires { last ≤ LAST_VARIABLE }
    ensures extended { IfOk result (λ b. IsTrue b → lists.new ≡ record lists.old {
      unfinished = lists.old.unfinished ++ map literal_of numbers.now;
    }) }
    ensures written { IfOk result (λ b. IsTrue b → AllByRecursion (IsWritten last) numbers.now) }
    ensures none { IfOk result (λ b. b ≡ false → lists.new ≡ lists.old) }
    ensures err { OnErr result (lists.new ≡ lists.old) }
{
    let start = lists.items_len();
    match put_written(lists, numbers, last) {
        Ok(true) => Ok(true),
        Ok(false) => {
            lists.shorten(start);
            Ok(false)
        }
        Err(refused) => {
            lists.shorten(start);
            Err(refused)
        }
    }
}
