//! Lists of literals in bytes: those of a list take one byte each, two or four. Long lists are kept
//! as they are.

ghost use Rattle.std.specs.Prelude.{◌≡◌, ◌≤◌, ◌<◌, [], ◌∷◌, ◌++◌, length, IfOk, IfNone, IfSome, OnOk, OnErr, take};
ghost use Rattle.std.specs.Prelude.{◌-◌, false, slice_get, IsTrue, Some};
ghost use Rattle.std.specs.List.{AllByRecursion};
ghost use Rattle.std.specs.Int.{w8, w16, w32, to_le_bytes};
ghost use Rattle.qbf_core.specs.Packed.{fours, is_place, kept_in, ones, packed, twos};
ghost use Rattle.qbf_core.specs.Packed.{unpacked, AreLiterals, Packs};

use crate::literal::Lit;
use crate::literal_bytes::{byte_of, of_four, of_one, of_two};
use crate::lits_left::LitsLeft;
use lists::{GrowingLists, see_all};
use std::alloc::{AllocError, Global};
use std::marker::Model;

/// A number that no variable of these literals exceeds.
#[inline(always)]
#[tactic(auto, using(crate::proofs::Packing::wider))]
fn largest(lits: &[Lit]) -> u32
    ensures { AllByRecursion (λ l. l.var ≤ result) lits.now }
{
    let mut largest = 0;
    let mut place = 0;
    'literals: while place < lits.len() {
        largest = lits[place].var().number().max(largest);
        place += 1;
    }
    largest
}

/// Adds literals of variables up to 127, in one byte each.
///
/// # Errors
/// Out of memory. The whole lists are unchanged then.
#[inline(always)]
fn put_ones(bytes: &mut GrowingLists<u8>, lits: &[Lit]) -> Result<(), AllocError>
    requires { AllByRecursion (λ l. l.var ≤ 127) lits.now }
    ensures put { OnOk result (bytes.new ≡ record bytes.old {
      unfinished = bytes.old.unfinished ++ packed w8 lits.now;
    }) }
    ensures kept { bytes.new.whole ≡ bytes.old.whole }
{
    let mut left = lits;
    'fours: while let [a, b, c, d, rest @ ..] = left {
        bytes.extend(&[byte_of(*a), byte_of(*b), byte_of(*c), byte_of(*d)])?;
        left = rest;
    }
    'literals: while let [lit, rest @ ..] = left {
        bytes.push(byte_of(*lit))?;
        left = rest;
    }
    Ok(())
}

/// Adds a literal of a variable up to 32767 in two bytes.
///
/// # Errors
/// Out of memory. Nothing is changed then.
#[inline(always)]
fn put_two(bytes: &mut GrowingLists<u8>, lit: Lit) -> Result<(), AllocError>
    requires { lit.var ≤ 32767 }
    ensures put { OnOk result (bytes.new ≡ record bytes.old {
      unfinished = bytes.old.unfinished ++ packed w16 (lit ∷ []);
    }) }
    ensures kept { bytes.new.whole ≡ bytes.old.whole }
{
    bytes.extend(&(lit.written() as i16).to_le_bytes())
}

/// Adds literals of variables up to 32767, in two bytes each.
///
/// # Errors
/// Out of memory. The whole lists are unchanged then.
#[inline(always)]
fn put_twos(bytes: &mut GrowingLists<u8>, lits: &[Lit]) -> Result<(), AllocError>
    requires { AllByRecursion (λ l. l.var ≤ 32767) lits.now }
    ensures put { OnOk result (bytes.new ≡ record bytes.old {
      unfinished = bytes.old.unfinished ++ packed w16 lits.now;
    }) }
    ensures kept { bytes.new.whole ≡ bytes.old.whole }
{
    let mut left = lits;
    'literals: while let [lit, rest @ ..] = left {
        put_two(bytes, *lit)?;
        left = rest;
    }
    Ok(())
}

/// Adds a literal in four bytes.
///
/// # Errors
/// Out of memory. Nothing is changed then.
#[inline(always)]
fn put_four(bytes: &mut GrowingLists<u8>, lit: Lit) -> Result<(), AllocError>
    ensures put { OnOk result (bytes.new ≡ record bytes.old {
      unfinished = bytes.old.unfinished ++ packed w32 (lit ∷ []);
    }) }
    ensures kept { bytes.new.whole ≡ bytes.old.whole }
{
    bytes.extend(&lit.written().to_le_bytes())
}

/// Adds literals in four bytes each.
///
/// # Errors
/// Out of memory. The whole lists are unchanged then.
#[inline(always)]
fn put_fours(bytes: &mut GrowingLists<u8>, lits: &[Lit]) -> Result<(), AllocError>
    ensures put { OnOk result (bytes.new ≡ record bytes.old {
      unfinished = bytes.old.unfinished ++ packed w32 lits.now;
    }) }
    ensures kept { bytes.new.whole ≡ bytes.old.whole }
{
    let mut left = lits;
    'literals: while let [lit, rest @ ..] = left {
        put_four(bytes, *lit)?;
        left = rest;
    }
    Ok(())
}

/// Adds the literals of bytes that are one each.
///
/// # Errors
/// Out of memory.
#[inline(always)]
fn take_ones(items: &mut Vec<Lit>, bytes: &[u8]) -> Result<(), AllocError>
    requires { AreLiterals (ones bytes.now) }
    ensures { OnOk result (items.new.items ≡ items.old.items ++ ones bytes.now) }
{
    let mut left = bytes;
    'fours: while let [a, b, c, d, rest @ ..] = left {
        items.extend_from_slice(&[of_one(*a), of_one(*b), of_one(*c), of_one(*d)])?;
        left = rest;
    }
    'literals: while let [a, rest @ ..] = left {
        items.push(of_one(*a))?;
        left = rest;
    }
    Ok(())
}

/// Adds the literals of bytes of which two are one.
///
/// # Errors
/// Out of memory.
#[inline(always)]
#[tactic(auto, using(crate::proofs::Packing::no_two))]
fn take_twos(items: &mut Vec<Lit>, bytes: &[u8]) -> Result<(), AllocError>
    requires { AreLiterals (twos bytes.now) }
    ensures { OnOk result (items.new.items ≡ items.old.items ++ twos bytes.now) }
{
    let mut left = bytes;
    'literals: while let [a, b, rest @ ..] = left {
        items.push(of_two(*a, *b))?;
        left = rest;
    }
    Ok(())
}

/// Adds the literals of bytes of which four are one.
///
/// # Errors
/// Out of memory.
#[inline(always)]
#[tactic(auto, using(crate::proofs::Packing::no_four))]
fn take_fours(items: &mut Vec<Lit>, bytes: &[u8]) -> Result<(), AllocError>
    requires { AreLiterals (fours bytes.now) }
    ensures { OnOk result (items.new.items ≡ items.old.items ++ fours bytes.now) }
{
    let mut left = bytes;
    'literals: while let [a, b, c, d, rest @ ..] = left {
        items.push(of_four([*a, *b, *c, *d]))?;
        left = rest;
    }
    Ok(())
}

/// Literals of one list, in four bytes each.
#[derive(Drop)]
pub struct LitBuffer {
    items: Vec<Lit>,
}

impl LitBuffer {
    /// No literals. It takes no memory yet.
    pub fn new(alloc: Global) -> LitBuffer {
        LitBuffer {
            items: Vec::new(alloc),
        }
    }

    /// Gives the literals of a list of bytes.
    ///
    /// # Errors
    /// Out of memory.
    #[inline(always)]
    fn hold(&mut self, bytes: &[u8]) -> Result<&[Lit], AllocError>
        requires { AreLiterals (unpacked bytes.now) }
        ensures { IfOk result (λ lits. lits.now ≡ unpacked bytes.now) }
    {
        self.items.clear();
        match bytes {
            [] => {}
            [1, rest @ ..] => take_ones(&mut self.items, rest)?,
            [2, rest @ ..] => take_twos(&mut self.items, rest)?,
            [_, rest @ ..] => take_fours(&mut self.items, rest)?,
        }
        Ok(&self.items)
    }
}

/// Whether literals take one byte each.
#[inline(always)]
fn surely_in_one(largest: u32) -> bool
    ensures { IsTrue result → largest ≤ 127 }
{
    largest <= 127
}

/// Whether literals take no more than two bytes each.
#[inline(always)]
fn surely_in_two(largest: u32) -> bool
    ensures { IsTrue result → largest ≤ 32767 }
{
    largest <= 32767
}

/// Adds literals in as many bytes each as the largest of them needs, after a byte that says how
/// many.
///
/// # Errors
/// Out of memory. The whole lists are unchanged then.
#[inline(always)]
#[tactic(auto, using(crate::proofs::Packing::wider, crate::proofs::Packing::ones_packed, crate::proofs::Packing::twos_packed, crate::proofs::Packing::fours_packed))]
fn put_packed(bytes: &mut GrowingLists<u8>, lits: &[Lit]) -> Result<(), AllocError>
    requires empty { bytes.old.unfinished ≡ [] }
    requires literals { AreLiterals lits.now }
    ensures put { OnOk result (Packs lits.now bytes.new.unfinished) }
    ensures kept { bytes.new.whole ≡ bytes.old.whole }
{
    if lits.is_empty() {
        return Ok(());
    }
    let largest = largest(lits);
    if surely_in_one(largest) {
        bytes.push(1)?;
        put_ones(bytes, lits)
    } else if surely_in_two(largest) {
        bytes.push(2)?;
        put_twos(bytes, lits)
    } else {
        bytes.push(4)?;
        put_fours(bytes, lits)
    }
}

/// A list with more literals is lent from where it is kept. To put it into a buffer would take time
/// at each step that has it as an antecedent, however short this step is.
const LONG: usize = 1024;

/// The place that the bytes of a list are, if they are one.
#[inline(always)]
fn place_in(bytes: &[u8]) -> Option<&[u8]>
    ensures some { IfSome result (λ place. bytes.now ≡ 0 ∷ place.now) }
    ensures none { IfNone result (is_place bytes.now ≡ false) }
{
    match bytes {
        [0, place @ ..] => Some(place),
        _ => None,
    }
}

/// The long list at a place.
#[cold]
fn long_at<'a>(long: &'a GrowingLists<Lit>, place: &[u8]) -> &'a [Lit]
    ensures { result.now ≡ kept_in long.now.whole (0 ∷ place.now) }
{
    let [a, b, c, d] = place else {
        return &[];
    };
    let place = u32::from_le_bytes([*a, *b, *c, *d]) as usize;
    if place < long.whole_len() {
        long.get(place)
    } else {
        &[]
    }
}

/// Adds a list as it is.
///
/// # Errors
/// Out of memory. The whole lists are unchanged then.
fn put_long(long: &mut GrowingLists<Lit>, lits: &[Lit]) -> Result<(), AllocError>
    ensures put { OnOk result (long.new.whole ≡ long.old.whole ++ lits.now ∷ []) }
    ensures err { OnErr result (long.new.whole ≡ long.old.whole) }
{
    long.begin();
    long.extend(lits)?;
    long.close()
}

/// Adds the bytes of a place.
///
/// # Errors
/// Out of memory. The whole lists are unchanged then.
fn add_place(bytes: &mut GrowingLists<u8>, place: u32) -> Result<(), AllocError>
    ensures put { OnOk result
        (bytes.new.whole ≡ bytes.old.whole ++ (0 ∷ to_le_bytes w32 place) ∷ []) }
    ensures err { OnErr result (bytes.new.whole ≡ bytes.old.whole) }
{
    bytes.begin();
    bytes.push(0)?;
    bytes.extend(&place.to_le_bytes())?;
    bytes.close()
}

/// Lists of literals in one list of bytes, and those of more than 1,024 literals as they are.
/// Contracts see the lists.
#[derive(Drop)]
pub struct PackedLists {
    /// The bytes of each list. The first says how many each of its literals takes; if it is 0, the
    /// others are the place of a long list.
    bytes: GrowingLists<u8>,
    /// Lists that are lent.
    long: GrowingLists<Lit>,
}

impl Model for PackedLists {
    ghost use Rattle.std.specs.Prelude.{List, ◌≡◌, length, map};
    ghost use Rattle.std.specs.List.{AllByRecursion};
    ghost use Rattle.qbf_core.specs.Literal.{Literal};
    ghost use Rattle.qbf_core.specs.Packed.{kept_in, IsKept};

    ghost Value = { List (List Literal) };

    ghost view = { λ p. map (kept_in p.long.whole) p.bytes.whole };

    ghost invariant = { λ p. AllByRecursion (IsKept (length p.long.whole)) p.bytes.whole };
}

impl PackedLists {
    /// No lists. It takes no memory yet.
    pub fn new(alloc: Global) -> PackedLists
        ensures { result ≡ [] }
    {
        PackedLists {
            bytes: GrowingLists::new(alloc),
            long: GrowingLists::new(alloc),
        }
    }

    /// The list at place `i`, counted from 0, which is put into the buffer if it cannot be lent: `i`
    /// is below the number of lists.
    ///
    /// # Errors
    /// Out of memory.
    #[inline(always)]
    #[tactic(auto, using(crate::proofs::Packing::list_at, crate::proofs::Packing::kept_at, crate::proofs::Packing::literals_at, crate::proofs::Packing::packed_at))]
    pub fn unpack<'a>(
        &'a self,
        i: usize,
        buffer: &'a mut LitBuffer,
    ) -> Result<&'a [Lit], AllocError>
        requires { i < length self.now }
        ensures { IfOk result (λ lits. slice_get self.now i ≡ Some lits.now) }
    {
        let bytes = self.bytes.get(i);
        match place_in(bytes) {
            Some(place) => Ok(long_at(&self.long, place)),
            None => buffer.hold(bytes),
        }
    }

    /// The literals of the list at place `i`, to be read one by one, which takes no memory: `i` is
    /// below the number of lists.
    #[inline(always)]
    #[tactic(auto, using(crate::proofs::Packing::list_at, crate::proofs::Packing::kept_at, crate::proofs::Packing::literals_at, crate::proofs::Packing::packed_at))]
    pub fn left(&self, i: usize) -> LitsLeft<'_>
        requires { i < length self.now }
        ensures { slice_get self.now i ≡ Some result }
    {
        let kept = self.bytes.get(i);
        match place_in(kept) {
            Some(place) => LitsLeft::of_lits(long_at(&self.long, place)),
            None => LitsLeft::of_bytes(kept),
        }
    }

    /// Adds a list, packed.
    ///
    /// # Errors
    /// Out of memory. Nothing is changed then.
    #[inline(always)]
    #[tactic(auto, using(crate::proofs::Packing::all_kept, crate::proofs::Packing::packed_more))]
    fn add_packed(&mut self, lits: &[Lit]) -> Result<(), AllocError>
        ensures added { OnOk result (self.new ≡ self.old ++ lits.now ∷ []) }
        ensures err { OnErr result (self.new ≡ self.old) }
    {
        see_all(lits);
        self.bytes.begin();
        put_packed(&mut self.bytes, lits)?;
        self.bytes.close()
    }

    /// Adds a list that is to be lent. If there are 4294967296 of these, it is packed.
    ///
    /// # Errors
    /// Out of memory. Nothing is changed then.
    #[cold]
    #[inline(never)]
    #[tactic(auto, using(crate::proofs::Packing::all_more, crate::proofs::Packing::place_kept))]
    fn add_long(&mut self, lits: &[Lit]) -> Result<(), AllocError>
        ensures added { OnOk result (self.new ≡ self.old ++ lits.now ∷ []) }
        ensures err { OnErr result (self.new ≡ self.old) }
    {
        let Ok(place) = u32::try_from(self.long.whole_len()) else {
            return self.add_packed(lits);
        };
        put_long(&mut self.long, lits)?;
        add_place(&mut self.bytes, place)
    }

    /// Adds a list.
    ///
    /// # Errors
    /// Out of memory. Nothing is changed then.
    #[inline(always)]
    pub fn add(&mut self, lits: &[Lit]) -> Result<(), AllocError>
        ensures added { OnOk result (self.new ≡ self.old ++ lits.now ∷ []) }
        ensures err { OnErr result (self.new ≡ self.old) }
    {
        if lits.len() > LONG {
            self.add_long(lits)
        } else {
            self.add_packed(lits)
        }
    }

    /// Takes the last list away, if there is one.
    #[tactic(auto, using(crate::proofs::Packing::all_first))]
    pub fn pop(&mut self)
        ensures { self.new ≡ take (length self.old - 1) self.old }
    {
        self.bytes.pop();
    }
}
