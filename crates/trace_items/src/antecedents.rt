//! The antecedents of a step.

ghost use Rattle.std.specs.Prelude.{◌≡◌, ◌≤◌, [], ◌∷◌, ◌++◌, true, length, nat_lt, IsTrue, IfOk};
ghost use Rattle.trace_items.specs.Antecedents.{list_of_pair, list_of_two, listed};
ghost use Rattle.trace_items.specs.Antecedents.{AreNumbers};

use std::alloc::{AllocError, Global};

/// The numbers of the antecedents of a step: none, one or two.
#[derive(Clone, Copy)]
pub enum Antecedents {
    /// Those of an initial step.
    Empty,
    /// That of a reduct.
    One(u64),
    /// Those of a resolvent.
    Two(u64, u64),
}

impl Antecedents {
    /// The antecedents with these numbers, which are at most two.
    #[inline(always)]
    pub fn of_list(numbers: &[u64]) -> Antecedents
        requires { length numbers.now ≤ 2 }
        ensures { listed result ≡ numbers.now }
    {
        match numbers {
            [] => Antecedents::Empty,
            [only] => Antecedents::One(*only),
            [first, second] => Antecedents::Two(*first, *second),
            _ => unreachable!(),
        }
    }

    /// The antecedents with these two numbers, of which 0 stands for none.
    #[inline(always)]
    pub fn of_two(first: u64, second: u64) -> Antecedents
        ensures { listed result ≡ list_of_two first second }
    {
        if second != 0 {
            Antecedents::Two(first, second)
        } else if first != 0 {
            Antecedents::One(first)
        } else {
            Antecedents::Empty
        }
    }
}

impl Antecedents {
    /// Whether there is room for another.
    #[inline(always)]
    pub fn has_room(self) -> bool
        ensures { result ≡ nat_lt (length (listed self)) 2 }
    {
        match self {
            Antecedents::Two(_, _) => false,
            _ => true,
        }
    }

    /// These and one more.
    #[inline(always)]
    pub fn with(self, number: u64) -> Antecedents
        requires { nat_lt (length (listed self)) 2 ≡ true }
        ensures { listed result ≡ listed self ++ number ∷ [] }
    {
        match self {
            Antecedents::Empty => Antecedents::One(number),
            Antecedents::One(first) => Antecedents::Two(first, number),
            Antecedents::Two(_, _) => unreachable!(),
        }
    }

    /// These as a pair.
    #[inline(always)]
    pub fn pair(self) -> AntecedentPair
        requires { AreNumbers (listed self) }
        ensures { list_of_pair result ≡ listed self }
    {
        let (first, second) = match self {
            Antecedents::Empty => (0, 0),
            Antecedents::One(only) => (only, 0),
            Antecedents::Two(first, second) => (first, second),
        };
        AntecedentPair { first, second }
    }
}

/// The numbers of the antecedents of a step while it is read: two, of which 0 stands for none.
#[derive(Clone, Copy)]
pub struct AntecedentPair {
    pub first: u64,
    pub second: u64,
}

impl AntecedentPair {
    /// No antecedents.
    #[inline(always)]
    pub fn none() -> AntecedentPair
        ensures { result ≡ record { first = 0; second = 0 } }
    {
        AntecedentPair {
            first: 0,
            second: 0,
        }
    }

    /// The antecedents with these numbers, which are at most two.
    #[inline(always)]
    pub fn of_list(numbers: &[u64]) -> AntecedentPair
        requires few { length numbers.now ≤ 2 }
        requires numbers { AreNumbers numbers.now }
        ensures { list_of_pair result ≡ numbers.now }
    {
        Antecedents::of_list(numbers).pair()
    }

    /// The antecedents of this pair.
    #[inline(always)]
    pub fn antecedents(self) -> Antecedents
        ensures { listed result ≡ list_of_pair self }
    {
        Antecedents::of_two(self.first, self.second)
    }

    /// A list of them, allocated in exactly its size.
    ///
    /// # Errors
    /// Out of memory.
    pub fn to_vec(self, alloc: Global) -> Result<Vec<u64>, AllocError>
        ensures { IfOk result (λ numbers. numbers.items ≡ list_of_pair self) }
    {
        match self.antecedents() {
            Antecedents::Empty => Ok(Vec::new(alloc)),
            Antecedents::One(only) => Vec::from_slice(alloc, &[only]),
            Antecedents::Two(first, second) => Vec::from_slice(alloc, &[first, second]),
        }
    }
}
