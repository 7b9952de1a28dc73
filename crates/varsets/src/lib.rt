// Sets of variables by value, of which a term's uses are one: bit i is variable i. Only decoded sees the bits, which keeps sets as numbers: in a
// table, and in the rows of cases by halves. A larger scope changes this crate and that one.
#![tactic(auto)]

ghost use Rattle.std.specs.Prelude.{◌≡◌, ◌≤◌, ◌<◌};
ghost use Rattle.varsets.specs.Sets.{Holds, nobody, alone, firsts, ranged, joined, below, has, AgreeOn, AllInside, low_half, high_half, of_halves};
ghost use Rattle.octets.specs.Runs.{Decides};
ghost use Rattle.rules.specs.Limits.{max_variables};

// Variables that a set has room for, and numbers of 16 bits, of which two make a set.
const ROOM: usize = rules::MAX_VARIABLES;

const HALF_RANGE: u32 = 65536;

#[derive(Clone, Copy)]
pub struct Uses {
    pub bits: u32,
}

impl Uses {
    pub fn none() -> Self
        ensures { Holds result nobody }
    {
        Self { bits: 0 }
    }

    // Variable i alone.
    pub fn only(i: u8) -> Self
        requires { i < max_variables }
        ensures { Holds result (alone i) }
    {
        Self { bits: 1 << i }
    }

    // The first n variables.
    pub fn first(n: u8) -> Self
        requires { n < max_variables }
        ensures { Holds result (firsts n) }
    {
        let power: u32 = 1 << n;
        Self { bits: power - 1 }
    }

    // The variables from number `low` on and below n: those of which one of two sets of first ones has and the other does not.
    pub fn between(low: u8, n: u8) -> Self
        requires { (low ≤ n) × (n < max_variables) }
        ensures { Holds result (ranged low n) }
    {
        Self {
            bits: Self::first(n).bits ^ Self::first(low).bits,
        }
    }

    pub fn union(self, other: Self) -> Self
        ensures { Holds result (joined (has self) (has other)) }
    {
        Self {
            bits: self.bits | other.bits,
        }
    }

    // Those of the set that are among the first n variables.
    pub fn among_first(self, n: u8) -> Self
        requires { n < max_variables }
        ensures { Holds result (below n (has self)) }
    {
        Self {
            bits: self.bits & Self::first(n).bits,
        }
    }

    // Is variable i in the set?
    pub fn contains(self, i: u8) -> bool
        requires { i < max_variables }
        ensures { result ≡ has self i }
    {
        (self.bits >> i) % 2 == 1
    }

    // Do two sets have the same variables among those of a third?
    pub fn agree_on(self, other: Self, among: Self) -> bool
        ensures { Decides result (AgreeOn self other among) }
    {
        (self.bits ^ other.bits) & among.bits == 0
    }

    // Those of the set that are below n, whatever n is.
    fn those_below(self, n: usize) -> Self
        ensures { Holds result (below n (has self)) }
    {
        if n < ROOM {
            return self.among_first(n as u8);
        }
        self
    }

    // With q ancilla parameters and n variables in scope: is every variable of the set an ancilla parameter, or bound inside?
    pub fn all_inside(self, q: usize, n: usize) -> bool
        ensures { Decides result (AllInside self q n) }
    {
        if ROOM <= q {
            return true;
        }
        let scope = self.those_below(n);
        scope.bits >> q == 0
    }

    // A set as two numbers, and the set that they are. Kept: names and no From, since a pair of numbers would not say which half is which.
    pub fn low_half(self) -> u16
        ensures { result ≡ low_half self }
    {
        (self.bits % HALF_RANGE) as u16
    }

    pub fn high_half(self) -> u16
        ensures { result ≡ high_half self }
    {
        (self.bits / HALF_RANGE) as u16
    }

    pub fn of_halves(low: u16, high: u16) -> Self
        ensures { result ≡ of_halves low high }
    {
        Self {
            bits: HALF_RANGE * u32::from(high) + u32::from(low),
        }
    }
}
