// A number with a bound: a strand's, a side's.
ghost use Rattle.std.specs.Prelude.{◌≡◌, ℕ, ◌<◌, SomeIff};

use std::marker::Model;

// A number below N. In a clause it stands for its number.
#[derive(Clone, Copy)]
pub struct Below<const N: u8> {
    number: u8,
}

impl<const N: u8> Model for Below<N> {
    ghost Value = { ℕ };

    ghost view = { λ b. b.number };

    ghost invariant = { λ b. b.number < N };

    ghost inverse = { λ n. record { number = n } };
}

impl<const N: u8> Below<N> {
    pub fn new(number: u8) -> Option<Self>
        ensures { SomeIff result (number < N) number }
    {
        if number < N {
            Some(Below { number })
        } else {
            None
        }
    }

    // Of a number that is known to be below N: nothing is tested.
    pub fn at(number: u8) -> Self
        requires { number < N }
        ensures { result ≡ number }
    {
        Below { number }
    }

    pub fn number(self) -> u8
        ensures value { result ≡ self.entry }
        ensures small { result < N }
    {
        self.number
    }
}

// A strand of the core, and a side of the unit: 0 for instructions, 1 for data.
pub type Strand = Below<4>;

pub type Side = Below<2>;
