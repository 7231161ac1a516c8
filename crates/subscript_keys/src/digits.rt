ghost use Rattle.std.specs.Prelude.{◌≡◌};
ghost use Rattle.subscript_keys.specs.Decimal.{digits, AreDigits};

use std::marker::Model;

/// How many digits a `u64` has at most.
const ROOM: usize = 20;

/// The decimal digits of a number, the highest first; 0 has none. Contracts see them as the list.
#[derive(Drop)]
pub struct Digits {
    places: [u8; ROOM],
    start: usize,
}

impl Model for Digits {
    ghost use Rattle.std.specs.Prelude.{List, ℕ, ◌≤◌, drop};

    ghost Value = { List ℕ };

    ghost view = { λ d. drop d.start d.places };

    ghost invariant = { λ d. d.start ≤ 20 };
}

impl Digits {
    pub fn of(number: u64) -> Digits
        ensures value { result ≡ digits number }
        ensures each { AreDigits result }
    {
        let mut places = [0; ROOM];
        let mut start = ROOM;
        let mut rest = number;
        while rest > 0 {
            start -= 1;
            places[start] = (rest % 10) as u8;
            rest /= 10;
        }
        Digits { places, start }
    }

    pub fn as_slice(&self) -> &[u8]
        ensures { result.now ≡ self.now }
    {
        &self.places[self.start..]
    }
}
