// The number of a pair, looked up in the table.
ghost use Rattle.std.specs.Prelude.{◌≡◌, get_or};
ghost use Rattle.pairs.specs.Table.{pair_place, PairTable};
ghost use Rattle.pairs.specs.Pairs.{pair_answer};

use crate::limits::ORDERED_PAIRS;
use crate::table::PAIR_NUMBERS;
use schema::STATES;

// The table, for a caller that looks up many pairs: it makes the array once and lends it.
pub fn pair_numbers() -> [u16; ORDERED_PAIRS]
    ensures { PairTable result }
{
    PAIR_NUMBERS
}

// The entry at the place 32 s + t, which in the table is that of the states s and t in this order; 0 past the end.
pub fn number_in(table: &[u16], s: u8, t: u8) -> u16
    ensures { result ≡ get_or table.now (pair_place s t) 0 }
{
    let place = usize::from(STATES) * usize::from(s) + usize::from(t);
    table.get(place).copied().unwrap_or(0)
}

// The number of the pair, or None where one of the two is no state.
pub fn pair_number(s: u8, t: u8) -> Option<u16>
    ensures { result ≡ pair_answer s t }
{
    if STATES <= s || STATES <= t {
        return None;
    }
    let table = pair_numbers();
    Some(number_in(&table, s, t))
}
