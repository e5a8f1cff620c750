// The numbers of pairs of states, by the table lent.
ghost use Rattle.std.specs.Prelude.{◌≡◌, ◌<◌};
ghost use Rattle.sdtd.specs.Limits.{most_states, most_pairs};
ghost use Rattle.sdtd.specs.Competition.{pair_number};
ghost use Rattle.pairs.specs.Table.{PairTable};

use pairs::{ORDERED_PAIRS, number_in};

#[derive(Clone, Copy)]
pub(crate) struct Numbers<'a> {
    pub table: &'a [u16; ORDERED_PAIRS],
    ghost rule: { PairTable table.now },
}

impl Numbers<'_> {
    pub(crate) fn number(&self, s: u8, t: u8) -> usize
        requires { (s < most_states) × (t < most_states) }
        ensures number { result ≡ pair_number s t }
        ensures below { result < most_pairs }
    {
        let table = self.table;
        usize::from(number_in(table, s, t))
    }
}
