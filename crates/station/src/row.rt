// The row of a unit: its state, and beside it the bids, the reading and the amounts.
ghost use Rattle.std.specs.Prelude.{◌≡◌, ◌≤◌, true, false, length};
ghost use Rattle.fcas.specs.Bid.{some_above};
ghost use Rattle.limits.specs.Terms.{held_bids, terms_of};
ghost use Rattle.states.specs.State.{energy_of, holds_open};

use fcas::{CheckedBid, CheckedReading, Kind};
use limits::CheckedTerms;
use states::State;

// Beside a state that is not open, the reading, the amounts and the terms count for nothing, and beside a vacant one the kind and the bids do not count either.
// They are no fields of the states that have them: that a state without tables is stepped by a match is a rule of the project (docs/DECISIONS.md).
#[derive(Clone, Copy)]
pub struct UnitRow {
    pub(crate) state: State,
    pub(crate) kind: Kind,
    // Ten bids here, ten amounts below and ten offers in the terms, not ten of all three: opening takes the bids whole, and a plant's row the amounts.
    pub(crate) bids: [Option<CheckedBid>; 10],
    pub(crate) reading: CheckedReading,
    pub(crate) amounts: [u32; 10],
    // What opening fixed.
    pub(crate) terms: CheckedTerms,
    ghost ten_bids: { length bids ≡ 10 },
    ghost ten_amounts: { length amounts ≡ 10 },
    // Not by a Power in the state, which is public and takes any number.
    ghost energy_in_range: { energy_of state ≤ 4000000 },
    ghost amounts_in_range: { some_above 4000000 amounts ≡ false },
    ghost fixed: { holds_open state ≡ true → ∥ terms.terms ≡ terms_of kind (held_bids bids) reading.measured ∥₁ },
}
