// A station: its rows, and the plant limit beside them.
use crate::row::UnitRow;

#[derive(Drop)]
pub struct Station<P> {
    pub(crate) number: u32,
    // The serial of the next pass.
    pub(crate) next: u64,
    pub(crate) rows: [UnitRow; 24],
    pub(crate) plant: P,
}
