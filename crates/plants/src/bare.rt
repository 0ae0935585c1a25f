// A plant without a limit of its own.
ghost use Rattle.std.specs.Prelude.{true, refl};

use limits::{PlantLimit, Row};

#[derive(Debug, Clone, Copy, PartialEq, Eq)]
pub struct Bare;

impl PlantLimit for Bare {
    ghost allowed = { λ _ _. true };

    ghost lowering = { λ _ _ _ _ _ _. refl };

    fn allows(&self, _row: &Row) -> bool {
        true
    }

    fn most(&self, _row: &Row, service: u8) -> Option<u32> {
        if service > 9 { None } else { Some(4_000_000) }
    }
}
