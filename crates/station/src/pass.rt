// Passes: whoever opens an interval holds one, and spends it to end the interval.
ghost use Rattle.std.specs.Prelude.{◌≡◌};

use states::Refusal;

// The three numbers of a pass.
#[derive(Clone, Copy, Debug, PartialEq, Eq)]
pub struct PassNumbers {
    pub station: u64,
    pub unit: u64,
    pub serial: u64,
}

// A pass can be neither copied nor let go: it is closed or abandoned.
pub struct Pass {
    pub(crate) numbers: PassNumbers,
}

// A close that was refused hands the pass back.
pub struct Returned {
    pub pass: Pass,
    pub refusal: Refusal,
}

impl Pass {
    // The numbers, for a host that writes them down.
    pub fn numbers(&self) -> PassNumbers
        ensures { result ≡ self.now.numbers }
    {
        self.numbers
    }
}
