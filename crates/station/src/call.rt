// Calls and their answers as values.
use crate::pass::PassNumbers;
use fcas::{Bid, Reading, Trapezium};
use limits::Figure;
use states::Refusal;

// Units, kinds and services are the numbers that a host hands over: the rules say what one out of range is answered.
#[derive(Clone, Copy)]
pub enum Call {
    Enrol {
        unit: u32,
        kind: u32,
    },
    Retire {
        unit: u32,
    },
    Bid {
        unit: u32,
        service: u32,
        bid: Bid,
    },
    Withdraw {
        unit: u32,
        service: u32,
    },
    Open {
        unit: u32,
        reading: Reading,
    },
    Energy {
        pass: PassNumbers,
        energy: u32,
    },
    Amount {
        pass: PassNumbers,
        service: u32,
        amount: u32,
    },
    Figure {
        pass: PassNumbers,
        service: u32,
    },
    Probe {
        pass: PassNumbers,
        service: u32,
        energy: u32,
    },
    Trapezium {
        pass: PassNumbers,
        service: u32,
    },
    // With the number of places of the table that is handed over.
    Close {
        pass: PassNumbers,
        places: u64,
    },
    Abandon {
        pass: PassNumbers,
    },
    Lapse {
        unit: u32,
    },
}

#[derive(Clone, Copy)]
pub enum Answer {
    Done,
    Opened(PassNumbers),
    Figure(Figure),
    Probed(Option<Figure>),
    Trapezium(Option<Trapezium>),
    Closed([Figure; 10]),
    Refused(Refusal),
    // A close is refused, and its pass comes back.
    Returned(Refusal, PassNumbers),
}
