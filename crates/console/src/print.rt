// What a figure's record of numbers says, in words.
use fcas::{Ground, Service};
use std::fmt;

// The number of a limit, or of the ground that keeps a service out. A figure holds it as a number, so neither Limit nor Ground serves.
#[derive(Clone, Copy)]
pub(crate) struct HeldBy(pub(crate) u8);

impl fmt::Display for HeldBy {
    fn fmt<W: fmt::Write>(&self, f: &mut fmt::Formatter<W>) -> fmt::Result {
        match self.0 {
            1 => f.pad("max availability"),
            2 => f.pad("regulating capacity, upper"),
            3 => f.pad("regulating capacity, lower"),
            4 => f.pad("joint capacity, upper"),
            5 => f.pad("joint capacity, lower"),
            6 | 7 => f.pad("joint ramping"),
            11 => Ground::NoBid.fmt(f),
            12 => Ground::NoAvailability.fmt(f),
            13 => Ground::NoBand.fmt(f),
            14 => Ground::EnergyMaxTooLow.fmt(f),
            15 => Ground::OutsideEnablement.fmt(f),
            16 => Ground::AgcIsOff.fmt(f),
            _ => f.pad("plant limit"),
        }
    }
}

// The number of a service, or that of the plant.
#[derive(Clone, Copy)]
pub(crate) struct NamedBy(pub(crate) u8);

impl fmt::Display for NamedBy {
    fn fmt<W: fmt::Write>(&self, f: &mut fmt::Formatter<W>) -> fmt::Result {
        match Service::try_from(u32::from(self.0)) {
            Ok(service) => service.fmt(f),
            Err(_) => f.pad("the plant"),
        }
    }
}
