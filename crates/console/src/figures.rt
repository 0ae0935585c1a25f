// The figures of one row, and the limits that they come from.
use crate::print::{HeldBy, NamedBy};
use fcas::{Kind, SERVICES, Service};
use limits::{CheckedRow, CheckedTerms, Figure, Limit, PlantLimit, Sides, figures, first_broken};
use plants::PlantChoice;
use std::io;
use std::io::Write;

// What one service holds and could hold, and what holds it down.
fn put_figure(service: Service, held: u32, figure: &Figure, out: &mut Vec<u8>) -> io::Result<()> {
    write!(
        out,
        "{} {service:<10}  {held:>10}  {:>10}  {} {}",
        service.number(),
        figure.figure,
        figure.ground,
        HeldBy(figure.ground)
    )?;
    if figure.ground > 10 {
        return writeln!(out, "");
    }
    writeln!(out, ", by {}", NamedBy(figure.by))
}

// The ten figures of a row, or the first limit that it breaks. Terms, row and plant are three parameters here, as in `limits`.
pub(crate) fn put_figures(
    terms: &CheckedTerms,
    row: &CheckedRow,
    plant: &PlantChoice,
    out: &mut Vec<u8>,
) -> io::Result<()> {
    let Some(table) = figures(terms, row, plant) else {
        return put_broken(terms, row, plant, out);
    };
    let energy = row.row.energy;
    writeln!(out, "figures at {energy} kW")?;
    writeln!(out, "service             held      figure  held down by")?;
    for (service, (held, figure)) in SERVICES.into_iter().zip(row.row.amounts.iter().zip(&table)) {
        put_figure(service, *held, figure, out)?;
    }
    Ok(())
}

fn put_broken(
    terms: &CheckedTerms,
    row: &CheckedRow,
    plant: &PlantChoice,
    out: &mut Vec<u8>,
) -> io::Result<()> {
    write!(out, "the row is not borne; it breaks ")?;
    if let Some(limit) = first_broken(terms, row, plant) {
        let number = limit.number();
        let by = limit.by(terms.terms.kind);
        write!(out, "{number} {}, by {}", HeldBy(number), NamedBy(by))?;
    }
    writeln!(out, "")
}

// One limit in force, its sides and what is left to it.
fn put_limit(limit: Limit, kind: Kind, sides: &Sides, out: &mut Vec<u8>) -> io::Result<()> {
    let number = limit.number();
    writeln!(
        out,
        "{number} {:<27} {:<10}  {:>16} <= {:>16}  {:>16}",
        HeldBy(number),
        NamedBy(limit.by(kind)),
        sides.lesser,
        sides.greater,
        sides.greater.saturating_sub(sides.lesser)
    )
}

fn put_limit_if_in_force(
    terms: &CheckedTerms,
    row: &CheckedRow,
    limit: Limit,
    out: &mut Vec<u8>,
) -> io::Result<()> {
    match terms.sides(row, limit) {
        Some(sides) => put_limit(limit, terms.terms.kind, &sides, out),
        None => Ok(()),
    }
}

// Every limit in force, in order. Those of capacity are scaled by the bid's maximum availability, as the rules write them.
pub(crate) fn put_limits(
    terms: &CheckedTerms,
    row: &CheckedRow,
    plant: &PlantChoice,
    out: &mut Vec<u8>,
) -> io::Result<()> {
    writeln!(
        out,
        "limit                         by                lesser side           greater side              left"
    )?;
    for service in SERVICES {
        for limit in Limit::of_service(service.number()) {
            put_limit_if_in_force(terms, row, limit, out)?;
        }
    }
    put_limit_if_in_force(terms, row, Limit::RampUp, out)?;
    put_limit_if_in_force(terms, row, Limit::RampDown, out)?;
    let allowed = if plant.allows(&row.row) {
        "allows the row"
    } else {
        "does not allow the row"
    };
    writeln!(out, "8 plant limit                 {allowed}")
}
