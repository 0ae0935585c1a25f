// An answer of the station to the bytes of its line.
// Bytes by hand: `write!` was tried, takes a fifth more instructions, and misses the bar of speed in docs/DECISIONS.md.
use crate::fault::Fault;
use fcas::Trapezium;
use limits::Figure;
use numerals::put_number;
use station::{Answer, PassNumbers, Refusal};
use std::alloc::AllocError;

// A text, and the number that follows it.
#[inline]
fn put(text: &[u8], number: impl Into<u64> + Drop, out: &mut Vec<u8>) -> Result<(), AllocError> {
    out.extend_from_slice(text)?;
    put_number(number.into(), out)
}

fn put_signed(text: &[u8], number: i64, out: &mut Vec<u8>) -> Result<(), AllocError> {
    out.extend_from_slice(text)?;
    if number < 0 {
        out.push(b'-')?;
    }
    put_number(number.unsigned_abs(), out)
}

// Three numbers, with a sign between them.
fn put_three(
    text: &[u8],
    numbers: [u64; 3],
    sign: &[u8],
    out: &mut Vec<u8>,
) -> Result<(), AllocError> {
    let [first, second, third] = numbers;
    put(text, first, out)?;
    put(sign, second, out)?;
    put(sign, third, out)
}

fn put_pass(pass: &PassNumbers, out: &mut Vec<u8>) -> Result<(), AllocError> {
    put_three(b" pass ", [pass.station, pass.unit, pass.serial], b":", out)
}

// The limit that holds a figure down, or that broke, by the two numbers of its record.
fn put_ground(ground: u8, by: u8, out: &mut Vec<u8>) -> Result<(), AllocError> {
    put(b" ground ", ground, out)?;
    put(b" by ", by, out)
}

fn put_figure(figure: &Figure, out: &mut Vec<u8>) -> Result<(), AllocError> {
    put(b"ok figure ", figure.figure, out)?;
    put_ground(figure.ground, figure.by, out)
}

// A figure as one of ten, in one word.
fn put_figure_word(figure: &Figure, out: &mut Vec<u8>) -> Result<(), AllocError> {
    let numbers = [
        u64::from(figure.figure),
        u64::from(figure.ground),
        u64::from(figure.by),
    ];
    put_three(b" ", numbers, b"/", out)
}

fn put_figures(table: &[Figure; 10], out: &mut Vec<u8>) -> Result<(), AllocError> {
    out.extend_from_slice(b"ok figures")?;
    for figure in table {
        put_figure_word(figure, out)?;
    }
    Ok(())
}

fn put_trapezium(trapezium: &Trapezium, out: &mut Vec<u8>) -> Result<(), AllocError> {
    put(b"ok trapezium ", trapezium.enablement_min, out)?;
    put_signed(b" ", trapezium.low_breakpoint, out)?;
    put_signed(b" ", trapezium.high_breakpoint, out)?;
    put(b" ", trapezium.enablement_max, out)?;
    put(b" ", trapezium.max_availability, out)
}

fn put_opened(pass: &PassNumbers, out: &mut Vec<u8>) -> Result<(), AllocError> {
    out.extend_from_slice(b"ok")?;
    put_pass(pass, out)
}

fn put_refusal(refusal: Refusal, out: &mut Vec<u8>) -> Result<(), AllocError> {
    put(b"declined ", refusal.number(), out)?;
    match refusal {
        Refusal::LimitBroken { ground, by } => put_ground(ground, by, out),
        _ => Ok(()),
    }
}

// A close that is refused says its pass again.
fn put_returned(refusal: Refusal, pass: &PassNumbers, out: &mut Vec<u8>) -> Result<(), AllocError> {
    put_refusal(refusal, out)?;
    put_pass(pass, out)
}

fn put_words(answer: &Answer, out: &mut Vec<u8>) -> Result<(), AllocError> {
    match answer {
        Answer::Done => out.extend_from_slice(b"ok"),
        Answer::Opened(pass) => put_opened(pass, out),
        Answer::Figure(figure) | Answer::Probed(Some(figure)) => put_figure(figure, out),
        Answer::Trapezium(Some(trapezium)) => put_trapezium(trapezium, out),
        Answer::Probed(None) | Answer::Trapezium(None) => out.extend_from_slice(b"ok none"),
        Answer::Closed(table) => put_figures(table, out),
        Answer::Refused(refusal) => put_refusal(*refusal, out),
        Answer::Returned(refusal, pass) => put_returned(*refusal, pass, out),
    }
}

// The line that answers a call.
pub(crate) fn put_answer(answer: &Answer, out: &mut Vec<u8>) -> Result<(), AllocError> {
    put_words(answer, out)?;
    out.push(b'\n')?;
    Ok(())
}

// The line that answers what is no call.
pub(crate) fn put_error(fault: Fault, out: &mut Vec<u8>) -> Result<(), AllocError> {
    out.extend_from_slice(b"error ")?;
    out.extend_from_slice(fault.words().as_bytes())?;
    out.push(b'\n')?;
    Ok(())
}
