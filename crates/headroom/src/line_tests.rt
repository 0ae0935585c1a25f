// Lines as they come: cut anywhere, padded, and too long.
use console::{Server, run};
use std::alloc::AllocError;
use std::io;
use std::io::Read;
use std::test::Fail;

// An input that hands over one byte at a time.
#[derive(Drop)]
struct Drip<'a> {
    rest: &'a [u8],
}

impl Read for Drip<'_> {
    fn read(&mut self, buf: &mut [u8]) -> io::Result<usize> {
        let [byte, rest @ ..] = self.rest else {
            return Ok(0);
        };
        if buf.is_empty() {
            return Ok(0);
        }
        buf[0] = *byte;
        self.rest = rest;
        Ok(1)
    }
}

fn pad(bytes: &mut Vec<u8>, byte: u8) -> Result<(), AllocError> {
    for _ in 0..70_000u32 {
        bytes.push(byte)?;
    }
    Ok(())
}

#[test]
fn takes_lines_byte_by_byte(rt: HostRuntime) -> Result<(), Fail> {
    let mut input = Drip {
        rest: b"station 1 1 bare\r\n\r\n\t \nenrol 0 load#\r\nenrol 0 load\r# no line break follows the return\n\nfigure\nretire 0",
    };
    let mut answers = Vec::new(rt.alloc());
    run(&mut Server::new(), &mut input, &mut answers, rt.alloc())?;
    assert!(rt;
        answers.as_slice()
            == b"ok\nok\nerror a word is neither a number nor the name of a kind\nerror there are too few words\nok\n".as_slice()
    );
    Ok(())
}

#[test]
fn takes_long_lines(rt: HostRuntime) -> Result<(), Fail> {
    let mut input = Vec::new(rt.alloc());
    pad(&mut input, b' ')?;
    input.extend_from_slice(b"\nstation 1 1 ")?;
    pad(&mut input, b'\t')?;
    input.extend_from_slice(b"bare")?;
    pad(&mut input, b' ')?;
    input.extend_from_slice(b"\n")?;
    pad(&mut input, b'x')?;
    input.extend_from_slice(b"\nretire 1 #")?;
    pad(&mut input, b'x')?;
    input.extend_from_slice(b"\nlapse 1\n")?;
    let mut answers = Vec::new(rt.alloc());
    run(
        &mut Server::new(),
        &mut input.as_slice(),
        &mut answers,
        rt.alloc(),
    )?;
    assert!(rt;
        answers.as_slice()
            == b"ok\nerror the line is too long\ndeclined 22\ndeclined 22\n".as_slice()
    );
    Ok(())
}
