// A station that is called line by line.
use crate::answers::{put_answer, put_error};
use crate::calls::read_call;
use crate::fault::Fault;
use crate::lines::{Session, TooLong};
use crate::parse::Words;
use plants::PlantChoice;
use station::{Answer, Station};
use std::io;

// The station is made by the first line that says so.
#[derive(Drop)]
pub struct Server {
    station: Option<Station<PlantChoice>>,
}

fn read_station(words: &mut Words<'_>) -> Result<Station<PlantChoice>, Fault> {
    let number = words.narrow(Fault::WideStation)?;
    let first = words.whole()?;
    let plant = words.plant()?;
    words.end()?;
    Ok(Station::new(number, first, plant))
}

impl Server {
    pub fn new() -> Server {
        Server { station: None }
    }

    fn make(&mut self, words: &mut Words<'_>) -> Result<Answer, Fault> {
        if self.station.is_some() {
            return Err(Fault::SecondStation);
        }
        self.station = Some(read_station(words)?);
        Ok(Answer::Done)
    }

    fn call(&mut self, name: &[u8], words: &mut Words<'_>) -> Result<Answer, Fault> {
        let call = read_call(name, words)?;
        let station = self.station.as_mut().ok_or(Fault::NoStation)?;
        Ok(station.apply(&call))
    }

    // What a line is answered; nothing where it has no word.
    fn answer(&mut self, line: Result<&[u8], TooLong>) -> Result<Option<Answer>, Fault> {
        let mut words = Words::new(line?);
        match words.next_word() {
            None => Ok(None),
            Some(b"station") => Ok(Some(self.make(&mut words)?)),
            Some(name) => Ok(Some(self.call(name, &mut words)?)),
        }
    }
}

impl Session for Server {
    fn take(&mut self, line: Result<&[u8], TooLong>, out: &mut Vec<u8>) -> io::Result<()> {
        match self.answer(line) {
            Ok(None) => Ok(()),
            Ok(Some(answer)) => Ok(put_answer(&answer, out)?),
            Err(fault) => Ok(put_error(fault, out)?),
        }
    }

    fn end(&mut self, _out: &mut Vec<u8>) -> io::Result<()> {
        Ok(())
    }
}
