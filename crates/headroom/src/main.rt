// The headroom station's program.
#![tactic(auto)]

#[cfg(test)]
mod line_tests;
#[cfg(test)]
mod session_tests;
#[cfg(test)]
mod survey_tests;

use anyhow::{bail, ensure};
use console::{Server, Survey, run};
use std::env;

const HELP: &str = "headroom: how much of each frequency service a unit can give

  headroom            a station: read calls from the standard input, one to a line, and answer
                      each with one line on the standard output
                        station NUMBER FIRST_SERIAL PLANT        the first call, once
                          PLANT: bare, cap C0 .. C23, share RAISE LOWER,
                          or both cap C0 .. C23 share RAISE LOWER
                        enrol UNIT KIND                          a unit, 0 to 23, comes under a kind
                        retire UNIT                              it goes
                        bid UNIT SERVICE ENABLEMENT_MIN LOW HIGH ENABLEMENT_MAX MAX_AVAILABILITY
                            BAND1 .. BAND10                      on one line
                        withdraw UNIT SERVICE                    the bid goes
                        open UNIT INITIAL AGC_LOWER AGC_UPPER RAMP_UP RAMP_DOWN UIGF ENERGY_MAX STATUS
                                                                 an interval begins; answers its PASS
                        energy PASS KW                           set the energy of the row
                        amount PASS SERVICE KW                   set the amount of a service
                        figure PASS SERVICE                      the greatest amount, and what holds it
                        probe PASS SERVICE KW                    the same at another energy
                        trapezium PASS SERVICE                   the effective trapezium
                        close PASS [PLACES]                      the interval ends; all ten figures
                        abandon PASS                             it ends without figures
                        lapse UNIT                               it ends, whoever has the pass
                      PASS is STATION:UNIT:SERIAL, as `open` answers it. Answers begin with ok,
                      declined and the number of the refusal, or error where a line is no call.
  headroom survey     read one unit from the standard input, and say of each of its ten
                      services whether it is live, what keeps it out, and its effective
                      trapezium; of a row of energy and amounts also the greatest amount
                      of each service and the limit that holds it down. Lines, in any
                      order, the last of a sort counting:
                        kind KIND
                        bid SERVICE ENABLEMENT_MIN LOW HIGH ENABLEMENT_MAX MAX_AVAILABILITY BAND1 .. BAND10
                        reading INITIAL AGC_LOWER AGC_UPPER RAMP_UP RAMP_DOWN UIGF ENERGY_MAX STATUS
                        plant PLANT
                        row ENERGY A0 .. A9
  headroom survey --limits
                      list every limit of the row as well, with what is left to it
  headroom --help     print this

Bids, energies, amounts, plants and ENERGY_MAX are in kW, the other numbers of a reading in MW
(ramps in MW a minute), `-` where one is absent. STATUS is that of the AGC: 0 not told, 1 on,
2 off. `#` begins a comment.
KIND: generator, semi-scheduled, load, demand-response, or 0 to 3.
SERVICE: RAISE1SEC RAISE6SEC RAISE60SEC RAISE5MIN RAISEREG
LOWER1SEC LOWER6SEC LOWER60SEC LOWER5MIN LOWERREG, or 0 to 9.
";

fn run_station(rt: &HostRuntime) -> anyhow::Result<()> {
    let mut server = Server::new();
    run(&mut server, &mut rt.stdin(), &mut rt.stdout(), rt.alloc())?;
    Ok(())
}

fn run_survey(rt: &HostRuntime, with_limits: bool) -> anyhow::Result<()> {
    let mut survey = Survey::new(with_limits);
    run(&mut survey, &mut rt.stdin(), &mut rt.stdout(), rt.alloc())?;
    ensure!(survey.is_done(), "no survey");
    Ok(())
}

fn main(rt: HostRuntime) -> anyhow::Result<()> {
    let mut words = env::args(&rt)?.skip(1);
    let Some(word) = words.next() else {
        return run_station(&rt);
    };
    match word.as_str() {
        "survey" => {
            let Some(option) = words.next() else {
                return run_survey(&rt, false);
            };
            match option.as_str() {
                "--limits" => run_survey(&rt, true),
                _ => {
                    eprintln!(rt; "headroom: unknown option; try headroom --help")?;
                    bail!("unknown option")
                }
            }
        }
        "--help" | "-h" | "help" => {
            print!(rt; "{HELP}")?;
            Ok(())
        }
        _ => {
            eprintln!(rt; "headroom: unknown command; try headroom --help")?;
            bail!("unknown command")
        }
    }
}
