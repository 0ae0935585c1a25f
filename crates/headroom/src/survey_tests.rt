// A survey from its lines to its report.
use console::{Survey, run};
use std::test::Fail;

const LINES: &[u8] = b"# The worked generator, with lines between that are not taken.
kind 7                                              # there are four kinds
kind generator
bid 3 290000 300000 624000 690000 66000  0 0 0 0 0 0 0 0 0 66000
bid RAISEREG 300000 300000 590000 680000 100000  100000 0 0 0 0 0 0 0 0 0
bid 8 290000 366000 690000 690000 76000  0 76000 0 0 0 0 0 0 0 0
bid LOWERREG 300000 400000 690000 690000 100000  0 0 0 0 0 0 0 0 0 100000
bid 2 0 0 0 0 0  1 0 0 0 0 0 0 0 0 0                # no availability
bid 1 0 0 690000 690000 50000  0 0 0 0 0 0 0 0 0 0  # no band
bid 0 460000 460000 690000 690000 50000  1 0 0 0 0 0 0 0 0 0
bid 5 0 0 440000 449999 50000  1 0 0 0 0 0 0 0 0 0
bid 6 0 0 10 10 10  1 0 0 0 0 0 0 0 0               # nine bands
bid 6 0 0 10 10 10  1 0 0 0 0 0 0 0 0 0 0           # eleven
bid 6 0 0 10 10 4000001  1 0 0 0 0 0 0 0 0 0
bid 6 0 0 10 10 10  1 0 0 0 0 0 0 0 0 18446744073709551615
bid 6 0 0 10 10 10  1 0 0 0 0 0 0 0 0 18446744073709551616
bid 6 10 9 10 10 10  1 0 0 0 0 0 0 0 0 0
bid 10 0 0 10 10 10  1 0 0 0 0 0 0 0 0 0
bid RAISE2SEC 0 0 10 10 10  1 0 0 0 0 0 0 0 0 0
bid 6 0 0 10 +10 10  1 0 0 0 0 0 0 0 0 0
bit 6
reading nan 280 670 3 2 - 690000 1
reading 450 inf 670 3 2 - 690000 1
reading 450 280 4000.0000001 3 2 - 690000 1
reading 450 280 670 800.1 2 - 690000 1
reading 450 280 670 3 -2 - 690000 1
reading 450 280 670 3 2 - 4000001 1
reading 450 280 670 3 2 - 690000 3
reading - 280 670 3 2 - 690000 1
reading 450 280 670 3 2 x 690000 1
reading 450 280 670 3 2 - 690000 1
\xff\xfe kind load
\tkind\tgenerator\x0d
plant cap 1 2 3                                     # 24 caps are wanted
plant share 70000 4294967296
plant none
plant both share 1 1
row 4000001 0 0 0 0 0 0 0 0 0 0
row 455000 0 0 0 18446744073709551615 0 0 0 0 0 0
row 455000 0 0 0 50000 10000 0 0 0 50000            # nine amounts
plant share 70000 70000
row 455000 0 0 0 50000 10000 0 0 0 50000 10000
";

const REPORT: &[u8] = b"line 2: declined 2: a kind is at most 3
line 12: error: there are too few words
line 13: error: there are too many words
line 14: declined 4: a number of a bid is at most 4000000 kW
line 15: declined 4: a number of a bid is at most 4000000 kW
line 16: error: a word is not a whole number below 2^64
line 17: declined 5: the first four numbers of a bid never fall
line 18: declined 3: a service is at most 9
line 19: error: a word is neither a number nor the name of a service
line 20: error: a word is not a whole number below 2^64
line 21: error: the first word is unknown
line 22: declined 6: a number of the reading is out of its range
line 23: declined 6: a number of the reading is out of its range
line 24: declined 6: a number of the reading is out of its range
line 25: declined 6: a number of the reading is out of its range
line 26: declined 6: a number of the reading is out of its range
line 27: declined 6: a number of the reading is out of its range
line 28: declined 6: a number of the reading is out of its range
line 29: error: a word is not a decimal number
line 30: error: a word is not a decimal number
line 32: error: the first word is unknown
line 34: error: there are too few words
line 35: error: a number of a plant is not below 2^32
line 36: error: a word is not the name of a plant limit
line 37: error: a word is not the name of a plant limit
line 38: declined 7: an energy or an amount is at most 4000000 kW
line 39: declined 7: an energy or an amount is at most 4000000 kW
line 40: error: there are too few words
scheduled generator, in kW
service       state                                        enablement min  low breakpoint  high breakpoint  enablement max  max availability
0 RAISE1SEC   15 initial is outside the enablement limits          460000          460000           690000          690000             50000
1 RAISE6SEC   13 no band is above 0                                     0               0           690000          690000             50000
2 RAISE60SEC  12 effective max availability is 0                        0               0                0               0                 0
3 RAISE5MIN   live                                                 290000          300000           624000          690000             66000
4 RAISEREG    live                                                 300000          300000           656500          670000             15000
5 LOWER1SEC   15 initial is outside the enablement limits               0               0           440000          449999             50000
6 LOWER6SEC   11 no bid
7 LOWER60SEC  11 no bid
8 LOWER5MIN   live                                                 290000          366000           690000          690000             76000
9 LOWERREG    live                                                 300000          310000           670000          670000             10000
figures at 455000 kW
service             held      figure  held down by
0 RAISE1SEC            0           0  15 initial is outside the enablement limits
1 RAISE6SEC            0           0  13 no band is above 0
2 RAISE60SEC           0           0  12 effective max availability is 0
3 RAISE5MIN        50000       60000  8 plant limit, by the plant
4 RAISEREG         10000       10000  6 joint ramping, by RAISEREG
5 LOWER1SEC            0           0  15 initial is outside the enablement limits
6 LOWER6SEC            0           0  11 no bid
7 LOWER60SEC           0           0  11 no bid
8 LOWER5MIN        50000       60000  8 plant limit, by the plant
9 LOWERREG         10000       10000  1 max availability, by LOWERREG
limit                         by                lesser side           greater side              left
1 max availability            RAISE5MIN              50000 <=            66000             16000
4 joint capacity, upper       RAISE5MIN        33990000000 <=      45540000000       11550000000
5 joint capacity, lower       RAISE5MIN        19140000000 <=      28870000000        9730000000
1 max availability            RAISEREG               10000 <=            15000              5000
2 regulating capacity, upper  RAISEREG         46400000000 <=      67000000000       20600000000
3 regulating capacity, lower  RAISEREG         30000000000 <=      45500000000       15500000000
1 max availability            LOWER5MIN              50000 <=            76000             26000
4 joint capacity, upper       LOWER5MIN        35340000000 <=      52440000000       17100000000
5 joint capacity, lower       LOWER5MIN        22040000000 <=      30020000000        7980000000
1 max availability            LOWERREG               10000 <=            10000                 0
2 regulating capacity, upper  LOWERREG         45500000000 <=      67000000000       21500000000
3 regulating capacity, lower  LOWERREG         30000000000 <=      44500000000       14500000000
6 joint ramping               RAISEREG              465000 <=           465000                 0
7 joint ramping               LOWERREG              440000 <=           445000              5000
8 plant limit                 allows the row
";

#[test]
fn surveys_with_limits(rt: HostRuntime) -> Result<(), Fail> {
    let mut survey = Survey::new(true);
    let mut lines = LINES;
    let mut report = Vec::new(rt.alloc());
    run(&mut survey, &mut lines, &mut report, rt.alloc())?;
    assert!(rt; survey.is_done());
    assert!(rt; report.as_slice() == REPORT);
    Ok(())
}
