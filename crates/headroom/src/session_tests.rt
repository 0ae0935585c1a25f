// A session with a station: every call, what is refused, and what is no call.
use console::{Server, run};
use std::test::Fail;

const CALLS: &[u8] = b"# A session with a station: every call, what is refused, and what is no call.

   \t 
enrol 0 generator                       # there is no station yet
station
station 7
station 7 18446744073709551603
station 7 18446744073709551603 none
station 7 18446744073709551603 bare 1
station 4294967296 18446744073709551603 bare
station 7 18446744073709551616 bare
station -7 18446744073709551603 bare
station 7 18446744073709551603 share 70000 4294967296
station 7 18446744073709551603 cap 1 2 3
station 7 18446744073709551603 both share 1 1
station 7 18446744073709551603 both cap 700000 700000 700000 700000 0 0 0 0 0 0 0 0 0 0 0 0 0 0 0 0 0 0 0 4294967295 share 70000
Station 7 1 bare
station 7 18446744073709551603 both cap 700000 150000 120000 40000 0 0 0 0 0 0 0 0 0 0 0 0 0 0 0 0 0 0 0 4294967295 share 70000 70000
station 8 1 bare                        # a second one

# units and kinds
enrol 0 generator
enrol 0 load
enrol 1 1
\tenrol\t2   load\t# tabs, and a comment
enrol 3 demand-response\x0d
enrol 0023 003
enrol 24 generator
enrol 4294967296 generator              # not unit 0 again
enrol 18446744073709551615 9            # the unit is told first
enrol 18446744073709551616 generator
enrol 4 4
enrol 4 4294967296
enrol 4 18446744073709551616
enrol 4 wind
enrol +4 load
enrol 4
enrol 4 load 1
retire 4
retire 24
retire 23
retire 23
retire

# bids
bid 0 RAISE5MIN 290000 300000 624000 690000 66000  0 0 0 0 0 0 0 0 0 66000
bid 0 4 300000 300000 590000 680000 100000  100000 0 0 0 0 0 0 0 0 0
bid 0 LOWER5MIN 290000 366000 690000 690000 76000  0 76000 0 0 0 0 0 0 0 0
bid 0 LOWERREG 300000 400000 690000 690000 100000  0 0 0 0 0 0 0 0 0 100000
bid 0 0 460000 460000 690000 690000 50000  1 0 0 0 0 0 0 0 0 0      # above the initial reading
bid 0 1 0 0 690000 690000 50000  0 0 0 0 0 0 0 0 0 0                # no band
bid 0 2 0 0 0 0 0  1 0 0 0 0 0 0 0 0 0                              # no availability
bid 0 5 0 0 0 10 10  1 0 0 0 0 0 0 0 0
bid 0 5 0 0 0 10 10  1 0 0 0 0 0 0 0 0 0 0
bid 0 5 0 0 0 10 4000001  1 0 0 0 0 0 0 0 0 0
bid 0 5 0 0 0 10 10  1 0 0 0 0 0 0 0 0 18446744073709551615
bid 0 5 0 0 0 10 10  1 0 0 0 0 0 0 0 0 18446744073709551616
bid 0 5 10 9 10 10 10  1 0 0 0 0 0 0 0 0 0
bid 0 5 4294967297 1 1 1 1  1 0 0 0 0 0 0 0 0 0                     # too large is told before falling
bid 0 10 0 0 0 10 10  1 0 0 0 0 0 0 0 0 0
bid 0 RAISE2SEC 0 0 0 10 10  1 0 0 0 0 0 0 0 0 0
bid 24 10 0 0 0 10 10  1 0 0 0 0 0 0 0 0 0
bid 4 5 0 0 0 10 10  1 0 0 0 0 0 0 0 0 0
bid 1 RAISE6SEC 0 0 90000 110000 20000  20000 0 0 0 0 0 0 0 0 0
bid 1 LOWERREG 0 30000 120000 120000 30000  30000 0 0 0 0 0 0 0 0 0
bid 2 4 0 30000 100000 100000 30000  30000 0 0 0 0 0 0 0 0 0
bid 2 9 0 0 70000 100000 30000  30000 0 0 0 0 0 0 0 0 0
bid 2 8 0 0 100000 100000 40000  40000 0 0 0 0 0 0 0 0 0
bid 3 3 0 0 10000 10000 4000000  1 0 0 0 0 0 0 0 0 0
bid 3 RAISEREG 0 0 5000 40000 10000  10000 0 0 0 0 0 0 0 0 0
withdraw 0 5
withdraw 0 RAISE60SEC
withdraw 0 2
withdraw 0 10
withdraw 24 10
withdraw 4 2
withdraw 0
withdraw 0 2 2
bid 0 2 0 0 0 0 0  1 0 0 0 0 0 0 0 0 0

# readings
open 24 450 280 670 3 2 - 690000 1
open 4 450 280 670 3 2 - 690000 1
open 0 nan 280 670 3 2 - 690000 1
open 0 450 inf 670 3 2 - 690000 1
open 0 450 280 4000.0000001 3 2 - 690000 1
open 0 450 280 670 800.1 2 - 690000 1
open 0 450 280 670 3 -2 - 690000 1
open 0 450 280 670 3 2 - 4000001 1
open 0 450 280 670 3 2 - 4294967296 1
open 0 450 280 670 3 2 - 690000 3
open 0 450 280 670 3 2 - 690000 4294967297
open 0 - 280 670 3 2 - 690000 1
open 0 450 280 670 3 2 x 690000 1
open 0 450 280 670 3 2 - 690000
open 0 450 280 670 3 2 - 690000 1 1
open 0 450 280 670 3 2 - 690000.0 1
open 1 80 - - - - - 120000 1            # no forecast
lapse 0
open 0 450 280 670 3 2 - 690000 1
open 0 450 280 670 3 2 - 690000 1
retire 0
bid 0 5 0 0 0 10 10  1 0 0 0 0 0 0 0 0 0
withdraw 0 3

# the worked generator
figure 7:0:18446744073709551603 3                            # no energy yet
amount 7:0:18446744073709551603 3 1
close 7:0:18446744073709551603
probe 7:0:18446744073709551603 RAISE5MIN 455000
probe 7:0:18446744073709551603 RAISE5MIN 690000
probe 7:0:18446744073709551603 RAISE5MIN 690001
probe 7:0:18446744073709551603 6 455000
probe 7:0:18446744073709551603 10 4000001
probe 7:0:18446744073709551603 3 4000001
probe 7:0:18446744073709551603 3 18446744073709551615
probe 7:0:18446744073709551603 3 18446744073709551616
probe 7:0:18446744073709551603 3
energy 7:0:18446744073709551603 700000
energy 7:0:18446744073709551603 4000001
energy 7:0:18446744073709551603 455000
amount 7:0:18446744073709551603 3 50000
amount 7:0:18446744073709551603 4 10000
amount 7:0:18446744073709551603 8 50000
amount 7:0:18446744073709551603 9 10000
amount 7:0:18446744073709551603 4 10001
amount 7:0:18446744073709551603 RAISE5MIN 60001
amount 7:0:18446744073709551603 3 66001
amount 7:0:18446744073709551603 6 0
amount 7:0:18446744073709551603 10 4000001
amount 7:0:18446744073709551603 3 4000001
amount 7:0:18446744073709551603 3 4294967296
amount 7:0:18446744073709551603 3 x
figure 7:0:18446744073709551603 RAISE5MIN
figure 7:0:18446744073709551603 4
figure 7:0:18446744073709551603 8
figure 7:0:18446744073709551603 LOWERREG
figure 7:0:18446744073709551603 0
figure 7:0:18446744073709551603 1
figure 7:0:18446744073709551603 2
figure 7:0:18446744073709551603 5
figure 7:0:18446744073709551603 10
figure 7:0:18446744073709551603 18446744073709551615
figure 7:0:18446744073709551603 REG
trapezium 7:0:18446744073709551603 0
trapezium 7:0:18446744073709551603 1
trapezium 7:0:18446744073709551603 2
trapezium 7:0:18446744073709551603 3
trapezium 7:0:18446744073709551603 4
trapezium 7:0:18446744073709551603 5
trapezium 7:0:18446744073709551603 6
trapezium 7:0:18446744073709551603 7
trapezium 7:0:18446744073709551603 8
trapezium 7:0:18446744073709551603 9
trapezium 7:0:18446744073709551603 10
energy 7:0:18446744073709551603 690000                       # the row stays as it was
figure 7:0:18446744073709551603 3

# passes
figure 7:0:18446744073709551604 3
figure 8:0:18446744073709551603 3
figure 7:1:18446744073709551603 3
figure 7:24:18446744073709551603 3
figure 4294967303:0:18446744073709551603 3              # not station 7
figure 7:4294967296:18446744073709551603 3              # not unit 0
figure 18446744073709551615:18446744073709551615:18446744073709551615 3
close 18446744073709551615:18446744073709551615:18446744073709551615
close 18446744073709551616:0:0
close 7:0:18446744073709551603:1
close 7:0
close 7:0:
close ::
close 7::1
close 7
close 7:0:-1
close 7:0: 1
close
figure 007:00:18446744073709551603 3
close 7:0:18446744073709551603 9
close 7:0:18446744073709551603 0
close 7:0:18446744073709551603 x
close 7:0:18446744073709551603 10 10
close 7:0:18446744073709551603
close 7:0:18446744073709551603
abandon 7:0:18446744073709551603
energy 7:0:18446744073709551603 0

# the wind farm, the load and the demand response unit
open 1 79.9995 0 -0.0 2 1e0 100.0005 120000 0
energy 7:1:18446744073709551604 100002
energy 7:1:18446744073709551604 89990
energy 7:1:18446744073709551604 80000
amount 7:1:18446744073709551604 1 20000
amount 7:1:18446744073709551604 RAISE6SEC 19999
amount 7:1:18446744073709551604 RAISE6SEC 0
trapezium 7:1:18446744073709551604 1
trapezium 7:1:18446744073709551604 9
figure 7:1:18446744073709551604 1
figure 7:1:18446744073709551604 9
close 7:1:18446744073709551604 18446744073709551615
open 1 0.0005 - - - - 0 120000 2
probe 7:1:18446744073709551605 9 0
probe 7:1:18446744073709551605 1 0
abandon 7:1:18446744073709551605
abandon 7:1:18446744073709551605
open 2 60 - - 1 0.9 - 100000 1
energy 7:2:18446744073709551606 60000
amount 7:2:18446744073709551606 9 5001
amount 7:2:18446744073709551606 9 5000
amount 7:2:18446744073709551606 4 4501
amount 7:2:18446744073709551606 4 4500
figure 7:2:18446744073709551606 8
trapezium 7:2:18446744073709551606 4
trapezium 7:2:18446744073709551606 9
close 7:2:18446744073709551606
open 3 -2 - 30 0.5 - - 40000 0
energy 7:3:18446744073709551607 0
trapezium 7:3:18446744073709551607 3
trapezium 7:3:18446744073709551607 4
figure 7:3:18446744073709551607 4
figure 7:3:18446744073709551607 3
abandon 7:3:18446744073709551607
bid 3 3 0 0 100 10000 1000  1 0 0 0 0 0 0 0 0 0
bid 3 4 0 0 0 1000 10  10 0 0 0 0 0 0 0 0 0
open 3 0 - 0.5 - - - 40000 0            # the high breakpoint is below zero
trapezium 7:3:18446744073709551608 4
trapezium 7:3:18446744073709551608 3
lapse 3
lapse 3
lapse 24
lapse 4
lapse 18446744073709551616

# lines that are no calls
bit 1
ENROL 4 load
figure
\xff\xfe enrol 4 load
enrol \xc3( load
retire 4 # \xff is only a comment
enrol 4\x00 load
enrol 4\x0dload
\x0d
#
enrol#4 load
enrol 5#load
xxxxxxxxxxxxxxxxxxxxxxxxxxxxxxxxxxxxxxxxxxxxxxxxxxxxxxxxxxxxxxxxxxxxxxxxxxxxxxxxxxxxxxxxxxxxxxxxxxxxxxxxxxxxxxxxxxxxxxxxxxxxxxxxxxxxxxxxxxxxxxxxxxxxxxxxxxxxxxxxxxxxxxxxxxxxxxxxxxxxxxxxxxxxxxxxxxxxxxxxxxxxxxxxxxxxxxxxxxxxxxxxxxxxxxxxxxxxxxxxxxxxxxxxxxxxxxxxxxxxxxxxxxxxxxxxxxxxxxxxxxxxxxxxxxxxxxxxxxxx

# the serials run out
open 2 60 - - 1 0.9 - 100000 1
abandon 7:2:18446744073709551609
open 2 60 - - 1 0.9 - 100000 1
abandon 7:2:18446744073709551610
open 2 60 - - 1 0.9 - 100000 1
abandon 7:2:18446744073709551611
open 2 60 - - 1 0.9 - 100000 1
abandon 7:2:18446744073709551612
open 2 60 - - 1 0.9 - 100000 1
abandon 7:2:18446744073709551613
open 2 60 - - 1 0.9 - 100000 1
abandon 7:2:18446744073709551614
open 2 60 - - 1 0.9 - 100000 1
open 2 nan - - 1 0.9 - 100000 1         # the reading is told first
retire 1
enrol 1 semi-scheduled
withdraw 1 1                            # its bids went with it
retire 1  # the last line has no line break";

const ANSWERS: &[u8] = b"error there is no station yet
error there are too few words
error there are too few words
error there are too few words
error a word is not the name of a plant limit
error there are too many words
error the number of a station is not below 2^32
error a word is not a whole number below 2^64
error a word is not a whole number below 2^64
error a number of a plant is not below 2^32
error there are too few words
error a word is not the name of a plant limit
error there are too few words
error the first word is unknown
ok
error there is a station already
ok
declined 21
ok
ok
ok
ok
declined 1
declined 1
declined 1
error a word is not a whole number below 2^64
declined 2
declined 2
error a word is neither a number nor the name of a kind
error a word is neither a number nor the name of a kind
error a word is not a whole number below 2^64
error there are too few words
error there are too many words
declined 22
declined 1
ok
declined 22
error there are too few words
ok
ok
ok
ok
ok
ok
ok
error there are too few words
error there are too many words
declined 4
declined 4
error a word is not a whole number below 2^64
declined 5
declined 4
declined 3
error a word is neither a number nor the name of a service
declined 1
declined 22
ok
ok
ok
ok
ok
ok
ok
declined 26
ok
declined 26
declined 3
declined 1
declined 22
error there are too few words
error there are too many words
ok
declined 1
declined 22
declined 6
declined 6
declined 6
declined 6
declined 6
declined 6
declined 6
declined 6
declined 6
error a word is not a decimal number
error a word is not a decimal number
error there are too few words
error there are too many words
error a word is not a whole number below 2^64
declined 24
declined 27
ok pass 7:0:18446744073709551603
declined 23
declined 23
declined 23
declined 23
declined 29
declined 29
declined 29 pass 7:0:18446744073709551603
ok figure 66000 ground 1 by 3
ok none
ok none
ok none
declined 3
declined 7
declined 7
error a word is not a whole number below 2^64
error there are too few words
declined 31 ground 4 by 3
declined 7
ok
ok
ok
ok
ok
declined 31 ground 6 by 4
declined 31 ground 8 by 10
declined 31 ground 1 by 3
declined 30
declined 3
declined 7
declined 7
error a word is not a whole number below 2^64
ok figure 60000 ground 8 by 10
ok figure 10000 ground 6 by 4
ok figure 60000 ground 8 by 10
ok figure 10000 ground 1 by 9
ok figure 0 ground 15 by 0
ok figure 0 ground 13 by 1
ok figure 0 ground 12 by 2
ok figure 0 ground 11 by 5
declined 3
declined 3
error a word is neither a number nor the name of a service
ok trapezium 460000 460000 690000 690000 50000
ok trapezium 0 0 690000 690000 50000
ok trapezium 0 0 0 0 0
ok trapezium 290000 300000 624000 690000 66000
ok trapezium 300000 300000 656500 670000 15000
ok none
ok none
ok none
ok trapezium 290000 366000 690000 690000 76000
ok trapezium 300000 310000 670000 670000 10000
declined 3
declined 31 ground 4 by 3
ok figure 60000 ground 8 by 10
declined 28
declined 28
declined 28
declined 28
declined 28
declined 28
declined 28
declined 28 pass 18446744073709551615:18446744073709551615:18446744073709551615
error a word is not a pass, three whole numbers with colons between
error a word is not a pass, three whole numbers with colons between
error a word is not a pass, three whole numbers with colons between
error a word is not a pass, three whole numbers with colons between
error a word is not a pass, three whole numbers with colons between
error a word is not a pass, three whole numbers with colons between
error a word is not a pass, three whole numbers with colons between
error a word is not a pass, three whole numbers with colons between
error a word is not a pass, three whole numbers with colons between
error there are too few words
ok figure 60000 ground 8 by 10
declined 8 pass 7:0:18446744073709551603
declined 8 pass 7:0:18446744073709551603
error a word is not a whole number below 2^64
error there are too many words
ok figures 0/15/0 0/13/1 0/12/2 60000/8/10 10000/6/4 0/11/5 0/11/6 0/11/7 60000/8/10 10000/1/9
declined 28 pass 7:0:18446744073709551603
declined 28
declined 28
ok pass 7:1:18446744073709551604
declined 31 ground 4 by 1
ok
ok
ok
ok
ok
ok trapezium 0 0 80001 100001 20000
ok trapezium 0 5000 100001 100001 5000
ok figure 20000 ground 1 by 1
ok figure 5000 ground 1 by 9
ok figures 0/11/0 20000/1/1 0/11/2 0/11/3 0/11/4 0/11/5 0/11/6 0/11/7 0/11/8 5000/1/9
ok pass 7:1:18446744073709551605
ok none
ok none
ok
declined 28
ok pass 7:2:18446744073709551606
ok
declined 31 ground 1 by 9
ok
declined 31 ground 1 by 4
ok
ok figure 40000 ground 1 by 8
ok trapezium 0 4500 100000 100000 4500
ok trapezium 0 0 95000 100000 5000
ok figures 0/11/0 0/11/1 0/11/2 0/11/3 4500/1/4 0/11/5 0/11/6 0/11/7 40000/1/8 5000/1/9
ok pass 7:3:18446744073709551607
ok
ok trapezium 0 0 10000 10000 4000000
ok trapezium 0 0 21250 30000 2500
ok figure 500 ground 6 by 4
ok figure 40000 ground 8 by 10
ok
ok
ok
ok pass 7:3:18446744073709551608
ok trapezium 0 0 -500 500 10
ok trapezium 0 0 100 10000 1000
ok
declined 27
declined 1
declined 22
error a word is not a whole number below 2^64
error the first word is unknown
error the first word is unknown
error there are too few words
error the first word is unknown
error a word is not a whole number below 2^64
declined 22
error a word is not a whole number below 2^64
error a word is not a whole number below 2^64
error there are too few words
error there are too few words
error the first word is unknown
ok pass 7:2:18446744073709551609
ok
ok pass 7:2:18446744073709551610
ok
ok pass 7:2:18446744073709551611
ok
ok pass 7:2:18446744073709551612
ok
ok pass 7:2:18446744073709551613
ok
ok pass 7:2:18446744073709551614
ok
declined 25
declined 6
ok
ok
declined 26
ok
";

#[test]
fn answers_a_session(rt: HostRuntime) -> Result<(), Fail> {
    let mut calls = CALLS;
    let mut answers = Vec::new(rt.alloc());
    run(&mut Server::new(), &mut calls, &mut answers, rt.alloc())?;
    assert!(rt; answers.as_slice() == ANSWERS);
    Ok(())
}
