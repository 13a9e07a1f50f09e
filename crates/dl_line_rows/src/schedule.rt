use dl_schedule::early::parse_early;
use dl_schedule::laws::{early_lines_are_exact, lines_are_exact};
use dl_schedule::parse::parse_line;
use dl_schedule::print::print_step;
use dl_schedule::step::Step;
use dl_types::line_fault::LineFault;
use dl_types::memory::NoMemory;
use std::alloc::Global;
use std::test::Fail;

/// The bytes of a line as a row has it, with `$` for the line feed.
fn bytes_of(alloc: Global, row: &str) -> Result<Vec<u8>, NoMemory> {
    let mut line = Vec::new(alloc);
    for byte in row.bytes() {
        line.push(if byte == b'$' { b'\n' } else { byte })?;
    }
    Ok(line)
}

/// The column at which a line is refused, 0 where it is read.
fn column_of(read: Result<Step, LineFault>) -> u64 {
    match read {
        Ok(_) => 0,
        Err(LineFault::NoMemory) => u64::MAX,
        Err(LineFault::BadLine { column }) => column,
    }
}

/// The number that a word says.
fn number_of(word: &str) -> u64 {
    match word.parse::<u64>() {
        Ok(number) => number,
        Err(_) => u64::MAX,
    }
}

/// Lines of no schedule, each with the column at which no line goes on.
fn bad_lines() -> &'static str {
    "\
# first words: cut, with another byte behind, without the byte that ends them
setu => 5
setupz => 6
setup$ => 6
joi => 4
joinz => 5
join$ => 5
cras => 5
crashz => 6
crash$ => 6
expir => 6
expirez => 7
expire$ => 7
creat => 6
createz => 7
create$ => 7
remov => 6
removez => 7
remove$ => 7
ope => 4
openz => 5
open$ => 5
recove => 7
recoverz => 8
recover$ => 8
purg => 5
purgez => 6
purge$ => 6
appen => 6
appendz => 7
append$ => 7
se => 3
setz => 4
set$ => 4
flus => 5
flushz => 6
flush$ => 6
commi => 6
commitz => 7
commit$ => 7
clos => 5
closez => 6
close$ => 6
see => 4
seekz => 5
seek$ => 5
rea => 4
readz => 5
read$ => 5
truncat => 8
truncatez => 9
truncate$ => 9
delive => 7
deliverz => 8
deliver$ => 8
syn => 4
syncz => 5
sync$ => 5
los => 4
losez => 5
lose$ => 5
sto => 4
stopz => 5
stop$ => 5
stopmet => 8
stopmetaz => 9
stopmeta$ => 9
kil => 4
killz => 5
kill$ => 5
u => 2
upz => 3
up$ => 3
settl => 6
settlez => 7
settle $ => 7
mai => 4
mailz => 5
mail $ => 5
# no first word
 => 1
$ => 1
 settle$ => 1
Settle$ => 1
x$ => 1
settle => 7
settle$$ => 8
# clients and bookies
join $ => 6
join 64$ => 7
join 00$ => 7
join 6x$ => 7
join -1$ => 6
join 5 => 7
crash 100$ => 9
append 64 1 61$ => 9
sync 16$ => 7
sync 1x$ => 7
lose 01$ => 7
lose  1$ => 6
sync 15 => 8
# numbers of bookies, sessions, rows, messages, calls and bits
setup 0 1 1 1$ => 7
setup 17 1 1 1$ => 8
setup 1 1 1 $ => 13
setup 3 3 3 2 $ => 14
setup 3 3 3 2 => 14
expire 0$ => 8
expire 01$ => 8
expire 18446744073709551616$ => 27
expire 1 => 9
read 0 0$ => 8
read 0 1001$ => 11
read 0 01$ => 8
read 0 1000 => 12
deliver c0 m 0$ => 14
deliver c0 m 4294967296$ => 23
deliver m c0 1 $ => 15
stop 0 0 0$ => 8
stop 0 5 0$ => 8
stop 0 1 2$ => 10
stop 0 4 00$ => 11
stop 0 4 1 => 11
stopmeta 0 0 1 0$ => 12
stopmeta 0 1 5 1$ => 14
stopmeta 0 1 1 x$ => 16
stopmeta 1 2 4 1 => 17
# names
create 0 $ => 10
create 0 S$ => 10
create 0 1s$ => 10
open 0 a!$ => 9
purge 0 s $ => 10
remove 0 a_1-Z$ => 14
recover 0 aaaaaaaaaaaaaaaaaaaaaaaaaaaaaaaaaaaaaaaaaaaaaaaaaaaaaaaaaaaaaaaa => 75
recover 0 aaaaaaaaaaaaaaaaaaaaaaaaaaaaaaaaaaaaaaaaaaaaaaaaaaaaaaaaaaaaaaaaa$ => 75
create 0 s => 11
# transaction ids and payloads
append 0 01 61$ => 11
append 0 x 61$ => 10
append 0 9223372036854775808 61$ => 28
append 0 1 $ => 12
append 0 1 6$ => 13
append 0 1 6g$ => 13
append 0 1 61 $ => 14
append 0 1 -6$ => 13
append 0 1 FF$ => 12
append 0 1 61 => 14
# lists of payloads
set 0 1 $ => 9
set 0 1 61 $ => 12
set 0 1 61  61$ => 12
set 0 1 61 6$ => 13
set 0 1 61 - x$ => 14
set 0 1 - -6$ => 12
set 0 1 61 61 => 14
set 0 1 61 61 61 61 61 61 61 61 61 61 61 61 61 61 61 61 61 61 61 61 61 61 61 61 61 61 61 61 61 61 61 61 61 61 61 61 61 61 61 61 61 61 61 61 61 61 61 61 61 61 61 61 61 61 61 61 61 61 61 61 61 61 61 61 61$ => 200
set 0 1 - - - - - - - - - - - - - - - - - - - - - - - - - - - - - - - - - - - - - - - - - - - - - - - - - - - - - - - - - - - - - - - - => 136
set 0 1 - - - - - - - - - - - - - - - - - - - - - - - - - - - - - - - - - - - - - - - - - - - - - - - - - - - - - - - - - - - - - - - - $ => 136
# places and where a reader begins
truncate 0 s 0:0:0$ => 14
truncate 0 s 1:00:0$ => 17
truncate 0 s 1:0:4294967296$ => 27
truncate 0 s 1:0$ => 17
truncate 0 s 1::0$ => 16
truncate 0 s 18446744073709551616:0:0$ => 33
truncate 0 s 1:18446744073709551616:0$ => 35
truncate 0 s 1:0:0 => 19
seek 0 s $ => 10
seek 0 s old$ => 13
seek 0 s oldest $ => 16
seek 0 s dlsn 0:0:0$ => 15
seek 0 s dlsn 1:0:0:$ => 20
seek 0 s dlsn$ => 14
seek 0 s txid $ => 15
seek 0 s txid 9223372036854775808$ => 33
seek 0 s txid 1 $ => 16
# ends of links and nodes
deliver c0 c1 1$ => 12
deliver c64 m 1$ => 11
deliver b16 c0 1$ => 11
deliver b0 b1 1$ => 12
deliver b0 m 1$ => 12
deliver m m 1$ => 11
deliver m0 c0 1$ => 10
deliver mc0 1$ => 10
deliver x0 c0 1$ => 9
deliver c0 m1$ => 13
kill c0$ => 6
kill b16$ => 8
kill m $ => 7
kill b$ => 7
up m0$ => 5
up x$ => 4
up b0 => 6
"
}

#[test]
fn lines_stop_at_their_column(rt: HostRuntime) -> Result<(), Fail> {
    let alloc = rt.alloc();
    let mut count = 0u32;
    for row in bad_lines().lines() {
        let Some((line, column)) = row.split_once(" => ") else {
            continue;
        };
        let bytes = bytes_of(alloc, line)?;
        assert_eq!(rt;
            column_of(parse_line(alloc, &bytes)),
            number_of(column),
            "at {line}"
        );
        count = count.saturating_add(1);
    }
    assert_eq!(rt; count, 186);
    Ok(())
}

/// A line of each form, and those with the least and the greatest of their numbers.
fn good_lines() -> &'static str {
    "\
setup 1 16 2 10$
join 0$
crash 63$
expire 18446744073709551615$
create 1 s$
remove 9 a_1-z$
open 10 b$
recover 0 aaaaaaaaaaaaaaaaaaaaaaaaaaaaaaaaaaaaaaaaaaaaaaaaaaaaaaaaaaaaaaaa$
purge 2 s$
append 0 0 -$
append 63 9223372036854775807 00ff1a$
set 0 5 61$
set 1 6 - 00ff -$
set 2 7 61 61 61 61 61 61 61 61 61 61 61 61 61 61 61 61 61 61 61 61 61 61 61 61 61 61 61 61 61 61 61 61 61 61 61 61 61 61 61 61 61 61 61 61 61 61 61 61 61 61 61 61 61 61 61 61 61 61 61 61 61 61 61 61$
flush 3$
commit 4$
close 5$
seek 0 s oldest$
seek 0 s dlsn 1:0:0$
seek 1 s dlsn 18446744073709551615:18446744073709551615:4294967295$
seek 2 s txid 9223372036854775807$
read 0 1000$
truncate 0 s 2:3:4$
deliver c63 b15 1$
deliver c0 m 4294967295$
deliver b0 c1 2$
deliver m c2 3$
sync 0$
lose 15$
stop 0 1 0$
stop 1 4 1$
stopmeta 0 1 2 1$
stopmeta 63 4294967295 3 0$
kill b7$
kill m$
up b8$
up m$
settle$
mail$
"
}

#[test]
fn each_step_is_spelt_as_it_is_read(rt: HostRuntime) -> Result<(), Fail> {
    let alloc = rt.alloc();
    let mut count = 0u32;
    for row in good_lines().lines() {
        let line = bytes_of(alloc, row)?;
        let step = parse_line(alloc, &line)?;
        let text = print_step(alloc, &step)?;
        assert_eq!(rt; text.as_slice(), line.as_slice(), "at {row}");
        count = count.saturating_add(1);
    }
    assert_eq!(rt; count, 39);
    lines_are_exact();
    Ok(())
}

/// Lines of early schedules: the number of a line, the line, and the column at which it is refused.
fn early_lines() -> &'static str {
    "\
1  => 1
1 Setup 3 3 3 2$ => 1
1 setup  3 3 3 2$ => 7
1 setup 3 3 3 3$ => 13
1 setup 3 3 3 2 => 14
1 setup 3 3 3 2$$ => 15
2 join 1$ => 6
2 join 0 => 7
2 join 00$ => 7
2 join 0$x => 8
3 crate 0 s$ => 3
3 create 0 t$ => 10
3 create 0 s => 11
4 append 0 1 -$ => 1
4 settled$ => 7
4 settle$settle$ => 8
5 open 1 s$ => 6
5 open 0  s$ => 8
5 open 0 s => 9
6 setup 3 3 3 2$ => 4
6 settle => 7
7  => 1
7 join 0$ => 1
7 flash 0$ => 3
7 app => 4
7 apple => 4
7 setup 3 3 3 2$ => 4
7 flush$ => 6
7 append$ => 7
7 settle => 7
7 settle $ => 7
7 settle$$ => 8
7 append  0 1 -$ => 8
7 append 1 1 -$ => 8
7 append 0 => 9
7 append 0$ => 9
7 append 00 1 -$ => 9
7 flush 1$ => 7
7 flush 0 => 8
7 flush 0 $ => 8
7 append 0 $ => 10
7 append 0 -1 -$ => 10
7 append 0 01 -$ => 11
7 append 0 1  -$ => 12
7 append 0 9223372036854775808 -$ => 28
7 append 0 9223372036854775807$ => 29
4294967295 append 0 1 $ => 12
4294967295 append 0 1 FF$ => 12
4294967295 append 0 1 - => 13
4294967295 append 0 1 -6$ => 13
4294967295 append 0 1 6 => 13
4294967295 append 0 1 6$ => 13
4294967295 append 0 1 6A$ => 13
4294967295 append 0 1 6g$ => 13
4294967295 append 0 1 6-$ => 13
4294967295 append 0 1 61 => 14
4294967295 append 0 1 61 $ => 14
4294967295 append 0 1 61-$ => 14
4294967295 append 0 1 -$flush 0$ => 14
4294967295 append 0 1 616$ => 15
4294967295 append 0 1 61$$ => 15
1 setup 3 3 3 2$ => 0
2 join 0$ => 0
3 create 0 s$ => 0
4 settle$ => 0
5 open 0 s$ => 0
6 settle$ => 0
7 flush 0$ => 0
0 settle$ => 0
8 append 0 0 -$ => 0
9 append 0 9223372036854775807 00ff1a$ => 0
"
}

#[test]
fn early_lines_stop_at_their_column(rt: HostRuntime) -> Result<(), Fail> {
    let alloc = rt.alloc();
    let mut count = 0u32;
    for row in early_lines().lines() {
        let Some((said, column)) = row.split_once(" => ") else {
            continue;
        };
        let Some((number, line)) = said.split_once(" ") else {
            continue;
        };
        let bytes = bytes_of(alloc, line)?;
        let number = u32::try_from(number_of(number)).unwrap_or(u32::MAX);
        let read = parse_early(alloc, number, &bytes);
        assert_eq!(rt; column_of(read), number_of(column), "at {said}");
        count = count.saturating_add(1);
    }
    assert_eq!(rt; count, 71);
    early_lines_are_exact();
    Ok(())
}
