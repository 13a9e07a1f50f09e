//! Rows of a storage node, written by scripts/bookie_rows.py.

/// Random messages, commits, stops and loads.
pub const RANDOM: &str = "\
lac 2 => lac 7 2 open 0
add 3 3 5 c => queued
add 2 1 0 c => queued
stop 3 after
ask 3 0 => none 7 3 0 open
stop 0 before
copy 2 2 3 c => queued
copy 3 2 3 a => queued
commit => fault
load
ask 2 4 => none 7 2 4 open
add 1 4 2 a => queued
commit => added 1 4
ask 2 0 => none 7 2 0 open
commit => nothing
load
load
add 1 3 3 c => queued
add 3 1 5 b => queued
add 2 0 3 a => queued
commit => added 1 3 added 3 1 added 2 0
ask 1 0 => none 7 1 0 open
ask 1 3 => entry 7 1 3 of 29 99
commit => nothing
ask 1 3 => entry 7 1 3 of 29 99
load
lac 3 => lac 7 3 open 5
add 3 4 0 a => queued
commit => added 3 4
copy 1 4 2 b => copied 7 1 4
add 1 1 4 c => queued
add 2 2 4 b => queued
commit => added 1 1 added 2 2
copy 3 1 3 a => copied 7 3 1
commit => nothing
lac 3 => lac 7 3 open 5
ask 3 1 => entry 7 3 1 of 29 98
copy 2 0 0 a => copied 7 2 0
stop 2 before
add 3 3 2 c => queued
lac 1 => lac 7 1 open 4
ask 3 4 => entry 7 3 4 of 29 97
lac 1 => lac 7 1 open 4
copy 1 0 1 b => queued
copy 1 0 2 a => queued
fence 3 => queued
add 1 3 2 c => added 1 3
fence 1 => queued
add 2 2 1 a => added 2 2
commit => fault
load
copy 3 0 5 c => queued
commit => copied 7 3 0
add 3 3 0 b => queued
load
copy 3 3 3 c => queued
load
add 1 0 2 b => queued
add 3 4 3 b => added 3 4
ask 1 4 => entry 7 1 4 of 29 97
copy 2 0 1 c => copied 7 2 0
commit => added 1 0
ask 3 3 => none 7 3 3 open
add 3 4 1 c => added 3 4
ask 2 3 => none 7 2 3 open
add 2 1 5 b => queued
lac 2 => lac 7 2 open 4
add 2 2 0 c => added 2 2
commit => added 2 1
ask 1 3 => entry 7 1 3 of 29 99
ask 2 4 => none 7 2 4 open
ask 3 3 => none 7 3 3 open
stop 2 before
copy 2 4 0 c => queued
commit => fault
load
copy 1 2 1 a => queued
stop 0 after
commit => nothing
ask 2 0 => entry 7 2 0 of 29 97
ask 2 1 => entry 7 2 1 of 29 98
copy 1 1 1 b => copied 7 1 1
copy 3 4 4 a => copied 7 3 4
lac 3 => lac 7 3 open 5
add 2 1 5 a => added 2 1
copy 3 4 2 b => copied 7 3 4
ask 1 0 => entry 7 1 0 of 29 98
commit => nothing
add 2 0 2 c => added 2 0
add 3 0 2 c => queued
commit => fault
load
stop 3 after
copy 2 3 0 a => queued
commit => fault
load
ask 1 4 => entry 7 1 4 of 29 97
commit => nothing
add 3 4 5 c => added 3 4
lac 2 => lac 7 2 open 5
copy 3 2 5 c => queued
copy 3 2 2 c => queued
fence 3 => queued
copy 3 3 1 b => queued
add 1 4 3 a => added 1 4
fence 3 => queued
commit => copied 7 3 2 copied 7 3 2 lac 7 3 fenced 5 copied 7 3 3 lac 7 3 fenced 5
add 1 0 4 b => added 1 0
lac 2 => lac 7 2 open 5
add 2 3 4 b => queued
commit => added 2 3
add 1 2 1 c => queued
load
stop 1 before
add 2 2 5 b => added 2 2
copy 1 3 5 c => copied 7 1 3
commit => nothing
copy 3 1 5 c => copied 7 3 1
add 3 3 4 c => fenced 3 3
copy 3 4 5 a => copied 7 3 4
add 3 4 4 a => added 3 4
lac 3 => lac 7 3 fenced 5
add 1 1 1 a => added 1 1
commit => nothing
add 1 2 3 a => queued
ask 2 4 => none 7 2 4 open
add 3 0 0 a => fenced 3 0
ask 2 0 => entry 7 2 0 of 29 97
copy 3 1 0 b => copied 7 3 1
commit => fault
load
load
stop 3 before
add 1 1 1 b => added 1 1
commit => nothing
add 3 3 0 a => fenced 3 3
add 2 4 2 b => queued
copy 1 0 1 a => copied 7 1 0
copy 3 2 3 a => copied 7 3 2
add 3 0 2 a => fenced 3 0
copy 1 4 4 b => copied 7 1 4
add 1 1 3 a => added 1 1
lac 3 => lac 7 3 fenced 5
add 1 0 2 b => added 1 0
add 2 4 0 a => queued
lac 3 => lac 7 3 fenced 5
copy 3 0 3 c => copied 7 3 0
ask 3 0 => entry 7 3 0 of 29 99
load
commit => nothing
add 1 2 3 b => queued
add 1 3 0 a => added 1 3
add 2 4 4 c => queued
fence 3 => lac 7 3 fenced 5
commit => added 1 2 added 2 4
copy 1 3 1 b => copied 7 1 3
fence 2 => queued
stop 3 after
add 2 4 2 b => added 2 4
add 3 2 4 b => fenced 3 2
add 1 4 0 c => added 1 4
add 3 3 0 b => fenced 3 3
add 3 2 0 a => fenced 3 2
ask 2 1 => entry 7 2 1 of 29 98
commit => nothing
add 1 4 5 a => added 1 4";

/// What a load finds in a file of ten items with one bit of each byte turned, and in its first bytes.
pub const SPOILT: &str = "\
new never before
add 1 0 0 a => queued
fence 1 => queued
commit => added 1 0 lac 7 1 fenced 0
copy 2 7 6 b => queued
fence 2 => queued
add 3 1 1 c => queued
fence 18446744073709551615 => queued
add 3 2 2 d => queued
commit => copied 7 2 7 lac 7 2 fenced 6 added 3 1 lac 7 18446744073709551615 fenced 0 added 3 2
fence 3 => queued
copy 3 18446744073709551615 9223372036854775808 e => queued
fence 0 => queued
commit => lac 7 3 fenced 9223372036854775808 copied 7 3 18446744073709551615 lac 7 0 fenced 0
turned 1 => 0*8 loads*1 89*8 17*2 345*1 88*1 21*1 loads*24 50*3 54*1 50*1 51*1 79*1 52*1 54*3 78*1 loads*4 62*3 74*1 loads*8 74*1 78*3 loads*1 88*1 loads*9 89*8 97*3 294*1 110*1 loads*24 130*3 134*1 130*1 131*1 159*1 132*1 134*3 158*1 loads*4 142*3 154*1 loads*8 154*1 158*3 loads*1 188*1 loads*8 168*1 loads*24 197*3 201*1 197*1 198*1 226*1 199*1 201*3 225*1 loads*4 209*3 221*1 loads*8 221*1 225*3 loads*1 255*1 loads*8 235*1 loads*24 264*3 268*1 264*1 265*1 293*1 266*1 268*3 292*1 loads*4 276*3 288*1 loads*8 288*1 292*3 loads*2 294*8 302*3 383*1 335*1 loads*8 324*1 loads*24 344*3 348*1 344*1 345*1 373*1 346*1 348*3 372*1 loads*4 356*3 368*1 loads*8 368*1 372*3 loads*1 382*1 loads*8 383*1
turned 128 => 0*8 loads*1 9*1 89*7 17*3 117*1 21*1 loads*24 50*5 51*1 79*2 54*4 loads*4 62*4 66*1 loads*7 74*2 78*2 loads*1 79*1 loads*9 89*8 97*3 160*1 101*1 loads*24 130*3 159*1 130*1 131*1 159*2 134*4 loads*4 142*4 146*1 loads*7 154*2 158*2 loads*1 159*1 loads*8 168*1 loads*24 197*5 198*1 226*2 201*4 loads*4 209*4 213*1 loads*7 221*2 225*2 loads*1 226*1 loads*8 235*1 loads*24 264*5 265*1 293*2 268*4 loads*4 276*4 280*1 loads*7 288*2 292*2 loads*2 294*8 302*4 306*1 loads*8 315*1 loads*24 344*5 345*1 373*2 348*4 loads*4 356*4 360*1 loads*7 368*2 372*2 loads*1 373*1 loads*9
cuts => 0*8 8*1 9*8 17*71 88*1 89*8 97*196 293*1 294*8 302*80 382*1";
