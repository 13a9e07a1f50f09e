//! Worked rows.

/// Adds, copies, fences, questions, commits and loads.
pub const WORKED: &str = "\
new never before
waits => waits 0
add 0 0 0 a => queued
waits => waits 1
add 0 0 0 a => queued
waits => waits 2
item 0 => 010000000000000000000000000000000000000000000000000000001d0100000100000015000000000000000000000000000000000000000161
item 1 => none
item 2 => nothing
holds 0 0 => lacks
commit => added 0 0 added 0 0
holds 0 0 => holds
file => 444c4a524e4c30310100000000000000000000003a010000000000000000000000000000000000000000000000000000001d010000010000001500000000000000000000000000000000000000016100
waits => waits 0
add 0 0 0 a => added 0 0
waits => waits 0
add 1 0 1 a => queued
add 1 0 1 a => queued
copy 1 0 1 a => queued
ask 1 0 => none 7 1 0 open
lac 1 => lac 7 1 open 0
waits => waits 3
item 1 => none
item 2 => none
commit => added 1 0 added 1 0 copied 7 1 0
add 1 0 1 b => added 1 0
copy 1 0 1 b => copied 7 1 0
ask 1 0 => entry 7 1 0 of 29 97
lac 1 => lac 7 1 open 1
add 1 4 5 c => queued
fence 1 => queued
add 1 5 9 c => queued
add 1 4 5 d => queued
copy 1 6 7 e => queued
fence 1 => queued
item 1 => 030000000000000001
item 2 => none
item 4 => 020000000000000001000000000000000600000000000000070000001d0100000100000015000000000000000000000000000000000000000165
fenced 1 => open
lac 1 => lac 7 1 open 1
waits => waits 6
commit => added 1 4 lac 7 1 fenced 7 fenced 1 5 added 1 4 copied 7 1 6 lac 7 1 fenced 7
fenced 1 => fenced
add 1 8 9 a => fenced 1 8
add 1 4 5 a => added 1 4
waits => waits 0
ask 1 4 => entry 7 1 4 of 29 99
copy 1 8 9 f => queued
fence 1 => lac 7 1 fenced 7
ask 1 8 => none 7 1 8 fenced
lac 2 => lac 7 2 open 0
load
ask 1 8 => none 7 1 8 fenced
copy 1 8 2 f => queued
add 1 8 3 g => fenced 1 8
waits => waits 1
commit => copied 7 1 8
add 1 8 3 g => fenced 1 8
copy 1 8 3 g => copied 7 1 8
ask 1 8 => entry 7 1 8 of 29 102
lac 1 => lac 7 1 fenced 7
copy 2 3 4 h => queued
add 2 3 4 i => queued
add 2 3 4 j => queued
waits => waits 3
item 1 => 010000000000000002000000000000000300000000000000040000001d0100000100000015000000000000000000000000000000000000000169
item 2 => none
commit => copied 7 2 3 added 2 3 added 2 3
ask 2 3 => entry 7 2 3 of 29 104
load
ask 2 3 => entry 7 2 3 of 29 104
add 2 3 4 k => added 2 3
fence 1 => lac 7 1 fenced 7
fence 2 => queued
load
add 2 4 5 a => queued";

/// Stops in each call that makes a node and in each call of a commit, with both outcomes. The calls of the commit come behind two of the
/// new node and four of the first commit.
pub const STOPS: &str = "\
make 0 before => fault damaged 0
make 0 after => fault loads
make 1 before => fault damaged 0
make 1 after => fault loads
make 2 before => made loads
new 6 before
add 1 0 1 a => queued
commit => added 1 0
add 1 1 2 b => queued
fence 1 => queued
commit => fault
add 1 1 2 b => queued
commit => fault
ask 1 0 => fault
load
ask 1 0 => entry 7 1 0 of 29 97
add 1 1 2 c => queued
lac 1 => lac 7 1 open 1
commit => added 1 1
ask 1 1 => entry 7 1 1 of 29 99
new 6 after
add 1 0 1 a => queued
commit => added 1 0
add 1 1 2 b => queued
fence 1 => queued
commit => fault
add 1 1 2 b => queued
commit => fault
ask 1 0 => fault
load
ask 1 0 => entry 7 1 0 of 29 97
add 1 1 2 c => queued
lac 1 => lac 7 1 open 1
commit => added 1 1
ask 1 1 => entry 7 1 1 of 29 99
new 7 before
add 1 0 1 a => queued
commit => added 1 0
add 1 1 2 b => queued
fence 1 => queued
commit => fault
add 1 1 2 b => queued
commit => fault
ask 1 0 => fault
load
ask 1 0 => entry 7 1 0 of 29 97
add 1 1 2 c => queued
lac 1 => lac 7 1 open 1
commit => added 1 1
ask 1 1 => entry 7 1 1 of 29 99
new 7 after
add 1 0 1 a => queued
commit => added 1 0
add 1 1 2 b => queued
fence 1 => queued
commit => fault
add 1 1 2 b => queued
commit => fault
ask 1 0 => fault
load
ask 1 0 => entry 7 1 0 of 29 97
add 1 1 2 c => queued
lac 1 => lac 7 1 open 1
commit => added 1 1
ask 1 1 => entry 7 1 1 of 29 99
new 8 before
add 1 0 1 a => queued
commit => added 1 0
add 1 1 2 b => queued
fence 1 => queued
commit => fault
add 1 1 2 b => queued
commit => fault
ask 1 0 => fault
load
ask 1 0 => entry 7 1 0 of 29 97
add 1 1 2 c => queued
lac 1 => lac 7 1 open 1
commit => added 1 1
ask 1 1 => entry 7 1 1 of 29 99
new 8 after
add 1 0 1 a => queued
commit => added 1 0
add 1 1 2 b => queued
fence 1 => queued
commit => fault
add 1 1 2 b => queued
commit => fault
ask 1 0 => fault
load
ask 1 0 => entry 7 1 0 of 29 97
add 1 1 2 b => added 1 1
add 1 2 3 c => fenced 1 2
lac 1 => lac 7 1 fenced 2
new 9 before
add 1 0 1 a => queued
commit => added 1 0
add 1 1 2 b => queued
fence 1 => queued
commit => fault
add 1 1 2 b => queued
commit => fault
ask 1 0 => fault
load
ask 1 0 => entry 7 1 0 of 29 97
add 1 1 2 c => queued
lac 1 => lac 7 1 open 1
commit => added 1 1
ask 1 1 => entry 7 1 1 of 29 99
new 9 after
add 1 0 1 a => queued
commit => added 1 0
add 1 1 2 b => queued
fence 1 => queued
commit => fault
add 1 1 2 b => queued
commit => fault
ask 1 0 => fault
load
ask 1 0 => entry 7 1 0 of 29 97
add 1 1 2 b => added 1 1
add 1 2 3 c => fenced 1 2
lac 1 => lac 7 1 fenced 2";

/// A file with one byte spoilt.
pub const DAMAGE: &str = "\
new never before
add 1 0 1 a => queued
commit => added 1 0
fence 1 => queued
commit => lac 7 1 fenced 1
file => 444c4a524e4c30310100000000000000000000003a010000000000000001000000000000000000000000000000010000001d01000001000000150000000000000000000000000000000000000001610100000000000000010000000903000000000000000100
spoil 0 69 => damaged 0
spoil 7 50 => damaged 0
spoil 8 0 => loads
spoil 8 2 => loads
spoil 9 128 => damaged 9
spoil 16 5 => damaged 80
spoil 17 1 => damaged 17
spoil 21 0 => damaged 21
spoil 21 4 => damaged 21
spoil 22 9 => loads
spoil 30 9 => loads
spoil 38 9 => loads
spoil 46 1 => damaged 50
spoil 50 2 => damaged 50
spoil 51 1 => damaged 51
spoil 53 0 => damaged 52
spoil 53 2 => damaged 79
spoil 57 20 => damaged 78
spoil 57 22 => damaged 54
spoil 61 1 => loads
spoil 65 1 => damaged 74
spoil 65 2 => damaged 62
spoil 66 128 => damaged 66
spoil 77 0 => damaged 78
spoil 77 2 => damaged 78
spoil 78 98 => loads
spoil 79 0 => loads
spoil 87 0 => damaged 80
spoil 87 2 => damaged 80
spoil 88 1 => damaged 88
spoil 92 0 => damaged 92
spoil 92 2 => damaged 101
spoil 93 1 => loads
spoil 101 7 => loads
spoil 101 1 => damaged 102";

/// Want of pages, and of room in the journal, where its batches have the greatest numbers.
pub const ROOM: &str = "\
new never before
add 1 0 0 great => queued
add 1 1 0 great => queued
add 1 2 0 great => queued
add 1 3 0 great => queued
add 1 4 0 great => queued
add 1 5 0 great => queued
add 1 6 0 great => queued
add 1 7 0 great => queued
add 1 8 0 a => full pool 1 8
add 1 8 0 great => full pool 1 8
copy 1 8 0 a => full pool 1 8
fence 1 => full pool 1 0
add 1 7 0 great => queued
commit => added 1 0 added 1 1 added 1 2 added 1 3 added 1 4 added 1 5 added 1 6 added 1 7 added 1 7
add 1 8 0 great => queued
ask 1 7 => entry 7 1 7 of 1048547 0
from 444c4a524e4c3031017ffffffffffffffe0000000903000000000000000100
add 2 0 0 a => queued
commit => added 2 0
fence 1 => lac 7 1 fenced 0
fence 2 => full journal 2 0
add 2 1 0 a => full journal 2 1
add 2 0 0 a => added 2 0";

/// Want of pages before that of places in the index, that before want of ledgers, and that before want of places in the queue.
pub const TABLES: &str = "\
fill 31 => replies 2048
adds 63488 2048 => queued
add 9999 0 0 a => full pool 9999 0
fence 9999 => full pool 9999 0
copy 4095 15 0 a => queued
commit => replies 2049
add 9999 0 0 a => full index 9999 0
copy 0 16 0 a => full index 0 16
add 0 0 0 b => added 0 0
copy 0 0 0 b => copied 7 0 0
fence 9999 => full ledgers 9999 0
fence 0 => queued
add 0 16 0 a => full index 0 16
times 4095 fence 0 => queued
fence 0 => full queue 0 0
fence 1 => full queue 1 0
fence 9999 => full ledgers 9999 0
commit => replies 4096
add 0 16 0 a => fenced 0 16
fence 1 => queued";
