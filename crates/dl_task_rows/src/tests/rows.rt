//! The rows.

/// Making and removing a stream, its lock, and its ledgers.
pub const NAMES: &str = "\
> # a stream that isn't there
> remove s
all
delete /streams/s/lock any
delete /streams/s/segs any
failed 0 NoNode
nostream
> lock s
one
create /streams/s/lock/m- ephemeral-counted -
failed 0 NoNode
nostream
> # making a stream, and making it once more
> make s
all
create /streams/s lasting -
create /streams/s/maxseq lasting 0100000000000000000000000000000000
create /streams/s/cut lasting 010000000000000001000000000000000000000000
create /streams/s/alloc lasting 01000000000000000000
create /streams/s/lock lasting -
create /streams/s/segs lasting -
done
> look /streams/s/cut
010000000000000001000000000000000000000000 0
> make s
all
create /streams/s lasting -
create /streams/s/maxseq lasting 0100000000000000000000000000000000
create /streams/s/cut lasting 010000000000000001000000000000000000000000
create /streams/s/alloc lasting 01000000000000000000
create /streams/s/lock lasting -
create /streams/s/segs lasting -
failed 0 NodeExists
all
create /streams/s/lock lasting -
create /streams/s/segs lasting -
failed 0 NodeExists
streamexists
> # the answer to a removal is lost, and that to making the stream again
> remove s; lost
all
delete /streams/s/lock any
delete /streams/s/segs any
> remove s
all
delete /streams/s/lock any
delete /streams/s/segs any
failed 0 NoNode
nostream
> make s; run; lost
all
create /streams/s lasting -
create /streams/s/maxseq lasting 0100000000000000000000000000000000
create /streams/s/cut lasting 010000000000000001000000000000000000000000
create /streams/s/alloc lasting 01000000000000000000
create /streams/s/lock lasting -
create /streams/s/segs lasting -
failed 0 NodeExists
all
create /streams/s/lock lasting -
create /streams/s/segs lasting -
> make s
all
create /streams/s lasting -
create /streams/s/maxseq lasting 0100000000000000000000000000000000
create /streams/s/cut lasting 010000000000000001000000000000000000000000
create /streams/s/alloc lasting 01000000000000000000
create /streams/s/lock lasting -
create /streams/s/segs lasting -
failed 0 NodeExists
all
create /streams/s/lock lasting -
create /streams/s/segs lasting -
failed 0 NodeExists
streamexists
> # another client between the two requests of a making
> remove s
all
delete /streams/s/lock any
delete /streams/s/segs any
done
> make s; message; run; other create /streams/s/segs lasting -
all
create /streams/s lasting -
create /streams/s/maxseq lasting 0100000000000000000000000000000000
create /streams/s/cut lasting 010000000000000001000000000000000000000000
create /streams/s/alloc lasting 01000000000000000000
create /streams/s/lock lasting -
create /streams/s/segs lasting -
failed 0 NodeExists
all
create /streams/s/lock lasting -
create /streams/s/segs lasting -
failed 1 NodeExists
gaveup /streams/s/segs
> look /streams/s/lock
none
> other delete /streams/s/segs any
> make s; run; other create /streams/s/lock lasting -
all
create /streams/s lasting -
create /streams/s/maxseq lasting 0100000000000000000000000000000000
create /streams/s/cut lasting 010000000000000001000000000000000000000000
create /streams/s/alloc lasting 01000000000000000000
create /streams/s/lock lasting -
create /streams/s/segs lasting -
failed 0 NodeExists
all
create /streams/s/lock lasting -
create /streams/s/segs lasting -
failed 0 NodeExists
streamexists
> remove s
all
delete /streams/s/lock any
delete /streams/s/segs any
failed 1 NoNode
nostream
> # a segment, or a node in the lock, keeps a stream from being removed
> other create /streams/s/segs lasting -
> other create /streams/s/segs/c0000000001 lasting -
> remove s
all
delete /streams/s/lock any
delete /streams/s/segs any
failed 1 NotEmpty(1)
notempty 1
> other delete /streams/s/segs/c0000000001 any
> other create /streams/s/lock/x lasting -
> remove s
all
delete /streams/s/lock any
delete /streams/s/segs any
failed 0 NotEmpty(1)
notempty 1
> # the lock: a node that is no member doesn't count, and an earlier member of the same client does
> lock s
one
create /streams/s/lock/m- ephemeral-counted -
one
children /streams/s/lock
done /streams/s/lock/m-0000000000
> remove s; other delete /streams/s/lock/x any
all
delete /streams/s/lock any
delete /streams/s/segs any
failed 0 NotEmpty(1)
notempty 1
> lock s
one
create /streams/s/lock/m- ephemeral-counted -
one
children /streams/s/lock
one
delete /streams/s/lock/m-0000000001 any
held 0
> # answers are lost, and members go with their session
> lock s; lost
one
create /streams/s/lock/m- ephemeral-counted -
> list /streams/s/lock
m-0000000000
m-0000000002
> end
> list /streams/s/lock
> lock s; lost
one
create /streams/s/lock/m- ephemeral-counted -
> lock s; run; run; lost
one
create /streams/s/lock/m- ephemeral-counted -
one
children /streams/s/lock
one
delete /streams/s/lock/m-0000000004 any
> list /streams/s/lock
m-0000000003
> end
> # another client at each step
> lock s; run; other create /streams/s/lock/m- ephemeral-counted -
one
create /streams/s/lock/m- ephemeral-counted -
one
children /streams/s/lock
done /streams/s/lock/m-0000000005
> end
> lock s; message
one
create /streams/s/lock/m- ephemeral-counted -
one
children /streams/s/lock
one
delete /streams/s/lock/m-0000000007 any
held 6
> lock s; run; run; other delete /streams/s/lock/m-0000000008 any
one
create /streams/s/lock/m- ephemeral-counted -
one
children /streams/s/lock
one
delete /streams/s/lock/m-0000000008 any
failed 0 NoNode
gaveup /streams/s/lock/m-0000000008
> lock s; run; other delete /streams/s/lock/m-0000000006 any
one
create /streams/s/lock/m- ephemeral-counted -
one
children /streams/s/lock
done /streams/s/lock/m-0000000009
> lock s; run; run; hear 070000030000000000000007
one
create /streams/s/lock/m- ephemeral-counted -
one
children /streams/s/lock
one
delete /streams/s/lock/m-0000000010 any
moved /streams/s/lock/m-0000000010 7
> # the ten digits of members are used up
> lock s; hear 07000006
one
create /streams/s/lock/m- ephemeral-counted -
gaveup /streams/s/lock/m-
> # a ledger, and the next one, with which the one that was left is deleted
> allocate s /streams/s/lock/m-0000000009 none 0; message; hear 02
one
create /ledgers/L counted 01010303020000000000000000
all
check /streams/s/lock/m-0000000009 any
set /streams/s/alloc 0 01010000000000000000
done 0
> look /streams/s/alloc
01010000000000000000 1
> allocate s /streams/s/lock/m-0000000009 0 1
one
create /ledgers/L counted 01010303020000000000000000
all
check /streams/s/lock/m-0000000009 any
delete /ledgers/L0000000000 any
set /streams/s/alloc 1 01010000000000000001
done 1
> look /ledgers/L0000000000
none
> look /ledgers/L0000000001
01010303020000000000000000 0
> # another client deletes it first, sets the node, or set it before
> allocate s /streams/s/lock/m-0000000009 1 2; run; other delete /ledgers/L0000000001 any
one
create /ledgers/L counted 01010303020000000000000000
all
check /streams/s/lock/m-0000000009 any
delete /ledgers/L0000000001 any
set /streams/s/alloc 2 01010000000000000002
failed 1 NoNode
gaveup /ledgers/L0000000001
> allocate s /streams/s/lock/m-0000000009 none 2; lost
one
create /ledgers/L counted 01010303020000000000000000
> allocate s /streams/s/lock/m-0000000009 none 2; run; lost
one
create /ledgers/L counted 01010303020000000000000000
all
check /streams/s/lock/m-0000000009 any
set /streams/s/alloc 2 01010000000000000004
> allocate s /streams/s/lock/m-0000000009 none 2
one
create /ledgers/L counted 01010303020000000000000000
all
check /streams/s/lock/m-0000000009 any
set /streams/s/alloc 2 01010000000000000005
failed 1 BadVersion(3)
moved /streams/s/alloc 3
> allocate s /streams/s/lock/m-0000000009 4 3; run; other set /streams/s/alloc any 01000000000000000000
one
create /ledgers/L counted 01010303020000000000000000
all
check /streams/s/lock/m-0000000009 any
delete /ledgers/L0000000004 any
set /streams/s/alloc 3 01010000000000000006
failed 2 BadVersion(4)
moved /streams/s/alloc 4
> look /ledgers/L0000000004
01010303020000000000000000 0
> # the client's session ends before its ledger is named
> end
> allocate s /streams/s/lock/m-0000000009 none 4
one
create /ledgers/L counted 01010303020000000000000000
all
check /streams/s/lock/m-0000000009 any
set /streams/s/alloc 4 01010000000000000007
failed 0 NoNode
gaveup /streams/s/lock/m-0000000009
> # the greatest number of ten digits, and none left
> allocate s /streams/s/lock/m-0000000009 none 4; hear 0100142f6c6564676572732f4c39393939393939393939
one
create /ledgers/L counted 01010303020000000000000000
all
check /streams/s/lock/m-0000000009 any
set /streams/s/alloc 4 010100000002540be3ff
failed 0 NoNode
gaveup /streams/s/lock/m-0000000009
> allocate s /streams/s/lock/m-0000000009 none 4; hear 07000006
one
create /ledgers/L counted 01010303020000000000000000
gaveup /ledgers/L
> # the answer to a making is lost, and the stream is there
> make v; lost
all
create /streams/v lasting -
create /streams/v/maxseq lasting 0100000000000000000000000000000000
create /streams/v/cut lasting 010000000000000001000000000000000000000000
create /streams/v/alloc lasting 01000000000000000000
create /streams/v/lock lasting -
create /streams/v/segs lasting -
> make v
all
create /streams/v lasting -
create /streams/v/maxseq lasting 0100000000000000000000000000000000
create /streams/v/cut lasting 010000000000000001000000000000000000000000
create /streams/v/alloc lasting 01000000000000000000
create /streams/v/lock lasting -
create /streams/v/segs lasting -
failed 0 NodeExists
all
create /streams/v/lock lasting -
create /streams/v/segs lasting -
failed 0 NodeExists
streamexists
> # the answer to a listing is lost, and the member stays
> lock v; run; lost
one
create /streams/v/lock/m- ephemeral-counted -
one
children /streams/v/lock
> # replies that aren't to the request
> lock v; hear 02; run; hear 02
one
create /streams/v/lock/m- ephemeral-counted -
one
children /streams/v/lock
one
delete /streams/v/lock/m-0000000001 any
held 0
> end
> # beside another client that removes the stream, or makes it again
> remove v; message; other delete /streams/v/lock any
all
delete /streams/v/lock any
delete /streams/v/segs any
failed 0 NoNode
nostream
> remove v; other create /streams/v/lock lasting -
all
delete /streams/v/lock any
delete /streams/v/segs any
done
";

/// A stream's point, and the segments below it.
pub const POINTS: &str = "\
> # a stream that isn't there
> truncate t 1:0:1
all
children /streams/t/segs
get /streams/t/cut
get /streams/t/maxseq
failed 0 NoNode
nostream
> purge t
all
children /streams/t/segs
get /streams/t/cut
failed 0 NoNode
gaveup /streams/t/segs
> # the point and the end, where no segment is listed
> make t
all
create /streams/t lasting -
create /streams/t/maxseq lasting 0100000000000000000000000000000000
create /streams/t/cut lasting 010000000000000001000000000000000000000000
create /streams/t/alloc lasting 01000000000000000000
create /streams/t/lock lasting -
create /streams/t/segs lasting -
done
> truncate t 1:0:0
all
children /streams/t/segs
get /streams/t/cut
get /streams/t/maxseq
truncated 1:0:0
> truncate t 1:0:1
all
children /streams/t/segs
get /streams/t/cut
get /streams/t/maxseq
beyondend 1:0:0
> other set /streams/t/maxseq any 0100000000000000030000000000000009
> truncate t 4:0:1
all
children /streams/t/segs
get /streams/t/cut
get /streams/t/maxseq
beyondend 4:0:0
> truncate t 3:1:2; message
all
children /streams/t/segs
get /streams/t/cut
get /streams/t/maxseq
one
set /streams/t/cut 0 010000000000000003000000000000000100000002
done 3:1:2
> look /streams/t/cut
010000000000000003000000000000000100000002 1
> truncate t 3:1:2
all
children /streams/t/segs
get /streams/t/cut
get /streams/t/maxseq
truncated 3:1:2
> truncate t 3:1:1
all
children /streams/t/segs
get /streams/t/cut
get /streams/t/maxseq
truncated 3:1:2
> # the end, where the last segment is in progress; two nodes are no segments
> other create /streams/t/segs/p0000000005 lasting -
> other create /streams/t/segs/c0000000004 lasting -
> other create /streams/t/segs/other lasting -
> other create /streams/t/segs/c0000000000 lasting -
> truncate t 5:0:1
all
children /streams/t/segs
get /streams/t/cut
get /streams/t/maxseq
beyondend 5:0:0
> # an answer is lost
> truncate t 5:0:0; lost
all
children /streams/t/segs
get /streams/t/cut
get /streams/t/maxseq
> truncate t 5:0:0; run; lost
all
children /streams/t/segs
get /streams/t/cut
get /streams/t/maxseq
one
set /streams/t/cut 1 010000000000000005000000000000000000000000
> truncate t 5:0:0
all
children /streams/t/segs
get /streams/t/cut
get /streams/t/maxseq
truncated 5:0:0
> # the last segment is completed; another client sets the point first
> other delete /streams/t/segs/p0000000005 any
> other create /streams/t/segs/c0000000005 lasting -
> truncate t 6:0:1
all
children /streams/t/segs
get /streams/t/cut
get /streams/t/maxseq
beyondend 6:0:0
> truncate t 6:0:0; run; other set /streams/t/cut any 010000000000000006000000000000000000000000
all
children /streams/t/segs
get /streams/t/cut
get /streams/t/maxseq
one
set /streams/t/cut 2 010000000000000006000000000000000000000000
failed 0 BadVersion(3)
moved /streams/t/cut 3
> truncate t 6:0:0
all
children /streams/t/segs
get /streams/t/cut
get /streams/t/maxseq
truncated 6:0:0
> # the greatest segment of ten digits, one above it, and bytes that are no point
> other delete /streams/t/segs/c0000000004 any
> other delete /streams/t/segs/c0000000005 any
> other set /streams/t/maxseq any 0100000002540be3ff0000000000000000
> truncate t 10000000000:0:1
all
children /streams/t/segs
get /streams/t/cut
get /streams/t/maxseq
beyondend 10000000000:0:0
> truncate t 10000000000:0:0
all
children /streams/t/segs
get /streams/t/cut
get /streams/t/maxseq
one
set /streams/t/cut 3 0100000002540be400000000000000000000000000
done 10000000000:0:0
> other set /streams/t/maxseq any 0100000002540be4000000000000000000
> truncate t 10000000000:0:1
all
children /streams/t/segs
get /streams/t/cut
get /streams/t/maxseq
gaveup /streams/t/maxseq
> other set /streams/t/cut any 02
> truncate t 1:0:1
all
children /streams/t/segs
get /streams/t/cut
get /streams/t/maxseq
gaveup /streams/t/cut
> purge t
all
children /streams/t/segs
get /streams/t/cut
gaveup /streams/t/cut
> # nothing to purge
> make u
all
create /streams/u lasting -
create /streams/u/maxseq lasting 0100000000000000000000000000000000
create /streams/u/cut lasting 010000000000000001000000000000000000000000
create /streams/u/alloc lasting 01000000000000000000
create /streams/u/lock lasting -
create /streams/u/segs lasting -
done
> purge u
all
children /streams/u/segs
get /streams/u/cut
done 0
> # the completed segments below the point, in rising order
> other set /streams/u/cut any 010000000000000004000000000000000000000000
> other create /streams/u/segs/c0000000003 lasting 010200000000000000030000000000000008000000000000000100000000000000010000000000000005
> other create /streams/u/segs/c0000000004 lasting 010200000000000000040000000000000009000000000000000100000000000000010000000000000005
> other create /streams/u/segs/c0000000002 lasting 010200000000000000020000000000000007000000000000000100000000000000010000000000000005
> other create /ledgers/L0000000007 lasting -
> other create /ledgers/L0000000008 lasting -
> other create /ledgers/L0000000009 lasting -
> other create /streams/u/segs/p0000000001 lasting -
> purge u; message
all
children /streams/u/segs
get /streams/u/cut
one
get /streams/u/segs/c0000000002
all
delete /streams/u/segs/c0000000002 any
delete /ledgers/L0000000007 any
one
get /streams/u/segs/c0000000003
all
delete /streams/u/segs/c0000000003 any
delete /ledgers/L0000000008 any
done 2
> list /streams/u/segs
c0000000004
p0000000001
> list /ledgers
L0000000009
> # beside another purge: its segment is gone when it is read, when it is deleted, or its ledger is
> other create /streams/u/segs/c0000000002 lasting 010200000000000000020000000000000007000000000000000100000000000000010000000000000005
> other create /streams/u/segs/c0000000003 lasting 010200000000000000030000000000000008000000000000000100000000000000010000000000000005
> other create /ledgers/L0000000007 lasting -
> other create /ledgers/L0000000008 lasting -
> purge u; run; other delete /streams/u/segs/c0000000002 any
all
children /streams/u/segs
get /streams/u/cut
one
get /streams/u/segs/c0000000002
failed 0 NoNode
one
get /streams/u/segs/c0000000003
all
delete /streams/u/segs/c0000000003 any
delete /ledgers/L0000000008 any
done 1
> other create /streams/u/segs/c0000000002 lasting 010200000000000000020000000000000007000000000000000100000000000000010000000000000005
> other create /streams/u/segs/c0000000003 lasting 010200000000000000030000000000000008000000000000000100000000000000010000000000000005
> other create /ledgers/L0000000008 lasting -
> purge u; run; run; other delete /streams/u/segs/c0000000002 any
all
children /streams/u/segs
get /streams/u/cut
one
get /streams/u/segs/c0000000002
all
delete /streams/u/segs/c0000000002 any
delete /ledgers/L0000000007 any
failed 0 NoNode
one
get /streams/u/segs/c0000000003
all
delete /streams/u/segs/c0000000003 any
delete /ledgers/L0000000008 any
done 1
> other create /streams/u/segs/c0000000002 lasting 010200000000000000020000000000000007000000000000000100000000000000010000000000000005
> other create /streams/u/segs/c0000000003 lasting 010200000000000000030000000000000008000000000000000100000000000000010000000000000005
> other create /ledgers/L0000000008 lasting -
> purge u; run; run; other delete /ledgers/L0000000007 any
all
children /streams/u/segs
get /streams/u/cut
one
get /streams/u/segs/c0000000002
all
delete /streams/u/segs/c0000000002 any
delete /ledgers/L0000000007 any
failed 1 NoNode
one
get /streams/u/segs/c0000000003
all
delete /streams/u/segs/c0000000003 any
delete /ledgers/L0000000008 any
done 1
> list /streams/u/segs
c0000000002
c0000000004
p0000000001
> # an answer is lost
> other create /streams/u/segs/c0000000003 lasting 010200000000000000030000000000000008000000000000000100000000000000010000000000000005
> other create /ledgers/L0000000007 lasting -
> other create /ledgers/L0000000008 lasting -
> purge u; lost
all
children /streams/u/segs
get /streams/u/cut
> purge u; run; lost
all
children /streams/u/segs
get /streams/u/cut
one
get /streams/u/segs/c0000000002
> purge u; run; run; lost
all
children /streams/u/segs
get /streams/u/cut
one
get /streams/u/segs/c0000000002
all
delete /streams/u/segs/c0000000002 any
delete /ledgers/L0000000007 any
> purge u
all
children /streams/u/segs
get /streams/u/cut
one
get /streams/u/segs/c0000000003
all
delete /streams/u/segs/c0000000003 any
delete /ledgers/L0000000008 any
done 1
> # a ledger with a child, and a segment of another number
> other create /streams/u/segs/c0000000002 lasting 010200000000000000020000000000000007000000000000000100000000000000010000000000000005
> other create /ledgers/L0000000007 lasting -
> other create /ledgers/L0000000007/x lasting -
> purge u
all
children /streams/u/segs
get /streams/u/cut
one
get /streams/u/segs/c0000000002
all
delete /streams/u/segs/c0000000002 any
delete /ledgers/L0000000007 any
failed 1 NotEmpty(1)
gaveup /ledgers/L0000000007
> other set /streams/u/segs/c0000000002 any 010200000000000000030000000000000007000000000000000100000000000000010000000000000005
> purge u
all
children /streams/u/segs
get /streams/u/cut
one
get /streams/u/segs/c0000000002
gaveup /streams/u/segs/c0000000002
> # the greatest segment and ledger of ten digits, and replies that aren't to the request
> other delete /streams/u/segs/c0000000002 any
> other set /streams/u/cut any 0100000002540be400000000000000000000000000
> other create /streams/u/segs/c9999999999 lasting 010200000002540be3ff00000002540be3ff000000000000000100000000000000010000000000000005
> other create /ledgers/L9999999999 lasting -
> purge u; hear 02; run; hear 02
all
children /streams/u/segs
get /streams/u/cut
one
get /streams/u/segs/c0000000004
all
delete /streams/u/segs/c0000000004 any
delete /ledgers/L0000000009 any
one
get /streams/u/segs/c9999999999
all
delete /streams/u/segs/c9999999999 any
delete /ledgers/L9999999999 any
done 2
> list /ledgers
L0000000007
";

/// Quorums, places of entries, and covers.
pub const QUORUMS: &str = "\
3 3 4 => none
17 3 2 => none
1 1 1 => quorum
5 3 2 at 4 => 4 0 1
5 3 2 of 0 2 4 => false
5 3 2 of 0 1 3 4 => true
";
