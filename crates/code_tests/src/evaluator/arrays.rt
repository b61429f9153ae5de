// Evaluations of programs of Core with arrays and fat pointers.

/// Programs and how they end (evaluator/endings.rt).
pub const ARRAYS: &str = "\
global_pairs 3
function 0
data_address 0 0; constant 1 0; constant 2 1; constant 3 3; constant 7 0; constant 8 10
while 4; less_unsigned 4 1 3; do
element 5 0 1 2 8; add 6 1 2; store 5 6 1 4; add 1 1 2
end
constant 1 0
while 4; less_unsigned 4 1 3; do
element 5 0 1 2 8; load 6 5 1 4; multiply 7 7 8; add 7 7 6; add 1 1 2
end
return 7
end
--
# struct { char first; int second; } all[3]; int main() { for each i: all[i].second = i + 1; for each i: sum = sum * 10 + all[i].second; return sum; }
Ended(123)

global_pairs 3
function 0
data_address 0 0
?
element 2 0 1 2 8; constant 1 1; return 1
end
--
# a pointer goes on below 2^25 bytes, whether or not an object is there, and no further where none is
Ended(1) <- constant 1 0x3fffff
Stuck <- constant 1 0x400000
Stuck <- constant 1 0xffffffff

function 0
block; with_word
constant 1 5; put 0 1; local_address 0 0
end
?
return 1
end
--
# nothing is kept of how long an object was whose block is over
Ended(5) <- offset 0 0 1 0x1ffffff
HostMemory <- offset 0 0 1 0x2000000

function 0
block; with_fat; with_words 3
local_address 0 0; local_address 1 1; constant 2 3; constant 3 1
store 0 1; store 0 2 0 4 1; store 0 3 0 8 2
load 4 0; load 5 0 0 4 1; load 6 0 0 8 2
pass 4 5 6
?
element 0 7 9 1 4; constant 2 40; store 0 2; offset 1 1 1 4; load 2 1; add 2 2 8; return 2
end
end
function 3
?
end
--
# int ?same(int ?p) { return p; } int main() { int ?p; int a[3]; p = a + 1; int ?q = same(p); *q = 40; return a[1] + q's count; }, where the call's result
# goes to some temporaries, and `same` returns some
# three words are returned as they are stored and loaded, and no other number of them
Ended(43) <- call 1 7 8 9 | return 0 1 2
Stuck <- call 1 7 8 9 | return 0
Stuck <- call 1 0 | return 0 1 2
Stuck <- call 1 7 8 9 | return
Stuck <- call 1 | return 0 1 2

function 0
?
end
--
Stuck <- constant 0 1; return 0 1 2

function 0
block; with_pairs 2
local_address 0 0
?
constant 1 1; element 2 0 1 2 8; load 3 2 1 4; return 3
end
end
--
# int main() { pair a[2]; .. return a[1].second; }, where some elements are cleared
# an element that is not cleared holds nothing, and no more are cleared than there are
Ended(0) <- clear_pairs 0 2
Stuck <- clear_pairs 0 1
Stuck <- clear_pairs 0 3";
