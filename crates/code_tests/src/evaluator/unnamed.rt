// Evaluations of programs of Core with temporary objects of functions: pairs of a char and, one cell and four bytes on, an int.

/// Programs and how they end (evaluator/endings.rt).
pub const UNNAMED: &str = "\
function 0; with_pairs 1
own_address 0 0; clear_pairs 0 1; constant 1 0x107; store 0 1 1 4; store_byte 0 1
block; with_pairs 1
local_address 1 0; copy_pair 1 0; clear_pairs 0 1; load 2 1 1 4; load_byte 3 1; subtract 2 2 3; return 2
end
end
function 1; with_pairs 1
end
--
# the unnamed pair is a local's value, and what becomes of it later is not the local's
Ended(256)

function 0; with_pairs 1
own_address 0 0; constant 1 5; store 0 1 1 4; pass 0; call 1; load 1 0 1 4; return 1
end
function 1; with_pairs 1
own_address 1 0; constant 2 9
?
return
end
--
# a callee stores to its caller's unnamed pair, and to its own, which is another
Ended(9) <- store 0 2 1 4
Ended(5) <- store 1 2 1 4

function 0; with_pairs 1
constant 1 5; pass 1; call 1 0
?
return 1
end
function 1; with_pairs 1
own_address 1 0; store 1 0 1 4; return 1
end
--
# a pointer to a temporary object of a call that is over may be tested for NULL, and no more
Ended(0) <- is_null 1 0
Stuck <- load 1 0 1 4
Stuck <- store 0 1 1 4

function 0; with_pairs 1
constant 1 5
?
load 1 0 1 4; return 1
end
function 1; with_pairs 1
end
--
# a temporary object holds nothing at first, and none stands behind the last
Stuck <- own_address 0 0; constant 1 5
Stuck <- own_address 0 1; store 0 1 1 4";
