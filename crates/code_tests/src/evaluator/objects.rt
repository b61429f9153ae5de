// Evaluations of programs of Core with objects of many cells.

/// Programs and how they end (evaluator/endings.rt).
pub const OBJECTS: &str = "\
function 0
block; with_pairs 1; with_pairs 1
local_address 0 0; local_address 1 1; clear_pairs 0 1; clear_pairs 1 1; constant 2 0x107; store_byte 0 2; store 0 2 1 4
?
offset 3 1 1 4; load 4 3; load_byte 5 1; subtract 4 4 5; return 4
end
end
--
# two pairs, whose addresses the first two temporaries have: the members of the first are set; then what is left of the second pair's second member
# less its first
Ended(256) <- copy_pair 1 0
Ended(0) <- clear_pairs 0 1
# no object is copied to itself, none is read where it has no member, and no pointer goes further than an object's bytes
Stuck <- copy_pair 0 0
Stuck <- load 1 0
Stuck <- offset 1 0 0 0x2000000";
