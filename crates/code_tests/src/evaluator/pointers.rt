// Evaluations of programs of Core with pointers.

/// Programs and how they end (evaluator/endings.rt).
pub const POINTERS: &str = "\
function 0
block; with_word; with_word
constant 0 1; put 0 0; put 1 0; local_address 1 1; pass 1; call 1; get 2 0; get 3 1; add 3 3 2; return 3
end
end
function 1
constant 1 7; store 0 1; return
end
--
# void set(int *p) { *p = 7; } int main() { int a = 1; int b = 1; set(&b); return a + b; }
Ended(8)

function 0
block; with_word
constant 1 5; put 0 1; local_address 0 0
end
block; with_word
put 0 1
?
return 1
end
end
--
# a pointer to a local whose block is over may be tested for NULL, and no more
Ended(0) <- is_null 1 0
Stuck <- load 1 0
Stuck <- store 0 1
Stuck <- same_place 1 0 0

function 0
block; with_word; with_word
?
end
end
--
# within a block of two words
Ended(1) <- null_pointer 0; is_null 1 0; return 1
Ended(1) <- null_pointer 0; same_place 1 0 0; return 1
Stuck <- null_pointer 0; load 1 0; return 1
Stuck <- null_pointer 0; store 0 0; return 1
Stuck <- null_pointer 0; return 0; return 1
Raised(NullException) <- null_pointer 0; if 0; constant 1 5; return 1; else; raise_null; end

global_null
function 0
block; with_word; with_word
data_address 0 0; load 1 0; is_null 3 1
if 3; else; raise_bounds; end
local_address 1 0; store 0 1; load 2 0; constant 3 9; store 2 3
?
return 3
end
end
--
# int *kept; int main() { int a; int b; kept = &a; *kept = 9; return a; }, where `kept` was NULL before
Ended(9) <- get 3 0
Ended(1) <- same_place 3 1 2
Ended(0) <- same_place 3 0 1

function 0
block; with_word; with_word
?
end
end
--
# within a block of two words
Ended(1) <- local_address 0 0; local_address 1 0; same_place 2 0 1; return 2
Ended(0) <- local_address 0 0; local_address 1 1; same_place 2 0 1; return 2
Ended(0) <- local_address 0 0; null_pointer 1; same_place 2 0 1; return 2
Stuck <- local_address 0 0; constant 1 0; same_place 2 0 1; return 2";
