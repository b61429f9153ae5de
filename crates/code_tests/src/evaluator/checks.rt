// Evaluations of programs of Core with checks.

/// Programs and how they end (evaluator/endings.rt).
pub const CHECKS: &str = "\
function 0
block; with_word
constant 0 0; constant 1 1; null_pointer 2; local_address 3 0
?
return 1
end
end
--
# 0, 1, NULL and a pointer; a further temporary holds nothing
# a check does nothing where its temporary is neither 0 nor NULL
Ended(1) <- check_bounds 1
Ended(1) <- check_bounds 3
Ended(7) <- constant 1 7; check_bounds 1
Raised(NullException) <- check_bounds 1; raise_null
# and else it raises its exception
Raised(ArrayBounds) <- check_bounds 0
Raised(ArrayBounds) <- check_bounds 2
Raised(ArrayBounds) <- check_bounds 0; raise_null
Raised(ArrayBounds) 1  A <- constant 1 65; putchar 1 1; check_bounds 0
# or, where it has two, the first where another temporary is neither 0 nor NULL
Ended(1) <- check_null_or_bounds 1 0
Ended(1) <- check_null_or_bounds 3 1
Raised(NullException) <- check_null_or_bounds 0 1
Raised(NullException) <- check_null_or_bounds 2 3
Raised(ArrayBounds) <- check_null_or_bounds 0 0
Raised(ArrayBounds) <- check_null_or_bounds 2 2
# what is no word and no pointer is not tested
Stuck <- check_bounds 4
Stuck <- heap_handle 0; check_bounds 0
Stuck <- check_null_or_bounds 0 4
Stuck <- check_null_or_bounds 4 0
Ended(1) <- check_null_or_bounds 1 4
# a check takes no unit
Ended(1) 0 <- check_bounds 1
Raised(ArrayBounds) 0 <- check_bounds 0
Raised(NullException) 0 <- check_null_or_bounds 0 1

function 0
constant 0 5; constant 1 0; constant 2 1
while 3; less_unsigned 3 1 0; do
?
add 1 1 2
end
return 1
end
--
# a check in a loop of five turns
Ended(5) <- check_bounds 0
Raised(ArrayBounds) <- check_bounds 1
# whose unit is due before the check in its fourth one
Raised(ArrayBounds) 4 <- subtract 3 0 1; subtract 3 3 2; subtract 3 3 2; check_bounds 3
Running 3 <- subtract 3 0 1; subtract 3 3 2; subtract 3 3 2; check_bounds 3";
