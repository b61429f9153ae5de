// Evaluations of programs of Core with unique blocks.

/// Programs and how they end (evaluator/endings.rt).
pub const UNIQUES: &str = "\
function 0
unique_pair 0; constant 1 7; store 0 1 1 4; constant 1 1
?
return 1
end
--
# a pointer to a unique pair, whose second member is 7; then what the second temporary holds, which is 1 before the last rows
# a block is there until it is freed, which it is once
Ended(7) <- load 1 0 1 4; unique_free 0
Ended(0) <- unique_free 0; is_null 1 0
Stuck <- unique_free 0; unique_free 0
Stuck <- unique_free 0; load 1 0 1 4
Stuck <- unique_free 0; store 0 1 1 4
Stuck <- unique_free 0; same_place 1 0 0
# it holds nothing at first, and stays where another one is freed
Stuck <- unique_pair 2; load 1 2 1 4
Ended(7) <- unique_pair 2; unique_free 2; load 1 0 1 4
Ended(0) <- unique_pair 2; same_place 1 0 2
Ended(7) <- unique_pair 2; copy_pair 2 0; unique_free 0; load 1 2 1 4
# nothing else is freed alone: what is within a block, a global, a local, and what is in a region of a handle
Stuck <- offset 2 0 1 4; unique_free 2
Stuck <- null_pointer 2; unique_free 2
Stuck <- unique_free 1
Stuck <- data_address 2 0; unique_free 2
Stuck <- block; with_word; local_address 2 0; unique_free 2; end
Stuck <- region_new 2; region_words 3 2 1; unique_free 3
Stuck <- heap_handle 2; region_words 3 2 1; unique_free 3";
