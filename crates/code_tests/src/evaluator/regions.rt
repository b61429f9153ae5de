// Evaluations of programs of Core with regions.

/// Programs and how they end (evaluator/endings.rt).
pub const REGIONS: &str = "\
function 0
?
constant 1 2; region_words 2 0 1; offset 3 2 1 4; constant 1 7; store 3 1; constant 1 1
?
return 1
end
--
# a region's handle, and a block of two words there, whose second one is 7; then what the second temporary holds, which is 1 before the last rows
# a block is there until its region is freed, which the heap never is, and no region is freed twice
Ended(7) <- region_new 0 | load 1 3; region_free 0
Stuck <- region_new 0 | region_free 0; load 1 3
Stuck <- region_new 0 | region_free 0; store 3 1
Stuck <- region_new 0 | region_free 0; region_words 2 0 1
Stuck <- region_new 0 | region_free 0; region_free 0
Ended(7) <- heap_handle 0 | load 1 3; region_words 2 0 1
Stuck <- heap_handle 0 | load 1 3; region_free 0
# a block holds nothing at first, has as many words as were asked for, and stays where another region is freed
Stuck <- region_new 0 | constant 3 0; load 1 2
Stuck <- region_new 0 | offset 3 2 2 8; store 3 1
Ended(7) <- region_new 0 | if 1; region_new 0; region_free 0; else; end; load 1 3";
