// Evaluations of programs of Core with keys.

/// Programs and how they end (evaluator/endings.rt).
pub const KEYS: &str = "\
function 0
key_new 0; key_open 0; constant 1 1; region_words 2 0 1; constant 1 7; store 2 1; constant 1 1
?
return 1
end
--
# a key, whose region is open, and a pointer to a block of it, which holds 7; then what the second temporary holds, which is 1 before the last rows
# nothing leads to the blocks of a closed region, and they are kept
Ended(7) <- load 1 2
Ended(7) <- key_close 0; key_open 0; load 1 2
Ended(7) <- key_close 0; offset 3 2 0 0; key_open 0; load 1 3
Ended(0) <- key_close 0; is_null 1 2
Stuck <- key_close 0; load 1 2
Stuck <- key_close 0; store 2 1
Stuck <- key_close 0; same_place 1 2 2
Ended(7) <- heap_handle 3; region_words 3 3 1; copy_word 3 2; load 1 3
Stuck <- heap_handle 3; region_words 3 3 1; key_close 0; copy_word 3 2
Stuck <- key_close 0; clear_pairs 2 0
Stuck <- key_close 0; region_words 3 0 1
# a region is closed when its key is made, and is opened, closed and freed in turn
Ended(7) <- load 1 2; key_close 0; key_free 0
Ended(1) <- key_close 0; key_open 0; region_words 3 0 1; store 3 1; load 1 3
Stuck <- key_open 0
Stuck <- key_free 0
Stuck <- key_close 0; key_close 0
Stuck <- key_close 0; key_free 0; key_free 0
Stuck <- key_close 0; key_free 0; key_open 0
Stuck <- key_close 0; key_free 0; load 1 2
Stuck <- key_new 3; region_words 2 3 1
Stuck <- key_new 3; key_close 3
# a pointer goes on to where a cell lies 2^25 bytes on or further, also where the region is closed or freed, and no further where none does
Ended(7) <- constant 3 300; region_wide 4 0 3; constant 5 299; element 6 4 5 1 0x1000000; store 6 1; constant 1 7; store 6 1; constant 1 0; load 1 6
Ended(1) <- constant 3 3; region_wide 4 0 3; key_close 0; constant 5 2; element 6 4 5 1 0x1000000; offset 6 6 0 0; key_free 0; element 6 4 5 1 0x1000000
Ended(1) <- constant 3 3; region_wide 4 0 3; key_close 0; constant 5 1; element 6 4 5 1 0x1ffffff; key_free 0; element 6 4 5 3 0x1ffffff
Stuck <- constant 3 3; region_wide 4 0 3; constant 5 3; element 6 4 5 1 0x1000000
Stuck <- constant 3 3; region_wide 4 0 3; key_close 0; constant 5 3; element 6 4 5 1 0x1000000
Stuck <- constant 3 3; region_wide 4 0 3; key_close 0; key_free 0; constant 5 3; element 6 4 5 1 0x1000000
Stuck <- constant 3 3; region_wide 4 0 3; key_close 0; key_free 0; constant 5 2; element 6 4 5 1 0x1000001
Stuck <- constant 3 3; region_wide 4 0 3; key_close 0; key_free 0; constant 5 2; element 6 4 5 0 0x1000000
Stuck <- constant 3 3; region_wide 4 0 3; key_close 0; key_free 0; constant 5 2; element 6 2 5 1 0x1000000
# no handle is a key, no key a handle, and no block of a key's region a unique one
Stuck <- region_free 0
Stuck <- key_close 0; region_free 0
Stuck <- unique_free 2
Stuck <- key_close 0; unique_free 2
Stuck <- region_new 3; key_close 3
Stuck <- region_new 3; key_open 3
Stuck <- region_new 3; key_free 3
Stuck <- heap_handle 3; key_close 3
Stuck <- heap_handle 3; key_open 3
Stuck <- heap_handle 3; key_free 3
Stuck <- key_open 1";
