// Evaluations of programs of Core with tagged unions: a word for the tag and, four bytes on, the member as the parts behind that.

/// Programs and how they end (evaluator/endings.rt).
pub const UNIONS: &str = "\
function 0
block; with_union; with_union; with_word
local_address 0 0; local_address 1 1; local_address 2 2; constant 3 1; constant 4 40; put 2 4; constant 5 2
?
return 6
end
end
--
# two unions and a word that is 40, whose addresses the first three temporaries have; then what the sixth temporary holds
# a pointer or a number is the member, and another one may take its place
Ended(40) <- store 0 3; store 0 2 0 4 1; load 7 0 0 4 1; load 6 7
Ended(1) <- store 0 3; store 0 2 0 4 1; load 6 0
Ended(1) <- put 0 3; store 0 2 0 4 1; get 6 0
Ended(40) <- store 0 3; store 0 2 0 4 1; store 0 5; store 0 4 0 4 1; load 6 0 0 4 1
Ended(2) <- store 0 3; store 0 2 0 4 1; store 0 5; store 0 4 0 4 1; load 6 0
Stuck <- store 0 3; store 0 2 0 4 1; load 6 0 0 4 1
# a copy has the tag and the member, and keeps them where the first one gets others
Ended(40) <- store 0 3; store 0 2 0 4 1; copy_union 1 0; store 0 4 0 4 1; load 7 1 0 4 1; load 6 7
Ended(1) <- store 0 3; store 0 2 0 4 1; copy_union 1 0; store 0 5; load 6 1
Ended(2) <- store 0 3; store 1 5; copy_union 0 1; load 6 0
# it holds nothing at first, nothing when it is cleared, and has two words alone
Stuck <- load 6 0
Stuck <- store 0 3; load 6 0 0 4 1
Stuck <- store 0 3; clear_unions 0 1; load 6 0
Stuck <- store 0 3 0 8 2
Stuck <- copy_fat_union 1 0
# no tag is a pointer, and no union is copied as a word
HostMemory <- store 0 2
HostMemory <- put 0 2
HostMemory <- store 0 3; copy_word 1 0

function 0
block; with_unions 2; with_word
local_address 0 0; local_address 1 1; constant 2 40; put 1 2; constant 3 1; offset 4 0 1 8
store 4 3; store 4 1 0 4 1; store 0 2; store 0 3 0 4 1
?
return 6
end
end
--
Ended(40) <- load 7 0 1 12 1; load 6 7
Ended(1) <- load 6 0 1 8
Ended(41) <- load 6 0; load 7 0 0 4 1; add 6 6 7
Stuck <- clear_unions 0 2; load 6 4
Ended(1) <- clear_unions 0 1; load 6 4

function 0
block; with_fat_union; with_fat_union; with_words 3
local_address 0 0; local_address 1 1; local_address 2 2; constant 3 1; constant 4 3; constant 5 2; constant 6 70; store 2 6 2 8
store 0 3; store 0 2 0 4 1; store 0 4 0 8 2; store 0 5 0 12 3
?
return 6
end
end
--
# two unions, of which the first holds a fat pointer to three words, the last of which is 70, with its index there
Ended(70) <- constant 6 0; load 7 0 0 4 1; load 8 0 0 12 3; element 9 7 8 1 4; load 6 9
Ended(70) <- constant 6 0; copy_fat_union 1 0; load 7 1 0 4 1; load 8 1 0 12 3; element 9 7 8 1 4; load 6 9
Ended(3) <- copy_fat_union 1 0; store 0 3 0 8 2; load 6 1 0 8 2
Ended(1) <- load 6 0
Ended(9) <- constant 7 9; store 0 5; store 0 7 0 4 1; copy_fat_union 1 0; load 6 1 0 4 1
HostMemory <- store 0 2 0 8 2
HostMemory <- store 0 2 0 12 3
Stuck <- store 0 3 0 16 4";
