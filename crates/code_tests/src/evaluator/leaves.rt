// Evaluations of programs of Core with statements that a break leaves.

/// Programs and how they end (evaluator/endings.rt).
pub const LEFT: &str = "\
function 0
constant 0 1; constant 1 5; constant 2 7
leave
?
end
return 1
end
--
# the first temporary holds 1; what the second one holds afterwards, which is 5 before
# a break leaves the innermost one or the innermost loop, and nothing else does but a return; a continue is one of a loop around, which there is none of
Ended(9) <- constant 1 9
Ended(5) <- break; constant 1 9
Ended(9) <- constant 1 9; break; constant 1 8
Ended(5) <- if 0; break; else; end; constant 1 9
Ended(7) <- return 2
Ended(9) <- leave; break; constant 1 8; end; constant 1 9
Ended(5) <- leave; break; end; break; constant 1 9
Ended(9) <- while 0; do; break; end; constant 1 9
Stuck <- continue
# a break takes no unit
Ended(5) 0 <- break; constant 1 9

function 0
constant 0 0; constant 1 0; constant 2 1; constant 3 5
while 4; less_unsigned 4 0 3; do
add 0 0 2
leave
?
end
add 1 1 2
end
return 1
end
--
# how many of five turns of a loop come to its end
# a continue goes on with the test of the loop around, and a break right behind its body
Ended(5) <- break
Ended(0) <- continue
Ended(0) <- leave; continue; end; break
Ended(1) <- less_unsigned 4 0 3; if 4; continue; else; break; end

function 0
constant 0 1
while 0; do
leave
?
end
constant 1 5; break
end
return 1
end
--
# a loop that is left by a break behind the body
Ended(5) <- break
Ended(0) <- constant 0 0; constant 1 0; continue";
