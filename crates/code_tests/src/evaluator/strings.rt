// Evaluations of programs of Core whose data are strings and pointers to them.

/// Programs and how they end (evaluator/endings.rt).
pub const STRINGS: &str = r#"global_bounds 2 3; global_address 2; global_ab
function 0
?
end
--
# with the data `char ?s = "ab"; char *t = "ab"'s first char; "ab"`
# `s[0]`, `s[1]` and `s[2]`, and no char behind
Ended(97) <- data_address 0 0; load 2 0; constant 3 0; element 4 2 3 1 1; load_byte 4 4; return 4
Ended(98) <- data_address 0 0; load 2 0; constant 3 1; element 4 2 3 1 1; load_byte 4 4; return 4
Ended(0) <- data_address 0 0; load 2 0; constant 3 2; element 4 2 3 1 1; load_byte 4 4; return 4
Stuck <- data_address 0 0; load 2 0; constant 3 3; element 4 2 3 1 1; load_byte 4 4; return 4
# `s`'s count and index
Ended(30) <- data_address 0 0; load 1 0 0 4 1; load 2 0 0 8 2; constant 3 10; multiply 1 1 3; add 1 1 2; return 1

global_bounds 2 3; global_address 2; global_ab
function 0
data_address 0 1; load 0 0; constant 1 99; store_byte 0 1
data_address 2 0; load 2 2; load_byte 3 2
data_address 4 2; same_place 4 4 2; add 3 3 4; return 3
end
--
# `*t = 'c'; return s[0];`, and `s` leads where the string lies
Ended(100)"#;
