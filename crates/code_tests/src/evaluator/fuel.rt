// Evaluations of programs of Core by their fuel, and what they read and write.

/// Programs and how they end (evaluator/endings.rt).
pub const FUEL: &str = "\
function 0
constant 0 65; putchar 0 0; constant 0 0; return 0
end
--
# int main() { putchar(65); return 0; }
Running 0
Ended(0) 1  A

function 0
constant 0 100000; pass 0; call 1 0; return 0
end
function 1
if 0
constant 1 1; subtract 2 0 1; pass 2; call 1 3; add 3 3 1; return 3
else
return 0
end
end
--
# int deep(int n) { if (n) return deep(n - 1) + 1; return n; } int main() { return deep(100000); }
Running 100000
Ended(100000) 100001

global_byte
function 0
while 1
getchar 0; constant 1 0; less_equal 1 1 0
do
data_address 2 0; store_byte 2 0; load_byte 3 2; putchar 3 3
end
return 3
end
--
# char kept; int main() { int c; while ((c = getchar()) >= 0) { kept = c; putchar(kept); } return kept; }
Ended(255) 10 hi? hi?
Running 9 hi? hi?
Running 8 hi? hi";
