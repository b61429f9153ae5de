// The evaluator over Core: programs made by hand, with their endings and what they write worked out by hand.
//
// A program is a text: a line has one row or several with `; ` between them, and a row is a name and numbers. Most rows are an operation of Core, as
// `add 3 1 2`, whose first number is the temporary that gets the result (evaluator/rows.rt); the others begin and end functions and statements with
// statements within them (evaluator/programs.rt). Behind a program stand its cases, a line each (evaluator/endings.rt).

mod arrays;
mod checks;
mod endings;
mod fuel;
mod keys;
mod leaves;
mod objects;
mod parts;
mod pointers;
mod programs;
mod regions;
mod rows;
mod strings;
mod unions;
mod uniques;
mod unnamed;
mod words;
