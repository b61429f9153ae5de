// Types of the whole language in code: what is said of them, by tables that were worked out by hand.

mod answers;
mod rows;
mod written;
