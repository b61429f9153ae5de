// What help says below the words of a command.

/// The exit statuses and what a service needs, below the program's help.
pub const STATUSES_AND_RUNS: &str = "\
Statuses:
  0  the run ended with 0, or the command succeeded
  1  the run ended with another status, or there is no bound on the stack
  2  a null pointer or an index out of bounds was raised
  3  the memory for regions, blocks or the stack is exhausted
  4  the steps, or the units of fuel, are used up, or a bound of eval is passed
  5  the machine stopped at a fault, or an evaluation was stuck
  6  a file, standard input or standard output failed
  7  the host's memory is used up
  8  the source or the image is refused
  9  the arguments are wrong

Runs:
  Output is written when 4,096 bytes are gathered, before each read, and when the run ends.
  By default a run stops after 4,294,967,295 steps: a service that has to go on for longer needs --steps.";

/// The faults of a source, below the help of the commands that read one.
pub const SOURCE_FAULTS: &str = "\
A source is refused for one fault, written IN:LINE:COLUMN: NAME (status 8):
  Lex       a byte that begins no token, a wrong token, or a comment without end; or over 1,048,576 bytes
  Parse     a token with which no program goes on, or the end of the text
  TooDeep   a token that stands in over 256 phrases
  Name      an unknown name, a name declared twice, or no main
  Type      a phrase of a wrong type or form
  Region    a region name out of order, or a region that isn't live
  Outlives  regions of which one doesn't outlive the other
  Effect    a call whose effect isn't live
  Consumed  a local used after its value was moved
  Lent      a local used while it is lent
  Copy      a copy of a value that can only be moved
  Size      a type, an array, a string or the globals too large
  TooLarge  code of over 1,048,576 bytes (compile and run only)
What each wants, with a source that has it: cycc explain NAME";

/// The faults of an image, below the help of the commands that read one.
pub const IMAGE_FAULTS: &str = "\
An image is refused for the first of these, written IMAGE: NAME (status 8):
  Short     under 24 bytes, or fewer than the header and what it speaks of
  Magic     other first bytes than CYI1
  Version   another version than 1 and 2
  Limit     a length of the code or the data, or a number of pages, out of range
  Entry     an entry that is no word of the code
  Trailing  bytes after the data";
