// Programs as words. They stand among the cases of `case_runs` too, which print them as an assembler reads them.

// puts out each byte that it gets, in six steps, and ends with 0 at the end of the input
const ECHO: &str =
    "00200893 00000073 00054863 00100893 00000073 fedff06f 00000893 00000513 00000073";

// gets twice, and ends with what the second getchar answered
const TWICE: &str = "00200893 00000073 00000073 00000893 00000073";

// puts out A, and raises
const RAISES: &str = "04100513 00100893 00000073 00200513 00300893 00000073";

// puts out A, and goes on behind its code
const CUT: &str = "04100513 00100893 00000073";

// puts out A five times, and ends with 65
const FIVE: &str =
    "00100893 04100513 00500293 00028293 00000073 fff28293 fe029ce3 00000893 00000073";

// the same 4,095 times
const LESS: &str =
    "00100893 04100513 000012b7 fff28293 00000073 fff28293 fe029ce3 00000893 00000073";

// the same 4,096 times
const PAGE: &str =
    "00100893 04100513 000012b7 00028293 00000073 fff28293 fe029ce3 00000893 00000073";

// the same 4,097 times
const MORE: &str =
    "00100893 04100513 000012b7 00128293 00000073 fff28293 fe029ce3 00000893 00000073";

/// The programs, by their names.
pub const PROGRAMS: [(&str, &str); 8] = [
    ("echo", ECHO),
    ("twice", TWICE),
    ("raises", RAISES),
    ("cut", CUT),
    ("five", FIVE),
    ("less", LESS),
    ("page", PAGE),
    ("more", MORE),
];

/// The words of the program of a name, or a text that is no name.
pub fn program_of<'t>(programs: &'t [(&'t str, &'t str)], name: &'t str) -> &'t str {
    for (it, words) in programs.iter() {
        if *it == name {
            return words;
        }
    }
    name
}
