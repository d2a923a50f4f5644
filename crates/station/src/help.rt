//! What the station says of itself.

pub const VERSION: &str = "station 0.1.0\n";

pub const HELP: &str = "usage: station [--help | --version]

Runs a script of calls on a fresh shore-station store of 512 words, all 0, and
prints a report: a row for each line of the script that is not empty.

Input   the script, on standard input: one call a line, such as \"s 1 3 40\"
Output  the report, on standard output; where the status is 1, one line on
        standard error as well: what was not run, not read, or went wrong
Limits  at most 32768 bytes are read; a line that is cut there is run as it
        stands. The report has 65536 bytes; with fewer than 64 of them free no
        further line is run.
Status  0  fewer than 32768 bytes were read, and every line was run
        1  32768 bytes were read, the report filled up, an argument was not
           understood, or a read or write failed

--help prints this, --version the version; neither reads standard input.
";
