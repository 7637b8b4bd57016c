//! What the program says of itself.

/// The program's name and version.
pub(crate) const VERSION: &str = "towhipae 0.1.0\n";

/// What the program does, its commands with their keys, examples and statuses.
pub(crate) const HELP: &str = "\
towhipae tells when a set of moments or spans next happens, for ever both ways.

  towhipae COMMAND [KEY=VALUE].. < TEXT        the text says what the set is

Commands:
  next at=M [budget=N]       the first run that begins after the moment M
  previous at=M [budget=N]   the last run that ends before M
  current at=M [budget=N]    the run that holds M, or else the previous one
  closest at=M [budget=N]    the run that holds M, or else the nearer neighbour
  contains at=M [budget=N]   whether a run holds M: `yes` or `no`
  walk [from=M] [to=M] [dir=back] [limit=L] [budget=N]   the runs one by one
  resume token=T [limit=L] [budget=N]   the runs that a walk hasn't written yet
  show                       the printed form of the text

A moment is written 2026-12-24T18:00:00, or with a Z on the absolute clock.
A search stops past N places of change, 100000000 without N; a walk writes L
runs at most, 1000 without L. `more T` and `budget T` give a token T to resume.

Texts:
  {2026-12-24T18:00:00}       a list of moments
  span(start M, before M)     a span; start, end are closed, after, before open
  monthly(days=-1 hours=9)    a rule by fields, from yearly to secondly
  rrule(\"FREQ=DAILY\", M)      a rule of RFC 5545, with M as its DTSTART
  during(a, 28800)  pairs(a, b)      spans of so many seconds, or from a up to b
  starts(a)  ends(a)  shift(a, -60)  where runs begin or end; a moved by seconds
  empty()  a | b  a & b  a - b  !a  (a)

Examples:
  $ echo '!{2003-01-01T00:00:00}' | towhipae next at=2003-01-01T00:00:00
  (2003-01-01T00:00:00 .. inf)
  $ echo 'monthly(days=-1)' | towhipae next at=2024-02-10T00:00:00
  2024-02-29T00:00:00

Status:
  0  answered, by runs, by `none` or by `edge`
  2  refused; the line names what is wrong
  3  a search stopped for its budget
  4  a read failed, and nothing was written
  5  not all lines could be written
  6  memory ran out, and nothing was written
";

/// What the words ask of the program itself: its help or its version, each as the only word.
pub(crate) fn text_of(words: &[String]) -> Option<&'static str> {
    match words {
        [word] => match word.as_str() {
            "--help" => Some(HELP),
            "--version" => Some(VERSION),
            _ => None,
        },
        _ => None,
    }
}
