//! What the program says of itself.

/// The text of `r2 --help`.
pub const HELP: &str = "\
r2 records runs of programs that are cut at an interface, and reads their logs.

  r2 order LOG       print the events of a log, sorted by clock and thread
  r2 check SRC CUT   check a C source, its annotations and a cut
  r2 stubs SRC CUT   print what is done at each call of the cut
  r2 gen N SRC SYS   write a source of N rounds, 1 to 40000, and its system file
  r2 record SRC CUT SYS LOG REP
                     run a source by a system file, and write the log of the
                     run and its report
  r2 --help          print this text
  r2 --version       print the version

Exit status: 0 done, 1 the cut or a guard is wrong, 2 usage, 3 the source is
wrong, 4 the system file is wrong, 5 the run met a fault, 6 it stopped before a
breach, 7 it was halted, 8 the log is cut short, 9 the log is wrong, 11 a read
failed, 12 a write failed, 13 a limit is exceeded, 14 no memory.
";

/// The text of `r2 --version`.
pub const VERSION: &str = "r2 0.1.0\n";
