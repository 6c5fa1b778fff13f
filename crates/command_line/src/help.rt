//! The end of each help text: a worked example, and where files are described.

/// The end of the program's help.
pub const PROGRAM: &str = "Images, batches and replies are CSV text, described in docs/FORMATS.md";

/// The end of the help of `run`.
pub const RUN: &str = "\
Example:
  $ printf 'B,100,commit,1\\nP,1,1,1,1,I,1,500\\n' | eve-tpcc run small.csv -
  1,payment,ok,1,-1500,GC
  batch,1,parallel,0e6d74fee6bef20933fbe0c76971532c2492f812a484f5d20543fabaaec129a6

Images, batches and replies are CSV text, described in docs/FORMATS.md";

/// The end of the help of `check`.
pub const CHECK: &str = "\
Example:
  $ eve-tpcc check small.csv
  ok 1 96 528a9d960ee642c5675e49609229575c41e49856eb760f5e2fc60ca69c522867

Images are CSV text, described in docs/FORMATS.md";

/// The end of the help of `make`.
pub const MAKE: &str = "\
Example:
  $ eve-tpcc make 1 7 5 > small.csv

Images are CSV text, described in docs/FORMATS.md";

/// The end of the help of `serve`.
pub const SERVE: &str = "\
Example:
  $ printf 'B,100,commit,1\\nP,1,1,1,1,I,1,500\\nC\\n' | eve-tpcc serve small.csv
  1,payment,ok,1,-1500,GC
  batch,1,parallel,0e6d74fee6bef20933fbe0c76971532c2492f812a484f5d20543fabaaec129a6
  commit,1

Images, commands and answers are CSV text, described in docs/FORMATS.md";
