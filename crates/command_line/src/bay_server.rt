//! What `bay_server` says of itself.

use crate::program::Program;

/// The program that rehearses scripts.
pub const BAY_SERVER: Program = Program {
    name: "bay_server",
    usage: "usage: bay_server rehearse < REHEARSAL
       bay_server -h | --help | --version

rehearse   reads a configuration and scripts, one for an association or a
           part of the process; lets them race as threads over one bay; and
           writes the record that they made, and what each step was answered

A status other than 0 has a line on standard error, `bay_server: ` and words:

  0                          all turns went
  1  words                   other words than those above
  2  record line L kind K    line L of the scripts is refused
  3  config line L kind K    line L of the configuration is refused
  4  limit 1 line L          there are more than 1000000 lines
  4  limit 2 line L          the request of line L met 16 waiting replies
  4  limit 3 line L          there are more than 67108864 octets
  5  memory                  there was no memory
  6  read                    standard input failed
  7  write                   standard output failed

The kinds of refused lines are those that `bay_tool --help` shows. In scripts
kind 5, State, is also a line that may not stand where it stands.
",
    version: "bay_server 0.1.0
",
};
