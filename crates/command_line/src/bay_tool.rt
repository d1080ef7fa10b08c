//! What `bay_tool` says of itself.

use crate::program::Program;

/// The program that replays records, makes them, and checks configurations.
pub const BAY_TOOL: Program = Program {
    name: "bay_tool",
    usage: "usage: bay_tool replay < RECORD
       bay_tool check < CONFIGURATION
       bay_tool gen SEED COUNT
       bay_tool load SEED COUNT
       bay_tool -h | --help | --version

replay   reads a record of what a process and its clients did, and writes
         what each step is answered
check    reads a configuration, and writes its counts of domains, logical
         nodes, attributes, data sets, report control blocks and controls
gen      writes a record of COUNT lines, 1 to 100000, that are drawn from SEED,
         0 to 18446744073709551615; the same words write the same record
load     replays the record that gen writes, and writes how many steps it has,
         how many reports its takes gave, and how many of these are marked:
         entries before them were discarded unsent

A status other than 0 has a line on standard error, `bay_tool: ` and words:

  0                          read to the end, or written
  1  words                   other words than those above
  2  record line L kind K    line L of the record is refused
  3  config line L kind K    line L of the configuration is refused
  4  limit 1 line L          there are more than 1000000 lines
  4  limit 2 line L          a request of line L meets 16 waiting replies
  4  limit 3 line L          there are more than 67108864 octets
  5  memory                  there was no memory
  6  read                    standard input failed
  7  write                   standard output failed

kinds of a refused line of a record:

  1  Word: no line begins so, or not with so many words, or a word is another than stands there
  2  Number: a word that is no number, or one out of range
  3  Name: a reference, a block, a component or a control that is not there
  4  Value: a word that is no value of the type
  5  State: an association that is open already, or is not
  6  Hex: a word that is no hexadecimal
  7  NoEnd: the input ends before `end`
  8  Long: a line above 140100 octets, or an octet outside 20 to 7E

kinds of a refused line of a configuration:

   1  Word: no line begins so, or not with so many words, or there is an octet outside 20 to 7E
   2  Order: not allowed here, or the text ends before `end`
   3  Name: a word that is not the name, path or reference that stands there
   4  Duplicate: a name that is taken
   5  TypeName: a word that is no type
   6  Flags: a word that is no row of trigger options
   7  Value: a word that is no value of the type
   8  Number: a word that is no number, or one out of range
   9  Unknown: the name of a data set or node that is not there
  10  Long: a line, word, item name or reference that is too long
  11  Many: one more than there may be
  12  Member: a member that no data set may have, or whose Data may be above 500 octets
",
    version: "bay_tool 0.1.0
",
};
