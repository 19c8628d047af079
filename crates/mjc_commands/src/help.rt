//! What the program says of itself.

/// The name and the version of the program.
pub const VERSION: &str = "mjc 1.0.0\n";

/// How the program is used: a line for each command and each option.
pub const HELP: &str = "\
usage: mjc tokens|code|names|lint|replay [OPTION..] FILE [ANSWERS], mjc expr TEXT

commands:
  tokens FILE           print the tokens of a template
  code FILE             compile a template, and print its code
  names FILE..          print the names that each template needs from outside
  lint FILE..           print these names with their places, and the macros that are not used
  replay FILE ANSWERS   run the code of a template on answers, one a line, and print the run
  expr TEXT             compile an expression, and print its code
  help                  print this text, as --help and -h do
  --version             print the name and the version of this program

options, between the command and its files:
  --block START END     how block tags start and end: {% %}
  --variable START END  how variable tags start and end: {{ }}
  --comment START END   how comments start and end: {# #}
  --line-statement P    the prefix of a line that is a block tag: none
  --line-comment P      the prefix of a comment to the end of the line: none
  --trim-blocks         drop the newline after a block tag
  --lstrip-blocks       drop the spaces and tabs before a block tag that begins its line
  --keep-newline        keep the newline at the end of the template
  --                    what follows are files, also where they begin with --

A file - is standard input, and so is the text of `expr -`.
";
