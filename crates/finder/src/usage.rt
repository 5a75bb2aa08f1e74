//! What `--help` and `--version` print.

pub const USAGE: &str = "usage: finder [OPTION].. PATTERN [FILE]..
       finder [OPTION].. (-e PATTERN | -f FILE).. [FILE]..
Prints the lines of files in which a pattern matches. Options are those of grep.
Patterns:
  -e, --regexp=PATTERN       a pattern, or several, one a line; the first is preferred
  -f, --file=FILE            the patterns of a file, one a line
  -F, --fixed-strings        a pattern is the text that it matches
  -i, --ignore-case          ASCII letters of the patterns match in both cases
  -w, --word-regexp          a match has no word character before or after it
  -x, --line-regexp          a match is a whole line
      --characters           dots and brackets match characters in UTF-8, and not bytes
  -E, --extended-regexp      no effect, as for grep -E
Lines:
  -v, --invert-match         select the lines without a match
  -m, --max-count=NUM        stop after this number of selected lines
  -z, --null-data            lines end in a zero byte
  -a, --text                 search binary files as text
  -I                         take binary files for files without a match
      --binary-files=TYPE    binary, text or without-match
  -U, --binary               no effect, as for grep
Files:
  -r, --recursive            search all files below a directory, in the order of names
  -R, --dereference-recursive  the same, and follow links
      --include=GLOB         search only files with such a name
      --exclude=GLOB         skip files with such a name; of both options the last one counts
      --exclude-dir=GLOB     skip directories with such a name
      --label=NAME           the name to print for standard input
  -s, --no-messages          no messages about files that cannot be read
Output:
  -o, --only-matching        print each match, and not the line
  -c, --count                print the number of selected lines of each file
  -l, --files-with-matches   print the names of the files with a selected line
  -L, --files-without-match  print the names of the files without one
  -q, --quiet, --silent      print nothing, and stop at the first selected line
  -n, --line-number          print the number of each line before it
  -b, --byte-offset          print the offset of what is printed
  -H, --with-filename        print the name of the file
  -h, --no-filename          print no names of files, also if there are several
  -Z, --null                 print a zero byte behind names of files
  -T, --initial-tab          print a tab before each line, behind what is before it
      --line-buffered        write each line at once
      --pattern-number       with -o, print the number of the pattern, from 0
      --color[=WHEN]         mark matches: always, never or auto
  -A, --after-context=NUM    print lines after each selected line
  -B, --before-context=NUM   print lines before each selected line
  -C, --context=NUM, -NUM    print lines before and after
      --group-separator=SEP  print this between groups of lines, and not --
      --no-group-separator   print nothing between them
  -V, --version, --help      print the version, or this
Without files, and for the file -, searches standard input; with -r, the current directory.
Patterns have a subset of the syntax of Rust's crate regex, over bytes; after (?u) a dot or
brackets match a character in UTF-8. -o prints the match that this syntax prefers, and not the
longest one as grep does: of a|ab in ab it is a.
The status is 0 if a line is selected, 1 if none is, and 2 after an error.
";

pub const VERSION: &str = "finder 0.2 of determinize-core
";
