//! What is printed for help. `tools/options.py` makes the usage, the sentence, the example and the options of it by the
//! rows of `options.rt`.

/// What `vslog --help` prints.
pub const HELP: &str = "\
vslog: the log of a running Varnish as a log file of vtools

usage: vslog [-t] [-a] [-q] [--strict] [-w OUT] [FILE]

Reads Varnish's binary log, as its varnishlog -w writes it, from FILE, or from
standard input without it, and writes a log file that vtools reads with -r, to
standard output. What has come is written before more is read, so that

  varnishlog -g raw -w - | vslog | vtools varnishncsa -T 1000000 -r -

prints the line of a request when its records have come. It ends with its input;
nothing is held back, and nothing grows. -T 1000000 keeps vtools from cutting
in two what comes first after a quiet time.

  -t        reads a text, as varnishlog -g raw prints it
  -w OUT    writes to OUT, which is emptied; - is standard output
  -a        appends to OUT
  -q        says nothing of what was left out
  --strict  stops before the first record or line that would be left out or cut

What vtools doesn't have is left out or cut, and counted: records of other tags;
payloads above 4000 bytes, which are cut; and of a text lines of VXIDs out of
range, of other groupings, and such as are no raw lines. At the end one line a
kind on standard error says how many.

  vslog --help     prints this text
  vslog --version  prints the version

Exit status: 0 done, 1 the input or the outside failed, 2 the command line was
refused, 3 out of memory. Manual: docs/man/vslog.1.
";
