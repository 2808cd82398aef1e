//! What is printed for help. `tools/options.py` makes the usage, the sentences, the options and the examples of `HELP` by
//! the rows of commands and of options, and of these rows and `HELP` the text of each command.

use tool_words::{CommandName, Tool};

/// What `vtools --help` prints.
pub const HELP: &str = "\
vtools: Varnish's logging tools as one program

usage: vtools [OPTIONS] varnishlog [-g GROUPING] [-L N] [-T N] [-q TEXT]
              [-Q FILE] [-k N] [-b] [-c] [-E] [-i TAGLIST] [-x TAGLIST]
              [-I RULE] [-X RULE] [-C] [-v] [-w FILE [-a] [-A]] -r FILE
       vtools [OPTIONS] varnishncsa [-F FORMAT] [-g GROUPING] [-L N] [-T N]
              [-q TEXT] [-Q FILE] [-k N] [-b] [-c] [-E] [-C] [-w FILE [-a]]
              -r FILE
       vtools [OPTIONS] varnishtop -1 [-f] [-g GROUPING] [-L N] [-T N]
              [-q TEXT] [-Q FILE] [-k N] [-b] [-c] [-E] [-i TAGLIST]
              [-x TAGLIST] [-I RULE] [-X RULE] [-C] -r FILE
       vtools [--feed FILE].. [--gen N,SEED] [--ring N] [--reclen N]
              [--feed-first | --turns SEED] TOOL .., as above without -r FILE
       vtools [OPTIONS] varnishstat (-1 | -j | -l) [-f GLOB]..
       vtools convert IN OUT

varnishlog prints the records of a log file, a group of them when it is
complete, or writes them as a log file. varnishncsa prints a line for each
request, as a web server does in its access log. varnishtop counts equal
records, and prints each once with its count when the log has ended. They take
all records, or those that are chosen. In place of a log file they take feeds:
texts of records, as Varnish's own varnishlog -g raw prints them, or requests
that are made up. varnishstat prints counters of feeds, and takes no log file.
vslog --help says how the log of a running Varnish becomes a log file. convert
writes the units of the log file IN as a log file OUT, in the form in which log
files are written. The name - is standard input, or output.

  -r FILE           reads the log file FILE; - is standard input
  -g vxid           groups records by transaction; this is the default
  -g request        groups a request with all that it caused, as its fetch and
                    its ESI parts; sessions are left out
  -g session        groups a client's session with all of its requests; not of
                    varnishncsa
  -g raw            takes each record by itself, in the order of the log; not
                    of varnishncsa
  -L N              keeps at most N transactions pending, 1 to 1000000; 1000
                    without it; past that the oldest is force-completed
  -T N              force-completes a transaction that began more than N seconds
                    before the log's time, 1 to 1000000; 120 without it
  -q TEXT           takes only groups for which the query TEXT holds, as in
                    -q 'RespStatus >= 500'; of several queries one must hold
  -Q FILE           reads queries from FILE, one a line
  -k N              takes the first N groups, shown or not, and reads no more,
                    1 to 999999999
  -b                shows requests to a backend, and no other transactions but
                    those of -c and -E
  -c                shows clients' requests, and no other transactions but
                    those of -b and -E; varnishncsa does so without any of the
                    three
  -E                the same as -c, with requests for ESI parts
  -C                asks patterns, and texts of queries, without regard to case

Of varnishlog and varnishtop:

  -i TAGLIST        shows records of these tags, as in -i 'Req*,End'
  -x TAGLIST        hides records of these tags
  -I RULE           shows records that RULE matches: a pattern, or
                    TAGLIST:PATTERN, as in -I 'ReqHeader:^Host:'
  -X RULE           hides records that RULE matches

Of varnishlog and varnishncsa:

  -w FILE           writes to FILE, varnishlog a log file and varnishncsa its
                    lines, and not to standard output, which - is
  -a                appends to the file of -w, which is emptied otherwise

Of varnishlog alone:

  -v                prints VXID and mark in the line of each record
  -A                writes lines to the file of -w, and no log file

Of varnishncsa alone:

  -F FORMAT         prints lines of this format, as in -F '%h %{Host}i %s %b'

Of varnishtop alone:

  -1                counts to the end of the log and prints once; it has to be
                    given
  -f                counts only the first field of each payload

Of varnishstat alone, which has no others behind it; one of -1, -j and -l has
to be given:

  -1                prints a line for each counter once all feeds are put
  -j                prints them as JSON, also beside -1
  -l                prints the names of counters, also beside -1 and -j; needs
                    no feed
  -f GLOB           prints only counters whose whole name GLOB matches, as in
                    -f 'MAIN.cache_*'; of several globs one must match

The first -I or -X that matches a record decides, else the last -i or -x that
names its tag. Other records are hidden where the first of -i and -x is -i, or
the first of -I and -X is -I.

In the place of -r FILE, before the tool, one of the first two, or both. Each
feed is put into a ring on a thread of its own while the tool reads; with one of
the next two the order is stated, and the same each time:

  --feed FILE       feeds the listing FILE, lines as varnishlog -g raw prints
                    them, at most 16 MiB; up to 16 of these
  --gen N,SEED      feeds N requests that are made from SEED, 1 to 100000 and
                    0 to 65536, behind the listings
  --feed-first      puts feed after feed into a ring, and then reads it
  --turns SEED      draws from SEED, 0 to 65536, whose turn it is, that of a
                    feed or of the reader
  --ring N          words in a segment of the ring, 64 to 1048576; 65536
                    without it; a reader 6 segments behind is overrun
  --reclen N        cuts payloads to N bytes, 16 to 4000; 255 without it

Taken too, and of no effect: -d; beside -r, of these all but --feed and --gen.
Options stand in any order, letters may share a word, and of -F, -g, -k, -L,
-T, -r and -w the last counts.

An example of each tool:

  vtools varnishlog -g request -q 'Timestamp:Resp[2] > 0.3' -r FILE
      prints requests that took more than 0.3 seconds, with their fetches
  vtools varnishncsa -F '%h %{Varnish:hitmiss}x %s %U' -r FILE
      prints client, hit or miss, status and URL of each request
  vtools varnishtop -1 -i ReqURL -r FILE
      prints each URL that clients asked for, with its count
  vtools --feed FILE varnishstat -1 -f 'MAIN.cache_*'
      prints how many requests were hits, and how many misses
  vtools convert FILE OUT
      writes a log file of an earlier release as one of this release

  vtools --help       prints this text
  vtools TOOL --help  prints what the tool takes, as does -h behind it
  vtools --version    prints the version

Exit status: 0 done, 1 the input or the outside failed, 2 the command line, a
pattern, a query or a format was refused, 3 out of memory.

Manuals: man vtools, and man vtools-TOOL for each TOOL. All options and formats:
docs/FORMATS.md.
";

// made by tools/options.py: commands
/// What `vtools NAME --help` prints of each command.
pub static HELPS: [(CommandName, &str); 5] = [
    (CommandName::Tool(Tool::Log), LOG_HELP),
    (CommandName::Tool(Tool::Ncsa), NCSA_HELP),
    (CommandName::Tool(Tool::Top), TOP_HELP),
    (CommandName::Tool(Tool::Stat), STAT_HELP),
    (CommandName::Convert, CONVERT_HELP),
];

/// What `vtools varnishlog --help` prints.
const LOG_HELP: &str = "\
varnishlog prints the records of a log file, a group of them when it is
complete, or writes them as a log file.

usage: vtools [OPTIONS] varnishlog [-g GROUPING] [-L N] [-T N] [-q TEXT]
              [-Q FILE] [-k N] [-b] [-c] [-E] [-i TAGLIST] [-x TAGLIST]
              [-I RULE] [-X RULE] [-C] [-v] [-w FILE [-a] [-A]] -r FILE
       vtools [--feed FILE].. [--gen N,SEED] [--ring N] [--reclen N]
              [--feed-first | --turns SEED] varnishlog .., as above without
              -r FILE

  -r FILE           reads the log file FILE; - is standard input
  -g vxid           groups records by transaction; this is the default
  -g request        groups a request with all that it caused, as its fetch and
                    its ESI parts; sessions are left out
  -g session        groups a client's session with all of its requests
  -g raw            takes each record by itself, in the order of the log
  -L N              keeps at most N transactions pending, 1 to 1000000; 1000
                    without it; past that the oldest is force-completed
  -T N              force-completes a transaction that began more than N seconds
                    before the log's time, 1 to 1000000; 120 without it
  -q TEXT           takes only groups for which the query TEXT holds, as in
                    -q 'RespStatus >= 500'; of several queries one must hold
  -Q FILE           reads queries from FILE, one a line
  -k N              takes the first N groups, shown or not, and reads no more,
                    1 to 999999999
  -b                shows requests to a backend, and no other transactions but
                    those of -c and -E
  -c                shows clients' requests, and no other transactions but
                    those of -b and -E; varnishncsa does so without any of the
                    three
  -E                the same as -c, with requests for ESI parts
  -C                asks patterns, and texts of queries, without regard to case
  -i TAGLIST        shows records of these tags, as in -i 'Req*,End'
  -x TAGLIST        hides records of these tags
  -I RULE           shows records that RULE matches: a pattern, or
                    TAGLIST:PATTERN, as in -I 'ReqHeader:^Host:'
  -X RULE           hides records that RULE matches
  -w FILE           writes to FILE, varnishlog a log file and varnishncsa its
                    lines, and not to standard output, which - is
  -a                appends to the file of -w, which is emptied otherwise
  -v                prints VXID and mark in the line of each record
  -A                writes lines to the file of -w, and no log file

Taken too, and of no effect: -d.

The first -I or -X that matches a record decides, else the last -i or -x that
names its tag. Other records are hidden where the first of -i and -x is -i, or
the first of -I and -X is -I.

In the place of -r FILE, before the tool, one of the first two, or both. Each
feed is put into a ring on a thread of its own while the tool reads; with one of
the next two the order is stated, and the same each time:

  --feed FILE       feeds the listing FILE, lines as varnishlog -g raw prints
                    them, at most 16 MiB; up to 16 of these
  --gen N,SEED      feeds N requests that are made from SEED, 1 to 100000 and
                    0 to 65536, behind the listings
  --feed-first      puts feed after feed into a ring, and then reads it
  --turns SEED      draws from SEED, 0 to 65536, whose turn it is, that of a
                    feed or of the reader
  --ring N          words in a segment of the ring, 64 to 1048576; 65536
                    without it; a reader 6 segments behind is overrun
  --reclen N        cuts payloads to N bytes, 16 to 4000; 255 without it

An example:

  vtools varnishlog -g request -q 'Timestamp:Resp[2] > 0.3' -r FILE
      prints requests that took more than 0.3 seconds, with their fetches

Exit status: 0 done, 1 the input or the outside failed, 2 the command line, a
pattern, a query or a format was refused, 3 out of memory.

Manual: man vtools-varnishlog.
";

/// What `vtools varnishncsa --help` prints.
const NCSA_HELP: &str = "\
varnishncsa prints a line for each request, as a web server does in its access
log.

usage: vtools [OPTIONS] varnishncsa [-F FORMAT] [-g GROUPING] [-L N] [-T N]
              [-q TEXT] [-Q FILE] [-k N] [-b] [-c] [-E] [-C] [-w FILE [-a]]
              -r FILE
       vtools [--feed FILE].. [--gen N,SEED] [--ring N] [--reclen N]
              [--feed-first | --turns SEED] varnishncsa .., as above without
              -r FILE

  -r FILE           reads the log file FILE; - is standard input
  -g vxid           groups records by transaction; this is the default
  -g request        groups a request with all that it caused, as its fetch and
                    its ESI parts; sessions are left out
  -L N              keeps at most N transactions pending, 1 to 1000000; 1000
                    without it; past that the oldest is force-completed
  -T N              force-completes a transaction that began more than N seconds
                    before the log's time, 1 to 1000000; 120 without it
  -q TEXT           takes only groups for which the query TEXT holds, as in
                    -q 'RespStatus >= 500'; of several queries one must hold
  -Q FILE           reads queries from FILE, one a line
  -k N              takes the first N groups, shown or not, and reads no more,
                    1 to 999999999
  -b                shows requests to a backend, and no other transactions but
                    those of -c and -E
  -c                shows clients' requests, and no other transactions but
                    those of -b and -E; varnishncsa does so without any of the
                    three
  -E                the same as -c, with requests for ESI parts
  -C                asks patterns, and texts of queries, without regard to case
  -w FILE           writes to FILE, varnishlog a log file and varnishncsa its
                    lines, and not to standard output, which - is
  -a                appends to the file of -w, which is emptied otherwise
  -F FORMAT         prints lines of this format, as in -F '%h %{Host}i %s %b'

Taken too, and of no effect: -d.

In the place of -r FILE, before the tool, one of the first two, or both. Each
feed is put into a ring on a thread of its own while the tool reads; with one of
the next two the order is stated, and the same each time:

  --feed FILE       feeds the listing FILE, lines as varnishlog -g raw prints
                    them, at most 16 MiB; up to 16 of these
  --gen N,SEED      feeds N requests that are made from SEED, 1 to 100000 and
                    0 to 65536, behind the listings
  --feed-first      puts feed after feed into a ring, and then reads it
  --turns SEED      draws from SEED, 0 to 65536, whose turn it is, that of a
                    feed or of the reader
  --ring N          words in a segment of the ring, 64 to 1048576; 65536
                    without it; a reader 6 segments behind is overrun
  --reclen N        cuts payloads to N bytes, 16 to 4000; 255 without it

An example:

  vtools varnishncsa -F '%h %{Varnish:hitmiss}x %s %U' -r FILE
      prints client, hit or miss, status and URL of each request

Exit status: 0 done, 1 the input or the outside failed, 2 the command line, a
pattern, a query or a format was refused, 3 out of memory.

Manual: man vtools-varnishncsa.
";

/// What `vtools varnishtop --help` prints.
const TOP_HELP: &str = "\
varnishtop counts equal records, and prints each once with its count when the
log has ended.

usage: vtools [OPTIONS] varnishtop -1 [-f] [-g GROUPING] [-L N] [-T N]
              [-q TEXT] [-Q FILE] [-k N] [-b] [-c] [-E] [-i TAGLIST]
              [-x TAGLIST] [-I RULE] [-X RULE] [-C] -r FILE
       vtools [--feed FILE].. [--gen N,SEED] [--ring N] [--reclen N]
              [--feed-first | --turns SEED] varnishtop .., as above without
              -r FILE

  -r FILE           reads the log file FILE; - is standard input
  -g vxid           groups records by transaction; this is the default
  -g request        groups a request with all that it caused, as its fetch and
                    its ESI parts; sessions are left out
  -g session        groups a client's session with all of its requests
  -g raw            takes each record by itself, in the order of the log
  -L N              keeps at most N transactions pending, 1 to 1000000; 1000
                    without it; past that the oldest is force-completed
  -T N              force-completes a transaction that began more than N seconds
                    before the log's time, 1 to 1000000; 120 without it
  -q TEXT           takes only groups for which the query TEXT holds, as in
                    -q 'RespStatus >= 500'; of several queries one must hold
  -Q FILE           reads queries from FILE, one a line
  -k N              takes the first N groups, shown or not, and reads no more,
                    1 to 999999999
  -b                shows requests to a backend, and no other transactions but
                    those of -c and -E
  -c                shows clients' requests, and no other transactions but
                    those of -b and -E; varnishncsa does so without any of the
                    three
  -E                the same as -c, with requests for ESI parts
  -C                asks patterns, and texts of queries, without regard to case
  -i TAGLIST        shows records of these tags, as in -i 'Req*,End'
  -x TAGLIST        hides records of these tags
  -I RULE           shows records that RULE matches: a pattern, or
                    TAGLIST:PATTERN, as in -I 'ReqHeader:^Host:'
  -X RULE           hides records that RULE matches
  -1                counts to the end of the log and prints once; it has to be
                    given
  -f                counts only the first field of each payload

Taken too, and of no effect: -d.

The first -I or -X that matches a record decides, else the last -i or -x that
names its tag. Other records are hidden where the first of -i and -x is -i, or
the first of -I and -X is -I.

In the place of -r FILE, before the tool, one of the first two, or both. Each
feed is put into a ring on a thread of its own while the tool reads; with one of
the next two the order is stated, and the same each time:

  --feed FILE       feeds the listing FILE, lines as varnishlog -g raw prints
                    them, at most 16 MiB; up to 16 of these
  --gen N,SEED      feeds N requests that are made from SEED, 1 to 100000 and
                    0 to 65536, behind the listings
  --feed-first      puts feed after feed into a ring, and then reads it
  --turns SEED      draws from SEED, 0 to 65536, whose turn it is, that of a
                    feed or of the reader
  --ring N          words in a segment of the ring, 64 to 1048576; 65536
                    without it; a reader 6 segments behind is overrun
  --reclen N        cuts payloads to N bytes, 16 to 4000; 255 without it

An example:

  vtools varnishtop -1 -i ReqURL -r FILE
      prints each URL that clients asked for, with its count

Exit status: 0 done, 1 the input or the outside failed, 2 the command line, a
pattern, a query or a format was refused, 3 out of memory.

Manual: man vtools-varnishtop.
";

/// What `vtools varnishstat --help` prints.
const STAT_HELP: &str = "\
varnishstat prints counters of feeds, and takes no log file.

usage: vtools [--feed FILE].. [--gen N,SEED] [--ring N] [--reclen N]
              [--feed-first | --turns SEED] varnishstat (-1 | -j | -l)
              [-f GLOB]..

  -1                prints a line for each counter once all feeds are put
  -j                prints them as JSON, also beside -1
  -l                prints the names of counters, also beside -1 and -j; needs
                    no feed
  -f GLOB           prints only counters whose whole name GLOB matches, as in
                    -f 'MAIN.cache_*'; of several globs one must match

Before the tool, one of the first two, or both. Each feed is put into a ring on
a thread of its own while the tool reads; with one of the next two the order is
stated, and the same each time:

  --feed FILE       feeds the listing FILE, lines as varnishlog -g raw prints
                    them, at most 16 MiB; up to 16 of these
  --gen N,SEED      feeds N requests that are made from SEED, 1 to 100000 and
                    0 to 65536, behind the listings
  --feed-first      puts feed after feed into a ring, and then reads it
  --turns SEED      draws from SEED, 0 to 65536, whose turn it is, that of a
                    feed or of the reader
  --ring N          words in a segment of the ring, 64 to 1048576; 65536
                    without it; a reader 6 segments behind is overrun
  --reclen N        cuts payloads to N bytes, 16 to 4000; 255 without it

An example:

  vtools --feed FILE varnishstat -1 -f 'MAIN.cache_*'
      prints how many requests were hits, and how many misses

Exit status: 0 done, 1 the input or the outside failed, 2 the command line, a
pattern, a query or a format was refused, 3 out of memory.

Manual: man vtools-varnishstat.
";

/// What `vtools convert --help` prints.
const CONVERT_HELP: &str = "\
convert writes the units of the log file IN as a log file OUT, in the form in
which log files are written.

usage: vtools convert IN OUT

An example:

  vtools convert FILE OUT
      writes a log file of an earlier release as one of this release

Exit status: 0 done, 1 the input or the outside failed, 2 the command line, a
pattern, a query or a format was refused, 3 out of memory.

Manual: man vtools-convert.
";
// made until here
