//! The texts that help shows below the options, of the program and of each subcommand.

/// Of the program.
pub const PROGRAM: &str = "A run has two inputs, which are text:

  The description says of what the network consists, a part on each line:
  switches, the wires between them, the terminals on their links, and the rows
  by which an input of a switch chooses the output for a packet's header.

  The script says what happens in it: on each line an event, rounds, or a register
  that is to be read or set. Each line's number and answer are printed as soon as it
  is read. At the end comes each packet that arrived: the terminal's name, the packet,
  its sender, and its number there.

They are two files, or one text: the description, a line whose only word is `script`,
and then the script. A command that wants no script passes it over. `c104` alone runs
one text from standard input.

Examples:
  c104 run network.txt events.txt     a description and a script from two files
  c104 run first-network.txt          both in one text
  c104 debug network.txt              a description from a file, and a script as you type it
  c104 storm network.txt sends.txt    its packets carried by threads
  c104 check network.txt              whether its packets can go astray
  c104 check network.txt boot.txt     whether they can by registers that a script sets
  c104 cycles network.txt             whether they can wait for one another forever
  c104 label network.txt              which labels and registers it gives
  c104 label --rows network.txt       the same labels, as row lines
  c104 label --commands network.txt   as a script of control commands
  c104 rows --what packets network.txt events.txt
                                      how its packets fared, as rows for programs

What needs no proof is done by programs of their own, which ask c104: c104-stats,
c104-traffic, c104-paths, c104-cuts, c104-lockup, c104-draw, c104-page, c104-sweep and
c104-plan.

Under --explain, standard error explains what is wrong with a line or with labels, why
an event isn't ready, who waits for whom where nothing moves, and what wasn't
delivered. This is the default on a terminal, where long `rounds`, storms and the search
for the best root also report progress. Standard output is the same.

Exit status:
  0  done, even if an event was refused
  1  the description, its labels, a line of the script or a storm was refused, or a
     cycle was found
  2  the command line is wrong
  3  a file can't be opened or read, or the output can't be written
  4  out of memory";

/// Of `run`.
pub const RUN: &str =
    "Without SCRIPT, DESC is one text of both: the description, a line whose only word is
`script`, and then the script. Without DESC too that text is read from standard input.

A line of a description begins with switch, terminal, wire, row, base, continue, delete,
random, header, buffer, label, mesh, cube, torus or clos, and one of a script with send,
drain, cross, credit, input, claim, control, rounds, settle, peek, poke, link, table,
verify or dump. The manual page says what stands behind these words.";

/// Of `debug`.
pub const DEBUG: &str =
    "The script is read from standard input, behind what follows a line `script` in DESC, and
each line is answered before the next is read. Where standard input and standard error
are terminals, a prompt is shown, with the line's number, which has words of its own.
`help` lists the lines that there are; `show` shows the links of a switch, one link or a
terminal, and `show waiting` which outputs the inputs hold and want; `where` shows where a
packet is, by the terminal that sent it and its number. `until` runs rounds until such a
packet has arrived or nothing moves, at most 10,000; `read` does the lines of a file, and
`log` saves all lines in a new one; `restart` reads DESC again and begins anew. The script
ends with the input, Ctrl-D, or with a line `quit` or `exit`.

Lines can be edited and called back under rlwrap: `rlwrap c104 debug DESC`.";

/// Of `storm`.
pub const STORM: &str =
    "The script has `send` lines alone, which are answered as by run. Then N threads, 2 unless
said, do all the rest: each does the parts of rounds that its switches and terminals
have, until no token is left anywhere. The order of what they do differs from storm to
storm, but what they did is always one run of the network. A thread does at most 1,048,576
events, and with --lean any number. Prints `audit ok` and then each packet that arrived,
sorted by the terminal where it arrived, the one that sent it, and its number there; or,
with exit status 1, `not quiet` where tokens are left that go nowhere, or `worker` with
its number and the fault at which it stopped.

An input that puts random headers before packets takes the first each time, as in rounds;
with --seed, one by a word of a generator, of which each thread has words of its own.

On a terminal, or under --explain, standard error says who waits for whom, and what
wasn't delivered.";

/// Of `rows`.
pub const ROWS: &str =
    "Does what the script asks, as run does, and prints rows in place of the answers and of
what arrived: CSV, with a line of the columns' names before them, and a carriage return
and a line feed behind each line. Time is counted in rounds; what happens outside of
rounds counts to the round before. A table has a row for each

  packets  that was sent: where it arrived and when, and for how long it held links and moved nothing
  links    port with a wire: the tokens and packets that crossed from there, and in how
           many rounds a token did
  rounds   in which anything was done: what moved, arrived, waited and was held
  run      run: its last round in which anything was done, how many lines were refused, and
           whether the network stands still with tokens in it
  holds    stretch of rounds in which a packet moves over a wire, or holds it and doesn't;
           and a last one with the last round that is shown
  ways     port of which a packet holds the link, or where tokens wait at an end, as it
           stands behind the script
  wishes   output that an input wants for a header, as it stands then

With --each, ways and wishes have a first column, the round, and rows of all rounds: those
that differ from the round before. Of a port that has no row any more one tells 0.

With --out each table is written to a file PREFIX-W.csv, all seven or those that --what
names, and nothing is printed. One run is done for all. A network that stands still with
tokens in it, and what wasn't delivered, are told on standard error. The exit status is 1
where a line of the script is faulty.

  c104 rows --what links network.txt events.txt > links.csv
  c104 rows --out run network.txt events.txt
  c104 rows --out run --what ways --what wishes --each network.txt events.txt";

/// Of `check`.
pub const CHECK: &str =
    "The labels of a terminal are the headers that it owns. Every way of each header,
from every terminal and over any link of a group, has to end at its owner, also from
the owner itself; a header without an owner has to be dropped where it comes in. A
random header, which an input puts before a packet, has to end at an input that
discards it, and the packet goes on from there. Prints `accepted`, or the first fault,
with the header, the terminal that it comes from, and the inputs on its way.

With --header and --rows it prints a row for each link by which that header may leave,
as CSV: whether as the own one of packets, whether as a random one, and whether the
input there is a portal of it, where it is discarded as a random one. Where the header
is refused, the fault comes last.

On a terminal, or under --explain, standard error says where the header goes wrong
and, where some rows or labels do, which lines of the description fix it; and of
labels that are accepted, whether packets can wait for one another forever.

With a SCRIPT, this is run first, as by run, and the labels that it leaves in the
registers are checked. Its answers aren't printed, and the exit status is 1 where a
line of it is faulty.";

/// Of `cycles`.
pub const CYCLES: &str =
    "One input depends on another where a packet that comes in at the one may have to
wait until what came in at the other has gone on. Where the labels are accepted and no
inputs depend on one another in a cycle, `rounds` brings each packet with a whole
header that a terminal owns to that terminal, unless some terminal or a trace is full;
where they do, packets can wait for one another forever. Prints `acyclic`, or `cycle`
and its inputs, each with a header by which it depends on the next, the last on the
first, and ends with exit status 1. Labels that check refuses are answered as by check.
Where an input puts random headers before packets, these go by such a header to an
input that discards it, and from there by their own: the dependencies are those of
both. What is said of `rounds` holds as long as no such packet begins with a random
header itself.

With --all each dependency comes first, on a line of its own.";

/// Of `label`.
pub const LABEL: &str =
    "For each terminal a line with its first label and how many it has, in decimal;
then for each switch a line for each register whose value isn't that after a reset,
with its address and its value in hexadecimal digits. With --names it has the name of
the register instead, and behind `poke` such a line of a script sets it.

With --rows it prints a description instead, of the same network, whose base, row,
continue, delete and random lines set all that these labels do. It can be changed by
hand, and it has no label, mesh or cube line; a comment before it tells the shape. With
--without it is that of the network without the wires at these ports, whose links are
taken out of their groups, and rows select what is left of a group. Where no wire between
switches is at a port, `rows 2 NoWire` is printed, and the exit status is 1.

With --commands it prints a script of control lines that load and start the switches:
all are reset, their registers are set, and all are started. Run on a description with
the same switches and wires, it leaves these values in the registers.

With a SCRIPT, this is run first, as by run, and the labels that it leaves in the
registers are shown, or printed as row lines. Its answers aren't printed, and the exit
status is 1 where a line of it is faulty.";
