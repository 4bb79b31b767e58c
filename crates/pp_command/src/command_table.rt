ghost use Rattle.std.specs.Prelude.{◌≡◌, map, option_map};
ghost use Rattle.pp_command.specs.CommandLine.{command_named, command_of_form, commands};

use crate::command::ValueForm::{Flag, Number, Text};
use crate::command::{CommandForm, CommandHelp, OptionForm};
use crate::command_kind::CommandKind;
use crate::command_macros::{
    command, example, four_example, handoff_example, option, with_faults, with_run_options,
};
use crate::number_range::{DRAWN_FROM, FROM, PATIENCE, STATES, STEPS, TIMES, TO, TURNS};

/// What the program is, with which both its helps begin.
pub const ABOUT: &str =
    "Simulates the peripheral processors and data channels of a Control Data 6600";

/// The end of the long help.
pub const MANUAL: &str = handoff_example!("barrel --turns 40", after "\
A deck has these lines. All its numbers are octal:
  CENTRAL 10000     the size of central memory; before all other lines but comments
  PP 0              what follows is for processor 0
  0100 1405 0300    stores these words from address 0100 on
  START 0100        the processor starts at 0100, with A = 0; START 0100 7 starts it with A = 7
  CM 20 1 2         stores these central words from address 20 on
  DEAD              the processors without a section wait for their programs
  * and the rest of a line is a comment

A deck with a fault is refused, as in 'ppsim: deck fault 4 at line 3':
  1  it is longer than 1048576 bytes (decimal)
  2  a byte is not ASCII
  3  no such line, or too few or too many fields
  4  not a number of that many octal digits
  5  no such processor
  6  words or START before the first PP line
  7  a word past address 7777
  8  the size of central memory, or a central word, is out of range
  9  out of memory, printed as 'ppsim: out of memory'

The exit status is 0 when the work is done or help was asked for, 1 when the deck is refused or
can't be dumped as it stands, when lint finds something, when test finds no expectation, one that
fails, or not all endings, or when a trace is not lawful, 2 when the command line is refused, 3
after a read or write fault, and 4 when memory runs out.

The pages TUTORIAL.md, VIEWS.md, docs/MACHINE.md (the instructions), docs/DECK.md and
docs/OUTPUT.md of the repository say more.

");

/// The end of the short help.
pub const EXAMPLE: &str = handoff_example!("barrel --turns 40");

/// What help says of the word that names a file.
pub const FILE_HELP: &str = "The file to read; standard input if not given, or -";

const TURNS_OPTION: OptionForm = option!(required: true, "turns", Number(TURNS));

const UNTIL_OPTION: OptionForm = option!(required: false, "until", Text("COND",
    "End after the first step that meets this, as 'PP00 P=0105', 'CM 20' or 'CH05 DCN'"));

const TIMES_OPTION: OptionForm = option!(required: false, "times", Number(TIMES));

const ORDER_OPTION: OptionForm = option!(required: false, "order", Text("LIST",
    "The first steps, as 0:3,1,11:20 (processors octal, counts decimal); then come the turns"));

const PROCESSORS_OPTION: OptionForm = option!(required: false, "processors", Text("N",
    "How many processors the machine has, 10 or 20 (decimal); 10 if not given"));

const FIRST_OPTION: OptionForm = option!(required: false, "first", Text("N",
    "The first address to print (octal; 0 if not given)"));

/// The options of a run that has no others.
const RUN_OPTIONS: &[OptionForm] = with_run_options![TURNS_OPTION];

const COMMANDS: [CommandHelp; 16] = [
    command! {
        kind: CommandKind::Barrel,
        name: "barrel",
        about: "Runs a deck in the barrel, one step a turn, and prints what happened",
        long_about: with_faults!("\
Runs a deck in the barrel: processors 0, 1, .. and 11 (octal) take one step a turn, again and again;
of twenty processors, 20, 21, .. and 31 follow them in each round.

Reads the deck from FILE or standard input. Prints to standard output a line for each channel event,
in order; the P, the A and the state of each processor that the deck names; and the state of each
channel that has a history. What goes wrong is one line on standard error.", "\
Where the deck has a line DEAD, the processors without a section wait for their programs, each on
the channel of its own number, as at a dead start."),
        example: EXAMPLE,
        options: RUN_OPTIONS,
    },
    command! {
        kind: CommandKind::Threads,
        name: "threads",
        about: "Runs a deck with one thread per processor, and prints what happened",
        long_about: with_faults!("\
Runs a deck with one thread per processor, all at once. Each goes on at its own speed, so the
order of events on different channels, and sometimes the events themselves, differ from run to run.

A processor ends when its program stops or faults, when its steps are done (STEPS), or when a
channel has held one step too often in a row (PATIENCE). 1000000 is a good patience. A processor
that waits for ever makes all these tries: on idle cores in about 0.1 seconds, and in minutes at
the greatest patience; beside other programs it takes many times as long.
It also ends where it is refused memory for one more answer (MEMORY), and where a channel has had
2^50 - 1 events (WORN).", "\
Reads the deck from FILE or standard input. Prints to standard output, channel by channel, a line
for each event in order; the P, the A and the end of each processor that the deck names; and the
state of each channel that has a history. What goes wrong is one line on standard error.

Where the deck has a line DEAD, the processors without a section wait for their programs, each on
the channel of its own number, as at a dead start."),
        example: handoff_example!("threads --steps 100 --patience 1000000"),
        options: &[
            option!(required: true, "steps", Number(STEPS)),
            option!(required: true, "patience", Number(PATIENCE)),
            PROCESSORS_OPTION,
        ],
    },
    command! {
        kind: CommandKind::List,
        name: "list",
        about: "Prints the listing of a deck, one instruction a line, which is itself a deck",
        long_about: "\
Prints the listing of a deck: the words of each processor that are not 0, one instruction a line,
with its mnemonic and operands behind it as a comment. Nothing is run.

Reads the deck from FILE or standard input. Prints to standard output the size of central memory and
its words; DEAD, where processors wait for their programs; and the section of each processor that
the deck names. What goes wrong is one line on standard error.

The listing is itself a deck, and loads the same machine, where it is no longer than a deck may be,
1048576 bytes (decimal).",
        example: four_example!("list"),
        options: &[PROCESSORS_OPTION],
    },
    command! {
        kind: CommandKind::Lint,
        name: "lint",
        about: "Prints what is wrong in a deck, by line and column",
        long_about: "\
Prints what is wrong in a deck, by line and column. Nothing is run.

Reads the deck from FILE or standard input. Prints to standard output a line for each fault, as in
'2:11 wrong digits: 1603,3450': its line and its column (decimal, from 1), what is wrong, and the
field that is. After a fault it goes on with the next line, so that all of them are printed. Other
lines point at what is set twice or lacking, at instructions that fault wherever they are run, at
channels that one processor alone uses, and at comments that name another instruction than their
line has, as in '5:29 UJN 0205, but 0373 is UJN 0204'. If there is none, 'nothing found' is printed.
The exit status is 1 if something is found. What else goes wrong is one line on standard error.",
        example: example!("lint", "comma.deck", "  PP 0
  0100 1405 1603,3450 0300
  START 0100"),
        options: &[PROCESSORS_OPTION],
    },
    command! {
        kind: CommandKind::Dump,
        name: "dump",
        about: "Runs a deck in the barrel, and prints a deck to go on from",
        long_about: "\
Runs a deck in the barrel, and prints what is in the machine then, in the form of a listing: central
memory, and the words of each processor that the deck names or that was loaded at dead start. Those
that are running start where they are; the others keep their memory alone.

Reads the deck from FILE or standard input. What is printed to standard output is a deck to go on
from, where it is no longer than a deck may be, 1048576 bytes (decimal): histories and turns are
gone. Where a processor is within a block or at fault, or a channel is active, nothing is printed,
and the first of these is told on standard error. Any other fault is one line there too.",
        example: four_example!("dump --turns 40"),
        options: RUN_OPTIONS,
    },
    command! {
        kind: CommandKind::Steps,
        name: "steps",
        about: "Runs a deck in the barrel, and prints each step",
        long_about: with_faults!("\
Runs a deck in the barrel, and prints each step: what the instruction is, and what it did.

Reads the deck from FILE or standard input. Prints to standard output a line for each step of the
processors that the deck names or that waited at dead start: the turn, the processor, P, the word or
two at P (none within a block), the instruction that runs, and A after it; then each place and each
central word that the step changed; the channel event, or the flags that were seen; and STOPPED or
FAULT with its number. Steps of a processor that are held in a row, with the same flags, are one
line, at the first of them: HELD, the channel with its flags, and how many there are. With --pp,
--ch, --from or --to only the steps chosen are printed, and counted. What goes wrong is one line on
standard error."),
        example: four_example!("steps --turns 40 --pp 0"),
        options: with_run_options![
            TURNS_OPTION,
            option!(required: false, "pp", Text("N,N,..",
                "Print the steps of these processors only (octal)")),
            option!(required: false, "ch", Text("N,N,..",
                "Print the steps that ask these channels only (octal)")),
            option!(required: false, "from", Number(FROM)),
            option!(required: false, "to", Number(TO)),
            option!(required: false, "where", Text("COND",
                "Print the steps that meet this condition only, each on a line of its own")),
        ],
    },
    command! {
        kind: CommandKind::State,
        name: "state",
        about: "Runs a deck in the barrel, and prints how things stand then",
        long_about: with_faults!("\
Runs a deck in the barrel, and prints how things stand then: where each processor is and what holds
it, what the run has changed in the memories, and the state of the channels.

Reads the deck from FILE or standard input. Prints to standard output, for each processor that the
deck names or that waited at dead start, its P, its A and its state, the instruction that runs, the
next place of a block in progress, and, if its next step is held, by which channel and how many of
its last steps in a row were; then the words of processors and of central memory that differ from
those loaded, as lines of a deck; and the state of each channel that has a history. What goes wrong
is one line on standard error."),
        example: four_example!("state --turns 40"),
        options: RUN_OPTIONS,
    },
    command! {
        kind: CommandKind::Ends,
        name: "ends",
        about: "Runs a deck in the barrel, and says how the run ends",
        long_about: "\
Runs a deck in the barrel, and says how the run ends, as far as these turns tell.

Reads the deck from FILE or standard input. Prints to standard output AT REST FROM t, if from turn t
on every processor is stopped or at fault; STUCK FROM t, if from then on nothing can move, though
some processor is running; REPEATS FROM t EVERY n, if after each n turns the machine stands as it
stood at turn t; or GOING ON AT t, after all t turns. Then, as they stand at turn t, a line for each
processor that the deck names or that waited at dead start, with the places between which it LOOPS
in a repetition; and the state of each channel that has a history. What goes wrong is one line on
standard error.",
        example: four_example!("ends --turns 999999"),
        options: &[TURNS_OPTION, PROCESSORS_OPTION],
    },
    command! {
        kind: CommandKind::Memory,
        name: "memory",
        about: "Runs a deck in the barrel, and prints the words of a processor's memory",
        long_about: "\
Runs a deck in the barrel, and prints the words of a processor's memory, in octal and in display
code.

Reads the deck from FILE or standard input. Prints to standard output a line for each eight places,
from a multiple of 10 on (octal), of which one lies within the bounds and one has a word that is not
0: the first place, the eight words, and the same in display code, two characters a word (00 and 55
are spaces). What goes wrong is one line on standard error.",
        example: four_example!("memory --turns 40 --pp 0"),
        options: with_run_options![
            TURNS_OPTION,
            option!(required: true, "pp", Text("N", "The processor (octal)")),
            FIRST_OPTION,
            option!(required: false, "last", Text("N",
                "The last address to print (octal; 7777 if not given)")),
        ],
    },
    command! {
        kind: CommandKind::Central,
        name: "central",
        about: "Runs a deck in the barrel, and prints the words of central memory",
        long_about: "\
Runs a deck in the barrel, and prints the words of central memory, in octal and in display code.

Reads the deck from FILE or standard input. Prints to standard output a line for each word within
the bounds that is not 0: the address, the word, and the same in display code, ten characters (00
and 55 are spaces). What goes wrong is one line on standard error.",
        example: example!("central --turns 40", "word.deck",
            "  CM 10 00010002000300040005\n  PP 0"),
        options: with_run_options![
            TURNS_OPTION,
            FIRST_OPTION,
            option!(required: false, "last", Text("N",
                "The last address to print (octal; 377777 if not given)")),
        ],
    },
    command! {
        kind: CommandKind::Sessions,
        name: "sessions",
        about: "Runs a deck in the barrel, and prints the sessions of its channels",
        long_about: "\
Runs a deck in the barrel, and prints the sessions of its channels, each from an activate to the
disconnect after it.

Reads the deck from FILE or standard input. Prints to standard output, channel by channel, a line
for each session: the turns of its activate and its disconnect (DEAD START, where it was open before
the first turn; GOING ON, where it still is), how many words were put and taken, and the word that
was put and not taken, which was LOST by the disconnect or is WAITING; and a line for each idle
stretch with function codes. Then, for each processor that the deck names or that waited at dead
start, how many of its turns MOVED it, were HELD, and found it at REST. With --words the line of a
session is followed by the words put, and that of an idle stretch by its function codes, eight a
line. Turns and counts are decimal, words octal. What goes wrong is one line on standard error.",
        example: handoff_example!("sessions --turns 40"),
        options: with_run_options![
            TURNS_OPTION,
            option!(required: false, "words", Flag("Print the words and function codes as well")),
        ],
    },
    command! {
        kind: CommandKind::Races,
        name: "races",
        about: "Runs a deck in the barrel, and says whether every order of steps ends the same",
        long_about: "\
Runs a deck in the barrel, and says whether this one run tells the result of every order of steps:
whether the processors, in whatever order they take their steps, end the same.

Reads the deck from FILE or standard input. Prints to standard output a line for each step that
may race with an event of its channel: it came after the event and would have done something else
BEFORE it, or came before and would have done something else AFTER it. The line has the turn, the
processor, P and the instruction, the channel, and the event with its turn and its processor. Then
a line for each processor that is still GOING ON, or that is HELD and would not have been BEFORE an
event; and one for each central word (CM) that was WRITTEN BY one processor and USED BY another. The
last line is SAME IN EVERY ORDER if it is the only one, NO RACE SO FAR if all others are of
processors going on, and else MAY DIFFER. What goes wrong is one line on standard error.

MAY DIFFER may stand where nothing differs: each processor is looked at with one channel at a time,
so an order that another channel or a word of memory brings about is not seen, and in a loop that
polls a channel each look counts. SAME IN EVERY ORDER never stands where something differs.",
        example: handoff_example!("races --turns 40"),
        options: RUN_OPTIONS,
    },
    command! {
        kind: CommandKind::Orders,
        name: "orders",
        about: "Lists every way in which a deck can end, over all orders of steps",
        long_about: "\
Lists every way in which a deck can end, over all orders in which its processors may take their
steps, with no regard to turns.

Reads the deck from FILE or standard input. Prints to standard output ENDINGS and how many there
are. Then for each ending a line ORDER, with an order of steps that leads into it, in the form of
--order; a line for each processor that the deck names or that waited at dead start, as it stands
after this order, with GOES ON at its end if it goes on for ever; the words of processors and of
central memory that differ from those loaded, as lines of a deck; and the state of each channel that
has a history. What goes wrong is one line on standard error.

An ending is what no order of steps leaves, and each part of which is reached from each: a machine
in which nothing can move, or one of which some processors go on for ever. To find them all, ways
in which the machine may stand are kept: its processors and memories, and the flags and the register
of each channel. If more than N would have to be, the first line ends with OR MORE, and some endings
may be missing.",
        example: handoff_example!("orders --states 1000"),
        options: &[option!(required: true, "states", Number(STATES)), PROCESSORS_OPTION],
    },
    command! {
        kind: CommandKind::Test,
        name: "test",
        about: "Runs a deck in the barrel, and says whether it came to what the deck expects",
        long_about: "\
Runs a deck in the barrel, and says whether the run came to what the deck expects, in comments that
begin with *= or *!; or says so of each way in which the deck can end, over all orders of steps.

Reads the deck from FILE or standard input. What stands after *= has to begin some line of the run,
word by word; what stands after *! must begin none. The lines of a run are those of processors and
channels that state prints; the places of the processors shown, as 'PP 0 0050 0010'; the central
words, as 'CM 20 00010002000300040005'; the events without their turns, as 'PP00 CH05 PUT 0007'; the
word or two for how the run ends, as AT REST; those that sessions --words prints; and those that
lint prints of the deck, as 'nothing found'.

Prints to standard output, for each expectation that fails, its line (decimal) and its text, and
under it the line that has the most words in front in common; then HELD and how many there are, or
FAILED and how many of how many, or 'no expectations'. The exit status is 0 after HELD, else 1. What
else goes wrong is one line on standard error.

With --every-order and --states N, in place of --turns, each ending that 'orders --states N' finds
is tested: the run of just the steps of its order. Of the first that fails its line ORDER comes
before what failed; if none does, HELD says in how many endings. OR MORE at its end says that some
endings may be missing, and the exit status is then 1, too.",
        example: example!("test --turns 40", "four.deck", "  PP 0
  0100 1405 1603 3450 0300
  START 0100
  *= PP 0 0050 0010"),
        options: with_run_options![
            option!(required: false, "turns", Number(TURNS)),
            option!(required: false, "every-order", Flag(
                "Test each ending over every order of steps, in place of a run")),
            option!(required: false, "states", Number(STATES)),
        ],
    },
    command! {
        kind: CommandKind::Draw,
        name: "draw",
        about: "Runs a deck in the barrel, and draws what happened",
        long_about: "\
Runs a deck in the barrel, and draws what happened, as an SVG for a browser.

Reads the deck from FILE or standard input. Prints to standard output a picture with a lane for each
channel that was used, where it was active and full, with its words and function codes, and with the
words that were lost; and a lane for each processor that the deck names or that waited at dead
start, where it was running, held and by which channel, in a block, stopped or at fault. Turns go
from left to right. What goes wrong is one line on standard error.

A picture has at most 2000 turns, none after those of --turns. Of a longer run, give the first turn
to draw and the one before which the picture ends: --turns 999999 --from 5000 --to 6000.",
        example: handoff_example!("draw --turns 40"),
        options: with_run_options![
            TURNS_OPTION,
            option!(required: false, "from", Number(DRAWN_FROM)),
            option!(required: false, "to", Number(TO)),
        ],
    },
    command! {
        kind: CommandKind::Check,
        name: "check",
        about: "Reads a channel trace, and says whether it is lawful",
        long_about: "\
Reads a channel trace, and says whether it is lawful: whether on each channel its events, in order,
may be those of one channel, on which in every session the words taken are the first of the words
put. No deck is read, and nothing is run.

Reads from FILE or standard input, to its end, a text in the lines that barrel or threads print,
whoever made it. Events with turns are in order of turns; events with numbers count the events of
their channel from 0, or from 1 where it was open before. Lines of processors, blank lines and
comments, from a * on, are passed over; a line that says how a channel stands has to agree with the
events before it.

Prints to standard output how many events, channels and sessions there are. Where the trace is not
lawful, nothing is printed there, and the first line at which it is not is told on standard error,
with what is wrong, as in 'ppsim: line 7: TAK 0007 on CH05, which is empty'; the exit status is 1.",
        example: example!("check", "handoff.trace", "  000000 PP00 CH05 ACN
  000020 PP00 CH05 PUT 0007
  000021 PP01 CH05 TAK 0007"),
        options: &[option!(required: false, "opened", Text("N,N,..",
            "The channels that were open before the trace (octal)"))],
    },
];

/// The commands, in the order in which help lists them.
pub fn commands() -> [CommandHelp; 16]
    ensures { map (λ help. command_of_form help.form.now) result ≡ commands }
{
    COMMANDS
}

/// The command of a name, if there is one.
pub fn command_named(name: &str) -> Option<CommandHelp>
    ensures { option_map (λ help. command_of_form help.form.now) result ≡ command_named name.now }
{
    for help in &commands() {
        if help.form.name == name {
            return Some(*help);
        }
    }
    None
}
