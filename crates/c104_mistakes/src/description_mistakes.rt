//! What is wrong with a line of a description, or what was wanted there: a sentence for each.

pub(crate) const TOO_LONG: &str = "a description has at most 1048576 bytes";

pub(crate) const SCRIPTS_WORD: &str =
    "this is a word of scripts; a line `script` begins the script, or it is a file of its own";

pub(crate) const SCRIPT_BEGINS: &str =
    "this is to be a description alone; `c104 run` takes one with its script";

pub(crate) const SCRIPT_LINE: &str =
    "the line before a script has one word, `script`, and nothing after it";

pub(crate) const NO_WORD: &str =
    "no line of a description begins with this word; see `c104 run --help`";

pub(crate) const SWITCH_LINE: &str = "the line is `switch NAME`";

pub(crate) const TERMINAL_LINE: &str =
    "the line is `terminal NAME SWITCH.LINK [labels COUNT] [from FIRST]`";

pub(crate) const WIRE_LINE: &str = "the line is `wire SWITCH.LINK SWITCH.LINK`";

pub(crate) const HEADER_LINE: &str = "the line is `header 1` or `header 2`";

pub(crate) const BUFFER_LINE: &str = "the line is `buffer SIZE`";

pub(crate) const CONTINUE_LINE: &str = "the line is `continue SWITCH.LINK`";

pub(crate) const DELETE_LINE: &str = "the line is `delete TERMINAL`";

pub(crate) const BASE_LINE: &str = "the line is `base SWITCH.LINK FIRST` or `base SWITCH FIRST`";

pub(crate) const ROW_LINE: &str =
    "the line is `row SWITCH.LINK LIMIT SELECT` or `row SWITCH LIMIT SELECT`";

pub(crate) const RANDOM_LINE: &str = "the line is `random SWITCH.LINK BASE RANGE`";

pub(crate) const LABEL_LINE: &str =
    "the line is `label tree SWITCH`, `label up-down SWITCH` or `label up-down`";

pub(crate) const MESH_LINE: &str = "the line is `mesh COLUMNS ROWS TERMINALS [WIRES]`";

pub(crate) const CUBE_LINE: &str = "the line is `cube DIMENSIONS TERMINALS [WIRES]`";

pub(crate) const TORUS_LINE: &str = "the line is `torus COLUMNS ROWS TERMINALS [WIRES]`";

pub(crate) const CLOS_LINE: &str = "the line is `clos LEAVES SPINES TERMINALS [WIRES]`";

pub(crate) const NO_PORT: &str = "a port is the name of a switch, a dot and a link, as A.0";

pub(crate) const NO_CONTINUING: &str =
    "a link that continues the group of the link before it is 1 to 31";

pub(crate) const NO_COUNT: &str = "a terminal has 1 to 65536 labels";

pub(crate) const NO_FIRST: &str = "the first label is 0 to 65535";

pub(crate) const NO_HEADER: &str = "a header has 1 or 2 bytes";

pub(crate) const NO_BUFFER: &str = "a buffer has room for 8, 16, 24, 32, 40, 48, 56 or 64 tokens";

pub(crate) const NO_BASE: &str = "a base is 0 to 65535";

pub(crate) const NO_LIMIT: &str = "a limit is 0 to 65536";

pub(crate) const NO_SELECT: &str = "a row selects a link, 0 to 31, `discard` or `sink`";

pub(crate) const NO_RANDOM_BASE: &str = "random headers begin at 0 to 65535";

pub(crate) const NO_RANDOM_RANGE: &str =
    "the range of random headers is 0 to 65536, and at 0 the base alone is one";

/// The least and the most of each number of a line `mesh`, in order, and what is told where it is another.
pub(crate) const MESH_NUMBERS: [(u32, u32, &str); 4] = [
    (1, 64, "a mesh has 1 to 64 columns"),
    (1, 64, "a mesh has 1 to 64 rows"),
    (1, 28, "a mesh has 1 to 28 terminals at each switch"),
    (
        2,
        7,
        "a mesh has 2 to 7 wires to each neighbour, if that is said",
    ),
];

/// The same of a line `cube`.
pub(crate) const CUBE_NUMBERS: [(u32, u32, &str); 3] = [
    (0, 6, "a cube has 0 to 6 dimensions"),
    (1, 26, "a cube has 1 to 26 terminals at each switch"),
    (
        2,
        31,
        "a cube has 2 to 31 wires to each neighbour, if that is said",
    ),
];

/// The same of a line `torus`.
pub(crate) const TORUS_NUMBERS: [(u32, u32, &str); 4] = [
    (1, 64, "a torus has 1 to 64 columns"),
    (1, 64, "a torus has 1 to 64 rows"),
    (1, 24, "a torus has 1 to 24 terminals at each switch"),
    (
        1,
        3,
        "a torus has 1 to 3 wires in each of the two groups to a neighbour",
    ),
];

/// The same of a line `clos`.
pub(crate) const CLOS_NUMBERS: [(u32, u32, &str); 4] = [
    (1, 32, "a folded Clos network has 1 to 32 leaves"),
    (1, 31, "a folded Clos network has 1 to 31 spines"),
    (
        1,
        31,
        "a folded Clos network has 1 to 31 terminals at each leaf",
    ),
    (
        1,
        31,
        "a folded Clos network has 1 to 31 wires from each leaf to each spine",
    ),
];

pub(crate) const NO_NAME: &str =
    "a name is a letter and then letters, digits, `_` and `-`, at most 32 in all";

pub(crate) const NAME_TAKEN: &str = "a switch or a terminal has this name already";

pub(crate) const NO_SWITCH: &str = "no earlier line defines a switch of this name";

pub(crate) const NO_TERMINAL: &str = "no earlier line defines a terminal of this name";

pub(crate) const SELF_WIRE: &str =
    "a wire joins two switches, and both its ends are at the same one";

pub(crate) const TERMINAL_THERE: &str = "the link has a terminal already";

pub(crate) const WIRE_THERE: &str = "the link has a wire already";

pub(crate) const SWITCHES: &str = "there are at most 64 switches";

pub(crate) const TERMINALS: &str = "there are at most 256 terminals";

pub(crate) const LABELS: &str =
    "labels end at 65535 at most; without `from` they begin where those of the terminal before end";

pub(crate) const ROWS: &str = "a table has at most 36 rows";

pub(crate) const SIZES: &str =
    "there are at most 64 switches and 256 terminals, and 32 links at a switch";

pub(crate) const TWICE: &str = "already given by an earlier line";

pub(crate) const RANDOM_TWICE: &str =
    "an input has one `random` line, already given by an earlier line";

pub(crate) const MIXED_LABEL: &str =
    "`label` goes with no `row`, `base`, `random` or `from`, and `label tree` with no `continue`";

pub(crate) const MIXED_CONTINUE: &str =
    "this goes with no earlier `label tree`, `mesh`, `cube`, `torus` or `clos`";

pub(crate) const MIXED_ROW: &str =
    "this goes with no earlier `label`, `mesh`, `cube`, `torus` or `clos`";

pub(crate) const MIXED_SHAPE: &str =
    "`mesh`, `cube`, `torus` and `clos` go with `header`, `buffer` and `delete` alone";
