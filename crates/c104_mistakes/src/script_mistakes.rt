//! What is wrong with a line of a script, or what was wanted there: a sentence for each.

pub(crate) const LINE_TOO_LONG: &str = "a line has at most 16384 bytes";

pub(crate) const DESCRIPTIONS_WORD: &str =
    "this is a word of descriptions; the description ends before the line `script`";

pub(crate) const SCRIPT_BEGAN: &str = "the script has begun already";

pub(crate) const NO_WORD: &str = "no line of a script begins with this word; see `c104 run --help`";

pub(crate) const NO_WORD_ASKED: &str = "no line begins with this word; `help` lists those that do";

pub(crate) const SEND_LINE: &str =
    "the line is `send TERMINAL to TERMINAL BYTES`, as `send a to b 68 eop`, or as `send a 01 68 eop`";

pub(crate) const DRAIN_LINE: &str = "the line is `drain TERMINAL`";

pub(crate) const CROSS_LINE: &str = "the line is `cross TERMINAL` or `cross SWITCH.LINK`";

pub(crate) const CREDIT_LINE: &str = "the line is `credit TERMINAL` or `credit SWITCH.LINK`";

pub(crate) const INPUT_LINE: &str =
    "the line is `input SWITCH.LINK`, followed by an optional number, which picks a random header";

pub(crate) const CLAIM_LINE: &str = "the line is `claim SWITCH INPUT OUTPUT`, as `claim A 0 1`";

pub(crate) const CONTROL_LINE: &str = "the line is `control SWITCH`, followed by at most 8 bytes";

pub(crate) const ROUNDS_LINE: &str =
    "the line is `rounds COUNT`, followed by an optional `fair`, and by an optional `seed NUMBER`";

pub(crate) const SETTLE_LINE: &str = "the line is `settle` alone";

pub(crate) const PEEK_LINE: &str =
    "the line is `peek SWITCH ADDRESS`, as `peek A 0140`, or by name, as `peek A.0 limit 0`";

pub(crate) const POKE_LINE: &str =
    "the line is `poke SWITCH ADDRESS VALUE`, as `poke A 0140 5`, or by name, as `poke A.0 limit 0 5`";

pub(crate) const LINK_LINE: &str = "the line is `link SWITCH.LINK`";

pub(crate) const TABLE_LINE: &str = "the line is `table SWITCH.LINK`";

pub(crate) const VERIFY_LINE: &str = "the line is `verify` or `verify all`";

pub(crate) const DUMP_LINE: &str = "the line is `dump SWITCH`";

pub(crate) const NO_PORT: &str = "a port has one dot, as A.0";

/// Told of a word that is no number.
pub const NO_NUMBER: &str = "a number is 1 to 7 decimal digits";

pub(crate) const NO_ROUNDS: &str = "the count of rounds is 1 to 10000";

pub(crate) const NO_SEED: &str = "a seed is 1 to 20 decimal digits, at most 18446744073709551615";

pub(crate) const NO_TOKEN: &str =
    "a byte of a packet is two hexadecimal digits, 00 to ff, and its end is `eop` or `eom`";

pub(crate) const NO_TYPED: &str =
    "behind the receiver stand bytes, texts in quotes, `length` and a number, and `eop` or `eom`";

pub(crate) const OPEN_TEXT: &str = "a text goes on up to a word that ends in a double quote";

pub(crate) const NO_LABEL: &str =
    "the first label of this terminal is 256 or more, and headers have one byte";

pub(crate) const NO_BYTE: &str = "a byte is two hexadecimal digits, 00 to ff";

pub(crate) const NO_ADDRESS: &str = "a register is a name or 1 to 4 hexadecimal digits";

pub(crate) const NO_ROW: &str = "the number of a row is 0 to 35";

pub(crate) const NO_VALUE: &str = "a value is 1 to 8 hexadecimal digits";

pub(crate) const NO_END: &str = "a packet ends with `eop` or `eom`";

pub(crate) const AFTER_END: &str =
    "a packet ends at its first `eop` or `eom`, and a line sends one packet";

pub(crate) const PACKET_TOO_LONG: &str = "a packet has at most 4096 bytes";

/// Told of a name that nothing has.
pub const NO_NODE: &str = "the description defines no such name";

/// Told of a terminal that is named with a link.
pub const TERMINALS_LINK: &str = "a terminal is named without a link";

pub(crate) const SWITCHS_LINK: &str = "the switch is named without a link here";

pub(crate) const LINK_MISSING: &str =
    "a link is wanted here: the switch, a dot and 0 to 31, as A.0";

pub(crate) const NO_INPUT: &str = "inputs and outputs are 0 to 31";

pub(crate) const NOT_WIRED: &str = "the link has neither a terminal nor a wire";

pub(crate) const OUTBOX_FULL: &str =
    "at most 65536 tokens wait at a terminal; give them rounds before more is sent";

pub(crate) const INBOX_FULL: &str = "262144 tokens have arrived at a terminal, the most it takes";

pub(crate) const TRACE_FULL: &str = "a switch or a terminal would do more than 1048576 acts";

pub(crate) const NO_REGISTER: &str = "no register has this address";

pub(crate) const READ_ONLY: &str = "the register tells what the switch does, and can't be set";

pub(crate) const MODE_RANGE: &str = "the register Mode takes 0 to f (hexadecimal)";

pub(crate) const RANDOM_BASE_RANGE: &str = "the register RandomBase takes 0 to ffff (hexadecimal)";

pub(crate) const RANDOM_RANGE_RANGE: &str =
    "the register RandomRange takes 0 to 10000 (hexadecimal)";

pub(crate) const BASE_RANGE: &str = "the register Base takes 0 to ffff (hexadecimal)";

pub(crate) const LIMIT_RANGE: &str = "a register Limit takes 0 to 10000 (hexadecimal)";

pub(crate) const SELECT_RANGE: &str =
    "a register Select takes a link, 0 to 1f, or 20 to discard, or 40 to sink (hexadecimal)";

pub(crate) const BUSY: &str =
    "the mode of a link can't change while a packet is on its way through the link";

pub(crate) const NO_COMMAND: &str =
    "a command begins with 01 to start, 02 to reset, 03 to identify, 04 to peek or 05 to poke";

pub(crate) const COMMAND_LENGTH: &str =
    "01, 02 and 03 stand alone; 04 has an address of 2 bytes, and 05 a value of 4 too, low byte first";

pub(crate) const STARTED: &str = "the switch is started already";
