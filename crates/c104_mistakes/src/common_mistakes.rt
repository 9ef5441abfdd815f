//! What is wrong with a line of a description or of a script alike, or what was wanted there: a sentence for each.

pub(crate) const BYTE_ORDER_MARK: &str =
    "the text begins with a byte order mark; save it without one";

pub(crate) const WRONG_BYTE: &str =
    "outside of a comment a byte is printable ASCII, a space, a tab or a carriage return";

/// Told of a number that is no link.
pub const NO_LINK: &str = "a link is 0 to 31";

pub(crate) const NOT_A_SWITCH: &str = "this is a terminal, and a switch is wanted";

/// Told of the name of a switch where a terminal is wanted.
pub const NOT_A_TERMINAL: &str = "this is a switch, and a terminal is wanted";
