ghost use Rattle.std.specs.Prelude.{◌≡◌};

use c104_interval::Table;

/// What is set at one link. The header length, random headers and the table belong to the input
/// side of the link, deletion and the group to the output side.
#[derive(Clone, Copy, Debug, PartialEq, Eq)]
pub struct Settings {
    /// Headers have two bytes, low byte first, and not one.
    pub two_byte: bool,
    /// The header of each packet that leaves by this link is deleted.
    pub delete_header: bool,
    /// A random header is put before each packet that comes in by this link and begins with a byte.
    pub randomize: bool,
    /// This link continues the group of the link before it. At link 0 it has no effect.
    pub continue_group: bool,
    /// Where the random headers begin, 0 to 65535. They are taken modulo 256 or 65536, by the
    /// header length.
    pub random_base: u32,
    /// How many numbers from the base on a word can pick, 0 to 65536; at 0 the base alone.
    pub random_range: u32,
    /// What a header selects.
    pub table: Table,
}

impl Settings {
    ghost use Rattle.c104_regs.specs.Settings.{plain_settings};

    /// One-byte headers, nothing deleted, no random headers, a group by itself, and this table.
    pub fn plain(table: Table) -> Self
        ensures { result ≡ plain_settings table }
    {
        Settings {
            two_byte: false,
            delete_header: false,
            randomize: false,
            continue_group: false,
            random_base: 0,
            random_range: 0,
            table,
        }
    }
}
