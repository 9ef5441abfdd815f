//! What is set at one link, packed into words.
ghost use Rattle.std.specs.Prelude.{All, IsTrue, map, replicate, true, ◌*◌, ◌<◌, ◌≡◌};
ghost use Rattle.c104_interval.specs.{Selection.{IsSelected, row_at, select}, declared.intervals.TheConstants.ROWS};
ghost use Rattle.c104_regs.specs.{Addresses.{IsRegister, register_takes}, Packed.{IsPackable, first_above, row_of_word, word_of_row}};
ghost use Rattle.c104_regs.specs.{Ranges.IsInRange, Settings.{header_length, reset_settings}, Values.{mode_of, select_code, select_of}};
ghost use Rattle.c104_regs.specs.Values.{with_value};

use crate::addresses::Register;
use crate::settings::Settings;
use crate::values::{SINK_CODE, select_code, select_of};
use c104_interval::{ROWS, Row, Select, Table};
use std::marker::Model;

/// How many numbers a base can be: it has 16 bits of its word.
pub(crate) const BASES: u32 = 0x1_0000;

/// How many numbers there are of the 17 bits of a word that hold a limit or a range.
pub(crate) const LIMITS: u32 = 0x2_0000;

/// What is set at one link, within the ranges of its registers, as a switch keeps it: in 152 bytes.
/// To a reader it is as `Settings` are.
// The links that continue a group are kept as a word besides, since each claim asks it.
#[derive(Clone, Copy)]
pub struct PackedSettings {
    // Where the first row's interval begins in bits 0 to 15, and the random headers in 16 to 31.
    bases: u32,
    // How many random headers there are in bits 0 to 16, and the mode in 17 to 20.
    modes: u32,
    // Of each row the limit in bits 0 to 16, and the number of what it selects in 17 to 23.
    rows: [u32; ROWS],
}

impl Model for PackedSettings {
    ghost use Rattle.c104_regs.specs.Settings.{Settings as TheSettings};

    ghost Value = { TheSettings };

    ghost use Rattle.c104_regs.specs.{Packed.{ArePacked, packed, unpacked}, PackedWords.packed-unpacked};

    ghost view = { unpacked };

    ghost invariant = { ArePacked };

    ghost inverse = { packed };

    ghost inverse_ok = { packed-unpacked };
}

impl PackedSettings {
    /// The settings after a reset.
    pub(crate) fn reset() -> Self
        ensures { result ≡ reset_settings }
    {
        PackedSettings {
            bases: 0,
            modes: 0,
            rows: [LIMITS * SINK_CODE; ROWS],
        }
    }

    /// Whether these are the settings after a reset. False may be said of some that are.
    pub(crate) fn is_reset(&self) -> bool
        ensures { result ≡ true → self.now ≡ reset_settings }
    {
        self.bases == 0 && self.modes == 0 && are_reset(&self.rows)
    }

    /// These settings, packed.
    pub fn pack(settings: &Settings) -> Self
        requires { IsInRange settings.now }
        ensures { result ≡ settings.now }
    {
        PackedSettings {
            bases: settings.table.base + BASES * settings.random_base,
            modes: settings.random_range + LIMITS * settings.mode(),
            rows: packed_rows(&settings.table.rows),
        }
    }

    /// Whether headers have two bytes, low byte first, and not one.
    pub fn two_byte(&self) -> bool
        ensures { result ≡ self.now.two_byte }
    {
        self.modes / LIMITS % 2 == 1
    }

    /// How many bytes the headers at this link have: 1 or 2.
    pub fn header_length(&self) -> usize
        ensures { result ≡ header_length self.now }
    {
        if self.two_byte() { 2 } else { 1 }
    }

    /// Whether the header of each packet that leaves by this link is deleted.
    pub fn delete_header(&self) -> bool
        ensures { result ≡ self.now.delete_header }
    {
        self.modes / LIMITS / 2 % 2 == 1
    }

    /// Whether a random header is put before each packet that comes in by this link and begins with
    /// a byte.
    pub fn randomize(&self) -> bool
        ensures { result ≡ self.now.randomize }
    {
        self.modes / LIMITS / 4 % 2 == 1
    }

    /// Whether this link continues the group of the link before it. At link 0 it has no effect.
    pub fn continue_group(&self) -> bool
        ensures { result ≡ self.now.continue_group }
    {
        self.modes / LIMITS / 8 % 2 == 1
    }

    /// Where the random headers begin, 0 to 65535. They are taken modulo 256 or 65536, by the
    /// header length.
    pub fn random_base(&self) -> u32
        ensures { result ≡ self.now.random_base }
    {
        self.bases / BASES
    }

    /// How many numbers from the base on a word can pick, 0 to 65536; at 0 the base alone.
    pub fn random_range(&self) -> u32
        ensures { result ≡ self.now.random_range }
    {
        self.modes % LIMITS
    }

    /// What a header selects: what the first row that covers it says, and the sink where no row
    /// does. A header is 0 to 255 where it is one byte and 0 to 65535 where it is two; any
    /// number may be asked.
    // What the caller does by it is done at once, so this is inlined.
    #[inline(always)]
    pub fn select(&self, header: u32) -> Select
        ensures first_covering { IsSelected self.now.table header result }
        ensures computed { result ≡ select self.now.table header }
    {
        select_of(self.code(header))
    }

    /// The number of what a header selects.
    fn code(&self, header: u32) -> u32
        ensures { select_of result ≡ select self.now.table header }
    {
        // A row's interval begins where the one before ends. So once a header is at or past the
        // beginning of a row, the first limit above it ends the interval that has it.
        if self.bases % BASES <= header {
            return code_above(&self.rows, header);
        }
        for row in 0..ROWS {
            if self.rows[row] % LIMITS <= header {
                return code_above(&self.rows[row + 1..], header);
            }
        }
        SINK_CODE
    }

    /// The interval table of the link's input.
    pub fn table(&self) -> Table
        ensures { result ≡ self.now.table }
    {
        Table {
            base: self.bases % BASES,
            rows: unpacked_rows(&self.rows),
        }
    }

    /// The four bits of the mode.
    pub(crate) fn mode(&self) -> u32
        ensures { result ≡ mode_of self.now }
    {
        self.modes / LIMITS
    }

    /// Where the first row's interval begins.
    pub(crate) fn base(&self) -> u32
        ensures { result ≡ self.now.table.base }
    {
        self.bases % BASES
    }

    /// Where the interval of a row ends.
    pub(crate) fn limit(&self, row: usize) -> u32
        requires { row < ROWS }
        ensures { result ≡ (row_at self.now.table row).limit }
    {
        self.rows[row] % LIMITS
    }

    /// The number of what a row selects.
    pub(crate) fn select_code(&self, row: usize) -> u32
        requires { row < ROWS }
        ensures { result ≡ select_code (row_at self.now.table row).select }
    {
        self.rows[row] / LIMITS
    }

    /// Sets the register. One that tells the status sets nothing.
    pub(crate) fn set(&mut self, register: Register, value: u32)
        requires register { IsRegister register }
        requires takes { IsTrue (register_takes register value) }
        ensures { self.new ≡ with_value self.old register value }
    {
        match register {
            Register::Mode => self.modes = self.modes % LIMITS + LIMITS * value,
            Register::RandomBase => self.bases = self.bases % BASES + BASES * value,
            Register::RandomRange => self.modes = self.modes / LIMITS * LIMITS + value,
            Register::Base => self.bases = self.bases / BASES * BASES + value,
            Register::Limit(k) => self.rows[k] = self.rows[k] / LIMITS * LIMITS + value,
            Register::Select(k) => self.rows[k] = self.rows[k] % LIMITS + LIMITS * value,
            _ => {}
        }
    }
}

/// The number of what the first of these rows selects whose limit is above a header, and the sink's
/// where none is.
fn code_above(words: &[u32], header: u32) -> u32
    ensures { select_of result ≡ first_above (map row_of_word words.now) header }
{
    for word in words {
        if header < *word % LIMITS {
            return *word / LIMITS;
        }
    }
    SINK_CODE
}

/// Whether these are the words of rows after a reset.
fn are_reset(words: &[u32; ROWS]) -> bool
    ensures { result ≡ true → words.now ≡ replicate ROWS (LIMITS * SINK_CODE) }
{
    for k in 0..ROWS {
        if words[k] != LIMITS * SINK_CODE {
            return false;
        }
    }
    true
}

/// The words of a table's rows.
fn packed_rows(rows: &[Row; ROWS]) -> [u32; ROWS]
    requires { All IsPackable rows.now }
    ensures { result ≡ map word_of_row rows.now }
{
    let mut words = [0; ROWS];
    for k in 0..ROWS {
        words[k] = word_of_row(rows[k]);
    }
    words
}

/// The word of a row.
fn word_of_row(row: Row) -> u32
    requires { IsPackable row }
    ensures { result ≡ word_of_row row }
{
    row.limit + LIMITS * select_code(row.select)
}

/// The rows of words.
fn unpacked_rows(words: &[u32; ROWS]) -> [Row; ROWS]
    ensures { result ≡ map row_of_word words.now }
{
    let mut rows = [Row::RESET; ROWS];
    for k in 0..ROWS {
        rows[k] = row_of_word(words[k]);
    }
    rows
}

/// The row of a word.
fn row_of_word(word: u32) -> Row
    ensures { result ≡ row_of_word word }
{
    Row {
        limit: word % LIMITS,
        select: select_of(word / LIMITS),
    }
}
