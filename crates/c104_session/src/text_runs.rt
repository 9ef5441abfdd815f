//! How a command ends that writes one text of a script's run, or of the network after it.
ghost use Rattle.std.specs.Prelude.{ℕ, ◌≡◌, ◌≢◌};
ghost use Rattle.c104_session.specs.TextRuns.{WritesRunText};
ghost use Rattle.c104_setup.specs.declared.status.Status.TheVariants as status;

use c104_setup::Status;
use c104_stream::write_whole;
use std::io::Write;

/// What is written of a run.
#[derive(Drop)]
pub struct RunText {
    /// The text.
    pub text: String,
    /// Whether the run is refused: its script, or what was asked for of it.
    pub is_refused: bool,
}

/// Writes the text of a run, which is refused or not.
pub fn write_run<W: Write>(text: &[u8], is_refused: bool, writer: &mut W) -> Status
    ensures written { WritesRunText text.now is_refused
        (W.contents writer.old) (W.contents writer.new) result }
    ensures of_writer { (n : ℕ) → result ≢ status.CannotRead n }
{
    let Ok(()) = write_whole(writer, text) else {
        return Status::CannotWrite;
    };
    if is_refused {
        Status::Refused
    } else {
        Status::Done
    }
}
