//! A turn of an input.
ghost use Rattle.std.specs.Prelude.{List, None, ◌≡◌};
ghost use Rattle.{c104_link.specs.Buffers.Outgoing, c104_switch.specs.{Holding.claim_of, Turns.IsTurnAt}};

use super::InputsOf;
use crate::input::Turn;
use crate::outputs::OutputsOf;
use c104_regs::PackedSettings;
use c104_token::TokenKind;

impl<T: TokenKind> InputsOf<T> {
    /// A turn of an input, as its link's settings say. A terminator that ends a stream frees its
    /// output. False where the input isn't ready, and then nothing changes.
    // Nearly all turns are of packets that stream: so these are inlined and ask no settings, and any other takes a call,
    // which is cold so that the compiler inlines what streaming calls.
    #[inline(always)]
    pub fn turn(
        &mut self,
        link: usize,
        settings: &PackedSettings,
        word: u32,
        outputs: &mut OutputsOf<T>,
    ) -> bool
        ensures { IsTurnAt T.kind settings.now word link
            self.old outputs.old result self.new outputs.new }
    {
        let list = &mut self.list;
        if link >= list.len() {
            return false;
        }
        let input = &mut list[link];
        let Some(output) = input.streams_to() else {
            return self.turn_called(link, settings, word);
        };
        match input.stream(output, outputs) {
            Turn::NotReady => false,
            Turn::Streamed => {
                self.sets.keep_streamed(link, input);
                true
            }
            Turn::Freed(claim) => {
                self.sets.keep(link, input);
                self.owners[claim.output()] = None;
                self.crossbar.release(claim);
                true
            }
        }
    }

    /// The same of an input that streams to no output.
    #[cold]
    #[inline(never)]
    fn turn_called(&mut self, link: usize, settings: &PackedSettings, word: u32) -> bool
        requires { claim_of self.old link ≡ None }
        ensures { (outputs : List (Outgoing T)) → IsTurnAt T.kind settings.now word link
            self.old outputs result self.new outputs }
    {
        let list = &mut self.list;
        if link >= list.len() {
            return false;
        }
        let input = &mut list[link];
        let is_done = input.turn(settings, word);
        self.sets.keep(link, input);
        is_done
    }
}
