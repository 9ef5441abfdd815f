//! What arrived in a network of tagged tokens.
ghost use Rattle.std.specs.{Global.Vec as Kept, Prelude.{IfOk, option_map, ◌≡◌}};
ghost use Rattle.c104_run.specs.{Finished.run_arrived, FinishedRecords.record_finish, Network.network_arrived};
ghost use Rattle.c104_token.specs.declared.tokens.Token.{Token as TheToken};

use super::TracedNet;
use c104_token::{NoMemory, Token};
use std::alloc::Global;

impl TracedNet {
    /// The tokens that arrived at a terminal since the start, in order, without where they came from. None where the
    /// plan has no such terminal. The only error is out of memory.
    pub fn arrived(&self, alloc: Global, terminal: usize) -> Result<Option<Vec<Token>>, NoMemory>
        ensures arrived { IfOk result (λ list. option_map (λ (l : Kept TheToken). l.items) list
            ≡ network_arrived self.now.network terminal) }
        ensures finished { IfOk result (λ list. option_map (λ (l : Kept TheToken). l.items) list
            ≡ run_arrived (record_finish self.now).finished terminal) }
    {
        match self.engine.arrived(terminal) {
            Some(tokens) => {
                let list = tokens.plain_list(alloc)?;
                Ok(Some(list))
            }
            None => Ok(None),
        }
    }
}
