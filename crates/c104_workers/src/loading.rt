//! A fabric is loaded through a seat, and compared with an image.
ghost use Rattle.std.specs.Prelude.{Err, IfErr, length, ◌↔◌, ◌≡◌, ◌≢◌};
ghost use Rattle.c104_tools.specs.{Loads.{load_list, verify_list}, Outcomes.{Outcome, any_value, due_value_only, nothing_made}};
ghost use Rattle.c104_tools.specs.declared.faults.LoadFault.TheVariants as fault;
ghost use Rattle.c104_workers.specs.SeatCommands.{HasMoreCalls, IsLeftUnanswered, SeatCommanded};

use crate::fabric::Fabric;
use crate::naming::Naming;
use crate::ports::FabricPort;
use crate::seats::Seat;
use c104_plan::Image;
use c104_tools::{LoadFault, load, verify};
use std::sync::Wait;

impl<N: Naming> Fabric<N> {
    /// Loads an image into the switches through a seat, as c104_tools' `load` does over a port: each is reset, then all that
    /// the image keeps is poked, and then each is started. The seat stays one of the fabric, with a call more for each command
    /// that was answered.
    ///
    /// NoSwitch where the image is of another number of switches; Refused and BadReply where a switch answers so, and Port
    /// where it isn't ready for a command, or a trace or the seat's list is full, or when out of memory. Then nothing more is
    /// asked, and what was done stays.
    pub fn load<R: Wait>(&self, rt: &R, seat: &mut Seat, image: &Image) -> Result<(), LoadFault>
        requires word { seat.old.0.word_id ≡ self.now.word_id }
        ensures unfitting { (result ≡ Err fault.NoSwitch) ↔ (length self.now.handed.plan.switches ≢ length image.now.settings) }
        ensures not_asked { length self.now.handed.plan.switches ≢ length image.now.settings → seat.new.0 ≡ seat.old.0 }
        ensures asked { length self.now.handed.plan.switches ≡ length image.now.settings →
            Outcome (SeatCommanded self.now) any_value nothing_made seat.old.0 (load_list image.now.settings) result seat.new.0 }
        ensures left { length self.now.handed.plan.switches ≡ length image.now.settings →
            IfErr result (IsLeftUnanswered self.now) }
        ensures grew { HasMoreCalls seat.old.0 seat.new.0 }
    {
        let mut port = FabricPort {
            rt,
            fabric: self,
            seat,
        };
        load(&mut port, image)
    }

    /// Sees whether an image is loaded, by what is read through a seat, as c104_tools' `verify` does over a port. The seat stays
    /// one of the fabric, with a call more for each register that was read.
    ///
    /// NoSwitch where the image is of another number of switches; Differs of the first register that reads another value; Refused,
    /// BadReply and Port as for `load`. Nothing is read after that.
    pub fn verify<R: Wait>(&self, rt: &R, seat: &mut Seat, image: &Image) -> Result<(), LoadFault>
        requires word { seat.old.0.word_id ≡ self.now.word_id }
        ensures unfitting { (result ≡ Err fault.NoSwitch) ↔ (length self.now.handed.plan.switches ≢ length image.now.settings) }
        ensures not_asked { length self.now.handed.plan.switches ≢ length image.now.settings → seat.new.0 ≡ seat.old.0 }
        ensures asked { length self.now.handed.plan.switches ≡ length image.now.settings →
            Outcome (SeatCommanded self.now) due_value_only nothing_made seat.old.0 (verify_list image.now.settings) result seat.new.0 }
        ensures grew { HasMoreCalls seat.old.0 seat.new.0 }
    {
        let mut port = FabricPort {
            rt,
            fabric: self,
            seat,
        };
        verify(&mut port, image)
    }
}
