//! Appending what was taken.
ghost use Rattle.std.specs.Prelude.{◌≡◌, ◌≢◌, ◌==◌, not, nat_lt};
ghost use Rattle.output_gate.specs.Ended.{late_if};
ghost use Rattle.timeline.specs.declared.notice.Stepped.TheVariants.{Did, Nothing};
ghost use Rattle.output_gate.specs.Serving.{CanServe, KeepsBack, is_stopped, CanLand, Lands, CanStop, Stops};
ghost use Rattle.output_gate.specs.Flushing.{Flushes};
ghost use Rattle.output_gate.specs.Storing.{KeepsLimit, KeepsTelling};

use crate::back::{Back, Ending, Mode};
use crate::held::discard_all;
use crate::store::Fault;
use do_disk::Disk;
use timeline::{Stepped, Stop};

impl<D: Disk> Back<D> {
    /// Appends all batches that were taken since the last append as one flight. Where the append fails or is full, the
    /// incarnation ends. It takes no memory, and serves on where the back is stopped.
    pub fn flush(&mut self) -> Stepped
        requires { CanServe D.moment_of D.left_since D.told D.image D.faults_of self.old }
        ensures nothing { self.old.before ≡ self.old.durable → (result ≡ Nothing) × (self.new ≡ self.old) }
        ensures flushed { self.old.before ≢ self.old.durable → (result ≡ Did) × Flushes D.faults_of self.old self.new }
        ensures tells { KeepsTelling D.told self.old.store self.new.store }
        ensures limit { KeepsLimit self.old.store self.new.store }
        ensures stopped { is_stopped self.new ≡ is_stopped self.old }
        ensures back { KeepsBack D.moment_of D.left_since D.told D.image D.faults_of self.old self.new }
    {
        if self.before == self.durable {
            return Stepped::Nothing;
        }
        match self.store.append(&mut self.cache) {
            Ok(()) => self.land(),
            Err(fault) => self.stop(fault),
        }
        Stepped::Did
    }

    /// Whether batches were taken that no flush has made durable.
    pub fn has_unflushed(&self) -> bool
        ensures { result ≡ not (self.now.before == self.now.durable) }
    {
        self.before != self.durable
    }

    // The append wrote all that was staged.
    fn land(&mut self)
        requires { CanLand self.old }
        ensures { Lands self.old self.new }
    {
        self.log.flights.push(self.before - self.durable).unwrap();
        self.durable = self.before;
        self.unflushed = 0;
    }

    // The append wrote nothing, or it isn't known what it wrote.
    fn stop(&mut self, fault: Fault)
        requires { CanStop self.old }
        ensures { Stops self.old self.new fault }
    {
        let Fault { cause, end } = fault;
        self.late = self.late_needs();
        let flights = self.log.flights.as_slice().len() as u64;
        let stop = Stop {
            cause,
            flights,
            batches: self.own,
            read: false,
        };
        self.log.stops.push(stop).unwrap();
        discard_all(&mut self.held, self.durable, self.number, cause);
        let ending = Ending {
            cause,
            end,
            flown: self.own - (self.before - self.durable),
            whole: self.own,
        };
        self.mode = Mode::Wanted(ending);
        self.settled = self.durable;
        self.before = self.durable;
        self.needs = self.durable;
        self.own = 0;
        self.unflushed = 0;
        self.number += 1;
    }

    // What a message behind the end of this incarnation needs, where it still passes.
    fn late_needs(&self) -> Option<u64>
        ensures { result ≡ late_if (nat_lt self.now.durable self.now.needs) self.now.needs }
    {
        if self.durable < self.needs {
            None
        } else {
            Some(self.needs)
        }
    }
}
