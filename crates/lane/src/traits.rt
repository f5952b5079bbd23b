//! What the ends of a lane promise.
ghost use Rattle.std.specs.Prelude.{◌≡◌, List, [], ◌∷◌, ◌++◌, IfErr, IfSome, IfNone, OnOk, OnErr};
ghost use Rattle.lane.specs.Lanes.{LaneId, StartsWith};

/// An item that wasn't sent, for want of memory.
#[derive(Debug, Drop)]
pub struct SendFault<T> {
    pub item: T,
}

/// Where items are sent.
pub trait Outlet<T> {
    /// Which lane it is of.
    ghost outlet: { Self → LaneId };

    /// What was sent, oldest first.
    ghost sent: { Self → List T };

    /// What this end knows of what was taken: all of it where it is the other end too, and else nothing.
    ghost left: { Self → List T };

    /// Sends the item. After a fault nothing was sent, and the fault has the item.
    fn send(&mut self, item: T) -> Result<(), SendFault<T>>
        ensures lane { outlet self.new ≡ outlet self.old }
        ensures left { left self.new ≡ left self.old }
        ensures sent { OnOk result (sent self.new ≡ sent self.old ++ item ∷ []) }
        ensures same { OnErr result (sent self.new ≡ sent self.old) }
        ensures item { IfErr result (λ fault. fault.item ≡ item) };
}

/// Where items are taken.
pub trait Inlet<T> {
    /// Which lane it is of.
    ghost inlet: { Self → LaneId };

    /// What was taken, oldest first.
    ghost got: { Self → List T };

    /// What this end knows of what was sent: all of it where it is the other end too, and else what it was told.
    ghost told: { Self → List T };

    /// Takes the next item. `None` comes only where all that this end knows of was taken. It takes no memory.
    fn take(&mut self) -> Option<T>
        ensures lane { inlet self.new ≡ inlet self.old }
        ensures told { told self.new ≡ told self.old }
        ensures some { IfSome result (λ item. got self.new ≡ got self.old ++ item ∷ []) }
        ensures none { IfNone result ((got self.new ≡ got self.old) × StartsWith (got self.old) (told self.old)) };
}
