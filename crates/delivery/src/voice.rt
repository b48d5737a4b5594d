//! What a run says.
ghost use Rattle.delivery.specs.Deeds.{Deed};

use std::fmt::Display;

/// Those to whom a run speaks.
pub trait Voice {
    /// What a deed makes of them: from what they were to what they are.
    ghost does: { Self → Deed → Self → Type 0 };

    /// Says what went wrong, and ends with this exit status.
    fn refuse<M: Display>(&mut self, status: u8, message: &M)
        ensures { does self.old (Deed.refused status (M.output message.now)) self.new };

    /// Says what a user should know.
    fn remark<M: Display>(&mut self, message: &M)
        ensures { does self.old (Deed.remarked (M.output message.now)) self.new };
}
