ghost use Rattle.std.specs.Prelude.{Some};
ghost use Rattle.sw_core.specs.Worlds.{AllMayStand};

use sw_hashpath::Secrets;
use sw_objdir::ObjDir;
use sw_volume::Volume;

/// The place of one object lock.
#[derive(Drop)]
pub enum Slot<V: Volume + Drop> {
    /// Its object directory.
    Open(ObjDir<V>),
    /// Its volume is out. The secrets stay, so that the directory that begins anew takes no memory for them.
    Lifted(Secrets),
    /// Nothing, while a directory is taken out or put in.
    Empty,
}

impl<V: Volume + Drop> Slot<V> {
    /// Each hash holds here what it may stand for. It does nothing: its clause tells it.
    pub fn may_stand(&self)
        ensures { AllMayStand V.tells V.holds V.faults (Some self.now) }
    {
        if let Slot::Open(dir) = self {
            dir.may_stand();
        }
    }
}
