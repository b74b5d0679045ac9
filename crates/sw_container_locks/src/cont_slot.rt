use sw_container_db::ContDir;
use sw_keeper::Keeper;

/// The place of one container lock.
#[derive(Drop)]
pub enum ContSlot<K: Keeper + Drop> {
    /// The containers under it.
    Open(ContDir<K>),
    /// Its keeper is out.
    Lifted,
    /// Nothing, while a keeper is put in.
    Empty,
}
