/// From which device to which a push goes, and of which partition.
#[derive(Clone, Copy)]
pub(crate) struct Route {
    pub(crate) from: u8,
    pub(crate) to: u8,
    pub(crate) part: u32,
}
