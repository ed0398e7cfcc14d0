// The order to change the key.

/// An order to change the key, which a key telegram brought. It has to be spent: by installing the key, or by declining it.
pub struct ChangeOrder {
    pub(crate) own: u8,
    pub(crate) sender: u8,
    pub(crate) serial: u32,
}
