/// The bytes of a text in order.
pub type Text = crate::Items<u8>;
