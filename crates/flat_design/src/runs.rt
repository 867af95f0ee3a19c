use model_tree::logic_values_api::Items;

/// The serials of the processes that were taken, in order of taking.
pub type Choices = Items<u32>;

/// The bytes of the text of one line of the report, its line end included.
pub type Line = Items<u8>;
