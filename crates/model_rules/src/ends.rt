use crate::Meaning;

/// What an end of a binding stands for.
#[derive(Clone, Copy)]
pub enum EndMeaning {
    /// It is not known.
    Unknown,
    /// What the module declares itself.
    Own(Meaning),
    /// What the module of a child declares.
    OfChild(Meaning),
}

/// What is bound at the left end of a binding.
#[derive(Clone, Copy)]
pub enum LeftEnd {
    /// It is not known.
    Unknown,
    /// Nothing that is bound there.
    NoForm,
    /// A port of a child.
    PortOfChild,
    /// An export of the module itself.
    Export,
    /// An initiator socket of a child.
    InitiatorOfChild,
    /// A target socket of the module itself that hands calls on.
    PassTarget,
}
