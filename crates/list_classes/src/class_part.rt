//! A part of a set of labels, by the places of classes.

/// The labels of the classes within a class, without those within some others.
#[derive(Drop)]
pub(crate) struct ClassPart {
    /// The place of the class.
    pub(crate) place: usize,
    /// The places of the others.
    pub(crate) except: Vec<usize>,
}
