//! Classes of labels that no rule separates, the shortest label of each, and a set of classes in words. A class is one label that a
//! rule distinguishes, or all other labels with the same longest beginning and the same longest ending that rules ask for.
//! `list_reach` calls it, for example `LabelClasses::of(alloc, &range, Some(requests), None)?`.
#![tactic(auto)]

mod asked_texts;
mod class_maker;
mod class_part;
mod class_parts;
mod class_rows;
mod description;
mod label_class;
mod label_classes;
mod text_tree;
mod witness;

pub use description::described;
pub use label_class::LabelClass;
pub use label_classes::LabelClasses;
