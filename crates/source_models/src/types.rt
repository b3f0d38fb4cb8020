// What is known of models that contain themselves.
use blif_read::Name;

/// The used models by their places, each behind those that it places, or the name of the first one that contains itself.
#[derive(Drop)]
pub enum Recursion {
    Order(Vec<usize>),
    ContainsItself(Name),
}
