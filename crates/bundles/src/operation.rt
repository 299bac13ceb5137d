// What a part does with a bundle.

// It is added to a second bundle, or multiplied by one, which is named by its first wire; or it is multiplied by a constant.
#[derive(Clone, Copy, Debug, PartialEq, Eq)]
pub enum Operation {
    Add(u32),
    Multiply(u32),
    Scale(u64),
}
