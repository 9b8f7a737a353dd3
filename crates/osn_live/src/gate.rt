//! What the threads of a desk call around each item.
ghost use Rattle.std.specs.Prelude.{◌≡◌, ℕ, Bool, true, false, ⊤};

/// What the threads of a desk call around each item. `who` is 0 for the editor and 1 upward for the
/// readers, and `index` the item's place in its list, from 0.
pub trait Gate {
    // Whether the gate is known to let every item pass.
    ghost is_open: { Self → Bool } = { λ _. false };

    // What is known of the gate once it let the item at this place in the list of `who` pass.
    ghost let_pass: { Self → ℕ → ℕ → Type 0 } = { λ _ _ _. ⊤ };

    // What is known of the gate once it was called after this item.
    ghost saw_end: { Self → ℕ → ℕ → Type 0 } = { λ _ _ _. ⊤ };

    /// Called before an item. If it returns false, the desk ends.
    fn before(&self, who: u32, index: usize) -> bool
        ensures open { is_open self.now ≡ true → result ≡ true }
        ensures called { result ≡ true → let_pass self.now who index };

    /// Called after an item.
    fn after(&self, who: u32, index: usize)
        ensures called { saw_end self.now who index };
}

/// The gate that lets everything pass.
#[derive(Clone, Copy, Debug, Drop)]
pub struct OpenGate;

impl Gate for OpenGate {
    ghost is_open = { λ _. true };

    fn before(&self, _who: u32, _index: usize) -> bool {
        true
    }

    fn after(&self, _who: u32, _index: usize) {}
}
